//! The rows of a class's table, as code: adding the number and the fields of a method, and reading the fields.
//!
//! A row is a method's variant, its number in the class, the fields before its flags, the flags, and the fields behind them. A field is
//! a `text`, a `table`, whose octets nobody reads, a number of 16 bits (`short`), 32 (`long`) or 64 (`wide`), or a `reply`, a text that the broker
//! tells and that is read whatever its octets are: a reply text, and the exchange and the routing key of a message. Or it is one that the standard
//! reserves and that no method here has: a number of 16 or 32 bits, a text or a long string that is empty.

macro_rules! put_field {
    (text, $alloc:ident, $out:ident, $name:ident) => { put_text($out, $name)?; };
    (reply, $alloc:ident, $out:ident, $name:ident) => { put_text($out, $name)?; };
    (table, $alloc:ident, $out:ident, $name:ident) => { put_arguments($alloc, $out, $name)?; };
    (short, $alloc:ident, $out:ident, $name:ident) => { put_short($out, *$name)?; };
    (long, $alloc:ident, $out:ident, $name:ident) => { put_long($out, *$name)?; };
    (wide, $alloc:ident, $out:ident, $name:ident) => { put_wide($out, *$name)?; };
}

macro_rules! put_reserved {
    (short, $out:ident) => { put_short($out, 0)?; };
    (long, $out:ident) => { put_long($out, 0)?; };
    (text, $out:ident) => { put_octet($out, 0)?; };
    (string, $out:ident) => { put_long($out, 0)?; };
}

macro_rules! put_flags {
    ($out:ident;) => {};
    ($out:ident; $a:ident) => { put_octet($out, packed([*$a, false, false, false, false]))?; };
    ($out:ident; $a:ident, $b:ident) => { put_octet($out, packed([*$a, *$b, false, false, false]))?; };
    ($out:ident; $a:ident, $b:ident, $c:ident) => { put_octet($out, packed([*$a, *$b, *$c, false, false]))?; };
    ($out:ident; $a:ident, $b:ident, $c:ident, $d:ident) => { put_octet($out, packed([*$a, *$b, *$c, *$d, false]))?; };
    ($out:ident; $a:ident, $b:ident, $c:ident, $d:ident, $e:ident) => { put_octet($out, packed([*$a, *$b, *$c, *$d, *$e]))?; };
}

macro_rules! take_field {
    (text, $alloc:ident, $octets:ident) => { take_text($alloc, $octets)? };
    (reply, $alloc:ident, $octets:ident) => { take_reply($alloc, $octets)? };
    (table, $alloc:ident, $octets:ident) => { take_opaque($alloc, $octets)? };
    (short, $alloc:ident, $octets:ident) => { $octets.short()? };
    (long, $alloc:ident, $octets:ident) => { $octets.long()? };
    (wide, $alloc:ident, $octets:ident) => { $octets.wide()? };
}

macro_rules! skip_reserved {
    (short, $octets:ident) => { $octets.short()?; };
    (long, $octets:ident) => { $octets.long()?; };
    (text, $octets:ident) => { skip_text($octets)?; };
    (string, $octets:ident) => { $octets.counted()?; };
}

macro_rules! put_row {
    ($method:ident, $alloc:ident, $out:ident; $methods:ident;
        $($name:ident $number:literal [$($reserved:ident),*] { $($field:ident: $of:ident),* } [$($flag:ident),*] { $($last:ident: $of_last:ident),* },)*) => {
        match $method {
            $($methods::$name { $($field,)* $($flag,)* $($last,)* } => {
                put_short($out, $number)?;
                $(put_reserved!($reserved, $out);)*
                $(put_field!($of, $alloc, $out, $field);)*
                put_flags!($out; $($flag),*);
                $(put_field!($of_last, $alloc, $out, $last);)*
                Ok(())
            })*
        }
    };
}

macro_rules! take_flags {
    ($octets:ident;) => {};
    ($octets:ident; $a:ident) => { let [$a, _, _, _, _] = unpacked($octets.octet()?); };
    ($octets:ident; $a:ident, $b:ident) => { let [$a, $b, _, _, _] = unpacked($octets.octet()?); };
    ($octets:ident; $a:ident, $b:ident, $c:ident) => { let [$a, $b, $c, _, _] = unpacked($octets.octet()?); };
    ($octets:ident; $a:ident, $b:ident, $c:ident, $d:ident) => { let [$a, $b, $c, $d, _] = unpacked($octets.octet()?); };
    ($octets:ident; $a:ident, $b:ident, $c:ident, $d:ident, $e:ident) => { let [$a, $b, $c, $d, $e] = unpacked($octets.octet()?); };
}

macro_rules! take_row {
    ($number:ident, $alloc:ident, $octets:ident; $methods:ident;
        $($name:ident $of_number:literal [$($reserved:ident),*] { $($field:ident: $of:ident),* } [$($flag:ident),*] { $($last:ident: $of_last:ident),* },)*) => {
        match $number {
            $($of_number => {
                $(skip_reserved!($reserved, $octets);)*
                $(let $field = take_field!($of, $alloc, $octets);)*
                take_flags!($octets; $($flag),*);
                $(let $last = take_field!($of_last, $alloc, $octets);)*
                Ok($methods::$name { $($field,)* $($flag,)* $($last,)* })
            })*
            _ => Err(ReadFault::Malformed),
        }
    };
}

pub(crate) use put_field;
pub(crate) use put_flags;
pub(crate) use put_reserved;
pub(crate) use put_row;
pub(crate) use skip_reserved;
pub(crate) use take_field;
pub(crate) use take_flags;
pub(crate) use take_row;
