//! Flags, packed into an octet from its lowest bit (AMQP 0-9-1, section 4.2.5.2).

ghost use Rattle.std.specs.Prelude.{◌≡◌, ◌≤◌, ◌+◌, ◌*◌, ◌∷◌, []};
ghost use Rattle.lapin_fields.specs.Reading.{bit_at};
ghost use Rattle.lapin_fields.specs.Fields.{bit as bit_of, bits};

/// A flag as a number.
pub fn bit(flag: bool) -> u8
    ensures value { result ≡ bit_of flag }
    ensures small { result ≤ 1 }
{
    if flag { 1 } else { 0 }
}

// A flag in the lowest bit, and above it those behind it, at most seven.
#[inline(always)]
fn below(flag: bool, behind: u8) -> u8
    requires { behind ≤ 127 }
    ensures value { result ≡ bit_of flag + 2 * behind }
    ensures small { result ≤ 2 * behind + 1 }
{
    bit(flag) + 2 * behind
}

/// Flags in one octet, the first in the lowest bit.
pub fn packed(flags: [bool; 5]) -> u8
    ensures { result ≡ bits flags }
{
    let [a, b, c, d, e] = flags;
    below(a, below(b, below(c, below(d, bit(e)))))
}

/// Flags in one whole octet, the first in the lowest bit.
pub fn packed_whole(flags: [bool; 8]) -> u8
    ensures { result ≡ bits flags }
{
    let [a, b, c, d, e, f, g, h] = flags;
    let high = below(e, below(f, below(g, bit(h))));
    below(a, below(b, below(c, below(d, high))))
}

/// The flags that stand in one octet.
pub fn unpacked(byte: u8) -> [bool; 5]
    ensures { result ≡ bit_at 1 byte ∷ bit_at 2 byte ∷ bit_at 4 byte ∷ bit_at 8 byte ∷ bit_at 16 byte ∷ [] }
{
    [
        byte % 2 == 1,
        byte / 2 % 2 == 1,
        byte / 4 % 2 == 1,
        byte / 8 % 2 == 1,
        byte / 16 % 2 == 1,
    ]
}
