//! How this side says who it is: by which of the mechanisms that a broker offers, and what it says by it (AMQP 0-9-1, section 4.2.2; PLAIN
//! and EXTERNAL are those of SASL, AMQPLAIN is the protocol's own).

ghost use Rattle.std.specs.Prelude.{◌≡◌, ◌++◌, ◌≤◌, length, OnOk, ⊤};
ghost use Rattle.lapin_fields.specs.Fits.{StringFits, Refused};
ghost use Rattle.lapin_handshake.specs.Mechanisms.{offers_of, chosen as chosen_lem, word_of, response_of, plain_response, amqplain_response, long_pair};

use crate::texts::put_short_text;
use crate::words::lists;
use lapin_fields::{WriteFault, put_counted, put_octet};

/// A way to say who this side is.
#[derive(Clone, Copy, Debug, PartialEq, Eq)]
pub enum Mechanism {
    /// The user and the password, each behind a 0.
    Plain,
    /// The user and the password as two pairs of a table.
    AmqPlain,
    /// Nothing: the broker knows this side from elsewhere, as by a certificate of TLS.
    External,
}

/// Which mechanisms a broker offers.
#[derive(Clone, Copy, Debug, PartialEq, Eq)]
pub struct Offers {
    pub plain: bool,
    pub amqplain: bool,
    pub external: bool,
}

impl Mechanism {
    /// Its name.
    pub fn word(self) -> &'static [u8]
        ensures { result.now ≡ word_of self }
    {
        match self {
            Mechanism::Plain => b"PLAIN",
            Mechanism::AmqPlain => b"AMQPLAIN",
            Mechanism::External => b"EXTERNAL",
        }
    }

    /// The mechanism that is said where this one is wanted. In the place of PLAIN it may be AMQPLAIN; in the place of EXTERNAL no other is.
    pub(crate) fn chosen(self, offers: Offers) -> Option<Mechanism>
        ensures { result ≡ chosen_lem self offers }
    {
        match self {
            Mechanism::Plain => {
                if offers.plain {
                    Some(Mechanism::Plain)
                } else if offers.amqplain {
                    Some(Mechanism::AmqPlain)
                } else {
                    None
                }
            }
            Mechanism::AmqPlain => {
                if offers.amqplain {
                    Some(Mechanism::AmqPlain)
                } else {
                    None
                }
            }
            Mechanism::External => {
                if offers.external {
                    Some(Mechanism::External)
                } else {
                    None
                }
            }
        }
    }
}

/// Which of them a list has.
pub(crate) fn offered(list: &[u8]) -> Offers
    ensures { result ≡ offers_of list.now }
{
    Offers {
        plain: lists(list, Mechanism::Plain.word()),
        amqplain: lists(list, Mechanism::AmqPlain.word()),
        external: lists(list, Mechanism::External.word()),
    }
}

/// Adds what a mechanism says.
#[tactic(auto, unfolding(crate::specs::Mechanisms::response_of))]
pub(crate) fn put_response(
    out: &mut Vec<u8>,
    mechanism: Mechanism,
    user: &[u8],
    password: &[u8],
) -> Result<(), WriteFault>
    ensures bytes { OnOk result (out.new.items ≡ out.old.items ++ response_of mechanism user.now password.now) }
    ensures refused { Refused result (StringFits (response_of mechanism user.now password.now)) }
{
    match mechanism {
        Mechanism::Plain => put_plain(out, user, password),
        Mechanism::AmqPlain => put_amqplain(out, user, password),
        Mechanism::External => Ok(()),
    }
}

// PLAIN: the user and the password, each behind a 0.
fn put_plain(out: &mut Vec<u8>, user: &[u8], password: &[u8]) -> Result<(), WriteFault>
    ensures bytes { OnOk result (out.new.items ≡ out.old.items ++ plain_response user.now password.now) }
    ensures refused { Refused result ⊤ }
{
    out.push(0)?;
    out.extend_from_slice(user)?;
    out.push(0)?;
    out.extend_from_slice(password)?;
    Ok(())
}

// A pair of a table whose value is a long text.
#[tactic(auto, unfolding(crate::specs::Mechanisms::long_pair))]
fn put_pair(out: &mut Vec<u8>, name: &[u8], value: &[u8]) -> Result<(), WriteFault>
    ensures bytes { OnOk result (out.new.items ≡ out.old.items ++ long_pair name.now value.now) }
    ensures refused { Refused result (StringFits (long_pair name.now value.now) × (length name.now ≤ 255)) }
{
    put_short_text(out, name)?;
    put_octet(out, b'S')?;
    put_counted(out, value)
}

// AMQPLAIN: the pairs LOGIN and PASSWORD of a table.
fn put_amqplain(out: &mut Vec<u8>, user: &[u8], password: &[u8]) -> Result<(), WriteFault>
    ensures bytes { OnOk result (out.new.items ≡ out.old.items ++ amqplain_response user.now password.now) }
    ensures refused { Refused result (StringFits (amqplain_response user.now password.now)) }
{
    put_pair(out, b"LOGIN", user)?;
    put_pair(out, b"PASSWORD", password)
}
