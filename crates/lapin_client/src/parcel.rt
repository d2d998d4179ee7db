//! A message that is told from where it lies.
ghost use Rattle.std.specs.Prelude.{◌≡◌, ◌<◌, ◌≤◌, ◌+◌, ◌++◌, [], true, false, drop, length, option_map, MatchResult, IfSome};
ghost use Rattle.lapin_client.specs.Parcels.{copied, is_whole as is_whole_lem, list_in, message_bytes, message_of, Read};
ghost use Rattle.lapin_frames.specs.Headers.{properties_bytes};
ghost use Rattle.lapin_values.specs.Properties.{no_properties, properties_code};
ghost use Rattle.lapin_values.specs.Same.{same_by};

use crate::message::{Message, numbers_of};
use lapin_frames::{carried_list, put_properties};
use lapin_types::{BasicProperties, Delivery};
use std::alloc::Global;

/// A message whose octets lie as they are told: its list of properties is octets, and no longer than a frame may be.
#[derive(Drop)]
pub struct Parcel {
    pub(crate) delivery: Delivery,
    ghost whole: { is_whole_lem delivery ≡ true },
}

impl Parcel {
    // A message, where its octets lie as they are told; else it is given back.
    pub(crate) fn new(delivery: Delivery) -> Result<Parcel, Delivery>
        ensures { MatchResult result (λ p. p.delivery ≡ delivery) (λ x. (x ≡ delivery) × (is_whole_lem delivery ≡ false)) }
    {
        if is_whole(&delivery) {
            Ok(Parcel { delivery })
        } else {
            Err(delivery)
        }
    }

    // Its numbers, and how many octets each part has.
    pub(crate) fn message(&self) -> Message
        ensures { result ≡ message_of self.now.delivery }
    {
        numbers_of(&self.delivery, self.list().len())
    }

    // Its list of properties.
    #[tactic(auto, using(crate::proofs::Lists::whole_short, crate::proofs::Lists::whole_there))]
    fn list(&self) -> &[u8]
        ensures value { result.now ≡ properties_bytes self.now.delivery.properties }
        ensures short { length result.now < 4294967296 }
    {
        match list_of(&self.delivery.properties) {
            Some(list) => list,
            None => unreachable!(),
        }
    }

    // How many octets it has.
    #[tactic(auto, using(crate::proofs::Copying::four_long))]
    pub(crate) fn length(&self) -> usize
        ensures { result ≡ length (message_bytes self.now.delivery) }
    {
        let names = self.delivery.exchange.as_str().len()
            + self.delivery.routing_key.as_str().len();
        names + self.list().len() + self.delivery.payload.as_bytes().len()
    }

    // Its octets at the beginning of the room, where they fit into it. How many were written.
    pub(crate) fn copy_to(&self, out: &mut [u8]) -> usize
        ensures { Read result (message_bytes self.now.delivery) out.old out.new }
    {
        let count = self.length();
        if out.len() < count {
            return 0;
        }
        copy_parts(
            out,
            self.delivery.exchange.as_str().as_bytes(),
            self.delivery.routing_key.as_str().as_bytes(),
            self.list(),
            self.delivery.payload.as_bytes(),
        )
    }
}

// The list of no property: sixteen flags, of which none is set.
const NO_PROPERTY: [u8; 2] = [0, 0];

// The list of properties, where it lies as octets, or none is given.
fn list_of(properties: &BasicProperties) -> Option<&[u8]>
    ensures { option_map (λ list. list.now) result ≡ list_in properties.now }
{
    match carried_list(properties) {
        Some(list) => Some(list),
        None => {
            if is_bare(properties) {
                Some(&NO_PROPERTY)
            } else {
                None
            }
        }
    }
}

// Whether no property is given.
fn is_bare(properties: &BasicProperties) -> bool
    ensures { result ≡ same_by properties_code properties.now no_properties }
{
    properties.same(&BasicProperties::default())
}

// Whether the octets of a message lie as they are told.
fn is_whole(delivery: &Delivery) -> bool
    ensures { result ≡ is_whole_lem delivery.now }
{
    match list_of(&delivery.properties) {
        Some(list) => list.len() < 4294967296,
        None => false,
    }
}

/// The bytes at the beginning of the room, where they fit into it. How many were written.
pub fn copy_out(out: &mut [u8], bytes: &[u8]) -> usize
    ensures { Read result bytes.now out.old out.new }
{
    let count = bytes.len();
    if out.len() < count {
        return 0;
    }
    copy_at(out, 0, bytes)
}

// Four parts at the beginning of the room, one behind the other. How many bytes were written.
#[tactic(auto, using(crate::proofs::Copying::four_long))]
fn copy_parts(out: &mut [u8], exchange: &[u8], key: &[u8], list: &[u8], body: &[u8]) -> usize
    requires { length (exchange.now ++ key.now ++ list.now ++ body.now) ≤ length out.old }
    ensures count { result ≡ length (exchange.now ++ key.now ++ list.now ++ body.now) }
    ensures copied { out.new ≡ exchange.now ++ key.now ++ list.now ++ body.now ++ drop (length (exchange.now ++ key.now ++ list.now ++ body.now)) out.old }
{
    let at_key = copy_at(out, 0, exchange);
    let at_list = copy_at(out, at_key, key);
    let at_body = copy_at(out, at_list, list);
    copy_at(out, at_body, body)
}

// The bytes from a place of the room on. The place behind them.
fn copy_at(out: &mut [u8], at: usize, bytes: &[u8]) -> usize
    requires { at + length bytes.now ≤ length out.old }
    ensures place { result ≡ at + length bytes.now }
    ensures copied { out.new ≡ copied at bytes.now out.old }
    ensures size { length out.new ≡ length out.old }
{
    let end = at + bytes.len();
    out[at..end].copy_from_slice(bytes);
    end
}

// Adds the octets of a message whose list of properties is none that lies as it is told. How many octets each part has.
pub(crate) fn put_delivery(alloc: Global, out: &mut Vec<u8>, delivery: &Delivery) -> Option<Message>
    requires { out.old.items ≡ [] }
    ensures { IfSome result (λ m. (m ≡ message_of delivery.now) × (out.new.items ≡ message_bytes delivery.now)) }
{
    put_bytes(out, delivery.exchange.as_str().as_bytes())?;
    put_bytes(out, delivery.routing_key.as_str().as_bytes())?;
    let before = out.len();
    if put_properties(alloc, out, &delivery.properties).is_err() {
        return None;
    }
    let properties = out.len() - before;
    put_bytes(out, delivery.payload.as_bytes())?;
    Some(numbers_of(delivery, properties))
}

// Adds octets.
pub(crate) fn put_bytes(out: &mut Vec<u8>, bytes: &[u8]) -> Option<()>
    ensures { IfSome result (λ _. out.new.items ≡ out.old.items ++ bytes.now) }
{
    match out.extend_from_slice(bytes) {
        Ok(()) => Some(()),
        Err(_) => None,
    }
}
