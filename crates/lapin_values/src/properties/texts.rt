//! The texts among a message's properties: those that are set stand in a chain, each with the number of its property. A short string
//! lies in a link of its own, so to chain one takes no memory. Of ten, most messages set none or few. The small properties
//! stand in room that a chain has anyway, the marks where it begins and the timestamp where it ends. Headers don't stand here.

ghost use Rattle.std.specs.Prelude.{◌≡◌, ℕ, ◌<◌, ◌==◌, [], ◌∷◌, Some, IfOk, option_map, if◌then◌else◌};
ghost use Rattle.std.specs.Bool.{Decides};
ghost use Rattle.lapin_values.specs.Texts.{text_of, without};
ghost use Rattle.lapin_values.specs.Chain.{no_marks, empty_chain};

use crate::kept::Stored;
use crate::memory::NoMemory;
use crate::text::{self, ShortString};
use std::alloc::Global;
use std::marker::Model;
use std::mem;

/// The numbers of the properties that are texts, in the order of the standard.
pub(crate) const CONTENT_TYPE: u8 = 0;

pub(crate) const CONTENT_ENCODING: u8 = 1;

pub(crate) const CORRELATION_ID: u8 = 2;

pub(crate) const REPLY_TO: u8 = 3;

pub(crate) const EXPIRATION: u8 = 4;

pub(crate) const MESSAGE_ID: u8 = 5;

pub(crate) const KIND: u8 = 6;

pub(crate) const USER_ID: u8 = 7;

pub(crate) const APP_ID: u8 = 8;

pub(crate) const CLUSTER_ID: u8 = 9;

/// What a short string points to: its text, and the room by which it is chained among the texts of a message's properties. Outside a
/// chain the number means nothing, and no text follows.
#[cycle(texts)]
#[derive(Drop)]
pub(crate) struct Link {
    pub(crate) text: Stored,
    property: u8,
    next: Texts,
}

/// A short string as it lies in memory: the pointer to its link. A contract sees all of it, the texts that follow too.
#[cycle(texts)]
#[derive(Drop)]
pub(crate) struct Place {
    pub(crate) link: Box<Link>,
}

/// The properties that are a byte, and which of the others are set that are no texts.
#[derive(Clone, Copy)]
pub(crate) struct Marks {
    pub(crate) has_headers: bool,
    pub(crate) has_timestamp: bool,
    pub(crate) delivery_mode: Option<u8>,
    pub(crate) priority: Option<u8>,
}

/// What a chain begins with: a text or its end. The marks lie beside the tag, so that a chain is two words wide. Those of the whole are
/// where it begins; further on they mean nothing.
#[cycle(texts)]
#[derive(Drop)]
enum First {
    /// The end, where nothing is set.
    Nothing,
    End { marks: Marks, timestamp: u64 },
    Text { marks: Marks, place: Place },
}

/// A chain of texts, each with the number of its property, with the marks and the timestamp. A contract sees it as the record `Chain`.
#[cycle(texts)]
#[derive(Drop)]
pub(crate) struct Texts {
    first: First,
}

impl Model for Texts {
    ghost use Rattle.std.specs.Prelude.{length};
    ghost use Rattle.std.proofs.Common.{arith, length-append};
    ghost use Rattle.lapin_values.specs.Chain.{Chain, chain_code};

    ghost Value = { Chain };

    ghost coded = { chain_code };

    ghost use Rattle.lapin_values.specs.Chained.{chained, IsShort};

    ghost view = { λ t. chained t.first };

    ghost invariant = { λ t. IsShort t.first };

    ghost size = { λ t. length t.texts };

    ghost size_decreases = { λ a h. Prim.grind (arith, length-append) };
}

impl Marks {
    /// None is set.
    fn none() -> Marks
        ensures { result ≡ no_marks }
    {
        Marks {
            has_headers: false,
            has_timestamp: false,
            delivery_mode: None,
            priority: None,
        }
    }
}

impl Link {
    /// A text in no chain.
    pub(crate) fn alone(text: Stored) -> Link
        ensures { result.text ≡ text }
    {
        Link {
            text,
            property: 0,
            next: Texts::none(),
        }
    }
}

impl Texts {
    /// Nothing is set.
    pub(crate) fn none() -> Texts
        ensures { result ≡ empty_chain }
    {
        Texts {
            first: First::Nothing,
        }
    }

    /// The text of the property of that number, where it is set. Mostly none is, and then none is looked for.
    #[inline(always)]
    pub(crate) fn get(&self, property: u8) -> Option<&ShortString>
        ensures { option_map (λ text. text.now) result ≡ text_of property self.now.texts }
    {
        match &self.first {
            First::Nothing => None,
            First::End { .. } => None,
            First::Text { .. } => self.find(property),
        }
    }

    fn find(&self, property: u8) -> Option<&ShortString>
        ensures { option_map (λ text. text.now) result ≡ text_of property self.now.texts }
    {
        match &self.first {
            First::Nothing => None,
            First::End { .. } => None,
            First::Text { place, .. } => {
                if property == place.link.property {
                    Some(text::at(place))
                } else {
                    place.link.next.find(property)
                }
            }
        }
    }

    /// The marks.
    #[inline(always)]
    pub(crate) fn marks(&self) -> Marks
        ensures { result ≡ self.now.marks }
    {
        match &self.first {
            First::Nothing => Marks::none(),
            First::End { marks, .. } => *marks,
            First::Text { marks, .. } => *marks,
        }
    }

    /// Sets the marks.
    pub(crate) fn put_marks(&mut self, given: Marks)
        ensures { self.new ≡ record self.old { marks = given } }
    {
        match &mut self.first {
            First::Nothing => {
                self.first = First::End {
                    marks: given,
                    timestamp: 0,
                }
            }
            First::End { marks, .. } => *marks = given,
            First::Text { marks, .. } => *marks = given,
        }
    }

    /// The timestamp, which means something where the marks say that it is set.
    pub(crate) fn timestamp(&self) -> u64
        ensures { result ≡ self.now.timestamp }
    {
        match &self.first {
            First::Nothing => 0,
            First::End { timestamp, .. } => *timestamp,
            First::Text { place, .. } => place.link.next.timestamp(),
        }
    }

    /// Sets the timestamp, and no mark.
    pub(crate) fn put_timestamp(&mut self, given: u64)
        ensures { self.new ≡ record self.old { timestamp = given } }
    {
        match &mut self.first {
            First::Nothing => {
                self.first = First::End {
                    marks: Marks::none(),
                    timestamp: given,
                }
            }
            First::End { timestamp, .. } => *timestamp = given,
            First::Text { place, .. } => place.link.next.put_timestamp(given),
        }
    }

    /// Texts equal to these.
    ///
    /// # Errors
    ///
    /// `NoMemory`.
    pub(crate) fn try_clone(&self, alloc: Global) -> Result<Texts, NoMemory>
        ensures { IfOk result (λ copy. copy ≡ self.now) }
    {
        match &self.first {
            First::Nothing => Ok(Texts::none()),
            First::End { marks, timestamp } => Ok(Texts {
                first: First::End {
                    marks: *marks,
                    timestamp: *timestamp,
                },
            }),
            First::Text { marks, place } => {
                let next = place.link.next.try_clone(alloc)?;
                let text = place.link.text.try_clone(alloc)?;
                let link = Link {
                    text,
                    property: place.link.property,
                    next,
                };
                let link = Box::new(alloc, link)?;
                Ok(Texts {
                    first: First::Text {
                        marks: *marks,
                        place: Place { link },
                    },
                })
            }
        }
    }

    /// These texts without that of the property of that number. The marks are then no matter.
    fn without(self, property: u8) -> Texts
        ensures texts { result.texts ≡ without property self.texts }
        ensures timestamp { result.timestamp ≡ self.timestamp }
    {
        match self.first {
            First::Nothing => Texts::none(),
            First::End { marks, timestamp } => Texts {
                first: First::End { marks, timestamp },
            },
            First::Text { marks, mut place } => {
                let next = mem::replace(&mut place.link.next, Texts::none()).without(property);
                if property == place.link.property {
                    return next;
                }
                place.link.next = next;
                Texts {
                    first: First::Text { marks, place },
                }
            }
        }
    }

    /// The text before these, with these marks.
    fn with(self, marks: Marks, property: u8, text: ShortString) -> Texts
        ensures { result ≡ record self { texts = (property, text) ∷ self.texts; marks = marks } }
    {
        let mut place = text.into_place();
        place.link.property = property;
        place.link.next = self;
        Texts {
            first: First::Text { marks, place },
        }
    }
}

/// Sets the property of that number to the text.
pub(crate) fn put_text(texts: &mut Texts, property: u8, text: ShortString)
    ensures text { (n : ℕ) → text_of n texts.new.texts ≡ (if n == property then Some text else text_of n texts.old.texts) }
    ensures marks { texts.new.marks ≡ texts.old.marks }
    ensures timestamp { texts.new.timestamp ≡ texts.old.timestamp }
{
    let marks = texts.marks();
    let before = mem::replace(texts, Texts::none());
    *texts = before.without(property).with(marks, property, text);
}

fn same_text(a: Option<&ShortString>, b: Option<&ShortString>) -> bool
    ensures { Decides result (option_map (λ text. text.now) a.entry ≡ option_map (λ text. text.now) b.entry) }
{
    match (a, b) {
        (Some(a), Some(b)) => a == b,
        (None, None) => true,
        _ => false,
    }
}

/// Whether the same properties are set, to equal texts.
pub(crate) fn same_texts(texts: &Texts, other: &Texts) -> bool
    ensures { Decides result ((n : ℕ) → n < 10 → text_of n texts.now.texts ≡ text_of n other.now.texts) }
{
    for property in 0..10 {
        if !same_text(texts.get(property), other.get(property)) {
            return false;
        }
    }
    true
}
