//! Contents: which header and body belong to what was announced, and what an unexpected one leaves.
use crate::alike::put;
use crate::script::{Part, Words, runs};
use crate::texts::{
    bit, channel, dash, digits, number, optional, payload, refused, said, short, unread,
};
use lapin_content::{Contents, Start, Whole};
use lapin_types::{BasicProperties, ContentHeader, Error, NoMemory};
use std::alloc::Global;
use std::test::Fail;

// Contents, what was whole last, and what was reset last.
#[derive(Drop)]
struct Table {
    contents: Contents,
    whole: Option<Whole>,
    reset: Option<Start>,
}

impl Part for Table {
    fn answer(&mut self, alloc: Global, call: &Words) -> Result<String, Fail> {
        if call.name == "drop-all" {
            self.contents.drop_all();
            return said(alloc, "done");
        }
        let channel = channel(call.first)?;
        match call.name {
            "deliver" => self.expect(alloc, channel, 60, delivered(alloc, call.second)?),
            "deliver-of" => {
                let class_id = class(call.third)?;
                self.expect(alloc, channel, class_id, delivered(alloc, call.second)?)
            }
            "get" => self.expect(alloc, channel, 60, got(alloc, call)?),
            "return" => self.expect(alloc, channel, 60, came_back(alloc, call.second)?),
            "header" => self.header(alloc, channel, call),
            "body" => self.body(alloc, channel, call.second),
            _ => self.reads(alloc, channel, call),
        }
    }
}

impl Table {
    fn new(alloc: Global) -> Result<Table, NoMemory> {
        let contents = Contents::new(alloc)?;
        Ok(Table {
            contents,
            whole: None,
            reset: None,
        })
    }

    fn expect(
        &mut self,
        alloc: Global,
        channel: u16,
        class_id: u16,
        start: Start,
    ) -> Result<String, Fail> {
        self.contents.expect(alloc, channel, class_id, start)?;
        said(alloc, "done")
    }

    fn header(&mut self, alloc: Global, channel: u16, call: &Words) -> Result<String, Fail> {
        let header = ContentHeader {
            class_id: class(call.second)?,
            body_size: number(call.third)?,
            properties: properties(call.fourth)?,
        };
        let heard = self.contents.header(alloc, channel, header);
        self.heard(alloc, heard)
    }

    fn body(&mut self, alloc: Global, channel: u16, word: &str) -> Result<String, Fail> {
        let payload = payload(alloc, word)?;
        let heard = self.contents.body(alloc, channel, payload);
        self.heard(alloc, heard)
    }

    fn heard(
        &mut self,
        alloc: Global,
        heard: Result<Option<Whole>, Error>,
    ) -> Result<String, Fail> {
        match heard {
            Ok(whole) => {
                put(&mut self.whole, whole);
                whole_text(alloc, &self.whole)
            }
            Err(error) => refused(alloc, error),
        }
    }

    // The front, as it is for another ticket and another consumer.
    fn reset_for(
        &mut self,
        alloc: Global,
        channel: u16,
        other: Option<u64>,
    ) -> Result<String, Fail> {
        let start = match self.contents.reset(channel) {
            Some(start) => Some(start.for_ticket(other).for_consumer(other)),
            None => None,
        };
        put(&mut self.reset, start);
        front_text(alloc, self.reset.as_ref())
    }

    fn reads(&mut self, alloc: Global, channel: u16, call: &Words) -> Result<String, Fail> {
        match call.name {
            "reset" => {
                put(&mut self.reset, self.contents.reset(channel));
                front_text(alloc, self.reset.as_ref())
            }
            "reset-for" => self.reset_for(alloc, channel, optional(call.second)?),
            "drop" => {
                self.contents.drop_channel(channel);
                said(alloc, "done")
            }
            "front" => front_text(alloc, self.contents.front(channel)),
            "awaits" => dash(alloc, self.contents.awaits(channel)),
            "hears" => bit(
                alloc,
                self.contents.hears_header(channel, class(call.second)?),
            ),
            "takes" => bit(
                alloc,
                self.contents.hears_body(channel, call.second.as_bytes()),
            ),
            _ => unread(alloc),
        }
    }
}

// A class.
fn class(word: &str) -> Result<u16, Fail> {
    channel(word)
}

// Properties with a priority, or with none where the word is a dash.
fn properties(word: &str) -> Result<BasicProperties, Fail> {
    match optional(word)? {
        Some(priority) => Ok(BasicProperties::default().with_priority(lowest(priority))),
        None => Ok(BasicProperties::default()),
    }
}

fn lowest(number: u64) -> u8 {
    number.to_le_bytes()[0]
}

// ---- what begins a content

fn delivered(alloc: Global, tag: &str) -> Result<Start, Fail> {
    let delivery_tag = number(tag)?;
    Ok(Start::Deliver {
        consumer: Some(7),
        delivery_tag,
        exchange: short(alloc, "x")?,
        routing_key: short(alloc, "q")?,
        redelivered: true,
    })
}

fn got(alloc: Global, call: &Words) -> Result<Start, Fail> {
    let ticket = optional(call.second)?;
    Ok(Start::Get {
        ticket,
        delivery_tag: 9,
        exchange: short(alloc, "x")?,
        routing_key: short(alloc, "q")?,
        redelivered: false,
        message_count: 4,
    })
}

fn came_back(alloc: Global, text: &str) -> Result<Start, Fail> {
    Ok(Start::Return {
        reply_code: 312,
        reply_text: short(alloc, text)?,
        exchange: short(alloc, "x")?,
        routing_key: short(alloc, "q")?,
    })
}

// ---- answers in words

fn front_text(alloc: Global, start: Option<&Start>) -> Result<String, Fail> {
    match start {
        Some(start) => start_text(alloc, start),
        None => said(alloc, "none"),
    }
}

fn start_text(alloc: Global, start: &Start) -> Result<String, Fail> {
    match start {
        Start::Deliver {
            delivery_tag,
            consumer,
            ..
        } => {
            let consumer = dash(alloc, *consumer)?;
            Ok(format!(in alloc; "deliver {delivery_tag} {}", consumer.as_str())?)
        }
        Start::Get { ticket, .. } => {
            let ticket = dash(alloc, *ticket)?;
            Ok(format!(in alloc; "get {}", ticket.as_str())?)
        }
        Start::Return { reply_text, .. } => {
            Ok(format!(in alloc; "return {}", reply_text.as_str())?)
        }
    }
}

// What began a whole content, its length and its priority.
fn whole_text(alloc: Global, whole: &Option<Whole>) -> Result<String, Fail> {
    match whole {
        Some(whole) => told(alloc, whole),
        None => said(alloc, "more"),
    }
}

fn told(alloc: Global, whole: &Whole) -> Result<String, Fail> {
    let start = start_text(alloc, &whole.start)?;
    let priority = priority_text(alloc, whole.properties.priority())?;
    let bytes = std::str::from_utf8(whole.payload.as_bytes()).unwrap_or("?");
    Ok(format!(in alloc; "{} {} [{bytes}]", start.as_str(), priority.as_str())?)
}

fn priority_text(alloc: Global, priority: Option<u8>) -> Result<String, Fail> {
    match priority {
        Some(priority) => digits(alloc, priority.into()),
        None => said(alloc, "-"),
    }
}

// ---- the scripts

// Each content goes by its own header and bodies, in the order in which they were announced, a channel apart from the others. A body
// of no bytes changes nothing, and a content of no bytes is whole with its header.
const SEVERAL: &str = "\
    front 1 -> none
    awaits 1 -> -
    deliver 1 1 -> done
    get 1 5 -> done
    return 1 gone -> done
    deliver 2 2 -> done
    get 2 - -> done
    front 1 -> deliver 1 7
    awaits 1 -> -
    hears 1 60 -> yes
    hears 1 50 -> no
    takes 1 a -> no
    header 1 60 5 3 -> more
    awaits 1 -> 5
    hears 1 60 -> no
    takes 1 abcde -> yes
    takes 1 abcdef -> no
    body 1 abc -> more
    header 2 60 0 - -> deliver 2 7 - []
    body 1 - -> more
    awaits 1 -> 2
    front 2 -> get -
    body 1 de -> deliver 1 7 3 [abcde]
    front 1 -> get 5
    header 1 60 0 9 -> get 5 9 []
    front 1 -> return gone
    header 1 60 1 - -> more
    body 1 z -> return gone - [z]
    front 1 -> none
    awaits 1 -> -";

// Any other header or body is unexpected, told by its class, and takes the front with it.
const UNEXPECTED: &str = "\
    header 1 60 0 - -> UnexpectedFrame 60 0
    body 1 a -> UnexpectedFrame 0 0
    body 1 - -> UnexpectedFrame 0 0
    deliver 1 1 -> done
    deliver 1 2 -> done
    deliver 1 3 -> done
    deliver 1 4 -> done
    deliver 1 5 -> done
    deliver-of 1 6 50 -> done
    header 1 50 0 - -> UnexpectedFrame 50 0
    front 1 -> deliver 2 7
    body 1 a -> UnexpectedFrame 0 0
    front 1 -> deliver 3 7
    body 1 - -> UnexpectedFrame 0 0
    front 1 -> deliver 4 7
    header 1 60 2 - -> more
    header 1 60 2 - -> UnexpectedFrame 60 0
    front 1 -> deliver 5 7
    header 1 60 2 - -> more
    body 1 a -> more
    body 1 bc -> UnexpectedFrame 0 0
    front 1 -> deliver 6 7
    hears 1 60 -> no
    header 1 60 0 - -> UnexpectedFrame 60 0
    front 1 -> none
    header 2 60 0 - -> UnexpectedFrame 60 0";

// An end drops what its channel expects, one by one or at once.
const DROPS: &str = "\
    reset 1 -> none
    drop 1 -> done
    deliver 1 1 -> done
    header 1 60 3 - -> more
    body 1 a -> more
    get 1 5 -> done
    deliver 2 2 -> done
    deliver 3 3 -> done
    reset 1 -> deliver 1 7
    awaits 1 -> -
    header 1 60 0 - -> get 5 - []
    reset 1 -> none
    return 2 gone -> done
    drop 2 -> done
    front 2 -> none
    deliver 2 4 -> done
    header 2 60 0 - -> deliver 4 7 - []
    front 3 -> deliver 3 7
    deliver 2 5 -> done
    drop-all -> done
    front 2 -> none
    front 3 -> none
    deliver 3 6 -> done
    header 3 60 0 - -> deliver 6 7 - []
    deliver 1 8 -> done
    get 1 5 -> done
    return 1 gone -> done
    reset-for 1 9 -> deliver 8 9
    reset-for 1 - -> get -
    reset-for 1 9 -> return gone
    reset-for 1 9 -> none";

#[test]
fn contents_are_put_together(rt: HostRuntime) -> Result<(), Fail> {
    for script in [SEVERAL, UNEXPECTED, DROPS] {
        runs(&rt, rt.alloc(), Table::new(rt.alloc())?, script)?;
    }
    Ok(())
}
