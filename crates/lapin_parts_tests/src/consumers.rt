//! Consumers: who is handed what, and in which order, as items of its own queue or as jobs of its delegate.
use crate::alike::put;
use crate::script::{Part, Words, runs};
use crate::texts::{
    bit, channel, dash, delivery, digits, done, error, failed, number, refused, said, short,
    unread, unused,
};
use lapin_consumer::{Consumers, Switches};
use lapin_types::{
    BasicConsumeOptions, DeliveryResult, Error, Job, JobKind, NoMemory, ShortString,
};
use std::alloc::Global;
use std::test::Fail;

// Consumers, the ackers of their deliveries, and the item and the job that were given last.
#[derive(Drop)]
struct Room {
    consumers: Consumers,
    switches: Switches,
    item: Option<DeliveryResult>,
    job: Option<Job>,
}

impl Part for Room {
    fn answer(&mut self, alloc: Global, call: &Words) -> Result<String, Fail> {
        match call.name {
            "job" => self.next_job(alloc),
            "reserve-ends" => self.reserve_ends(alloc),
            "register" => self.register(alloc, call),
            "acker" => self.add_acker(alloc, channel(call.first)?, number(call.second)?),
            "usable" => bit(alloc, self.switches.usable(number(call.first)?)),
            "find" => dash(
                alloc,
                self.consumers.find(channel(call.first)?, call.second),
            ),
            "start-cancel" | "start-cancel-one" | "deregister" | "cancel" | "error" | "discard" => {
                self.on_channel(alloc, channel(call.first)?, call)
            }
            _ => self.of_consumer(alloc, number(call.first)?, call),
        }
    }
}

impl Room {
    fn new(alloc: Global) -> Result<Room, NoMemory> {
        let consumers = Consumers::new(alloc)?;
        let switches = Switches::new(alloc)?;
        Ok(Room {
            consumers,
            switches,
            item: None,
            job: None,
        })
    }

    fn register(&mut self, alloc: Global, call: &Words) -> Result<String, Fail> {
        let channel = channel(call.first)?;
        let tag = short(alloc, call.second)?;
        let queue = short(alloc, call.third)?;
        let options = BasicConsumeOptions::default();
        match self.consumers.register(alloc, channel, tag, queue, options) {
            Ok(number) => digits(alloc, number),
            Err(error) => refused(alloc, error),
        }
    }

    fn add_acker(&mut self, alloc: Global, channel: u16, tag: u64) -> Result<String, Fail> {
        match self.switches.add(alloc, channel, 1, tag) {
            Ok(number) => digits(alloc, number),
            Err(error) => refused(alloc, error),
        }
    }

    fn next_job(&mut self, alloc: Global) -> Result<String, Fail> {
        put(&mut self.job, self.consumers.next_job());
        match &self.job {
            Some(job) => job_text(alloc, job),
            None => said(alloc, "none"),
        }
    }

    fn reserve_ends(&mut self, alloc: Global) -> Result<String, Fail> {
        self.consumers.reserve_ends(alloc)?;
        said(alloc, "done")
    }

    fn on_channel(&mut self, alloc: Global, channel: u16, call: &Words) -> Result<String, Fail> {
        match call.name {
            "start-cancel" => self.consumers.start_cancel(channel),
            "start-cancel-one" => self.consumers.start_cancel_one(channel, call.second),
            "deregister" => self.consumers.deregister(alloc, channel, call.second)?,
            "cancel" => self.consumers.cancel(alloc, channel)?,
            "error" => self.consumers.error(alloc, channel, error(call.second)?)?,
            _ => {
                self.consumers
                    .drop_prefetched(alloc, channel, &mut self.switches)?
            }
        }
        said(alloc, "done")
    }

    fn of_consumer(&mut self, alloc: Global, consumer: u64, call: &Words) -> Result<String, Fail> {
        match call.name {
            "deliver" => self.deliver(alloc, consumer, call),
            "poll" => self.poll(alloc, consumer),
            "delegate" => done(alloc, self.consumers.set_delegate(alloc, consumer)),
            "reserve" => self.reserve(alloc, consumer),
            "close" => closed(alloc, self.consumers.close(consumer)),
            "would-close" => closed(alloc, self.consumers.would_close(consumer)),
            _ => self.reads(alloc, consumer, call.name),
        }
    }

    fn deliver(&mut self, alloc: Global, consumer: u64, call: &Words) -> Result<String, Fail> {
        let tag = number(call.second)?;
        let delivery = delivery(alloc, unused(1, tag, number(call.third)?))?;
        let taken = self.consumers.complete(alloc, consumer, delivery)?;
        bit(alloc, taken)
    }

    fn poll(&mut self, alloc: Global, consumer: u64) -> Result<String, Fail> {
        match self.consumers.poll_next(consumer) {
            Ok(item) => {
                put(&mut self.item, item);
                item_text(alloc, &self.item)
            }
            Err(error) => refused(alloc, error),
        }
    }

    fn reserve(&mut self, alloc: Global, consumer: u64) -> Result<String, Fail> {
        self.consumers.reserve_item(alloc, consumer)?;
        said(alloc, "done")
    }

    fn reads(&self, alloc: Global, consumer: u64, name: &str) -> Result<String, Fail> {
        match name {
            "registered" => bit(alloc, self.consumers.registered(consumer)),
            "tag" => name_text(alloc, self.consumers.tag(consumer)),
            "queue" => name_text(alloc, self.consumers.queue(consumer)),
            "channel" => channel_text(alloc, self.consumers.channel(consumer)),
            _ => unread(alloc),
        }
    }
}

fn closed(alloc: Global, answer: Result<bool, Error>) -> Result<String, Fail> {
    match answer {
        Ok(is) => bit(alloc, is),
        Err(error) => refused(alloc, error),
    }
}

fn channel_text(alloc: Global, channel: Option<u16>) -> Result<String, Fail> {
    match channel {
        Some(channel) => digits(alloc, channel.into()),
        None => said(alloc, "-"),
    }
}

fn name_text(alloc: Global, name: Option<&ShortString>) -> Result<String, Fail> {
    match name {
        Some(name) => said(alloc, name.as_str()),
        None => said(alloc, "none"),
    }
}

fn item_text(alloc: Global, item: &Option<DeliveryResult>) -> Result<String, Fail> {
    match item {
        Some(given) => given_text(alloc, given),
        None => said(alloc, "pending"),
    }
}

// An item with its delivery tag and the number of its acker, an end, or an error.
fn given_text(alloc: Global, given: &DeliveryResult) -> Result<String, Fail> {
    match given {
        Ok(Some(delivery)) => tagged(alloc, delivery.delivery_tag, delivery.acker.number),
        Ok(None) => said(alloc, "end"),
        Err(error) => failed(alloc, *error),
    }
}

fn tagged(alloc: Global, tag: u64, acker: u64) -> Result<String, Fail> {
    Ok(format!(in alloc; "item {tag} {acker}")?)
}

fn job_text(alloc: Global, job: &Job) -> Result<String, Fail> {
    let kind = kind_text(alloc, &job.kind)?;
    Ok(format!(in alloc; "{} {}", job.consumer, kind.as_str())?)
}

fn kind_text(alloc: Global, kind: &JobKind) -> Result<String, Fail> {
    match kind {
        JobKind::Deliver(given) => given_text(alloc, given),
        JobKind::Discard => said(alloc, "discard"),
    }
}

// ---- the scripts

// A consumer is handed what is delivered to it, until another takes its tag; what it has it keeps. A cancel from either side ends it
// behind what is queued, and the end is given again and again.
const TAGS: &str = "\
    poll 1 -> UnknownTicket
    delegate 1 -> UnknownTicket
    close 0 -> UnknownTicket
    would-close 1 -> UnknownTicket
    tag 1 -> none
    channel 1 -> -
    register 1 t one -> 1
    register 1 u two -> 2
    register 2 t three -> 3
    find 1 t -> 1
    find 2 t -> 3
    find 2 u -> -
    deliver 1 1 1 -> yes
    reserve 1 -> done
    deliver 1 2 2 -> yes
    poll 2 -> pending
    poll 1 -> item 1 1
    register 1 t four -> 4
    find 1 t -> 4
    registered 1 -> no
    registered 4 -> yes
    deliver 1 3 3 -> no
    deliver 4 3 3 -> yes
    deregister 1 t -> done
    find 1 t -> -
    poll 4 -> item 3 3
    poll 4 -> end
    poll 4 -> end
    poll 1 -> item 2 2
    poll 1 -> pending
    deliver 4 4 4 -> no
    deregister 1 t -> done
    queue 4 -> four
    tag 4 -> t
    channel 3 -> 2
    deliver 9 1 1 -> no";

// A consumer is closed once, and not where it isn't active or isn't registered. It is served until its cancel is answered.
const CLOSES: &str = "\
    register 1 t q -> 1
    register 1 u q -> 2
    register 1 v q -> 3
    would-close 1 -> yes
    close 1 -> yes
    close 1 -> no
    would-close 1 -> no
    deliver 1 1 1 -> yes
    start-cancel-one 1 u -> done
    start-cancel-one 1 w -> done
    would-close 2 -> no
    registered 2 -> yes
    deliver 2 2 2 -> yes
    register 1 v q -> 4
    close 3 -> no
    deregister 1 t -> done
    poll 1 -> item 1 1
    poll 1 -> end
    close 1 -> no
    deregister 1 u -> done
    poll 2 -> item 2 2
    poll 2 -> end
    delegate 4 -> done
    close 4 -> no";

// At an end each registered consumer of the channel gets the error, where there is one, and then its end.
const ENDS: &str = "\
    register 1 t q -> 1
    register 1 u q -> 2
    register 2 t q -> 3
    register 1 u q -> 4
    deliver 1 1 1 -> yes
    reserve-ends -> done
    error 1 lost -> done
    cancel 2 -> done
    poll 1 -> item 1 1
    poll 1 -> failed ConnectionLost
    poll 1 -> end
    poll 2 -> pending
    poll 3 -> end
    poll 4 -> failed ConnectionLost
    poll 4 -> end
    registered 1 -> no
    registered 3 -> no
    find 1 t -> -
    error 1 404 -> done
    poll 1 -> end
    cancel 9 -> done
    register 1 t q -> 5
    poll 5 -> pending";

// A delegate's mark makes jobs of what is queued and of what comes, in one order over all consumers. A cancel that was asked for takes
// the mark away; a consumer whose mark stands has its error and its end as jobs.
const JOBS: &str = "\
    job -> none
    register 1 t q -> 1
    register 1 u q -> 2
    register 1 v q -> 3
    deliver 1 1 1 -> yes
    deliver 2 2 2 -> yes
    deliver 1 3 3 -> yes
    delegate 1 -> done
    poll 1 -> pending
    deliver 1 4 4 -> yes
    deliver 2 5 5 -> yes
    delegate 2 -> done
    deliver 1 6 6 -> yes
    start-cancel-one 1 u -> done
    deliver 2 7 7 -> yes
    job -> 1 item 1 1
    job -> 1 item 3 3
    job -> 1 item 4 4
    job -> 2 item 2 2
    job -> 2 item 5 5
    job -> 1 item 6 6
    job -> none
    poll 2 -> item 7 7
    deliver 3 8 8 -> yes
    error 1 404 -> done
    job -> 1 failed ProtocolError 404
    job -> 1 end
    job -> none
    poll 1 -> end
    poll 2 -> failed ProtocolError 404
    poll 2 -> end
    poll 3 -> item 8 8
    delegate 3 -> done
    job -> 3 failed ProtocolError 404
    job -> 3 end
    job -> none
    poll 3 -> end";

// A close of the channel takes the marks away, so that its ends are items.
const MARKS: &str = "\
    register 1 t q -> 1
    register 1 u q -> 2
    delegate 1 -> done
    start-cancel 1 -> done
    deliver 1 1 1 -> yes
    delegate 2 -> done
    deliver 2 2 2 -> yes
    cancel 1 -> done
    job -> none
    poll 1 -> item 1 1
    poll 1 -> end
    poll 2 -> item 2 2
    poll 2 -> end";

// What was handed to the registered consumers of a channel is void: their queues are empty and their ackers unusable. Each that has a
// mark gets a job to discard; jobs that stand before it stay, with their ackers.
const DISCARDS: &str = "\
    register 1 t q -> 1
    register 1 u q -> 2
    register 2 t q -> 3
    register 1 v q -> 4
    acker 1 11 -> 1
    acker 1 12 -> 2
    acker 1 13 -> 3
    acker 2 14 -> 4
    acker 1 15 -> 5
    deliver 1 11 1 -> yes
    deliver 1 12 2 -> yes
    deliver 4 15 5 -> yes
    poll 1 -> item 11 1
    delegate 2 -> done
    deliver 2 13 3 -> yes
    deliver 3 14 4 -> yes
    register 1 v q -> 5
    discard 9 -> done
    discard 1 -> done
    poll 1 -> pending
    usable 1 -> yes
    usable 2 -> no
    usable 3 -> yes
    usable 4 -> yes
    usable 5 -> yes
    job -> 2 item 13 3
    job -> 2 discard
    job -> none
    poll 3 -> item 14 4
    poll 4 -> item 15 5";

#[test]
fn consumers_are_handed_what_is_theirs(rt: HostRuntime) -> Result<(), Fail> {
    for script in [TAGS, CLOSES, ENDS, JOBS, MARKS, DISCARDS] {
        runs(&rt, rt.alloc(), Room::new(rt.alloc())?, script)?;
    }
    Ok(())
}
