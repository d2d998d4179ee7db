//! Copies, and what is the same: records and what they hold are the same where they are equal in every field, the number and the use of
//! an acker too, which `==` doesn't look at.
use crate::alike::{Alike, is_alike, is_equal};
use crate::texts::{channel, delivery, number, returned, short};
use lapin_types::{
    Acker, Answer, BasicGetMessage, BasicReturnMessage, Confirmation, Delivery, Error, Job,
    JobKind, NoMemory, Queue, Record, ReturnedList,
};
use std::alloc::Global;
use std::test::Fail;

impl Alike for Record {
    fn made(alloc: Global, words: &str) -> Result<Record, Fail> {
        let (kind, word) = words.split_once(' ').ok_or("a record has two words")?;
        record(alloc, kind, word)
    }

    fn copied(&self, alloc: Global) -> Result<Record, NoMemory> {
        self.try_clone(alloc)
    }

    fn is_same(&self, other: &Record) -> bool {
        self.same(other)
    }
}

impl Alike for Job {
    fn made(alloc: Global, words: &str) -> Result<Job, Fail> {
        job(alloc, words)
    }

    fn copied(&self, alloc: Global) -> Result<Job, NoMemory> {
        self.try_clone(alloc)
    }

    fn is_same(&self, other: &Job) -> bool {
        self.same(other)
    }
}

// ---- records with a message

fn record(alloc: Global, kind: &str, acker: &str) -> Result<Record, Fail> {
    match kind {
        "item" => Ok(Record::Item(Ok(Some(delivered(alloc, acker)?)))),
        "got" => Ok(Record::Answer(Ok(Answer::Got(Some(message(alloc, acker)?))))),
        "ack" => Ok(Record::Confirmed(Ok(Confirmation::Ack(Some(gone(alloc, acker)?))))),
        "nack" => Ok(Record::Confirmed(Ok(Confirmation::Nack(Some(gone(alloc, acker)?))))),
        "returned" => Ok(Record::Returned(list(alloc, acker)?)),
        "job" => Ok(Record::Job(job(alloc, acker)?)),
        "queue" => Ok(Record::Answer(Ok(Answer::Queue(queue(alloc, acker)?)))),
        _ => Ok(plain(kind, number(acker)?)),
    }
}

fn plain(kind: &str, number: u64) -> Record {
    match kind {
        "ticket" => Record::Ticket(number),
        "publish" => Record::Publish {
            ticket: number,
            confirm: 1,
        },
        "confirm" => Record::Publish {
            ticket: 1,
            confirm: number,
        },
        "answer" => Record::Answer(Ok(Answer::Confirm(number))),
        "consumer" => Record::Answer(Ok(Answer::Consumer(number))),
        "dropped" => Record::Dropped(number == 1),
        _ => Record::Refused(Error::PreconditionFailed {
            tag: 1,
            current: number,
        }),
    }
}

// A queue by its count of messages.
fn queue(alloc: Global, count: &str) -> Result<Queue, Fail> {
    let name = short(alloc, "q")?;
    Ok(Queue::new(name, channel(count)?.into(), 1))
}

fn job(alloc: Global, acker: &str) -> Result<Job, Fail> {
    let delivery = delivered(alloc, acker)?;
    Ok(Job {
        consumer: 1,
        kind: JobKind::Deliver(Ok(Some(delivery))),
    })
}

fn message(alloc: Global, acker: &str) -> Result<BasicGetMessage, Fail> {
    let delivery = delivered(alloc, acker)?;
    Ok(BasicGetMessage {
        delivery,
        message_count: 4,
    })
}

fn gone(alloc: Global, word: &str) -> Result<BasicReturnMessage, Fail> {
    returned(alloc, acker(word)?, 312, "gone")
}

fn list(alloc: Global, acker: &str) -> Result<ReturnedList, Fail> {
    let mut messages = Vec::new(alloc);
    let message = gone(alloc, acker)?;
    messages.push(message)?;
    Ok(ReturnedList::new(messages))
}

// A delivery whose acker is written as channel, tag, number and use, joined by dots.
fn delivered(alloc: Global, word: &str) -> Result<Delivery, Fail> {
    delivery(alloc, acker(word)?)
}

fn acker(word: &str) -> Result<Acker, Fail> {
    let mut parts = word.split('.');
    let channel_id = channel(parts.next().unwrap_or(""))?;
    let delivery_tag = number(parts.next().unwrap_or(""))?;
    let own = number(parts.next().unwrap_or(""))?;
    Ok(Acker {
        channel_id,
        delivery_tag,
        number: own,
        used: parts.next() == Some("used"),
    })
}

const RECORDS: &str = "\
item 1.7.2 | item 1.7.2 -> same
item 1.7.2 | item 1.7.3 -> apart
item 1.7.2 | item 1.7.2.used -> apart
item 1.7.2 | item 1.8.2 -> apart
item 1.7.2 | item 2.7.2 -> apart
got 1.7.2 | got 1.7.2 -> same
got 1.7.2 | got 1.7.3 -> apart
got 1.7.2 | got 1.7.2.used -> apart
got 1.7.2 | item 1.7.2 -> apart
ack 1.7.2.used | ack 1.7.2.used -> same
ack 1.7.2 | ack 1.7.3 -> apart
ack 1.7.2 | nack 1.7.2 -> apart
nack 1.7.2 | nack 1.7.2 -> same
nack 1.7.2 | nack 1.7.2.used -> apart
returned 1.7.2 | returned 1.7.2 -> same
returned 1.7.2 | returned 1.7.3 -> apart
job 1.7.2 | job 1.7.2 -> same
job 1.7.2 | job 1.7.3 -> apart
queue 5 | queue 5 -> same
queue 5 | queue 6 -> apart
ticket 1 | ticket 1 -> same
ticket 1 | ticket 2 -> apart
ticket 1 | answer 1 -> apart
publish 1 | publish 2 -> apart
publish 2 | confirm 2 -> apart
publish 1 | confirm 1 -> same
confirm 1 | confirm 2 -> apart
answer 1 | answer 1 -> same
answer 1 | answer 2 -> apart
answer 1 | consumer 1 -> apart
consumer 1 | consumer 2 -> apart
dropped 0 | dropped 1 -> apart
dropped 1 | dropped 1 -> same
refusal 1 | refusal 1 -> same
refusal 1 | refusal 2 -> apart
";

#[test]
fn records_are_the_same_in_every_field(rt: HostRuntime) -> Result<(), Fail> {
    for line in RECORDS.lines() {
        let (pair, wanted) = line.split_once(" -> ").ok_or("an answer is missing")?;
        let (left, right) = pair.split_once(" | ").ok_or("a record is missing")?;
        let is = is_alike::<Record>(rt.alloc(), left, right)?;
        assert_eq!(rt; is, wanted == "same", "at {line}");
    }
    Ok(())
}

// By `==` ackers are equal where their channels and delivery tags are.
const JOBS: &str = "\
1.7.2 | 1.7.2 -> same
1.7.2 | 1.7.3 -> same
1.7.2 | 1.7.2.used -> same
1.7.2 | 1.8.2 -> apart
1.7.2 | 2.7.2 -> apart
";

#[test]
fn jobs_are_equal_in_fewer_fields(rt: HostRuntime) -> Result<(), Fail> {
    for line in JOBS.lines() {
        let (pair, wanted) = line.split_once(" -> ").ok_or("an answer is missing")?;
        let (left, right) = pair.split_once(" | ").ok_or("a job is missing")?;
        let is = is_equal::<Job>(rt.alloc(), left, right)?;
        assert_eq!(rt; is, wanted == "same", "at {line}");
    }
    Ok(())
}
