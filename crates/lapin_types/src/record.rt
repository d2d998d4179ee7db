//! The records of a session: what each step answered. Which record an event has stands in the crates above.

ghost use Rattle.std.specs.Prelude.{◌≡◌, IfOk};
ghost use Rattle.std.specs.Bool.{Decides};
ghost use Rattle.lapin_methods.specs.declared.frame.Frame.TheVariants as frame_;
ghost use Rattle.lapin_methods.specs.declared.method.Method.TheVariants as method_;
ghost use Rattle.lapin_types.specs.declared.record.Record.TheVariants as told;

use crate::answer::Answer;
use crate::confirmation::Confirmation;
use crate::job::Job;
use crate::message::{DeliveryResult, copied_result, same_result};
use crate::returned::ReturnedList;
use lapin_methods::{
    BasicMethod, ChannelState, ConnectionState, ContentHeader, Error, Frame, Method,
};
use lapin_values::NoMemory;
use std::alloc::Global;

/// What a step answered.
#[derive(Debug, Drop)]
pub enum Record {
    /// A call was accepted: its ticket.
    Ticket(u64),
    /// A publish was accepted.
    Publish {
        /// Its ticket.
        ticket: u64,
        /// Its confirm number.
        confirm: u64,
    },
    /// The step was refused.
    Refused(Error),
    /// The frame that leaves.
    Frame(Frame),
    /// No frame leaves.
    NoFrame,
    /// The frame was received.
    Received,
    /// The frame was passed over.
    Passed,
    /// The result isn't here yet.
    Pending,
    /// The result of a ticket.
    Answer(Result<Answer, Error>),
    /// The outcome of a publish.
    Confirmed(Result<Confirmation, Error>),
    /// The next item of a consumer: a delivery, its end, or the error that ended its channel.
    Item(DeliveryResult),
    /// The returned messages of a channel whose confirms were waited for.
    Returned(ReturnedList),
    /// The ticket or the confirm is set aside.
    Aside,
    /// The acker isn't usable.
    No,
    /// The consumer has a delegate.
    Delegated,
    /// The consumer is dropped; whether its `basic.cancel` was queued.
    Dropped(bool),
    /// The next job.
    Job(Job),
    /// There is no job.
    NoJob,
    /// The states of the connection and of a channel.
    State(ConnectionState, ChannelState),
    /// The connection is lost.
    Lost,
}

impl Record {
    /// An equal record, in memory of its own.
    pub fn try_clone(&self, alloc: Global) -> Result<Record, NoMemory>
        ensures { IfOk result (λ copy. copy ≡ self.now) }
    {
        match self {
            Record::Ticket(number) => Ok(Record::Ticket(*number)),
            Record::Publish { ticket, confirm } => Ok(Record::Publish {
                ticket: *ticket,
                confirm: *confirm,
            }),
            Record::Refused(error) => Ok(Record::Refused(*error)),
            Record::Frame(frame) => copied_frame(frame, alloc),
            Record::NoFrame => Ok(Record::NoFrame),
            Record::Received => Ok(Record::Received),
            Record::Passed => Ok(Record::Passed),
            Record::Pending => Ok(Record::Pending),
            Record::Answer(answer) => copied_answer(answer, alloc),
            Record::Confirmed(outcome) => copied_outcome(outcome, alloc),
            Record::Item(given) => copied_item(given, alloc),
            Record::Returned(messages) => copied_messages(messages, alloc),
            Record::Aside => Ok(Record::Aside),
            Record::No => Ok(Record::No),
            Record::Delegated => Ok(Record::Delegated),
            Record::Dropped(cancels) => Ok(Record::Dropped(*cancels)),
            Record::Job(job) => copied_job(job, alloc),
            Record::NoJob => Ok(Record::NoJob),
            Record::State(connection, channel) => Ok(Record::State(*connection, *channel)),
            Record::Lost => Ok(Record::Lost),
        }
    }

    /// Whether two records are equal in every field, number and use of ackers too.
    pub fn same(&self, other: &Record) -> bool
        ensures { Decides result (self.now ≡ other.now) }
    {
        match (self, other) {
            (Record::Ticket(left), Record::Ticket(right)) => left == right,
            (
                Record::Publish {
                    ticket: a,
                    confirm: b,
                },
                Record::Publish { ticket, confirm },
            ) => a == ticket && b == confirm,
            (Record::Refused(left), Record::Refused(right)) => left == right,
            (Record::Frame(left), Record::Frame(right)) => left.same(right),
            (Record::NoFrame, Record::NoFrame) => true,
            (Record::Received, Record::Received) => true,
            (Record::Passed, Record::Passed) => true,
            (Record::Pending, Record::Pending) => true,
            (Record::Answer(left), Record::Answer(right)) => same_answer(left, right),
            (Record::Confirmed(left), Record::Confirmed(right)) => same_outcome(left, right),
            (Record::Item(left), Record::Item(right)) => same_result(left, right),
            (Record::Returned(left), Record::Returned(right)) => left.same(right),
            (Record::Aside, Record::Aside) => true,
            (Record::No, Record::No) => true,
            (Record::Delegated, Record::Delegated) => true,
            (Record::Dropped(left), Record::Dropped(right)) => left == right,
            (Record::Job(left), Record::Job(right)) => left.same(right),
            (Record::NoJob, Record::NoJob) => true,
            (Record::State(a, b), Record::State(connection, channel)) => {
                a == connection && b == channel
            }
            (Record::Lost, Record::Lost) => true,
            _ => false,
        }
    }
}

fn copied_frame(frame: &Frame, alloc: Global) -> Result<Record, NoMemory>
    ensures { IfOk result (λ copy. copy ≡ told.Frame frame.now) }
{
    match frame {
        Frame::Method(channel, Method::Basic(method)) => copied_basic(*channel, method, alloc),
        Frame::Header(channel, header) => copied_header(*channel, header, alloc),
        _ => copied_other_frame(frame, alloc),
    }
}

#[inline(never)]
fn copied_basic(channel: u16, method: &BasicMethod, alloc: Global) -> Result<Record, NoMemory>
    ensures { IfOk result (λ copy. copy ≡ told.Frame (frame_.Method channel (method_.Basic method.now))) }
{
    let Ok(method) = method.try_clone(alloc) else {
        return Err(NoMemory);
    };
    Ok(Record::Frame(Frame::Method(channel, Method::Basic(method))))
}

#[inline(never)]
fn copied_header(channel: u16, header: &ContentHeader, alloc: Global) -> Result<Record, NoMemory>
    ensures { IfOk result (λ copy. copy ≡ told.Frame (frame_.Header channel header.now)) }
{
    let Ok(header) = header.try_clone(alloc) else {
        return Err(NoMemory);
    };
    Ok(Record::Frame(Frame::Header(channel, header)))
}

#[inline(never)]
fn copied_other_frame(frame: &Frame, alloc: Global) -> Result<Record, NoMemory>
    ensures { IfOk result (λ copy. copy ≡ told.Frame frame.now) }
{
    let Ok(frame) = frame.try_clone(alloc) else {
        return Err(NoMemory);
    };
    Ok(Record::Frame(frame))
}

#[inline(never)]
fn copied_item(given: &DeliveryResult, alloc: Global) -> Result<Record, NoMemory>
    ensures { IfOk result (λ copy. copy ≡ told.Item given.now) }
{
    let Ok(given) = copied_result(given, alloc) else {
        return Err(NoMemory);
    };
    Ok(Record::Item(given))
}

#[inline(never)]
fn copied_job(job: &Job, alloc: Global) -> Result<Record, NoMemory>
    ensures { IfOk result (λ copy. copy ≡ told.Job job.now) }
{
    let Ok(job) = job.try_clone(alloc) else {
        return Err(NoMemory);
    };
    Ok(Record::Job(job))
}

#[inline(never)]
fn copied_messages(messages: &ReturnedList, alloc: Global) -> Result<Record, NoMemory>
    ensures { IfOk result (λ copy. copy ≡ told.Returned messages.now) }
{
    let Ok(messages) = messages.try_clone(alloc) else {
        return Err(NoMemory);
    };
    Ok(Record::Returned(messages))
}

#[inline(never)]
fn copied_answer(answer: &Result<Answer, Error>, alloc: Global) -> Result<Record, NoMemory>
    ensures { IfOk result (λ copy. copy ≡ told.Answer answer.now) }
{
    match answer {
        Ok(answer) => Ok(Record::Answer(Ok(answer.try_clone(alloc)?))),
        Err(error) => Ok(Record::Answer(Err(*error))),
    }
}

fn same_answer(left: &Result<Answer, Error>, right: &Result<Answer, Error>) -> bool
    ensures { Decides result (left.now ≡ right.now) }
{
    match (left, right) {
        (Ok(left), Ok(right)) => left.same(right),
        (Err(left), Err(right)) => left == right,
        _ => false,
    }
}

#[inline(never)]
fn copied_outcome(outcome: &Result<Confirmation, Error>, alloc: Global) -> Result<Record, NoMemory>
    ensures { IfOk result (λ copy. copy ≡ told.Confirmed outcome.now) }
{
    match outcome {
        Ok(outcome) => Ok(Record::Confirmed(Ok(outcome.try_clone(alloc)?))),
        Err(error) => Ok(Record::Confirmed(Err(*error))),
    }
}

fn same_outcome(left: &Result<Confirmation, Error>, right: &Result<Confirmation, Error>) -> bool
    ensures { Decides result (left.now ≡ right.now) }
{
    match (left, right) {
        (Ok(left), Ok(right)) => left.same(right),
        (Err(left), Err(right)) => left == right,
        _ => false,
    }
}
