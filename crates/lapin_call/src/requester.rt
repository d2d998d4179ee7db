//! A requester: a session, the queue of the replies and the calls, with a method for each kind of step.

ghost use Rattle.std.specs.Prelude.{◌≡◌, ◌≤◌, ◌<◌, None, IfOk, OnOk};
ghost use Rattle.lapin_types.specs.declared.event.Event.TheVariants as event;
ghost use Rattle.lapin_machine.specs.World.{told_by, new_world};
ghost use Rattle.lapin_machine.specs.Numbers.{HasNumbersFor};
ghost use Rattle.lapin_machine.specs.Way.{by_machine};
ghost use Rattle.lapin_call.specs.Calls.{new_requester, met, begun, report, after};
ghost use Rattle.lapin_call.specs.declared.step.CallStep.TheVariants as step;
ghost use Rattle.lapin_call.specs.declared.step.CallReport.TheVariants as reported;

use crate::asking::{consume, is_ready, open, request};
use crate::collecting::collect;
use crate::fates::{Fate, take};
use crate::step::CallReport;
use lapin_machine::Session;
use lapin_types::{Error, Event, NoMemory, Payload, ShortString};
use std::alloc::Global;
use std::marker::Model;

/// A session with the queue of the replies and the calls that were asked.
#[derive(Drop)]
pub(crate) struct Requester {
    pub(crate) session: Session,
    queue: ShortString,
    // Whether the queue was consumed from yet.
    consumes: bool,
    // The consumer of the replies.
    consumer: Option<u64>,
    // What became of each call, in the order of their numbers, from 1.
    fates: Vec<Fate>,
}

impl Model for Requester {
    ghost use Rattle.lapin_machine.specs.World.{World};
    ghost use Rattle.lapin_call.specs.Calls.{Requester};
    ghost use Rattle.lapin_call.specs.Codes.{requester_code};

    ghost Value = { Requester World };

    ghost coded = { requester_code };

    ghost view = { λ a. record {
      session = a.session;
      queue = a.queue;
      consumes = a.consumes;
      consumer = a.consumer;
      fates = a.fates.items;
    } };
}

impl Requester {
    pub(crate) fn new(
        alloc: Global,
        frame_max: u32,
        queue: ShortString,
    ) -> Result<Requester, NoMemory>
        requires { 4096 ≤ frame_max }
        ensures { IfOk result (λ requester. requester ≡ new_requester by_machine (new_world frame_max) queue) }
    {
        let mut session = Session::new(alloc, frame_max)?;
        open(alloc, &mut session)?;
        Ok(Requester {
            session,
            queue,
            consumes: false,
            consumer: None,
            fates: Vec::new(alloc),
        })
    }

    /// An event of the session: a frame request, a frame of the broker, or the loss. The first time that channel 1 is then open, the
    /// queue of the replies is consumed from.
    pub(crate) fn meet(&mut self, alloc: Global, event: Event) -> Result<CallReport, NoMemory>
        requires { HasNumbersFor 2 self.old.session }
        ensures told { IfOk result (λ r. r ≡ reported.Session (told_by self.old.session event)) }
        ensures ok { OnOk result (self.new ≡ begun by_machine (met by_machine event self.old)) }
    {
        let record = match self.session.step(alloc, event) {
            Ok(record) => record,
            Err(Error::NoMemory) => return Err(NoMemory),
            Err(_) => unreachable!(),
        };
        match self.begin(alloc) {
            Ok(()) => Ok(CallReport::Session(record)),
            Err(error) => {
                drop(record);
                Err(error)
            }
        }
    }

    // Consumes from the queue of the replies, where channel 1 is open for the first time.
    fn begin(&mut self, alloc: Global) -> Result<(), NoMemory>
        requires { HasNumbersFor 1 self.old.session }
        ensures { OnOk result (self.new ≡ begun by_machine self.old) }
    {
        if self.consumes || !is_ready(&self.session) {
            return Ok(());
        }
        consume(alloc, &mut self.session, &self.queue)?;
        self.consumes = true;
        self.consumer = self.session.consumers().find(1, self.queue.as_str());
        Ok(())
    }

    /// A request is published, where channel 1 is open.
    pub(crate) fn ask(
        &mut self,
        alloc: Global,
        exchange: ShortString,
        routing_key: ShortString,
        payload: Payload,
    ) -> Result<CallReport, NoMemory>
        requires { HasNumbersFor 1 self.old.session }
        ensures told { IfOk result (λ r. r ≡ report by_machine (step.Ask exchange routing_key payload) self.old) }
        ensures ok { OnOk result (self.new ≡ after by_machine (step.Ask exchange routing_key payload) self.old) }
    {
        if !is_ready(&self.session) {
            return Ok(CallReport::NotOpen(self.session.channel_state(1)));
        }
        let number = self.fates.len() as u64 + 1;
        self.fates.push(Fate::Waiting)?;
        request(
            alloc,
            &mut self.session,
            number,
            &self.queue,
            exchange,
            routing_key,
            payload,
        )?;
        Ok(CallReport::Asked(number))
    }

    /// The replies that came are collected.
    pub(crate) fn collect(&mut self) -> Result<CallReport, NoMemory>
        ensures told { IfOk result (λ r. r ≡ report by_machine step.Collect self.old) }
        ensures ok { OnOk result (self.new ≡ after by_machine step.Collect self.old) }
    {
        let tally = collect(&mut self.session, self.consumer, &mut self.fates)?;
        Ok(CallReport::Collected {
            answers: tally.answers,
            repeats: tally.repeats,
            strangers: tally.strangers,
        })
    }

    /// The result of a call is asked for.
    pub(crate) fn take(&mut self, number: u64) -> CallReport
        ensures told { result ≡ report by_machine (step.Take number) self.old }
        ensures ok { self.new ≡ after by_machine (step.Take number) self.old }
    {
        take(&mut self.fates, number)
    }
}
