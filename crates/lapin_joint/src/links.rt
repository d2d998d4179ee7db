//! One session, one broker and the two links between them: a method for each kind of step, which tells what it answers with no report
//! made. A frame that a request hands out is looked at where it goes, with no copy.

ghost use Rattle.std.specs.Prelude.{◌≡◌, ◌≤◌, ◌++◌, ◌∷◌, [], None, true, is_some, IfOk, OnOk, if◌then◌else◌};
ghost use Rattle.lapin_types.specs.declared.event.Event.TheVariants as event;
ghost use Rattle.lapin_types.specs.declared.record.Record.TheVariants as record_;
ghost use Rattle.lapin_machine.specs.World.{told_by, next, new_world};
ghost use Rattle.lapin_machine.specs.Numbers.{HasNumbersFor};
ghost use Rattle.lapin_broker.specs.Sends.{may};
ghost use Rattle.lapin_joint.specs.Joint.{new_joint, client as client_lem, read_first, send_down, deliver_first, lose as lose_lem, read_report, deliver_report, report, after, front_frame, back_frame, newest as newest_lem, handed_record, IsDelivered};
ghost use Rattle.lapin_machine.specs.Way.{by_machine};
ghost use Rattle.std.specs.Option.{option_copied};
ghost use Rattle.lapin_joint.specs.declared.step.Step.TheVariants as step;
ghost use Rattle.lapin_joint.specs.declared.step.Reported.TheVariants as reported;

use crate::step::{Reported, Step};
use lapin_broker::Broker;
use lapin_machine::{Heard, Session};
use lapin_types::{Error, Event, Frame, Left, NoMemory, Record};
use std::alloc::Global;
use std::collections::VecDeque;
use std::marker::Model;

/// A session and a broker with two links between them, which keep order and lose nothing but at `Lose`. `Joined` is such a run that
/// stands for the list of its steps; here nothing counts them.
pub struct Links {
    /// The session. Its own events are made here: calls, polls and questions. A frame request goes by `hand`, a broker's frame by a
    /// step, and a frame is never given back.
    pub session: Session,
    /// The broker.
    pub broker: Broker,
    // Frames that the session handed out and the broker hasn't read.
    up: VecDeque<Left>,
    // Frames that the broker sent and the session hasn't received.
    down: VecDeque<Frame>,
}

impl Drop for Links {
    fn drop(self) {
        let Links {
            session: _,
            broker: _,
            up: _,
            down: _,
        } = self;
    }
}

impl Model for Links {
    ghost use Rattle.lapin_machine.specs.World.{World};
    ghost use Rattle.lapin_joint.specs.Joint.{Joint};
    ghost use Rattle.lapin_joint.specs.Codes.{joint_code};

    ghost Value = { Joint World };

    ghost coded = { joint_code };

    ghost view = { λ a. record {
      session = a.session;
      broker = a.broker;
      up = a.up.items;
      down = a.down.items;
    } };
}

impl Links {
    /// A new session, a new broker and two empty links. `frame_max` is the greatest size of a frame in bytes (AMQP 0-9-1, section
    /// 4.2.3).
    ///
    /// # Errors
    /// `NoMemory` alone.
    pub fn new(alloc: Global, frame_max: u32) -> Result<Links, NoMemory>
        requires { 4096 ≤ frame_max }
        ensures { IfOk result (λ links. links ≡ new_joint (new_world frame_max) frame_max) }
    {
        Ok(Links {
            session: Session::new(alloc, frame_max)?,
            broker: Broker::new(alloc, frame_max)?,
            up: VecDeque::new(alloc),
            down: VecDeque::new(alloc),
        })
    }

    /// Makes a step, and tells its report. No step runs out of numbers where the session has one of each counter.
    ///
    /// # Errors
    /// `NoMemory` alone. The run is then of no use.
    pub fn make(&mut self, alloc: Global, step: Step) -> Result<Reported, NoMemory>
        requires numbers { HasNumbersFor 1 self.old.session }
        requires unreturned { self.old.session.returned ≡ None }
        ensures told { IfOk result (λ r. r ≡ report by_machine step self.old) }
        ensures ok { OnOk result (self.new ≡ after by_machine step self.old) }
    {
        match step {
            Step::Client(event) => self.client(alloc, event),
            Step::Read => self.read(alloc),
            Step::Send(frame) => self.send(alloc, frame),
            Step::Deliver => self.deliver(alloc),
            Step::Lose => self.lose(alloc),
        }
    }

    /// A frame request, as the step `Client` of it: a frame that is handed out goes to the back of the link up, where `newest` has
    /// it. Whether one was.
    ///
    /// # Errors
    /// `NoMemory` alone. The run is then of no use.
    #[tactic(auto, using(crate::proofs::Newest::back_pushed))]
    pub fn hand(&mut self, alloc: Global, flow: bool) -> Result<bool, NoMemory>
        requires { self.old.session.returned ≡ None }
        ensures told { IfOk result (λ some. told_by self.old.session (event.Next flow) ≡ handed_record (newest_lem some self.new.up)) }
        ensures some { IfOk result (λ some. some ≡ is_some (newest_lem some self.new.up)) }
        ensures ok { OnOk result (self.new ≡ after by_machine (step.Client (event.Next flow)) self.old) }
    {
        self.up.reserve(1)?;
        match self.session.next_frame(alloc, flow) {
            Ok(Some(left)) => {
                self.up.push_back_reserved(left);
                Ok(true)
            }
            Ok(None) => Ok(false),
            Err(_) => Err(NoMemory),
        }
    }

    /// The frame that the last frame request handed out, where `some` is what `hand` answered, and the broker hasn't read since.
    pub fn newest(&self, some: bool) -> Option<&Frame>
        ensures { option_copied result ≡ newest_lem some self.now.up }
    {
        if some { self.back_up() } else { None }
    }

    // The frame at the back of the link up, if there is one.
    #[tactic(auto, using(crate::proofs::Newest::back_at))]
    fn back_up(&self) -> Option<&Frame>
        ensures { option_copied result ≡ back_frame self.now.up }
    {
        match self.up.back() {
            Some(left) => Some(&left.frame),
            None => None,
        }
    }

    // An event of the client.
    fn client(&mut self, alloc: Global, event: Event) -> Result<Reported, NoMemory>
        requires numbers { HasNumbersFor 1 self.old.session }
        requires unreturned { self.old.session.returned ≡ None }
        ensures told { IfOk result (λ r. r ≡ report by_machine (step.Client event) self.old) }
        ensures ok { OnOk result (self.new ≡ after by_machine (step.Client event) self.old) }
    {
        match event {
            Event::Next(flow) => self.next_frame(alloc, flow),
            Event::Receive(frame) => {
                drop(frame);
                Ok(Reported::NotLawful)
            }
            Event::Lost => Ok(Reported::NotLawful),
            Event::Call(channel, call) => self.event(alloc, Event::Call(channel, call)),
            Event::PollTicket(number) => self.event(alloc, Event::PollTicket(number)),
            Event::PollConfirm(number) => self.event(alloc, Event::PollConfirm(number)),
            Event::PollConsumer(number) => self.event(alloc, Event::PollConsumer(number)),
            Event::PollWait(channel) => self.event(alloc, Event::PollWait(channel)),
            Event::AsideTicket(number) => self.event(alloc, Event::AsideTicket(number)),
            Event::AsideConfirm(number) => self.event(alloc, Event::AsideConfirm(number)),
            Event::Acker(number, call) => self.event(alloc, Event::Acker(number, call)),
            Event::Delegate(number) => self.event(alloc, Event::Delegate(number)),
            Event::DropConsumer(number) => self.event(alloc, Event::DropConsumer(number)),
            Event::NextJob => self.event(alloc, Event::NextJob),
            Event::State(channel) => self.event(alloc, Event::State(channel)),
        }
    }

    // An event that hands no frame out.
    fn event(&mut self, alloc: Global, event: Event) -> Result<Reported, NoMemory>
        requires { HasNumbersFor 1 self.old.session }
        ensures told { IfOk result (λ r. r ≡ reported.Client (told_by self.old.session event)) }
        ensures ok { OnOk result (self.new ≡ record self.old { session = next self.old.session event }) }
    {
        match self.session.step(alloc, event) {
            Ok(record) => Ok(Reported::Client(record)),
            Err(Error::NoMemory) => Err(NoMemory),
            Err(_) => unreachable!(),
        }
    }

    // A frame request: the frame goes to the back of the link up.
    fn next_frame(&mut self, alloc: Global, flow: bool) -> Result<Reported, NoMemory>
        requires { self.old.session.returned ≡ None }
        ensures told { IfOk result (λ r. r ≡ reported.Client (told_by self.old.session (event.Next flow))) }
        ensures ok { OnOk result (self.new ≡ client_lem by_machine (event.Next flow) self.old) }
    {
        match self.session.next_frame(alloc, flow) {
            Ok(Some(left)) => self.hand_up(alloc, left),
            Ok(None) => Ok(Reported::Client(Record::NoFrame)),
            Err(_) => Err(NoMemory),
        }
    }

    // Puts a frame at the back of the link up; its record holds a copy.
    fn hand_up(&mut self, alloc: Global, left: Left) -> Result<Reported, NoMemory>
        ensures told { IfOk result (λ r. r ≡ reported.Client (record_.Frame left.frame)) }
        ensures ok { OnOk result (self.new ≡ record self.old { up = self.old.up ++ left ∷ [] }) }
    {
        if self.up.reserve(1).is_err() {
            drop(left);
            return Err(NoMemory);
        }
        match left.frame.try_clone(alloc) {
            Ok(frame) => {
                self.up.push_back_reserved(left);
                Ok(Reported::Client(Record::Frame(frame)))
            }
            Err(error) => {
                drop(left);
                Err(error)
            }
        }
    }

    /// The front of the link up, if there is one.
    pub(crate) fn next_up(&self) -> Option<&Frame>
        ensures { option_copied result ≡ front_frame self.now.up }
    {
        match self.up.front() {
            Some(left) => Some(&left.frame),
            None => None,
        }
    }

    /// The broker reads the front of the link up, as the step `Read`. Whether there was one.
    ///
    /// # Errors
    /// `NoMemory` alone. The run is then of no use.
    pub fn read_next(&mut self, alloc: Global) -> Result<bool, NoMemory>
        ensures told { IfOk result (λ some. read_report self.old.up ≡ (if some then reported.Read else reported.Nothing)) }
        ensures ok { OnOk result (self.new ≡ read_first self.old.up self.old) }
    {
        match self.up.pop_front() {
            Some(left) => {
                let read = self.broker.read(alloc, &left.frame);
                drop(left);
                read?;
                Ok(true)
            }
            None => Ok(false),
        }
    }

    fn read(&mut self, alloc: Global) -> Result<Reported, NoMemory>
        ensures told { IfOk result (λ r. r ≡ read_report self.old.up) }
        ensures ok { OnOk result (self.new ≡ read_first self.old.up self.old) }
    {
        match self.read_next(alloc) {
            Ok(true) => Ok(Reported::Read),
            Ok(false) => Ok(Reported::Nothing),
            Err(error) => Err(error),
        }
    }

    /// The broker sends a frame, as the step `Send`, where it may. Whether it may.
    ///
    /// # Errors
    /// `NoMemory` alone. The run is then of no use.
    pub fn try_send(&mut self, alloc: Global, frame: Frame) -> Result<bool, NoMemory>
        ensures told { IfOk result (λ sent. sent ≡ may self.old.broker frame) }
        ensures ok { OnOk result (self.new ≡ after by_machine (step.Send frame) self.old) }
    {
        if !self.broker.may_send(&frame) {
            drop(frame);
            return Ok(false);
        }
        self.put_down(alloc, frame)?;
        Ok(true)
    }

    // The broker sends a frame that it may send.
    fn put_down(&mut self, alloc: Global, frame: Frame) -> Result<(), NoMemory>
        requires { may self.old.broker frame ≡ true }
        ensures { OnOk result (self.new ≡ send_down frame self.old) }
    {
        if self.down.reserve(1).is_err() {
            drop(frame);
            return Err(NoMemory);
        }
        if self.broker.send(alloc, &frame).is_err() {
            drop(frame);
            return Err(NoMemory);
        }
        self.down.push_back_reserved(frame);
        Ok(())
    }

    // A frame that the broker is to send.
    fn send(&mut self, alloc: Global, frame: Frame) -> Result<Reported, NoMemory>
        ensures told { IfOk result (λ r. r ≡ report by_machine (step.Send frame) self.old) }
        ensures ok { OnOk result (self.new ≡ after by_machine (step.Send frame) self.old) }
    {
        match self.try_send(alloc, frame) {
            Ok(true) => Ok(Reported::Sent),
            Ok(false) => Ok(Reported::NotLawful),
            Err(error) => Err(error),
        }
    }

    /// The session receives the front of the link down, as the step `Deliver`: what becomes of it, or `None` where the link is empty.
    ///
    /// # Errors
    /// `NoMemory` alone. The run is then of no use.
    pub fn deliver_next(&mut self, alloc: Global) -> Result<Option<Result<Heard, Error>>, NoMemory>
        requires { HasNumbersFor 1 self.old.session }
        ensures told { IfOk result (λ heard. IsDelivered heard (deliver_report by_machine self.old.down self.old.session)) }
        ensures ok { OnOk result (self.new ≡ deliver_first by_machine self.old.down self.old) }
    {
        match self.down.pop_front() {
            Some(frame) => self.receive(alloc, frame),
            None => Ok(None),
        }
    }

    // The session receives a frame.
    fn receive(
        &mut self,
        alloc: Global,
        frame: Frame,
    ) -> Result<Option<Result<Heard, Error>>, NoMemory>
        requires { HasNumbersFor 1 self.old.session }
        ensures told { IfOk result (λ heard. IsDelivered heard (reported.Delivered (told_by self.old.session (event.Receive frame)))) }
        ensures ok { OnOk result (self.new ≡ record self.old { session = next self.old.session (event.Receive frame) }) }
    {
        match self.session.receive(alloc, frame) {
            Ok(heard) => Ok(Some(Ok(heard))),
            Err(Error::NoMemory) => Err(NoMemory),
            Err(Error::NumbersUsedUp) => unreachable!(),
            Err(error) => Ok(Some(Err(error))),
        }
    }

    fn deliver(&mut self, alloc: Global) -> Result<Reported, NoMemory>
        requires { HasNumbersFor 1 self.old.session }
        ensures told { IfOk result (λ r. r ≡ deliver_report by_machine self.old.down self.old.session) }
        ensures ok { OnOk result (self.new ≡ deliver_first by_machine self.old.down self.old) }
    {
        match self.deliver_next(alloc) {
            Ok(Some(Ok(Heard::Received))) => Ok(Reported::Delivered(Record::Received)),
            Ok(Some(Ok(Heard::Passed))) => Ok(Reported::Delivered(Record::Passed)),
            Ok(Some(Err(error))) => Ok(Reported::Delivered(Record::Refused(error))),
            Ok(None) => Ok(Reported::Nothing),
            Err(error) => Err(error),
        }
    }

    // Both links are lost.
    fn lose(&mut self, alloc: Global) -> Result<Reported, NoMemory>
        ensures told { IfOk result (λ r. r ≡ reported.Lost) }
        ensures ok { OnOk result (self.new ≡ lose_lem by_machine self.old) }
    {
        match self.session.step(alloc, Event::Lost) {
            Ok(record) => drop(record),
            Err(Error::NoMemory) => return Err(NoMemory),
            Err(_) => unreachable!(),
        }
        self.broker.lose();
        self.up.clear();
        self.down.clear();
        Ok(Reported::Lost)
    }
}
