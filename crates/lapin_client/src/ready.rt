//! Which of many consumers or calls has something to be told, so that none of the others is asked.
ghost use Rattle.lapin_client.specs.Ready.{IsFirstReady};
ghost use Rattle.lapin_types.specs.declared.event.Event.TheVariants as event;

use crate::client::Client;

impl Client {
    /// The first place from this one on, among consumers by their numbers, at which one has something that `delivery` would give now: a message, its
    /// end, or a refusal. None where there is no such place. It is no step of the session.
    pub fn ready_consumer(&self, consumers: &[u64], from: usize) -> Option<usize>
        ensures { IsFirstReady result (λ n. event.PollConsumer n) from consumers.now self.now.session }
    {
        let mut place = from;
        while place < consumers.len() {
            if self.session.consumer_ready(consumers[place]) {
                return Some(place);
            }
            place += 1;
        }
        None
    }

    /// The same of calls by their tickets, and of `reply`.
    pub fn ready_reply(&self, tickets: &[u64], from: usize) -> Option<usize>
        ensures { IsFirstReady result (λ n. event.PollTicket n) from tickets.now self.now.session }
    {
        let mut place = from;
        while place < tickets.len() {
            if self.session.ticket_ready(tickets[place]) {
                return Some(place);
            }
            place += 1;
        }
        None
    }
}
