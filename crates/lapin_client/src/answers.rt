//! The answer: octets, or what was handed out and is told from where it lies, so that it takes no memory.
ghost use Rattle.std.specs.Prelude.{◌≡◌, length};
ghost use Rattle.lapin_client.specs.Answers.{answer_of, tag_of};
ghost use Rattle.lapin_client.specs.Parcels.{Read};

use crate::client::Client;
use crate::parcel::{Parcel, copy_out};
use lapin_types::{BasicReturnMessage, Queue, ReturnedList};

/// What was handed out.
#[derive(Drop)]
pub enum Handed {
    /// Nothing: the answer is the octets of the client's `answer`.
    Nothing,
    /// A message.
    Message(Parcel),
    /// A queue, by its name.
    Queue(Queue),
    /// A consumer, by its tag.
    Consumer(u64),
    /// A message that came back with an outcome. The answer is octets.
    CameBack(BasicReturnMessage),
    /// The messages that came back and that no outcome has. The answer is octets.
    AllCameBack(ReturnedList),
}

impl Client {
    /// How many octets the answer has.
    pub fn answer_length(&self) -> usize
        ensures { result ≡ length (answer_of self.now) }
    {
        match &self.handed {
            Handed::Nothing | Handed::CameBack(_) | Handed::AllCameBack(_) => self.answer.len(),
            Handed::Message(parcel) => parcel.length(),
            Handed::Queue(queue) => queue.name().as_str().len(),
            Handed::Consumer(number) => self.tag(*number).len(),
        }
    }

    /// The octets of the answer at the beginning of the room, where they fit into it. How many were written.
    pub fn copy_answer(&self, out: &mut [u8]) -> usize
        ensures { Read result (answer_of self.now) out.old out.new }
    {
        match &self.handed {
            Handed::Nothing | Handed::CameBack(_) | Handed::AllCameBack(_) => copy_out(
                out,
                &self.answer,
            ),
            Handed::Message(parcel) => parcel.copy_to(out),
            Handed::Queue(queue) => copy_out(out, queue.name().as_str().as_bytes()),
            Handed::Consumer(number) => copy_out(out, self.tag(*number)),
        }
    }

    // The tag of a consumer; nothing where there is none of this number.
    #[tactic(auto, using(crate::proofs::Tags::tag_there, crate::proofs::Tags::no_tag))]
    fn tag(&self, consumer: u64) -> &[u8]
        ensures { result.now ≡ tag_of consumer self.now.session }
    {
        match self.session.consumers().tag(consumer) {
            Some(tag) => tag.as_str().as_bytes(),
            None => &[],
        }
    }
}
