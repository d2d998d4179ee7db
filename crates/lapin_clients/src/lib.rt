//! What a client of octets tells is what an honest broker said. Laws alone stand here, over every run of a client.
#![tactic(auto)]

ghost use Rattle.std.specs.Prelude.{◌≡◌, ◌≤◌, ◌<◌, ◌++◌, ℕ, List, None};
ghost use Rattle.lapin_types.specs.Types.{Frame};
ghost use Rattle.lapin_handshake.specs.Callers.{Who};
ghost use Rattle.lapin_joint.specs.declared.step.Step.{Step as AStep};
ghost use Rattle.lapin_joint.specs.Joint.{Joint};
ghost use Rattle.lapin_machine.specs.World.{World};
ghost use Rattle.lapin_clients.specs.Calls.{Call as ACall};
ghost use Rattle.lapin_clients.specs.Joined.{IsJoined, IsRun, LeadsOn, machine_to};
ghost use Rattle.lapin_clients.specs.Nets.{Act, Net, IsNewNet, Leads, Does, Calls, Reads, Sends, Strays};
ghost use Rattle.lapin_clients.specs.Openings.{Act as OpeningAct, OpeningsAreRead, RunsFollow};
ghost use Rattle.lapin_clients.specs.Pieces.{Piece, ArePieces, AreReadAsWritten, IsReadAgain};
ghost use Rattle.lapin_clients.specs.Truth.{IsTold, OutcomesAreVerdicts, MessagesAreSent, AnswersAreReplies, FramesAreHeard, OctetsAreRead};

use lapin_answers::a_session_and_an_honest_broker;

/// Octets that are pieces are read as these pieces, wherever they are cut: if a frame stands whole at the head of those that came, it is the
/// first piece, and what is left of what came, with what is still to come, are the others (`pieces`). A frame that is read has the very octets
/// of the one that was written, and is that one, but that a table or properties that were given by their values are carried (`again`).
pub fn octets_are_read_as_written()
    ensures pieces { (most : ℕ) → AreReadAsWritten most }
    ensures again { IsReadAgain }
{}

/// A call of a client is steps of the client in a joined run: behind it session, broker and links are as before these steps, with what they
/// leave.
pub fn a_call_is_steps_of_the_client()
    ensures { (frame_max : ℕ) (x y : Net) (j : Joint World) (call : ACall) → j.session.returned ≡ None → IsJoined frame_max x j →
        Does (Calls call) x y → 0 < y.client.left → LeadsOn frame_max y j }
{}

/// What the broker does with octets is what it does with frames: it reads each that is whole as it was written, and sends what it may. What it
/// sends besides, contents on a channel that isn't open to it, changes nothing of a joined run: it stands between the frames on the link, and
/// comes to a channel that hears none.
pub fn a_broker_of_octets_is_the_free_broker()
    ensures reads { (frame_max : ℕ) (x y : Net) (j : Joint World) (p : Piece) → IsJoined frame_max x j → Does (Reads p) x y → LeadsOn frame_max y j }
    ensures sends { (frame_max : ℕ) (x y : Net) (j : Joint World) (p : Piece) → IsJoined frame_max x j → Does (Sends p) x y → LeadsOn frame_max y j }
    ensures strays { (frame_max : ℕ) → 4096 ≤ frame_max → (x y : Net) (steps : List AStep) (f : Frame) →
        IsJoined frame_max x (machine_to frame_max steps) → Does (Strays f) x y → IsJoined frame_max y (machine_to frame_max steps) }
{}

/// A run of a client is a joined run of a session and the free broker: with the session and the broker that the steps lead to, with the
/// frames of both links on their way, whole and in order, and nothing else but heartbeats, notices and contents that the client passes over;
/// the broker reads and sends the same frames in the same order; each publish is the one of its number, and each call by a method's octets that
/// of its ticket. So it is as long as the client takes further steps (`run`). Where the broker sent none of those contents, the octets on their
/// way down are the frames on its link, whole and in order, with heartbeats and notices alone between them (`alone`).
pub fn a_run_of_a_client_is_a_joined_run()
    ensures run { (frame_max : ℕ) (acts : List Act) (x z : Net) → IsNewNet frame_max x → Leads acts x z → 0 < z.client.left →
        (steps : List AStep) × IsRun frame_max acts z steps }
    ensures alone { (frame_max : ℕ) (x : Net) (j : Joint World) → IsJoined frame_max x j → x.besides ≡ 0 → ArePieces frame_max (x.client.came ++ x.down) j.down }
{}

/// So all that is true of every joined run is true of it.
pub fn a_run_of_a_client_is_true()
    ensures { (frame_max : ℕ) (acts : List Act) (x z : Net) → IsNewNet frame_max x → Leads acts x z → 0 < z.client.left →
        (steps : List AStep) × IsTold frame_max acts z steps }
{
    a_session_and_an_honest_broker();
}

/// An ack or a nack that a client tells of a publish, also with a message that came back, is the broker's verdict on that very publish: it had
/// read it whole, from the octets, as the number of its tag, and after that it sent the first settlement of the opening that covers the tag, of
/// this kind.
pub fn an_outcome_told_is_a_verdict()
    ensures { (frame_max : ℕ) (acts : List Act) → OutcomesAreVerdicts frame_max acts }
{
    a_session_and_an_honest_broker();
}

/// A message that a client tells of a consumer is, octet for octet, the next one that the broker sent to the consumer's tag in its opening, if
/// the tag was registered once there: none is left out, none is told twice, and none is told before an earlier one. Its list of properties is
/// told as the octets that came.
pub fn a_message_told_is_the_next_that_was_sent()
    ensures { (frame_max : ℕ) (acts : List Act) → MessagesAreSent frame_max acts }
{
    a_session_and_an_honest_broker();
}

/// An answer that a client tells of a ticket, in fields and octets, is what the broker answered to that very call: its reply to it, with the
/// reply's own fields; the content that it sent after its answer to that very get; or its open-ok or close-ok for that very open or close. A call
/// that awaits a reply is answered by nothing else, but for a `basic.cancel` whose opening ended: it is done.
pub fn an_answer_told_is_the_reply_to_its_call()
    ensures { (frame_max : ℕ) (acts : List Act) → AnswersAreReplies frame_max acts }
{
    a_session_and_an_honest_broker();
}

/// No frame of an honest broker is refused: where its octets are handed to the client, in whatever pieces, `receive` never answers `Refused`.
pub fn no_frame_of_an_honest_broker_is_refused()
    ensures { (frame_max : ℕ) (acts : List Act) → FramesAreHeard frame_max acts }
{}

/// Octets of an honest broker are frames that a client reads: where they are handed to one that takes further steps, `receive` never answers
/// `Malformed`, and `TooLong` only of a frame of this side that was to leave before. So nothing that it sent ends the client.
pub fn octets_of_an_honest_broker_are_read()
    ensures { (frame_max : ℕ) (acts : List Act) → OctetsAreRead frame_max acts }
{}

/// What came before a connection was open is an opening by the standard's grammar, whatever the broker is and wherever its octets are cut: a start of
/// version 0-9, challenges, its limits and its open-ok, heartbeats between them, each read whole and answered by the machine of `lapin_handshake`.
/// What this side said is the protocol header and these replies. The limits are those on which both sides agreed.
#[tactic(auto, using(crate::proofs::Openings::opening_read))]
pub fn an_opening_is_read_whole()
    ensures { (who : Who) (acts : List OpeningAct) → OpeningsAreRead who acts }
{}

/// A run begins where its opening ended, if the broker says an opening and behind it what it sends in the run: what was left of the opening, with what
/// comes behind it, is octet for octet what the client takes in the run, and what is on its way still. So the laws of runs hold from a connection's
/// first octet on.
pub fn a_run_follows_its_opening()
    ensures { (who : Who) (acts : List OpeningAct) (run : List Act) → RunsFollow who acts run }
{}
