//! What `--help` gives: which commands there are, and of each what it is for, what it reads and writes, and an example.
//!
//! The script `lapin` gives these same texts where the program isn't built yet: it takes each from this file, from the line of its name to
//! the line that ends it. The examples of the commands without threads are run by a test.
ghost use Rattle.std.specs.Prelude.{◌≡◌, ◌≢◌, ◌∷◌, [], codes, map, string_bytes, IfSome};
ghost use Rattle.std.specs.Io.KnownBytes.{Appends};
ghost use Rattle.lapin_io.specs.Numbers.{Rose, Stayed};
ghost use Rattle.lapin_inputs.specs.Outcome.{IsUnread};
ghost use Rattle.lapin_inputs.specs.Writing.{WritesPrefix};
ghost use Rattle.lapin_reasons.specs.Help.{AskForHelp, NameHelp};

use lapin_inputs::{Status, write_all};
use lapin_io::{Sink, SinkError};

/// What the program is, and its commands.
const ALL: &str =
    r"The channel half of an AMQP 0-9-1 client as text: a line comes in for each event, and one goes out for what it did.

    lapin session       the events of a session; writes the record of each
    lapin joined        the steps of a session that is joined to a broker; writes the report of each
    lapin check         the frames that a broker read and sent; writes what is wrong in them
    lapin resend        the steps of a publisher that sends again after a loss; writes the report of each
    lapin call QUEUE    the steps of calls over queues, whose replies come to QUEUE; writes the report of each
    lapin generate N    reads nothing; makes N publishes, from 1 to 10000, and writes what they come to
    lapin shared N      events that N callers make, from 1 to 64, on threads; writes the history that they left
    lapin pool N        the events of a caller whose deliveries N workers judge, from 1 to 64; writes history and verdicts

    lapin COMMAND --help, or lapin --help COMMAND, says what a command is for, with an example.

Lines come on standard input, the first of them frame_max and a number from 4096 on. At a terminal Ctrl-D ends them.
docs/FORMAT.md has the lines, the methods with their fields, and the statuses; examples/ has inputs. The
examples run where these two folders stand.
";

const SESSION: &str = r"lapin session: what the channel half of a client does, event by event.

For whoever wants to know what becomes of a publish, a call or a message in some order of events, before a line of code is written.
Behind frame_max each line is an event: a call, a frame request (next), a frame of the broker (recv), a poll (ticket, confirm,
consumer), the loss (lost). A line comes out for each.

    printf 'frame_max 4096\ncall 1 channel.open\nnext 1\nrecv method 1 channel.open-ok\nticket 1\n' | ./lapin session

    ticket 1
    frame method 1 channel.open
    received
    answer channel 1

examples/first-publish.txt has a publish with its confirm. A text is x and two hexadecimal digits a byte: x6869 is hi.
";

const JOINED: &str =
    r"lapin joined: a session with a broker beside it, which does what the protocol allows and nothing else.

For whoever wants to see what a broker may do, and what the client hears of it: frames are on their way until they are read (read) or
delivered (deliver). Behind frame_max each line is a step: client with an event, read, send with a frame, deliver, lose.

    printf 'frame_max 4096\nclient call 1 channel.open\nclient next 1\nsend method 1 channel.open-ok\nread\n' | ./lapin joined

    ticket 1
    frame method 1 channel.open
    notlawful
    read

The broker may not answer an open that it has not read. examples/joined-publish.txt goes on from there.
";

const CHECK: &str =
    r"lapin check: what is wrong in a record of the frames between a client and a broker.

For whoever has such a record, of a client of any make, and asks which frame broke the protocol, and what became of each publish.
Behind frame_max each line is a frame: up and a frame that the broker read, or down and a frame that it sent. Written is a line for
each publish that came whole, and then the finding; a place counts frames, and standard error has the line and the frame.

    printf 'frame_max 4096\nup method 1 channel.open\ndown method 1 channel.open-ok\nup method 1 basic.publish x x71 0 0\nup method 1 basic.get x71 1\n' | ./lapin check

    broken 4 ContentExpected

A publish is not whole without its header and its bodies. examples/check-mixed-frames.txt has a longer record. Where a line is not in
the format, the frames before it are judged, and then the line is named.
";

const RESEND: &str =
    r"lapin resend: a publisher that keeps its messages until the broker has them, and sends again after a loss.

For whoever needs to know when a message may be forgotten. Behind frame_max each line is a step: submit with exchange, routing key and
payload, next, read, send with a frame of the broker, deliver, lose, and status with a message's number.

    printf 'frame_max 4096\nsubmit x x71 x6869\nnext\nlose\nstatus 1\nnext\n' | ./lapin resend

    message 1
    frame method 1 channel.open
    lost
    waiting
    frame method 1 channel.open

examples/resend-after-a-loss.txt has a message stored, and one sent three times.
";

const CALL: &str =
    r"lapin call QUEUE: requests that are answered over queues, whose replies come to QUEUE.

For whoever calls a service by request and reply, and wants each reply at the call that it answers. Behind frame_max each line is a
step: ask with exchange, routing key and payload, next, recv with a frame of the broker, collect, take with a call's number, lost.

    printf 'frame_max 4096\nnext 1\nrecv method 1 channel.open-ok\nask x x727063 x3330\ntake 1\nlost\ncollect\ntake 1\n' | ./lapin call replies

    frame method 1 channel.open
    received
    call 1
    waiting
    lost
    collected 0 0 0
    ended ConnectionLost

examples/call-fibonacci.txt has replies that come out of order. A queue may be called --help: for this text it is lapin --help call.
";

const GENERATE: &str =
    r"lapin generate N: publishes N messages to a broker that is joined to the session, and counts what came of them.

For whoever wants a long run without an input: to see that as many acks come as messages were published, and how long it takes. N is
from 1 to 10000. Message i has (37 times i) modulo 9000 bytes; each is acknowledged on its own.

    ./lapin generate 3

    publishes 3
    frames 11
    bytes 222
    acks 3

The frames are those of the publishes and of the two calls before them; the bytes are those of the payloads.
";

const SHARED: &str =
    r"lapin shared N: one session that N callers share, each on a thread of its own.

For whoever shares a channel among threads, and wants to see what they may do to each other: event k is made by caller
((k - 1) mod N) + 1, each caller keeps its order, and how they take turns is the machine's affair, so that two runs may differ. Written
is the history as it was stored, each line behind its caller's number. N is from 1 to 64.

    printf 'frame_max 4096\nstate 1\ncall 1 channel.open\nstate 1\nnext 1\n' | ./lapin shared 2

    1 state open closed
    2 ticket 1
    1 state open opening
    2 frame method 1 channel.open

That is one of the histories that may come: the second caller may also be first. With N = 1 it is the text of session,
each line behind a 1.
";

const POOL: &str =
    r"lapin pool N: a caller makes all events, and then N workers judge the deliveries, each on a thread of its own.

For whoever lets workers acknowledge what one consumer was handed. A delivery is judged by the first byte of its payload: a is an ack,
n a nack with requeue, r a reject, anything else nothing. Written is the history, each line behind its caller's number, and a card of
each delivery: caller, place, acker, verdict, place of the verdict. N is from 1 to 64.

    printf 'frame_max 4096\nstate 0\n' | ./lapin pool 1

    1 state open base
    2 nojob
    cards 0

examples/pool-work-queue.txt has four deliveries: ./lapin pool 1 < examples/pool-work-queue.txt
";

/// The help that the words ask for, where they do: `--help`, or that with a command before or behind it. Words that are a command's own
/// ask for none, as `call --help`, whose queue has that name.
pub fn help_asked(words: &[String]) -> Option<&'static str>
    ensures { IfSome result (λ _. AskForHelp (map string_bytes words.now)) }
{
    match words {
        [word] => asked_alone(word.as_str()),
        [first, second] => asked_with(first.as_str(), second.as_str()),
        _ => None,
    }
}

fn asked_alone(word: &str) -> Option<&'static str>
    ensures { IfSome result (λ _. AskForHelp (word.now ∷ [])) }
{
    if word == "--help" {
        return Some(ALL);
    }
    None
}

fn asked_with(first: &str, second: &str) -> Option<&'static str>
    ensures { IfSome result (λ _. AskForHelp (first.now ∷ second.now ∷ [])) }
{
    if first == "--help" {
        return help_of(second);
    }
    if second == "--help" {
        return asked_behind(first);
    }
    None
}

// What `--help` behind a word asks for.
fn asked_behind(word: &str) -> Option<&'static str>
    ensures { IfSome result (λ _. word.now ≢ codes "call") }
{
    if word == "call" {
        return None;
    }
    help_of(word)
}

/// What is said on standard error beside a run whose words may be meant as a question: of `call --help`.
pub fn help_beside(words: &[String]) -> Option<&'static str>
    ensures { IfSome result (λ _. NameHelp (map string_bytes words.now)) }
{
    match words {
        [command, queue] => called_help(command.as_str(), queue.as_str()),
        _ => None,
    }
}

fn called_help(command: &str, queue: &str) -> Option<&'static str>
    ensures { IfSome result (λ _. NameHelp (command.now ∷ queue.now ∷ [])) }
{
    if command == "call" {
        if queue == "--help" {
            return Some(CALL);
        }
    }
    None
}

/// Gives a help, as a command gives its text: whole, or as far as the sink takes it.
pub fn give_help<K: Sink>(help: &str, sink: &mut K) -> Status
    ensures fine { result ≡ Status.Fine → Appends (K.written sink.old) (K.written sink.new) help.now }
    ensures faultless { result ≡ Status.Fine → Stayed (K.faults sink.old) (K.faults sink.new) }
    ensures prefix { WritesPrefix (K.written sink.old) (K.written sink.new) help.now }
    ensures statuses { IsUnread result }
    ensures write_fault { result ≡ Status.WriteFault → Rose (K.faults sink.old) (K.faults sink.new) }
{
    match write_all(sink, help.as_bytes()) {
        Ok(()) => Status::Fine,
        Err(SinkError::Failed) => Status::WriteFault,
        Err(SinkError::NoMemory) => Status::NoMemory,
    }
}

// The help of a command.
fn help_of(command: &str) -> Option<&'static str> {
    match command {
        "session" => Some(SESSION),
        "joined" => Some(JOINED),
        "check" => Some(CHECK),
        "resend" => Some(RESEND),
        "call" => Some(CALL),
        "generate" => Some(GENERATE),
        "shared" => Some(SHARED),
        "pool" => Some(POOL),
        _ => None,
    }
}
