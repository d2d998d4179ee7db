//! Runs of a caller, whose replies come to the queue `replies`: x7265706c696573.
use crate::command::calls::examples;
use crate::driver::shows_all;
use std::alloc::AllocError;

#[test]
fn runs(rt: HostRuntime) -> Result<(), AllocError> {
    shows_all(&rt, "call replies", RUNS)
}

#[test]
fn the_example_holds(rt: HostRuntime) -> Result<(), AllocError> {
    shows_all(&rt, "call replies", examples::RUNS)
}

const RUNS: &str = "\
# before open-ok nothing is asked; then the queue of the replies is consumed from, and a request says where its reply belongs
next 1 -> frame method 1 channel.open
ask x x71 x6869 -> notopen opening
recv method 1 channel.open-ok -> received
next 1 -> frame method 1 basic.consume x7265706c696573 x7265706c696573 0 1 0 1 {}
ask x x71 x6869 -> call 1
next 1 -> frame method 1 basic.publish x x71 0 0
next 1 -> frame header 1 60 2 [correlation_id=x31,reply_to=x7265706c696573]
next 1 -> frame body 1 x6869
take 1 -> waiting

# a reply is given once; a second one is a repeat, one without an id a stranger, and a call that was never asked is unknown
next 1 -> frame method 1 channel.open
ask x x71 x6869 -> notopen opening
recv method 1 channel.open-ok -> received
next 1 -> frame method 1 basic.consume x7265706c696573 x7265706c696573 0 1 0 1 {}
ask x x71 x6869 -> call 1
next 1 -> frame method 1 basic.publish x x71 0 0
next 1 -> frame header 1 60 2 [correlation_id=x31,reply_to=x7265706c696573]
next 1 -> frame body 1 x6869
take 1 -> waiting
recv method 1 basic.deliver x7265706c696573 1 0 x x7265706c696573 -> received
recv header 1 60 2 [correlation_id=x31] -> received
recv body 1 x6f6b -> received
collect -> collected 1 0 0
take 1 -> reply x6f6b
take 1 -> taken
recv method 1 basic.deliver x7265706c696573 2 0 x x7265706c696573 -> received
recv header 1 60 0 [correlation_id=x31] -> received
recv method 1 basic.deliver x7265706c696573 3 0 x x7265706c696573 -> received
recv header 1 60 0 [] -> received
collect -> collected 0 1 1
take 5 -> unknown

# replies come in another order than the requests; the first with an id answers, whatever comes behind it, and 0, 01 and 3 are nobody's
next 1 -> frame method 1 channel.open
recv method 1 channel.open-ok -> received
ask x x71 x -> call 1
ask x x71 x -> call 2
recv method 1 basic.deliver x7265706c696573 1 0 x x7265706c696573 -> received
recv header 1 60 1 [correlation_id=x32] -> received
recv body 1 x62 -> received
recv method 1 basic.deliver x7265706c696573 2 0 x x7265706c696573 -> received
recv header 1 60 1 [correlation_id=x32] -> received
recv body 1 x63 -> received
recv method 1 basic.deliver x7265706c696573 3 0 x x7265706c696573 -> received
recv header 1 60 0 [correlation_id=x3031] -> received
recv method 1 basic.deliver x7265706c696573 4 0 x x7265706c696573 -> received
recv header 1 60 0 [correlation_id=x30] -> received
recv method 1 basic.deliver x7265706c696573 5 0 x x7265706c696573 -> received
recv header 1 60 0 [correlation_id=x33] -> received
recv method 1 basic.deliver x7265706c696573 6 0 x x7265706c696573 -> received
recv header 1 60 1 [correlation_id=x31] -> received
recv body 1 x61 -> received
take 2 -> waiting
collect -> collected 2 1 3
take 1 -> reply x61
take 2 -> reply x62
collect -> collected 0 0 0

# a broker's close ends the calls that wait, once the error was collected; the channel is not opened again
next 1 -> frame method 1 channel.open
recv method 1 channel.open-ok -> received
ask x x71 x -> call 1
ask x x71 x -> call 2
recv method 1 basic.deliver x7265706c696573 1 0 x x7265706c696573 -> received
recv header 1 60 0 [correlation_id=x31] -> received
recv method 1 channel.close 404 x 0 0 -> received
take 2 -> waiting
collect -> collected 1 0 0
take 1 -> reply x
take 2 -> ended ProtocolError 404
take 2 -> taken
ask x x71 x -> notopen closed
next 1 -> frame method 1 channel.close-ok
next 1 -> noframe
collect -> collected 0 0 0

# a loss ends what waits
next 1 -> frame method 1 channel.open
recv method 1 channel.open-ok -> received
ask x x71 x -> call 1
lost -> lost
collect -> collected 0 0 0
take 1 -> ended ConnectionLost
ask x x71 x -> notopen down
next 1 -> noframe";
