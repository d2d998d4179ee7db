//! Runs of the publisher: a message that is stored, one that is sent again after a loss, and one that is refused.
use crate::command::resend::examples::RUNS as EXAMPLES;
use crate::driver::shows_all;
use std::alloc::AllocError;

#[test]
fn runs(rt: HostRuntime) -> Result<(), AllocError> {
    shows_all(&rt, "resend", RUNS)
}

const RUNS: &str = "\
# a message is stored once its ack was delivered, and stays so behind a loss
submit x x71 x6869 -> message 1
next -> frame method 1 channel.open
read -> read
send method 1 channel.open-ok -> sent
deliver -> received
next -> frame method 1 confirm.select 1
next -> frame method 1 basic.publish x x71 0 0
next -> frame header 1 60 2 []
next -> frame body 1 x6869
read -> read
read -> read
read -> read
read -> read
send method 1 basic.ack 1 0 -> sent
status 1 -> waiting
deliver -> received
status 1 -> stored
lose -> lost
status 1 -> stored
status 2 -> unknown

# an ack that a loss takes away leaves the message waiting, and the channel is opened anew
submit x x71 x6869 -> message 1
next -> frame method 1 channel.open
read -> read
send method 1 channel.open-ok -> sent
deliver -> received
next -> frame method 1 confirm.select 1
next -> frame method 1 basic.publish x x71 0 0
next -> frame header 1 60 2 []
next -> frame body 1 x6869
read -> read
read -> read
read -> read
read -> read
send method 1 basic.ack 1 0 -> sent
lose -> lost
status 1 -> waiting
next -> frame method 1 channel.open
deliver -> nothing

# a nack publishes it again at once, and a close of the broker opens the channel again
submit x x71 x -> message 1
next -> frame method 1 channel.open
read -> read
send method 1 channel.open-ok -> sent
deliver -> received
next -> frame method 1 confirm.select 1
next -> frame method 1 basic.publish x x71 0 0
next -> frame header 1 60 0 []
read -> read
read -> read
read -> read
send method 1 basic.nack 1 0 0 -> sent
deliver -> received
status 1 -> waiting
next -> frame method 1 basic.publish x x71 0 0
next -> frame header 1 60 0 []
send method 1 channel.close 404 x 0 0 -> sent
deliver -> received
next -> frame method 1 channel.close-ok
next -> frame method 1 channel.open
next -> noframe

# what was submitted before the channel is open is published in rising number once it is; one ack stores both
submit x x71 x -> message 1
submit x65 x71 x61 -> message 2
next -> frame method 1 channel.open
next -> noframe
read -> read
send method 1 channel.open-ok -> sent
deliver -> received
next -> frame method 1 confirm.select 1
next -> frame method 1 basic.publish x x71 0 0
next -> frame header 1 60 0 []
next -> frame method 1 basic.publish x65 x71 0 0
next -> frame header 1 60 1 []
next -> frame body 1 x61
read -> read
read -> read
read -> read
read -> read
read -> read
send method 1 basic.ack 2 1 -> notlawful
read -> read
send method 1 basic.ack 2 1 -> sent
deliver -> received
status 1 -> stored
status 2 -> stored
next -> noframe

# the last frame left, and nothing came back: the message waits, and isn't published twice
submit x x71 x -> message 1
next -> frame method 1 channel.open
read -> read
send method 1 channel.open-ok -> sent
deliver -> received
next -> frame method 1 confirm.select 1
next -> frame method 1 basic.publish x x71 0 0
next -> frame header 1 60 0 []
status 1 -> waiting
next -> noframe

# a pause holds publishes back, a returned message is stored by its ack all the same
next -> frame method 1 channel.open
read -> read
send method 1 channel.open-ok -> sent
deliver -> received
next -> frame method 1 confirm.select 1
read -> read
send method 1 channel.flow 0 -> sent
deliver -> received
submit x x71 x -> message 1
next -> frame method 1 channel.flow-ok 0
next -> noframe
send method 1 channel.flow 1 -> sent
deliver -> received
next -> frame method 1 channel.flow-ok 1
next -> frame method 1 basic.publish x x71 0 0
next -> frame header 1 60 0 []
read -> read
read -> read
read -> read
read -> read
send method 1 basic.return 312 x x x71 -> sent
send header 1 60 0 [] -> sent
send method 1 basic.ack 1 0 -> sent
deliver -> received
deliver -> received
status 1 -> waiting
deliver -> received
status 1 -> stored

# behind the broker's close of the connection nothing more is published until the loss
submit x x71 x -> message 1
send method 0 connection.close 320 x 0 0 -> sent
deliver -> received
next -> frame method 0 connection.close-ok
next -> noframe
status 1 -> waiting
lose -> lost
next -> frame method 1 channel.open
read -> read
status 0 -> unknown";

#[test]
fn examples(rt: HostRuntime) -> Result<(), AllocError> {
    shows_all(&rt, "resend", EXAMPLES)
}
