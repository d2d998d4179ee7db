//! The examples of the publisher that sends again: the steps of each file, with the reports that the rules give them.
//!
//! `examples/check.py` compares the files with these runs.

/// A run of each file.
pub const RUNS: &str = "# examples/resend-after-a-loss.txt
submit x x6f7264657273 x6f726465722031 -> message 1
submit x x6f7264657273 x6f726465722032 -> message 2
next -> frame method 1 channel.open
read -> read
send method 1 channel.open-ok -> sent
deliver -> received
next -> frame method 1 confirm.select 1
next -> frame method 1 basic.publish x x6f7264657273 0 0
next -> frame header 1 60 7 []
next -> frame body 1 x6f726465722031
read -> read
read -> read
read -> read
read -> read
next -> frame method 1 basic.publish x x6f7264657273 0 0
next -> frame header 1 60 7 []
send method 1 basic.ack 1 0 -> sent
deliver -> received
status 1 -> stored
status 2 -> waiting
lose -> lost
status 1 -> stored
status 2 -> waiting
next -> frame method 1 channel.open
read -> read
send method 1 channel.open-ok -> sent
deliver -> received
next -> frame method 1 confirm.select 1
next -> frame method 1 basic.publish x x6f7264657273 0 0
next -> frame header 1 60 7 []
next -> frame body 1 x6f726465722032
next -> noframe
read -> read
read -> read
read -> read
read -> read
send method 1 basic.nack 1 0 0 -> sent
deliver -> received
status 2 -> waiting
next -> frame method 1 basic.publish x x6f7264657273 0 0
next -> frame header 1 60 7 []
next -> frame body 1 x6f726465722032
read -> read
read -> read
read -> read
send method 1 basic.ack 2 0 -> sent
deliver -> received
status 2 -> stored";
