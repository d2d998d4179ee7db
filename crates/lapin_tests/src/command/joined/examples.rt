//! The examples of joined runs: the steps of each file, with the reports that the rules give them.
//!
//! `examples/check.py` compares the files with these runs.

/// A run of each file.
pub const RUNS: &str = "# examples/joined-publish.txt
client call 1 channel.open -> ticket 1
client next 1 -> frame method 1 channel.open
read -> read
send method 1 channel.open-ok -> sent
deliver -> received
client call 1 confirm.select 0 -> ticket 2
client next 1 -> frame method 1 confirm.select 0
read -> read
send method 1 confirm.select-ok -> sent
deliver -> received
client call 1 basic.publish x x68656c6c6f 0 0 x48656c6c6f20776f726c6421 [] -> publish 3 1
client next 1 -> frame method 1 basic.publish x x68656c6c6f 0 0
client next 1 -> frame header 1 60 12 []
read -> read
read -> read
send method 1 basic.ack 1 0 -> notlawful
client next 1 -> frame body 1 x48656c6c6f20776f726c6421
read -> read
send method 1 basic.ack 1 0 -> sent
client confirm 1 -> pending
deliver -> received
client ticket 3 -> answer confirm 1
client confirm 1 -> confirmed ack -";
