//! The examples of transcripts: the frames of each file, with the account and the finding that the rules give them.
//!
//! `examples/check.py` compares the files with these transcripts.

/// A transcript of each file.
pub const TRANSCRIPTS: &str = "# examples/check-mixed-frames.txt
up method 1 channel.open
down method 1 channel.open-ok
up method 1 confirm.select 0
down method 1 confirm.select-ok
up method 1 basic.publish x x6f7264657273 0 0
up header 1 60 7 [delivery_mode=2]
up body 1 x6f726465722031
up method 1 basic.publish x x6f7264657273 0 0
up header 1 60 7 [delivery_mode=2]
up body 1 x6f726465722032
up method 1 basic.publish x x6f7264657273 0 0
up header 1 60 7 [delivery_mode=2]
up body 1 x6f726465722033
down method 1 basic.ack 2 1
down method 1 basic.nack 3 0 0
up method 1 basic.publish x x6f7264657273 0 0
up header 1 60 7 [delivery_mode=2]
up method 1 basic.get x7265706c696573 0
-> publish 1 1 1 7 ack 14
-> publish 1 1 2 10 ack 14
-> publish 1 1 3 13 nack 15
-> broken 18 ContentExpected";
