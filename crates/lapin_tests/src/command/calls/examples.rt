//! The example of calls over queues: the steps of the file, with the reports that the rules give them.
//!
//! `examples/check.py` compares the file with this run.

/// A run of the file.
pub const RUNS: &str = "# examples/call-fibonacci.txt
next 1 -> frame method 1 channel.open
recv method 1 channel.open-ok -> received
next 1 -> frame method 1 basic.consume x7265706c696573 x7265706c696573 0 1 0 1 {}
ask x x7270635f7175657565 x3330 -> call 1
ask x x7270635f7175657565 x3331 -> call 2
next 1 -> frame method 1 basic.publish x x7270635f7175657565 0 0
next 1 -> frame header 1 60 2 [correlation_id=x31,reply_to=x7265706c696573]
next 1 -> frame body 1 x3330
next 1 -> frame method 1 basic.publish x x7270635f7175657565 0 0
next 1 -> frame header 1 60 2 [correlation_id=x32,reply_to=x7265706c696573]
next 1 -> frame body 1 x3331
take 1 -> waiting
recv method 1 basic.deliver x7265706c696573 1 0 x x7265706c696573 -> received
recv header 1 60 7 [correlation_id=x32] -> received
recv body 1 x31333436323639 -> received
collect -> collected 1 0 0
take 1 -> waiting
take 2 -> reply x31333436323639
recv method 1 basic.deliver x7265706c696573 2 0 x x7265706c696573 -> received
recv header 1 60 6 [correlation_id=x31] -> received
recv body 1 x383332303430 -> received
recv method 1 basic.deliver x7265706c696573 3 0 x x7265706c696573 -> received
recv header 1 60 6 [correlation_id=x31] -> received
recv body 1 x383332303430 -> received
collect -> collected 1 1 0
take 1 -> reply x383332303430
take 1 -> taken
ask x x7270635f7175657565 x3332 -> call 3
lost -> lost
collect -> collected 0 0 0
take 3 -> ended ConnectionLost";
