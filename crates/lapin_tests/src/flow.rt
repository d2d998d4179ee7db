//! The broker's `channel.flow`: a paused channel that is open holds back the publishes of all channels; methods, and what of a
//! publish has begun, leave all the same.

pub const HISTORIES: &str = "
# A pause on one channel holds back the publish of another. The answer repeats what was asked, and leaves before it.
= two opened
call 1 basic.publish x x68656c6c6f 0 0 x [] -> publish 3 1
next 0 -> noframe
recv method 2 channel.flow 0 -> received
next 1 -> frame method 2 channel.flow-ok 0
next 1 -> noframe
recv method 2 channel.flow 1 -> received
next 1 -> frame method 2 channel.flow-ok 1
next 1 -> frame method 1 basic.publish x x68656c6c6f 0 0
next 1 -> frame header 1 60 0 []

# Methods leave without flow, and while a channel is paused.
= two opened
call 1 basic.publish x x68656c6c6f 0 0 x [] -> publish 3 1
call 1 tx.select -> ticket 4
next 0 -> frame method 1 tx.select
next 0 -> noframe
recv method 2 channel.flow 0 -> received
next 1 -> frame method 2 channel.flow-ok 0
next 1 -> noframe
recv method 2 channel.flow 1 -> received
next 1 -> frame method 2 channel.flow-ok 1
next 1 -> frame method 1 basic.publish x x68656c6c6f 0 0

# What has begun leaves whole, before the answer.
= opened
call 1 basic.publish x x71 0 0 x616263 [] -> publish 2 1
call 1 basic.publish x x72 0 0 x [] -> publish 3 2
next 1 -> frame method 1 basic.publish x x71 0 0
recv method 1 channel.flow 0 -> received
next 1 -> frame header 1 60 3 []
next 1 -> frame body 1 x616263
next 1 -> frame method 1 channel.flow-ok 0
next 1 -> noframe
ticket 2 -> answer confirm 1
ticket 3 -> pending

# A pause that is asked for twice ends once; one that never was ends too. Each is answered.
= opened
call 1 basic.publish x x71 0 0 x [] -> publish 2 1
recv method 1 channel.flow 1 -> received
recv method 1 channel.flow 0 -> received
recv method 1 channel.flow 0 -> received
recv method 1 channel.flow 1 -> received
next 1 -> frame method 1 channel.flow-ok 1
next 1 -> frame method 1 channel.flow-ok 0
next 1 -> frame method 1 channel.flow-ok 0
next 1 -> frame method 1 channel.flow-ok 1
next 1 -> frame method 1 basic.publish x x71 0 0

# Two channels are paused: both have to go on.
= two opened
call 1 basic.publish x x71 0 0 x [] -> publish 3 1
recv method 1 channel.flow 0 -> received
recv method 2 channel.flow 0 -> received
recv method 1 channel.flow 1 -> received
next 1 -> frame method 1 channel.flow-ok 0
next 1 -> frame method 2 channel.flow-ok 0
next 1 -> frame method 1 channel.flow-ok 1
next 1 -> noframe
recv method 2 channel.flow 1 -> received
next 1 -> frame method 2 channel.flow-ok 1
next 1 -> frame method 1 basic.publish x x71 0 0

# A paused channel that is closing holds nothing back any more.
= two opened
recv method 2 channel.flow 0 -> received
next 1 -> frame method 2 channel.flow-ok 0
call 1 basic.publish x x71 0 0 x [] -> publish 3 1
next 1 -> noframe
call 2 channel.close 200 x -> ticket 4
next 1 -> frame method 2 channel.close 200 x 0 0
next 1 -> frame method 1 basic.publish x x71 0 0

# Nor does one that the broker closed. Its unsent answer goes, and a new opening isn't paused.
= two opened
recv method 2 channel.flow 0 -> received
call 1 basic.publish x x71 0 0 x [] -> publish 3 1
recv method 2 channel.close 404 x 0 0 -> received
next 1 -> frame method 2 channel.close-ok
call 2 channel.open -> ticket 4
next 0 -> frame method 2 channel.open
recv method 2 channel.open-ok -> received
next 1 -> frame method 1 basic.publish x x71 0 0

# On a closing channel it is received and not answered.
= opened
call 1 channel.close 200 x -> ticket 2
recv method 1 channel.flow 0 -> received
next 1 -> frame method 1 channel.close 200 x 0 0
next 1 -> noframe
recv method 1 channel.flow 1 -> received
next 1 -> noframe

# A channel that is being opened doesn't hear it.
call 1 channel.open -> ticket 1
recv method 1 channel.flow 0 -> refused UnexpectedFrame 20 20
ticket 1 -> error ProtocolError 505

# Neither does the connection's channel.
= opened
recv method 0 channel.flow 0 -> refused UnexpectedFrame 20 20
state 1 -> state closing down
";
