//! The broker's close of a channel, and channels that are opened again.

pub const HISTORIES: &str = "
# A channel that is being opened hears a close. An open that hasn't left never leaves; the close is
# answered all the same.
call 1 channel.open -> ticket 1
recv method 1 channel.close 404 x 0 0 -> received
state 1 -> state open closed
ticket 1 -> error ProtocolError 404
next 1 -> frame method 1 channel.close-ok
next 1 -> noframe
call 1 channel.open -> ticket 2

# The same where the open has left.
call 1 channel.open -> ticket 1
next 1 -> frame method 1 channel.open
state 1 -> state open opening
recv method 1 channel.close 404 x 0 0 -> received
ticket 1 -> error ProtocolError 404
next 1 -> frame method 1 channel.close-ok
next 1 -> noframe

# The end drops the frames of its channel and resolves all that its opening had open: a pending tag, a
# begun publish, one that hasn't begun, a ticket that waits. Frames of the other channel leave.
= opened
call 2 channel.open -> ticket 2
next 1 -> frame method 2 channel.open
recv method 2 channel.open-ok -> received
call 1 confirm.select 0 -> ticket 3
next 1 -> frame method 1 confirm.select 0
call 1 basic.publish x x71 0 0 x [] -> publish 4 1
call 1 basic.publish x x71 0 0 x616263 [] -> publish 5 2
call 2 basic.publish x x71 0 0 x [] -> publish 6 3
call 1 basic.publish x x71 0 0 x [] -> publish 7 4
next 1 -> frame method 1 basic.publish x x71 0 0
next 1 -> frame header 1 60 0 []
next 1 -> frame method 1 basic.publish x x71 0 0
call 1 confirm.select 0 -> ticket 8
recv method 1 channel.close 404 x6e6f 60 40 -> received
state 1 -> state open closed
ticket 1 -> answer channel 1
ticket 3 -> error ProtocolError 404
ticket 4 -> answer confirm 1
ticket 5 -> error ProtocolError 404
ticket 6 -> pending
ticket 7 -> error ProtocolError 404
ticket 8 -> error ProtocolError 404
confirm 1 -> error ProtocolError 404
confirm 2 -> error ProtocolError 404
confirm 3 -> pending
confirm 4 -> error ProtocolError 404
next 1 -> frame method 1 channel.close-ok
next 1 -> frame method 2 basic.publish x x71 0 0
next 1 -> frame header 2 60 0 []
next 1 -> noframe
ticket 6 -> answer confirm 3
confirm 3 -> confirmed notrequested
confirm 4 -> refused AlreadyTaken

# What was decided before the end stays decided.
= opened
call 1 basic.publish x x71 0 0 x616263 [] -> publish 2 1
next 1 -> frame method 1 basic.publish x x71 0 0
next 1 -> frame header 1 60 3 []
recv method 1 channel.close 404 x 0 0 -> received
confirm 1 -> confirmed notrequested
ticket 2 -> error ProtocolError 404
next 1 -> frame method 1 channel.close-ok
next 1 -> noframe

# A settlement from before the end stays too; what it didn't cover gets the error.
= selected
call 1 basic.publish x x71 0 0 x [] -> publish 3 1
call 1 basic.publish x x71 0 0 x [] -> publish 4 2
next 1 -> frame method 1 basic.publish x x71 0 0
next 1 -> frame header 1 60 0 []
next 1 -> frame method 1 basic.publish x x71 0 0
recv method 1 basic.nack 1 1 0 -> received
recv method 1 channel.close 404 x 0 0 -> received
confirm 1 -> confirmed nack -
confirm 2 -> error ProtocolError 404
ticket 3 -> answer confirm 1
ticket 4 -> error ProtocolError 404

# An end takes every frame of its channel, an answer to an earlier close too: one close-ok is left for
# the last close.
= opened
recv method 1 channel.close 404 x 0 0 -> received
call 1 channel.open -> ticket 2
recv method 1 channel.close 405 x 0 0 -> received
ticket 2 -> error ProtocolError 405
next 1 -> frame method 1 channel.close-ok
next 1 -> noframe

# A new opening isn't selected and numbers its tags from 1. A settlement there says nothing of the
# opening before it.
= selected
call 1 basic.publish x x71 0 0 x [] -> publish 3 1
next 1 -> frame method 1 basic.publish x x71 0 0
next 1 -> frame header 1 60 0 []
call 1 channel.close 200 x -> ticket 4
next 1 -> frame method 1 channel.close 200 x 0 0
recv method 1 channel.close-ok -> received
call 1 channel.open -> ticket 5
next 1 -> frame method 1 channel.open
recv method 1 channel.open-ok -> received
ticket 5 -> answer channel 1
call 1 basic.publish x x71 0 0 x [] -> publish 6 2
next 1 -> frame method 1 basic.publish x x71 0 0
next 1 -> frame header 1 60 0 []
confirm 2 -> confirmed notrequested
recv method 1 basic.ack 1 0 -> passed
call 1 confirm.select 1 -> ticket 7
next 1 -> frame method 1 confirm.select 1
call 1 basic.publish x x71 0 0 x [] -> publish 8 3
next 1 -> frame method 1 basic.publish x x71 0 0
next 1 -> frame header 1 60 0 []
recv method 1 basic.ack 1 0 -> received
confirm 3 -> confirmed ack -
confirm 1 -> error InvalidChannelState closed

# Also after the broker's close, whose answer leaves before the new open, and after the session's own
# close.
= selected
call 1 basic.publish x x71 0 0 x [] -> publish 3 1
next 1 -> frame method 1 basic.publish x x71 0 0
next 1 -> frame header 1 60 0 []
recv method 1 channel.close 404 x 0 0 -> received
call 1 channel.open -> ticket 4
next 1 -> frame method 1 channel.close-ok
next 1 -> frame method 1 channel.open
recv method 1 channel.open-ok -> received
call 1 confirm.select 1 -> ticket 5
next 1 -> frame method 1 confirm.select 1
call 1 basic.publish x x71 0 0 x [] -> publish 6 2
next 1 -> frame method 1 basic.publish x x71 0 0
recv method 1 basic.ack 0 1 -> received
confirm 2 -> confirmed ack -
confirm 1 -> error ProtocolError 404

# The same after the session's own close.
= selected
call 1 basic.publish x x71 0 0 x [] -> publish 3 1
next 1 -> frame method 1 basic.publish x x71 0 0
next 1 -> frame header 1 60 0 []
recv method 1 basic.ack 2 0 -> refused PreconditionFailed 2 1
next 1 -> frame method 1 channel.close 406 x505245434f4e444954494f4e5f4641494c4544 60 80
recv method 1 channel.close-ok -> received
call 1 channel.open -> ticket 4
next 1 -> frame method 1 channel.open
recv method 1 channel.open-ok -> received
call 1 confirm.select 1 -> ticket 5
next 1 -> frame method 1 confirm.select 1
call 1 basic.publish x x71 0 0 x [] -> publish 6 2
next 1 -> frame method 1 basic.publish x x71 0 0
recv method 1 basic.ack 2 0 -> refused PreconditionFailed 2 1
confirm 2 -> pending
confirm 1 -> error ProtocolError 406
";
