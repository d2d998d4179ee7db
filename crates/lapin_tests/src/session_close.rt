//! The session's own close of a channel, after a single settlement of a tag that isn't pending.

pub const HISTORIES: &str = "
# A wrong ack closes the channel
= selected
call 1 basic.publish x x68656c6c6f 0 0 x [] -> publish 3 1
next 1 -> frame method 1 basic.publish x x68656c6c6f 0 0
next 1 -> frame header 1 60 0 []
recv method 1 basic.ack 7 0 -> refused PreconditionFailed 7 1
next 1 -> frame method 1 channel.close 406 x505245434f4e444954494f4e5f4641494c4544 60 80
recv method 1 basic.ack 1 0 -> received
confirm 1 -> confirmed ack -
recv method 1 channel.close-ok -> received
state 1 -> state open closed

# The close names the method of a nack; a tag that was settled isn't pending, and no tag is 0.
= selected
recv method 1 basic.nack 0 0 1 -> refused PreconditionFailed 0 0
state 1 -> state open closing
next 1 -> frame method 1 channel.close 406 x505245434f4e444954494f4e5f4641494c4544 60 120
next 1 -> noframe

# A tag that was settled isn't pending any more.
= selected
call 1 basic.publish x x71 0 0 x [] -> publish 3 1
next 1 -> frame method 1 basic.publish x x71 0 0
next 1 -> frame header 1 60 0 []
recv method 1 basic.ack 1 0 -> received
recv method 1 basic.nack 1 0 0 -> refused PreconditionFailed 1 1
state 1 -> state open closing
next 1 -> frame method 1 channel.close 406 x505245434f4e444954494f4e5f4641494c4544 60 120
confirm 1 -> confirmed ack -

# As at the application's close: what hasn't begun is rejected at once, what has begun leaves before
# the close. The error is that of the close.
= selected
call 1 basic.publish x x71 0 0 x616263 [] -> publish 3 1
call 1 basic.publish x x71 0 0 x [] -> publish 4 2
next 1 -> frame method 1 basic.publish x x71 0 0
recv method 1 basic.ack 2 0 -> refused PreconditionFailed 2 1
confirm 2 -> error ProtocolError 406
ticket 4 -> error ProtocolError 406
confirm 1 -> pending
ticket 3 -> pending
next 1 -> frame header 1 60 3 []
next 1 -> frame body 1 x616263
ticket 3 -> answer confirm 1
next 1 -> frame method 1 channel.close 406 x505245434f4e444954494f4e5f4641494c4544 60 80
next 1 -> noframe
recv method 1 channel.close-ok -> received
confirm 1 -> error ProtocolError 406
state 1 -> state open closed

# A second wrong settlement is refused and queues no second close. An open ticket gets the error of
# the close at close-ok.
= selected
call 1 confirm.select 0 -> ticket 3
recv method 1 basic.ack 9 0 -> refused PreconditionFailed 9 0
recv method 1 basic.nack 9 0 1 -> refused PreconditionFailed 9 0
state 1 -> state open closing
call 1 channel.close 200 x -> refused InvalidChannelState closing
next 1 -> frame method 1 confirm.select 0
next 1 -> frame method 1 channel.close 406 x505245434f4e444954494f4e5f4641494c4544 60 80
next 1 -> noframe
recv method 1 channel.close-ok -> received
ticket 3 -> error ProtocolError 406
state 1 -> state open closed

# The broker's close drops the session's close and ends the opening with the broker's code.
= selected
call 1 basic.publish x x71 0 0 x [] -> publish 3 1
next 1 -> frame method 1 basic.publish x x71 0 0
next 1 -> frame header 1 60 0 []
recv method 1 basic.ack 9 0 -> refused PreconditionFailed 9 1
recv method 1 channel.close 404 x 0 0 -> received
state 1 -> state open closed
confirm 1 -> error ProtocolError 404
next 1 -> frame method 1 channel.close-ok
next 1 -> noframe

# close-ok is heard by the state alone, and drops the session's close.
= selected
call 1 basic.publish x x71 0 0 x [] -> publish 3 1
next 1 -> frame method 1 basic.publish x x71 0 0
next 1 -> frame header 1 60 0 []
recv method 1 basic.ack 9 0 -> refused PreconditionFailed 9 1
recv method 1 channel.close-ok -> received
state 1 -> state open closed
confirm 1 -> error ProtocolError 406
next 1 -> noframe

# Closes that cross: the broker's code is the error, and nobody holds a ticket of the session's close.
= selected
call 1 basic.publish x x71 0 0 x [] -> publish 3 1
next 1 -> frame method 1 basic.publish x x71 0 0
next 1 -> frame header 1 60 0 []
recv method 1 basic.ack 9 0 -> refused PreconditionFailed 9 1
next 1 -> frame method 1 channel.close 406 x505245434f4e444954494f4e5f4641494c4544 60 80
recv method 1 channel.close 404 x 0 0 -> received
state 1 -> state open crossed
confirm 1 -> error ProtocolError 404
recv method 1 channel.close-ok -> received
state 1 -> state open closed
next 1 -> frame method 1 channel.close-ok
next 1 -> noframe
call 1 channel.open -> ticket 4

# Without a select a settlement is passed over, and a multiple one is never refused.
= opened
recv method 1 basic.ack 9 0 -> passed
recv method 1 basic.nack 0 1 1 -> passed
state 1 -> state open open
next 1 -> noframe

# On a selected channel a multiple settlement is received, whatever it covers.
= selected
recv method 1 basic.ack 9 1 -> received
recv method 1 basic.nack 0 1 1 -> received
state 1 -> state open open
next 1 -> noframe
";
