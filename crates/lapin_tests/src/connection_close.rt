//! Closes of the connection, by the application, by the broker and by both, over channels in each state.

pub const HISTORIES: &str = "
# Every opening ends with the state that its channel has now, and every frame is dropped before the
# close is queued.
= each state
call 0 connection.close 200 x6f6b -> ticket 13
state 5 -> state closing down
state 0 -> state closing down
ticket 1 -> error InvalidChannelState down
ticket 2 -> answer channel 2
ticket 6 -> error InvalidChannelState down
ticket 7 -> error InvalidChannelState down
ticket 8 -> error InvalidChannelState down
ticket 9 -> answer confirm 1
ticket 10 -> error InvalidChannelState down
ticket 11 -> error InvalidChannelState down
ticket 12 -> error InvalidChannelState down
ticket 13 -> pending
confirm 1 -> error InvalidChannelState down
confirm 2 -> error InvalidChannelState down
confirm 3 -> error InvalidChannelState down
next 1 -> frame method 0 connection.close 200 x6f6b 0 0
next 1 -> noframe

# Every opening ends with the broker's code, and every frame is dropped before close-ok is queued.
= each state
recv method 0 connection.close 320 x6f6b 0 0 -> received
state 5 -> state closed down
state 0 -> state closed down
ticket 1 -> error ProtocolError 320
ticket 2 -> answer channel 2
ticket 6 -> error ProtocolError 320
ticket 7 -> error ProtocolError 320
ticket 8 -> error ProtocolError 320
ticket 9 -> answer confirm 1
ticket 10 -> error ProtocolError 320
ticket 11 -> error ProtocolError 320
ticket 12 -> error ProtocolError 320
confirm 1 -> error ProtocolError 320
confirm 2 -> error ProtocolError 320
confirm 3 -> error ProtocolError 320
next 1 -> frame method 0 connection.close-ok
next 1 -> noframe

# A frame that no rule hears ends every opening with the code of the session's close of the
# connection.
= each state
recv method 2 channel.open-ok -> refused UnexpectedFrame 20 11
state 5 -> state closing down
state 0 -> state closing down
ticket 1 -> error ProtocolError 505
ticket 2 -> answer channel 2
ticket 6 -> error ProtocolError 505
ticket 7 -> error ProtocolError 505
ticket 8 -> error ProtocolError 505
ticket 9 -> answer confirm 1
ticket 10 -> error ProtocolError 505
ticket 11 -> error ProtocolError 505
ticket 12 -> error ProtocolError 505
confirm 1 -> error ProtocolError 505
confirm 2 -> error ProtocolError 505
confirm 3 -> error ProtocolError 505
next 1 -> frame method 0 connection.close 505 x554e45585045435445445f4652414d45 20 11
next 1 -> noframe

# A loss ends every opening, and nothing leaves any more.
= each state
lost -> lost
state 5 -> state lost down
state 0 -> state lost down
ticket 1 -> error ConnectionLost
ticket 2 -> answer channel 2
ticket 6 -> error ConnectionLost
ticket 7 -> error ConnectionLost
ticket 8 -> error ConnectionLost
ticket 9 -> answer confirm 1
ticket 10 -> error ConnectionLost
ticket 11 -> error ConnectionLost
ticket 12 -> error ConnectionLost
confirm 1 -> error ConnectionLost
confirm 2 -> error ConnectionLost
confirm 3 -> error ConnectionLost
next 1 -> noframe

# A publish that has begun is cut, and the answer to another channel's close is dropped.
= opened
call 2 channel.open -> ticket 2
next 1 -> frame method 2 channel.open
recv method 2 channel.open-ok -> received
call 1 basic.publish x x68656c6c6f 0 0 x616263 [] -> publish 3 1
next 1 -> frame method 1 basic.publish x x68656c6c6f 0 0
recv method 2 channel.close 404 x 0 0 -> received
call 0 connection.close 200 x -> ticket 4
next 1 -> frame method 0 connection.close 200 x 0 0
next 1 -> noframe
confirm 1 -> confirmed notrequested
ticket 3 -> error InvalidChannelState down

# Closes of the connection that cross: the broker's is answered once, and the own one still waits for
# close-ok.
= opened
call 0 connection.close 200 x -> ticket 2
next 1 -> frame method 0 connection.close 200 x 0 0
recv method 0 connection.close 320 x 0 0 -> received
next 1 -> frame method 0 connection.close-ok
recv method 0 connection.close-ok -> received
ticket 2 -> answer done
call 1 channel.open -> refused InvalidChannelState down

# A second close of the broker is passed over, and the answer to the first one leaves also after close-ok.
= opened
call 0 connection.close 200 x -> ticket 2
next 1 -> frame method 0 connection.close 200 x 0 0
recv method 0 connection.close 320 x 0 0 -> received
state 0 -> state closing down
ticket 2 -> pending
recv method 0 connection.close 541 x 0 0 -> passed
recv method 0 connection.close-ok -> received
state 0 -> state closed down
ticket 2 -> answer done
next 1 -> frame method 0 connection.close-ok
next 1 -> noframe

# The broker's close drops an own close that hasn't left and is the end: the ticket gets the broker's
# code.
= opened
call 0 connection.close 200 x -> ticket 2
recv method 0 connection.close 320 x 0 0 -> received
state 0 -> state closed down
ticket 2 -> error ProtocolError 320
next 1 -> frame method 0 connection.close-ok
next 1 -> noframe
recv method 0 connection.close-ok -> passed
recv method 0 connection.close 320 x 0 0 -> passed
next 1 -> noframe

# close-ok drops an own close that hasn't left, and is the end.
= opened
call 0 connection.close 200 x -> ticket 2
recv method 0 connection.close-ok -> received
state 0 -> state closed down
ticket 2 -> answer done
ticket 2 -> refused AlreadyTaken
next 1 -> noframe

# While the connection is closing every frame is passed over but a close and close-ok on its own
# channel, and no call is allowed.
= opened
call 0 connection.close 200 x -> ticket 2
next 1 -> frame method 0 connection.close 200 x 0 0
recv method 1 channel.open-ok -> passed
recv method 1 confirm.select-ok -> passed
recv method 1 basic.ack 1 0 -> passed
recv method 1 channel.close 404 x 0 0 -> passed
recv method 1 channel.close-ok -> passed
recv header 1 60 0 [] -> passed
recv body 1 x -> passed
recv method 0 channel.open -> passed
recv method 1 connection.close 320 x 0 0 -> passed
recv method 1 connection.close-ok -> passed
next 1 -> noframe
state 0 -> state closing down
ticket 2 -> pending
call 0 channel.open -> refused InvalidChannelState down
call 1 channel.open -> refused InvalidChannelState down
call 1 confirm.select 0 -> refused InvalidChannelState down
call 1 basic.publish x x71 0 0 x [] -> refused InvalidChannelState down
call 1 channel.close 200 x -> refused InvalidChannelState down
call 0 connection.close 200 x -> refused InvalidChannelState down
recv method 0 connection.close-ok -> received
ticket 2 -> answer done
recv method 1 channel.open-ok -> passed
recv method 0 connection.close-ok -> passed
recv method 0 connection.close 320 x 0 0 -> passed
next 1 -> noframe
state 1 -> state closed down

# The connection is closed on channel 0, and a call there is refused by no other state. A refused
# close uses no number.
= opened
call 1 connection.close 200 x -> refused InvalidChannelState open
call 2 connection.close 200 x -> refused InvalidChannelState closed
call 0 channel.open -> refused InvalidChannelState base
call 0 confirm.select 0 -> refused InvalidChannelState base
state 0 -> state open base
next 1 -> noframe
call 0 connection.close 200 x -> ticket 2

# The connection can be closed while no channel was ever opened, by either side.
call 0 connection.close 200 x -> ticket 1
next 0 -> frame method 0 connection.close 200 x 0 0
recv method 0 connection.close-ok -> received
ticket 1 -> answer done
state 9 -> state closed down

# The same by the broker.
recv method 0 connection.close 320 x 0 0 -> received
state 9 -> state closed down
call 0 connection.close 200 x -> refused InvalidChannelState down
next 0 -> frame method 0 connection.close-ok
next 0 -> noframe
";
