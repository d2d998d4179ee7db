//! Closes of a channel that cross: the own close has left as the broker's comes.

pub const HISTORIES: &str = "
# The opening ends at the broker's close, with its code; the ticket of the own close waits for close-ok.
# Then the channel can be opened again, and its tags begin at 1.
= selected
call 1 basic.publish x x68656c6c6f 0 0 x [] -> publish 3 1
next 1 -> frame method 1 basic.publish x x68656c6c6f 0 0
next 1 -> frame header 1 60 0 []
call 1 channel.close 200 x -> ticket 4
next 1 -> frame method 1 channel.close 200 x 0 0
recv method 1 channel.close 404 x 0 0 -> received
state 1 -> state open crossed
confirm 1 -> error ProtocolError 404
next 1 -> frame method 1 channel.close-ok
recv method 1 channel.close-ok -> received
ticket 4 -> answer done
call 1 channel.open -> ticket 5
next 1 -> frame method 1 channel.open
recv method 1 channel.open-ok -> received
call 1 confirm.select 0 -> ticket 6
next 1 -> frame method 1 confirm.select 0
recv method 1 confirm.select-ok -> received
call 1 basic.publish x x68656c6c6f 0 0 x [] -> publish 7 2
next 1 -> frame method 1 basic.publish x x68656c6c6f 0 0
recv method 1 basic.ack 1 0 -> received
confirm 2 -> confirmed ack -

# Every ticket of the opening but that of the close gets the broker's code. No call is allowed. A
# close-ok that comes before the own answer left ends the crossing, and the answer leaves before the
# next open.
= selected
call 1 confirm.select 0 -> ticket 3
next 1 -> frame method 1 confirm.select 0
call 1 basic.publish x x71 0 0 x [] -> publish 4 1
next 1 -> frame method 1 basic.publish x x71 0 0
call 1 channel.close 200 x -> ticket 5
next 1 -> frame header 1 60 0 []
next 1 -> frame method 1 channel.close 200 x 0 0
recv method 1 channel.close 404 x 0 0 -> received
ticket 3 -> error ProtocolError 404
ticket 5 -> pending
call 1 channel.open -> refused InvalidChannelState crossed
call 1 confirm.select 1 -> refused InvalidChannelState crossed
call 1 basic.publish x x71 0 0 x [] -> refused InvalidChannelState crossed
call 1 channel.close 200 x -> refused InvalidChannelState crossed
call 1 connection.close 200 x -> refused InvalidChannelState crossed
recv method 1 channel.close-ok -> received
ticket 5 -> answer done
ticket 4 -> answer confirm 1
confirm 1 -> error ProtocolError 404
state 1 -> state open closed
call 1 channel.open -> ticket 6
next 1 -> frame method 1 channel.close-ok
next 1 -> frame method 1 channel.open
next 1 -> noframe

# Of the broker's frames a crossed channel hears close-ok alone. Another closes the connection, with
# which the ticket of the close ends.
= crossed
recv method 1 basic.ack 1 0 -> refused UnexpectedFrame 60 80
ticket 2 -> error ProtocolError 505
state 1 -> state closing down
next 1 -> frame method 0 connection.close 505 x554e45585045435445445f4652414d45 60 80
next 1 -> noframe

# A second close of the broker is no exception.
= crossed
recv method 1 channel.close 404 x 0 0 -> refused UnexpectedFrame 20 40
ticket 2 -> error ProtocolError 505
next 1 -> frame method 0 connection.close 505 x554e45585045435445445f4652414d45 20 40
next 1 -> noframe

# As the connection leaves its open state, the ticket of the close gets the error of that: the state,
# the broker's code, the loss.
= opened
call 1 channel.close 200 x -> ticket 2
next 1 -> frame method 1 channel.close 200 x 0 0
recv method 1 channel.close 404 x 0 0 -> received
call 0 connection.close 200 x -> ticket 3
ticket 2 -> error InvalidChannelState down
next 1 -> frame method 0 connection.close 200 x 0 0
next 1 -> noframe

# The same by the broker's close: its code.
= crossed
recv method 0 connection.close 320 x 0 0 -> received
ticket 2 -> error ProtocolError 320
state 1 -> state closed down
next 1 -> frame method 0 connection.close-ok
next 1 -> noframe

# The same by the loss.
= crossed
lost -> lost
ticket 2 -> error ConnectionLost
state 1 -> state lost down
next 1 -> noframe
";
