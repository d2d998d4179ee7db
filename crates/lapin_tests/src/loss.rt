//! The loss of the connection.

pub const HISTORIES: &str = "
# What waits gets ConnectionLost.
= selected
call 1 basic.publish x x68656c6c6f 0 0 x616263 [] -> publish 3 1
next 1 -> frame method 1 basic.publish x x68656c6c6f 0 0
next 1 -> frame header 1 60 3 []
lost -> lost
ticket 3 -> error ConnectionLost
confirm 1 -> error ConnectionLost
next 1 -> noframe
lost -> lost
state 1 -> state lost down

# What was decided or rejected before keeps its outcome, and gives it once.
= opened
call 1 basic.publish x x71 0 0 x [] -> publish 2 1
next 1 -> frame method 1 basic.publish x x71 0 0
next 1 -> frame header 1 60 0 []
call 1 confirm.select 0 -> ticket 3
next 1 -> frame method 1 confirm.select 0
recv method 1 confirm.select-ok -> received
call 1 basic.publish x x71 0 0 x [] -> publish 4 2
call 1 basic.publish x x71 0 0 x [] -> publish 5 3
call 1 basic.publish x x71 0 0 x [] -> publish 6 4
call 1 basic.publish x x71 0 0 x [] -> publish 7 5
next 1 -> frame method 1 basic.publish x x71 0 0
next 1 -> frame header 1 60 0 []
next 1 -> frame method 1 basic.publish x x71 0 0
next 1 -> frame header 1 60 0 []
next 1 -> frame method 1 basic.publish x x71 0 0
recv method 1 basic.nack 2 0 1 -> received
recv method 1 basic.ack 1 0 -> received
call 1 channel.close 200 x -> ticket 8
lost -> lost
confirm 1 -> confirmed notrequested
confirm 2 -> confirmed ack -
confirm 3 -> confirmed nack -
confirm 4 -> error ConnectionLost
confirm 5 -> error InvalidChannelState closing
confirm 4 -> refused AlreadyTaken
ticket 3 -> answer done
ticket 4 -> answer confirm 2
ticket 6 -> error ConnectionLost
ticket 7 -> error InvalidChannelState closing
ticket 8 -> error ConnectionLost
ticket 8 -> refused AlreadyTaken

# A loss while the connection is closing drops its close and ends the ticket of it. A second loss
# changes nothing, and no frame is heard any more.
= opened
call 0 connection.close 200 x -> ticket 2
lost -> lost
state 0 -> state lost down
ticket 2 -> error ConnectionLost
next 1 -> noframe
lost -> lost
ticket 2 -> refused AlreadyTaken
recv method 0 connection.close-ok -> passed
recv method 0 connection.close 320 x 0 0 -> passed
recv method 1 channel.close 404 x 0 0 -> passed
recv body 1 x -> passed
state 0 -> state lost down
next 1 -> noframe
call 0 connection.close 200 x -> refused InvalidChannelState down
call 1 channel.open -> refused InvalidChannelState down

# The same where the session closed it over a frame that no rule hears.
= opened
recv body 1 x -> refused UnexpectedFrame 0 0
lost -> lost
state 0 -> state lost down
next 1 -> noframe

# A loss after the broker's close drops the answer to it. The errors stay those of the close, which
# came first.
= selected
call 1 basic.publish x x71 0 0 x [] -> publish 3 1
next 1 -> frame method 1 basic.publish x x71 0 0
recv method 0 connection.close 320 x 0 0 -> received
state 0 -> state closed down
lost -> lost
state 0 -> state lost down
next 1 -> noframe
confirm 1 -> error ProtocolError 320
ticket 3 -> error ProtocolError 320

# The same where this side closed it, and close-ok came.
= opened
call 0 connection.close 200 x -> ticket 2
next 1 -> frame method 0 connection.close 200 x 0 0
recv method 0 connection.close-ok -> received
lost -> lost
ticket 2 -> answer done
state 0 -> state lost down

# A connection with crossed closes waits for close-ok: a loss ends its ticket, and drops the answer.
= opened
call 0 connection.close 200 x -> ticket 2
next 1 -> frame method 0 connection.close 200 x 0 0
recv method 0 connection.close 320 x 0 0 -> received
lost -> lost
ticket 2 -> error ConnectionLost
next 1 -> noframe
state 0 -> state lost down

# A new session is lost
state 0 -> state open base
state 1 -> state open closed
lost -> lost
state 0 -> state lost down
state 1 -> state lost down
call 1 channel.open -> refused InvalidChannelState down
ticket 1 -> refused UnknownTicket
lost -> lost
";
