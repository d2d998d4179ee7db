//! An open cancel is done at each kind of end of its opening.

pub const HISTORIES: &str = "
# Ends of a channel.
= opened
call 1 basic.cancel x74 0 -> ticket 2
call 1 tx.select -> ticket 3
recv method 1 channel.close 404 x 0 0 -> received
ticket 2 -> answer done
ticket 3 -> error ProtocolError 404
next 1 -> frame method 1 channel.close-ok
next 1 -> noframe
# Close-ok for the client's close.
call 1 channel.open -> ticket 4
next 1 -> frame method 1 channel.open
recv method 1 channel.open-ok -> received
call 1 basic.cancel x74 0 -> ticket 5
call 1 tx.select -> ticket 6
call 1 channel.close 200 x -> ticket 7
next 1 -> frame method 1 basic.cancel x74 0
next 1 -> frame method 1 tx.select
next 1 -> frame method 1 channel.close 200 x 0 0
recv method 1 channel.close-ok -> received
ticket 5 -> answer done
ticket 6 -> error InvalidChannelState closed
ticket 7 -> answer done
# Close-ok for the session's own close, which hadn't left.
call 1 channel.open -> ticket 8
next 1 -> frame method 1 channel.open
recv method 1 channel.open-ok -> received
call 1 confirm.select 1 -> ticket 9
next 1 -> frame method 1 confirm.select 1
call 1 basic.cancel x74 0 -> ticket 10
call 1 tx.select -> ticket 11
recv method 1 basic.ack 1 0 -> refused PreconditionFailed 1 0
recv method 1 channel.close-ok -> received
ticket 10 -> answer done
ticket 11 -> error ProtocolError 406
next 1 -> noframe
# Crossed.
call 1 channel.open -> ticket 12
next 1 -> frame method 1 channel.open
recv method 1 channel.open-ok -> received
call 1 basic.cancel x74 0 -> ticket 13
call 1 channel.close 200 x -> ticket 14
next 1 -> frame method 1 basic.cancel x74 0
next 1 -> frame method 1 channel.close 200 x 0 0
recv method 1 channel.close 404 x 0 0 -> received
ticket 13 -> answer done
ticket 14 -> pending
state 1 -> state open crossed
next 1 -> frame method 1 channel.close-ok
recv method 1 channel.close-ok -> received
ticket 14 -> answer done
# The own close unsent.
call 1 channel.open -> ticket 15
next 1 -> frame method 1 channel.open
recv method 1 channel.open-ok -> received
call 1 basic.cancel x74 0 -> ticket 16
call 1 channel.close 200 x -> ticket 17
recv method 1 channel.close 404 x 0 0 -> received
ticket 16 -> answer done
ticket 17 -> error ProtocolError 404
next 1 -> frame method 1 channel.close-ok
next 1 -> noframe
state 1 -> state open closed

# A close of the connection by this side, then its loss.
= opened
call 2 channel.open -> ticket 2
next 1 -> frame method 2 channel.open
recv method 2 channel.open-ok -> received
call 1 basic.consume x71 x74 0 0 0 1 {} -> ticket 3
next 1 -> frame method 1 basic.consume x71 x74 0 0 0 1 {}
call 1 basic.cancel x74 0 -> ticket 4
next 1 -> frame method 1 basic.cancel x74 0
call 2 basic.cancel x75 0 -> ticket 5
call 2 tx.select -> ticket 6
call 0 connection.close 200 x -> ticket 7
ticket 4 -> answer done
ticket 5 -> answer done
ticket 6 -> error InvalidChannelState down
consumer 1 -> failed InvalidChannelState down
consumer 1 -> end
next 1 -> frame method 0 connection.close 200 x 0 0
next 1 -> noframe
state 1 -> state closing down
lost -> lost
ticket 7 -> error ConnectionLost

# A close of the connection by the broker.
= opened
call 2 channel.open -> ticket 2
next 1 -> frame method 2 channel.open
recv method 2 channel.open-ok -> received
call 1 basic.consume x71 x74 0 0 0 1 {} -> ticket 3
next 1 -> frame method 1 basic.consume x71 x74 0 0 0 1 {}
call 1 basic.cancel x74 0 -> ticket 4
next 1 -> frame method 1 basic.cancel x74 0
call 2 basic.cancel x75 0 -> ticket 5
call 2 tx.select -> ticket 6
recv method 0 connection.close 541 x 0 0 -> received
ticket 4 -> answer done
ticket 5 -> answer done
ticket 6 -> error ProtocolError 541
consumer 1 -> failed ProtocolError 541
consumer 1 -> end
next 1 -> frame method 0 connection.close-ok
state 2 -> state closed down

# A frame that nobody expects.
= opened
call 2 channel.open -> ticket 2
next 1 -> frame method 2 channel.open
recv method 2 channel.open-ok -> received
call 1 basic.consume x71 x74 0 0 0 1 {} -> ticket 3
next 1 -> frame method 1 basic.consume x71 x74 0 0 0 1 {}
call 1 basic.cancel x74 0 -> ticket 4
next 1 -> frame method 1 basic.cancel x74 0
call 2 basic.cancel x75 0 -> ticket 5
call 2 tx.select -> ticket 6
recv method 3 channel.flow 1 -> refused UnexpectedFrame 20 20
ticket 4 -> answer done
ticket 5 -> answer done
ticket 6 -> error ProtocolError 505
consumer 1 -> failed ProtocolError 505
consumer 1 -> end
next 1 -> frame method 0 connection.close 505 x554e45585045435445445f4652414d45 20 20
next 1 -> noframe

# A loss.
= opened
call 2 channel.open -> ticket 2
next 1 -> frame method 2 channel.open
recv method 2 channel.open-ok -> received
call 1 basic.consume x71 x74 0 0 0 1 {} -> ticket 3
next 1 -> frame method 1 basic.consume x71 x74 0 0 0 1 {}
call 1 basic.cancel x74 0 -> ticket 4
next 1 -> frame method 1 basic.cancel x74 0
call 2 basic.cancel x75 0 -> ticket 5
call 2 tx.select -> ticket 6
lost -> lost
ticket 4 -> answer done
ticket 5 -> answer done
ticket 6 -> error ConnectionLost
consumer 1 -> failed ConnectionLost
consumer 1 -> end
next 1 -> noframe
recv method 0 connection.close-ok -> passed
state 2 -> state lost down
";
