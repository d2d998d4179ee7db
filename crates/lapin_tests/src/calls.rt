//! Calls by the table of methods: their tickets, and what becomes of those that are set aside or wait at an end.

pub const HISTORIES: &str = "
# A call between the frames of a publish waits until these have left.
= opened
call 1 basic.publish x x68656c6c6f 0 0 x616263 [] -> publish 2 1
next 1 -> frame method 1 basic.publish x x68656c6c6f 0 0
call 1 queue.declare x71 0 0 0 0 0 {} -> ticket 3
next 1 -> frame header 1 60 3 []
next 1 -> frame body 1 x616263
next 1 -> frame method 1 queue.declare x71 0 0 0 0 0 {}

# A call without wait completes itself: the reply is for the earlier one that waits.
= opened
call 1 queue.declare x61 0 0 0 0 0 {} -> ticket 2
call 1 queue.declare x62 0 0 0 0 1 {} -> ticket 3
ticket 3 -> answer queue x62 0 0
ticket 2 -> pending
recv method 1 queue.declare-ok x61 5 1 -> received
ticket 2 -> answer queue x61 5 1

# A purge without wait tells no count.
= opened
call 1 queue.purge x71 1 -> ticket 2
ticket 2 -> answer count 0

# A ticket that is set aside gives no answer; its request stays, and takes its reply.
= opened
call 1 tx.select -> ticket 2
aside-ticket 2 -> aside
ticket 2 -> refused AlreadyTaken
recv method 1 tx.select-ok -> received

# Arguments leave as they were given.
= opened
call 1 queue.declare x71 0 0 0 0 0 {x61=I-1,x62=F{}} -> ticket 2
next 1 -> frame method 1 queue.declare x71 0 0 0 0 0 {x61=I-1,x62=F{}}

# The request of a ticket that was set aside comes first: the second reply is for the second call.
= opened
call 1 queue.declare x61 0 0 0 0 0 {} -> ticket 2
call 1 queue.declare x62 0 0 0 0 0 {} -> ticket 3
aside-ticket 2 -> aside
recv method 1 queue.declare-ok x61 1 2 -> received
ticket 3 -> pending
recv method 1 queue.declare-ok x62 3 4 -> received
ticket 3 -> answer queue x62 3 4
recv method 1 queue.declare-ok x62 3 4 -> refused UnexpectedFrame 50 11

# Setting aside is refused for a number that was never given, and where the answer was given or set aside before.
= opened
aside-ticket 2 -> refused UnknownTicket
aside-ticket 0 -> refused UnknownTicket
ticket 1 -> answer channel 1
aside-ticket 1 -> refused AlreadyTaken
call 1 confirm.select 1 -> ticket 2
aside-ticket 2 -> aside
aside-ticket 2 -> refused AlreadyTaken
ticket 2 -> refused AlreadyTaken

# A reply is for the oldest request of its own kind, in whatever order the kinds come.
= opened
call 1 queue.bind x71 x65 x6b 0 {} -> ticket 2
call 1 tx.select -> ticket 3
call 1 queue.bind x71 x65 x6c 0 {} -> ticket 4
call 1 queue.unbind x71 x65 x6b {} -> ticket 5
recv method 1 queue.unbind-ok -> received
ticket 5 -> answer done
recv method 1 tx.select-ok -> received
ticket 3 -> answer done
recv method 1 queue.bind-ok -> received
ticket 2 -> answer done
ticket 4 -> pending
recv method 1 queue.bind-ok -> received
ticket 4 -> answer done

# A request is its channel's: the reply of another channel is not heard.
= two opened
call 1 basic.qos 10 0 -> ticket 3
recv method 2 basic.qos-ok -> refused UnexpectedFrame 60 11
ticket 3 -> error ProtocolError 505

# On a closing channel replies are heard still.
= opened
call 1 queue.delete x71 0 0 0 -> ticket 2
call 1 channel.close 200 x -> ticket 3
next 1 -> frame method 1 queue.delete x71 0 0 0
next 1 -> frame method 1 channel.close 200 x 0 0
recv method 1 queue.delete-ok 7 -> received
ticket 2 -> answer count 7
recv method 1 channel.close-ok -> received
ticket 3 -> answer done

# What still waits at an end gets its error: a call that awaits its reply, and one whose frame has not left.
= opened
call 1 queue.declare x71 0 0 0 0 0 {} -> ticket 2
next 1 -> frame method 1 queue.declare x71 0 0 0 0 0 {}
call 1 basic.ack 1 0 -> ticket 3
call 1 basic.qos 1 0 -> ticket 4
call 1 exchange.delete x65 0 1 -> ticket 5
recv method 1 channel.close 404 x 50 10 -> received
ticket 2 -> error ProtocolError 404
ticket 3 -> error ProtocolError 404
ticket 4 -> error ProtocolError 404
ticket 5 -> answer done
next 1 -> frame method 1 channel.close-ok
next 1 -> noframe

# At a loss too, but for what left and was answered before.
= opened
call 1 basic.reject 1 0 -> ticket 2
next 1 -> frame method 1 basic.reject 1 0
call 1 basic.nack 2 0 0 -> ticket 3
call 1 tx.commit -> ticket 4
lost -> lost
ticket 2 -> answer done
ticket 3 -> error ConnectionLost
ticket 4 -> error ConnectionLost

# No call is allowed on a channel that isn't open; one that is refused uses no number.
call 1 channel.close 200 x -> refused InvalidChannelState closed
call 1 channel.flow 1 -> refused InvalidChannelState closed
call 1 access.request x 0 0 0 0 0 -> refused InvalidChannelState closed
call 1 exchange.declare x65 x646972656374 0 0 0 0 0 {} -> refused InvalidChannelState closed
call 1 exchange.delete x65 0 1 -> refused InvalidChannelState closed
call 1 exchange.bind x64 x65 x 0 {} -> refused InvalidChannelState closed
call 1 exchange.unbind x64 x65 x 1 {} -> refused InvalidChannelState closed
call 1 queue.declare x71 0 0 0 0 1 {} -> refused InvalidChannelState closed
call 1 queue.bind x71 x65 x 0 {} -> refused InvalidChannelState closed
call 1 queue.purge x71 1 -> refused InvalidChannelState closed
call 1 queue.delete x71 0 0 0 -> refused InvalidChannelState closed
call 1 queue.unbind x71 x65 x {} -> refused InvalidChannelState closed
call 1 basic.qos 1 0 -> refused InvalidChannelState closed
call 1 basic.ack 1 0 -> refused InvalidChannelState closed
call 1 basic.nack 1 0 0 -> refused InvalidChannelState closed
call 1 basic.reject 1 0 -> refused InvalidChannelState closed
call 1 basic.recover-async 0 -> refused InvalidChannelState closed
call 1 basic.recover 0 -> refused InvalidChannelState closed
call 1 tx.select -> refused InvalidChannelState closed
call 1 tx.commit -> refused InvalidChannelState closed
call 1 tx.rollback -> refused InvalidChannelState closed
next 1 -> noframe
call 1 channel.open -> ticket 1
";
