//! Consumers: who is registered under a tag, by which call or reply, and how a cancel from either side ends it.

pub const HISTORIES: &str = "
# A consumer gets its messages whole and in order, acknowledges one, and is cancelled by the broker.
= opened
call 1 basic.consume x71 x74 0 0 0 0 {} -> ticket 2
next 1 -> frame method 1 basic.consume x71 x74 0 0 0 0 {}
recv method 1 basic.consume-ok x74 -> received
ticket 2 -> answer consumer 1
recv method 1 basic.deliver x74 1 0 x x71 -> received
recv method 1 basic.deliver x74 2 0 x x71 -> received
recv header 1 60 5 [] -> received
recv body 1 x68656c -> received
recv body 1 x6c6f -> received
recv header 1 60 0 [] -> received
consumer 1 -> item 1 x x71 0 [] x68656c6c6f 1
consumer 1 -> item 2 x x71 0 [] x 2
consumer 1 -> pending
acker 1 ack 0 -> ticket 3
acker 1 nack 0 1 -> no
next 1 -> frame method 1 basic.ack 1 0
ticket 3 -> answer yes
recv method 1 basic.cancel x74 0 -> received
next 1 -> frame method 1 basic.cancel-ok x74
consumer 1 -> end
consumer 1 -> end

# A consumer whose tag was taken over receives nothing more, not even its end.
= opened
call 1 basic.consume x71 x74 0 0 0 1 {} -> ticket 2
next 1 -> frame method 1 basic.consume x71 x74 0 0 0 1 {}
recv method 1 basic.deliver x74 1 0 x x71 -> received
recv header 1 60 1 [] -> received
recv body 1 x61 -> received
recv method 1 basic.deliver x74 2 0 x x71 -> received
call 1 basic.consume x72 x74 0 0 0 1 {} -> ticket 3
# Begun for consumer 1, which isn't registered any more: dropped, no number.
recv header 1 60 0 [] -> received
recv method 1 basic.deliver x74 3 0 x x71 -> received
recv header 1 60 0 [] -> received
consumer 2 -> item 3 x x71 0 [] x 2
drop 1 -> dropped 0
# Discards the queue of consumer 2 alone.
call 1 basic.recover-async 0 -> ticket 4
consumer 1 -> item 1 x x71 0 [] x61 1
acker 1 ack 0 -> ticket 5
consumer 1 -> pending
recv method 1 basic.deliver x74 4 0 x x71 -> received
recv header 1 60 0 [] -> received
delegate 1 -> delegated
consumer 1 -> pending
call 1 basic.cancel x74 0 -> ticket 6
recv method 1 basic.cancel-ok x74 -> received
consumer 2 -> item 4 x x71 0 [] x 3
consumer 2 -> end
lost -> lost
consumer 1 -> pending
job -> nojob
state 1 -> state lost down

# Replies take the oldest request of their kind, and act on the tag that they name.
= opened
call 1 basic.consume x71 x74 0 0 0 0 {} -> ticket 2
call 1 basic.consume x71 x75 0 0 0 0 {} -> ticket 3
recv method 1 basic.consume-ok x75 -> received
ticket 2 -> answer consumer 1
ticket 3 -> pending
recv method 1 basic.consume-ok x74 -> received
ticket 3 -> answer consumer 2
recv method 1 basic.deliver x75 1 0 x x71 -> received
recv header 1 60 0 [] -> received
consumer 1 -> item 1 x x71 0 [] x 1
call 1 basic.cancel x74 0 -> ticket 4
call 1 basic.consume x71 x74 0 0 0 1 {} -> ticket 5
delegate 3 -> delegated
# The older consumer's cancel ends the newer one of that tag, whose mark stands.
recv method 1 basic.cancel-ok x74 -> received
ticket 4 -> answer done
job -> job 3 end
job -> nojob
consumer 3 -> end
consumer 2 -> pending
recv method 1 basic.cancel-ok x75 -> refused UnexpectedFrame 60 31
consumer 1 -> failed ProtocolError 505
consumer 1 -> end
consumer 2 -> pending
next 1 -> frame method 0 connection.close 505 x554e45585045435445445f4652414d45 60 31
next 1 -> noframe

# A consume without wait registers in the call; an empty tag is a tag.
= opened
call 1 basic.consume x71 x 0 0 0 1 {} -> ticket 2
consumer 1 -> pending
ticket 2 -> answer consumer 1
ticket 2 -> refused AlreadyTaken
recv method 1 basic.deliver x 1 0 x x71 -> received
recv header 1 60 0 [] -> received
consumer 1 -> item 1 x x71 0 [] x 1
next 1 -> frame method 1 basic.consume x71 x 0 0 0 1 {}
# A delivery to a tag that nobody has.
recv method 1 basic.deliver x74 2 0 x x71 -> received
recv header 1 60 0 [] -> received
consumer 1 -> pending
recv method 1 basic.deliver x 3 0 x x71 -> received
recv header 1 60 0 [] -> received
consumer 1 -> item 3 x x71 0 [] x 2
recv method 1 basic.consume-ok x -> refused UnexpectedFrame 60 21
next 1 -> frame method 0 connection.close 505 x554e45585045435445445f4652414d45 60 21
consumer 1 -> failed ProtocolError 505
consumer 1 -> end
consumer 2 -> refused UnknownTicket
delegate 2 -> refused UnknownTicket

# With wait the reply registers, under the tag that it names; what was begun before is dropped.
= opened
call 1 basic.consume x71 x 0 0 0 0 {x61=V} -> ticket 2
consumer 1 -> refused UnknownTicket
recv method 1 basic.deliver x67 1 0 x x71 -> received
recv header 1 60 0 [] -> received
recv method 1 basic.deliver x67 2 0 x x71 -> received
# Before its frame left.
recv method 1 basic.consume-ok x67 -> received
# Begun before the registration: dropped.
recv header 1 60 0 [] -> received
consumer 1 -> pending
recv method 1 basic.deliver x67 3 0 x x71 -> received
recv header 1 60 0 [] -> received
recv method 1 basic.deliver x 4 0 x x71 -> received
recv header 1 60 0 [] -> received
consumer 1 -> item 3 x x71 0 [] x 1
consumer 1 -> pending
next 1 -> frame method 1 basic.consume x71 x 0 0 0 0 {x61=V}
call 1 basic.consume x71 x 0 0 0 0 {} -> ticket 3
recv method 1 channel.close 404 x 0 0 -> received
ticket 3 -> error ProtocolError 404
ticket 2 -> answer consumer 1
consumer 2 -> refused UnknownTicket
consumer 1 -> failed ProtocolError 404
consumer 1 -> end

# A cancel from both sides ends the consumer once.
= opened
call 1 basic.consume x71 x74 0 0 0 1 {} -> ticket 2
next 1 -> frame method 1 basic.consume x71 x74 0 0 0 1 {}
delegate 1 -> delegated
call 1 basic.cancel x74 0 -> ticket 3
recv method 1 basic.cancel x74 0 -> received
ticket 3 -> pending
# The call took the mark away: the end is an item.
job -> nojob
consumer 1 -> end
recv method 1 basic.cancel-ok x74 -> received
ticket 3 -> answer done
next 1 -> frame method 1 basic.cancel x74 0
next 1 -> frame method 1 basic.cancel-ok x74
next 1 -> noframe
call 1 basic.consume x71 x75 0 0 0 1 {} -> ticket 4
next 1 -> frame method 1 basic.consume x71 x75 0 0 0 1 {}
delegate 2 -> delegated
recv method 1 basic.cancel x75 1 -> received
job -> job 2 end
call 1 basic.cancel x75 1 -> ticket 5
ticket 5 -> answer done
job -> nojob
consumer 2 -> end
call 1 basic.cancel x75 0 -> ticket 6
recv method 1 basic.cancel-ok x75 -> received
ticket 6 -> answer done
recv method 1 basic.cancel-ok x75 -> refused UnexpectedFrame 60 31

# A cancel without wait gives the end in the call, as an item, and opens no request.
= opened
call 1 basic.consume x71 x74 0 0 0 1 {} -> ticket 2
next 1 -> frame method 1 basic.consume x71 x74 0 0 0 1 {}
delegate 1 -> delegated
recv method 1 basic.deliver x74 1 0 x x71 -> received
recv header 1 60 2 [] -> received
call 1 basic.cancel x74 1 -> ticket 3
ticket 3 -> answer done
# The mark was taken away before the end was given.
job -> nojob
consumer 1 -> end
# Not registered any more: dropped without number.
recv body 1 x6162 -> received
consumer 1 -> end
acker 1 ack 0 -> no
call 1 basic.cancel x74 1 -> ticket 4
ticket 4 -> answer done
next 1 -> frame method 1 basic.cancel x74 1
next 1 -> frame method 1 basic.cancel x74 1
next 1 -> noframe
# The call without wait opens no request.
recv method 1 basic.cancel-ok x74 -> refused UnexpectedFrame 60 31

# The broker may cancel any tag; it is answered on an open channel alone, unless it asks for no answer.
= opened
recv method 1 basic.cancel x74 0 -> received
next 1 -> frame method 1 basic.cancel-ok x74
recv method 1 basic.cancel x74 1 -> received
next 1 -> noframe
call 1 basic.consume x71 x74 0 0 0 1 {} -> ticket 2
next 1 -> frame method 1 basic.consume x71 x74 0 0 0 1 {}
call 1 channel.close 200 x -> ticket 3
recv method 1 basic.cancel x74 0 -> received
next 1 -> frame method 1 channel.close 200 x 0 0
next 1 -> noframe
consumer 1 -> end
recv method 1 channel.close-ok -> received
ticket 3 -> answer done
consumer 1 -> end
recv method 1 basic.cancel x74 0 -> refused UnexpectedFrame 60 30

# On a channel that this side is closing the broker still cancels; where the closes cross the others get the error.
= opened
call 1 basic.consume x71 x74 0 0 0 1 {} -> ticket 2
next 1 -> frame method 1 basic.consume x71 x74 0 0 0 1 {}
call 1 basic.consume x71 x75 0 0 0 1 {} -> ticket 3
next 1 -> frame method 1 basic.consume x71 x75 0 0 0 1 {}
delegate 1 -> delegated
delegate 2 -> delegated
recv method 1 basic.deliver x74 1 0 x x71 -> received
recv header 1 60 3 [] -> received
call 1 channel.close 200 x -> ticket 4
# The marks are gone: the delivery is an item.
recv body 1 x616263 -> received
job -> nojob
recv method 1 basic.cancel x74 0 -> received
consumer 1 -> item 1 x x71 0 [] x616263 1
consumer 1 -> end
next 1 -> frame method 1 channel.close 200 x 0 0
next 1 -> noframe
consumer 2 -> pending
recv method 1 channel.close 404 x 0 0 -> received
state 1 -> state open crossed
consumer 1 -> end
consumer 2 -> failed ProtocolError 404
consumer 2 -> end
consumer 2 -> end
job -> nojob
acker 1 ack 0 -> no
next 1 -> frame method 1 channel.close-ok
ticket 4 -> pending
recv method 1 channel.close-ok -> received
ticket 4 -> answer done
state 1 -> state open closed
";
