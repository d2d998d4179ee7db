//! A consumer that is let go, and ends as items and jobs.

pub const HISTORIES: &str = "
# A consumer that is let go is cancelled by a request without a ticket, where it is active and its channel open.
= opened
call 1 basic.consume x71 x74 0 0 0 1 {} -> ticket 2
next 1 -> frame method 1 basic.consume x71 x74 0 0 0 1 {}
drop 1 -> dropped 1
drop 1 -> dropped 0
next 1 -> frame method 1 basic.cancel x74 0
# Canceling, still registered.
recv method 1 basic.deliver x74 1 0 x x71 -> received
recv header 1 60 0 [] -> received
# Its items become jobs, no mark is set.
delegate 1 -> delegated
job -> job 1 item 1 x x71 0 [] x 1
recv method 1 basic.deliver x74 2 0 x x71 -> received
recv header 1 60 0 [] -> received
job -> nojob
consumer 1 -> item 2 x x71 0 [] x 2
consumer 1 -> pending
# The request without ticket.
recv method 1 basic.cancel-ok x74 -> received
consumer 1 -> end
drop 1 -> dropped 0
call 1 basic.consume x71 x75 0 0 0 1 {} -> ticket 3
next 1 -> frame method 1 basic.consume x71 x75 0 0 0 1 {}
delegate 2 -> delegated
drop 2 -> dropped 0
call 1 basic.consume x71 x76 0 0 0 1 {} -> ticket 4
next 1 -> frame method 1 basic.consume x71 x76 0 0 0 1 {}
call 1 channel.close 200 x -> ticket 5
drop 3 -> dropped 0
drop 4 -> refused UnknownTicket
drop 0 -> refused UnknownTicket
next 1 -> frame method 1 channel.close 200 x 0 0
recv method 1 channel.close-ok -> received
consumer 3 -> end
consumer 2 -> end
job -> nojob
drop 3 -> dropped 0

# Its request is open like others, and answers nobody.
= opened
call 1 basic.consume x71 x74 0 0 0 1 {} -> ticket 2
next 1 -> frame method 1 basic.consume x71 x74 0 0 0 1 {}
drop 1 -> dropped 1
call 1 basic.cancel x75 0 -> ticket 3
# The oldest cancel request is that of the drop.
recv method 1 basic.cancel-ok x75 -> received
ticket 3 -> pending
consumer 1 -> pending
recv method 1 channel.close 404 x 0 0 -> received
ticket 3 -> answer done
consumer 1 -> failed ProtocolError 404
consumer 1 -> end
next 1 -> frame method 1 channel.close-ok
next 1 -> noframe
call 1 channel.open -> ticket 4

# The end is an item, or a job; a canceled consumer polls its end again and again.
= opened
call 1 basic.consume x71 x74 0 0 0 1 {} -> ticket 2
next 1 -> frame method 1 basic.consume x71 x74 0 0 0 1 {}
recv method 1 basic.deliver x74 1 0 x x71 -> received
recv header 1 60 0 [] -> received
recv method 1 basic.cancel x74 1 -> received
delegate 1 -> delegated
job -> job 1 item 1 x x71 0 [] x 1
job -> job 1 end
job -> nojob
consumer 1 -> end
consumer 1 -> end
delegate 1 -> delegated
job -> nojob
acker 1 reject 1 -> ticket 3
next 1 -> frame method 1 basic.reject 1 1
ticket 3 -> answer yes
# Items of a Canceled consumer aren't discarded.
call 1 basic.consume x71 x75 0 0 0 1 {} -> ticket 4
next 1 -> frame method 1 basic.consume x71 x75 0 0 0 1 {}
recv method 1 basic.deliver x75 2 0 x x71 -> received
recv header 1 60 0 [] -> received
recv method 1 basic.cancel x75 0 -> received
next 1 -> frame method 1 basic.cancel-ok x75
call 1 basic.ack 0 1 -> ticket 5
consumer 2 -> item 2 x x71 0 [] x 2
acker 2 nack 0 1 -> ticket 6
consumer 2 -> end
next 1 -> frame method 1 basic.ack 0 1
ticket 6 -> pending
next 1 -> frame method 1 basic.nack 2 0 1
ticket 5 -> answer done
ticket 6 -> answer yes

# A cancel of the broker gives the end.
= opened
call 1 basic.consume x71 x74 0 0 0 1 {} -> ticket 2
consumer 1 -> pending
recv method 1 basic.cancel x74 1 -> received
consumer 1 -> end

# A loss gives the error, then the end; a number that was never given is unknown.
= opened
call 1 basic.consume x71 x74 0 0 0 1 {} -> ticket 2
consumer 1 -> pending
lost -> lost
consumer 1 -> failed ConnectionLost
consumer 1 -> end
consumer 2 -> refused UnknownTicket
";
