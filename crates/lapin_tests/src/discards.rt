//! What makes void what was handed on before: recover, recover-async, and acknowledgements of all there is.

pub const HISTORIES: &str = "
# With a delegate a delivery is a job, and so is the discard.
= opened
call 1 basic.consume x71 x74 0 0 0 1 {} -> ticket 2
delegate 1 -> delegated
recv method 1 basic.deliver x74 1 0 x x71 -> received
recv header 1 60 0 [] -> received
call 1 basic.recover-async 1 -> ticket 3
job -> job 1 item 1 x x71 0 [] x 1
job -> job 1 discard
job -> nojob
drop 1 -> dropped 0

# A discard empties the queues of the registered consumers and voids the ackers of what was queued.
= opened
call 1 basic.consume x71 x74 0 0 0 1 {} -> ticket 2
next 1 -> frame method 1 basic.consume x71 x74 0 0 0 1 {}
call 1 basic.consume x71 x75 0 0 0 1 {} -> ticket 3
next 1 -> frame method 1 basic.consume x71 x75 0 0 0 1 {}
call 1 basic.consume x71 x76 0 0 0 1 {} -> ticket 4
next 1 -> frame method 1 basic.consume x71 x76 0 0 0 1 {}
delegate 3 -> delegated
delegate 2 -> delegated
recv method 1 basic.deliver x74 1 0 x x71 -> received
recv header 1 60 0 [] -> received
recv method 1 basic.deliver x75 2 0 x x71 -> received
recv header 1 60 0 [] -> received
call 1 basic.recover 1 -> ticket 5
recv method 1 basic.deliver x74 3 0 x x71 -> received
recv header 1 60 0 [] -> received
recv method 1 basic.recover-ok -> received
ticket 5 -> answer done
consumer 1 -> pending
acker 1 ack 0 -> no
acker 3 ack 0 -> no
# A job that is in the list stays, with a usable acker.
job -> job 2 item 2 x x71 0 [] x 2
acker 2 ack 0 -> ticket 6
job -> job 2 discard
job -> job 3 discard
job -> nojob
recv method 1 basic.deliver x74 4 0 x x71 -> received
recv header 1 60 0 [] -> received
# Multiple with a tag above 0 discards nothing.
call 1 basic.ack 4 1 -> ticket 7
consumer 1 -> item 4 x x71 0 [] x 4
recv method 1 basic.deliver x74 5 0 x x71 -> received
recv header 1 60 0 [] -> received
# Single with tag 0 discards nothing.
call 1 basic.ack 0 0 -> ticket 8
consumer 1 -> item 5 x x71 0 [] x 5
recv method 1 basic.deliver x74 6 0 x x71 -> received
recv header 1 60 0 [] -> received
call 1 basic.nack 0 1 1 -> ticket 9
consumer 1 -> pending
acker 6 ack 0 -> no
job -> job 2 discard
job -> job 3 discard
job -> nojob
# Polled before.
acker 4 ack 0 -> ticket 10
# Through an acker whose delivery tag is 0.
recv method 1 basic.deliver x74 0 0 x x71 -> received
recv header 1 60 0 [] -> received
recv method 1 basic.deliver x74 8 0 x x71 -> received
recv header 1 60 0 [] -> received
consumer 1 -> item 0 x x71 0 [] x 7
acker 7 ack 1 -> ticket 11
consumer 1 -> pending
acker 8 ack 0 -> no
job -> job 2 discard
# A refused acker call discards nothing.
recv method 1 basic.deliver x74 0 0 x x71 -> received
recv header 1 60 0 [] -> received
recv method 1 basic.deliver x74 10 0 x x71 -> received
recv header 1 60 0 [] -> received
consumer 1 -> item 0 x x71 0 [] x 9
call 1 basic.recover 0 -> ticket 12
call 1 channel.close 200 x -> ticket 13
acker 9 ack 1 -> refused InvalidChannelState closing
acker 9 ack 1 -> no
consumer 1 -> item 10 x x71 0 [] x 10
consumer 1 -> pending
job -> job 3 discard
job -> nojob
# Recover-ok in Closing: no consumer is marked any more.
recv method 1 basic.deliver x74 11 0 x x71 -> received
recv header 1 60 0 [] -> received
recv method 1 basic.recover-ok -> received
consumer 1 -> pending
acker 11 ack 0 -> no
job -> nojob
ticket 12 -> answer done

# What was polled before can still be acknowledged.
= opened
call 1 basic.consume x71 x74 0 0 0 1 {} -> ticket 2
next 1 -> frame method 1 basic.consume x71 x74 0 0 0 1 {}
recv method 1 basic.deliver x74 1 0 x x71 -> received
recv header 1 60 0 [] -> received
consumer 1 -> item 1 x x71 0 [] x 1
recv method 1 basic.deliver x74 2 0 x x71 -> received
recv header 1 60 0 [] -> received
call 1 basic.recover-async 1 -> ticket 3
# Polled before the discard: usable; queued then: not.
acker 1 ack 0 -> ticket 4
acker 2 ack 0 -> no
consumer 1 -> pending
recv method 1 basic.deliver x74 3 0 x x71 -> received
recv header 1 60 0 [] -> received
# Usable also while its item stands in the queue.
acker 3 ack 0 -> ticket 5
consumer 1 -> item 3 x x71 0 [] x 3
acker 3 ack 0 -> no
ticket 3 -> pending
next 1 -> frame method 1 basic.recover-async 1
ticket 3 -> answer done
next 1 -> frame method 1 basic.ack 1 0
next 1 -> frame method 1 basic.ack 3 0
next 1 -> noframe
ticket 4 -> answer yes
ticket 5 -> answer yes
";
