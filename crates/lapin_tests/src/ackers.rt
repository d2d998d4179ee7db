//! Ackers: each is used up by its first call, and over with its opening.

pub const HISTORIES: &str = "
# A call that the closing channel refuses has used the acker up.
= opened
call 1 basic.get x71 0 -> ticket 2
recv method 1 basic.get-ok 1 0 x x71 0 -> received
recv header 1 60 0 [] -> received
call 1 channel.close 200 x -> ticket 3
acker 1 ack 0 -> refused InvalidChannelState closing
acker 1 ack 0 -> no
acker 9 ack 0 -> no

# A number that was never given, and one whose opening ended, say no.
acker 1 ack 0 -> no
call 1 channel.open -> ticket 1
next 1 -> frame method 1 channel.open
recv method 1 channel.open-ok -> received
acker 0 ack 0 -> no
call 1 basic.get x71 0 -> ticket 2
recv method 1 basic.get-ok 5 1 x x71 0 -> received
# Not whole yet: the number isn't given.
acker 1 ack 0 -> no
recv header 1 60 0 [] -> received
recv method 1 channel.close 404 x 0 0 -> received
acker 1 ack 0 -> no
ticket 2 -> answer got 5 x x71 1 [] x 1 0
call 1 channel.open -> ticket 3
next 1 -> frame method 1 channel.close-ok
next 1 -> frame method 1 channel.open
recv method 1 channel.open-ok -> received
acker 1 ack 0 -> no
call 1 basic.get x71 1 -> ticket 4
recv method 1 basic.get-ok 1 0 x x71 0 -> received
recv header 1 60 0 [] -> received
acker 2 nack 1 0 -> ticket 5
acker 2 nack 1 0 -> no
next 1 -> frame method 1 basic.get x71 1
ticket 5 -> pending
next 1 -> frame method 1 basic.nack 1 1 0
ticket 5 -> answer yes

# The second call says no; an end of the opening fails the ticket of a frame that has not left.
= opened
call 2 channel.open -> ticket 2
next 1 -> frame method 2 channel.open
recv method 2 channel.open-ok -> received
call 1 basic.consume x71 x74 0 0 0 1 {} -> ticket 3
next 1 -> frame method 1 basic.consume x71 x74 0 0 0 1 {}
recv method 1 basic.deliver x74 7 0 x x71 -> received
recv header 1 60 0 [] -> received
acker 1 reject 0 -> ticket 4
acker 1 reject 0 -> no
acker 1 ack 1 -> no
call 2 basic.get x71 0 -> ticket 5
recv method 2 basic.get-ok 7 0 x x71 0 -> received
recv header 2 60 0 [] -> received
call 2 channel.close 200 x -> ticket 6
acker 2 nack 0 0 -> refused InvalidChannelState closing
acker 2 nack 0 0 -> no
recv method 1 channel.close 404 x 0 0 -> received
# Its frame hadn't left.
ticket 4 -> error ProtocolError 404
acker 1 reject 0 -> no
next 1 -> frame method 2 basic.get x71 0
next 1 -> frame method 2 channel.close 200 x 0 0
next 1 -> frame method 1 channel.close-ok
next 1 -> noframe

# A get whose ticket was set aside still takes its message and an acker.
= opened
call 1 basic.get x71 0 -> ticket 2
aside-ticket 2 -> aside
call 1 basic.get x71 0 -> ticket 3
recv method 1 basic.get-ok 1 0 x x71 3 -> received
recv method 1 basic.get-ok 2 0 x x71 2 -> received
recv header 1 60 1 [] -> received
recv body 1 x61 -> received
ticket 3 -> pending
recv header 1 60 0 [priority=1] -> received
ticket 2 -> refused AlreadyTaken
ticket 3 -> answer got 2 x x71 0 [priority=1] x 2 2
acker 1 ack 0 -> ticket 4
aside-ticket 2 -> refused AlreadyTaken
aside-ticket 9 -> refused UnknownTicket
next 1 -> frame method 1 basic.get x71 0
next 1 -> frame method 1 basic.get x71 0
next 1 -> frame method 1 basic.ack 1 0

# A get whose message is on its way fails with its opening.
= opened
call 1 basic.get x71 0 -> ticket 2
call 1 basic.get x71 0 -> ticket 3
recv method 1 basic.get-ok 1 0 x x71 3 -> received
recv header 1 60 4 [] -> received
recv body 1 x6162 -> received
recv method 1 channel.close 404 x 0 0 -> received
ticket 2 -> error ProtocolError 404
ticket 3 -> error ProtocolError 404
acker 1 ack 0 -> no
call 1 channel.open -> ticket 4
next 1 -> frame method 1 channel.close-ok
next 1 -> frame method 1 channel.open
recv method 1 channel.open-ok -> received
recv body 1 x6364 -> refused UnexpectedFrame 0 0
state 1 -> state closing down
next 1 -> frame method 0 connection.close 505 x554e45585045435445445f4652414d45 0 0
";
