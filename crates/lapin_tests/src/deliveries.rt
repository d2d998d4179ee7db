//! Deliveries in pieces, and what breaks them.

pub const HISTORIES: &str = "
# A body that is too long closes the connection; the consumer gets the error and its end.
= opened
call 1 basic.consume x71 x74 0 0 0 1 {} -> ticket 2
ticket 2 -> answer consumer 1
call 1 queue.declare x71 0 0 0 0 0 {} -> ticket 3
recv method 1 basic.deliver x74 1 0 x x71 -> received
recv header 1 60 5 [] -> received
recv body 1 x746f6f626967 -> refused UnexpectedFrame 0 0
next 1 -> frame method 0 connection.close 505 x554e45585045435445445f4652414d45 0 0
ticket 3 -> error ProtocolError 505
consumer 1 -> failed ProtocolError 505
consumer 1 -> end
recv method 0 connection.close-ok -> received
state 1 -> state closed down

# Pieces of messages on two channels, between one another.
= opened
call 2 channel.open -> ticket 2
next 1 -> frame method 2 channel.open
recv method 2 channel.open-ok -> received
call 1 basic.consume x71 x74 0 0 0 1 {} -> ticket 3
next 1 -> frame method 1 basic.consume x71 x74 0 0 0 1 {}
call 2 basic.consume x71 x74 0 0 0 1 {} -> ticket 4
next 1 -> frame method 2 basic.consume x71 x74 0 0 0 1 {}
call 2 basic.get x71 1 -> ticket 5
recv method 1 basic.deliver x74 1 0 x x71 -> received
recv method 2 basic.deliver x74 1 1 x x72 -> received
recv method 2 basic.get-ok 2 0 x x71 7 -> received
recv method 1 basic.deliver x74 2 0 x x71 -> received
recv header 2 60 3 [priority=2] -> received
recv header 1 60 2 [] -> received
recv body 2 x61 -> received
recv body 1 x -> received
recv body 1 x7a -> received
recv body 2 x6263 -> received
recv header 2 60 1 [] -> received
recv body 1 x79 -> received
recv header 1 60 0 [] -> received
recv body 2 x78 -> received
consumer 1 -> item 1 x x71 0 [] x7a79 2
consumer 1 -> item 2 x x71 0 [] x 3
consumer 2 -> item 1 x x72 1 [priority=2] x616263 1
ticket 5 -> answer got 2 x x71 0 [] x78 4 7
# No front: a body of 0 bytes isn't received either.
recv body 1 x -> refused UnexpectedFrame 0 0

# A body where no header came, and what is passed over after it.
= opened
call 1 basic.consume x71 x74 0 0 0 1 {} -> ticket 2
next 1 -> frame method 1 basic.consume x71 x74 0 0 0 1 {}
recv method 1 basic.deliver x74 1 0 x x71 -> received
recv body 1 x -> refused UnexpectedFrame 0 0
consumer 1 -> failed ProtocolError 505
consumer 1 -> end
next 1 -> frame method 0 connection.close 505 x554e45585045435445445f4652414d45 0 0
recv header 1 60 3 [] -> passed
recv method 0 connection.close 320 x 0 0 -> received
recv method 0 connection.close 320 x 0 0 -> passed
next 1 -> frame method 0 connection.close-ok
state 1 -> state closing down
recv method 0 connection.close-ok -> received
state 1 -> state closed down
recv method 0 connection.close-ok -> passed
lost -> lost
state 1 -> state lost down

# A header of another class.
= opened
call 1 basic.consume x71 x74 0 0 0 1 {} -> ticket 2
next 1 -> frame method 1 basic.consume x71 x74 0 0 0 1 {}
recv method 1 basic.deliver x74 1 0 x x71 -> received
recv header 1 85 3 [] -> refused UnexpectedFrame 85 0
# Own close unsent: the broker's close comes first.
recv method 0 connection.close 320 x 0 0 -> received
state 1 -> state closed down
next 1 -> frame method 0 connection.close-ok
next 1 -> noframe
";
