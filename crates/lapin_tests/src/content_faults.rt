//! Headers and bodies that no rule hears, in every state of a channel.

pub const HISTORIES: &str = "
# A closed channel hears none.
recv header 1 60 0 [] -> refused UnexpectedFrame 60 0
next 1 -> frame method 0 connection.close 505 x554e45585045435445445f4652414d45 60 0
next 1 -> noframe

# A header is named by its own class.
recv header 1 10 5 [] -> refused UnexpectedFrame 10 0
next 1 -> frame method 0 connection.close 505 x554e45585045435445445f4652414d45 10 0

# A body has neither class nor method.
recv body 1 x61 -> refused UnexpectedFrame 0 0
next 1 -> frame method 0 connection.close 505 x554e45585045435445445f4652414d45 0 0

# Nor a body of no bytes.
recv body 1 x -> refused UnexpectedFrame 0 0
state 1 -> state closing down

# Nor a message that comes back.
recv method 1 basic.return 312 x x x71 -> refused UnexpectedFrame 60 50
next 1 -> frame method 0 connection.close 505 x554e45585045435445445f4652414d45 60 50

# Nor does a channel whose opening ended.
= opened
recv method 1 basic.return 312 x x x71 -> received
recv method 1 channel.close 404 x 0 0 -> received
recv header 1 60 0 [] -> refused UnexpectedFrame 60 0
state 1 -> state closing down

# Channel 0 hears none.
recv header 0 60 0 [] -> refused UnexpectedFrame 60 0
next 1 -> frame method 0 connection.close 505 x554e45585045435445445f4652414d45 60 0

# The same of a body.
recv body 0 x -> refused UnexpectedFrame 0 0
next 1 -> frame method 0 connection.close 505 x554e45585045435445445f4652414d45 0 0

# The same of a message that comes back.
recv method 0 basic.return 312 x x x71 -> refused UnexpectedFrame 60 50
next 1 -> frame method 0 connection.close 505 x554e45585045435445445f4652414d45 60 50

# A channel that is being opened hears none. The opening ends with the close.
call 1 channel.open -> ticket 1
recv header 1 60 2 [] -> refused UnexpectedFrame 60 0
ticket 1 -> error ProtocolError 505
next 1 -> frame method 0 connection.close 505 x554e45585045435445445f4652414d45 60 0
next 1 -> noframe

# The same of a body.
call 1 channel.open -> ticket 1
recv body 1 x61 -> refused UnexpectedFrame 0 0
ticket 1 -> error ProtocolError 505

# The same of a body of no bytes.
call 1 channel.open -> ticket 1
recv body 1 x -> refused UnexpectedFrame 0 0
ticket 1 -> error ProtocolError 505

# The same of a message that comes back.
call 1 channel.open -> ticket 1
recv method 1 basic.return 312 x x x71 -> refused UnexpectedFrame 60 50
ticket 1 -> error ProtocolError 505

# The same of the answers to a get.
call 1 channel.open -> ticket 1
recv method 1 basic.get-empty -> refused UnexpectedFrame 60 72
ticket 1 -> error ProtocolError 505

# An open channel: a header that nobody expects.
= opened
recv header 1 60 0 [] -> refused UnexpectedFrame 60 0
next 1 -> frame method 0 connection.close 505 x554e45585045435445445f4652414d45 60 0

# A body that nobody expects.
= opened
recv body 1 x61 -> refused UnexpectedFrame 0 0
next 1 -> frame method 0 connection.close 505 x554e45585045435445445f4652414d45 0 0

# A body of no bytes that nobody expects.
= opened
recv body 1 x -> refused UnexpectedFrame 0 0
next 1 -> frame method 0 connection.close 505 x554e45585045435445445f4652414d45 0 0

# A content of another channel is no help.
= two opened
recv method 2 basic.return 312 x x x71 -> received
recv header 1 60 0 [] -> refused UnexpectedFrame 60 0
next 1 -> frame method 0 connection.close 505 x554e45585045435445445f4652414d45 60 0

# The same of a body.
= two opened
recv method 2 basic.return 312 x x x71 -> received
recv header 2 60 2 [] -> received
recv body 1 x61 -> refused UnexpectedFrame 0 0
next 1 -> frame method 0 connection.close 505 x554e45585045435445445f4652414d45 0 0

# A body before the header.
= opened
call 1 basic.get x71 0 -> ticket 2
recv method 1 basic.get-ok 9 0 x x71 4 -> received
recv body 1 x68 -> refused UnexpectedFrame 0 0
ticket 2 -> error ProtocolError 505
next 1 -> frame method 0 connection.close 505 x554e45585045435445445f4652414d45 0 0
next 1 -> noframe

# A body of no bytes needs the header before it as any other body does.
= opened
recv method 1 basic.return 312 x x x71 -> received
recv body 1 x -> refused UnexpectedFrame 0 0
next 1 -> frame method 0 connection.close 505 x554e45585045435445445f4652414d45 0 0

# A header of another class, one above.
= opened
recv method 1 basic.return 312 x x x71 -> received
recv header 1 61 2 [] -> refused UnexpectedFrame 61 0
next 1 -> frame method 0 connection.close 505 x554e45585045435445445f4652414d45 61 0

# A header of class 0, without a body.
= opened
recv method 1 basic.return 312 x x x71 -> received
recv header 1 0 0 [] -> refused UnexpectedFrame 0 0
next 1 -> frame method 0 connection.close 505 x554e45585045435445445f4652414d45 0 0

# A second header before the bodies are there.
= opened
recv method 1 basic.return 312 x x x71 -> received
recv method 1 basic.return 312 x x x72 -> received
recv header 1 60 2 [] -> received
recv header 1 60 2 [] -> refused UnexpectedFrame 60 0
next 1 -> frame method 0 connection.close 505 x554e45585045435445445f4652414d45 60 0

# A second header of another class is named by that class.
= opened
recv method 1 basic.return 312 x x x71 -> received
recv header 1 60 2 [] -> received
recv header 1 65535 0 [] -> refused UnexpectedFrame 65535 0
next 1 -> frame method 0 connection.close 505 x554e45585045435445445f4652414d45 65535 0

# A body that is longer than its header announced.
= opened
recv method 1 basic.return 312 x x x71 -> received
recv header 1 60 2 [] -> received
recv body 1 x616263 -> refused UnexpectedFrame 0 0
wait 1 -> returned 0
next 1 -> frame method 0 connection.close 505 x554e45585045435445445f4652414d45 0 0

# A second body that goes past what is left, by one byte.
= opened
recv method 1 basic.return 312 x x x71 -> received
recv header 1 60 3 [] -> received
recv body 1 x6162 -> received
recv body 1 x6364 -> refused UnexpectedFrame 0 0
wait 1 -> returned 0

# A body past the end isn't the next content's.
= opened
recv method 1 basic.return 312 x x x71 -> received
recv method 1 basic.return 312 x x x72 -> received
recv header 1 60 1 [] -> received
recv body 1 x6162 -> refused UnexpectedFrame 0 0
wait 1 -> returned 0

# A body after the message is whole. What is whole stays.
= opened
recv method 1 basic.return 312 x x x71 -> received
recv header 1 60 1 [] -> received
recv body 1 x61 -> received
recv body 1 x62 -> refused UnexpectedFrame 0 0
wait 1 -> returned 1 0 x x71 0 [] x61 0 312 x

# A body of no bytes after the message is whole.
= opened
recv method 1 basic.return 312 x x x71 -> received
recv header 1 60 1 [] -> received
recv body 1 x61 -> received
recv body 1 x -> refused UnexpectedFrame 0 0
wait 1 -> returned 1 0 x x71 0 [] x61 0 312 x

# A body of no bytes after a header that announces none.
= opened
recv method 1 basic.return 312 x x x71 -> received
recv header 1 60 0 [] -> received
recv body 1 x -> refused UnexpectedFrame 0 0
wait 1 -> returned 1 0 x x71 0 [] x 0 312 x

# A body of the next content before its header.
= opened
recv method 1 basic.return 312 x x x71 -> received
recv method 1 basic.return 312 x x x72 -> received
recv header 1 60 1 [] -> received
recv body 1 x61 -> received
recv body 1 x -> refused UnexpectedFrame 0 0
wait 1 -> returned 1 0 x x71 0 [] x61 0 312 x

# A channel that is closing hears the same as an open one, and no more: a header that nobody expects.
= opened
call 1 channel.close 200 x -> ticket 2
recv header 1 60 0 [] -> refused UnexpectedFrame 60 0
ticket 2 -> error ProtocolError 505
next 1 -> frame method 0 connection.close 505 x554e45585045435445445f4652414d45 60 0
next 1 -> noframe

# A body that nobody expects.
= opened
call 1 channel.close 200 x -> ticket 2
recv body 1 x61 -> refused UnexpectedFrame 0 0
ticket 2 -> error ProtocolError 505

# A body of no bytes that nobody expects.
= opened
call 1 channel.close 200 x -> ticket 2
recv body 1 x -> refused UnexpectedFrame 0 0
ticket 2 -> error ProtocolError 505

# A body of no bytes before its header.
= opened
call 1 channel.close 200 x -> ticket 2
recv method 1 basic.return 312 x x x71 -> received
recv body 1 x -> refused UnexpectedFrame 0 0
ticket 2 -> error ProtocolError 505

# A header of another class.
= opened
call 1 channel.close 200 x -> ticket 2
recv method 1 basic.return 312 x x x71 -> received
recv header 1 10 0 [] -> refused UnexpectedFrame 10 0
ticket 2 -> error ProtocolError 505

# A second header.
= opened
recv method 1 basic.return 312 x x x71 -> received
recv header 1 60 2 [] -> received
call 1 channel.close 200 x -> ticket 2
recv header 1 60 2 [] -> refused UnexpectedFrame 60 0
ticket 2 -> error ProtocolError 505

# A body past what is left.
= opened
recv method 1 basic.return 312 x x x71 -> received
recv header 1 60 2 [] -> received
call 1 channel.close 200 x -> ticket 2
recv body 1 x61 -> received
recv body 1 x6263 -> refused UnexpectedFrame 0 0
ticket 2 -> error ProtocolError 505

# An answer to a get that nobody called.
= opened
call 1 channel.close 200 x -> ticket 2
recv method 1 basic.get-ok 9 0 x x71 4 -> refused UnexpectedFrame 60 71
ticket 2 -> error ProtocolError 505

# A crossed channel hears close-ok alone: no header,
= crossed
recv header 1 60 0 [] -> refused UnexpectedFrame 60 0
ticket 2 -> error ProtocolError 505
next 1 -> frame method 0 connection.close 505 x554e45585045435445445f4652414d45 60 0
next 1 -> noframe

# no body,
= crossed
recv body 1 x61 -> refused UnexpectedFrame 0 0
ticket 2 -> error ProtocolError 505

# no body without bytes,
= crossed
recv body 1 x -> refused UnexpectedFrame 0 0
ticket 2 -> error ProtocolError 505

# no message that comes back,
= crossed
recv method 1 basic.return 312 x x x71 -> refused UnexpectedFrame 60 50
ticket 2 -> error ProtocolError 505

# and no rest of a content that was begun before.
= opened
recv method 1 basic.return 312 x x x71 -> received
recv header 1 60 2 [] -> received
call 1 channel.close 200 x -> ticket 2
next 1 -> frame method 1 channel.close 200 x 0 0
recv body 1 x61 -> received
recv method 1 channel.close 404 x 0 0 -> received
state 1 -> state open crossed
recv body 1 x62 -> refused UnexpectedFrame 0 0
ticket 2 -> error ProtocolError 505

# Once the connection has left its open state all are passed over, whatever they are.
= opened
recv method 1 basic.return 312 x x x71 -> received
recv header 1 60 2 [] -> received
call 0 connection.close 200 x -> ticket 2
recv body 1 x61 -> passed
recv body 1 x61626364 -> passed
recv body 1 x -> passed
recv header 1 60 0 [] -> passed
recv header 1 10 0 [] -> passed
recv header 0 60 0 [] -> passed
recv body 0 x -> passed
recv body 9 x61 -> passed
recv method 1 basic.return 312 x x x71 -> passed
recv method 1 basic.get-ok 9 0 x x71 4 -> passed
recv method 1 basic.get-empty -> passed
wait 1 -> returned 0
ticket 2 -> pending
next 1 -> frame method 0 connection.close 200 x 0 0
next 1 -> noframe

# The same after the broker's close, and after a loss.
= opened
recv method 0 connection.close 320 x 0 0 -> received
recv header 1 60 0 [] -> passed
recv body 1 x61 -> passed
recv body 1 x -> passed
recv method 1 basic.return 312 x x x71 -> passed
lost -> lost
recv header 1 10 0 [] -> passed
recv body 1 x -> passed
recv method 1 basic.get-empty -> passed
wait 1 -> returned 0
state 1 -> state lost down
";
