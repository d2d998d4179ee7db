//! Ends in the middle of contents: what they drop, and what a get gets.

pub const HISTORIES: &str = "
# The broker's close drops a content that isn't whole, and its get ends with the broker's code, as the
# get that wasn't answered does. What is left of the content is expected by nobody.
= opened
call 1 basic.get x71 0 -> ticket 2
call 1 basic.get x71 0 -> ticket 3
recv method 1 basic.get-ok 9 0 x x71 4 -> received
recv header 1 60 2 [] -> received
recv body 1 x68 -> received
recv method 1 channel.close 404 x 0 0 -> received
ticket 2 -> error ProtocolError 404
ticket 3 -> error ProtocolError 404
call 1 channel.open -> ticket 4
recv method 1 channel.open-ok -> received
recv body 1 x69 -> refused UnexpectedFrame 0 0

# A content that waits for its header is dropped as well.
= opened
call 1 basic.get x71 0 -> ticket 2
recv method 1 basic.get-ok 9 0 x x71 4 -> received
recv method 1 channel.close 404 x 0 0 -> received
ticket 2 -> error ProtocolError 404
call 1 channel.open -> ticket 3
recv method 1 channel.open-ok -> received
recv header 1 60 0 [] -> refused UnexpectedFrame 60 0

# A content that was dropped has used no number.
= opened
call 1 basic.get x71 0 -> ticket 2
recv method 1 basic.get-ok 9 0 x x71 4 -> received
recv header 1 60 2 [] -> received
recv method 1 channel.close 404 x 0 0 -> received
ticket 2 -> error ProtocolError 404
call 1 channel.open -> ticket 3
recv method 1 channel.open-ok -> received
call 1 basic.get x71 0 -> ticket 4
recv method 1 basic.get-ok 1 0 x x71 0 -> received
recv header 1 60 0 [] -> received
ticket 4 -> answer got 1 x x71 0 [] x 1 0

# At close-ok for the application's close the error is the state.
= opened
call 1 basic.get x71 0 -> ticket 2
recv method 1 basic.get-ok 9 0 x x71 4 -> received
recv header 1 60 2 [] -> received
call 1 channel.close 200 x -> ticket 3
recv body 1 x68 -> received
ticket 2 -> pending
recv method 1 channel.close-ok -> received
ticket 2 -> error InvalidChannelState closed
ticket 3 -> answer done
call 1 channel.open -> ticket 4
recv method 1 channel.open-ok -> received
recv header 1 60 0 [] -> refused UnexpectedFrame 60 0
ticket 4 -> answer channel 1

# At close-ok for the session's own close it is the code of that close.
= selected
call 1 basic.get x71 0 -> ticket 3
recv method 1 basic.get-ok 9 0 x x71 4 -> received
recv method 1 basic.ack 7 0 -> refused PreconditionFailed 7 0
recv header 1 60 2 [] -> received
ticket 3 -> pending
recv method 1 channel.close-ok -> received
ticket 3 -> error ProtocolError 406

# As two closes cross it is the broker's code; the ticket of the own close waits.
= opened
call 1 basic.get x71 0 -> ticket 2
recv method 1 basic.get-ok 9 0 x x71 4 -> received
call 1 channel.close 200 x -> ticket 3
next 1 -> frame method 1 basic.get x71 0
next 1 -> frame method 1 channel.close 200 x 0 0
recv method 1 channel.close 404 x 0 0 -> received
ticket 2 -> error ProtocolError 404
ticket 3 -> pending
recv method 1 channel.close-ok -> received
ticket 3 -> answer done
call 1 channel.open -> ticket 4
recv method 1 channel.open-ok -> received
recv header 1 60 0 [] -> refused UnexpectedFrame 60 0

# The application's close of the connection.
= opened
call 1 basic.get x71 0 -> ticket 2
recv method 1 basic.get-ok 9 0 x x71 4 -> received
recv header 1 60 2 [] -> received
call 0 connection.close 200 x -> ticket 3
ticket 2 -> error InvalidChannelState down
recv body 1 x6869 -> passed
ticket 2 -> refused AlreadyTaken

# The broker's close of the connection.
= opened
call 1 basic.get x71 0 -> ticket 2
recv method 1 basic.get-ok 9 0 x x71 4 -> received
recv header 1 60 2 [] -> received
recv method 0 connection.close 320 x 0 0 -> received
ticket 2 -> error ProtocolError 320
recv body 1 x6869 -> passed

# A frame that no rule hears, on another channel.
= two opened
call 1 basic.get x71 0 -> ticket 3
recv method 1 basic.get-ok 9 0 x x71 4 -> received
recv header 1 60 2 [] -> received
recv body 2 x -> refused UnexpectedFrame 0 0
ticket 3 -> error ProtocolError 505
recv body 1 x6869 -> passed

# The loss.
= opened
call 1 basic.get x71 0 -> ticket 2
recv method 1 basic.get-ok 9 0 x x71 4 -> received
recv header 1 60 2 [] -> received
lost -> lost
ticket 2 -> error ConnectionLost
recv body 1 x6869 -> passed

# The end of one channel's opening leaves the contents of another as they are.
= two opened
call 2 basic.get x71 0 -> ticket 3
recv method 2 basic.get-ok 9 0 x x71 4 -> received
recv header 2 60 2 [] -> received
recv body 2 x68 -> received
recv method 1 channel.close 404 x 0 0 -> received
recv body 2 x69 -> received
ticket 3 -> answer got 9 x x71 0 [] x6869 1 4

# A message that came whole before the end keeps its answer.
= opened
call 1 basic.get x71 0 -> ticket 2
recv method 1 basic.get-ok 9 0 x x71 4 -> received
recv header 1 60 0 [] -> received
lost -> lost
ticket 2 -> answer got 9 x x71 0 [] x 1 4

# A returned message that an end cuts short is gone.
= opened
recv method 1 basic.return 312 x x x71 -> received
recv header 1 60 2 [] -> received
recv body 1 x61 -> received
recv method 1 channel.close 404 x 0 0 -> received
wait 1 -> returned 0
call 1 channel.open -> ticket 2
recv method 1 channel.open-ok -> received
recv method 1 basic.return 312 x x x72 -> received
recv header 1 60 0 [] -> received
wait 1 -> returned 1 0 x x72 0 [] x 0 312 x
";
