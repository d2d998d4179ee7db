//! Gets: the message that a get brings, and the answer that there is none.

pub const HISTORIES: &str = "
# A get brings its message once the content is whole, or the answer that the queue is empty.
= opened
call 1 basic.get x71 0 -> ticket 2
recv method 1 basic.get-ok 9 0 x x71 4 -> received
recv header 1 60 2 [] -> received
recv body 1 x6869 -> received
ticket 2 -> answer got 9 x x71 0 [] x6869 1 4
call 1 basic.get x71 0 -> ticket 3
recv method 1 basic.get-empty -> received
ticket 3 -> answer got -

# Its frame is the method with the queue and the option. The answer may come whether it left or not.
= opened
call 1 basic.get x71 0 -> ticket 2
call 1 basic.get xc3a9 1 -> ticket 3
next 0 -> frame method 1 basic.get x71 0
recv method 1 basic.get-empty -> received
recv method 1 basic.get-empty -> received
ticket 3 -> answer got -
ticket 2 -> answer got -
next 0 -> frame method 1 basic.get xc3a9 1
next 1 -> noframe

# The oldest get takes the answer. An empty answer goes past a content that isn't whole yet.
= opened
call 1 basic.get x71 0 -> ticket 2
call 1 basic.get x72 1 -> ticket 3
call 1 basic.get x73 0 -> ticket 4
recv method 1 basic.get-ok 9 0 x78 x71 4 -> received
recv method 1 basic.get-empty -> received
ticket 3 -> answer got -
ticket 2 -> pending
recv method 1 basic.get-ok 10 1 x x73 0 -> received
recv header 1 60 0 [priority=1] -> received
ticket 2 -> answer got 9 x78 x71 0 [priority=1] x 1 4
recv header 1 60 3 [] -> received
recv body 1 x6162 -> received
ticket 4 -> pending
recv body 1 x63 -> received
ticket 4 -> answer got 10 x x73 1 [] x616263 2 0
ticket 4 -> refused AlreadyTaken

# The messages of all channels are numbered by one count, in the order in which they are whole.
= two opened
call 1 basic.get x71 0 -> ticket 3
call 2 basic.get x71 0 -> ticket 4
recv method 1 basic.get-ok 1 0 x x71 0 -> received
recv method 2 basic.get-ok 1 0 x x71 0 -> received
recv header 1 60 1 [] -> received
recv header 2 60 1 [] -> received
recv body 2 x62 -> received
recv body 1 x61 -> received
ticket 3 -> answer got 1 x x71 0 [] x61 2 0
ticket 4 -> answer got 1 x x71 0 [] x62 1 0

# A get whose ticket was set aside takes its content all the same, and a number.
= opened
call 1 basic.get x71 0 -> ticket 2
call 1 basic.get x71 0 -> ticket 3
aside-ticket 2 -> aside
recv method 1 basic.get-ok 1 0 x x71 1 -> received
recv header 1 60 1 [] -> received
recv body 1 x61 -> received
ticket 2 -> refused AlreadyTaken
recv method 1 basic.get-ok 2 0 x x71 0 -> received
recv header 1 60 1 [] -> received
recv body 1 x62 -> received
ticket 3 -> answer got 2 x x71 0 [] x62 2 0

# The same where it is set aside within the content.
= opened
call 1 basic.get x71 0 -> ticket 2
recv method 1 basic.get-ok 1 0 x x71 1 -> received
recv header 1 60 2 [] -> received
recv body 1 x61 -> received
aside-ticket 2 -> aside
recv body 1 x62 -> received
ticket 2 -> refused AlreadyTaken
call 1 basic.get x71 0 -> ticket 3
recv method 1 basic.get-ok 2 0 x x71 0 -> received
recv header 1 60 0 [] -> received
ticket 3 -> answer got 2 x x71 0 [] x 2 0

# Gets are answered until close-ok comes. A new one is refused, as wherever the channel isn't open.
= opened
call 1 basic.get x71 0 -> ticket 2
call 1 basic.get x71 0 -> ticket 3
call 1 channel.close 200 x -> ticket 4
recv method 1 basic.get-ok 9 0 x x71 4 -> received
recv header 1 60 1 [] -> received
recv body 1 x61 -> received
ticket 2 -> answer got 9 x x71 0 [] x61 1 4
recv method 1 basic.get-empty -> received
ticket 3 -> answer got -
call 1 basic.get x71 0 -> refused InvalidChannelState closing
call 2 basic.get x71 0 -> refused InvalidChannelState closed
call 0 basic.get x71 0 -> refused InvalidChannelState base
recv method 1 channel.close-ok -> received
ticket 4 -> answer done

# A get is taken by its answer: a second answer has none to take.
= opened
call 1 basic.get x71 0 -> ticket 2
recv method 1 basic.get-ok 9 0 x x71 4 -> received
recv method 1 basic.get-ok 9 0 x x71 4 -> refused UnexpectedFrame 60 71
ticket 2 -> error ProtocolError 505
next 1 -> frame method 0 connection.close 505 x554e45585045435445445f4652414d45 60 71

# So is one that was answered as empty; nor does a get of another channel count.
= two opened
call 1 basic.get x71 0 -> ticket 3
call 2 basic.get x71 0 -> ticket 4
recv method 1 basic.get-empty -> received
recv method 1 basic.get-empty -> refused UnexpectedFrame 60 72
ticket 3 -> answer got -
ticket 4 -> error ProtocolError 505
next 1 -> frame method 0 connection.close 505 x554e45585045435445445f4652414d45 60 72
";
