//! Publishes and what becomes of them: tags, settlements, polls, and the order in which frames leave.

pub const HISTORIES: &str = "
# A publish is acknowledged. Its confirm and its ticket give their results once.
= selected
call 1 basic.publish x x68656c6c6f 0 0 x48656c6c6f20776f726c6421 [] -> publish 3 1
next 1 -> frame method 1 basic.publish x x68656c6c6f 0 0
next 1 -> frame header 1 60 12 []
next 1 -> frame body 1 x48656c6c6f20776f726c6421
recv method 1 basic.ack 1 0 -> received
ticket 3 -> answer confirm 1
confirm 1 -> confirmed ack -
confirm 1 -> refused AlreadyTaken
ticket 3 -> refused AlreadyTaken

# A select overtakes a publish that hasn't begun, which then has the tag 1. Its select-ok isn't waited for.
= opened
call 1 basic.publish x x68656c6c6f 0 0 x616263 [] -> publish 2 1
call 1 confirm.select 0 -> ticket 3
next 1 -> frame method 1 confirm.select 0
next 1 -> frame method 1 basic.publish x x68656c6c6f 0 0
next 1 -> frame header 1 60 3 []
next 1 -> frame body 1 x616263
recv method 1 basic.ack 1 0 -> received
confirm 1 -> confirmed ack -

# Without a select no confirm is requested. The publish has not left whole, so that its ticket waits.
= opened
call 1 basic.publish x x68656c6c6f 0 0 x616263 [] -> publish 2 1
next 1 -> frame method 1 basic.publish x x68656c6c6f 0 0
confirm 1 -> confirmed notrequested
ticket 2 -> pending

# A multiple ack settles every tag up to its own, and no other. A second one of these settles nothing.
= selected
call 1 basic.publish x x68656c6c6f 0 0 x [] -> publish 3 1
call 1 basic.publish x x68656c6c6f 0 0 x [] -> publish 4 2
call 1 basic.publish x x68656c6c6f 0 0 x [] -> publish 5 3
next 1 -> frame method 1 basic.publish x x68656c6c6f 0 0
next 1 -> frame header 1 60 0 []
next 1 -> frame method 1 basic.publish x x68656c6c6f 0 0
next 1 -> frame header 1 60 0 []
next 1 -> frame method 1 basic.publish x x68656c6c6f 0 0
next 1 -> frame header 1 60 0 []
recv method 1 basic.ack 2 1 -> received
confirm 1 -> confirmed ack -
confirm 2 -> confirmed ack -
confirm 3 -> pending
recv method 1 basic.ack 2 1 -> received
confirm 3 -> pending
recv method 1 basic.nack 3 0 0 -> received
confirm 3 -> confirmed nack -

# A multiple settlement with tag 0 covers every tag. A publish that leaves after it is none of these.
= selected
call 1 basic.publish x x71 0 0 x [] -> publish 3 1
call 1 basic.publish x x71 0 0 x [] -> publish 4 2
call 1 basic.publish x x71 0 0 x [] -> publish 5 3
next 1 -> frame method 1 basic.publish x x71 0 0
next 1 -> frame header 1 60 0 []
next 1 -> frame method 1 basic.publish x x71 0 0
recv method 1 basic.nack 0 1 0 -> received
confirm 1 -> confirmed nack -
confirm 2 -> confirmed nack -
confirm 3 -> pending
next 1 -> frame header 1 60 0 []
next 1 -> frame method 1 basic.publish x x71 0 0
next 1 -> frame header 1 60 0 []
confirm 3 -> pending
recv method 1 basic.ack 3 0 -> received
confirm 3 -> confirmed ack -

# A publish that was called before the select, but leaves after it, has a tag; one that left before it has none.
= opened
call 1 basic.publish x x71 0 0 x [] -> publish 2 1
next 1 -> frame method 1 basic.publish x x71 0 0
next 1 -> frame header 1 60 0 []
call 1 basic.publish x x71 0 0 x [] -> publish 3 2
call 1 confirm.select 1 -> ticket 4
ticket 4 -> answer done
next 1 -> frame method 1 confirm.select 1
next 1 -> frame method 1 basic.publish x x71 0 0
next 1 -> frame header 1 60 0 []
confirm 1 -> confirmed notrequested
confirm 2 -> pending
recv method 1 basic.ack 1 0 -> received
confirm 2 -> confirmed ack -

# Where a frame request has no flow, methods leave and publishes wait; a publish that has begun leaves whole.
= opened
call 1 basic.publish x x71 0 0 x616263 [] -> publish 2 1
next 0 -> noframe
call 1 confirm.select 0 -> ticket 3
next 0 -> frame method 1 confirm.select 0
next 0 -> noframe
next 1 -> frame method 1 basic.publish x x71 0 0
next 0 -> frame header 1 60 3 []
next 0 -> frame body 1 x616263
next 0 -> noframe

# A publish begun on one channel leaves whole before a close of another.
= opened
call 2 channel.open -> ticket 2
next 1 -> frame method 2 channel.open
recv method 2 channel.open-ok -> received
call 1 basic.publish x x68656c6c6f 0 0 x616263 [] -> publish 3 1
next 1 -> frame method 1 basic.publish x x68656c6c6f 0 0
call 2 channel.close 200 x -> ticket 4
next 1 -> frame header 1 60 3 []
next 1 -> frame body 1 x616263
next 1 -> frame method 2 channel.close 200 x 0 0

# The properties and the marks of a publish leave as they were given.
= selected
call 1 basic.publish x65 x6b 1 0 x6869 [content_type=x74,delivery_mode=2,priority=9,message_id=x31] -> publish 3 1
next 1 -> frame method 1 basic.publish x65 x6b 1 0
next 1 -> frame header 1 60 2 [content_type=x74,delivery_mode=2,priority=9,message_id=x31]
next 1 -> frame body 1 x6869

# What is refused says why, and uses no number.
ticket 99 -> refused UnknownTicket
ticket 0 -> refused UnknownTicket
confirm 0 -> refused UnknownTicket
confirm 1 -> refused UnknownTicket
call 0 channel.open -> refused InvalidChannelState base
call 1 confirm.select 0 -> refused InvalidChannelState closed
call 1 basic.publish x x71 0 0 x [] -> refused InvalidChannelState closed
call 1 channel.open -> ticket 1
call 1 channel.open -> refused InvalidChannelState opening
call 1 basic.publish x x71 0 0 x [] -> refused InvalidChannelState opening
call 2 channel.open -> ticket 2

# The events before a bad line are run.
= opened
state 1 -> state open open
nxt 1 -> badline 6
";
