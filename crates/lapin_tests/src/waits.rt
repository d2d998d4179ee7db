//! The wait for the confirms of a channel.

pub const HISTORIES: &str = "
# It is pending while a publish is queued or not settled.
= selected
call 1 basic.publish x x68656c6c6f 0 0 x [] -> publish 3 1
wait 1 -> pending
next 1 -> frame method 1 basic.publish x x68656c6c6f 0 0
next 1 -> frame header 1 60 0 []
wait 1 -> pending
recv method 1 basic.ack 1 0 -> received
wait 1 -> returned 0

# The same while one has begun. With none it has nothing to wait for.
= selected
wait 1 -> returned 0
call 1 basic.publish x x68656c6c6f 0 0 x [] -> publish 3 1
wait 1 -> pending
next 1 -> frame method 1 basic.publish x x68656c6c6f 0 0
wait 1 -> pending
next 1 -> frame header 1 60 0 []
wait 1 -> pending
recv method 1 basic.ack 1 0 -> received
wait 1 -> returned 0

# A confirm that is settled while its frames are still leaving: the wait is pending until the last left.
= selected
call 1 basic.publish x x68656c6c6f 0 0 x6162 [] -> publish 3 1
next 1 -> frame method 1 basic.publish x x68656c6c6f 0 0
recv method 1 basic.ack 1 0 -> received
confirm 1 -> confirmed ack -
wait 1 -> pending
next 1 -> frame header 1 60 2 []
wait 1 -> pending
next 1 -> frame body 1 x6162
wait 1 -> returned 0

# The call of the select counts, not its frame or its answer.
= opened
call 1 basic.publish x x68656c6c6f 0 0 x [] -> publish 2 1
wait 1 -> returned 0
call 1 confirm.select 0 -> ticket 3
wait 1 -> pending

# Also of one without wait.
= opened
call 1 basic.publish x x68656c6c6f 0 0 x [] -> publish 2 1
call 1 confirm.select 1 -> ticket 3
ticket 3 -> answer done
wait 1 -> pending

# A select that was refused is none.
call 1 channel.open -> ticket 1
call 1 confirm.select 0 -> refused InvalidChannelState opening
recv method 1 channel.open-ok -> received
call 1 basic.publish x x68656c6c6f 0 0 x [] -> publish 2 1
wait 1 -> returned 0

# A publish that has begun counts also where it has no tag.
= opened
call 1 basic.publish x x68656c6c6f 0 0 x6162 [] -> publish 2 1
next 1 -> frame method 1 basic.publish x x68656c6c6f 0 0
confirm 1 -> confirmed notrequested
wait 1 -> returned 0
call 1 confirm.select 0 -> ticket 3
wait 1 -> pending
next 1 -> frame header 1 60 2 []
wait 1 -> pending
next 1 -> frame body 1 x6162
wait 1 -> returned 0
next 1 -> frame method 1 confirm.select 0
wait 1 -> returned 0

# Without a select nothing is waited for: neither a queued publish nor a begun one.
= opened
call 1 basic.publish x x68656c6c6f 0 0 x [] -> publish 2 1
recv method 1 basic.return 312 x x x61 -> received
recv header 1 60 0 [] -> received
wait 1 -> returned 1 0 x x61 0 [] x 0 312 x
next 1 -> frame method 1 basic.publish x x68656c6c6f 0 0
recv method 1 basic.return 312 x x x62 -> received
recv header 1 60 0 [] -> received
wait 1 -> returned 1 0 x x62 0 [] x 0 312 x

# While it is pending it takes no message away.
= opened
recv method 1 basic.return 312 x x x61 -> received
recv header 1 60 0 [] -> received
call 1 confirm.select 0 -> ticket 2
call 1 basic.publish x x68656c6c6f 0 0 x [] -> publish 3 1
wait 1 -> pending
wait 1 -> pending
next 1 -> frame method 1 confirm.select 0
next 1 -> frame method 1 basic.publish x x68656c6c6f 0 0
next 1 -> frame header 1 60 0 []
recv method 1 basic.nack 1 0 0 -> received
wait 1 -> returned 1 0 x x61 0 [] x 0 312 x

# The publishes of another channel are no matter.
= two opened
call 1 confirm.select 1 -> ticket 3
call 2 confirm.select 1 -> ticket 4
call 2 basic.publish x x68656c6c6f 0 0 x61 [] -> publish 5 1
wait 1 -> returned 0
wait 2 -> pending
next 1 -> frame method 1 confirm.select 1
next 1 -> frame method 2 confirm.select 1
next 1 -> frame method 2 basic.publish x x68656c6c6f 0 0
wait 1 -> returned 0
wait 2 -> pending
recv method 2 basic.ack 1 0 -> received
wait 1 -> returned 0
wait 2 -> pending
next 1 -> frame header 2 60 1 []
next 1 -> frame body 2 x61
wait 2 -> returned 0

# In a channel that is closing: what hadn't begun is rejected, what has begun or is pending is waited for.
= selected
call 1 basic.publish x x68656c6c6f 0 0 x [] -> publish 3 1
call 1 basic.publish x x68656c6c6f 0 0 x [] -> publish 4 2
next 1 -> frame method 1 basic.publish x x68656c6c6f 0 0
call 1 channel.close 200 x -> ticket 5
confirm 2 -> error InvalidChannelState closing
wait 1 -> pending
recv method 1 basic.ack 1 0 -> received
wait 1 -> pending
next 1 -> frame header 1 60 0 []
wait 1 -> returned 0
confirm 1 -> confirmed ack -

# An end leaves nothing to wait for. The messages are given until the channel is opened again.
= opened
recv method 1 basic.return 312 x x x61 -> received
recv header 1 60 0 [] -> received
call 1 confirm.select 0 -> ticket 2
call 1 basic.publish x x68656c6c6f 0 0 x [] -> publish 3 1
wait 1 -> pending
recv method 1 channel.close 404 x 0 0 -> received
wait 1 -> returned 1 0 x x61 0 [] x 0 312 x
wait 1 -> returned 0
confirm 1 -> error ProtocolError 404

# The same of the close of the connection,
= opened
recv method 1 basic.return 312 x x x61 -> received
recv header 1 60 0 [] -> received
call 0 connection.close 200 x -> ticket 2
wait 1 -> returned 1 0 x x61 0 [] x 0 312 x
wait 1 -> returned 0

# of the loss, after which a confirm that wasn't set aside can still be,
= selected
call 1 basic.publish x x61 1 0 x [] -> publish 3 1
next 1 -> frame method 1 basic.publish x x61 1 0
next 1 -> frame header 1 60 0 []
recv method 1 basic.return 312 x x x61 -> received
recv header 1 60 0 [] -> received
recv method 1 basic.ack 1 0 -> received
lost -> lost
wait 1 -> returned 0
aside-confirm 1 -> aside
wait 1 -> returned 1 0 x x61 0 [] x 0 312 x
wait 1 -> returned 0

# of the broker's close, which leaves what was kept,
= selected
call 1 basic.publish x x61 1 0 x [] -> publish 3 1
next 1 -> frame method 1 basic.publish x x61 1 0
next 1 -> frame header 1 60 0 []
recv method 1 basic.return 312 x x x61 -> received
recv header 1 60 0 [] -> received
recv method 1 basic.ack 1 0 -> received
aside-confirm 1 -> aside
recv method 1 channel.close 404 x 0 0 -> received
wait 1 -> returned 1 0 x x61 0 [] x 0 312 x
wait 1 -> returned 0

# and of closes that cross.
= selected
call 1 basic.publish x x61 1 0 x [] -> publish 3 1
call 1 basic.publish x x62 1 0 x [] -> publish 4 2
next 1 -> frame method 1 basic.publish x x61 1 0
next 1 -> frame header 1 60 0 []
next 1 -> frame method 1 basic.publish x x62 1 0
next 1 -> frame header 1 60 0 []
aside-confirm 1 -> aside
recv method 1 basic.return 312 x x x61 -> received
recv header 1 60 0 [] -> received
recv method 1 basic.ack 1 0 -> received
call 1 channel.close 200 x -> ticket 5
next 1 -> frame method 1 channel.close 200 x 0 0
wait 1 -> pending
recv method 1 channel.close 404 x 0 0 -> received
wait 1 -> returned 1 0 x x61 0 [] x 0 312 x
confirm 2 -> error ProtocolError 404

# A channel that never was opened has nothing, nor has channel 0.
wait 1 -> returned 0
wait 0 -> returned 0
wait 65535 -> returned 0
";
