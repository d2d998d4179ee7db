//! Returned messages: which confirm takes which.

pub const HISTORIES: &str = "
# A message that comes back before its confirm goes with the confirm, whole.
= selected
call 1 basic.publish x x756e726f757461626c652d726f7574696e672d6b65792d666f722d7465737473 1 0 x48656c6c6f20776f726c6421 [priority=42] -> publish 3 1
next 1 -> frame method 1 basic.publish x x756e726f757461626c652d726f7574696e672d6b65792d666f722d7465737473 1 0
next 1 -> frame header 1 60 12 [priority=42]
next 1 -> frame body 1 x48656c6c6f20776f726c6421
recv method 1 basic.return 312 x4e4f5f524f555445 x x756e726f757461626c652d726f7574696e672d6b65792d666f722d7465737473 -> received
recv header 1 60 12 [priority=42] -> received
recv body 1 x48656c6c6f20776f726c6421 -> received
recv method 1 basic.ack 1 0 -> received
confirm 1 -> confirmed ack 0 x x756e726f757461626c652d726f7574696e672d6b65792d666f722d7465737473 0 [priority=42] x48656c6c6f20776f726c6421 0 312 x4e4f5f524f555445

# Where the confirm was set aside, the wait gives the message.
= selected
call 1 basic.publish x x756e726f757461626c652d726f7574696e672d6b65792d666f722d7465737473 1 0 x48656c6c6f20776f726c6421 [priority=42] -> publish 3 1
next 1 -> frame method 1 basic.publish x x756e726f757461626c652d726f7574696e672d6b65792d666f722d7465737473 1 0
next 1 -> frame header 1 60 12 [priority=42]
next 1 -> frame body 1 x48656c6c6f20776f726c6421
recv method 1 basic.return 312 x4e4f5f524f555445 x x756e726f757461626c652d726f7574696e672d6b65792d666f722d7465737473 -> received
recv header 1 60 12 [priority=42] -> received
recv body 1 x48656c6c6f20776f726c6421 -> received
wait 1 -> pending
aside-confirm 1 -> aside
recv method 1 basic.ack 1 0 -> received
wait 1 -> returned 1 0 x x756e726f757461626c652d726f7574696e672d6b65792d666f722d7465737473 0 [priority=42] x48656c6c6f20776f726c6421 0 312 x4e4f5f524f555445
wait 1 -> returned 0

# One settlement of several tags gives the messages to the confirms in rising tags, in the order in which
# they came. Which is polled first is no matter.
= selected
call 1 basic.publish x x61 1 0 x [] -> publish 3 1
call 1 basic.publish x x62 1 0 x [] -> publish 4 2
call 1 basic.publish x x63 1 0 x [] -> publish 5 3
next 1 -> frame method 1 basic.publish x x61 1 0
next 1 -> frame header 1 60 0 []
next 1 -> frame method 1 basic.publish x x62 1 0
next 1 -> frame header 1 60 0 []
next 1 -> frame method 1 basic.publish x x63 1 0
next 1 -> frame header 1 60 0 []
recv method 1 basic.return 312 x x x61 -> received
recv method 1 basic.return 312 x x x62 -> received
recv header 1 60 0 [] -> received
recv header 1 60 1 [] -> received
recv body 1 x62 -> received
recv method 1 basic.ack 3 1 -> received
confirm 3 -> confirmed ack -
confirm 2 -> confirmed ack 0 x x62 0 [] x62 0 312 x
confirm 1 -> confirmed ack 0 x x61 0 [] x 0 312 x

# A settlement of all tags does the same, also one that refuses.
= selected
call 1 basic.publish x x61 1 0 x [] -> publish 3 1
call 1 basic.publish x x62 1 0 x [] -> publish 4 2
next 1 -> frame method 1 basic.publish x x61 1 0
next 1 -> frame header 1 60 0 []
next 1 -> frame method 1 basic.publish x x62 1 0
next 1 -> frame header 1 60 0 []
recv method 1 basic.return 312 x x x61 -> received
recv header 1 60 0 [priority=1] -> received
recv method 1 basic.return 313 x x x62 -> received
recv header 1 60 0 [priority=2] -> received
recv method 1 basic.nack 0 1 0 -> received
confirm 1 -> confirmed nack 0 x x61 0 [priority=1] x 0 312 x
confirm 2 -> confirmed nack 0 x x62 0 [priority=2] x 0 313 x

# A settlement of a later tag alone takes the oldest message; the other goes to the next that is settled.
= selected
call 1 basic.publish x x61 1 0 x [] -> publish 3 1
call 1 basic.publish x x62 1 0 x [] -> publish 4 2
next 1 -> frame method 1 basic.publish x x61 1 0
next 1 -> frame header 1 60 0 []
next 1 -> frame method 1 basic.publish x x62 1 0
next 1 -> frame header 1 60 0 []
recv method 1 basic.return 312 x x x61 -> received
recv header 1 60 0 [] -> received
recv method 1 basic.return 312 x x x62 -> received
recv header 1 60 0 [] -> received
recv method 1 basic.ack 2 0 -> received
recv method 1 basic.nack 1 0 0 -> received
confirm 1 -> confirmed nack 0 x x62 0 [] x 0 312 x
confirm 2 -> confirmed ack 0 x x61 0 [] x 0 312 x

# A message that isn't whole as the settlement comes waits for the next one.
= selected
call 1 basic.publish x x61 1 0 x [] -> publish 3 1
call 1 basic.publish x x62 1 0 x [] -> publish 4 2
next 1 -> frame method 1 basic.publish x x61 1 0
next 1 -> frame header 1 60 0 []
next 1 -> frame method 1 basic.publish x x62 1 0
next 1 -> frame header 1 60 0 []
recv method 1 basic.return 312 x x x61 -> received
recv header 1 60 1 [] -> received
recv method 1 basic.ack 1 0 -> received
recv body 1 x61 -> received
confirm 1 -> confirmed ack -
recv method 1 basic.ack 2 0 -> received
confirm 2 -> confirmed ack 0 x x61 0 [] x61 0 312 x

# A settlement that covers no tag takes no message, nor does one that is refused.
= selected
call 1 basic.publish x x61 1 0 x [] -> publish 3 1
next 1 -> frame method 1 basic.publish x x61 1 0
next 1 -> frame header 1 60 0 []
recv method 1 basic.return 312 x x x61 -> received
recv header 1 60 0 [] -> received
recv method 1 basic.ack 9 0 -> refused PreconditionFailed 9 1
recv method 1 basic.nack 1 0 1 -> received
recv method 1 basic.ack 9 1 -> received
confirm 1 -> confirmed nack 0 x x61 0 [] x 0 312 x

# Each channel has messages of its own.
= two opened
call 1 confirm.select 1 -> ticket 3
call 2 confirm.select 1 -> ticket 4
call 1 basic.publish x x61 1 0 x [] -> publish 5 1
call 2 basic.publish x x62 1 0 x [] -> publish 6 2
next 1 -> frame method 1 confirm.select 1
next 1 -> frame method 2 confirm.select 1
next 1 -> frame method 1 basic.publish x x61 1 0
next 1 -> frame header 1 60 0 []
next 1 -> frame method 2 basic.publish x x62 1 0
next 1 -> frame header 2 60 0 []
recv method 2 basic.return 312 x x x62 -> received
recv header 2 60 0 [] -> received
recv method 1 basic.ack 1 0 -> received
recv method 2 basic.ack 1 0 -> received
confirm 1 -> confirmed ack -
confirm 2 -> confirmed ack 0 x x62 0 [] x 0 312 x

# A message is the first settlement's while the channel closes, too.
= selected
call 1 basic.publish x x61 1 0 x [] -> publish 3 1
next 1 -> frame method 1 basic.publish x x61 1 0
next 1 -> frame header 1 60 0 []
call 1 channel.close 200 x -> ticket 4
recv method 1 basic.return 312 x x x61 -> received
recv header 1 60 0 [] -> received
recv method 1 basic.ack 1 0 -> received
confirm 1 -> confirmed ack 0 x x61 0 [] x 0 312 x

# An error of an end takes no message. No wait gives a message that waits for a confirm.
= selected
call 1 basic.publish x x61 1 0 x [] -> publish 3 1
next 1 -> frame method 1 basic.publish x x61 1 0
next 1 -> frame header 1 60 0 []
recv method 1 basic.return 312 x x x61 -> received
recv header 1 60 0 [] -> received
recv method 1 channel.close 404 x 0 0 -> received
confirm 1 -> error ProtocolError 404
wait 1 -> returned 0

# On an opening that isn't selected a message goes to no confirm: the wait gives it, in the order in
# which the messages came.
= opened
call 1 basic.publish x x61 1 0 x [] -> publish 2 1
next 1 -> frame method 1 basic.publish x x61 1 0
next 1 -> frame header 1 60 0 []
recv method 1 basic.return 312 x4e4f5f524f555445 x x61 -> received
recv header 1 60 0 [] -> received
recv method 1 basic.return 313 x x78 x62 -> received
recv header 1 60 1 [priority=7] -> received
recv body 1 x62 -> received
confirm 1 -> confirmed notrequested
wait 1 -> returned 2 0 x x61 0 [] x 0 312 x4e4f5f524f555445 0 x78 x62 0 [priority=7] x62 0 313 x
wait 1 -> returned 0

# An opening is selected as the frame leaves: before, a message that is whole is no confirm's.
= opened
call 1 confirm.select 0 -> ticket 2
call 1 basic.publish x x61 1 0 x [] -> publish 3 1
recv method 1 basic.return 312 x x x61 -> received
recv header 1 60 0 [] -> received
next 1 -> frame method 1 confirm.select 0
next 1 -> frame method 1 basic.publish x x61 1 0
next 1 -> frame header 1 60 0 []
recv method 1 basic.ack 1 0 -> received
confirm 1 -> confirmed ack -
wait 1 -> returned 1 0 x x61 0 [] x 0 312 x

# What counts is the moment at which the message is whole, not that at which it begins.
= opened
call 1 confirm.select 0 -> ticket 2
call 1 basic.publish x x61 1 0 x [] -> publish 3 1
recv method 1 basic.return 312 x x x61 -> received
recv header 1 60 1 [] -> received
next 1 -> frame method 1 confirm.select 0
recv body 1 x61 -> received
next 1 -> frame method 1 basic.publish x x61 1 0
next 1 -> frame header 1 60 0 []
recv method 1 basic.ack 1 0 -> received
wait 1 -> returned 0
confirm 1 -> confirmed ack 0 x x61 0 [] x61 0 312 x
";
