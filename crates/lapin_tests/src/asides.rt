//! Confirms that are set aside, and the lists that the wait gives.

pub const HISTORIES: &str = "
# One that is set aside gives nothing more by its number; a number that was never given is unknown.
= selected
aside-confirm 0 -> refused UnknownTicket
aside-confirm 1 -> refused UnknownTicket
call 1 basic.publish x x61 0 0 x [] -> publish 3 1
aside-confirm 1 -> aside
aside-confirm 1 -> refused AlreadyTaken
confirm 1 -> refused AlreadyTaken
next 1 -> frame method 1 basic.publish x x61 0 0
next 1 -> frame header 1 60 0 []
recv method 1 basic.ack 1 0 -> received
confirm 1 -> refused AlreadyTaken
aside-confirm 1 -> refused AlreadyTaken
ticket 3 -> answer confirm 1

# One that gave its result can't be set aside any more.
= selected
call 1 basic.publish x x61 0 0 x [] -> publish 3 1
next 1 -> frame method 1 basic.publish x x61 0 0
next 1 -> frame header 1 60 0 []
recv method 1 basic.ack 1 0 -> received
confirm 1 -> confirmed ack -
aside-confirm 1 -> refused AlreadyTaken

# Two that are set aside before they are settled, without a message.
= selected
call 1 basic.publish x x68656c6c6f 0 0 x [] -> publish 3 1
call 1 basic.publish x x68656c6c6f 0 0 x [] -> publish 4 2
aside-confirm 1 -> aside
aside-confirm 2 -> aside
next 1 -> frame method 1 basic.publish x x68656c6c6f 0 0
next 1 -> frame header 1 60 0 []
next 1 -> frame method 1 basic.publish x x68656c6c6f 0 0
next 1 -> frame header 1 60 0 []
wait 1 -> pending
recv method 1 basic.ack 2 1 -> received
wait 1 -> returned 0

# One that is set aside after its settlement leaves its message to the wait.
= selected
call 1 basic.publish x x61 1 0 x [] -> publish 3 1
next 1 -> frame method 1 basic.publish x x61 1 0
next 1 -> frame header 1 60 0 []
recv method 1 basic.return 312 x x x61 -> received
recv header 1 60 0 [] -> received
recv method 1 basic.nack 1 0 0 -> received
wait 1 -> returned 0
aside-confirm 1 -> aside
confirm 1 -> refused AlreadyTaken
wait 1 -> returned 1 0 x x61 0 [] x 0 312 x
wait 1 -> returned 0

# Those that are set aside before their settlement come in the order of setting aside, those after it in
# the order of theirs, before the others.
= selected
call 1 basic.publish x x61 1 0 x [] -> publish 3 1
call 1 basic.publish x x62 1 0 x [] -> publish 4 2
call 1 basic.publish x x63 1 0 x [] -> publish 5 3
call 1 basic.publish x x64 1 0 x [] -> publish 6 4
next 1 -> frame method 1 basic.publish x x61 1 0
next 1 -> frame header 1 60 0 []
next 1 -> frame method 1 basic.publish x x62 1 0
next 1 -> frame header 1 60 0 []
next 1 -> frame method 1 basic.publish x x63 1 0
next 1 -> frame header 1 60 0 []
next 1 -> frame method 1 basic.publish x x64 1 0
next 1 -> frame header 1 60 0 []
aside-confirm 3 -> aside
aside-confirm 1 -> aside
recv method 1 basic.return 312 x x x61 -> received
recv method 1 basic.return 312 x x x62 -> received
recv method 1 basic.return 312 x x x63 -> received
recv method 1 basic.return 312 x x x64 -> received
recv header 1 60 0 [] -> received
recv header 1 60 0 [] -> received
recv header 1 60 0 [] -> received
recv header 1 60 0 [] -> received
recv method 1 basic.ack 4 1 -> received
aside-confirm 4 -> aside
aside-confirm 2 -> aside
wait 1 -> returned 4 0 x x64 0 [] x 0 312 x 0 x x62 0 [] x 0 312 x 0 x x63 0 [] x 0 312 x 0 x x61 0 [] x 0 312 x
wait 1 -> returned 0

# Messages of no confirm come first of all. What waits for a confirm isn't given.
= opened
recv method 1 basic.return 312 x x x75 -> received
recv header 1 60 0 [] -> received
call 1 confirm.select 1 -> ticket 2
call 1 basic.publish x x61 1 0 x [] -> publish 3 1
call 1 basic.publish x x62 1 0 x [] -> publish 4 2
next 1 -> frame method 1 confirm.select 1
next 1 -> frame method 1 basic.publish x x61 1 0
next 1 -> frame header 1 60 0 []
next 1 -> frame method 1 basic.publish x x62 1 0
next 1 -> frame header 1 60 0 []
aside-confirm 1 -> aside
recv method 1 basic.return 312 x x x61 -> received
recv header 1 60 0 [] -> received
recv method 1 basic.return 312 x x x62 -> received
recv header 1 60 0 [] -> received
recv method 1 basic.return 312 x x x77 -> received
recv header 1 60 0 [] -> received
recv method 1 basic.ack 0 1 -> received
aside-confirm 2 -> aside
wait 1 -> returned 3 0 x x75 0 [] x 0 312 x 0 x x62 0 [] x 0 312 x 0 x x61 0 [] x 0 312 x
wait 1 -> returned 0

# One that isn't resolved stays set aside while a wait gives others, and a later wait gives its message.
= opened
call 1 basic.publish x x61 1 0 x [] -> publish 2 1
aside-confirm 1 -> aside
recv method 1 basic.return 312 x x x75 -> received
recv header 1 60 0 [] -> received
wait 1 -> returned 1 0 x x75 0 [] x 0 312 x
call 1 confirm.select 1 -> ticket 3
wait 1 -> pending
next 1 -> frame method 1 confirm.select 1
next 1 -> frame method 1 basic.publish x x61 1 0
next 1 -> frame header 1 60 0 []
recv method 1 basic.return 312 x x x61 -> received
recv header 1 60 0 [] -> received
recv method 1 basic.ack 1 0 -> received
wait 1 -> returned 1 0 x x61 0 [] x 0 312 x

# One that needs no confirm, or ends with an error, has no message to leave.
= opened
call 1 basic.publish x x61 1 0 x [] -> publish 2 1
next 1 -> frame method 1 basic.publish x x61 1 0
next 1 -> frame header 1 60 0 []
call 1 basic.publish x x62 1 0 x [] -> publish 3 2
call 1 basic.publish x x63 1 0 x [] -> publish 4 3
aside-confirm 1 -> aside
aside-confirm 2 -> aside
recv method 1 channel.close 404 x 0 0 -> received
aside-confirm 3 -> aside
wait 1 -> returned 0
confirm 2 -> refused AlreadyTaken
confirm 3 -> refused AlreadyTaken

# A set-aside confirm takes its message in its turn: the next in rising tag takes the next message.
= selected
call 1 basic.publish x x61 1 0 x [] -> publish 3 1
call 1 basic.publish x x62 1 0 x [] -> publish 4 2
next 1 -> frame method 1 basic.publish x x61 1 0
next 1 -> frame header 1 60 0 []
next 1 -> frame method 1 basic.publish x x62 1 0
next 1 -> frame header 1 60 0 []
aside-confirm 1 -> aside
recv method 1 basic.return 312 x x x61 -> received
recv header 1 60 0 [] -> received
recv method 1 basic.return 312 x x x62 -> received
recv header 1 60 0 [] -> received
recv method 1 basic.ack 2 1 -> received
confirm 2 -> confirmed ack 0 x x62 0 [] x 0 312 x
wait 1 -> returned 1 0 x x61 0 [] x 0 312 x

# A new opening empties all four lists: a message of no confirm, one that was kept, one of a set-aside
# confirm and one that waits are gone. A confirm that wasn't set aside keeps its own.
= opened
recv method 1 basic.return 312 x x x75 -> received
recv header 1 60 0 [] -> received
call 1 confirm.select 1 -> ticket 2
call 1 basic.publish x x61 1 0 x [] -> publish 3 1
call 1 basic.publish x x62 1 0 x [] -> publish 4 2
call 1 basic.publish x x63 1 0 x [] -> publish 5 3
next 1 -> frame method 1 confirm.select 1
next 1 -> frame method 1 basic.publish x x61 1 0
next 1 -> frame header 1 60 0 []
next 1 -> frame method 1 basic.publish x x62 1 0
next 1 -> frame header 1 60 0 []
next 1 -> frame method 1 basic.publish x x63 1 0
next 1 -> frame header 1 60 0 []
aside-confirm 1 -> aside
recv method 1 basic.return 312 x x x61 -> received
recv header 1 60 0 [] -> received
recv method 1 basic.return 312 x x x62 -> received
recv header 1 60 0 [] -> received
recv method 1 basic.return 312 x x x63 -> received
recv header 1 60 0 [] -> received
recv method 1 basic.return 312 x x x77 -> received
recv header 1 60 0 [] -> received
recv method 1 basic.ack 3 1 -> received
aside-confirm 2 -> aside
recv method 1 channel.close 404 x 0 0 -> received
call 1 channel.open -> ticket 6
wait 1 -> returned 0
recv method 1 channel.open-ok -> received
call 1 confirm.select 1 -> ticket 7
call 1 basic.publish x x64 1 0 x [] -> publish 8 4
next 1 -> frame method 1 channel.close-ok
next 1 -> frame method 1 channel.open
next 1 -> frame method 1 confirm.select 1
next 1 -> frame method 1 basic.publish x x64 1 0
next 1 -> frame header 1 60 0 []
recv method 1 basic.ack 1 0 -> received
confirm 4 -> confirmed ack -
wait 1 -> returned 0
confirm 3 -> confirmed ack 0 x x63 0 [] x 0 312 x

# One of an earlier opening that is set aside after the new one began leaves its message to the channel.
= selected
call 1 basic.publish x x61 1 0 x [] -> publish 3 1
next 1 -> frame method 1 basic.publish x x61 1 0
next 1 -> frame header 1 60 0 []
recv method 1 basic.return 312 x x x61 -> received
recv header 1 60 0 [] -> received
recv method 1 basic.ack 1 0 -> received
recv method 1 channel.close 404 x 0 0 -> received
call 1 channel.open -> ticket 4
aside-confirm 1 -> aside
wait 1 -> returned 1 0 x x61 0 [] x 0 312 x
wait 1 -> returned 0
";
