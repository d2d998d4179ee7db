//! Contents: which header and body goes to which message.

pub const HISTORIES: &str = "
# Each content has an entry of its own. The front takes header and bodies; the next one comes after it.
= opened
call 1 basic.get x71 0 -> ticket 2
recv method 1 basic.return 312 x4e4f5f524f555445 x x61 -> received
recv method 1 basic.get-ok 9 0 x x71 4 -> received
recv method 1 basic.return 313 x x78 x62 -> received
recv header 1 60 2 [priority=1] -> received
recv body 1 x61 -> received
recv body 1 x62 -> received
ticket 2 -> pending
recv header 1 60 2 [priority=2] -> received
recv body 1 x6364 -> received
ticket 2 -> answer got 9 x x71 0 [priority=2] x6364 1 4
recv header 1 60 1 [priority=3] -> received
wait 1 -> returned 1 0 x x61 0 [priority=1] x6162 0 312 x4e4f5f524f555445
recv body 1 x65 -> received
wait 1 -> returned 1 0 x78 x62 0 [priority=3] x65 0 313 x

# Each channel has contents of its own.
= two opened
recv method 1 basic.return 312 x x x61 -> received
recv method 2 basic.return 313 x x x62 -> received
recv header 2 60 3 [] -> received
recv header 1 60 2 [] -> received
recv body 1 x61 -> received
recv body 2 x6263 -> received
recv body 1 x64 -> received
wait 2 -> returned 0
wait 1 -> returned 1 0 x x61 0 [] x6164 0 312 x
recv body 2 x65 -> received
wait 2 -> returned 1 0 x x62 0 [] x626365 0 313 x

# A body may be longer than a frame that this side would send; its bytes count alone.
= opened
recv method 1 basic.return 312 x x x61 -> received
recv header 1 60 18446744073709551615 [] -> received
recv body 1 x6162636465 -> received
wait 1 -> returned 0

# A size of 0 makes a message whole at its header.
= opened
recv method 1 basic.return 312 x x x61 -> received
recv method 1 basic.return 312 x x x62 -> received
recv header 1 60 0 [] -> received
recv header 1 60 0 [priority=9] -> received
wait 1 -> returned 2 0 x x61 0 [] x 0 312 x 0 x x62 0 [priority=9] x 0 312 x

# A body of no bytes changes nothing where the front has had its header.
= opened
recv method 1 basic.return 312 x x x61 -> received
recv header 1 60 2 [] -> received
recv body 1 x -> received
recv body 1 x61 -> received
recv body 1 x -> received
wait 1 -> returned 0
recv body 1 x62 -> received
wait 1 -> returned 1 0 x x61 0 [] x6162 0 312 x

# Contents go on in a channel that is closing, and begin there.
= opened
recv method 1 basic.return 312 x x x61 -> received
call 1 channel.close 200 x -> ticket 2
recv header 1 60 1 [] -> received
recv body 1 x -> received
recv body 1 x61 -> received
recv method 1 basic.return 312 x x x62 -> received
recv header 1 60 0 [] -> received
wait 1 -> returned 2 0 x x61 0 [] x61 0 312 x 0 x x62 0 [] x 0 312 x

# Other frames of the channel may come between the parts of a content.
= selected
call 1 tx.select -> ticket 3
call 1 basic.publish x x71 0 0 x [] -> publish 4 1
next 1 -> frame method 1 tx.select
next 1 -> frame method 1 basic.publish x x71 0 0
recv method 1 basic.return 312 x x x61 -> received
recv method 1 tx.select-ok -> received
recv header 1 60 2 [] -> received
recv method 1 channel.flow 1 -> received
recv body 1 x61 -> received
recv method 1 basic.ack 1 0 -> received
recv body 1 x62 -> received
ticket 3 -> answer done
confirm 1 -> confirmed ack -
next 1 -> frame header 1 60 0 []
next 1 -> frame method 1 channel.flow-ok 1
";
