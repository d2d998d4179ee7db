//! The limit of outstanding confirms: what waits behind it, what is refused at it, and what it leaves alone.

pub const HISTORIES: &str = "
# A channel that is full holds its next publish back, and refuses one that may be refused. An ack lets the waiting one go. The
# ticket of the limit is done.
= selected
call 1 confirm.limit 1 -> ticket 3
call 1 basic.publish x x68656c6c6f 0 0 x [] -> publish 4 1
call 1 basic.publish x x68656c6c6f 0 0 x [] -> publish 5 2
next 1 -> frame method 1 basic.publish x x68656c6c6f 0 0
next 1 -> frame header 1 60 0 []
next 1 -> noframe
call 1 basic.try-publish x x68656c6c6f 0 0 x [] -> refused ConfirmsOutstanding 1
recv method 1 basic.ack 1 0 -> received
next 1 -> frame method 1 basic.publish x x68656c6c6f 0 0
ticket 3 -> answer done

# A publish of a full channel does not hold back that of another channel which was called after it.
= two opened
call 1 confirm.select 0 -> ticket 3
next 1 -> frame method 1 confirm.select 0
recv method 1 confirm.select-ok -> received
call 1 confirm.limit 1 -> ticket 4
call 1 basic.publish x x68656c6c6f 0 0 x [] -> publish 5 1
next 1 -> frame method 1 basic.publish x x68656c6c6f 0 0
next 1 -> frame header 1 60 0 []
call 1 basic.publish x x68656c6c6f 0 0 x [] -> publish 6 2
call 2 basic.publish x x71 0 0 x [] -> publish 7 3
next 1 -> frame method 2 basic.publish x x71 0 0

# A publish that has not begun to leave counts too, also on a channel that was not asked for confirms.
= opened
call 1 confirm.limit 1 -> ticket 2
call 1 basic.try-publish x x68656c6c6f 0 0 x [] -> publish 3 1
call 1 basic.try-publish x x68656c6c6f 0 0 x [] -> refused ConfirmsOutstanding 1

# A channel that is not open has no limit to set.
call 1 confirm.limit 1 -> refused InvalidChannelState closed
";
