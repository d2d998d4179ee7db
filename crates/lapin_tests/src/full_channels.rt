//! Full channels: in which order publishes leave around them, what a limit counts, and what an end does to it and to what waits.

pub const HISTORIES: &str = "
# Two full channels wait in front of a third, whose publish leaves first.
call 1 channel.open -> ticket 1
call 2 channel.open -> ticket 2
call 3 channel.open -> ticket 3
next 1 -> frame method 1 channel.open
next 1 -> frame method 2 channel.open
next 1 -> frame method 3 channel.open
recv method 1 channel.open-ok -> received
recv method 2 channel.open-ok -> received
recv method 3 channel.open-ok -> received
call 1 confirm.select 1 -> ticket 4
call 2 confirm.select 1 -> ticket 5
next 1 -> frame method 1 confirm.select 1
next 1 -> frame method 2 confirm.select 1
call 1 confirm.limit 1 -> ticket 6
call 2 confirm.limit 1 -> ticket 7
call 1 basic.publish x x61 0 0 x [] -> publish 8 1
call 2 basic.publish x x62 0 0 x [] -> publish 9 2
next 1 -> frame method 1 basic.publish x x61 0 0
next 1 -> frame header 1 60 0 []
next 1 -> frame method 2 basic.publish x x62 0 0
next 1 -> frame header 2 60 0 []
call 1 basic.publish x x61 0 0 x01 [] -> publish 10 3
call 2 basic.publish x x62 0 0 x02 [] -> publish 11 4
call 1 basic.publish x x61 0 0 x03 [] -> publish 12 5
call 3 basic.publish x x63 0 0 x04 [] -> publish 13 6
next 1 -> frame method 3 basic.publish x x63 0 0
next 1 -> frame header 3 60 1 []
next 1 -> frame body 3 x04
next 1 -> noframe
confirm 6 -> confirmed notrequested
ticket 13 -> answer confirm 6
recv method 2 basic.ack 1 0 -> received
next 1 -> frame method 2 basic.publish x x62 0 0
recv method 1 basic.nack 1 0 0 -> received
next 1 -> frame header 2 60 1 []
next 1 -> frame body 2 x02
next 1 -> frame method 1 basic.publish x x61 0 0
next 1 -> frame header 1 60 1 []
next 1 -> frame body 1 x01
next 1 -> noframe
confirm 1 -> confirmed nack -
confirm 2 -> confirmed ack -
confirm 3 -> pending
confirm 5 -> pending

# A limit that is set to 0 again lets all leave, and a publish that may be refused is then a publish like any other.
= opened
call 1 confirm.select 1 -> ticket 2
next 1 -> frame method 1 confirm.select 1
call 1 confirm.limit 1 -> ticket 3
call 1 basic.publish x x61 0 0 x [] -> publish 4 1
call 1 basic.publish x x62 0 0 x [] -> publish 5 2
next 1 -> frame method 1 basic.publish x x61 0 0
next 1 -> frame header 1 60 0 []
next 1 -> noframe
call 1 basic.try-publish x x63 0 0 x [] -> refused ConfirmsOutstanding 1
call 1 confirm.limit 0 -> ticket 6
call 1 basic.try-publish x x63 0 0 x [] -> publish 7 3
next 1 -> frame method 1 basic.publish x x62 0 0
next 1 -> frame header 1 60 0 []
next 1 -> frame method 1 basic.publish x x63 0 0
next 1 -> frame header 1 60 0 []
ticket 3 -> answer done
ticket 6 -> answer done
ticket 7 -> answer confirm 3
recv method 1 basic.ack 0 1 -> received
confirm 3 -> confirmed ack -

# A limit below what is pending holds publishes back until fewer than it are pending.
= opened
call 1 confirm.select 1 -> ticket 2
next 1 -> frame method 1 confirm.select 1
call 1 basic.publish x x61 0 0 x [] -> publish 3 1
call 1 basic.publish x x62 0 0 x [] -> publish 4 2
call 1 basic.publish x x63 0 0 x [] -> publish 5 3
next 1 -> frame method 1 basic.publish x x61 0 0
next 1 -> frame header 1 60 0 []
next 1 -> frame method 1 basic.publish x x62 0 0
next 1 -> frame header 1 60 0 []
next 1 -> frame method 1 basic.publish x x63 0 0
next 1 -> frame header 1 60 0 []
call 1 confirm.limit 2 -> ticket 6
call 1 basic.publish x x64 0 0 x [] -> publish 7 4
next 1 -> noframe
recv method 1 basic.ack 2 0 -> received
next 1 -> noframe
call 1 basic.try-publish x x65 0 0 x [] -> refused ConfirmsOutstanding 2
recv method 1 basic.nack 3 0 0 -> received
next 1 -> frame method 1 basic.publish x x64 0 0
next 1 -> frame header 1 60 0 []
recv method 1 basic.ack 4 0 -> received
call 1 confirm.limit 1 -> ticket 8
call 1 basic.try-publish x x65 0 0 x [] -> refused ConfirmsOutstanding 1
call 1 confirm.limit 2 -> ticket 9
call 1 basic.try-publish x x65 0 0 x [] -> publish 10 5
next 1 -> frame method 1 basic.publish x x65 0 0

# Without a select nothing is held back, and the publishes that wait count at the limit all the same.
= opened
call 1 confirm.limit 2 -> ticket 2
ticket 2 -> answer done
next 1 -> noframe
call 1 basic.publish x x61 0 0 x [] -> publish 3 1
call 1 basic.try-publish x x62 0 0 x [] -> publish 4 2
call 1 basic.try-publish x x63 0 0 x [] -> refused ConfirmsOutstanding 2
call 1 basic.publish x x64 0 0 x [] -> publish 5 3
next 1 -> frame method 1 basic.publish x x61 0 0
next 1 -> frame header 1 60 0 []
call 1 basic.try-publish x x63 0 0 x [] -> refused ConfirmsOutstanding 2
next 1 -> frame method 1 basic.publish x x62 0 0
next 1 -> frame header 1 60 0 []
call 1 basic.try-publish x x63 0 0 x [] -> publish 6 4
next 1 -> frame method 1 basic.publish x x64 0 0
next 1 -> frame header 1 60 0 []
next 1 -> frame method 1 basic.publish x x63 0 0
next 1 -> frame header 1 60 0 []
next 1 -> noframe
confirm 1 -> confirmed notrequested
confirm 4 -> confirmed notrequested
wait 1 -> returned 0

# A begun publish without a tag isn't counted, one with a tag is.
= opened
call 1 confirm.limit 1 -> ticket 2
call 1 basic.try-publish x x61 0 0 x0102 [] -> publish 3 1
call 1 basic.try-publish x x62 0 0 x [] -> refused ConfirmsOutstanding 1
next 1 -> frame method 1 basic.publish x x61 0 0
ticket 3 -> pending
call 1 basic.try-publish x x62 0 0 x [] -> publish 4 2
call 1 basic.try-publish x x63 0 0 x [] -> refused ConfirmsOutstanding 1
call 1 confirm.select 1 -> ticket 5
next 1 -> frame header 1 60 2 []
next 1 -> frame body 1 x0102
next 1 -> frame method 1 confirm.select 1
next 1 -> frame method 1 basic.publish x x62 0 0
call 1 basic.try-publish x x63 0 0 x [] -> refused ConfirmsOutstanding 1
recv method 1 basic.ack 1 0 -> received
call 1 basic.try-publish x x63 0 0 x [] -> publish 6 3
confirm 1 -> confirmed notrequested
confirm 2 -> confirmed ack -

# The end of an opening ends its limit, and the publishes that wait get the error.
= opened
call 1 confirm.select 1 -> ticket 2
next 1 -> frame method 1 confirm.select 1
call 1 confirm.limit 1 -> ticket 3
call 1 basic.publish x x61 0 0 x [] -> publish 4 1
call 1 basic.publish x x62 0 0 x [] -> publish 5 2
next 1 -> frame method 1 basic.publish x x61 0 0
next 1 -> frame header 1 60 0 []
next 1 -> noframe
recv method 1 channel.close 404 x 0 0 -> received
ticket 3 -> answer done
ticket 5 -> error ProtocolError 404
confirm 1 -> error ProtocolError 404
confirm 2 -> error ProtocolError 404
next 1 -> frame method 1 channel.close-ok
call 1 confirm.limit 1 -> refused InvalidChannelState closed
call 1 channel.open -> ticket 6
call 1 confirm.limit 1 -> refused InvalidChannelState opening
call 1 basic.try-publish x x61 0 0 x [] -> refused InvalidChannelState opening
next 1 -> frame method 1 channel.open
recv method 1 channel.open-ok -> received
call 1 confirm.select 1 -> ticket 7
call 1 basic.publish x x61 0 0 x [] -> publish 8 3
call 1 basic.try-publish x x62 0 0 x [] -> publish 9 4
call 1 basic.try-publish x x63 0 0 x [] -> publish 10 5
next 1 -> frame method 1 confirm.select 1
next 1 -> frame method 1 basic.publish x x61 0 0
next 1 -> frame header 1 60 0 []
next 1 -> frame method 1 basic.publish x x62 0 0
next 1 -> frame header 1 60 0 []
next 1 -> frame method 1 basic.publish x x63 0 0

# A pause holds what isn't full, and its end lets go only what isn't full.
call 1 channel.open -> ticket 1
call 2 channel.open -> ticket 2
next 1 -> frame method 1 channel.open
next 1 -> frame method 2 channel.open
recv method 1 channel.open-ok -> received
recv method 2 channel.open-ok -> received
call 1 confirm.select 1 -> ticket 3
next 1 -> frame method 1 confirm.select 1
call 1 confirm.limit 1 -> ticket 4
call 1 basic.publish x x61 0 0 x [] -> publish 5 1
next 1 -> frame method 1 basic.publish x x61 0 0
next 1 -> frame header 1 60 0 []
call 1 basic.publish x x62 0 0 x [] -> publish 6 2
call 2 basic.publish x x63 0 0 x [] -> publish 7 3
recv method 2 channel.flow 0 -> received
next 1 -> frame method 2 channel.flow-ok 0
next 1 -> noframe
recv method 1 basic.ack 1 0 -> received
next 1 -> noframe
call 1 basic.try-publish x x64 0 0 x [] -> refused ConfirmsOutstanding 1
call 2 channel.close 200 x -> ticket 8
next 0 -> frame method 2 channel.close 200 x 0 0
next 0 -> noframe
next 1 -> frame method 1 basic.publish x x62 0 0
next 1 -> frame header 1 60 0 []
recv method 2 channel.flow 1 -> received
recv method 1 channel.flow 0 -> received
recv method 1 channel.flow 1 -> received
next 1 -> frame method 1 channel.flow-ok 0
next 1 -> frame method 1 channel.flow-ok 1
call 1 basic.publish x x65 0 0 x [] -> publish 9 4
next 1 -> noframe
confirm 3 -> error InvalidChannelState closing

# A close of a full channel by this side: what waits is rejected, and nothing of another channel is held back.
call 1 channel.open -> ticket 1
call 2 channel.open -> ticket 2
next 1 -> frame method 1 channel.open
next 1 -> frame method 2 channel.open
recv method 1 channel.open-ok -> received
recv method 2 channel.open-ok -> received
call 1 confirm.select 1 -> ticket 3
next 1 -> frame method 1 confirm.select 1
call 1 confirm.limit 1 -> ticket 4
call 1 basic.publish x x61 0 0 x01 [] -> publish 5 1
next 1 -> frame method 1 basic.publish x x61 0 0
call 1 basic.publish x x62 0 0 x [] -> publish 6 2
call 2 basic.publish x x63 0 0 x [] -> publish 7 3
call 1 channel.close 200 x -> ticket 8
ticket 6 -> error InvalidChannelState closing
confirm 2 -> error InvalidChannelState closing
call 1 basic.try-publish x x64 0 0 x [] -> refused InvalidChannelState closing
call 1 confirm.limit 0 -> refused InvalidChannelState closing
wait 1 -> pending
next 1 -> frame header 1 60 1 []
next 1 -> frame body 1 x01
next 1 -> frame method 1 channel.close 200 x 0 0
next 1 -> frame method 2 basic.publish x x63 0 0
recv method 1 basic.ack 1 0 -> received
confirm 1 -> confirmed ack -
wait 1 -> returned 0
recv method 1 channel.close-ok -> received
ticket 8 -> answer done

# The session closes a full channel after a refused settlement.
= opened
call 1 confirm.select 1 -> ticket 2
next 1 -> frame method 1 confirm.select 1
call 1 confirm.limit 1 -> ticket 3
call 1 basic.publish x x61 0 0 x [] -> publish 4 1
call 1 basic.publish x x62 0 0 x [] -> publish 5 2
next 1 -> frame method 1 basic.publish x x61 0 0
next 1 -> frame header 1 60 0 []
next 1 -> noframe
recv method 1 basic.nack 2 0 0 -> refused PreconditionFailed 2 1
ticket 5 -> error ProtocolError 406
confirm 2 -> error ProtocolError 406
confirm 1 -> pending
next 1 -> frame method 1 channel.close 406 x505245434f4e444954494f4e5f4641494c4544 60 120
next 1 -> noframe
recv method 1 basic.ack 1 0 -> received
confirm 1 -> confirmed ack -

# A multiple ack makes room for several, and no more leave than it made room for.
= opened
call 1 confirm.select 1 -> ticket 2
next 1 -> frame method 1 confirm.select 1
call 1 confirm.limit 3 -> ticket 3
call 1 basic.publish x x61 0 0 x [] -> publish 4 1
call 1 basic.publish x x62 0 0 x [] -> publish 5 2
call 1 basic.publish x x63 0 0 x [] -> publish 6 3
call 1 basic.publish x x64 0 0 x [] -> publish 7 4
call 1 basic.publish x x65 0 0 x [] -> publish 8 5
call 1 basic.publish x x66 0 0 x [] -> publish 9 6
next 1 -> frame method 1 basic.publish x x61 0 0
next 1 -> frame header 1 60 0 []
next 1 -> frame method 1 basic.publish x x62 0 0
next 1 -> frame header 1 60 0 []
next 1 -> frame method 1 basic.publish x x63 0 0
next 1 -> frame header 1 60 0 []
next 1 -> noframe
recv method 1 basic.ack 2 1 -> received
next 1 -> frame method 1 basic.publish x x64 0 0
next 1 -> frame header 1 60 0 []
next 1 -> frame method 1 basic.publish x x65 0 0
next 1 -> frame header 1 60 0 []
next 1 -> noframe
recv method 1 basic.nack 0 1 0 -> received
next 1 -> frame method 1 basic.publish x x66 0 0
next 1 -> frame header 1 60 0 []
confirm 2 -> confirmed ack -
confirm 3 -> confirmed nack -
confirm 5 -> confirmed nack -
confirm 6 -> pending

# Channels that are not full any more go on in the order of the calls over all channels.
call 1 channel.open -> ticket 1
call 2 channel.open -> ticket 2
next 1 -> frame method 1 channel.open
next 1 -> frame method 2 channel.open
recv method 1 channel.open-ok -> received
recv method 2 channel.open-ok -> received
call 1 confirm.select 1 -> ticket 3
call 2 confirm.select 1 -> ticket 4
next 1 -> frame method 1 confirm.select 1
next 1 -> frame method 2 confirm.select 1
call 1 confirm.limit 1 -> ticket 5
call 2 confirm.limit 2 -> ticket 6
call 2 basic.publish x x61 0 0 x [] -> publish 7 1
call 1 basic.publish x x62 0 0 x [] -> publish 8 2
call 2 basic.publish x x63 0 0 x [] -> publish 9 3
next 1 -> frame method 2 basic.publish x x61 0 0
next 1 -> frame header 2 60 0 []
next 1 -> frame method 1 basic.publish x x62 0 0
next 1 -> frame header 1 60 0 []
next 1 -> frame method 2 basic.publish x x63 0 0
next 1 -> frame header 2 60 0 []
call 2 basic.publish x x64 0 0 x [] -> publish 10 4
call 1 basic.publish x x65 0 0 x [] -> publish 11 5
call 2 basic.publish x x66 0 0 x [] -> publish 12 6
call 1 basic.publish x x67 0 0 x [] -> publish 13 7
next 1 -> noframe
recv method 1 basic.ack 1 0 -> received
recv method 2 basic.ack 2 1 -> received
next 1 -> frame method 2 basic.publish x x64 0 0
next 1 -> frame header 2 60 0 []
next 1 -> frame method 1 basic.publish x x65 0 0
next 1 -> frame header 1 60 0 []
next 1 -> frame method 2 basic.publish x x66 0 0
next 1 -> frame header 2 60 0 []
next 1 -> noframe
recv method 2 basic.ack 3 0 -> received
next 1 -> noframe
recv method 1 basic.ack 2 0 -> received
next 1 -> frame method 1 basic.publish x x67 0 0

# The ticket of a limit is done in the call, which queues nothing. A refused publish uses no number.
call 0 confirm.limit 1 -> refused InvalidChannelState base
call 1 basic.try-publish x x61 0 0 x [] -> refused InvalidChannelState closed
call 1 channel.open -> ticket 1
next 1 -> frame method 1 channel.open
recv method 1 channel.open-ok -> received
call 1 confirm.limit 18446744073709551615 -> ticket 2
call 1 basic.try-publish x x61 0 0 x [] -> publish 3 1
aside-ticket 2 -> aside
ticket 2 -> refused AlreadyTaken
call 1 confirm.limit 1 -> ticket 4
call 1 basic.try-publish x x62 0 0 x [] -> refused ConfirmsOutstanding 1
call 1 basic.publish x x63 0 0 x [] -> publish 5 2
next 0 -> noframe
ticket 4 -> answer done
ticket 4 -> refused AlreadyTaken
call 1 confirm.limit 2 -> ticket 6
call 1 basic.try-publish x x62 0 0 x [] -> refused ConfirmsOutstanding 2
lost -> lost
ticket 6 -> answer done
confirm 2 -> error ConnectionLost
call 1 basic.try-publish x x62 0 0 x [] -> refused InvalidChannelState down
call 1 confirm.limit 0 -> refused InvalidChannelState down

# The limit is set before the select: publishes that leave behind the select take tags and fill the channel.
= opened
call 1 confirm.limit 1 -> ticket 2
call 1 basic.publish x x61 0 0 x [] -> publish 3 1
call 1 basic.publish x x62 0 0 x [] -> publish 4 2
call 1 basic.publish x x63 0 0 x [] -> publish 5 3
next 1 -> frame method 1 basic.publish x x61 0 0
next 1 -> frame header 1 60 0 []
call 1 confirm.select 0 -> ticket 6
next 1 -> frame method 1 confirm.select 0
next 1 -> frame method 1 basic.publish x x62 0 0
next 1 -> frame header 1 60 0 []
next 1 -> noframe
recv method 1 confirm.select-ok -> received
recv method 1 basic.ack 1 0 -> received
next 1 -> frame method 1 basic.publish x x63 0 0
confirm 1 -> confirmed notrequested
confirm 2 -> confirmed ack -

# A full channel holds no method back, and its begun publish goes on.
= opened
call 1 confirm.select 1 -> ticket 2
next 1 -> frame method 1 confirm.select 1
call 1 confirm.limit 1 -> ticket 3
call 1 basic.publish x x61 0 0 x01 [] -> publish 4 1
call 1 basic.publish x x62 0 0 x [] -> publish 5 2
next 1 -> frame method 1 basic.publish x x61 0 0
call 1 tx.select -> ticket 6
next 1 -> frame header 1 60 1 []
next 1 -> frame body 1 x01
next 1 -> frame method 1 tx.select
next 1 -> noframe
wait 1 -> pending
recv method 1 basic.return 312 x x x61 -> received
recv header 1 60 0 [] -> received
recv method 1 basic.ack 7 1 -> received
confirm 1 -> confirmed ack 0 x x61 0 [] x 0 312 x
wait 1 -> pending
next 1 -> frame method 1 basic.publish x x62 0 0
";
