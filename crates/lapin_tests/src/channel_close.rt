//! The application's close of a channel: what leaves before it, what it rejects, and how it ends.

pub const HISTORIES: &str = "
# The close rejects at once what hasn't begun. What has begun leaves whole, and before the close.
= opened
call 1 basic.publish x x68656c6c6f 0 0 x6162 [] -> publish 2 1
call 1 basic.publish x x68656c6c6f 0 0 x6364 [] -> publish 3 2
next 1 -> frame method 1 basic.publish x x68656c6c6f 0 0
call 1 channel.close 200 x6f6b -> ticket 4
ticket 3 -> error InvalidChannelState closing
confirm 2 -> error InvalidChannelState closing
next 1 -> frame header 1 60 2 []
next 1 -> frame body 1 x6162
next 1 -> frame method 1 channel.close 200 x6f6b 0 0
next 1 -> noframe
ticket 2 -> answer confirm 1
recv method 1 channel.close-ok -> received
ticket 4 -> answer done

# Until close-ok the opening lives: what is settled keeps its outcome, what isn't gets the error of
# the end. Each gives it once.
= selected
call 1 basic.publish x x71 0 0 x [] -> publish 3 1
call 1 basic.publish x x71 0 0 x [] -> publish 4 2
next 1 -> frame method 1 basic.publish x x71 0 0
next 1 -> frame header 1 60 0 []
next 1 -> frame method 1 basic.publish x x71 0 0
next 1 -> frame header 1 60 0 []
call 1 channel.close 200 x6f6b -> ticket 5
ticket 5 -> pending
next 1 -> frame method 1 channel.close 200 x6f6b 0 0
state 1 -> state open closing
recv method 1 basic.nack 1 0 0 -> received
confirm 1 -> confirmed nack -
confirm 2 -> pending
ticket 5 -> pending
recv method 1 channel.close-ok -> received
state 1 -> state open closed
confirm 2 -> error InvalidChannelState closed
confirm 1 -> refused AlreadyTaken
confirm 2 -> refused AlreadyTaken
ticket 5 -> answer done
ticket 5 -> refused AlreadyTaken

# The broker's close ends the opening with the broker's code, for the ticket of the close too. The own
# close never leaves.
= selected
call 1 basic.publish x x71 0 0 x [] -> publish 3 1
next 1 -> frame method 1 basic.publish x x71 0 0
next 1 -> frame header 1 60 0 []
call 1 basic.publish x x71 0 0 x [] -> publish 4 2
call 1 channel.close 200 x -> ticket 5
recv method 1 channel.close 404 x 0 0 -> received
state 1 -> state open closed
ticket 5 -> error ProtocolError 404
confirm 1 -> error ProtocolError 404
confirm 2 -> error InvalidChannelState closing
ticket 4 -> error InvalidChannelState closing
ticket 3 -> answer confirm 1
next 1 -> frame method 1 channel.close-ok
next 1 -> noframe

# close-ok is heard by the state alone. It ends the opening, which drops a begun publish and the own
# close.
= selected
call 1 basic.publish x x71 0 0 x616263 [] -> publish 3 1
next 1 -> frame method 1 basic.publish x x71 0 0
call 1 channel.close 200 x -> ticket 4
recv method 1 channel.close-ok -> received
state 1 -> state open closed
ticket 4 -> answer done
ticket 3 -> error InvalidChannelState closed
confirm 1 -> error InvalidChannelState closed
next 1 -> noframe

# The close is done at close-ok also where it never left.
= opened
call 1 channel.close 200 x -> ticket 2
recv method 1 channel.close-ok -> received
ticket 2 -> answer done
ticket 2 -> refused AlreadyTaken
next 1 -> noframe
state 1 -> state open closed

# A select that was queued earlier leaves first, selects a closing opening, and is answered there.
# Then a single settlement of a tag that isn't pending is refused, and changes nothing more: one close
# is on its way already.
= opened
call 1 confirm.select 0 -> ticket 2
call 1 basic.publish x x71 0 0 x [] -> publish 3 1
call 1 channel.close 200 x -> ticket 4
recv method 1 basic.ack 1 0 -> passed
next 1 -> frame method 1 confirm.select 0
recv method 1 basic.ack 1 0 -> refused PreconditionFailed 1 0
next 1 -> frame method 1 channel.close 200 x 0 0
next 1 -> noframe
recv method 1 basic.nack 0 1 0 -> received
recv method 1 confirm.select-ok -> received
ticket 2 -> answer done
confirm 1 -> error InvalidChannelState closing
state 1 -> state open closing
recv method 1 channel.close-ok -> received
ticket 4 -> answer done

# A ticket that still waits at close-ok gets the error of the end. A select without wait was answered
# in the call.
= opened
call 1 confirm.select 0 -> ticket 2
call 1 confirm.select 1 -> ticket 3
call 1 channel.close 200 x -> ticket 4
next 1 -> frame method 1 confirm.select 0
next 1 -> frame method 1 confirm.select 1
next 1 -> frame method 1 channel.close 200 x 0 0
recv method 1 channel.close-ok -> received
ticket 2 -> error InvalidChannelState closed
ticket 3 -> answer done
ticket 4 -> answer done

# No call is allowed on a closing channel; one that is refused uses no number. A close needs an open
# channel, so that the connection's number is refused too.
= opened
call 0 channel.close 200 x -> refused InvalidChannelState base
call 2 channel.close 200 x -> refused InvalidChannelState closed
call 1 channel.close 200 x -> ticket 2
call 1 channel.open -> refused InvalidChannelState closing
call 1 confirm.select 1 -> refused InvalidChannelState closing
call 1 basic.publish x x71 0 0 x [] -> refused InvalidChannelState closing
call 1 channel.close 200 x -> refused InvalidChannelState closing
call 1 connection.close 200 x -> refused InvalidChannelState closing
next 1 -> frame method 1 channel.close 200 x 0 0
next 1 -> noframe
recv method 1 channel.close-ok -> received
call 1 channel.close 200 x -> refused InvalidChannelState closed
call 1 channel.open -> ticket 3
call 1 channel.close 200 x -> refused InvalidChannelState opening

# A close touches its own channel alone.
= opened
call 2 channel.open -> ticket 2
next 1 -> frame method 2 channel.open
recv method 2 channel.open-ok -> received
call 1 basic.publish x x71 0 0 x [] -> publish 3 1
call 2 basic.publish x x72 0 0 x [] -> publish 4 2
call 1 basic.publish x x71 0 0 x [] -> publish 5 3
call 2 basic.publish x x73 0 0 x [] -> publish 6 4
call 1 channel.close 200 x -> ticket 7
confirm 1 -> error InvalidChannelState closing
confirm 3 -> error InvalidChannelState closing
ticket 3 -> error InvalidChannelState closing
ticket 5 -> error InvalidChannelState closing
next 1 -> frame method 1 channel.close 200 x 0 0
next 1 -> frame method 2 basic.publish x x72 0 0
recv method 1 channel.close-ok -> received
next 1 -> frame header 2 60 0 []
next 1 -> frame method 2 basic.publish x x73 0 0
next 1 -> frame header 2 60 0 []
next 1 -> noframe
state 2 -> state open open
ticket 6 -> answer confirm 4
";
