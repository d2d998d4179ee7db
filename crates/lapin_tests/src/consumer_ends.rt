//! Ends: what each kind of end gives to consumers, and to open cancels.

pub const HISTORIES: &str = "
# Channels end in rising number, and in each the consumers in rising number: error, then end.
call 2 channel.open -> ticket 1
call 1 channel.open -> ticket 2
next 1 -> frame method 2 channel.open
next 1 -> frame method 1 channel.open
recv method 1 channel.open-ok -> received
recv method 2 channel.open-ok -> received
call 2 basic.consume x71 x74 0 0 0 1 {} -> ticket 3
next 1 -> frame method 2 basic.consume x71 x74 0 0 0 1 {}
call 1 basic.consume x71 x74 0 0 0 1 {} -> ticket 4
next 1 -> frame method 1 basic.consume x71 x74 0 0 0 1 {}
call 2 basic.consume x71 x75 0 0 0 1 {} -> ticket 5
next 1 -> frame method 2 basic.consume x71 x75 0 0 0 1 {}
call 1 basic.consume x71 x75 0 0 0 1 {} -> ticket 6
next 1 -> frame method 1 basic.consume x71 x75 0 0 0 1 {}
call 1 basic.consume x71 x76 0 0 0 1 {} -> ticket 7
next 1 -> frame method 1 basic.consume x71 x76 0 0 0 1 {}
delegate 3 -> delegated
delegate 1 -> delegated
delegate 4 -> delegated
delegate 5 -> delegated
recv method 2 basic.deliver x75 1 0 x x71 -> received
recv header 2 60 0 [] -> received
recv method 0 connection.close 320 x 0 0 -> received
job -> job 3 item 1 x x71 0 [] x 1
job -> job 4 failed ProtocolError 320
job -> job 4 end
job -> job 5 failed ProtocolError 320
job -> job 5 end
job -> job 1 failed ProtocolError 320
job -> job 1 end
job -> job 3 failed ProtocolError 320
job -> job 3 end
job -> nojob
consumer 2 -> failed ProtocolError 320
consumer 2 -> end
consumer 2 -> end
consumer 1 -> end
acker 1 ack 0 -> no
next 1 -> frame method 0 connection.close-ok
next 1 -> noframe
state 2 -> state closed down
state 0 -> state closed down

# A close of this side gives ends alone; then the loss.
= opened
call 2 channel.open -> ticket 2
next 1 -> frame method 2 channel.open
recv method 2 channel.open-ok -> received
call 1 basic.consume x71 x74 0 0 0 1 {} -> ticket 3
next 1 -> frame method 1 basic.consume x71 x74 0 0 0 1 {}
call 2 basic.consume x71 x74 0 0 0 1 {} -> ticket 4
next 1 -> frame method 2 basic.consume x71 x74 0 0 0 1 {}
call 1 basic.consume x71 x75 0 0 0 1 {} -> ticket 5
next 1 -> frame method 1 basic.consume x71 x75 0 0 0 1 {}
delegate 1 -> delegated
delegate 2 -> delegated
delegate 3 -> delegated
call 1 channel.close 200 x -> ticket 6
next 1 -> frame method 1 channel.close 200 x 0 0
recv method 1 channel.close-ok -> received
# The client's close took the marks away and gives ends without errors.
job -> nojob
consumer 1 -> end
consumer 3 -> end
recv method 2 basic.deliver x74 1 0 x x71 -> received
recv header 2 60 0 [] -> received
lost -> lost
job -> job 2 item 1 x x71 0 [] x 1
job -> job 2 failed ConnectionLost
job -> job 2 end
job -> nojob
consumer 2 -> end
lost -> lost
job -> nojob

# The session's own close leaves consumers as they are until close-ok.
= opened
call 1 confirm.select 1 -> ticket 2
next 1 -> frame method 1 confirm.select 1
call 1 basic.consume x71 x74 0 0 0 1 {} -> ticket 3
next 1 -> frame method 1 basic.consume x71 x74 0 0 0 1 {}
delegate 1 -> delegated
call 1 basic.consume x71 x75 0 0 0 1 {} -> ticket 4
next 1 -> frame method 1 basic.consume x71 x75 0 0 0 1 {}
call 1 basic.publish x x71 0 0 x [] -> publish 5 1
recv method 1 basic.nack 1 0 0 -> refused PreconditionFailed 1 0
state 1 -> state open closing
confirm 1 -> error ProtocolError 406
ticket 5 -> error ProtocolError 406
recv method 1 basic.deliver x74 1 0 x x71 -> received
recv header 1 60 0 [] -> received
job -> job 1 item 1 x x71 0 [] x 1
recv method 1 basic.deliver x75 2 1 x x71 -> received
recv header 1 60 0 [] -> received
acker 2 ack 0 -> refused InvalidChannelState closing
next 1 -> frame method 1 channel.close 406 x505245434f4e444954494f4e5f4641494c4544 60 120
# A second wrong settlement in Closing changes nothing else.
recv method 1 basic.ack 3 0 -> refused PreconditionFailed 3 0
next 1 -> noframe
recv method 1 channel.close-ok -> received
state 1 -> state open closed
job -> job 1 failed ProtocolError 406
job -> job 1 end
job -> nojob
consumer 1 -> end
consumer 2 -> item 2 x x71 1 [] x 2
consumer 2 -> failed ProtocolError 406
consumer 2 -> end
acker 1 ack 0 -> no
";
