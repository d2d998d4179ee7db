//! The histories of the folder `examples`, each with its records. `examples/check.py` sees that the files there are these events.

pub const HISTORIES: &str = "
# examples/first-publish.txt
call 1 channel.open -> ticket 1
next 1 -> frame method 1 channel.open
recv method 1 channel.open-ok -> received
call 1 confirm.select 0 -> ticket 2
next 1 -> frame method 1 confirm.select 0
recv method 1 confirm.select-ok -> received
call 1 basic.publish x x68656c6c6f 0 0 x48656c6c6f20776f726c6421 [] -> publish 3 1
next 1 -> frame method 1 basic.publish x x68656c6c6f 0 0
next 1 -> frame header 1 60 12 []
next 1 -> frame body 1 x48656c6c6f20776f726c6421
recv method 1 basic.ack 1 0 -> received
ticket 3 -> answer confirm 1
confirm 1 -> confirmed ack -

# examples/closes.txt
call 1 channel.open -> ticket 1
next 1 -> frame method 1 channel.open
recv method 1 channel.open-ok -> received
call 1 confirm.select 1 -> ticket 2
next 1 -> frame method 1 confirm.select 1
call 1 basic.publish x x68656c6c6f 0 0 x6f6e65 [] -> publish 3 1
call 1 basic.publish x x68656c6c6f 0 0 x74776f [] -> publish 4 2
next 1 -> frame method 1 basic.publish x x68656c6c6f 0 0
call 1 channel.close 200 x627965 -> ticket 5
confirm 2 -> error InvalidChannelState closing
next 1 -> frame header 1 60 3 []
next 1 -> frame body 1 x6f6e65
next 1 -> frame method 1 channel.close 200 x627965 0 0
recv method 1 channel.close 404 x6e6f742d666f756e64 60 40 -> received
confirm 1 -> error ProtocolError 404
state 1 -> state open crossed
next 1 -> frame method 1 channel.close-ok
recv method 1 channel.close-ok -> received
ticket 5 -> answer done
state 1 -> state open closed
call 1 channel.open -> ticket 6
next 1 -> frame method 1 channel.open
recv method 1 channel.open-ok -> received
call 0 connection.close 200 x627965 -> ticket 7
next 1 -> frame method 0 connection.close 200 x627965 0 0
recv method 0 connection.close-ok -> received
ticket 7 -> answer done
lost -> lost
state 1 -> state lost down

# examples/reliable-publisher.txt
call 1 channel.open -> ticket 1
next 1 -> frame method 1 channel.open
recv method 1 channel.open-ok -> received
call 1 confirm.select 0 -> ticket 2
next 1 -> frame method 1 confirm.select 0
recv method 1 confirm.select-ok -> received
call 1 basic.publish x x6f7264657273 0 0 x6f726465722d31 [delivery_mode=2,message_id=x31] -> publish 3 1
call 1 basic.publish x x6f7264657273 0 0 x6f726465722d32 [delivery_mode=2,message_id=x32] -> publish 4 2
next 1 -> frame method 1 basic.publish x x6f7264657273 0 0
next 1 -> frame header 1 60 7 [delivery_mode=2,message_id=x31]
next 1 -> frame body 1 x6f726465722d31
next 1 -> frame method 1 basic.publish x x6f7264657273 0 0
next 1 -> frame header 1 60 7 [delivery_mode=2,message_id=x32]
next 1 -> frame body 1 x6f726465722d32
confirm 1 -> pending
recv method 1 basic.ack 2 1 -> received
confirm 1 -> confirmed ack -
confirm 2 -> confirmed ack -
call 1 basic.publish x x6f7264657273 0 0 x6f726465722d33 [delivery_mode=2,message_id=x33] -> publish 5 3
next 1 -> frame method 1 basic.publish x x6f7264657273 0 0
next 1 -> frame header 1 60 7 [delivery_mode=2,message_id=x33]
next 1 -> frame body 1 x6f726465722d33
recv method 1 basic.nack 3 0 0 -> received
confirm 3 -> confirmed nack -
call 1 basic.publish x x6f7264657273 0 0 x6f726465722d33 [delivery_mode=2,message_id=x33] -> publish 6 4
call 1 basic.publish x x6f7264657273 0 0 x6f726465722d34 [delivery_mode=2,message_id=x34] -> publish 7 5
next 1 -> frame method 1 basic.publish x x6f7264657273 0 0
next 1 -> frame header 1 60 7 [delivery_mode=2,message_id=x33]
lost -> lost
confirm 4 -> error ConnectionLost
confirm 5 -> error ConnectionLost
next 1 -> noframe

# examples/limited-publisher.txt
call 1 channel.open -> ticket 1
next 1 -> frame method 1 channel.open
recv method 1 channel.open-ok -> received
call 1 confirm.select 0 -> ticket 2
next 1 -> frame method 1 confirm.select 0
recv method 1 confirm.select-ok -> received
call 1 confirm.limit 2 -> ticket 3
ticket 3 -> answer done
next 1 -> noframe
call 1 basic.try-publish x x6f7264657273 0 0 x6f726465722d31 [delivery_mode=2,message_id=x31] -> publish 4 1
call 1 basic.try-publish x x6f7264657273 0 0 x6f726465722d32 [delivery_mode=2,message_id=x32] -> publish 5 2
call 1 basic.try-publish x x6f7264657273 0 0 x6f726465722d33 [delivery_mode=2,message_id=x33] -> refused ConfirmsOutstanding 2
next 1 -> frame method 1 basic.publish x x6f7264657273 0 0
next 1 -> frame header 1 60 7 [delivery_mode=2,message_id=x31]
next 1 -> frame body 1 x6f726465722d31
next 1 -> frame method 1 basic.publish x x6f7264657273 0 0
next 1 -> frame header 1 60 7 [delivery_mode=2,message_id=x32]
next 1 -> frame body 1 x6f726465722d32
ticket 4 -> answer confirm 1
call 1 basic.try-publish x x6f7264657273 0 0 x6f726465722d33 [delivery_mode=2,message_id=x33] -> refused ConfirmsOutstanding 2
recv method 1 basic.ack 1 0 -> received
confirm 1 -> confirmed ack -
call 1 basic.try-publish x x6f7264657273 0 0 x6f726465722d33 [delivery_mode=2,message_id=x33] -> publish 6 3
next 1 -> frame method 1 basic.publish x x6f7264657273 0 0
next 1 -> frame header 1 60 7 [delivery_mode=2,message_id=x33]
next 1 -> frame body 1 x6f726465722d33
call 1 basic.publish x x6f7264657273 0 0 x6f726465722d34 [delivery_mode=2,message_id=x34] -> publish 7 4
next 1 -> noframe
recv method 1 basic.ack 3 1 -> received
confirm 2 -> confirmed ack -
confirm 3 -> confirmed ack -
next 1 -> frame method 1 basic.publish x x6f7264657273 0 0
next 1 -> frame header 1 60 7 [delivery_mode=2,message_id=x34]
next 1 -> frame body 1 x6f726465722d34
recv method 1 basic.ack 4 0 -> received
confirm 4 -> confirmed ack -
";

/// Those that declare what they publish to.
pub const TOPOLOGY: &str = "
# examples/work-queue.txt
call 1 channel.open -> ticket 1
next 1 -> frame method 1 channel.open
recv method 1 channel.open-ok -> received
call 1 queue.declare x7461736b73 0 1 0 0 0 {} -> ticket 2
next 1 -> frame method 1 queue.declare x7461736b73 0 1 0 0 0 {}
recv method 1 queue.declare-ok x7461736b73 4 2 -> received
ticket 2 -> answer queue x7461736b73 4 2
call 1 basic.qos 1 0 -> ticket 3
call 1 confirm.select 0 -> ticket 4
next 1 -> frame method 1 basic.qos 1 0
next 1 -> frame method 1 confirm.select 0
recv method 1 basic.qos-ok -> received
recv method 1 confirm.select-ok -> received
ticket 3 -> answer done
ticket 4 -> answer done
call 1 basic.publish x x7461736b73 0 0 x726573697a652070686f746f2037 [content_type=x746578742f706c61696e,delivery_mode=2] -> publish 5 1
next 1 -> frame method 1 basic.publish x x7461736b73 0 0
next 1 -> frame header 1 60 14 [content_type=x746578742f706c61696e,delivery_mode=2]
next 1 -> frame body 1 x726573697a652070686f746f2037
recv method 1 basic.ack 1 0 -> received
ticket 5 -> answer confirm 1
confirm 1 -> confirmed ack -
call 1 queue.purge x7461736b73 0 -> ticket 6
next 1 -> frame method 1 queue.purge x7461736b73 0
recv method 1 queue.purge-ok 5 -> received
ticket 6 -> answer count 5

# examples/request-reply.txt
call 1 channel.open -> ticket 1
call 2 channel.open -> ticket 2
next 1 -> frame method 1 channel.open
next 1 -> frame method 2 channel.open
recv method 1 channel.open-ok -> received
recv method 2 channel.open-ok -> received
call 1 queue.declare x 0 0 1 0 0 {} -> ticket 3
next 1 -> frame method 1 queue.declare x 0 0 1 0 0 {}
recv method 1 queue.declare-ok x616d712e67656e2d31 0 0 -> received
ticket 3 -> answer queue x616d712e67656e2d31 0 0
call 1 basic.publish x x727063 0 0 x61646420322033 [correlation_id=x31,reply_to=x616d712e67656e2d31] -> publish 4 1
call 2 basic.publish x x616d712e67656e2d31 0 0 x35 [correlation_id=x31] -> publish 5 2
next 1 -> frame method 1 basic.publish x x727063 0 0
next 1 -> frame header 1 60 7 [correlation_id=x31,reply_to=x616d712e67656e2d31]
next 1 -> frame body 1 x61646420322033
next 1 -> frame method 2 basic.publish x x616d712e67656e2d31 0 0
next 1 -> frame header 2 60 1 [correlation_id=x31]
next 1 -> frame body 2 x35
ticket 4 -> answer confirm 1
confirm 1 -> confirmed notrequested
call 1 queue.delete x616d712e67656e2d31 0 0 0 -> ticket 6
next 1 -> frame method 1 queue.delete x616d712e67656e2d31 0 0 0
recv method 1 queue.delete-ok 1 -> received
ticket 6 -> answer count 1

# examples/returned-message.txt
call 1 channel.open -> ticket 1
next 1 -> frame method 1 channel.open
recv method 1 channel.open-ok -> received
call 1 confirm.select 0 -> ticket 2
next 1 -> frame method 1 confirm.select 0
recv method 1 confirm.select-ok -> received
call 1 basic.publish x6576656e7473 x6f726465722e70616964 1 0 x7b226f72646572223a377d [message_id=x6531] -> publish 3 1
call 1 basic.publish x6576656e7473 x6f726465722e70616964 1 0 x7b226f72646572223a387d [message_id=x6532] -> publish 4 2
aside-confirm 2 -> aside
next 1 -> frame method 1 basic.publish x6576656e7473 x6f726465722e70616964 1 0
next 1 -> frame header 1 60 11 [message_id=x6531]
next 1 -> frame body 1 x7b226f72646572223a377d
wait 1 -> pending
recv method 1 basic.return 312 x4e4f5f524f555445 x6576656e7473 x6f726465722e70616964 -> received
recv header 1 60 11 [message_id=x6531] -> received
recv body 1 x7b226f72646572223a377d -> received
confirm 1 -> pending
recv method 1 basic.ack 1 0 -> received
confirm 1 -> confirmed ack 0 x6576656e7473 x6f726465722e70616964 0 [message_id=x6531] x7b226f72646572223a377d 0 312 x4e4f5f524f555445
next 1 -> frame method 1 basic.publish x6576656e7473 x6f726465722e70616964 1 0
next 1 -> frame header 1 60 11 [message_id=x6532]
next 1 -> frame body 1 x7b226f72646572223a387d
recv method 1 basic.return 312 x4e4f5f524f555445 x6576656e7473 x6f726465722e70616964 -> received
recv header 1 60 11 [message_id=x6532] -> received
recv body 1 x7b226f72646572223a387d -> received
recv method 1 basic.ack 2 0 -> received
confirm 2 -> refused AlreadyTaken
wait 1 -> returned 1 0 x6576656e7473 x6f726465722e70616964 0 [message_id=x6532] x7b226f72646572223a387d 0 312 x4e4f5f524f555445
wait 1 -> returned 0
call 1 basic.get x6175646974 1 -> ticket 5
next 1 -> frame method 1 basic.get x6175646974 1
recv method 1 basic.get-ok 1 0 x6576656e7473 x6f726465722e70616964 0 -> received
ticket 5 -> pending
recv header 1 60 11 [] -> received
recv body 1 x7b226f -> received
recv body 1 x72646572223a377d -> received
ticket 5 -> answer got 1 x6576656e7473 x6f726465722e70616964 0 [] x7b226f72646572223a377d 1 0
call 1 basic.get x6175646974 1 -> ticket 6
next 1 -> frame method 1 basic.get x6175646974 1
recv method 1 basic.get-empty -> received
ticket 6 -> answer got -

# examples/event-bus.txt
call 1 channel.open -> ticket 1
next 1 -> frame method 1 channel.open
recv method 1 channel.open-ok -> received
call 1 exchange.declare x6576656e7473 x746f706963 0 1 0 0 0 {} -> ticket 2
call 1 queue.declare x62696c6c696e67 0 1 0 0 0 {} -> ticket 3
call 1 queue.declare x6175646974 0 1 0 0 0 {x782d6d61782d6c656e677468=I1000} -> ticket 4
call 1 queue.bind x62696c6c696e67 x6576656e7473 x6f726465722e2a 0 {} -> ticket 5
call 1 queue.bind x6175646974 x6576656e7473 x23 1 {} -> ticket 6
ticket 6 -> answer done
next 1 -> frame method 1 exchange.declare x6576656e7473 x746f706963 0 1 0 0 0 {}
next 1 -> frame method 1 queue.declare x62696c6c696e67 0 1 0 0 0 {}
next 1 -> frame method 1 queue.declare x6175646974 0 1 0 0 0 {x782d6d61782d6c656e677468=I1000}
next 1 -> frame method 1 queue.bind x62696c6c696e67 x6576656e7473 x6f726465722e2a 0 {}
next 1 -> frame method 1 queue.bind x6175646974 x6576656e7473 x23 1 {}
recv method 1 exchange.declare-ok -> received
recv method 1 queue.declare-ok x62696c6c696e67 0 0 -> received
recv method 1 queue.declare-ok x6175646974 12 1 -> received
recv method 1 queue.bind-ok -> received
ticket 2 -> answer done
ticket 3 -> answer queue x62696c6c696e67 0 0
ticket 4 -> answer queue x6175646974 12 1
ticket 5 -> answer done
call 1 basic.publish x6576656e7473 x6f726465722e70616964 0 0 x6f7264657220312070616964 [timestamp=1700000000,kind=x6f726465722e70616964] -> publish 7 1
next 1 -> frame method 1 basic.publish x6576656e7473 x6f726465722e70616964 0 0
next 1 -> frame header 1 60 12 [timestamp=1700000000,kind=x6f726465722e70616964]
next 1 -> frame body 1 x6f7264657220312070616964
call 1 queue.unbind x62696c6c696e67 x6576656e7473 x6f726465722e2a {} -> ticket 8
next 1 -> frame method 1 queue.unbind x62696c6c696e67 x6576656e7473 x6f726465722e2a {}
recv method 1 queue.unbind-ok -> received
ticket 8 -> answer done
";
