//! The script: each kind of event, each call and each frame that a session hears, with the records that the rules give.

pub const SCRIPT: &str = "
# Two channels are opened, one is selected.
call 1 channel.open -> ticket 1
call 2 channel.open -> ticket 2
next 1 -> frame method 1 channel.open
next 1 -> frame method 2 channel.open
recv method 1 channel.open-ok -> received
recv method 2 channel.open-ok -> received
ticket 1 -> answer channel 1
aside-ticket 2 -> aside
call 1 confirm.select 0 -> ticket 3
next 1 -> frame method 1 confirm.select 0
recv method 1 confirm.select-ok -> received
ticket 3 -> answer done

# Declares and their like.
call 1 exchange.declare x65 x746f706963 0 1 0 0 0 {x61=S6262,x62=F{x63=A[t1,V]}} -> ticket 4
call 1 queue.declare x71 0 1 0 0 0 {} -> ticket 5
call 1 queue.bind x71 x65 x6b 0 {} -> ticket 6
call 1 exchange.bind x64 x65 x6b 0 {} -> ticket 7
call 1 basic.qos 20 0 -> ticket 8
next 1 -> frame method 1 exchange.declare x65 x746f706963 0 1 0 0 0 {x61=S6262,x62=F{x63=A[t1,V]}}
next 1 -> frame method 1 queue.declare x71 0 1 0 0 0 {}
next 1 -> frame method 1 queue.bind x71 x65 x6b 0 {}
next 1 -> frame method 1 exchange.bind x64 x65 x6b 0 {}
next 1 -> frame method 1 basic.qos 20 0
recv method 1 exchange.declare-ok -> received
recv method 1 queue.declare-ok x71 3 0 -> received
recv method 1 queue.bind-ok -> received
recv method 1 exchange.bind-ok -> received
recv method 1 basic.qos-ok -> received
ticket 5 -> answer queue x71 3 0
call 1 queue.purge x71 0 -> ticket 9
call 1 queue.unbind x71 x65 x6b {} -> ticket 10
call 1 exchange.unbind x64 x65 x6b 0 {} -> ticket 11
call 1 channel.flow 1 -> ticket 12
call 1 access.request x2f 0 0 0 0 0 -> ticket 13
next 1 -> frame method 1 queue.purge x71 0
next 1 -> frame method 1 queue.unbind x71 x65 x6b {}
next 1 -> frame method 1 exchange.unbind x64 x65 x6b 0 {}
next 1 -> frame method 1 channel.flow 1
next 1 -> frame method 1 access.request x2f 0 0 0 0 0
recv method 1 queue.purge-ok 3 -> received
recv method 1 queue.unbind-ok -> received
recv method 1 exchange.unbind-ok -> received
recv method 1 channel.flow-ok 1 -> received
recv method 1 access.request-ok -> received

# Publishes, a pause, a message that comes back, a wait.
call 1 confirm.limit 5 -> ticket 14
call 1 basic.publish x65 x6b 1 0 x6869 [headers={x61=t1},message_id=x69] -> publish 15 1
call 1 basic.try-publish x65 x6b 0 0 x [] -> publish 16 2
recv method 1 channel.flow 0 -> received
next 1 -> frame method 1 channel.flow-ok 0
next 1 -> noframe
recv method 1 channel.flow 1 -> received
next 1 -> frame method 1 channel.flow-ok 1
next 1 -> frame method 1 basic.publish x65 x6b 1 0
next 1 -> frame header 1 60 2 [headers={x61=t1},message_id=x69]
next 1 -> frame body 1 x6869
next 1 -> frame method 1 basic.publish x65 x6b 0 0
next 1 -> frame header 1 60 0 []
recv method 1 basic.return 312 x4e4f x65 x6b -> received
recv header 1 60 2 [message_id=x69] -> received
recv body 1 x6869 -> received
aside-confirm 1 -> aside
wait 1 -> pending
recv method 1 basic.ack 2 1 -> received
wait 1 -> returned 1 0 x65 x6b 0 [message_id=x69] x6869 0 312 x4e4f
confirm 2 -> confirmed ack -

# Two consumers, one with a delegate; deliveries, ackers, a get, a discard.
call 1 basic.consume x71 x74 0 0 0 0 {x61=t1} -> ticket 17
next 1 -> frame method 1 basic.consume x71 x74 0 0 0 0 {x61=t1}
recv method 1 basic.consume-ok x74 -> received
ticket 17 -> answer consumer 1
call 1 basic.consume x71 x75 0 0 0 1 {} -> ticket 18
ticket 18 -> answer consumer 2
next 1 -> frame method 1 basic.consume x71 x75 0 0 0 1 {}
delegate 1 -> delegated
recv method 1 basic.deliver x74 1 0 x65 x6b -> received
recv header 1 60 2 [correlation_id=x63] -> received
recv body 1 x61 -> received
recv body 1 x62 -> received
job -> job 1 item 1 x65 x6b 0 [correlation_id=x63] x6162 1
job -> nojob
recv method 1 basic.deliver x75 2 0 x65 x6b -> received
recv header 1 60 0 [priority=1] -> received
consumer 2 -> item 2 x65 x6b 0 [priority=1] x 2
consumer 2 -> pending
acker 1 ack 0 -> ticket 19
acker 1 ack 0 -> no
acker 2 nack 0 1 -> ticket 20
next 1 -> frame method 1 basic.ack 1 0
next 1 -> frame method 1 basic.nack 2 0 1
ticket 19 -> answer yes
call 1 basic.get x71 0 -> ticket 21
next 1 -> frame method 1 basic.get x71 0
recv method 1 basic.get-ok 3 0 x65 x6b 4 -> received
recv header 1 60 2 [] -> received
recv body 1 x6162 -> received
ticket 21 -> answer got 3 x65 x6b 0 [] x6162 3 4
acker 3 reject 1 -> ticket 22
call 1 basic.get x71 1 -> ticket 23
call 1 basic.ack 9 0 -> ticket 24
call 1 basic.nack 9 0 0 -> ticket 25
call 1 basic.reject 9 0 -> ticket 26
call 1 basic.recover-async 1 -> ticket 27
call 1 basic.recover 1 -> ticket 28
next 1 -> frame method 1 basic.reject 3 1
next 1 -> frame method 1 basic.get x71 1
next 1 -> frame method 1 basic.ack 9 0
next 1 -> frame method 1 basic.nack 9 0 0
next 1 -> frame method 1 basic.reject 9 0
next 1 -> frame method 1 basic.recover-async 1
next 1 -> frame method 1 basic.recover 1
recv method 1 basic.get-empty -> received
recv method 1 basic.recover-ok -> received
ticket 23 -> answer got -
job -> job 1 discard
job -> job 1 discard
call 1 basic.cancel x74 0 -> ticket 29
next 1 -> frame method 1 basic.cancel x74 0
recv method 1 basic.cancel-ok x74 -> received
drop 2 -> dropped 1
next 1 -> frame method 1 basic.cancel x75 0
recv method 1 basic.cancel x75 0 -> received
next 1 -> frame method 1 basic.cancel-ok x75
consumer 2 -> end
call 1 queue.delete x71 0 0 0 -> ticket 30
call 1 exchange.delete x65 0 0 -> ticket 31
call 2 tx.select -> ticket 32
call 2 tx.commit -> ticket 33
call 2 tx.rollback -> ticket 34
next 1 -> frame method 1 queue.delete x71 0 0 0
next 1 -> frame method 1 exchange.delete x65 0 0
next 1 -> frame method 2 tx.select
next 1 -> frame method 2 tx.commit
next 1 -> frame method 2 tx.rollback
recv method 1 queue.delete-ok 0 -> received
recv method 1 exchange.delete-ok -> received
recv method 2 tx.select-ok -> received
recv method 2 tx.commit-ok -> received
recv method 2 tx.rollback-ok -> received

# A settlement of a tag that isn't pending, a close of this side, one of the broker, a new opening, the close of the connection, the loss.
recv method 1 basic.ack 7 0 -> refused PreconditionFailed 7 2
state 1 -> state open closing
next 1 -> frame method 1 channel.close 406 x505245434f4e444954494f4e5f4641494c4544 60 80
recv method 1 channel.close-ok -> received
call 2 channel.close 200 x6f6b -> ticket 35
next 1 -> frame method 2 channel.close 200 x6f6b 0 0
recv method 2 channel.close 404 x6e6f 0 0 -> received
next 1 -> frame method 2 channel.close-ok
recv method 2 channel.close-ok -> received
ticket 35 -> answer done
call 1 channel.open -> ticket 36
next 1 -> frame method 1 channel.open
recv method 1 channel.open-ok -> received
call 1 basic.publish x x6b 0 0 x6869 [] -> publish 37 3
call 0 connection.close 200 x6f6b -> ticket 38
confirm 3 -> error InvalidChannelState down
next 1 -> frame method 0 connection.close 200 x6f6b 0 0
recv method 0 connection.close 320 x627965 0 0 -> received
next 1 -> frame method 0 connection.close-ok
recv method 0 connection.close-ok -> received
ticket 38 -> answer done
lost -> lost
state 0 -> state lost down
";
