//! Every method of a channel: what it answers on a channel that is not open, the frame that it queues with each of its fields, and its
//! answer, by the table of calls.

use crate::driver::first_failure;
use std::test::Fail;

const METHODS: &str = "
# `channel.flow`
call 1 channel.flow 1 -> refused InvalidChannelState closed
next 1 -> noframe
= opened
call 1 channel.flow 1 -> ticket 2
ticket 2 -> pending
next 1 -> frame method 1 channel.flow 1
ticket 2 -> pending
recv method 1 channel.flow-ok 0 -> received
ticket 2 -> answer flow 0
next 1 -> noframe

# `access.request`
call 1 access.request x2f64 1 0 1 0 0 -> refused InvalidChannelState closed
next 1 -> noframe
= opened
call 1 access.request x2f64 1 0 1 0 0 -> ticket 2
ticket 2 -> pending
next 1 -> frame method 1 access.request x2f64 1 0 1 0 0
ticket 2 -> pending
recv method 1 access.request-ok -> received
ticket 2 -> answer done
next 1 -> noframe

# `exchange.declare`
call 1 exchange.declare x65 x746f706963 1 0 0 1 0 {x61=t1} -> refused InvalidChannelState closed
next 1 -> noframe
= opened
call 1 exchange.declare x65 x746f706963 1 0 0 1 0 {x61=t1} -> ticket 2
ticket 2 -> pending
next 1 -> frame method 1 exchange.declare x65 x746f706963 1 0 0 1 0 {x61=t1}
ticket 2 -> pending
recv method 1 exchange.declare-ok -> received
ticket 2 -> answer done
next 1 -> noframe

# `exchange.delete`
call 1 exchange.delete x65 1 0 -> refused InvalidChannelState closed
next 1 -> noframe
= opened
call 1 exchange.delete x65 1 0 -> ticket 2
ticket 2 -> pending
next 1 -> frame method 1 exchange.delete x65 1 0
ticket 2 -> pending
recv method 1 exchange.delete-ok -> received
ticket 2 -> answer done
next 1 -> noframe

# `exchange.bind`
call 1 exchange.bind x64 x73 x6b 0 {x61=V} -> refused InvalidChannelState closed
next 1 -> noframe
= opened
call 1 exchange.bind x64 x73 x6b 0 {x61=V} -> ticket 2
ticket 2 -> pending
next 1 -> frame method 1 exchange.bind x64 x73 x6b 0 {x61=V}
ticket 2 -> pending
recv method 1 exchange.bind-ok -> received
ticket 2 -> answer done
next 1 -> noframe

# `exchange.unbind`
call 1 exchange.unbind x64 x73 x6b 0 {x61=V} -> refused InvalidChannelState closed
next 1 -> noframe
= opened
call 1 exchange.unbind x64 x73 x6b 0 {x61=V} -> ticket 2
ticket 2 -> pending
next 1 -> frame method 1 exchange.unbind x64 x73 x6b 0 {x61=V}
ticket 2 -> pending
recv method 1 exchange.unbind-ok -> received
ticket 2 -> answer done
next 1 -> noframe

# `queue.declare`
call 1 queue.declare x71 0 1 0 1 0 {x61=t1} -> refused InvalidChannelState closed
next 1 -> noframe
= opened
call 1 queue.declare x71 0 1 0 1 0 {x61=t1} -> ticket 2
ticket 2 -> pending
next 1 -> frame method 1 queue.declare x71 0 1 0 1 0 {x61=t1}
ticket 2 -> pending
recv method 1 queue.declare-ok x616d71 5 1 -> received
ticket 2 -> answer queue x616d71 5 1
next 1 -> noframe

# `queue.bind`
call 1 queue.bind x71 x65 x6b 0 {x61=V} -> refused InvalidChannelState closed
next 1 -> noframe
= opened
call 1 queue.bind x71 x65 x6b 0 {x61=V} -> ticket 2
ticket 2 -> pending
next 1 -> frame method 1 queue.bind x71 x65 x6b 0 {x61=V}
ticket 2 -> pending
recv method 1 queue.bind-ok -> received
ticket 2 -> answer done
next 1 -> noframe

# `queue.purge`
call 1 queue.purge x71 0 -> refused InvalidChannelState closed
next 1 -> noframe
= opened
call 1 queue.purge x71 0 -> ticket 2
ticket 2 -> pending
next 1 -> frame method 1 queue.purge x71 0
ticket 2 -> pending
recv method 1 queue.purge-ok 7 -> received
ticket 2 -> answer count 7
next 1 -> noframe

# `queue.delete`
call 1 queue.delete x71 1 0 0 -> refused InvalidChannelState closed
next 1 -> noframe
= opened
call 1 queue.delete x71 1 0 0 -> ticket 2
ticket 2 -> pending
next 1 -> frame method 1 queue.delete x71 1 0 0
ticket 2 -> pending
recv method 1 queue.delete-ok 3 -> received
ticket 2 -> answer count 3
next 1 -> noframe

# `queue.unbind`
call 1 queue.unbind x71 x65 x6b {x61=V} -> refused InvalidChannelState closed
next 1 -> noframe
= opened
call 1 queue.unbind x71 x65 x6b {x61=V} -> ticket 2
ticket 2 -> pending
next 1 -> frame method 1 queue.unbind x71 x65 x6b {x61=V}
ticket 2 -> pending
recv method 1 queue.unbind-ok -> received
ticket 2 -> answer done
next 1 -> noframe

# `basic.qos`
call 1 basic.qos 20 1 -> refused InvalidChannelState closed
next 1 -> noframe
= opened
call 1 basic.qos 20 1 -> ticket 2
ticket 2 -> pending
next 1 -> frame method 1 basic.qos 20 1
ticket 2 -> pending
recv method 1 basic.qos-ok -> received
ticket 2 -> answer done
next 1 -> noframe

# `basic.consume`
call 1 basic.consume x71 x74 0 1 0 0 {x61=t1} -> refused InvalidChannelState closed
next 1 -> noframe
= opened
call 1 basic.consume x71 x74 0 1 0 0 {x61=t1} -> ticket 2
ticket 2 -> pending
next 1 -> frame method 1 basic.consume x71 x74 0 1 0 0 {x61=t1}
ticket 2 -> pending
recv method 1 basic.consume-ok x74 -> received
ticket 2 -> answer consumer 1
next 1 -> noframe

# `basic.cancel`
call 1 basic.cancel x74 0 -> refused InvalidChannelState closed
next 1 -> noframe
= opened
call 1 basic.cancel x74 0 -> ticket 2
ticket 2 -> pending
next 1 -> frame method 1 basic.cancel x74 0
ticket 2 -> pending
recv method 1 basic.cancel-ok x74 -> received
ticket 2 -> answer done
next 1 -> noframe

# `basic.get`
call 1 basic.get x71 1 -> refused InvalidChannelState closed
next 1 -> noframe
= opened
call 1 basic.get x71 1 -> ticket 2
ticket 2 -> pending
next 1 -> frame method 1 basic.get x71 1
ticket 2 -> pending
recv method 1 basic.get-empty -> received
ticket 2 -> answer got -
next 1 -> noframe

# `basic.recover`
call 1 basic.recover 1 -> refused InvalidChannelState closed
next 1 -> noframe
= opened
call 1 basic.recover 1 -> ticket 2
ticket 2 -> pending
next 1 -> frame method 1 basic.recover 1
ticket 2 -> pending
recv method 1 basic.recover-ok -> received
ticket 2 -> answer done
next 1 -> noframe

# `confirm.select`
call 1 confirm.select 0 -> refused InvalidChannelState closed
next 1 -> noframe
= opened
call 1 confirm.select 0 -> ticket 2
ticket 2 -> pending
next 1 -> frame method 1 confirm.select 0
ticket 2 -> pending
recv method 1 confirm.select-ok -> received
ticket 2 -> answer done
next 1 -> noframe

# `tx.select`
call 1 tx.select -> refused InvalidChannelState closed
next 1 -> noframe
= opened
call 1 tx.select -> ticket 2
ticket 2 -> pending
next 1 -> frame method 1 tx.select
ticket 2 -> pending
recv method 1 tx.select-ok -> received
ticket 2 -> answer done
next 1 -> noframe

# `tx.commit`
call 1 tx.commit -> refused InvalidChannelState closed
next 1 -> noframe
= opened
call 1 tx.commit -> ticket 2
ticket 2 -> pending
next 1 -> frame method 1 tx.commit
ticket 2 -> pending
recv method 1 tx.commit-ok -> received
ticket 2 -> answer done
next 1 -> noframe

# `tx.rollback`
call 1 tx.rollback -> refused InvalidChannelState closed
next 1 -> noframe
= opened
call 1 tx.rollback -> ticket 2
ticket 2 -> pending
next 1 -> frame method 1 tx.rollback
ticket 2 -> pending
recv method 1 tx.rollback-ok -> received
ticket 2 -> answer done
next 1 -> noframe

# `channel.close`
call 1 channel.close 404 x6e6f -> refused InvalidChannelState closed
next 1 -> noframe
= opened
call 1 channel.close 404 x6e6f -> ticket 2
ticket 2 -> pending
next 1 -> frame method 1 channel.close 404 x6e6f 0 0
ticket 2 -> pending
recv method 1 channel.close-ok -> received
ticket 2 -> answer done
next 1 -> noframe

# `basic.get` with a message: the answer comes with its last byte.
= opened
call 1 basic.get x71 0 -> ticket 2
next 1 -> frame method 1 basic.get x71 0
recv method 1 basic.get-ok 9 1 x65 x6b 4 -> received
recv header 1 60 2 [priority=1] -> received
ticket 2 -> pending
recv body 1 x6869 -> received
ticket 2 -> answer got 9 x65 x6b 1 [priority=1] x6869 1 4
next 1 -> noframe

# `basic.ack` has no reply: it is done as it leaves.
call 1 basic.ack 7 1 -> refused InvalidChannelState closed
next 1 -> noframe
= opened
call 1 basic.ack 7 1 -> ticket 2
ticket 2 -> pending
next 1 -> frame method 1 basic.ack 7 1
ticket 2 -> answer done
next 1 -> noframe

# `basic.nack` has no reply: it is done as it leaves.
call 1 basic.nack 7 1 0 -> refused InvalidChannelState closed
next 1 -> noframe
= opened
call 1 basic.nack 7 1 0 -> ticket 2
ticket 2 -> pending
next 1 -> frame method 1 basic.nack 7 1 0
ticket 2 -> answer done
next 1 -> noframe

# `basic.reject` has no reply: it is done as it leaves.
call 1 basic.reject 7 1 -> refused InvalidChannelState closed
next 1 -> noframe
= opened
call 1 basic.reject 7 1 -> ticket 2
ticket 2 -> pending
next 1 -> frame method 1 basic.reject 7 1
ticket 2 -> answer done
next 1 -> noframe

# `basic.recover-async` has no reply: it is done as it leaves.
call 1 basic.recover-async 1 -> refused InvalidChannelState closed
next 1 -> noframe
= opened
call 1 basic.recover-async 1 -> ticket 2
ticket 2 -> pending
next 1 -> frame method 1 basic.recover-async 1
ticket 2 -> answer done
next 1 -> noframe

# `basic.publish`: its ticket is answered as its last frame leaves, its confirm as the broker settles it.
call 1 basic.publish x65 x6b 1 0 x6869 [delivery_mode=2,message_id=x69] -> refused InvalidChannelState closed
next 1 -> noframe
= opened
call 1 confirm.select 1 -> ticket 2
next 1 -> frame method 1 confirm.select 1
call 1 basic.publish x65 x6b 1 0 x6869 [delivery_mode=2,message_id=x69] -> publish 3 1
next 0 -> noframe
next 1 -> frame method 1 basic.publish x65 x6b 1 0
next 1 -> frame header 1 60 2 [delivery_mode=2,message_id=x69]
ticket 3 -> pending
next 1 -> frame body 1 x6869
ticket 3 -> answer confirm 1
confirm 1 -> pending
wait 1 -> pending
recv method 1 basic.ack 1 0 -> received
confirm 1 -> confirmed ack -
wait 1 -> returned 0
next 1 -> noframe

# `basic.try-publish`: its ticket is answered as its last frame leaves, its confirm as the broker settles it.
call 1 basic.try-publish x65 x6b 1 0 x6869 [delivery_mode=2,message_id=x69] -> refused InvalidChannelState closed
next 1 -> noframe
= opened
call 1 confirm.select 1 -> ticket 2
next 1 -> frame method 1 confirm.select 1
call 1 basic.try-publish x65 x6b 1 0 x6869 [delivery_mode=2,message_id=x69] -> publish 3 1
next 0 -> noframe
next 1 -> frame method 1 basic.publish x65 x6b 1 0
next 1 -> frame header 1 60 2 [delivery_mode=2,message_id=x69]
ticket 3 -> pending
next 1 -> frame body 1 x6869
ticket 3 -> answer confirm 1
confirm 1 -> pending
wait 1 -> pending
recv method 1 basic.ack 1 0 -> received
confirm 1 -> confirmed ack -
wait 1 -> returned 0
next 1 -> noframe

# `confirm.limit` queues no frame, and is done at once. At the limit a try publish is refused, and a publish waits.
call 1 confirm.limit 1 -> refused InvalidChannelState closed
= opened
call 1 confirm.select 1 -> ticket 2
next 1 -> frame method 1 confirm.select 1
call 1 confirm.limit 1 -> ticket 3
ticket 3 -> answer done
next 1 -> noframe
call 1 basic.try-publish x x71 0 0 x [] -> publish 4 1
next 1 -> frame method 1 basic.publish x x71 0 0
next 1 -> frame header 1 60 0 []
call 1 basic.try-publish x x71 0 0 x [] -> refused ConfirmsOutstanding 1
call 1 basic.publish x x71 0 0 x [] -> publish 5 2
next 1 -> noframe
recv method 1 basic.ack 1 0 -> received
next 1 -> frame method 1 basic.publish x x71 0 0

# The session's own two: `channel.open` and `connection.close`.
call 7 channel.open -> ticket 1
next 1 -> frame method 7 channel.open
recv method 7 channel.open-ok -> received
ticket 1 -> answer channel 7
state 7 -> state open open
call 7 channel.open -> refused InvalidChannelState open
call 0 connection.close 320 x627965 -> ticket 2
state 7 -> state closing down
next 1 -> frame method 0 connection.close 320 x627965 0 0
recv method 0 connection.close-ok -> received
ticket 2 -> answer done
state 0 -> state closed down
lost -> lost
state 0 -> state lost down
ticket 2 -> refused AlreadyTaken
ticket 3 -> refused UnknownTicket
aside-ticket 2 -> refused AlreadyTaken
";

#[test]
fn each_method_of_a_channel(rt: HostRuntime) -> Result<(), Fail> {
    let found = first_failure(rt.alloc(), METHODS)?;
    assert_eq!(rt; found, None);
    Ok(())
}
