//! The table of methods: each call with its frame, its reply and its answer, with and without wait. A call without wait opens no
//! request, so that a reply to it is not heard.

pub const HISTORIES: &str = "
# `channel.open` is answered with the number of the channel.
call 65535 channel.open -> ticket 1
next 0 -> frame method 65535 channel.open
ticket 1 -> pending
recv method 65535 channel.open-ok -> received
ticket 1 -> answer channel 65535

# `channel.close` leaves with class 0 and method 0, and is done at close-ok.
= opened
call 1 channel.close 200 x6f6b -> ticket 2
next 0 -> frame method 1 channel.close 200 x6f6b 0 0
ticket 2 -> pending
recv method 1 channel.close-ok -> received
ticket 2 -> answer done

# So does `connection.close`, on the channel of the connection.
call 0 connection.close 320 x627965 -> ticket 1
next 0 -> frame method 0 connection.close 320 x627965 0 0
ticket 1 -> pending
recv method 0 connection.close-ok -> received
ticket 1 -> answer done

# `basic.publish` is answered with the number of its confirm as its last frame leaves.
= opened
call 1 basic.publish x65 x6b 1 0 x6869 [priority=1] -> publish 2 1
next 1 -> frame method 1 basic.publish x65 x6b 1 0
ticket 2 -> pending
next 0 -> frame header 1 60 2 [priority=1]
ticket 2 -> pending
next 0 -> frame body 1 x6869
ticket 2 -> answer confirm 1
call 1 basic.publish x66 x6c 0 1 x [] -> publish 3 2
next 1 -> frame method 1 basic.publish x66 x6c 0 1
ticket 3 -> pending
next 0 -> frame header 1 60 0 []
ticket 3 -> answer confirm 2

# `channel.flow` is answered with what the reply says.
= opened
call 1 channel.flow 1 -> ticket 2
next 0 -> frame method 1 channel.flow 1
ticket 2 -> pending
recv method 1 channel.flow-ok 1 -> received
ticket 2 -> answer flow 1
call 1 channel.flow 0 -> ticket 3
next 0 -> frame method 1 channel.flow 0
ticket 3 -> pending
recv method 1 channel.flow-ok 0 -> received
ticket 3 -> answer flow 0
call 1 channel.flow 0 -> ticket 4
next 0 -> frame method 1 channel.flow 0
ticket 4 -> pending
recv method 1 channel.flow-ok 1 -> received
ticket 4 -> answer flow 1

# `access.request`, each of its marks.
= opened
call 1 access.request x2f64 1 0 0 0 0 -> ticket 2
next 0 -> frame method 1 access.request x2f64 1 0 0 0 0
ticket 2 -> pending
recv method 1 access.request-ok -> received
ticket 2 -> answer done
call 1 access.request x2f64 0 1 0 0 0 -> ticket 3
next 0 -> frame method 1 access.request x2f64 0 1 0 0 0
ticket 3 -> pending
recv method 1 access.request-ok -> received
ticket 3 -> answer done
call 1 access.request x2f64 0 0 1 0 0 -> ticket 4
next 0 -> frame method 1 access.request x2f64 0 0 1 0 0
ticket 4 -> pending
recv method 1 access.request-ok -> received
ticket 4 -> answer done
call 1 access.request x2f64 0 0 0 1 0 -> ticket 5
next 0 -> frame method 1 access.request x2f64 0 0 0 1 0
ticket 5 -> pending
recv method 1 access.request-ok -> received
ticket 5 -> answer done
call 1 access.request x2f64 0 0 0 0 1 -> ticket 6
next 0 -> frame method 1 access.request x2f64 0 0 0 0 1
ticket 6 -> pending
recv method 1 access.request-ok -> received
ticket 6 -> answer done

# `exchange.declare`, each of its marks and kinds, and without wait.
= opened
call 1 exchange.declare x65 x646972656374 1 0 0 0 0 {} -> ticket 2
next 0 -> frame method 1 exchange.declare x65 x646972656374 1 0 0 0 0 {}
ticket 2 -> pending
recv method 1 exchange.declare-ok -> received
ticket 2 -> answer done
call 1 exchange.declare x65 x66616e6f7574 0 1 0 0 0 {} -> ticket 3
next 0 -> frame method 1 exchange.declare x65 x66616e6f7574 0 1 0 0 0 {}
ticket 3 -> pending
recv method 1 exchange.declare-ok -> received
ticket 3 -> answer done
call 1 exchange.declare x65 x68656164657273 0 0 1 0 0 {} -> ticket 4
next 0 -> frame method 1 exchange.declare x65 x68656164657273 0 0 1 0 0 {}
ticket 4 -> pending
recv method 1 exchange.declare-ok -> received
ticket 4 -> answer done
call 1 exchange.declare x65 x746f706963 0 0 0 1 0 {} -> ticket 5
next 0 -> frame method 1 exchange.declare x65 x746f706963 0 0 0 1 0 {}
ticket 5 -> pending
recv method 1 exchange.declare-ok -> received
ticket 5 -> answer done
call 1 exchange.declare x66 x782d64656c61796564 0 0 0 0 1 {x61=t1} -> ticket 6
ticket 6 -> answer done
next 0 -> frame method 1 exchange.declare x66 x782d64656c61796564 0 0 0 0 1 {x61=t1}
recv method 1 exchange.declare-ok -> refused UnexpectedFrame 40 11

# `exchange.delete`
= opened
call 1 exchange.delete x65 1 0 -> ticket 2
next 0 -> frame method 1 exchange.delete x65 1 0
ticket 2 -> pending
recv method 1 exchange.delete-ok -> received
ticket 2 -> answer done
call 1 exchange.delete x66 0 0 -> ticket 3
next 0 -> frame method 1 exchange.delete x66 0 0
ticket 3 -> pending
recv method 1 exchange.delete-ok -> received
ticket 3 -> answer done
call 1 exchange.delete x65 0 1 -> ticket 4
ticket 4 -> answer done
next 0 -> frame method 1 exchange.delete x65 0 1
recv method 1 exchange.delete-ok -> refused UnexpectedFrame 40 21

# `exchange.bind`: destination, source and key.
= opened
call 1 exchange.bind x64 x73 x6b 0 {x61=V} -> ticket 2
next 0 -> frame method 1 exchange.bind x64 x73 x6b 0 {x61=V}
ticket 2 -> pending
recv method 1 exchange.bind-ok -> received
ticket 2 -> answer done
call 1 exchange.bind x65 x74 x6c 1 {} -> ticket 3
ticket 3 -> answer done
next 0 -> frame method 1 exchange.bind x65 x74 x6c 1 {}
recv method 1 exchange.bind-ok -> refused UnexpectedFrame 40 31

# `exchange.unbind`: destination, source and key.
= opened
call 1 exchange.unbind x64 x73 x6b 0 {x61=V} -> ticket 2
next 0 -> frame method 1 exchange.unbind x64 x73 x6b 0 {x61=V}
ticket 2 -> pending
recv method 1 exchange.unbind-ok -> received
ticket 2 -> answer done
call 1 exchange.unbind x65 x74 x6c 1 {} -> ticket 3
ticket 3 -> answer done
next 0 -> frame method 1 exchange.unbind x65 x74 x6c 1 {}
recv method 1 exchange.unbind-ok -> refused UnexpectedFrame 40 51

# `queue.declare`, each of its marks, with the name and the counts of the reply; without wait with the given
# name and no counts.
= opened
call 1 queue.declare x71 1 0 0 0 0 {} -> ticket 2
next 0 -> frame method 1 queue.declare x71 1 0 0 0 0 {}
ticket 2 -> pending
recv method 1 queue.declare-ok x616d71 5 1 -> received
ticket 2 -> answer queue x616d71 5 1
call 1 queue.declare x71 0 1 0 0 0 {} -> ticket 3
next 0 -> frame method 1 queue.declare x71 0 1 0 0 0 {}
ticket 3 -> pending
recv method 1 queue.declare-ok x616d71 6 2 -> received
ticket 3 -> answer queue x616d71 6 2
call 1 queue.declare x71 0 0 1 0 0 {} -> ticket 4
next 0 -> frame method 1 queue.declare x71 0 0 1 0 0 {}
ticket 4 -> pending
recv method 1 queue.declare-ok x616d71 7 3 -> received
ticket 4 -> answer queue x616d71 7 3
call 1 queue.declare x71 0 0 0 1 0 {} -> ticket 5
next 0 -> frame method 1 queue.declare x71 0 0 0 1 0 {}
ticket 5 -> pending
recv method 1 queue.declare-ok x616d71 8 4 -> received
ticket 5 -> answer queue x616d71 8 4
call 1 queue.declare x72 0 0 0 0 1 {x61=t1} -> ticket 6
ticket 6 -> answer queue x72 0 0
next 0 -> frame method 1 queue.declare x72 0 0 0 0 1 {x61=t1}
recv method 1 queue.declare-ok x72 0 0 -> refused UnexpectedFrame 50 11

# `queue.bind`: queue, exchange and key.
= opened
call 1 queue.bind x71 x65 x6b 0 {x61=V} -> ticket 2
next 0 -> frame method 1 queue.bind x71 x65 x6b 0 {x61=V}
ticket 2 -> pending
recv method 1 queue.bind-ok -> received
ticket 2 -> answer done
call 1 queue.bind x72 x66 x6c 1 {} -> ticket 3
ticket 3 -> answer done
next 0 -> frame method 1 queue.bind x72 x66 x6c 1 {}
recv method 1 queue.bind-ok -> refused UnexpectedFrame 50 21

# `queue.purge`, with the count of the reply; without wait 0.
= opened
call 1 queue.purge x71 0 -> ticket 2
next 0 -> frame method 1 queue.purge x71 0
ticket 2 -> pending
recv method 1 queue.purge-ok 4294967295 -> received
ticket 2 -> answer count 4294967295
call 1 queue.purge x72 1 -> ticket 3
ticket 3 -> answer count 0
next 0 -> frame method 1 queue.purge x72 1
recv method 1 queue.purge-ok 1 -> refused UnexpectedFrame 50 31

# `queue.delete`, each of its marks, with the count of the reply; without wait 0.
= opened
call 1 queue.delete x71 1 0 0 -> ticket 2
next 0 -> frame method 1 queue.delete x71 1 0 0
ticket 2 -> pending
recv method 1 queue.delete-ok 3 -> received
ticket 2 -> answer count 3
call 1 queue.delete x71 0 1 0 -> ticket 3
next 0 -> frame method 1 queue.delete x71 0 1 0
ticket 3 -> pending
recv method 1 queue.delete-ok 4 -> received
ticket 3 -> answer count 4
call 1 queue.delete x72 0 0 1 -> ticket 4
ticket 4 -> answer count 0
next 0 -> frame method 1 queue.delete x72 0 0 1
recv method 1 queue.delete-ok 1 -> refused UnexpectedFrame 50 41

# `queue.unbind`: queue, exchange and key. It always waits.
= opened
call 1 queue.unbind x71 x65 x6b {x61=V} -> ticket 2
next 0 -> frame method 1 queue.unbind x71 x65 x6b {x61=V}
ticket 2 -> pending
recv method 1 queue.unbind-ok -> received
ticket 2 -> answer done

# `basic.qos`
= opened
call 1 basic.qos 65535 0 -> ticket 2
next 0 -> frame method 1 basic.qos 65535 0
ticket 2 -> pending
recv method 1 basic.qos-ok -> received
ticket 2 -> answer done
call 1 basic.qos 1 1 -> ticket 3
next 0 -> frame method 1 basic.qos 1 1
ticket 3 -> pending
recv method 1 basic.qos-ok -> received
ticket 3 -> answer done

# `basic.consume` is answered with the number of its consumer, each of its marks.
= opened
call 1 basic.consume x71 x74 1 0 0 0 {} -> ticket 2
next 0 -> frame method 1 basic.consume x71 x74 1 0 0 0 {}
ticket 2 -> pending
recv method 1 basic.consume-ok x74 -> received
ticket 2 -> answer consumer 1
call 1 basic.consume x72 x75 0 1 1 1 {x61=t1} -> ticket 3
ticket 3 -> answer consumer 2
next 0 -> frame method 1 basic.consume x72 x75 0 1 1 1 {x61=t1}
recv method 1 basic.consume-ok x75 -> refused UnexpectedFrame 60 21

# `basic.cancel`
= opened
call 1 basic.cancel x74 0 -> ticket 2
next 0 -> frame method 1 basic.cancel x74 0
ticket 2 -> pending
recv method 1 basic.cancel-ok x74 -> received
ticket 2 -> answer done
call 1 basic.cancel x75 1 -> ticket 3
ticket 3 -> answer done
next 0 -> frame method 1 basic.cancel x75 1
recv method 1 basic.cancel-ok x75 -> refused UnexpectedFrame 60 31

# `basic.recover`
= opened
call 1 basic.recover 1 -> ticket 2
next 0 -> frame method 1 basic.recover 1
ticket 2 -> pending
recv method 1 basic.recover-ok -> received
ticket 2 -> answer done
call 1 basic.recover 0 -> ticket 3
next 0 -> frame method 1 basic.recover 0
ticket 3 -> pending
recv method 1 basic.recover-ok -> received
ticket 3 -> answer done

# `confirm.select`
= opened
call 1 confirm.select 0 -> ticket 2
next 0 -> frame method 1 confirm.select 0
ticket 2 -> pending
recv method 1 confirm.select-ok -> received
ticket 2 -> answer done
call 1 confirm.select 1 -> ticket 3
ticket 3 -> answer done
next 0 -> frame method 1 confirm.select 1
recv method 1 confirm.select-ok -> refused UnexpectedFrame 85 11

# The three of the class tx.
= opened
call 1 tx.select -> ticket 2
next 0 -> frame method 1 tx.select
ticket 2 -> pending
recv method 1 tx.select-ok -> received
ticket 2 -> answer done
call 1 tx.commit -> ticket 3
next 0 -> frame method 1 tx.commit
ticket 3 -> pending
recv method 1 tx.commit-ok -> received
ticket 3 -> answer done
call 1 tx.rollback -> ticket 4
next 0 -> frame method 1 tx.rollback
ticket 4 -> pending
recv method 1 tx.rollback-ok -> received
ticket 4 -> answer done

# `basic.ack`, `basic.nack`, `basic.reject` and `basic.recover-async` have no reply: they are done as they
# leave.
= opened
call 1 basic.ack 1 1 -> ticket 2
ticket 2 -> pending
next 0 -> frame method 1 basic.ack 1 1
ticket 2 -> answer done
call 1 basic.ack 18446744073709551615 0 -> ticket 3
ticket 3 -> pending
next 0 -> frame method 1 basic.ack 18446744073709551615 0
ticket 3 -> answer done
call 1 basic.nack 2 1 0 -> ticket 4
ticket 4 -> pending
next 0 -> frame method 1 basic.nack 2 1 0
ticket 4 -> answer done
call 1 basic.nack 3 0 1 -> ticket 5
ticket 5 -> pending
next 0 -> frame method 1 basic.nack 3 0 1
ticket 5 -> answer done
call 1 basic.reject 4 1 -> ticket 6
ticket 6 -> pending
next 0 -> frame method 1 basic.reject 4 1
ticket 6 -> answer done
call 1 basic.reject 5 0 -> ticket 7
ticket 7 -> pending
next 0 -> frame method 1 basic.reject 5 0
ticket 7 -> answer done
call 1 basic.recover-async 1 -> ticket 8
ticket 8 -> pending
next 0 -> frame method 1 basic.recover-async 1
ticket 8 -> answer done
call 1 basic.recover-async 0 -> ticket 9
ticket 9 -> pending
next 0 -> frame method 1 basic.recover-async 0
ticket 9 -> answer done
next 1 -> noframe
";
