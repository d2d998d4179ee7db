//! The cases: bad words and bad inputs, and what is told on standard error.

/// Each case once, a blank line apart: the words, behind ` | ` the input where there is one, and in the next line what is told. In an
/// input `\n` stands for a line feed and `\r` for a carriage return.
pub const CASES: &str = r"sesion
lapin: `sesion` is no command; --help lists the commands

generate 0
lapin: behind generate one number stands, from 1 to 10000; --help generate says more

session now
lapin: behind session no other word stands; --help session says more

call
lapin: behind call one word stands, a queue of 1 to 255 bytes; --help call says more

shared 65
lapin: behind shared one number stands, from 1 to 64; --help shared says more

pool
lapin: behind pool one number stands, from 1 to 64; --help pool says more

generate ten
lapin: behind generate one number stands, from 1 to 10000; --help generate says more

--help sesion
lapin: `sesion` is no command; --help lists the commands

--help session now
lapin: behind session no other word stands; --help session says more

session
lapin: line 1: it is empty, or missing

session | \nframe_max 4096\n
lapin: line 1: it is empty, or missing

session | framemax 4096\n
lapin: line 1: token 1 is `framemax`, and frame_max is wanted there; the form is `frame_max size`

session | frame_max\n
lapin: line 1: it ends too early, and size is wanted there: a number from 4096 to 4294967295; the form is `frame_max size`

session | frame_max 4095\n
lapin: line 1: token 2 is `4095`, and size is wanted there: a number from 4096 to 4294967295; the form is `frame_max size`

session | frame_max 04096\n
lapin: line 1: token 2 is `04096`, and size is wanted there: a number from 4096 to 4294967295; the form is `frame_max size`

session | frame_max 4096 1\n
lapin: line 1: token 3 is `1`, and the line should end before it; the form is `frame_max size`

session | frame_max 4096\r\n
lapin: line 1: a carriage return stands at its end; lines end by a line feed alone

session | frame_max 4096\nnext 1\n\nnext 1\n
lapin: line 3: it is empty, or missing

session | frame_max 4096\nnext 1\r\n
lapin: line 2: a carriage return stands at its end; lines end by a line feed alone

session | frame_max 4096\nnext  1\n
lapin: line 2: token 2 is empty, since a space stands at an end or beside another, and flow is wanted there: 0 or 1; the form is `next flow`

session | frame_max 4096\nnext 1 \n
lapin: line 2: token 3 is empty, since a space stands at an end or beside another, and the line should end before it; the form is `next flow`

session | frame_max 4096\nnext 2\n
lapin: line 2: token 2 is `2`, and flow is wanted there: 0 or 1; the form is `next flow`

session | frame_max 4096\nnext true\n
lapin: line 2: token 2 is `true`, and flow is wanted there: 0 or 1; the form is `next flow`

session | frame_max 4096\nNext 1\n
lapin: line 2: token 1 is `Next`, and call, next, recv, ticket, confirm, consumer, wait, aside-ticket, aside-confirm, acker, delegate, drop, job, state or lost is wanted there

session | frame_max 4096\nticket\n
lapin: line 2: it ends too early, and number is wanted there: a number from 0 to 18446744073709551615; the form is `ticket number`

session | frame_max 4096\nconfirm -1\n
lapin: line 2: token 2 is `-1`, and number is wanted there: a number from 0 to 18446744073709551615; the form is `confirm number`

session | frame_max 4096\nticket 18446744073709551616\n
lapin: line 2: token 2 is `18446744073709551616`, and number is wanted there: a number from 0 to 18446744073709551615; the form is `ticket number`

session | frame_max 4096\nlost now\n
lapin: line 2: token 2 is `now`, and the line should end before it; the form is `lost`

session | frame_max 4096\ncall 65536 channel.open\n
lapin: line 2: token 2 is `65536`, and channel is wanted there: a number from 0 to 65535; the form is `call channel`

session | frame_max 4096\ncall 1\n
lapin: line 2: it ends too early, and the name of a call is wanted there, as basic.publish; the form is `call channel`

session | frame_max 4096\ncall 1 queue.clear x71 0\n
lapin: line 2: token 3 is `queue.clear`, and the name of a call is wanted there, as basic.publish; the form is `call channel`

session | frame_max 4096\ncall 1 queue.declare-ok x71 0 0\n
lapin: line 2: token 3 is `queue.declare-ok`, and the name of a call is wanted there, as basic.publish; the form is `call channel`

session | frame_max 4096\ncall 1 channel.open\nnext 1\nrecv method 1 channel.open-ok\ncall 1 queue.purge hello 0\n
lapin: line 5: token 4 is `hello`, and queue is wanted there: x and the text's bytes of UTF-8 as pairs of the digits 0 to 9 and a to f, at most 255 bytes; the form is `call channel queue.purge queue nowait`

session | frame_max 4096\ncall 1 queue.purge x6F 0\n
lapin: line 2: token 4 is `x6F`, and queue is wanted there: x and the text's bytes of UTF-8 as pairs of the digits 0 to 9 and a to f, at most 255 bytes; the form is `call channel queue.purge queue nowait`

session | frame_max 4096\ncall 1 queue.purge x6 0\n
lapin: line 2: token 4 is `x6`, and queue is wanted there: x and the text's bytes of UTF-8 as pairs of the digits 0 to 9 and a to f, at most 255 bytes; the form is `call channel queue.purge queue nowait`

session | frame_max 4096\ncall 1 queue.purge xff 0\n
lapin: line 2: token 4 is `xff`, and queue is wanted there: x and the text's bytes of UTF-8 as pairs of the digits 0 to 9 and a to f, at most 255 bytes; the form is `call channel queue.purge queue nowait`

session | frame_max 4096\ncall 1 basic.qos 10 0 0\n
lapin: line 2: token 6 is `0`, and the line should end before it; the form is `call channel basic.qos prefetch_count global`

session | frame_max 4096\ncall 1 channel.close 200 x 0 0\n
lapin: line 2: token 6 is `0`, and the line should end before it; the form is `call channel channel.close reply_code reply_text`

session | frame_max 4096\ncall 1 basic.publish x x71 0 0 x68 [delivery_mode=2,content_type=x]\n
lapin: line 2: token 9 is `[delivery_mode=2,content_type=x]`, and properties is wanted there: [] or [name=value,..] in the order of the format; there `content_type=x` is wrong: each name stands once, in the order content_type, content_encoding, headers, delivery_mode, priority, correlation_id, reply_to, expiration, message_id, timestamp, kind, user_id, app_id, cluster_id; the form is `call channel basic.publish exchange routing_key mandatory immediate payload properties`

session | frame_max 4096\ncall 1 basic.publish x x71 0 0 x68\n
lapin: line 2: it ends too early, and properties is wanted there: [] or [name=value,..] in the order of the format; the form is `call channel basic.publish exchange routing_key mandatory immediate payload properties`

session | frame_max 4096\ncall 1 queue.declare x71 0 0 0 0 0 {x62=t1,x61=t1}\n
lapin: line 2: token 10 is `{x62=t1,x61=t1}`, and arguments is wanted there: {} or {STR=VALUE,..} with rising keys; there `x61=t1` is wrong: its key is not above the key before it; the form is `call channel queue.declare queue passive durable exclusive auto_delete nowait arguments`

session | frame_max 4096\nrecv 1 basic.ack 1 0\n
lapin: line 2: token 2 is `1`, and method, header or body is wanted there; the form is `recv ..`

session | frame_max 4096\nrecv method 1 basic.ack 1\n
lapin: line 2: it ends too early, and multiple is wanted there: 0 or 1; the form is `recv method channel basic.ack delivery_tag multiple`

session | frame_max 4096\nrecv method 1 basic.akc 1 0\n
lapin: line 2: token 4 is `basic.akc`, and a method's name is wanted there, as basic.ack; the form is `recv method channel`

session | frame_max 4096\nrecv body 1 68656c6c6f\n
lapin: line 2: token 4 is `68656c6c6f`, and payload is wanted there: x and the bytes as pairs of the digits 0 to 9 and a to f; the form is `recv body channel payload`

session | frame_max 4096\nrecv header 1 60 12\n
lapin: line 2: it ends too early, and properties is wanted there: [] or [name=value,..] in the order of the format; the form is `recv header channel class size properties`

session | frame_max 4096\nacker 1 acknowledge 0\n
lapin: line 2: token 3 is `acknowledge`, and ack, nack or reject is wanted there; the form is `acker number`

session | frame_max 4096\nacker 1 nack 0\n
lapin: line 2: it ends too early, and requeue is wanted there: 0 or 1; the form is `acker number nack multiple requeue`

session | frame_max 4096\naside 1\n
lapin: line 2: token 1 is `aside`, and call, next, recv, ticket, confirm, consumer, wait, aside-ticket, aside-confirm, acker, delegate, drop, job, state or lost is wanted there

joined | frame_max 4096\nnext 1\n
lapin: line 2: token 1 is `next`, and client, read, send, deliver or lose is wanted there

joined | frame_max 4096\nclient next 2\n
lapin: line 2: token 3 is `2`, and flow is wanted there: 0 or 1; the form is `client next flow`

joined | frame_max 4096\nsend body 1 68\n
lapin: line 2: token 4 is `68`, and payload is wanted there: x and the bytes as pairs of the digits 0 to 9 and a to f; the form is `send body channel payload`

joined | frame_max 4096\nread 1\n
lapin: line 2: token 2 is `1`, and the line should end before it; the form is `read`

check | frame_max 4096\nup method 1 basic.ack 1 0\nsent body 1 x\n
lapin: line 3: token 1 is `sent`, and up or down is wanted there

check | frame_max 4096\ndown method 1 channel.open-ok 1\n
lapin: line 2: token 5 is `1`, and the line should end before it; the form is `down method channel channel.open-ok`

resend | frame_max 4096\nsubmit x x71\n
lapin: line 2: it ends too early, and payload is wanted there: x and the bytes as pairs of the digits 0 to 9 and a to f; the form is `submit exchange routing_key payload`

resend | frame_max 4096\nnext 1\n
lapin: line 2: token 2 is `1`, and the line should end before it; the form is `next`

resend | frame_max 4096\nnext\nstatus one\n
lapin: line 3: token 2 is `one`, and number is wanted there: a number from 0 to 18446744073709551615; the form is `status number`

call rpc | frame_max 4096\nnext\n
lapin: line 2: it ends too early, and flow is wanted there: 0 or 1; the form is `next flow`

call rpc | frame_max 4096\nask x x71 hello\n
lapin: line 2: token 4 is `hello`, and payload is wanted there: x and the bytes as pairs of the digits 0 to 9 and a to f; the form is `ask exchange routing_key payload`

call rpc | frame_max 4096\ncall 1 channel.open\n
lapin: line 2: token 1 is `call`, and next, recv, lost, ask, collect or take is wanted there

session | frame_max 4096\ncall 1 basic.publish x x71 0 0 x68 [type=x61]\n
lapin: line 2: token 9 is `[type=x61]`, and properties is wanted there: [] or [name=value,..] in the order of the format; there `type=x61` is wrong: the names are content_type, content_encoding, headers, delivery_mode, priority, correlation_id, reply_to, expiration, message_id, timestamp, kind, user_id, app_id, cluster_id; the form is `call channel basic.publish exchange routing_key mandatory immediate payload properties`

session | frame_max 4096\ncall 1 basic.publish x x71 0 0 x68 [delivery_mode=300]\n
lapin: line 2: token 9 is `[delivery_mode=300]`, and properties is wanted there: [] or [name=value,..] in the order of the format; there `delivery_mode=300` is wrong: its value should be a number from 0 to 255; the form is `call channel basic.publish exchange routing_key mandatory immediate payload properties`

session | frame_max 4096\ncall 1 basic.publish x x71 0 0 x68 [delivery_mode=2,delivery_mode=2]\n
lapin: line 2: token 9 is `[delivery_mode=2,delivery_mode=2]`, and properties is wanted there: [] or [name=value,..] in the order of the format; there `delivery_mode=2` is wrong: each name stands once, in the order content_type, content_encoding, headers, delivery_mode, priority, correlation_id, reply_to, expiration, message_id, timestamp, kind, user_id, app_id, cluster_id; the form is `call channel basic.publish exchange routing_key mandatory immediate payload properties`

session | frame_max 4096\ncall 1 basic.publish x x71 0 0 x68 [content_type=text/plain]\n
lapin: line 2: token 9 is `[content_type=text/plain]`, and properties is wanted there: [] or [name=value,..] in the order of the format; there `content_type=text/plain` is wrong: its value should be x and the text's bytes of UTF-8 as pairs of the digits 0 to 9 and a to f, at most 255 bytes; the form is `call channel basic.publish exchange routing_key mandatory immediate payload properties`

session | frame_max 4096\ncall 1 basic.publish x x71 0 0 x68 [timestamp=-1]\n
lapin: line 2: token 9 is `[timestamp=-1]`, and properties is wanted there: [] or [name=value,..] in the order of the format; there `timestamp=-1` is wrong: its value should be a number from 0 to 18446744073709551615; the form is `call channel basic.publish exchange routing_key mandatory immediate payload properties`

session | frame_max 4096\ncall 1 basic.publish x x71 0 0 x68 [priority]\n
lapin: line 2: token 9 is `[priority]`, and properties is wanted there: [] or [name=value,..] in the order of the format; there `priority` is wrong: a name, = and a value are wanted; the form is `call channel basic.publish exchange routing_key mandatory immediate payload properties`

session | frame_max 4096\ncall 1 basic.publish x x71 0 0 x68 [priority=1,]\n
lapin: line 2: token 9 is `[priority=1,]`, and properties is wanted there: [] or [name=value,..] in the order of the format; there `` is wrong: a name, = and a value are wanted; the form is `call channel basic.publish exchange routing_key mandatory immediate payload properties`

session | frame_max 4096\ncall 1 basic.publish x x71 0 0 x68 [priority=1\n
lapin: line 2: token 9 is `[priority=1`, and properties is wanted there: [] or [name=value,..] in the order of the format; there `[priority=1` is wrong: it does not begin and end with its brackets; the form is `call channel basic.publish exchange routing_key mandatory immediate payload properties`

session | frame_max 4096\ncall 1 basic.publish x x71 0 0 x68 [headers={x61=t2},priority=1]\n
lapin: line 2: token 9 is `[headers={x61=t2},priority=1]`, and properties is wanted there: [] or [name=value,..] in the order of the format; there `x61=t2` is wrong: behind t stands 0 or 1; the form is `call channel basic.publish exchange routing_key mandatory immediate payload properties`

session | frame_max 4096\ncall 1 basic.publish x x71 0 0 x68 [headers=x61]\n
lapin: line 2: token 9 is `[headers=x61]`, and properties is wanted there: [] or [name=value,..] in the order of the format; there `x61` is wrong: it does not begin and end with its brackets; the form is `call channel basic.publish exchange routing_key mandatory immediate payload properties`

session | frame_max 4096\ncall 1 queue.declare x71 0 0 0 0 0 {61=t1}\n
lapin: line 2: token 10 is `{61=t1}`, and arguments is wanted there: {} or {STR=VALUE,..} with rising keys; there `61=t1` is wrong: its key is not x and the text's bytes of UTF-8 as pairs of the digits 0 to 9 and a to f, at most 255 bytes; the form is `call channel queue.declare queue passive durable exclusive auto_delete nowait arguments`

session | frame_max 4096\ncall 1 queue.declare x71 0 0 0 0 0 {x61=q1}\n
lapin: line 2: token 10 is `{x61=q1}`, and arguments is wanted there: {} or {STR=VALUE,..} with rising keys; there `x61=q1` is wrong: a value begins with one of the letters t b B s u I i l T S y F A V; the form is `call channel queue.declare queue passive durable exclusive auto_delete nowait arguments`

session | frame_max 4096\ncall 1 queue.declare x71 0 0 0 0 0 {x61=F{x62=A[i1,i-1]}}\n
lapin: line 2: token 10 is `{x61=F{x62=A[i1,i-1]}}`, and arguments is wanted there: {} or {STR=VALUE,..} with rising keys; there `i-1` is wrong: behind i stands a number from 0 to 4294967295; the form is `call channel queue.declare queue passive durable exclusive auto_delete nowait arguments`

session | frame_max 4096\ncall 1 queue.declare x71 0 0 0 0 0 {x61=V,x62=F{x63=t1,x63=t1}}\n
lapin: line 2: token 10 is `{x61=V,x62=F{x63=t1,x63=t1}}`, and arguments is wanted there: {} or {STR=VALUE,..} with rising keys; there `x63=t1` is wrong: its key is not above the key before it; the form is `call channel queue.declare queue passive durable exclusive auto_delete nowait arguments`

session | frame_max 4096\ncall 1 queue.declare x71 0 0 0 0 0 {x61=F{x61=F{x61=F{x61=F{x61=F{x61=F{x61=F{x61=F{x61=V}}}}}}}}}\n
lapin: line 2: token 10 is `{x61=F{x61=F{x61=F{x61=F{x61=F{x61=F{x61..`, and arguments is wanted there: {} or {STR=VALUE,..} with rising keys; there `{x61=V}` is wrong: tables and arrays nest eight levels deep at most; the form is `call channel queue.declare queue passive durable exclusive auto_delete nowait arguments`

joined | frame_max 4096\nclient recv body 1 68\n
lapin: line 2: token 5 is `68`, and payload is wanted there: x and the bytes as pairs of the digits 0 to 9 and a to f; the form is `client recv body channel payload`";
