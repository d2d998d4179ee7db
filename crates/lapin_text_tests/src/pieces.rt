//! Pieces of lines, each with what is read of it, by the format's rules.

pub const PIECES: &str = "
num 0 -> 0
num 10 -> 10
num 18446744073709551615 -> 18446744073709551615
num  -> none
num 00 -> none
num 01 -> none
num +1 -> none
num -0 -> none
num 1  -> none
num 18446744073709551616 -> none
num 1a -> none

u8 255 -> 255
u8 256 -> none
u16 65535 -> 65535
u16 65536 -> none
u32 4294967295 -> 4294967295
u32 4294967296 -> none
u64 7 -> 7
u64 -7 -> none

i8 -128 -> -128
i8 -129 -> none
i8 127 -> 127
i8 128 -> none
i16 -32768 -> -32768
i16 32768 -> none
i32 2147483647 -> 2147483647
i32 -2147483649 -> none
i64 -9223372036854775808 -> -9223372036854775808
i64 9223372036854775808 -> none
i64 -0 -> none
i64 - -> none
i64 --1 -> none
i64 +1 -> none
i64 -01 -> none

flag 0 -> 0
flag 1 -> 1
flag 2 -> none
flag 01 -> none

bytes x -> []
bytes x0aff -> [10, 255]
bytes  -> none
bytes 00 -> none
bytes x0 -> none
bytes xFF -> none
bytes xfg -> none
bytes X00 -> none

short x -> 
short x68c3bc -> hü
short xff -> none
short x6G -> none
short 61 -> none

table {} -> kept
table {x61=I-1,x62=F{}} -> kept
table {x=V,x61=A[],x6162=A[t0,t1,V]} -> kept
table {x61=b-128,x62=B255,x63=s-32768,x64=u65535,x65=i4294967295} -> kept
table {x61=l-1,x62=T0,x63=S00ff,x64=y} -> kept
table {x61=A[A[F{x62=A[]}],F{x=I0,x00=I0}]} -> kept
table {x=F{x=F{x=F{x=F{x=F{x=F{x=A[]}}}}}}} -> kept
table {x=F{x=F{x=F{x=F{x=F{x=F{x=F{x=A[]}}}}}}}} -> none
table  -> none
table { -> none
table {}} -> none
table {,} -> none
table {x61=V,} -> none
table {x61=V,x61=V} -> none
table {x62=V,x61=V} -> none
table {x61=V,x=V} -> none
table {61=V} -> none
table {xff=V} -> none
table {x61=I01} -> none
table {x61=I-0} -> none
table {x61=b-129} -> none
table {x61=B256} -> none
table {x61=t2} -> none
table {x61=V0} -> none
table {x61=S0A} -> none
table {x61=A[V,]} -> none
table {x61=z} -> none

properties [] -> kept
properties [content_type=x61,content_encoding=x62,headers={x63=V},delivery_mode=2] -> kept
properties [priority=0,correlation_id=x64,reply_to=x65,expiration=x66] -> kept
properties [message_id=x67,timestamp=18446744073709551615,kind=x68] -> kept
properties [user_id=x69,app_id=x6a,cluster_id=x6b] -> kept
properties [headers={}] -> kept
properties  -> none
properties [ -> none
properties []] -> none
properties [,] -> none
properties [priority=1,] -> none
properties [priority=256] -> none
properties [priority=1,priority=1] -> none
properties [priority=1,delivery_mode=1] -> none
properties [type=x61] -> none
properties [Priority=1] -> none
properties [kind=61] -> none
properties [headers=x61] -> none

method basic.publish x x68656c6c6f 0 0 -> kept
method basic.deliver x74 18446744073709551615 1 x x71 -> kept
method basic.nack 3 0 1 -> kept
method basic.get x71 1 -> kept
method basic.get-ok 7 1 x x71 4294967295 -> kept
method basic.get-empty -> kept
method connection.close 320 x6279 10 50 -> kept
method channel.flow 0 -> kept
method access.request x2f 0 1 0 1 1 -> kept
method confirm.select 0 -> kept
method tx.rollback-ok -> kept
method confirm.limit 1 -> none
method basic.try-publish x x68656c6c6f 0 0 -> none
method exchange.declare x6c x66 0 1 0 0 0 {} -> kept
method exchange.unbind-ok -> kept
method queue.declare x71 0 0 0 0 0 {x61=I-1,x62=F{}} -> kept
method queue.declare-ok x71 5 4294967295 -> kept
method connection.close-ok -> kept
method channel.open -> kept
method channel.open-ok -> kept
method channel.flow-ok 0 -> kept
method channel.close 2 x64 4 5 -> kept
method channel.close-ok -> kept
method access.request-ok -> kept
method exchange.declare-ok -> kept
method exchange.delete x67 0 1 -> kept
method exchange.delete-ok -> kept
method exchange.bind x6a x6b x6c 0 {x65=I13} -> kept
method exchange.bind-ok -> kept
method exchange.unbind x6f x70 x71 0 {x61=I18} -> kept
method queue.bind x74 x75 x76 0 {x66=I23} -> kept
method queue.bind-ok -> kept
method queue.purge x79 0 -> kept
method queue.purge-ok 26 -> kept
method queue.delete x62 0 1 0 -> kept
method queue.delete-ok 31 -> kept
method queue.unbind x67 x68 x69 {x69=I35} -> kept
method queue.unbind-ok -> kept
method basic.qos 36 0 -> kept
method basic.qos-ok -> kept
method basic.consume x6d x6e 0 1 0 1 {x69=I44} -> kept
method basic.consume-ok x74 -> kept
method basic.cancel x75 0 -> kept
method basic.cancel-ok x77 -> kept
method basic.return 49 x79 x7a x61 -> kept
method basic.ack 53 0 -> kept
method basic.reject 55 0 -> kept
method basic.recover-async 0 -> kept
method basic.recover 0 -> kept
method basic.recover-ok -> kept
method confirm.select-ok -> kept
method tx.select -> kept
method tx.select-ok -> kept
method tx.commit -> kept
method tx.commit-ok -> kept
method tx.rollback -> kept
method  -> none
method basic.Publish x x 0 0 -> none
method basic.publish x x 0 -> none
method basic.publish x  x 0 0 -> none
method basic.ack 18446744073709551616 0 -> none
method basic.get x71 -> none
method basic.get-ok 7 1 x x71 4294967296 -> none
method queue.purge-ok 07 -> none

frame method 0 confirm.select-ok -> kept
frame header 1 60 5000 [priority=42] -> kept
frame header 2 90 0 [headers={x61=A[t1,F{x62=V}]},app_id=x6a] -> kept
frame body 65535 x00ff -> kept
frame body 65536 x -> none
frame body 1 x  -> none
frame header 1 60 [] -> none
frame method 1 -> none
frame Body 1 x -> none
frame method 1 confirm.limit 1 -> none
frame method 1 basic.try-publish x x68656c6c6f 0 0 -> none
frame method 1 basic.try-publish x x68656c6c6f 0 0 x [] -> none
frame  -> none

event call 1 basic.publish x x68656c6c6f 1 0 x6869 [] -> read
event call 1 basic.try-publish x x68656c6c6f 1 0 x6869 [] -> read
event call 65535 basic.try-publish x65 x6b 0 1 x [headers={},delivery_mode=2] -> read
event call 1 confirm.limit 0 -> read
event call 65535 confirm.limit 18446744073709551615 -> read
event call 0 channel.open -> read
event call 65535 confirm.select 1 -> read
event call 1 channel.close 65535 x676f6e65 -> read
event call 0 connection.close 200 x -> read
event call 65535 basic.get x71 1 -> read
event call 1 basic.get x 0 -> read
event call 1 basic.consume x71 x74 0 0 0 0 {} -> read
event call 65535 basic.consume x x 1 1 1 1 {x61=I-1} -> read
event call 1 basic.cancel x74 0 -> read
event call 1 basic.cancel x 1 -> read
event recv method 1 channel.open-ok -> read
event recv method 1 basic.cancel x74 1 -> read
event recv method 1 basic.get-ok 7 0 x x 0 -> read
event next 1 -> read
event ticket 0 -> read
event confirm 18446744073709551615 -> read
event consumer 0 -> read
event consumer 18446744073709551615 -> read
event wait 0 -> read
event wait 65535 -> read
event aside-ticket 18446744073709551615 -> read
event aside-confirm 0 -> read
event aside-confirm 18446744073709551615 -> read
event acker 0 ack 0 -> read
event acker 18446744073709551615 ack 1 -> read
event acker 1 nack 0 1 -> read
event acker 1 nack 1 0 -> read
event acker 1 reject 0 -> read
event acker 1 reject 1 -> read
event delegate 0 -> read
event delegate 18446744073709551615 -> read
event drop 0 -> read
event drop 18446744073709551615 -> read
event job -> read
event state 65535 -> read
event lost -> read
event  -> none
event lost 1 -> none
event state -> none
event state 65536 -> none
event call 0 connection.close 200 -> none
event call 1 channel.close 65536 x -> none
event call 1 channel.close 200 x 0 0 -> none
event call 65536 channel.open -> none
event call 1 basic.publish x x 0 0 x -> none
event call 1 basic.try-publish -> none
event call 1 basic.try-publish x x 0 0 -> none
event call 1 basic.try-publish x x 0 0 x -> none
event call 1 basic.try-publish x x 0 0 [] x -> none
event call 1 basic.try-publish x x 0 0 x [] 0 -> none
event call 1 basic.try-publish x x 0 2 x [] -> none
event call 1 basic.try-publish x x 0 x [] -> none
event call 1 basic.try-publish x 68 0 0 x [] -> none
event call 1 basic.try-publish xff x 0 0 x [] -> none
event call 65536 basic.try-publish x x 0 0 x [] -> none
event call 1 basic.try_publish x x 0 0 x [] -> none
event call 1 basic.Try-publish x x 0 0 x [] -> none
event call 1 try-publish x x 0 0 x [] -> none
event call 1 confirm.limit -> none
event call 1 confirm.limit x -> none
event call 1 confirm.limit 01 -> none
event call 1 confirm.limit -1 -> none
event call 1 confirm.limit 18446744073709551616 -> none
event call 1 confirm.limit 1 1 -> none
event call 1 confirm.limit  1 -> none
event call 65536 confirm.limit 1 -> none
event call 1 confirm.limits 1 -> none
event call 1 Confirm.limit 1 -> none
event call 1 confirm.limit-ok -> none
event confirm.limit 1 -> none
event recv method 1 confirm.limit 1 -> none
event recv method 1 basic.try-publish x x 0 0 -> none
event recv method 1 basic.try-publish x x 0 0 x [] -> none
event call 1 basic.get x71 -> none
event call 1 basic.get x71 2 -> none
event call 1 basic.get 71 0 -> none
event call 1 basic.get x71 0 0 -> none
event call 1 basic.get-ok 7 0 x x 0 -> none
event call 1 basic.consume x71 x74 0 0 0 0 -> none
event call 1 basic.consume x71 x74 0 0 0 {} -> none
event call 1 basic.consume x71 x74 0 0 0 2 {} -> none
event call 1 basic.consume x71 74 0 0 0 0 {} -> none
event call 1 basic.consume x71 x74  0 0 0 0 {} -> none
event call 1 basic.consume x71 x74 0 0 0 0 {} 0 -> none
event call 65536 basic.consume x71 x74 0 0 0 0 {} -> none
event call 1 basic.consume-ok x74 -> none
event call 1 basic.cancel x74 -> none
event call 1 basic.cancel x74 2 -> none
event call 1 basic.cancel x74 0 0 -> none
event call 1 basic.cancel 74 0 -> none
event call 1 basic.cancel-ok x74 -> none
event recv channel.open-ok -> none
event wait -> none
event wait  -> none
event wait x -> none
event wait 01 -> none
event wait 65536 -> none
event wait 1 1 -> none
event Wait 1 -> none
event aside-confirm -> none
event aside-confirm x -> none
event aside-confirm 18446744073709551616 -> none
event aside-confirm 1 1 -> none
event aside_confirm 1 -> none
event aside 1 -> none
event Next 1 -> none
event consumer -> none
event consumer x -> none
event consumer 01 -> none
event consumer 18446744073709551616 -> none
event consumer 1 1 -> none
event consumers 1 -> none
event acker -> none
event acker 1 -> none
event acker 1 ack -> none
event acker 1 ack 2 -> none
event acker 1 ack 0 1 -> none
event acker 1  ack 0 -> none
event acker 1 ack  0 -> none
event acker 18446744073709551616 ack 0 -> none
event acker ack 0 -> none
event acker 1 Ack 0 -> none
event acker 1 basic.ack 0 -> none
event acker 1 nack -> none
event acker 1 nack 0 -> none
event acker 1 nack 0 2 -> none
event acker 1 nack 0 1 1 -> none
event acker 1 reject -> none
event acker 1 reject x -> none
event acker 1 reject 0 1 -> none
event acker 1 job -> none
event ack 0 -> none
event nack 0 1 -> none
event reject 0 -> none
event delegate -> none
event delegate 01 -> none
event delegate 18446744073709551616 -> none
event delegate 1 1 -> none
event delegated 1 -> none
event drop -> none
event drop -1 -> none
event drop 18446744073709551616 -> none
event drop 1 1 -> none
event dropped 1 -> none
event job 1 -> none
event job  -> none
event Job -> none
event nojob -> none
";
