//! Events, and the calls and frames that they hold: a copy of each is the same as it, and no two that differ in one field are.
use crate::alike::{Alike, is_alike};
use lapin_text::read_event;
use lapin_types::{Event, NoMemory};
use std::alloc::Global;
use std::test::Fail;

// Two events a line, which differ in one field, or are of two kinds. The second is the first one of the next line.
const EVENTS: &str = "\
call 1 channel.open | call 2 channel.open
call 2 channel.open | call 0 connection.close 200 x62
call 0 connection.close 200 x62 | call 0 connection.close 201 x62
call 0 connection.close 201 x62 | call 0 connection.close 201 x63
call 0 connection.close 201 x63 | call 1 channel.close 200 x62
call 1 channel.close 200 x62 | call 1 channel.close 201 x62
call 1 channel.close 201 x62 | call 1 channel.close 201 x63
call 1 channel.close 201 x63 | call 1 channel.flow 0
call 1 channel.flow 0 | call 1 channel.flow 1
call 1 channel.flow 1 | call 1 access.request x62 0 0 0 0 0
call 1 access.request x62 0 0 0 0 0 | call 1 access.request x63 0 0 0 0 0
call 1 access.request x63 0 0 0 0 0 | call 1 access.request x63 1 0 0 0 0
call 1 access.request x63 1 0 0 0 0 | call 1 access.request x63 1 1 0 0 0
call 1 access.request x63 1 1 0 0 0 | call 1 access.request x63 1 1 1 0 0
call 1 access.request x63 1 1 1 0 0 | call 1 access.request x63 1 1 1 1 0
call 1 access.request x63 1 1 1 1 0 | call 1 access.request x63 1 1 1 1 1
call 1 access.request x63 1 1 1 1 1 | call 1 exchange.declare x62 x746f706963 0 0 0 0 0 {}
call 1 exchange.declare x62 x746f706963 0 0 0 0 0 {} | call 1 exchange.declare x63 x746f706963 0 0 0 0 0 {}
call 1 exchange.declare x63 x746f706963 0 0 0 0 0 {} | call 1 exchange.declare x63 x78 0 0 0 0 0 {}
call 1 exchange.declare x63 x78 0 0 0 0 0 {} | call 1 exchange.declare x63 x79 0 0 0 0 0 {}
call 1 exchange.declare x63 x79 0 0 0 0 0 {} | call 1 exchange.declare x63 x79 1 0 0 0 0 {}
call 1 exchange.declare x63 x79 1 0 0 0 0 {} | call 1 exchange.declare x63 x79 1 1 0 0 0 {}
call 1 exchange.declare x63 x79 1 1 0 0 0 {} | call 1 exchange.declare x63 x79 1 1 1 0 0 {}
call 1 exchange.declare x63 x79 1 1 1 0 0 {} | call 1 exchange.declare x63 x79 1 1 1 1 0 {}
call 1 exchange.declare x63 x79 1 1 1 1 0 {} | call 1 exchange.declare x63 x79 1 1 1 1 1 {}
call 1 exchange.declare x63 x79 1 1 1 1 1 {} | call 1 exchange.declare x63 x79 1 1 1 1 1 {x61=V}
call 1 exchange.declare x63 x79 1 1 1 1 1 {x61=V} | call 1 exchange.declare x63 x79 1 1 1 1 1 {x61=I1}
call 1 exchange.declare x63 x79 1 1 1 1 1 {x61=I1} | call 1 exchange.delete x62 0 0
call 1 exchange.delete x62 0 0 | call 1 exchange.delete x63 0 0
call 1 exchange.delete x63 0 0 | call 1 exchange.delete x63 1 0
call 1 exchange.delete x63 1 0 | call 1 exchange.delete x63 1 1
call 1 exchange.delete x63 1 1 | call 1 exchange.bind x62 x62 x62 0 {}
call 1 exchange.bind x62 x62 x62 0 {} | call 1 exchange.bind x63 x62 x62 0 {}
call 1 exchange.bind x63 x62 x62 0 {} | call 1 exchange.bind x63 x63 x62 0 {}
call 1 exchange.bind x63 x63 x62 0 {} | call 1 exchange.bind x63 x63 x63 0 {}
call 1 exchange.bind x63 x63 x63 0 {} | call 1 exchange.bind x63 x63 x63 1 {}
call 1 exchange.bind x63 x63 x63 1 {} | call 1 exchange.bind x63 x63 x63 1 {x61=A[V]}
call 1 exchange.bind x63 x63 x63 1 {x61=A[V]} | call 1 exchange.unbind x63 x63 x63 1 {x61=A[V]}
call 1 exchange.unbind x63 x63 x63 1 {x61=A[V]} | call 1 exchange.unbind x62 x63 x63 1 {x61=A[V]}
call 1 exchange.unbind x62 x63 x63 1 {x61=A[V]} | call 1 exchange.unbind x62 x62 x63 1 {x61=A[V]}
call 1 exchange.unbind x62 x62 x63 1 {x61=A[V]} | call 1 exchange.unbind x62 x62 x62 1 {x61=A[V]}
call 1 exchange.unbind x62 x62 x62 1 {x61=A[V]} | call 1 exchange.unbind x62 x62 x62 0 {x61=A[V]}
call 1 exchange.unbind x62 x62 x62 0 {x61=A[V]} | call 1 exchange.unbind x62 x62 x62 0 {x61=A[V,V]}
call 1 exchange.unbind x62 x62 x62 0 {x61=A[V,V]} | call 1 queue.declare x62 0 0 0 0 0 {}
call 1 queue.declare x62 0 0 0 0 0 {} | call 1 queue.declare x63 0 0 0 0 0 {}
call 1 queue.declare x63 0 0 0 0 0 {} | call 1 queue.declare x63 1 0 0 0 0 {}
call 1 queue.declare x63 1 0 0 0 0 {} | call 1 queue.declare x63 1 1 0 0 0 {}
call 1 queue.declare x63 1 1 0 0 0 {} | call 1 queue.declare x63 1 1 1 0 0 {}
call 1 queue.declare x63 1 1 1 0 0 {} | call 1 queue.declare x63 1 1 1 1 0 {}
call 1 queue.declare x63 1 1 1 1 0 {} | call 1 queue.declare x63 1 1 1 1 1 {}
call 1 queue.declare x63 1 1 1 1 1 {} | call 1 queue.declare x63 1 1 1 1 1 {x61=F{}}
call 1 queue.declare x63 1 1 1 1 1 {x61=F{}} | call 1 queue.bind x62 x62 x62 0 {}
call 1 queue.bind x62 x62 x62 0 {} | call 1 queue.bind x63 x62 x62 0 {}
call 1 queue.bind x63 x62 x62 0 {} | call 1 queue.bind x63 x63 x62 0 {}
call 1 queue.bind x63 x63 x62 0 {} | call 1 queue.bind x63 x63 x63 0 {}
call 1 queue.bind x63 x63 x63 0 {} | call 1 queue.bind x63 x63 x63 1 {}
call 1 queue.bind x63 x63 x63 1 {} | call 1 queue.bind x63 x63 x63 1 {x61=t1}
call 1 queue.bind x63 x63 x63 1 {x61=t1} | call 1 queue.purge x62 0
call 1 queue.purge x62 0 | call 1 queue.purge x63 0
call 1 queue.purge x63 0 | call 1 queue.purge x63 1
call 1 queue.purge x63 1 | call 1 queue.delete x62 0 0 0
call 1 queue.delete x62 0 0 0 | call 1 queue.delete x63 0 0 0
call 1 queue.delete x63 0 0 0 | call 1 queue.delete x63 1 0 0
call 1 queue.delete x63 1 0 0 | call 1 queue.delete x63 1 1 0
call 1 queue.delete x63 1 1 0 | call 1 queue.delete x63 1 1 1
call 1 queue.delete x63 1 1 1 | call 1 queue.unbind x62 x62 x62 {}
call 1 queue.unbind x62 x62 x62 {} | call 1 queue.unbind x63 x62 x62 {}
call 1 queue.unbind x63 x62 x62 {} | call 1 queue.unbind x63 x63 x62 {}
call 1 queue.unbind x63 x63 x62 {} | call 1 queue.unbind x63 x63 x63 {}
call 1 queue.unbind x63 x63 x63 {} | call 1 queue.unbind x63 x63 x63 {x61=S62}
call 1 queue.unbind x63 x63 x63 {x61=S62} | call 1 queue.unbind x63 x63 x63 {x61=y62}
call 1 queue.unbind x63 x63 x63 {x61=y62} | call 1 basic.qos 1 0
call 1 basic.qos 1 0 | call 1 basic.qos 2 0
call 1 basic.qos 2 0 | call 1 basic.qos 2 1
call 1 basic.qos 2 1 | call 1 basic.consume x62 x62 0 0 0 0 {}
call 1 basic.consume x62 x62 0 0 0 0 {} | call 1 basic.consume x63 x62 0 0 0 0 {}
call 1 basic.consume x63 x62 0 0 0 0 {} | call 1 basic.consume x63 x63 0 0 0 0 {}
call 1 basic.consume x63 x63 0 0 0 0 {} | call 1 basic.consume x63 x63 1 0 0 0 {}
call 1 basic.consume x63 x63 1 0 0 0 {} | call 1 basic.consume x63 x63 1 1 0 0 {}
call 1 basic.consume x63 x63 1 1 0 0 {} | call 1 basic.consume x63 x63 1 1 1 0 {}
call 1 basic.consume x63 x63 1 1 1 0 {} | call 1 basic.consume x63 x63 1 1 1 1 {}
call 1 basic.consume x63 x63 1 1 1 1 {} | call 1 basic.consume x63 x63 1 1 1 1 {x61=T1}
call 1 basic.consume x63 x63 1 1 1 1 {x61=T1} | call 1 basic.cancel x62 0
call 1 basic.cancel x62 0 | call 1 basic.cancel x63 0
call 1 basic.cancel x63 0 | call 1 basic.cancel x63 1
call 1 basic.cancel x63 1 | call 1 basic.publish x62 x62 0 0 x []
call 1 basic.publish x62 x62 0 0 x [] | call 1 basic.publish x63 x62 0 0 x []
call 1 basic.publish x63 x62 0 0 x [] | call 1 basic.publish x63 x63 0 0 x []
call 1 basic.publish x63 x63 0 0 x [] | call 1 basic.publish x63 x63 1 0 x []
call 1 basic.publish x63 x63 1 0 x [] | call 1 basic.publish x63 x63 1 1 x []
call 1 basic.publish x63 x63 1 1 x [] | call 1 basic.publish x63 x63 1 1 x61 []
call 1 basic.publish x63 x63 1 1 x61 [] | call 1 basic.publish x63 x63 1 1 x61 [priority=1]
call 1 basic.publish x63 x63 1 1 x61 [priority=1] | call 1 basic.publish x63 x63 1 1 x61 [headers={}]
call 1 basic.publish x63 x63 1 1 x61 [headers={}] | call 1 basic.get x62 0
call 1 basic.get x62 0 | call 1 basic.get x63 0
call 1 basic.get x63 0 | call 1 basic.get x63 1
call 1 basic.get x63 1 | call 1 basic.ack 1 0
call 1 basic.ack 1 0 | call 1 basic.ack 2 0
call 1 basic.ack 2 0 | call 1 basic.ack 2 1
call 1 basic.ack 2 1 | call 1 basic.nack 1 0 0
call 1 basic.nack 1 0 0 | call 1 basic.nack 2 0 0
call 1 basic.nack 2 0 0 | call 1 basic.nack 2 1 0
call 1 basic.nack 2 1 0 | call 1 basic.nack 2 1 1
call 1 basic.nack 2 1 1 | call 1 basic.reject 1 0
call 1 basic.reject 1 0 | call 1 basic.reject 2 0
call 1 basic.reject 2 0 | call 1 basic.reject 2 1
call 1 basic.reject 2 1 | call 1 basic.recover-async 0
call 1 basic.recover-async 0 | call 1 basic.recover-async 1
call 1 basic.recover-async 1 | call 1 basic.recover 1
call 1 basic.recover 1 | call 1 basic.recover 0
call 1 basic.recover 0 | call 1 confirm.select 0
call 1 confirm.select 0 | call 1 confirm.select 1
call 1 confirm.select 1 | call 1 tx.select
call 1 tx.select | call 1 tx.commit
call 1 tx.commit | call 1 tx.rollback
call 1 tx.rollback | next 0
next 0 | next 1
next 1 | recv method 1 basic.get-empty
recv method 1 basic.get-empty | recv method 2 basic.get-empty
recv method 2 basic.get-empty | recv method 2 basic.qos-ok
recv method 2 basic.qos-ok | recv method 2 basic.deliver x62 1 0 x62 x62
recv method 2 basic.deliver x62 1 0 x62 x62 | recv method 2 basic.deliver x63 1 0 x62 x62
recv method 2 basic.deliver x63 1 0 x62 x62 | recv method 2 basic.deliver x63 2 0 x62 x62
recv method 2 basic.deliver x63 2 0 x62 x62 | recv method 2 basic.deliver x63 2 1 x62 x62
recv method 2 basic.deliver x63 2 1 x62 x62 | recv method 2 basic.deliver x63 2 1 x63 x62
recv method 2 basic.deliver x63 2 1 x63 x62 | recv method 2 basic.deliver x63 2 1 x63 x63
recv method 2 basic.deliver x63 2 1 x63 x63 | recv header 1 60 1 []
recv header 1 60 1 [] | recv header 2 60 1 []
recv header 2 60 1 [] | recv header 2 50 1 []
recv header 2 50 1 [] | recv header 2 50 2 []
recv header 2 50 2 [] | recv header 2 50 2 [kind=x]
recv header 2 50 2 [kind=x] | recv body 1 x61
recv body 1 x61 | recv body 2 x61
recv body 2 x61 | recv body 2 x62
recv body 2 x62 | ticket 1
ticket 1 | ticket 2
ticket 2 | confirm 2
confirm 2 | consumer 2
consumer 2 | wait 2
wait 2 | wait 3
wait 3 | aside-ticket 3
aside-ticket 3 | aside-confirm 3
aside-confirm 3 | acker 3 ack 0
acker 3 ack 0 | acker 4 ack 0
acker 4 ack 0 | acker 4 ack 1
acker 4 ack 1 | acker 4 nack 1 0
acker 4 nack 1 0 | acker 4 nack 0 0
acker 4 nack 0 0 | acker 4 reject 0
acker 4 reject 0 | acker 4 reject 1
acker 4 reject 1 | delegate 4
delegate 4 | drop 4
drop 4 | job
job | state 4
state 4 | state 5
state 5 | lost
";

impl Alike for Event {
    fn made(alloc: Global, words: &str) -> Result<Event, Fail> {
        match read_event(alloc, words.as_bytes()) {
            Ok(Some(event)) => Ok(event),
            Ok(None) => Err(Fail::from("no line of an event")),
            Err(error) => Err(Fail::from(error)),
        }
    }

    fn copied(&self, alloc: Global) -> Result<Event, NoMemory> {
        self.try_clone(alloc)
    }

    fn is_same(&self, other: &Event) -> bool {
        self.same(other)
    }
}

#[test]
fn an_event_is_the_same_as_its_copy_alone(rt: HostRuntime) -> Result<(), Fail> {
    for line in EVENTS.lines() {
        let (event, other) = line.split_once(" | ").ok_or("an event is missing")?;
        assert!(rt; is_alike::<Event>(rt.alloc(), event, event)?, "at {line}");
        assert!(rt; !is_alike::<Event>(rt.alloc(), event, other)?, "at {line}");
    }
    Ok(())
}
