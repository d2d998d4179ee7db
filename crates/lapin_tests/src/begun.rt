//! How histories begin: steps that a table names by `= NAME` in place of writing them out.

/// The steps of a name.
pub fn begun(name: &str) -> Option<&'static str> {
    match name {
        "opened" => Some(OPENED),
        "two opened" => Some(TWO_OPENED),
        "selected" => Some(SELECTED),
        "crossed" => Some(CROSSED),
        "each state" => Some(EACH_STATE),
        "every request" => Some(EVERY_REQUEST),
        "every request left" => Some(EVERY_REQUEST_LEFT),
        _ => None,
    }
}

// Channel 1 is opened. Ticket 1 is that of the open.
const OPENED: &str = "
call 1 channel.open -> ticket 1
next 1 -> frame method 1 channel.open
recv method 1 channel.open-ok -> received
";

// Channels 1 and 2 are opened. Tickets 1 and 2 are those of the opens.
const TWO_OPENED: &str = "
call 1 channel.open -> ticket 1
next 1 -> frame method 1 channel.open
recv method 1 channel.open-ok -> received
call 2 channel.open -> ticket 2
next 1 -> frame method 2 channel.open
recv method 2 channel.open-ok -> received
";

// Channel 1 is opened and selected. Ticket 2 is that of the select.
const SELECTED: &str = "
call 1 channel.open -> ticket 1
next 1 -> frame method 1 channel.open
recv method 1 channel.open-ok -> received
call 1 confirm.select 0 -> ticket 2
next 1 -> frame method 1 confirm.select 0
recv method 1 confirm.select-ok -> received
";

// Channel 1 is opened, and its closes cross. Ticket 2 is that of the own close; close-ok waits to leave.
const CROSSED: &str = "
call 1 channel.open -> ticket 1
next 1 -> frame method 1 channel.open
recv method 1 channel.open-ok -> received
call 1 channel.close 200 x -> ticket 2
next 1 -> frame method 1 channel.close 200 x 0 0
recv method 1 channel.close 404 x 0 0 -> received
state 1 -> state open crossed
ticket 2 -> pending
";

// Five channels: 1 is being opened; 2 is open, with a ticket that waits (6), a pending tag (confirm 1), a begun publish
// (ticket 10, confirm 2) and one that hasn't begun (ticket 11, confirm 3); 3 is closing and its close hasn't left (ticket 12);
// 4 is closing and its close has left (ticket 7); 5 is crossed (ticket 8), and its close-ok hasn't left.
const EACH_STATE: &str = "
call 1 channel.open -> ticket 1
call 2 channel.open -> ticket 2
call 3 channel.open -> ticket 3
call 4 channel.open -> ticket 4
call 5 channel.open -> ticket 5
next 1 -> frame method 1 channel.open
next 1 -> frame method 2 channel.open
next 1 -> frame method 3 channel.open
next 1 -> frame method 4 channel.open
next 1 -> frame method 5 channel.open
recv method 2 channel.open-ok -> received
recv method 3 channel.open-ok -> received
recv method 4 channel.open-ok -> received
recv method 5 channel.open-ok -> received
call 2 confirm.select 0 -> ticket 6
call 4 channel.close 200 x -> ticket 7
call 5 channel.close 200 x -> ticket 8
next 1 -> frame method 2 confirm.select 0
next 1 -> frame method 4 channel.close 200 x 0 0
next 1 -> frame method 5 channel.close 200 x 0 0
call 2 basic.publish x x71 0 0 x [] -> publish 9 1
call 2 basic.publish x x71 0 0 x616263 [] -> publish 10 2
call 2 basic.publish x x71 0 0 x [] -> publish 11 3
next 1 -> frame method 2 basic.publish x x71 0 0
next 1 -> frame header 2 60 0 []
next 1 -> frame method 2 basic.publish x x71 0 0
call 3 channel.close 200 x -> ticket 12
recv method 5 channel.close 404 x 0 0 -> received
state 1 -> state open opening
state 2 -> state open open
state 3 -> state open closing
state 4 -> state open closing
state 5 -> state open crossed
state 0 -> state open base
";

// Channel 1 is opened, and a call of each kind awaits its reply; none of their frames has left.
const EVERY_REQUEST: &str = "
call 1 channel.open -> ticket 1
next 1 -> frame method 1 channel.open
recv method 1 channel.open-ok -> received
call 1 channel.flow 1 -> ticket 2
call 1 access.request x2f 0 0 0 0 0 -> ticket 3
call 1 exchange.declare x65 x746f706963 0 0 0 0 0 {} -> ticket 4
call 1 exchange.delete x65 0 0 -> ticket 5
call 1 exchange.bind x64 x73 x6b 0 {} -> ticket 6
call 1 exchange.unbind x64 x73 x6b 0 {} -> ticket 7
call 1 queue.declare x71 0 0 0 0 0 {} -> ticket 8
call 1 queue.bind x71 x65 x6b 0 {} -> ticket 9
call 1 queue.purge x71 0 -> ticket 10
call 1 queue.delete x71 0 0 0 -> ticket 11
call 1 queue.unbind x71 x65 x6b {} -> ticket 12
call 1 basic.qos 1 0 -> ticket 13
call 1 basic.consume x71 x74 0 0 0 0 {} -> ticket 14
call 1 basic.cancel x74 0 -> ticket 15
call 1 basic.get x71 0 -> ticket 16
call 1 basic.recover 0 -> ticket 17
call 1 confirm.select 0 -> ticket 18
call 1 tx.select -> ticket 19
call 1 tx.commit -> ticket 20
call 1 tx.rollback -> ticket 21
";

// Behind that: channel 1 is closed by this side, and all these frames leave, the close last.
const EVERY_REQUEST_LEFT: &str = "
call 1 channel.close 200 x -> ticket 22
next 1 -> frame method 1 channel.flow 1
next 1 -> frame method 1 access.request x2f 0 0 0 0 0
next 1 -> frame method 1 exchange.declare x65 x746f706963 0 0 0 0 0 {}
next 1 -> frame method 1 exchange.delete x65 0 0
next 1 -> frame method 1 exchange.bind x64 x73 x6b 0 {}
next 1 -> frame method 1 exchange.unbind x64 x73 x6b 0 {}
next 1 -> frame method 1 queue.declare x71 0 0 0 0 0 {}
next 1 -> frame method 1 queue.bind x71 x65 x6b 0 {}
next 1 -> frame method 1 queue.purge x71 0
next 1 -> frame method 1 queue.delete x71 0 0 0
next 1 -> frame method 1 queue.unbind x71 x65 x6b {}
next 1 -> frame method 1 basic.qos 1 0
next 1 -> frame method 1 basic.consume x71 x74 0 0 0 0 {}
next 1 -> frame method 1 basic.cancel x74 0
next 1 -> frame method 1 basic.get x71 0
next 1 -> frame method 1 basic.recover 0
next 1 -> frame method 1 confirm.select 0
next 1 -> frame method 1 tx.select
next 1 -> frame method 1 tx.commit
next 1 -> frame method 1 tx.rollback
next 1 -> frame method 1 channel.close 200 x 0 0
";
