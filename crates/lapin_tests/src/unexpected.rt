//! Frames that no rule hears: the session closes the connection with 505.

pub const HISTORIES: &str = "
# A second open ok closes the connection
= opened
recv method 1 channel.open-ok -> refused UnexpectedFrame 20 11
next 1 -> frame method 0 connection.close 505 x554e45585045435445445f4652414d45 20 11
next 1 -> noframe
state 1 -> state closing down
recv method 1 channel.open-ok -> passed
call 0 connection.close 200 x -> refused InvalidChannelState down

# A request is taken by its reply: a second reply has none. Nor has one that comes after the end of
# the opening that asked.
= opened
call 1 confirm.select 0 -> ticket 2
call 1 channel.close 200 x -> ticket 3
recv method 1 confirm.select-ok -> received
ticket 2 -> answer done
recv method 1 confirm.select-ok -> refused UnexpectedFrame 85 11
ticket 3 -> error ProtocolError 505
next 1 -> frame method 0 connection.close 505 x554e45585045435445445f4652414d45 85 11

# Nor has a reply that comes after the end of the opening that asked.
= opened
call 1 confirm.select 0 -> ticket 2
recv method 1 channel.close 404 x 0 0 -> received
call 1 channel.open -> ticket 3
recv method 1 channel.open-ok -> received
ticket 3 -> answer channel 1
recv method 1 confirm.select-ok -> refused UnexpectedFrame 85 11
ticket 2 -> error ProtocolError 404

# The broker's close drops the session's close that hasn't left; one that has left still waits for
# close-ok, which drops one that hasn't. Nobody holds a ticket of it.
= opened
recv body 1 x -> refused UnexpectedFrame 0 0
recv method 0 connection.close 320 x 0 0 -> received
state 0 -> state closed down
next 1 -> frame method 0 connection.close-ok
next 1 -> noframe

# One that has left still waits for close-ok, and the two cross.
= opened
recv body 1 x -> refused UnexpectedFrame 0 0
next 1 -> frame method 0 connection.close 505 x554e45585045435445445f4652414d45 0 0
recv method 0 connection.close 320 x 0 0 -> received
state 0 -> state closing down
next 1 -> frame method 0 connection.close-ok
recv method 0 connection.close 320 x 0 0 -> passed
recv method 0 connection.close-ok -> received
state 0 -> state closed down
recv method 0 connection.close-ok -> passed
next 1 -> noframe

# close-ok drops one that hasn't left.
= opened
recv body 1 x -> refused UnexpectedFrame 0 0
recv method 0 connection.close-ok -> received
state 0 -> state closed down
next 1 -> noframe
recv method 0 connection.close 320 x 0 0 -> passed
next 1 -> noframe
";

/// Frames that an open channel 1 doesn't hear, with the class and method that the refusal names. A header has its class and
/// method 0, a body 0 and 0. Channel 0 hears the broker's close of the connection alone, which no other channel hears; a channel
/// that isn't open hears nothing of an open one, an open one no close-ok; a reply needs a request; what only a client sends is
/// never heard.
pub const OPEN: &str = "
header 1 60 5 [] -> 60 0
header 1 10 0 [] -> 10 0
header 0 60 0 [] -> 60 0
body 1 x61 -> 0 0
body 1 x -> 0 0
method 0 channel.open-ok -> 20 11
method 0 channel.close 404 x 0 0 -> 20 40
method 0 basic.ack 1 0 -> 60 80
method 0 connection.close-ok -> 10 51
method 1 connection.close 320 x 0 0 -> 10 50
method 1 connection.close-ok -> 10 51
method 2 channel.open-ok -> 20 11
method 2 channel.close 404 x 0 0 -> 20 40
method 2 channel.close-ok -> 20 41
method 2 basic.nack 1 0 0 -> 60 120
method 2 confirm.select-ok -> 85 11
method 1 channel.close-ok -> 20 41
method 1 confirm.select-ok -> 85 11
method 1 channel.open -> 20 10
method 1 confirm.select 0 -> 85 10
method 1 basic.publish x x71 0 0 -> 60 40
";

/// Frames that a channel which is being opened doesn't hear: it hears open-ok and a close alone.
pub const OPENING: &str = "
method 1 basic.ack 0 1 -> 60 80
method 1 basic.nack 0 1 0 -> 60 120
method 1 confirm.select-ok -> 85 11
method 1 channel.close-ok -> 20 41
";
