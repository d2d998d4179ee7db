//! The scripts of confirms: calls, each with what it answers behind an arrow. `confirms` runs them, and says what its own words are.

// A publish that leaves before the select isn't confirmed; behind it tags count from 1, and another select changes nothing. A new
// opening counts anew, and confirm numbers go on.
pub const TAGS: &str = "\
    add 1 -> no opening
    begin 1 -> done
    limit 1 9 -> done
    called 1 -> done
    asked 1 -> yes
    selected 1 -> no
    publish 1 -> 1 -
    take 1 -> not requested -
    add 1 -> 2
    select 1 -> done
    selected 1 -> yes
    current 1 -> 0
    publish 1 -> 3 1
    publish 1 -> 4 2
    select 1 -> done
    reserve 1 -> done
    publish 1 -> 5 3
    begin 2 -> done
    select 2 -> done
    publish 2 -> 6 1
    current 1 -> 3
    pending 1 -> 3
    queued 1 -> 1
    queued 2 -> 0
    ready 2 -> no
    ready 3 -> no
    take 3 -> none
    begin 1 -> open
    end 1 lost -> done
    asked 1 -> no
    limit-of 1 -> 0
    pending 1 -> 0
    queued 1 -> 0
    take 2 -> failed ConnectionLost
    take 3 -> failed ConnectionLost
    ready 6 -> no
    begin 1 -> done
    selected 1 -> no
    current 1 -> 0
    select 1 -> done
    publish 1 -> 7 1
    take 4 -> failed ConnectionLost";

// What counts is the order of leaving: a publish that was added before the select left takes a tag where it leaves behind it, and of
// two the one that leaves first takes the lower tag.
pub const LEAVING: &str = "\
    begin 1 -> done
    called 1 -> done
    overtaken 1 -> 1 1
    crossed 1 -> 3 2 2 3
    pending 1 -> 3
    nack 1 2 -> done
    take 3 -> nack -
    take 2 -> none
    ack 1 3 -> done
    take 2 -> ack -
    publish 1 -> 4 4
    current 1 -> 4";

// A settlement covers its tag, or each up to it, or all; one of a tag that isn't pending is refused with the last one taken.
pub const SETTLEMENTS: &str = "\
    begin 1 -> done
    ack 1 1 -> PreconditionFailed 1 0
    select 1 -> done
    publish 1 -> 1 1
    publish 1 -> 2 2
    publish 1 -> 3 3
    publish 1 -> 4 4
    publish 1 -> 5 5
    publish 1 -> 6 6
    ack 1 7 -> PreconditionFailed 7 6
    ack 1 0 -> PreconditionFailed 0 6
    ack 2 1 -> PreconditionFailed 1 0
    pending 1 -> 6
    nack 1 2 -> done
    nack 1 2 -> PreconditionFailed 2 6
    ack-to 1 3 -> done
    pending 1 -> 3
    take 1 -> ack -
    take 2 -> nack -
    take 3 -> ack -
    take 4 -> none
    ack-to 1 3 -> done
    nack-to 1 4 -> done
    take 4 -> nack -
    ack-all 1 -> done
    pending 1 -> 0
    take 5 -> ack -
    take 6 -> ack -
    take 6 -> AlreadyTaken
    take 0 -> UnknownTicket
    take 7 -> UnknownTicket
    publish 1 -> 7 7
    ack-to 1 99 -> done
    take 7 -> ack -
    publish 1 -> 8 8
    nack-all 1 -> done
    take 8 -> nack -";

// The span reaches from the least pending tag to the last one taken; a channel is full at its limit, which 0 takes away.
pub const WINDOW: &str = "\
    begin 1 -> done
    called 1 -> done
    limit 1 2 -> done
    limit-of 1 -> 2
    full 1 -> no
    span 1 -> 0
    select 1 -> done
    publish 1 -> 1 1
    span 1 -> 1
    full 1 -> no
    publish 1 -> 2 2
    full 1 -> yes
    publish 1 -> 3 3
    span 1 -> 3
    full 1 -> yes
    full 2 -> no
    ack 1 2 -> done
    span 1 -> 3
    ack 1 1 -> done
    span 1 -> 1
    full 1 -> no
    limit 1 1 -> done
    full 1 -> yes
    limit 1 0 -> done
    full 1 -> no
    ack 1 3 -> done
    span 1 -> 0
    current 1 -> 3";

// Messages go to the confirms as these are settled, in rising tags, the oldest message first. A drain gives those of before the
// select, then those of confirms that were set aside when they were resolved, then those of confirms resolved after that.
pub const RETURNED: &str = "\
    begin 1 -> done
    limit 1 9 -> done
    arrived 1 a -> done
    select 1 -> done
    publish 1 -> 1 1
    publish 1 -> 2 2
    publish 1 -> 3 3
    publish 1 -> 4 4
    publish 1 -> 5 5
    arrived 1 b -> done
    arrived 1 c -> done
    arrived 1 d -> done
    arrived 1 e -> done
    nack 1 5 -> done
    take 5 -> nack b
    aside 3 -> done
    take 3 -> AlreadyTaken
    ready 3 -> yes
    aside 3 -> AlreadyTaken
    aside 2 -> done
    aside 9 -> UnknownTicket
    ack-to 1 3 -> done
    aside 1 -> done
    aside 1 -> AlreadyTaken
    drain 1 -> 4 a c e d
    drain 1 -> 0
    ack 1 4 -> done
    take 4 -> ack -
    drain 2 -> 0";

// A message that comes on a channel without any opening is unconfirmed, whatever else is called there: a drain of its channel gives it,
// and the first opening lets it go, that of its own channel alone.
pub const EARLY: &str = "\
    arrived 1 a -> done
    arrived 2 b -> done
    reserve 1 -> done
    reserve 2 -> done
    select 1 -> done
    arrived 1 c -> done
    ack-all 1 -> done
    drain 3 -> 0
    drain 1 -> 2 a c
    drain 1 -> 0
    arrived 1 d -> done
    arrived 2 e -> done
    begin 1 -> done
    drain 1 -> 0
    arrived 1 f -> done
    drain 2 -> 2 b e
    drain 1 -> 1 f";

// A message that waits at an end stays until the next opening begins, and none is left then.
pub const EMPTIED: &str = "\
    begin 1 -> done
    select 1 -> done
    publish 1 -> 1 1
    publish 1 -> 2 2
    publish 1 -> 3 3
    arrived 1 a -> done
    arrived 1 b -> done
    ack 1 1 -> done
    ack 1 2 -> done
    aside 1 -> done
    arrived 1 c -> done
    end 1 404 -> done
    take 3 -> failed ProtocolError 404
    drain 1 -> 1 a
    aside 2 -> done
    begin 1 -> done
    drain 1 -> 0
    select 1 -> done
    publish 1 -> 4 1
    ack 1 1 -> done
    take 4 -> ack -";

// A publish that is rejected has the error of its own, and takes no tag; an end fails what is open of its channel alone.
pub const REJECTS: &str = "\
    begin 1 -> done
    begin 2 -> done
    select 1 -> done
    select 2 -> done
    refuse 1 404 -> 1
    publish 1 -> 2 1
    publish 2 -> 3 1
    add 1 -> 4
    add 2 -> 5
    take 1 -> failed ProtocolError 404
    end 1 lost -> done
    take 2 -> failed ConnectionLost
    take 4 -> failed ConnectionLost
    take 3 -> none
    take 5 -> none
    ack 2 1 -> done
    take 3 -> ack -";

// An outcome alone is given once, and `take` then says so; it isn't given while there is none, of a confirm that was set aside, of a number
// that was never given, or where a message came back, which `take` gives with it.
pub const BARE: &str = "\
    begin 1 -> done
    called 1 -> done
    publish 1 -> 1 -
    bare 1 -> not requested
    bare 1 -> none
    take 1 -> AlreadyTaken
    select 1 -> done
    publish 1 -> 2 1
    publish 1 -> 3 2
    publish 1 -> 4 3
    publish 1 -> 5 4
    bare 0 -> none
    bare 9 -> none
    bare 2 -> none
    ack 1 1 -> done
    bare 2 -> ack
    take 2 -> AlreadyTaken
    bare 2 -> none
    nack 1 2 -> done
    bare 3 -> nack
    arrived 1 back -> done
    ack 1 3 -> done
    bare 4 -> none
    take 4 -> ack back
    aside 5 -> done
    ack 1 4 -> done
    bare 5 -> none
    publish 1 -> 6 5
    end 1 lost -> done
    bare 6 -> failed ConnectionLost
    take 6 -> AlreadyTaken";
