//! Each rule once, of frames that a broker doesn't read and of frames that it may not send; and accounts.
use crate::command::check::driver::shows_all;
use crate::command::check::examples::TRANSCRIPTS;
use std::alloc::AllocError;

#[test]
fn broken(rt: HostRuntime) -> Result<(), AllocError> {
    shows_all(&rt, BROKEN)
}

const BROKEN: &str = "\
# a second close while the first is unanswered
up method 0 connection.close 200 x 0 0
up method 0 connection.close 200 x 0 0
-> broken 2 SecondClose

# close-ok without a close
up method 0 connection.close-ok
-> broken 1 StrayCloseOk

# any other frame behind the close
up method 0 connection.close 200 x 0 0
up method 1 channel.open
-> broken 2 AfterClose

# the next frame must be the content's header
up method 1 channel.open
down method 1 channel.open-ok
up method 1 basic.publish x x71 0 0
up method 1 channel.close 200 x 0 0
-> broken 4 ContentExpected

# and on that channel
up method 1 channel.open
down method 1 channel.open-ok
up method 1 basic.publish x x71 0 0
up header 2 60 0 []
-> broken 4 ContentExpected

# more bytes than the header announced
up method 1 channel.open
down method 1 channel.open-ok
up method 1 basic.publish x x71 0 0
up header 1 60 1 []
up body 1 x6869
-> broken 5 BadContent

# a channel that isn't open
up method 1 basic.publish x x71 0 0
-> broken 1 ChannelFree

# a channel whose open isn't answered
up method 1 channel.open
up method 1 channel.open
-> broken 2 ChannelBusy

# a channel whose close isn't answered
up method 1 channel.open
down method 1 channel.open-ok
up method 1 channel.close 200 x 0 0
up method 1 basic.publish x x71 0 0
-> broken 4 ChannelBusy

# a frame that only a broker sends
up method 1 channel.open
down method 1 channel.open-ok
up method 1 basic.deliver x74 1 0 x x71
-> broken 3 NotForBroker

# channel 0 is the connection's own
up method 0 channel.open
-> broken 1 NotForBroker";

#[test]
fn not_allowed(rt: HostRuntime) -> Result<(), AllocError> {
    shows_all(&rt, NOT_ALLOWED)
}

const NOT_ALLOWED: &str = "\
# behind its own close the broker is silent
down method 0 connection.close 320 x 0 0
down method 0 connection.close 320 x 0 0
-> notallowed 2 Silent

# a free channel allows nothing
down method 1 channel.open-ok
-> notallowed 1 ChannelState

# an open one allows no frame that only a client sends
up method 1 channel.open
down method 1 channel.open-ok
down method 1 basic.publish x x71 0 0
-> notallowed 3 ChannelState

# one that is stopping and owes nothing allows none at all
up method 1 channel.open
down method 1 channel.close 404 x 0 0
down method 1 channel.close-ok
-> notallowed 3 ChannelState

# a content is being sent
up method 1 channel.open
down method 1 channel.open-ok
down method 1 basic.return 312 x x x71
down method 1 basic.return 312 x x x71
-> notallowed 4 ContentOpen

# an empty body isn't admitted
up method 1 channel.open
down method 1 channel.open-ok
down method 1 basic.return 312 x x x71
down header 1 60 1 []
down body 1 x
-> notallowed 5 ContentOpen

# no content is being sent
up method 1 channel.open
down method 1 channel.open-ok
down header 1 60 0 []
-> notallowed 3 NoContent

# a number that no publish took
up method 1 channel.open
down method 1 channel.open-ok
up method 1 confirm.select 1
up method 1 basic.publish x x71 0 0
up header 1 60 0 []
down method 1 basic.ack 2 0
-> publish 1 1 1 5 -
-> notallowed 6 BadSettlement

# a tag that nobody consumes under
up method 1 channel.open
down method 1 channel.open-ok
down method 1 basic.deliver x74 1 0 x x71
-> notallowed 3 UnknownTag

# the request before the close isn't answered
up method 1 channel.open
down method 1 channel.open-ok
up method 1 tx.select
up method 1 channel.close 200 x 0 0
down method 1 channel.close-ok
-> notallowed 5 RequestsWaiting

# the first request is another
up method 1 channel.open
down method 1 channel.open-ok
up method 1 tx.select
down method 1 tx.commit-ok
-> notallowed 4 NotFirstReply

# the connection's close isn't there to be answered
down method 0 connection.close-ok
-> notallowed 1 NotForClient";

#[test]
fn accounts(rt: HostRuntime) -> Result<(), AllocError> {
    shows_all(&rt, ACCOUNTS)
}

const ACCOUNTS: &str = "\
# a multiple ack of one publish
up method 1 channel.open
down method 1 channel.open-ok
up method 1 confirm.select 1
up method 1 basic.publish x x71 0 0
up header 1 60 0 []
down method 1 basic.ack 1 1
-> publish 1 1 1 5 ack 6
-> fine

# a publish before the select is in no account; of two settlements that cover a number the first counts
up method 1 channel.open
down method 1 channel.open-ok
up method 1 basic.publish x x71 0 0
up header 1 60 0 []
up method 1 confirm.select 1
up method 1 basic.publish x x71 0 0
up header 1 60 2 []
up body 1 x6869
up method 1 basic.publish x x71 0 0
up header 1 60 0 []
down method 1 basic.nack 1 0 0
down method 1 basic.ack 2 1
-> publish 1 1 1 8 nack 11
-> publish 1 1 2 10 ack 12
-> fine

# each opening and each channel has numbers of its own, and a settlement covers its own alone
up method 1 channel.open
down method 1 channel.open-ok
up method 2 channel.open
down method 2 channel.open-ok
up method 1 confirm.select 1
up method 2 confirm.select 1
up method 1 basic.publish x x71 0 0
up header 1 60 0 []
up method 2 basic.publish x x71 0 0
up header 2 60 0 []
up method 1 channel.close 200 x 0 0
down method 1 channel.close-ok
up method 1 channel.open
down method 1 channel.open-ok
up method 1 confirm.select 1
up method 1 basic.publish x x71 0 0
up header 1 60 0 []
down method 1 basic.ack 1 0
-> publish 1 1 1 8 -
-> publish 2 1 1 10 -
-> publish 1 2 1 17 ack 18
-> fine

# an open that is passed over isn't counted
up method 1 channel.open
down method 1 channel.close 404 x 0 0
up method 1 channel.open
up method 1 channel.close-ok
up method 1 channel.open
down method 1 channel.open-ok
up method 1 confirm.select 1
up method 1 basic.publish x x71 0 0
up header 1 60 0 []
-> publish 1 2 1 9 -
-> fine";

#[test]
fn examples(rt: HostRuntime) -> Result<(), AllocError> {
    shows_all(&rt, TRANSCRIPTS)
}
