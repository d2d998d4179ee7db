//! Joined runs: what each step reports.
use crate::command::joined::examples;
use crate::driver::shows_all;
use std::test::Fail;

const RUNS: &str =
    "# Each step reports one line. An empty link gives nothing, and what the broker may not send, or isn't an
# event of the client alone, is not lawful. Behind the loss nothing may be sent.
client call 1 channel.open -> ticket 1
client next 1 -> frame method 1 channel.open
deliver -> nothing
read -> read
send method 1 channel.open-ok -> sent
send method 1 basic.ack 1 0 -> notlawful
deliver -> received
client lost -> notlawful
lose -> lost
send method 1 channel.open-ok -> notlawful

# Closes that cross. The broker's close is on its way down when this side's is on its way up: each side hears the
# other's, answers it, and the call that closed is done.
client call 1 channel.open -> ticket 1
client next 1 -> frame method 1 channel.open
read -> read
send method 1 channel.open-ok -> sent
deliver -> received
client call 1 channel.close 200 x -> ticket 2
client next 1 -> frame method 1 channel.close 200 x 0 0
send method 1 channel.close 404 x 0 0 -> sent
read -> read
deliver -> received
client next 1 -> frame method 1 channel.close-ok
read -> read
send method 1 channel.close-ok -> sent
deliver -> received
client ticket 2 -> answer done
client state 1 -> state open closed

# A frame of the broker is no event of the client alone, and nothing was lost by asking for it.
client recv method 1 channel.open-ok -> notlawful
read -> nothing
client call 1 channel.open -> ticket 1
send method 1 channel.open-ok -> notlawful
client next 1 -> frame method 1 channel.open
send method 1 channel.open-ok -> notlawful
read -> read
read -> nothing
send method 1 channel.open-ok -> sent
send method 1 channel.open-ok -> notlawful
deliver -> received
deliver -> nothing

# A loss empties both links: what was on its way is gone, and every ticket without an answer gets the loss.
client call 1 channel.open -> ticket 1
client call 2 channel.open -> ticket 2
client next 1 -> frame method 1 channel.open
client next 1 -> frame method 2 channel.open
read -> read
send method 1 channel.open-ok -> sent
lose -> lost
read -> nothing
deliver -> nothing
client ticket 1 -> error ConnectionLost
client ticket 2 -> error ConnectionLost";

#[test]
fn steps_have_their_reports(rt: HostRuntime) -> Result<(), Fail> {
    for table in [RUNS, examples::RUNS] {
        shows_all(&rt, "joined", table)?;
    }
    Ok(())
}
