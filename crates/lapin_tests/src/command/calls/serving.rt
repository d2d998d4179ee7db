//! A server answers three requests by `serve_one`, and rejects a fourth that names no queue for its answer.

use lapin_call::{Served, Server};
use lapin_machine::Session;
use lapin_text::{read_event, write_record};
use lapin_types::{Error, NoMemory, Payload};
use std::alloc::Global;
use std::process::Abort;
use std::test::Fail;

/// A consumer with acknowledgements, four requests, and what a server makes of them.
const FOUR: &str = "call 1 channel.open => ticket 1
next 1 => frame method 1 channel.open
recv method 1 channel.open-ok => received
call 1 basic.consume x71 x74 0 0 0 1 {} => ticket 2
next 1 => frame method 1 basic.consume x71 x74 0 0 0 1 {}
serve => nothing
recv method 1 basic.deliver x74 1 0 x x71 => received
recv header 1 60 1 [correlation_id=x31,reply_to=x72] => received
recv body 1 x61 => received
recv method 1 basic.deliver x74 2 0 x x71 => received
recv header 1 60 2 [correlation_id=x32,reply_to=x72] => received
recv body 1 x6262 => received
recv method 1 basic.deliver x74 3 0 x x71 => received
recv header 1 60 0 [correlation_id=x33,reply_to=x73] => received
recv method 1 basic.deliver x74 4 0 x x71 => received
recv header 1 60 0 [correlation_id=x34] => received
serve => answered 1 3 1
serve => answered 2 5 2
serve => answered 3 7 3
serve => noaddress 4
serve => nothing
next 0 => frame method 1 basic.ack 1 0
next 0 => frame method 1 basic.ack 2 0
next 0 => frame method 1 basic.ack 3 0
next 0 => frame method 1 basic.reject 4 0
next 0 => noframe
next 1 => frame method 1 basic.publish x x72 0 0
next 1 => frame header 1 60 1 [correlation_id=x31]
next 1 => frame body 1 x61
next 1 => frame method 1 basic.publish x x72 0 0
next 1 => frame header 1 60 2 [correlation_id=x32]
next 1 => frame body 1 x6262
next 1 => frame method 1 basic.publish x x73 0 0
next 1 => frame header 1 60 0 [correlation_id=x33]
next 1 => noframe
";

/// A request whose channel closes before it is served, and one that a recover made void.
const STALE: &str = "call 1 channel.open => ticket 1
next 1 => frame method 1 channel.open
recv method 1 channel.open-ok => received
call 1 basic.consume x71 x74 0 0 0 1 {} => ticket 2
recv method 1 basic.deliver x74 1 0 x x71 => received
recv header 1 60 0 [correlation_id=x31,reply_to=x72] => received
call 1 channel.close 200 x => ticket 3
serve => closing
serve => closing
next 1 => frame method 1 basic.consume x71 x74 0 0 0 1 {}
next 1 => frame method 1 channel.close 200 x 0 0
recv method 1 channel.close-ok => received
serve => stale 1
serve => end
";

// The answer is the request.
fn echo(alloc: Global, session: &mut Session, server: &mut Server) -> Result<Served, Error> {
    let answer = |bytes: &[u8]| -> Result<Payload, NoMemory> { Payload::new(alloc, bytes) };
    server.serve_one(alloc, session, &answer)
}

// What is told of a call of the server.
fn tell(alloc: Global, served: &Result<Served, Error>) -> Result<String, NoMemory> {
    match served {
        Ok(Served::Nothing) => Ok(format!(in alloc; "nothing")?),
        Ok(Served::End) => Ok(format!(in alloc; "end")?),
        Ok(Served::Failed(_)) => Ok(format!(in alloc; "failed")?),
        Ok(Served::Stale { delivery_tag }) => Ok(format!(in alloc; "stale {delivery_tag}")?),
        Ok(Served::NoAddress { delivery_tag }) => Ok(format!(in alloc;
            "noaddress {delivery_tag}"
        )?),
        Ok(
            Served::Answered {
                delivery_tag,
                ticket,
                confirm,
            },
        ) => { Ok(format!(in alloc; "answered {delivery_tag} {ticket} {confirm}")?) }
        Err(Error::InvalidChannelState(_)) => Ok(format!(in alloc; "closing")?),
        Err(_) => Ok(format!(in alloc; "refused")?),
    }
}

// Makes a line's event, or serves; whether what is told of it is as expected.
fn meets(
    alloc: Global,
    session: &mut Session,
    server: &mut Server,
    line: &str,
    told: &str,
) -> Result<bool, NoMemory> {
    if line == "serve" {
        let served = echo(alloc, session, server);
        let text = tell(alloc, &served)?;
        return Ok(text.as_str() == told);
    }
    let Some(event) = read_event(alloc, line.as_bytes())? else {
        return Ok(false);
    };
    let Ok(record) = session.step(alloc, event) else {
        return Err(NoMemory);
    };
    let mut text = Vec::new(alloc);
    write_record(alloc, &mut text, &record)?;
    drop(record);
    Ok(text.as_slice() == told.as_bytes())
}

// The first line that was told otherwise, if there is one.
fn first_other(alloc: Global, history: &'static str) -> Result<Option<&'static str>, NoMemory> {
    let mut session = Session::new(alloc, 4096)?;
    let mut server = Server::new(1, 1);
    for line in history.lines() {
        let Some((event, told)) = line.split_once(" => ") else {
            return Ok(Some(line));
        };
        if !meets(alloc, &mut session, &mut server, event, told)? {
            return Ok(Some(line));
        }
    }
    Ok(None)
}

#[test]
fn three_are_answered_and_a_fourth_is_rejected(rt: HostRuntime) -> Result<(), Fail> {
    assert_eq!(rt;
        first_other(rt.alloc(), FOUR).unwrap_or(Some("no memory")),
        None
    );
    Ok(())
}

#[test]
fn a_void_request_is_stale(rt: HostRuntime) -> Result<(), Fail> {
    assert_eq!(rt;
        first_other(rt.alloc(), STALE).unwrap_or(Some("no memory")),
        None
    );
    Ok(())
}
