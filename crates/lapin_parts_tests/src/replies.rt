//! Open requests: which one a reply takes, and what a drain gives.
use crate::alike::put;
use crate::script::{Part, Words, runs};
use crate::texts::{channel, dash, optional, said, unread};
use lapin_outbox::{Replies, Reply, ReplyKind, Request};
use lapin_types::NoMemory;
use std::alloc::Global;
use std::test::Fail;

// Open requests, and the one that was given last.
#[derive(Drop)]
struct Queue {
    replies: Replies,
    given: Option<Request>,
}

impl Part for Queue {
    fn answer(&mut self, alloc: Global, call: &Words) -> Result<String, Fail> {
        let channel = channel(call.first)?;
        match call.name {
            "expect" => self.expect(alloc, channel, call),
            "reserve" => self.reserve(alloc, channel),
            "take" => self.take(alloc, channel, kind(call.second)?),
            "drain" => self.drain(alloc, channel),
            "let-go" => ticket(alloc, self.replies.drain(channel)),
            "first" => seen(alloc, self.replies.first(channel, kind(call.second)?)),
            _ => unread(alloc),
        }
    }
}

impl Queue {
    fn new(alloc: Global) -> Result<Queue, NoMemory> {
        let replies = Replies::new(alloc)?;
        Ok(Queue {
            replies,
            given: None,
        })
    }

    fn expect(&mut self, alloc: Global, channel: u16, call: &Words) -> Result<String, Fail> {
        let kind = kind(call.second)?;
        let ticket = optional(call.third)?;
        let reply = reply(kind);
        self.replies
            .expect(alloc, channel, Request { ticket, reply })?;
        said(alloc, "done")
    }

    fn reserve(&mut self, alloc: Global, channel: u16) -> Result<String, Fail> {
        self.replies.reserve(alloc, channel)?;
        said(alloc, "done")
    }

    fn take(&mut self, alloc: Global, channel: u16, kind: ReplyKind) -> Result<String, Fail> {
        put(&mut self.given, self.replies.take_first(channel, kind));
        seen(alloc, self.given.as_ref())
    }

    fn drain(&mut self, alloc: Global, channel: u16) -> Result<String, Fail> {
        put(&mut self.given, self.replies.drain(channel));
        seen(alloc, self.given.as_ref())
    }
}

fn kind(word: &str) -> Result<ReplyKind, Fail> {
    match word {
        "get" => Ok(ReplyKind::BasicGetOk),
        "select" => Ok(ReplyKind::TxSelectOk),
        "commit" => Ok(ReplyKind::TxCommitOk),
        _ => Err(Fail::from("no kind of reply")),
    }
}

fn reply(kind: ReplyKind) -> Reply {
    match kind {
        ReplyKind::BasicGetOk => Reply::BasicGetOk,
        ReplyKind::TxSelectOk => Reply::TxSelectOk,
        _ => Reply::TxCommitOk,
    }
}

// The ticket of a request, whose reply is let go.
fn ticket(alloc: Global, request: Option<Request>) -> Result<String, Fail> {
    match request {
        Some(request) => dash(alloc, request.into_ticket()),
        None => said(alloc, "none"),
    }
}

// The ticket and the kind of a request.
fn seen(alloc: Global, request: Option<&Request>) -> Result<String, Fail> {
    match request {
        Some(request) => told(alloc, request.ticket, request.reply.kind()),
        None => said(alloc, "none"),
    }
}

fn told(alloc: Global, ticket: Option<u64>, kind: ReplyKind) -> Result<String, Fail> {
    let ticket = dash(alloc, ticket)?;
    let kind = kind_word(kind);
    Ok(format!(in alloc; "{} {kind}", ticket.as_str())?)
}

fn kind_word(kind: ReplyKind) -> &'static str {
    match kind {
        ReplyKind::BasicGetOk => "get",
        ReplyKind::TxSelectOk => "select",
        ReplyKind::TxCommitOk => "commit",
        _ => "?",
    }
}

// A reply takes the oldest of its kind on its channel, and a drain the oldest of any kind. A request without a ticket counts.
const REQUESTS: &str = "\
    take 1 get -> none
    drain 1 -> none
    first 1 get -> none
    reserve 2 -> done
    expect 1 select 1 -> done
    reserve 1 -> done
    expect 1 get 2 -> done
    expect 1 get - -> done
    expect 2 get 3 -> done
    expect 1 get 4 -> done
    expect 1 commit 5 -> done
    first 1 get -> 2 get
    take 1 get -> 2 get
    first 1 get -> - get
    take 1 get -> - get
    take 2 select -> none
    drain 1 -> 1 select
    take 1 select -> none
    drain 1 -> 4 get
    first 2 get -> 3 get
    take 1 commit -> 5 commit
    drain 1 -> none
    let-go 2 -> 3
    let-go 2 -> none";

#[test]
fn replies_take_the_oldest_of_their_kind(rt: HostRuntime) -> Result<(), Fail> {
    runs(&rt, rt.alloc(), Queue::new(rt.alloc())?, REQUESTS)
}
