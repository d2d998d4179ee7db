//! The lines of an account and of a finding.

ghost use Rattle.std.specs.Prelude.{◌≡◌, ◌++◌, [], OnOk};
ghost use Rattle.lapin_check_text.specs.Findings.{counted_line, account_onto, break_name as break_name_lem, send_name as send_name_lem, finding_line, check_text, settled_text, numbered_text, rule_text};

use lapin_check::{BreakRule, Counted, Finding, SendRule, Settled};
use lapin_types::NoMemory;
use std::alloc::{AllocError, Global};

/// Adds the line of each entry of an account and that of a finding, each ended by one line feed. Where memory runs out, the text may
/// end within them.
///
/// # Errors
/// `NoMemory`.
#[tactic(auto, using(crate::proofs::FindingLaws::text_from_onto))]
pub fn put_check(
    alloc: Global,
    out: &mut Vec<u8>,
    account: &[Counted],
    finding: Finding,
) -> Result<(), NoMemory>
    ensures { OnOk result (out.new.items ≡ out.old.items ++ check_text account.now finding) }
{
    put_account(alloc, out, account)?;
    put_finding(alloc, out, finding)?;
    out.push(b'\n')?;
    Ok(())
}

fn put_account(alloc: Global, out: &mut Vec<u8>, account: &[Counted]) -> Result<(), AllocError>
    ensures { OnOk result (out.new.items ≡ account_onto out.old.items account.now) }
{
    for counted in account {
        put_counted(alloc, out, counted)?;
        out.push(b'\n')?;
    }
    Ok(())
}

// An entry: `publish` with its channel, opening, number and place, and its settlement.
fn put_counted(alloc: Global, out: &mut Vec<u8>, counted: &Counted) -> Result<(), AllocError>
    ensures { OnOk result (out.new.items ≡ out.old.items ++ counted_line counted.now) }
{
    let channel = counted.channel;
    let opening = counted.opening;
    let number = counted.number;
    let place = counted.place;
    let line = format!(in alloc; "publish {channel} {opening} {number} {place} ")?;
    out.extend_from_slice(line.as_bytes())?;
    put_settled(alloc, out, counted.settled)
}

// The settlement of an entry, or a dash.
fn put_settled(alloc: Global, out: &mut Vec<u8>, settled: Option<Settled>) -> Result<(), AllocError>
    ensures { OnOk result (out.new.items ≡ out.old.items ++ settled_text settled) }
{
    match settled {
        Some(settled) => put_numbered(
            alloc,
            out,
            if settled.ack { "ack" } else { "nack" },
            settled.place,
        ),
        None => out.extend_from_slice(b"-"),
    }
}

// A word and a number.
fn put_numbered(alloc: Global, out: &mut Vec<u8>, word: &str, number: u64) -> Result<(), AllocError>
    ensures { OnOk result (out.new.items ≡ out.old.items ++ numbered_text word.now number) }
{
    let line = format!(in alloc; "{word} {number}")?;
    out.extend_from_slice(line.as_bytes())
}

// The line of a finding, without a line end.
fn put_finding(alloc: Global, out: &mut Vec<u8>, finding: Finding) -> Result<(), AllocError>
    ensures { OnOk result (out.new.items ≡ out.old.items ++ finding_line finding) }
{
    match finding {
        Finding::Fine => out.extend_from_slice(b"fine"),
        Finding::Broken { place, rule } => {
            put_rule(alloc, out, "broken", place, break_name(rule))
        }
        Finding::NotAllowed { place, rule } => {
            put_rule(alloc, out, "notallowed", place, send_name(rule))
        }
    }
}

// A word, a place and the name of a rule.
fn put_rule(
    alloc: Global,
    out: &mut Vec<u8>,
    word: &str,
    place: u64,
    rule: &str,
) -> Result<(), AllocError>
    ensures { OnOk result (out.new.items ≡ out.old.items ++ rule_text word.now place rule.now) }
{
    let line = format!(in alloc; "{word} {place} {rule}")?;
    out.extend_from_slice(line.as_bytes())
}

fn break_name(rule: BreakRule) -> &'static str
    ensures { result.now ≡ break_name_lem rule }
{
    match rule {
        BreakRule::SecondClose => "SecondClose",
        BreakRule::StrayCloseOk => "StrayCloseOk",
        BreakRule::AfterClose => "AfterClose",
        BreakRule::ContentExpected => "ContentExpected",
        BreakRule::BadContent => "BadContent",
        BreakRule::ChannelFree => "ChannelFree",
        BreakRule::ChannelBusy => "ChannelBusy",
        BreakRule::NotForBroker => "NotForBroker",
    }
}

fn send_name(rule: SendRule) -> &'static str
    ensures { result.now ≡ send_name_lem rule }
{
    match rule {
        SendRule::Silent => "Silent",
        SendRule::ChannelState => "ChannelState",
        SendRule::ContentOpen => "ContentOpen",
        SendRule::NoContent => "NoContent",
        SendRule::BadSettlement => "BadSettlement",
        SendRule::UnknownTag => "UnknownTag",
        SendRule::RequestsWaiting => "RequestsWaiting",
        SendRule::NotFirstReply => "NotFirstReply",
        SendRule::NotForClient => "NotForClient",
    }
}
