//! A whole transcript: what is found, and the account up to there.

ghost use Rattle.std.specs.Prelude.{◌≡◌, ◌≤◌, [], IfOk, OnOk, OnErr};
ghost use Rattle.lapin_check.specs.Finding.{finding};
ghost use Rattle.lapin_check.specs.Account.{account_of};

use crate::account::Counted;
use crate::finding::Finding;
use crate::seen::Seen;
use crate::watch::Watch;
use lapin_types::NoMemory;
use std::alloc::Global;

/// Checks a transcript: `Fine` exactly where a free broker reads every frame up without becoming Broken and may send every frame
/// down; else the first place where that fails, with the first rule that applies. The account is that of the frames before that place,
/// in order of completion. It is emptied first. `frame_max` is the greatest size of a frame in bytes.
///
/// # Errors
/// `NoMemory` alone; the account is then empty.
pub fn check(
    alloc: Global,
    frame_max: u32,
    transcript: &[Seen],
    account: &mut Vec<Counted>,
) -> Result<Finding, NoMemory>
    requires { 4096 ≤ frame_max }
    ensures found { IfOk result (λ f. f ≡ finding frame_max transcript.now) }
    ensures account { OnOk result (account.new.items ≡ account_of frame_max transcript.now) }
    ensures err { OnErr result (account.new.items ≡ []) }
{
    account.clear();
    match check_all(alloc, frame_max, transcript, account) {
        Ok(finding) => Ok(finding),
        Err(error) => {
            account.clear();
            Err(error)
        }
    }
}

// The same, where the account is empty. For want of memory nothing is said of it.
fn check_all(
    alloc: Global,
    frame_max: u32,
    transcript: &[Seen],
    account: &mut Vec<Counted>,
) -> Result<Finding, NoMemory>
    requires { account.old.items ≡ [] }
    ensures found { IfOk result (λ f. f ≡ finding frame_max transcript.now) }
    ensures account { OnOk result (account.new.items ≡ account_of frame_max transcript.now) }
{
    let mut watch = Watch::new(alloc, frame_max)?;
    let mut place: u64 = 0;
    for seen in transcript {
        place += 1;
        if let Some(finding) = watch.take(alloc, seen, place, account)? {
            return Ok(finding);
        }
    }
    Ok(Finding::Fine)
}
