//! The same calls, whose answers are added up.
ghost use Rattle.std.specs.Prelude.{◌^◌, ◌≡◌, ◌<◌, length};
ghost use Rattle.std.specs.Thread.{IsSync, IsSend};
ghost use Rattle.lapin_threads.specs.Each.{Accepts, Leaves};
ghost use Rattle.lapin_threads.specs.Tallied.{Tallied, both_of};

use std::thread::{Threads, join_mut};

/// What a call did, in a number, and whether it was cut short.
#[derive(Clone, Copy, Debug, PartialEq, Eq)]
pub struct Tally {
    /// How much was done. In a sum, at most the greatest `u64`.
    pub count: u64,
    /// Whether it was cut short. In a sum, whether one of them was.
    pub short: bool,
}

/// Calls f at each element, each on a thread of its own; where no thread can be made, the caller's makes the call. The answer is the
/// sum of what the calls answered.
#[cycle(tally_halves)]
pub fn tally_mut<R: Threads + Sync, T: Send, F: Fn(&mut T) -> Tally + Sync>(
    rt: &R,
    f: &F,
    s: &mut [T],
) -> Tally
    requires { Accepts F.Fn f.now }
    ensures { Tallied (Leaves F.Fn f.now) s.old result s.new }
{
    if s.is_empty() {
        return Tally {
            count: 0,
            short: false,
        };
    }
    if s.len() == 1 {
        return at_one(f, &mut s[0]);
    }
    let middle = s.len() / 2;
    let (a, b) = s.split_at_mut(middle);
    let (x, y) = both(rt, f, a, b);
    sum_of(x, y)
}

#[cycle(tally_halves)]
fn both<R: Threads + Sync, T: Send, F: Fn(&mut T) -> Tally + Sync>(
    rt: &R,
    f: &F,
    a: &mut [T],
    b: &mut [T],
) -> (Tally, Tally)
    requires accepts { Accepts F.Fn f.now }
    requires some { (0 < length a.old) × (0 < length b.old) }
    ensures front { Tallied (Leaves F.Fn f.now) a.old result.0 a.new }
    ensures back { Tallied (Leaves F.Fn f.now) b.old result.1 b.new }
{
    let mut front = || -> Tally
        requires { IsSync R.row × IsSync F.row × IsSend T.row × Accepts F.Fn f.now }
        ensures { Tallied (Leaves F.Fn f.entry.now) a.entry.now result a.exit.now }
    { tally_mut(rt, f, a) };
    let mut back = || -> Tally
        requires { IsSync R.row × IsSync F.row × IsSend T.row × Accepts F.Fn f.now }
        ensures { Tallied (Leaves F.Fn f.entry.now) b.entry.now result b.exit.now }
    { tally_mut(rt, f, b) };
    join_mut(rt, &mut front, &mut back)
}

fn at_one<T, F: Fn(&mut T) -> Tally>(f: &F, it: &mut T) -> Tally
    requires { Accepts F.Fn f.now }
    ensures leaves { Leaves F.Fn f.now it.old result it.new }
    ensures fits { result.count < 2 ^ 64 }
{
    let tally = f(it);
    let _count = tally.count;
    tally
}

fn sum_of(x: Tally, y: Tally) -> Tally
    ensures { result ≡ both_of x y }
{
    Tally {
        count: x.count.saturating_add(y.count),
        short: x.short || y.short,
    }
}
