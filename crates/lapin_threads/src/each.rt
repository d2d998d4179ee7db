//! The calls themselves: the list is halved until one element is left, and one half goes to a new thread each time.
ghost use Rattle.std.specs.Prelude.{◌≡◌, ◌<◌, length, true};
ghost use Rattle.std.specs.Thread.{IsSync, IsSend};
ghost use Rattle.lapin_threads.specs.Each.{Accepts, Leaves, EachLeft};

use std::thread::{Threads, join_mut};

/// Calls f at each element, each on a thread of its own; where no thread can be made, the caller's makes the call. The answer is
/// whether every call answered true.
#[cycle(halves)]
pub fn each_mut<R: Threads + Sync, T: Send, F: Fn(&mut T) -> bool + Sync>(
    rt: &R,
    f: &F,
    s: &mut [T],
) -> bool
    requires { Accepts F.Fn f.now }
    ensures { result ≡ true → EachLeft (λ x y. Leaves F.Fn f.now x true y) s.old s.new }
{
    if s.is_empty() {
        return true;
    }
    if s.len() == 1 {
        return at_one(f, &mut s[0]);
    }
    let middle = s.len() / 2;
    let (a, b) = s.split_at_mut(middle);
    let (x, y) = both(rt, f, a, b);
    x && y
}

#[cycle(halves)]
fn both<R: Threads + Sync, T: Send, F: Fn(&mut T) -> bool + Sync>(
    rt: &R,
    f: &F,
    a: &mut [T],
    b: &mut [T],
) -> (bool, bool)
    requires accepts { Accepts F.Fn f.now }
    requires some { (0 < length a.old) × (0 < length b.old) }
    ensures front { result.0 ≡ true → EachLeft (λ x y. Leaves F.Fn f.now x true y) a.old a.new }
    ensures back { result.1 ≡ true → EachLeft (λ x y. Leaves F.Fn f.now x true y) b.old b.new }
{
    let mut front = || -> bool
        requires { IsSync R.row × IsSync F.row × IsSend T.row × Accepts F.Fn f.now }
        ensures { result ≡ true → EachLeft (λ x y. Leaves F.Fn f.entry.now x true y) a.entry.now a.exit.now }
    { each_mut(rt, f, a) };
    let mut back = || -> bool
        requires { IsSync R.row × IsSync F.row × IsSend T.row × Accepts F.Fn f.now }
        ensures { result ≡ true → EachLeft (λ x y. Leaves F.Fn f.entry.now x true y) b.entry.now b.exit.now }
    { each_mut(rt, f, b) };
    join_mut(rt, &mut front, &mut back)
}

fn at_one<T, F: Fn(&mut T) -> bool>(f: &F, it: &mut T) -> bool
    requires { Accepts F.Fn f.now }
    ensures { Leaves F.Fn f.now it.old result it.new }
{
    f(it)
}
