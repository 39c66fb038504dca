//! Work on the elements of a list, on threads of their own where several have something to do.
ghost use Rattle.std.specs.Prelude.{◌<◌, length};
ghost use Rattle.std.specs.Thread.{IsSync};
ghost use Rattle.vx_session.specs.Spread.{Accepts, AcceptsAll, Changes, ChangesAll};
ghost use denote.Param.Send.{IsSend};

use std::thread::{Threads, join_mut};

/// Calls f at each of the elements: at those of two halves at once, where both are busy. So no
/// thread is begun for one that has nothing to do.
#[cycle(halves)]
pub(crate) fn at_once<R: Threads + Sync, X: Send, P: Fn(&[X]) -> bool + Sync, F: Fn(&mut X) + Sync>(
    rt: &R,
    is_busy: &P,
    f: &F,
    xs: &mut [X],
)
    requires busy { P.IsAlwaysCallable is_busy.now }
    requires accepts { AcceptsAll F.Fn f.now xs.old }
    ensures { ChangesAll F.Fn f.now xs.old xs.new }
{
    if xs.len() < 2 {
        if let Some(x) = xs.first_mut() {
            at_one(f, x);
        }
        return;
    }
    let (front, back) = xs.split_at_mut(xs.len() / 2);
    if is_busy(front) && is_busy(back) {
        both(rt, is_busy, f, front, back);
        return;
    }
    at_once(rt, is_busy, f, front);
    at_once(rt, is_busy, f, back);
}

// Calls f at each of the elements of two lists, at once.
#[cycle(halves)]
fn both<R: Threads + Sync, X: Send, P: Fn(&[X]) -> bool + Sync, F: Fn(&mut X) + Sync>(
    rt: &R,
    is_busy: &P,
    f: &F,
    front: &mut [X],
    back: &mut [X],
)
    requires halves { (0 < length front.old) × (0 < length back.old) }
    requires busy { P.IsAlwaysCallable is_busy.now }
    requires accepts { AcceptsAll F.Fn f.now front.old × AcceptsAll F.Fn f.now back.old }
    ensures front { ChangesAll F.Fn f.now front.old front.new }
    ensures back { ChangesAll F.Fn f.now back.old back.new }
{
    let mut these = ||
        requires { IsSync R.row × IsSync F.row × IsSync P.row × IsSend X.row
            × P.IsAlwaysCallable is_busy.now × AcceptsAll F.Fn f.now front.now }
        ensures { ChangesAll F.Fn f.entry.now front.entry.now front.exit.now }
    { at_once(rt, is_busy, f, front) };
    let mut those = ||
        requires { IsSync R.row × IsSync F.row × IsSync P.row × IsSend X.row
            × P.IsAlwaysCallable is_busy.now × AcceptsAll F.Fn f.now back.now }
        ensures { ChangesAll F.Fn f.entry.now back.entry.now back.exit.now }
    { at_once(rt, is_busy, f, back) };
    join_mut(rt, &mut these, &mut those);
}

// Calls f at x.
fn at_one<X, F: Fn(&mut X)>(f: &F, x: &mut X)
    requires { Accepts F.Fn f.now x.old }
    ensures { Changes F.Fn f.now x.old x.new }
{
    f(x);
}
