//! Two rows that are worked pair by pair, all pairs at once.

ghost use Rattle.std.specs.Prelude.{◌≡◌, length};
ghost use Rattle.std.specs.Thread.{IsSync, IsSend};
ghost use Rattle.fetch_mirror.specs.Pairs.{AcceptsPair, AcceptsPairs, ChangesPair, ChangesPairs};

use std::thread::{Threads, join_mut};

/// Calls `f` with the elements of both rows at each place, in as many threads as there are places, where so many can be made.
/// Both rows stay generic, so that each half of both can be lent to a thread of its own.
#[cycle(halves)]
pub fn for_each_pair_mut<R: Threads + Sync, A: Send, B: Send, F: Fn(&mut A, &mut B) + Sync>(
    rt: &R,
    f: &F,
    left: &mut [A],
    right: &mut [B],
)
    requires same { length left.old ≡ length right.old }
    requires accepts { AcceptsPairs F.Fn f.now left.old right.old }
    ensures { ChangesPairs F.Fn f.now left.old right.old left.new right.new }
{
    if left.len() < 2 {
        if left.len() == 1 {
            at_one(f, &mut left[0], &mut right[0]);
        }
        return;
    }
    let half = left.len() / 2;
    let (front_left, back_left) = left.split_at_mut(half);
    let (front_right, back_right) = right.split_at_mut(half);
    join_mut(
        rt,
        &mut ||
            requires { IsSync R.row × IsSync F.row × IsSend A.row × IsSend B.row × (length front_left.now ≡ length front_right.now)
                × AcceptsPairs F.Fn f.now front_left.now front_right.now }
            ensures { ChangesPairs F.Fn f.entry.now front_left.entry.now front_right.entry.now front_left.exit.now front_right.exit.now }
        { for_each_pair_mut(rt, f, front_left, front_right) },
        &mut ||
            requires { IsSync R.row × IsSync F.row × IsSend A.row × IsSend B.row × (length back_left.now ≡ length back_right.now)
                × AcceptsPairs F.Fn f.now back_left.now back_right.now }
            ensures { ChangesPairs F.Fn f.entry.now back_left.entry.now back_right.entry.now back_left.exit.now back_right.exit.now }
        { for_each_pair_mut(rt, f, back_left, back_right) },
    );
}

/// Calls `f` with these two.
fn at_one<A, B, F: Fn(&mut A, &mut B)>(f: &F, left: &mut A, right: &mut B)
    requires { AcceptsPair F.Fn f.now left.old right.old }
    ensures { ChangesPair F.Fn f.now left.old right.old left.new right.new }
{
    f(left, right);
}
