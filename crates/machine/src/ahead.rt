// Whose turn it is, and the same looked up ahead for each thread that may step last.
ghost use Rattle.std.specs.Prelude.{◌≡◌, cond, ℕ, ◌≤◌, ◌-◌, get_or, ltb};
ghost use Rattle.std.proofs.Math.Option.{none, some};
ghost use Rattle.semantics.specs.Machine.{most_threads};
ghost use Rattle.semantics.specs.Threads.{first_from};
ghost use Rattle.machine.specs.Scheduled.{marked, whose_in};
ghost use Rattle.machine.specs.Ahead.{next_in, at_of};

use crate::Turn;
use store::MOST_THREADS;

// One place for each thread that may have stepped last, and one for none.
pub(crate) const AHEAD: usize = MOST_THREADS + 1;

// The first live thread from i on, below e; e where there is none.
pub(crate) fn first(live: &[u8; MOST_THREADS], i: usize, e: usize) -> usize
    requires { e ≤ most_threads }
    ensures { first_from (marked live.now) i (e - i) ≡ cond (ltb result e) (some result) none }
{
    for j in i..e {
        if live[j] == 1 {
            return j;
        }
    }
    e
}

// The next live thread of the round, else the lowest of all, in a new round of the threads that there are.
pub(crate) fn next_turn(
    live: &[u8; MOST_THREADS],
    from: usize,
    round: usize,
    count: usize,
) -> Option<Turn>
    requires { (round ≤ most_threads) × (count ≤ most_threads) }
    ensures { whose_in result ≡ next_in live.now from round count }
{
    let i = first(live, from, round);
    if i < round {
        return Some(Turn { at: i, round });
    }
    let j = first(live, 0, count);
    if j < count {
        return Some(Turn {
            at: j,
            round: count,
        });
    }
    None
}

// The thread whose turn it is after place f, where all threads are in the round; past all of them where there is none.
fn known(live: &[u8; MOST_THREADS], f: usize, count: usize) -> usize
    requires { count ≤ most_threads }
    ensures { result ≡ at_of (next_in live.now f count count) }
{
    match next_turn(live, f, count, count) {
        Some(turn) => turn.at,
        None => MOST_THREADS,
    }
}

// The same for each place.
pub(crate) fn ahead(live: &[u8; MOST_THREADS], count: usize) -> [usize; AHEAD]
    requires { count ≤ most_threads }
    ensures { (f : ℕ) → f ≤ most_threads → get_or result f 0 ≡ at_of (next_in live.now f count count) }
{
    let mut a = [0usize; AHEAD];
    for f in 0..AHEAD {
        a[f] = known(live, f, count);
    }
    a
}
