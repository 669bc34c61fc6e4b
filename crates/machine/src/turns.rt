// Turns: those that are known ahead, and what comes between them: a thread that is found finished or without a step left, a new one.
ghost use Rattle.std.specs.Prelude.{◌≡◌, cond, List, [], ℕ, ◌<◌, ◌≤◌, ◌*◌, length, get_or, eqb, ltb};
ghost use Rattle.std.proofs.Math.Option.{some};
ghost use Rattle.semantics.specs.Machine.{Thread as SThread, enter, most_threads};
ghost use Rattle.semantics.specs.Step as semantics;
ghost use Rattle.semantics.specs.Threads.{steps_of, live_thread};
ghost use Rattle.store.specs.Frames.{threads_words};
ghost use Rattle.acts.specs.declared.Control.TheVariants.{Hand};
ghost use Rattle.acts.specs.Meaning.{control_in};
ghost use Rattle.acts.specs.View.{tables};
ghost use Rattle.acts.specs.Inner.{acted};
ghost use Rattle.acts.specs.Lent.{lent_code, before};
ghost use Rattle.thread.specs.Own.{with_control};
ghost use Rattle.thread.specs.Inner.{own_state, ended_as, stepped_by};
ghost use Rattle.thread.specs.Lent.{after};
ghost use Rattle.machine.specs.Turns.{turns_of};
ghost use Rattle.machine.specs.Ahead.{Held, MarksLeft, Least, with_marks, RoundsFrom, rounded_by, Rounded, without, onward, is_onward, Begun, Few, Advanced};
ghost use Rattle.machine.specs.Scheduled.{thread_in, part_of, system_in, turned_in, Started};

use crate::ahead::{AHEAD, ahead, next_turn};
use crate::words::{put_at, thread_at};
use crate::{Rounds, Scheduler, Turned};
use acts::{Answer, Control, Now};
use store::{
    BINDING_WORDS, CELL_WORDS, FUNCTION_WORDS, KEY_BYTES, Keys, MOST_THREADS, PAIR_WORDS,
    THREAD_WORDS, Used,
};
use table::Expr;
use thread::{Ended, Thread, step};

// The body of the 0x42 that is to be entered.
fn body_of(t: Thread, slots: &[u16]) -> Expr
    ensures { (e : ℕ) → control_in t.now.control ≡ enter e → result.0 ≡ get_or slots.now (e * 5) 0 }
{
    match t.now.control {
        Control::Enter(e) => Expr(table::get_or(slots, e.0 as usize * 5, 0)),
        Control::Hand(_) => Expr(0),
    }
}

// A new thread, with the bindings in force and no enabled keys.
fn fresh(t: Thread, slots: &[u16]) -> Thread
    ensures { (e : ℕ) (fs : List ℕ) → control_in t.now.control ≡ enter e → thread_in result fs ≡ semantics.fresh (get_or slots.now (e * 5) 0) t.now.env }
{
    Thread {
        now: Now {
            control: Control::Enter(body_of(t, slots)),
            env: t.now.env,
            on: Keys(0, 0),
        },
        frames: 0,
    }
}

// 1 for a thread that is not finished, 0 for one that is.
pub(crate) fn mark(t: Thread) -> u8
    ensures { (fs : List ℕ) → eqb result 1 ≡ live_thread (some (thread_in t fs)) }
{
    match t.now.control {
        Control::Hand(_) if t.frames == 0 => 0,
        _ => 1,
    }
}

// The thread that starts another hands on 0.
fn handing(t: Thread) -> Thread
    ensures { result ≡ with_control t (Hand 0) }
{
    Thread {
        now: Now {
            control: Control::Hand(0),
            ..t.now
        },
        ..t
    }
}

// Thread i enters a 0x42: thread k starts.
fn start(words: &mut [u64], i: usize, k: usize, slots: &[u16])
    requires { (i < k) × (k < most_threads) × (length words.old ≡ threads_words) }
    ensures { Started words.old words.new i k slots.now }
{
    let t = thread_at(words, i);
    put_at(words, k, fresh(t, slots));
    put_at(words, i, handing(t));
}

// A step of thread i, on its part of the words.
fn visit(
    used: Used,
    i: usize,
    heads: &[u64],
    slots: &[u16],
    words: &mut [u64],
    cells: &mut [u64; CELL_WORDS],
    keys: &mut [u8; KEY_BYTES],
    pairs: &mut [u64; PAIR_WORDS],
    functions: &mut [u64; FUNCTION_WORDS],
    bindings: &mut [u64; BINDING_WORDS],
) -> Ended
    requires { (i < most_threads) × (length words.old ≡ threads_words) }
    ensures its { (ts : List SThread) →
        acted (ended_as result (part_of words.new i)) (tables ts (part_of words.new i) cells.new keys.new pairs.new functions.new bindings.new) ≡
        stepped_by (lent_code heads slots) (own_state used (part_of words.old i))
        (tables ts (part_of words.old i) cells.old keys.old pairs.old functions.old bindings.old) }
    ensures others { (j : ℕ) → (j ≡ i → ⊥) → part_of words.new j ≡ part_of words.old j }
{
    let part = &mut words[i * THREAD_WORDS..(i + 1) * THREAD_WORDS];
    step(
        part, used, heads, slots, cells, keys, pairs, functions, bindings,
    )
}

// The mark of a thread with so many steps left.
fn kept(mark: u8, steps: u64) -> u8
    ensures { result ≡ cond (ltb 0 steps) mark 0 }
{
    if 0 < steps { mark } else { 0 }
}

// The marks of those that have a step left.
fn with_left<'a>(live: &'a [u8; MOST_THREADS], rest: &'a [u64; MOST_THREADS]) -> [u8; MOST_THREADS]
    requires { (length live.now ≡ most_threads) × (length rest.now ≡ most_threads) }
    ensures { MarksLeft live.now rest.now result }
{
    let mut left = [0u8; MOST_THREADS];
    for i in 0..MOST_THREADS {
        left[i] = kept(live[i], rest[i]);
    }
    left
}

// The fewer of n steps and those of a thread, if it is marked.
fn fewer(n: u64, mark: u8, steps: u64) -> u64
    ensures { result ≡ cond (eqb mark 1) (cond (ltb steps n) steps n) n }
{
    if mark == 1 { steps.min(n) } else { n }
}

// The fewest steps that are left to a marked thread, and at most `most`.
fn least<'a>(live: &'a [u8; MOST_THREADS], rest: &'a [u64; MOST_THREADS], most: u64) -> u64
    ensures { Least live.now rest.now most result }
{
    let mut n = most;
    for i in 0..MOST_THREADS {
        n = fewer(n, live[i], rest[i]);
    }
    n
}

// How many turns are known ahead: `most` where all threads are in the round, else one.
fn quota(r: usize, count: usize, most: u64) -> u64
    ensures { result ≡ cond (eqb r count) most 1 }
{
    if r == count { most } else { 1 }
}

// b where a turn was taken, and a where none was.
fn later(left: u64, n: u64, a: usize, b: usize) -> usize
    ensures { result ≡ cond (ltb left n) b a }
{
    if left < n { b } else { a }
}

// Up to n turns that are known ahead, from thread `first` on. This loop has the one call of a step, which is inlined in it. Who stepped before a thread is kept in words, since the step
// needs the registers.
fn rounds(
    first: usize,
    us: Used,
    n: u64,
    known: &[usize; AHEAD],
    rest: &mut [u64; MOST_THREADS],
    heads: &[u64],
    slots: &[u16],
    words: &mut [u64],
    cells: &mut [u64; CELL_WORDS],
    keys: &mut [u8; KEY_BYTES],
    pairs: &mut [u64; PAIR_WORDS],
    functions: &mut [u64; FUNCTION_WORDS],
    bindings: &mut [u64; BINDING_WORDS],
) -> Rounds
    requires { (length words.old ≡ threads_words) × (first < most_threads) × (n ≤ get_or rest.old first 0)
        × ((f : ℕ) → f ≤ most_threads → 1 < n → (get_or known.now f 0 < most_threads) × (n ≤ get_or rest.old (get_or known.now f 0) 0))
        × ((f : ℕ) → f ≤ most_threads → get_or known.now f 0 ≤ most_threads) }
    ensures { (live : List ℕ) (count round from r : ℕ) → RoundsFrom live count round from r n known.now first rest.old us (before [] words cells keys pairs functions bindings)
        → Rounded (lent_code heads slots) (record { live = live; rest = rest.old; count = count; round = round; from = from; used = us })
        (before [] words cells keys pairs functions bindings) r n result rest.new (after [] words cells keys pairs functions bindings) }
{
    let mut i = first;
    let mut prior = [first; AHEAD];
    let mut used = us;
    let mut left = n;
    // Stays a while: how many are left is given at either end, and a `for` would count up beside it.
    while 0 < left {
        let s = visit(
            used, i, heads, slots, words, cells, keys, pairs, functions, bindings,
        );
        used = s.used;
        let Answer::Taken = s.answer else {
            return Rounds {
                used,
                left,
                last: prior[i],
                at: i,
                answer: s.answer,
            };
        };
        rest[i] -= 1;
        left -= 1;
        let j = known[i + 1];
        prior[j] = i;
        i = j;
    }
    let last = prior[i];
    Rounds {
        used,
        left,
        last,
        at: last,
        answer: Answer::Taken,
    }
}

// The scheduler with these marks, after n turns that were known ahead, or fewer, in a round of r threads.
fn rounded(
    c: Scheduler,
    live: [u8; MOST_THREADS],
    r: usize,
    n: u64,
    rest: [u64; MOST_THREADS],
    s: Rounds,
) -> Scheduler
    requires { s.last < most_threads }
    ensures { result ≡ rounded_by (with_marks c live) r n s.left s.last rest s.used }
{
    Scheduler {
        live,
        rest,
        round: later(s.left, n, c.round, r),
        from: later(s.left, n, c.from, s.last + 1),
        used: s.used,
        ..c
    }
}

// Thread i is passed over from now on.
fn passed(mut c: Scheduler, i: usize) -> Turned
    requires { i < most_threads }
    ensures { result ≡ onward (without c i) }
{
    c.live[i] = 0;
    Turned {
        scheduler: c,
        thread: 0,
        answer: Answer::Taken,
    }
}

// Thread i enters a 0x42, in a round of r threads: a thread starts, where there is a place for it.
fn begin(mut c: Scheduler, i: usize, r: usize, slots: &[u16], words: &mut [u64]) -> Turned
    requires { (i < c.count) × (c.count ≤ most_threads) × (0 < get_or c.rest i 0) × (length words.old ≡ threads_words) }
    ensures { Begun c i r slots.now words.old result words.new }
{
    if MOST_THREADS <= c.count {
        return Turned {
            scheduler: c,
            thread: i,
            answer: Answer::NoRoom,
        };
    }
    start(words, i, c.count, slots);
    c.live[c.count] = 1;
    c.rest[i] -= 1;
    c.count += 1;
    c.round = r;
    c.from = i + 1;
    Turned {
        scheduler: c,
        thread: 0,
        answer: Answer::Taken,
    }
}

// The turns that are known ahead, and what the answer of the thread that was asked last makes of them. One that has no step left, or is found finished, is passed over from then on.
fn advance(
    c: Scheduler,
    heads: &[u64],
    slots: &[u16],
    words: &mut [u64],
    cells: &mut [u64; CELL_WORDS],
    keys: &mut [u8; KEY_BYTES],
    pairs: &mut [u64; PAIR_WORDS],
    functions: &mut [u64; FUNCTION_WORDS],
    bindings: &mut [u64; BINDING_WORDS],
) -> Turned
    requires { (length words.old ≡ threads_words) × Held c (tables [] words.old cells.old keys.old pairs.old functions.old bindings.old) }
    ensures { Advanced (lent_code heads slots) c (before [] words cells keys pairs functions bindings) result (after [] words cells keys pairs functions bindings) }
{
    let mut rest = c.rest;
    let live = with_left(&c.live, &rest);
    let Some(turn) = next_turn(&live, c.from, c.round, c.count) else {
        return Turned {
            scheduler: c,
            thread: 0,
            answer: Answer::Finished,
        };
    };
    let known = ahead(&live, c.count);
    let most = rest[turn.at];
    let n = quota(turn.round, c.count, least(&live, &rest, most));
    let s = rounds(
        turn.at, c.used, n, &known, &mut rest, heads, slots, words, cells, keys, pairs, functions,
        bindings,
    );
    let next = rounded(c, live, turn.round, n, rest, s);
    match s.answer {
        Answer::Finished => passed(next, s.at),
        Answer::Starts => begin(next, s.at, turn.round, slots, words),
        _ => Turned {
            scheduler: next,
            thread: s.at,
            answer: s.answer,
        },
    }
}

// Turns one after another, as long as a thread has one to take.
pub(crate) fn turns(
    scheduler: Scheduler,
    heads: &[u64],
    slots: &[u16],
    words: &mut [u64],
    cells: &mut [u64; CELL_WORDS],
    keys: &mut [u8; KEY_BYTES],
    pairs: &mut [u64; PAIR_WORDS],
    functions: &mut [u64; FUNCTION_WORDS],
    bindings: &mut [u64; BINDING_WORDS],
) -> Turned
    requires { (length words.old ≡ threads_words) × Held scheduler (tables [] words.old cells.old keys.old pairs.old functions.old bindings.old) }
    ensures turns { turned_in result (after [] words cells keys pairs functions bindings) ≡
        turns_of (steps_of (lent_code heads slots)) scheduler.rest (system_in scheduler (before [] words cells keys pairs functions bindings)) }
    ensures few { Few scheduler.rest result }
{
    let mut t = Turned {
        scheduler,
        thread: 0,
        answer: Answer::Taken,
    };
    while t.answer == Answer::Taken {
        t = advance(
            t.scheduler,
            heads,
            slots,
            words,
            cells,
            keys,
            pairs,
            functions,
            bindings,
        );
    }
    t
}
