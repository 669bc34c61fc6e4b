// The machine's own step and run: turns one after another, and what is said of them.
ghost use Rattle.std.specs.Prelude.{◌≡◌, cond, List, ℕ, ◌-◌, ◌≤◌, ◌<◌, get_or};
ghost use Rattle.std.proofs.Math.ListN.{get_elem?};
ghost use Rattle.semantics.specs.Machine.{most_threads};
ghost use Rattle.semantics.specs.Threads.{steps_of, live_thread, all_done};
ghost use Rattle.semantics.specs.Calls.{finished, spent, one_step, run_of, call};
ghost use Rattle.store.specs.Tables.{capped};
ghost use Rattle.acts.specs.Meaning as meaning;
ghost use Rattle.acts.specs.Lent.{lent_code};
ghost use Rattle.machine.specs.Turns.{turns_of, said_by, thread_by, says};
ghost use Rattle.machine.specs.TurnsCalls.{Split};
ghost use Rattle.machine.specs.Scheduled.{thread_at, listed, marked};
ghost use Rattle.machine.specs.View.{seen, answer_in, ran_in};

use crate::ahead::{first, next_turn};
use crate::turns::{mark, turns};
use crate::words::{put_threads, threads_in};
use crate::{Answer, Machine, Outcome, Scheduler};
use store::{MOST_THREADS, THREADS_WORDS};
use thread::Thread;

// The marks of so many threads, 0 where there is none.
fn marks(threads: [Thread; MOST_THREADS], count: usize) -> [u8; MOST_THREADS]
    requires { count ≤ most_threads }
    ensures { (fs : List ℕ) (j : ℕ) → marked result j ≡ live_thread (get_elem? (listed (thread_at threads fs) count) j) }
{
    let mut live = [0u8; MOST_THREADS];
    for i in 0..count {
        live[i] = mark(threads[i]);
    }
    live
}

// The steps that each thread took, by those that are left.
fn taken(allow: [u64; MOST_THREADS], rest: [u64; MOST_THREADS]) -> [u64; MOST_THREADS]
    requires { (j : ℕ) → j < most_threads → get_or rest j 0 ≤ get_or allow j 0 }
    ensures { Split allow result rest }
{
    let mut counts = allow;
    for i in 0..MOST_THREADS {
        counts[i] -= rest[i];
    }
    counts
}

fn closed(done: bool) -> Answer
    ensures { answer_in result ≡ cond done finished spent }
{
    if done {
        Answer::Finished
    } else {
        Answer::Spent
    }
}

// The answer of a run, or of a step, whose turns ended with a; whether all threads are finished then.
#[tactic(auto, unfolding(crate::specs::Turns::said_by))]
fn told(run: bool, done: bool, a: acts::Answer) -> Answer
    ensures { answer_in result ≡ said_by run done (meaning.answer_in a) }
{
    match a {
        acts::Answer::Finished if !run => Answer::Taken,
        acts::Answer::NoRoom => Answer::NoRoom,
        acts::Answer::Stuck => Answer::Stuck,
        acts::Answer::Denied => Answer::Denied,
        _ => closed(done),
    }
}

// The thread that is told with the answer: the one that failed; of a step that is taken, who stepped last; else 0.
#[tactic(auto, unfolding(crate::specs::Turns::thread_by))]
fn thread_told(run: bool, a: acts::Answer, i: usize, from: usize) -> usize
    ensures { result ≡ thread_by run (meaning.answer_in a) i from }
{
    match a {
        acts::Answer::NoRoom | acts::Answer::Stuck | acts::Answer::Denied => i,
        acts::Answer::Finished if !run => from.saturating_sub(1),
        _ => 0,
    }
}

// So many, never more than there are places for threads.
pub fn within(n: u8) -> usize
    ensures { result ≡ capped n most_threads }
{
    usize::from(n).min(MOST_THREADS)
}

// Whether all of so many threads are finished.
pub fn all_finished(threads: [Thread; MOST_THREADS], count: u8) -> bool
    ensures { (fs : List ℕ) → result ≡ all_done (listed (thread_at threads fs) (capped count most_threads)) }
{
    let n = within(count);
    let live = marks(threads, n);
    n <= first(&live, 0, n)
}

impl Machine {
    // Turns as long as a thread has one of its allowance to take, as a run or as a step.
    fn call(
        self,
        allow: [u64; MOST_THREADS],
        run: bool,
        heads: &[u64],
        slots: &[u16],
        frames: &mut [u64; THREADS_WORDS],
    ) -> Outcome
        ensures { ran_in result frames.new ≡ says run allow (turns_of (steps_of (lent_code heads slots)) allow (seen self frames.old)) }
    {
        let count = within(self.count);
        let scheduler = Scheduler {
            live: marks(self.threads, count),
            rest: allow,
            count,
            round: within(self.round),
            from: self.from as usize,
            used: self.used,
        };
        put_threads(self.threads, &mut frames[..]);
        let mut cells = self.cells;
        let mut keys = self.keys;
        let mut pairs = self.pairs;
        let mut functions = self.functions;
        let mut bindings = self.bindings;
        let s = turns(
            scheduler,
            heads,
            slots,
            &mut frames[..],
            &mut cells,
            &mut keys,
            &mut pairs,
            &mut functions,
            &mut bindings,
        );
        let c = s.scheduler;
        let threads = threads_in(&frames[..]);
        let count = (c.count % 256) as u8;
        let done = all_finished(threads, count);
        Outcome {
            machine: Machine {
                threads,
                count,
                round: (c.round % 256) as u8,
                from: (c.from % 256) as u8,
                used: c.used,
                cells,
                keys,
                pairs,
                functions,
                bindings,
            },
            counts: taken(allow, c.rest),
            thread: (thread_told(run, s.answer, s.thread, c.from) % 256) as u8,
            answer: told(run, done, s.answer),
        }
    }

    // One turn: a step of the thread whose turn it is. That is a run in which it alone may step, once.
    pub fn step(self, heads: &[u64], slots: &[u16], frames: &mut [u64; THREADS_WORDS]) -> Outcome
        ensures { ran_in result frames.new ≡ call (steps_of (lent_code heads slots)) one_step (seen self frames.old) }
    {
        let mut one = [0u64; MOST_THREADS];
        let count = within(self.count);
        let live = marks(self.threads, count);
        let Some(turn) = next_turn(&live, self.from as usize, within(self.round), count) else {
            return Outcome {
                machine: self,
                counts: one,
                thread: 0,
                answer: Answer::Finished,
            };
        };
        one[turn.at] = 1;
        self.call(one, false, heads, slots, frames)
    }

    // As long as a thread has a step of its allowance left.
    pub fn run(
        self,
        allow: [u64; MOST_THREADS],
        heads: &[u64],
        slots: &[u16],
        frames: &mut [u64; THREADS_WORDS],
    ) -> Outcome
        ensures { ran_in result frames.new ≡ call (steps_of (lent_code heads slots)) (run_of allow) (seen self frames.old) }
    {
        self.call(allow, true, heads, slots, frames)
    }
}
