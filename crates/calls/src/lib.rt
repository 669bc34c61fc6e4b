// Lists of calls on the machine: each is a step or a run, made on the machine that the last one gave. The frames of all threads are lent to them.
#![tactic(auto)]

ghost use Rattle.std.specs.Prelude.{◌≡◌, not, ◌+◌, ◌≤◌, length};
ghost use Rattle.syntax.specs.Words.{code_in};
ghost use Rattle.semantics.specs.Threads.{steps_of};
ghost use Rattle.semantics.specs.Calls.{call};
ghost use Rattle.machine.specs.View.{seen, answer_in, ran_in};
ghost use Rattle.calls.specs.Words.{call_words, allowances_at, call_at, room_for, answer_no, answer_words};
ghost use Rattle.calls.specs.Made.{Made, Noted, NotedAll};

use machine::{Answer, Machine, Outcome};
use store::{MOST_THREADS, THREADS_WORDS};
use table::get_or;

// The words of a call, and those of its answer.
pub const CALL_WORDS: usize = MOST_THREADS + 1;

pub const ANSWER_WORDS: usize = MOST_THREADS + 2;

// The number of an answer.
#[tactic(auto, unfolding(crate::specs::Words::answer_no))]
pub fn number(a: Answer) -> u64
    ensures { result ≡ answer_no (answer_in a) }
{
    a as u64
}

// The allowances of the call that begins at a place.
fn allowances(calls: &[u64], at: usize) -> [u64; MOST_THREADS]
    requires { at + call_words ≤ length calls.now }
    ensures { result ≡ allowances_at calls.now at }
{
    let mut allow = [0u64; MOST_THREADS];
    allow.copy_from_slice(&calls[at + 1..at + CALL_WORDS]);
    allow
}

// The call that begins at a place: 0 is a step, and any other number a run with the eight allowances after it.
fn make(
    m: Machine,
    heads: &[u64],
    slots: &[u16],
    frames: &mut [u64; THREADS_WORDS],
    calls: &[u64],
    at: usize,
) -> Outcome
    requires { at + call_words ≤ length calls.now }
    ensures { ran_in result frames.new ≡ call (steps_of (code_in heads.now slots.now)) (call_at calls.now at) (seen m frames.old) }
{
    if get_or(calls, at, 0) == 0 {
        m.step(heads, slots, frames)
    } else {
        m.run(allowances(calls, at), heads, slots, frames)
    }
}

// x at place `at`, if there is one. Returns the next place.
fn note(answers: &mut [u64], at: usize, x: u64) -> usize
    ensures { Noted answers.old answers.new at x result }
{
    if at < answers.len() {
        answers[at] = x;
        at + 1
    } else {
        at
    }
}

// The steps of each thread, from place `at` on. Returns the next place.
fn note_counts(answers: &mut [u64], at: usize, counts: [u64; MOST_THREADS]) -> usize
    ensures { NotedAll answers.old answers.new at counts result }
{
    let mut next = at;
    for n in &counts {
        next = note(answers, next, *n);
    }
    next
}

// The answer of a call, its thread, and the steps of each thread in it.
fn note_answer(answers: &mut [u64], at: usize, o: Outcome) -> usize
    ensures { NotedAll answers.old answers.new at (answer_words (answer_in o.answer) o.thread o.counts) result }
{
    let first = note(answers, at, number(o.answer));
    let second = note(answers, first, u64::from(o.thread));
    note_counts(answers, second, o.counts)
}

// Whether the words are no whole number of calls, or the answers have fewer than ten places for each.
pub fn lacks_room<'a>(calls: &'a [u64], answers: &'a [u64]) -> bool
    ensures { result ≡ not (room_for calls.now answers.now) }
{
    calls.len() % CALL_WORDS != 0 || answers.len() / ANSWER_WORDS < calls.len() / CALL_WORDS
}

// All calls are made, in order, on the machine that the last one gave, which is returned at the end. Each is nine words; words at the end that are fewer are no call.
// Of call i the number of its answer, its thread and the steps of each of eight threads in it go to the ten places of the answers from 10i on, where there are such places.
pub fn make_calls(
    m: Machine,
    heads: &[u64],
    slots: &[u16],
    frames: &mut [u64; THREADS_WORDS],
    calls: &[u64],
    answers: &mut [u64],
) -> Machine
    ensures { Made (steps_of (code_in heads.now slots.now)) calls.now (seen m frames.old)
        answers.old answers.new (seen result frames.new) }
{
    let mut last = m;
    let mut place = 0;
    for i in 0..calls.len() / CALL_WORDS {
        let o = make(last, heads, slots, frames, calls, i * CALL_WORDS);
        place = note_answer(answers, place, o);
        last = o.machine;
    }
    last
}
