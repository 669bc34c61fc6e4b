// The machine: a struct by value, with its step and its run. Its tables are lent to the steps of its threads; the words in which the threads work, frames among them, are lent to it.
#![tactic(auto)]

mod ahead;
mod run;
mod turns;
mod words;

pub use run::{all_finished, within};
use store::{BINDING_WORDS, CELL_WORDS, FUNCTION_WORDS, KEY_BYTES, MOST_THREADS, PAIR_WORDS, Used};
pub use thread::{Control, Now, Thread};

// The answers of steps and runs.
#[derive(Clone, Copy)]
pub enum Answer {
    Taken,
    Finished,
    Spent,
    NoRoom,
    Stuck,
    Denied,
}

// Where turns stand: 1 for each thread that may have a turn, the steps that are left to each, how many threads there are, the round and who stepped last, and what the store uses.
// The marks are numbers and no bools: `to_do` adds them up.
#[derive(Drop)]
pub struct Scheduler {
    pub live: [u8; MOST_THREADS],
    pub rest: [u64; MOST_THREADS],
    pub count: usize,
    pub round: usize,
    pub from: usize,
    pub used: Used,
}

// Where turns led, who failed (0 where none did), and why they ended: Finished where nobody may step. Taken where they go on.
#[derive(Drop)]
pub struct Turned {
    pub scheduler: Scheduler,
    pub thread: usize,
    pub answer: acts::Answer,
}

// Turns that were known ahead: what the store uses after them, how many are left, who stepped last if one was taken, who was asked last, and the answer of its step.
#[derive(Clone, Copy)]
pub struct Rounds {
    pub used: Used,
    pub left: u64,
    pub last: usize,
    pub at: usize,
    pub answer: acts::Answer,
}

// The thread whose turn it is, and how many threads are in the round in which it steps.
#[derive(Clone, Copy)]
pub struct Turn {
    pub at: usize,
    pub round: usize,
}

// So many threads by number, the round and who stepped last, and what the store uses.
#[derive(Clone, Copy)]
pub struct Machine {
    pub threads: [Thread; MOST_THREADS],
    pub count: u8,
    pub round: u8,
    pub from: u8,
    pub used: Used,
    pub cells: [u64; CELL_WORDS],
    pub keys: [u8; KEY_BYTES],
    pub pairs: [u64; PAIR_WORDS],
    pub functions: [u64; FUNCTION_WORDS],
    pub bindings: [u64; BINDING_WORDS],
}

// What a call gives: the machine after it, the steps that each thread took in it, the thread that took its step or failed (0 where none did), and the answer.
#[derive(Clone, Copy)]
pub struct Outcome {
    pub machine: Machine,
    pub counts: [u64; MOST_THREADS],
    pub thread: u8,
    pub answer: Answer,
}
