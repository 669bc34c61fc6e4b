// One thread: its step, on its own words and on the store that all threads share. The tables are lent to it.
#![tactic(auto)]

mod enter;
mod owned;
mod parts;
mod stepping;

pub use acts::{Answer, Control, Now};
pub use owned::{own, put_thread};
pub use stepping::step;
use store::Used;

// A thread: where it stands, and how many of its frames are used.
#[derive(Clone, Copy)]
pub struct Thread {
    pub now: Now,
    pub frames: u64,
}

// How a step ended: what the store uses after it, and the answer.
#[derive(Clone, Copy)]
pub struct Ended {
    pub used: Used,
    pub answer: Answer,
}
