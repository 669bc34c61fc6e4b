// The acts: what each command does with its operands in hand, on the state of a thread and the tables that are lent to it.
#![tactic(auto)]

mod act;
mod choose;

ghost use Rattle.std.specs.Prelude.{◌≡◌};
ghost use Rattle.semantics.specs.Machine.{most_keys};
ghost use Rattle.semantics.specs.Keys.{enabled};
ghost use Rattle.store.specs.Meaning.{keys_in, value_in};
ghost use Rattle.store.specs.Words.{up_in};
ghost use Rattle.store.specs.Tables.{capped, list_of};
ghost use Rattle.acts.specs.Inner.{stop_of, go_of, resume_of, unkeyed_of, Gave};

use store::{KEY_BYTES, Keys, Kind, Value};
use table::{Expr, Key};

// An expression to enter or the word of a value to hand on.
#[derive(Clone, Copy)]
pub enum Control {
    Enter(Expr),
    Hand(u64),
}

// The answers of a thread's step. `Starts`: the expression to enter is a 0x42. To start a thread is for who holds all threads, and the step changes nothing.
#[derive(Clone, Copy, PartialEq, Eq)]
pub enum Answer {
    Taken,
    Finished,
    NoRoom,
    Stuck,
    Denied,
    Starts,
}

// The control, with the bindings and the enabled keys of the expression to enter.
#[derive(Clone, Copy)]
pub struct Now {
    pub control: Control,
    pub env: u16,
    pub on: Keys,
}

// What an act changes beside the tables: the thread, and how many entries of the store's tables are used. A count has a word of its own: narrower ones would be packed and unpacked at each
// act.
#[derive(Clone, Copy)]
pub struct State {
    pub now: Now,
    pub frames: u64,
    pub cells: u64,
    pub keys: u64,
    pub pairs: u64,
    pub functions: u64,
    pub bindings: u64,
}

#[derive(Clone, Copy)]
pub struct Acted {
    pub state: State,
    pub answer: Answer,
}

pub fn unkeyed(k: Kind, payload: u32) -> Value
    ensures { result ≡ unkeyed_of k payload }
{
    Value {
        key: Key(0),
        kind: k,
        payload,
    }
}

impl State {
    pub fn stop(self, answer: Answer) -> Acted
        ensures { result ≡ stop_of self answer }
    {
        Acted {
            state: self,
            answer,
        }
    }

    pub fn give(self, v: Value) -> Acted
        ensures { Gave self (value_in v) result }
    {
        Acted {
            state: State {
                now: Now {
                    control: Control::Hand(store::pack(v)),
                    ..self.now
                },
                ..self
            },
            answer: Answer::Taken,
        }
    }

    pub fn go(self, e: Expr, env: u16, on: Keys) -> Acted
        ensures { result ≡ go_of self e env on }
    {
        Acted {
            state: State {
                now: Now {
                    control: Control::Enter(e),
                    env,
                    on,
                },
                ..self
            },
            answer: Answer::Taken,
        }
    }

    // The state without the thread's newest frame, whose bindings and enabled keys it takes.
    pub fn resume(self, top: u16, env: u16, on: Keys) -> State
        ensures { result ≡ resume_of self top env on }
    {
        State {
            now: Now {
                env,
                on,
                ..self.now
            },
            frames: top as u64,
            ..self
        }
    }

    // Is the value's key enabled?
    pub fn touch(self, x: Value, keys: &[u8; KEY_BYTES]) -> bool
        ensures { result ≡ enabled (list_of up_in keys.now (capped self.keys most_keys)) (keys_in self.now.on) x.key.0 }
    {
        store::enabled(keys, self.keys, self.now.on, x.key)
    }
}
