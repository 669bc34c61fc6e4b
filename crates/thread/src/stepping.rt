// One step: an expression is entered, or a value goes to the newest frame, which acts when all its operands are in hand.
ghost use Rattle.std.specs.Prelude.{◌≡◌, List, length};
ghost use Rattle.semantics.specs.Machine.{Thread as SThread};
ghost use Rattle.semantics.specs.Step.{hand_to};
ghost use Rattle.store.specs.Words.{word_in};
ghost use Rattle.store.specs.Frames.{thread_words};
ghost use Rattle.acts.specs.Inner.{acted};
ghost use Rattle.thread.specs.Inner.{own_state, ended_as, tried_by, Kept, stepped_by};
ghost use Rattle.acts.specs.Lent.{lent_code, before};
ghost use Rattle.thread.specs.Lent.{after};

use crate::Ended;
use crate::enter::{enter, more};
use crate::owned::{own, put_control, put_place, put_thread};
use crate::parts::{joined, thread_of, used_of};
use acts::{Acted, Answer, Control};
use store::{BINDING_WORDS, CELL_WORDS, FUNCTION_WORDS, KEY_BYTES, MOST_FRAMES, PAIR_WORDS, Used};
use table::Expr;

// A step of the state that its act gave: where it was taken, the thread's words are those of the state.
fn ended(t: &mut [u64], s: Acted) -> Ended
    requires { length t.old ≡ thread_words }
    ensures { Kept s result t.old t.new }
{
    if s.answer == Answer::Taken {
        put_thread(t, thread_of(s.state));
    }
    Ended {
        used: used_of(s.state),
        answer: s.answer,
    }
}

// A value goes to the newest frame.
fn hand(
    t: &mut [u64],
    used: Used,
    w: u64,
    heads: &[u64],
    slots: &[u16],
    cells: &mut [u64; CELL_WORDS],
    keys: &mut [u8; KEY_BYTES],
    pairs: &mut [u64; PAIR_WORDS],
    functions: &mut [u64; FUNCTION_WORDS],
    bindings: &mut [u64; BINDING_WORDS],
) -> Ended
    requires { length t.old ≡ thread_words }
    ensures { (ts : List SThread) →
        acted (ended_as result t.new) (after ts t cells keys pairs functions bindings) ≡
        tried_by used t.old (before ts t cells keys pairs functions bindings) (λ m. hand_to (lent_code heads slots) (word_in w) m.thread.frames m) }
{
    let x = own(t);
    let n = x.frames.min(MOST_FRAMES) as u16;
    if n == 0 {
        return Ended {
            used,
            answer: Answer::Finished,
        };
    }
    let top = n - 1;
    let h = store::head_at(t, top);
    let i = h.at.0 as usize;
    let head = table::get_or(heads, i, 0);
    if more(head % 256, head / 256 % 4294967296, h.held) {
        store::put_held(t, top, h.held, w);
        let next = Expr(table::get_or(slots, i * 5 + ((h.held + 1) as usize), 0));
        put_control(t, Control::Enter(next));
        put_place(t, h.env, h.on);
        return Ended {
            used,
            answer: Answer::Taken,
        };
    }
    let state = joined(x, used);
    let back = state.resume(top, h.env, h.on);
    let s = state.act(
        back, h.at, top, h.held, w, heads, slots, t, cells, keys, pairs, functions, bindings,
    );
    ended(t, s)
}

// One step of the thread.
pub fn step(
    t: &mut [u64],
    used: Used,
    heads: &[u64],
    slots: &[u16],
    cells: &mut [u64; CELL_WORDS],
    keys: &mut [u8; KEY_BYTES],
    pairs: &mut [u64; PAIR_WORDS],
    functions: &mut [u64; FUNCTION_WORDS],
    bindings: &mut [u64; BINDING_WORDS],
) -> Ended
    requires { length t.old ≡ thread_words }
    ensures { (ts : List SThread) →
        acted (ended_as result t.new) (after ts t cells keys pairs functions bindings) ≡
        stepped_by (lent_code heads slots) (own_state used t.old) (before ts t cells keys pairs functions bindings) }
{
    let x = own(t);
    match x.now.control {
        Control::Enter(e) => enter(t, used, e, heads, slots, functions, bindings),
        Control::Hand(w) => hand(
            t, used, w, heads, slots, cells, keys, pairs, functions, bindings,
        ),
    }
}
