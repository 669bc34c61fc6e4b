// Entering an expression: it gives its value, or a frame is pushed for its operands.
ghost use Rattle.std.specs.Prelude.{◌≤◌, ◌≡◌, length};
ghost use Rattle.std.proofs.Math.Option.{Option};
ghost use Rattle.semantics.specs.Machine.{most_bindings, Value as SValue, unkeyed};
ghost use Rattle.semantics.specs.Step.{seek_in, seek, variable, act_fn, push};
ghost use Rattle.store.specs.Meaning.{bound_in, kind_in};
ghost use Rattle.store.specs.Words.{link_in};
ghost use Rattle.store.specs.Frames.{thread_words};
ghost use Rattle.store.specs.Tables.{capped, list_of};
ghost use Rattle.thread.specs.Meaning.{found_in};
ghost use Rattle.acts.specs.View.{Tables, view};
ghost use Rattle.acts.specs.Inner.{acted, settled, give, go, put_frames, put_functions, put_bindings, Works};
ghost use Rattle.thread.specs.Own.{own_in};
ghost use Rattle.thread.specs.Inner.{or_else, own_state, ended_as, tried_by, entered_by, More};
ghost use Rattle.acts.specs.Lent.{lent_code};
ghost use Rattle.thread.specs.Lent.{before_enter, after_enter};

use crate::Ended;
use crate::owned::{own, put_control, put_count, put_place};
use acts::{Answer, Control, unkeyed};
use store::{
    BINDING_WORDS, Bound, Closure, FUNCTION_WORDS, Keys, Kind, MOST_BINDINGS, MOST_FRAMES,
    MOST_FUNCTIONS, Used,
};
use table::Expr;

// No chain of bindings is longer.
const MOST_LINKS: u16 = MOST_BINDINGS as u16;

// How many operands are evaluated before the act.
#[tactic(auto, unfolding(syntax::specs::Words::decode, syntax::specs::Operands::evaluated))]
pub(crate) fn need(op: u64, x: u64) -> u8
    ensures works { Works op x result }
    ensures two { (op ≡ 60 → ⊥) → result ≤ 2 }
{
    match op {
        0x33 => 2,
        0x34 => 1,
        0x36 => 2,
        0x37 => 1,
        0x38 => 2,
        0x39 => 1,
        0x3A => 2,
        0x3B => 1,
        0x3C => x.min(4) as u8,
        0x3D => 1,
        0x3E => 1,
        0x3F => 2,
        0x40 => 1,
        0x41 => 2,
        _ => 0,
    }
}

// Is there an operand to evaluate after so many in hand and the one that is handed on?
pub(crate) fn more(op: u64, x: u64, held: u8) -> bool
    requires { held ≤ 3 }
    ensures { More op x held result }
{
    if op == 0x3C {
        held + 1 < need(op, x)
    } else {
        held == 0 && need(op, x) == 2
    }
}

// The value of variable x, if that is what is bound.
fn bound_to(b: Bound, x: u8) -> Option<u64>
    ensures { (rest : Option SValue) → seek_in (bound_in b) x rest ≡ or_else (found_in result) rest }
{
    match b {
        Bound::Variable(y, w) if x == y => Some(w),
        _ => None,
    }
}

// The newest binding of x from binding `from` on, of n.
fn lookup(bindings: &[u64; BINDING_WORDS], n: u64, x: u8, from: u16) -> Option<u64>
    ensures { found_in result ≡ seek most_bindings (list_of link_in bindings.now (capped n most_bindings)) from x }
{
    let mut p = from;
    for _ in 0..MOST_LINKS {
        if p == 0 || n < p as u64 || MOST_LINKS < p {
            return None;
        }
        let b = store::binding_at(bindings, p - 1);
        if let Some(w) = bound_to(b.bound, x) {
            return Some(w);
        }
        p = b.next;
    }
    None
}

fn push(t: &mut [u64], used: Used, e: Expr, first: Expr) -> Ended
    requires { length t.old ≡ thread_words }
    ensures { (w : Tables) → acted (ended_as result t.new) (put_frames w t.new) ≡ tried_by used t.old (put_frames w t.old) (push e.0 first.0) }
{
    let x = own(t);
    let n = x.frames;
    if n < MOST_FRAMES {
        store::put_fresh(t, n as u16, e, x.now.env, x.now.on);
        put_control(t, Control::Enter(first));
        put_count(t, n + 1);
        Ended {
            used,
            answer: Answer::Taken,
        }
    } else {
        Ended {
            used,
            answer: Answer::NoRoom,
        }
    }
}

fn function(
    t: &mut [u64],
    used: Used,
    x: u8,
    body: Expr,
    functions: &mut [u64; FUNCTION_WORDS],
) -> Ended
    requires { length t.old ≡ thread_words }
    ensures { (w : Tables) →
        acted (ended_as result t.new) (put_functions (put_frames w t.new) functions.new) ≡
        tried_by used t.old (put_functions (put_frames w t.old) functions.old) (act_fn x body.0) }
{
    let n = used.functions;
    if n < MOST_FUNCTIONS {
        let o = own(t);
        store::put_closure(
            functions,
            n as u16,
            Closure {
                var: x,
                body,
                env: o.now.env,
            },
        );
        put_control(
            t,
            Control::Hand(store::pack(unkeyed(Kind::Function, n as u32))),
        );
        Ended {
            used: Used {
                functions: n + 1,
                ..used
            },
            answer: Answer::Taken,
        }
    } else {
        Ended {
            used,
            answer: Answer::NoRoom,
        }
    }
}

fn variable(t: &mut [u64], used: Used, x: u8, bindings: &[u64; BINDING_WORDS]) -> Ended
    requires { length t.old ≡ thread_words }
    ensures { (w : Tables) →
        acted (ended_as result t.new) (put_bindings (put_frames w t.new) bindings.now) ≡
        tried_by used t.old (put_bindings (put_frames w t.old) bindings.now) (variable x) }
{
    let o = own(t);
    match lookup(bindings, used.bindings, x, o.now.env) {
        Some(w) => {
            put_control(t, Control::Hand(w));
            Ended {
                used,
                answer: Answer::Taken,
            }
        }
        None => Ended {
            used,
            answer: Answer::Stuck,
        },
    }
}

// The value that a command without operands gives by itself.
fn constant(t: &mut [u64], used: Used, k: Kind, n: u32) -> Ended
    requires { length t.old ≡ thread_words }
    ensures { (w : Tables) → acted (ended_as result t.new) (put_frames w t.new) ≡ settled (view (own_state used t.old) (put_frames w t.old)) (give (unkeyed (kind_in k n)) (view (own_state used t.old) (put_frames w t.old))) }
{
    put_control(t, Control::Hand(store::pack(unkeyed(k, n))));
    Ended {
        used,
        answer: Answer::Taken,
    }
}

// The body of a limit without keys, with no enabled keys.
fn closed(t: &mut [u64], used: Used, body: Expr) -> Ended
    requires { length t.old ≡ thread_words }
    ensures { (w : Tables) → acted (ended_as result t.new) (put_frames w t.new) ≡ settled (view (own_state used t.old) (put_frames w t.old)) (go body.0 (own_in t.old).now.env 0 (view (own_state used t.old) (put_frames w t.old))) }
{
    let o = own(t);
    put_control(t, Control::Enter(body));
    put_place(t, o.now.env, Keys(0, 0));
    Ended {
        used,
        answer: Answer::Taken,
    }
}

pub(crate) fn enter(
    t: &mut [u64],
    used: Used,
    e: Expr,
    heads: &[u64],
    slots: &[u16],
    functions: &mut [u64; FUNCTION_WORDS],
    bindings: &[u64; BINDING_WORDS],
) -> Ended
    requires { length t.old ≡ thread_words }
    ensures { (w : Tables) →
        acted (ended_as result t.new) (after_enter w t functions bindings) ≡
        entered_by e.0 (lent_code heads slots e.0) (own_state used t.old) (before_enter w t functions bindings) }
{
    let i = e.0 as usize;
    let head = table::get_or(heads, i, 0);
    let op = head % 256;
    let x = head / 256 % 4294967296;
    if 0 < need(op, x) {
        let first = Expr(table::get_or(slots, i * 5, 0));
        return push(t, used, e, first);
    }
    match op {
        0x31 => constant(t, used, Kind::Limit, 1),
        0x32 => variable(t, used, (x % 256) as u8, bindings),
        0x35 => {
            let body = Expr(table::get_or(slots, i * 5, 0));
            function(t, used, (x % 256) as u8, body, functions)
        }
        0x3C => {
            let body = Expr(table::get_or(slots, i * 5 + 4, 0));
            closed(t, used, body)
        }
        0x42 => Ended {
            used,
            answer: Answer::Starts,
        },
        _ => constant(t, used, Kind::Number, x as u32),
    }
}
