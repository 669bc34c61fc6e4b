// The operands and the binders of expressions, and the tests 8 and 9 of document 01, by a pass each over a job's tables.
#![tactic(auto)]

ghost use Rattle.std.specs.Prelude.{◌≡◌, ◌+◌, ◌*◌, ◌≤◌, ◌<◌, true, false, cond, not, eqb};
ghost use Rattle.order.specs.Sets.{bit};
ghost use Rattle.syntax.specs.Reading.{most_expressions};
ghost use Rattle.syntax.specs.Tree.{first_bad, numbered};
ghost use Rattle.uses.specs.Answer.{refusal_of};
ghost use Rattle.uses.specs.Passes.{arity_of, bound_name, bound_var, counted, is_body, is_new, one_more, right_count, tallied};
ghost use Rattle.uses.specs.Places.{at_first, at_last, first_operands, is_binder, last_is_operand, tally_at};

use names::{has, single};
use table::{Expr, MOST_EXPRESSIONS, Refusal, get_or, key_of, name_of};

// How many of the first places of a command's operands are expressions; 0x3C has its own rule.
#[tactic(auto, unfolding(crate::specs::Passes::arity_of))]
fn arity(byte: u64) -> usize
    ensures { result ≡ arity_of byte }
{
    match byte {
        0x33 => 2,
        0x34 => 1,
        0x35 => 1,
        0x36 => 2,
        0x37 => 1,
        0x38 => 2,
        0x39 => 1,
        0x3A => 2,
        0x3B => 3,
        0x3D => 2,
        0x3E => 2,
        0x3F => 2,
        0x40 => 3,
        0x41 => 2,
        0x42 => 1,
        _ => 0,
    }
}

// Whether the last place of the command with this head is an expression: the body of 0x3C.
#[tactic(auto, unfolding(crate::specs::Places::last_is_operand))]
pub fn ends_in_operand(head: u64) -> bool
    ensures { result ≡ last_is_operand head }
{
    head % 256 == 0x3C
}

// How many of the first four places of the command with this head are expressions. Of 0x3C these are the keys that are used.
#[tactic(auto, unfolding(crate::specs::Places::first_operands))]
pub fn first_operands(head: u64) -> usize
    ensures { result ≡ first_operands head }
{
    let byte = head % 256;
    if byte == 0x3C {
        (head / 256).min(4) as usize
    } else {
        arity(byte)
    }
}

// Whether place i is the body of a binder: of 0x35 and 0x3E.
#[tactic(auto, unfolding(crate::specs::Passes::is_body))]
pub fn is_body(head: u64, i: usize) -> bool
    ensures { result ≡ is_body head i }
{
    match head % 256 {
        0x35 => i == 0,
        0x3E => i == 1,
        _ => false,
    }
}

// Whether the command is a binder: 0x35 or 0x3E.
#[tactic(auto, unfolding(crate::specs::Places::is_binder))]
pub fn is_binder(head: u64) -> bool
    ensures { result ≡ is_binder head }
{
    matches!(head % 256, 0x35 | 0x3E)
}

// The variable that the command binds; 64 for none. Stays a number, no Option: a set has no 64, so `has` and `single` need no test of their own, and the definition `bound_var` has it.
#[tactic(auto, unfolding(crate::specs::Passes::bound_var, crate::specs::Places::is_binder))]
pub fn bound_var(head: u64) -> u8
    ensures { result ≡ bound_var head }
{
    if is_binder(head) { key_of(head) } else { 64 }
}

// The local name that it binds; 64 for none, as of the variable.
#[tactic(auto, unfolding(crate::specs::Passes::bound_name))]
pub fn bound_name(head: u64) -> u8
    ensures { result ≡ bound_name head }
{
    if head % 256 == 0x3E {
        name_of(head)
    } else {
        64
    }
}

// One use more; two and more are the same.
#[tactic(auto, unfolding(crate::specs::Passes::one_more))]
fn one_more(x: u8) -> u8
    ensures { result ≡ one_more x }
{
    x.saturating_add(1).min(2)
}

// Counts a use of c.
#[tactic(auto, unfolding(crate::specs::Passes::tallied))]
fn tally(counts: &mut [u8; MOST_EXPRESSIONS], c: usize)
    ensures { counts.new ≡ tallied counts.old c }
{
    if c < MOST_EXPRESSIONS {
        counts[c] = one_more(counts[c]);
    }
}

// Counts the use in the last place of expression e, if it is an operand.
#[tactic(auto, unfolding(crate::specs::Places::at_last, crate::specs::Places::tally_at))]
fn tally_last(counts: &mut [u8; MOST_EXPRESSIONS], slots: &[u16], head: u64, e: usize)
    requires { e < most_expressions }
    ensures { counts.new ≡ at_last (tally_at slots.now e) head counts.old }
{
    if ends_in_operand(head) {
        tally(counts, get_or(slots, e * 5 + 4, 0) as usize);
    }
}

// Counts the uses in the first n places of expression e, from the highest down.
fn tally_first(counts: &mut [u8; MOST_EXPRESSIONS], slots: &[u16], e: usize, n: usize)
    requires { (e < most_expressions) × (n ≤ 4) }
    ensures { counts.new ≡ at_first (tally_at slots.now e) n counts.old }
{
    for i in (0..n).rev() {
        tally(counts, get_or(slots, e * 5 + i, 0) as usize);
    }
}

// The uses of each expression.
pub fn count(heads: &[u64], slots: &[u16], cmds: usize, counts: &mut [u8; MOST_EXPRESSIONS])
    requires { cmds ≤ most_expressions }
    ensures { counts.new ≡ counted heads.now slots.now (cmds * 5) counts.old }
{
    for e in (0..cmds).rev() {
        let head = get_or(heads, e, 0);
        tally_last(counts, slots, head, e);
        tally_first(counts, slots, e, first_operands(head));
    }
}

// Whether expression e is used x times rightly: once, and the last of n not at all.
fn right_count(x: u8, e: usize, n: usize) -> bool
    requires { e < most_expressions }
    ensures { result ≡ eqb x (cond (eqb (e + 1) n) 0 1) }
{
    if e + 1 == n { x == 0 } else { x == 1 }
}

// A refusal at an expression.
pub fn refused(number: u8, e: Expr) -> Refusal
    ensures number { result.number ≡ number }
    ensures place { result.place ≡ e.0 }
{
    Refusal {
        number,
        place: usize::from(e.0),
    }
}

// Refusal 8: the lowest expression that is not used once; the last is not used at all.
pub fn misused(counts: &[u8; MOST_EXPRESSIONS], cmds: usize) -> Result<(), Refusal>
    requires { cmds ≤ most_expressions }
    ensures { refusal_of result ≡ numbered 8 (first_bad (right_count counts.now cmds) 0 cmds) }
{
    for e in 0..cmds {
        if !right_count(counts[e], e, cmds) {
            return Err(refused(8, Expr(e as u16)));
        }
    }
    Ok(())
}

// Whether the command binds nothing that is bound already.
fn is_new(vars: u64, locals: u64, head: u64) -> bool
    ensures { result ≡ cond (bit vars (bound_var head)) false (not (bit locals (bound_name head))) }
{
    !has(vars, bound_var(head)) && !has(locals, bound_name(head))
}

// Refusal 9: the lowest expression that binds a variable or a name bound before.
pub fn rebound(heads: &[u64], cmds: usize) -> Result<(), Refusal>
    requires { cmds ≤ most_expressions }
    ensures { refusal_of result ≡ numbered 9 (first_bad (is_new heads.now) 0 cmds) }
{
    let mut vars: u64 = 0;
    let mut locals: u64 = 0;
    for e in 0..cmds {
        let head = get_or(heads, e, 0);
        if !is_binder(head) {
            continue;
        }
        if !is_new(vars, locals, head) {
            return Err(refused(9, Expr(e as u16)));
        }
        vars |= single(bound_var(head));
        locals |= single(bound_name(head));
    }
    Ok(())
}
