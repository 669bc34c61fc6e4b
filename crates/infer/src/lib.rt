// The type and effect of one expression: its command and operands are read from the tables, and the rule of the command is applied.
#![tactic(auto, using(crate::proofs::Fields::lead_low, crate::proofs::Fields::lead_local), unfolding(typing::specs::Numbered::result_at, typing::specs::Numbered::fits, syntax::specs::Words::code_in, syntax::specs::Words::decode))]

ghost use Rattle.std.specs.Prelude.{◌≡◌, ℕ, ◌≤◌, ◌/◌, ◌%◌, get_or};
ghost use Rattle.order.specs.Effects.{of_word};
ghost use Rattle.syntax.specs.Words.{code_in, entry_in};
ghost use Rattle.typing.specs.Numbered.{result_at};
ghost use Rattle.equality.specs.Known.{Known};
ghost use Rattle.rules.specs.Answer.{result_in};
ghost use Rattle.rules.specs.Ops.{ops_by};
ghost use Rattle.rules.specs.Commands as by;

pub use rules::Typing;
use rules::{
    Operand, access, apply, assign, associate, cell, divide, function, grant, limit, new_key,
    number, operand_at, pair, part, read, spawn, sum, test, top, variable,
};
use table::{Expr, MOST_VARIABLES, Name, get_or, key_of, name_of};
use types::TypeTable;

// The operand of one byte or four in a head.
fn lead(w: u64) -> u32
    ensures { result ≡ w / 256 % 4294967296 }
{
    (w / 256 % 4294967296) as u32
}

// The commands with two operands or more, of which x is the first; the five places start at `at`, and the next entry is `next`. Any other stands for a number.
fn two<'a>(
    w: u64,
    at: usize,
    x: Operand,
    slots: &'a [u16],
    entries: &'a [u16],
    effects: &'a [u64],
    names: &'a [u16],
    table: &TypeTable<'_>,
    next: u16,
    known: &mut [u64],
) -> Result<Typing, u8>
    requires { (at ≤ 327675) × (x ≡ by.operand_at slots.now entries.now effects.now at) × Known table.now.anc.now table.now.types.now table.now.sets.now known.old }
    ensures { ((var : ℕ → ℕ) → result_in result
        ≡ result_at (ops_by table.now.anc.now names.now) var (entry_in table.now.types.now table.now.sets.now)
        (λ a. get_or entries.now a 0) (λ a. of_word (get_or effects.now a 0)) next (by.two_in slots.now w at))
        × Known table.now.anc.now table.now.types.now table.now.sets.now known.new }
{
    let y = operand_at(slots, entries, effects, at + 1);
    match w % 256 {
        0x33 => pair(table.anc, x, y),
        0x36 => apply(table, x, y, known),
        0x38 => assign(table, x, y, known),
        0x3A => sum(table, x, y),
        0x3B => {
            let z = operand_at(slots, entries, effects, at + 2);
            test(table, x, y, z, get_or(slots, at + 3, 0), known)
        }
        0x3D => grant(table, x, y),
        0x3E => {
            let t = get_or(slots, at + 2, 0);
            new_key(table, names, Name(name_of(w)), x, y, t, known)
        }
        0x3F => associate(table, x, y),
        0x40 => {
            let z = operand_at(slots, entries, effects, at + 2);
            access(table, x, y, z, get_or(slots, at + 3, 0), known)
        }
        0x41 => divide(table, x, y, next),
        _ => number(),
    }
}

// Expression e: its command is in heads and slots, the entries and effects of the expressions before it in entries and effects, and
// the entries of the variables in vars; the next entry that is made is entry `next`. What is known of comparisons is right, and stays so.
pub fn result<'a>(
    e: Expr,
    heads: &'a [u64],
    slots: &'a [u16],
    entries: &'a [u16],
    effects: &'a [u64],
    vars: &'a [u16; MOST_VARIABLES],
    names: &'a [u16],
    table: &TypeTable<'_>,
    next: u16,
    known: &mut [u64],
) -> Result<Typing, u8>
    requires { Known table.now.anc.now table.now.types.now table.now.sets.now known.old }
    ensures { (result_in result
        ≡ result_at (ops_by table.now.anc.now names.now) (λ v. get_or vars.now v 0)
        (entry_in table.now.types.now table.now.sets.now) (λ a. get_or entries.now a 0)
        (λ a. of_word (get_or effects.now a 0)) next (code_in heads.now slots.now e.0))
        × Known table.now.anc.now table.now.types.now table.now.sets.now known.new }
{
    let i = e.0 as usize;
    let w = get_or(heads, i, 0);
    let at = i * 5;
    match w % 256 {
        0x30 => number(),
        0x31 => top(),
        0x32 => variable(vars, key_of(w)),
        0x34 => {
            let x = operand_at(slots, entries, effects, at);
            part(table, x, lead(w))
        }
        0x35 => {
            let x = operand_at(slots, entries, effects, at);
            function(get_or(slots, at + 1, 0), x)
        }
        0x37 => {
            let x = operand_at(slots, entries, effects, at);
            cell(table, get_or(slots, at + 1, 0), x, known)
        }
        0x39 => {
            let x = operand_at(slots, entries, effects, at);
            read(table, x)
        }
        0x3C => limit(table, slots, entries, effects, at, lead(w)),
        0x42 => {
            let x = operand_at(slots, entries, effects, at);
            spawn(table.anc, x)
        }
        _ => two(
            w,
            at,
            operand_at(slots, entries, effects, at),
            slots,
            entries,
            effects,
            names,
            table,
            next,
            known,
        ),
    }
}
