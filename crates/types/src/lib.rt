// Below and above of two types, by their entries.
#![tactic(auto)]

ghost use Rattle.std.specs.Prelude.{◌≡◌};
ghost use Rattle.syntax.specs.Words.{entry_in};
ghost use Rattle.typing.specs.Entries.{sub_in, super_in};
ghost use Rattle.names.specs.Ancestors.{below_by, effects_by};
ghost use Rattle.equality.specs.Known.{Known};

pub use equality::{Entry, MEMORY, TypeTable, entry_at, make_room};
use equality::{Relation, effects, heads, leaves, packed, recalled, remember, same};
use table::{byte_of, first_of, get_or, second_of};

// Whether type a is below type b: a cell's content is compared by equality, and a function's argument the other way round.
// Stays a function of its own beside above and equality::same, since a rule of the project names this form (docs/DECISIONS.md, "Matching forms to places"): the equality calls itself on both parts, and below and above call each other at function arguments.
#[cycle(above_below)]
pub fn below(d: u8, table: &TypeTable<'_>, a: u16, b: u16, known: &mut [u64]) -> bool
    requires { Known table.now.anc.now table.now.types.now table.now.sets.now known.old }
    ensures { (result ≡ sub_in (below_by table.now.anc.now) (effects_by table.now.anc.now) d (entry_in table.now.types.now table.now.sets.now) a b)
        × Known table.now.anc.now table.now.types.now table.now.sets.now known.new }
{
    if d == 0 {
        return false;
    }
    let x = get_or(table.types, a as usize, 0);
    let y = get_or(table.types, b as usize, 0);
    if !heads(Relation::Below, table.anc, x, y) {
        return false;
    }
    let e = d - 1;
    let p = first_of(x);
    let q = first_of(y);
    match byte_of(x) {
        0x11 => { // part by part
            if recalled(known, packed(Relation::Below, d, a, b)) {
                return true;
            }
            if below(e, table, p, q, known) && below(e, table, second_of(x), second_of(y), known) {
                return remember(known, packed(Relation::Below, d, a, b));
            }
            false
        }
        0x12 => same(e, table, p, q, known), // by equality
        0x13 => {
            if recalled(known, packed(Relation::Below, d, a, b)) {
                return true;
            }
            let s = get_or(table.sets, a as usize, 0);
            let t = get_or(table.sets, b as usize, 0);
            if effects(Relation::Below, table.anc, s, t)
                && above(e, table, p, q, known) // the other way round
                && below(e, table, second_of(x), second_of(y), known)
            {
                return remember(known, packed(Relation::Below, d, a, b)); // this pair, this way round
            }
            false
        }
        _ => leaves(x, y),
    }
}

// Whether type a is above type b.
#[cycle(above_below)]
fn above(d: u8, table: &TypeTable<'_>, a: u16, b: u16, known: &mut [u64]) -> bool
    requires { Known table.now.anc.now table.now.types.now table.now.sets.now known.old }
    ensures { (result ≡ super_in (below_by table.now.anc.now) (effects_by table.now.anc.now) d (entry_in table.now.types.now table.now.sets.now) a b)
        × Known table.now.anc.now table.now.types.now table.now.sets.now known.new }
{
    if d == 0 {
        return false;
    }
    let x = get_or(table.types, a as usize, 0);
    let y = get_or(table.types, b as usize, 0);
    if !heads(Relation::Above, table.anc, x, y) {
        return false;
    }
    let e = d - 1;
    let p = first_of(x);
    let q = first_of(y);
    match byte_of(x) {
        0x11 => {
            if recalled(known, packed(Relation::Above, d, a, b)) {
                return true;
            }
            if above(e, table, p, q, known) && above(e, table, second_of(x), second_of(y), known) {
                return remember(known, packed(Relation::Above, d, a, b));
            }
            false
        }
        0x12 => same(e, table, p, q, known),
        0x13 => {
            if recalled(known, packed(Relation::Above, d, a, b)) {
                return true;
            }
            let s = get_or(table.sets, a as usize, 0);
            let t = get_or(table.sets, b as usize, 0);
            if effects(Relation::Above, table.anc, s, t)
                && below(e, table, p, q, known)
                && above(e, table, second_of(x), second_of(y), known)
            {
                return remember(known, packed(Relation::Above, d, a, b));
            }
            false
        }
        _ => leaves(x, y),
    }
}
