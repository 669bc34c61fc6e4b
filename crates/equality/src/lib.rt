// Types in a lent table of words: what an entry stands for, what is remembered of comparisons, how the words of two entries compare, and whether two types are equal.
#![tactic(auto, using(crate::proofs::Words::name_in_first), unfolding(crate::specs::Known::pick, crate::specs::Known::keys_by, crate::specs::Known::heads_by, crate::specs::Known::leaf_by, crate::specs::Known::number_of, crate::specs::Entry::entry_of, syntax::specs::Words::entry_in, syntax::specs::Words::entry_bits))]

ghost use Rattle.std.specs.Prelude.{◌≡◌, true, get_or, set, eqb};
ghost use Rattle.syntax.specs.Words.{entry_in};
ghost use Rattle.typing.specs.Entries.{same_in};
ghost use Rattle.names.specs.Ancestors.{below_by, eff_below_by};
ghost use Rattle.equality.specs.Entry.{entry_of};
ghost use Rattle.equality.specs.Known.{Known, Stays, heads_by, keys_by, leaves_of, pack_of, slot_of};

use table::{MOST_NAMES, Name, byte_of, first_of, get_or, key_of, name_of, second_of};

// The words of a memory of comparisons: a prime, so that comparisons of few types seldom share a place.
pub const MEMORY: usize = 1021;

// A type by its head: its key's name, and the entries of its parts; a function has its effect, and a key the name that it is for.
#[derive(Clone, Copy)]
pub enum Entry {
    Number(Name),
    Pair(Name, u16, u16),
    Cell(Name, u16),
    Function(Name, u16, u16, u64),
    Limit(Name, Name),
    Grant(Name, Name),
    Nothing, // Stays a kind: with Option<Entry> each rule would match Some(Entry::Pair(..)), and those that take any kind would still say what stands for none.
}

// The type table, lent to be read, with the ancestors of the names in it.
#[derive(Clone, Copy)]
pub struct TypeTable<'a> {
    pub anc: &'a [u64; MOST_NAMES],
    pub types: &'a [u64],
    pub sets: &'a [u64],
}

// Entry i of the tables.
pub fn entry_at<'a>(types: &'a [u64], sets: &'a [u64], i: u16) -> Entry
    ensures { entry_of result ≡ entry_in types.now sets.now i }
{
    let w = get_or(types, i as usize, 0);
    let q = Name(key_of(w));
    match byte_of(w) {
        0x10 => Entry::Number(q),
        0x11 => Entry::Pair(q, first_of(w), second_of(w)),
        0x12 => Entry::Cell(q, first_of(w)),
        0x13 => {
            let s = get_or(sets, i as usize, 0);
            Entry::Function(q, first_of(w), second_of(w), s)
        }
        0x14 => Entry::Limit(q, Name(name_of(w))),
        0x15 => Entry::Grant(q, Name(name_of(w))),
        _ => Entry::Nothing,
    }
}

// How the first of two types stands to the second; keys and effects stand so too.
#[derive(Clone, Copy, PartialEq, Eq)]
pub enum Relation {
    Same,
    Below,
    Above,
}

// Whether two keys compare.
fn keys(rel: Relation, anc: &[u64; MOST_NAMES], p: u8, q: u8) -> bool
    ensures { result ≡ keys_by (below_by anc.now) rel p q }
{
    match rel {
        Relation::Same => p == q,
        Relation::Below => names::below(anc, Name(p), Name(q)),
        Relation::Above => names::below(anc, Name(q), Name(p)),
    }
}

// Whether two effects compare.
pub fn effects(rel: Relation, anc: &[u64; MOST_NAMES], s: u64, t: u64) -> bool
    ensures { result ≡ keys_by (eff_below_by anc.now) rel s t }
{
    match rel {
        Relation::Same => s == t,
        Relation::Below => names::eff_below(anc, s, t),
        Relation::Above => names::eff_below(anc, t, s),
    }
}

// A comparison in one word, and the place for it in a memory. A shorter one remembers less.
pub fn packed(rel: Relation, d: u8, a: u16, b: u16) -> u64
    ensures { result ≡ pack_of rel d a b }
{
    rel as u64 * 1099511627776 + u64::from(d) * 4294967296 + u64::from(b) * 65536 + u64::from(a)
}

fn slot(w: u64) -> usize
    ensures { result ≡ slot_of w }
{
    w as usize % MEMORY
}

// Whether a comparison is remembered.
pub fn recalled(known: &[u64], w: u64) -> bool
    ensures { result ≡ eqb (get_or known.now (slot_of w) 0) w }
{
    get_or(known, slot(w), 0) == w
}

// Remembers a comparison, and answers that it holds. Only of closed questions: under general types the answer would depend on what names stand for.
pub fn remember(known: &mut [u64], w: u64) -> bool
    ensures { (result ≡ true) × (known.new ≡ set known.old (slot_of w) w) }
{
    table::set_at(known, slot(w), w);
    true
}

// To be called before entry n is written: what is remembered stays right if no entry stands there, and else it is forgotten.
pub fn make_room<'a>(types: &'a [u64], n: usize, known: &mut [u64])
    ensures { Stays types.now n known.old known.new }
{
    if get_or(types, n, 0) != 0 {
        known.fill(0);
    }
}

// Whether the heads of two words compare: their kinds are the same, and their keys compare.
pub fn heads(rel: Relation, anc: &[u64; MOST_NAMES], x: u64, y: u64) -> bool
    ensures { result ≡ heads_by (below_by anc.now) rel x y }
{
    byte_of(x) == byte_of(y) && keys(rel, anc, key_of(x), key_of(y))
}

// Whether the names of two limit or grant keys are the same; numbers have nothing more to compare, and other kinds are no leaves.
pub fn leaves(x: u64, y: u64) -> bool
    ensures { result ≡ leaves_of x y }
{
    match byte_of(x) {
        0x10 => true,
        0x14 | 0x15 => name_of(x) == name_of(y),
        _ => false,
    }
}

// Whether types a and b are equal down to the leaves, of which d levels are looked at. What is found to hold is remembered.
// Stays a function of its own beside below and above of crate types, since a rule of the project names this form (docs/DECISIONS.md, "Matching forms to places"): the equality calls itself on both parts, and below and above call each other at function arguments.
pub fn same(d: u8, table: &TypeTable<'_>, a: u16, b: u16, known: &mut [u64]) -> bool
    requires { Known table.now.anc.now table.now.types.now table.now.sets.now known.old }
    ensures { (result ≡ same_in d (entry_in table.now.types.now table.now.sets.now) a b)
        × Known table.now.anc.now table.now.types.now table.now.sets.now known.new }
{
    if d == 0 {
        return false;
    }
    let x = get_or(table.types, a as usize, 0);
    let y = get_or(table.types, b as usize, 0);
    if !heads(Relation::Same, table.anc, x, y) {
        return false;
    }
    let e = d - 1;
    let p = first_of(x);
    let q = first_of(y);
    match byte_of(x) {
        0x11 => {
            if recalled(known, packed(Relation::Same, d, a, b)) {
                return true;
            }
            if same(e, table, p, q, known) && same(e, table, second_of(x), second_of(y), known) {
                return remember(known, packed(Relation::Same, d, a, b));
            }
            false
        }
        0x12 => same(e, table, p, q, known),
        0x13 => {
            if recalled(known, packed(Relation::Same, d, a, b)) {
                return true;
            }
            let s = get_or(table.sets, a as usize, 0);
            let t = get_or(table.sets, b as usize, 0);
            if effects(Relation::Same, table.anc, s, t)
                && same(e, table, p, q, known)
                && same(e, table, second_of(x), second_of(y), known)
            {
                return remember(known, packed(Relation::Same, d, a, b));
            }
            false
        }
        _ => leaves(x, y),
    }
}
