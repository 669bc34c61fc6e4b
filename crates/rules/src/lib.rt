// The rule of each command: the type and effect of an expression from those of its operands.
#![tactic(auto, unfolding(equality::specs::Entry::entry_of, crate::specs::Answer::result_in, crate::specs::Answer::made, typing::specs::Layout::rekeyed, typing::specs::Numbered::key_in, typing::specs::Numbered::need, typing::specs::Numbered::need_num, typing::specs::Numbered::need_pair, typing::specs::Numbered::need_cell, typing::specs::Numbered::need_fn, typing::specs::Numbered::need_lim, typing::specs::Numbered::need_grant))]

ghost use Rattle.std.specs.Prelude.{◌≡◌, ◌≤◌, ◌%◌, get_or, eqb};
ghost use Rattle.typing.specs.Layout as layout;
ghost use Rattle.typing.specs.Numbered.{key_in};
ghost use Rattle.names.specs.Ancestors.{reduce_by, touch_by};
ghost use Rattle.equality.specs.Entry.{entry_of};
ghost use Rattle.equality.specs.Known.{Known};
ghost use Rattle.rules.specs.Answer.{made, result_in};
ghost use Rattle.rules.specs.Commands as by;

use names::{eff_below, join, touch};
use table::{MOST_DEPTH, MOST_NAMES, MOST_VARIABLES, Name, get_or};
use types::{Entry, TypeTable, entry_at};

// The type and effect of an expression: a new entry; two new ones, for a number, whose entry is given, and for a pair with both parts there; or one already there.
// A rule gives that, or the number of a refusal: no more, since which expression it is of is not known here.
#[derive(Clone, Copy)]
pub enum Typing {
    Makes(Entry, u64),
    Shares(u16, u64),
    Points(u16, u64),
}

// What is known of an operand: the entry of its type, and its effect.
#[derive(Clone, Copy)]
pub struct Operand {
    pub ty: u16,
    pub effect: u64,
}

// The operand that stands at place j.
pub fn operand_at<'a>(slots: &'a [u16], entries: &'a [u16], effects: &'a [u64], j: usize) -> Operand
    ensures { result ≡ by.operand_at slots.now entries.now effects.now j }
{
    let a = get_or(slots, j, 0) as usize;
    Operand {
        ty: get_or(entries, a, 0),
        effect: get_or(effects, a, 0),
    }
}

// An effect with the name of a touched value's key, reduced.
fn touched(anc: &[u64; MOST_NAMES], q: Name, s: u64) -> u64
    ensures { result ≡ reduce_by anc.now (touch_by q.0 s) }
{
    names::reduce(anc, touch(q, s))
}

// Whether type a is a subtype of type t. One of them is a declared type, which is no deeper than 16.
fn fits(table: &TypeTable<'_>, a: u16, t: u16, known: &mut [u64]) -> bool
    requires { Known table.now.anc.now table.now.types.now table.now.sets.now known.old }
    ensures { (result ≡ by.fits_by table.now.anc.now table.now.types.now table.now.sets.now a t)
        × Known table.now.anc.now table.now.types.now table.now.sets.now known.new }
{
    types::below(MOST_DEPTH, table, a, t, known)
}

// Whether the types of two branches are subtypes of type t.
fn branches_fit(table: &TypeTable<'_>, a: u16, b: u16, t: u16, known: &mut [u64]) -> bool
    requires { Known table.now.anc.now table.now.types.now table.now.sets.now known.old }
    ensures { (result ≡ by.branches_fit table.now.anc.now table.now.types.now table.now.sets.now a b t)
        × Known table.now.anc.now table.now.types.now table.now.sets.now known.new }
{
    fits(table, a, t, known) && fits(table, b, t, known)
}

// 0x30, 0x31, 0x32.
pub fn number() -> Result<Typing, u8>
    ensures { result_in result ≡ by.number_by }
{
    Ok(Typing::Makes(Entry::Number(Name(0)), 0))
}

pub fn top() -> Result<Typing, u8>
    ensures { result_in result ≡ by.top_by }
{
    Ok(Typing::Makes(Entry::Limit(Name(0), Name(1)), 0))
}

pub fn variable(vars: &[u16; MOST_VARIABLES], v: u8) -> Result<Typing, u8>
    ensures { result_in result ≡ by.variable_by vars.now v }
{
    Ok(Typing::Points(get_or(vars, v as usize, 0), 0))
}

// 0x33.
pub fn pair(anc: &[u64; MOST_NAMES], x: Operand, y: Operand) -> Result<Typing, u8>
    ensures { result_in result ≡ by.pair_by anc.now x y }
{
    Ok(Typing::Makes(
        Entry::Pair(Name(0), x.ty, y.ty),
        names::reduce(anc, join(x.effect, y.effect)),
    ))
}

// 0x34.
pub fn part(table: &TypeTable<'_>, x: Operand, i: u32) -> Result<Typing, u8>
    ensures { result_in result ≡ by.part_by table.now.anc.now table.now.types.now table.now.sets.now x i }
{
    let Entry::Pair(q, a, b) = entry_at(table.types, table.sets, x.ty) else {
        return Err(11);
    };
    let j = if i == 1 { a } else { b };
    Ok(Typing::Points(j, touched(table.anc, q, x.effect)))
}

// 0x35.
pub fn function(t: u16, x: Operand) -> Result<Typing, u8>
    ensures { result_in result ≡ by.function_by t x }
{
    Ok(Typing::Makes(Entry::Function(Name(0), t, x.ty, x.effect), 0))
}

// 0x36.
pub fn apply(table: &TypeTable<'_>, x: Operand, y: Operand, known: &mut [u64]) -> Result<Typing, u8>
    requires { Known table.now.anc.now table.now.types.now table.now.sets.now known.old }
    ensures { (result_in result ≡ by.apply_by table.now.anc.now table.now.types.now table.now.sets.now x y)
        × Known table.now.anc.now table.now.types.now table.now.sets.now known.new }
{
    let Entry::Function(q, t, u, l) = entry_at(table.types, table.sets, x.ty) else {
        return Err(11);
    };
    if !fits(table, y.ty, t, known) {
        return Err(12);
    }
    let s = join(l, join(x.effect, y.effect));
    Ok(Typing::Points(u, touched(table.anc, q, s)))
}

// 0x37.
pub fn cell(table: &TypeTable<'_>, t: u16, x: Operand, known: &mut [u64]) -> Result<Typing, u8>
    requires { Known table.now.anc.now table.now.types.now table.now.sets.now known.old }
    ensures { (result_in result ≡ by.cell_by table.now.anc.now table.now.types.now table.now.sets.now t x)
        × Known table.now.anc.now table.now.types.now table.now.sets.now known.new }
{
    if !fits(table, x.ty, t, known) {
        return Err(12);
    }
    Ok(Typing::Makes(Entry::Cell(Name(0), t), x.effect))
}

// 0x38.
pub fn assign(
    table: &TypeTable<'_>,
    x: Operand,
    y: Operand,
    known: &mut [u64],
) -> Result<Typing, u8>
    requires { Known table.now.anc.now table.now.types.now table.now.sets.now known.old }
    ensures { (result_in result ≡ by.assign_by table.now.anc.now table.now.types.now table.now.sets.now x y)
        × Known table.now.anc.now table.now.types.now table.now.sets.now known.new }
{
    let Entry::Cell(q, t) = entry_at(table.types, table.sets, x.ty) else {
        return Err(11);
    };
    if !fits(table, y.ty, t, known) {
        return Err(12);
    }
    Ok(Typing::Points(t, touched(table.anc, q, join(x.effect, y.effect))))
}

// 0x39.
pub fn read(table: &TypeTable<'_>, x: Operand) -> Result<Typing, u8>
    ensures { result_in result ≡ by.read_by table.now.anc.now table.now.types.now table.now.sets.now x }
{
    let Entry::Cell(q, t) = entry_at(table.types, table.sets, x.ty) else {
        return Err(11);
    };
    Ok(Typing::Points(t, touched(table.anc, q, x.effect)))
}

// 0x3A.
pub fn sum(table: &TypeTable<'_>, x: Operand, y: Operand) -> Result<Typing, u8>
    ensures { result_in result ≡ by.sum_by table.now.anc.now table.now.types.now table.now.sets.now x y }
{
    let Entry::Number(p) = entry_at(table.types, table.sets, x.ty) else {
        return Err(11);
    };
    let Entry::Number(q) = entry_at(table.types, table.sets, y.ty) else {
        return Err(11);
    };
    let s = touch(q, join(x.effect, y.effect));
    Ok(Typing::Makes(Entry::Number(Name(0)), touched(table.anc, p, s)))
}

// 0x3B.
pub fn test(
    table: &TypeTable<'_>,
    x: Operand,
    y: Operand,
    z: Operand,
    t: u16,
    known: &mut [u64],
) -> Result<Typing, u8>
    requires { Known table.now.anc.now table.now.types.now table.now.sets.now known.old }
    ensures { (result_in result ≡ by.test_by table.now.anc.now table.now.types.now table.now.sets.now x y z t)
        × Known table.now.anc.now table.now.types.now table.now.sets.now known.new }
{
    let Entry::Number(q) = entry_at(table.types, table.sets, x.ty) else {
        return Err(11);
    };
    if !branches_fit(table, y.ty, z.ty, t, known) {
        return Err(12);
    }
    let s = join(x.effect, join(y.effect, z.effect));
    Ok(Typing::Points(t, touched(table.anc, q, s)))
}

// 0x3C: n keys at place `at` and after it, of which there are at most four, and the body at the fifth place.
pub fn limit<'a>(
    table: &TypeTable<'_>,
    slots: &'a [u16],
    entries: &'a [u16],
    effects: &'a [u64],
    at: usize,
    n: u32,
) -> Result<Typing, u8>
    requires { at ≤ 327675 }
    ensures { result_in result
        ≡ by.limit_by table.now.anc.now table.now.types.now table.now.sets.now slots.now entries.now effects.now at n }
{
    let mut rs: u64 = 0;
    let mut s: u64 = 0;
    for j in at..at + n.min(4) as usize {
        let x = operand_at(slots, entries, effects, j);
        let Entry::Limit(q, r) = entry_at(table.types, table.sets, x.ty) else {
            return Err(11);
        };
        rs = touch(r, rs);
        s = touch(q, join(x.effect, s));
    }
    let body = operand_at(slots, entries, effects, at + 4);
    if !eff_below(table.anc, body.effect, rs) {
        return Err(13);
    }
    Ok(Typing::Points(body.ty, names::reduce(table.anc, join(s, body.effect))))
}

// 0x3D.
pub fn grant(table: &TypeTable<'_>, x: Operand, y: Operand) -> Result<Typing, u8>
    ensures { result_in result ≡ by.grant_by table.now.anc.now table.now.types.now table.now.sets.now x y }
{
    let Entry::Grant(q, r) = entry_at(table.types, table.sets, x.ty) else {
        return Err(11);
    };
    let s = join(x.effect, names::drop_below(table.anc, r, y.effect));
    Ok(Typing::Points(y.ty, touched(table.anc, q, s)))
}

// Whether u is the upper name of r.
fn is_upper(names: &[u16], r: Name, u: Name) -> bool
    ensures { result ≡ eqb u.0 (get_or names.now r.0 0 % 256) }
{
    u16::from(u.0) == get_or(names, r.0 as usize, 0) % 256
}

// 0x3E.
pub fn new_key<'a>(
    table: &TypeTable<'_>,
    names: &'a [u16],
    r: Name,
    x: Operand,
    y: Operand,
    t: u16,
    known: &mut [u64],
) -> Result<Typing, u8>
    requires { Known table.now.anc.now table.now.types.now table.now.sets.now known.old }
    ensures { (result_in result ≡ by.new_key_by table.now.anc.now table.now.types.now table.now.sets.now names.now r.0 x y t)
        × Known table.now.anc.now table.now.types.now table.now.sets.now known.new }
{
    let Entry::Limit(q, u) = entry_at(table.types, table.sets, x.ty) else {
        return Err(11);
    };
    if !is_upper(names, r, u) {
        return Err(11);
    }
    if !fits(table, y.ty, t, known) {
        return Err(12);
    }
    let s = join(x.effect, names::raise(r, u, y.effect));
    Ok(Typing::Points(t, touched(table.anc, q, s)))
}

// The key of an entry, and an entry with another key. These stay two matches: with the key in a struct beside the kind, each rule would match Entry { key: q, kind: Kind::Pair(a, b) }.
fn key(e: Entry) -> Name
    ensures { result.0 ≡ key_in (entry_of e) }
{
    match e {
        Entry::Number(q)
        | Entry::Pair(q, _, _)
        | Entry::Cell(q, _)
        | Entry::Function(q, _, _, _)
        | Entry::Limit(q, _)
        | Entry::Grant(q, _) => q,
        Entry::Nothing => Name(0),
    }
}

fn rekeyed(k: Name, e: Entry) -> Entry
    ensures { made (entry_of result) ≡ layout.rekeyed k.0 (entry_of e) }
{
    match e {
        Entry::Number(_) | Entry::Nothing => Entry::Number(k),
        Entry::Pair(_, a, b) => Entry::Pair(k, a, b),
        Entry::Cell(_, a) => Entry::Cell(k, a),
        Entry::Function(_, a, b, s) => Entry::Function(k, a, b, s),
        Entry::Limit(_, r) => Entry::Limit(k, r),
        Entry::Grant(_, r) => Entry::Grant(k, r),
    }
}

// 0x3F.
pub fn associate(table: &TypeTable<'_>, x: Operand, y: Operand) -> Result<Typing, u8>
    ensures { result_in result ≡ by.associate_by table.now.anc.now table.now.types.now table.now.sets.now x y }
{
    let Entry::Limit(q, r) = entry_at(table.types, table.sets, y.ty) else {
        return Err(11);
    };
    let e = entry_at(table.types, table.sets, x.ty);
    let s = touch(q, join(x.effect, y.effect));
    Ok(Typing::Makes(rekeyed(r, e), touched(table.anc, key(e), s)))
}

// 0x40: the first branch's effect without the names below the key's own name, the second's whole.
pub fn access(
    table: &TypeTable<'_>,
    x: Operand,
    y: Operand,
    z: Operand,
    t: u16,
    known: &mut [u64],
) -> Result<Typing, u8>
    requires { Known table.now.anc.now table.now.types.now table.now.sets.now known.old }
    ensures { (result_in result ≡ by.access_by table.now.anc.now table.now.types.now table.now.sets.now x y z t)
        × Known table.now.anc.now table.now.types.now table.now.sets.now known.new }
{
    let Entry::Limit(q, r) = entry_at(table.types, table.sets, x.ty) else {
        return Err(11);
    };
    if !branches_fit(table, y.ty, z.ty, t, known) {
        return Err(12);
    }
    let s = join(
        x.effect,
        join(names::drop_below(table.anc, r, y.effect), z.effect),
    );
    Ok(Typing::Points(t, touched(table.anc, q, s)))
}

// 0x41: entry `next` for the number, and then one for the pair, with both its parts there.
pub fn divide(table: &TypeTable<'_>, x: Operand, y: Operand, next: u16) -> Result<Typing, u8>
    ensures { result_in result ≡ by.divide_by table.now.anc.now table.now.types.now table.now.sets.now x y next }
{
    let Entry::Number(p) = entry_at(table.types, table.sets, x.ty) else {
        return Err(11);
    };
    let Entry::Number(q) = entry_at(table.types, table.sets, y.ty) else {
        return Err(11);
    };
    let s = touch(q, join(x.effect, y.effect));
    Ok(Typing::Shares(next, touched(table.anc, p, s)))
}

// 0x42: a number, where the body's effect is empty, whatever its type.
pub fn spawn(anc: &[u64; MOST_NAMES], x: Operand) -> Result<Typing, u8>
    ensures { result_in result ≡ by.spawn_by anc.now x }
{
    if !eff_below(anc, x.effect, 0) {
        return Err(16);
    }
    number()
}
