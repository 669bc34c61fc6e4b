// Names, types, host values and rights: the conditions on each of them, and the words of an entry.
ghost use Rattle.std.specs.Prelude.{◌≡◌};
ghost use Rattle.names.specs.Ancestors.{names_in, declared_of, set_ok_by};
ghost use Rattle.entry.specs.Entries.{part_depth, two_depths, typed_of};
ghost use Rattle.entry.specs.Entries.{name_entry, key_type_of, function_of, type_by, type_entry, host_word_ok, value_entry, rights_entry};

use super::Entry;
use super::bytes::{op8, op16, op32, op64};
use table::{MOST_DEPTH, MOST_NAMES, byte_of, get_or, type_word};

// The depth of part a of the new type n; 255 where it is not earlier.
// Stays a number: 255 is deeper than every type, so that the deeper of two parts needs no case for one that is missing (`two_depths`).
#[tactic(auto, unfolding(crate::specs::Entries::part_depth))]
fn part_depth(depths: &[u8], n: usize, a: u16) -> u8
    ensures { result ≡ part_depth depths.now n a }
{
    let i = a as usize;
    if i < n { get_or(depths, i, 0) } else { 255 }
}

// A type whose deepest part has depth d: it is one deeper, and at most 16.
#[tactic(auto, unfolding(crate::specs::Entries::typed_of))]
fn typed(w: u64, s: u64, d: u8) -> Result<Entry, u8>
    ensures { result ≡ typed_of w s d }
{
    if d < MOST_DEPTH {
        Ok(Entry::Typed(w, s, d + 1))
    } else {
        Err(6)
    }
}

// 0x01, 0x02: the upper name is not 0 and declared earlier, and of a host name it is a host name or 1.
#[tactic(auto, unfolding(crate::specs::Entries::name_entry))]
pub fn name_entry(op: u8, job: &[u8], names: &[u16], n: usize) -> Result<Entry, u8>
    ensures { result ≡ name_entry op job.now names.now n }
{
    let u = op8(job, 1);
    if u == 0 || !names::is_declared(n, u) || op == 1 && !names::is_host_name(names, n, u) {
        return Err(6);
    }
    let sort: u16 = if op == 1 { 256 } else { 512 };
    Ok(Entry::Named(u16::from(u) + sort))
}

// 0x14, 0x15: the key's own name is not 0, and declared among n.
#[tactic(auto, unfolding(crate::specs::Entries::key_type_of))]
fn key_type(op: u8, q: u8, r: u8, n: usize) -> Result<Entry, u8>
    ensures { result ≡ key_type_of op q r (declared_of n r) }
{
    if r == 0 || !names::is_declared(n, r) {
        return Err(6);
    }
    typed(type_word(op, q, u16::from(r), 0), 0, 0)
}

// 0x13: the effect is a reduced set of declared names.
#[tactic(auto, unfolding(crate::specs::Entries::function_of))]
fn function_type(
    q: u8,
    a: u16,
    b: u16,
    s: u64,
    d: u8,
    anc: &[u64; MOST_NAMES],
    n: usize,
) -> Result<Entry, u8>
    ensures { result ≡ function_of q a b s d (set_ok_by anc.now n s) }
{
    if !names::set_ok(n, anc, s) {
        return Err(6);
    }
    typed(type_word(0x13, q, a, b), s, d)
}

#[tactic(auto, unfolding(crate::specs::Entries::two_depths))]
fn two_depths(depths: &[u8], t: usize, a: u16, b: u16) -> u8
    ensures { result ≡ two_depths depths.now t a b }
{
    part_depth(depths, t, a).max(part_depth(depths, t, b))
}

// 0x10 to 0x15, with key q, after t types; by the ancestors of the n names.
#[tactic(auto, unfolding(crate::specs::Entries::type_by))]
fn type_by(
    op: u8,
    q: u8,
    job: &[u8],
    anc: &[u64; MOST_NAMES],
    n: usize,
    depths: &[u8],
    t: usize,
) -> Result<Entry, u8>
    ensures { result ≡ type_by op q job.now anc.now n depths.now t }
{
    let a = op16(job, 2);
    let b = op16(job, 4);
    match op {
        0x10 => typed(type_word(op, q, 0, 0), 0, 0),
        0x11 => typed(type_word(op, q, a, b), 0, two_depths(depths, t, a, b)),
        0x12 => typed(type_word(op, q, a, 0), 0, part_depth(depths, t, a)),
        0x13 => function_type(q, a, b, op64(job, 6), two_depths(depths, t, a, b), anc, n),
        _ => key_type(op, q, op8(job, 2), n),
    }
}

#[tactic(auto, unfolding(crate::specs::Entries::type_entry))]
pub fn type_entry(
    op: u8,
    job: &[u8],
    anc: &[u64; MOST_NAMES],
    n: usize,
    depths: &[u8],
    t: usize,
) -> Result<Entry, u8>
    ensures { result ≡ type_entry op job.now anc.now n depths.now t }
{
    let q = op8(job, 1);
    if !names::is_declared(n, q) {
        return Err(6);
    }
    type_by(op, q, job, anc, n, depths, t)
}

// Whether a host value may have the type whose word is w, and start at x.
#[tactic(auto, unfolding(crate::specs::Entries::host_word_ok))]
fn host_word_ok(types: &[u64], names: &[u16], n: usize, w: u64, x: u32) -> bool
    ensures { result ≡ host_word_ok types.now (names_in names.now n) w x }
{
    let k = byte_of(w);
    let q = byte_of(w / 256);
    if k == 0x12 {
        let i = (w / 65536 % 65536) as usize;
        names::is_open_name(names, n, q) && get_or(types, i, 0) % 65536 == 0x10
    } else {
        0x14 <= k
            && names::is_open_name(names, n, q)
            && names::is_open_name(names, n, byte_of(w / 65536))
            && x == 0
    }
}

// 0x20: of a declared type.
#[tactic(auto, unfolding(crate::specs::Entries::value_entry))]
pub fn value_entry(
    job: &[u8],
    names: &[u16],
    n: usize,
    types: &[u64],
    t: usize,
) -> Result<Entry, u8>
    ensures { result ≡ value_entry job.now (names_in names.now n) types.now t }
{
    let ty = op16(job, 1);
    let x = op32(job, 3);
    let i = ty as usize;
    if i < t && host_word_ok(types, names, n, get_or(types, i, 0), x) {
        Ok(Entry::Valued(0x20 + 256 * (ty as u64) + 16777216 * (x as u64)))
    } else {
        Err(6)
    }
}

// 0x21: a reduced set of 1 and host names.
#[tactic(auto, unfolding(crate::specs::Entries::rights_entry))]
pub fn rights_entry(
    job: &[u8],
    anc: &[u64; MOST_NAMES],
    names: &[u16],
    n: usize,
) -> Result<Entry, u8>
    ensures { result ≡ rights_entry job.now anc.now (names_in names.now n) }
{
    let s = op64(job, 1);
    if names::rights_ok(names, n, anc, s) {
        Ok(Entry::Rights(s))
    } else {
        Err(6)
    }
}
