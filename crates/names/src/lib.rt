// Names and sets of names in words: what is below what, reducing, dropping, raising.
#![tactic(auto)]

ghost use Rattle.std.specs.Prelude.{◌≡◌, ◌<◌, cond, get_or, ltb};
ghost use Rattle.std.specs.Iterator.{YieldsFirst, item_count};
ghost use Rattle.order.specs.Sets.{bit, members, all_of};
ghost use Rattle.syntax.specs.Reading.{host_name, open_name, local_name};
ghost use Rattle.names.specs.Ancestors.{name_of, names_in, entered, ancestors_by, lowest, one_of, nonzero};
ghost use Rattle.names.specs.Ancestors.{below_by, meets_by, eff_below_by, maximal_by, reduced_by, reduce_by, stays_by, drop_by, touch_by, join_by, raise_by};
ghost use Rattle.names.specs.Ancestors.{declared_of, set_ok_by, rights_ok_by};

use table::{MOST_DECLARED, MOST_NAMES};
pub use table::{Name, get_or};

// The entry of name n in a table of ancestors, and none for a number that is no name.
fn entry(anc: &[u64; MOST_NAMES], n: u8) -> u64
    ensures { result ≡ get_or anc.now n 0 }
{
    get_or(anc, n as usize, 0)
}

// Whether n is in the set s.
pub fn has(s: u64, n: u8) -> bool
    ensures { result ≡ bit s n }
{
    n < 64 && (s >> n) % 2 == 1
}

// The lowest member of s; 64 for none.
fn low(s: u64) -> u8
    ensures { result ≡ lowest s }
{
    u64::trailing_zeros(s) as u8
}

// The members of a set, from the lowest up.
#[derive(Clone, Copy)]
struct Members(u64);

impl Iterator for Members {
    type Item = u8;

    ghost next_gives = { YieldsFirst (λ s. members s.0) };

    ghost remaining = { item_count (λ s. members s.0) };

    fn next(&mut self) -> Option<u8> {
        if self.0 == 0 {
            return None;
        }
        let n = low(self.0);
        self.0 &= self.0 - 1;
        Some(n)
    }
}

// The set of n alone; none for a number that is no name.
pub fn single(n: u8) -> u64
    ensures { result ≡ one_of n }
{
    if n < 64 { 1u64 << n } else { 0 }
}

// The set of n alone, or none.
#[tactic(auto, unfolding(crate::specs::Ancestors::one_of))]
fn single_if(on: bool, n: u8) -> u64
    ensures { result ≡ cond on (one_of n) 0 }
{
    if on { single(n) } else { 0 }
}

// s without 0, which is no name of an effect.
#[tactic(auto, unfolding(crate::specs::Ancestors::nonzero))]
fn proper(s: u64) -> u64
    ensures { result ≡ nonzero s }
{
    s - s % 2
}

// The table of ancestors with name a, whose word in the names table is w: its own bit, and the entry of its upper name. A number that is no name changes nothing.
pub fn enter(anc: &mut [u64; MOST_NAMES], a: usize, w: u16)
    ensures { anc.new ≡ cond (ltb a 64) (entered anc.old a (name_of w)) anc.old }
{
    if a < MOST_NAMES {
        anc[a] = single(a as u8) | entry(anc, (w % 256) as u8);
    }
}

// The names at or above each name. An upper name is declared before its lower names, so one pass finds them.
pub fn ancestors(names: &[u16], n: usize) -> [u64; MOST_NAMES]
    ensures { result ≡ ancestors_by (names_in names.now n) }
{
    let mut anc = [0u64; MOST_NAMES];
    anc[0] = 0xFFFF_FFFF_FFFF_FFFF;
    anc[1] = 2;
    for k in 0..n.min(MOST_DECLARED) {
        let a = k + 2;
        enter(&mut anc, a, get_or(names, a, 0));
    }
    anc
}

// Whether a is below b: a is 0 or b, or b is above a.
#[tactic(auto, unfolding(crate::specs::Ancestors::below_by))]
pub fn below(anc: &[u64; MOST_NAMES], a: Name, b: Name) -> bool
    ensures { result ≡ below_by anc.now a.0 b.0 }
{
    a.0 == 0 || a.0 == b.0 || has(entry(anc, a.0), b.0)
}

// Whether a name of t is at or above n.
#[tactic(auto, unfolding(crate::specs::Ancestors::meets_by))]
fn meets(anc: &[u64; MOST_NAMES], t: u64, n: u8) -> bool
    ensures { result ≡ meets_by anc.now t n }
{
    entry(anc, n) & t != 0
}

// Whether each name of s is below some name of t.
pub fn eff_below(anc: &[u64; MOST_NAMES], s: u64, t: u64) -> bool
    ensures { result ≡ eff_below_by anc.now s t }
{
    for n in Members(proper(s)) {
        if !meets(anc, t, n) {
            return false;
        }
    }
    true
}

// Whether n is not 0, and no other name of s is at or above it.
fn maximal(anc: &[u64; MOST_NAMES], s: u64, n: u8) -> bool
    requires { n < 64 }
    ensures { result ≡ maximal_by anc.now s n }
{
    n != 0 && entry(anc, n) & s == single(n)
}

// Whether s has no 0, and no name below another.
pub fn reduced(anc: &[u64; MOST_NAMES], s: u64) -> bool
    ensures { result ≡ reduced_by anc.now s }
{
    for n in Members(s) {
        if !maximal(anc, s, n) {
            return false;
        }
    }
    true
}

// The names of s that are not below another.
pub fn reduce(anc: &[u64; MOST_NAMES], s: u64) -> u64
    ensures { result ≡ reduce_by anc.now s }
{
    let mut acc: u64 = 0;
    for n in Members(s) {
        acc |= single_if(maximal(anc, s, n), n);
    }
    acc
}

// Whether n is not below r.
#[tactic(auto, unfolding(crate::specs::Ancestors::stays_by))]
fn stays(anc: &[u64; MOST_NAMES], r: Name, n: u8) -> bool
    ensures { result ≡ stays_by anc.now r.0 n }
{
    !below(anc, Name(n), r)
}

// s without 0 and without the names below r.
pub fn drop_below(anc: &[u64; MOST_NAMES], r: Name, s: u64) -> u64
    ensures { result ≡ drop_by anc.now r.0 s }
{
    let mut acc: u64 = 0;
    for n in Members(proper(s)) {
        acc |= single_if(stays(anc, r, n), n);
    }
    acc
}

// s without 0, with u in place of r.
#[tactic(auto, unfolding(crate::specs::Ancestors::raise_by))]
pub fn raise(r: Name, u: Name, s: u64) -> u64
    ensures { result ≡ raise_by r.0 u.0 s }
{
    let t = proper(s);
    if has(t, r.0) {
        single(u.0) | (t ^ single(r.0))
    } else {
        t
    }
}

// s with q; without a key, s as it is.
#[tactic(auto, unfolding(crate::specs::Ancestors::touch_by))]
pub fn touch(q: Name, s: u64) -> u64
    ensures { result ≡ touch_by q.0 s }
{
    if q.0 == 0 { s } else { single(q.0) | s }
}

// The names of s and of t.
pub fn join(s: u64, t: u64) -> u64
    ensures { result ≡ join_by s t }
{
    s | t
}

// A name that is 0, 1 or one of n declared ones.
pub fn is_declared(n: usize, q: u8) -> bool
    ensures { result ≡ declared_of n q }
{
    q < 2 || usize::from(q) - 2 < n
}

// A host name or 1.
pub fn is_host_name(names: &[u16], n: usize, q: u8) -> bool
    ensures { result ≡ host_name (names_in names.now n) q }
{
    let i = usize::from(q);
    q == 1 || (2 <= q && i - 2 < n && get_or(names, i, 0) / 256 == 1)
}

// A host name, 1 or 0.
pub fn is_open_name(names: &[u16], n: usize, q: u8) -> bool
    ensures { result ≡ open_name (names_in names.now n) q }
{
    q == 0 || is_host_name(names, n, q)
}

// A declared name that is not the host's.
pub fn is_local_name(names: &[u16], n: usize, q: u8) -> bool
    ensures { result ≡ local_name (names_in names.now n) q }
{
    2 <= q && is_declared(n, q) && !is_host_name(names, n, q)
}

// Whether s is a set of declared names, 0 and 1.
fn all_declared(n: usize, s: u64) -> bool
    ensures { result ≡ all_of (declared_of n) (members s) }
{
    MOST_DECLARED <= n || s >> (n + 2) == 0
}

// Whether s is a reduced set of declared names.
pub fn set_ok(n: usize, anc: &[u64; MOST_NAMES], s: u64) -> bool
    ensures { result ≡ set_ok_by anc.now n s }
{
    all_declared(n, s) && reduced(anc, s)
}

// Whether s is a set of host names and 1.
fn all_host(names: &[u16], n: usize, s: u64) -> bool
    ensures { result ≡ all_of (host_name (names_in names.now n)) (members s) }
{
    for q in Members(s) {
        if !is_host_name(names, n, q) {
            return false;
        }
    }
    true
}

// Whether s is a reduced set of host names and 1.
pub fn rights_ok<'a>(names: &'a [u16], n: usize, anc: &'a [u64; MOST_NAMES], s: u64) -> bool
    ensures { result ≡ rights_ok_by anc.now (names_in names.now n) s }
{
    set_ok(n, anc, s) && all_host(names, n, s)
}
