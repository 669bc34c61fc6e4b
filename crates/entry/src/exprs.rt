// Expressions: where the operands of each command stand, the conditions on them, the words of an entry.
ghost use Rattle.std.specs.Prelude.{◌≡◌, ◌<◌, ltb};
ghost use Rattle.entry.specs.Bytes.{digit_of, offsets_of, kinds_of, slot_in, lead_of, form_of, slot_ok, slots_ok, key_ok, limit_ok};
ghost use Rattle.names.specs.Ancestors.{names_in};
ghost use Rattle.entry.specs.Entries.{binds_ok, either_of, new_key_ok, lead_ok, places_ok, form_entry};

use super::bytes::{op8, op16, op32};
use super::{Entry, Form, Shape};
use table::{Expr, MOST_VARIABLES};

// Variables are numbers of one byte.
const VARIABLES: u8 = MOST_VARIABLES as u8;

// Where the five places of an expression stand: a digit for each, place 0 in the last one; 0 for a place that is not used.
#[tactic(auto, unfolding(crate::specs::Bytes::offsets_of))]
fn offsets(op: u8) -> u32
    ensures { result ≡ offsets_of op }
{
    match op {
        0x33 => 0x00031,
        0x34 => 0x00001,
        0x35 => 0x00024,
        0x36 => 0x00031,
        0x37 => 0x00013,
        0x38 => 0x00031,
        0x39 => 0x00001,
        0x3A => 0x00042,
        0x3B => 0x07531,
        0x3C => 0xA8642,
        0x3D => 0x00031,
        0x3E => 0x00753,
        0x3F => 0x00031,
        0x40 => 0x07531,
        0x41 => 0x00031,
        0x42 => 0x00001,
        _ => 0,
    }
}

// What stands there: 1 an expression, 2 a type, 0 nothing.
// Stays a word of digits, as `offsets` is: `kinds_of` and `offsets_of` of specs/Bytes give these words, and `slots_ok` reads both digit by digit.
#[tactic(auto, unfolding(crate::specs::Bytes::kinds_of))]
fn kinds(op: u8) -> u32
    ensures { result ≡ kinds_of op }
{
    match op {
        0x33 => 0x00011,
        0x34 => 0x00001,
        0x35 => 0x00021,
        0x36 => 0x00011,
        0x37 => 0x00021,
        0x38 => 0x00011,
        0x39 => 0x00001,
        0x3A => 0x00011,
        0x3B => 0x02111,
        0x3C => 0x11111,
        0x3D => 0x00011,
        0x3E => 0x00211,
        0x3F => 0x00011,
        0x40 => 0x02111,
        0x41 => 0x00011,
        0x42 => 0x00001,
        _ => 0,
    }
}

// Digit i of a word, from the right.
#[tactic(auto, unfolding(crate::specs::Bytes::digit_of))]
fn digit(w: u32, i: u8) -> u8
    requires { i < 5 }
    ensures { result ≡ digit_of w i }
{
    ((w >> (4 * i)) % 16) as u8
}

// Place i of an expression whose places stand where this word says.
#[tactic(auto, unfolding(crate::specs::Bytes::slot_in))]
fn slot(job: &[u8], row: u32, i: u8) -> u16
    requires { i < 5 }
    ensures { result ≡ slot_in job.now row i }
{
    match digit(row, i) {
        0 => 0,
        at => op16(job, at),
    }
}

// The operands of one byte or four, as an expression's head has them.
#[tactic(auto, unfolding(crate::specs::Bytes::lead_of))]
fn lead(op: u8, job: &[u8]) -> u32
    ensures { result ≡ lead_of op job.now }
{
    match op {
        0x30 => op32(job, 1),
        0x32 | 0x35 | 0x3A | 0x3C => op8(job, 1) as u32,
        0x34 => op8(job, 3) as u32,
        0x3E => (op8(job, 1) as u32) + 256 * (op8(job, 2) as u32),
        _ => 0,
    }
}

#[tactic(auto, unfolding(crate::specs::Bytes::form_of))]
fn form_at(op: u8, job: &[u8]) -> Form
    ensures { result ≡ form_of op job.now }
{
    let row = offsets(op);
    Form {
        head: (op as u64) + 256 * (lead(op, job) as u64),
        a: slot(job, row, 0),
        b: slot(job, row, 1),
        c: slot(job, row, 2),
        d: slot(job, row, 3),
        e: slot(job, row, 4),
    }
}

// Whether e is one of the first n expressions.
fn earlier(e: Expr, n: usize) -> bool
    ensures { result ≡ ltb e.0 n }
{
    (e.0 as usize) < n
}

// Whether a place holds an expression or a type that stands before, of n and of t.
#[tactic(auto, unfolding(crate::specs::Bytes::slot_ok))]
fn slot_ok(k: u8, x: u16, n: usize, t: usize) -> bool
    ensures { result ≡ slot_ok k x n t }
{
    match k {
        1 => earlier(Expr(x), n),
        2 => (x as usize) < t,
        _ => true,
    }
}

#[tactic(auto, unfolding(crate::specs::Bytes::slots_ok))]
fn slots_ok(op: u8, f: Form, n: usize, t: usize) -> bool
    ensures { result ≡ slots_ok op f n t }
{
    let row = kinds(op);
    slot_ok(digit(row, 0), f.a, n, t)
        && slot_ok(digit(row, 1), f.b, n, t)
        && slot_ok(digit(row, 2), f.c, n, t)
        && slot_ok(digit(row, 3), f.d, n, t)
        && slot_ok(digit(row, 4), f.e, n, t)
}

// 0x3C: whether key i of c is an earlier expression, and an unused one 0xFFFF.
#[tactic(auto, unfolding(crate::specs::Bytes::key_ok))]
fn key_ok(i: u8, c: u8, x: u16, n: usize) -> bool
    ensures { result ≡ key_ok i c x n }
{
    if i < c {
        earlier(Expr(x), n)
    } else {
        x == 0xFFFF
    }
}

#[tactic(auto, unfolding(crate::specs::Bytes::limit_ok))]
fn limit_ok(c: u8, f: Form, n: usize) -> bool
    ensures { result ≡ limit_ok c f n }
{
    c <= 4
        && key_ok(0, c, f.a, n)
        && key_ok(1, c, f.b, n)
        && key_ok(2, c, f.c, n)
        && key_ok(3, c, f.d, n)
        && earlier(Expr(f.e), n)
}

// A bound variable is below the limit and none of the v host values.
#[tactic(auto, unfolding(crate::specs::Entries::binds_ok))]
fn binds_ok(v: usize, x: u8) -> bool
    ensures { result ≡ binds_ok v x }
{
    v <= x as usize && x < VARIABLES
}

// 0x3E: the variable and the local name.
#[tactic(auto, unfolding(crate::specs::Entries::new_key_ok))]
fn new_key_ok(job: &[u8], names: &[u16], n: usize, v: usize) -> bool
    ensures { result ≡ new_key_ok job.now (names_in names.now n) v }
{
    binds_ok(v, op8(job, 1)) && names::is_local_name(names, n, op8(job, 2))
}

// Whether x is i or one more.
#[tactic(auto, unfolding(crate::specs::Entries::either_of))]
fn one_of_two(x: u8, i: u8) -> bool
    requires { i < 2 }
    ensures { result ≡ either_of x i }
{
    x == i || x == i + 1
}

// The operands of one byte: variables, binders, parts, sum or difference.
#[tactic(auto, unfolding(crate::specs::Entries::lead_ok))]
fn lead_ok(op: u8, job: &[u8], names: &[u16], n: usize, v: usize) -> bool
    ensures { result ≡ lead_ok op job.now (names_in names.now n) v }
{
    match op {
        0x32 => op8(job, 1) < VARIABLES,
        0x34 => one_of_two(op8(job, 3), 1),
        0x35 => binds_ok(v, op8(job, 1)),
        0x3A => one_of_two(op8(job, 1), 0),
        0x3E => new_key_ok(job, names, n, v),
        _ => true,
    }
}

// The operands of two bytes, among n expressions and t types; c is the count of a limit's keys.
#[tactic(auto, unfolding(crate::specs::Entries::places_ok))]
fn places_ok(op: u8, c: u8, f: Form, n: usize, t: usize) -> bool
    ensures { result ≡ places_ok op c f n t }
{
    if op == 0x3C {
        limit_ok(c, f, n)
    } else {
        slots_ok(op, f, n, t)
    }
}

// 0x30 to 0x42.
#[tactic(auto, unfolding(crate::specs::Entries::form_entry))]
pub fn form_entry(op: u8, job: &[u8], names: &[u16], h: Shape) -> Result<Entry, u8>
    ensures { result ≡ form_entry op job.now (names_in names.now h.names) h }
{
    let f = form_at(op, job);
    if places_ok(op, op8(job, 1), f, h.cmds, h.types)
        && lead_ok(op, job, names, h.names, h.values)
    {
        Ok(Entry::Formed(f))
    } else {
        Err(6)
    }
}
