// Values, sets of keys and the entries of the machine's tables, in words of 64 bits.
#![tactic(auto)]

ghost use Rattle.std.specs.Prelude.{◌≡◌, cond, Bool, true, ℕ, ◌<◌, ◌≤◌, ◌+◌, ◌*◌, ◌%◌, ◌^◌, eqb, ltb, length, get_or};
ghost use Rattle.std.specs.Int.Bits.{bit_or};
ghost use Rattle.order.specs.Sets.{bit, some_of};
ghost use Rattle.semantics.specs.Machine.{most_frames, most_cells, most_keys, most_pairs, most_functions, most_bindings};
ghost use Rattle.semantics.specs.Keys.{enabled, narrow};
ghost use Rattle.store.specs.Meaning.{word_keys, keys_in, kind_in, value_in, two_in, closure_in, binding_in, variable_in, name_in, own_in};
ghost use Rattle.store.specs.Words.{kind_at, word_in, cell_in, pair_in, function_in, link_in, up_in};
ghost use Rattle.store.specs.Frames.{frame_words, thread_words, head_at, held_in, fresh_of, frame_in, Held};
ghost use Rattle.store.specs.Tables.{Put, capped, list_of};
ghost use Rattle.store.specs.Walk.{walk, both_of, bits_of, span};

use table::{Expr, Key, get_or, set_at};

// Room (document 01): how many frames of a thread, cells, keys, pairs, functions and bindings there are at most; and how many threads (document 02, F-6).
pub const MOST_THREADS: usize = 8;

pub const MOST_FRAMES: u64 = 256;

pub const MOST_CELLS: u64 = 256;

pub const MOST_KEYS: u64 = 128;

pub const MOST_PAIRS: u64 = 512;

pub const MOST_FUNCTIONS: u64 = 512;

pub const MOST_BINDINGS: u64 = 1024;

// The lengths of their tables: six words a frame, two a pair and two a binding. A thread has its frames, and after them six words of its own, in a part of the table of all threads.
pub const THREAD_WORDS: usize = MOST_FRAMES as usize * 6 + 6;

pub const THREADS_WORDS: usize = MOST_THREADS * THREAD_WORDS;

pub const CELL_WORDS: usize = MOST_CELLS as usize;

pub const KEY_BYTES: usize = MOST_KEYS as usize;

pub const PAIR_WORDS: usize = MOST_PAIRS as usize * 2;

pub const FUNCTION_WORDS: usize = MOST_FUNCTIONS as usize;

pub const BINDING_WORDS: usize = MOST_BINDINGS as usize * 2;

// A set of keys is two numbers of so many bits, one a key; the second begins with this key.
const WORD_KEYS: u64 = 64;

const SECOND: u8 = WORD_KEYS as u8;

const ALL_KEYS: u8 = MOST_KEYS as u8;

// How many entries of each table that threads share are used. A count has a word of its own: narrower ones would be packed and unpacked at each step.
#[derive(Clone, Copy)]
pub struct Used {
    pub cells: u64,
    pub keys: u64,
    pub pairs: u64,
    pub functions: u64,
    pub bindings: u64,
}

// A set of keys: bit i of the first number is key i, of the second key 64 + i.
#[derive(Clone, Copy)]
pub struct Keys(pub u64, pub u64);

// The keys of a limit: four, some of them the same.
#[derive(Clone, Copy)]
pub struct Own(pub Key, pub Key, pub Key, pub Key);

#[derive(Clone, Copy)]
pub enum Kind {
    Number,
    Pair,
    Cell,
    Function,
    Limit,
    Grant,
}

// A value with its key. The payload is a number; the number of a pair, cell or function; or, by its low 8 bits, the key that a limit or grant key stands for.
// It stands beside the kind and not in it, so that a value is read and written as one word.
#[derive(Clone, Copy)]
pub struct Value {
    pub key: Key,
    pub kind: Kind,
    pub payload: u32,
}

#[derive(Clone, Copy)]
pub struct Two {
    pub first: Value,
    pub second: Value,
}

// A function, with its bindings.
#[derive(Clone, Copy)]
pub struct Closure {
    pub var: u8,
    pub body: Expr,
    pub env: u16,
}

// A variable with the word of its value, or a name with its key.
#[derive(Clone, Copy)]
pub enum Bound {
    Variable(u8, u64),
    Name(u8, Key),
}

// What is bound, and the binding that it was added to.
#[derive(Clone, Copy)]
pub struct Binding {
    pub bound: Bound,
    pub next: u16,
}

// A frame without the values in hand.
#[derive(Clone, Copy)]
pub struct Head {
    pub at: Expr,
    pub held: u8,
    pub env: u16,
    pub on: Keys,
}

// The key that a limit or grant key stands for.
pub fn key_in(v: Value) -> Key
    ensures { result.0 ≡ v.payload % 256 }
{
    Key((v.payload % 256) as u8)
}

// The kind of number t. A match and no `TryFrom`: every number past 4 is a grant's, as `kind_at` says, so nothing is refused.
fn kind_of(t: u64) -> Kind
    ensures { (n : ℕ) → kind_in result n ≡ kind_at t n }
{
    match t {
        0 => Kind::Number,
        1 => Kind::Pair,
        2 => Kind::Cell,
        3 => Kind::Function,
        4 => Kind::Limit,
        _ => Kind::Grant,
    }
}

pub fn unpack(w: u64) -> Value
    ensures { value_in result ≡ word_in w }
{
    Value {
        key: Key((w / 1099511627776 % 256) as u8),
        kind: kind_of(w / 4294967296 % 256),
        payload: (w % 4294967296) as u32,
    }
}

// The number of a kind.
fn kind_number(k: Kind) -> u64
    ensures { ((n : ℕ) → kind_in k n ≡ kind_at result n) × (result < 256) }
{
    k as u64
}

fn word(key: u8, tag: u64, n: u32) -> u64
    requires { tag < 256 }
    ensures { result ≡ n + tag * 4294967296 + key * 1099511627776 }
{
    (n as u64) + tag * 4294967296 + (key as u64) * 1099511627776
}

pub fn pack(v: Value) -> u64
    ensures { word_in result ≡ value_in v }
{
    word(v.key.0, kind_number(v.kind), v.payload)
}

// The smaller of a count and the number of places.
pub fn cap(n: u64, most: u64) -> u64
    ensures { (result ≡ capped n most) × (result ≤ most) }
{
    n.min(most)
}

// The upper key of key k.
pub fn up_at(s: &[u8; KEY_BYTES], k: Key) -> Key
    ensures { result.0 ≡ up_in s.now k.0 }
{
    Key(get_or(s, k.0 as usize, 0))
}

pub fn put_up(t: &mut [u8; KEY_BYTES], i: u16, k: Key)
    ensures { Put up_in most_keys t.old t.new i k.0 }
{
    set_at(&mut t[..], i as usize, k.0);
}

pub fn cell_at(t: &[u64; CELL_WORDS], i: u32) -> Value
    ensures { value_in result ≡ cell_in t.now i }
{
    unpack(get_or(t, i as usize, 0))
}

pub fn put_cell(t: &mut [u64; CELL_WORDS], i: u32, v: Value)
    ensures { Put cell_in most_cells t.old t.new i (value_in v) }
{
    set_at(&mut t[..], i as usize, pack(v));
}

pub fn pair_at(t: &[u64; PAIR_WORDS], i: u32) -> Two
    ensures { two_in result ≡ pair_in t.now i }
{
    let j = i as usize;
    Two {
        first: unpack(get_or(t, j * 2, 0)),
        second: unpack(get_or(t, j * 2 + 1, 0)),
    }
}

pub fn put_pair(t: &mut [u64; PAIR_WORDS], i: u16, p: Two)
    ensures { Put pair_in most_pairs t.old t.new i (two_in p) }
{
    let j = i as usize;
    set_at(&mut t[..], j * 2, pack(p.first));
    set_at(&mut t[..], j * 2 + 1, pack(p.second));
}

// Three numbers of 8, 16 and 16 bits in a word.
fn triple(a: u8, b: u16, c: u16) -> u64
    ensures { result ≡ a + b * 256 + c * 16777216 }
{
    (a as u64) + (b as u64) * 256 + (c as u64) * 16777216
}

pub fn closure_at(t: &[u64; FUNCTION_WORDS], i: u32) -> Closure
    ensures { closure_in result ≡ function_in t.now i }
{
    let w = get_or(t, i as usize, 0);
    Closure {
        var: (w % 256) as u8,
        body: Expr((w / 256 % 65536) as u16),
        env: (w / 16777216 % 65536) as u16,
    }
}

pub fn put_closure(t: &mut [u64; FUNCTION_WORDS], i: u16, f: Closure)
    ensures { Put function_in most_functions t.old t.new i (closure_in f) }
{
    set_at(&mut t[..], i as usize, triple(f.var, f.body.0, f.env));
}

pub fn binding_at(t: &[u64; BINDING_WORDS], i: u16) -> Binding
    ensures { binding_in result ≡ link_in t.now i }
{
    let j = i as usize;
    let w = get_or(t, j * 2, 0);
    let v = get_or(t, j * 2 + 1, 0);
    let x = (w % 256) as u8;
    let bound = if w / 16777216 % 65536 == 0 {
        Bound::Variable(x, v)
    } else {
        Bound::Name(x, Key((v % 256) as u8))
    };
    Binding {
        bound,
        next: (w / 256 % 65536) as u16,
    }
}

// A variable bound to a value.
pub fn put_variable(t: &mut [u64; BINDING_WORDS], i: u16, x: u8, v: Value, next: u16)
    ensures { Put link_in most_bindings t.old t.new i (variable_in x v next) }
{
    let j = i as usize;
    set_at(&mut t[..], j * 2, triple(x, next, 0));
    set_at(&mut t[..], j * 2 + 1, pack(v));
}

// A name bound to a key.
pub fn put_name(t: &mut [u64; BINDING_WORDS], i: u16, x: u8, k: Key, next: u16)
    ensures { Put link_in most_bindings t.old t.new i (name_in x k next) }
{
    let j = i as usize;
    set_at(&mut t[..], j * 2, triple(x, next, 1));
    set_at(&mut t[..], j * 2 + 1, k.0 as u64);
}

pub fn head_at(t: &[u64], i: u16) -> Head
    ensures { result ≡ head_at t.now i }
{
    let j = i as usize;
    let w = get_or(t, j * 6, 0);
    Head {
        at: Expr((w / 256 % 65536) as u16),
        held: (w % 4) as u8,
        env: (w / 16777216 % 65536) as u16,
        on: Keys(get_or(t, j * 6 + 1, 0), get_or(t, j * 6 + 2, 0)),
    }
}

// The word of the value in hand at place j of frame i.
pub fn held_at(t: &[u64], i: u16, j: u8) -> u64
    ensures { word_in result ≡ held_in t.now i j }
{
    get_or(t, (i as usize) * 6 + 3 + (j as usize), 0)
}

// A frame with nothing in hand. The words after the frames stay.
pub fn put_fresh(t: &mut [u64], i: u16, at: Expr, env: u16, on: Keys)
    requires { (length t.old ≡ thread_words) × (i < most_frames) }
    ensures put { Put frame_in most_frames t.old t.new i (fresh_of at env on) }
    ensures own { (j : ℕ) → frame_words ≤ j → get_or t.new j 0 ≡ get_or t.old j 0 }
{
    let j = i as usize;
    set_at(t, j * 6, triple(0, at.0, env));
    set_at(t, j * 6 + 1, on.0);
    set_at(t, j * 6 + 2, on.1);
}

// Frame i with one value more in hand, whose word is w; so many are held. The words after the frames stay.
pub fn put_held(t: &mut [u64], i: u16, held: u8, w: u64)
    requires { (length t.old ≡ thread_words) × (i < most_frames) × (held ≡ (head_at t.old i).held) × (held < 3) }
    ensures put { Held t.old t.new i (word_in w) }
    ensures own { (j : ℕ) → frame_words ≤ j → get_or t.new j 0 ≡ get_or t.old j 0 }
{
    let j = i as usize;
    let head = get_or(t, j * 6, 0);
    set_at(t, j * 6, head + 1);
    set_at(t, j * 6 + 3 + (held as usize), w);
}

// Is k in the set?
pub fn has(on: Keys, k: Key) -> bool
    ensures { result ≡ bit (keys_in on) k.0 }
{
    if k.0 < SECOND {
        (on.0 >> k.0) % 2 == 1
    } else {
        k.0 < ALL_KEYS && (on.1 >> (k.0 - SECOND)) % 2 == 1
    }
}

// Keys that a walk up the tree looks for: is k one of them, and is key 0, which lies below all, below any of them?
trait Sought {
    ghost mem: { Self → ℕ → Bool };

    ghost all: { Self → Bool };

    fn member(self, k: Key) -> bool
        ensures { result ≡ mem self k.0 };

    fn any(self) -> bool
        ensures { result ≡ all self };
}

// Those that are enabled.
impl Sought for Keys {
    ghost mem = { λ on. bit (keys_in on) };

    ghost all = { λ on. ltb 0 (keys_in on) };

    fn member(self, k: Key) -> bool {
        has(self, k)
    }

    fn any(self) -> bool {
        0 < self.0 || 0 < self.1
    }
}

// Those of a limit.
impl Sought for Own {
    ghost mem = { λ own k. some_of (eqb k) (own_in own) };

    ghost all = { λ _. true };

    fn member(self, k: Key) -> bool {
        k.0 == self.0.0 || k.0 == self.1.0 || k.0 == self.2.0 || k.0 == self.3.0
    }

    fn any(self) -> bool {
        true
    }
}

// Is k, or a key above it in the tree, one of those sought?
fn walk<S: Sought + Copy>(keys: &[u8; KEY_BYTES], n: u64, sought: S, k: Key) -> bool
    ensures { result ≡ walk (list_of up_in keys.now n) (S.mem sought) (S.all sought) n k.0 }
{
    let mut x = k;
    for _ in 0..n {
        if x.0 == 0 {
            return sought.any();
        }
        if sought.member(x) {
            return true;
        }
        if n <= x.0 as u64 {
            return false;
        }
        x = up_at(keys, x);
    }
    if x.0 == 0 {
        sought.any()
    } else {
        sought.member(x)
    }
}

// Is the key enabled?
pub fn enabled(keys: &[u8; KEY_BYTES], n: u64, on: Keys, k: Key) -> bool
    ensures { result ≡ enabled (list_of up_in keys.now (capped n most_keys)) (keys_in on) k.0 }
{
    k.0 == 0 || walk(keys, n.min(MOST_KEYS), on, k)
}

// Is k below both an enabled key and one of the limit's own?
fn both(keys: &[u8; KEY_BYTES], n: u64, on: Keys, own: Own, k: Key) -> bool
    requires { n ≤ most_keys }
    ensures { result ≡ both_of (list_of up_in keys.now n) (keys_in on) (own_in own) k.0 }
{
    k.0 != 0 && walk(keys, n, on, k) && walk(keys, n, own, k)
}

fn one_bit(yes: bool, j: u8) -> u64
    requires { j < word_keys }
    ensures { result ≡ cond yes (2 ^ j) 0 }
{
    if yes { 1u64 << j } else { 0 }
}

// How many of n keys lie from `base` on, as many at most as a number holds.
fn width(n: u64, base: u64) -> u64
    ensures { (result ≡ span n base) × (result ≤ word_keys) }
{
    n.saturating_sub(base).min(WORD_KEYS)
}

// Of the keys from `base` on, those below both, as bits.
fn gather(keys: &[u8; KEY_BYTES], n: u64, on: Keys, own: Own, base: Key) -> u64
    requires { (base.0 ≤ word_keys) × (n ≤ most_keys) }
    ensures { result ≡ bits_of (both_of (list_of up_in keys.now n) (keys_in on) (own_in own)) base.0 (span n base.0) }
{
    let m = width(n, base.0 as u64) as u8;
    let mut acc: u64 = 0;
    for j in 0..m {
        acc |= one_bit(both(keys, n, on, own, Key(base.0 + j)), j);
    }
    acc
}

// The keys that are below both an enabled key and one of the limit's own.
pub fn narrow(keys: &[u8; KEY_BYTES], n: u64, on: Keys, own: Own) -> Keys
    ensures { keys_in result ≡ narrow (list_of up_in keys.now (capped n most_keys)) (keys_in on) (own_in own) }
{
    let m = n.min(MOST_KEYS);
    Keys(
        gather(keys, m, on, own, Key(0)),
        gather(keys, m, on, own, Key(SECOND)),
    )
}

// The set with a key added, if it is one of the n keys that there are.
pub fn add(n: u64, on: Keys, k: Key) -> Keys
    ensures { keys_in result ≡ cond (ltb k.0 (capped n most_keys)) (bit_or (2 ^ k.0) (keys_in on)) (keys_in on) }
{
    if n.min(MOST_KEYS) <= k.0 as u64 {
        on
    } else if k.0 < SECOND {
        Keys(one_bit(true, k.0) | on.0, on.1)
    } else {
        Keys(on.0, one_bit(true, k.0 - SECOND) | on.1)
    }
}
