// The ground floor of the code: limits, numbers of names, keys and expressions, refusals and how they are told, total reads and writes of tables, and the fields of their words.
#![tactic(auto)]

ghost use Rattle.std.specs.Prelude.{◌≡◌, ◌*◌, ◌/◌, ◌%◌, ◌<◌, length, set, slice_index_or};
ghost use Rattle.syntax.specs.Tree.{predecessor};
ghost use Rattle.syntax.specs.Words.{type_bits};
ghost use Rattle.table.specs.Copied.{copied};
ghost use Rattle.table.specs.Told.{Tells, TwoPut};

// The limits of document 01: names with 0 and 1, types, variables, expressions, the depth of a type.
pub const MOST_NAMES: usize = 64;

pub const MOST_TYPES: usize = 256;

pub const MOST_VARIABLES: usize = 64;

pub const MOST_EXPRESSIONS: usize = 512;

pub const MOST_DEPTH: u8 = 16;

// So many bytes of their input the programs read.
pub const MOST_BYTES: usize = 16384;

// The names that a job may declare: all but 0 and 1.
pub const MOST_DECLARED: usize = 62;

// The lengths of the lent tables that are no limit themselves: the type table, and five places for each expression.
pub const TYPE_ENTRIES: usize = 2304;

pub const PLACES: usize = 2560;

// A name's number. A name number and a key number are never compared.
#[derive(Clone, Copy)]
pub struct Name(pub u8);

// A key's number.
#[derive(Clone, Copy)]
pub struct Key(pub u8);

// An expression's number.
#[derive(Clone, Copy)]
pub struct Expr(pub u16);

// A refusal's number and place.
// Stays a number: `reading`, `verdict_of` and `refused_line` have it as one, it is printed and handed to C as it is, and `tell` and `format::refused` take any.
#[derive(Clone, Copy)]
pub struct Refusal {
    pub number: u8,
    pub place: usize,
}

// Entry i of a table, and `none` past its end.
pub fn get_or<T: Copy>(s: &[T], i: usize, none: T) -> T
    ensures { result ≡ slice_index_or s.now i none }
{
    if i < s.len() { s[i] } else { none }
}

// x as entry i, and nothing past the end.
pub fn set_at<T: Copy>(s: &mut [T], i: usize, x: T)
    ensures { s.new ≡ set s.old i x }
{
    if i < s.len() {
        s[i] = x;
    }
}

// Two words from place `at` on, as far as there are places.
pub fn put_two(s: &mut [u64], at: usize, x: u64, y: u64)
    requires { at < 1024 }
    ensures { TwoPut s.old s.new at x y }
{
    set_at(s, at, x);
    set_at(s, at + 1, y);
}

// The bytes at the start of the buffer; what is past them stays. Nothing where the buffer is too short for them all.
pub fn copy(bytes: &[u8], buffer: &mut [u8])
    ensures { buffer.new ≡ copied bytes.now buffer.old }
{
    if buffer.len() < bytes.len() {
        return;
    }
    buffer[..bytes.len()].copy_from_slice(bytes);
}

// What a caller is told: n is returned, and the word is written.
pub fn tell(n: u8, word: usize, out: &mut [u64]) -> u64
    ensures { Tells n word result out.old out.new }
{
    set_at(out, 0, word as u64);
    u64::from(n)
}

// The last of so many, counted from 0; of none, 0.
pub fn last(n: usize) -> usize
    ensures { result ≡ predecessor n }
{
    n.saturating_sub(1)
}

// The word of a type: command byte, key, first and second part.
pub fn type_word(byte: u8, q: u8, a: u16, b: u16) -> u64
    ensures { result ≡ type_bits byte q a b }
{
    (byte as u64) + 256 * (q as u64) + 65536 * (a as u64) + 4294967296 * (b as u64)
}

// The fields of a word: the command byte of a type or an expression.
pub fn byte_of(w: u64) -> u8
    ensures { result ≡ w % 256 }
{
    (w % 256) as u8
}

// The key of a type; of an expression the variable that it uses or binds.
pub fn key_of(w: u64) -> u8
    ensures { result ≡ w / 256 % 256 }
{
    (w / 256 % 256) as u8
}

// The name that a limit or grant key stands for; of an expression the name that it binds.
pub fn name_of(w: u64) -> u8
    ensures { result ≡ w / 65536 % 256 }
{
    (w / 65536 % 256) as u8
}

// The first and the second part of a type.
pub fn first_of(w: u64) -> u16
    ensures { result ≡ w / 65536 % 65536 }
{
    (w / 65536 % 65536) as u16
}

pub fn second_of(w: u64) -> u16
    ensures { result ≡ w / 4294967296 % 65536 }
{
    (w / 4294967296 % 65536) as u16
}
