// What one command of a job comes to: its operands, the conditions on it, and the words of its entry.
#![tactic(auto)]

mod bytes;
mod declared;
mod exprs;

ghost use Rattle.std.specs.Prelude.{◌≡◌, get_or};
ghost use Rattle.entry.specs.Bytes.{section_no, section_byte, misplaced_by, full_by};
ghost use Rattle.entry.specs.Shapes.{no_shape};
ghost use Rattle.entry.specs.Entries.{entry_of, judged_by, sort_of};

use bytes::first;
pub use bytes::{rest, width};
use declared::{name_entry, rights_entry, type_entry, value_entry};
use exprs::form_entry;
use table::{MOST_DECLARED, MOST_EXPRESSIONS, MOST_NAMES, MOST_TYPES, MOST_VARIABLES};

// How many entries of each kind a job has, and its rights.
#[derive(Clone, Copy)]
pub struct Shape {
    pub names: usize,
    pub types: usize,
    pub values: usize,
    pub cmds: usize,
    pub rights: u64,
}

// The counts of no job.
pub fn no_shape() -> Shape
    ensures { result ≡ no_shape }
{
    Shape {
        names: 0,
        types: 0,
        values: 0,
        cmds: 0,
        rights: 0,
    }
}

// The words of an expression: its head and its five places.
#[derive(Clone, Copy)]
pub struct Form {
    pub head: u64,
    pub a: u16,
    pub b: u16,
    pub c: u16,
    pub d: u16,
    pub e: u16,
}

// What one command comes to: the words of an entry (of a type its set and its depth too), or the job's end.
#[derive(Clone, Copy)]
pub enum Entry {
    Named(u16),
    Typed(u64, u64, u8),
    Valued(u64),
    Rights(u64),
    Formed(Form),
    Last,
}

impl Entry {
    // The section of its command.
    #[tactic(auto, unfolding(crate::specs::Entries::sort_of))]
    pub fn section(&self) -> Section
        ensures { section_no result ≡ sort_of self.now }
    {
        match *self {
            Entry::Named(_) => Section::Names,
            Entry::Typed(_, _, _) => Section::Types,
            Entry::Valued(_) => Section::Values,
            Entry::Rights(_) => Section::Rights,
            Entry::Formed(_) => Section::Expressions,
            Entry::Last => Section::End,
        }
    }
}

// The sections of a job, in their order.
#[derive(Clone, Copy, PartialEq, Eq, PartialOrd, Ord)]
pub enum Section {
    Names,
    Types,
    Values,
    Rights,
    Expressions,
    End,
}

// Whether a command of section `sec` is out of its place in section `cur`, after n expressions.
#[tactic(auto, unfolding(crate::specs::Bytes::misplaced_by))]
fn misplaced(cur: u8, sec: Section, n: usize) -> bool
    ensures { result ≡ misplaced_by cur (section_no sec) n }
{
    let rights = Section::Rights as u8;
    (sec as u8) < cur
        || match sec {
            Section::Names | Section::Types | Section::Values => false,
            Section::Rights => cur == rights,
            Section::Expressions => cur < rights,
            Section::End => cur < rights || n == 0,
        }
}

// Whether the tables have no room for one entry more of section `sec`.
#[tactic(auto, unfolding(crate::specs::Bytes::full_by))]
fn full(sec: Section, h: Shape) -> bool
    ensures { result ≡ full_by (section_no sec) h.names h.types h.values h.cmds }
{
    match sec {
        Section::Names => MOST_DECLARED <= h.names,
        Section::Types => MOST_TYPES <= h.types,
        Section::Values => MOST_VARIABLES <= h.values,
        Section::Expressions => MOST_EXPRESSIONS <= h.cmds,
        Section::Rights | Section::End => false,
    }
}

#[tactic(auto, unfolding(crate::specs::Entries::entry_of))]
fn entry_of(
    sec: Section,
    op: u8,
    job: &[u8],
    anc: &[u64; MOST_NAMES],
    names: &[u16],
    types: &[u64],
    depths: &[u8],
    h: Shape,
) -> Result<Entry, u8>
    requires { section_no sec ≡ section_byte op }
    ensures { result ≡ entry_of op job.now anc.now names.now types.now depths.now h }
{
    match sec {
        Section::Names => name_entry(op, job, names, h.names),
        Section::Types => type_entry(op, job, anc, h.names, depths, h.types),
        Section::Values => value_entry(job, names, h.names, types, h.types),
        Section::Rights => rights_entry(job, anc, names, h.names),
        Section::Expressions => form_entry(op, job, names, h),
        Section::End => Ok(Entry::Last),
    }
}

// What the first command comes to in section `cur`, a number, also one that no section has: an entry, or the number of a refusal, 2, 3, 4, 5 or 6, tested in this order.
#[tactic(auto, unfolding(crate::specs::Entries::judged_by))]
pub fn judged(
    job: &[u8],
    cur: u8,
    h: Shape,
    anc: &[u64; MOST_NAMES],
    names: &[u16],
    types: &[u64],
    depths: &[u8],
) -> Result<Entry, u8>
    ensures { result ≡ judged_by (get_or job.now 0 0) job.now cur h anc.now names.now types.now depths.now }
{
    let op = first(job);
    let w = width(op);
    // Stays a number: `width_byte` of specs/Bytes and `width_table` of syntax/specs/Widths say 255 for a byte that is no command.
    if w == 255 {
        return Err(2);
    }
    let sec = Section::of(op);
    if misplaced(cur, sec, h.cmds) {
        return Err(3);
    }
    if job.len() <= w as usize {
        return Err(4);
    }
    if full(sec, h) {
        return Err(5);
    }
    entry_of(sec, op, job, anc, names, types, depths, h)
}
