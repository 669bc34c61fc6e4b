// The bytes that the tables of a job write, up to the first entry that writes none.
#![tactic(auto)]

mod declared;
mod exprs;
mod push;

ghost use Rattle.std.specs.Prelude.{◌≡◌, ◌+◌, ◌*◌, ◌≤◌, ◌<◌, MatchResult};
ghost use Rattle.entry.specs.Bytes.{section_no};
ghost use Rattle.entry.specs.Shapes.{counts_of};
ghost use Rattle.encode.specs.Laid.{most_scratch};
ghost use Rattle.encode.specs.Entries.{foreign_by, limit_of, item_in, entry_item};
ghost use Rattle.encode.specs.Shows.{shown_by};
ghost use Rattle.encode.specs.Penned.{Penned, alone, Sectioned, Encoded};

use declared::{name_bytes, type_bytes, value_bytes};
use entry::{Section, Shape, width};
use exprs::expr_bytes;
use push::{push8, push64};
use table::{MOST_DECLARED, MOST_EXPRESSIONS, MOST_TYPES, MOST_VARIABLES, Refusal, get_or};

// Room for the bytes of every entry that there can be: 896 commands of 14 bytes at most.
pub const SCRATCH: usize = 12544;

// A job's tables, lent to be read.
#[derive(Clone, Copy)]
pub struct Shown<'a> {
    pub names: &'a [u16],
    pub types: &'a [u64],
    pub sets: &'a [u64],
    pub values: &'a [u64],
    pub heads: &'a [u64],
    pub slots: &'a [u16],
}

// What is wrong with a command byte in the table of section `sec`, at a place: 2 where it is no command, 3 where it is foreign to the table.
#[tactic(auto, unfolding(crate::specs::Entries::foreign_by))]
fn foreign(op: u8, sec: Section, at: usize) -> Result<(), Refusal>
    ensures { MatchResult result (λ _. foreign_by op (section_no sec) ≡ 0)
        (λ k. (k.place ≡ at) × (0 < k.number) × (k.number ≡ foreign_by op (section_no sec))) }
{
    // 255 stays a number: `width_byte` of entry/specs/Bytes says it of a byte that is no command.
    if width(op) == 255 {
        Err(Refusal {
            number: 2,
            place: at,
        })
    } else if Section::of(op) == sec {
        Ok(())
    } else {
        Err(Refusal {
            number: 3,
            place: at,
        })
    }
}

// The most entries of section `sec`.
#[tactic(auto, unfolding(crate::specs::Entries::limit_of))]
fn limit(sec: Section) -> usize
    ensures { result ≡ limit_of (section_no sec) }
{
    match sec {
        Section::Names => MOST_DECLARED,
        Section::Types => MOST_TYPES,
        Section::Values => MOST_VARIABLES,
        Section::Rights | Section::Expressions | Section::End => MOST_EXPRESSIONS,
    }
}

// Entry i of section `sec`.
fn entry_bytes(
    sec: Section,
    i: usize,
    tables: Shown,
    out: &mut [u8; SCRATCH],
    at: usize,
) -> Result<usize, Refusal>
    requires at_bound { at + 14 ≤ most_scratch }
    requires i_bound { i < 512 }
    ensures { Penned out.old out.new at result (alone (entry_item (shown_by tables.entry) (section_no sec) i)) }
{
    match sec {
        Section::Names => name_bytes(get_or(tables.names, 2 + i, 0), out, at),
        Section::Types => type_bytes(
            get_or(tables.types, i, 0),
            get_or(tables.sets, i, 0),
            out,
            at,
        ),
        Section::Values => value_bytes(get_or(tables.values, i, 0), out, at),
        Section::Rights | Section::Expressions | Section::End => {
            let k = i * 5;
            let a = get_or(tables.slots, k, 0);
            let b = get_or(tables.slots, k + 1, 0);
            let c = get_or(tables.slots, k + 2, 0);
            let d = get_or(tables.slots, k + 3, 0);
            let e = get_or(tables.slots, k + 4, 0);
            expr_bytes(get_or(tables.heads, i, 0), a, b, c, d, e, out, at)
        }
    }
}

// The first n entries of section `sec`, up to the first fault, whose place is how far the bytes before it reach; one entry more than the limit is a fault.
fn section_bytes(
    sec: Section,
    n: usize,
    tables: Shown,
    out: &mut [u8; SCRATCH],
    at: usize,
) -> Result<usize, Refusal>
    requires { at + 14 * limit_of (section_no sec) ≤ most_scratch }
    ensures { Sectioned (item_in (shown_by tables.entry) (section_no sec)) (limit_of (section_no sec)) n out.old out.new at result }
{
    let mut p = at;
    for i in 0..n {
        if limit(sec) <= i {
            return Err(Refusal {
                number: 5,
                place: p,
            });
        }
        p = entry_bytes(sec, i, tables, out, p)?;
    }
    Ok(p)
}

// All entries in the order of the job, by its counts: names, types, host values, the rights, expressions, the end.
pub fn encode(tables: Shown, g: Shape, out: &mut [u8; SCRATCH]) -> Result<usize, Refusal>
    ensures { Encoded (shown_by tables.entry) (counts_of g) out.old out.new result }
{
    let a = section_bytes(Section::Names, g.names, tables, out, 0)?;
    let b = section_bytes(Section::Types, g.types, tables, out, a)?;
    let c = section_bytes(Section::Values, g.values, tables, out, b)?;
    let p = push8(out, c, 0x21);
    let q = push64(out, p, g.rights);
    let d = section_bytes(Section::Expressions, g.cmds, tables, out, q)?;
    Ok(push8(out, d, 0xFF))
}
