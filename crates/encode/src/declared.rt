// The entries of names, types and host values: their faults, and their bytes.
ghost use Rattle.std.specs.Prelude.{◌≡◌, ◌+◌, ◌≤◌};
ghost use Rattle.encode.specs.Laid.{most_scratch, Pushed};
ghost use Rattle.syntax.specs.Writing.{name_fields, type_fields, value_fields};
ghost use Rattle.encode.specs.Entries.{type_wide, type_tail};
ghost use Rattle.encode.specs.Penned.{Penned, alone};

use super::push::{push8, push16, push32, push64, two};
use super::{SCRATCH, foreign};
use entry::Section;
use table::{Refusal, byte_of, first_of, key_of, name_of, second_of};

// The word of a name: its command above its upper name.
pub fn name_bytes(d: u16, out: &mut [u8; SCRATCH], at: usize) -> Result<usize, Refusal>
    requires { at + 14 ≤ most_scratch }
    ensures { Penned out.old out.new at result (alone (name_fields d)) }
{
    let op = (d / 256) as u8;
    foreign(op, Section::Names, at)?;
    let p = push8(out, at, op);
    Ok(push8(out, p, (d % 256) as u8))
}

// Whether a part of a type is too wide: the second one for a type's number, the first one for a name.
fn type_wide(op: u8, d: u64) -> bool
    ensures { result ≡ type_wide op d }
{
    match op {
        0x11 => 281474976710656 <= d,
        0x13 => 281474976710656 <= d,
        0x14 => 256 <= first_of(d),
        0x15 => 256 <= first_of(d),
        _ => false,
    }
}

// The operands of a type with set s.
fn type_operands(op: u8, d: u64, s: u64, out: &mut [u8; SCRATCH], at: usize) -> usize
    requires { at + 13 ≤ most_scratch }
    ensures { Pushed out.old out.new at result (type_tail op d s) }
{
    let p = push8(out, at, key_of(d));
    match op {
        0x10 => p,
        0x11 => two(out, p, first_of(d), second_of(d)),
        0x12 => push16(out, p, first_of(d)),
        0x13 => {
            let q = two(out, p, first_of(d), second_of(d));
            push64(out, q, s)
        }
        _ => push8(out, p, name_of(d)),
    }
}

pub fn type_bytes(d: u64, s: u64, out: &mut [u8; SCRATCH], at: usize) -> Result<usize, Refusal>
    requires { at + 14 ≤ most_scratch }
    ensures { Penned out.old out.new at result (alone (type_fields d s)) }
{
    let op = byte_of(d);
    foreign(op, Section::Types, at)?;
    if type_wide(op, d) {
        return Err(Refusal {
            number: 6,
            place: at,
        });
    }
    let p = push8(out, at, op);
    Ok(type_operands(op, d, s, out, p))
}

// The word of a host value: its command, its type, its number.
pub fn value_bytes(d: u64, out: &mut [u8; SCRATCH], at: usize) -> Result<usize, Refusal>
    requires { at + 14 ≤ most_scratch }
    ensures { Penned out.old out.new at result (alone (value_fields d)) }
{
    let op = byte_of(d);
    foreign(op, Section::Values, at)?;
    let n = d / 16777216;
    if 4294967296 <= n {
        return Err(Refusal {
            number: 6,
            place: at,
        });
    }
    let p = push8(out, at, op);
    let q = push16(out, p, (d / 256 % 65536) as u16);
    Ok(push32(out, q, n as u32))
}
