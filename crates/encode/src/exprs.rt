// The entries of expressions: their faults, and their bytes.
ghost use Rattle.std.specs.Prelude.{◌≡◌, ◌+◌, ◌≤◌};
ghost use Rattle.encode.specs.Laid.{most_scratch, Pushed};
ghost use Rattle.syntax.specs.Writing.{expr_fields};
ghost use Rattle.encode.specs.Entries.{head_wide, expr_tail};
ghost use Rattle.encode.specs.Penned.{Penned, alone};

use super::push::{four, push8, push16, push32, two};
use super::{SCRATCH, foreign};
use entry::Section;
use table::{Refusal, byte_of};

// Whether what the head has of the operands is too wide for them.
fn head_wide(op: u8, x: u64) -> bool
    ensures { result ≡ head_wide op x }
{
    match op {
        0x30 => 4294967296 <= x,
        0x32 => 256 <= x,
        0x34 => 256 <= x,
        0x35 => 256 <= x,
        0x3A => 256 <= x,
        0x3C => 256 <= x,
        0x3E => 65536 <= x,
        _ => false,
    }
}

// The operands of an expression, in order.
fn expr_operands(
    op: u8,
    x: u64,
    a: u16,
    b: u16,
    c: u16,
    d: u16,
    e: u16,
    out: &mut [u8; SCRATCH],
    at: usize,
) -> usize
    requires { at + 13 ≤ most_scratch }
    ensures { Pushed out.old out.new at result (expr_tail op x a b c d e) }
{
    match op {
        0x30 => push32(out, at, (x % 4294967296) as u32),
        0x31 => at,
        0x32 => push8(out, at, byte_of(x)),
        0x34 => {
            let p = push16(out, at, a);
            push8(out, p, byte_of(x))
        }
        0x35 => {
            let p = push8(out, at, byte_of(x));
            two(out, p, b, a)
        }
        0x37 => two(out, at, b, a),
        0x39 => push16(out, at, a),
        0x3A => {
            let p = push8(out, at, byte_of(x));
            two(out, p, a, b)
        }
        0x3B => four(out, at, a, b, c, d),
        0x3C => {
            let p = push8(out, at, byte_of(x));
            let q = four(out, p, a, b, c, d);
            push16(out, q, e)
        }
        0x3E => {
            let p = push16(out, at, (x % 65536) as u16);
            let q = two(out, p, a, b);
            push16(out, q, c)
        }
        0x40 => four(out, at, a, b, c, d),
        0x42 => push16(out, at, a),
        _ => two(out, at, a, b),
    }
}

// The words of an expression: its head and its five places.
pub fn expr_bytes(
    h: u64,
    a: u16,
    b: u16,
    c: u16,
    d: u16,
    e: u16,
    out: &mut [u8; SCRATCH],
    at: usize,
) -> Result<usize, Refusal>
    requires { at + 14 ≤ most_scratch }
    ensures { Penned out.old out.new at result (alone (expr_fields h a b c d e)) }
{
    let op = byte_of(h);
    foreign(op, Section::Expressions, at)?;
    let x = h / 256;
    if head_wide(op, x) {
        return Err(Refusal {
            number: 6,
            place: at,
        });
    }
    let p = push8(out, at, op);
    Ok(expr_operands(op, x, a, b, c, d, e, out, p))
}
