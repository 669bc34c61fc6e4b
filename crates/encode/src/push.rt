// Numbers into bytes, the low byte first.
ghost use Rattle.std.specs.Prelude.{◌+◌, ◌≤◌, ◌++◌};
ghost use Rattle.syntax.specs.JobBytes.{bytes_of};
ghost use Rattle.encode.specs.Laid.{most_scratch, Pushed};

use super::SCRATCH;

// The bytes of an array, at a place.
fn push<const N: usize>(out: &mut [u8; SCRATCH], at: usize, bytes: [u8; N]) -> usize
    requires { at + N ≤ most_scratch }
    ensures { Pushed out.old out.new at result bytes.entry }
{
    out[at..at + N].copy_from_slice(&bytes);
    at + N
}

pub fn push8(out: &mut [u8; SCRATCH], at: usize, x: u8) -> usize
    requires { at + 1 ≤ most_scratch }
    ensures { Pushed out.old out.new at result (bytes_of 1 x) }
{
    push(out, at, [x])
}

pub fn push16(out: &mut [u8; SCRATCH], at: usize, x: u16) -> usize
    requires { at + 2 ≤ most_scratch }
    ensures { Pushed out.old out.new at result (bytes_of 2 x) }
{
    push(out, at, x.to_le_bytes())
}

pub fn push32(out: &mut [u8; SCRATCH], at: usize, x: u32) -> usize
    requires { at + 4 ≤ most_scratch }
    ensures { Pushed out.old out.new at result (bytes_of 4 x) }
{
    push(out, at, x.to_le_bytes())
}

pub fn push64(out: &mut [u8; SCRATCH], at: usize, x: u64) -> usize
    requires { at + 8 ≤ most_scratch }
    ensures { Pushed out.old out.new at result (bytes_of 8 x) }
{
    push(out, at, x.to_le_bytes())
}

// Two operands, and four.
pub fn two(out: &mut [u8; SCRATCH], at: usize, a: u16, b: u16) -> usize
    requires { at + 4 ≤ most_scratch }
    ensures { Pushed out.old out.new at result (bytes_of 2 a ++ bytes_of 2 b) }
{
    let p = push16(out, at, a);
    push16(out, p, b)
}

pub fn four(out: &mut [u8; SCRATCH], at: usize, a: u16, b: u16, c: u16, d: u16) -> usize
    requires { at + 8 ≤ most_scratch }
    ensures { Pushed out.old out.new at result ((bytes_of 2 a ++ bytes_of 2 b) ++ (bytes_of 2 c ++ bytes_of 2 d)) }
{
    let p = two(out, at, a, b);
    two(out, p, c, d)
}
