// The bytes of a job: operands of fixed width, the width and the section of a command, the rest after it.

ghost use Rattle.std.specs.Prelude.{◌≡◌, ◌+◌, ◌<◌, ◌≤◌, MatchOption, length, get_or, take, drop};
ghost use Rattle.entry.specs.Bytes.{field_at, width_byte, section_no, section_byte, rest_of};

use super::Section;
use table::get_or;

// The N bytes of the job from `at` on; none where it ends before them.
fn operand<const N: usize>(job: &[u8], at: u8) -> Option<&[u8; N]>
    ensures { MatchOption result (length job.now < at + N) (λ s. (at + N ≤ length job.now) × (s.now ≡ take N (drop at job.now))) }
{
    let at = at as usize;
    job.get(at..at + N)?.first_chunk()
}

// An operand in the middle of the job, from `at` on, the low byte first; 0 where the job ends before it does.
// Stays four functions: std reads each width by a method of its own, and a trait over them would be as long.
#[tactic(auto, unfolding(crate::specs::Bytes::field_at))]
pub fn op8(job: &[u8], at: u8) -> u8
    ensures { result ≡ field_at 1 job.now at }
{
    match operand(job, at) {
        Some(s) => u8::from_le_bytes(*s),
        None => 0,
    }
}

#[tactic(auto, unfolding(crate::specs::Bytes::field_at))]
pub fn op16(job: &[u8], at: u8) -> u16
    ensures { result ≡ field_at 2 job.now at }
{
    match operand(job, at) {
        Some(s) => u16::from_le_bytes(*s),
        None => 0,
    }
}

#[tactic(auto, unfolding(crate::specs::Bytes::field_at))]
pub fn op32(job: &[u8], at: u8) -> u32
    ensures { result ≡ field_at 4 job.now at }
{
    match operand(job, at) {
        Some(s) => u32::from_le_bytes(*s),
        None => 0,
    }
}

#[tactic(auto, unfolding(crate::specs::Bytes::field_at))]
pub fn op64(job: &[u8], at: u8) -> u64
    ensures { result ≡ field_at 8 job.now at }
{
    match operand(job, at) {
        Some(s) => u64::from_le_bytes(*s),
        None => 0,
    }
}

// The first byte; 0 where there is none.
pub fn first(job: &[u8]) -> u8
    ensures { result ≡ get_or job.now 0 0 }
{
    get_or(job, 0, 0)
}

// How many bytes follow a command byte; 255 for a byte that is no command.
// Stays a number: `width_byte` of specs/Bytes and `width_table` of syntax/specs/Widths say 255 for such a byte.
#[tactic(auto, unfolding(crate::specs::Bytes::width_byte, crate::specs::Bytes::width_on, syntax::specs::Commands::op_of, syntax::specs::Commands::find_op, syntax::specs::Commands::commands, syntax::specs::Commands::width, syntax::specs::Commands::operands, syntax::specs::Commands::total))]
pub fn width(op: u8) -> u8
    ensures { result ≡ width_byte op }
{
    match op {
        0x01 => 1,
        0x02 => 1,
        0x10 => 1,
        0x11 => 5,
        0x12 => 3,
        0x13 => 13,
        0x14 => 2,
        0x15 => 2,
        0x20 => 6,
        0x21 => 8,
        0x30 => 4,
        0x31 => 0,
        0x32 => 1,
        0x33 => 4,
        0x34 => 3,
        0x35 => 5,
        0x36 => 4,
        0x37 => 4,
        0x38 => 4,
        0x39 => 2,
        0x3A => 5,
        0x3B => 8,
        0x3C => 11,
        0x3D => 4,
        0x3E => 8,
        0x3F => 4,
        0x40 => 8,
        0x41 => 4,
        0x42 => 2,
        0xFF => 0,
        _ => 255,
    }
}

impl Section {
    // The section of a command byte. Stays tests and no `match` of ranges: with one, whose ranges are tested in another order, reading takes 1 to 2 % more.
    #[tactic(auto, unfolding(crate::specs::Bytes::section_byte))]
    pub fn of(op: u8) -> Section
        ensures { section_no result ≡ section_byte op }
    {
        if op < 0x10 {
            Section::Names
        } else if op < 0x20 {
            Section::Types
        } else if op == 0x20 {
            Section::Values
        } else if op == 0x21 {
            Section::Rights
        } else if op < 0xFF {
            Section::Expressions
        } else {
            Section::End
        }
    }
}

// The unread rest of the job, from its next command on. Where operands are missing: nothing.
#[tactic(auto, unfolding(crate::specs::Bytes::rest_of))]
pub fn rest(job: &[u8]) -> &[u8]
    ensures { result.now ≡ rest_of job.now }
{
    let n = width(first(job)) as usize + 1;
    &job[n.min(job.len())..]
}
