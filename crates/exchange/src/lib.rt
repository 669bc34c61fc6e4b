// Reading a job into tables and writing it from them, for C and Rust: plain numbers and slices.
#![tactic(auto)]

ghost use Rattle.std.specs.Prelude.{◌≡◌};
ghost use Rattle.table.specs.Lent.{job_before, job_after, job_shown};
ghost use Rattle.writer.specs.Lent.{job_left};
ghost use Rattle.exchange.specs.Exchanges.{shape_in, laid_counts, Reads, Writes};

use table::{get_or, set_at, tell};
use writer::Shape;

// The words of counts: names, types, host values, expressions, and the rights.
pub const COUNTS: usize = 5;

fn put_counts(g: Shape, counts: &mut [u64])
    ensures { counts.new ≡ laid_counts counts.old g }
{
    set_at(counts, 0, g.names as u64);
    set_at(counts, 1, g.types as u64);
    set_at(counts, 2, g.values as u64);
    set_at(counts, 3, g.cmds as u64);
    set_at(counts, 4, g.rights);
}

fn counts_in(counts: &[u64]) -> Shape
    ensures { result ≡ shape_in counts.now }
{
    Shape {
        names: get_or(counts, 0, 0) as usize,
        types: get_or(counts, 1, 0) as usize,
        values: get_or(counts, 2, 0) as usize,
        cmds: get_or(counts, 3, 0) as usize,
        rights: get_or(counts, 4, 0),
    }
}

// Reads a job, 1 to 7 alone: 0 and its counts, or the number of the refusal, whose place goes to counts[0]. 1 too where there are fewer than five
// words for the counts.
pub fn read(
    job: &[u8],
    names: &mut [u16],
    types: &mut [u64],
    sets: &mut [u64],
    values: &mut [u64],
    heads: &mut [u64],
    slots: &mut [u16],
    counts: &mut [u64],
) -> u64
    ensures { Reads job.now result (job_before names types sets values heads slots) (job_after names types sets values heads slots)
        counts.old counts.new }
{
    if counts.len() < COUNTS {
        return tell(1, 0, counts);
    }
    match job::read(job, names, types, sets, values, heads, slots) {
        Ok(g) => {
            put_counts(g, counts);
            0
        }
        Err(q) => tell(q.number, q.place, counts),
    }
}

// Writes the job that the tables hold, by the words of its counts: 0, and out[0] is how many bytes stand at the start of the buffer; or the number of the
// refusal, and out[0] is its place. 1 too where there are fewer than five words of counts.
pub fn write(
    names: &[u16],
    types: &[u64],
    sets: &[u64],
    values: &[u64],
    heads: &[u64],
    slots: &[u16],
    counts: &[u64],
    buffer: &mut [u8],
    out: &mut [u64],
) -> u64
    ensures { Writes (job_shown names types sets values heads slots) (job_left names types sets values heads slots) counts.now result
        buffer.old buffer.new out.old out.new }
{
    if counts.len() < COUNTS {
        return tell(1, 0, out);
    }
    let g = counts_in(counts);
    match writer::write(names, types, sets, values, heads, slots, g, buffer) {
        Ok(n) => tell(0, n, out),
        Err(q) => tell(q.number, q.place, out),
    }
}
