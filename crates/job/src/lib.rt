// Reading a job: command by command, and the tables that its entries fill.
#![tactic(auto)]

mod tables;

ghost use Rattle.std.specs.Prelude.{◌≡◌, true, get_or, MatchResult, Ok, Err};
ghost use Rattle.syntax.specs.Reading.{reading};
ghost use Rattle.entry.specs.Bytes.{section_no, rest_of};
ghost use Rattle.entry.specs.Entries.{judged_by};
ghost use Rattle.job.specs.Answer.{answer_of, long_tables, Cleared};
ghost use Rattle.job.specs.Lent.{FilledLent, ReadLent};

pub use entry::{Shape, no_shape};
use entry::{Entry, Section, judged, rest};
pub use table::Refusal;
use table::{MOST_EXPRESSIONS, MOST_NAMES, MOST_TYPES, MOST_VARIABLES, PLACES, TYPE_ENTRIES};
use tables::add;
pub use tables::{clear_all, long_enough};

// Reads the first command of a job, in section `cur`: its entry, and the unread rest of the job, from the next command on; or the number of its refusal.
fn command<'a>(
    job: &'a [u8],
    cur: Section,
    g: Shape,
    anc: &[u64; MOST_NAMES],
    names: &[u16],
    types: &[u64],
    depths: &[u8],
) -> Result<(Entry, &'a [u8]), u8>
    ensures { MatchResult result
        (λ read. (judged_by (get_or job.now 0 0) job.now (section_no cur) g anc.now names.now types.now depths.now ≡ Ok read.0) × (read.1.now ≡ rest_of job.now))
        (λ number. judged_by (get_or job.now 0 0) job.now (section_no cur) g anc.now names.now types.now depths.now ≡ Err number) }
{
    let e = judged(job, cur as u8, g, anc, names, types, depths)?;
    Ok((e, rest(job)))
}

// Command by command from the first on: the tables, all zero, take the entries.
fn fill(
    job: &[u8],
    names: &mut [u16],
    types: &mut [u64],
    sets: &mut [u64],
    values: &mut [u64],
    heads: &mut [u64],
    slots: &mut [u16],
) -> Result<Shape, Refusal>
    requires slots_value { long_tables names.old types.old sets.old values.old heads.old slots.old ≡ true }
    requires cleared { Cleared names.old types.old sets.old values.old heads.old slots.old }
    ensures { FilledLent job result names types sets values heads slots }
{
    let mut left = job;
    let mut cur = Section::Names;
    let mut g = no_shape();
    let mut depths = [0u8; MOST_TYPES];
    let mut anc = names::ancestors(names, g.names);
    // Stays a while: each turn takes off as many bytes as its command has, and a place is what is gone of the job.
    while !left.is_empty() {
        match command(left, cur, g, &anc, names, types, &depths) {
            Ok((e, next)) => {
                if let Entry::Last = e {
                    // After the end no byte may follow.
                    if left.len() == 1 {
                        return Ok(g);
                    }
                    return Err(Refusal {
                        number: 7,
                        place: job.len() - left.len() + 1,
                    });
                }
                cur = e.section();
                g = add(
                    &e,
                    g,
                    &mut anc,
                    &mut depths,
                    names,
                    types,
                    sets,
                    values,
                    heads,
                    slots,
                );
                left = next;
            }
            Err(number) => {
                return Err(Refusal {
                    number,
                    place: job.len() - left.len(),
                });
            }
        }
    }
    Err(Refusal {
        number: 4,
        place: job.len(),
    })
}

// What reading the bytes answers, without a lent table: the counts of their job, or the first refusal.
pub fn would_read(job: &[u8]) -> Result<Shape, Refusal>
    ensures { result ≡ answer_of (reading job.now) }
{
    let mut names = [0u16; MOST_NAMES];
    let mut types = [0u64; TYPE_ENTRIES];
    let mut sets = [0u64; TYPE_ENTRIES];
    let mut values = [0u64; MOST_VARIABLES];
    let mut heads = [0u64; MOST_EXPRESSIONS];
    let mut slots = [0u16; PLACES];
    fill(
        job,
        &mut names,
        &mut types,
        &mut sets,
        &mut values,
        &mut heads,
        &mut slots,
    )
}

// The job that the bytes write, into the lent tables, or the first refusal. Number 1 writes nothing; after every other refusal all tables are zero.
pub fn read(
    job: &[u8],
    names: &mut [u16],
    types: &mut [u64],
    sets: &mut [u64],
    values: &mut [u64],
    heads: &mut [u64],
    slots: &mut [u16],
) -> Result<Shape, Refusal>
    ensures { ReadLent job result names types sets values heads slots }
{
    if !long_enough(
        names.len(),
        types.len(),
        sets.len(),
        values.len(),
        heads.len(),
        slots.len(),
    ) {
        return Err(Refusal {
            number: 1,
            place: 0,
        });
    }
    clear_all(names, types, sets, values, heads, slots);
    let answer = fill(job, names, types, sets, values, heads, slots);
    if answer.is_err() {
        clear_all(names, types, sets, values, heads, slots);
    }
    answer
}
