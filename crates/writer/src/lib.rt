// Writing a job from lent tables: its bytes go into a lent buffer. What the tables write is read, so that nothing is sent which the reader would not take.
#![tactic(auto)]

ghost use Rattle.std.specs.Prelude.{◌≡◌, ◌<◌, length, IfErr};
ghost use Rattle.syntax.specs.Reading.{reading};
ghost use Rattle.syntax.specs.Writing.{judged};
ghost use Rattle.table.specs.Lent.{job_shown};
ghost use Rattle.writer.specs.Lent.{job_left};
ghost use Rattle.encode.specs.Penned.{reach_of, fault_in};
ghost use Rattle.entry.specs.Shapes.{counts_of};
ghost use Rattle.writer.specs.Sends.{Delivered, WriteTo};

use encode::{SCRATCH, Shown, encode};
pub use entry::Shape;
use job::{long_enough, would_read};
pub use table::Refusal;
use table::copy;

// How far the bytes of the entries reach, with a fault behind them or without.
fn reach(pen: Result<usize, Refusal>) -> usize
    ensures { result ≡ reach_of pen }
{
    match pen {
        Ok(n) => n,
        Err(k) => k.place,
    }
}

// The bytes of the tables, and the fault behind them, if there is one: where they are a job and the buffer is long enough, they go there. The first fault decides.
fn deliver(bytes: &[u8], pen: Result<usize, Refusal>, buffer: &mut [u8]) -> Result<usize, Refusal>
    requires reach { reach_of pen ≡ length bytes.now }
    requires told { IfErr pen (λ k. 0 < k.number) }
    ensures { Delivered (judged (fault_in pen) bytes.now (reading bytes.now)) result buffer.old buffer.new }
{
    match pen {
        Ok(n) => {
            would_read(bytes)?;
            if buffer.len() < n {
                return Err(Refusal {
                    number: 15,
                    place: 0,
                });
            }
            copy(bytes, buffer);
            Ok(n)
        }
        Err(k) => match would_read(bytes) {
            Err(q) => { if q.place < k.place { Err(q) } else { Err(k) } }
            Ok(_) => Err(k),
        },
    }
}

// Writes the job that the tables hold, by their counts, and gives how many bytes it has: they stand at the start of the buffer, and bytes past them stay. A refusal writes no byte, and the tables are only read.
// The six tables stay parameters of their own, as `job::read` has them: README names both calls.
pub fn write(
    names: &[u16],
    types: &[u64],
    sets: &[u64],
    values: &[u64],
    heads: &[u64],
    slots: &[u16],
    g: Shape,
    buffer: &mut [u8],
) -> Result<usize, Refusal>
    ensures { WriteTo (job_shown names types sets values heads slots) (job_left names types sets values heads slots) (counts_of g) result
        buffer.old buffer.new }
{
    if long_enough(
        names.len(),
        types.len(),
        sets.len(),
        values.len(),
        heads.len(),
        slots.len(),
    ) {
        let mut scratch = [0u8; SCRATCH];
        let tables = Shown {
            names,
            types,
            sets,
            values,
            heads,
            slots,
        };
        let pen = encode(tables, g, &mut scratch);
        let n = reach(pen);
        deliver(&scratch[..n], pen, buffer)
    } else {
        Err(Refusal {
            number: 1,
            place: 0,
        })
    }
}
