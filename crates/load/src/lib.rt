// Loading a job: its bytes are read into the lent tables and its tree is checked. The check and the start of a job both begin with it.
#![tactic(auto)]

ghost use Rattle.table.specs.Lent.{job_before, job_after};
ghost use Rattle.load.specs.Loads.{LoadTo};

use entry::Shape;
use table::Refusal;

// The job that the bytes write, or 1 to 10. Number 1, where a table is too short, writes nothing; after every other refusal all tables are zero.
pub fn load(
    job: &[u8],
    names: &mut [u16],
    types: &mut [u64],
    sets: &mut [u64],
    values: &mut [u64],
    heads: &mut [u64],
    slots: &mut [u16],
) -> Result<Shape, Refusal>
    ensures { LoadTo job.now result
        (job_before names types sets values heads slots) (job_after names types sets values heads slots) }
{
    let g = job::read(job, names, types, sets, values, heads, slots)?;
    if let Err(refusal) = tree::tree(
        heads, slots, g.cmds, names, g.names, types, sets, g.types, g.values,
    ) {
        job::clear_all(names, types, sets, values, heads, slots);
        return Err(refusal);
    }
    Ok(g)
}
