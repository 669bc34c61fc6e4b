// The start of a job: it is loaded, and its machine is built. Types are not looked at.
#![tactic(auto)]

ghost use Rattle.std.specs.Prelude.{◌≡◌, List, ℕ};
ghost use Rattle.syntax.specs.Job.{Src};
ghost use Rattle.table.specs.Lent.{job_before, job_after};
ghost use Rattle.semantics.specs.Start.{start_of};
ghost use Rattle.machine.specs.View.{seen};
ghost use Rattle.initial.specs.Empty.{empty_machine};
ghost use Rattle.initial.specs.Begun.{Begun};
ghost use Rattle.start.specs.Starts.{built_from, Starts};

use initial::Initial;
use job::Shape;
use machine::{Control, Machine, Now, Thread};
use store::{FUNCTION_WORDS, MOST_THREADS, PAIR_WORDS, Used};
use table::{Expr, Refusal};

// What starting a job gives: whether it is started, or its refusal; and a machine, which is promised of a refused job too (`Starts`): it is the empty one.
#[derive(Drop)]
pub struct Opened {
    pub told: Result<(), Refusal>,
    pub machine: Machine,
}

// The machine of the tables of a start: its one thread enters the last expression, and its first turn begins the first round. It uses none of the frames, whatever they hold.
// The places of the threads that are to come hold the same thread; they are not looked at.
fn machine_of(b: Initial) -> Machine
    ensures { (S : Src) (fs : List ℕ) → Begun S b → seen result fs ≡ start_of S }
{
    let Initial {
        keys,
        cells,
        bindings,
        nkeys,
        ncells,
        nbindings,
        on,
        root,
    } = b;
    let now = Now {
        control: Control::Enter(Expr(root)),
        env: nbindings,
        on,
    };
    Machine {
        threads: [Thread { now, frames: 0 }; MOST_THREADS],
        count: 1,
        round: 0,
        from: 0,
        used: Used {
            cells: ncells as u64,
            keys: nkeys as u64,
            pairs: 0,
            functions: 0,
            bindings: nbindings as u64,
        },
        cells,
        keys,
        pairs: [0u64; PAIR_WORDS],
        functions: [0u64; FUNCTION_WORDS],
        bindings,
    }
}

// The machine at the start of the job that the words hold; the empty one where the counts are no job's.
pub fn built(g: Shape, names: &[u16], types: &[u64], values: &[u64]) -> Machine
    ensures { (fs : List ℕ) → seen result fs ≡ built_from g names.now types.now values.now }
{
    machine_of(initial::tables(names, g.names, types, values, g.values, g.rights, g.cmds))
}

// The machine where no job is started: nothing is bound, nothing is enabled.
pub fn empty() -> Machine
    ensures { (fs : List ℕ) → seen result fs ≡ empty_machine }
{
    built(job::no_shape(), &[], &[], &[])
}

// The job is loaded, with 1 to 10, and its machine is built; that of a refused job is the empty one. The tables are as the load leaves them.
pub fn start(
    job: &[u8],
    names: &mut [u16],
    types: &mut [u64],
    sets: &mut [u64],
    values: &mut [u64],
    heads: &mut [u64],
    slots: &mut [u16],
) -> Opened
    ensures { Starts job.now result
        (job_before names types sets values heads slots) (job_after names types sets values heads slots) }
{
    match load::load(job, names, types, sets, values, heads, slots) {
        Ok(g) => Opened {
            told: Ok(()),
            machine: built(g, names, types, values),
        },
        Err(refusal) => Opened {
            told: Err(refusal),
            machine: empty(),
        },
    }
}
