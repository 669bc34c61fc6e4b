// The check of a job: it is loaded, its expressions are typed, and its effect is held against its rights; with the tables that it leaves.
#![tactic(auto)]

ghost use Rattle.std.specs.Prelude.{◌≡◌, List, ℕ};
ghost use Rattle.syntax.specs.Job.{Job};
ghost use Rattle.typing.specs.Tables.{cleared};
ghost use Rattle.checker.specs.Answer.{unless_one, CheckTo};
ghost use Rattle.judge.specs.Answer.{Given};
ghost use Rattle.judge.specs.Lent.{before};
ghost use Rattle.checker.specs.Lent.{after};

use job::Shape;
pub use judge::Accepted;
use judge::typed;
use table::MOST_EXPRESSIONS;
pub use table::Refusal;

// What a job is accepted with, and how many entries of each kind it has, with its rights.
#[derive(Clone, Copy)]
pub struct Checked {
    pub accepted: Accepted,
    pub shape: Shape,
}

// Every table zero to its end.
fn clear_all(
    names: &mut [u16],
    types: &mut [u64],
    sets: &mut [u64],
    values: &mut [u64],
    heads: &mut [u64],
    slots: &mut [u16],
    entries: &mut [u16],
    effects: &mut [u64],
)
    ensures { after names types sets values heads slots entries effects
        ≡ cleared (before names types sets values heads slots entries effects) }
{
    job::clear_all(names, types, sets, values, heads, slots);
    entries.fill(0);
    effects.fill(0);
}

// A job that is not loaded, by the refusal's number: 1 leaves the tables of entries and effects as they were, every other one clears them.
fn unloaded(number: u8, entries: &mut [u16], effects: &mut [u64])
    ensures entries { entries.new ≡ unless_one number entries.old }
    ensures effects { effects.new ≡ unless_one number effects.old }
{
    if number != 1 {
        entries.fill(0);
        effects.fill(0);
    }
}

// A job that is loaded: its verdict, and the tables that it leaves.
fn settle(
    g: Shape,
    names: &mut [u16],
    types: &mut [u64],
    sets: &mut [u64],
    values: &mut [u64],
    heads: &mut [u64],
    slots: &mut [u16],
    entries: &mut [u16],
    effects: &mut [u64],
) -> Result<Checked, Refusal>
    ensures { (bytes : List ℕ) (J : Job)
        → Given bytes J g (before names types sets values heads slots entries effects)
        → CheckTo bytes result
        (before names types sets values heads slots entries effects)
        (after names types sets values heads slots entries effects) }
{
    entries.fill(0);
    effects.fill(0);
    match typed(
        g, names, values, heads, slots, types, sets, entries, effects,
    ) {
        Ok(accepted) => Ok(Checked { accepted, shape: g }),
        Err(refusal) => {
            clear_all(names, types, sets, values, heads, slots, entries, effects);
            Err(refusal)
        }
    }
}

// The verdict on the bytes of a job. Short tables give 1 and nothing is written; every other refusal leaves all tables zero to
// their ends; an acceptance leaves the job, its types, and the entry and the effect of each expression.
pub fn check(
    job: &[u8],
    names: &mut [u16],
    types: &mut [u64],
    sets: &mut [u64],
    values: &mut [u64],
    heads: &mut [u64],
    slots: &mut [u16],
    entries: &mut [u16],
    effects: &mut [u64],
) -> Result<Checked, Refusal>
    ensures { CheckTo job.now result
        (before names types sets values heads slots entries effects)
        (after names types sets values heads slots entries effects) }
{
    if entries.len() < MOST_EXPRESSIONS || effects.len() < MOST_EXPRESSIONS {
        return Err(Refusal {
            number: 1,
            place: 0,
        });
    }
    match load::load(job, names, types, sets, values, heads, slots) {
        Ok(g) => settle(
            g, names, types, sets, values, heads, slots, entries, effects,
        ),
        Err(refusal) => {
            unloaded(refusal.number, entries, effects);
            Err(refusal)
        }
    }
}
