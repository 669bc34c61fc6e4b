// A whole session on a job's bytes: it is checked and, if it is accepted, started and called.
#![tactic(auto)]

ghost use Rattle.syntax.specs.Words.{code_in};
ghost use Rattle.semantics.specs.Threads.{steps_of};
ghost use Rattle.machine.specs.View.{seen};
ghost use Rattle.calls.specs.Made.{Made};
ghost use Rattle.judge.specs.Lent.{before};
ghost use Rattle.checker.specs.Lent.{after};
ghost use Rattle.start.specs.Starts.{built_from};
ghost use Rattle.session.specs.Session.{RefusedWith, SessionTo};

use checker::Accepted;
use job::Shape;
use machine::Machine;
use store::THREADS_WORDS;
use table::Refusal;

// The verdict, and the machine that the last call gave, whose frames are those that were lent. A machine is promised of a refused session too (`RefusedWith`): it is the empty one.
#[derive(Drop)]
pub struct Held {
    pub verdict: Result<Accepted, Refusal>,
    pub machine: Machine,
}

// The calls on the machine at the start of the job that the tables hold. Returns the machine that the last one gave.
fn answer(
    g: Shape,
    names: &[u16],
    types: &[u64],
    values: &[u64],
    heads: &[u64],
    slots: &[u16],
    frames: &mut [u64; THREADS_WORDS],
    calls: &[u64],
    answers: &mut [u64],
) -> Machine
    ensures { Made (steps_of (code_in heads.now slots.now)) calls.now
        (built_from g names.now types.now values.now)
        answers.old answers.new (seen result frames.new) }
{
    calls::make_calls(
        start::built(g, names, types, values),
        heads,
        slots,
        frames,
        calls,
        answers,
    )
}

// A session that makes no call.
fn refused(refusal: Refusal) -> Held
    ensures { RefusedWith refusal.number refusal.place result }
{
    Held {
        verdict: Err(refusal),
        machine: start::empty(),
    }
}

// The bytes are checked with the lent tables. An accepted job is started, and the calls are made, each on the machine that the last one gave. A call is nine words: 0, for a step, or
// another number, for a run, and eight allowances. Of call i the number of its answer, its thread and the steps of each of eight threads in it go to the ten places of the answers from 10i on. The frames may hold
// anything before; where no call is made, they stay, and else those in use are the last machine's, and what the other words hold is left free.
// Where the words are no whole number of calls, or the answers have no room for all of them, 1 is given and nothing is written.
pub fn session(
    job: &[u8],
    names: &mut [u16],
    types: &mut [u64],
    sets: &mut [u64],
    values: &mut [u64],
    heads: &mut [u64],
    slots: &mut [u16],
    entries: &mut [u16],
    effects: &mut [u64],
    frames: &mut [u64; THREADS_WORDS],
    calls: &[u64],
    answers: &mut [u64],
) -> Held
    ensures { SessionTo job.now calls.now result
        (before names types sets values heads slots entries effects)
        (after names types sets values heads slots entries effects)
        frames.old frames.new answers.old answers.new }
{
    if calls::lacks_room(calls, answers) {
        return refused(Refusal {
            number: 1,
            place: 0,
        });
    }
    match checker::check(
        job, names, types, sets, values, heads, slots, entries, effects,
    ) {
        Err(refusal) => refused(refusal),
        Ok(checked) => Held {
            verdict: Ok(checked.accepted),
            machine: answer(
                checked.shape,
                names,
                types,
                values,
                heads,
                slots,
                frames,
                calls,
                answers,
            ),
        },
    }
}
