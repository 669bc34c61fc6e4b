// Judging a job that is loaded: its expressions are typed (11 to 13, 16), and its effect is held against its rights (14).
#![tactic(auto)]

ghost use Rattle.std.specs.Prelude.{◌≡◌, List, ℕ, ◌%◌};
ghost use Rattle.syntax.specs.Job.{Job};
ghost use Rattle.judge.specs.Answer.{Given, Untyped, Judged};
ghost use Rattle.judge.specs.Lent.{typed_before, typed_after};

use job::Shape;
use table::{Refusal, get_or, last};

// What a job is accepted with: the entry of its type, and its effect.
#[derive(Clone, Copy)]
pub struct Accepted {
    pub entry: u16,
    pub effect: u64,
}

fn narrow(n: usize) -> u16
    ensures { result ≡ n % 65536 }
{
    (n % 65536) as u16
}

// A job that is read and a tree in scope: its expressions by numbers, then the rights.
pub fn typed<'a>(
    g: Shape,
    names: &'a [u16],
    values: &'a [u64],
    heads: &'a [u64],
    slots: &'a [u16],
    types: &mut [u64],
    sets: &mut [u64],
    entries: &mut [u16],
    effects: &mut [u64],
) -> Result<Accepted, Refusal>
    ensures { (bytes : List ℕ) (J : Job)
        → Given bytes J g (typed_before names types sets values heads slots entries effects)
        → Untyped (typed_before names types sets values heads slots entries effects)
        → Judged bytes J result (typed_after names types sets values heads slots entries effects) }
{
    let anc = names::ancestors(names, g.names);
    elaborate::number_all(
        names,
        &anc,
        values,
        heads,
        slots,
        narrow(g.types),
        narrow(g.values),
        narrow(g.cmds),
        types,
        sets,
        entries,
        effects,
    )?;
    let e = last(g.cmds);
    let effect = get_or(effects, e, 0);
    if !names::eff_below(&anc, effect, g.rights) {
        return Err(Refusal {
            number: 14,
            place: e,
        });
    }
    Ok(Accepted {
        entry: get_or(entries, e, 0),
        effect,
    })
}
