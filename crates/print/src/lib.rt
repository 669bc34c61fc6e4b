// The desk program's lines for the bytes of a job.
#![tactic(auto)]

ghost use Rattle.std.specs.Prelude.{◌≡◌, true, List, ◌++◌, ℕ, ◌<◌, length};
ghost use Rattle.order.specs.Effects.{Effect, of_word};
ghost use Rattle.syntax.specs.Types.{Ty, entry_tree};
ghost use Rattle.syntax.specs.Job.{Job, source_of};
ghost use Rattle.syntax.specs.Words.{code_in, entry_bits};
ghost use Rattle.semantics.specs.Threads.{all_done};
ghost use Rattle.semantics.specs.Calls as spec;
ghost use Rattle.semantics.specs.Demand3.{expr_of};
ghost use Rattle.store.specs.Meaning.{kind_in};
ghost use Rattle.machine.specs.View.{seen, answer_in, ran_in};
ghost use Rattle.output.specs.Lines.{accepted_line, ran_line, ran_of, run_line, desk_of, printed};
ghost use Rattle.format.specs.Text.{text_of, type_sort, kind_number, accepted_as};
ghost use Rattle.checker.specs.Answer.{tree_of};
ghost use Rattle.start.specs.Starts.{Ready};

use format::Text;
use job::Shape;
use machine::{Answer, Control, Outcome};
use store::{Kind, MOST_THREADS, THREADS_WORDS};
use table::{MOST_BYTES, MOST_EXPRESSIONS, MOST_NAMES, MOST_VARIABLES, PLACES, TYPE_ENTRIES};

// So many steps are allowed to each thread.
pub const MOST_STEPS: u64 = 100000;

// The kind of a type, by the command byte of its word.
fn type_sort(byte: u64) -> Kind
    ensures { (q a b s : ℕ) (f : ℕ → Ty) → result ≡ type_sort (entry_tree (entry_bits byte q a b s) f) }
{
    match byte {
        0x11 => Kind::Pair,
        0x12 => Kind::Cell,
        0x13 => Kind::Function,
        0x14 => Kind::Limit,
        0x15 => Kind::Grant,
        _ => Kind::Number,
    }
}

// The number in a value of a kind.
fn kind_number(k: Kind, payload: u32) -> u32
    ensures { result ≡ kind_number (kind_in k payload) }
{
    match k {
        Kind::Limit | Kind::Grant => payload % 256,
        _ => payload,
    }
}

// The second line of a run that came to an end, after the first, with the value of the first thread.
fn finished(first: Text, o: Outcome) -> Text
    ensures { (T : Ty) (s : Effect) (fs : List ℕ) → text_of first ≡ accepted_as s (type_sort T) → 0 < length (seen o.machine fs).threads
        → all_done (seen o.machine fs).threads ≡ true → text_of result ≡ accepted_line T s ++ ran_line spec.finished o.counts o.thread (seen o.machine fs) }
{
    match o.machine.threads[0].now.control {
        Control::Hand(w) => {
            let v = store::unpack(w);
            let x = kind_number(v.kind, v.payload);
            let second = format::done(o.counts[0], v.kind, x);
            format::both(first, second)
        }
        Control::Enter(_) => first,
    }
}

// The second line, if there is one, after the first. An accepted job is never stuck or denied.
fn ended(first: Text, o: Outcome) -> Text
    ensures { (T : Ty) (s : Effect) (fs : List ℕ) → text_of first ≡ accepted_as s (type_sort T) → 0 < length (seen o.machine fs).threads
        → (answer_in o.answer ≡ spec.finished → all_done (seen o.machine fs).threads ≡ true) → text_of result ≡ accepted_line T s ++ ran_of (ran_in o fs) }
{
    match o.answer {
        Answer::Finished => finished(first, o),
        Answer::Spent => format::both(first, format::spent(o.counts[0])),
        Answer::NoRoom => format::both(
            first,
            format::no_room(table::get_or(&o.counts, o.thread as usize, 0)),
        ),
        Answer::Taken | Answer::Stuck | Answer::Denied => first,
    }
}

// An accepted job, with the entry of its type and its effect: it is started and runs, with 100,000 steps allowed to each thread.
fn accepted(
    i: u16,
    s: u64,
    g: Shape,
    names: &[u16],
    types: &[u64],
    values: &[u64],
    heads: &[u64],
    slots: &[u16],
) -> Text
    ensures { (J : Job) (sets : List ℕ) → Ready J g names.now types.now values.now
        → ((e : ℕ) → code_in heads.now slots.now e ≡ expr_of J e)
        → text_of result ≡ accepted_line (tree_of types.now sets i) (of_word s) ++ run_line (source_of J) }
{
    let w = table::get_or(types, i as usize, 0);
    let sort = type_sort(w % 256);
    let first = format::accepted(s, sort);
    let m = start::built(g, names, types, values);
    let mut frames = [0u64; THREADS_WORDS];
    let o = m.run([MOST_STEPS; MOST_THREADS], heads, slots, &mut frames);
    ended(first, o)
}

// The lines for a job.
fn told(job: &[u8]) -> Text
    ensures { text_of result ≡ desk_of job.now }
{
    let mut names = [0u16; MOST_NAMES];
    let mut types = [0u64; TYPE_ENTRIES];
    let mut sets = [0u64; TYPE_ENTRIES];
    let mut values = [0u64; MOST_VARIABLES];
    let mut heads = [0u64; MOST_EXPRESSIONS];
    let mut slots = [0u16; PLACES];
    let mut entries = [0u16; MOST_EXPRESSIONS];
    let mut effects = [0u64; MOST_EXPRESSIONS];
    match checker::check(
        job,
        &mut names,
        &mut types,
        &mut sets,
        &mut values,
        &mut heads,
        &mut slots,
        &mut entries,
        &mut effects,
    ) {
        Ok(c) => accepted(
            c.accepted.entry,
            c.accepted.effect,
            c.shape,
            &names,
            &types,
            &values,
            &heads,
            &slots,
        ),
        Err(q) => format::refused(q.number, q.place as u64),
    }
}

// What the desk program prints for its input, of which 16,384 bytes are read.
pub fn print(job: &[u8]) -> Text
    ensures { text_of result ≡ printed job.now }
{
    told(&job[..MOST_BYTES.min(job.len())])
}
