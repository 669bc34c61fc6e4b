// The check, the machine, reading, writing and the sheet for callers from outside: plain numbers and slices. `capi_c` exports them to C and Rust.
#![tactic(auto)]

ghost use Rattle.syntax.specs.Words.{code_in};
ghost use Rattle.table.specs.Lent.{job_before, job_after, job_shown};
ghost use Rattle.writer.specs.Lent.{job_left};
ghost use Rattle.semantics.specs.Threads.{steps_of};
ghost use Rattle.machine.specs.View.{seen};
ghost use Rattle.judge.specs.Lent.{before};
ghost use Rattle.checker.specs.Lent.{after};
ghost use Rattle.exchange.specs.Exchanges.{Reads, Writes};
ghost use Rattle.capi.specs.Checks.{Checks};
ghost use Rattle.capi.specs.Runs.{Goes, Runs};
ghost use Rattle.capi.specs.Sheets.{Sheets};
ghost use Rattle.capi.specs.Sessions.{lent_before, lent_after, Reported, Sessions};

use machine::Machine;
use session::Held;
use store::THREADS_WORDS;

// The calls on a machine, and the room that the last machine uses. Nobody looks at the frames afterwards.
fn go(
    m: Machine,
    heads: &[u64],
    slots: &[u16],
    frames: &mut [u64; THREADS_WORDS],
    calls: &[u64],
    answers: &mut [u64],
    rooms: &mut [u64],
)
    ensures { Goes (steps_of (code_in heads.now slots.now)) calls.now (seen m frames.old)
        answers.old answers.new rooms.old rooms.new }
{
    results::count(
        calls::make_calls(m, heads, slots, frames, calls, answers),
        rooms,
    );
}

// Starts the job and makes the calls, without a check: 0 says that the job is started, and is no verdict on it. Only of a job that
// `jobdesk_check` accepts is it proved that no call is stuck or denied. A call is nine words: 0, for a step, or another number, for a run, and eight
// allowances. Its answer is ten: number, thread, and the steps of each of eight threads. Another number returned is that of a refusal, whose place goes to
// rooms[0]; 1 too where the words are no whole number of calls, or the answers have no room for them. Where the job is started rooms are the cells, keys,
// pairs, functions, frames of all threads, bindings and threads in use at the end.
pub fn jobdesk_run(
    job: &[u8],
    names: &mut [u16],
    types: &mut [u64],
    sets: &mut [u64],
    values: &mut [u64],
    heads: &mut [u64],
    slots: &mut [u16],
    calls: &[u64],
    answers: &mut [u64],
    rooms: &mut [u64],
) -> u64
    ensures { Runs job.now result calls.now
        (job_before names types sets values heads slots) (job_after names types sets values heads slots)
        answers.old answers.new rooms.old rooms.new }
{
    if calls::lacks_room(calls, answers) {
        return table::tell(1, 0, rooms);
    }
    let opened = start::start(job, names, types, sets, values, heads, slots);
    match opened.told {
        Ok(()) => {
            let mut frames = [0u64; THREADS_WORDS];
            go(
                opened.machine,
                heads,
                slots,
                &mut frames,
                calls,
                answers,
                rooms,
            );
            0
        }
        Err(refusal) => table::tell(refusal.number, refusal.place, rooms),
    }
}

// Checks the job. Returns the number of its refusal, whose place goes to out[0], or 0 where it is accepted;
// then out[0] is the entry of the job's type and out[1] its effect.
pub fn jobdesk_check(
    job: &[u8],
    names: &mut [u16],
    types: &mut [u64],
    sets: &mut [u64],
    values: &mut [u64],
    heads: &mut [u64],
    slots: &mut [u16],
    entries: &mut [u16],
    effects: &mut [u64],
    out: &mut [u64],
) -> u64
    ensures { Checks job.now result
        (before names types sets values heads slots entries effects)
        (after names types sets values heads slots entries effects)
        out.old out.new }
{
    let checked = checker::check(
        job, names, types, sets, values, heads, slots, entries, effects,
    );
    results::tell(checked.map(|c| c.accepted), out)
}

// What a session ended with.
fn finish(h: Held, value: &mut [u64], cells: &mut [u64], out: &mut [u64]) -> u64
    ensures { Reported h result value.old value.new cells.old cells.new out.old out.new }
{
    results::hand_over(h.machine, value, cells);
    results::tell(h.verdict, out)
}

// Checks the job and, where it is accepted, starts it and makes the calls, each on the machine that the last one gave, with words as `jobdesk_run` has them. Returns 0 where the job is
// accepted: then every answer is one that demand 3 allows. Another number is that of its refusal, and no call is made. out[0] and out[1] are as
// `jobdesk_check` has them. value[0] is the kind of a finished job's value, that of thread 0, (1 number, 2 pair, 3 cell, 4 function, 5 limit, 6 grant) and value[1]
// what it holds; cells[2i] and cells[2i + 1] are the same of cell i; 0 and 0 where there is no value. Where the last call is cut short, or answers, value,
// cells or out are too short, 1 is returned and nothing at all is written.
pub fn jobdesk_session(
    job: &[u8],
    names: &mut [u16],
    types: &mut [u64],
    sets: &mut [u64],
    values: &mut [u64],
    heads: &mut [u64],
    slots: &mut [u16],
    entries: &mut [u16],
    effects: &mut [u64],
    calls: &[u64],
    answers: &mut [u64],
    value: &mut [u64],
    cells: &mut [u64],
    out: &mut [u64],
) -> u64
    ensures { Sessions job.now calls.now result
        (before names types sets values heads slots entries effects)
        (after names types sets values heads slots entries effects)
        (lent_before answers value cells out) (lent_after answers value cells out) }
{
    if results::is_short(calls, answers, value, cells, out) {
        return 1;
    }
    let mut frames = [0u64; THREADS_WORDS];
    let held = session::session(
        job,
        names,
        types,
        sets,
        values,
        heads,
        slots,
        entries,
        effects,
        &mut frames,
        calls,
        answers,
    );
    finish(held, value, cells, out)
}

// Reads a job into the tables, 1 to 7 alone. Returns 0 where it is read: counts[0] to counts[3] are how many names it declares, types, host values and
// expressions, counts[4] its rights. Another number is that of the refusal, whose place goes to counts[0]; 1 too where counts has fewer than five words.
pub fn jobdesk_read(
    job: &[u8],
    names: &mut [u16],
    types: &mut [u64],
    sets: &mut [u64],
    values: &mut [u64],
    heads: &mut [u64],
    slots: &mut [u16],
    counts: &mut [u64],
) -> u64
    ensures { Reads job.now result (job_before names types sets values heads slots) (job_after names types sets values heads slots)
        counts.old counts.new }
{
    exchange::read(job, names, types, sets, values, heads, slots, counts)
}

// Writes the job that the tables hold, by its counts. Returns 0 where it is written: its bytes stand at the start of the buffer, and out[0] is how many
// there are. Another number is that of the refusal, whose place goes to out[0]; no byte is written then. The tables are only read.
pub fn jobdesk_write(
    names: &[u16],
    types: &[u64],
    sets: &[u64],
    values: &[u64],
    heads: &[u64],
    slots: &[u16],
    counts: &[u64],
    buffer: &mut [u8],
    out: &mut [u64],
) -> u64
    ensures { Writes (job_shown names types sets values heads slots) (job_left names types sets values heads slots) counts.now result
        buffer.old buffer.new out.old out.new }
{
    exchange::write(
        names, types, sets, values, heads, slots, counts, buffer, out,
    )
}

// The sheet of a job for the wall file, as text at the start of `text`; bytes past it stay. Returns 0 where the job is accepted, or the number of the refusal: then
// the text is the desk program's line. out[0] is how many bytes the text has, and out[1] the place of the refusal. 1 where `text` has fewer than 868 bytes; nothing is
// written to it then. Where `out` has fewer than two words, it gets those that it has.
pub fn jobdesk_sheet(job: &[u8], text: &mut [u8], out: &mut [u64]) -> u64
    ensures { Sheets job.now result text.old text.new out.old out.new }
{
    let told = wall::sheet(job, text);
    table::put_two(out, 0, told.len as u64, told.place as u64);
    u64::from(told.number)
}
