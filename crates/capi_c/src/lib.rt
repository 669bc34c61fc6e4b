// What C and Rust call, under the names that `jobdesk.h` has: each is the function of that name in `capi`, whose promise it makes again. Nothing else stands in the static library.
// The clauses of `capi` stand here a second time because of the C interface: a static library is no library, so no crate can use what it exports, and a library exports nothing to C.
#![tactic(auto)]

ghost use Rattle.table.specs.Lent.{job_before, job_after, job_shown};
ghost use Rattle.writer.specs.Lent.{job_left};
ghost use Rattle.judge.specs.Lent.{before};
ghost use Rattle.checker.specs.Lent.{after};
ghost use Rattle.exchange.specs.Exchanges.{Reads, Writes};
ghost use Rattle.capi.specs.Checks.{Checks};
ghost use Rattle.capi.specs.Runs.{Runs};
ghost use Rattle.capi.specs.Sheets.{Sheets};
ghost use Rattle.capi.specs.Sessions.{lent_before, lent_after, Sessions};

#[unsafe(no_mangle)]
pub extern "C" fn jobdesk_run(
    job: &[u8],
    names: &mut [u16],
    types: &mut [u64],
    sets: &mut [u64],
    values: &mut [u64],
    heads: &mut [u64],
    slots: &mut [u16],
    calls: &[u64],
    answers: &mut [u64],
    rooms: &mut [u64],
) -> u64
    ensures { Runs job.now result calls.now
        (job_before names types sets values heads slots) (job_after names types sets values heads slots)
        answers.old answers.new rooms.old rooms.new }
{
    capi::jobdesk_run(
        job, names, types, sets, values, heads, slots, calls, answers, rooms,
    )
}

#[unsafe(no_mangle)]
pub extern "C" fn jobdesk_check(
    job: &[u8],
    names: &mut [u16],
    types: &mut [u64],
    sets: &mut [u64],
    values: &mut [u64],
    heads: &mut [u64],
    slots: &mut [u16],
    entries: &mut [u16],
    effects: &mut [u64],
    out: &mut [u64],
) -> u64
    ensures { Checks job.now result
        (before names types sets values heads slots entries effects)
        (after names types sets values heads slots entries effects)
        out.old out.new }
{
    capi::jobdesk_check(
        job, names, types, sets, values, heads, slots, entries, effects, out,
    )
}

#[unsafe(no_mangle)]
pub extern "C" fn jobdesk_session(
    job: &[u8],
    names: &mut [u16],
    types: &mut [u64],
    sets: &mut [u64],
    values: &mut [u64],
    heads: &mut [u64],
    slots: &mut [u16],
    entries: &mut [u16],
    effects: &mut [u64],
    calls: &[u64],
    answers: &mut [u64],
    value: &mut [u64],
    cells: &mut [u64],
    out: &mut [u64],
) -> u64
    ensures { Sessions job.now calls.now result
        (before names types sets values heads slots entries effects)
        (after names types sets values heads slots entries effects)
        (lent_before answers value cells out) (lent_after answers value cells out) }
{
    capi::jobdesk_session(
        job, names, types, sets, values, heads, slots, entries, effects, calls, answers, value,
        cells, out,
    )
}

#[unsafe(no_mangle)]
pub extern "C" fn jobdesk_read(
    job: &[u8],
    names: &mut [u16],
    types: &mut [u64],
    sets: &mut [u64],
    values: &mut [u64],
    heads: &mut [u64],
    slots: &mut [u16],
    counts: &mut [u64],
) -> u64
    ensures { Reads job.now result (job_before names types sets values heads slots) (job_after names types sets values heads slots)
        counts.old counts.new }
{
    capi::jobdesk_read(job, names, types, sets, values, heads, slots, counts)
}

#[unsafe(no_mangle)]
pub extern "C" fn jobdesk_write(
    names: &[u16],
    types: &[u64],
    sets: &[u64],
    values: &[u64],
    heads: &[u64],
    slots: &[u16],
    counts: &[u64],
    buffer: &mut [u8],
    out: &mut [u64],
) -> u64
    ensures { Writes (job_shown names types sets values heads slots) (job_left names types sets values heads slots) counts.now result
        buffer.old buffer.new out.old out.new }
{
    capi::jobdesk_write(
        names, types, sets, values, heads, slots, counts, buffer, out,
    )
}

#[unsafe(no_mangle)]
pub extern "C" fn jobdesk_sheet(job: &[u8], text: &mut [u8], out: &mut [u64]) -> u64
    ensures { Sheets job.now result text.old text.new out.old out.new }
{
    capi::jobdesk_sheet(job, text, out)
}
