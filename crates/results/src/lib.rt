// What callers from C and Rust are told, in words: a verdict, the room in use, the value of a finished job and what its cells hold.
#![tactic(auto)]

ghost use Rattle.std.specs.Prelude.{◌≡◌, ℕ, ◌≤◌, ◌<◌, List};
ghost use Rattle.semantics.specs.Machine.{most_cells, most_threads};
ghost use Rattle.semantics.specs.Threads.{handed_on};
ghost use Rattle.store.specs.Meaning.{kind_in};
ghost use Rattle.store.specs.Words.{cell_in};
ghost use Rattle.store.specs.Tables.{capped, list_of};
ghost use Rattle.acts.specs.Meaning.{control_in};
ghost use Rattle.machine.specs.Scheduled.{thread_at, listed};
ghost use Rattle.machine.specs.View.{seen};
ghost use Rattle.calls.specs.Words.{over};
ghost use Rattle.results.specs.Told.{number_for, out_words, frames_of, room_words, count_words, lent_short};
ghost use Rattle.results.specs.Values.{kind_no, payload_of, cells_from, value_at, value_among, value_words, cell_words, CellPut};

use judge::Accepted;
use machine::{Control, Machine, Thread, all_finished, within};
use store::{
    CELL_WORDS, Kind, MOST_BINDINGS, MOST_CELLS, MOST_FRAMES, MOST_FUNCTIONS, MOST_KEYS,
    MOST_PAIRS, MOST_THREADS, Used, cap,
};
use table::{Refusal, put_two, set_at};

// The words of all cells, two for each.
pub const TOLD_WORDS: usize = CELL_WORDS * 2;

// The number of a verdict; what else it says is written.
pub fn tell(v: Result<Accepted, Refusal>, out: &mut [u64]) -> u64
    ensures number { result ≡ number_for v }
    ensures written { out.new ≡ over out.old (out_words v) }
{
    match v {
        Ok(job) => {
            put_two(out, 0, job.entry as u64, job.effect);
            0
        }
        Err(refusal) => {
            put_two(out, 0, refusal.place as u64, 0);
            refusal.number as u64
        }
    }
}

// The frames of so many threads together.
fn frames_of(threads: [Thread; MOST_THREADS], n: usize) -> u64
    requires { n ≤ most_threads }
    ensures { (fs : List ℕ) → result ≡ frames_of (listed (thread_at threads fs) n) }
{
    let mut sum: u64 = 0;
    for i in 0..n {
        sum += cap(threads[i].frames, MOST_FRAMES);
    }
    sum
}

// How much of each kind is in use, with so many frames and threads.
fn put_rooms(u: Used, frames: u64, threads: u64, rooms: &mut [u64])
    ensures { rooms.new ≡ over rooms.old (count_words u frames threads) }
{
    set_at(rooms, 0, cap(u.cells, MOST_CELLS));
    set_at(rooms, 1, cap(u.keys, MOST_KEYS));
    set_at(rooms, 2, cap(u.pairs, MOST_PAIRS));
    set_at(rooms, 3, cap(u.functions, MOST_FUNCTIONS));
    set_at(rooms, 4, frames);
    set_at(rooms, 5, cap(u.bindings, MOST_BINDINGS));
    set_at(rooms, 6, threads);
}

// How much of each kind the machine uses, and its threads, as far as there are places to write it.
pub fn count(m: Machine, rooms: &mut [u64])
    ensures { (fs : List ℕ) → rooms.new ≡ over rooms.old (room_words (seen m fs)) }
{
    let n = within(m.count);
    let frames = frames_of(m.threads, n);
    put_rooms(m.used, frames, n as u64, rooms);
}

// Whether a slice that is lent to a session is too short: nine words a call, ten for its answer, two for the value, two for each cell, two for what is told.
pub fn is_short<'a>(
    calls: &'a [u64],
    answers: &'a [u64],
    value: &'a [u64],
    cells: &'a [u64],
    out: &'a [u64],
) -> bool
    ensures { result ≡ lent_short calls.now answers.now value.now cells.now out.now }
{
    calls::lacks_room(calls, answers)
        || value.len() < 2
        || cells.len() < TOLD_WORDS
        || out.len() < 2
}

// The number of a kind, from 1 on: the variants stand in the order of the numbers.
fn kind_word(k: Kind) -> u64
    ensures { (n : ℕ) → result ≡ kind_no (kind_in k n) }
{
    k as u64 + 1
}

fn payload_word(k: Kind, payload: u32) -> u64
    ensures { result ≡ payload_of (kind_in k payload) }
{
    let n = payload as u64;
    match k {
        Kind::Number | Kind::Pair | Kind::Cell | Kind::Function => n,
        Kind::Limit | Kind::Grant => n % 256,
    }
}

// The value that a thread hands on.
fn put_handed(t: Thread, value: &mut [u64])
    ensures { value.new ≡ over value.old (value_at (handed_on (control_in t.now.control))) }
{
    let Control::Hand(w) = t.now.control else {
        put_two(value, 0, 0, 0);
        return;
    };
    let v = store::unpack(w);
    put_two(value, 0, kind_word(v.kind), payload_word(v.kind, v.payload));
}

// The value of a job whose threads are all finished: that of the first.
fn put_value(threads: [Thread; MOST_THREADS], count: u8, value: &mut [u64])
    ensures { (fs : List ℕ) → value.new ≡ over value.old (value_at (value_among (listed (thread_at threads fs) (capped count most_threads)))) }
{
    if 0 < count && all_finished(threads, count) {
        put_handed(threads[0], value);
    } else {
        put_two(value, 0, 0, 0);
    }
}

// What cell i of so many holds.
fn put_cell(table: &[u64; CELL_WORDS], used: u64, i: u32, cells: &mut [u64])
    requires { i < most_cells }
    ensures { CellPut (list_of cell_in table.now used) cells.old cells.new i }
{
    let at = 2 * (i as usize);
    if (i as u64) < used {
        let v = store::cell_at(table, i);
        put_two(
            cells,
            at,
            kind_word(v.kind),
            payload_word(v.kind, v.payload),
        );
    } else {
        put_two(cells, at, 0, 0);
    }
}

// What the cells hold, so many of them.
fn put_cells(table: &[u64; CELL_WORDS], used: u64, cells: &mut [u64])
    ensures { cells.new ≡ over cells.old (cells_from (list_of cell_in table.now used) 0 most_cells) }
{
    for i in 0..MOST_CELLS as u32 {
        put_cell(table, used, i, cells);
    }
}

// What the machine holds.
pub fn hand_over(m: Machine, value: &mut [u64], cells: &mut [u64])
    ensures value { (fs : List ℕ) → value.new ≡ over value.old (value_words (seen m fs)) }
    ensures cells { (fs : List ℕ) → cells.new ≡ over cells.old (cell_words (seen m fs)) }
{
    put_value(m.threads, m.count, value);
    put_cells(&m.cells, cap(m.used.cells, MOST_CELLS), cells);
}
