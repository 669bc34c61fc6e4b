// The sheet for the wall file: its text for the bytes of a job, into a lent buffer.
#![tactic(auto)]

ghost use Rattle.std.specs.Prelude.{◌≡◌, ◌++◌, ◌+◌, ◌≤◌, length, take, drop};
ghost use Rattle.order.specs.Effects.{of_word};
ghost use Rattle.syntax.specs.Job.{Job, source_of};
ghost use Rattle.syntax.specs.Reading.{most_declared};
ghost use Rattle.names.specs.Ancestors.{name_of, names_in, ancestors_by};
ghost use Rattle.initial.specs.Entries.{head_of, values_from};
ghost use Rattle.start.specs.Starts.{Ready};
ghost use Rattle.output.specs.Lines.{refused_line};
ghost use Rattle.output.specs.Sheet as sheets;
ghost use Rattle.output.specs.Sheet.{count_of, rows_from, rows_of, sheet_text, laid};
ghost use Rattle.output.specs.ColumnLaws.{columns};
ghost use Rattle.wall.specs.Listed.{sheet_bytes, row_by, Laid, NameLaid, SheetTo};

use columns::{LINE_BYTES, line};
use job::Shape;
use names::{ancestors, eff_below, single};
use table::{
    MOST_DECLARED, MOST_EXPRESSIONS, MOST_NAMES, MOST_VARIABLES, PLACES, TYPE_ENTRIES, byte_of,
    copy, get_or, key_of,
};

// Room for a line of each host name that a job may declare.
pub const SHEET_BYTES: usize = 868;

// The number of the refusal, 0 for an accepted job, and its place; how many bytes the text has.
// The number stays a plain one: C is handed it as a word, and the theorems of specs/SheetTold.antt speak of it, 0 and 1 too.
#[derive(Clone, Copy)]
pub struct Listing {
    pub number: u8,
    pub place: usize,
    pub len: usize,
}

// Whether the type of this word is a cell that carries name n.
fn carries(w: u64, n: u8) -> bool
    ensures { result ≡ sheets.carries n (head_of w) }
{
    byte_of(w) == 0x12 && key_of(w) == n
}

// How many of m host values are cells that carry name n.
fn cells(types: &[u64], values: &[u64], m: usize, n: u8) -> usize
    ensures { result ≡ count_of (sheets.carries n) (values_from types.now values.now 0 m) }
{
    let mut count: usize = 0;
    for v in 0..m {
        let w = get_or(values, v, 0);
        if carries(get_or(types, (w / 256 % 65536) as usize, 0), n) {
            count += 1;
        }
    }
    count
}

// The line of a name at place `at` of the text.
fn put_line(text: &mut [u8], at: usize, name: u8, upper: u8, used: bool, cells: usize)
    requires { at + 14 ≤ length text.old }
    ensures { text.new ≡ take at text.old
        ++ (columns (record { name = name; upper = upper; used = used; cells = cells }) ++ drop (at + 14) text.old) }
{
    let bytes = line(name as usize, upper as usize, used, cells);
    let part = &mut text[at..];
    copy(&bytes, part);
}

// The line of name n, whose word in the names table is w, at place `at` of the text, if it is a host name. Returns the place behind it.
fn put_name(
    anc: &[u64; MOST_NAMES],
    w: u16,
    n: u8,
    types: &[u64],
    values: &[u64],
    m: usize,
    effect: u64,
    text: &mut [u8],
    at: usize,
) -> usize
    requires { at + 14 ≤ length text.old }
    ensures { NameLaid (row_by anc.now (values_from types.now values.now 0 m) effect n (name_of w)) (name_of w).host
        at result text.old text.new }
{
    if w / 256 == 1 {
        let used = eff_below(anc, single(n), effect);
        let count = cells(types, values, m, n);
        put_line(text, at, n, (w % 256) as u8, used, count);
        return at + LINE_BYTES;
    }
    at
}

// A line for each host name of n declared names, one after the other. Returns how many bytes they are.
fn lines(
    names: &[u16],
    n: usize,
    types: &[u64],
    values: &[u64],
    m: usize,
    effect: u64,
    text: &mut [u8],
) -> usize
    requires { (n ≤ most_declared) × (sheet_bytes ≤ length text.old) }
    ensures { Laid (laid columns (rows_from
        (row_by (ancestors_by (names_in names.now n)) (values_from types.now values.now 0 m) effect)
        2 (names_in names.now n)))
        result text.old text.new }
{
    let anc = ancestors(names, n);
    let mut at: usize = 0;
    for k in 0..n {
        let w = get_or(names, k + 2, 0);
        at = put_name(&anc, w, (k + 2) as u8, types, values, m, effect, text, at);
    }
    at
}

// The sheet of an accepted job: its host names' lines, by its effect. What tables that hold no job give is free; counts that no job has give no line.
fn accepted(
    s: u64,
    g: Shape,
    names: &[u16],
    types: &[u64],
    values: &[u64],
    text: &mut [u8],
) -> usize
    requires { sheet_bytes ≤ length text.old }
    ensures { (J : Job) → Ready J g names.now types.now values.now
        → Laid (sheet_text (rows_of (source_of J) (of_word s))) result text.old text.new }
{
    if g.names <= MOST_DECLARED {
        return lines(names, g.names, types, values, g.values, s, text);
    }
    0
}

// The desk program's line for a refused job.
fn refused(n: u8, p: usize, text: &mut [u8]) -> usize
    requires { sheet_bytes ≤ length text.old }
    ensures { Laid (refused_line (record { number = n; place = p })) result text.old text.new }
{
    let said = format::refused(n, p as u64);
    let bytes = said.bytes;
    let k = said.len;
    copy(&bytes[..k], text);
    k
}

// The sheet program's text for a job: for an accepted one a line for each host name, for a refused one the desk program's line. It stands at the start of
// the buffer, and bytes past it stay. A buffer of fewer than 868 bytes is too short, 1: nothing is written.
pub fn sheet(job: &[u8], text: &mut [u8]) -> Listing
    ensures { SheetTo job.now result text.old text.new }
{
    if text.len() < SHEET_BYTES {
        return Listing {
            number: 1,
            place: 0,
            len: 0,
        };
    }
    let mut names = [0u16; MOST_NAMES];
    let mut types = [0u64; TYPE_ENTRIES];
    let mut sets = [0u64; TYPE_ENTRIES];
    let mut values = [0u64; MOST_VARIABLES];
    let mut heads = [0u64; MOST_EXPRESSIONS];
    let mut slots = [0u16; PLACES];
    let mut entries = [0u16; MOST_EXPRESSIONS];
    let mut effects = [0u64; MOST_EXPRESSIONS];
    match checker::check(
        job,
        &mut names,
        &mut types,
        &mut sets,
        &mut values,
        &mut heads,
        &mut slots,
        &mut entries,
        &mut effects,
    ) {
        Ok(c) => Listing {
            number: 0,
            place: 0,
            len: accepted(c.accepted.effect, c.shape, &names, &types, &values, text),
        },
        Err(q) => Listing {
            number: q.number,
            place: q.place,
            len: refused(q.number, q.place, text),
        },
    }
}
