// The machine's tables at the start of a job: keys, cells, bindings, enabled keys.
#![tactic(auto)]

ghost use Rattle.std.specs.Prelude.{◌≡◌, cond, map, ◌<◌, ◌≤◌, ◌+◌};
ghost use Rattle.order.specs.Sets.{set_of};
ghost use Rattle.order.specs.Effects as effects;
ghost use Rattle.syntax.specs.Reading.{most_names, most_declared, most_variables, most_expressions};
ghost use Rattle.semantics.specs.Machine.{most_cells, most_bindings, unkeyed, k_num};
ghost use Rattle.semantics.specs.Start.{host_value};
ghost use Rattle.names.specs.Ancestors.{names_in};
ghost use Rattle.store.specs.Meaning.{keys_in, value_in};
ghost use Rattle.store.specs.Words.{up_in, cell_in};
ghost use Rattle.store.specs.Tables.{Wrote};
ghost use Rattle.initial.specs.Entries.{key_in, head_of, NameEntered, NamesEntered, ValueEntered, ValuesEntered, Within};
ghost use Rattle.initial.specs.Begun.{word_source, is_job, source_in, Begun};

use store::{BINDING_WORDS, CELL_WORDS, KEY_BYTES, Keys, Kind, Value};
use table::{Key, MOST_DECLARED, MOST_EXPRESSIONS, MOST_NAMES, MOST_VARIABLES, Name, get_or, last};

// The tables, how many entries each has, the enabled keys, and the expression to enter.
#[derive(Drop)]
pub struct Initial {
    pub keys: [u8; KEY_BYTES],
    pub cells: [u64; CELL_WORDS],
    pub bindings: [u64; BINDING_WORDS],
    pub nkeys: u16,
    pub ncells: u16,
    pub nbindings: u16,
    pub on: Keys,
    pub root: u16,
}

// The key of name q, of n names; key 0 for a number that is no name.
fn key_of(of: &[u8; MOST_NAMES], n: usize, q: Name) -> Key
    ensures { result.0 ≡ key_in of.now n q.0 }
{
    let i = q.0 as usize;
    if i < n { Key(get_or(of, i, 0)) } else { Key(0) }
}

// The key of name q is k.
fn put_key(of: &mut [u8; MOST_NAMES], q: Name, k: Key)
    requires { q.0 < most_names }
    ensures { Wrote up_in of.old of.new q.0 k.0 }
{
    of[q.0 as usize] = k.0;
}

// Name q, after those before it: a host name has the next key, below its upper name's, and is bound to it. Returns the number of keys.
fn enter_name(
    names: &[u16],
    q: Name,
    nkeys: u16,
    keys: &mut [u8; KEY_BYTES],
    of: &mut [u8; MOST_NAMES],
    bindings: &mut [u64; BINDING_WORDS],
) -> u16
    requires { (q.0 < most_names) × (2 ≤ nkeys) × (nkeys ≤ q.0) }
    ensures { NameEntered names.now q.0 nkeys keys.old of.old bindings.old
        keys.new of.new bindings.new result }
{
    let n = q.0 as usize;
    let w = get_or(names, n, 0);
    if w / 256 == 1 {
        let k = Key(nkeys as u8);
        let upper = key_of(of, n, Name((w % 256) as u8));
        store::put_up(keys, nkeys, upper);
        put_key(of, q, k);
        store::put_name(bindings, nkeys - 2, q.0, k, nkeys - 2);
        return nkeys + 1;
    }
    put_key(of, q, Key(0));
    nkeys
}

// The keys of n declared names, with those of 0 and 1, and the bindings of the host names. Returns the number of keys.
fn enter_names(
    names: &[u16],
    n: usize,
    keys: &mut [u8; KEY_BYTES],
    of: &mut [u8; MOST_NAMES],
    bindings: &mut [u64; BINDING_WORDS],
) -> u16
    requires { n ≤ most_declared }
    ensures { NamesEntered (names_in names.now n) keys.new of.new bindings.new result (n + 2) }
{
    store::put_up(keys, 0, Key(0));
    store::put_up(keys, 1, Key(1));
    put_key(of, Name(0), Key(0));
    put_key(of, Name(1), Key(1));
    let mut nkeys: u16 = 2;
    for k in 0..n {
        nkeys = enter_name(names, Name((k + 2) as u8), nkeys, keys, of, bindings);
    }
    nkeys
}

// The host value whose type has the word w; c is the next cell's number.
fn host_value(of: &[u8; MOST_NAMES], n: usize, w: u64, c: u16) -> Value
    ensures { value_in result ≡ host_value (key_in of.now n) (head_of w) c }
{
    let key = key_of(of, n, Name((w / 256 % 256) as u8));
    let other = key_of(of, n, Name((w / 65536 % 256) as u8));
    let number = other.0 as u32;
    match w % 256 {
        0x12 => Value {
            key,
            kind: Kind::Cell,
            payload: c as u32,
        },
        0x14 => Value {
            key,
            kind: Kind::Limit,
            payload: number,
        },
        0x15 => Value {
            key,
            kind: Kind::Grant,
            payload: number,
        },
        _ => Value {
            key: Key(0),
            kind: Kind::Number,
            payload: 0,
        },
    }
}

// A cell that holds an unkeyed number.
fn number_cell(cells: &mut [u64; CELL_WORDS], i: u16, x: u32)
    requires { i < most_cells }
    ensures { Wrote cell_in cells.old cells.new i (unkeyed (k_num x)) }
{
    store::put_cell(
        cells,
        i as u32,
        Value {
            key: Key(0),
            kind: Kind::Number,
            payload: x,
        },
    );
}

// Host value v, after those before it: it is bound to variable v, and a cell takes the next number. Returns the number of cells.
fn enter_value(
    types: &[u64],
    values: &[u64],
    of: &[u8; MOST_NAMES],
    n: usize,
    v: usize,
    ncells: u16,
    nbindings: u16,
    cells: &mut [u64; CELL_WORDS],
    bindings: &mut [u64; BINDING_WORDS],
) -> u16
    requires { (v < most_variables) × (ncells ≤ v) × (nbindings < most_bindings) }
    ensures { ValueEntered (key_in of.now n) types.now values.now v ncells nbindings
        cells.old bindings.old cells.new bindings.new result }
{
    let w = get_or(values, v, 0);
    let t = get_or(types, (w / 256 % 65536) as usize, 0);
    let x = host_value(of, n, t, ncells);
    store::put_variable(bindings, nbindings, v as u8, x, nbindings);
    if t % 256 == 0x12 {
        number_cell(cells, ncells, (w / 16777216 % 4294967296) as u32);
        return ncells + 1;
    }
    ncells
}

// The cells and bindings of m host values, after so many bindings of names. Returns the number of cells.
fn enter_values(
    types: &[u64],
    values: &[u64],
    m: usize,
    of: &[u8; MOST_NAMES],
    n: usize,
    nbindings: u16,
    cells: &mut [u64; CELL_WORDS],
    bindings: &mut [u64; BINDING_WORDS],
) -> u16
    requires { (m ≤ most_variables) × (nbindings ≤ most_declared) }
    ensures { ValuesEntered (key_in of.now n) types.now values.now m nbindings
        bindings.old cells.new bindings.new result }
{
    let mut ncells: u16 = 0;
    for v in 0..m {
        let at = nbindings + (v as u16);
        ncells = enter_value(types, values, of, n, v, ncells, at, cells, bindings);
    }
    ncells
}

// The keys of the names that the rights have.
fn enabled_keys(of: &[u8; MOST_NAMES], n: usize, nkeys: u16, rights: u64) -> Keys
    requires { Within (key_in of.now n) nkeys }
    ensures { keys_in result ≡ set_of (map (key_in of.now n) (effects.names (effects.of_word rights))) }
{
    let mut on = Keys(0, 0);
    let mut rest = rights - rights % 2;
    // Stays a while: no iterator of std goes over the bits of a word.
    while 0 < rest {
        let k = key_of(of, n, Name(rest.trailing_zeros() as u8));
        on = store::add(nkeys as u64, on, k);
        rest &= rest - 1;
    }
    on
}

// The start by the words of so many names, types and host values, with counts within the limits.
fn entered(
    names: &[u16],
    nnames: usize,
    types: &[u64],
    values: &[u64],
    nvalues: usize,
    rights: u64,
    cmds: usize,
) -> Initial
    requires { (nnames ≤ most_declared) × (nvalues ≤ most_variables) × (cmds ≤ most_expressions) }
    ensures { Begun (word_source names.now nnames types.now values.now nvalues rights cmds) result }
{
    let mut keys = [0u8; KEY_BYTES];
    let mut of = [0u8; MOST_NAMES];
    let mut cells = [0u64; CELL_WORDS];
    let mut bindings = [0u64; BINDING_WORDS];
    let nkeys = enter_names(names, nnames, &mut keys, &mut of, &mut bindings);
    let first = nkeys - 2;
    let ncells = enter_values(
        types,
        values,
        nvalues,
        &of,
        nnames + 2,
        first,
        &mut cells,
        &mut bindings,
    );
    let on = enabled_keys(&of, nnames + 2, nkeys, rights);
    Initial {
        keys,
        cells,
        bindings,
        nkeys,
        ncells,
        nbindings: first + (nvalues as u16),
        on,
        root: last(cmds) as u16,
    }
}

// Whether so many names, host values and expressions can be those of a job.
fn is_job(nnames: usize, nvalues: usize, cmds: usize) -> bool
    ensures { result ≡ is_job nnames nvalues cmds }
{
    nnames <= MOST_DECLARED && nvalues <= MOST_VARIABLES && 0 < cmds && cmds <= MOST_EXPRESSIONS
}

// The tables at the start of the job that the words hold. Where the counts are no job's, nothing is entered and nothing is enabled.
pub fn tables(
    names: &[u16],
    nnames: usize,
    types: &[u64],
    values: &[u64],
    nvalues: usize,
    rights: u64,
    cmds: usize,
) -> Initial
    ensures { Begun (source_in names.now nnames types.now values.now nvalues rights cmds) result }
{
    if is_job(nnames, nvalues, cmds) {
        entered(names, nnames, types, values, nvalues, rights, cmds)
    } else {
        entered(names, 0, types, values, 0, 0, 0)
    }
}
