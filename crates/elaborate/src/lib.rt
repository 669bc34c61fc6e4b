// Elaboration: from the tables of a job, the type entry and the effect of each expression, and the entries that the job makes.
#![tactic(auto, unfolding(syntax::specs::Words::type_word, syntax::specs::Words::set_word, equality::specs::Entry::entry_of, rules::specs::Answer::made, rules::specs::Answer::result_in, crate::specs::Binders::store_key, crate::specs::Binders::bound_one, crate::specs::Pass::after, crate::specs::Pass::stored, crate::specs::Pass::settled))]

ghost use Rattle.std.specs.Prelude.{◌≡◌, ◌%◌, ◌≤◌, set};
ghost use Rattle.syntax.specs.Words.{type_word, set_word, code_in};
ghost use Rattle.equality.specs.Entry.{entry_of};
ghost use Rattle.equality.specs.Known.{Known};
ghost use Rattle.rules.specs.Answer.{made, result_in};
ghost use Rattle.elaborate.specs.Binders.{binder_of, store_key, bound, bound_one, bound_from, hosts_from};
ghost use Rattle.elaborate.specs.Pass.{work, Settled, Kept, typed_from, Ended};
ghost use Rattle.elaborate.specs.Typed.{Typed};

use infer::Typing;
use table::{
    Expr, MOST_NAMES, MOST_VARIABLES, Name, Refusal, byte_of, get_or, key_of, name_of, set_at,
    type_word,
};
use types::{Entry, MEMORY, TypeTable};

// What an expression binds: a function's variable with the entry of its type, or a variable and a local name by 0x3E.
#[derive(Clone, Copy)]
pub enum Binder {
    Nothing,
    Function(u8, u16),
    NewKey(u8, u8),
}

// The number of an entry, as operands have it.
fn short(n: usize) -> u16
    ensures { result ≡ n % 65536 }
{
    (n % 65536) as u16
}

// The words of a type entry: its own, and its effect.
fn entry_word(e: Entry) -> u64
    ensures { result ≡ type_word (made (entry_of e)) }
{
    match e {
        Entry::Number(q) => type_word(0x10, q.0, 0, 0),
        Entry::Pair(q, a, b) => type_word(0x11, q.0, a, b),
        Entry::Cell(q, a) => type_word(0x12, q.0, a, 0),
        Entry::Function(q, a, b, _) => type_word(0x13, q.0, a, b),
        Entry::Limit(q, r) => type_word(0x14, q.0, r.0 as u16, 0),
        Entry::Grant(q, r) => type_word(0x15, q.0, r.0 as u16, 0),
        Entry::Nothing => type_word(0x10, 0, 0, 0),
    }
}

fn set_word(e: Entry) -> u64
    ensures { result ≡ set_word (made (entry_of e)) }
{
    let Entry::Function(_, _, _, s) = e else {
        return 0;
    };
    s
}

// What expression e binds.
fn binder_at<'a>(heads: &'a [u64], slots: &'a [u16], e: Expr) -> Binder
    ensures { result ≡ binder_of (code_in heads.now slots.now e.0) }
{
    let i = e.0 as usize;
    let w = get_or(heads, i, 0);
    match byte_of(w) {
        0x35 => Binder::Function(key_of(w), get_or(slots, i * 5 + 1, 0)),
        0x3E => Binder::NewKey(key_of(w), name_of(w)),
        _ => Binder::Nothing,
    }
}

// The three entries of a 0x3E with local name r, from n on: its limit key, its grant key, and their pair.
fn store_key(types: &mut [u64], n: usize, r: u8)
    requires { n ≤ 327680 }
    ensures { types.new ≡ store_key types.old n r }
{
    set_at(types, n, type_word(0x14, 0, r as u16, 0));
    set_at(types, n + 1, type_word(0x15, 0, r as u16, 0));
    set_at(types, n + 2, type_word(0x11, 0, short(n), short(n + 1)));
}

// One binder more, when n entries stand before; the number of entries afterwards.
fn bind_one(b: Binder, n: usize, types: &mut [u64], vars: &mut [u16; MOST_VARIABLES]) -> usize
    requires { n ≤ 327680 }
    ensures { bound result types.new vars.new ≡ bound_one b (bound n types.old vars.old) }
{
    match b {
        Binder::Nothing => n,
        Binder::Function(v, t) => {
            set_at(vars, v as usize, t);
            n
        }
        Binder::NewKey(v, r) => {
            store_key(types, n, r);
            set_at(vars, v as usize, short(n + 2));
            n + 3
        }
    }
}

// The entries of each 0x3E, and the variables that expressions bind, when n types are declared.
fn bind<'a>(
    heads: &'a [u64],
    slots: &'a [u16],
    cmds: u16,
    n: u16,
    types: &mut [u64],
    vars: &mut [u16; MOST_VARIABLES],
) -> usize
    ensures { (result ≤ 262144) × (bound result types.new vars.new
        ≡ bound_from heads.now slots.now cmds 0 (bound n types.old vars.old)) }
{
    let mut count = n as usize;
    for i in 0..cmds {
        let b = binder_at(heads, slots, Expr(i));
        count = bind_one(b, count, types, vars);
    }
    count
}

// The variables of the first n host values.
fn hosts(values: &[u64], n: u16, vars: &mut [u16; MOST_VARIABLES])
    ensures { vars.new ≡ hosts_from values.now n 0 vars.old }
{
    for i in 0..n as usize {
        let w = get_or(values, i, 0);
        set_at(vars, i, (w / 256 % 65536) as u16);
    }
}

// Writes entry n of the type table. What is known of comparisons stays right. (Of a single entry `settle` has these lines: they are quicker there.)
fn store(x: Entry, n: usize, types: &mut [u64], sets: &mut [u64], known: &mut [u64])
    ensures { (types.new ≡ set types.old n (type_word (made (entry_of x))))
        × (sets.new ≡ set sets.old n (set_word (made (entry_of x))))
        × Kept types.old sets.old known.old types.new sets.new known.new }
{
    types::make_room(types, n, known);
    set_at(types, n, entry_word(x));
    set_at(sets, n, set_word(x));
}

// Writes the type and effect of expression e, when n entries stand in the type table; the number of entries afterwards. What is known of comparisons stays right.
fn settle(
    typing: Typing,
    e: Expr,
    n: usize,
    types: &mut [u64],
    sets: &mut [u64],
    entries: &mut [u16],
    effects: &mut [u64],
    known: &mut [u64],
) -> usize
    requires { n ≤ 524288 }
    ensures { Settled (result_in (Ok typing)) e.0 (work n types.old sets.old entries.old effects.old) result
        types.new sets.new entries.new effects.new
        × Kept types.old sets.old known.old types.new sets.new known.new }
{
    let i = e.0 as usize;
    match typing {
        Typing::Makes(x, s) => {
            types::make_room(types, n, known);
            set_at(types, n, entry_word(x));
            set_at(sets, n, set_word(x));
            set_at(entries, i, short(n));
            set_at(effects, i, s);
            n + 1
        }
        Typing::Shares(t, s) => {
            store(Entry::Number(Name(0)), n, types, sets, known);
            let last = n + 1;
            store(Entry::Pair(Name(0), t, t), last, types, sets, known);
            set_at(entries, i, short(last));
            set_at(effects, i, s);
            last + 1
        }
        Typing::Points(j, s) => {
            set_at(entries, i, j);
            set_at(effects, i, s);
            n
        }
    }
}

// The expressions in order, when n entries stand in the type table. The first refusal ends it, with its expression as the place.
fn type_all<'a>(
    names: &'a [u16],
    anc: &'a [u64; MOST_NAMES],
    vars: &'a [u16; MOST_VARIABLES],
    heads: &'a [u64],
    slots: &'a [u16],
    cmds: u16,
    n: usize,
    types: &mut [u64],
    sets: &mut [u64],
    entries: &mut [u16],
    effects: &mut [u64],
    known: &mut [u64],
) -> Result<(), Refusal>
    requires { (n ≤ 262144) × Known anc.now types.old sets.old known.old }
    ensures { Ended (typed_from anc.now names.now vars.now heads.now slots.now cmds 0 (work n types.old sets.old entries.old effects.old)) result types.new sets.new entries.new effects.new }
{
    let mut count = n;
    for e in 0..cmds {
        let place = e as usize;
        let table = TypeTable { anc, types, sets };
        match infer::result(
            Expr(e),
            heads,
            slots,
            entries,
            effects,
            vars,
            names,
            &table,
            short(count),
            known,
        ) {
            Ok(typing) => {
                count = settle(typing, Expr(e), count, types, sets, entries, effects, known);
            }
            Err(number) => return Err(Refusal { number, place }),
        }
    }
    Ok(())
}

// From the tables of a job with so many declared types, host values and expressions: the entries of each 0x3E, then for each
// expression its entry and its effect, and the entries that it makes. The first refusal ends it, with its expression as the place.
pub fn number_all<'a>(
    names: &'a [u16],
    anc: &'a [u64; MOST_NAMES],
    values: &'a [u64],
    heads: &'a [u64],
    slots: &'a [u16],
    declared: u16,
    given: u16,
    cmds: u16,
    types: &mut [u64],
    sets: &mut [u64],
    entries: &mut [u16],
    effects: &mut [u64],
) -> Result<(), Refusal>
    ensures { Typed anc.now names.now values.now heads.now slots.now declared given cmds
        types.old sets.old entries.old effects.old result
        types.new sets.new entries.new effects.new }
{
    let mut vars = [0u16; MOST_VARIABLES];
    hosts(values, given, &mut vars);
    let n = bind(heads, slots, cmds, declared, types, &mut vars);
    if declared < 6 { // a memory is not worth its cost: no comparison looks at more than 63 pairs
        let mut known = [0u64; 1];
        return type_all(
            names, anc, &vars, heads, slots, cmds, n, types, sets, entries, effects, &mut known,
        );
    }
    let mut known = [0u64; MEMORY];
    type_all(
        names, anc, &vars, heads, slots, cmds, n, types, sets, entries, effects, &mut known,
    )
}
