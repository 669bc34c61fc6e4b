// The lent tables and the counts, before and after an entry.
ghost use Rattle.std.specs.Prelude.{◌≡◌, ◌<◌};
ghost use Rattle.job.specs.After.{five_at, ancestors_after, shape_after};
ghost use Rattle.job.specs.Answer.{long_enough, Small};
ghost use Rattle.job.specs.Lent.{PutLent, ZeroedLent};

use entry::{Entry, Form, Shape};
use table::{MOST_EXPRESSIONS, MOST_NAMES, MOST_VARIABLES, PLACES, TYPE_ENTRIES, set_at};

// The five places of an expression, from i on.
#[tactic(auto, unfolding(crate::specs::After::five_at))]
fn put_five(s: &mut [u16], i: usize, f: Form)
    requires { i < 65536 }
    ensures { s.new ≡ five_at s.old i f }
{
    // Both ways stay: with one test for all five, which holds of every table that `read` fills, reading takes fewer instructions.
    if i + 4 < s.len() {
        s[i] = f.a;
        s[i + 1] = f.b;
        s[i + 2] = f.c;
        s[i + 3] = f.d;
        s[i + 4] = f.e;
        return;
    }
    set_at(s, i, f.a);
    set_at(s, i + 1, f.b);
    set_at(s, i + 2, f.c);
    set_at(s, i + 3, f.d);
    set_at(s, i + 4, f.e);
}

// One entry more: its words go into the tables, of a name its ancestors too, and the counts with it are handed back.
// The entry is lent: by value its words are put together before they are looked at, and reading takes 3 % more.
#[tactic(auto, unfolding(crate::specs::After::names_after, crate::specs::After::types_after, crate::specs::After::sets_after, crate::specs::After::depths_after, crate::specs::After::values_after, crate::specs::After::heads_after, crate::specs::After::slots_after, crate::specs::After::ancestors_after, crate::specs::After::shape_after))]
pub fn add(
    e: &Entry,
    g: Shape,
    anc: &mut [u64; MOST_NAMES],
    depths: &mut [u8],
    names: &mut [u16],
    types: &mut [u64],
    sets: &mut [u64],
    values: &mut [u64],
    heads: &mut [u64],
    slots: &mut [u16],
) -> Shape
    requires { Small g }
    ensures tables { PutLent e.now g depths names types sets values heads slots }
    ensures ancestors { anc.new ≡ ancestors_after e.now g.names anc.old }
    ensures counts { result ≡ shape_after e.now g }
{
    match *e {
        Entry::Named(w) => {
            set_at(names, g.names + 2, w);
            names::enter(anc, g.names + 2, w);
            Shape {
                names: g.names + 1,
                ..g
            }
        }
        Entry::Typed(w, s, d) => {
            set_at(types, g.types, w);
            set_at(sets, g.types, s);
            set_at(depths, g.types, d);
            Shape {
                types: g.types + 1,
                ..g
            }
        }
        Entry::Valued(w) => {
            set_at(values, g.values, w);
            Shape {
                values: g.values + 1,
                ..g
            }
        }
        Entry::Rights(rights) => Shape { rights, ..g },
        Entry::Formed(f) => {
            set_at(heads, g.cmds, f.head);
            put_five(slots, g.cmds * 5, f);
            Shape {
                cmds: g.cmds + 1,
                ..g
            }
        }
        Entry::Last => g,
    }
}

// Every table zero to its end.
pub fn clear_all(
    names: &mut [u16],
    types: &mut [u64],
    sets: &mut [u64],
    values: &mut [u64],
    heads: &mut [u64],
    slots: &mut [u16],
)
    ensures { ZeroedLent names types sets values heads slots }
{
    names.fill(0);
    types.fill(0);
    sets.fill(0);
    values.fill(0);
    heads.fill(0);
    slots.fill(0);
}

// Whether every lent table is as long as its limit.
#[tactic(auto, unfolding(crate::specs::Answer::long_enough))]
pub fn long_enough(n: usize, t: usize, s: usize, v: usize, h: usize, p: usize) -> bool
    ensures { result ≡ long_enough n t s v h p }
{
    MOST_NAMES <= n
        && TYPE_ENTRIES <= t
        && TYPE_ENTRIES <= s
        && MOST_VARIABLES <= v
        && MOST_EXPRESSIONS <= h
        && PLACES <= p
}
