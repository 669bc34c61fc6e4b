// The acts: what an expression does with its operands in hand. Kinds and entries are tested first, then keys, then room.
ghost use Rattle.std.specs.Prelude.{◌≡◌, List, [], ◌∷◌, ℕ, suc, ◌<◌};
ghost use Rattle.order.specs.Sets.{all_of};
ghost use Rattle.semantics.specs.Machine.{most_keys, most_pairs, most_bindings};
ghost use Rattle.semantics.specs.Keys.{enabled};
ghost use Rattle.semantics.specs.Step.{Plan, settle, act_pair, act_part, act_app, act_new, act_asg, act_read, act_test, limit_keys, act_lim, act_grant, make_key, act_newkey, act_assoc, act_access, quotient, remainder};
ghost use Rattle.store.specs.Meaning.{keys_in, value_in};
ghost use Rattle.store.specs.Words.{up_in};
ghost use Rattle.store.specs.Tables.{capped, list_of};
ghost use Rattle.acts.specs.View.{Tables, view};
ghost use Rattle.acts.specs.Inner.{acted, tried, act_numbers, unkeyed_number, put_cells, put_keys, put_pairs, put_functions, put_bindings, limits_in, Went};
ghost use Rattle.acts.specs.Lent.{before_key, after_key};

use crate::{Acted, Answer, State, unkeyed};
use store::{
    BINDING_WORDS, CELL_WORDS, FUNCTION_WORDS, KEY_BYTES, Kind, MOST_BINDINGS, MOST_CELLS,
    MOST_FUNCTIONS, MOST_KEYS, MOST_PAIRS, Own, PAIR_WORDS, Two, Value,
};
use table::{Expr, Key};

// 0x3E binds twice.
const ROOM_FOR_TWO: u64 = MOST_BINDINGS - 1;

// The keys that four values stand for, where all are limit keys.
fn limit_keys(a: Value, b: Value, c: Value, d: Value) -> Option<Own>
    ensures { (f : List ℕ → Plan) → limit_keys (value_in a ∷ value_in b ∷ value_in c ∷ value_in d ∷ []) f ≡ limits_in result f }
{
    let Kind::Limit = a.kind else {
        return None;
    };
    let Kind::Limit = b.kind else {
        return None;
    };
    let Kind::Limit = c.kind else {
        return None;
    };
    let Kind::Limit = d.kind else {
        return None;
    };
    Some(Own(
        store::key_in(a),
        store::key_in(b),
        store::key_in(c),
        store::key_in(d),
    ))
}

impl State {
    fn touch_all(self, a: Value, b: Value, c: Value, d: Value, keys: &[u8; KEY_BYTES]) -> bool
        ensures { result ≡ all_of (enabled (list_of up_in keys.now (capped self.keys most_keys)) (keys_in self.now.on)) (a.key.0 ∷ b.key.0 ∷ c.key.0 ∷ d.key.0 ∷ []) }
    {
        self.touch(a, keys) && self.touch(b, keys) && self.touch(c, keys) && self.touch(d, keys)
    }

    pub(crate) fn act_pair(
        self,
        back: State,
        x: Value,
        y: Value,
        pairs: &mut [u64; PAIR_WORDS],
    ) -> Acted
        ensures { (w : Tables) → acted result (put_pairs w pairs.new) ≡ tried self back (put_pairs w pairs.old) (act_pair (value_in x) (value_in y)) }
    {
        let n = back.pairs;
        if n < MOST_PAIRS {
            store::put_pair(
                pairs,
                n as u16,
                Two {
                    first: x,
                    second: y,
                },
            );
            State {
                pairs: n + 1,
                ..back
            }
            .give(unkeyed(Kind::Pair, n as u32))
        } else {
            self.stop(Answer::NoRoom)
        }
    }

    pub(crate) fn act_part(
        self,
        back: State,
        first: bool,
        x: Value,
        keys: &[u8; KEY_BYTES],
        pairs: &[u64; PAIR_WORDS],
    ) -> Acted
        ensures { (w : Tables) → acted result (put_keys (put_pairs w pairs.now) keys.now) ≡ tried self back (put_keys (put_pairs w pairs.now) keys.now) (act_part first (value_in x)) }
    {
        let Kind::Pair = x.kind else {
            return self.stop(Answer::Stuck);
        };
        if back.pairs.min(MOST_PAIRS) <= x.payload as u64 {
            return self.stop(Answer::Stuck);
        }
        if !back.touch(x, keys) {
            return self.stop(Answer::Denied);
        }
        let t = store::pair_at(pairs, x.payload);
        if first {
            back.give(t.first)
        } else {
            back.give(t.second)
        }
    }

    pub(crate) fn act_apply(
        self,
        back: State,
        x: Value,
        y: Value,
        keys: &[u8; KEY_BYTES],
        functions: &[u64; FUNCTION_WORDS],
        bindings: &mut [u64; BINDING_WORDS],
    ) -> Acted
        ensures { (w : Tables) →
            acted result (put_bindings (put_functions (put_keys w keys.now) functions.now) bindings.new) ≡
            tried self back (put_bindings (put_functions (put_keys w keys.now) functions.now) bindings.old) (act_app (value_in x) (value_in y)) }
    {
        let Kind::Function = x.kind else {
            return self.stop(Answer::Stuck);
        };
        if back.functions.min(MOST_FUNCTIONS) <= x.payload as u64 {
            return self.stop(Answer::Stuck);
        }
        if !back.touch(x, keys) {
            return self.stop(Answer::Denied);
        }
        let n = back.bindings;
        if n < MOST_BINDINGS {
            let f = store::closure_at(functions, x.payload);
            store::put_variable(bindings, n as u16, f.var, y, f.env);
            State {
                bindings: n + 1,
                ..back
            }
            .go(f.body, (n + 1) as u16, back.now.on)
        } else {
            self.stop(Answer::NoRoom)
        }
    }

    pub(crate) fn act_cell(self, back: State, x: Value, cells: &mut [u64; CELL_WORDS]) -> Acted
        ensures { (w : Tables) → acted result (put_cells w cells.new) ≡ tried self back (put_cells w cells.old) (act_new (value_in x)) }
    {
        let n = back.cells;
        if n < MOST_CELLS {
            store::put_cell(cells, n as u32, x);
            State {
                cells: n + 1,
                ..back
            }
            .give(unkeyed(Kind::Cell, n as u32))
        } else {
            self.stop(Answer::NoRoom)
        }
    }

    pub(crate) fn act_assign(
        self,
        back: State,
        cell: Value,
        value: Value,
        keys: &[u8; KEY_BYTES],
        cells: &mut [u64; CELL_WORDS],
    ) -> Acted
        ensures { (w : Tables) →
            acted result (put_cells (put_keys w keys.now) cells.new) ≡
            tried self back (put_cells (put_keys w keys.now) cells.old) (act_asg (value_in cell) (value_in value)) }
    {
        let Kind::Cell = cell.kind else {
            return self.stop(Answer::Stuck);
        };
        if back.cells.min(MOST_CELLS) <= cell.payload as u64 {
            return self.stop(Answer::Stuck);
        }
        if !back.touch(cell, keys) {
            return self.stop(Answer::Denied);
        }
        store::put_cell(cells, cell.payload, value);
        back.give(value)
    }

    pub(crate) fn act_read(
        self,
        back: State,
        x: Value,
        keys: &[u8; KEY_BYTES],
        cells: &[u64; CELL_WORDS],
    ) -> Acted
        ensures { (w : Tables) → acted result (put_cells (put_keys w keys.now) cells.now) ≡ tried self back (put_cells (put_keys w keys.now) cells.now) (act_read (value_in x)) }
    {
        let Kind::Cell = x.kind else {
            return self.stop(Answer::Stuck);
        };
        if back.cells.min(MOST_CELLS) <= x.payload as u64 {
            return self.stop(Answer::Stuck);
        }
        if !back.touch(x, keys) {
            return self.stop(Answer::Denied);
        }
        back.give(store::cell_at(cells, x.payload))
    }

    // The parts of a division, as a pair.
    fn pair_parts(self, back: State, a: u32, b: u32, pairs: &mut [u64; PAIR_WORDS]) -> Acted
        ensures { (w : Tables) → acted result (put_pairs w pairs.new) ≡ tried self back (put_pairs w pairs.old) (act_pair (unkeyed_number (quotient a b)) (unkeyed_number (remainder a b))) }
    {
        let n = back.pairs;
        if MOST_PAIRS <= n {
            return self.stop(Answer::NoRoom);
        }
        let first = unkeyed(Kind::Number, arithmetic::quotient(a, b));
        let second = unkeyed(Kind::Number, arithmetic::remainder(a, b));
        store::put_pair(pairs, n as u16, Two { first, second });
        State {
            pairs: n + 1,
            ..back
        }
        .give(unkeyed(Kind::Pair, n as u32))
    }

    // Two numbers, both touched: their sum or difference, or the pair of their division. One function tests them for both commands: a second one beside it makes every step dearer.
    pub(crate) fn act_numbers(
        self,
        back: State,
        divides: bool,
        sum: bool,
        x: Value,
        y: Value,
        keys: &[u8; KEY_BYTES],
        pairs: &mut [u64; PAIR_WORDS],
    ) -> Acted
        ensures { (w : Tables) → acted result (put_keys (put_pairs w pairs.new) keys.now) ≡ tried self back (put_keys (put_pairs w pairs.old) keys.now) (act_numbers «divides» sum (value_in x) (value_in y)) }
    {
        let Kind::Number = x.kind else {
            return self.stop(Answer::Stuck);
        };
        let Kind::Number = y.kind else {
            return self.stop(Answer::Stuck);
        };
        if !back.touch(x, keys) {
            return self.stop(Answer::Denied);
        }
        if !back.touch(y, keys) {
            return self.stop(Answer::Denied);
        }
        if divides {
            return self.pair_parts(back, x.payload, y.payload, pairs);
        }
        back.give(unkeyed(Kind::Number, arithmetic::sum_of(sum, x.payload, y.payload)))
    }

    pub(crate) fn act_test(
        self,
        back: State,
        yes: Expr,
        no: Expr,
        x: Value,
        keys: &[u8; KEY_BYTES],
    ) -> Acted
        ensures { (w : Tables) → acted result (put_keys w keys.now) ≡ tried self back (put_keys w keys.now) (act_test yes.0 no.0 (value_in x)) }
    {
        let Kind::Number = x.kind else {
            return self.stop(Answer::Stuck);
        };
        if !back.touch(x, keys) {
            return self.stop(Answer::Denied);
        }
        if x.payload == 0 {
            back.go(no, back.now.env, back.now.on)
        } else {
            back.go(yes, back.now.env, back.now.on)
        }
    }

    pub(crate) fn act_limit(
        self,
        back: State,
        body: Expr,
        a: Value,
        b: Value,
        c: Value,
        d: Value,
        keys: &[u8; KEY_BYTES],
    ) -> Acted
        ensures { (w : Tables) → acted result (put_keys w keys.now) ≡ tried self back (put_keys w keys.now) (act_lim body.0 (value_in a ∷ value_in b ∷ value_in c ∷ value_in d ∷ [])) }
    {
        let Some(own) = limit_keys(a, b, c, d) else {
            return self.stop(Answer::Stuck);
        };
        if !back.touch_all(a, b, c, d, keys) {
            return self.stop(Answer::Denied);
        }
        let left = store::narrow(keys, back.keys, back.now.on, own);
        back.go(body, back.now.env, left)
    }

    pub(crate) fn act_grant(
        self,
        back: State,
        body: Expr,
        x: Value,
        keys: &[u8; KEY_BYTES],
    ) -> Acted
        ensures { (w : Tables) → acted result (put_keys w keys.now) ≡ tried self back (put_keys w keys.now) (act_grant body.0 (value_in x)) }
    {
        let Kind::Grant = x.kind else {
            return self.stop(Answer::Stuck);
        };
        if !back.touch(x, keys) {
            return self.stop(Answer::Denied);
        }
        let more = store::add(back.keys, back.now.on, store::key_in(x));
        back.go(body, back.now.env, more)
    }

    pub(crate) fn act_new_key(
        self,
        back: State,
        x: u8,
        r: u8,
        body: Expr,
        v: Value,
        keys: &mut [u8; KEY_BYTES],
        pairs: &mut [u64; PAIR_WORDS],
        bindings: &mut [u64; BINDING_WORDS],
    ) -> Acted
        ensures { (w : Tables) →
            acted result (after_key w keys pairs bindings) ≡
            tried self back (before_key w keys pairs bindings) (act_newkey x r body.0 (value_in v)) }
    {
        let Kind::Limit = v.kind else {
            return self.stop(Answer::Stuck);
        };
        if !back.touch(v, keys) {
            return self.stop(Answer::Denied);
        }
        if MOST_KEYS <= back.keys {
            return self.stop(Answer::NoRoom);
        }
        if MOST_PAIRS <= back.pairs {
            return self.stop(Answer::NoRoom);
        }
        if ROOM_FOR_TWO <= back.bindings {
            return self.stop(Answer::NoRoom);
        }
        back.new_key(x, r, body, store::key_in(v), keys, pairs, bindings)
    }

    // A key below j, a pair of its limit and grant key, and bindings of the name and of the variable.
    fn new_key(
        self,
        x: u8,
        r: u8,
        body: Expr,
        j: Key,
        keys: &mut [u8; KEY_BYTES],
        pairs: &mut [u64; PAIR_WORDS],
        bindings: &mut [u64; BINDING_WORDS],
    ) -> Acted
        requires { (self.keys < most_keys) × (self.pairs < most_pairs) × (suc self.bindings < most_bindings) }
        ensures { (w : Tables) →
            Went result (after_key w keys pairs bindings) (settle (make_key [] x r body.0 j.0 (view self (before_key w keys pairs bindings)))) }
    {
        let nk = self.keys;
        let np = self.pairs;
        let nb = self.bindings;
        let pair = unkeyed(Kind::Pair, np as u32);
        store::put_up(keys, nk as u16, j);
        store::put_pair(
            pairs,
            np as u16,
            Two {
                first: unkeyed(Kind::Limit, nk as u32),
                second: unkeyed(Kind::Grant, nk as u32),
            },
        );
        store::put_name(bindings, nb as u16, r, Key(nk as u8), self.now.env);
        store::put_variable(bindings, (nb + 1) as u16, x, pair, (nb + 1) as u16);
        State {
            keys: nk + 1,
            pairs: np + 1,
            bindings: nb + 2,
            ..self
        }
        .go(body, (nb + 2) as u16, self.now.on)
    }

    pub(crate) fn act_associate(
        self,
        back: State,
        value: Value,
        limit: Value,
        keys: &[u8; KEY_BYTES],
    ) -> Acted
        ensures { (w : Tables) → acted result (put_keys w keys.now) ≡ tried self back (put_keys w keys.now) (act_assoc (value_in value) (value_in limit)) }
    {
        let Kind::Limit = limit.kind else {
            return self.stop(Answer::Stuck);
        };
        if !back.touch(value, keys) {
            return self.stop(Answer::Denied);
        }
        if !back.touch(limit, keys) {
            return self.stop(Answer::Denied);
        }
        back.give(Value {
            key: store::key_in(limit),
            ..value
        })
    }

    // The first branch where the key that `key` stands for is enabled, the second where it is not.
    pub(crate) fn act_access(
        self,
        back: State,
        first: Expr,
        second: Expr,
        key: Value,
        keys: &[u8; KEY_BYTES],
    ) -> Acted
        ensures { (w : Tables) → acted result (put_keys w keys.now) ≡ tried self back (put_keys w keys.now) (act_access first.0 second.0 (value_in key)) }
    {
        let Kind::Limit = key.kind else {
            return self.stop(Answer::Stuck);
        };
        if !back.touch(key, keys) {
            return self.stop(Answer::Denied);
        }
        if store::enabled(keys, back.keys, back.now.on, store::key_in(key)) {
            back.go(first, back.now.env, back.now.on)
        } else {
            back.go(second, back.now.env, back.now.on)
        }
    }
}
