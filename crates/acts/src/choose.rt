// Which act a command has: its expression's word says it, and the operands in hand.
ghost use Rattle.std.specs.Prelude.{◌≡◌, cond, List, [], ◌∷◌, ◌++◌, get_or, ltb, ◌%◌};
ghost use Rattle.semantics.specs.Machine.{Thread as SThread};
ghost use Rattle.semantics.specs.Step.{act};
ghost use Rattle.store.specs.Words.{word_in};
ghost use Rattle.store.specs.Frames.{held_in, hand_of};
ghost use Rattle.acts.specs.View.{Tables};
ghost use Rattle.acts.specs.Inner.{acted, tried};
ghost use Rattle.acts.specs.Lent.{lent_code, before_act, after_act, before_one, after_one, before_two, after_two};

use crate::{Acted, Answer, State};
use store::{BINDING_WORDS, CELL_WORDS, FUNCTION_WORDS, KEY_BYTES, PAIR_WORDS};
use table::Expr;

// The word of the value in hand at place j of a frame that holds so many; past them v.
fn in_hand(frames: &[u64], top: u16, held: u8, j: u8, v: u64) -> u64
    ensures { word_in result ≡ cond (ltb j held) (held_in frames.now top j) (word_in v) }
{
    if j < held {
        store::held_at(frames, top, j)
    } else {
        v
    }
}

impl State {
    // The acts on one value, whose word is v. It is unpacked only once the command is known.
    fn act_one(
        self,
        back: State,
        at: Expr,
        v: u64,
        heads: &[u64],
        slots: &[u16],
        cells: &mut [u64; CELL_WORDS],
        keys: &mut [u8; KEY_BYTES],
        pairs: &mut [u64; PAIR_WORDS],
        bindings: &mut [u64; BINDING_WORDS],
    ) -> Acted
        requires { get_or heads.now at.0 0 % 256 ≡ 60 → ⊥ }
        ensures { (w : Tables) →
            acted result (after_one w cells keys pairs bindings) ≡
            tried self back (before_one w cells keys pairs bindings) (act (lent_code heads slots at.0) (word_in v ∷ [])) }
    {
        let i = at.0 as usize;
        let head = table::get_or(heads, i, 0);
        let op = head % 256;
        let x = head / 256 % 4294967296;
        let b = Expr(table::get_or(slots, i * 5 + 1, 0));
        match op {
            0x34 => self.act_part(back, x == 1, store::unpack(v), keys, pairs),
            0x37 => self.act_cell(back, store::unpack(v), cells),
            0x39 => self.act_read(back, store::unpack(v), keys, cells),
            0x3B => self.act_test(
                back,
                b,
                Expr(table::get_or(slots, i * 5 + 2, 0)),
                store::unpack(v),
                keys,
            ),
            0x3D => self.act_grant(back, b, store::unpack(v), keys),
            0x3E => self.act_new_key(
                back,
                (x % 256) as u8,
                (x / 256 % 256) as u8,
                b,
                store::unpack(v),
                keys,
                pairs,
                bindings,
            ),
            0x40 => self.act_access(
                back,
                b,
                Expr(table::get_or(slots, i * 5 + 2, 0)),
                store::unpack(v),
                keys,
            ),
            _ => self.stop(Answer::Stuck),
        }
    }

    // The acts on two values, whose words are u and v, by the head of the expression, which the caller has read: `at`, `heads` and `slots` are what the contract is said of.
    fn act_two(
        self,
        back: State,
        at: Expr,
        head: u64,
        u: u64,
        v: u64,
        heads: &[u64],
        slots: &[u16],
        cells: &mut [u64; CELL_WORDS],
        keys: &[u8; KEY_BYTES],
        pairs: &mut [u64; PAIR_WORDS],
        functions: &[u64; FUNCTION_WORDS],
        bindings: &mut [u64; BINDING_WORDS],
    ) -> Acted
        requires { (head ≡ get_or heads.now at.0 0) × (get_or heads.now at.0 0 % 256 ≡ 60 → ⊥) }
        ensures { (w : Tables) →
            acted result (after_two w cells keys pairs functions bindings) ≡
            tried self back (before_two w cells keys pairs functions bindings) (act (lent_code heads slots at.0) (word_in u ∷ word_in v ∷ [])) }
    {
        let op = head % 256;
        let x = head / 256 % 4294967296;
        match op {
            0x33 => self.act_pair(back, store::unpack(u), store::unpack(v), pairs),
            0x36 => self.act_apply(
                back,
                store::unpack(u),
                store::unpack(v),
                keys,
                functions,
                bindings,
            ),
            0x38 => self.act_assign(back, store::unpack(u), store::unpack(v), keys, cells),
            0x3A | 0x41 => self.act_numbers(
                back,
                op == 0x41,
                x == 0,
                store::unpack(u),
                store::unpack(v),
                keys,
                pairs,
            ),
            0x3F => self.act_associate(back, store::unpack(u), store::unpack(v), keys),
            _ => self.stop(Answer::Stuck),
        }
    }

    // All operands are in hand: those of the frame that was popped, and the value whose word is v.
    pub fn act(
        self,
        back: State,
        at: Expr,
        top: u16,
        held: u8,
        v: u64,
        heads: &[u64],
        slots: &[u16],
        frames: &[u64],
        cells: &mut [u64; CELL_WORDS],
        keys: &mut [u8; KEY_BYTES],
        pairs: &mut [u64; PAIR_WORDS],
        functions: &[u64; FUNCTION_WORDS],
        bindings: &mut [u64; BINDING_WORDS],
    ) -> Acted
        ensures { (ts : List SThread) →
            acted result (after_act ts frames cells keys pairs functions bindings) ≡
            tried self back (before_act ts frames cells keys pairs functions bindings)
            (act (lent_code heads slots at.0) (hand_of held (held_in frames.now top 0) (held_in frames.now top 1) (held_in frames.now top 2) ++ (word_in v ∷ []))) }
    {
        let i = at.0 as usize;
        let head = table::get_or(heads, i, 0);
        if head % 256 == 0x3C {
            let body = Expr(table::get_or(slots, i * 5 + 4, 0));
            let a = store::unpack(in_hand(frames, top, held, 0, v));
            let b = store::unpack(in_hand(frames, top, held, 1, v));
            let c = store::unpack(in_hand(frames, top, held, 2, v));
            let d = store::unpack(v);
            return self.act_limit(back, body, a, b, c, d, keys);
        }
        if held == 0 {
            return self.act_one(back, at, v, heads, slots, cells, keys, pairs, bindings);
        }
        if held == 1 {
            let u = store::held_at(frames, top, 0);
            return self.act_two(
                back, at, head, u, v, heads, slots, cells, keys, pairs, functions, bindings,
            );
        }
        self.stop(Answer::Stuck)
    }
}
