// The tree checks: number 10 of document 01, by passes over a job's tables, and 8, 9 and 10 together.
#![tactic(auto)]

ghost use Rattle.std.specs.Prelude.{◌≡◌, ◌+◌, ◌*◌, ◌≤◌, ◌<◌, true, false, eqb};
ghost use Rattle.std.specs.Int.Bits.{bit_or};
ghost use Rattle.syntax.specs.Reading.{most_declared, most_types, most_expressions};
ghost use Rattle.syntax.specs.Job.{Job, source_of};
ghost use Rattle.syntax.specs.ReadLaws.{JobOk};
ghost use Rattle.syntax.specs.Tree.{first_bad, numbered, tree_refusal};
ghost use Rattle.uses.specs.Answer.{refusal_of};
ghost use Rattle.tree.specs.Holds.{Holds};
ghost use Rattle.uses.specs.Passes.{type_place};
ghost use Rattle.tree.specs.Passes.{inherited_down, host_name, host_names, host_vars, in_limits, is_scoped, masks_by, operand_names, scope_refusal, table_refusal, tree_by, type_names, var_fits};
ghost use Rattle.uses.specs.Places.{at_first, at_last};
ghost use Rattle.tree.specs.Places.{inherit_at, inherit_to, pass_at, pass_to};

use names::{has, single};
use table::{
    Expr, MOST_DECLARED, MOST_EXPRESSIONS, MOST_TYPES, Refusal, first_of, get_or, key_of, name_of,
    second_of,
};
use uses::{
    bound_name, bound_var, count, ends_in_operand, first_operands, is_binder, is_body, misused,
    rebound, refused,
};

// The host's variables: the first n.
#[tactic(auto, unfolding(crate::specs::Passes::host_vars))]
fn host_vars(n: usize) -> u64
    ensures { result ≡ host_vars n }
{
    if n < 64 { (1u64 << n) - 1 } else { u64::MAX }
}

// The set of name n where this word of the names table is a host name's.
#[tactic(auto, unfolding(crate::specs::Passes::host_name))]
fn host_name(word: u16, n: u8) -> u64
    ensures { result ≡ host_name word n }
{
    if word / 256 == 1 { single(n) } else { 0 }
}

// 0, 1 and the host's names.
fn host_names(names: &[u16], n: usize) -> u64
    requires { n ≤ most_declared }
    ensures { result ≡ host_names names.now n }
{
    let mut s: u64 = 3;
    for i in 0..n {
        let a = i + 2;
        s |= host_name(get_or(names, a, 0), a as u8);
    }
    s
}

// The names in the type of this word and set, by the names in the types before it.
fn names_of(word: u64, set: u64, masks: &[u64; MOST_TYPES]) -> u64
    ensures { result ≡ type_names word set masks.now }
{
    let byte = word % 256;
    let own = single(key_of(word));
    let a = get_or(masks, first_of(word) as usize, 0);
    let b = get_or(masks, second_of(word) as usize, 0);
    let r = single(name_of(word));
    match byte {
        0x11 => own | (a | b),
        0x12 => own | a,
        0x13 => own | ((a | b) | set),
        0x14 => own | r,
        0x15 => own | r,
        _ => own,
    }
}

// The names in each declared type. Its parts are earlier types, so one pass finds them.
fn type_masks(types: &[u64], sets: &[u64], n: usize) -> [u64; MOST_TYPES]
    requires { n ≤ most_types }
    ensures { result ≡ masks_by types.now sets.now n }
{
    let mut masks = [0u64; MOST_TYPES];
    for i in 0..n {
        masks[i] = names_of(get_or(types, i, 0), get_or(sets, i, 0), &masks);
    }
    masks
}

// Expression e passes its scopes to c, the operand in place i of the command with this head.
#[tactic(auto, unfolding(crate::specs::Places::inherit_to, crate::specs::Passes::inherited_by, crate::specs::Passes::put_in, crate::specs::Places::pass_to, uses::specs::Passes::bound_of))]
fn inherit(
    vars: &mut [u64; MOST_EXPRESSIONS],
    locals: &mut [u64; MOST_EXPRESSIONS],
    head: u64,
    i: usize,
    e: usize,
    c: usize,
)
    requires { e < most_expressions }
    ensures { (vars.new ≡ inherit_to false vars.old head i e c) × (locals.new ≡ inherit_to true locals.old head i e c) }
{
    if c < MOST_EXPRESSIONS && is_body(head, i) {
        vars[c] = vars[e] | single(bound_var(head));
        locals[c] = locals[e] | single(bound_name(head));
    } else {
        pass(vars, locals, e, c);
    }
}

// Expression e passes its scopes to its last place, if it is an operand.
#[tactic(auto, unfolding(uses::specs::Places::at_last, crate::specs::Places::inherit_at))]
fn inherit_last(
    vars: &mut [u64; MOST_EXPRESSIONS],
    locals: &mut [u64; MOST_EXPRESSIONS],
    slots: &[u16],
    head: u64,
    e: usize,
)
    requires { e < most_expressions }
    ensures { (vars.new ≡ at_last (inherit_at false slots.now head e) head vars.old)
        × (locals.new ≡ at_last (inherit_at true slots.now head e) head locals.old) }
{
    if ends_in_operand(head) {
        inherit(
            vars,
            locals,
            head,
            4,
            e,
            get_or(slots, e * 5 + 4, 0) as usize,
        );
    }
}

// Expression e, a binder, passes its scopes to its first n places, from the highest down, with what it binds in its body.
fn bind_first(
    vars: &mut [u64; MOST_EXPRESSIONS],
    locals: &mut [u64; MOST_EXPRESSIONS],
    slots: &[u16],
    head: u64,
    e: usize,
    n: usize,
)
    requires { (e < most_expressions) × (n ≤ 4) }
    ensures { (vars.new ≡ at_first (inherit_at false slots.now head e) n vars.old)
        × (locals.new ≡ at_first (inherit_at true slots.now head e) n locals.old) }
{
    for i in (0..n).rev() {
        inherit(
            vars,
            locals,
            head,
            i,
            e,
            get_or(slots, e * 5 + i, 0) as usize,
        );
    }
}

// Expression e passes its scopes to c as they are.
#[tactic(auto, unfolding(crate::specs::Places::pass_to, crate::specs::Passes::put_in))]
fn pass(
    vars: &mut [u64; MOST_EXPRESSIONS],
    locals: &mut [u64; MOST_EXPRESSIONS],
    e: usize,
    c: usize,
)
    requires { e < most_expressions }
    ensures { (vars.new ≡ pass_to vars.old e c) × (locals.new ≡ pass_to locals.old e c) }
{
    if c < MOST_EXPRESSIONS {
        vars[c] = vars[e];
        locals[c] = locals[e];
    }
}

// Expression e passes its scopes as they are to its first n places, from the highest down. Stays beside `bind_first`: what binds nothing need not ask each place whether it is a body.
fn pass_first(
    vars: &mut [u64; MOST_EXPRESSIONS],
    locals: &mut [u64; MOST_EXPRESSIONS],
    slots: &[u16],
    e: usize,
    n: usize,
)
    requires { (e < most_expressions) × (n ≤ 4) }
    ensures { (vars.new ≡ at_first (pass_at slots.now e) n vars.old)
        × (locals.new ≡ at_first (pass_at slots.now e) n locals.old) }
{
    for i in (0..n).rev() {
        pass(vars, locals, e, get_or(slots, e * 5 + i, 0) as usize);
    }
}

// Expression e passes its scopes to its first n places, from the highest down.
fn inherit_first(
    vars: &mut [u64; MOST_EXPRESSIONS],
    locals: &mut [u64; MOST_EXPRESSIONS],
    slots: &[u16],
    head: u64,
    e: usize,
    n: usize,
)
    requires { (e < most_expressions) × (n ≤ 4) }
    ensures { (vars.new ≡ at_first (inherit_at false slots.now head e) n vars.old)
        × (locals.new ≡ at_first (inherit_at true slots.now head e) n locals.old) }
{
    if is_binder(head) {
        bind_first(vars, locals, slots, head, e, n);
    } else {
        pass_first(vars, locals, slots, e, n);
    }
}

// The variables and the names in scope at each expression, from the last one down.
fn scopes(
    heads: &[u64],
    slots: &[u16],
    cmds: usize,
    vars: &mut [u64; MOST_EXPRESSIONS],
    locals: &mut [u64; MOST_EXPRESSIONS],
)
    requires { cmds ≤ most_expressions }
    ensures { (vars.new ≡ inherited_down false heads.now slots.now (cmds * 5) vars.old)
        × (locals.new ≡ inherited_down true heads.now slots.now (cmds * 5) locals.old) }
{
    for e in (0..cmds).rev() {
        let head = get_or(heads, e, 0);
        inherit_last(vars, locals, slots, head, e);
        inherit_first(vars, locals, slots, head, e, first_operands(head));
    }
}

// The place of a command's type operand; 5 for none. Stays a number, no Option: 5 is past an expression's places, and the definition `type_place` has it.
#[tactic(auto, unfolding(uses::specs::Passes::type_place))]
fn type_place(byte: u64) -> usize
    ensures { result ≡ type_place byte }
{
    match byte {
        0x35 => 1,
        0x37 => 1,
        0x3B => 3,
        0x3E => 2,
        0x40 => 3,
        _ => 5,
    }
}

// The names in the type operand of expression e.
#[tactic(auto, unfolding(crate::specs::Passes::operand_names))]
fn operand_names<'a>(masks: &'a [u64; MOST_TYPES], slots: &'a [u16], e: usize, head: u64) -> u64
    requires { e < most_expressions }
    ensures { result ≡ operand_names masks.now slots.now e head }
{
    let place = type_place(head % 256);
    if place < 5 {
        get_or(masks, get_or(slots, e * 5 + place, 0) as usize, 0)
    } else {
        0
    }
}

// Whether the variable that the command uses is in scope.
#[tactic(auto, unfolding(crate::specs::Passes::var_fits))]
fn var_fits(head: u64, vars: u64) -> bool
    ensures { result ≡ var_fits head vars }
{
    head % 256 != 0x32 || has(vars, key_of(head))
}

// Whether all names of m are in s.
fn within(m: u64, s: u64) -> bool
    ensures { result ≡ eqb (bit_or m s) s }
{
    m | s == s
}

// Refusal 10: the lowest expression with a variable, or a name in its type operand, out of scope.
fn unscoped<'a>(
    heads: &'a [u64],
    slots: &'a [u16],
    cmds: usize,
    masks: &'a [u64; MOST_TYPES],
    vars: &'a [u64; MOST_EXPRESSIONS],
    locals: &'a [u64; MOST_EXPRESSIONS],
) -> Result<(), Refusal>
    requires { cmds ≤ most_expressions }
    ensures { refusal_of result
        ≡ numbered 10
        (first_bad (is_scoped heads.now slots.now masks.now vars.now locals.now) 0 cmds) }
{
    for e in 0..cmds {
        let head = get_or(heads, e, 0);
        if !var_fits(head, vars[e]) || !within(operand_names(masks, slots, e, head), locals[e]) {
            return Err(refused(10, Expr(e as u16)));
        }
    }
    Ok(())
}

// Refusal 10, with the scopes.
fn scope_check<'a>(
    heads: &'a [u64],
    slots: &'a [u16],
    cmds: usize,
    names: &'a [u16],
    nnames: usize,
    types: &'a [u64],
    sets: &'a [u64],
    ntypes: usize,
    nvalues: usize,
) -> Result<(), Refusal>
    requires { (0 < cmds) × (cmds ≤ most_expressions) × (nnames ≤ most_declared) × (ntypes ≤ most_types) }
    ensures { refusal_of result
        ≡ scope_refusal heads.now slots.now cmds names.now nnames types.now sets.now ntypes nvalues }
{
    let masks = type_masks(types, sets, ntypes);
    let mut vars = [0u64; MOST_EXPRESSIONS];
    vars[cmds - 1] = host_vars(nvalues);
    let mut locals = [0u64; MOST_EXPRESSIONS];
    locals[cmds - 1] = host_names(names, nnames);
    scopes(heads, slots, cmds, &mut vars, &mut locals);
    unscoped(heads, slots, cmds, &masks, &vars, &locals)
}

// Whether there is an expression, and no more entries than the limits.
#[tactic(auto, unfolding(crate::specs::Passes::in_limits))]
fn in_limits(cmds: usize, nnames: usize, ntypes: usize) -> bool
    ensures { result ≡ in_limits cmds nnames ntypes }
{
    0 < cmds && cmds <= MOST_EXPRESSIONS && nnames <= MOST_DECLARED && ntypes <= MOST_TYPES
}

// Refusal 8 before 9 before 10.
fn table_check<'a>(
    heads: &'a [u64],
    slots: &'a [u16],
    cmds: usize,
    names: &'a [u16],
    nnames: usize,
    types: &'a [u64],
    sets: &'a [u64],
    ntypes: usize,
    nvalues: usize,
) -> Result<(), Refusal>
    requires { (0 < cmds) × (cmds ≤ most_expressions) × (nnames ≤ most_declared) × (ntypes ≤ most_types) }
    ensures { refusal_of result
        ≡ table_refusal heads.now slots.now cmds names.now nnames types.now sets.now ntypes nvalues }
{
    let mut counts = [0u8; MOST_EXPRESSIONS];
    count(heads, slots, cmds, &mut counts);
    misused(&counts, cmds)?;
    rebound(heads, cmds)?;
    scope_check(
        heads, slots, cmds, names, nnames, types, sets, ntypes, nvalues,
    )
}

// The first refusal of the job that the tables hold: cmds heads with five places each, nnames names from entry 2 on, ntypes types with
// their sets, nvalues host values. For other tables it is what the same passes find in them. Where there is no expression or a count
// is past its limit, the tables hold no job: refusal 8 at the first expression.
pub fn tree<'a>(
    heads: &'a [u64],
    slots: &'a [u16],
    cmds: usize,
    names: &'a [u16],
    nnames: usize,
    types: &'a [u64],
    sets: &'a [u64],
    ntypes: usize,
    nvalues: usize,
) -> Result<(), Refusal>
    ensures job { (J : Job) → JobOk J
        → Holds J heads.now slots.now cmds names.now nnames types.now sets.now ntypes nvalues
        → refusal_of result ≡ tree_refusal (source_of J) }
    ensures always { refusal_of result
        ≡ tree_by heads.now slots.now cmds names.now nnames types.now sets.now ntypes nvalues }
{
    if in_limits(cmds, nnames, ntypes) {
        table_check(
            heads, slots, cmds, names, nnames, types, sets, ntypes, nvalues,
        )
    } else {
        Err(refused(8, Expr(0)))
    }
}
