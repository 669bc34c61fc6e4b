// Arithmetic on numbers: a sum or difference (0x3A) that passes an end, 4294967295 or 0, stops there; a division (0x41) has two parts, 0 and the dividend where the divisor is 0.
#![tactic(auto)]

ghost use Rattle.std.specs.Prelude.{◌≡◌};
ghost use Rattle.semantics.specs.Step as step;
ghost use Rattle.semantics.specs.Step.{sum_n};

// The sum of two numbers, or their difference.
pub fn sum_of(is_sum: bool, a: u32, b: u32) -> u32
    ensures { result ≡ sum_n is_sum a b }
{
    if is_sum {
        a.saturating_add(b)
    } else {
        a.saturating_sub(b)
    }
}

// How often the second number goes into the first, and what is left of the first.
pub fn quotient(a: u32, b: u32) -> u32
    ensures { result ≡ step.quotient a b }
{
    a.checked_div(b).unwrap_or(0)
}

pub fn remainder(a: u32, b: u32) -> u32
    ensures { result ≡ step.remainder a b }
{
    a.checked_rem(b).unwrap_or(a)
}
