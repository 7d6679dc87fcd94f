// Where two progressions of whole numbers meet.
ghost use Rattle.std.specs.Prelude.{◌≡◌, ◌+◌, ◌*◌, ◌%◌, ◌^◌, ◌<◌, ◌≤◌};
ghost use Rattle.arithmetic.specs.Divisors.{Greatest};
ghost use Rattle.arithmetic.specs.Laws.{gap as gap_of};
ghost use Rattle.arithmetic.specs.Meetings.{Agree, Meet};

use crate::euclid::extended_gcd;
use crate::pair::OccurrencePair;

// The numbers from `first` on by `step`.
#[derive(Clone, Copy)]
pub(crate) struct Progression {
    pub first: u64,
    pub step: u64,
}

// The steps after which two progressions that agree modulo the divisor of their steps are at the same number. The least
// such steps are taken, though no contract asks for it.
pub(crate) fn meeting(a: Progression, b: Progression) -> OccurrencePair
    requires { Agree a.step a.first b.step b.first }
    ensures { Meet a.step a.first b.step b.first result.first result.second }
{
    let inverse = invert(a.step, b.step);
    let round = b.step / inverse.divisor;
    let least = gap(b.step, a.first, b.first) / inverse.divisor * inverse.factor % round;
    let behind = b.first.saturating_sub(a.first + least * a.step);
    let first = least + round * behind.div_ceil(round * a.step);
    OccurrencePair {
        first,
        second: (a.first + first * a.step - b.first) / b.step,
    }
}

// `to` minus `from`, modulo `g`.
pub(crate) fn gap(g: u64, from: u64, to: u64) -> u64
    requires some { 0 < g }
    requires fits { to + g < 2 ^ 64 }
    ensures value { result ≡ gap_of g from to }
    ensures limit { result < g }
{
    (to + (g - from % g)) % g
}

#[derive(Clone, Copy)]
struct Inverse {
    divisor: u64,
    factor: u64,
}

// The greatest common divisor, and a factor that takes `a` to it modulo `b`.
fn invert(a: u64, b: u64) -> Inverse
    requires { 0 < b }
    ensures greatest { Greatest a b result.divisor }
    ensures solves { (a * result.factor) % b ≡ result.divisor % b }
    ensures bound { result.factor ≤ b }
{
    let r = extended_gcd(a, b);
    Inverse {
        divisor: r.divisor,
        factor: if r.swapped { b - r.x } else { r.x },
    }
}
