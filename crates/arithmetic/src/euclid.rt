// Euclid's algorithm, plain and extended.
ghost use Rattle.arithmetic.specs.Divisors.{Greatest};
ghost use Rattle.arithmetic.specs.Factors.{Identity, Reduced};

// The greatest common divisor; of 0 and 0 it is 0, which every number divides.
#[tactic(auto, using(crate::proofs::Divisors::greatest_step))]
pub fn gcd(a: u64, b: u64) -> u64
    ensures { Greatest a b result }
{
    if b == 0 { a } else { gcd(b, a % b) }
}

// Bézout's identity in unsigned numbers: a·x − b·y = divisor or, where `swapped`, b·y − a·x = divisor.
// Kept: `swapped` is the sign of both factors at once; an enum of two orders would turn over by a `match` and not by `!`.
#[derive(Clone, Copy)]
pub struct Bezout {
    pub divisor: u64,
    pub x: u64,
    pub y: u64,
    pub swapped: bool,
}

// The greatest common divisor with factors that combine `a` and `b` to it. The factors stay so small that
// nothing overflows, whatever `a` and `b` are; and 0 as second number takes no part.
pub fn extended_gcd(a: u64, b: u64) -> Bezout
    ensures identity { Identity a b result }
    ensures reduced { Reduced b result }
{
    if b == 0 {
        return Bezout {
            divisor: a,
            x: 1,
            y: 0,
            swapped: false,
        };
    }
    let next = extended_gcd(b, a % b);
    Bezout {
        divisor: next.divisor,
        x: next.y,
        y: next.x + a / b * next.y,
        swapped: !next.swapped,
    }
}
