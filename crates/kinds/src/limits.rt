// Limits that all kinds share.
ghost use Rattle.std.specs.Prelude.{◌≡◌};
ghost use Rattle.kinds.specs.Parts.{demanded as demanded?, repeated as repeated?};

// The largest start that a step is asked from.
pub const STEP_MAX: u64 = 4_000_000_000;

// Kept: two functions, since callers mean this limit or that one; of one function over a constant each call would say the number.
// Whether a demand is 1 to 1,000,000.
pub fn demanded(demand: u32) -> bool
    ensures { result ≡ demanded? demand }
{
    (1..=1_000_000).contains(&demand)
}

// Whether a repeat is 1 to 64,000,000.
pub fn repeated(repeat: u32) -> bool
    ensures { result ≡ repeated? repeat }
{
    (1..=64_000_000).contains(&repeat)
}
