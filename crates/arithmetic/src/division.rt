// Division rounded up.
ghost use Rattle.std.specs.Prelude.{◌≡◌};
ghost use Rattle.std.specs.NonZero.{non_zero_u64_get};
ghost use Rattle.arithmetic.specs.Division.{RoundedUp, divided_up};

use std::num::NonZeroU64;

// The least number of parts of `size` that together reach `total`.
pub fn divide_up(total: u64, size: NonZeroU64) -> u64
    ensures least { RoundedUp total (non_zero_u64_get size) result }
    ensures value { result ≡ divided_up total (non_zero_u64_get size) }
{
    total.div_ceil(size.get())
}
