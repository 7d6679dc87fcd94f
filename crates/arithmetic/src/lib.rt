// Whole-number arithmetic of endless repeating intervals: do two of them ever overlap?
#![tactic(auto)]

mod division;
mod entry;
mod euclid;
mod figures;
mod laws;
mod overlaps;
mod pair;
mod progressions;

pub use division::divide_up;
pub use entry::{Entry, OutOfLimits, REPEAT_MAX, SPAN_MAX, START_MAX};
pub use euclid::{Bezout, extended_gcd, gcd};
pub use laws::{
    apart_is_one_after_the_other, divisor_is_determined, finite_test_decides,
    moving_on_alters_nothing, overlaps_come_early, rests_meet_by_the_divisor,
    windows_repeat_after_the_divisor,
};
pub use overlaps::{overlap, overlaps_itself};
pub use pair::OccurrencePair;
