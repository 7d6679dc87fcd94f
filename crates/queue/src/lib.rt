// A priority queue over a lent slice, for every kind of ranked record. The queue is the first places of the slice, as many
// as the caller counts, kept as a binary heap; the places beyond are left alone.
#![tactic(auto)]

mod draining;
mod keys;
mod laws;
mod places;
mod ranking;
mod sifting;

pub use draining::{NotDrained, drain};
pub use keys::keys_before;
pub use laws::order_is_determined;
pub use places::{NoPlace, clear, pop, push};
pub use ranking::Ranked;
