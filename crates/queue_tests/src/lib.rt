// Users of crate `queue`: two record types, ranked by their keys, and tests with them. Nothing here speaks of heaps.
#![tactic(auto)]

mod records;

pub use records::{Event, Ready};

#[cfg(test)]
mod events;
#[cfg(test)]
mod keys;
#[cfg(test)]
mod limits;
#[cfg(test)]
mod orders;
