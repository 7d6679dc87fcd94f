#![tactic(auto)]

// Tests of crate `resources`: every limit from both sides, as tables, asked of the kinds that ship.
#[cfg(test)]
mod grid;
#[cfg(test)]
mod sound;
#[cfg(test)]
mod span;
