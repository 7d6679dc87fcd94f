#![tactic(auto)]

// Tests of crate `arithmetic`: examples, limits from both sides, and a comparison with unrolled occurrences.
#[cfg(test)]
mod divisors;
#[cfg(test)]
mod entries;
#[cfg(test)]
mod overlaps;
#[cfg(test)]
mod unrolled;
