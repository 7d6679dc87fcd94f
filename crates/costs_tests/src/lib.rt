#![tactic(auto)]

// Tests of cost tables, and of offsets and starts.
#[cfg(test)]
mod starts;
#[cfg(test)]
mod tables;
