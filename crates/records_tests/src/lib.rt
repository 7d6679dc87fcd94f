#![tactic(auto)]

// Tests of crates `fields` and `records`: worked bytes, and faults in their order.
#[cfg(test)]
mod bytes;
#[cfg(test)]
mod faults;
