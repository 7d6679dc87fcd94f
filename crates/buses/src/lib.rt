// Buses, the third kind of resource that ships: a cycle of slots.
#![tactic(auto)]

mod bus;

pub use bus::Bus;
