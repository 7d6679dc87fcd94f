// The kinds of resource that ship: cores, links and buses.
#![tactic(auto)]

mod cores;
mod laws;
mod links;
mod standard;

pub use buses::Bus;
pub use cores::Core;
pub use laws::{resource_figures_hold, shipped_kinds_are_lawful};
pub use links::Link;
pub use standard::{Standard, standard_kinds};
