// Reading a plan file into memory that was obtained before.
#![tactic(auto)]

mod active;
mod activities;
mod application;
mod building;
mod completing;
mod drafting;
mod field;
mod growing;
mod memory;
mod reading;
mod stage;
mod steps;
mod taking;

pub use application::Application;
pub use memory::Description;
