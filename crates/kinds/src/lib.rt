// Kinds of resource: what one means, the laws that it keeps, one with a number of its own, and two side by side.
#![tactic(auto)]

mod beside;
mod kind;
mod laws;
mod limits;
mod single;

pub use beside::Beside;
pub use kind::{Kind, Stepping};
pub use laws::laws_last;
pub use limits::{STEP_MAX, demanded, repeated};
pub use single::{Single, SingleStepping};
