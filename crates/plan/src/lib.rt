// A plan over any kind of resource, opened from a file.
#![tactic(auto)]

mod describing;
mod inner;
mod laying;
mod line;
mod opening;

pub use describing::Counts;
pub use inner::{Inner, Plan};
pub use line::opening_line;
