// The seven kinds of field of plan files and table files.
// Kept: one impl for each. A macro of our own may write none, and a generic one would lose the names of the fields.
#![tactic(auto)]

mod activity;
mod application;
mod bytes;
mod cell;
mod edge;
mod header;
mod point;
mod resource;

pub use activity::Activity;
pub use application::ApplicationField;
pub use cell::CellField;
pub use edge::Edge;
pub use header::Header;
pub use point::Point;
pub use resource::Resource;
