// Cost tables: what each latency of an application costs.
#![tactic(auto)]

mod gathering;
mod point;
mod points;
mod table;
mod tabling;

pub use point::{Point, PointFault};
pub use points::Points;
pub use table::CostTable;
