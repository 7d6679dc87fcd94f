// What a plan file says: the parts of a plan, their limits, and the order of its fields.
#![tactic(auto)]

mod field_kind;
mod limits;
mod order;
mod refusing;

pub use field_kind::FieldKind;
pub use limits::{
    MOST_ACTIVITIES, MOST_APPLICATIONS, MOST_CELLS, MOST_EDGES, MOST_POINTS, MOST_RESOURCES,
};
pub use records::{Activity, Edge, Resource};
pub use refusing::refuse_fault;
