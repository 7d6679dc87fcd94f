// A plan: a kind of resource, and what is planned.
ghost use Rattle.std.specs.Prelude.{◌≡◌, ◌<◌, ◌≤◌, true, vec_len, vec_capacity};
ghost use Rattle.plan.specs.Cells.{cell_ids, same_ids};

use model::Cell;
use reader::Description;

// The description, and the table: a cell for each turn of each activity, in this order. An empty plan has no cells. All memory is
// obtained when the plan is made.
#[derive(Drop)]
pub struct Inner {
    pub description: Description,
    pub cells: Vec<Cell>,
    ghost room: { 2048 ≤ vec_capacity cells },
    ghost laid: { (0 < vec_len cells → same_ids cells.items (cell_ids 0 description.activities.items) ≡ true) },
}

#[derive(Drop)]
pub struct Plan<K> {
    pub kind: K,
    pub inner: Inner,
}
