// The cells of a plan, all empty.
ghost use Rattle.std.specs.Prelude.{◌≡◌, ◌+◌, ◌≤◌, ◌++◌, map, length, vec_len, vec_capacity};
ghost use Rattle.description.specs.Limits.{cell_count};
ghost use Rattle.plan.specs.Cells.{cell_ids, empty_cell, empty_cells, turn_ids};

use description::Activity;
use model::{Cell, CellId};

// Adds the cells of one activity.
fn lay_turns(cells: &mut Vec<Cell>, activity: u16, turns: u8)
    requires { vec_len cells.old + turns ≤ vec_capacity cells.old }
    ensures items { cells.new.items ≡ cells.old.items ++ map empty_cell (turn_ids activity turns) }
    ensures len { vec_len cells.new ≡ vec_len cells.old + turns }
    ensures capacity { vec_capacity cells.new ≡ vec_capacity cells.old }
{
    for turn in 0..turns {
        cells.push_reserved(Cell {
            id: CellId { activity, turn },
            offset: None,
        });
    }
}

// The cells of these activities, in the place of what was there.
pub(crate) fn lay_cells(cells: &mut Vec<Cell>, activities: &[Activity])
    requires room { 2048 ≤ vec_capacity cells.old }
    requires few { cell_count activities.now ≤ 2048 }
    requires known { length activities.now ≤ 512 }
    ensures items { cells.new.items ≡ empty_cells activities.now }
    ensures capacity { vec_capacity cells.new ≡ vec_capacity cells.old }
{
    cells.clear();
    for (i, x) in activities.iter().enumerate() {
        lay_turns(cells, i as u16, x.turns);
    }
}
