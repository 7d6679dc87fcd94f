// Making a cost table, and reading it.
ghost use Rattle.std.specs.Prelude.{◌≡◌, ◌<◌, ◌≤◌, length, MatchOption};
ghost use Rattle.costs.specs.Costs.{last_latency};
ghost use Rattle.costs.specs.Tables.{points_of, table_points};

use crate::point::Point;
use crate::points::Points;
use crate::table::CostTable;

impl CostTable {
    // The table of these points; none where there are fewer than 2.
    // Kept: no `TryFrom`, whose error would be a type of one value; an `Option` says as much.
    pub fn of(points: Points) -> Option<CostTable>
        ensures { MatchOption result (length (points_of points) < 2) (λ t. t.points ≡ points) }
    {
        if points.len() < 2 {
            return None;
        }
        Some(CostTable { points })
    }

    // Its points, in the order of their latencies.
    pub fn points(&self) -> &[Point]
        ensures { result.now ≡ table_points self.now }
    {
        self.points.as_slice()
    }

    pub fn last_latency(&self) -> u32
        ensures { result ≡ last_latency (table_points self.now) }
    {
        self.points.last_latency()
    }
}
