// A cost table.
ghost use Rattle.std.specs.Prelude.{◌≤◌};

use crate::points::Points;

// 2 to 20 points within their limits, whose latencies rise strictly.
#[derive(Clone, Copy)]
pub struct CostTable {
    pub(crate) points: Points,
    ghost enough: { 2 ≤ points.count },
}
