// Points that are gathered one by one.
ghost use Rattle.costs.specs.Costs.{Kept};

use crate::point::Point;

// Up to 20 points within their limits, whose latencies rise strictly: the first `count` of the array.
// Kept: the memory is fixed, and who has points or a cost table may copy it; the library's `ArrayVec` cannot be copied.
// Kept: a ghost field and no model, which would hide from who holds points that they are 20 at most and rise.
#[derive(Clone, Copy)]
pub struct Points {
    pub(crate) items: [Point; 20],
    pub(crate) count: usize,
    ghost kept: { Kept items count },
}
