// Gathering points.
ghost use Rattle.std.specs.Prelude.{◌≡◌, [], ◌∷◌, ◌++◌, length, if◌then◌else◌, is_ok};
ghost use Rattle.std.specs.Result.{result_err};
ghost use Rattle.costs.specs.Costs.{last_latency, may_follow};
ghost use Rattle.costs.specs.Tables.{points_of, push_fault};

use crate::point::{Point, PointFault};
use crate::points::Points;

const NO_POINT: Point = Point {
    latency: 0,
    cost: 0,
};

impl Points {
    // No points yet.
    pub fn new() -> Points
        ensures { points_of result ≡ [] }
    {
        Points {
            items: [NO_POINT; 20],
            count: 0,
        }
    }

    pub fn as_slice(&self) -> &[Point]
        ensures { result.now ≡ points_of self.now }
    {
        &self.items[..self.count]
    }

    pub fn len(&self) -> usize
        ensures { result ≡ length (points_of self.now) }
    {
        self.as_slice().len()
    }

    // The latency of the last point, or 0.
    pub fn last_latency(&self) -> u32
        ensures { result ≡ last_latency (points_of self.now) }
    {
        match self.as_slice().last() {
            Some(point) => point.latency,
            None => 0,
        }
    }

    // Whether the point is within its limits and its latency above the last one.
    pub fn may_follow(&self, next: Point) -> bool
        ensures { result ≡ may_follow (points_of self.now) next }
    {
        next.is_right() && self.last_latency() < next.latency
    }

    // One point more; refused, nothing is changed.
    pub fn push(&mut self, next: Point) -> Result<(), PointFault>
        ensures answer { result_err result ≡ push_fault (points_of self.old) next }
        ensures after { points_of self.new ≡ (if is_ok result then points_of self.old ++ next ∷ [] else points_of self.old) }
    {
        if self.count == self.items.len() {
            return Err(PointFault::Full);
        }
        if !next.is_right() {
            return Err(PointFault::OutOfLimits);
        }
        if !self.may_follow(next) {
            return Err(PointFault::NotRising);
        }
        self.items[self.count] = next;
        self.count += 1;
        Ok(())
    }
}
