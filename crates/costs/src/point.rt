// A point of a cost table, and its faults.
pub use records::Point;

// Why a point is not taken.
#[derive(Clone, Copy, PartialEq, Eq, Debug)]
pub enum PointFault {
    // there are as many points as a cost table may have
    Full,
    // latency or cost is outside its limits
    OutOfLimits,
    // the latency is not above the one before
    NotRising,
}
