// An entry of a timing table.
ghost use Rattle.std.specs.Prelude.{◌<◌, ◌≤◌};

// It starts at `start` and again after each `repeat`, without end, and lasts for `span`. All in microseconds.
#[derive(Clone, Copy)]
pub struct Entry {
    pub(crate) start: u32,
    pub(crate) repeat: u32,
    pub(crate) span: u32,
    ghost early: { start ≤ 100000000 },
    ghost repeats: { 0 < repeat },
    ghost often: { repeat ≤ 64000000 },
    ghost lasts: { 0 < span },
    ghost short: { span ≤ 1000000 },
}

// The first figure of an entry that is outside its limits.
#[derive(Clone, Copy, PartialEq, Eq, Debug)]
pub enum OutOfLimits {
    Start(u64),
    Repeat(u64),
    Span(u64),
}

pub const START_MAX: u64 = 100_000_000;

pub const REPEAT_MAX: u64 = 64_000_000;

pub const SPAN_MAX: u64 = 1_000_000;
