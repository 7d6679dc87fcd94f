// Two ways of counting time, in microseconds, and the one step between them.
ghost use Rattle.std.specs.Prelude.{◌≡◌, ◌+◌, ◌*◌};

use crate::cell::CellId;

// Counted from the beginning of a period.
#[derive(Clone, Copy, PartialEq, Eq, PartialOrd, Ord, Debug)]
pub struct Offset {
    pub micros: u32,
}

// Counted from time zero. Only a cell makes one.
#[derive(Clone, Copy, PartialEq, Eq, PartialOrd, Ord, Debug)]
pub struct Start {
    micros: u64,
}

impl Start {
    pub fn micros(self) -> u64
        ensures { result ≡ self.micros }
    {
        self.micros
    }
}

impl CellId {
    // When the first occurrence of the cell starts, at this offset of this period: its number is the turn.
    pub fn start(self, period: u32, offset: Offset) -> Start
        ensures { result.micros ≡ self.turn * period + offset.micros }
    {
        Start {
            micros: u64::from(self.turn) * u64::from(period) + u64::from(offset.micros),
        }
    }
}
