// Why a call is refused: a variant for each case. A place is the byte of the tag of the field at fault.

use crate::cell::CellId;

// The rules that two cells, or a cell with itself, can break.
#[derive(Clone, Copy, PartialEq, Eq, Debug)]
pub enum PairRule {
    TurnOrder,
    Jitter,
    Overlap,
    Bar,
    Edge,
    Latency,
}

// An occurrence of a cell that is to be placed and one of another cell would break a rule.
#[derive(Clone, Copy, PartialEq, Eq, Debug)]
pub struct Clash {
    pub rule: PairRule,
    pub place: u64,
    pub cell: CellId,
    pub other: CellId,
    pub first: u64,
    pub second: u64,
}

#[derive(Clone, Copy, PartialEq, Eq, Debug)]
pub enum Refusal {
    // a header or a body passes the end, or the input ends early
    EndsEarly(u64),
    // the tag is not allowed here
    WrongTag(u64),
    // not the tag's length
    WrongLength(u64),
    // a number outside its limits, an unknown application or resource, or points that do not rise
    OutOfLimits(u64),
    // too many of a field, or too few of what belongs to it
    WrongCount(u64),
    UnsoundResource(u64),
    DemandNotTaken(u64),
    // an edge that is not from a lower to a higher known activity of one application
    WrongEdge(u64),
    UnknownCell(u64, CellId),
    AlreadyPlaced(u64, CellId),
    NotPlaced(CellId),
    // the cell would end after its window
    Window(u64, CellId),
    // the cell would start where its resource does not admit it
    Grid(u64, CellId),
    Rule(Clash),
    // the cell that is to be filled has no accepted offset
    NoOffset(CellId),
    // the first empty cell of a table that is to be finished
    Unfinished(CellId),
    // the queue, the rows or the output are too short
    TooShort,
    // the table's label is not the plan's
    OtherLabel,
    NoPlan,
}
