// A cell of the table: one of the turns of an activity, and the offset at which it is placed.
use crate::times::Offset;

// An activity, and one of its turns: in order of activity, then of turn.
#[derive(Clone, Copy, PartialEq, Eq, PartialOrd, Ord, Debug)]
pub struct CellId {
    pub activity: u16,
    pub turn: u8,
}

// An empty cell has no offset.
#[derive(Clone, Copy, PartialEq, Eq, Debug)]
pub struct Cell {
    pub id: CellId,
    pub offset: Option<Offset>,
}
