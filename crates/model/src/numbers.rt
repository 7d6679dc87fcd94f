// A refusal as eight numbers: number, place, cell as activity and turn, other cell likewise, two occurrences. What does not apply
// is 0.
// Kept: a table: variants with fields can have no number of their own, and one place for all of them is plainer than two.
ghost use Rattle.std.specs.Prelude.{◌≡◌};
ghost use Rattle.model.specs.Refusals.{clash_numbers, numbers_of, pair_number, row};

use crate::cell::CellId;
use crate::refusal::{Clash, PairRule, Refusal};

const NO_CELL: CellId = CellId {
    activity: 0,
    turn: 0,
};

// A refusal that names no second cell.
fn plain(number: u64, place: u64, cell: CellId, first: u64) -> [u64; 8]
    ensures { result ≡ row number place cell.activity cell.turn first }
{
    [
        number,
        place,
        u64::from(cell.activity),
        u64::from(cell.turn),
        0,
        0,
        first,
        0,
    ]
}

impl PairRule {
    fn number(self) -> u64
        ensures { result ≡ pair_number self }
    {
        match self {
            PairRule::TurnOrder => 14,
            PairRule::Jitter => 15,
            PairRule::Overlap => 16,
            PairRule::Bar => 17,
            PairRule::Edge => 18,
            PairRule::Latency => 19,
        }
    }
}

impl Clash {
    fn numbers(self) -> [u64; 8]
        ensures { result ≡ clash_numbers self }
    {
        [
            self.rule.number(),
            self.place,
            u64::from(self.cell.activity),
            u64::from(self.cell.turn),
            u64::from(self.other.activity),
            u64::from(self.other.turn),
            self.first,
            self.second,
        ]
    }
}

impl Refusal {
    pub fn numbers(self) -> [u64; 8]
        ensures { result ≡ numbers_of self }
    {
        match self {
            Refusal::EndsEarly(place) => plain(1, place, NO_CELL, 0),
            Refusal::WrongTag(place) => plain(2, place, NO_CELL, 0),
            Refusal::WrongLength(place) => plain(3, place, NO_CELL, 0),
            Refusal::OutOfLimits(place) => plain(4, place, NO_CELL, 0),
            Refusal::WrongCount(place) => plain(5, place, NO_CELL, 0),
            Refusal::UnsoundResource(place) => plain(6, place, NO_CELL, 0),
            Refusal::DemandNotTaken(place) => plain(7, place, NO_CELL, 0),
            Refusal::WrongEdge(place) => plain(8, place, NO_CELL, 0),
            Refusal::UnknownCell(place, cell) => plain(9, place, cell, 0),
            Refusal::AlreadyPlaced(place, cell) => plain(10, place, cell, 0),
            Refusal::NotPlaced(cell) => plain(11, 0, cell, 0),
            Refusal::Window(place, cell) => plain(12, place, cell, u64::from(cell.turn)),
            Refusal::Grid(place, cell) => plain(13, place, cell, u64::from(cell.turn)),
            Refusal::Rule(clash) => clash.numbers(),
            Refusal::NoOffset(cell) => plain(20, 0, cell, 0),
            Refusal::Unfinished(cell) => plain(21, 0, cell, 0),
            Refusal::TooShort => plain(22, 0, NO_CELL, 0),
            Refusal::OtherLabel => plain(23, 0, NO_CELL, 0),
            Refusal::NoPlan => plain(24, 0, NO_CELL, 0),
        }
    }
}
