// A row of a table: a cell and its offset.
ghost use Rattle.std.specs.Prelude.{refl};
ghost use Rattle.records.specs.Cells.{cell_bytes, CellFits, cell_in};
ghost use Rattle.records.specs.Again.{cell_again};
ghost use Rattle.records.specs.Returned.{cell_back};

use crate::bytes::bytes_at;
use fields::Record;

#[derive(Clone, Copy, PartialEq, Eq, Debug)]
pub struct CellField {
    pub activity: u16,
    pub turn: u8,
    pub offset: u32,
}

impl Record for CellField {
    const TAG: u8 = b'C';

    const LEN: u16 = 7;

    ghost TAG = { 67 };

    ghost LEN = { 7 };

    ghost parse = { cell_in };

    ghost bytes = { cell_bytes };

    ghost fits = { CellFits };

    ghost long = { λ x. refl };

    ghost back = { cell_back };

    ghost again = { cell_again };

    fn read(body: &[u8]) -> CellField {
        CellField {
            activity: u16::from_be_bytes(bytes_at(body, 0)),
            turn: body[2],
            offset: u32::from_be_bytes(bytes_at(body, 3)),
        }
    }

    fn write(&self, body: &mut [u8]) {
        let CellField {
            activity,
            turn,
            offset,
        } = *self;
        body[..2].copy_from_slice(&activity.to_be_bytes());
        body[2..3].copy_from_slice(&[turn]);
        body[3..].copy_from_slice(&offset.to_be_bytes());
    }
}
