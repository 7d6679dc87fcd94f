// An edge: each occurrence of the first activity ends before that of the second starts.
ghost use Rattle.std.specs.Prelude.{refl};
ghost use Rattle.records.specs.Edges.{edge_bytes, EdgeFits, edge_in};
ghost use Rattle.records.specs.Again.{edge_again};
ghost use Rattle.records.specs.Returned.{edge_back};

use crate::bytes::bytes_at;
use fields::Record;

#[derive(Clone, Copy, PartialEq, Eq, Debug)]
pub struct Edge {
    pub from: u16,
    pub to: u16,
}

impl Record for Edge {
    const TAG: u8 = b'E';

    const LEN: u16 = 4;

    ghost TAG = { 69 };

    ghost LEN = { 4 };

    ghost parse = { edge_in };

    ghost bytes = { edge_bytes };

    ghost fits = { EdgeFits };

    ghost long = { λ x. refl };

    ghost back = { edge_back };

    ghost again = { edge_again };

    fn read(body: &[u8]) -> Edge {
        Edge {
            from: u16::from_be_bytes(bytes_at(body, 0)),
            to: u16::from_be_bytes(bytes_at(body, 2)),
        }
    }

    fn write(&self, body: &mut [u8]) {
        let Edge { from, to } = *self;
        body[..2].copy_from_slice(&from.to_be_bytes());
        body[2..].copy_from_slice(&to.to_be_bytes());
    }
}
