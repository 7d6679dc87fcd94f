// The beginning of a file: its version, and the label that ties tables to their plan.
ghost use Rattle.std.specs.Prelude.{refl};
ghost use Rattle.records.specs.Headers.{header_bytes, HeaderFits, header_in};
ghost use Rattle.records.specs.Again.{header_again};
ghost use Rattle.records.specs.Returned.{header_back};

use crate::bytes::bytes_at;
use fields::Record;

#[derive(Clone, Copy, PartialEq, Eq, Debug)]
pub struct Header {
    pub version: u16,
    pub label: u32,
}

impl Record for Header {
    const TAG: u8 = b'H';

    const LEN: u16 = 6;

    ghost TAG = { 72 };

    ghost LEN = { 6 };

    ghost parse = { header_in };

    ghost bytes = { header_bytes };

    ghost fits = { HeaderFits };

    ghost long = { λ x. refl };

    ghost back = { header_back };

    ghost again = { header_again };

    fn read(body: &[u8]) -> Header {
        Header {
            version: u16::from_be_bytes(bytes_at(body, 0)),
            label: u32::from_be_bytes(bytes_at(body, 2)),
        }
    }

    fn write(&self, body: &mut [u8]) {
        let Header { version, label } = *self;
        body[..2].copy_from_slice(&version.to_be_bytes());
        body[2..].copy_from_slice(&label.to_be_bytes());
    }
}
