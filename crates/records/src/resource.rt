// A resource: a kind number and its four numbers.
ghost use Rattle.std.specs.Prelude.{refl};
ghost use Rattle.records.specs.Resources.{resource_bytes, ResourceFits, resource_in};
ghost use Rattle.records.specs.Again.{resource_again};
ghost use Rattle.records.specs.Returned.{resource_back};

use crate::bytes::bytes_at;
use fields::Record;

#[derive(Clone, Copy, PartialEq, Eq, Debug)]
pub struct Resource {
    pub kind: u16,
    pub numbers: [u32; 4],
}

impl Record for Resource {
    const TAG: u8 = b'R';

    const LEN: u16 = 18;

    ghost TAG = { 82 };

    ghost LEN = { 18 };

    ghost parse = { resource_in };

    ghost bytes = { resource_bytes };

    ghost fits = { ResourceFits };

    ghost long = { λ x. refl };

    ghost back = { resource_back };

    ghost again = { resource_again };

    fn read(body: &[u8]) -> Resource {
        Resource {
            kind: u16::from_be_bytes(bytes_at(body, 0)),
            // Kept: one by one, here and in `write`: by `array::from_fn`, and by `chunks_exact_mut` there, it did not prove.
            numbers: [
                u32::from_be_bytes(bytes_at(body, 2)),
                u32::from_be_bytes(bytes_at(body, 6)),
                u32::from_be_bytes(bytes_at(body, 10)),
                u32::from_be_bytes(bytes_at(body, 14)),
            ],
        }
    }

    fn write(&self, body: &mut [u8]) {
        let Resource { kind, numbers } = *self;
        body[..2].copy_from_slice(&kind.to_be_bytes());
        body[2..6].copy_from_slice(&numbers[0].to_be_bytes());
        body[6..10].copy_from_slice(&numbers[1].to_be_bytes());
        body[10..14].copy_from_slice(&numbers[2].to_be_bytes());
        body[14..].copy_from_slice(&numbers[3].to_be_bytes());
    }
}
