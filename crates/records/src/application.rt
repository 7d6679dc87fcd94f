// An application: its period and its latency bound.
ghost use Rattle.std.specs.Prelude.{refl};
ghost use Rattle.records.specs.Applications.{application_bytes, ApplicationFits, application_in};
ghost use Rattle.records.specs.Again.{application_again};
ghost use Rattle.records.specs.Returned.{application_back};

use crate::bytes::bytes_at;
use fields::Record;

#[derive(Clone, Copy, PartialEq, Eq, Debug)]
pub struct ApplicationField {
    pub period: u32,
    pub bound: u32,
}

impl Record for ApplicationField {
    const TAG: u8 = b'A';

    const LEN: u16 = 8;

    ghost TAG = { 65 };

    ghost LEN = { 8 };

    ghost parse = { application_in };

    ghost bytes = { application_bytes };

    ghost fits = { ApplicationFits };

    ghost long = { λ x. refl };

    ghost back = { application_back };

    ghost again = { application_again };

    fn read(body: &[u8]) -> ApplicationField {
        ApplicationField {
            period: u32::from_be_bytes(bytes_at(body, 0)),
            bound: u32::from_be_bytes(bytes_at(body, 4)),
        }
    }

    fn write(&self, body: &mut [u8]) {
        let ApplicationField { period, bound } = *self;
        body[..4].copy_from_slice(&period.to_be_bytes());
        body[4..].copy_from_slice(&bound.to_be_bytes());
    }
}
