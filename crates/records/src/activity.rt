// An activity: what it belongs to, where it runs, who sends it, in how many turns, how much it asks for, and how far its offsets
// may differ.
ghost use Rattle.std.specs.Prelude.{refl};
ghost use Rattle.records.specs.Activities.{activity_bytes, ActivityFits, activity_in};
ghost use Rattle.records.specs.Again.{activity_again};
ghost use Rattle.records.specs.Returned.{activity_back};

use crate::bytes::bytes_at;
use fields::Record;

#[derive(Clone, Copy, PartialEq, Eq, Debug)]
pub struct Activity {
    pub application: u8,
    pub resource: u8,
    pub sender: u8,
    pub turns: u8,
    pub demand: u32,
    pub jitter: u32,
}

impl Record for Activity {
    const TAG: u8 = b'T';

    const LEN: u16 = 12;

    ghost TAG = { 84 };

    ghost LEN = { 12 };

    ghost parse = { activity_in };

    ghost bytes = { activity_bytes };

    ghost fits = { ActivityFits };

    ghost long = { λ x. refl };

    ghost back = { activity_back };

    ghost again = { activity_again };

    fn read(body: &[u8]) -> Activity {
        Activity {
            application: body[0],
            resource: body[1],
            sender: body[2],
            turns: body[3],
            demand: u32::from_be_bytes(bytes_at(body, 4)),
            jitter: u32::from_be_bytes(bytes_at(body, 8)),
        }
    }

    fn write(&self, body: &mut [u8]) {
        let Activity {
            application,
            resource,
            sender,
            turns,
            demand,
            jitter,
        } = *self;
        body[..4].copy_from_slice(&[application, resource, sender, turns]);
        body[4..8].copy_from_slice(&demand.to_be_bytes());
        body[8..].copy_from_slice(&jitter.to_be_bytes());
    }
}
