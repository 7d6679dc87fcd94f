// A point of a cost table.
ghost use Rattle.std.specs.Prelude.{◌≡◌, refl};
ghost use Rattle.records.specs.Points.{point_bytes, PointFits, point_in, point_right};
ghost use Rattle.records.specs.Again.{point_again};
ghost use Rattle.records.specs.Returned.{point_back};

use crate::bytes::bytes_at;
use fields::Record;

#[derive(Clone, Copy, PartialEq, Eq, Debug)]
pub struct Point {
    pub latency: u32,
    pub cost: u32,
}

impl Point {
    // Whether latency and cost are within their limits.
    pub fn is_right(self) -> bool
        ensures { result ≡ point_right self }
    {
        (1..=2_000_000).contains(&self.latency) && (1_000..=1_000_000).contains(&self.cost)
    }
}

impl Record for Point {
    const TAG: u8 = b'P';

    const LEN: u16 = 8;

    ghost TAG = { 80 };

    ghost LEN = { 8 };

    ghost parse = { point_in };

    ghost bytes = { point_bytes };

    ghost fits = { PointFits };

    ghost long = { λ x. refl };

    ghost back = { point_back };

    ghost again = { point_again };

    fn read(body: &[u8]) -> Point {
        Point {
            latency: u32::from_be_bytes(bytes_at(body, 0)),
            cost: u32::from_be_bytes(bytes_at(body, 4)),
        }
    }

    fn write(&self, body: &mut [u8]) {
        let Point { latency, cost } = *self;
        body[..4].copy_from_slice(&latency.to_be_bytes());
        body[4..].copy_from_slice(&cost.to_be_bytes());
    }
}
