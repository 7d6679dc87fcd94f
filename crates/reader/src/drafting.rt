// An application while its points are being read.
ghost use Rattle.std.specs.Prelude.{◌≡◌, ◌<◌, true, false, [], length, if◌then◌else◌, Some, None, is_ok, MatchOption};
ghost use Rattle.std.specs.Option.{option_map};
ghost use Rattle.costs.specs.Costs.{may_follow};
ghost use Rattle.costs.specs.Tables.{points_of};
ghost use Rattle.description.specs.Limits.{table_right, timing_right};
ghost use Rattle.description.specs.Reader.{with_point};
ghost use Rattle.reader.specs.Described.{application_of, drafted, last_of};

use crate::application::Application;
use crate::stage::{Draft, Stage};
use costs::{CostTable, Point, PointFault, Points};
use description::FieldKind;

// Whether a period and a latency bound are within their limits.
fn timing_right(period: u32, bound: u32) -> bool
    ensures { result ≡ timing_right period bound }
{
    (100..=1_000_000).contains(&period) && (1..=2 * u64::from(period)).contains(&u64::from(bound))
}

impl Draft {
    // No points yet; none where period or bound is outside its limits.
    pub(crate) fn new(period: u32, bound: u32) -> Option<Draft>
        ensures { MatchOption result (timing_right period bound ≡ false) (λ d. (timing_right period bound ≡ true) × (drafted d ≡ record { period = period; bound = bound; points = [] })) }
    {
        if !timing_right(period, bound) {
            return None;
        }
        Some(Draft {
            period,
            bound,
            points: Points::new(),
        })
    }

    // The application, with its cost table; none where there are fewer than 2 points, or the last is below the bound.
    pub(crate) fn complete(self) -> Option<Application>
        ensures { option_map application_of result ≡ (if table_right (drafted self) then Some (drafted self) else None) }
    {
        let Draft {
            period,
            bound,
            points,
        } = self;
        let costs = CostTable::of(points)?;
        if costs.last_latency() < bound {
            return None;
        }
        Some(Application {
            period,
            bound,
            costs,
        })
    }

    // One point more, if it may follow; there must be room for it.
    pub(crate) fn add(&mut self, point: Point) -> Result<(), PointFault>
        requires { length (points_of self.old.points) < 20 }
        ensures answer { is_ok result ≡ may_follow (points_of self.old.points) point }
        ensures after { is_ok result ≡ true → Some (drafted self.new) ≡ with_point (Some (drafted self.old)) point }
    {
        self.points.push(point)
    }

    // The kind of its last field.
    pub(crate) fn last(&self) -> FieldKind
        ensures { result ≡ last_of (Stage.Application self.now) }
    {
        if self.points.len() == 0 {
            FieldKind::Application
        } else {
            FieldKind::Point
        }
    }
}
