// Whether an activity, or an edge, is within its limits.
ghost use Rattle.std.specs.Prelude.{◌≡◌, ◌+◌, ◌<◌, ◌≤◌, true, length, is_ok, vec_len};
ghost use Rattle.std.specs.Result.{result_err};
ghost use Rattle.description.specs.PlanFields.{an_activity};
ghost use Rattle.description.specs.Reader.{judged};
ghost use Rattle.description.specs.Limits.{activity_right, demand_taken, edge_right};
ghost use Rattle.reader.specs.Described.{described, reading_of};

use crate::field::Field;
use crate::memory::Description;
use crate::stage::Stage;
use description::{Activity, Edge, MOST_CELLS};
use kinds::{Kind, demanded};
use model::Refusal;

impl Description {
    pub fn application_count(&self) -> usize
        ensures { result ≡ length (described self.now).applications }
    {
        self.applications.len()
    }

    // Whether the activity is within its limits, and its application and resource are known.
    pub(crate) fn activity_right(&self, x: Activity) -> bool
        ensures { result ≡ activity_right (described self.now) x }
    {
        let application = usize::from(x.application);
        application < self.applications.len()
            && usize::from(x.resource) < self.resources.len()
            && (1..=64).contains(&x.turns)
            && demanded(x.demand)
            && x.jitter < self.applications[application].period
    }

    // Whether the activity's resource takes its demand.
    pub(crate) fn demand_taken<K: Kind>(&self, kind: &K, x: Activity) -> bool
        requires { x.resource < vec_len self.now.resources }
        ensures { result ≡ demand_taken (K.Kind.relations kind.now) (described self.now) x }
    {
        let resource = self.resources[usize::from(x.resource)];
        kind.span(resource.kind, resource.numbers, x.demand)
            .is_some()
    }

    // Whether there may be such an activity more: its limits, then its demand, then the number of cells.
    pub(crate) fn judge_activity<K: Kind>(
        &self,
        x: Activity,
        field: &Field<'_, K>,
    ) -> Result<(), Refusal>
        ensures answer { result_err result ≡ judged (K.Kind.relations field.now.kind.now) (reading_of self.now Stage.Activity) (an_activity x) field.now.at }
        ensures right { is_ok result ≡ true → activity_right (described self.now) x ≡ true }
        ensures cells { is_ok result ≡ true → self.now.cells + x.turns ≤ 2048 }
    {
        if !self.activity_right(x) {
            return Err(Refusal::OutOfLimits(field.place()));
        }
        if !self.demand_taken(field.kind, x) {
            return Err(Refusal::DemandNotTaken(field.place()));
        }
        if self.cells + usize::from(x.turns) > MOST_CELLS {
            return Err(Refusal::WrongCount(field.place()));
        }
        Ok(())
    }

    // Whether the edge leads from a lower to a higher activity of one application.
    pub(crate) fn edge_right(&self, x: Edge) -> bool
        ensures { result ≡ edge_right (described self.now) x }
    {
        let from = usize::from(x.from);
        let to = usize::from(x.to);
        from < to
            && to < self.activities.len()
            && self.activities[from].application == self.activities[to].application
    }
}
