// What a plan describes, and its table.
ghost use Rattle.std.specs.Prelude.{◌≡◌, length, ◌==◌};
ghost use Rattle.plan.specs.Plans.{cells_of, plan_of};

use crate::inner::Plan;
use model::Cell;
use reader::Description;

// How many parts of each.
#[derive(Clone, Copy, PartialEq, Eq, Debug)]
pub struct Counts {
    pub resources: usize,
    pub applications: usize,
    pub activities: usize,
    pub cells: usize,
    pub edges: usize,
}

impl<K> Plan<K> {
    // Whether no file is open.
    pub fn is_empty(&self) -> bool
        ensures { result ≡ (length (cells_of self.now.inner) == 0) }
    {
        self.inner.cells.is_empty()
    }

    pub fn counts(&self) -> Counts
        ensures resources { result.resources ≡ length (plan_of self.now.inner).resources }
        ensures applications { result.applications ≡ length (plan_of self.now.inner).applications }
        ensures activities { result.activities ≡ length (plan_of self.now.inner).activities }
        ensures cells { result.cells ≡ length (cells_of self.now.inner) }
        ensures edges { result.edges ≡ length (plan_of self.now.inner).edges }
    {
        Counts {
            resources: self.inner.description.resources.len(),
            applications: self.inner.description.application_count(),
            activities: self.inner.description.activities.len(),
            cells: self.inner.cells.len(),
            edges: self.inner.description.edges.len(),
        }
    }

    // What the plan describes.
    pub fn describe(&self) -> &Description
        ensures { result.now ≡ self.now.inner.description }
    {
        &self.inner.description
    }

    // The table: the cells in order of activity and turn.
    pub fn cells(&self) -> &[Cell]
        ensures { result.now ≡ cells_of self.now.inner }
    {
        self.inner.cells.as_slice()
    }
}
