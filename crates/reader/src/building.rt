// A description before anything is read into it.
ghost use Rattle.std.specs.Prelude.{◌≡◌, IfOk};
ghost use Rattle.description.specs.Descriptions.{nothing};
ghost use Rattle.reader.specs.Described.{described};

use crate::memory::Description;
use description::{MOST_ACTIVITIES, MOST_APPLICATIONS, MOST_EDGES, MOST_RESOURCES};
use std::alloc::{AllocError, Global};

impl Description {
    // Nothing yet, with memory for all that a plan may have.
    pub fn new(heap: Global) -> Result<Description, AllocError>
        ensures { IfOk result (λ d. described d ≡ nothing) }
    {
        let resources = Vec::with_capacity(heap, MOST_RESOURCES)?;
        let applications = Vec::with_capacity(heap, MOST_APPLICATIONS)?;
        let activities = Vec::with_capacity(heap, MOST_ACTIVITIES)?;
        let edges = Vec::with_capacity(heap, MOST_EDGES)?;
        Ok(Description {
            label: 0,
            resources,
            applications,
            activities,
            edges,
            cells: 0,
        })
    }

    // Nothing again; the memory stays.
    pub fn clear(&mut self)
        ensures { described self.new ≡ nothing }
    {
        self.edges.clear();
        self.activities.clear();
        self.cells = 0;
        self.applications.clear();
        self.resources.clear();
        self.label = 0;
    }
}
