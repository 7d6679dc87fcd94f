// Making a plan, and opening a file.
ghost use Rattle.std.specs.Prelude.{◌≡◌, [], IfOk};
ghost use Rattle.description.specs.Descriptions.{nothing};
ghost use Rattle.reader.specs.Answered.{Answers};
ghost use Rattle.plan.specs.Cells.{empty_cells};
ghost use Rattle.plan.specs.Plans.{Means, cells_of, plan_of};

use crate::inner::{Inner, Plan};
use crate::laying::lay_cells;
use description::MOST_CELLS;
use kinds::Kind;
use model::Refusal;
use reader::Description;
use std::alloc::{AllocError, Global};

impl Inner {
    fn new(heap: Global) -> Result<Inner, AllocError>
        ensures { IfOk result (λ p. (plan_of p ≡ nothing) × (cells_of p ≡ [])) }
    {
        let description = Description::new(heap)?;
        let cells = Vec::with_capacity(heap, MOST_CELLS)?;
        Ok(Inner { description, cells })
    }

    // Empties the plan, and reads the file into it.
    fn read<K: Kind>(&mut self, kind: &K, input: &[u8]) -> Result<(), Refusal>
        ensures answer { Answers result (K.Kind.relations kind.now) input.now (plan_of self.new) }
        ensures meaning { Means result (K.Kind.relations kind.now) input.now (plan_of self.new) }
        ensures cells { cells_of self.new ≡ empty_cells (plan_of self.new).activities }
    {
        self.cells.clear();
        let answer = self.description.read(kind, input);
        lay_cells(&mut self.cells, self.description.activities.as_slice());
        answer
    }
}

impl<K: Kind + Drop> Plan<K> {
    // An empty plan. Its memory is obtained here, and never again.
    pub fn new(heap: Global, kind: K) -> Result<Plan<K>, AllocError>
        ensures { IfOk result (λ p. (p.kind ≡ kind) × (plan_of p.inner ≡ nothing) × (cells_of p.inner ≡ [])) }
    {
        let inner = Inner::new(heap)?;
        Ok(Plan { kind, inner })
    }
}

impl<K: Kind> Plan<K> {
    // Empties the plan and fills it from a file; all its cells are empty. Refused, the plan stays empty.
    pub fn open(&mut self, input: &[u8]) -> Result<(), Refusal>
        ensures answer { Answers result (K.Kind.relations self.old.kind) input.now (plan_of self.new.inner) }
        ensures meaning { Means result (K.Kind.relations self.old.kind) input.now (plan_of self.new.inner) }
        ensures cells { cells_of self.new.inner ≡ empty_cells (plan_of self.new.inner).activities }
        ensures kind { self.new.kind ≡ self.old.kind }
    {
        self.inner.read(&self.kind, input)
    }
}
