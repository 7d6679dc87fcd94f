// When an application is complete.
ghost use Rattle.std.specs.Prelude.{◌≡◌};
ghost use Rattle.description.specs.Reader.{completed, is_edge};
ghost use Rattle.reader.specs.Described.{Roomy, current_of, described, last_of};
ghost use Rattle.reader.specs.Taken.{Completes};

use crate::memory::Description;
use crate::stage::Stage;
use model::Refusal;

impl Stage {
    pub(crate) fn is_edge(&self) -> bool
        ensures { result ≡ is_edge (last_of self.now) }
    {
        matches!(*self, Stage::Edge)
    }
}

impl Description {
    // Adds the application that was being read, if any; refused at `place` where its cost table is not right.
    pub(crate) fn complete(&mut self, stage: Stage, place: u64) -> Result<(), Refusal>
        requires { Roomy self.old stage }
        ensures { Completes result place (last_of stage) self.new (completed (last_of stage) (described self.old) (current_of stage)) }
    {
        if let Stage::Application(draft) = stage {
            let application = draft.complete().ok_or(Refusal::WrongCount(place))?;
            self.add_application(application);
        }
        Ok(())
    }
}
