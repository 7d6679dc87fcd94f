// Whether every application has an activity.
ghost use Rattle.std.specs.Prelude.{◌≡◌};
ghost use Rattle.description.specs.Limits.{has_activity};
ghost use Rattle.description.specs.Reader.{active};
ghost use Rattle.reader.specs.Described.{described};

use crate::memory::Description;
use description::Activity;

// Whether some activity belongs to the application.
fn has_activity(application: usize, activities: &[Activity]) -> bool
    ensures { result ≡ has_activity application activities.now }
{
    activities.iter().any(|activity| usize::from(activity.application) == application)
}

impl Description {
    pub(crate) fn is_active(&self) -> bool
        ensures { result ≡ active (described self.now) }
    {
        let activities = self.activities.as_slice();
        (0..self.application_count()).all(|application| has_activity(application, activities))
    }
}
