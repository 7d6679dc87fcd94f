// One part more.
// Kept: four functions: another list grows in each, and of an activity and an edge they ask limits of its own.
ghost use Rattle.std.specs.Prelude.{◌≡◌, ◌+◌, ◌<◌, ◌≤◌, true, [], ◌∷◌, ◌++◌, vec_len};
ghost use Rattle.description.specs.Limits.{activity_right, edge_right};
ghost use Rattle.description.specs.Reader.{with_applications};
ghost use Rattle.reader.specs.Described.{application_of, described};
ghost use Rattle.reader.specs.Grown.{with_activity, with_edge, with_resource};

use crate::application::Application;
use crate::memory::Description;
use description::{Activity, Edge, Resource};

impl Description {
    pub(crate) fn add_resource(&mut self, x: Resource)
        requires { vec_len self.old.resources < 32 }
        ensures { described self.new ≡ with_resource (described self.old) x }
    {
        self.resources.push_reserved(x);
    }

    pub(crate) fn add_application(&mut self, x: Application)
        requires { vec_len self.old.applications < 64 }
        ensures after { described self.new ≡ with_applications (described self.old) ((described self.old).applications ++ application_of x ∷ []) }
        ensures count { vec_len self.new.applications ≡ vec_len self.old.applications + 1 }
    {
        self.applications.push_reserved(x);
    }

    pub(crate) fn add_activity(&mut self, x: Activity)
        requires room { vec_len self.old.activities < 512 }
        requires right { activity_right (described self.old) x ≡ true }
        requires cells { self.old.cells + x.turns ≤ 2048 }
        ensures { described self.new ≡ with_activity (described self.old) x }
    {
        self.activities.push_reserved(x);
        self.cells += usize::from(x.turns);
    }

    pub(crate) fn add_edge(&mut self, x: Edge)
        requires room { vec_len self.old.edges < 1024 }
        requires right { edge_right (described self.old) x ≡ true }
        ensures { described self.new ≡ with_edge (described self.old) x }
    {
        self.edges.push_reserved(x);
    }
}
