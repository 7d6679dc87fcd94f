// One field of each kind: whether there may be one more, its length and body, its limits. Each function answers where the next
// field begins.
// Kept: description and stage are two arguments; a struct would hold a `&mut`, and each function promise that it is the same one.
ghost use Rattle.std.specs.Prelude.{◌≡◌, true, is_some, None};
ghost use Rattle.description.specs.Reader.{read_settled, settled};
ghost use Rattle.reader.specs.Described.{Roomy, current_of, reading_of};
ghost use Rattle.reader.specs.Taken.{Goes};

use crate::field::Field;
use crate::memory::Description;
use crate::stage::{Draft, Stage};
use costs::Point;
use description::{
    Activity, Edge, FieldKind, MOST_ACTIVITIES, MOST_APPLICATIONS, MOST_EDGES, MOST_POINTS,
    MOST_RESOURCES, Resource,
};
use kinds::Kind;
use model::Refusal;
use records::ApplicationField;

impl Description {
    pub(crate) fn take_resource<K: Kind>(
        &mut self,
        stage: &mut Stage,
        field: &Field<'_, K>,
    ) -> Result<usize, Refusal>
        requires { current_of stage.old ≡ None }
        ensures { Goes result field.now.at self.new stage.new (read_settled (K.Kind.relations field.now.kind.now) field.now.input.now FieldKind.Resource field.now.at (settled (reading_of self.old stage.old) FieldKind.Resource)) }
    {
        field.allow_one_more(self.resources.len(), MOST_RESOURCES)?;
        let resource = field.fetch::<Resource>()?;
        if !field.kind.sound(resource.kind, resource.numbers) {
            return Err(Refusal::UnsoundResource(field.place()));
        }
        self.add_resource(resource);
        *stage = Stage::Resource;
        Ok(field.at + FieldKind::Resource.size())
    }

    pub(crate) fn take_application<K: Kind>(
        &mut self,
        stage: &mut Stage,
        field: &Field<'_, K>,
    ) -> Result<usize, Refusal>
        requires { Roomy self.old stage.old }
        ensures { Goes result field.now.at self.new stage.new (read_settled (K.Kind.relations field.now.kind.now) field.now.input.now FieldKind.Application field.now.at (settled (reading_of self.old stage.old) FieldKind.Application)) }
    {
        self.complete(*stage, field.place())?;
        field.allow_one_more(self.applications.len(), MOST_APPLICATIONS)?;
        let ApplicationField { period, bound } = field.fetch()?;
        let draft = Draft::new(period, bound).ok_or(Refusal::OutOfLimits(field.place()))?;
        *stage = Stage::Application(draft);
        Ok(field.at + FieldKind::Application.size())
    }

    pub(crate) fn take_point<K: Kind>(
        &self,
        stage: &mut Stage,
        field: &Field<'_, K>,
    ) -> Result<usize, Refusal>
        requires room { Roomy self.now stage.old }
        requires drafting { is_some (current_of stage.old) ≡ true }
        ensures { Goes result field.now.at self.now stage.new (read_settled (K.Kind.relations field.now.kind.now) field.now.input.now FieldKind.Point field.now.at (settled (reading_of self.now stage.old) FieldKind.Point)) }
    {
        let Stage::Application(mut draft) = *stage else {
            return Err(Refusal::WrongTag(field.place()));
        };
        field.allow_one_more(draft.points.len(), MOST_POINTS)?;
        let point = field.fetch::<Point>()?;
        if draft.add(point).is_err() {
            return Err(Refusal::OutOfLimits(field.place()));
        }
        *stage = Stage::Application(draft);
        Ok(field.at + FieldKind::Point.size())
    }

    pub(crate) fn take_activity<K: Kind>(
        &mut self,
        stage: &mut Stage,
        field: &Field<'_, K>,
    ) -> Result<usize, Refusal>
        requires { Roomy self.old stage.old }
        ensures { Goes result field.now.at self.new stage.new (read_settled (K.Kind.relations field.now.kind.now) field.now.input.now FieldKind.Activity field.now.at (settled (reading_of self.old stage.old) FieldKind.Activity)) }
    {
        self.complete(*stage, field.place())?;
        field.allow_one_more(self.activities.len(), MOST_ACTIVITIES)?;
        let activity = field.fetch::<Activity>()?;
        self.judge_activity(activity, field)?;
        self.add_activity(activity);
        *stage = Stage::Activity;
        Ok(field.at + FieldKind::Activity.size())
    }

    pub(crate) fn take_edge<K: Kind>(
        &mut self,
        stage: &mut Stage,
        field: &Field<'_, K>,
    ) -> Result<usize, Refusal>
        requires { current_of stage.old ≡ None }
        ensures { Goes result field.now.at self.new stage.new (read_settled (K.Kind.relations field.now.kind.now) field.now.input.now FieldKind.Edge field.now.at (settled (reading_of self.old stage.old) FieldKind.Edge)) }
    {
        field.allow_one_more(self.edges.len(), MOST_EDGES)?;
        if !(stage.is_edge() || self.is_active()) {
            return Err(Refusal::WrongCount(field.place()));
        }
        let edge = field.fetch::<Edge>()?;
        if !self.edge_right(edge) {
            return Err(Refusal::WrongEdge(field.place()));
        }
        self.add_edge(edge);
        *stage = Stage::Edge;
        Ok(field.at + FieldKind::Edge.size())
    }
}
