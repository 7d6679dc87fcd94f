// Field after field.
ghost use Rattle.std.specs.Prelude.{◌≡◌};
ghost use Rattle.description.specs.Reader.{ended, one_field};
ghost use Rattle.reader.specs.Described.{Roomy, last_of, reading_of};
ghost use Rattle.reader.specs.Taken.{Ends, Goes};

use crate::field::Field;
use crate::memory::Description;
use crate::stage::Stage;
use description::FieldKind;
use fields::tag_at;
use kinds::Kind;
use model::Refusal;

impl Stage {
    // The kind of the last field.
    fn last(&self) -> FieldKind
        ensures { result ≡ last_of self.now }
    {
        match *self {
            Stage::Header => FieldKind::Header,
            Stage::Resource => FieldKind::Resource,
            Stage::Application(draft) => draft.last(),
            Stage::Activity => FieldKind::Activity,
            Stage::Edge => FieldKind::Edge,
        }
    }
}

impl Description {
    // Takes the field; answers where the next one begins.
    pub(crate) fn take_field<K: Kind>(
        &mut self,
        stage: &mut Stage,
        field: &Field<'_, K>,
    ) -> Result<usize, Refusal>
        requires { Roomy self.old stage.old }
        ensures { Goes result field.now.at self.new stage.new (one_field (K.Kind.relations field.now.kind.now) field.now.input.now (reading_of self.old stage.old) field.now.at) }
    {
        let Ok(tag) = tag_at(field.input, field.at) else {
            return Err(Refusal::EndsEarly(field.place()));
        };
        // Kept: a match, since each kind of field is taken under another contract; the compiler sees that none is forgotten.
        match stage.last().next(tag) {
            Some(FieldKind::Resource) => self.take_resource(stage, field),
            Some(FieldKind::Application) => self.take_application(stage, field),
            Some(FieldKind::Point) => self.take_point(stage, field),
            Some(FieldKind::Activity) => self.take_activity(stage, field),
            Some(FieldKind::Edge) => self.take_edge(stage, field),
            Some(FieldKind::Header) | None => Err(Refusal::WrongTag(field.place())),
        }
    }

    // The input ends at `at`.
    pub(crate) fn end(&self, stage: &Stage, at: usize) -> Result<(), Refusal>
        ensures { Ends result self.now (ended (reading_of self.now stage.now) at) }
    {
        match *stage {
            Stage::Edge => Ok(()),
            Stage::Activity if self.is_active() => Ok(()),
            Stage::Activity => Err(Refusal::WrongCount(at as u64)),
            _ => Err(Refusal::EndsEarly(at as u64)),
        }
    }
}
