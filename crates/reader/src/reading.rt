// Reading a plan file.
ghost use Rattle.std.specs.Prelude.{◌≡◌, suc, length};
ghost use Rattle.description.specs.Descriptions.{nothing};
ghost use Rattle.description.specs.Reader.{opened, reads};
ghost use Rattle.reader.specs.Answered.{Answers};
ghost use Rattle.reader.specs.Described.{Roomy, described, reading_of};
ghost use Rattle.reader.specs.Taken.{Ends};

use crate::field::Field;
use crate::memory::Description;
use crate::stage::Stage;
use description::FieldKind;
use kinds::Kind;
use model::Refusal;
use records::Header;

impl Description {
    // The fields from `start` on.
    // Kept: no `Field` in place of the three: moved on, it would differ at exit, and clauses would have to say which.
    fn read_fields<K: Kind>(
        &mut self,
        stage: &mut Stage,
        kind: &K,
        input: &[u8],
        start: usize,
    ) -> Result<(), Refusal>
        requires { Roomy self.old stage.old }
        ensures { Ends result self.new (reads (K.Kind.relations kind.now) input.now (suc (length input.now)) (reading_of self.old stage.old) start) }
    {
        let mut at = start;
        // Kept: where the next field begins is known only once this one is read, so there is no range to go over.
        while at < input.len() {
            at = self.take_field(stage, &Field { kind, input, at })?;
        }
        self.end(stage, at)
    }

    // The header, then the other fields.
    fn read_file<K: Kind>(&mut self, kind: &K, input: &[u8]) -> Result<(), Refusal>
        requires { described self.old ≡ nothing }
        ensures { Ends result self.new (opened (K.Kind.relations kind.now) input.now) }
    {
        let first = Field { kind, input, at: 0 };
        let header = first.fetch::<Header>()?;
        if header.version != 1 {
            return Err(Refusal::OutOfLimits(first.place()));
        }
        self.label = header.label;
        let mut stage = Stage::Header;
        self.read_fields(&mut stage, kind, input, FieldKind::Header.size())
    }

    // Reads a plan file into the memory that is there. Refused, nothing is described.
    pub fn read<K: Kind>(&mut self, kind: &K, input: &[u8]) -> Result<(), Refusal>
        ensures { Answers result (K.Kind.relations kind.now) input.now (described self.new) }
    {
        self.clear();
        let answer = self.read_file(kind, input);
        if answer.is_err() {
            self.clear();
        }
        answer
    }
}
