// One field of a plan file.
ghost use Rattle.std.specs.Prelude.{◌≡◌, ◌+◌, ◌<◌, ◌≤◌, true, length, is_ok, MatchResult};
ghost use Rattle.fields.specs.Fields.{reading};
ghost use Rattle.model.specs.declared.refusal.Refusal.TheVariants.{WrongCount};
ghost use Rattle.reader.specs.Taken.{Fetched};

use description::refuse_fault;
use fields::{Record, read_field};
use model::Refusal;

// The field that begins at `at`, in the file of a plan over a kind of resource.
#[derive(Drop)]
pub(crate) struct Field<'a, K> {
    pub(crate) kind: &'a K,
    pub(crate) input: &'a [u8],
    pub(crate) at: usize,
}

impl<K> Field<'_, K> {
    // The byte of its tag, as a refusal names it.
    pub(crate) fn place(&self) -> u64
        ensures { result ≡ self.now.at }
    {
        self.at as u64
    }

    // Its record; a fault is refused with its place.
    pub(crate) fn fetch<R: Record>(&self) -> Result<R, Refusal>
        ensures answer { Fetched result (reading R.TAG R.LEN R.parse self.now.input.now self.now.at) self.now.at }
        ensures inside { is_ok result ≡ true → self.now.at + 3 + R.LEN ≤ length self.now.input.now }
    {
        let place = self.place();
        read_field(self.input, self.at).map_err(|fault| refuse_fault(fault, place))
    }

    // There may be one more of a part of which there are `count`.
    pub(crate) fn allow_one_more(&self, count: usize, most: usize) -> Result<(), Refusal>
        ensures { MatchResult result (λ _. count < most) (λ e. (most ≤ count) × (e ≡ WrongCount self.now.at)) }
    {
        if count < most {
            Ok(())
        } else {
            Err(Refusal::WrongCount(self.place()))
        }
    }
}
