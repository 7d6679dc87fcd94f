// A pair of entries, from its six figures.
ghost use Rattle.std.specs.Prelude.{◌≡◌};
ghost use Rattle.std.specs.Result.{MatchResult};
ghost use Rattle.arithmetic.specs.Entries.{Made, Refused as EntryRefused};
ghost use Rattle.overlap.specs.Pairs.{Paired, Refused};

use crate::fault::{Limits, Which};
use arithmetic::Entry;

#[derive(Clone, Copy)]
pub struct Pair {
    pub first: Entry,
    pub second: Entry,
}

impl Pair {
    // The first three figures are those of the first entry, the others those of the second.
    pub fn of(figures: [u64; 6]) -> Result<Pair, Limits>
        ensures { MatchResult result (Paired figures) (Refused figures) }
    {
        let [start, repeat, span, other_start, other_repeat, other_span] = figures;
        let first = entry(Which::First, start, repeat, span)?;
        let second = entry(Which::Second, other_start, other_repeat, other_span)?;
        Ok(Pair { first, second })
    }
}

fn entry(which: Which, start: u64, repeat: u64, span: u64) -> Result<Entry, Limits>
    ensures { MatchResult result (Made start repeat span) (λ x. (x.which ≡ which) × EntryRefused start repeat span x.figure) }
{
    Entry::new(start, repeat, span).map_err(|figure| Limits { which, figure })
}
