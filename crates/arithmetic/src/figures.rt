// Making an entry, and reading it.
ghost use Rattle.std.specs.Prelude.{◌≡◌, ◌+◌, ◌*◌, MatchResult};
ghost use Rattle.arithmetic.specs.Entries.{Made, Refused, endless};
ghost use Rattle.arithmetic.specs.Occurrences.{begin};

use crate::entry::{Entry, OutOfLimits, REPEAT_MAX, SPAN_MAX, START_MAX};

impl Entry {
    // The entry of these figures, or the first of them that is outside its limits.
    pub fn new(start: u64, repeat: u64, span: u64) -> Result<Entry, OutOfLimits>
        ensures { MatchResult result (Made start repeat span) (Refused start repeat span) }
    {
        if start > START_MAX {
            return Err(OutOfLimits::Start(start));
        }
        if !(1..=REPEAT_MAX).contains(&repeat) {
            return Err(OutOfLimits::Repeat(repeat));
        }
        if !(1..=SPAN_MAX).contains(&span) {
            return Err(OutOfLimits::Span(span));
        }
        Ok(Entry {
            start: start as u32,
            repeat: repeat as u32,
            span: span as u32,
        })
    }

    pub fn start(&self) -> u64
        ensures { result ≡ self.now.start }
    {
        u64::from(self.start)
    }

    pub fn repeat(&self) -> u64
        ensures { result ≡ self.now.repeat }
    {
        u64::from(self.repeat)
    }

    pub fn span(&self) -> u64
        ensures { result ≡ self.now.span }
    {
        u64::from(self.span)
    }

    // When an occurrence begins.
    pub fn begin(&self, occurrence: u64) -> u128
        ensures { result ≡ begin (endless self.now) occurrence }
    {
        u128::from(self.start) + u128::from(occurrence) * u128::from(self.repeat)
    }
}
