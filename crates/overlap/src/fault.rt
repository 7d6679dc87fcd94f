// What is wrong with a text that should hold a pair of entries.
ghost use Rattle.std.specs.Prelude.{◌≡◌};

use arithmetic::{OutOfLimits, REPEAT_MAX, SPAN_MAX, START_MAX};
use std::fmt;

// Of the two entries of a pair.
#[derive(Clone, Copy, PartialEq, Eq, Debug)]
pub enum Which {
    First,
    Second,
}

// A figure of this entry is outside its limits.
#[derive(Clone, Copy, PartialEq, Eq, Debug)]
pub struct Limits {
    pub which: Which,
    pub figure: OutOfLimits,
}

#[derive(Clone, Copy, PartialEq, Eq, Debug)]
pub enum Fault<'a> {
    // so many words, where six are wanted
    Count(usize),
    // the word at this place, counted from 1, is no number
    Word(usize, &'a str),
    Limits(Limits),
}

impl From<Limits> for Fault<'_> {
    ghost use Rattle.overlap.specs.declared.fault.Fault.TheVariants.{Limits as said};

    ghost from_gives = { λ limits fault. fault ≡ said limits };

    fn from(limits: Limits) -> Self {
        Self::Limits(limits)
    }
}

impl fmt::Display for Which {
    fn fmt<W: fmt::Write>(&self, f: &mut fmt::Formatter<W>) -> fmt::Result {
        match *self {
            Which::First => f.write_str("first"),
            Which::Second => f.write_str("second"),
        }
    }
}

impl fmt::Display for Fault<'_> {
    fn fmt<W: fmt::Write>(&self, f: &mut fmt::Formatter<W>) -> fmt::Result {
        match *self {
            Fault::Count(count) => write!(f, "{count} numbers, where 6 are wanted"),
            Fault::Word(place, word) => write!(
                f,
                "number {place}, '{word}', is not a whole number below 18446744073709551616"
            ),
            Fault::Limits(limits) => limits.fmt(f),
        }
    }
}

impl fmt::Display for Limits {
    fn fmt<W: fmt::Write>(&self, f: &mut fmt::Formatter<W>) -> fmt::Result {
        let which = self.which;
        match self.figure {
            OutOfLimits::Start(n) => write!(
                f,
                "the start of the {which} entry, {n}, is above {START_MAX}"
            ),
            OutOfLimits::Repeat(n) => write!(
                f,
                "the repeat of the {which} entry, {n}, is not within 1 to {REPEAT_MAX}"
            ),
            OutOfLimits::Span(n) => write!(
                f,
                "the span of the {which} entry, {n}, is not within 1 to {SPAN_MAX}"
            ),
        }
    }
}
