// What is said of a pair of entries.
ghost use Rattle.std.specs.Prelude.{◌≡◌, Some};
ghost use Rattle.arithmetic.specs.Entries.{endless};
ghost use Rattle.arithmetic.specs.Occurrences.{begin};
ghost use Rattle.overlap.specs.Answers.{sentence, Tells};

use arithmetic::{Entry, overlap};
use std::fmt;

// An occurrence: its number, counted from 0, and when it begins.
#[derive(Clone, Copy, PartialEq, Eq, Debug)]
pub struct Occurrence {
    pub number: u64,
    pub begin: u128,
}

// Kept: an `Option` of two occurrences would say the same, but it could not print itself.
#[derive(Clone, Copy, PartialEq, Eq, Debug)]
pub enum Answer {
    Never,
    Overlap(Occurrence, Occurrence),
}

impl Answer {
    // Whether the two ever overlap, with an occurrence of each that does.
    pub fn about(a: &Entry, b: &Entry) -> Answer
        ensures { Tells a.now b.now result }
    {
        match overlap(a, b) {
            None => Answer::Never,
            Some(pair) => Answer::Overlap(
                Occurrence::of(a, pair.first),
                Occurrence::of(b, pair.second),
            ),
        }
    }
}

impl Occurrence {
    fn of(entry: &Entry, number: u64) -> Occurrence
        ensures { (result.number ≡ number) × (result.begin ≡ begin (endless entry.now) number) }
    {
        Occurrence {
            number,
            begin: entry.begin(number),
        }
    }
}

// The line that is printed, without its line feed.
impl fmt::Display for Answer {
    ghost output = { λ x. Some (sentence x) };

    fn fmt<W: fmt::Write>(&self, f: &mut fmt::Formatter<W>) -> fmt::Result {
        match *self {
            Answer::Never => f.write_str("never"),
            Answer::Overlap(
                Occurrence {
                    number: i,
                    begin: s,
                },
                Occurrence {
                    number: j,
                    begin: t,
                },
            ) => write!(f, "occurrence {i} begins at {s}, occurrence {j} at {t}"),
        }
    }
}
