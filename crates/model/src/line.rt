// The lines that answers are printed as.
ghost use Rattle.std.specs.Prelude.{◌≡◌, ◌++◌, Some, IfOk, string_bytes, codes};
ghost use Rattle.std.specs.List.{flat_map};
ghost use Rattle.model.specs.Lines.{line_of, spaced};
ghost use Rattle.model.specs.Refusals.{numbers_of};

use crate::refusal::Refusal;
use std::alloc::{AllocError, Global};
use std::fmt;

// Numbers in decimal, each after one space.
#[derive(Clone, Copy)]
struct Spaced<'a> {
    numbers: &'a [u64],
}

impl fmt::Display for Spaced<'_> {
    ghost output = { λ x. Some (flat_map spaced x.numbers.now) };

    fn fmt<W: fmt::Write>(&self, f: &mut fmt::Formatter<W>) -> fmt::Result {
        for x in self.numbers {
            write!(f, " {x}")?;
        }
        Ok(())
    }
}

// `NO` and its eight numbers.
impl fmt::Display for Refusal {
    ghost output = { λ x. Some (codes "NO" ++ flat_map spaced (numbers_of x)) };

    fn fmt<W: fmt::Write>(&self, f: &mut fmt::Formatter<W>) -> fmt::Result {
        let numbers = self.numbers();
        let spaced = Spaced { numbers: &numbers };
        write!(f, "NO{spaced}")
    }
}

// `OK`, the figures of an accepted call, and a line feed.
pub fn accepted_line(heap: Global, figures: &[u64]) -> Result<String, AllocError>
    ensures { IfOk result (λ t. string_bytes t ≡ line_of (codes "OK") figures.now) }
{
    let spaced = Spaced { numbers: figures };
    format!(in heap; "OK{spaced}\n")
}

// `NO`, the eight numbers of a refusal, and a line feed.
pub fn refused_line(heap: Global, refusal: Refusal) -> Result<String, AllocError>
    ensures { IfOk result (λ t. string_bytes t ≡ line_of (codes "NO") (numbers_of refusal)) }
{
    format!(in heap; "{refusal}\n")
}
