// The line that tells how a plan was opened.
ghost use Rattle.std.specs.Prelude.{◌≡◌, IfOk, string_bytes};
ghost use Rattle.plan.specs.Lines.{opening_line};

use crate::describing::Counts;
use model::{Refusal, accepted_line, refused_line};
use std::alloc::{AllocError, Global};

// `OK` and the numbers of resources, applications, activities, cells and edges, or `NO` and the eight numbers of the refusal.
pub fn opening_line(
    heap: Global,
    answer: Result<(), Refusal>,
    counts: Counts,
) -> Result<String, AllocError>
    ensures { IfOk result (λ t. string_bytes t ≡ opening_line answer counts) }
{
    match answer {
        Ok(()) => accepted_line(
            heap,
            &[
                counts.resources as u64,
                counts.applications as u64,
                counts.activities as u64,
                counts.cells as u64,
                counts.edges as u64,
            ],
        ),
        Err(refusal) => refused_line(heap, refusal),
    }
}
