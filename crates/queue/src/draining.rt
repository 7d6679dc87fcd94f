// Taking all records out of a queue.
ghost use Rattle.std.specs.Prelude.{MatchResult};
ghost use Rattle.queue.specs.Drained.{Because, Drained, Refused};

use crate::places::take_first;
use crate::ranking::Ranked;

// Why a queue was not drained.
#[derive(Clone, Copy, PartialEq, Eq, Debug)]
pub enum NotDrained {
    // The count is beyond the slice.
    CountTooHigh,
    // The output has fewer places than the queue has records.
    OutTooShort,
}

// Takes all records out of the queue, into the first places of `out` in the order of their rank. On an error nothing is
// changed.
pub fn drain<T: Ranked>(queue: &mut [T], count: usize, out: &mut [T]) -> Result<(), NotDrained>
    ensures { MatchResult result (λ _. Drained T.Ranked.before queue.old count out.old queue.new out.new) (λ e. Because queue.old count out.old e × Refused queue.old count out.old queue.new out.new) }
{
    if queue.len() < count {
        return Err(NotDrained::CountTooHigh);
    }
    if out.len() < count {
        return Err(NotDrained::OutTooShort);
    }
    let taken = &mut out[..count];
    for (done, place) in taken.iter_mut().enumerate() {
        *place = take_first(queue, count - done);
    }
    Ok(())
}
