// Putting records into a queue, and taking the first one out. `count` is how many records the queue holds.
// Kept: slice and count are two parameters, since the caller owns both; it is a rule of this project.
ghost use Rattle.std.specs.Prelude.{◌≡◌, ◌+◌, ◌<◌, ◌≤◌, min, ◌++◌, length, drop, replicate, MatchOption, MatchResult};
ghost use Rattle.queue.specs.Heaps.{Popped, Pushed};

use crate::ranking::Ranked;
use crate::sifting::{sift_down, sift_up};

// There is no place for one record more: the slice is full, or the count is beyond it.
#[derive(Clone, Copy, PartialEq, Eq, Debug)]
pub struct NoPlace;

// Adds a record, and answers the new count.
pub fn push<T: Ranked>(queue: &mut [T], count: usize, item: T) -> Result<usize, NoPlace>
    ensures { MatchResult result (λ m. (m ≡ count + 1) × (count < length queue.old) × Pushed T.Ranked.before queue.old count item queue.new) (λ _. (length queue.old ≤ count) × (queue.new ≡ queue.old)) }
{
    if queue.len() <= count {
        return Err(NoPlace);
    }
    insert(queue, count, item);
    Ok(count + 1)
}

fn insert<T: Ranked>(queue: &mut [T], count: usize, item: T)
    requires { count < length queue.old }
    ensures { Pushed T.Ranked.before queue.old count item queue.new }
{
    queue[count] = item;
    sift_up(&mut queue[..=count], count);
}

// Takes out the record that ranks before all others. The count is then one less. None where the queue is empty, or the count is
// beyond the slice.
pub fn pop<T: Ranked>(queue: &mut [T], count: usize) -> Option<T>
    ensures { MatchOption result ((0 < count → length queue.old < count) × (queue.new ≡ queue.old)) (λ x. (0 < count) × (count ≤ length queue.old) × Popped T.Ranked.before queue.old count x queue.new) }
{
    if count == 0 || queue.len() < count {
        return None;
    }
    Some(take_first(queue, count))
}

pub(crate) fn take_first<T: Ranked>(queue: &mut [T], count: usize) -> T
    requires some { 0 < count }
    requires within { count ≤ length queue.old }
    ensures { Popped T.Ranked.before queue.old count result queue.new }
{
    let first = queue[0];
    queue.swap(0, count - 1);
    sift_down(&mut queue[..count - 1]);
    first
}

// Writes `item` into the first `count` places, or into all where there are fewer.
pub fn clear<T: Ranked>(queue: &mut [T], count: usize, item: T)
    ensures { queue.new ≡ replicate (min count (length queue.old)) item ++ drop (min count (length queue.old)) queue.old }
{
    let end = count.min(queue.len());
    fill(&mut queue[..end], item);
}

fn fill<T: Ranked>(places: &mut [T], item: T)
    ensures { places.new ≡ replicate (length places.old) item }
{
    places.fill_with(|| item);
}
