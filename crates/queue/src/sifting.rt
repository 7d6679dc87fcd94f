// Restoring the heap order after one record has changed.
// Kept: a heap over lent places, since the library's `BinaryHeap` owns its records on an allocator.
// Kept: `while` loops: a path halves or doubles its place, and `successors` would borrow the slice that each step changes.
ghost use Rattle.std.specs.Prelude.{◌≡◌, ◌+◌, ◌*◌, ◌<◌, ◌≤◌, length, slice_index_or};
ghost use Rattle.std.specs.BinaryHeap.Sift.{IsGreaterChild, SiftsUp, SiftsDown};
ghost use Rattle.std.specs.List.Sorted.{IsPermutation};
ghost use Rattle.queue.specs.Heaps.{order};

use crate::ranking::Ranked;

// Whether the record at `i` ranks before the one at `j`.
fn is_before<T: Ranked>(queue: &[T], i: usize, j: usize) -> bool
    requires { (i < length queue.now) × (j < length queue.now) }
    ensures { (d : T) → result ≡ T.Ranked.before (slice_index_or queue.now i d) (slice_index_or queue.now j d) }
{
    queue[i].ranks_before(&queue[j])
}

// Lets the record at `start` rise until none above it ranks after it.
pub(crate) fn sift_up<T: Ranked>(queue: &mut [T], start: usize)
    requires { start < length queue.old }
    ensures shuffled { IsPermutation queue.old queue.new }
    ensures rises { SiftsUp (order T.Ranked.before) queue.old start queue.new }
{
    let mut place = start;
    while 0 < place {
        let parent = (place - 1) / 2;
        if !is_before(queue, place, parent) {
            return;
        }
        queue.swap(parent, place);
        place = parent;
    }
}

// The child of `place` that ranks first.
fn first_child<T: Ranked>(queue: &[T], place: usize) -> usize
    requires { place * 2 + 1 < length queue.now }
    ensures bound { (result < length queue.now) × (place * 2 + 1 ≤ result) × (result ≤ place * 2 + 2) }
    ensures best { IsGreaterChild (order T.Ranked.before) queue.now place result (length queue.now) }
{
    let left = place * 2 + 1;
    let right = left + 1;
    if right < queue.len() && !is_before(queue, left, right) {
        right
    } else {
        left
    }
}

// Lets the first record sink until none below it ranks before it.
pub(crate) fn sift_down<T: Ranked>(queue: &mut [T])
    ensures shuffled { IsPermutation queue.old queue.new }
    ensures sinks { SiftsDown (order T.Ranked.before) queue.old 0 (length queue.old) queue.new }
{
    let n = queue.len();
    let mut place = 0;
    while place < n / 2 {
        let child = first_child(queue, place);
        if !is_before(queue, child, place) {
            return;
        }
        queue.swap(place, child);
        place = child;
    }
}
