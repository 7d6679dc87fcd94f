// Whether two entries ever overlap. Nothing is unrolled and nothing is searched: the greatest common divisor of the
// repeats decides, and the extended algorithm names occurrences that overlap.
ghost use Rattle.std.specs.Prelude.{◌≡◌, ◌+◌, ◌<◌, ◌≤◌, false, IfSome, MatchBool, MatchOption};
ghost use Rattle.arithmetic.specs.Divisors.{gcd};
ghost use Rattle.arithmetic.specs.Entries.{endless, Overlapping, OverlappingItself};
ghost use Rattle.arithmetic.specs.Laws.{apart as apart?, gap as gap_of};
ghost use Rattle.arithmetic.specs.Occurrences.{Never, NeverItself};

use crate::entry::Entry;
use crate::euclid;
use crate::pair::OccurrencePair;
use crate::progressions::{Progression, gap, meeting};

// Occurrences of `a` and `b` that overlap; none exactly when no two of them do, without end in time.
pub fn overlap(a: &Entry, b: &Entry) -> Option<OccurrencePair>
    ensures { MatchOption result (Never (endless a.now) (endless b.now)) (Overlapping (endless a.now) (endless b.now)) }
{
    if apart(a, b) { None } else { Some(meet(a, b)) }
}

// Two different occurrences of `a` that overlap; none exactly when no two do. If any two do, the first two do.
#[tactic(auto, using(crate::proofs::Pairs::itself_says))]
pub fn overlaps_itself(a: &Entry) -> Option<OccurrencePair>
    ensures decides { MatchOption result (NeverItself (endless a.now)) (OverlappingItself (endless a.now)) }
    ensures first_two { IfSome result (λ pair. pair ≡ record { first = 0; second = 1 }) }
{
    let pair = OccurrencePair {
        first: 0,
        second: 1,
    };
    (a.span > a.repeat).then_some(pair)
}

// How two entries lie to each other: the greatest common divisor of their repeats, and the start of the second minus the
// start of the first, modulo the divisor.
#[derive(Clone, Copy)]
struct Shift {
    divisor: u64,
    gap: u64,
}

impl Shift {
    fn between(a: &Entry, b: &Entry) -> Shift
        ensures divisor { result.divisor ≡ gcd a.now.repeat b.now.repeat }
        ensures limit { result.divisor ≤ 64000000 }
        ensures gap { result.gap ≡ gap_of result.divisor a.now.start b.now.start }
        ensures below { result.gap < result.divisor }
    {
        let divisor = euclid::gcd(a.repeat(), b.repeat());
        let gap = gap(divisor, a.start(), b.start());
        Shift { divisor, gap }
    }
}

// Whether no two occurrences overlap: modulo the divisor of the repeats, `b` starts no sooner than `a` ends, and ends
// no later than `a` starts again.
fn apart(a: &Entry, b: &Entry) -> bool
    ensures { MatchBool result (Never (endless a.now) (endless b.now)) (apart? (endless a.now) (endless b.now) ≡ false) }
{
    let shift = Shift::between(a, b);
    a.span() <= shift.gap && b.span() <= shift.divisor - shift.gap
}

// Occurrences that overlap, of two entries that are not apart: one begins while the other lasts.
fn meet(a: &Entry, b: &Entry) -> OccurrencePair
    requires { apart? (endless a.now) (endless b.now) ≡ false }
    ensures { Overlapping (endless a.now) (endless b.now) result }
{
    let shift = Shift::between(a, b);
    if shift.gap < a.span() {
        meeting(beginnings(a, shift.gap), beginnings(b, 0))
    } else {
        meeting(beginnings(a, 0), beginnings(b, shift.divisor - shift.gap))
    }
}

// When the occurrences would begin if the first began so much later.
fn beginnings(entry: &Entry, later: u64) -> Progression
    requires { later ≤ 64000000 }
    ensures { result ≡ record { first = entry.now.start + later; step = entry.now.repeat } }
{
    Progression {
        first: entry.start() + later,
        step: entry.repeat(),
    }
}
