// A cell that can be placed now, and an event of a roster: a few lines each make them ranked.
ghost use Rattle.std.specs.Prelude.{◌≡◌};
ghost use Rattle.queue.specs.Keys.{less};
ghost use Rattle.queue_tests.specs.Records.{event_keys, ready_keys};
ghost use Rattle.queue.proofs.Lexical.{ranking_by};
ghost use Rattle.queue_tests.specs.ReadyRankedLemmas.{apart};
ghost use Rattle.queue_tests.specs.EventRankedLemmas;

use queue::Ranked;

// The least slack first, then the lowest activity, then the lowest turn.
#[derive(Clone, Copy, PartialEq, Eq, PartialOrd, Ord, Debug)]
pub struct Ready {
    pub slack: u64,
    pub activity: u16,
    pub turn: u8,
}

impl Ranked for Ready {
    ghost before = { λ a b. less (ready_keys a) (ready_keys b) };

    ghost ranking = { ranking_by ready_keys apart };

    fn ranks_before(&self, other: &Ready) -> bool {
        self < other
    }
}

// Kept: `starts` is a flag; an enum of end and start would rank the same by its derived order, with two names more.
// By time; at one time an end before a start, then the lowest activity, then the lowest turn.
#[derive(Clone, Copy, PartialEq, Eq, PartialOrd, Ord, Debug)]
pub struct Event {
    pub time: u64,
    pub starts: bool,
    pub activity: u16,
    pub turn: u8,
}

impl Ranked for Event {
    ghost before = { λ a b. less (event_keys a) (event_keys b) };

    ghost ranking = { ranking_by event_keys EventRankedLemmas.apart };

    fn ranks_before(&self, other: &Event) -> bool {
        self < other
    }
}
