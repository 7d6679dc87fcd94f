// Two kinds side by side: the first answers for the numbers that it knows, the second for the rest.
ghost use Rattle.std.specs.Prelude.{◌≡◌, MatchBool};
ghost use Rattle.kinds.specs.Beside.{beside};
ghost use Rattle.kinds.specs.Smallest.{Smallest};
ghost use Rattle.kinds.specs.BesideLaws.{beside_laws};

use crate::kind::{Kind, Stepping};

#[derive(Clone, Copy)]
pub struct Beside<A, B> {
    first: A,
    second: B,
}

impl<A: Kind, B: Kind> Beside<A, B> {
    pub fn new(first: A, second: B) -> Self
        ensures { (result.first ≡ first) × (result.second ≡ second) }
    {
        Beside { first, second }
    }

    // Asks the one that answers for the number.
    fn ask<R, F: FnOnce() -> R + Drop, G: FnOnce() -> R + Drop>(
        &self,
        kind: u16,
        first: F,
        second: G,
    ) -> R
        requires first { F.pre first }
        requires second { G.pre second }
        ensures { MatchBool ((A.Kind.relations self.now.first).known kind) (F.post first result) (G.post second result) }
    {
        if self.first.known(kind) {
            first()
        } else {
            second()
        }
    }
}

impl<A: Kind, B: Kind> Kind for Beside<A, B> {
    ghost relations = { λ k. beside (A.Kind.relations k.first) (B.Kind.relations k.second) };

    ghost lawful = { λ k. beside_laws _ _ (A.Kind.lawful k.first) (B.Kind.lawful k.second) };

    fn known(&self, kind: u16) -> bool {
        self.first.known(kind) || self.second.known(kind)
    }

    fn sound(&self, kind: u16, numbers: [u32; 4]) -> bool {
        self.ask(
            kind,
            || self.first.sound(kind, numbers),
            || self.second.sound(kind, numbers),
        )
    }

    fn span(&self, kind: u16, numbers: [u32; 4], demand: u32) -> Option<u32> {
        self.ask(
            kind,
            || self.first.span(kind, numbers, demand),
            || self.second.span(kind, numbers, demand),
        )
    }

    fn admits(&self, kind: u16, numbers: [u32; 4], demand: u32, repeat: u32, start: u64) -> bool {
        self.ask(
            kind,
            || self.first.admits(kind, numbers, demand, repeat, start),
            || self.second.admits(kind, numbers, demand, repeat, start),
        )
    }

    fn bars(
        &self,
        kind: u16,
        numbers: [u32; 4],
        start: u64,
        sender: u8,
        other: u64,
        rival: u8,
    ) -> bool {
        self.ask(
            kind,
            || self.first.bars(kind, numbers, start, sender, other, rival),
            || self.second.bars(kind, numbers, start, sender, other, rival),
        )
    }
}

impl<A: Stepping, B: Stepping> Stepping for Beside<A, B> {
    fn step(
        &self,
        kind: u16,
        numbers: [u32; 4],
        demand: u32,
        repeat: u32,
        from: u64,
    ) -> Option<u64> {
        self.ask(
            kind,
            || self.first.step(kind, numbers, demand, repeat, from),
            || self.second.step(kind, numbers, demand, repeat, from),
        )
    }
}
