// What every kind of resource answers. A resource is a kind number and four numbers.
// Kept: a rule of this project: number and numbers pass by value to each function of a kind, as no struct and no enum.
ghost use Rattle.std.specs.Prelude.{◌≡◌};
ghost use Rattle.kinds.specs.Laws.{Laws};
ghost use Rattle.kinds.specs.Relations.{Relations};
ghost use Rattle.kinds.specs.Smallest.{Smallest};

pub trait Kind {
    ghost relations: { Self → Relations };

    // Whether the kind number is this kind's own.
    fn known(&self, kind: u16) -> bool
        ensures { result ≡ (relations self.now).known kind };

    // Whether the number is known, and the four numbers are right.
    fn sound(&self, kind: u16, numbers: [u32; 4]) -> bool
        ensures { result ≡ (relations self.now).sound kind numbers };

    // The time that a demand occupies; none where it is not taken.
    fn span(&self, kind: u16, numbers: [u32; 4], demand: u32) -> Option<u32>
        ensures { result ≡ (relations self.now).span kind numbers demand };

    // Whether a demand with a repeat may begin at a start.
    fn admits(&self, kind: u16, numbers: [u32; 4], demand: u32, repeat: u32, start: u64) -> bool
        ensures { result ≡ (relations self.now).admits kind numbers demand repeat start };

    // Whether two starts, each with its sender, exclude each other.
    fn bars(
        &self,
        kind: u16,
        numbers: [u32; 4],
        start: u64,
        sender: u8,
        other: u64,
        rival: u8,
    ) -> bool
        ensures { result ≡ (relations self.now).bars kind numbers start sender other rival };

    ghost lawful: { (k : Self) → Laws (relations k) };
}

pub trait Stepping: Kind {
    // The smallest admitted start from a given start on; none where there is none, and for a given start above
    // 4,000,000,000.
    fn step(&self, kind: u16, numbers: [u32; 4], demand: u32, repeat: u32, from: u64) -> Option<u64>
        ensures { Smallest ((Self.Kind.relations self.now).admits kind numbers demand repeat) from result };
}
