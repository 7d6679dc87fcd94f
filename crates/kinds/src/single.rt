// A kind with one number of its own is given by six points; what all such kinds share stands here once, for all of them.
ghost use Rattle.std.specs.Prelude.{◌≡◌, ◌≤◌, ℕ, true};
ghost use Rattle.kinds.specs.Parts.{Lawful, Parts, demanded as demanded?, kind as kind_of, repeated as repeated?, takes as takes?};
ghost use Rattle.kinds.specs.PartLaws.{kind_laws};
ghost use Rattle.kinds.specs.Smallest.{Smallest};

use crate::kind::{Kind, Stepping};
use crate::limits::{STEP_MAX, demanded, repeated};

pub trait Single {
    ghost parts: { Parts };

    ghost NUMBER: { ℕ };

    // Its number.
    const NUMBER: u16;

    // Whether the four numbers are right.
    fn right(&self, numbers: [u32; 4]) -> bool
        ensures { result ≡ parts.right numbers };

    // Kept: that numbers are right is a premise of the next four functions; a rule of this project passes them by value.
    // Whether a demand of 1 to 1,000,000 is taken.
    fn carries(&self, numbers: [u32; 4], demand: u32) -> bool
        requires { parts.right numbers ≡ true }
        ensures { result ≡ parts.carries numbers demand };

    // The time that such a demand occupies.
    fn time(&self, numbers: [u32; 4], demand: u32) -> u32
        requires right { parts.right numbers ≡ true }
        requires demanded { demanded? demand ≡ true }
        ensures { result ≡ parts.time numbers demand };

    // Whether a demand with a repeat of 1 to 64,000,000 may begin at a start.
    fn grid(&self, numbers: [u32; 4], repeat: u32, start: u64) -> bool
        requires { parts.right numbers ≡ true }
        ensures { result ≡ parts.grid numbers repeat start };

    // Whether two starts, each with its sender, exclude each other.
    fn clash(&self, numbers: [u32; 4], start: u64, sender: u8, other: u64, rival: u8) -> bool
        requires { parts.right numbers ≡ true }
        ensures { result ≡ parts.clash numbers start sender other rival };

    ghost numbered: { parts.number ≡ NUMBER };

    ghost lawful: { Lawful parts };
}

// Such a kind that can find its starts is a stepping one.
pub trait SingleStepping: Single {
    // The smallest start on the grid from a given one on; none where there is none.
    fn first_start(&self, numbers: [u32; 4], repeat: u32, from: u64) -> Option<u64>
        requires right { Self.parts.right numbers ≡ true }
        requires limit { from ≤ 4000000000 }
        ensures { Smallest (Self.parts.grid numbers repeat) from result };
}

// Whether the resource is sound and takes the demand.
fn takes<S: Single>(single: &S, kind: u16, numbers: [u32; 4], demand: u32) -> bool
    ensures { result ≡ takes? S.parts kind numbers demand }
{
    single.sound(kind, numbers) && demanded(demand) && single.carries(numbers, demand)
}

impl<S: Single> Kind for S {
    ghost relations = { λ _. kind_of S.parts };

    ghost lawful = { λ _. kind_laws S.parts S.lawful };

    fn known(&self, kind: u16) -> bool {
        kind == S::NUMBER
    }

    fn sound(&self, kind: u16, numbers: [u32; 4]) -> bool {
        self.known(kind) && self.right(numbers)
    }

    fn span(&self, kind: u16, numbers: [u32; 4], demand: u32) -> Option<u32> {
        takes(self, kind, numbers, demand).then(|| self.time(numbers, demand))
    }

    fn admits(&self, kind: u16, numbers: [u32; 4], demand: u32, repeat: u32, start: u64) -> bool {
        takes(self, kind, numbers, demand) && repeated(repeat) && self.grid(numbers, repeat, start)
    }

    fn bars(
        &self,
        kind: u16,
        numbers: [u32; 4],
        start: u64,
        sender: u8,
        other: u64,
        rival: u8,
    ) -> bool {
        self.sound(kind, numbers) && self.clash(numbers, start, sender, other, rival)
    }
}

impl<S: SingleStepping> Stepping for S {
    fn step(
        &self,
        kind: u16,
        numbers: [u32; 4],
        demand: u32,
        repeat: u32,
        from: u64,
    ) -> Option<u64> {
        if from <= STEP_MAX && takes(self, kind, numbers, demand) && repeated(repeat) {
            self.first_start(numbers, repeat, from)
        } else {
            None
        }
    }
}
