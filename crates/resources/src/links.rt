// Kind 2: a link.
ghost use Rattle.std.specs.Prelude.{refl};
ghost use Rattle.resources.specs.Link.{link_parts};
ghost use Rattle.resources.specs.LinkLaws.{link_lawful};

use kinds::{Single, SingleStepping};

#[derive(Clone, Copy)]
pub struct Link;

// Kept: core and link answer alike in three points and in the step; a trait between them would be longer than these answers.
impl Single for Link {
    ghost parts = { link_parts };

    ghost NUMBER = { 2 };

    ghost numbered = { refl };

    ghost lawful = { link_lawful };

    const NUMBER: u16 = 2;

    fn right(&self, numbers: [u32; 4]) -> bool {
        matches!(numbers, [1..=4, 0..=10_000, 0, 0])
    }

    fn carries(&self, _numbers: [u32; 4], _demand: u32) -> bool {
        true
    }

    // The time of a demand in bytes, at 10 to the power of the code bits per microsecond.
    #[tactic(auto, using(crate::specs::LinkLaws::rate_positive, std::proofs::lemmas::Bool::Decides::nat_tests))]
    fn time(&self, numbers: [u32; 4], demand: u32) -> u32 {
        let [code, overhead, ..] = numbers;
        (8 * demand).div_ceil(10u32.pow(code)) + overhead
    }

    fn grid(&self, _numbers: [u32; 4], _repeat: u32, _start: u64) -> bool {
        true
    }

    fn clash(&self, _numbers: [u32; 4], _start: u64, _sender: u8, _other: u64, _rival: u8) -> bool {
        false
    }
}

impl SingleStepping for Link {
    fn first_start(&self, _numbers: [u32; 4], _repeat: u32, from: u64) -> Option<u64> {
        Some(from)
    }
}
