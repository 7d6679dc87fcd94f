// Kind 1: a core.
ghost use Rattle.std.specs.Prelude.{refl};
ghost use Rattle.resources.specs.Core.{core_parts};
ghost use Rattle.resources.specs.CoreLaws.{core_lawful};

use kinds::{Single, SingleStepping};

#[derive(Clone, Copy)]
pub struct Core;

// Kept: core and link answer alike in three points and in the step; a trait between them would be longer than these answers.
impl Single for Core {
    ghost parts = { core_parts };

    ghost NUMBER = { 1 };

    ghost numbered = { refl };

    ghost lawful = { core_lawful };

    const NUMBER: u16 = 1;

    fn right(&self, numbers: [u32; 4]) -> bool {
        matches!(numbers, [0, 0, 0, 0])
    }

    fn carries(&self, _numbers: [u32; 4], _demand: u32) -> bool {
        true
    }

    fn time(&self, _numbers: [u32; 4], demand: u32) -> u32 {
        demand
    }

    fn grid(&self, _numbers: [u32; 4], _repeat: u32, _start: u64) -> bool {
        true
    }

    fn clash(&self, _numbers: [u32; 4], _start: u64, _sender: u8, _other: u64, _rival: u8) -> bool {
        false
    }
}

impl SingleStepping for Core {
    fn first_start(&self, _numbers: [u32; 4], _repeat: u32, from: u64) -> Option<u64> {
        Some(from)
    }
}
