// Kind 3: a bus.
ghost use Rattle.std.specs.Prelude.{◌≡◌, ◌==◌, ◌/◌, ◌%◌, ◌≤◌, true, refl, slice_index};
ghost use Rattle.buses.specs.Bus.{at_slot, bus_parts};
ghost use Rattle.buses.specs.BusLaws.{Right, bus_lawful};
ghost use Rattle.buses.specs.Slots.{FirstSlot};

use kinds::{Single, SingleStepping};

#[derive(Clone, Copy)]
pub struct Bus;

// The cycle of a right bus: how long it is, how many slots it has, and how long each is.
#[derive(Clone, Copy)]
struct Cycle {
    cycle: u64,
    slots: u64,
    length: u64,
    ghost right: { Right cycle slots length },
}

impl Cycle {
    fn new(numbers: [u32; 4]) -> Self
        requires { bus_parts.right numbers ≡ true }
        ensures cycle { result.cycle ≡ slice_index numbers 0 }
        ensures slots { result.slots ≡ slice_index numbers 1 }
        ensures length { result.length ≡ slice_index numbers 2 }
    {
        let [cycle, slots, length, _] = numbers;
        Cycle {
            cycle: u64::from(cycle),
            slots: u64::from(slots),
            length: u64::from(length),
        }
    }

    // Whether a repeat is a multiple of the cycle.
    fn divides(&self, repeat: u32) -> bool
        ensures { result ≡ (repeat % self.now.cycle == 0) }
    {
        u64::from(repeat).is_multiple_of(self.cycle)
    }

    // Whether a start is at the beginning of a slot of its cycle.
    #[tactic(auto, using(crate::proofs::SlotLaws::slot_test, std::proofs::lemmas::Bool::Decides::nat_tests))]
    fn begins_slot(&self, start: u64) -> bool
        ensures { result ≡ at_slot self.now.cycle self.now.slots self.now.length start }
    {
        let place = start % self.cycle;
        place.is_multiple_of(self.length) && place / self.length < self.slots
    }

    // The slot of its cycle that a start lies in.
    fn slot_of(&self, start: u64) -> u64
        ensures { result ≡ (start % self.now.cycle) / self.now.length }
    {
        start % self.cycle / self.length
    }

    // The first beginning of a slot from a start on: in the same cycle, or that of the first slot of the next one.
    fn first_slot(&self, from: u64) -> u64
        requires { from ≤ 4000000000 }
        ensures { FirstSlot self.now.cycle self.now.slots self.now.length from result }
    {
        let place = from % self.cycle;
        let begin = from - place;
        let slot = place.div_ceil(self.length);
        if slot < self.slots {
            begin + slot * self.length
        } else {
            begin + self.cycle
        }
    }
}

impl Single for Bus {
    ghost parts = { bus_parts };

    ghost NUMBER = { 3 };

    ghost numbered = { refl };

    ghost lawful = { bus_lawful };

    const NUMBER: u16 = 3;

    // Whether cycle, slots, slot length and payload are within their limits, and the slots fit into the cycle.
    fn right(&self, numbers: [u32; 4]) -> bool {
        let [cycle, slots, length, _] = numbers;
        matches!(numbers, [100..=100_000, 1..=1023, (1..), 1..=254])
            && u64::from(slots) * u64::from(length) <= u64::from(cycle)
    }

    fn carries(&self, numbers: [u32; 4], demand: u32) -> bool {
        demand <= numbers[3]
    }

    fn time(&self, numbers: [u32; 4], _demand: u32) -> u32 {
        numbers[2]
    }

    fn grid(&self, numbers: [u32; 4], repeat: u32, start: u64) -> bool {
        let cycle = Cycle::new(numbers);
        cycle.divides(repeat) && cycle.begins_slot(start)
    }

    fn clash(&self, numbers: [u32; 4], start: u64, sender: u8, other: u64, rival: u8) -> bool {
        let cycle = Cycle::new(numbers);
        sender != rival && cycle.slot_of(start) == cycle.slot_of(other)
    }
}

impl SingleStepping for Bus {
    fn first_start(&self, numbers: [u32; 4], repeat: u32, from: u64) -> Option<u64> {
        let cycle = Cycle::new(numbers);
        cycle.divides(repeat).then(|| cycle.first_slot(from))
    }
}
