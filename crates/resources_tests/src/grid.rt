use kinds::{Kind, Stepping};
use resources::standard_kinds;

const BUS: [u32; 4] = [5000, 20, 200, 32];

// The repeat of a core or a link is all that can be refused.
#[test]
fn repeats(rt: HostRuntime) {
    let kinds = standard_kinds();
    let table = [
        (0, false),
        (1, true),
        (64_000_000, true),
        (64_000_001, false),
    ];
    for (repeat, admitted) in table {
        assert_eq!(rt; kinds.admits(1, [0, 0, 0, 0], 7, repeat, 12_345), admitted);
        assert_eq!(rt; kinds.admits(2, [1, 0, 0, 0], 7, repeat, 12_345), admitted);
        assert!(rt; !kinds.admits(1, [0, 0, 0, 0], 0, repeat, 12_345));
        assert!(rt; !kinds.admits(2, [0, 0, 0, 0], 7, repeat, 12_345));
    }
}

// A demand, a repeat and a start on the bus.
#[test]
fn slots(rt: HostRuntime) {
    let kinds = standard_kinds();
    let table = [
        (32, 5000, 0, true),
        (32, 5000, 1, false),
        (32, 5000, 199, false),
        (32, 5000, 200, true),
        (32, 5000, 3800, true),
        (32, 5000, 4000, false),
        (32, 5000, 4999, false),
        (32, 5000, 5000, true),
        (32, 15_000, 1_003_800, true),
        (33, 5000, 0, false),
        (32, 7500, 0, false),
        (32, 2500, 0, false),
        (32, 0, 0, false),
        (32, 64_000_000, 0, true),
        (32, 64_005_000, 0, false),
    ];
    for (demand, repeat, start, admitted) in table {
        assert_eq!(rt; kinds.admits(3, BUS, demand, repeat, start), admitted);
    }
}

// Two senders exclude each other in one slot of the cycle, however far apart the cycles are.
#[test]
fn bars(rt: HostRuntime) {
    let kinds = standard_kinds();
    let table = [
        (0, 1, 0, 2, true),
        (0, 1, 0, 1, false),
        (0, 1, 200, 2, false),
        (199, 1, 0, 2, true),
        (200, 1, 5399, 2, true),
        (200, 1, 5400, 2, false),
        (3800, 255, 1_003_800, 0, true),
    ];
    for (start, sender, other, rival, barred) in table {
        assert_eq!(rt; kinds.bars(3, BUS, start, sender, other, rival), barred);
        assert_eq!(rt; kinds.bars(3, BUS, other, rival, start, sender), barred);
        assert!(rt; !kinds.bars(1, [0, 0, 0, 0], start, sender, other, rival));
        assert!(rt; !kinds.bars(2, [1, 0, 0, 0], start, sender, other, rival));
        assert!(rt; !kinds.bars(3, [5000, 26, 200, 32], start, sender, other, rival));
    }
}

// A start to look from, and the smallest admitted one on the bus.
#[test]
fn steps(rt: HostRuntime) {
    let kinds = standard_kinds();
    let table = [
        (0, 0),
        (1, 200),
        (200, 200),
        (3799, 3800),
        (3801, 5000),
        (4999, 5000),
        (5001, 5200),
        (3_999_999_999, 4_000_000_000),
    ];
    for (from, start) in table {
        assert_eq!(rt; kinds.step(3, BUS, 32, 5000, from), Some(start));
        assert_eq!(rt; kinds.step(1, [0, 0, 0, 0], 7, 100, from), Some(from));
        assert_eq!(rt; kinds.step(2, [4, 0, 0, 0], 7, 100, from), Some(from));
    }
    assert_eq!(rt;
        kinds.step(1, [0, 0, 0, 0], 7, 100, 4_000_000_000),
        Some(4_000_000_000)
    );
    assert_eq!(rt; kinds.step(1, [0, 0, 0, 0], 7, 100, 4_000_000_001), None);
    assert_eq!(rt; kinds.step(3, BUS, 32, 5000, 4_000_000_001), None);
    assert_eq!(rt; kinds.step(3, BUS, 33, 5000, 0), None);
    assert_eq!(rt; kinds.step(3, BUS, 32, 7500, 0), None);
}
