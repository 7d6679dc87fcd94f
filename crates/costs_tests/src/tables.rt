// Points and cost tables.
use costs::{CostTable, Point, PointFault, Points};
use std::test::Fail;

// A point, and whether it may follow those before it.
#[derive(Clone, Copy)]
struct Case(u32, u32, bool);

const CASES: [Case; 9] = [
    Case(0, 1_000, false),
    Case(1, 999, false),
    Case(1, 1_000, true),
    Case(1, 1_000, false),
    Case(2, 1_000_001, false),
    Case(2, 1_000_000, true),
    Case(2, 1_000, false),
    Case(2_000_001, 1_000, false),
    Case(2_000_000, 1_000, true),
];

#[test]
fn points_rise(rt: HostRuntime) -> Result<(), Fail> {
    let mut points = Points::new();
    for case in &CASES {
        let Case(latency, cost, taken) = *case;
        assert!(rt; points.push(Point { latency, cost }).is_ok() == taken);
    }
    match CostTable::of(points) {
        Some(table) => {
            assert!(rt; table.last_latency() == 2_000_000 && table.points().len() == 3);
            Ok(())
        },
        None => Err(Fail::new("no table")),
    }
}

// One point makes no table, two do, and a twenty-first is not taken.
#[test]
fn two_to_twenty_points(rt: HostRuntime) {
    let mut points = Points::new();
    for latency in 1..21u32 {
        assert!(rt; CostTable::of(points).is_some() == (latency > 2));
        let cost = 1_000;
        assert!(rt; points.push(Point { latency, cost }).is_ok());
    }
    let more = Point {
        latency: 21,
        cost: 1_000,
    };
    assert!(rt; points.push(more) == Err(PointFault::Full) && points.len() == 20);
}
