use kinds::Kind;
use resources::standard_kinds;

// A kind number, its four numbers, a demand, and the span, if the demand is taken.
#[test]
fn spans(rt: HostRuntime) {
    let kinds = standard_kinds();
    let table = [
        (1, [0, 0, 0, 0], 0, None),
        (1, [0, 0, 0, 0], 1, Some(1)),
        (1, [0, 0, 0, 0], 1_000_000, Some(1_000_000)),
        (1, [0, 0, 0, 0], 1_000_001, None),
        (1, [0, 0, 0, 1], 1, None),
        (2, [2, 5, 0, 0], 1250, Some(105)),
        (2, [2, 5, 0, 0], 1251, Some(106)),
        (2, [1, 0, 0, 0], 1, Some(1)),
        (2, [1, 10_000, 0, 0], 1_000_000, Some(810_000)),
        (2, [4, 0, 0, 0], 1_000_000, Some(800)),
        (2, [4, 0, 0, 0], 1_000_001, None),
        (2, [4, 0, 0, 0], 0, None),
        (2, [5, 0, 0, 0], 1, None),
        (3, [5000, 20, 200, 32], 1, Some(200)),
        (3, [5000, 20, 200, 32], 32, Some(200)),
        (3, [5000, 20, 200, 32], 33, None),
        (3, [5000, 20, 200, 32], 0, None),
        (3, [5000, 26, 200, 32], 1, None),
        (4, [0, 0, 0, 0], 1, None),
    ];
    for (kind, numbers, demand, span) in table {
        assert_eq!(rt; kinds.span(kind, numbers, demand), span);
    }
}
