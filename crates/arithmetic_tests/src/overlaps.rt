use arithmetic::{Entry, OccurrencePair, overlap, overlaps_itself};
use std::test::Fail;

type Figures = (u64, u64, u64);

fn entry((start, repeat, span): Figures) -> Result<Entry, Fail> {
    Ok(Entry::new(start, repeat, span)?)
}

#[test]
fn never(rt: HostRuntime) -> Result<(), Fail> {
    let table = [
        ((100, 600, 200), (600, 900, 100)),
        ((0, 5000, 2500), (2500, 5000, 2500)),
        ((0, 2, 1), (99_999_999, 64_000_000, 1)),
        (
            (0, 64_000_000, 1_000_000),
            (1_000_000, 64_000_000, 1_000_000),
        ),
    ];
    for (a, b) in table {
        let a = entry(a)?;
        let b = entry(b)?;
        assert_eq!(rt; overlap(&a, &b), None);
        assert_eq!(rt; overlap(&b, &a), None);
    }
    Ok(())
}

#[test]
fn sometime(rt: HostRuntime) -> Result<(), Fail> {
    let table = [
        ((100, 600, 200), (600, 900, 101), 1, 0),
        ((0, 10_007, 1), (8, 10_009, 1), 10_005, 10_003),
        ((50, 1000, 10), (50, 1000, 10), 0, 0),
        ((0, 64_000_000, 1), (1, 63_999_999, 1), 1, 1),
        ((0, 1, 1), (100_000_000, 64_000_000, 1), 100_000_000, 0),
        ((0, 5000, 2501), (2500, 5000, 2500), 0, 0),
    ];
    for (a, b, first, second) in table {
        let pair = overlap(&entry(a)?, &entry(b)?);
        assert_eq!(rt; pair, Some(OccurrencePair { first, second }));
    }
    Ok(())
}

#[test]
fn itself(rt: HostRuntime) -> Result<(), Fail> {
    assert_eq!(rt; overlaps_itself(&entry((0, 100, 100))?), None);
    assert_eq!(rt; overlaps_itself(&entry((0, 64_000_000, 1_000_000))?), None);
    let next = OccurrencePair {
        first: 0,
        second: 1,
    };
    assert_eq!(rt; overlaps_itself(&entry((7, 100, 101))?), Some(next));
    Ok(())
}
