use arithmetic::{Entry, OutOfLimits};
use std::test::Fail;

#[test]
fn within_limits(rt: HostRuntime) -> Result<(), Fail> {
    let table = [(0, 1, 1), (100_000_000, 64_000_000, 1_000_000), (5, 7, 11)];
    for (start, repeat, span) in table {
        let e = Entry::new(start, repeat, span)?;
        assert_eq!(rt; e.start(), start);
        assert_eq!(rt; e.repeat(), repeat);
        assert_eq!(rt; e.span(), span);
    }
    Ok(())
}

// The first figure outside its limits is named.
#[test]
fn outside_limits(rt: HostRuntime) {
    let table = [
        (100_000_001, 1, 1, OutOfLimits::Start(100_000_001)),
        (u64::MAX, 0, 0, OutOfLimits::Start(u64::MAX)),
        (0, 0, 1, OutOfLimits::Repeat(0)),
        (0, 64_000_001, 0, OutOfLimits::Repeat(64_000_001)),
        (0, 4_294_967_297, 1, OutOfLimits::Repeat(4_294_967_297)),
        (0, 1, 0, OutOfLimits::Span(0)),
        (0, 1, 1_000_001, OutOfLimits::Span(1_000_001)),
    ];
    for (start, repeat, span, fault) in table {
        assert_eq!(rt; Entry::new(start, repeat, span).err(), Some(fault));
    }
}

#[test]
fn beginnings(rt: HostRuntime) -> Result<(), Fail> {
    let e = Entry::new(100, 600, 200)?;
    assert_eq!(rt; e.begin(0), 100);
    assert_eq!(rt; e.begin(1), 700);
    assert_eq!(rt; e.begin(u64::MAX), 11_068_046_444_225_730_969_100);
    Ok(())
}
