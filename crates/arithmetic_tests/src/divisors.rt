use arithmetic::{divide_up, extended_gcd, gcd};
use std::num::NonZeroU64;
use std::test::Fail;

#[test]
fn divisors(rt: HostRuntime) {
    let table = [
        (600, 900, 300),
        (900, 600, 300),
        (7, 0, 7),
        (0, 7, 7),
        (0, 0, 0),
        (1, u64::MAX, 1),
        (64_000_000, 63_999_999, 1),
        (u64::MAX, u64::MAX, u64::MAX),
        (12_200_160_415_121_876_738, 7_540_113_804_746_346_429, 1),
    ];
    for (a, b, g) in table {
        assert_eq!(rt; gcd(a, b), g);
    }
}

// The identity holds in 128 bits, where nothing wraps, also at the largest numbers of 64 bits.
#[test]
fn factors(rt: HostRuntime) {
    let table = [
        (600, 900),
        (900, 600),
        (7, 0),
        (0, 7),
        (0, 0),
        (u64::MAX, u64::MAX - 1),
        (u64::MAX - 1, u64::MAX),
        (12_200_160_415_121_876_738, 7_540_113_804_746_346_429),
    ];
    for (a, b) in table {
        let r = extended_gcd(a, b);
        let first = u128::from(a) * u128::from(r.x);
        let second = u128::from(b) * u128::from(r.y);
        let (more, less) = if r.swapped {
            (second, first)
        } else {
            (first, second)
        };
        assert_eq!(rt; more, less + u128::from(gcd(a, b)));
    }
}

#[test]
fn rounding_up(rt: HostRuntime) -> Result<(), Fail> {
    let table = [
        (0, 1, 0),
        (0, 100, 0),
        (1, 100, 1),
        (100, 100, 1),
        (101, 100, 2),
        (10_000, 100, 100),
        (10_008, 100, 101),
        (u64::MAX, 1, u64::MAX),
        (u64::MAX, 2, 9_223_372_036_854_775_808),
    ];
    for (total, size, parts) in table {
        let Some(size) = NonZeroU64::new(size) else {
            return Err(Fail::new("no part has size 0"));
        };
        assert_eq!(rt; divide_up(total, size), parts);
    }
    Ok(())
}
