// Small entries, compared with what a plain walk over their first occurrences finds.
use arithmetic::{Entry, overlap, overlaps_itself};
use std::process::Abort;
use std::test::Fail;

// No two of these repeats have a common multiple above 30, and no start is above 3.
const ROUNDS: u64 = 70;

fn meet(a: &Entry, m: u64, b: &Entry, n: u64) -> bool {
    let s = a.begin(m);
    let t = b.begin(n);
    s < t + u128::from(b.span()) && t < s + u128::from(a.span())
}

fn ever(a: &Entry, b: &Entry) -> bool {
    (0..ROUNDS).any(|m| (0..ROUNDS).any(|n| meet(a, m, b, n)))
}

fn against_all(rt: &impl Abort, a: &Entry) -> Result<(), Fail> {
    for start in 0..4 {
        for repeat in 1..7 {
            for span in 1..4 {
                let b = Entry::new(start, repeat, span)?;
                match overlap(a, &b) {
                    None => assert!(rt; !ever(a, &b)),
                    Some(pair) => assert!(rt; meet(a, pair.first, &b, pair.second)),
                }
            }
        }
    }
    Ok(())
}

#[test]
fn small_entries(rt: HostRuntime) -> Result<(), Fail> {
    for start in 0..4 {
        for repeat in 1..7 {
            for span in 1..4 {
                against_all(&rt, &Entry::new(start, repeat, span)?)?;
            }
        }
    }
    Ok(())
}

#[test]
fn small_entries_themselves(rt: HostRuntime) -> Result<(), Fail> {
    for repeat in 1..7 {
        for span in 1..9 {
            let a = Entry::new(3, repeat, span)?;
            match overlaps_itself(&a) {
                None => assert!(rt; !meet(&a, 0, &a, 1)),
                Some(pair) => {
                    assert_ne!(rt; pair.first, pair.second);
                    assert!(rt; meet(&a, pair.first, &a, pair.second));
                }
            }
        }
    }
    Ok(())
}
