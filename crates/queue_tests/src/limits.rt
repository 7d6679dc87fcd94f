// A full slice, an empty queue, and a count beyond the slice are answered, and change nothing.
use crate::records::Ready;
use queue::{NoPlace, NotDrained, clear, drain, pop, push};

fn ready(slack: u64) -> Ready {
    Ready {
        slack,
        activity: 1,
        turn: 2,
    }
}

#[test]
fn full_and_beyond(rt: HostRuntime) {
    let mut queue = [ready(5), ready(6), ready(7)];
    assert_eq!(rt; push(&mut queue, 3, ready(1)), Err(NoPlace));
    assert_eq!(rt; push(&mut queue, 4, ready(1)), Err(NoPlace));
    assert_eq!(rt; push(&mut queue, usize::MAX, ready(1)), Err(NoPlace));
    assert_eq!(rt; queue, [ready(5), ready(6), ready(7)]);
}

#[test]
fn empty_and_beyond(rt: HostRuntime) {
    let mut queue = [ready(5), ready(6), ready(7)];
    assert_eq!(rt; pop(&mut queue, 0), None);
    assert_eq!(rt; pop(&mut queue, 4), None);
    assert_eq!(rt; pop(&mut queue, usize::MAX), None);
    assert_eq!(rt; queue, [ready(5), ready(6), ready(7)]);
}

#[test]
fn places_beyond_stay(rt: HostRuntime) {
    let mut queue = [ready(5), ready(9), ready(9), ready(9)];
    assert_eq!(rt; push(&mut queue, 1, ready(3)), Ok(2));
    assert_eq!(rt; queue[2..], [ready(9), ready(9)][..]);
    assert_eq!(rt; pop(&mut queue, 2), Some(ready(3)));
    assert_eq!(rt; queue[2..], [ready(9), ready(9)][..]);
}

#[test]
fn too_short_to_drain(rt: HostRuntime) {
    let mut queue = [ready(5), ready(6)];
    let mut out = [ready(0)];
    assert_eq!(rt;
        drain(&mut queue, 2, &mut out),
        Err(NotDrained::OutTooShort)
    );
    assert_eq!(rt;
        drain(&mut queue, 3, &mut out),
        Err(NotDrained::CountTooHigh)
    );
    assert_eq!(rt; queue, [ready(5), ready(6)]);
    assert_eq!(rt; out, [ready(0)]);
    assert_eq!(rt; drain(&mut queue, 1, &mut out), Ok(()));
    assert_eq!(rt; out, [ready(5)]);
}

#[test]
fn cleared_places(rt: HostRuntime) {
    let mut queue = [ready(5), ready(6), ready(7)];
    clear(&mut queue, 2, ready(0));
    assert_eq!(rt; queue, [ready(0), ready(0), ready(7)]);
    clear(&mut queue, usize::MAX, ready(1));
    assert_eq!(rt; queue, [ready(1), ready(1), ready(1)]);
}
