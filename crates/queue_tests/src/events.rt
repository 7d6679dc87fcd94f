// Events by time; at one time an end before a start, then activity and turn.
use crate::records::Event;
use queue::{Ranked, drain, push};
use std::process::Abort;

fn event(time: u64, starts: bool, activity: u16, turn: u8) -> Event {
    Event {
        time,
        starts,
        activity,
        turn,
    }
}

fn push_all(rt: &impl Abort, queue: &mut [Event], events: &[Event]) {
    for (count, event) in events.iter().enumerate() {
        assert!(rt; push(queue, count, *event).is_ok());
    }
}

#[test]
fn events_by_rank(rt: HostRuntime) {
    let sorted = [
        event(0, true, 9, 0),
        event(5, false, 2, 1),
        event(5, false, 2, 2),
        event(5, true, 0, 0),
        event(5, true, 0, 1),
        event(u64::MAX, false, 65_535, 255),
    ];
    let mixed = [
        sorted[3], sorted[5], sorted[0], sorted[2], sorted[1], sorted[4],
    ];
    let mut queue = [sorted[0]; 6];
    let mut out = queue;
    push_all(&rt, &mut queue, &mixed);
    assert!(rt; drain(&mut queue, 6, &mut out).is_ok());
    assert_eq!(rt; out, sorted);
}

#[test]
fn equal_up_to_the_last_key(rt: HostRuntime) {
    let a = event(5, true, 3, 7);
    let b = event(5, true, 3, 8);
    assert!(rt; a.ranks_before(&b));
    assert!(rt; !b.ranks_before(&a));
    assert!(rt; !a.ranks_before(&a));
}
