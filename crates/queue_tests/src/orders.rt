// Records in many orders leave the queue by rank.
use crate::records::Ready;
use queue::{Ranked, drain, pop, push};
use std::process::Abort;
use std::test::Fail;

const NONE: Ready = Ready {
    slack: 0,
    activity: 0,
    turn: 0,
};

// The next of a fixed sequence of numbers without order.
fn next(n: u64) -> u64 {
    n.wrapping_mul(6_364_136_223_846_793_005)
        .wrapping_add(1_442_695_040_888_963_407)
}

// Few different keys, so that many records agree up to the last.
fn record(n: u64) -> Ready {
    Ready {
        slack: n / 4_294_967_296 % 3,
        activity: (n / 65_536 % 3) as u16,
        turn: (n / 16_777_216 % 64) as u8,
    }
}

// Puts `size` records into the queue.
fn push_some(rt: &impl Abort, queue: &mut [Ready], start: u64, size: usize) {
    let mut n = start;
    for count in 0..size {
        n = next(n);
        assert!(rt; push(queue, count, record(n)).is_ok());
    }
}

fn pop_by_rank(rt: &impl Abort, queue: &mut [Ready], size: usize) -> Result<(), Fail> {
    let mut last = NONE;
    for left in (1..=size).rev() {
        let Some(first) = pop(queue, left) else {
            return Err(Fail::new("nothing left"));
        };
        assert!(rt; !first.ranks_before(&last));
        last = first;
    }
    assert!(rt; pop(queue, 0).is_none());
    Ok(())
}

fn pop_any_order(rt: &impl Abort, queue: &mut [Ready]) -> Result<(), Fail> {
    for start in 0..50 {
        for size in 0..65 {
            push_some(rt, queue, start, size);
            pop_by_rank(rt, queue, size)?;
        }
    }
    Ok(())
}

#[test]
fn any_order_is_popped_by_rank(rt: HostRuntime) -> Result<(), Fail> {
    let mut queue = [NONE; 64];
    pop_any_order(&rt, &mut queue)
}

#[test]
fn drained_is_sorted(rt: HostRuntime) {
    let mut queue = [NONE; 64];
    let mut out = [NONE; 64];
    push_some(&rt, &mut queue, 7, 64);
    assert!(rt; drain(&mut queue, 64, &mut out).is_ok());
    assert!(rt; out.is_sorted_by(|a, b| !b.ranks_before(a)));
}
