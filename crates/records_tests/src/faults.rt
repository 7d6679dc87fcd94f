// The header is there, the tag, the length, the body is there: the first fault is told.
use fields::{FieldFault, read_field, tag_at, write_field};
use records::Edge;
use std::process::Abort;

fn fault_of(rt: &impl Abort, input: &[u8], at: usize, fault: FieldFault) {
    assert_eq!(rt; read_field::<Edge>(input, at), Err(fault));
}

#[test]
fn reading_in_order(rt: HostRuntime) {
    fault_of(&rt, &[], 0, FieldFault::Short);
    fault_of(&rt, &[0x45, 0], 0, FieldFault::Short);
    fault_of(&rt, &[0x54, 0, 5], 0, FieldFault::Tag);
    fault_of(&rt, &[0x45, 0, 5], 0, FieldFault::Length);
    fault_of(&rt, &[0x45, 4, 0], 0, FieldFault::Length);
    fault_of(&rt, &[0x45, 0, 4, 0, 1, 0], 0, FieldFault::Short);
    fault_of(&rt, &[0x45, 0, 4, 0, 1, 0, 2], 5, FieldFault::Short);
    fault_of(
        &rt,
        &[0x45, 0, 4, 0, 1, 0, 2],
        usize::MAX,
        FieldFault::Short,
    );
    assert!(rt; read_field::<Edge>(&[0x45, 0, 4, 0, 1, 0, 2], 0).is_ok());
}

#[test]
fn tags(rt: HostRuntime) {
    assert_eq!(rt; tag_at(&[0x45, 0, 4], 0), Ok(0x45));
    assert!(rt; tag_at(&[0x45, 0, 4], 1).is_err());
    assert!(rt; tag_at(&[0x45, 0], 0).is_err());
}

// A field that does not fit leaves the output as it was.
#[test]
fn no_room(rt: HostRuntime) {
    let mut out = [9; 7];
    assert!(rt; write_field(&Edge { from: 1, to: 2 }, &mut out, 1).is_err());
    assert!(rt; write_field(&Edge { from: 1, to: 2 }, &mut out, usize::MAX).is_err());
    assert_eq!(rt; out, [9; 7]);
    assert!(rt; write_field(&Edge { from: 1, to: 2 }, &mut out, 0).is_ok());
}
