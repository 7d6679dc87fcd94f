use kinds::Kind;
use resources::standard_kinds;

#[test]
fn known_numbers(rt: HostRuntime) {
    let kinds = standard_kinds();
    for (kind, known) in [
        (0, false),
        (1, true),
        (2, true),
        (3, true),
        (4, false),
        (101, false),
    ] {
        assert_eq!(rt; kinds.known(kind), known);
    }
}

#[test]
fn cores(rt: HostRuntime) {
    let kinds = standard_kinds();
    let table = [
        ([0, 0, 0, 0], true),
        ([1, 0, 0, 0], false),
        ([0, 1, 0, 0], false),
        ([0, 0, 1, 0], false),
        ([0, 0, 0, 1], false),
    ];
    for (numbers, sound) in table {
        assert_eq!(rt; kinds.sound(1, numbers), sound);
        assert!(rt; !kinds.sound(0, numbers));
        assert!(rt; !kinds.sound(4, numbers));
    }
}

#[test]
fn links(rt: HostRuntime) {
    let kinds = standard_kinds();
    let table = [
        ([0, 0, 0, 0], false),
        ([1, 0, 0, 0], true),
        ([4, 10_000, 0, 0], true),
        ([5, 0, 0, 0], false),
        ([1, 10_001, 0, 0], false),
        ([1, 0, 1, 0], false),
        ([1, 0, 0, 1], false),
    ];
    for (numbers, sound) in table {
        assert_eq!(rt; kinds.sound(2, numbers), sound);
    }
}

#[test]
fn buses(rt: HostRuntime) {
    let kinds = standard_kinds();
    let table = [
        ([5000, 20, 200, 32], true),
        ([99, 1, 1, 1], false),
        ([100, 1, 1, 1], true),
        ([100_000, 1023, 97, 254], true),
        ([100_001, 1023, 97, 254], false),
        ([5000, 0, 200, 32], false),
        ([2000, 1023, 1, 32], true),
        ([2000, 1024, 1, 32], false),
        ([5000, 20, 0, 32], false),
        ([5000, 20, 200, 0], false),
        ([5000, 20, 200, 254], true),
        ([5000, 20, 200, 255], false),
        ([5000, 25, 200, 32], true),
        ([5000, 25, 201, 32], false),
        ([100, 1000, 4_294_968, 1], false),
        ([u32::MAX, u32::MAX, u32::MAX, u32::MAX], false),
    ];
    for (numbers, sound) in table {
        assert_eq!(rt; kinds.sound(3, numbers), sound);
    }
}
