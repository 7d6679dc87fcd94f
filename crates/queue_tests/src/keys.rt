// Rankings by lists of keys that are not of one length.
use queue::keys_before;

#[test]
fn first_key_that_differs(rt: HostRuntime) {
    let table: [(&[u64], &[u64], bool); 7] = [
        (&[], &[], false),
        (&[], &[0], true),
        (&[0], &[], false),
        (&[1, 2], &[1, 2, 0], true),
        (&[1, 2, 0], &[1, 2], false),
        (&[1, 3], &[1, 2, 9], false),
        (&[0, u64::MAX], &[1], true),
    ];
    for (a, b, before) in table {
        assert_eq!(rt; keys_before(a, b), before);
    }
}
