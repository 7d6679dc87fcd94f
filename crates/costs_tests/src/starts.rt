// Offsets and starts.
use model::{CellId, Offset};

#[test]
fn starts_of_turns(rt: HostRuntime) {
    let cell = CellId {
        activity: 7,
        turn: 63,
    };
    assert!(rt; cell.start(1_000_000, Offset { micros: 2_999_999 }).micros() == 65_999_999);
}
