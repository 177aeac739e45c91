//! The status machine.

use dev_status::StatusMachine;
use std::test::Fail;
use vt_types::Features;

#[test]
fn follows_writes(rt: HostRuntime) -> Result<(), Fail> {
    let mut machine = StatusMachine::new(Features(0x1_0000_0021));
    // the low and the high word that the driver accepts, a write, its answer, and the status and the accepted features then
    for (low, high, v, answer, status, accepted) in [
        (0x21, 1, 0, true, 0, 0),
        (0x21, 1, 1, true, 1, 0x1_0000_0021),
        (0x21, 1, 3, true, 3, 0x1_0000_0021),
        (0x21, 1, 11, true, 11, 0x1_0000_0021),
        (0x21, 1, 15, true, 15, 0x1_0000_0021),
        (0, 0, 75, true, 15, 0x1_0000_0021),
        (0, 0, 0, true, 0, 0),
        (0x21, 0, 11, false, 3, 0x21),
        (0x04, 1, 11, false, 3, 0x1_0000_0004),
        (0x21, 3, 12, false, 3, 0x3_0000_0021),
        (0x01, 1, 4, true, 3, 0x1_0000_0001),
        (0x01, 1, 12, true, 15, 0x1_0000_0001),
        (0x01, 1, 128, true, 143, 0x1_0000_0001),
        (0, 0, 0, true, 0, 0),
        (0x01, 1, 8, true, 8, 0x1_0000_0001),
        (0x20, 1, 8, true, 8, 0x1_0000_0001),
    ] {
        machine.accept(0, low);
        machine.accept(1, high);
        machine.accept(2, 7);
        assert_eq!(rt; machine.write(v), answer, "write {v} of {low} {high}");
        assert_eq!(rt; machine.status(), status, "status after {v}");
        assert_eq!(rt; machine.accepted().0, accepted, "after {v}");
    }
    machine.needs_reset();
    assert_eq!(rt; machine.status(), 72);
    machine.reset();
    assert_eq!(rt; (machine.status(), machine.accepted().0), (0, 0));
    for (index, word) in [(0, 0x21), (1, 1), (2, 0)] {
        assert_eq!(rt; machine.offered(index), word);
    }
    Ok(())
}
