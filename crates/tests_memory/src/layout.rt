//! The registers of a page.

use vt_layout::queue_block::map_is_defined;
use vt_layout::{CommonRegs, Mmio, RegisterLayout, covering, find, page_address};
use vt_types::Dev;

#[test]
fn registers_by_offset(rt: HostRuntime) {
    for (off, width, number) in [
        (0x000, 4, Some(0)),
        (0x044, 4, Some(11)),
        (0x070, 4, Some(Mmio::STATUS)),
        (0x0fc, 4, Some(Mmio::GENERATION)),
        (0x044, 2, None),
        (0x046, 4, None),
        (0x048, 4, None),
        (0x100, 4, None),
    ] {
        assert_eq!(rt; find::<Mmio>(off, width), number, "{off:x}, {width}");
    }
    for (off, number) in [
        (0x000, Some(0)),
        (0x003, Some(0)),
        (0x018, None),
        (0x072, Some(15)),
        (0x0ff, Some(24)),
        (0x100, None),
    ] {
        assert_eq!(rt; covering::<Mmio>(off), number, "{off:x}");
    }
    map_is_defined();
    assert_eq!(rt; Mmio::COUNT, 25);
    assert_eq!(rt; page_address(Dev::Con), 0x4000_2000);
}
