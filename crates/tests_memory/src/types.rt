//! Numbers of the standard, and lists.

use std::test::Fail;
use vt_types::{Bytes, Dev, Event, Events, Features, Status, Step, limits_are_defined};

/// A device, its number, its queues, the bytes of its configuration, and the block of its first queue.
const DEVICES: [(Dev, u8, u16, u16, u32); 3] = [
    (Dev::Blk, 2, 1, 60, 0x100_0000),
    (Dev::Net, 1, 2, 8, 0x200_0000),
    (Dev::Con, 3, 2, 12, 0x400_0000),
];

#[test]
fn numbers_are_those_of_the_standard(rt: HostRuntime) {
    for (dev, id, queues, config_len, block) in DEVICES {
        assert_eq!(rt;
            (dev.id(), dev.queues(), dev.config_len(), dev.block(0)),
            (id, queues, config_len, block)
        );
    }
    assert_eq!(rt; Dev::Con.block(1), 0x500_0000);
    let status = Status::ACKNOWLEDGE | Status::DRIVER | Status::FEATURES_OK;
    assert_eq!(rt; (status.0, Step::FeatOk.status()), (11, 11));
    assert_eq!(rt; (Status::DEVICE_NEEDS_RESET | Status::FAILED).0, 192);
    for (features, want) in [
        (
            Features::VERSION_1 | Features::EVENT_IDX | Features::CON_EMERG_WRITE,
            0x1_2000_0004,
        ),
        (
            Features::RING_PACKED | Features::INDIRECT_DESC,
            0x4_1000_0000,
        ),
        (
            Features::BLK_SIZE | Features::BLK_FLUSH | Features::BLK_CONFIG_WCE,
            0xa40,
        ),
        (Features::BLK_DISCARD | Features::BLK_WRITE_ZEROES, 0x6000),
        (Features::NET_STATUS | Features::CON_SIZE, 0x1_0001),
    ] {
        assert_eq!(rt; features.0, want);
    }
    assert_eq!(rt; Features::BLK_SEG_MAX, Features::CON_EMERG_WRITE);
    assert_eq!(rt; Features::BLK_RO, Features::NET_MAC);
    Status::bits_are_standard();
    Features::bits_are_standard();
    limits_are_defined();
}

#[test]
fn bytes_and_events_are_kept(rt: HostRuntime) -> Result<(), Fail> {
    let alloc = rt.alloc();
    let mut bytes = Bytes::new(alloc);
    assert!(rt; bytes.is_empty());
    bytes.push(alloc, 7)?;
    bytes.extend(alloc, &[8, 9])?;
    assert_eq!(rt; bytes.len(), 3);
    let again = Bytes::from_vec(bytes.into_vec());
    assert_eq!(rt; again.as_slice(), [7, 8, 9].as_slice());
    let mut events = Events::new(alloc);
    assert_eq!(rt; (events.is_empty(), events.last_gap()), (true, 0));
    events.push(alloc, 3, Event::Link(true))?;
    events.push(alloc, 5, Event::Resize(64))?;
    assert_eq!(rt; (events.len(), events.last_gap()), (2, 5));
    assert_eq!(rt; (events.gap(0), events.gap(1)), (3, 5));
    assert!(rt; matches!(events.event(0), Event::Link(true)));
    assert!(rt; matches!(events.event(1), Event::Resize(64)));
    Ok(())
}
