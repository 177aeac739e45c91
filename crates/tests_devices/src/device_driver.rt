//! Which operations on the console its driver refuses, as it comes up.

use arrayvec::ArrayVec;
use drv_core::Driver;
use std::alloc::Global;
use std::process::Abort;
use std::test::Fail;
use vq_common::RingCfg;
use vt_types::{Bytes, Dev, Features, Field, Op, PostBuf, Step, Why};

const CON: Dev = Dev::Con;

/// Tries operations on the console: why each is refused.
fn try_all(rt: &impl Abort, driver: &Driver, rows: &[(Op, Option<Why>)]) {
    for (n, row) in rows.iter().enumerate() {
        assert_eq!(rt; driver.device(CON).refusal(&row.0), row.1, "row {n}");
    }
}

/// The post of a buffer of writable pieces to the first queue.
fn post(alloc: Global, indirect: bool, lengths: &[u16]) -> Op {
    let mut cuts = ArrayVec::new();
    let _fits = cuts.try_extend_from_slice(lengths);
    let buf = PostBuf {
        tag: 7,
        indirect,
        readable: Bytes::new(alloc),
        cuts,
        nread: 0,
    };
    Op::Post(CON, 0, buf)
}

/// The ring of the first queue, of two descriptors.
const RING: RingCfg = RingCfg {
    desc: 0x400_0000,
    driver: 0x400_4000,
    device: 0x400_6000,
    size: 2,
    indirect: false,
    event_idx: false,
};

/// Before the probe.
const UNKNOWN: [(Op, Option<Why>); 3] = [
    (Op::Probe(CON), None),
    (Op::Reset(CON), Some(Why::State)),
    (Op::Features(CON), Some(Why::State)),
];

/// Before the reset.
const PROBED: [(Op, Option<Why>); 4] = [
    (Op::Probe(CON), Some(Why::State)),
    (Op::Reset(CON), None),
    (Op::GetStatus(CON), Some(Why::State)),
    (Op::WriteCfg(CON, Field::Emerg, 256), Some(Why::State)),
];

/// After the reset.
const RESET: [(Op, Option<Why>); 12] = [
    (Op::GetStatus(CON), None),
    (Op::Status(CON, Step::Ack), None),
    (Op::Status(CON, Step::Driver), Some(Why::State)),
    (Op::Accept(CON, 0), Some(Why::State)),
    (Op::ReadCfg(CON, Field::Mac), None),
    (Op::WriteCfg(CON, Field::Emerg, 255), None),
    (Op::WriteCfg(CON, Field::Emerg, 256), Some(Why::Range)),
    (Op::WriteCfg(CON, Field::Cols, 1), Some(Why::Range)),
    (Op::WriteCfg(CON, Field::Cols, 0), Some(Why::Mode)),
    (Op::WriteCfg(CON, Field::Writeback, 1), Some(Why::Mode)),
    (Op::IrqQueues(CON), None),
    (Op::IrqConfig(CON), None),
];

/// Before the features are agreed on.
const DRIVEN: [(Op, Option<Why>); 3] = [
    (Op::Accept(CON, 0), None),
    (Op::Status(CON, Step::FeatOk), None),
    (Op::SetQ(CON, 0, 8), Some(Why::State)),
];

/// Before a queue is set.
const AGREED: [(Op, Option<Why>); 7] = [
    (Op::SetQ(CON, 2, 3), Some(Why::Queue)),
    (Op::SetQ(CON, 1, 3), Some(Why::Size)),
    (Op::SetQ(CON, 1, 512), Some(Why::Size)),
    (Op::SetQ(CON, 1, 256), None),
    (Op::Notify(CON, 0), Some(Why::State)),
    (Op::Reap(CON, 2), Some(Why::Queue)),
    (Op::Arm(CON, 0), Some(Why::Unset)),
];

#[test]
fn refusals_before_the_queues(rt: HostRuntime) -> Result<(), Fail> {
    let mut driver = Driver::new(rt.alloc())?;
    try_all(&rt, &driver, &UNKNOWN);
    driver.set_probed(CON);
    try_all(&rt, &driver, &PROBED);
    driver.reset(CON, 0);
    try_all(&rt, &driver, &RESET);
    driver.set_status(CON, 3);
    try_all(&rt, &driver, &DRIVEN);
    Ok(())
}

#[test]
fn refusals_of_queues(rt: HostRuntime) -> Result<(), Fail> {
    let alloc = rt.alloc();
    let mut driver = Driver::new(alloc)?;
    driver.reset(CON, 11);
    try_all(&rt, &driver, &AGREED);
    try_all(
        &rt,
        &driver,
        &[(post(alloc, false, &[1]), Some(Why::Unset))],
    );
    driver.set_queue(CON, 0, &RING, 0x400_0000);
    let rows = [
        (Op::SetQ(CON, 0, 3), Some(Why::Size)),
        (Op::SetQ(CON, 0, 8), Some(Why::Set)),
        (post(alloc, false, &[1, 1]), None),
        (post(alloc, false, &[1, 1, 1]), Some(Why::Full)),
        (post(alloc, false, &[4096, 4097]), Some(Why::Range)),
        (post(alloc, true, &[1, 1, 1]), Some(Why::Range)),
        (post(alloc, true, &[1]), Some(Why::Mode)),
        (Op::Disarm(CON, 0), None),
    ];
    try_all(&rt, &driver, &rows);
    driver.set_accepted(CON, Features::INDIRECT_DESC | Features::EVENT_IDX);
    driver.set_status(CON, 15);
    let rows = [
        (post(alloc, true, &[1]), None),
        (Op::Notify(CON, 0), None),
        (Op::Notify(CON, 1), Some(Why::Unset)),
        (Op::Reap(CON, 0), None),
        (Op::Arm(CON, 0), Some(Why::Mode)),
        (Op::SetQ(CON, 1, 8), Some(Why::State)),
    ];
    try_all(&rt, &driver, &rows);
    Ok(())
}
