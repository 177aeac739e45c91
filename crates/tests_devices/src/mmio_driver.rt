//! The accesses of the driver of a console over MMIO.

ghost use Rattle.std.specs.Prelude.{IfOk, ⊤};
ghost use Rattle.vt_types.specs.Operation.{operation};
ghost use Rattle.vt_types.specs.Within.{IsOperationWithin};

use arrayvec::ArrayVec;
use drv_core::BusDriver;
use drv_mmio::MmioDriver;
use std::alloc::Global;
use std::process::Abort;
use std::test::Fail;
use vt_types::{
    Access, Answer, Bytes, Dev, Field, Memory, Op, Port, PostBuf, Reply, Room, Step, Why,
};

const CON: Dev = Dev::Con;

/// A port that answers loads by a script, with 0 at its end. It keeps where each access goes, with the value of a store or
/// the count of a zero, and how many accesses came before the mark.
#[derive(Drop)]
struct Recorder {
    answers: ArrayVec<u64, 8>,
    loads: usize,
    accesses: ArrayVec<(u64, u32), 16>,
    marked: usize,
}

impl Recorder {
    /// The next number of the script.
    fn next(&mut self) -> u64 {
        let word = self.answers.as_slice().get(self.loads).copied();
        self.loads = self.loads.saturating_add(1);
        word.unwrap_or(0)
    }
}

impl Port for Recorder {
    ghost step = { λ p a answer room room2 p2. ⊤ };

    ghost marking = { λ p p2. ⊤ };

    ghost credit = { λ _. 4096 };

    fn access(&mut self, a: &Access<'_>, _: &mut Room) -> Answer {
        let (location, answer) = match *a {
            Access::Load { addr, .. } => ((addr, 0), Answer::Word(self.next())),
            Access::Store { addr, value, .. } => ((addr, value), Answer::Done),
            Access::Zero { addr, count } => ((addr, u32::from(count)), Answer::Done),
            Access::Put { addr, .. } | Access::Get { addr, .. } => ((addr, 0), Answer::Done),
            _ => ((0, 0), Answer::NoSuch),
        };
        let _ = self.accesses.try_push(location);
        answer
    }

    fn mark(&mut self) {
        self.marked = self.accesses.len();
    }
}

/// An operation, the script that answers its loads, its reply, its accesses, and how many came before the mark.
type Row = (Op, &'static [u64], Reply, &'static [(u64, u32)], usize);

/// From the probe to a queue that is set, and what may be asked then.
const ROWS: [Row; 17] = [
    (
        Op::Probe(CON),
        &[0x7472_6976, 2, 3, 0],
        Reply::Id(3),
        &[
            (0x4000_2000, 0),
            (0x4000_2004, 0),
            (0x4000_2008, 0),
            (0x4000_200c, 0),
        ],
        4,
    ),
    (
        Op::Reset(CON),
        &[0],
        Reply::Good,
        &[(0x4000_2070, 0), (0x4000_2070, 0)],
        1,
    ),
    (
        Op::Features(CON),
        &[0x3000_0005, 1],
        Reply::Features(0x1_3000_0005),
        &[
            (0x4000_2014, 0),
            (0x4000_2010, 0),
            (0x4000_2014, 1),
            (0x4000_2010, 0),
        ],
        4,
    ),
    (
        Op::Status(CON, Step::Ack),
        &[1],
        Reply::Status(1),
        &[(0x4000_2070, 1), (0x4000_2070, 0)],
        1,
    ),
    (
        Op::Status(CON, Step::Driver),
        &[3],
        Reply::Status(3),
        &[(0x4000_2070, 3), (0x4000_2070, 0)],
        1,
    ),
    (
        Op::Accept(CON, 0x1_1000_0005),
        &[],
        Reply::Good,
        &[
            (0x4000_2024, 0),
            (0x4000_2020, 0x1000_0005),
            (0x4000_2024, 1),
            (0x4000_2020, 1),
        ],
        4,
    ),
    (
        Op::Status(CON, Step::FeatOk),
        &[11],
        Reply::Status(11),
        &[(0x4000_2070, 11), (0x4000_2070, 0)],
        1,
    ),
    (
        Op::SetQ(CON, 1, 8),
        &[0, 256],
        Reply::Good,
        &[
            (0x500_0000, 40960),
            (0x4000_2030, 1),
            (0x4000_2044, 0),
            (0x4000_2034, 0),
            (0x4000_2038, 8),
            (0x4000_2080, 0x500_0000),
            (0x4000_2084, 0),
            (0x4000_2090, 0x500_4000),
            (0x4000_2094, 0),
            (0x4000_20a0, 0x500_6000),
            (0x4000_20a4, 0),
            (0x4000_2044, 1),
        ],
        12,
    ),
    (Op::Arm(CON, 1), &[], Reply::Good, &[(0x500_4000, 0)], 1),
    (Op::Disarm(CON, 1), &[], Reply::Good, &[(0x500_4000, 0)], 1),
    (Op::Notify(CON, 1), &[], Reply::Refused(Why::State), &[], 0),
    (
        Op::Status(CON, Step::DrvOk),
        &[15],
        Reply::Status(15),
        &[(0x4000_2070, 15), (0x4000_2070, 0)],
        1,
    ),
    (Op::Notify(CON, 1), &[], Reply::Good, &[(0x4000_2050, 1)], 1),
    (
        Op::GetStatus(CON),
        &[15],
        Reply::Status(15),
        &[(0x4000_2070, 0)],
        1,
    ),
    (
        Op::WriteCfg(CON, Field::Emerg, 0x41),
        &[],
        Reply::Good,
        &[(0x4000_2108, 0x41)],
        1,
    ),
    (
        Op::IrqQueues(CON),
        &[3],
        Reply::AnyQueue,
        &[(0x4000_2060, 0), (0x4000_2064, 1)],
        2,
    ),
    (
        Op::IrqConfig(CON),
        &[3],
        Reply::Config(true),
        &[(0x4000_2060, 0), (0x4000_2064, 2)],
        2,
    ),
];

/// Nothing was used.
const UNUSED: Row = (Op::Reap(CON, 1), &[], Reply::Nothing, &[(0x500_6002, 0)], 1);

/// The accesses of a post: its bytes, their descriptor, the ring and its index.
const POST: [(u64, u32); 4] = [
    (0x540_0000, 0),
    (0x500_0000, 0),
    (0x500_4004, 0),
    (0x500_4002, 0),
];

/// Two rounds of the generation, the field and the generation again.
const ROUNDS: [(u64, u32); 6] = [
    (0x4000_20fc, 0),
    (0x4000_2100, 0),
    (0x4000_20fc, 0),
    (0x4000_20fc, 0),
    (0x4000_2100, 0),
    (0x4000_20fc, 0),
];

/// Tries an operation.
fn try_op(rt: &impl Abort, driver: &mut MmioDriver, row: &Row)
    requires { IsOperationWithin (operation row.now.0) }
{
    let (op, script, reply, accesses, marked) = row;
    let mut answers = ArrayVec::new();
    let _ = answers.try_extend_from_slice(script);
    let mut port = Recorder {
        answers,
        loads: 0,
        accesses: ArrayVec::new(),
        marked: 0,
    };
    let mut room = Room::new();
    assert_eq!(rt; driver.op(&mut port, op, 3, &mut room), *reply);
    assert_eq!(rt; port.accesses.as_slice(), *accesses);
    assert_eq!(rt; port.marked, *marked);
}

/// The post of a buffer of two readable bytes.
fn post(alloc: Global) -> Result<Op, Memory>
    ensures { IfOk result (λ op. IsOperationWithin (operation op)) }
{
    let mut readable = Bytes::new(alloc);
    readable.extend(alloc, b"hi")?;
    let mut cuts = ArrayVec::new();
    cuts.push(2);
    let buf = PostBuf {
        tag: 7,
        indirect: false,
        readable,
        cuts,
        nread: 1,
    };
    Ok(Op::Post(CON, 1, buf))
}

/// Reads the number of columns: the generation before and after it, and all again where that changed.
fn read_columns(rt: &impl Abort, driver: &mut MmioDriver, script: &'static [u64], rounds: usize) {
    let columns = Op::ReadCfg(CON, Field::Cols);
    let mut value = ArrayVec::new();
    value.push(81);
    value.push(1);
    assert!(rt; rounds <= 2);
    let accesses = &ROUNDS[..3 * rounds];
    let row = (columns, script, Reply::Value(value), accesses, 3 * rounds);
    try_op(rt, driver, &row);
}

#[test]
fn makes_the_accesses(rt: HostRuntime) -> Result<(), Fail> {
    let alloc = rt.alloc();
    let mut driver = MmioDriver::new(alloc)?;
    for row in &ROWS {
        try_op(&rt, &mut driver, row);
    }
    let good = (post(alloc)?, &[][..], Reply::Good, &POST[..], 4);
    try_op(&rt, &mut driver, &good);
    let tag = Reply::Refused(Why::Tag);
    try_op(&rt, &mut driver, &(post(alloc)?, &[], tag, &[], 0));
    try_op(&rt, &mut driver, &UNUSED);
    let none = Reply::Signals(ArrayVec::new());
    let status = &[(0x4000_2060, 0)];
    let quiet = (Op::IrqQueues(CON), &[2][..], none, &status[..], 1);
    try_op(&rt, &mut driver, &quiet);
    read_columns(&rt, &mut driver, &[1, 337, 1], 1);
    read_columns(&rt, &mut driver, &[1, 80, 2, 2, 337, 2], 2);
    Ok(())
}
