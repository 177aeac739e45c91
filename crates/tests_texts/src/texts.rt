//! Worked rows of the texts.

ghost use Rattle.std.specs.Prelude.{◌≤◌, length, IsTrue};
ghost use Rattle.vt_types.specs.Access.{IsWithinLimits, access_value, is_width};
ghost use Rattle.report_text.specs.Event.{event_bytes};

use arrayvec::ArrayVec;
use report_text::{
    LINE_SPARE, Text, access_line_is_short, event_line_is_short, limits_are_defined,
};
use std::alloc::Global;
use std::test::Fail;
use vt_types::{
    Access, Answer, Bytes, Dev, Event, LONGEST_BUFFER, LONGEST_FRAME, Memory, Place, Reply, Room,
    Turn, Why,
};

fn room_of(bytes: &[u8]) -> Room {
    let mut room = Room::new();
    let _fits = room.try_extend_from_slice(bytes);
    room
}

fn field(bytes: &[u8]) -> Reply {
    let mut value = ArrayVec::new();
    let _fits = value.try_extend_from_slice(bytes);
    Reply::Value(value)
}

fn signals(queues: &[u16]) -> Reply {
    let mut all = ArrayVec::new();
    let _fits = all.try_extend_from_slice(queues);
    Reply::Signals(all)
}

/// The place that each line of a reply ends with.
const PLACE: Place = Place { p: 2, n: 31 };

/// The reasons of a refusal, and their words.
const REASONS: [(Why, &str); 9] = [
    (Why::State, "state"),
    (Why::Queue, "queue"),
    (Why::Size, "size"),
    (Why::Set, "set"),
    (Why::Unset, "unset"),
    (Why::Tag, "tag"),
    (Why::Full, "full"),
    (Why::Range, "range"),
    (Why::Mode, "mode"),
];

#[test]
fn replies_have_their_lines(rt: HostRuntime) -> Result<(), Fail> {
    let alloc = rt.alloc();
    let room = room_of(&[0, 0x0f, 0xa5]);
    for (reply, want) in [
        (Reply::Good, "ok"),
        (Reply::Id(3), "id 3"),
        (Reply::Features(0x1_0000_00ab), "features 00000001000000ab"),
        (Reply::Status(15), "status 0f"),
        (field(&[0xab, 1]), "value ab01"),
        (field(&[]), "value -"),
        (Reply::Nothing, "none"),
        (Reply::Used { tag: 9, len: 3 }, "used 9 3 000fa5"),
        (signals(&[0, 12]), "irq 0 12"),
        (signals(&[]), "irq none"),
        (Reply::AnyQueue, "irq some"),
        (Reply::Config(true), "irq config"),
        (Reply::Config(false), "irq none"),
    ] {
        let mut text = Text::new(alloc)?;
        text.reply(7, &reply, &room, PLACE);
        let want = format!(in alloc; "7 {want} p=2 n=31\n")?;
        assert_eq!(rt; text.bytes(), want.as_bytes());
    }
    for (why, want) in REASONS {
        let mut text = Text::new(alloc)?;
        text.reply(7, &Reply::Refused(why), &room, PLACE);
        let want = format!(in alloc; "7 refused {want} p=2 n=31\n")?;
        assert_eq!(rt; text.bytes(), want.as_bytes());
    }
    Ok(())
}

/// Whether an access can have a width.
fn is_width(width: u8) -> bool
    ensures { IsTrue result → IsTrue (is_width width) }
{
    width == 1 || width == 2 || width == 4
}

/// Whether a line of a raw script can ask for an access.
fn is_within_limits(a: &Access<'_>) -> bool
    ensures { IsTrue result → IsWithinLimits (access_value a.now) }
{
    match *a {
        Access::Load { width, .. } | Access::Store { width, .. } => is_width(width),
        Access::CfgLoad { off, width, .. } | Access::CfgStore { off, width, .. } => {
            off <= 0xfff && is_width(width)
        }
        Access::Put { bytes, .. } => !bytes.is_empty() && bytes.len() <= LONGEST_BUFFER,
        Access::Get { count, .. } => 1 <= count && count as usize <= LONGEST_BUFFER,
        Access::Zero { count, .. } => 1 <= count,
        Access::Swap { .. }
        | Access::Ssch { .. }
        | Access::Tsch { .. }
        | Access::Stsch { .. }
        | Access::Msch { .. }
        | Access::Csch { .. }
        | Access::Turn { .. }
        | Access::Diag { .. } => true,
    }
}

const PUT: Access<'static> = Access::Put {
    addr: 0x1004,
    bytes: &[0, 0x80, 0xff],
};

const GET: Access<'static> = Access::Get {
    addr: 0xfff_ffff,
    count: 2,
};

const ZERO: Access<'static> = Access::Zero {
    addr: 0x20_0000,
    count: 65_535,
};

const SWAP: Access<'static> = Access::Swap {
    addr: 0x1000,
    value: 0x0102_0304_0506_0708,
};

const TURN: Access<'static> = Access::Turn { id: 0x1_0000 };

const LOAD: Access<'static> = Access::Load {
    addr: 0x4000_2000,
    width: 2,
};

/// Accesses, their answers, and their lines in a trace; two bytes are in the room.
const ACCESSES: [(Access<'static>, Answer, &str); 26] = [
    (
        Access::Load {
            addr: 0x4000_2000,
            width: 4,
        },
        Answer::Word(0x7472_6976),
        "load 40002000 4 = 74726976",
    ),
    (
        Access::Load {
            addr: 0x4000_2102,
            width: 1,
        },
        Answer::Word(0x5019),
        "load 40002102 1 = 19",
    ),
    (
        Access::Load {
            addr: 0x1_2345_6789,
            width: 2,
        },
        Answer::Word(7),
        "load 123456789 2 = 0007",
    ),
    (
        Access::Load {
            addr: 0xffff_ffff,
            width: 4,
        },
        Answer::NoSuch,
        "load ffffffff 4 = none",
    ),
    (
        Access::Store {
            addr: 0x4000_2070,
            width: 4,
            value: 0,
        },
        Answer::Done,
        "store 40002070 4 00000000 = ok",
    ),
    (
        Access::Store {
            addr: u64::MAX,
            width: 1,
            value: 0x1234,
        },
        Answer::Done,
        "store ffffffffffffffff 1 34 = ok",
    ),
    (
        Access::Store {
            addr: 0,
            width: 2,
            value: 0xa_bcde,
        },
        Answer::NoSuch,
        "store 00000000 2 bcde = none",
    ),
    (PUT, Answer::Done, "put 00001004 0080ff = ok"),
    (PUT, Answer::Outside, "put 00001004 0080ff = outside"),
    (GET, Answer::Got, "get 0fffffff 2 = bytes 0080"),
    (GET, Answer::Outside, "get 0fffffff 2 = outside"),
    (ZERO, Answer::Done, "zero 00200000 65535 = ok"),
    (ZERO, Answer::Outside, "zero 00200000 65535 = outside"),
    (
        SWAP,
        Answer::Word(9),
        "swap 00001000 0102030405060708 = 0000000000000009",
    ),
    (
        SWAP,
        Answer::Outside,
        "swap 00001000 0102030405060708 = outside",
    ),
    (
        Access::CfgLoad {
            func: 2,
            off: 0,
            width: 4,
        },
        Answer::Word(0x1042_1af4),
        "cfgload 2 00 4 = 10421af4",
    ),
    (
        Access::CfgLoad {
            func: 2,
            off: 0xfff,
            width: 1,
        },
        Answer::Word(0x1ff),
        "cfgload 2 fff 1 = ff",
    ),
    (
        Access::CfgLoad {
            func: 2,
            off: 0x34,
            width: 2,
        },
        Answer::NoSuch,
        "cfgload 2 34 2 = none",
    ),
    (
        Access::CfgStore {
            func: 255,
            off: 4,
            width: 2,
            value: 0xabcd_0006,
        },
        Answer::Done,
        "cfgstore 255 04 2 0006 = ok",
    ),
    (
        Access::Ssch {
            id: 0x1_0000,
            addr: 0x4000,
        },
        Answer::Code(0),
        "ssch 00010000 00004000 = cc 0",
    ),
    (
        Access::Tsch {
            id: 0x1_0000,
            addr: 0x4000,
        },
        Answer::Code(1),
        "tsch 00010000 00004000 = cc 1",
    ),
    (
        Access::Stsch {
            id: 0x1_0000,
            addr: 0x4000,
        },
        Answer::Outside,
        "stsch 00010000 00004000 = outside",
    ),
    (
        Access::Msch {
            id: u32::MAX,
            addr: 0x1_0000_0000,
        },
        Answer::Code(3),
        "msch ffffffff 100000000 = cc 3",
    ),
    (
        Access::Csch { id: 0x1_0000 },
        Answer::Code(2),
        "csch 00010000 = cc 2",
    ),
    (TURN, Answer::Turned(Turn::Going), "turn 00010000 = data"),
    (
        Access::Diag {
            func: 3,
            id: 0x1_0005,
            value: 0xf,
            cookie: u64::MAX,
        },
        Answer::Word(u64::MAX),
        "diag 0000000000000003 00010005 000000000000000f ffffffffffffffff = ffffffffffffffff",
    ),
];

/// Accesses, their answers, the bytes in the room, and the answers' words in the report of a raw script.
const RAW_ANSWERS: [(Access<'static>, Answer, &[u8], &str); 14] = [
    (LOAD, Answer::Word(0xabcd), &[], "abcd"),
    (LOAD, Answer::NoSuch, &[7], "none"),
    (LOAD, Answer::Done, &[7], "ok"),
    (LOAD, Answer::Outside, &[7], "outside"),
    (LOAD, Answer::Code(255), &[7], "cc 255"),
    (LOAD, Answer::Got, &[7, 0xa0], "bytes 07a0"),
    (LOAD, Answer::Got, &[], "bytes -"),
    (TURN, Answer::Word(1), &[], "0000000000000001"),
    (TURN, Answer::Turned(Turn::Idle), &[], "idle"),
    (TURN, Answer::Turned(Turn::Going), &[], "data"),
    (TURN, Answer::Turned(Turn::Ended), &[], "ended"),
    (
        TURN,
        Answer::Turned(Turn::ProgramCheck),
        &[],
        "program-check",
    ),
    (
        TURN,
        Answer::Turned(Turn::IncorrectLength),
        &[],
        "incorrect-length",
    ),
    (TURN, Answer::Turned(Turn::UnitCheck), &[], "unit-check"),
];

#[test]
fn accesses_have_their_lines(rt: HostRuntime) -> Result<(), Fail> {
    let alloc = rt.alloc();
    for (a, answer, want) in ACCESSES {
        assert!(rt; is_within_limits(&a));
        let mut text = Text::new(alloc)?;
        text.access(&a, &answer, &room_of(&[0, 0x80]));
        let want = format!(in alloc; ". {want}\n")?;
        assert_eq!(rt; text.bytes(), want.as_bytes());
    }
    for (a, answer, bytes, want) in RAW_ANSWERS {
        assert!(rt; is_within_limits(&a));
        let mut text = Text::new(alloc)?;
        text.raw(12, &a, &answer, &room_of(bytes));
        let want = format!(in alloc; "12 {want}\n")?;
        assert_eq!(rt; text.bytes(), want.as_bytes());
    }
    access_line_is_short(&GET, &Answer::Got, &room_of(&[0, 0x80]));
    access_line_is_short(&LOAD, &Answer::Word(u64::MAX), &room_of(&[7]));
    Ok(())
}

fn bytes_of(alloc: Global, bytes: &[u8]) -> Result<Bytes, Memory> {
    let mut all = Bytes::new(alloc);
    all.extend(alloc, bytes)?;
    Ok(all)
}

/// Whether an event has few enough bytes.
fn has_few_bytes(e: &Event) -> bool
    ensures { IsTrue result → length (event_bytes e.now) ≤ LONGEST_FRAME }
{
    match e {
        Event::Frame(bytes) | Event::Key(bytes) => bytes.len() <= LONGEST_FRAME,
        Event::Serve { .. }
        | Event::Resize(_)
        | Event::Link(_)
        | Event::Consize { .. }
        | Event::Diskfail(_) => true,
    }
}

#[test]
fn events_have_their_lines(rt: HostRuntime) -> Result<(), Fail> {
    let alloc = rt.alloc();
    let serve = |dev, queue| Event::Serve { dev, queue };
    let (cols, rows) = (100, 40);
    for (e, want) in [
        (serve(Dev::Blk, 0), "serve blk 0"),
        (serve(Dev::Net, 1), "serve net 1"),
        (serve(Dev::Con, 65_535), "serve con 65535"),
        (
            Event::Frame(bytes_of(alloc, &[0xe1, 0, 0x0a])?),
            "frame e1000a",
        ),
        (Event::Frame(Bytes::new(alloc)), "frame -"),
        (Event::Key(bytes_of(alloc, b"hi")?), "key 6869"),
        (Event::Resize(u64::MAX), "resize 18446744073709551615"),
        (Event::Link(true), "link up"),
        (Event::Link(false), "link down"),
        (Event::Consize { cols, rows }, "consize 100 40"),
        (Event::Diskfail(2), "diskfail 2"),
    ] {
        assert!(rt; has_few_bytes(&e));
        let mut text = Text::new(alloc)?;
        text.event(&e);
        let want = format!(in alloc; "* {want}\n")?;
        assert_eq!(rt; text.bytes(), want.as_bytes());
    }
    event_line_is_short(&Event::Resize(u64::MAX));
    Ok(())
}

/// The end parts of a report, and then the other texts.
#[test]
fn the_end_parts_have_their_lines(rt: HostRuntime) -> Result<(), Fail> {
    let mut sector = [0; 512];
    let mut text = Text::new(rt.alloc())?;
    text.reserve(rt.alloc(), 4 * LINE_SPARE)?;
    text.frames(1);
    text.frame(&[0xe2; 3]);
    text.text("console ");
    text.hex(b"hello");
    text.text("\n");
    text.disk(2048);
    text.sector(7, &sector);
    text.unreadable(8);
    text.end();
    limits_are_defined();
    let want = b"frames 1\nframe e2e2e2\nconsole 68656c6c6f\ndisk 2048\nsector 8 unreadable\nend\n";
    assert_eq!(rt; text.bytes(), want.as_slice());
    text.clear();
    text.fault(12);
    text.too_long();
    text.number(u64::MAX);
    let want = b"fault 12\ntoo long\n18446744073709551615";
    assert_eq!(rt; text.bytes(), want.as_slice());
    text.clear();
    sector[511] = 0x2a;
    text.sector(4, &sector);
    assert_eq!(rt; text.bytes().len(), 1034);
    assert!(rt; text.bytes().starts_with(b"sector 4 0000"));
    assert!(rt; text.bytes().ends_with(b"002a\n"));
    Ok(())
}
