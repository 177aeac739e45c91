//! Events in the gaps of operations: when they happen, and which of them come before the marked access.

use crate::call::run;
use crate::script::Opening::{Accepts, BringsUp, Nothing};
use crate::script::{OPENED, Row, Script, VERSION_1, WITH_EVENT_IDX, all_hold};
use std::alloc::{AllocError, Global};
use std::test::Fail;
use vt_types::MOST_EVENTS;

/// A buffer is served between the puts that make it available, and right after the last of them.
const WHILE_POSTING: Row = Row {
    opening: OPENED,
    lines: &[
        ("notify con 1", "ok p=0 n=1"),
        (
            "post con 1 5 r:41 @3:serve con 1 @4:serve con 1",
            "ok p=1 n=4",
        ),
        ("reap con 1", "none p=0 n=1"),
        ("notify con 1", "ok p=0 n=1"),
        (
            "post con 1 6 r:42 @0:serve con 1 @4:serve con 1",
            "ok p=1 n=4",
        ),
        ("reap con 1", "used 5 0 - p=0 n=2"),
        ("reap con 1", "used 6 0 - p=0 n=2"),
    ],
    console: "4142",
};

/// A buffer is served and the size changes between the load of the interrupt status and its acknowledgement: the bit of the
/// queues is acknowledged once for both buffers, and that of the configuration stays.
const WHILE_ACKNOWLEDGING: Row = Row {
    opening: OPENED,
    lines: &[
        ("post con 1 1 r:41", "ok p=0 n=4"),
        ("post con 1 2 r:42", "ok p=0 n=4"),
        ("notify con 1", "ok p=0 n=1"),
        ("ev serve con 1", ""),
        (
            "irq queues con @1:serve con 1 @1:consize 100 40",
            "irq some p=2 n=2",
        ),
        ("irq queues con", "irq none p=0 n=1"),
        ("irq config con", "irq config p=0 n=2"),
        (
            "irq config con @0:consize 1 1 @1:consize 2 2",
            "irq config p=2 n=2",
        ),
        ("irq config con @1:consize 3 3", "irq none p=0 n=1"),
        ("irq config con", "irq config p=0 n=2"),
    ],
    console: "4142",
};

/// An event behind the last access comes after the operation.
const AFTER_THE_OPERATION: Row = Row {
    opening: OPENED,
    lines: &[
        ("post con 1 1 r:41", "ok p=0 n=4"),
        ("post con 1 2 r:42", "ok p=0 n=4"),
        ("notify con 1", "ok p=0 n=1"),
        ("ev serve con 1", ""),
        ("getstatus con @3:serve con 1", "status 0f p=0 n=1"),
        ("reap con 1", "used 1 0 - p=0 n=2"),
        ("reap con 1", "used 2 0 - p=0 n=2"),
    ],
    console: "4142",
};

/// The events of an operation that is refused come after it.
const AFTER_A_REFUSAL: Row = Row {
    opening: OPENED,
    lines: &[
        ("post con 1 1 r:41", "ok p=0 n=4"),
        ("notify con 1", "ok p=0 n=1"),
        ("notify con 2 @0:serve con 1", "refused queue p=0 n=0"),
        ("reap con 1", "used 1 0 - p=0 n=2"),
        (
            "readcfg con cols @0:consize 100 40 @65535:consize 120 50",
            "value 6400 p=1 n=3",
        ),
        ("probe con @0:consize 90 30", "refused state p=0 n=0"),
        ("readcfg con cols", "value 5a00 p=0 n=3"),
    ],
    console: "41",
};

/// The size changes while it is read: rounds are made until the generation is the same before and after.
const WHILE_READING: Row = Row {
    opening: OPENED,
    lines: &[
        (
            "readcfg con cols @2:consize 100 40 @4:consize 120 50",
            "value 7800 p=2 n=9",
        ),
        ("readcfg con cols", "value 7800 p=0 n=3"),
        ("readcfg con rows @0:consize 1 2", "value 0200 p=1 n=3"),
        ("readcfg con rows @1:consize 1 3", "value 0300 p=1 n=6"),
        ("readcfg con rows @2:consize 1 4", "value 0400 p=1 n=6"),
        ("readcfg con rows @3:consize 1 5", "value 0400 p=0 n=3"),
        ("readcfg con ports @2:consize 1 5", "value 01000000 p=1 n=6"),
        (
            "readcfg con cols @1:consize 7 7 @1:consize 8 8 @5:key 61",
            "value 0800 p=3 n=6",
        ),
    ],
    console: "-",
};

/// A buffer is served just before the used index is read, and just after it.
const WHILE_REAPING: Row = Row {
    opening: OPENED,
    lines: &[
        ("post con 1 1 r:41", "ok p=0 n=4"),
        ("post con 1 2 r:42", "ok p=0 n=4"),
        ("notify con 1", "ok p=0 n=1"),
        ("reap con 1 @0:serve con 1", "used 1 0 - p=1 n=2"),
        ("reap con 1 @1:serve con 1", "none p=0 n=1"),
        ("reap con 1", "used 2 0 - p=0 n=2"),
    ],
    console: "4142",
};

/// With EVENT_IDX the last access of a reap is the marked one: a buffer that is served before it is not the first that
/// stands used, and one that is served after it is.
const WHILE_REAPING_WITH_EVENT_IDX: Row = Row {
    opening: BringsUp(WITH_EVENT_IDX, 8, 8),
    lines: &[
        ("post con 1 1 r:41", "ok p=0 n=4"),
        ("post con 1 2 r:42", "ok p=0 n=4"),
        ("post con 1 3 r:43", "ok p=0 n=4"),
        ("notify con 1", "ok p=0 n=1"),
        ("ev serve con 1", ""),
        ("irq queues con", "irq some p=0 n=2"),
        ("reap con 1 @2:serve con 1", "used 1 0 - p=1 n=3"),
        ("irq queues con", "irq none p=0 n=1"),
        ("reap con 1 @3:serve con 1", "used 2 0 - p=0 n=3"),
        ("irq queues con", "irq some p=0 n=2"),
        ("reap con 1 @2:key 61", "used 3 0 - p=1 n=3"),
        ("reap con 1 @0:key 61 @1:key 61", "none p=1 n=1"),
    ],
    console: "414243",
};

/// The marked access of each operation that brings the console up: the first event comes before it, the second after it.
const MARKS_OF_THE_OPENING: Row = Row {
    opening: Nothing,
    lines: &[
        ("probe con @3:key 61 @4:key 61", "id 3 p=1 n=4"),
        ("reset con @0:key 61 @1:key 61", "ok p=1 n=2"),
        (
            "features con @3:key 61 @4:key 61",
            "features 0000000130000005 p=1 n=4",
        ),
        ("getstatus con @0:key 61 @1:key 61", "status 00 p=1 n=1"),
        ("status con ack @0:key 61 @1:key 61", "status 01 p=1 n=2"),
        ("status con driver @0:key 61 @1:key 61", "status 03 p=1 n=2"),
        (
            "accept con 0000000100000000 @3:key 61 @4:key 61",
            "ok p=1 n=4",
        ),
        ("status con featok @0:key 61 @1:key 61", "status 0b p=1 n=2"),
        ("setq con 0 8 @11:key 61 @12:key 61", "ok p=1 n=12"),
        ("setq con 1 8 @11:key 61 @12:key 61", "ok p=1 n=12"),
        ("status con drvok @0:key 61 @1:key 61", "status 0f p=1 n=2"),
        ("post con 0 1 w:64 @2:key 61 @3:key 61", "ok p=1 n=3"),
        ("notify con 0", "ok p=0 n=1"),
        ("ev serve con 0", ""),
        (
            "reap con 0",
            "used 1 24 616161616161616161616161616161616161616161616161 p=0 n=3",
        ),
    ],
    console: "-",
};

/// And of the operations of a console that runs.
const MARKS: Row = Row {
    opening: OPENED,
    lines: &[
        ("notify con 0 @0:key 61 @1:key 61", "ok p=1 n=1"),
        ("post con 0 1 r:41 w:1 @4:key 61 @5:key 61", "ok p=1 n=5"),
        ("reap con 0 @0:key 61 @1:key 61", "none p=1 n=1"),
        ("arm con 0 @0:key 61 @1:key 61", "ok p=1 n=1"),
        ("disarm con 0 @0:key 61 @1:key 61", "ok p=1 n=1"),
        ("readcfg con rows @2:key 61 @3:key 61", "value 1900 p=1 n=3"),
        ("writecfg con emerg 33 @0:key 61 @1:key 61", "ok p=1 n=1"),
        ("irq queues con @0:key 61 @1:key 61", "irq none p=1 n=1"),
        ("irq config con @0:key 61 @1:key 61", "irq none p=1 n=1"),
    ],
    console: "21",
};

/// A device that is reset serves no more: the first event comes before the reset, the second after it.
const WHILE_RESETTING: Row = Row {
    opening: OPENED,
    lines: &[
        ("post con 1 1 r:41", "ok p=0 n=4"),
        ("post con 1 2 r:42", "ok p=0 n=4"),
        ("notify con 1", "ok p=0 n=1"),
        ("reset con @0:serve con 1 @1:serve con 1", "ok p=1 n=2"),
        ("irq queues con", "irq none p=0 n=1"),
    ],
    console: "41",
};

/// The console runs from the store of DRIVER_OK on, and a change of its size signals from then on.
const WHILE_STARTING: Row = Row {
    opening: Accepts(VERSION_1),
    lines: &[
        ("status con drvok @0:consize 1 1", "status 0f p=1 n=2"),
        ("irq config con", "irq none p=0 n=1"),
        ("reset con", "ok p=0 n=2"),
        ("status con ack", "status 01 p=0 n=2"),
        ("status con driver", "status 03 p=0 n=2"),
        ("accept con 0000000100000000", "ok p=0 n=4"),
        ("status con featok", "status 0b p=0 n=2"),
        ("status con drvok @1:consize 1 1", "status 0f p=0 n=2"),
        ("irq config con", "irq config p=0 n=2"),
    ],
    console: "-",
};

/// All of them.
const ROWS: &[Row] = &[
    WHILE_POSTING,
    WHILE_ACKNOWLEDGING,
    AFTER_THE_OPERATION,
    AFTER_A_REFUSAL,
    WHILE_READING,
    WHILE_REAPING,
    WHILE_REAPING_WITH_EVENT_IDX,
    MARKS_OF_THE_OPENING,
    MARKS,
    WHILE_RESETTING,
    WHILE_STARTING,
];

/// A line that reads a field with the most events that a line may have: all in one gap, or each in a round of its own.
fn with_most_events(alloc: Global, each_in_a_round: bool) -> Result<String, AllocError> {
    let mut line = String::from_str(alloc, "readcfg con cols")?;
    for n in 0..MOST_EVENTS {
        let gap = if each_in_a_round { 3 * n + 2 } else { 2 };
        write!(line, " @{gap}:consize {n} 0")?;
    }
    Ok(line)
}

/// The rows; a field that is read in one round more than there are changes at most; and a line with one event more, which is
/// not in the grammar.
#[test]
fn events_in_gaps(rt: HostRuntime) -> Result<(), Fail> {
    all_hold(&rt, rt.alloc(), ROWS)?;
    let mut at_once = with_most_events(rt.alloc(), false)?;
    let in_rounds = with_most_events(rt.alloc(), true)?;
    let mut script = Script::new(rt.alloc(), OPENED)?;
    script.line(at_once.as_str(), "value 7f00 p=128 n=6")?;
    script.line(in_rounds.as_str(), "value 7f00 p=128 n=387")?;
    script.line("readcfg con cols", "value 7f00 p=0 n=3")?;
    script.holds(&rt, rt.alloc(), "-")?;
    at_once.push_str(" @2:key 61")?;
    let _outcome = run(at_once.as_str()).gives(&rt, rt.alloc(), "fault 1\n", 3)?;
    Ok(())
}
