//! Worked rows: one thing each, from the bring-up to the end.

use crate::call::run;
use crate::script::Opening::{Accepts, BringsUp, Nothing};
use crate::script::{OPENED, Row, Script, VERSION_1, WITH_EVENT_IDX, WITH_INDIRECT, all_hold};
use std::test::Fail;

/// Five bytes over MMIO. What no contract refuses fails here: a program that always_wants_memory.
const FIVE_BYTES: Row = Row {
    opening: Accepts(VERSION_1),
    lines: &[
        ("setq con 1 8", "ok p=0 n=12"),
        ("status con drvok", "status 0f p=0 n=2"),
        ("post con 1 7 r:68656c6c6f", "ok p=0 n=4"),
        ("notify con 1", "ok p=0 n=1"),
        ("ev serve con 1", ""),
        ("reap con 1", "used 7 0 - p=0 n=2"),
    ],
    console: "68656c6c6f",
};

/// Nothing is asked for.
const EMPTY: Row = Row {
    opening: Nothing,
    lines: &[],
    console: "-",
};

/// A queue is served only once it was notified.
const NOT_NOTIFIED: Row = Row {
    opening: OPENED,
    lines: &[
        ("post con 1 1 r:41", "ok p=0 n=4"),
        ("ev serve con 1", ""),
        ("reap con 1", "none p=0 n=1"),
        ("notify con 1", "ok p=0 n=1"),
        ("ev serve con 1", ""),
        ("reap con 1", "used 1 0 - p=0 n=2"),
    ],
    console: "41",
};

/// Features without VERSION_1 are not agreed on; those with it are.
const WITHOUT_VERSION_1: Row = Row {
    opening: Nothing,
    lines: &[
        ("probe con", "id 3 p=0 n=4"),
        ("reset con", "ok p=0 n=2"),
        ("status con ack", "status 01 p=0 n=2"),
        ("status con driver", "status 03 p=0 n=2"),
        ("accept con 0000000000000005", "ok p=0 n=4"),
        ("status con featok", "status 03 p=0 n=2"),
        ("accept con 0000000100000005", "ok p=0 n=4"),
        ("status con featok", "status 0b p=0 n=2"),
    ],
    console: "-",
};

/// Features that the device does not offer, RING_PACKED among them, are not agreed on.
const NOT_OFFERED: Row = Row {
    opening: Nothing,
    lines: &[
        ("probe con", "id 3 p=0 n=4"),
        ("reset con", "ok p=0 n=2"),
        ("features con", "features 0000000130000005 p=0 n=4"),
        ("status con ack", "status 01 p=0 n=2"),
        ("status con driver", "status 03 p=0 n=2"),
        ("accept con 0000000500000000", "ok p=0 n=4"),
        ("status con featok", "status 03 p=0 n=2"),
        ("accept con 0000000100000002", "ok p=0 n=4"),
        ("status con featok", "status 03 p=0 n=2"),
        ("accept con 0000000130000005", "ok p=0 n=4"),
        ("status con featok", "status 0b p=0 n=2"),
    ],
    console: "-",
};

/// A queue of two descriptors is full, until a buffer is reaped.
const FULL: Row = Row {
    opening: BringsUp(VERSION_1, 2, 2),
    lines: &[
        ("post con 1 1 r:41", "ok p=0 n=4"),
        ("post con 1 2 r:42", "ok p=0 n=4"),
        ("post con 1 3 r:43", "refused full p=0 n=0"),
        ("notify con 1", "ok p=0 n=1"),
        ("ev serve con 1", ""),
        ("reap con 1", "used 1 0 - p=0 n=2"),
        ("post con 1 3 r:43", "ok p=0 n=4"),
    ],
    console: "41",
};

/// Sizes are the powers of two from 1 to 256.
const SIZES: Row = Row {
    opening: Accepts(VERSION_1),
    lines: &[
        ("setq con 0 0", "refused size p=0 n=0"),
        ("setq con 0 3", "refused size p=0 n=0"),
        ("setq con 0 257", "refused size p=0 n=0"),
        ("setq con 0 512", "refused size p=0 n=0"),
        ("setq con 0 256", "ok p=0 n=12"),
        ("setq con 0 8", "refused set p=0 n=0"),
        ("setq con 2 8", "refused queue p=0 n=0"),
        ("setq con 1 1", "ok p=0 n=12"),
    ],
    console: "-",
};

/// Keyboard input while receiving, and bytes that are sent; on MMIO one bit stands for the signals of both queues.
const BOTH_QUEUES: Row = Row {
    opening: OPENED,
    lines: &[
        ("post con 0 1 w:4", "ok p=0 n=3"),
        ("post con 1 2 r:41", "ok p=0 n=4"),
        ("notify con 0", "ok p=0 n=1"),
        ("notify con 1", "ok p=0 n=1"),
        ("ev key 6869", ""),
        ("ev serve con 0", ""),
        ("ev serve con 1", ""),
        ("irq queues con", "irq some p=0 n=2"),
        ("reap con 0", "used 1 2 6869 p=0 n=3"),
    ],
    console: "41",
};

/// An indirect table takes one descriptor of the ring, and has no more descriptors than the ring.
const INDIRECT: Row = Row {
    opening: BringsUp(WITH_INDIRECT, 2, 2),
    lines: &[
        ("post con 1 1 ind r:41 r:42", "ok p=0 n=5"),
        ("notify con 1", "ok p=0 n=1"),
        ("ev serve con 1", ""),
        ("reap con 1", "used 1 0 - p=0 n=2"),
        ("post con 1 2 ind r:41 r:42 r:43", "refused range p=0 n=0"),
        ("post con 1 2 ind r:43", "ok p=0 n=5"),
        ("post con 1 3 ind r:44 w:1", "ok p=0 n=5"),
        ("post con 1 4 ind r:45", "refused full p=0 n=0"),
        ("ev serve con 1", ""),
        ("ev serve con 1", ""),
        ("reap con 1", "used 2 0 - p=0 n=2"),
        ("reap con 1", "used 3 0 - p=0 n=2"),
    ],
    console: "41424344",
};

/// The bytes that come fill the pieces of a chain in order.
const SCATTERED: Row = Row {
    opening: OPENED,
    lines: &[
        ("post con 0 1 w:2 w:2", "ok p=0 n=4"),
        ("notify con 0", "ok p=0 n=1"),
        ("ev key 616263", ""),
        ("ev serve con 0", ""),
        ("reap con 0", "used 1 3 616263 p=0 n=3"),
    ],
    console: "-",
};

/// With EVENT_IDX the first used buffer that is not reaped yet signals.
const EVENT_INDEX: Row = Row {
    opening: BringsUp(WITH_EVENT_IDX, 8, 8),
    lines: &[
        ("post con 1 1 r:41", "ok p=0 n=4"),
        ("post con 1 2 r:42", "ok p=0 n=4"),
        ("notify con 1", "ok p=0 n=1"),
        ("ev serve con 1", ""),
        ("irq queues con", "irq some p=0 n=2"),
        ("ev serve con 1", ""),
        ("irq queues con", "irq none p=0 n=1"),
        ("reap con 1", "used 1 0 - p=0 n=3"),
        ("reap con 1", "used 2 0 - p=0 n=3"),
        ("disarm con 1", "refused mode p=0 n=0"),
        ("post con 1 3 r:43", "ok p=0 n=4"),
        ("ev serve con 1", ""),
        ("irq queues con", "irq some p=0 n=2"),
    ],
    console: "414243",
};

/// A byte goes to the console past all queues.
const EMERGENCY: Row = Row {
    opening: Nothing,
    lines: &[
        ("probe con", "id 3 p=0 n=4"),
        ("reset con", "ok p=0 n=2"),
        ("writecfg con emerg 33", "ok p=0 n=1"),
        ("writecfg con emerg 256", "refused range p=0 n=0"),
        ("writecfg con emerg 4294967295", "refused range p=0 n=0"),
        ("writecfg con emerg 255", "ok p=0 n=1"),
        ("writecfg con emerg 0", "ok p=0 n=1"),
    ],
    console: "21ff00",
};

/// All of them.
const ROWS: &[Row] = &[
    FIVE_BYTES,
    EMPTY,
    NOT_NOTIFIED,
    WITHOUT_VERSION_1,
    NOT_OFFERED,
    FULL,
    SIZES,
    BOTH_QUEUES,
    INDIRECT,
    SCATTERED,
    EVENT_INDEX,
    EMERGENCY,
];

/// The rows, and a ring of two, which goes round a hundred times.
#[test]
fn rows(rt: HostRuntime) -> Result<(), Fail> {
    all_hold(&rt, rt.alloc(), ROWS)?;
    let mut script = Script::new(rt.alloc(), BringsUp(VERSION_1, 2, 2))?;
    let mut console = String::new(rt.alloc());
    for _round in 0..200 {
        script.lines(&[
            ("post con 1 3 r:41", "ok p=0 n=4"),
            ("notify con 1", "ok p=0 n=1"),
            ("ev serve con 1", ""),
            ("reap con 1", "used 3 0 - p=0 n=2"),
        ])?;
        console.push_str("41")?;
    }
    script.holds(&rt, rt.alloc(), console.as_str())?;
    Ok(())
}
