//! The operations on the console, each with its refusals in the order in which they are tested: state, queue, size, set,
//! unset, tag, full, range, mode.

use crate::script::Opening::{Accepts, BringsUp, Nothing};
use crate::script::{OPENED, Row, VERSION_1, WITH_EVENT_IDX, WITH_INDIRECT, all_hold};
use std::test::Fail;

/// Before the probe only the probe, and before the first reset only the reset, is not refused.
const BEFORE_RESET: Row = Row {
    opening: Nothing,
    lines: &[
        ("reset con", "refused state p=0 n=0"),
        ("features con", "refused state p=0 n=0"),
        ("getstatus con", "refused state p=0 n=0"),
        ("accept con 0000000100000000", "refused state p=0 n=0"),
        ("status con ack", "refused state p=0 n=0"),
        ("setq con 2 3", "refused state p=0 n=0"),
        ("post con 2 1 r:41", "refused state p=0 n=0"),
        ("notify con 2", "refused state p=0 n=0"),
        ("reap con 2", "refused state p=0 n=0"),
        ("arm con 2", "refused state p=0 n=0"),
        ("disarm con 2", "refused state p=0 n=0"),
        ("readcfg con cols", "refused state p=0 n=0"),
        ("writecfg con emerg 256", "refused state p=0 n=0"),
        ("irq queues con", "refused state p=0 n=0"),
        ("irq config con", "refused state p=0 n=0"),
        ("probe con", "id 3 p=0 n=4"),
        ("probe con", "refused state p=0 n=0"),
        ("features con", "refused state p=0 n=0"),
        ("getstatus con", "refused state p=0 n=0"),
        ("status con ack", "refused state p=0 n=0"),
        ("readcfg con cols", "refused state p=0 n=0"),
        ("writecfg con emerg 33", "refused state p=0 n=0"),
        ("irq queues con", "refused state p=0 n=0"),
        ("irq config con", "refused state p=0 n=0"),
        ("reset con", "ok p=0 n=2"),
        ("features con", "features 0000000130000005 p=0 n=4"),
        ("getstatus con", "status 00 p=0 n=1"),
        ("readcfg con cols", "value 5000 p=0 n=3"),
        ("writecfg con emerg 33", "ok p=0 n=1"),
        ("irq queues con", "irq none p=0 n=1"),
        ("irq config con", "irq none p=0 n=1"),
    ],
    console: "21",
};

/// Each step of the bring-up follows the one before it, and features are accepted before they are agreed on alone.
const STEPS: Row = Row {
    opening: Nothing,
    lines: &[
        ("probe con", "id 3 p=0 n=4"),
        ("reset con", "ok p=0 n=2"),
        ("status con driver", "refused state p=0 n=0"),
        ("status con featok", "refused state p=0 n=0"),
        ("status con drvok", "refused state p=0 n=0"),
        ("accept con 0000000100000000", "refused state p=0 n=0"),
        ("status con ack", "status 01 p=0 n=2"),
        ("status con ack", "refused state p=0 n=0"),
        ("accept con 0000000100000000", "refused state p=0 n=0"),
        ("status con driver", "status 03 p=0 n=2"),
        ("status con driver", "refused state p=0 n=0"),
        ("status con drvok", "refused state p=0 n=0"),
        ("setq con 1 8", "refused state p=0 n=0"),
        ("accept con 0000000100000000", "ok p=0 n=4"),
        ("accept con 0000000100000001", "ok p=0 n=4"),
        ("status con featok", "status 0b p=0 n=2"),
        ("status con featok", "refused state p=0 n=0"),
        ("accept con 0000000100000000", "refused state p=0 n=0"),
        ("getstatus con", "status 0b p=0 n=1"),
        ("status con drvok", "status 0f p=0 n=2"),
        ("status con drvok", "refused state p=0 n=0"),
        ("setq con 1 8", "refused state p=0 n=0"),
        ("getstatus con", "status 0f p=0 n=1"),
        ("reset con", "ok p=0 n=2"),
        ("status con drvok", "refused state p=0 n=0"),
        ("status con ack", "status 01 p=0 n=2"),
    ],
    console: "-",
};

/// Setting a queue: queue, size, set.
const SET_QUEUE: Row = Row {
    opening: Accepts(VERSION_1),
    lines: &[
        ("setq con 2 3", "refused queue p=0 n=0"),
        ("setq con 65535 0", "refused queue p=0 n=0"),
        ("setq con 1 3", "refused size p=0 n=0"),
        ("setq con 1 8", "ok p=0 n=12"),
        ("setq con 1 3", "refused size p=0 n=0"),
        ("setq con 1 8", "refused set p=0 n=0"),
        ("setq con 1 4", "refused set p=0 n=0"),
        ("setq con 0 1", "ok p=0 n=12"),
    ],
    console: "-",
};

/// Posting: queue, unset, tag, full, range, mode; before DRIVER_OK too.
const POST: Row = Row {
    opening: Accepts(VERSION_1),
    lines: &[
        ("post con 2 1 ind r:41", "refused queue p=0 n=0"),
        ("post con 1 1 ind r:41", "refused unset p=0 n=0"),
        ("setq con 1 2", "ok p=0 n=12"),
        ("post con 1 1 r:41", "ok p=0 n=4"),
        ("post con 1 1 ind r:42", "refused tag p=0 n=0"),
        ("post con 1 2 r:42", "ok p=0 n=4"),
        ("post con 1 2 ind w:4096 w:4096 w:1", "refused tag p=0 n=0"),
        ("post con 1 3 ind w:4096 w:4096 w:1", "refused full p=0 n=0"),
        ("setq con 0 8", "ok p=0 n=12"),
        (
            "post con 0 1 ind w:4096 w:4096 w:1",
            "refused range p=0 n=0",
        ),
        ("post con 0 1 ind w:4096", "refused mode p=0 n=0"),
        ("post con 0 1 w:4096 w:4096", "ok p=0 n=4"),
        ("status con drvok", "status 0f p=0 n=2"),
        ("post con 0 2 r:01 r:02 w:1 w:2 w:3 w:4", "ok p=0 n=9"),
        ("post con 0 3 w:1", "refused full p=0 n=0"),
        ("notify con 1", "ok p=0 n=1"),
        ("ev serve con 1", ""),
        ("post con 1 1 r:43", "refused tag p=0 n=0"),
        ("post con 1 3 r:43", "refused full p=0 n=0"),
        ("reap con 1", "used 1 0 - p=0 n=2"),
        ("post con 1 1 r:43", "ok p=0 n=4"),
    ],
    console: "41",
};

/// Pieces and tables up to their limits: eight pieces, and 8,192 bytes together.
const LIMITS: Row = Row {
    opening: BringsUp(WITH_INDIRECT, 8, 8),
    lines: &[
        (
            "post con 1 1 r:01 r:02 r:03 r:04 r:05 r:06 r:07 r:08",
            "ok p=0 n=11",
        ),
        ("post con 1 2 ind r:09", "refused full p=0 n=0"),
        ("notify con 1", "ok p=0 n=1"),
        ("ev serve con 1", ""),
        ("reap con 1", "used 1 0 - p=0 n=2"),
        (
            "post con 1 2 ind r:09 r:0a r:0b r:0c r:0d r:0e r:0f r:10",
            "ok p=0 n=5",
        ),
        ("post con 1 65535 ind w:4096 w:4096", "ok p=0 n=4"),
        (
            "post con 1 3 ind w:4096 w:4095 w:2",
            "refused range p=0 n=0",
        ),
        ("ev serve con 1", ""),
        ("ev serve con 1", ""),
        ("reap con 1", "used 2 0 - p=0 n=2"),
        ("reap con 1", "used 65535 0 - p=0 n=2"),
    ],
    console: "0102030405060708090a0b0c0d0e0f10",
};

/// Notifying and reaping: state, queue, unset. A device is notified only once it runs.
const NOTIFY_AND_REAP: Row = Row {
    opening: Accepts(VERSION_1),
    lines: &[
        ("notify con 2", "refused state p=0 n=0"),
        ("reap con 2", "refused queue p=0 n=0"),
        ("reap con 1", "refused unset p=0 n=0"),
        ("setq con 1 8", "ok p=0 n=12"),
        ("notify con 1", "refused state p=0 n=0"),
        ("reap con 1", "none p=0 n=1"),
        ("status con drvok", "status 0f p=0 n=2"),
        ("notify con 2", "refused queue p=0 n=0"),
        ("notify con 0", "refused unset p=0 n=0"),
        ("notify con 1", "ok p=0 n=1"),
        ("reap con 2", "refused queue p=0 n=0"),
        ("reap con 0", "refused unset p=0 n=0"),
        ("reap con 1", "none p=0 n=1"),
    ],
    console: "-",
};

/// Arming and disarming: queue, unset.
const ARM: Row = Row {
    opening: Accepts(VERSION_1),
    lines: &[
        ("arm con 1", "refused unset p=0 n=0"),
        ("arm con 2", "refused queue p=0 n=0"),
        ("disarm con 1", "refused unset p=0 n=0"),
        ("disarm con 2", "refused queue p=0 n=0"),
        ("setq con 1 8", "ok p=0 n=12"),
        ("disarm con 1", "ok p=0 n=1"),
        ("arm con 1", "ok p=0 n=1"),
    ],
    console: "-",
};

/// With EVENT_IDX a queue that is set is neither armed nor disarmed.
const ARM_WITH_EVENT_IDX: Row = Row {
    opening: Accepts(WITH_EVENT_IDX),
    lines: &[
        ("arm con 2", "refused queue p=0 n=0"),
        ("arm con 1", "refused unset p=0 n=0"),
        ("disarm con 1", "refused unset p=0 n=0"),
        ("setq con 1 8", "ok p=0 n=12"),
        ("arm con 1", "refused mode p=0 n=0"),
        ("disarm con 1", "refused mode p=0 n=0"),
    ],
    console: "-",
};

/// A queue signals each used buffer, never while it is disarmed, and again once it is armed.
const SIGNALS: Row = Row {
    opening: OPENED,
    lines: &[
        ("post con 1 1 r:41", "ok p=0 n=4"),
        ("post con 1 2 r:42", "ok p=0 n=4"),
        ("post con 1 3 r:43", "ok p=0 n=4"),
        ("post con 1 4 r:44", "ok p=0 n=4"),
        ("notify con 1", "ok p=0 n=1"),
        ("ev serve con 1", ""),
        ("irq config con", "irq none p=0 n=1"),
        ("irq queues con", "irq some p=0 n=2"),
        ("irq queues con", "irq none p=0 n=1"),
        ("ev serve con 1", ""),
        ("irq queues con", "irq some p=0 n=2"),
        ("disarm con 1", "ok p=0 n=1"),
        ("ev serve con 1", ""),
        ("irq queues con", "irq none p=0 n=1"),
        ("arm con 1", "ok p=0 n=1"),
        ("irq queues con", "irq none p=0 n=1"),
        ("ev serve con 1", ""),
        ("irq queues con", "irq some p=0 n=2"),
        ("reap con 1", "used 1 0 - p=0 n=2"),
        ("reap con 1", "used 2 0 - p=0 n=2"),
        ("reap con 1", "used 3 0 - p=0 n=2"),
        ("reap con 1", "used 4 0 - p=0 n=2"),
        ("reap con 1", "none p=0 n=1"),
    ],
    console: "41424344",
};

/// The fields that can be read, as they start and once the console has another size. The size is another before DRIVER_OK
/// without a signal, and after it with one; one acknowledgement leaves the other bit.
const FIELDS: Row = Row {
    opening: Accepts(VERSION_1),
    lines: &[
        ("readcfg con cols", "value 5000 p=0 n=3"),
        ("readcfg con rows", "value 1900 p=0 n=3"),
        ("readcfg con ports", "value 01000000 p=0 n=3"),
        ("ev consize 65535 256", ""),
        ("readcfg con cols", "value ffff p=0 n=3"),
        ("readcfg con rows", "value 0001 p=0 n=3"),
        ("readcfg con ports", "value 01000000 p=0 n=3"),
        ("irq config con", "irq none p=0 n=1"),
        ("setq con 1 8", "ok p=0 n=12"),
        ("status con drvok", "status 0f p=0 n=2"),
        ("irq config con", "irq none p=0 n=1"),
        ("ev consize 65535 256", ""),
        ("post con 1 1 r:41", "ok p=0 n=4"),
        ("notify con 1", "ok p=0 n=1"),
        ("ev serve con 1", ""),
        ("irq config con", "irq config p=0 n=2"),
        ("irq config con", "irq none p=0 n=1"),
        ("irq queues con", "irq some p=0 n=2"),
        ("irq queues con", "irq none p=0 n=1"),
    ],
    console: "41",
};

/// Input waits until a buffer has room for it, and is taken in order; a buffer without room is used with no bytes.
const RECEIVES: Row = Row {
    opening: OPENED,
    lines: &[
        ("post con 0 1 w:2", "ok p=0 n=3"),
        ("post con 0 2 r:41", "ok p=0 n=4"),
        ("post con 0 3 r:4243 w:3 w:3", "ok p=0 n=6"),
        ("notify con 0", "ok p=0 n=1"),
        ("ev serve con 0", ""),
        ("reap con 0", "none p=0 n=1"),
        ("ev key 6162", ""),
        ("ev key 63", ""),
        ("ev key 6465", ""),
        ("ev serve con 0", ""),
        ("ev serve con 0", ""),
        ("ev serve con 0", ""),
        ("ev serve con 0", ""),
        ("reap con 0", "used 1 2 6162 p=0 n=3"),
        ("reap con 0", "used 2 0 - p=0 n=2"),
        ("reap con 0", "used 3 3 636465 p=0 n=3"),
        ("reap con 0", "none p=0 n=1"),
    ],
    console: "-",
};

/// What is sent is a chain's readable bytes; nothing is written to it.
const SENDS: Row = Row {
    opening: OPENED,
    lines: &[
        ("post con 1 1 r:41 r:4243 w:3", "ok p=0 n=6"),
        ("post con 1 2 w:3", "ok p=0 n=3"),
        ("notify con 1", "ok p=0 n=1"),
        ("ev serve con 1", ""),
        ("ev serve con 1", ""),
        ("reap con 1", "used 1 0 - p=0 n=2"),
        ("reap con 1", "used 2 0 - p=0 n=2"),
    ],
    console: "414243",
};

/// Serving does nothing where there is no such queue, where it isn't set, before DRIVER_OK, and once a kick has ended.
const NOT_SERVED: Row = Row {
    opening: Accepts(VERSION_1),
    lines: &[
        ("ev serve con 1", ""),
        ("ev serve con 2", ""),
        ("ev serve con 65535", ""),
        ("setq con 1 8", "ok p=0 n=12"),
        ("post con 1 1 r:41", "ok p=0 n=4"),
        ("ev serve con 1", ""),
        ("status con drvok", "status 0f p=0 n=2"),
        ("ev serve con 1", ""),
        ("reap con 1", "none p=0 n=1"),
        ("notify con 1", "ok p=0 n=1"),
        ("ev serve con 1", ""),
        ("ev serve con 1", ""),
        ("post con 1 2 r:42", "ok p=0 n=4"),
        ("ev serve con 1", ""),
        ("reap con 1", "used 1 0 - p=0 n=2"),
        ("reap con 1", "none p=0 n=1"),
    ],
    console: "41",
};

/// A reset forgets the queues, the buffers and the signals; the size, the waiting input and the console's bytes stay.
const AFTER_RESET: Row = Row {
    opening: OPENED,
    lines: &[
        ("post con 0 1 w:4", "ok p=0 n=3"),
        ("post con 1 1 r:41", "ok p=0 n=4"),
        ("notify con 1", "ok p=0 n=1"),
        ("ev serve con 1", ""),
        ("ev consize 100 40", ""),
        ("ev key 6162", ""),
        ("reset con", "ok p=0 n=2"),
        ("getstatus con", "status 00 p=0 n=1"),
        ("irq queues con", "irq none p=0 n=1"),
        ("irq config con", "irq none p=0 n=1"),
        ("readcfg con cols", "value 6400 p=0 n=3"),
        ("reap con 1", "refused state p=0 n=0"),
        ("status con ack", "status 01 p=0 n=2"),
        ("status con driver", "status 03 p=0 n=2"),
        ("accept con 0000000100000000", "ok p=0 n=4"),
        ("status con featok", "status 0b p=0 n=2"),
        ("reap con 1", "refused unset p=0 n=0"),
        ("setq con 0 4", "ok p=0 n=12"),
        ("status con drvok", "status 0f p=0 n=2"),
        ("reap con 0", "none p=0 n=1"),
        ("post con 0 1 w:4", "ok p=0 n=3"),
        ("ev serve con 0", ""),
        ("reap con 0", "none p=0 n=1"),
        ("notify con 0", "ok p=0 n=1"),
        ("ev serve con 0", ""),
        ("reap con 0", "used 1 2 6162 p=0 n=3"),
    ],
    console: "41",
};

#[test]
fn refusals(rt: HostRuntime) -> Result<(), Fail> {
    all_hold(
        &rt,
        rt.alloc(),
        &[
            BEFORE_RESET,
            STEPS,
            SET_QUEUE,
            POST,
            LIMITS,
            NOTIFY_AND_REAP,
            ARM,
            ARM_WITH_EVENT_IDX,
        ],
    )?;
    Ok(())
}

#[test]
fn good_replies(rt: HostRuntime) -> Result<(), Fail> {
    all_hold(
        &rt,
        rt.alloc(),
        &[SIGNALS, FIELDS, RECEIVES, SENDS, NOT_SERVED, AFTER_RESET],
    )?;
    Ok(())
}
