//! Packed rings.

use super::{
    AVAIL, CFG, DATA, DRIVER, Giving, INDIRECT, Lying, MEMORY, NEXT, Ring, Shown, Shows, Signalled,
    TABLE, USED, WRITE,
};
use vq_common::RingCfg;

const ONE: Lying = (DATA, 16, 5, AVAIL);

/// A descriptor that others follow. Of those AVAIL and USED don't count.
const MORE: Lying = (DATA, 16, 6, AVAIL + NEXT);

const LAST: Lying = (DATA, 16, 7, 0);

const TABLE_OF_3: Lying = (TABLE, 48, 5, AVAIL + INDIRECT);

/// A table in which flags stand that mean nothing there.
const THREE: [Lying; 3] = [
    MORE,
    (DATA, 16, 5, USED + INDIRECT),
    (DATA, 16, 5, NEXT + WRITE),
];

const NINE: [Lying; 9] = [MORE, MORE, MORE, MORE, MORE, MORE, MORE, MORE, LAST];

const TABLES: RingCfg = RingCfg {
    indirect: true,
    ..CFG
};

/// A ring of four at its start.
const RING: Ring<'static> = Ring {
    cfg: CFG,
    before: 0,
    driver: &[],
    descriptors: &[ONE],
    table: &[],
};

const NO_BYTES: Ring<'static> = Ring {
    descriptors: &[],
    ..RING
};

/// The first descriptor names a table.
const TABLE_RING: Ring<'static> = Ring {
    cfg: TABLES,
    descriptors: &[TABLE_OF_3],
    table: &THREE,
    ..RING
};

pub const SHOWN: &[Shown] = &[
    ("one piece", RING, Shows::Chain(5, 1, 1)),
    (
        "neither flag",
        Ring {
            descriptors: &[LAST],
            ..RING
        },
        Shows::Empty,
    ),
    (
        "both flags",
        Ring {
            descriptors: &[(DATA, 16, 5, AVAIL + USED)],
            ..RING
        },
        Shows::Empty,
    ),
    (
        "USED alone",
        Ring {
            descriptors: &[(DATA, 16, 5, USED)],
            ..RING
        },
        Shows::Empty,
    ),
    (
        "USED alone, wrap counter 0",
        Ring {
            before: 4,
            descriptors: &[(DATA, 16, 5, USED)],
            ..RING
        },
        Shows::Chain(5, 1, 1),
    ),
    (
        "AVAIL alone, wrap counter 0",
        Ring { before: 4, ..RING },
        Shows::Empty,
    ),
    (
        "neither flag, wrap counter 0",
        Ring {
            before: 4,
            descriptors: &[LAST],
            ..RING
        },
        Shows::Empty,
    ),
    (
        "both flags, wrap counter 0",
        Ring {
            before: 4,
            descriptors: &[(DATA, 16, 5, AVAIL + USED)],
            ..RING
        },
        Shows::Empty,
    ),
    (
        "a ring of 1",
        Ring {
            cfg: RingCfg { size: 1, ..CFG },
            ..RING
        },
        Shows::Chain(5, 1, 1),
    ),
    (
        "a loop on a ring of 1",
        Ring {
            cfg: RingCfg { size: 1, ..CFG },
            descriptors: &[MORE],
            ..RING
        },
        Shows::Bad,
    ),
    (
        "a ring of 1 in its fourth round",
        Ring {
            cfg: RingCfg { size: 1, ..CFG },
            before: 3,
            descriptors: &[(DATA, 16, 5, USED)],
            ..RING
        },
        Shows::Chain(5, 1, 1),
    ),
    (
        "a ring of 256 in its fifth round",
        Ring {
            cfg: RingCfg { size: 256, ..CFG },
            before: 1024,
            ..RING
        },
        Shows::Chain(5, 1, 1),
    ),
    (
        "3 slots over the end of 4",
        Ring {
            before: 2,
            descriptors: &[LAST, ONE, MORE, MORE],
            ..RING
        },
        Shows::Chain(7, 3, 3),
    ),
    (
        "all 4 slots",
        Ring {
            before: 3,
            descriptors: &[MORE, MORE, LAST, MORE],
            ..RING
        },
        Shows::Chain(7, 4, 4),
    ),
    (
        "no end in 4 slots",
        Ring {
            descriptors: &[MORE, MORE, MORE, MORE],
            ..RING
        },
        Shows::Bad,
    ),
    (
        "eight pieces",
        Ring {
            cfg: RingCfg { size: 16, ..CFG },
            before: 1,
            descriptors: &NINE,
            ..RING
        },
        Shows::Chain(7, 8, 8),
    ),
    (
        "nine pieces",
        Ring {
            cfg: RingCfg { size: 16, ..CFG },
            descriptors: &NINE,
            ..RING
        },
        Shows::Bad,
    ),
    (
        "writable after readable",
        Ring {
            descriptors: &[MORE, (DATA, 16, 7, WRITE)],
            ..RING
        },
        Shows::Chain(7, 2, 2),
    ),
    (
        "readable after writable",
        Ring {
            descriptors: &[(DATA, 16, 6, AVAIL + NEXT + WRITE), LAST],
            ..RING
        },
        Shows::Bad,
    ),
    (
        "8,192 bytes",
        Ring {
            descriptors: &[(DATA, 4096, 6, AVAIL + NEXT), (DATA, 4096, 7, 0)],
            ..RING
        },
        Shows::Chain(7, 2, 2),
    ),
    (
        "8,193 bytes",
        Ring {
            descriptors: &[
                (DATA, 4096, 6, AVAIL + NEXT),
                (DATA, 4096, 6, NEXT),
                (DATA, 1, 7, 0),
            ],
            ..RING
        },
        Shows::Bad,
    ),
    (
        "no bytes",
        Ring {
            descriptors: &[(DATA, 0, 5, AVAIL)],
            ..RING
        },
        Shows::Bad,
    ),
    (
        "4,097 bytes",
        Ring {
            descriptors: &[(DATA, 4097, 5, AVAIL)],
            ..RING
        },
        Shows::Bad,
    ),
    (
        "past the end",
        Ring {
            descriptors: &[(MEMORY - 15, 16, 5, AVAIL)],
            ..RING
        },
        Shows::Bad,
    ),
    (
        "past 2^64",
        Ring {
            descriptors: &[(u64::MAX - 15, 16, 5, AVAIL)],
            ..RING
        },
        Shows::Bad,
    ),
    (
        "INDIRECT without the feature",
        Ring {
            descriptors: &[TABLE_OF_3],
            table: &THREE,
            ..RING
        },
        Shows::Bad,
    ),
    (
        "INDIRECT in the second descriptor without the feature",
        Ring {
            descriptors: &[MORE, TABLE_OF_3],
            table: &THREE,
            ..RING
        },
        Shows::Bad,
    ),
    ("a table of 3", TABLE_RING, Shows::Chain(5, 1, 3)),
    (
        "a piece, then a table of 3",
        Ring {
            descriptors: &[MORE, TABLE_OF_3],
            ..TABLE_RING
        },
        Shows::Bad,
    ),
    (
        "a table with NEXT",
        Ring {
            descriptors: &[(TABLE, 48, 5, AVAIL + INDIRECT + NEXT), LAST],
            ..TABLE_RING
        },
        Shows::Bad,
    ),
    (
        "an empty table",
        Ring {
            descriptors: &[(TABLE, 0, 5, AVAIL + INDIRECT)],
            ..TABLE_RING
        },
        Shows::Bad,
    ),
    (
        "a torn table",
        Ring {
            descriptors: &[(TABLE, 40, 5, AVAIL + INDIRECT)],
            ..TABLE_RING
        },
        Shows::Bad,
    ),
    (
        "a table of 8",
        Ring {
            cfg: RingCfg { size: 16, ..TABLES },
            descriptors: &[(TABLE, 128, 5, AVAIL + INDIRECT)],
            table: &NINE,
            ..TABLE_RING
        },
        Shows::Chain(5, 1, 8),
    ),
    (
        "a table of 9",
        Ring {
            cfg: RingCfg { size: 16, ..TABLES },
            descriptors: &[(TABLE, 144, 5, AVAIL + INDIRECT)],
            table: &NINE,
            ..TABLE_RING
        },
        Shows::Bad,
    ),
    (
        "a table past 2^64",
        Ring {
            descriptors: &[(u64::MAX - 15, 48, 5, AVAIL + INDIRECT)],
            ..TABLE_RING
        },
        Shows::Bad,
    ),
    (
        "a table of 3 on a ring of 2",
        Ring {
            cfg: RingCfg { size: 2, ..TABLES },
            ..TABLE_RING
        },
        Shows::Bad,
    ),
    (
        "descriptors past the end",
        Ring {
            cfg: RingCfg {
                desc: MEMORY - 63,
                ..CFG
            },
            ..NO_BYTES
        },
        Shows::Bad,
    ),
    (
        "descriptors past 2^64",
        Ring {
            cfg: RingCfg {
                desc: u64::MAX - 63,
                ..CFG
            },
            ..NO_BYTES
        },
        Shows::Bad,
    ),
    (
        "a driver area past the end",
        Ring {
            cfg: RingCfg {
                driver: MEMORY - 3,
                ..CFG
            },
            ..NO_BYTES
        },
        Shows::Bad,
    ),
    (
        "a driver area past 2^64",
        Ring {
            cfg: RingCfg {
                driver: u64::MAX,
                ..CFG
            },
            ..NO_BYTES
        },
        Shows::Bad,
    ),
    (
        "a device area past the end",
        Ring {
            cfg: RingCfg {
                device: MEMORY - 3,
                ..CFG
            },
            ..NO_BYTES
        },
        Shows::Bad,
    ),
    (
        "a device area past 2^64",
        Ring {
            cfg: RingCfg {
                device: u64::MAX - 1,
                ..CFG
            },
            ..NO_BYTES
        },
        Shows::Bad,
    ),
    (
        "areas at the end",
        Ring {
            cfg: RingCfg {
                desc: MEMORY - 64,
                driver: MEMORY - 4,
                device: MEMORY - 4,
                ..CFG
            },
            ..NO_BYTES
        },
        Shows::Empty,
    ),
];

/// A buffer of 3 slots at location 2 of 4, which takes locations 2 and 3 of the first round and location 0 of the next. The
/// driver waits for location 2 of the first round.
const EVENT: Ring<'static> = Ring {
    cfg: RingCfg {
        event_idx: true,
        ..CFG
    },
    before: 2,
    driver: &[0x8000 + 2, 2],
    descriptors: &[LAST, ONE, MORE, MORE],
    table: &[],
};

pub const SIGNALLED: &[Signalled] = &[
    (
        Ring {
            driver: &[0, 0],
            ..EVENT
        },
        true,
    ),
    (
        Ring {
            cfg: CFG,
            driver: &[0x8000 + 2, 0],
            ..EVENT
        },
        true,
    ),
    (
        Ring {
            driver: &[0x8000 + 2, 1],
            ..EVENT
        },
        false,
    ),
    (
        Ring {
            driver: &[0x8000 + 2, 3],
            ..EVENT
        },
        false,
    ),
    (
        Ring {
            driver: &[0x8000 + 2, 0x8002],
            ..EVENT
        },
        false,
    ),
    (Ring { cfg: CFG, ..EVENT }, false),
    (EVENT, true),
    (
        Ring {
            driver: &[0x8000 + 3, 2],
            ..EVENT
        },
        true,
    ),
    (
        Ring {
            driver: &[0, 2],
            ..EVENT
        },
        true,
    ),
    (
        Ring {
            driver: &[2, 2],
            ..EVENT
        },
        false,
    ),
    (
        Ring {
            driver: &[3, 2],
            ..EVENT
        },
        false,
    ),
    (
        Ring {
            driver: &[0x8000, 2],
            ..EVENT
        },
        false,
    ),
    (
        Ring {
            driver: &[1, 2],
            ..EVENT
        },
        false,
    ),
    (
        Ring {
            driver: &[0x8000 + 1, 2],
            ..EVENT
        },
        false,
    ),
    (
        Ring {
            driver: &[0x8000 + 4, 2],
            ..EVENT
        },
        false,
    ),
    (
        Ring {
            driver: &[1, 2],
            descriptors: &[MORE, LAST, MORE, MORE],
            ..EVENT
        },
        true,
    ),
    (
        Ring {
            driver: &[2, 2],
            descriptors: &[MORE, LAST, MORE, MORE],
            ..EVENT
        },
        false,
    ),
    (
        Ring {
            before: 6,
            driver: &[0x8000, 2],
            descriptors: &[LAST, ONE, (DATA, 16, 6, USED + NEXT), MORE],
            ..EVENT
        },
        true,
    ),
    (
        Ring {
            before: 6,
            descriptors: &[LAST, ONE, (DATA, 16, 6, USED + NEXT), MORE],
            ..EVENT
        },
        false,
    ),
];

pub const GIVING: Giving<'static> = Giving {
    ring: Ring {
        descriptors: &[MORE, LAST, (DATA, 16, 9, AVAIL + WRITE)],
        ..RING
    },
    chains: [(7, 2), (9, 1)],
    silent: (DRIVER + 2, 1),
    len: 0,
    used: &[
        (0, [0, 0x40, 0, 0, 0, 0, 0, 0]),
        (8, [2, 1, 0, 0, 9, 0, 0x82, 0x80]),
        (16, [0, 0x40, 0, 0, 0, 0, 0, 0]),
        (24, [0, 0, 0, 0, 7, 0, 0x80, 0x80]),
    ],
};

/// The first chain begins at the last location, and so does what is used.
pub const GIVING_PAST_THE_END: Giving<'static> = Giving {
    ring: Ring {
        before: 3,
        descriptors: &[LAST, (DATA, 16, 9, USED + WRITE), ONE, MORE],
        ..RING
    },
    used: &[
        (56, [2, 1, 0, 0, 9, 0, 0x82, 0x80]),
        (8, [0, 0, 0, 0, 7, 0, 0, 0]),
    ],
    ..GIVING
};
