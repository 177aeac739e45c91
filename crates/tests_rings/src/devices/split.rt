//! Split rings.

use super::{
    DATA, DEVICE, DRIVER, Giving, INDIRECT, Lying, MEMORY, NEXT, Ring, Shown, Shows, Signalled,
    TABLE, WRITE,
};
use vq_common::RingCfg;

const FOUR: RingCfg = super::CFG;

const CFG: RingCfg = RingCfg { size: 8, ..FOUR };

const TABLES: RingCfg = RingCfg {
    indirect: true,
    ..CFG
};

/// One head is available, which is that of the first descriptor.
const RING: Ring<'static> = Ring {
    cfg: CFG,
    before: 0,
    driver: &[0, 1, 0],
    descriptors: &[(DATA, 16, 0, 0)],
    table: &[],
};

const NO_BYTES: Ring<'static> = Ring {
    driver: &[],
    descriptors: &[],
    ..RING
};

/// The first descriptor names a table.
const TABLE_RING: Ring<'static> = Ring {
    cfg: TABLES,
    descriptors: &[(TABLE, 48, INDIRECT, 0)],
    table: &THREE,
    ..RING
};

const THREE: [Lying; 3] = [(DATA, 16, NEXT, 1), (DATA, 16, NEXT, 2), (DATA, 16, 0, 0)];

const EIGHT: [Lying; 8] = [
    (DATA, 16, NEXT, 1),
    (DATA, 16, NEXT, 2),
    (DATA, 16, NEXT, 3),
    (DATA, 16, NEXT, 4),
    (DATA, 16, NEXT, 5),
    (DATA, 16, NEXT, 6),
    (DATA, 16, NEXT, 7),
    (DATA, 16, 0, 0),
];

/// A chain of 9 linked descriptors.
const NINE: [Lying; 9] = [
    (DATA, 16, NEXT, 1),
    (DATA, 16, NEXT, 2),
    (DATA, 16, NEXT, 3),
    (DATA, 16, NEXT, 4),
    (DATA, 16, NEXT, 5),
    (DATA, 16, NEXT, 6),
    (DATA, 16, NEXT, 7),
    (DATA, 16, NEXT, 8),
    (DATA, 16, 0, 0),
];

pub const SHOWN: &[Shown] = &[
    ("one piece", RING, Shows::Chain(0, 1, 1)),
    (
        "writable after readable",
        Ring {
            descriptors: &[(DATA, 16, NEXT, 1), (DATA, 16, WRITE, 0)],
            ..RING
        },
        Shows::Chain(0, 2, 2),
    ),
    (
        "readable after writable",
        Ring {
            descriptors: &[(DATA, 16, NEXT + WRITE, 1), (DATA, 16, 0, 0)],
            ..RING
        },
        Shows::Bad,
    ),
    (
        "8,192 bytes",
        Ring {
            descriptors: &[(DATA, 4096, NEXT, 1), (DATA, 4096, 0, 0)],
            ..RING
        },
        Shows::Chain(0, 2, 2),
    ),
    (
        "8,193 bytes",
        Ring {
            descriptors: &[
                (DATA, 4096, NEXT, 1),
                (DATA, 4096, NEXT, 2),
                (DATA, 1, 0, 0),
            ],
            ..RING
        },
        Shows::Bad,
    ),
    (
        "no bytes",
        Ring {
            descriptors: &[(DATA, 0, 0, 0)],
            ..RING
        },
        Shows::Bad,
    ),
    (
        "4,097 bytes",
        Ring {
            descriptors: &[(DATA, 4097, 0, 0)],
            ..RING
        },
        Shows::Bad,
    ),
    (
        "up to the end",
        Ring {
            descriptors: &[(MEMORY - 16, 16, 0, 0)],
            ..RING
        },
        Shows::Chain(0, 1, 1),
    ),
    (
        "past the end",
        Ring {
            descriptors: &[(MEMORY - 15, 16, 0, 0)],
            ..RING
        },
        Shows::Bad,
    ),
    (
        "past 2^64",
        Ring {
            descriptors: &[(u64::MAX - 15, 16, 0, 0)],
            ..RING
        },
        Shows::Bad,
    ),
    (
        "a loop",
        Ring {
            descriptors: &[(DATA, 16, NEXT, 1), (DATA, 16, NEXT, 0)],
            ..RING
        },
        Shows::Bad,
    ),
    (
        "next out of range",
        Ring {
            descriptors: &[(DATA, 16, NEXT, 8)],
            ..RING
        },
        Shows::Bad,
    ),
    (
        "INDIRECT without the feature",
        Ring {
            descriptors: &[(TABLE, 48, INDIRECT, 0)],
            table: &THREE,
            ..RING
        },
        Shows::Bad,
    ),
    (
        "head out of range",
        Ring {
            driver: &[0, 1, 8],
            ..RING
        },
        Shows::Bad,
    ),
    (
        "nothing available",
        Ring {
            driver: &[0, 0, 0],
            ..RING
        },
        Shows::Empty,
    ),
    (
        "all available",
        Ring {
            driver: &[0, 8, 0],
            ..RING
        },
        Shows::Chain(0, 1, 1),
    ),
    (
        "index too far ahead",
        Ring {
            driver: &[0, 9, 0],
            ..RING
        },
        Shows::Bad,
    ),
    (
        "index behind",
        Ring {
            driver: &[0, 65_535, 0],
            ..RING
        },
        Shows::Bad,
    ),
    (
        "nine pieces",
        Ring {
            cfg: RingCfg { size: 16, ..CFG },
            descriptors: &NINE,
            ..RING
        },
        Shows::Bad,
    ),
    (
        "eight pieces",
        Ring {
            cfg: RingCfg { size: 16, ..CFG },
            driver: &[0, 1, 1],
            descriptors: &NINE,
            ..RING
        },
        Shows::Chain(1, 8, 8),
    ),
    (
        "a chain that leaves the table",
        Ring {
            driver: &[0, 1, 1],
            descriptors: &NINE,
            ..RING
        },
        Shows::Bad,
    ),
    (
        "a ring of 1",
        Ring {
            cfg: RingCfg { size: 1, ..CFG },
            ..RING
        },
        Shows::Chain(0, 1, 1),
    ),
    (
        "a loop on a ring of 1",
        Ring {
            cfg: RingCfg { size: 1, ..CFG },
            descriptors: &[(DATA, 16, NEXT, 0)],
            ..RING
        },
        Shows::Bad,
    ),
    (
        "a ring of 256",
        Ring {
            cfg: RingCfg { size: 256, ..CFG },
            driver: &[0, 1, 2],
            descriptors: &NINE,
            ..RING
        },
        Shows::Chain(2, 7, 7),
    ),
    ("a table of 3", TABLE_RING, Shows::Chain(0, 1, 3)),
    (
        "a piece, then a table of 3",
        Ring {
            descriptors: &[(DATA, 16, NEXT, 1), (TABLE, 48, INDIRECT, 0)],
            ..TABLE_RING
        },
        Shows::Chain(0, 2, 4),
    ),
    (
        "5 pieces, then a table of 3",
        Ring {
            descriptors: &[
                (DATA, 16, NEXT, 1),
                (DATA, 16, NEXT, 2),
                (DATA, 16, NEXT, 3),
                (DATA, 16, NEXT, 4),
                (DATA, 16, NEXT, 5),
                (TABLE, 48, INDIRECT, 0),
            ],
            ..TABLE_RING
        },
        Shows::Chain(0, 6, 8),
    ),
    (
        "6 pieces, then a table of 3",
        Ring {
            descriptors: &[
                (DATA, 16, NEXT, 1),
                (DATA, 16, NEXT, 2),
                (DATA, 16, NEXT, 3),
                (DATA, 16, NEXT, 4),
                (DATA, 16, NEXT, 5),
                (DATA, 16, NEXT, 6),
                (TABLE, 48, INDIRECT, 0),
            ],
            ..TABLE_RING
        },
        Shows::Bad,
    ),
    (
        "a writable piece before a table",
        Ring {
            descriptors: &[(DATA, 16, NEXT + WRITE, 1), (TABLE, 48, INDIRECT, 0)],
            ..TABLE_RING
        },
        Shows::Bad,
    ),
    (
        "a table with NEXT",
        Ring {
            descriptors: &[(TABLE, 48, NEXT + INDIRECT, 1), (DATA, 16, 0, 0)],
            ..TABLE_RING
        },
        Shows::Bad,
    ),
    (
        "a table within a table",
        Ring {
            table: &[
                (DATA, 16, NEXT, 1),
                (TABLE, 48, INDIRECT, 0),
                (DATA, 16, 0, 0),
            ],
            ..TABLE_RING
        },
        Shows::Bad,
    ),
    (
        "a table whose next leaves it",
        Ring {
            table: &NINE,
            ..TABLE_RING
        },
        Shows::Bad,
    ),
    (
        "a table with a loop",
        Ring {
            table: &[(DATA, 16, NEXT, 1), (DATA, 16, NEXT, 0)],
            ..TABLE_RING
        },
        Shows::Bad,
    ),
    (
        "an empty table",
        Ring {
            descriptors: &[(TABLE, 0, INDIRECT, 0)],
            ..TABLE_RING
        },
        Shows::Bad,
    ),
    (
        "a torn table",
        Ring {
            descriptors: &[(TABLE, 40, INDIRECT, 0)],
            ..TABLE_RING
        },
        Shows::Bad,
    ),
    (
        "a table of 8",
        Ring {
            descriptors: &[(TABLE, 128, INDIRECT, 0)],
            table: &EIGHT,
            ..TABLE_RING
        },
        Shows::Chain(0, 1, 8),
    ),
    (
        "a table of 9",
        Ring {
            cfg: RingCfg { size: 16, ..TABLES },
            descriptors: &[(TABLE, 144, INDIRECT, 0)],
            table: &NINE,
            ..TABLE_RING
        },
        Shows::Bad,
    ),
    (
        "a table past 2^64",
        Ring {
            descriptors: &[(u64::MAX - 15, 48, INDIRECT, 0)],
            ..TABLE_RING
        },
        Shows::Bad,
    ),
    (
        "a table of 3 on a ring of 2",
        Ring {
            cfg: RingCfg { size: 2, ..TABLES },
            ..TABLE_RING
        },
        Shows::Bad,
    ),
    (
        "descriptors past the end",
        Ring {
            cfg: RingCfg {
                desc: MEMORY - 63,
                ..FOUR
            },
            ..NO_BYTES
        },
        Shows::Bad,
    ),
    (
        "descriptors past 2^64",
        Ring {
            cfg: RingCfg {
                desc: u64::MAX - 63,
                ..FOUR
            },
            ..NO_BYTES
        },
        Shows::Bad,
    ),
    (
        "a driver area past the end",
        Ring {
            cfg: RingCfg {
                driver: MEMORY - 13,
                ..FOUR
            },
            ..NO_BYTES
        },
        Shows::Bad,
    ),
    (
        "a driver area past 2^64",
        Ring {
            cfg: RingCfg {
                driver: u64::MAX,
                ..FOUR
            },
            ..NO_BYTES
        },
        Shows::Bad,
    ),
    (
        "a device area past the end",
        Ring {
            cfg: RingCfg {
                device: MEMORY - 37,
                ..FOUR
            },
            ..NO_BYTES
        },
        Shows::Bad,
    ),
    (
        "a device area past 2^64",
        Ring {
            cfg: RingCfg {
                device: u64::MAX - 1,
                ..FOUR
            },
            ..NO_BYTES
        },
        Shows::Bad,
    ),
    (
        "areas at the end",
        Ring {
            cfg: RingCfg {
                desc: MEMORY - 64,
                driver: MEMORY - 14,
                device: MEMORY - 38,
                ..FOUR
            },
            ..NO_BYTES
        },
        Shows::Empty,
    ),
];

/// A ring of four with this in its driver area: the flags, the index, four heads, and used_event.
const FLAGS: Ring<'static> = Ring { cfg: FOUR, ..RING };

const EVENTS: Ring<'static> = Ring {
    cfg: RingCfg {
        event_idx: true,
        ..FOUR
    },
    ..RING
};

pub const SIGNALLED: &[Signalled] = &[
    (
        Ring {
            driver: &[0, 1, 0, 0, 0, 0, 1],
            ..FLAGS
        },
        true,
    ),
    (
        Ring {
            driver: &[1, 1, 0, 0, 0, 0, 0],
            ..FLAGS
        },
        false,
    ),
    (
        Ring {
            driver: &[2, 1, 0, 0, 0, 0, 1],
            ..FLAGS
        },
        true,
    ),
    (
        Ring {
            driver: &[3, 1, 0, 0, 0, 0, 0],
            ..FLAGS
        },
        false,
    ),
    (
        Ring {
            driver: &[1, 1, 0, 0, 0, 0, 0],
            ..EVENTS
        },
        true,
    ),
    (
        Ring {
            driver: &[0, 1, 0, 0, 0, 0, 1],
            ..EVENTS
        },
        false,
    ),
    (
        Ring {
            driver: &[0, 1, 0, 0, 0, 0, 65535],
            ..EVENTS
        },
        false,
    ),
];

pub const GIVING: Giving<'static> = Giving {
    ring: Ring {
        cfg: FOUR,
        driver: &[0, 2, 3, 1],
        descriptors: &[(DATA, 16, WRITE, 0); 4],
        ..RING
    },
    chains: [(3, 1), (1, 1)],
    silent: (DRIVER, 1),
    len: 16,
    used: &[
        (DEVICE, [0, 0, 2, 0, 1, 0, 0, 0]),
        (DEVICE + 8, [2, 1, 0, 0, 3, 0, 0, 0]),
        (DEVICE + 16, [16, 0, 0, 0, 0, 0, 0, 0]),
    ],
};
