//! Split rings.

use super::{Ask, Ring};
use vq_common::Reaped;
use vt_types::Answer;

const REAPS_AND_POSTS: [(Ask<'static>, &str); 8] = [
    (
        Ask::Post {
            tag: 1,
            pieces: 3,
            readable: 1,
            indirect: false,
            fits: true,
        },
        "put 1400000 0102\nput 1000000 00004001000000000200000001000100\nput 1000010 02004001000000000200000003000200\nput 1000020 04004001000000000200000002000000\nput 1004004 0000\nput 1004002 0100\nmark\n",
    ),
    (
        Ask::Post {
            tag: 2,
            pieces: 2,
            readable: 1,
            indirect: false,
            fits: true,
        },
        "put 1406000 0102\nput 1000030 00604001000000000200000001000400\nput 1000040 02604001000000000200000002000000\nput 1004006 0300\nput 1004002 0200\nmark\n",
    ),
    (
        Ask::Post {
            tag: 3,
            pieces: 1,
            readable: 1,
            indirect: false,
            fits: true,
        },
        "put 140a000 0102\nput 1000050 00a04001000000000200000000000000\nput 1004008 0500\nput 1004002 0300\nmark\n",
    ),
    (
        Ask::Reap {
            answers: &[
                (Answer::Got, &[1, 0]),
                (Answer::Got, &[3, 0, 0, 0, 0, 0, 0, 0]),
            ],
            want: Some(Reaped { tag: 2, len: 0 }),
            bytes: &[],
        },
        "get 1006002 2\nmark\nget 1006004 8\n",
    ),
    (
        Ask::Post {
            tag: 4,
            pieces: 4,
            readable: 1,
            indirect: false,
            fits: true,
        },
        "put 1406000 0102\nput 1000030 00604001000000000200000001000400\nput 1000040 02604001000000000200000003000600\nput 1000060 04604001000000000200000003000700\nput 1000070 06604001000000000200000002000000\nput 100400a 0300\nput 1004002 0400\nmark\n",
    ),
    (
        Ask::Post {
            tag: 5,
            pieces: 1,
            readable: 1,
            indirect: true,
            fits: false,
        },
        "",
    ),
    (
        Ask::Reap {
            answers: &[
                (Answer::Got, &[2, 0]),
                (Answer::Got, &[0, 0, 0, 0, 3, 0, 0, 0]),
                (Answer::Got, &[1, 2, 3]),
            ],
            want: Some(Reaped { tag: 1, len: 3 }),
            bytes: &[1, 2, 3],
        },
        "get 1006002 2\nmark\nget 100600c 8\nget 1400002 3\n",
    ),
    (
        Ask::Post {
            tag: 5,
            pieces: 3,
            readable: 1,
            indirect: true,
            fits: true,
        },
        "put 1400000 0102\nput 1020000 000040010000000002000000010001000200400100000000020000000300020004004001000000000200000002000000\nput 1000000 00000201000000003000000004000000\nput 100400c 0000\nput 1004002 0500\nmark\n",
    ),
];

const SIGNALS: [(Ask<'static>, &str); 6] = [
    (
        Ask::Post {
            tag: 9,
            pieces: 1,
            readable: 1,
            indirect: false,
            fits: true,
        },
        "put 1400000 0102\nput 1000000 00004001000000000200000000000000\nput 1004004 0000\nput 1004002 0100\nmark\n",
    ),
    (
        Ask::Reap {
            answers: &[
                (Answer::Got, &[1, 0]),
                (Answer::Got, &[0, 0, 0, 0, 1, 0, 0, 0]),
                (Answer::Got, &[5]),
            ],
            want: Some(Reaped { tag: 9, len: 1 }),
            bytes: &[5],
        },
        "get 1006002 2\nget 1006004 8\nget 1400002 1\nput 1004008 0100\nmark\n",
    ),
    (
        Ask::Reap {
            answers: &[(Answer::Got, &[1, 0])],
            want: None,
            bytes: &[],
        },
        "get 1006002 2\nmark\n",
    ),
    (
        Ask::Reap {
            answers: &[
                (Answer::Got, &[2, 0]),
                (Answer::Got, &[0, 0, 0, 0, 1, 0, 0, 0]),
            ],
            want: None,
            bytes: &[],
        },
        "get 1006002 2\nget 100600c 8\nmark\n",
    ),
    (Ask::Signals(true), "put 1004000 0000\nmark\n"),
    (Ask::Signals(false), "put 1004000 0100\nmark\n"),
];

const IDLE: &str = "get 1006002 2\nmark\n";

const USED: &str = "get 1006002 2\nmark\nget 1006004 8\n";

const HOSTILE: [(Ask<'static>, &str); 6] = [
    (
        Ask::Post {
            tag: 9,
            pieces: 2,
            readable: 1,
            indirect: false,
            fits: true,
        },
        "put 1400000 0102\nput 1000000 00004001000000000200000001000100\nput 1000010 02004001000000000200000002000000\nput 1004004 0000\nput 1004002 0100\nmark\n",
    ),
    (
        Ask::Reap {
            answers: &[(Answer::Word(1), &[1, 0])],
            want: None,
            bytes: &[],
        },
        IDLE,
    ),
    (
        Ask::Reap {
            answers: &[(Answer::Got, &[1, 0, 0])],
            want: None,
            bytes: &[],
        },
        IDLE,
    ),
    (
        Ask::Reap {
            answers: &[
                (Answer::Got, &[1, 0]),
                (Answer::Got, &[1, 0, 0, 0, 0, 0, 0, 0]),
            ],
            want: None,
            bytes: &[],
        },
        USED,
    ),
    (
        Ask::Reap {
            answers: &[
                (Answer::Got, &[1, 0]),
                (Answer::Got, &[0, 0, 0, 0, 1, 32, 0, 0]),
            ],
            want: None,
            bytes: &[],
        },
        USED,
    ),
    (
        Ask::Reap {
            answers: &[
                (Answer::Got, &[1, 0]),
                (Answer::Got, &[0, 0, 0, 0, 3, 0, 0, 0]),
                (Answer::Got, &[1, 2]),
            ],
            want: Some(Reaped { tag: 9, len: 3 }),
            bytes: &[0, 0, 0],
        },
        "get 1006002 2\nmark\nget 1006004 8\nget 1400002 3\n",
    ),
];

pub const RINGS: [Ring; 3] = [
    (8, false, &REAPS_AND_POSTS),
    (2, true, &SIGNALS),
    (2, false, &HOSTILE),
];
