//! Packed rings.

use super::{Ask, Ring};
use vq_common::Reaped;
use vt_types::Answer;

const ROUNDS: [(Ask<'static>, &str); 10] = [
    (
        Ask::Post {
            tag: 1,
            pieces: 3,
            readable: 1,
            indirect: false,
            fits: true,
        },
        "put 1400000 0102\nput 1000010 02004001000000000200000000008300\nput 1000020 04004001000000000200000000008200\nput 1000000 00004001000000000200000000008100\nmark\n",
    ),
    (
        Ask::Reap {
            answers: &[
                (
                    Answer::Got,
                    &[0, 0, 0, 0, 0, 0, 0, 0, 4, 0, 0, 0, 0, 0, 0x82, 0x80],
                ),
                (Answer::Got, &[9, 8, 7, 6]),
            ],
            want: Some(Reaped { tag: 1, len: 4 }),
            bytes: &[9, 8, 7, 6],
        },
        "get 1000000 16\nmark\nget 1400002 4\n",
    ),
    (
        Ask::Post {
            tag: 2,
            pieces: 3,
            readable: 3,
            indirect: false,
            fits: true,
        },
        "put 1400000 010203040506\nput 1000000 02004001000000000200000000000180\nput 1000010 04004001000000000200000000000080\nput 1000030 00004001000000000200000000008100\nmark\n",
    ),
    (
        Ask::Post {
            tag: 3,
            pieces: 2,
            readable: 1,
            indirect: true,
            fits: true,
        },
        "put 1402000 0102\nput 1020080 0020400100000000020000000000000002204001000000000200000000000200\nput 1000020 80000201000000002000000001000480\nmark\n",
    ),
    (
        Ask::Post {
            tag: 4,
            pieces: 1,
            readable: 1,
            indirect: false,
            fits: false,
        },
        "",
    ),
    (
        Ask::Reap {
            answers: &[(
                Answer::Got,
                &[0, 0, 0, 0, 0, 0, 0, 0, 0, 0, 0, 0, 1, 0, 0x80, 0x80],
            )],
            want: Some(Reaped { tag: 3, len: 0 }),
            bytes: &[],
        },
        "get 1000030 16\nmark\n",
    ),
    (
        Ask::Reap {
            answers: &[(
                Answer::Got,
                &[2, 0, 0x40, 1, 0, 0, 0, 0, 2, 0, 0, 0, 0, 0, 1, 0x80],
            )],
            want: None,
            bytes: &[],
        },
        "get 1000000 16\nmark\n",
    ),
    (
        Ask::Reap {
            answers: &[
                (
                    Answer::Got,
                    &[0, 0, 0, 0, 0, 0, 0, 0, 2, 0, 0, 0, 0, 0, 2, 0],
                ),
                (Answer::Got, &[5, 6]),
            ],
            want: Some(Reaped { tag: 2, len: 2 }),
            bytes: &[5, 6],
        },
        "get 1000000 16\nmark\nget 1400006 2\n",
    ),
    (
        Ask::Post {
            tag: 4,
            pieces: 1,
            readable: 0,
            indirect: false,
            fits: true,
        },
        "put 1000030 00004001000000000200000000000280\nmark\n",
    ),
    (
        Ask::Post {
            tag: 5,
            pieces: 2,
            readable: 2,
            indirect: false,
            fits: true,
        },
        "put 1402000 01020304\nput 1000010 02204001000000000200000001008000\nput 1000000 00204001000000000200000001008100\nmark\n",
    ),
];

const SIGNALS: [(Ask<'static>, &str); 9] = [
    (
        Ask::Post {
            tag: 9,
            pieces: 1,
            readable: 1,
            indirect: false,
            fits: true,
        },
        "put 1400000 0102\nput 1000000 00004001000000000200000000008000\nmark\n",
    ),
    (
        Ask::Reap {
            answers: &[
                (
                    Answer::Got,
                    &[0, 0, 0, 0, 0, 0, 0, 0, 1, 0, 0, 0, 0, 0, 0x82, 0x80],
                ),
                (Answer::Got, &[5]),
            ],
            want: Some(Reaped { tag: 9, len: 1 }),
            bytes: &[5],
        },
        "get 1000000 16\nget 1400002 1\nput 1004000 01800200\nmark\n",
    ),
    (
        Ask::Reap {
            answers: &[(Answer::Got, &[0; 16])],
            want: None,
            bytes: &[],
        },
        "get 1000010 16\nmark\n",
    ),
    (
        Ask::Post {
            tag: 9,
            pieces: 1,
            readable: 1,
            indirect: false,
            fits: true,
        },
        "put 1400000 0102\nput 1000010 00004001000000000200000000008000\nmark\n",
    ),
    (
        Ask::Reap {
            answers: &[(
                Answer::Got,
                &[0, 0, 0, 0, 0, 0, 0, 0, 1, 0, 0, 0, 1, 0, 0x80, 0x80],
            )],
            want: None,
            bytes: &[],
        },
        "get 1000010 16\nmark\n",
    ),
    (
        Ask::Reap {
            answers: &[(
                Answer::Got,
                &[0, 0, 0, 0, 0, 0, 0, 0, 0, 0, 0, 0, 0, 0, 0x80, 0x80],
            )],
            want: Some(Reaped { tag: 9, len: 0 }),
            bytes: &[],
        },
        "get 1000010 16\nput 1004000 00000200\nmark\n",
    ),
    (
        Ask::Reap {
            answers: &[(Answer::Got, &[0; 16])],
            want: None,
            bytes: &[],
        },
        "get 1000000 16\nmark\n",
    ),
    (Ask::Signals(true), "put 1004002 0000\nmark\n"),
    (Ask::Signals(false), "put 1004002 0100\nmark\n"),
];

/// One access is made, and marked.
const IDLE: &str = "get 1000000 16\nmark\n";

const HOSTILE: [(Ask<'static>, &str); 6] = [
    (
        Ask::Post {
            tag: 9,
            pieces: 2,
            readable: 1,
            indirect: false,
            fits: true,
        },
        "put 1400000 0102\nput 1000010 02004001000000000200000000008200\nput 1000000 00004001000000000200000000008100\nmark\n",
    ),
    (
        Ask::Reap {
            answers: &[(
                Answer::Word(1),
                &[0, 0, 0, 0, 0, 0, 0, 0, 0, 0, 0, 0, 0, 0, 0x80, 0x80],
            )],
            want: None,
            bytes: &[],
        },
        IDLE,
    ),
    (
        Ask::Reap {
            answers: &[(
                Answer::Got,
                &[0, 0, 0, 0, 0, 0, 0, 0, 0, 0, 0, 0, 0, 0, 0x80, 0x80, 0],
            )],
            want: None,
            bytes: &[],
        },
        IDLE,
    ),
    (
        Ask::Reap {
            answers: &[(
                Answer::Got,
                &[0, 0, 0, 0, 0, 0, 0, 0, 0, 0, 0, 0, 0, 1, 0x80, 0x80],
            )],
            want: None,
            bytes: &[],
        },
        IDLE,
    ),
    (
        Ask::Reap {
            answers: &[(
                Answer::Got,
                &[0, 0, 0, 0, 0, 0, 0, 0, 1, 32, 0, 0, 0, 0, 0x82, 0x80],
            )],
            want: None,
            bytes: &[],
        },
        IDLE,
    ),
    (
        Ask::Reap {
            answers: &[
                (
                    Answer::Got,
                    &[0, 0, 0, 0, 0, 0, 0, 0, 3, 0, 0, 0, 0, 0, 0x82, 0x80],
                ),
                (Answer::Got, &[1, 2]),
            ],
            want: Some(Reaped { tag: 9, len: 3 }),
            bytes: &[0, 0, 0],
        },
        "get 1000000 16\nmark\nget 1400002 3\n",
    ),
];

pub const RINGS: [Ring; 3] = [
    (4, false, &ROUNDS),
    (2, true, &SIGNALS),
    (2, false, &HOSTILE),
];
