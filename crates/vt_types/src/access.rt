//! Accesses of a driver, and their answers.

use crate::limits::LONGEST_BUFFER;
use arrayvec::ArrayVec;

/// Room for the bytes of a get.
pub type Room = ArrayVec<u8, LONGEST_BUFFER>;

/// One access: a load or a store of a register, bytes put into or got from guest memory, zeroed or swapped, or a
/// channel instruction. Widths are 1, 2 or 4 bytes.
#[derive(Clone, Copy)]
pub enum Access<'a> {
    Load {
        addr: u64,
        width: u8,
    },
    Store {
        addr: u64,
        width: u8,
        value: u32,
    },
    Put {
        addr: u64,
        bytes: &'a [u8],
    },
    Get {
        addr: u64,
        count: u16,
    },
    Zero {
        addr: u64,
        count: u16,
    },
    Swap {
        addr: u64,
        value: u64,
    },
    CfgLoad {
        func: u8,
        off: u16,
        width: u8,
    },
    CfgStore {
        func: u8,
        off: u16,
        width: u8,
        value: u32,
    },
    Ssch {
        id: u32,
        addr: u64,
    },
    Tsch {
        id: u32,
        addr: u64,
    },
    Stsch {
        id: u32,
        addr: u64,
    },
    Msch {
        id: u32,
        addr: u64,
    },
    Csch {
        id: u32,
    },
    Turn {
        id: u32,
    },
    Diag {
        func: u64,
        id: u32,
        value: u64,
        cookie: u64,
    },
}

/// How one turn of a channel program ended; `Going` is printed `data`.
#[derive(Clone, Copy, Debug, PartialEq, Eq)]
pub enum Turn {
    Idle,
    Going,
    Ended,
    ProgramCheck,
    IncorrectLength,
    UnitCheck,
}

/// The answer of an access. After `Got` the bytes are in the room; after any other answer the room is as before.
#[derive(Clone, Copy, Debug, PartialEq, Eq)]
pub enum Answer {
    Word(u64),
    Done,
    Got,
    Outside,
    Code(u8),
    Turned(Turn),
    NoSuch,
}
