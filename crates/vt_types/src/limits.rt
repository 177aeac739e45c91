//! The limits that several crates share (our own).

ghost use Rattle.std.specs.Prelude.{◌≡◌};
ghost use Rattle.vt_types.specs.Device as device;
ghost use Rattle.vt_types.specs.Events as event;
ghost use Rattle.vt_types.specs.Limits as limit;

/// The most pieces of a buffer.
pub const MOST_PIECES: usize = 8;

/// The most bytes of a piece.
pub const LONGEST_PIECE: u16 = 4096;

/// The most bytes of a buffer, of a put and of a get.
pub const LONGEST_BUFFER: usize = 8192;

/// The most bytes of a frame.
pub const LONGEST_FRAME: usize = 2048;

/// The most bytes of one press of keys.
pub const LONGEST_KEYS: usize = 64;

/// The most events of one operation.
pub const MOST_EVENTS: u32 = 128;

/// The most bytes of a script.
pub const LONGEST_SCRIPT: u32 = 1 << 26;

/// The most bytes of guest memory.
pub const LONGEST_MEMORY: u64 = 1 << 28;

/// The bytes of a page of guest memory.
pub const GUEST_PAGE: usize = 4096;

/// The most sectors of a disk.
pub const MOST_SECTORS: u64 = 65_536;

/// The greatest size of a queue, in descriptors: a power of two, and every rule on 256 names it (VIRTIO 1.2, 2.7, lets
/// a queue have up to 32768).
pub const GREATEST_QUEUE: u16 = 256;

/// The columns of a console at the start.
pub const START_COLS: u16 = 80;

/// The rows of a console at the start.
pub const START_ROWS: u16 = 25;

/// These are the definitions' limits. Does nothing.
pub fn limits_are_defined()
    ensures pieces { MOST_PIECES ≡ limit.MOST_PIECES }
    ensures piece { LONGEST_PIECE ≡ limit.LONGEST_PIECE }
    ensures buffer { LONGEST_BUFFER ≡ limit.LONGEST_BUFFER }
    ensures frame { LONGEST_FRAME ≡ limit.LONGEST_FRAME }
    ensures keys { LONGEST_KEYS ≡ limit.LONGEST_KEYS }
    ensures events { MOST_EVENTS ≡ event.MOST_EVENTS }
    ensures script { LONGEST_SCRIPT ≡ limit.LONGEST_SCRIPT }
    ensures memory { LONGEST_MEMORY ≡ limit.LONGEST_MEMORY }
    ensures page { GUEST_PAGE ≡ limit.GUEST_PAGE }
    ensures sectors { MOST_SECTORS ≡ limit.MOST_SECTORS }
    ensures queue { GREATEST_QUEUE ≡ device.GREATEST_QUEUE }
    ensures columns { START_COLS ≡ device.START_COLS }
    ensures rows { START_ROWS ≡ device.START_ROWS }
{}
