//! Pieces of a buffer that lie one after the other.

ghost use Rattle.std.specs.Prelude.{◌≡◌, ◌+◌, ◌-◌, ◌<◌, ◌^◌};
ghost use Rattle.vq_common.specs.Piece.{piece_at};

use crate::chain::Piece;
use arrayvec::ArrayVec;
use vt_layout::queue_block::TABLE_LEN;

/// How many bytes an indirect table of a driver may have.
const TABLE_SIZE: usize = TABLE_LEN as usize;

/// The bytes of an indirect table of a driver.
pub type TableBytes = ArrayVec<u8, TABLE_SIZE>;

/// The pieces of a buffer that are still to come: where they begin, one after the other, and how many of them are
/// readable.
#[derive(Clone, Copy, Debug, PartialEq, Eq)]
pub struct Pieces {
    pub addr: u64,
    pub readable: u8,
}

impl Pieces {
    /// The first of them, which has `len` bytes.
    pub fn next_piece(&mut self, len: u16) -> Piece
        requires { self.old.addr + len < 2 ^ 64 }
        ensures piece { result ≡ piece_at self.old.addr self.old.readable len }
        ensures addr { self.new.addr ≡ self.old.addr + len }
        ensures readable { self.new.readable ≡ self.old.readable - 1 }
    {
        let piece = Piece {
            addr: self.addr,
            len: u32::from(len),
            write: self.readable == 0,
        };
        self.addr += u64::from(len);
        self.readable = self.readable.saturating_sub(1);
        piece
    }
}
