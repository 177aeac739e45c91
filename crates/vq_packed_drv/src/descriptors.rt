//! The descriptors of a buffer's pieces, in the ring and in a table.

ghost use Rattle.std.specs.Prelude.{◌≡◌, ◌+◌, ◌-◌, ◌*◌, ◌<◌, ◌≤◌, ◌^◌, [], length, sum};
ghost use Rattle.vt_types.specs.Limits.{MOST_PIECES};
ghost use Rattle.vq_common.specs.Piece.{piece_at, pieces_from};
ghost use Rattle.vq_common.specs.Position.{position_after};
ghost use Rattle.vq_packed_drv.specs.Post.{packed_table_bytes, ring_descriptor, table_descriptor};

use vq_common::{
    DescriptorFlags, PackedDescriptor, PackedFlags, Piece, Pieces, Position, TableBytes,
};

/// The descriptors of a chain that are still to be put: the id that each has, the position of the next one, and the
/// pieces.
#[derive(Clone, Copy)]
pub(crate) struct ChainDescriptors {
    pub id: u16,
    pub position: Position,
    pub pieces: Pieces,
}

impl ChainDescriptors {
    /// The next descriptor, on a ring of `size`. Its piece has `len` bytes, and it has NEXT where another descriptor
    /// follows.
    pub fn next_descriptor(&mut self, size: u16, len: u16, follows: bool) -> PackedDescriptor
        requires location { self.old.position.location < size }
        requires fits { self.old.pieces.addr + len < 2 ^ 64 }
        ensures descriptor { result ≡ ring_descriptor self.old.id self.old.position.wrap follows (piece_at self.old.pieces.addr self.old.pieces.readable len) }
        ensures id { self.new.id ≡ self.old.id }
        ensures position { self.new.position ≡ position_after size self.old.position 1 }
        ensures addr { self.new.pieces.addr ≡ self.old.pieces.addr + len }
        ensures readable { self.new.pieces.readable ≡ self.old.pieces.readable - 1 }
    {
        let piece = self.pieces.next_piece(len);
        let flags = DescriptorFlags::of(follows, piece.write);
        let available = PackedFlags::available(self.position.wrap);
        self.position = self.position.advance(size, 1);
        PackedDescriptor {
            addr: piece.addr,
            len: piece.len,
            id: self.id,
            flags: flags.0 + available.0,
        }
    }
}

/// The descriptor of a piece in a table.
fn describe_in_table(piece: Piece) -> PackedDescriptor
    ensures { result ≡ table_descriptor piece }
{
    PackedDescriptor {
        addr: piece.addr,
        len: piece.len,
        id: 0,
        flags: DescriptorFlags::of(false, piece.write).0,
    }
}

/// Adds the table of pieces of these lengths.
pub(crate) fn add_table(table: &mut TableBytes, pieces: Pieces, lengths: &[u16])
    requires empty { table.old.items ≡ [] }
    requires few { length lengths.now ≤ MOST_PIECES }
    requires fits { pieces.addr + sum lengths.now < 2 ^ 64 }
    ensures bytes { table.new.items ≡ packed_table_bytes (pieces_from pieces.addr pieces.readable lengths.now) }
    ensures long { length table.new.items ≡ 16 * length lengths.now }
{
    let mut pieces = pieces;
    'pieces: for len in lengths {
        let descriptor = describe_in_table(pieces.next_piece(*len));
        let _fits = table.try_extend_from_slice(&descriptor.to_bytes());
    }
}
