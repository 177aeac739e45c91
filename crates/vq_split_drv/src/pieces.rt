//! The descriptors of a buffer's pieces (VIRTIO 1.2, 2.7.5).

ghost use Rattle.std.specs.Prelude.{◌≡◌, ◌+◌, ◌-◌, ◌*◌, ◌<◌, ◌≤◌, ◌^◌, [], length, sum};
ghost use Rattle.vt_types.specs.Limits.{MOST_PIECES};
ghost use Rattle.vq_posted.specs.Free.{numbers};
ghost use Rattle.vq_split_drv.specs.Post.{descriptor_of, descriptors_of, location_after, table_bytes};

use vq_common::{Descriptor, DescriptorFlags, Pieces, TableBytes};

/// The descriptor of the first of these pieces, which has `len` bytes. Where another descriptor follows, it is at `next`.
pub(crate) fn describe(pieces: &mut Pieces, len: u16, next: Option<u16>) -> Descriptor
    requires { pieces.old.addr + len < 2 ^ 64 }
    ensures descriptor { result ≡ descriptor_of pieces.old.addr pieces.old.readable len next }
    ensures addr { pieces.new.addr ≡ pieces.old.addr + len }
    ensures readable { pieces.new.readable ≡ pieces.old.readable - 1 }
{
    let piece = pieces.next_piece(len);
    let flags = DescriptorFlags::of(next.is_some(), piece.write);
    Descriptor {
        addr: piece.addr,
        len: piece.len,
        flags: flags.0,
        next: next.unwrap_or(0),
    }
}

/// The location that follows location `i` in a table of `count` locations.
fn next_location(i: usize, count: usize) -> Option<u16>
    requires inside { i < count }
    requires few { count ≤ MOST_PIECES }
    ensures { result ≡ location_after i count }
{
    if i + 1 < count {
        Some(i as u16 + 1)
    } else {
        None
    }
}

/// Adds a table of the pieces' descriptors, each of which but the last names the location that follows.
pub(crate) fn add_table(table: &mut TableBytes, pieces: Pieces, lengths: &[u16])
    requires empty { table.old.items ≡ [] }
    requires few { length lengths.now ≤ MOST_PIECES }
    requires fits { pieces.addr + sum lengths.now < 2 ^ 64 }
    ensures bytes { table.new.items ≡ table_bytes (descriptors_of pieces.addr pieces.readable lengths.now (numbers 1 (length lengths.now))) }
    ensures long { length table.new.items ≡ 16 * length lengths.now }
{
    let mut pieces = pieces;
    'pieces: for (i, len) in lengths.iter().enumerate() {
        let descriptor = describe(&mut pieces, *len, next_location(i, lengths.len()));
        let _fits = table.try_extend_from_slice(&descriptor.to_bytes());
    }
}
