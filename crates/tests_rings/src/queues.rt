ghost use Rattle.std.specs.Prelude.{◌≤◌, length};

use arrayvec::ArrayVec;
use guest_mem::{GuestMem, Memory};
use std::alloc::Global;
use std::process::Abort;
use std::test::Fail;
use vq_common::{Chain, Descriptor, PackedDescriptor, Piece, are_pieces_valid, indirect_chain};
use vt_types::Room;

const TABLE: u64 = 0x100;

const fn descriptor(addr: u64, len: u32, flags: u16, next: u16) -> Descriptor {
    Descriptor {
        addr,
        len,
        flags,
        next,
    }
}

const fn readable(addr: u64, len: u32) -> Piece {
    Piece {
        addr,
        len,
        write: false,
    }
}

const fn writable(addr: u64, len: u32) -> Piece {
    Piece {
        addr,
        len,
        write: true,
    }
}

fn memory_with(alloc: Global, table: &[Descriptor]) -> Result<GuestMem, Memory>
    requires { length table.now ≤ 9 }
{
    let mut mem = GuestMem::new(alloc, 4096)?;
    for (location, descriptor) in table.iter().enumerate() {
        mem.reserve(alloc, 2)?;
        let _ = mem.write(TABLE + 16 * location as u64, &descriptor.to_bytes());
    }
    Ok(mem)
}

/// A table, where it lies, the size of the queue, and its pieces on a split and on a packed ring: none where it is malformed.
type Row<'a> = (&'a [Descriptor], u64, u32, u16, &'a [Piece], &'a [Piece]);

fn try_table(rt: &impl Abort, alloc: Global, row: Row) -> Result<(), Fail> {
    let (table, addr, len, size, split, packed) = row;
    assert!(rt; table.len() <= 9);
    let mem = memory_with(alloc, table)?;
    for (is_split, want) in [(true, split), (false, packed)] {
        match indirect_chain(&mem, addr, len, size, is_split) {
            Some(pieces) => assert_eq!(rt; pieces.as_slice(), want, "{len} at {addr}, {is_split}"),
            None => assert!(rt; want.is_empty(), "{len} at {addr}, {is_split}"),
        }
    }
    Ok(())
}

#[test]
fn indirect_tables(rt: HostRuntime) -> Result<(), Fail> {
    let first = descriptor(0x800, 4, 1, 1);
    let two = [first, descriptor(0x900, 8, 2, 2)];
    let nested = [first, descriptor(0x900, 16, 4, 2)];
    let looping = [first, descriptor(0x900, 8, 3, 0)];
    let nine = [descriptor(0x800, 4, 0, 0); 9];
    let pieces = [readable(0x800, 4), writable(0x900, 8)];
    let all: [Row; 11] = [
        (&two, TABLE, 32, 2, &pieces, &pieces),
        (&two, TABLE, 0, 2, &[], &[]),
        (&two, TABLE, 17, 2, &[], &[]),
        (&two, TABLE, 32, 1, &[], &[]),
        (&two, 4081, 16, 8, &[], &[]),
        (&two, u64::MAX - 15, 16, 8, &[], &[]),
        (
            &nine,
            TABLE,
            128,
            16,
            &[readable(0x800, 4)],
            &[readable(0x800, 4); 8],
        ),
        (&nine, TABLE, 144, 16, &[], &[]),
        (
            &looping,
            TABLE,
            32,
            2,
            &[],
            &[readable(0x800, 4), readable(0x900, 8)],
        ),
        (
            &[first, descriptor(0x900, 8, 3, 2)],
            TABLE,
            32,
            2,
            &[],
            &pieces,
        ),
        (
            &nested,
            TABLE,
            32,
            2,
            &[],
            &[readable(0x800, 4), writable(0x900, 16)],
        ),
    ];
    for row in all {
        try_table(&rt, rt.alloc(), row)?;
    }
    Ok(())
}

#[test]
fn chains_read_and_write(rt: HostRuntime) -> Result<(), Fail> {
    let mut mem = GuestMem::new(rt.alloc(), 64)?;
    mem.reserve(rt.alloc(), 17)?;
    assert_eq!(rt; mem.write(0, b"abcdef"), Ok(()));
    let mut pieces = ArrayVec::new();
    pieces.push(readable(4, 2));
    pieces.push(readable(0, 1));
    pieces.push(writable(16, 3));
    pieces.push(writable(32, 5));
    let chain = Chain {
        id: 7,
        slots: 4,
        pieces,
    };
    assert!(rt; are_pieces_valid(mem.len(), chain.pieces.as_slice()));
    assert_eq!(rt; chain.readable_len(), 3);
    assert_eq!(rt; chain.room(), 8);
    let mut room = Room::new();
    chain.gather(&mem, &mut room);
    assert_eq!(rt; room.as_slice(), b"efa".as_slice());
    chain.scatter(&mut mem, b"123456");
    let mut bytes = [0u8; 24];
    assert_eq!(rt; mem.read(12, &mut bytes), Ok(()));
    assert_eq!(rt; &bytes, b"\0\0\0\0123\0\0\0\0\0\0\0\0\0\0\0\0\0456\0");
    Ok(())
}

#[test]
fn descriptors_read_back(rt: HostRuntime) -> Result<(), Fail> {
    let written = descriptor(0x0102_0304_0506_0708, 0x1112_1314, 5, 0x2122);
    let mem = memory_with(rt.alloc(), &[written, written])?;
    let read = Descriptor::read(&mem, TABLE, 1).ok_or("inside")?;
    assert_eq!(rt; read, written);
    assert!(rt; read.has_next() && read.is_indirect() && !read.is_write());
    assert_eq!(rt; read.piece(), readable(0x0102_0304_0506_0708, 0x1112_1314));
    assert_eq!(rt; Descriptor::read(&mem, 0, 256), None);
    assert_eq!(rt; Descriptor::read(&mem, u64::MAX, u16::MAX), None);

    let packed = PackedDescriptor::read(&mem, TABLE, 1).ok_or("inside")?;
    let want = PackedDescriptor {
        addr: 0x0102_0304_0506_0708,
        len: 0x1112_1314,
        id: 5,
        flags: 0x2122,
    };
    assert_eq!(rt; packed, want);
    assert_eq!(rt; packed.to_bytes(), written.to_bytes());
    assert_eq!(rt;
        packed.piece(),
        writable(0x0102_0304_0506_0708, 0x1112_1314)
    );
    assert_eq!(rt; PackedDescriptor::read(&mem, 16, 255), None);
    Ok(())
}
