//! Descriptors of a split ring (VIRTIO 1.2, 2.7.5).

ghost use Rattle.std.specs.Prelude.{⊤, ◌≡◌, ◌+◌, ◌*◌, ◌≤◌, [], ◌∷◌, ◌++◌, Option, Some, None, IfSome, IsSome, ◌↔◌, codes, length};
ghost use Rattle.byteorder.specs.Endian.{little_bytes};
ghost use Rattle.guest_mem.specs.Memory.{part};
ghost use Rattle.vq_common.specs.Descriptor.{descriptor_at, descriptor_bytes, flags_of, has_next, is_write, is_indirect, piece_of};

use crate::area::bytes_at;
use crate::chain::Piece;
use crate::rules::is_inside;
use bitflags::{Flag, Flags, bitflag_items};
use byteorder::{ByteOrder, LittleEndian};
use guest_mem::GuestMem;

/// A descriptor: `len` bytes of guest memory from `addr` on, its flags, and the location of the next descriptor of its
/// chain (VIRTIO 1.2, 2.7.5).
#[derive(Clone, Copy, Debug, Default, PartialEq, Eq)]
pub struct Descriptor {
    pub addr: u64,
    pub len: u32,
    pub flags: u16,
    pub next: u16,
}

/// The flags of a descriptor (VIRTIO 1.2, 2.7.5).
#[derive(Clone, Copy, Debug, PartialEq, Eq)]
pub struct DescriptorFlags(pub u16);

bitflag_items! {
    impl DescriptorFlags: u16 {
        const NEXT = 1;
        const WRITE = 2;
        const INDIRECT = 4;
    }
}

impl Flags for DescriptorFlags {
    type Bits = u16;

    ghost exact = { ⊤ };

    ghost table = { (codes "NEXT", 1) ∷ (codes "WRITE", 2) ∷ (codes "INDIRECT", 4) ∷ [] };

    ghost set_of = { λ p. p.0 };

    fn flags<'a>() -> &'a [Flag<DescriptorFlags>] {
        DescriptorFlags::FLAGS
    }

    fn bits(&self) -> u16 {
        self.0
    }

    fn from_bits_retain(bits: u16) -> DescriptorFlags {
        DescriptorFlags(bits)
    }
}

impl DescriptorFlags {
    /// The flags that a driver gives a descriptor: NEXT where another one follows, and WRITE where the device writes.
    pub fn of(follows: bool, write: bool) -> DescriptorFlags
        ensures { result.0 ≡ flags_of follows write }
    {
        let next = if follows { DescriptorFlags::NEXT.0 } else { 0 };
        let write = if write { DescriptorFlags::WRITE.0 } else { 0 };
        DescriptorFlags(next | write)
    }
}

/// The 16 bytes of a location of a table. None exactly where they are not inside memory.
pub fn location_bytes(mem: &GuestMem, table: u64, location: u16) -> Option<[u8; 16]>
    ensures inside { IsSome result ↔ (table + 16 * location + 16 ≤ length mem.now.bytes) }
    ensures value { IfSome result (λ bytes. bytes ≡ part mem.now.bytes (table + 16 * location) 16) }
{
    let offset = 16 * location as u64;
    if is_inside(mem.len(), table, offset + 16) {
        Some(bytes_at(mem, table, offset))
    } else {
        None
    }
}

/// The number whose eight bytes, the lowest first, are those of a number of 32 bits and then of two of 16.
#[tactic(auto, using(crate::proofs::DescriptorLaws::half_bytes))]
#[inline]
pub fn half(len: u32, first: u16, second: u16) -> u64
    ensures { little_bytes 8 result ≡ little_bytes 4 len ++ (little_bytes 2 first ++ little_bytes 2 second) }
{
    u64::from(len) + 0x1_0000_0000 * (u64::from(first) + 0x1_0000 * u64::from(second))
}

impl Descriptor {
    /// The descriptor at a location of a table. None exactly where its 16 bytes are not inside memory.
    pub fn read(mem: &GuestMem, table: u64, location: u16) -> Option<Descriptor>
        ensures inside { IsSome result ↔ (table + 16 * location + 16 ≤ length mem.now.bytes) }
        ensures value { IfSome result (λ d. d ≡ descriptor_at mem.now.bytes table location) }
    {
        let bytes = location_bytes(mem, table, location)?;
        Some(Descriptor {
            addr: LittleEndian::read_u64(&bytes),
            len: LittleEndian::read_u32(&bytes[8..]),
            flags: LittleEndian::read_u16(&bytes[12..]),
            next: LittleEndian::read_u16(&bytes[14..]),
        })
    }

    /// The 16 bytes of the descriptor.
    pub fn to_bytes(self) -> [u8; 16]
        ensures { result ≡ descriptor_bytes self }
    {
        let mut bytes = [0u8; 16];
        LittleEndian::write_u64(&mut bytes, self.addr);
        LittleEndian::write_u64(&mut bytes[8..], half(self.len, self.flags, self.next));
        bytes
    }

    /// Whether the chain goes on at `next`.
    pub fn has_next(self) -> bool
        ensures { result ≡ has_next self.flags }
    {
        DescriptorFlags(self.flags).contains(DescriptorFlags::NEXT)
    }

    /// Whether the device writes here.
    pub fn is_write(self) -> bool
        ensures { result ≡ is_write self.flags }
    {
        DescriptorFlags(self.flags).contains(DescriptorFlags::WRITE)
    }

    /// Whether the descriptor names a table of descriptors.
    pub fn is_indirect(self) -> bool
        ensures { result ≡ is_indirect self.flags }
    {
        DescriptorFlags(self.flags).contains(DescriptorFlags::INDIRECT)
    }

    /// The piece that the descriptor names.
    pub fn piece(self) -> Piece
        ensures { result ≡ piece_of self }
    {
        Piece {
            addr: self.addr,
            len: self.len,
            write: self.is_write(),
        }
    }
}
