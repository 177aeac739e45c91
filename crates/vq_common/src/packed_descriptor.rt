//! Descriptors of a packed ring (VIRTIO 1.2, 2.8.13).

ghost use Rattle.std.specs.Prelude.{⊤, ◌≡◌, ◌+◌, ◌*◌, ◌≤◌, [], ◌∷◌, IfSome, IsSome, ◌↔◌, codes, length};
ghost use Rattle.vq_common.specs.Descriptor.{has_next, is_indirect};
ghost use Rattle.vq_common.specs.PackedDescriptor.{available_flags, packed_descriptor_at, packed_descriptor_bytes, packed_descriptor_in, is_available, is_used, packed_piece_of};

use crate::chain::Piece;
use crate::descriptor::{half, location_bytes};
use bitflags::{Flag, Flags, bitflag_items};
use byteorder::{ByteOrder, LittleEndian};
use guest_mem::GuestMem;

/// A descriptor: `len` bytes of guest memory from `addr` on, the id of its buffer, and its flags (VIRTIO 1.2, 2.8.13).
#[derive(Clone, Copy, Debug, Default, PartialEq, Eq)]
pub struct PackedDescriptor {
    pub addr: u64,
    pub len: u32,
    pub id: u16,
    pub flags: u16,
}

/// The flags of a packed descriptor (VIRTIO 1.2, 2.8.13).
#[derive(Clone, Copy, Debug, PartialEq, Eq)]
pub struct PackedFlags(pub u16);

bitflag_items! {
    impl PackedFlags: u16 {
        const NEXT = 1;
        const WRITE = 2;
        const INDIRECT = 4;
        const AVAIL = 0x80;
        const USED = 0x8000;
    }
}

impl Flags for PackedFlags {
    type Bits = u16;

    ghost exact = { ⊤ };

    ghost table = { (codes "NEXT", 1) ∷ (codes "WRITE", 2) ∷ (codes "INDIRECT", 4) ∷ (codes "AVAIL", 0x80) ∷ (codes "USED", 0x8000) ∷ [] };

    ghost set_of = { λ p. p.0 };

    fn flags<'a>() -> &'a [Flag<PackedFlags>] {
        PackedFlags::FLAGS
    }

    fn bits(&self) -> u16 {
        self.0
    }

    fn from_bits_retain(bits: u16) -> PackedFlags {
        PackedFlags(bits)
    }
}

impl PackedFlags {
    /// The flags by which a driver with this wrap counter makes a descriptor available: AVAIL equals it, and USED differs
    /// (VIRTIO 1.2, 2.8.1).
    pub fn available(wrap: bool) -> PackedFlags
        ensures { result.0 ≡ available_flags wrap }
    {
        if wrap {
            PackedFlags::AVAIL
        } else {
            PackedFlags::USED
        }
    }
}

impl PackedDescriptor {
    /// The descriptor in 16 bytes.
    pub fn from_bytes(bytes: &[u8]) -> PackedDescriptor
        requires { 16 ≤ length bytes.now }
        ensures { result ≡ packed_descriptor_in bytes.now }
    {
        PackedDescriptor {
            addr: LittleEndian::read_u64(bytes),
            len: LittleEndian::read_u32(&bytes[8..]),
            id: LittleEndian::read_u16(&bytes[12..]),
            flags: LittleEndian::read_u16(&bytes[14..]),
        }
    }

    /// The 16 bytes of the descriptor.
    pub fn to_bytes(self) -> [u8; 16]
        ensures { result ≡ packed_descriptor_bytes self }
    {
        let mut bytes = [0u8; 16];
        LittleEndian::write_u64(&mut bytes, self.addr);
        LittleEndian::write_u64(&mut bytes[8..], half(self.len, self.id, self.flags));
        bytes
    }

    /// The descriptor at a location of a ring. None exactly where its 16 bytes are not inside memory.
    pub fn read(mem: &GuestMem, table: u64, location: u16) -> Option<PackedDescriptor>
        ensures inside { IsSome result ↔ (table + 16 * location + 16 ≤ length mem.now.bytes) }
        ensures value { IfSome result (λ d. d ≡ packed_descriptor_at mem.now.bytes table location) }
    {
        let bytes = location_bytes(mem, table, location)?;
        Some(PackedDescriptor::from_bytes(&bytes))
    }

    /// Whether the descriptor is available to a device with this wrap counter (VIRTIO 1.2, 2.8.1).
    pub fn is_available(self, wrap: bool) -> bool
        ensures { result ≡ is_available wrap self.flags }
    {
        let flags = PackedFlags(self.flags);
        flags.contains(PackedFlags::AVAIL) == wrap && flags.contains(PackedFlags::USED) != wrap
    }

    /// Whether the descriptor is used for a driver with this wrap counter (VIRTIO 1.2, 2.8.1).
    pub fn is_used(self, wrap: bool) -> bool
        ensures { result ≡ is_used wrap self.flags }
    {
        let flags = PackedFlags(self.flags);
        flags.contains(PackedFlags::AVAIL) == wrap && flags.contains(PackedFlags::USED) == wrap
    }

    /// Whether the chain goes on at the next location.
    pub fn has_next(self) -> bool
        ensures { result ≡ has_next self.flags }
    {
        PackedFlags(self.flags).contains(PackedFlags::NEXT)
    }

    /// Whether the descriptor names a table of descriptors.
    pub fn is_indirect(self) -> bool
        ensures { result ≡ is_indirect self.flags }
    {
        PackedFlags(self.flags).contains(PackedFlags::INDIRECT)
    }

    /// The piece that the descriptor names.
    pub fn piece(self) -> Piece
        ensures { result ≡ packed_piece_of self }
    {
        Piece {
            addr: self.addr,
            len: self.len,
            write: PackedFlags(self.flags).contains(PackedFlags::WRITE),
        }
    }
}
