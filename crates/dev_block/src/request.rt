//! A request as the driver lays it out (VIRTIO 1.2, 5.2.6).

ghost use Rattle.std.specs.Prelude.{◌≡◌, ◌+◌, ◌*◌, ◌≤◌, length, IsTrue};
ghost use Rattle.guest_mem.specs.Memory.{part};
ghost use Rattle.vq_common.specs.Piece.{keeps_rules, readable};
ghost use Rattle.dev_block.specs.Request.{header_of, type_of, is_supported, is_change, segment_in, segments_at};
ghost use Rattle.dev_block.specs.Answer.{refusal_status};

use crate::check::MOST_SEGMENTS;
use arrayvec::ArrayVec;
use bitflags::Flags;
use byteorder::{ByteOrder, LittleEndian};
use guest_mem::GuestMem;
use vq_common::Chain;
use vt_types::Features;

/// How many bytes the header of a request has.
pub(crate) const HEADER_SIZE: u32 = 16;

/// How many bytes a segment of a request has.
pub(crate) const SEGMENT_SIZE: u32 = 16;

/// The types of a request.
const VIRTIO_BLK_T_IN: u32 = 0;

const VIRTIO_BLK_T_OUT: u32 = 1;

const VIRTIO_BLK_T_FLUSH: u32 = 4;

const VIRTIO_BLK_T_GET_ID: u32 = 8;

const VIRTIO_BLK_T_DISCARD: u32 = 11;

const VIRTIO_BLK_T_WRITE_ZEROES: u32 = 13;

/// The header of a request: its type and its first sector. The reserved field between them is not looked at.
#[derive(Clone, Copy, Debug, PartialEq, Eq)]
pub(crate) struct Header {
    pub(crate) kind: u32,
    pub(crate) sector: u64,
}

/// The type of a request.
#[derive(Clone, Copy, Debug, PartialEq, Eq)]
pub(crate) enum RequestType {
    In,
    Out,
    Flush,
    GetId,
    Discard,
    WriteZeroes,
}

/// A segment of a discard or write zeroes request: `count` sectors from `sector` on, and its flags.
#[derive(Clone, Copy, Debug, Default, PartialEq, Eq)]
pub(crate) struct Segment {
    pub(crate) sector: u64,
    pub(crate) count: u32,
    pub(crate) flags: u32,
}

/// Why a request is not answered OK.
#[derive(Clone, Copy, Debug, PartialEq, Eq)]
pub(crate) enum Refusal {
    IoErr,
    Unsupp,
}

impl Header {
    /// The header in the first 16 readable bytes of a chain.
    pub(crate) fn read(mem: &GuestMem, chain: &Chain) -> Header
        requires rules { IsTrue (keeps_rules (length mem.now.bytes) chain.now.pieces.items) }
        requires long { HEADER_SIZE ≤ length (readable mem.now.bytes chain.now.pieces.items) }
        ensures { result ≡ header_of (readable mem.now.bytes chain.now.pieces.items) }
    {
        let mut bytes = [0u8; 16];
        chain.read_at(mem, 0, &mut bytes);
        Header {
            kind: LittleEndian::read_u32(&bytes),
            sector: LittleEndian::read_u64(&bytes[8..]),
        }
    }
}

impl RequestType {
    /// The type with a number. None exactly where there is none.
    pub(crate) fn from_number(number: u32) -> Option<RequestType>
        ensures { result ≡ type_of number }
    {
        match number {
            VIRTIO_BLK_T_IN => Some(RequestType::In),
            VIRTIO_BLK_T_OUT => Some(RequestType::Out),
            VIRTIO_BLK_T_FLUSH => Some(RequestType::Flush),
            VIRTIO_BLK_T_GET_ID => Some(RequestType::GetId),
            VIRTIO_BLK_T_DISCARD => Some(RequestType::Discard),
            VIRTIO_BLK_T_WRITE_ZEROES => Some(RequestType::WriteZeroes),
            _ => None,
        }
    }

    /// Whether the feature that the type wants was accepted.
    pub(crate) fn is_supported(self, accepted: Features) -> bool
        ensures { result ≡ is_supported self accepted.0 }
    {
        match self {
            RequestType::In | RequestType::Out | RequestType::GetId => true,
            RequestType::Flush => accepted.contains(Features::BLK_FLUSH),
            RequestType::Discard => accepted.contains(Features::BLK_DISCARD),
            RequestType::WriteZeroes => accepted.contains(Features::BLK_WRITE_ZEROES),
        }
    }

    /// Whether requests of the type change the disk.
    pub(crate) fn is_change(self) -> bool
        ensures { result ≡ is_change self }
    {
        match self {
            RequestType::In | RequestType::Flush | RequestType::GetId => false,
            RequestType::Out | RequestType::Discard | RequestType::WriteZeroes => true,
        }
    }
}

impl Segment {
    /// The segment in 16 readable bytes of a chain.
    fn read(mem: &GuestMem, chain: &Chain, offset: u32) -> Segment
        requires rules { IsTrue (keeps_rules (length mem.now.bytes) chain.now.pieces.items) }
        requires long { offset + SEGMENT_SIZE ≤ length (readable mem.now.bytes chain.now.pieces.items) }
        ensures { result ≡ segment_in (part (readable mem.now.bytes chain.now.pieces.items) offset 16) }
    {
        let mut bytes = [0u8; 16];
        chain.read_at(mem, offset, &mut bytes);
        Segment {
            sector: LittleEndian::read_u64(&bytes),
            count: LittleEndian::read_u32(&bytes[8..]),
            flags: LittleEndian::read_u32(&bytes[12..]),
        }
    }

    /// The segments behind the header, of which there are `count`.
    pub(crate) fn read_all(
        mem: &GuestMem,
        chain: &Chain,
        count: u32,
    ) -> ArrayVec<Segment, MOST_SEGMENTS>
        requires rules { IsTrue (keeps_rules (length mem.now.bytes) chain.now.pieces.items) }
        requires few { count ≤ MOST_SEGMENTS }
        requires long { HEADER_SIZE + SEGMENT_SIZE * count ≤ length (readable mem.now.bytes chain.now.pieces.items) }
        ensures { result.items ≡ segments_at count (readable mem.now.bytes chain.now.pieces.items) 16 }
    {
        let mut segments = ArrayVec::new();
        'segments: for i in 0..count {
            segments.push(Segment::read(mem, chain, HEADER_SIZE + SEGMENT_SIZE * i));
        }
        segments
    }
}

impl Refusal {
    /// The status byte.
    pub(crate) fn status(self) -> u8
        ensures { result ≡ refusal_status self }
    {
        match self {
            Refusal::IoErr => 1,
            Refusal::Unsupp => 2,
        }
    }
}
