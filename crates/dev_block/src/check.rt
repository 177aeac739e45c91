//! The checks on a request, in their order (our own, but for what VIRTIO 1.2, 5.2.6 asks for).

ghost use Rattle.std.specs.Prelude.{◌≡◌, ◌+◌, ◌≤◌, ◌/◌, ◌-◌, length, IsTrue, nat_le};
ghost use Rattle.std.specs.List.{list_all};
ghost use Rattle.vq_common.specs.Piece.{keeps_rules, readable};
ghost use Rattle.dev_block.specs.declared.request.Segment.{Segment};
ghost use Rattle.dev_block.specs.Check.{LONGEST_SEGMENT, is_below, is_in_range, are_in_range, are_segments, has_flags, is_long, checked, checked_read, checked_write, checked_segments, with_segments, checked_type, task_in};

use crate::request::{HEADER_SIZE, Header, Refusal, RequestType, SEGMENT_SIZE, Segment};
use arrayvec::ArrayVec;
use guest_mem::GuestMem;
use vq_common::Chain;
use vt_types::Features;

/// How many bytes a sector has.
pub(crate) const SECTOR_SIZE: u32 = 512;

/// The most sectors that a segment may have (the two limits of VIRTIO 1.2, 5.2.4).
const LONGEST_SEGMENT: u32 = 2048;

/// The most segments of a request (our own).
pub(crate) const MOST_SEGMENTS: usize = 8;

/// The flag that a segment of write zeroes may have: its sectors may be unmapped.
const VIRTIO_BLK_WRITE_ZEROES_FLAG_UNMAP: u32 = 1;

/// What a request that passed the checks asks for.
#[derive(Drop)]
pub(crate) enum Task {
    /// `count` sectors from `sector` on are read.
    Read { sector: u64, count: u32 },
    /// They are written, with the readable bytes behind the header.
    Write { sector: u64, count: u32 },
    /// The disk is flushed.
    Flush,
    /// The device's id is read.
    Identify,
    /// The sectors of the segments are filled with zeros.
    Clear(ArrayVec<Segment, MOST_SEGMENTS>),
}

/// What the device knows when it checks a request: its capacity in sectors, the accepted features, how many sectors the
/// disk has and whether it is read-only.
#[derive(Clone, Copy)]
pub(crate) struct Limits {
    pub(crate) capacity: u64,
    pub(crate) accepted: Features,
    pub(crate) sectors: u64,
    pub(crate) read_only: bool,
}

/// Whether `count` sectors from `sector` on lie below an end. No sectors do.
fn is_below(sector: u64, count: u32, end: u64) -> bool
    ensures { result ≡ is_below sector count end }
{
    let count = count as u64;
    count == 0 || (count <= end && sector <= end - count)
}

/// Whether a segment has flags beyond those that are allowed.
fn has_flags(allowed: u32, segments: &[Segment]) -> bool
    ensures { result ≡ has_flags allowed segments.now }
{
    segments.iter().any(|segment| segment.flags > allowed)
}

/// Whether a segment has more sectors than it may.
fn is_long(segments: &[Segment]) -> bool
    ensures { result ≡ is_long segments.now }
{
    segments
        .iter()
        .any(|segment| segment.count > LONGEST_SEGMENT)
}

/// Whether so many bytes are 1 to `MOST_SEGMENTS` segments.
fn are_segments(size: u32) -> bool
    ensures { result ≡ are_segments size }
{
    size % SEGMENT_SIZE == 0
        && size / SEGMENT_SIZE >= 1
        && size / SEGMENT_SIZE <= MOST_SEGMENTS as u32
}

impl Limits {
    /// Whether `count` sectors from `sector` on lie below the capacity and the disk's own end.
    fn is_in_range(&self, sector: u64, count: u32) -> bool
        ensures { result ≡ is_in_range self.now sector count }
    {
        is_below(sector, count, self.capacity) && is_below(sector, count, self.sectors)
    }

    /// Whether the sectors of all segments do.
    fn are_in_range(&self, segments: &[Segment]) -> bool
        ensures { result ≡ are_in_range self.now segments.now }
    {
        segments
            .iter()
            .all(|segment| self.is_in_range(segment.sector, segment.count))
    }

    /// The checks on a request that reads into so much room for data.
    fn checked_read(&self, sector: u64, space: u32) -> Result<Task, Refusal>
        ensures { task_in result ≡ checked_read self.now sector space }
    {
        let count = space / SECTOR_SIZE;
        if space % SECTOR_SIZE == 0 && self.is_in_range(sector, count) {
            Ok(Task::Read { sector, count })
        } else {
            Err(Refusal::IoErr)
        }
    }

    /// The checks on a request that writes so many bytes.
    fn checked_write(&self, sector: u64, size: u32) -> Result<Task, Refusal>
        ensures { task_in result ≡ checked_write self.now sector size }
    {
        let count = size / SECTOR_SIZE;
        if size % SECTOR_SIZE == 0 && self.is_in_range(sector, count) {
            Ok(Task::Write { sector, count })
        } else {
            Err(Refusal::IoErr)
        }
    }

    /// The checks on segments, each on all of them before the next: flags, numbers of sectors, ranges.
    fn checked_segments(
        &self,
        allowed: u32,
        segments: ArrayVec<Segment, MOST_SEGMENTS>,
    ) -> Result<Task, Refusal>
        ensures { task_in result ≡ checked_segments self.now allowed segments.items }
    {
        if has_flags(allowed, segments.as_slice()) {
            return Err(Refusal::Unsupp);
        }
        if is_long(segments.as_slice()) || !self.are_in_range(segments.as_slice()) {
            return Err(Refusal::IoErr);
        }
        Ok(Task::Clear(segments))
    }

    /// The checks on a request with segments, of which so many bytes are there.
    fn with_segments(
        &self,
        mem: &GuestMem,
        chain: &Chain,
        allowed: u32,
        size: u32,
    ) -> Result<Task, Refusal>
        requires rules { IsTrue (keeps_rules (length mem.now.bytes) chain.now.pieces.items) }
        requires long { length (readable mem.now.bytes chain.now.pieces.items) ≡ HEADER_SIZE + size }
        ensures { task_in result ≡ with_segments self.now allowed (readable mem.now.bytes chain.now.pieces.items) }
    {
        if !are_segments(size) {
            return Err(Refusal::IoErr);
        }
        self.checked_segments(allowed, Segment::read_all(mem, chain, size / SEGMENT_SIZE))
    }

    /// The checks of a type: `size` bytes are readable behind the header, and there is room for `space` bytes of data.
    fn checked_type(
        &self,
        mem: &GuestMem,
        chain: &Chain,
        kind: RequestType,
        sector: u64,
        size: u32,
        space: u32,
    ) -> Result<Task, Refusal>
        requires rules { IsTrue (keeps_rules (length mem.now.bytes) chain.now.pieces.items) }
        requires long { length (readable mem.now.bytes chain.now.pieces.items) ≡ HEADER_SIZE + size }
        ensures { task_in result ≡ checked_type kind self.now sector (readable mem.now.bytes chain.now.pieces.items) space }
    {
        match kind {
            RequestType::In => self.checked_read(sector, space),
            RequestType::Out => self.checked_write(sector, size),
            RequestType::Flush => Ok(Task::Flush),
            RequestType::GetId if space < 20 => Err(Refusal::IoErr),
            RequestType::GetId => Ok(Task::Identify),
            RequestType::Discard => self.with_segments(mem, chain, 0, size),
            RequestType::WriteZeroes => self.with_segments(
                mem,
                chain,
                VIRTIO_BLK_WRITE_ZEROES_FLAG_UNMAP,
                size,
            ),
        }
    }

    /// The checks on a request of `size` readable bytes, in their order.
    fn checked_request(
        &self,
        mem: &GuestMem,
        chain: &Chain,
        size: u32,
        space: u32,
    ) -> Result<Task, Refusal>
        requires rules { IsTrue (keeps_rules (length mem.now.bytes) chain.now.pieces.items) }
        requires size { size ≡ length (readable mem.now.bytes chain.now.pieces.items) }
        ensures { task_in result ≡ checked self.now (readable mem.now.bytes chain.now.pieces.items) space }
    {
        if size < HEADER_SIZE {
            return Err(Refusal::IoErr);
        }
        let header = Header::read(mem, chain);
        match RequestType::from_number(header.kind) {
            Some(kind) => {
                if !kind.is_supported(self.accepted) {
                    return Err(Refusal::Unsupp);
                }
                if kind.is_change() && self.read_only {
                    return Err(Refusal::IoErr);
                }
                self.checked_type(mem, chain, kind, header.sector, size - HEADER_SIZE, space)
            }
            None => Err(Refusal::Unsupp),
        }
    }

    /// The checks on a request, in their order, with room for `space` bytes of data before the status.
    pub(crate) fn checked(&self, mem: &GuestMem, chain: &Chain, space: u32) -> Result<Task, Refusal>
        requires rules { IsTrue (keeps_rules (length mem.now.bytes) chain.now.pieces.items) }
        ensures { task_in result ≡ checked self.now (readable mem.now.bytes chain.now.pieces.items) space }
    {
        self.checked_request(mem, chain, chain.readable_len(), space)
    }
}
