//! What a request does on the disk, sector by sector. The first call that fails ends it, and what was done stays.

ghost use Rattle.std.specs.Prelude.{◌≡◌, ◌+◌, ◌*◌, ◌<◌, ◌≤◌, drop, length, IsTrue, All, is_ok};
ghost use Rattle.vt_types.specs.Limits.{MOST_SECTORS};
ghost use Rattle.vq_common.specs.Piece.{keeps_rules, readable};
ghost use Rattle.vq_common.specs.Partial.{HasPages, MakesPagesOf};
ghost use Rattle.dev_block.specs.declared.request.Segment.{Segment};
ghost use Rattle.dev_block.specs.Sectors.{AreThere, write_sectors, clear_sectors, clear_segments, flush_by, zero_sector, write_through, clear_through};
ghost use Rattle.dev_block.specs.Calls.{Calls, ReadsOver};

use crate::check::SECTOR_SIZE;
use crate::request::{HEADER_SIZE, Segment};
use guest_mem::GuestMem;
use vq_common::Chain;
use vt_outside::{Disk, Failed, Tripped};

/// A sector of zeros.
#[tactic(auto, unfolding(crate::specs::Sectors::zero_sector))]
pub(crate) fn zero_sector() -> [u8; 512]
    ensures { result ≡ zero_sector }
{
    [0; 512]
}

/// Reads sectors into the first writable bytes of a chain, one by one.
pub(crate) fn read_sectors<D: Disk>(
    mem: &mut GuestMem,
    chain: &Chain,
    sector: u64,
    count: u32,
    disk: &mut Tripped<D>,
) -> Result<(), Failed>
    requires rules { IsTrue (keeps_rules (length mem.old.bytes) chain.now.pieces.items) }
    requires pages { HasPages chain.now.pieces.items mem.old }
    requires few { count ≤ 16 }
    requires range { AreThere disk.old.disk.count sector count }
    requires bound { disk.old.disk.count ≤ MOST_SECTORS }
    ensures reads { ReadsOver sector count chain.now.pieces.items mem.old.bytes mem.new.bytes disk.old disk.new result }
    ensures length { length mem.new.bytes ≡ length mem.old.bytes }
    ensures pages { MakesPagesOf chain.now.pieces.items mem.old mem.new }
{
    let mut bytes = [0u8; 512];
    'sectors: for i in 0..count {
        disk.read_sector(sector + i as u64, &mut bytes)?;
        chain.write_at(mem, SECTOR_SIZE * i, &bytes);
    }
    Ok(())
}

/// Writes sectors, one by one, with the readable bytes behind the header.
fn write_sectors<D: Disk>(
    mem: &GuestMem,
    chain: &Chain,
    sector: u64,
    count: u32,
    disk: &mut Tripped<D>,
) -> Result<(), Failed>
    requires rules { IsTrue (keeps_rules (length mem.now.bytes) chain.now.pieces.items) }
    requires long { HEADER_SIZE + SECTOR_SIZE * count ≤ length (readable mem.now.bytes chain.now.pieces.items) }
    requires range { AreThere disk.old.disk.count sector count }
    requires bound { disk.old.disk.count ≤ MOST_SECTORS }
    ensures { Calls (write_sectors count sector (drop 16 (readable mem.now.bytes chain.now.pieces.items))) disk.old (is_ok result) disk.new (is_ok result) }
{
    let mut bytes = [0u8; 512];
    'sectors: for i in 0..count {
        chain.read_at(mem, HEADER_SIZE + SECTOR_SIZE * i, &mut bytes);
        disk.write_sector(sector + i as u64, &bytes)?;
    }
    Ok(())
}

/// Fills sectors with zeros, one by one.
fn clear_sectors<D: Disk>(sector: u64, count: u32, disk: &mut Tripped<D>) -> Result<(), Failed>
    requires range { AreThere disk.old.disk.count sector count }
    requires bound { disk.old.disk.count ≤ MOST_SECTORS }
    ensures { Calls (clear_sectors count sector) disk.old (is_ok result) disk.new (is_ok result) }
{
    let zeros = zero_sector();
    'sectors: for i in 0..count {
        disk.write_sector(sector + i as u64, &zeros)?;
    }
    Ok(())
}

/// Fills the sectors of segments with zeros, in the order of the segments.
fn clear_segments<D: Disk>(segments: &[Segment], disk: &mut Tripped<D>) -> Result<(), Failed>
    requires range { All (λ (s : Segment). AreThere disk.old.disk.count s.sector s.count) segments.now }
    requires bound { disk.old.disk.count ≤ MOST_SECTORS }
    ensures { Calls (clear_segments segments.now) disk.old (is_ok result) disk.new (is_ok result) }
{
    'segments: for segment in segments {
        clear_sectors(segment.sector, segment.count, disk)?;
    }
    Ok(())
}

/// Flushes the disk where the cache is write-through.
fn flush_by<D: Disk>(mode: u8, disk: &mut Tripped<D>) -> Result<(), Failed>
    ensures { Calls (flush_by mode) disk.old (is_ok result) disk.new (is_ok result) }
{
    if mode == 0 { disk.flush() } else { Ok(()) }
}

/// Writes sectors with the readable bytes behind the header, and flushes them where the cache is write-through.
pub(crate) fn write_through<D: Disk>(
    mem: &GuestMem,
    chain: &Chain,
    sector: u64,
    count: u32,
    mode: u8,
    disk: &mut Tripped<D>,
) -> Result<(), Failed>
    requires rules { IsTrue (keeps_rules (length mem.now.bytes) chain.now.pieces.items) }
    requires long { HEADER_SIZE + SECTOR_SIZE * count ≤ length (readable mem.now.bytes chain.now.pieces.items) }
    requires range { AreThere disk.old.disk.count sector count }
    requires bound { disk.old.disk.count ≤ MOST_SECTORS }
    ensures { Calls (write_through count sector (drop 16 (readable mem.now.bytes chain.now.pieces.items)) mode) disk.old (is_ok result) disk.new (is_ok result) }
{
    write_sectors(mem, chain, sector, count, disk)?;
    flush_by(mode, disk)
}

/// Fills the sectors of segments with zeros, and flushes them where the cache is write-through.
pub(crate) fn clear_through<D: Disk>(
    segments: &[Segment],
    mode: u8,
    disk: &mut Tripped<D>,
) -> Result<(), Failed>
    requires range { All (λ (s : Segment). AreThere disk.old.disk.count s.sector s.count) segments.now }
    requires bound { disk.old.disk.count ≤ MOST_SECTORS }
    ensures { Calls (clear_through segments.now mode) disk.old (is_ok result) disk.new (is_ok result) }
{
    clear_segments(segments, disk)?;
    flush_by(mode, disk)
}
