//! What a block device does with a chain (VIRTIO 1.2, 5.2.6).

ghost use Rattle.std.specs.Prelude.{◌≡◌, ◌+◌, ◌-◌, ◌<◌, ◌≤◌, length, IsTrue};
ghost use Rattle.vt_types.specs.Limits.{MOST_SECTORS};
ghost use Rattle.vq_common.specs.Pages.{PAGES_OF_SCATTER};
ghost use Rattle.vq_common.specs.Piece.{keeps_rules, readable, room};
ghost use Rattle.vq_common.specs.Partial.{HasPages, MakesPagesOf};
ghost use Rattle.dev_block.specs.Request.{DEVICE_ID};
ghost use Rattle.dev_block.specs.Check.{task_of};
ghost use Rattle.dev_block.specs.Serve.{limits, with_size, Fits, CarriesOut, Ends, Serves};

use crate::check::{Limits, SECTOR_SIZE, Task};
use crate::fill::write_end;
use crate::request::Refusal;
use crate::sectors::{clear_through, read_sectors, write_through};
use crate::state::BlkState;
use guest_mem::GuestMem;
use vq_common::Chain;
use vt_outside::{Disk, Failed, Tripped};

/// The status of a request that was carried out.
const VIRTIO_BLK_S_OK: u8 = 0;

/// The id of the device.
fn device_id() -> [u8; 20]
    ensures { result ≡ DEVICE_ID }
{
    *b"VT-DISK-0\0\0\0\0\0\0\0\0\0\0\0"
}

/// What the device knows of a disk when it checks a request.
fn limits_of<D: Disk>(state: &BlkState, disk: &Tripped<D>) -> Limits
    ensures value { result ≡ limits state.now disk.now }
    ensures bound { disk.now.disk.count ≤ MOST_SECTORS }
{
    Limits {
        capacity: state.capacity,
        accepted: state.accepted,
        sectors: disk.sectors(),
        read_only: disk.read_only(),
    }
}

/// How many bytes of data a task wrote, where it did not fail.
fn with_size(done: Result<(), Failed>, size: u32) -> Result<u32, Failed>
    ensures { result ≡ with_size done size }
{
    match done {
        Ok(()) => Ok(size),
        Err(failed) => Err(failed),
    }
}

/// Carries out a task, and answers how many bytes of data were written.
fn carry_out<D: Disk>(
    mem: &mut GuestMem,
    chain: &Chain,
    task: &Task,
    mode: u8,
    disk: &mut Tripped<D>,
) -> Result<u32, Failed>
    requires rules { IsTrue (keeps_rules (length mem.old.bytes) chain.now.pieces.items) }
    requires pages { HasPages chain.now.pieces.items mem.old }
    requires fits { Fits (task_of task.now) (length (readable mem.old.bytes chain.now.pieces.items)) (room chain.now.pieces.items - 1) disk.old.disk.count }
    requires bound { disk.old.disk.count ≤ MOST_SECTORS }
    ensures carries { CarriesOut (task_of task.now) mode chain.now.pieces.items mem.old.bytes mem.new.bytes disk.old disk.new result }
    ensures length { length mem.new.bytes ≡ length mem.old.bytes }
    ensures pages { MakesPagesOf chain.now.pieces.items mem.old mem.new }
{
    match task {
        Task::Read { sector, count } => {
            let read = read_sectors(mem, chain, *sector, *count, disk);
            with_size(read, SECTOR_SIZE * *count)
        }
        Task::Write { sector, count } => {
            let wrote = write_through(mem, chain, *sector, *count, mode, disk);
            with_size(wrote, 0)
        }
        Task::Flush => with_size(disk.flush(), 0),
        Task::Identify => {
            let id = device_id();
            chain.write_at(mem, 0, &id);
            Ok(20)
        }
        Task::Clear(segments) => {
            let cleared = clear_through(segments.as_slice(), mode, disk);
            with_size(cleared, 0)
        }
    }
}

/// Checks a request and carries it out, and answers how many bytes of data were written, or why it is refused.
fn answer<D: Disk>(
    mem: &mut GuestMem,
    chain: &Chain,
    writable: u32,
    state: &BlkState,
    disk: &mut Tripped<D>,
) -> Result<u32, Refusal>
    requires rules { IsTrue (keeps_rules (length mem.old.bytes) chain.now.pieces.items) }
    requires pages { HasPages chain.now.pieces.items mem.old }
    requires room { writable ≡ room chain.now.pieces.items }
    requires some { 0 < writable }
    ensures ends { Ends state.now chain.now.pieces.items mem.old.bytes mem.new.bytes disk.old disk.new result }
    ensures length { length mem.new.bytes ≡ length mem.old.bytes }
    ensures pages { MakesPagesOf chain.now.pieces.items mem.old mem.new }
{
    let limits = limits_of(state, disk);
    let task = limits.checked(mem, chain, writable - 1)?;
    match carry_out(mem, chain, &task, state.cache_mode(), disk) {
        Ok(size) => Ok(size),
        Err(Failed) => Err(Refusal::IoErr),
    }
}

/// Serves a chain, and answers how many bytes were written into it: as many as there is room for, the last of them the
/// status. Takes no memory, and makes at most `PAGES_OF_SCATTER` pages of guest memory.
///
/// All readable bytes are read before the first byte is written. A sector that was done stays done where a later one
/// fails. A request is answered with an I/O error where a check asks for it; else only where a call of the disk failed.
pub fn serve_chain<D: Disk>(
    mem: &mut GuestMem,
    chain: &Chain,
    state: &BlkState,
    disk: &mut Tripped<D>,
) -> u32
    requires rules { IsTrue (keeps_rules (length mem.old.bytes) chain.now.pieces.items) }
    requires pages { PAGES_OF_SCATTER ≤ mem.old.spare }
    ensures serves { Serves state.now chain.now.pieces.items mem.old.bytes mem.new.bytes disk.old disk.new result }
    ensures pages { mem.old.spare ≤ mem.new.spare + PAGES_OF_SCATTER }
{
    let room = chain.room();
    if room == 0 {
        return 0;
    }
    match answer(mem, chain, room, state, disk) {
        Ok(size) => write_end(mem, chain, size, room, VIRTIO_BLK_S_OK),
        Err(refusal) => write_end(mem, chain, 0, room, refusal.status()),
    }
    room
}
