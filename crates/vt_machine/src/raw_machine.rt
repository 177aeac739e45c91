//! The raw machine.

ghost use Rattle.std.specs.Prelude.{◌≡◌, ◌+◌, ◌≤◌, ◌<◌, ◌^◌, replicate, IfOk, IfErr, IfSome, OnOk, length};
ghost use Rattle.vt_types.specs.declared.operation.Event.TheVariants as event;
ghost use Rattle.vt_types.specs.Access.{access_value, access_cost, IsWithinLimits};
ghost use Rattle.vt_types.specs.Limits as limit;
ghost use Rattle.vt_types.specs.Limits.{LONGEST_BUFFER, MOST_SECTORS};
ghost use Rattle.vt_outside.specs.Disk.{Called, Reads};
ghost use Rattle.vt_outside.specs.DiskCall.{peek_call};
ghost use Rattle.vt_outside.specs.Meets.{Meets, bytes_read};
ghost use Rattle.dev_core.specs.Bus.{MEMORY_LENGTH, RawStep, changed, has_driver, raw_event};
ghost use Rattle.dev_core.specs.Devices.{backend, device, new_devices};
ghost use Rattle.dev_core.specs.Pages.{PAGES_OF_EVENT, PAGES_OF_SIGNAL};

use bitflags::Flags;
use dev_console::CONSOLE_SPARE;
use dev_core::{Bus, DeviceSet, Served};
use guest_mem::GuestMem;
use std::alloc::Global;
use std::marker::Model;
use vt_outside::{Back, Disk, Failed};
use vt_types::{Access, Answer, Dev, Event, LONGEST_MEMORY, Memory, Room, Status};

/// The most pages of guest memory that one line of a script may make: 4,096 by the accesses of its operation, and 22 by
/// each of its 128 events (our own).
pub const PAGES_OF_LINE: u32 = 6912;

/// How many bytes guest memory has: the most that it may have.
#[tactic(auto, unfolding(dev_core::specs::Bus::MEMORY_LENGTH))]
fn memory_len() -> u64
    ensures value { result ≡ MEMORY_LENGTH }
    ensures most { result ≤ limit.LONGEST_MEMORY }
{
    LONGEST_MEMORY
}

/// A bus, guest memory of 2^28 bytes, and the devices with the disk behind them: one access or one event at a time.
#[derive(Drop)]
pub struct RawMachine<B: Bus, D: Disk> {
    bus: B,
    memory: GuestMem,
    set: DeviceSet<D>,
}

impl<B: Bus, D: Disk> Model for RawMachine<B, D> {
    ghost use Rattle.vt_machine.specs.RawMachine.{RawMachineView};

    ghost Value = { RawMachineView B };

    ghost view = { λ m. record { raw = record { registers = m.bus; devices = m.set.devices; memory = m.memory.bytes }; spare = m.set.spare; pages = m.memory.spare; disk = m.set.disk } };
}

impl<B: Bus + Drop, D: Disk> RawMachine<B, D> {
    /// A machine with zeros in memory and devices at their start, over a disk. Where there is no memory the disk comes
    /// back.
    pub fn new(alloc: Global, bus: B, disk: D) -> Result<RawMachine<B, D>, Back<D>>
        ensures raw { IfOk result (λ m. m.raw ≡ record { registers = bus; devices = new_devices; memory = replicate MEMORY_LENGTH 0 }) }
        ensures disk { IfOk result (λ m. m.disk ≡ record { disk = D.view disk; trip = 0 }) }
        ensures err { IfErr result (λ b. b.disk ≡ disk) }
    {
        let Ok(memory) = GuestMem::new(alloc, memory_len()) else {
            return Err(Back { disk });
        };
        let set = DeviceSet::new(alloc, disk)?;
        Ok(RawMachine { bus, memory, set })
    }

    /// The disk that was held.
    pub fn into_disk(self) -> D
        ensures { D.view result ≡ self.disk.disk }
    {
        let RawMachine {
            bus: _,
            memory: _,
            set,
        } = self;
        set.into_disk()
    }
}

impl<B: Bus, D: Disk> RawMachine<B, D> {
    /// Sees to it that what one line may add to the console's bytes is spare, and the pages of guest memory that it may make.
    pub fn reserve(&mut self, alloc: Global) -> Result<(), Memory>
        ensures raw { self.new.raw ≡ self.old.raw }
        ensures disk { self.new.disk ≡ self.old.disk }
        ensures spare { self.old.spare ≤ self.new.spare }
        ensures pages { self.old.pages ≤ self.new.pages }
        ensures spared { OnOk result (CONSOLE_SPARE ≤ self.new.spare) }
        ensures paged { OnOk result (PAGES_OF_LINE ≤ self.new.pages) }
    {
        self.memory.reserve(alloc, PAGES_OF_LINE)?;
        self.set.reserve(alloc)
    }

    /// Does one access: those of guest memory are the same on every bus, and all others are the bus's own.
    pub fn access(&mut self, a: &Access<'_>, room: &mut Room) -> Answer
        requires limits { IsWithinLimits (access_value a.now) }
        requires console { access_cost (access_value a.now) ≤ self.old.spare }
        requires pages { access_cost (access_value a.now) ≤ self.old.pages }
        ensures step { RawStep B.table self.old.raw (access_value a.now) result room.old.items room.new.items self.new.raw }
        ensures spare { self.old.spare ≤ self.new.spare + access_cost (access_value a.now) }
        ensures pages { self.old.pages ≤ self.new.pages + access_cost (access_value a.now) }
        ensures disk { self.new.disk ≡ self.old.disk }
    {
        match a {
            Access::Put { .. } | Access::Get { .. } | Access::Zero { .. } | Access::Swap { .. } => {
                memory_port::access(&mut self.memory, a, room)
            }
            Access::Load { .. }
            | Access::Store { .. }
            | Access::CfgLoad { .. }
            | Access::CfgStore { .. }
            | Access::Ssch { .. }
            | Access::Tsch { .. }
            | Access::Stsch { .. }
            | Access::Msch { .. }
            | Access::Csch { .. }
            | Access::Turn { .. }
            | Access::Diag { .. } => self.bus.access(&mut self.memory, &mut self.set, a),
        }
    }

    /// One event happens. It adds at most `LONGEST_BUFFER` bytes to the console's, and makes at most `PAGES_OF_EVENT` pages
    /// of guest memory.
    pub fn event(&mut self, e: &Event)
        requires console { LONGEST_BUFFER ≤ self.old.spare }
        requires pages { PAGES_OF_EVENT ≤ self.old.pages }
        ensures raw { self.new.raw ≡ raw_event B.table self.old.raw e.now }
        ensures spare { self.old.spare ≤ self.new.spare + LONGEST_BUFFER }
        ensures pages { self.old.pages ≤ self.new.pages + PAGES_OF_EVENT }
        ensures disk { self.new.disk ≡ self.old.disk }
    {
        match e {
            Event::Serve { dev, queue } => self.serve(*dev, *queue),
            Event::Frame(_)
            | Event::Key(_)
            | Event::Resize(_)
            | Event::Link(_)
            | Event::Consize { .. }
            | Event::Diskfail(_) => self.backend(e),
        }
    }

    /// Serves one buffer of a queue, and signals what came of it.
    fn serve(&mut self, dev: Dev, queue: u16)
        requires console { LONGEST_BUFFER ≤ self.old.spare }
        requires pages { PAGES_OF_EVENT ≤ self.old.pages }
        ensures raw { self.new.raw ≡ raw_event B.table self.old.raw (event.Serve dev queue) }
        ensures spare { self.old.spare ≤ self.new.spare + LONGEST_BUFFER }
        ensures pages { self.old.pages ≤ self.new.pages + PAGES_OF_EVENT }
        ensures disk { self.new.disk ≡ self.old.disk }
    {
        match self.set.serve(&mut self.memory, dev, queue) {
            Served::Idle | Served::Quiet => {}
            Served::Signal => self.bus.queue_signal(&mut self.memory, dev, queue),
            Served::Bad => self.bus.config_signal(&mut self.memory, dev),
        }
    }

    /// An event of a backend that serves no buffer. A changed configuration signals where DRIVER_OK stands.
    fn backend(&mut self, e: &Event)
        requires { PAGES_OF_SIGNAL ≤ self.old.pages }
        ensures raw { self.new.raw ≡ changed B.table self.old.raw (backend self.old.raw.devices e.now) }
        ensures spare { self.new.spare ≡ self.old.spare }
        ensures pages { self.old.pages ≤ self.new.pages + PAGES_OF_SIGNAL }
        ensures disk { self.new.disk ≡ self.old.disk }
    {
        if let Some(dev) = self.set.backend(e) {
            if self.has_driver(dev) {
                self.bus.config_signal(&mut self.memory, dev);
            }
        }
    }

    /// Whether DRIVER_OK stands in the status of a device (VIRTIO 1.2, 2.1).
    fn has_driver(&self, dev: Dev) -> bool
        ensures { result ≡ has_driver (device self.now.raw.devices dev) }
    {
        Status(self.set.status(dev)).contains(Status::DRIVER_OK)
    }

    /// The bytes that the console was given.
    pub fn console(&self) -> &[u8]
        ensures { result.now ≡ self.now.raw.devices.contents.console.console }
    {
        self.set.console()
    }

    /// How many sectors the disk has: at most `MOST_SECTORS`.
    pub fn disk_sectors(&self) -> u64
        ensures value { result ≡ self.now.disk.disk.count }
        ensures bound { result ≤ MOST_SECTORS }
        ensures whole { IfSome self.now.disk.disk.image (λ image. length image ≡ result) }
    {
        self.set.disk_sectors()
    }

    /// Reads sector `n` of the disk, whatever its trip is. `Failed` comes exactly where the disk answered it, and says
    /// nothing of the room.
    pub fn peek_sector(&mut self, n: u64, room: &mut [u8; 512]) -> Result<(), Failed>
        requires { n < self.old.disk.disk.count }
        ensures called { Called self.old.disk.disk self.new.disk.disk result }
        ensures trip { self.new.disk.trip ≡ self.old.disk.trip }
        ensures same { self.new.disk.disk.image ≡ self.old.disk.disk.image }
        ensures ok { OnOk result (Reads n room.new self.old.disk.disk.image) }
        ensures meets { Meets (peek_call n) self.old.disk (bytes_read result room.new) self.new.disk }
        ensures raw { self.new.raw ≡ self.old.raw }
        ensures spare { self.new.spare ≡ self.old.spare }
        ensures pages { self.new.pages ≡ self.old.pages }
    {
        self.set.peek_sector(n, room)
    }
}
