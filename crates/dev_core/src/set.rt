//! The set of devices.

ghost use Rattle.std.specs.Prelude.{◌≡◌, ℕ, ◌+◌, ◌-◌, ◌≤◌, ◌<◌, ◌&&◌, not, [], false, true, None, Some, IfOk, IfErr, IfSome, IsOk, OnOk, OnErr, MatchOption, length, max, slice_get};
ghost use Rattle.vt_outside.specs.Disk.{Called, Reads};
ghost use Rattle.vt_outside.specs.DiskCall.{peek_call};
ghost use Rattle.vt_outside.specs.Meets.{Meets, bytes_read};
ghost use Rattle.vt_types.specs.Limits.{LONGEST_BUFFER, MOST_SECTORS};
ghost use Rattle.vt_types.specs.Status.{FEATURES_OK};
ghost use Rattle.dev_status.specs.Status.{accept_of, has_bits};
ghost use Rattle.dev_core.specs.Config.{config_bytes, write_configuration};
ghost use Rattle.dev_core.specs.Device.{accepted_of, feature_word_of, generation_of, is_set_in, kick_queue, may_set_in, queues_of, reset_device, set_device_queue, status_of, unset_device_queue, write_device_status};
ghost use Rattle.dev_core.specs.Devices.{backend, device, new_devices, with_device};
ghost use Rattle.dev_core.specs.Pages.{PAGES_OF_SERVE};
ghost use Rattle.dev_core.specs.Serve.{serve};

use crate::config::{console_configuration, is_covered, read_at};
use crate::device::Device;
use crate::serve::serve_console;
use crate::served::Served;
use bitflags::Flags;
use dev_console::{CONSOLE_SPARE, ConState};
use guest_mem::GuestMem;
use std::alloc::Global;
use std::marker::Model;
use vq_common::RingCfg;
use vt_outside::{Back, Disk, Failed, Tripped};
use vt_types::{Dev, Event, Features, Memory, START_COLS, START_ROWS, Status};

/// The features that the console offers (VIRTIO 1.2, 5.3.3 and 6).
const CONSOLE_FEATURES: Features = Features(
    Features::CON_SIZE.0
        | Features::CON_EMERG_WRITE.0
        | Features::INDIRECT_DESC.0
        | Features::EVENT_IDX.0
        | Features::VERSION_1.0,
);

/// Where emerg_wr stands in the console's configuration, and how many bytes it has (VIRTIO 1.2, 5.3.4).
const EMERGENCY: u32 = 8;

const EMERGENCY_LEN: u32 = 4;

/// The console and what it keeps, and the disk behind the block device. The block and the network device are not there
/// yet: everything that is read of them is 0, and what is done to them changes nothing.
#[derive(Drop)]
pub struct DeviceSet<D: Disk> {
    con: Device,
    cols: u16,
    rows: u16,
    state: ConState,
    disk: Tripped<D>,
}

impl<D: Disk> Model for DeviceSet<D> {
    ghost use Rattle.std.specs.Prelude.{◌≡◌, length};
    ghost use Rattle.dev_core.specs.Devices.{SetView};
    ghost use Rattle.dev_core.specs.Serve.{devices_of};

    ghost Value = { SetView };

    ghost view = { λ s. record { devices = devices_of s.con s.cols s.rows s.state; spare = s.state.spare; disk = s.disk } };

    ghost invariant = { λ s. length s.con.queues ≡ 2 };
}

impl<D: Disk> DeviceSet<D> {
    /// The set at the start, over a disk. Where there is no memory the disk comes back.
    pub fn new(alloc: Global, disk: D) -> Result<DeviceSet<D>, Back<D>>
        ensures ok { IfOk result (λ s. s ≡ record { devices = new_devices; spare = 0; disk = record { disk = D.view disk; trip = 0 } }) }
        ensures err { IfErr result (λ b. b.disk ≡ disk) }
    {
        let Ok(con) = Device::new(alloc, CONSOLE_FEATURES, Dev::Con.queues()) else {
            return Err(Back { disk });
        };
        let Ok(state) = ConState::new(alloc) else {
            return Err(Back { disk });
        };
        Ok(DeviceSet {
            con,
            cols: START_COLS,
            rows: START_ROWS,
            state,
            disk: Tripped::new(disk),
        })
    }

    /// Sees to it that the console has at least `CONSOLE_SPARE` spare bytes, and no more than it had or these. Where it has so
    /// many it does not answer `Memory`.
    pub fn reserve(&mut self, alloc: Global) -> Result<(), Memory>
        ensures devices { self.new.devices ≡ self.old.devices }
        ensures disk { self.new.disk ≡ self.old.disk }
        ensures spare { self.old.spare ≤ self.new.spare }
        ensures most { self.new.spare ≤ max self.old.spare CONSOLE_SPARE }
        ensures ok { OnOk result (CONSOLE_SPARE ≤ self.new.spare) }
        ensures enough { CONSOLE_SPARE ≤ self.old.spare → IsOk result }
    {
        self.state.reserve(alloc)
    }

    /// The status byte of a device.
    pub fn status(&self, dev: Dev) -> u8
        ensures { result ≡ status_of (device self.now.devices dev) }
    {
        match dev {
            Dev::Con => self.con.status(),
            Dev::Blk | Dev::Net => 0,
        }
    }

    /// A word of 32 bits of the features that a device offers, the low one first; 0 past the second.
    pub fn offered(&self, dev: Dev, index: u32) -> u32
        ensures { result ≡ feature_word_of (device self.now.devices dev) index }
    {
        match dev {
            Dev::Con => self.con.offered(index),
            Dev::Blk | Dev::Net => 0,
        }
    }

    /// The features that the driver accepted.
    pub fn accepted(&self, dev: Dev) -> Features
        ensures { result.0 ≡ accepted_of (device self.now.devices dev) }
    {
        match dev {
            Dev::Con => self.con.accepted(),
            Dev::Blk | Dev::Net => Features(0),
        }
    }

    /// How often the configuration of a device changed, modulo 2^32.
    pub fn generation(&self, dev: Dev) -> u32
        ensures { result ≡ generation_of (device self.now.devices dev) }
    {
        match dev {
            Dev::Con => self.con.generation(),
            Dev::Blk | Dev::Net => 0,
        }
    }

    /// How many queues a device has.
    pub fn queues(&self, dev: Dev) -> u16
        ensures { result ≡ queues_of (device self.now.devices dev) }
    {
        match dev {
            Dev::Con => self.con.queues(),
            Dev::Blk | Dev::Net => 0,
        }
    }

    /// Whether a queue is set; one that the device doesn't have isn't.
    pub fn is_set(&self, dev: Dev, queue: u16) -> bool
        ensures { result ≡ is_set_in (device self.now.devices dev) queue }
    {
        match dev {
            Dev::Con => self.con.is_set(queue),
            Dev::Blk | Dev::Net => false,
        }
    }

    /// The driver accepts a word of 32 bits of features, the low one first. Nothing changes for an index past the second,
    /// or once FEATURES_OK stands (VIRTIO 1.2, 2.2).
    pub fn accept(&mut self, dev: Dev, index: u32, word: u32)
        ensures { self.new ≡ record self.old { devices = with_device (λ d. record d { status = accept_of index word d.status }) self.old.devices dev } }
    {
        match dev {
            Dev::Con => self.con.accept(index, word),
            Dev::Blk | Dev::Net => {}
        }
    }

    /// Writes the status byte of a device; 0 resets it (VIRTIO 1.2, 2.1). False exactly where FEATURES_OK was asked for
    /// and does not stand afterwards.
    pub fn write_status(&mut self, dev: Dev, v: u8) -> bool
        ensures devices { self.new ≡ record self.old { devices = with_device (write_device_status v) self.old.devices dev } }
        ensures answer { result ≡ not (has_bits v FEATURES_OK && not (has_bits (status_of (device self.new.devices dev)) FEATURES_OK)) }
    {
        match dev {
            Dev::Con => self.con.write_status(v),
            Dev::Blk | Dev::Net => {}
        }
        let status = Status(self.status(dev));
        !(Status(v).contains(Status::FEATURES_OK) && !status.contains(Status::FEATURES_OK))
    }

    /// Resets a device (VIRTIO 1.2, 2.4). The generation stays.
    pub fn reset(&mut self, dev: Dev)
        ensures { self.new ≡ record self.old { devices = with_device reset_device self.old.devices dev } }
    {
        match dev {
            Dev::Con => self.con.reset(),
            Dev::Blk | Dev::Net => {}
        }
    }

    /// Sets a queue. False, and nothing changes, exactly where the device has no such queue, it is set, or the size is not
    /// a power of two from 1 to `GREATEST_QUEUE`. Of the configuration the three areas and the size are used; the ring's kind
    /// and its features are by the accepted ones.
    pub fn set_queue(&mut self, dev: Dev, queue: u16, cfg: &RingCfg) -> bool
        ensures devices { self.new ≡ record self.old { devices = with_device (λ d. set_device_queue d queue cfg.now) self.old.devices dev } }
        ensures answer { result ≡ may_set_in (device self.old.devices dev) queue cfg.now }
    {
        match dev {
            Dev::Con => self.con.set_queue(queue, cfg),
            Dev::Blk | Dev::Net => false,
        }
    }

    /// Unsets a queue, where the device has it.
    pub fn unset_queue(&mut self, dev: Dev, queue: u16)
        ensures { self.new ≡ record self.old { devices = with_device (λ d. unset_device_queue d queue) self.old.devices dev } }
    {
        match dev {
            Dev::Con => self.con.unset_queue(queue),
            Dev::Blk | Dev::Net => {}
        }
    }

    /// Kicks a queue, where it is set.
    pub fn kick(&mut self, dev: Dev, queue: u16)
        ensures { self.new ≡ record self.old { devices = with_device (λ d. kick_queue d queue (slice_get d.queues queue)) self.old.devices dev } }
    {
        match dev {
            Dev::Con => self.con.kick(queue),
            Dev::Blk | Dev::Net => {}
        }
    }

    /// Fills a room with the bytes of a device's configuration from a location on, and with zeros past its end.
    pub fn read_config(&self, dev: Dev, off: u32, room: &mut [u8])
        ensures { room.new ≡ config_bytes self.now.devices dev off (length room.old) }
    {
        match dev {
            Dev::Con => read_at(&console_configuration(self.cols, self.rows), off, room),
            Dev::Blk | Dev::Net => read_at(&[], off, room),
        }
    }

    /// Writes bytes of a device's configuration from a location on; what no field takes is ignored. A write that covers all
    /// of the console's emerg_wr adds its first byte to the console's, which takes a spare one.
    pub fn write_config(&mut self, dev: Dev, off: u32, bytes: &[u8])
        requires { 1 ≤ self.old.spare }
        ensures devices { self.new.devices ≡ write_configuration self.old.devices dev off bytes.now }
        ensures spare { self.new.spare + length self.new.devices.contents.console.console ≡ self.old.spare + length self.old.devices.contents.console.console }
        ensures disk { self.new.disk ≡ self.old.disk }
    {
        match dev {
            Dev::Con => {
                if is_covered(off, bytes, EMERGENCY, EMERGENCY_LEN) {
                    self.state.emerg(bytes[(EMERGENCY - off) as usize]);
                }
            }
            Dev::Blk | Dev::Net => {}
        }
    }

    /// Serves one buffer of a queue (VIRTIO 1.2, 2.6). It makes at most `PAGES_OF_SERVE` pages of guest memory, and adds
    /// at most `LONGEST_BUFFER` bytes to the console's.
    pub fn serve(&mut self, mem: &mut GuestMem, dev: Dev, queue: u16) -> Served
        requires console { LONGEST_BUFFER ≤ self.old.spare }
        requires pages { PAGES_OF_SERVE ≤ mem.old.spare }
        ensures serves { serve self.old.devices dev queue mem.old.bytes ≡ record { served = result; devices = self.new.devices; memory = mem.new.bytes } }
        ensures spare { self.new.spare + length self.new.devices.contents.console.console ≡ self.old.spare + length self.old.devices.contents.console.console }
        ensures console { self.old.spare ≤ self.new.spare + LONGEST_BUFFER }
        ensures pages { mem.old.spare ≤ mem.new.spare + PAGES_OF_SERVE }
        ensures disk { self.new.disk ≡ self.old.disk }
    {
        match dev {
            Dev::Con => serve_console(mem, &mut self.con, &mut self.state, queue),
            Dev::Blk | Dev::Net => Served::Idle,
        }
    }

    /// An event of a backend that serves no buffer: the device whose configuration changed, None exactly where none did.
    pub fn backend(&mut self, e: &Event) -> Option<Dev>
        ensures devices { backend self.old.devices e.now ≡ record { configuration = result; devices = self.new.devices } }
        ensures spare { self.new.spare ≡ self.old.spare }
        ensures disk { self.new.disk ≡ self.old.disk }
    {
        match e {
            Event::Key(bytes) => {
                self.state.key(bytes.as_slice());
                None
            }
            Event::Consize { cols, rows } => {
                self.cols = *cols;
                self.rows = *rows;
                self.con.change();
                Some(Dev::Con)
            }
            Event::Serve { .. }
            | Event::Frame(_)
            | Event::Resize(_)
            | Event::Link(_)
            | Event::Diskfail(_) => None,
        }
    }

    /// The bytes that the console was given.
    pub fn console(&self) -> &[u8]
        ensures { result.now ≡ self.now.devices.contents.console.console }
    {
        self.state.console()
    }

    /// How many sectors the disk has: at most `MOST_SECTORS`.
    pub fn disk_sectors(&self) -> u64
        ensures value { result ≡ self.now.disk.disk.count }
        ensures bound { result ≤ MOST_SECTORS }
        ensures whole { IfSome self.now.disk.disk.image (λ image. length image ≡ result) }
    {
        self.disk.sectors()
    }

    /// Reads sector `n` of the disk, whatever its trip is. `Failed` comes exactly where the disk answered it, and says
    /// nothing of the room.
    pub fn peek_sector(&mut self, n: u64, room: &mut [u8; 512]) -> Result<(), Failed>
        requires { n < self.old.disk.disk.count }
        ensures called { Called self.old.disk.disk self.new.disk.disk result }
        ensures trip { self.new.disk.trip ≡ self.old.disk.trip }
        ensures same { self.new.disk.disk.image ≡ self.old.disk.disk.image }
        ensures ok { OnOk result (Reads n room.new self.old.disk.disk.image) }
        ensures meets { Meets (peek_call n) self.old.disk (bytes_read result room.new) self.new.disk }
        ensures devices { self.new.devices ≡ self.old.devices }
        ensures spare { self.new.spare ≡ self.old.spare }
    {
        self.disk.peek_sector(n, room)
    }

    /// The disk that was held.
    pub fn into_disk(self) -> D
        ensures { D.view result ≡ self.disk.disk }
    {
        let DeviceSet {
            con: _,
            cols: _,
            rows: _,
            state: _,
            disk,
        } = self;
        disk.into_disk()
    }
}
