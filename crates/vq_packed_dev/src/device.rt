//! The device's end.

ghost use Rattle.std.specs.Prelude.{◌≡◌, ◌≤◌, IsTrue, length};
ghost use Rattle.vq_common.specs.Chain.{walked};
ghost use Rattle.vq_packed_dev.specs.Walk.{packed_walk, packed_areas_inside};
ghost use Rattle.vq_packed_dev.specs.Give.{is_awaited, packed_signals, used_bytes, used_flags};

use crate::areas::areas_inside;
use crate::walk::{chain_at, descriptor_at};
use byteorder::{ByteOrder, LittleEndian};
use guest_mem::GuestMem;
use std::marker::Model;
use vq_common::area::{le16_at, put};
use vq_common::{Chain, DeviceEnd, PackedFlags, Position, RingCfg, Take, event};

/// The device's end of a packed virtqueue: the ring's configuration, the position where the next chain is taken, and
/// the one where the next used descriptor is written.
#[derive(Drop)]
pub struct PackedDevice {
    cfg: RingCfg,
    taken: Position,
    used: Position,
}

impl Model for PackedDevice {
    ghost use Rattle.std.specs.Prelude.{◌<◌, IsTrue};
    ghost use Rattle.vq_common.specs.Queue.{DeviceQueue, is_ring_size};

    ghost Value = { DeviceQueue };

    ghost view = { λ d. record { cfg = d.cfg; taken = d.taken.location; taken_wrap = d.taken.wrap; used = d.used.location; used_wrap = d.used.wrap } };

    ghost invariant = { λ d. IsTrue (is_ring_size d.cfg.size) × (d.taken.location < d.cfg.size) × (d.used.location < d.cfg.size) };
}

impl PackedDevice {
    /// What the ring shows next.
    fn front(&self, mem: &GuestMem) -> Take
        ensures { walked result ≡ packed_walk mem.now.bytes self.now }
    {
        if !areas_inside(mem.len(), &self.cfg) {
            return Take::Bad;
        }
        let first = descriptor_at(mem, &self.cfg, self.taken.location);
        if first.is_available(self.taken.wrap) {
            chain_at(mem, &self.cfg, self.taken, first)
        } else {
            Take::Empty
        }
    }

    /// Whether the positions that a used buffer takes have the one that the driver waits for (VIRTIO 1.2, 2.8.14).
    fn is_awaited(&self, mem: &GuestMem, slots: u16) -> bool
        requires areas { IsTrue (packed_areas_inside (length mem.now.bytes) self.now.cfg) }
        requires slots { slots ≤ self.now.cfg.size }
        ensures { result ≡ is_awaited mem.now.bytes self.now slots }
    {
        let event = Position::from_event_word(le16_at(mem, self.cfg.driver, 0));
        event.is_among(self.cfg.size, self.used, slots)
    }

    /// Whether a used buffer is to be signalled, once it is written (VIRTIO 1.2, 2.8.10).
    fn signals(&self, mem: &GuestMem, slots: u16) -> bool
        requires areas { IsTrue (packed_areas_inside (length mem.now.bytes) self.now.cfg) }
        requires slots { slots ≤ self.now.cfg.size }
        ensures { result ≡ packed_signals mem.now.bytes self.now slots }
    {
        match le16_at(mem, self.cfg.driver, 2) {
            event::ENABLE => true,
            event::AT_POSITION => self.cfg.event_idx && self.is_awaited(mem, slots),
            _ => false,
        }
    }
}

/// The flags of a used descriptor: WRITE where bytes were written, AVAIL and USED as the wrap counter (VIRTIO 1.2, 2.8.1
/// and 2.8.3).
fn used_flags(len: u32, wrap: bool) -> u16
    ensures { result ≡ used_flags len wrap }
{
    let write = if len == 0 { 0 } else { PackedFlags::WRITE.0 };
    let used = if wrap {
        PackedFlags::AVAIL.0 + PackedFlags::USED.0
    } else {
        0
    };
    write + used
}

/// The length, the id and the flags of a used descriptor in its last eight bytes (VIRTIO 1.2, 2.8.13).
fn used_bytes(id: u16, len: u32, wrap: bool) -> [u8; 8]
    ensures { result ≡ used_bytes id len wrap }
{
    let mut bytes = [0u8; 8];
    LittleEndian::write_u32(&mut bytes, len);
    LittleEndian::write_u16(&mut bytes[4..], id);
    LittleEndian::write_u16(&mut bytes[6..], used_flags(len, wrap));
    bytes
}

impl DeviceEnd for PackedDevice {
    ghost use Rattle.vq_packed_dev.specs.Walk.{packed_walk, packed_taken, packed_areas_inside, packed_positions};
    ghost use Rattle.vq_packed_dev.specs.Give.{packed_given};
    ghost use Rattle.vq_packed_dev.specs.Shown.{shown};

    ghost queue = { λ q. q };

    ghost positions = { packed_positions };

    ghost walk = { packed_walk };

    ghost taken = { packed_taken };

    ghost areas_inside = { packed_areas_inside };

    ghost given = { packed_given };

    fn new(cfg: &RingCfg) -> PackedDevice {
        PackedDevice {
            cfg: *cfg,
            taken: Position::start(),
            used: Position::start(),
        }
    }

    fn take(&mut self, mem: &GuestMem) -> Take {
        let front = self.front(mem);
        if let Take::Front(chain) = &front {
            self.taken = self.taken.advance(self.cfg.size, chain.slots);
        }
        front
    }

    fn give(&mut self, mem: &mut GuestMem, chain: &Chain, len: u32) -> bool {
        let bytes = used_bytes(chain.id, len, self.used.wrap);
        put(
            mem,
            self.cfg.desc,
            16 * self.used.location as u64 + 8,
            &bytes,
        );
        let signals = self.signals(mem, chain.slots);
        self.used = self.used.advance(self.cfg.size, chain.slots);
        signals
    }

    fn put_back(&mut self, chain: &Chain) {
        self.taken = self.taken.retreat(self.cfg.size, chain.slots);
    }

    ghost shown = { shown };
}
