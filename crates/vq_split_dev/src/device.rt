//! The device's end.

ghost use Rattle.std.specs.Prelude.{◌≡◌, ◌++◌, IsTrue, length};
ghost use Rattle.byteorder.specs.Endian.{little_bytes};
ghost use Rattle.vq_common.specs.Chain.{walked};
ghost use Rattle.vq_split_dev.specs.Walk.{split_walk, split_areas_inside, next_head, waiting_heads};
ghost use Rattle.vq_split_dev.specs.Give.{split_signals};

use crate::areas::areas_inside;
use crate::walk::chain_at;
use byteorder::{ByteOrder, LittleEndian};
use guest_mem::GuestMem;
use std::marker::Model;
use vq_common::area::{le16_at, put, put_le16};
use vq_common::{AvailableFlags, Chain, DeviceEnd, RingCfg, Take, ring_location};

/// The device's end of a split virtqueue: the ring's configuration, the number of heads that were taken and the number
/// of chains that were given back, both modulo 2^16.
#[derive(Drop)]
pub struct SplitDevice {
    cfg: RingCfg,
    taken: u16,
    used: u16,
}

impl Model for SplitDevice {
    ghost use Rattle.std.specs.Prelude.{IsTrue, true};
    ghost use Rattle.vq_common.specs.Queue.{DeviceQueue, is_ring_size};

    ghost Value = { DeviceQueue };

    ghost view = { λ d. record { cfg = d.cfg; taken = d.taken; taken_wrap = true; used = d.used; used_wrap = true } };

    ghost invariant = { λ d. IsTrue (is_ring_size d.cfg.size) };
}

impl SplitDevice {
    /// The heads in the available ring that were not taken yet (VIRTIO 1.2, 2.7.13).
    fn waiting(&self, mem: &GuestMem) -> u16
        requires { IsTrue (split_areas_inside (length mem.now.bytes) self.now.cfg) }
        ensures { result ≡ waiting_heads mem.now.bytes self.now }
    {
        le16_at(mem, self.cfg.driver, 2).wrapping_sub(self.taken)
    }

    /// The entry of the available ring that is taken next.
    fn next_head(&self, mem: &GuestMem) -> u16
        requires { IsTrue (split_areas_inside (length mem.now.bytes) self.now.cfg) }
        ensures { result ≡ next_head mem.now.bytes self.now }
    {
        let location = ring_location(self.taken, self.cfg.size);
        le16_at(mem, self.cfg.driver, 4 + 2 * location as u64)
    }

    /// What the ring shows next.
    fn front(&self, mem: &GuestMem) -> Take
        ensures { walked result ≡ split_walk mem.now.bytes self.now }
    {
        if !areas_inside(mem.len(), &self.cfg) {
            return Take::Bad;
        }
        let waiting = self.waiting(mem);
        if waiting == 0 {
            Take::Empty
        } else if self.cfg.size < waiting {
            Take::Bad
        } else {
            chain_at(mem, &self.cfg, self.next_head(mem))
        }
    }

    /// Whether a used buffer is to be signalled, once the used index is written (VIRTIO 1.2, 2.7.7).
    fn signals(&self, mem: &GuestMem) -> bool
        requires { IsTrue (split_areas_inside (length mem.now.bytes) self.now.cfg) }
        ensures { result ≡ split_signals mem.now.bytes self.now }
    {
        if self.cfg.event_idx {
            le16_at(mem, self.cfg.driver, 4 + 2 * self.cfg.size as u64) == self.used
        } else {
            le16_at(mem, self.cfg.driver, 0) & AvailableFlags::NO_INTERRUPT.0
                != AvailableFlags::NO_INTERRUPT.0
        }
    }
}

/// The used element of a chain: its head and the number of bytes written, in eight bytes (VIRTIO 1.2, 2.7.8).
fn used_element(head: u16, len: u32) -> [u8; 8]
    ensures { result ≡ little_bytes 4 head ++ little_bytes 4 len }
{
    let mut element = [0u8; 8];
    LittleEndian::write_u32(&mut element, head as u32);
    LittleEndian::write_u32(&mut element[4..], len);
    element
}

impl DeviceEnd for SplitDevice {
    ghost use Rattle.std.specs.Prelude.{◌^◌};
    ghost use Rattle.vq_split_dev.specs.Walk.{split_walk, split_taken, split_areas_inside};
    ghost use Rattle.vq_split_dev.specs.Give.{split_given};
    ghost use Rattle.vq_split_dev.specs.Shown.{shown};

    ghost queue = { λ q. q };

    ghost positions = { λ cfg. 2 ^ 16 };

    ghost walk = { split_walk };

    ghost taken = { split_taken };

    ghost areas_inside = { split_areas_inside };

    ghost given = { split_given };

    fn new(cfg: &RingCfg) -> SplitDevice {
        SplitDevice {
            cfg: *cfg,
            taken: 0,
            used: 0,
        }
    }

    fn take(&mut self, mem: &GuestMem) -> Take {
        let front = self.front(mem);
        if let Take::Front(_) = &front {
            self.taken = self.taken.wrapping_add(1);
        }
        front
    }

    fn give(&mut self, mem: &mut GuestMem, chain: &Chain, len: u32) -> bool {
        let location = ring_location(self.used, self.cfg.size);
        let element = used_element(chain.id, len);
        put(mem, self.cfg.device, 4 + 8 * location as u64, &element);
        let next = self.used.wrapping_add(1);
        put_le16(mem, self.cfg.device, 2, next);
        let signals = self.signals(mem);
        self.used = next;
        signals
    }

    fn put_back(&mut self, _chain: &Chain) {
        self.taken = self.taken.wrapping_sub(1);
    }

    ghost shown = { shown };
}
