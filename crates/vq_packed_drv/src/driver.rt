//! The driver's end.

ghost use Rattle.std.specs.Prelude.{◌≡◌, ◌+◌, ◌<◌, ◌≤◌};
ghost use Rattle.vt_types.specs.Program.{Gives};
ghost use Rattle.vq_common.specs.Queue.{cost_of_reap, cost_of_reaped, reaped_value};
ghost use Rattle.vq_packed_drv.specs.Post.{packed_post_accesses, packed_posted};
ghost use Rattle.vq_packed_drv.specs.Reap.{packed_reap_program, packed_signals_program, reap_buffer};

use crate::ring::Ring;
use port_access::mark_where_due;
use std::alloc::Global;
use std::marker::Model;
use vq_common::{DriverEnd, Full, PackedDescriptor, Reaped, RingCfg, slots_of};
use vq_posted::{Posted, PostedBuffers, head};
use vt_types::{LONGEST_BUFFER, Memory, Port, PostBuf, Room};

/// A driver's end of a packed virtqueue (VIRTIO 1.2, 2.8).
///
/// Contracts see its record of the queue, and the greatest size that the queue may have.
#[derive(Drop)]
pub struct PackedDriver {
    ring: Ring,
    posted: PostedBuffers,
    /// Lent to the accesses whose answers nobody looks at.
    room: Box<Room>,
}

impl Model for PackedDriver {
    ghost use Rattle.vq_packed_drv.specs.Driver.{PackedState, packed_queue, IsKept};

    ghost Value = { PackedState };

    ghost view = { λ d. record { queue = packed_queue d.ring d.posted.unreaped; greatest = d.posted.greatest } };

    ghost invariant = { λ d. IsKept d.ring.cfg.size d.ring.available d.ring.used d.posted };
}

impl PackedDriver {
    /// Reaps the buffer that a used descriptor names. None where there is no such buffer, or where the descriptor's length
    /// is above `LONGEST_BUFFER`.
    fn reap_buffer<P: Port>(
        &mut self,
        port: &mut P,
        descriptor: PackedDescriptor,
        room: &mut Room,
    ) -> Option<Reaped>
        requires started { 0 < self.old.queue.cfg.size }
        requires credit { cost_of_reap self.old.queue ≤ P.credit port.old }
        ensures gives { Gives P.step P.marking (reap_buffer self.old.queue descriptor) port.old (reaped_value result room.new.items, self.new.queue) port.new }
        ensures credit { P.credit port.old ≤ P.credit port.new + cost_of_reaped self.old.queue (reaped_value result room.new.items) }
        ensures greatest { self.new.greatest ≡ self.old.greatest }
    {
        match self.posted.find(u32::from(descriptor.id)) {
            Some(found) if descriptor.len <= LONGEST_BUFFER as u32 => {
                let id = descriptor.id;
                self.ring
                    .get_data(port, id, found.readable, descriptor.len as u16, room);
                self.posted.remove(id);
                self.ring.used = self.ring.used.advance(self.ring.cfg.size, found.slots);
                self.ring.ask_next(port, &mut self.room);
                Some(Reaped {
                    tag: found.tag,
                    len: descriptor.len,
                })
            }
            _ => {
                mark_where_due(port, !self.ring.cfg.event_idx);
                None
            }
        }
    }
}

impl DriverEnd for PackedDriver {
    ghost use Rattle.vq_packed_drv.specs.Cost.{cost};
    ghost use Rattle.vq_packed_drv.specs.Driver.{IsPackedQueue};

    ghost queue = { λ d. d.queue };

    ghost in_order = { IsPackedQueue };

    ghost greatest = { λ d. d.greatest };

    ghost post_accesses = { packed_post_accesses };

    ghost posted = { packed_posted };

    ghost reap_program = { packed_reap_program };

    ghost signals_program = { packed_signals_program };

    fn new(alloc: Global, max: u16) -> Result<PackedDriver, Memory> {
        let posted = PostedBuffers::new(alloc, max)?;
        let room = Box::new(alloc, Room::new())?;
        Ok(PackedDriver {
            ring: Ring::none(),
            posted,
            room,
        })
    }

    fn start(&mut self, cfg: &RingCfg, base: u64) {
        self.ring = Ring::new(cfg, base);
        self.posted.start(cfg.size);
    }

    fn free(&self) -> u16 {
        self.posted.free()
    }

    fn has_tag(&self, tag: u16) -> bool {
        self.posted.has_tag(tag)
    }

    fn post<P: Port>(&mut self, port: &mut P, buf: &PostBuf) -> Result<(), Full> {
        let slots = slots_of(buf);
        if slots > self.free() {
            return Err(Full);
        }
        let descriptors = self.posted.lowest_free(1);
        let id = head(descriptors.as_slice());
        self.ring.put_buffer(port, buf, id, &mut self.room);
        port.mark();
        self.ring.available = self.ring.available.advance(self.ring.cfg.size, slots);
        self.posted.add(Posted {
            tag: buf.tag,
            slots,
            readable: buf.readable.len() as u16,
            descriptors,
        });
        Ok(())
    }

    fn reap<P: Port>(&mut self, port: &mut P, room: &mut Room) -> Option<Reaped> {
        let descriptor = self.ring.get_descriptor(port, room);
        if !descriptor.is_used(self.ring.used.wrap) {
            port.mark();
            return None;
        }
        mark_where_due(port, self.ring.cfg.event_idx);
        self.reap_buffer(port, descriptor, room)
    }

    fn set_signals<P: Port>(&mut self, port: &mut P, on: bool) {
        self.ring.put_signals(port, on, &mut self.room);
    }

    ghost cost = { cost };
}
