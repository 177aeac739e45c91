//! The driver's end.

ghost use Rattle.std.specs.Prelude.{◌≡◌, ◌+◌, ◌≤◌};
ghost use Rattle.vt_types.specs.Program.{Gives};
ghost use Rattle.vq_common.specs.Queue.{cost_of_reap, cost_of_reaped, reaped_value, unreaped_with};
ghost use Rattle.vq_split_drv.specs.Reap.{reap_element, split_reap_program, split_signals_program};
ghost use Rattle.vq_split_drv.specs.Post.{split_post_accesses, split_posted};

use crate::reap::UsedElement;
use crate::ring::Ring;
use arrayvec::ArrayVec;
use port_access::mark_where_due;
use std::alloc::Global;
use std::marker::Model;
use vq_common::{DriverEnd, Full, Reaped, RingCfg, slots_of};
use vq_posted::{Posted, PostedBuffers};
use vt_types::{LONGEST_BUFFER, Memory, Port, PostBuf, Room};

/// A driver's end of a split virtqueue (VIRTIO 1.2, 2.7).
///
/// Contracts see its record of the queue, and the greatest size that the queue may have.
#[derive(Drop)]
pub struct SplitDriver {
    ring: Ring,
    posted: PostedBuffers,
    /// Lent to the accesses whose answers nobody looks at.
    room: Box<Room>,
}

impl Model for SplitDriver {
    ghost use Rattle.vq_split_drv.specs.Driver.{SplitState, split_queue, IsKept};

    ghost Value = { SplitState };

    ghost view = { λ d. record { queue = split_queue d.ring d.posted.unreaped; greatest = d.posted.greatest } };

    ghost invariant = { λ d. IsKept d.ring.cfg.size d.posted };
}

impl SplitDriver {
    /// Reaps the buffer that a used element names. None where there is no such buffer, or where the element's length
    /// is above `LONGEST_BUFFER`.
    fn reap_element<P: Port>(
        &mut self,
        port: &mut P,
        element: UsedElement,
        room: &mut Room,
    ) -> Option<Reaped>
        requires { cost_of_reap self.old.queue ≤ P.credit port.old }
        ensures gives { Gives P.step P.marking (reap_element self.old.queue element.len (unreaped_with element.id self.old.queue.unreaped)) port.old (reaped_value result room.new.items, self.new.queue) port.new }
        ensures credit { P.credit port.old ≤ P.credit port.new + cost_of_reaped self.old.queue (reaped_value result room.new.items) }
        ensures greatest { self.new.greatest ≡ self.old.greatest }
    {
        match self.posted.find(element.id) {
            Some(found) if element.len <= LONGEST_BUFFER as u32 => {
                let head = element.id as u16;
                self.ring
                    .get_data(port, head, found.readable, element.len as u16, room);
                self.posted.remove(head);
                self.ring.used = self.ring.used.wrapping_add(1);
                self.ring.ask_next(port, &mut self.room);
                Some(Reaped {
                    tag: found.tag,
                    len: element.len,
                })
            }
            _ => {
                mark_where_due(port, !self.ring.cfg.event_idx);
                None
            }
        }
    }
}

impl DriverEnd for SplitDriver {
    ghost use Rattle.vq_split_drv.specs.Cost.{cost};
    ghost use Rattle.vq_split_drv.specs.Driver.{IsSplitQueue};

    ghost queue = { λ d. d.queue };

    ghost in_order = { IsSplitQueue };

    ghost greatest = { λ d. d.greatest };

    ghost post_accesses = { split_post_accesses };

    ghost posted = { split_posted };

    ghost reap_program = { split_reap_program };

    ghost signals_program = { split_signals_program };

    fn new(alloc: Global, max: u16) -> Result<SplitDriver, Memory> {
        let posted = PostedBuffers::new(alloc, max)?;
        let room = Box::new(alloc, Room::new())?;
        Ok(SplitDriver {
            ring: Ring::none(),
            posted,
            room,
        })
    }

    fn start(&mut self, cfg: &RingCfg, base: u64) {
        self.ring = Ring::new(cfg, base);
        self.posted.start(cfg.size);
    }

    fn free(&self) -> u16 {
        self.posted.free()
    }

    fn has_tag(&self, tag: u16) -> bool {
        self.posted.has_tag(tag)
    }

    fn post<P: Port>(&mut self, port: &mut P, buf: &PostBuf) -> Result<(), Full> {
        let slots = slots_of(buf);
        if slots > self.free() {
            return Err(Full);
        }
        let mut posted = Posted {
            descriptors: ArrayVec::new(),
            tag: buf.tag,
            slots,
            readable: buf.readable.len() as u16,
        };
        self.posted
            .add_lowest_free(usize::from(slots), &mut posted.descriptors);
        self.ring
            .put_buffer(port, buf, posted.descriptors.as_slice(), &mut self.room);
        port.mark();
        self.ring.available = self.ring.available.wrapping_add(1);
        self.posted.add(posted);
        Ok(())
    }

    fn reap<P: Port>(&mut self, port: &mut P, room: &mut Room) -> Option<Reaped> {
        if self.ring.get_used_index(port, room) == self.ring.used {
            port.mark();
            return None;
        }
        mark_where_due(port, self.ring.cfg.event_idx);
        let element = self.ring.get_used_element(port, room);
        self.reap_element(port, element, room)
    }

    fn set_signals<P: Port>(&mut self, port: &mut P, on: bool) {
        self.ring.put_signals(port, on, &mut self.room);
    }

    ghost cost = { cost };
}
