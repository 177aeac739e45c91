//! The accesses of a reap, and those that ask for signals.

ghost use Rattle.std.specs.Prelude.{◌≡◌, ◌+◌, ◌*◌, ◌%◌, ◌<◌, ◌≤◌, drop};
ghost use Rattle.byteorder.specs.Endian.{little_number};
ghost use Rattle.vt_types.specs.Limits.{LONGEST_BUFFER};
ghost use Rattle.vt_types.specs.Program.{Gives};
ghost use Rattle.port_access.specs.Accesses.{bytes_program, get_bytes};
ghost use Rattle.vt_layout.specs.QueueBlock.{data_address, device_area};
ghost use Rattle.vq_common.specs.Queue.{cost_of_asking};
ghost use Rattle.vq_posted.specs.Reap.{ask_program};
ghost use Rattle.vq_split_drv.specs.Driver.{ring_queue};
ghost use Rattle.vq_split_drv.specs.Reap.{split_signals_program, used_event_put};

use crate::ring::Ring;
use byteorder::{ByteOrder, LittleEndian};
use port_access::{get, get_written, put_u16};
use vq_common::{AvailableFlags, ring_location};
use vt_layout::queue_block::{DEVICE_AREA, DRIVER_AREA};
use vt_types::{Port, Room};

/// An element of the used ring: a buffer's id, and how many bytes the device wrote (VIRTIO 1.2, 2.7.8).
#[derive(Clone, Copy)]
pub(crate) struct UsedElement {
    pub id: u32,
    pub len: u32,
}

impl Ring {
    /// Gets the device's used index.
    pub(crate) fn get_used_index<P: Port>(&self, port: &mut P, room: &mut Room) -> u16
        ensures gives { Gives P.step P.marking (get_bytes (device_area self.now.base + 2) 2) port.old room.new.items port.new }
        ensures value { result ≡ little_number 2 room.new.items }
        ensures credit { P.credit port.old ≤ P.credit port.new }
    {
        get(port, self.base + DEVICE_AREA + 2, 2, room);
        LittleEndian::read_u16(room.as_slice())
    }

    /// Gets the next used element.
    pub(crate) fn get_used_element<P: Port>(&self, port: &mut P, room: &mut Room) -> UsedElement
        requires { 0 < self.now.cfg.size }
        ensures gives { Gives P.step P.marking (get_bytes (device_area self.now.base + (4 + 8 * (self.now.used % self.now.cfg.size))) 8) port.old room.new.items port.new }
        ensures id { result.id ≡ little_number 4 room.new.items }
        ensures len { result.len ≡ little_number 4 (drop 4 room.new.items) }
        ensures credit { P.credit port.old ≤ P.credit port.new }
    {
        let location = 4 + 8 * u64::from(ring_location(self.used, self.cfg.size));
        get(port, self.base + DEVICE_AREA + location, 8, room);
        let bytes = room.as_slice();
        UsedElement {
            id: LittleEndian::read_u32(bytes),
            len: LittleEndian::read_u32(&bytes[4..]),
        }
    }

    /// Gets the bytes that the device wrote behind the readable ones of the buffer with this head.
    pub(crate) fn get_data<P: Port>(
        &self,
        port: &mut P,
        head: u16,
        readable: u16,
        len: u16,
        room: &mut Room,
    )
        requires { len ≤ LONGEST_BUFFER }
        ensures gives { Gives P.step P.marking (bytes_program (data_address self.now.base head + readable) len) port.old room.new.items port.new }
        ensures credit { P.credit port.old ≤ P.credit port.new }
    {
        get_written(port, self.data(head) + u64::from(readable), len, room);
    }

    /// With EVENT_IDX, asks for the next signal (VIRTIO 1.2, 2.7.7).
    pub(crate) fn ask_next<P: Port>(&self, port: &mut P, room: &mut Room)
        requires { cost_of_asking (ring_queue self.now) ≤ P.credit port.old }
        ensures gives { Gives P.step P.marking (ask_program used_event_put (ring_queue self.now)) port.old tt port.new }
        ensures credit { P.credit port.old ≤ P.credit port.new + cost_of_asking (ring_queue self.now) }
    {
        if self.cfg.event_idx {
            let location = 4 + 2 * u64::from(self.cfg.size);
            put_u16(port, self.base + DRIVER_AREA + location, self.used, room);
            port.mark();
        }
    }

    /// Asks for a signal per used buffer, or for none, by the flag NO_INTERRUPT (VIRTIO 1.2, 2.7.7).
    pub(crate) fn put_signals<P: Port>(&self, port: &mut P, on: bool, room: &mut Room)
        requires { 1 ≤ P.credit port.old }
        ensures gives { Gives P.step P.marking (split_signals_program (ring_queue self.now) on) port.old (ring_queue self.now) port.new }
        ensures credit { P.credit port.old ≤ P.credit port.new + 1 }
    {
        let flags = if on {
            0
        } else {
            AvailableFlags::NO_INTERRUPT.0
        };
        put_u16(port, self.base + DRIVER_AREA, flags, room);
        port.mark();
    }
}
