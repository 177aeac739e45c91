//! The accesses of a reap, and those that ask for signals.

ghost use Rattle.std.specs.Prelude.{◌≡◌, ◌+◌, ◌*◌, ◌<◌, ◌≤◌, ◌^◌};
ghost use Rattle.vt_types.specs.Limits.{LONGEST_BUFFER};
ghost use Rattle.vt_types.specs.Program.{Gives};
ghost use Rattle.port_access.specs.Accesses.{bytes_program, get_bytes};
ghost use Rattle.vt_layout.specs.QueueBlock.{data_address};
ghost use Rattle.vq_common.specs.PackedDescriptor.{packed_descriptor_in};
ghost use Rattle.vq_common.specs.Queue.{cost_of_asking};
ghost use Rattle.vq_posted.specs.Reap.{ask_program};
ghost use Rattle.vq_packed_drv.specs.Driver.{ring_queue};
ghost use Rattle.vq_packed_drv.specs.Reap.{event_put, packed_signals_program};

use crate::ring::Ring;
use byteorder::{ByteOrder, LittleEndian};
use port_access::{get, get_written, put, put_u16};
use vq_common::{PackedDescriptor, event};
use vt_layout::queue_block::DRIVER_AREA;
use vt_types::{Port, Room};

impl Ring {
    /// Gets the descriptor at the next used position.
    pub(crate) fn get_descriptor<P: Port>(&self, port: &mut P, room: &mut Room) -> PackedDescriptor
        ensures gives { Gives P.step P.marking (get_bytes (self.now.base + 16 * self.now.used.location) 16) port.old room.new.items port.new }
        ensures value { result ≡ packed_descriptor_in room.new.items }
        ensures credit { P.credit port.old ≤ P.credit port.new }
    {
        get(port, self.location(self.used.location), 16, room);
        PackedDescriptor::from_bytes(room.as_slice())
    }

    /// Gets the bytes that the device wrote behind the readable ones of the buffer with this id.
    pub(crate) fn get_data<P: Port>(
        &self,
        port: &mut P,
        id: u16,
        readable: u16,
        len: u16,
        room: &mut Room,
    )
        requires { len ≤ LONGEST_BUFFER }
        ensures gives { Gives P.step P.marking (bytes_program (data_address self.now.base id + readable) len) port.old room.new.items port.new }
        ensures credit { P.credit port.old ≤ P.credit port.new }
    {
        get_written(port, self.data(id) + u64::from(readable), len, room);
    }

    /// With EVENT_IDX, asks for a signal at the next used position (VIRTIO 1.2, 2.8.14).
    pub(crate) fn ask_next<P: Port>(&self, port: &mut P, room: &mut Room)
        requires location { self.now.used.location < 2 ^ 15 }
        requires credit { cost_of_asking (ring_queue self.now) ≤ P.credit port.old }
        ensures gives { Gives P.step P.marking (ask_program event_put (ring_queue self.now)) port.old tt port.new }
        ensures credit { P.credit port.old ≤ P.credit port.new + cost_of_asking (ring_queue self.now) }
    {
        if self.cfg.event_idx {
            let mut bytes = [0u8; 4];
            LittleEndian::write_u16(&mut bytes, self.used.to_event_word());
            LittleEndian::write_u16(&mut bytes[2..], event::AT_POSITION);
            put(port, self.base + DRIVER_AREA, &bytes, room);
            port.mark();
        }
    }

    /// Asks for a signal per used buffer, or for none (VIRTIO 1.2, 2.8.14).
    pub(crate) fn put_signals<P: Port>(&self, port: &mut P, on: bool, room: &mut Room)
        requires { 1 ≤ P.credit port.old }
        ensures gives { Gives P.step P.marking (packed_signals_program (ring_queue self.now) on) port.old (ring_queue self.now) port.new }
        ensures credit { P.credit port.old ≤ P.credit port.new + 1 }
    {
        let flags = if on { event::ENABLE } else { event::DISABLE };
        put_u16(port, self.base + DRIVER_AREA + 2, flags, room);
        port.mark();
    }
}
