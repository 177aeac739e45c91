//! The accesses of a post.

ghost use Rattle.std.specs.Prelude.{◌≡◌, ◌+◌, ◌<◌, ◌≤◌, length};
ghost use Rattle.std.specs.List.{slice_get};
ghost use Rattle.vt_types.specs.Limits.{LONGEST_BUFFER};
ghost use Rattle.vt_types.specs.Operation.{posted_buffer};
ghost use Rattle.vt_types.specs.Program.{Does, cost_of_all};
ghost use Rattle.vq_common.specs.Buffer.{IsPostable};
ghost use Rattle.vt_layout.specs.QueueBlock.{data_address};
ghost use Rattle.vq_common.specs.Queue.{slots_of};
ghost use Rattle.vq_split_drv.specs.Driver.{ring_queue};
ghost use Rattle.port_access.specs.Accesses.{data_puts};
ghost use Rattle.vq_split_drv.specs.Post.{available_puts, chain_puts, direct_puts, indirect_puts, post_puts};

use crate::pieces::{add_table, describe};
use crate::ring::Ring;
use port_access::{put, put_data, put_u16};
use vq_common::{Descriptor, DescriptorFlags, Pieces, TableBytes, ring_location};
use vq_posted::head;
use vt_layout::queue_block::{DRIVER_AREA, TABLE_LEN, TABLES};
use vt_types::{Port, PostBuf, Room};

/// The location with this number, where there is one.
fn location_at(locations: &[u16], i: usize) -> Option<u16>
    ensures { result ≡ slice_get locations.now i }
{
    locations.get(i).copied()
}

impl Ring {
    /// Puts the readable bytes, where there are any.
    fn put_data<P: Port>(&self, port: &mut P, buf: &PostBuf, head: u16, room: &mut Room)
        requires few { length buf.now.readable ≤ LONGEST_BUFFER }
        requires credit { cost_of_all (data_puts (data_address self.now.base head) buf.now.readable) ≤ P.credit port.old }
        ensures does { Does P.step P.marking (data_puts (data_address self.now.base head) buf.now.readable) port.old port.new }
        ensures credit { P.credit port.old ≤ P.credit port.new + cost_of_all (data_puts (data_address self.now.base head) buf.now.readable) }
    {
        put_data(port, self.data(head), buf.readable.as_slice(), room);
    }

    /// Puts a buffer's own descriptors, each at its location of the ring.
    fn put_direct<P: Port>(&self, port: &mut P, buf: &PostBuf, locations: &[u16], room: &mut Room)
        requires postable { IsPostable (posted_buffer buf.now) }
        requires locations { length locations.now ≡ length buf.now.cuts.items }
        requires credit { cost_of_all (direct_puts (ring_queue self.now) (posted_buffer buf.now) locations.now) ≤ P.credit port.old }
        ensures does { Does P.step P.marking (direct_puts (ring_queue self.now) (posted_buffer buf.now) locations.now) port.old port.new }
        ensures credit { P.credit port.old ≤ P.credit port.new + cost_of_all (direct_puts (ring_queue self.now) (posted_buffer buf.now) locations.now) }
    {
        let mut pieces = Pieces {
            addr: self.data(head(locations)),
            readable: buf.nread,
        };
        'pieces: for (i, len) in buf.cuts.as_slice().iter().enumerate() {
            let descriptor = describe(&mut pieces, *len, location_at(locations, i + 1));
            let location = self.base + 16 * u64::from(locations[i]);
            put(port, location, &descriptor.to_bytes(), room);
        }
    }

    /// Puts a buffer's table, and the descriptor that names it.
    fn put_indirect<P: Port>(&self, port: &mut P, buf: &PostBuf, head: u16, room: &mut Room)
        requires postable { IsPostable (posted_buffer buf.now) }
        requires credit { cost_of_all (indirect_puts (ring_queue self.now) (posted_buffer buf.now) head) ≤ P.credit port.old }
        ensures does { Does P.step P.marking (indirect_puts (ring_queue self.now) (posted_buffer buf.now) head) port.old port.new }
        ensures credit { P.credit port.old ≤ P.credit port.new + cost_of_all (indirect_puts (ring_queue self.now) (posted_buffer buf.now) head) }
    {
        let pieces = Pieces {
            addr: self.data(head),
            readable: buf.nread,
        };
        let mut table = TableBytes::new();
        add_table(&mut table, pieces, buf.cuts.as_slice());
        let location = self.base + TABLES + TABLE_LEN * u64::from(head);
        put(port, location, table.as_slice(), room);
        let named = Descriptor {
            addr: location,
            len: table.len() as u32,
            flags: DescriptorFlags::INDIRECT.0,
            next: 0,
        };
        let location = self.base + 16 * u64::from(head);
        put(port, location, &named.to_bytes(), room);
    }

    /// Puts a buffer's descriptors.
    fn put_chain<P: Port>(&self, port: &mut P, buf: &PostBuf, locations: &[u16], room: &mut Room)
        requires postable { IsPostable (posted_buffer buf.now) }
        requires locations { length locations.now ≡ slots_of (posted_buffer buf.now) }
        requires credit { cost_of_all (chain_puts (ring_queue self.now) (posted_buffer buf.now) locations.now) ≤ P.credit port.old }
        ensures does { Does P.step P.marking (chain_puts (ring_queue self.now) (posted_buffer buf.now) locations.now) port.old port.new }
        ensures credit { P.credit port.old ≤ P.credit port.new + cost_of_all (chain_puts (ring_queue self.now) (posted_buffer buf.now) locations.now) }
    {
        if buf.indirect {
            self.put_indirect(port, buf, head(locations), room);
        } else {
            self.put_direct(port, buf, locations, room);
        }
    }

    /// Puts the ring entry, and then the index (VIRTIO 1.2, 2.7.13).
    fn put_available<P: Port>(&self, port: &mut P, head: u16, room: &mut Room)
        requires started { 0 < self.now.cfg.size }
        requires credit { cost_of_all (available_puts (ring_queue self.now) head) ≤ P.credit port.old }
        ensures does { Does P.step P.marking (available_puts (ring_queue self.now) head) port.old port.new }
        ensures credit { P.credit port.old ≤ P.credit port.new + cost_of_all (available_puts (ring_queue self.now) head) }
    {
        let area = self.base + DRIVER_AREA;
        let entry = area + (4 + 2 * u64::from(ring_location(self.available, self.cfg.size)));
        put_u16(port, entry, head, room);
        put_u16(port, area + 2, self.available.wrapping_add(1), room);
    }

    /// The accesses of a post with the descriptors at these locations: the data, the descriptors, the ring entry, the index.
    pub(crate) fn put_buffer<P: Port>(
        &self,
        port: &mut P,
        buf: &PostBuf,
        locations: &[u16],
        room: &mut Room,
    )
        requires started { 0 < self.now.cfg.size }
        requires postable { IsPostable (posted_buffer buf.now) }
        requires locations { length locations.now ≡ slots_of (posted_buffer buf.now) }
        requires credit { cost_of_all (post_puts (ring_queue self.now) (posted_buffer buf.now) locations.now) ≤ P.credit port.old }
        ensures does { Does P.step P.marking (post_puts (ring_queue self.now) (posted_buffer buf.now) locations.now) port.old port.new }
        ensures credit { P.credit port.old ≤ P.credit port.new + cost_of_all (post_puts (ring_queue self.now) (posted_buffer buf.now) locations.now) }
    {
        let first = head(locations);
        self.put_data(port, buf, first, room);
        self.put_chain(port, buf, locations, room);
        self.put_available(port, first, room);
    }
}
