//! The accesses of a post.

ghost use Rattle.std.specs.Prelude.{◌≡◌, ◌+◌, ◌<◌, ◌≤◌, ◌^◌, length, sum};
ghost use Rattle.vt_types.specs.Operation.{posted_buffer};
ghost use Rattle.vt_types.specs.Program.{Does, cost_of_all};
ghost use Rattle.vq_common.specs.Buffer.{IsPostable};
ghost use Rattle.vq_common.specs.Piece.{pieces_from};
ghost use Rattle.vq_packed_drv.specs.Driver.{ring_queue};
ghost use Rattle.vq_packed_drv.specs.Post.{chain_puts, direct_puts, indirect_puts, post_puts, ring_puts};

use crate::descriptors::{ChainDescriptors, add_table};
use crate::ring::Ring;
use port_access::{put, put_data};
use vq_common::{PackedDescriptor, PackedFlags, Pieces, TableBytes};
use vt_layout::queue_block::{TABLE_LEN, TABLES};
use vt_types::{Port, PostBuf, Room};

impl Ring {
    /// Puts the descriptors of pieces of these lengths, at positions one after the other.
    fn put_descriptors<P: Port>(
        &self,
        port: &mut P,
        chain: ChainDescriptors,
        lengths: &[u16],
        room: &mut Room,
    )
        requires location { chain.position.location < self.now.cfg.size }
        requires fits { chain.pieces.addr + sum lengths.now < 2 ^ 64 }
        requires credit { cost_of_all (ring_puts self.now.base self.now.cfg.size chain.id chain.position (pieces_from chain.pieces.addr chain.pieces.readable lengths.now)) ≤ P.credit port.old }
        ensures does { Does P.step P.marking (ring_puts self.now.base self.now.cfg.size chain.id chain.position (pieces_from chain.pieces.addr chain.pieces.readable lengths.now)) port.old port.new }
        ensures credit { P.credit port.old ≤ P.credit port.new + cost_of_all (ring_puts self.now.base self.now.cfg.size chain.id chain.position (pieces_from chain.pieces.addr chain.pieces.readable lengths.now)) }
    {
        let mut chain = chain;
        'pieces: for (i, len) in lengths.iter().enumerate() {
            let location = self.location(chain.position.location);
            let descriptor = chain.next_descriptor(self.cfg.size, *len, i + 1 < lengths.len());
            put(port, location, &descriptor.to_bytes(), room);
        }
    }

    /// Puts a buffer's own descriptors: those after the head in order, and then the head.
    fn put_direct<P: Port>(&self, port: &mut P, buf: &PostBuf, id: u16, room: &mut Room)
        requires location { self.now.available.location < self.now.cfg.size }
        requires postable { IsPostable (posted_buffer buf.now) }
        requires credit { cost_of_all (direct_puts (ring_queue self.now) (posted_buffer buf.now) id) ≤ P.credit port.old }
        ensures does { Does P.step P.marking (direct_puts (ring_queue self.now) (posted_buffer buf.now) id) port.old port.new }
        ensures credit { P.credit port.old ≤ P.credit port.new + cost_of_all (direct_puts (ring_queue self.now) (posted_buffer buf.now) id) }
    {
        let [first, rest @ ..] = buf.cuts.as_slice() else {
            return;
        };
        let mut chain = ChainDescriptors {
            id,
            position: self.available,
            pieces: Pieces {
                addr: self.data(id),
                readable: buf.nread,
            },
        };
        let head = chain.next_descriptor(self.cfg.size, *first, !rest.is_empty());
        self.put_descriptors(port, chain, rest, room);
        put(
            port,
            self.location(self.available.location),
            &head.to_bytes(),
            room,
        );
    }

    /// Puts a buffer's table, and the descriptor that names it.
    fn put_indirect<P: Port>(&self, port: &mut P, buf: &PostBuf, id: u16, room: &mut Room)
        requires postable { IsPostable (posted_buffer buf.now) }
        requires credit { cost_of_all (indirect_puts (ring_queue self.now) (posted_buffer buf.now) id) ≤ P.credit port.old }
        ensures does { Does P.step P.marking (indirect_puts (ring_queue self.now) (posted_buffer buf.now) id) port.old port.new }
        ensures credit { P.credit port.old ≤ P.credit port.new + cost_of_all (indirect_puts (ring_queue self.now) (posted_buffer buf.now) id) }
    {
        let pieces = Pieces {
            addr: self.data(id),
            readable: buf.nread,
        };
        let mut table = TableBytes::new();
        add_table(&mut table, pieces, buf.cuts.as_slice());
        let location = self.base + TABLES + TABLE_LEN * u64::from(id);
        put(port, location, table.as_slice(), room);
        let available = PackedFlags::available(self.available.wrap);
        let named = PackedDescriptor {
            addr: location,
            len: table.len() as u32,
            id,
            flags: PackedFlags::INDIRECT.0 + available.0,
        };
        put(
            port,
            self.location(self.available.location),
            &named.to_bytes(),
            room,
        );
    }

    /// Puts a buffer's descriptors.
    fn put_chain<P: Port>(&self, port: &mut P, buf: &PostBuf, id: u16, room: &mut Room)
        requires location { self.now.available.location < self.now.cfg.size }
        requires postable { IsPostable (posted_buffer buf.now) }
        requires credit { cost_of_all (chain_puts (ring_queue self.now) (posted_buffer buf.now) id) ≤ P.credit port.old }
        ensures does { Does P.step P.marking (chain_puts (ring_queue self.now) (posted_buffer buf.now) id) port.old port.new }
        ensures credit { P.credit port.old ≤ P.credit port.new + cost_of_all (chain_puts (ring_queue self.now) (posted_buffer buf.now) id) }
    {
        if buf.indirect {
            self.put_indirect(port, buf, id, room);
        } else {
            self.put_direct(port, buf, id, room);
        }
    }

    /// The accesses of a post with this id: the data, then the descriptors, the head last.
    pub(crate) fn put_buffer<P: Port>(&self, port: &mut P, buf: &PostBuf, id: u16, room: &mut Room)
        requires location { self.now.available.location < self.now.cfg.size }
        requires postable { IsPostable (posted_buffer buf.now) }
        requires credit { cost_of_all (post_puts (ring_queue self.now) (posted_buffer buf.now) id) ≤ P.credit port.old }
        ensures does { Does P.step P.marking (post_puts (ring_queue self.now) (posted_buffer buf.now) id) port.old port.new }
        ensures credit { P.credit port.old ≤ P.credit port.new + cost_of_all (post_puts (ring_queue self.now) (posted_buffer buf.now) id) }
    {
        put_data(port, self.data(id), buf.readable.as_slice(), room);
        self.put_chain(port, buf, id, room);
    }
}
