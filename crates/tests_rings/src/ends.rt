//! What the tests of both ends share: buffers, a driver's end that was started, and the chain that a device's end is shown.

ghost use Rattle.std.specs.Prelude.{◌≡◌, ◌*◌, ◌<◌, ◌≤◌, IfOk, IsTrue, true, length};
ghost use Rattle.vt_types.specs.Operation.{posted_buffer};
ghost use Rattle.vq_common.specs.Buffer.{IsPostable};
ghost use Rattle.vq_common.specs.Piece.{keeps_rules};
ghost use Rattle.vq_common.specs.Queue.{GREATEST_COST_OF_POST, IsInBlock, is_ring_size};

use arrayvec::ArrayVec;
use guest_mem::GuestMem;
use std::alloc::Global;
use std::process::Abort;
use vq_common::{Chain, DeviceEnd, DriverEnd, Reaped, RingCfg, Take, is_ring_size};
use vt_layout::queue_block::{DEVICE_AREA, DRIVER_AREA};
use vt_types::{Bytes, Memory, Port, PostBuf, Room};

/// Where the queue block begins.
pub const BASE: u64 = 0x100_0000;

/// The first readable bytes of each buffer.
pub const READABLE: [u8; 16] = [1, 2, 3, 4, 5, 6, 7, 8, 9, 10, 11, 12, 13, 14, 15, 16];

/// A ring of a size in the queue block, with indirect tables.
pub fn ring(size: u16, event_idx: bool) -> RingCfg
    requires { IsTrue (is_ring_size size) }
    ensures size { result.size ≡ size }
    ensures allowed { IsTrue (is_ring_size result.size) }
    ensures indirect { result.indirect ≡ true }
    ensures in_block { IsInBlock result BASE }
{
    RingCfg {
        desc: BASE,
        driver: BASE + DRIVER_AREA,
        device: BASE + DEVICE_AREA,
        size,
        indirect: true,
        event_idx,
    }
}

/// The bytes of so many readable pieces of two bytes.
fn readable_bytes(alloc: Global, pieces: usize) -> Result<Bytes, Memory>
    requires { pieces ≤ 8 }
    ensures { IfOk result (λ b. length b ≡ 2 * pieces) }
{
    let mut bytes = Bytes::new(alloc);
    bytes.extend(alloc, &READABLE[..2 * pieces])?;
    Ok(bytes)
}

/// A buffer of so many pieces of two bytes, the first of them readable.
pub fn buffer(
    alloc: Global,
    tag: u16,
    pieces: usize,
    readable: usize,
    indirect: bool,
) -> Result<PostBuf, Memory>
    requires some { 1 ≤ pieces }
    requires few { pieces ≤ 8 }
    requires readable { readable ≤ pieces }
    ensures postable { IfOk result (λ b. IsPostable (posted_buffer b)) }
    ensures same { IfOk result
        (λ b. (b.tag ≡ tag) × (b.indirect ≡ indirect) × (length b.cuts.items ≡ pieces)) }
{
    let bytes = readable_bytes(alloc, readable)?;
    let mut cuts = ArrayVec::new();
    'pieces: for _piece in 0..pieces {
        cuts.push(2);
    }
    Ok(PostBuf {
        tag,
        indirect,
        readable: bytes,
        cuts,
        nread: readable as u8,
    })
}

/// A driver's end of a ring of this size.
#[derive(Drop)]
pub struct Started<E: DriverEnd + Drop> {
    pub end: E,
    pub size: u16,
    ghost some: { 0 < size },
    ghost same: { (E.queue end).cfg.size ≡ size },
}

impl<E: DriverEnd + Drop> Started<E> {
    pub fn new(
        rt: &impl Abort,
        alloc: Global,
        size: u16,
        event_idx: bool,
    ) -> Result<Started<E>, Memory> {
        assert!(rt; is_ring_size(size) && size > 0 && size <= 1024);
        let mut end = E::new(alloc, 1024)?;
        end.start(&ring(size, event_idx), BASE);
        Ok(Started { end, size })
    }

    /// Posts a buffer: false where the ring is full.
    pub fn post<P: Port>(&mut self, rt: &impl Abort, port: &mut P, buf: &PostBuf) -> bool
        requires postable { IsPostable (posted_buffer buf.now) }
        requires credit { GREATEST_COST_OF_POST ≤ P.credit port.old }
    {
        assert!(rt; !self.end.has_tag(buf.tag));
        assert!(rt; buf.cuts.len() <= usize::from(self.size));
        self.end.post(port, buf).is_ok()
    }

    pub fn reap<P: Port>(&mut self, port: &mut P, room: &mut Room) -> Option<Reaped>
        requires { 1 ≤ P.credit port.old }
    {
        self.end.reap(port, room)
    }
}

/// The chain that a ring shows next.
pub fn front<D: DeviceEnd>(rt: &impl Abort, device: &mut D, memory: &GuestMem) -> Chain
    ensures rules { IsTrue (keeps_rules (length memory.now.bytes) result.pieces.items) }
    ensures slots { result.slots ≤ (D.queue device.new).cfg.size }
    ensures areas { IsTrue (D.areas_inside (length memory.now.bytes) (D.queue device.new).cfg) }
    ensures ring { (D.queue device.new).cfg ≡ (D.queue device.old).cfg }
{
    let Take::Front(chain) = device.take(memory) else {
        panic!(rt; "no chain is shown");
    };
    chain
}
