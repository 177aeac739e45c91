//! The driver's side of a ring.

ghost use Rattle.std.specs.Prelude.{◌≡◌, ◌+◌, ◌*◌, ◌%◌, ◌<◌, ◌≤◌, ◌^◌, false, IfOk, IsTrue};
ghost use Rattle.vt_types.specs.Operation.{posted_buffer};
ghost use Rattle.vq_common.specs.Buffer.{IsPostable};
ghost use Rattle.vq_common.specs.Queue.{IsInBlock, is_ring_size, GREATEST_COST_OF_POST};
ghost use Rattle.ring_bench.specs.Ready.{IsReady};

use crate::counts::Counts;
use arrayvec::ArrayVec;
use memory_port::MemoryPort;
use std::alloc::Global;
use vq_common::{DriverEnd, RingCfg};
use vt_types::{Bytes, Memory, PostBuf, Room};

/// The bytes of each piece of a buffer.
const PIECE: u16 = 64;

/// A direct buffer of one readable and one writable piece.
fn buffer(alloc: Global) -> Result<PostBuf, Memory>
    ensures postable { IfOk result (λ b. IsPostable (posted_buffer b)) }
    ensures direct { IfOk result (λ b. b.indirect ≡ false) }
{
    let mut readable = Bytes::new(alloc);
    readable.extend(alloc, &[0u8; PIECE as usize])?;
    let mut cuts = ArrayVec::new();
    cuts.push(PIECE);
    cuts.push(PIECE);
    Ok(PostBuf {
        tag: 0,
        indirect: false,
        readable,
        cuts,
        nread: 1,
    })
}

/// The driver's end of a ring, the buffer that is posted next, and room for what the device wrote.
#[derive(Drop)]
pub struct Guest<D: DriverEnd + Drop> {
    pub driver: D,
    buffer: PostBuf,
    room: Room,
    ghost postable: { IsPostable (posted_buffer buffer) },
    ghost direct: { buffer.indirect ≡ false },
}

impl<D: DriverEnd + Drop> Guest<D> {
    /// A ring in the queue block at `base`, on which nothing was posted yet.
    pub fn new(alloc: Global, cfg: &RingCfg, base: u64) -> Result<Guest<D>, Memory>
        requires size { IsTrue (is_ring_size cfg.now.size) }
        requires in_block { IsInBlock cfg.now base }
        requires unasked { cfg.now.event_idx ≡ false }
        ensures { IfOk result (λ guest. IsReady (D.queue guest.driver)) }
    {
        let mut driver = D::new(alloc, cfg.size)?;
        driver.start(cfg, base);
        Ok(Guest {
            driver,
            buffer: buffer(alloc)?,
            room: Room::new(),
        })
    }

    /// Posts the buffer, and gives the next one the next tag. False where the ring has no room, or the tag is in use.
    fn post_next(&mut self, port: &mut MemoryPort) -> bool
        requires ready { IsReady (D.queue self.old.driver) }
        requires pages { GREATEST_COST_OF_POST ≤ port.old.memory.spare }
        ensures ready { IsReady (D.queue self.new.driver) }
        ensures pages { port.old.memory.spare ≤ port.new.memory.spare + GREATEST_COST_OF_POST }
        ensures tag { IsTrue result → self.new.buffer.tag ≡ (self.old.buffer.tag + 1) % 2 ^ 16 }
    {
        if self.driver.has_tag(self.buffer.tag) {
            return false;
        }
        if self.driver.post(port, &self.buffer).is_err() {
            return false;
        }
        self.buffer.tag = self.buffer.tag.wrapping_add(1);
        true
    }

    /// Posts at most `left` buffers, until the ring is full. Answers how many.
    pub fn post(&mut self, port: &mut MemoryPort, left: u32) -> u32
        requires ready { IsReady (D.queue self.old.driver) }
        requires pages { GREATEST_COST_OF_POST * left ≤ port.old.memory.spare }
        ensures ready { IsReady (D.queue self.new.driver) }
        ensures pages { port.old.memory.spare ≤ port.new.memory.spare + GREATEST_COST_OF_POST * left }
        ensures few { result ≤ left }
    {
        'posts: for posted in 0..left {
            if !self.post_next(port) {
                return posted;
            }
        }
        left
    }

    /// Reaps at most `left` buffers, until none is used, and counts them. Answers how many.
    pub fn reap(&mut self, port: &mut MemoryPort, left: u32, counts: &mut Counts) -> u32
        requires ready { IsReady (D.queue self.old.driver) }
        requires counts { counts.old.buffers + left < 2 ^ 32 }
        ensures ready { IsReady (D.queue self.new.driver) }
        ensures few { result ≤ left }
        ensures counted { counts.new.buffers ≡ counts.old.buffers + result }
    {
        'reaps: for reaped in 0..left {
            let Some(used) = self.driver.reap(port, &mut self.room) else {
                return reaped;
            };
            counts.add(used.len);
        }
        left
    }
}
