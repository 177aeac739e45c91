//! The driver's end of a queue.

ghost use Rattle.std.specs.Prelude.{◌≡◌, ℕ, ◌+◌, ◌<◌, ◌≤◌, List, Bool, Option, IsTrue, is_ok, IfOk, nat_le, false, length};
ghost use Rattle.vt_types.specs.Limits.{MOST_PIECES};
ghost use Rattle.vt_types.specs.Operation.{PostedBuffer, posted_buffer};
ghost use Rattle.vt_types.specs.Program.{Program, Gives, cost_of_all};
ghost use Rattle.vt_types.specs.Access.{AccessValue};
ghost use Rattle.vq_common.specs.Buffer.{IsPostable};
ghost use Rattle.vq_common.specs.Queue.{DriverQueue, ReapedValue, IsInBlock, KeepsBlock, GREATEST_COST_OF_POST, new_driver_queue, free_slots, slots_of, holds_tag, post_program, cost_of_post, cost_of_reap, cost_of_reaped, reaped_value, is_ring_size};

use crate::chain::RingCfg;
use std::alloc::Global;
use vt_types::{Memory, Port, PostBuf, Room};

/// The buffer's slots exceed the free ones.
#[derive(Clone, Copy, Debug, PartialEq, Eq)]
pub struct Full;

/// A used buffer: its tag, and how many bytes the device wrote.
#[derive(Clone, Copy, Debug, PartialEq, Eq)]
pub struct Reaped {
    pub tag: u16,
    pub len: u32,
}

/// The slots that a buffer takes of a ring: one for an indirect table, else one for each piece.
pub fn slots_of(buf: &PostBuf) -> u16
    ensures value { result ≡ slots_of (posted_buffer buf.now) }
    ensures few { result ≤ MOST_PIECES }
{
    if buf.indirect {
        1
    } else {
        buf.cuts.len() as u16
    }
}

/// A driver's end of a queue of either kind, over any port.
///
/// Before the first `start` the queue has size 0.
pub trait DriverEnd: Sized {
    /// The driver's record of the queue.
    ghost queue: { Self → DriverQueue };

    /// What holds of the record of every end.
    ghost in_order: { DriverQueue → Type 0 };

    /// The greatest size that a queue may be started with.
    ghost greatest: { Self → ℕ };

    /// The accesses that post a buffer, the last of them marked.
    ghost post_accesses: { DriverQueue → PostedBuffer → List AccessValue };

    /// The record once a buffer is posted.
    ghost posted: { DriverQueue → PostedBuffer → DriverQueue };

    /// The accesses of a reap, with what is reaped and the record after it.
    ghost reap_program: { DriverQueue → Program (Option ReapedValue × DriverQueue) };

    /// The accesses that ask for signals or for none.
    ghost signals_program: { DriverQueue → Bool → Program DriverQueue };

    /// An end for queues of up to `max` locations; none is started.
    fn new(alloc: Global, max: u16) -> Result<Self, Memory>
        ensures { IfOk result (λ d. (greatest d ≡ max) × ((queue d).cfg.size ≡ 0)) };

    /// Begins a queue: no buffer is unreaped. The size is a power of two, at most `max` and at most that of the greatest ring; `base` is a
    /// queue block and the three areas are its own.
    fn start(&mut self, cfg: &RingCfg, base: u64)
        requires size { IsTrue (is_ring_size cfg.now.size) }
        requires greatest { cfg.now.size ≤ greatest self.old }
        requires in_block { IsInBlock cfg.now base }
        ensures queue { queue self.new ≡ new_driver_queue cfg.now base }
        ensures greatest { greatest self.new ≡ greatest self.old };

    /// The size less the slots of the unreaped buffers.
    fn free(&self) -> u16
        ensures value { result ≡ free_slots (queue self.now) }
        ensures order { in_order (queue self.now) };

    /// Whether an unreaped buffer has this tag.
    fn has_tag(&self, tag: u16) -> bool
        ensures { result ≡ holds_tag tag (queue self.now).unreaped };

    /// Posts a buffer. `Full` comes exactly where its slots exceed the free ones; then no access is made and no credit
    /// is needed.
    fn post<P: Port>(&mut self, port: &mut P, buf: &PostBuf) -> Result<(), Full>
        requires started { 0 < (queue self.old).cfg.size }
        requires postable { IsPostable (posted_buffer buf.now) }
        requires tag { holds_tag buf.now.tag (queue self.old).unreaped ≡ false }
        requires table { IsTrue buf.now.indirect → length buf.now.cuts.items ≤ (queue self.old).cfg.size }
        requires credit { cost_of_post post_accesses (queue self.old) (posted_buffer buf.now) ≤ P.credit port.old }
        ensures gives { Gives P.step P.marking (post_program post_accesses posted (queue self.old) (posted_buffer buf.now)) port.old (is_ok result, queue self.new) port.new }
        ensures full { is_ok result ≡ nat_le (slots_of (posted_buffer buf.now)) (free_slots (queue self.old)) }
        ensures credit { P.credit port.old ≤ P.credit port.new + cost_of_post post_accesses (queue self.old) (posted_buffer buf.now) }
        ensures order { in_order (queue self.old) }
        ensures block { KeepsBlock (queue self.old) (queue self.new) }
        ensures greatest { greatest self.new ≡ greatest self.old };

    /// Reaps the next used buffer; its written bytes are in the room. None where nothing counts as used. Credit is
    /// needed where a buffer can be reaped and the reap asks for the next signal.
    fn reap<P: Port>(&mut self, port: &mut P, room: &mut Room) -> Option<Reaped>
        requires started { 0 < (queue self.old).cfg.size }
        requires credit { cost_of_reap (queue self.old) ≤ P.credit port.old }
        ensures gives { Gives P.step P.marking (reap_program (queue self.old)) port.old (reaped_value result room.new.items, queue self.new) port.new }
        ensures credit { P.credit port.old ≤ P.credit port.new + cost_of_reaped (queue self.old) (reaped_value result room.new.items) }
        ensures block { KeepsBlock (queue self.old) (queue self.new) }
        ensures greatest { greatest self.new ≡ greatest self.old };

    /// Asks for a signal per used buffer, or for none.
    fn set_signals<P: Port>(&mut self, port: &mut P, on: bool)
        requires started { 0 < (queue self.old).cfg.size }
        requires credit { 1 ≤ P.credit port.old }
        ensures gives { Gives P.step P.marking (signals_program (queue self.old) on) port.old (queue self.new) port.new }
        ensures credit { P.credit port.old ≤ P.credit port.new + 1 }
        ensures block { KeepsBlock (queue self.old) (queue self.new) }
        ensures greatest { greatest self.new ≡ greatest self.old };

    /// A post of a buffer that may be posted costs a port at most `GREATEST_COST_OF_POST`.
    ghost cost: { (q : DriverQueue) (b : PostedBuffer) → IsPostable b → cost_of_all (post_accesses q b) ≤ GREATEST_COST_OF_POST };
}
