//! A queue of a device, as the driver keeps it.

ghost use Rattle.std.specs.Prelude.{◌≡◌, ℕ, ◌<◌, ◌≤◌, List, IfOk, IsTrue, Some, None, false, is_some, length, sum};
ghost use Rattle.std.specs.Option.{option_map};
ghost use Rattle.vt_types.specs.Operation.{posted_buffer};
ghost use Rattle.vt_types.specs.Reply.{Good, reply_value};
ghost use Rattle.vt_types.specs.Within.{IsBufferWithin};
ghost use Rattle.vq_common.specs.Buffer.{IsPostable};
ghost use Rattle.vq_common.specs.Queue.{IsInBlock, holds_tag, is_queue_size, new_driver_queue};
ghost use Rattle.vt_types.specs.Limits.{GREATEST_COST, LONGEST_BUFFER};
ghost use Rattle.state_table.specs.Refusal.{is_full, is_tag_used, is_too_large};
ghost use Rattle.drv_core.specs.Calls.{GivesOnQueue, GivesOnSet, post_to, reap_from, set_signals_of};
ghost use Rattle.drv_core.specs.Driver.{queue_known};

use std::alloc::Global;
use std::marker::Model;
use vq_common::{DriverEnd, Reaped, RingCfg, slots_of};
use vq_split_drv::SplitDriver;
use vt_types::{GREATEST_QUEUE, LONGEST_BUFFER, Memory, Port, PostBuf, Reply, Room, Why};

/// A queue: the driver's end, which is made once, and its size where it is set.
///
/// Contracts see the driver's record of the queue where it is set.
#[derive(Drop)]
pub struct QueueEnd {
    end: SplitDriver,
    size: Option<u16>,
}

impl Model for QueueEnd {
    ghost use Rattle.std.specs.Prelude.{Option};
    ghost use Rattle.vq_common.specs.Queue.{DriverQueue};
    ghost use Rattle.drv_core.specs.Calls.{IsEnd, queue_if};

    ghost Value = { Option DriverQueue };

    ghost view = { λ e. queue_if e.size e.end.queue };

    ghost invariant = { λ e. IsEnd e.size e.end.queue e.end.greatest };
}

/// How many bytes pieces have together.
fn total_len(lengths: &[u16]) -> u32
    requires { length lengths.now ≤ 8 }
    ensures { result ≡ sum lengths.now }
{
    let mut total = 0;
    'pieces: for len in lengths {
        total += u32::from(*len);
    }
    total
}

/// Posts a buffer to a queue that is set.
fn post_to<P: Port>(end: &mut SplitDriver, port: &mut P, buf: &PostBuf) -> Reply
    requires started { 0 < end.old.queue.cfg.size }
    requires postable { IsPostable (posted_buffer buf.now) }
    requires tag { holds_tag buf.now.tag end.old.queue.unreaped ≡ false }
    requires table { IsTrue buf.now.indirect → length buf.now.cuts.items ≤ end.old.queue.cfg.size }
    requires credit { GREATEST_COST ≤ P.credit port.old }
    ensures gives { (bytes : List ℕ) → GivesOnSet P.step P.marking (post_to (posted_buffer buf.now)) end.old.queue port.old (reply_value result bytes) end.new.queue port.new }
    ensures size { end.new.queue.cfg.size ≡ end.old.queue.cfg.size }
    ensures greatest { end.new.greatest ≡ end.old.greatest }
{
    if end.post(port, buf).is_ok() {
        Reply::Good
    } else {
        Reply::Refused(Why::Full)
    }
}

/// Reaps a used buffer of a queue that is set.
fn reap_from<P: Port>(end: &mut SplitDriver, port: &mut P, room: &mut Room) -> Reply
    requires started { 0 < end.old.queue.cfg.size }
    requires credit { GREATEST_COST ≤ P.credit port.old }
    ensures gives { GivesOnSet P.step P.marking reap_from end.old.queue port.old (reply_value result room.new.items) end.new.queue port.new }
    ensures size { end.new.queue.cfg.size ≡ end.old.queue.cfg.size }
    ensures greatest { end.new.greatest ≡ end.old.greatest }
{
    match end.reap(port, room) {
        Some(Reaped { tag, len }) => Reply::Used { tag, len },
        None => Reply::Nothing,
    }
}

/// Asks a queue that is set for a signal per used buffer, or for none.
fn set_signals_of<P: Port>(end: &mut SplitDriver, port: &mut P, on: bool) -> Reply
    requires started { 0 < end.old.queue.cfg.size }
    requires credit { GREATEST_COST ≤ P.credit port.old }
    ensures gives { (bytes : List ℕ) → GivesOnSet P.step P.marking (set_signals_of on) end.old.queue port.old (reply_value result bytes) end.new.queue port.new }
    ensures size { end.new.queue.cfg.size ≡ end.old.queue.cfg.size }
    ensures greatest { end.new.greatest ≡ end.old.greatest }
{
    end.set_signals(port, on);
    Reply::Good
}

impl QueueEnd {
    /// A queue that is not set.
    pub fn new(alloc: Global) -> Result<QueueEnd, Memory>
        ensures { IfOk result (λ e. e ≡ None) }
    {
        let end = SplitDriver::new(alloc, GREATEST_QUEUE)?;
        Ok(QueueEnd { end, size: None })
    }

    /// Whether the queue is set.
    pub fn is_set(&self) -> bool
        ensures { result ≡ is_some (option_map queue_known self.now) }
    {
        self.size.is_some()
    }

    /// Whether a buffer that was not reaped has the tag of this one.
    pub fn is_tag_used(&self, buf: &PostBuf) -> bool
        ensures { result ≡ is_tag_used (option_map queue_known self.now) (posted_buffer buf.now) }
    {
        match self.size {
            Some(_) => self.end.has_tag(buf.tag),
            None => false,
        }
    }

    /// Whether the slots of a buffer exceed the free ones.
    pub fn is_full(&self, buf: &PostBuf) -> bool
        ensures { result ≡ is_full (option_map queue_known self.now) (posted_buffer buf.now) }
    {
        match self.size {
            Some(_) => self.end.free() < slots_of(buf),
            None => false,
        }
    }

    /// Whether a buffer has more than 8,192 bytes, or its table more descriptors than the queue.
    pub fn is_too_large(&self, buf: &PostBuf) -> bool
        ensures { result ≡ is_too_large (option_map queue_known self.now) (posted_buffer buf.now) }
    {
        match self.size {
            Some(size) => {
                total_len(buf.cuts.as_slice()) > LONGEST_BUFFER as u32
                    || (buf.indirect && usize::from(size) < buf.cuts.len())
            }
            None => false,
        }
    }

    /// The queue is not set any more.
    pub fn forget(&mut self)
        ensures { self.new ≡ None }
    {
        self.size = None;
    }

    /// The queue is set.
    pub fn set(&mut self, cfg: &RingCfg, base: u64)
        requires size { IsTrue (is_queue_size cfg.now.size) }
        requires in_block { IsInBlock cfg.now base }
        ensures { self.new ≡ Some (new_driver_queue cfg.now base) }
    {
        self.end.start(cfg, base);
        self.size = Some(cfg.size);
    }

    /// Posts a buffer whose tag is not in use and which is not too large. One whose slots exceed the free ones is refused.
    pub fn post<P: Port>(&mut self, port: &mut P, buf: &PostBuf) -> Reply
        requires within { IsBufferWithin (posted_buffer buf.now) }
        requires tag { is_tag_used (option_map queue_known self.old) (posted_buffer buf.now) ≡ false }
        requires large { is_too_large (option_map queue_known self.old) (posted_buffer buf.now) ≡ false }
        requires credit { GREATEST_COST ≤ P.credit port.old }
        ensures { (bytes : List ℕ) → GivesOnQueue P.step P.marking (post_to (posted_buffer buf.now)) self.old port.old (reply_value result bytes) self.new port.new }
    {
        match self.size {
            Some(_) => post_to(&mut self.end, port, buf),
            None => Reply::Refused(Why::Unset),
        }
    }

    /// Reaps a used buffer; its written bytes are in the room.
    pub fn reap<P: Port>(&mut self, port: &mut P, room: &mut Room) -> Reply
        requires { GREATEST_COST ≤ P.credit port.old }
        ensures { GivesOnQueue P.step P.marking reap_from self.old port.old (reply_value result room.new.items) self.new port.new }
    {
        match self.size {
            Some(_) => reap_from(&mut self.end, port, room),
            None => Reply::Refused(Why::Unset),
        }
    }

    /// Asks for a signal per used buffer, or for none.
    pub fn set_signals<P: Port>(&mut self, port: &mut P, on: bool) -> Reply
        requires { GREATEST_COST ≤ P.credit port.old }
        ensures { (bytes : List ℕ) → GivesOnQueue P.step P.marking (set_signals_of on) self.old port.old (reply_value result bytes) self.new port.new }
    {
        match self.size {
            Some(_) => set_signals_of(&mut self.end, port, on),
            None => Reply::Refused(Why::Unset),
        }
    }
}
