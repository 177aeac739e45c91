//! A device, as its driver keeps it.

ghost use Rattle.std.specs.Prelude.{◌≡◌, ℕ, ◌<◌, ◌≤◌, List, IfOk, IsTrue, MatchOption, Some, None, true, length, replicate};
ghost use Rattle.std.specs.Option.{option_map};
ghost use Rattle.vt_types.specs.Limits.{GREATEST_COST};
ghost use Rattle.vt_types.specs.declared.device.Dev.{Dev};
ghost use Rattle.vt_types.specs.Operation.{Disarm, Arm, Notify, Post, Reap, SetQueue, WriteConfig, operation, posted_buffer};
ghost use Rattle.vt_types.specs.Reply.{reply_value};
ghost use Rattle.vt_types.specs.Within.{IsBufferWithin};
ghost use Rattle.vq_common.specs.Queue.{IsInBlock, is_queue_size, new_driver_queue};
ghost use Rattle.state_table.specs.Known.{known_queue};
ghost use Rattle.state_table.specs.Refusal.{is_agreed, is_full, is_queue_set, is_tag_used, is_too_large, is_writable, lacks_queue, refusal_of};
ghost use Rattle.drv_core.specs.Calls.{GivesOnDevice, MayPost, MayReap, MaySetSignals, with_queue};
ghost use Rattle.drv_core.specs.Driver.{known_of, new_device_record, queue_known};
ghost use Rattle.drv_core.specs.Lowering.{post_lowering, reap_lowering, signals_lowering};

use crate::queue_end::QueueEnd;
use crate::refusal::{first_of, greatest_value, is_queue_size, status_before};
use bitflags::Flags;
use std::alloc::Global;
use std::marker::Model;
use vq_common::RingCfg;
use vt_types::{Dev, Features, Field, Memory, Op, Port, PostBuf, Reply, Room, Status, Step, Why};

/// What a driver keeps of a device: whether it was probed, and reset since; the status that it read last; the features that
/// it accepted; and its queues.
#[derive(Drop)]
pub struct DeviceDriver {
    probed: bool,
    reset_since: bool,
    status: u8,
    accepted: Features,
    queues: Vec<QueueEnd>,
}

impl Model for DeviceDriver {
    ghost use Rattle.drv_core.specs.Driver.{DeviceRecord};

    ghost Value = { DeviceRecord };

    ghost view = { λ d. record { probed = d.probed; reset_since = d.reset_since; status = d.status; accepted = d.accepted.0; queues = d.queues.items } };
}

/// So many queues that are not set.
fn unset_queues(alloc: Global, count: u16) -> Result<Vec<QueueEnd>, Memory>
    ensures { IfOk result (λ v. v.items ≡ replicate count None) }
{
    let mut queues = Vec::new(alloc);
    'queues: for _queue in 0..count {
        queues.push(QueueEnd::new(alloc)?)?;
    }
    Ok(queues)
}

/// Forgets all queues.
fn forget_all(queues: &mut [QueueEnd])
    ensures { queues.new ≡ replicate (length queues.old) None }
{
    'queues: for queue in queues.iter_mut() {
        queue.forget();
    }
}

impl DeviceDriver {
    /// A device before the probe.
    pub(crate) fn new(alloc: Global, dev: Dev) -> Result<DeviceDriver, Memory>
        ensures { IfOk result (λ d. d ≡ new_device_record dev) }
    {
        Ok(DeviceDriver {
            probed: false,
            reset_since: false,
            status: 0,
            accepted: Features(0),
            queues: unset_queues(alloc, dev.queues())?,
        })
    }

    /// The features that were accepted.
    pub fn accepted(&self) -> Features
        ensures { result.0 ≡ self.now.accepted }
    {
        self.accepted
    }

    /// A queue, where the device has it.
    fn queue(&self, number: u16) -> Option<&QueueEnd>
        ensures { MatchOption result (known_queue (known_of self.now) number ≡ None) (λ q. known_queue (known_of self.now) number ≡ option_map queue_known q.now) }
    {
        self.queues.get(usize::from(number))
    }

    /// Whether the features are agreed on; the device may run already.
    fn is_agreed(&self) -> bool
        ensures { result ≡ is_agreed (known_of self.now) }
    {
        self.status == Step::FeatOk.status() || self.status == Step::DrvOk.status()
    }

    /// Whether the device has no queue of this number.
    fn lacks_queue(&self, number: u16) -> bool
        ensures { result ≡ lacks_queue (known_of self.now) number }
    {
        self.queues.len() <= usize::from(number)
    }

    /// Whether a queue is set.
    fn is_queue_set(&self, number: u16) -> bool
        ensures { result ≡ is_queue_set (known_of self.now) number }
    {
        match self.queue(number) {
            Some(queue) => queue.is_set(),
            None => false,
        }
    }

    /// Whether a buffer of the queue that was not reaped has the tag of this one.
    fn is_tag_used(&self, number: u16, buf: &PostBuf) -> bool
        ensures { result ≡ is_tag_used (known_queue (known_of self.now) number) (posted_buffer buf.now) }
    {
        match self.queue(number) {
            Some(queue) => queue.is_tag_used(buf),
            None => false,
        }
    }

    /// Whether the slots of a buffer exceed the free ones of the queue.
    fn is_full(&self, number: u16, buf: &PostBuf) -> bool
        ensures { result ≡ is_full (known_queue (known_of self.now) number) (posted_buffer buf.now) }
    {
        match self.queue(number) {
            Some(queue) => queue.is_full(buf),
            None => false,
        }
    }

    /// Whether a buffer is too large for the queue.
    fn is_too_large(&self, number: u16, buf: &PostBuf) -> bool
        ensures { result ≡ is_too_large (known_queue (known_of self.now) number) (posted_buffer buf.now) }
    {
        match self.queue(number) {
            Some(queue) => queue.is_too_large(buf),
            None => false,
        }
    }

    /// Whether a field can be written now: writeback only where CONFIG_WCE was accepted and FEATURES_OK stands (VIRTIO 1.2,
    /// 5.2.5).
    fn is_writable(&self, field: Field) -> bool
        ensures { result ≡ is_writable (known_of self.now) field }
    {
        match field {
            Field::Writeback => {
                self.accepted.contains(Features::BLK_CONFIG_WCE)
                    && Status(self.status).contains(Status::FEATURES_OK)
            }
            Field::Emerg => true,
            Field::Capacity
            | Field::SegMax
            | Field::BlkSize
            | Field::Mac
            | Field::NetStatus
            | Field::Cols
            | Field::Rows
            | Field::Ports => false,
        }
    }

    /// Why a queue is not set up.
    fn set_queue_refusal(&self, number: u16, size: u16) -> Option<Why>
        ensures { (dev : Dev) → result ≡ refusal_of (known_of self.now) (SetQueue dev number size) }
    {
        first_of(&[
            (self.status != Step::FeatOk.status(), Why::State),
            (self.lacks_queue(number), Why::Queue),
            (!is_queue_size(size), Why::Size),
            (self.is_queue_set(number), Why::Set),
        ])
    }

    /// Why a buffer is not posted.
    fn post_refusal(&self, number: u16, buf: &PostBuf) -> Option<Why>
        ensures { (dev : Dev) → result ≡ refusal_of (known_of self.now) (Post dev number (posted_buffer buf.now)) }
    {
        first_of(&[
            (!self.is_agreed(), Why::State),
            (self.lacks_queue(number), Why::Queue),
            (!self.is_queue_set(number), Why::Unset),
            (self.is_tag_used(number, buf), Why::Tag),
            (self.is_full(number, buf), Why::Full),
            (self.is_too_large(number, buf), Why::Range),
            (
                buf.indirect && !self.accepted.contains(Features::INDIRECT_DESC),
                Why::Mode,
            ),
        ])
    }

    /// Why a queue is not notified.
    fn notify_refusal(&self, number: u16) -> Option<Why>
        ensures { (dev : Dev) → result ≡ refusal_of (known_of self.now) (Notify dev number) }
    {
        first_of(&[
            (self.status != Step::DrvOk.status(), Why::State),
            (self.lacks_queue(number), Why::Queue),
            (!self.is_queue_set(number), Why::Unset),
        ])
    }

    /// Why no buffer is reaped.
    fn reap_refusal(&self, number: u16) -> Option<Why>
        ensures { (dev : Dev) → result ≡ refusal_of (known_of self.now) (Reap dev number) }
    {
        first_of(&[
            (!self.is_agreed(), Why::State),
            (self.lacks_queue(number), Why::Queue),
            (!self.is_queue_set(number), Why::Unset),
        ])
    }

    /// Why signals are not asked for, nor for none: with EVENT_IDX they are asked for by an index (VIRTIO 1.2, 2.7.7).
    fn signals_refusal(&self, number: u16) -> Option<Why>
        ensures arm { (dev : Dev) → result ≡ refusal_of (known_of self.now) (Arm dev number) }
        ensures disarm { (dev : Dev) → result ≡ refusal_of (known_of self.now) (Disarm dev number) }
    {
        first_of(&[
            (!self.is_agreed(), Why::State),
            (self.lacks_queue(number), Why::Queue),
            (!self.is_queue_set(number), Why::Unset),
            (self.accepted.contains(Features::EVENT_IDX), Why::Mode),
        ])
    }

    /// Why a field is not written.
    fn write_refusal(&self, field: Field, value: u32) -> Option<Why>
        ensures { (dev : Dev) → result ≡ refusal_of (known_of self.now) (WriteConfig dev field value) }
    {
        first_of(&[
            (!self.reset_since, Why::State),
            (greatest_value(field) < value, Why::Range),
            (!self.is_writable(field), Why::Mode),
        ])
    }

    /// Why an operation on the device is refused. None exactly where it is not.
    pub fn refusal(&self, op: &Op) -> Option<Why>
        ensures { result ≡ refusal_of (known_of self.now) (operation op.now) }
    {
        match op {
            Op::Probe(_) => first_of(&[(self.probed, Why::State)]),
            Op::Reset(_) => first_of(&[(!self.probed, Why::State)]),
            Op::Features(_)
            | Op::GetStatus(_)
            | Op::ReadCfg(_, _)
            | Op::IrqQueues(_)
            | Op::IrqConfig(_) => first_of(&[(!self.reset_since, Why::State)]),
            Op::Accept(_, _) => first_of(&[(self.status != Step::Driver.status(), Why::State)]),
            Op::Status(_, step) => {
                let follows = self.reset_since && self.status == status_before(*step);
                first_of(&[(!follows, Why::State)])
            }
            Op::SetQ(_, queue, size) => self.set_queue_refusal(*queue, *size),
            Op::Post(_, queue, buf) => self.post_refusal(*queue, buf),
            Op::Notify(_, queue) => self.notify_refusal(*queue),
            Op::Reap(_, queue) => self.reap_refusal(*queue),
            Op::Arm(_, queue) => self.signals_refusal(*queue),
            Op::Disarm(_, queue) => self.signals_refusal(*queue),
            Op::WriteCfg(_, field, value) => self.write_refusal(*field, *value),
        }
    }

    /// The device was probed.
    pub(crate) fn set_probed(&mut self)
        ensures { self.new ≡ record self.old { probed = true } }
    {
        self.probed = true;
    }

    /// The device was reset, and this status was read back.
    pub(crate) fn reset(&mut self, status: u8)
        ensures { self.new ≡ record self.old { reset_since = true; status = status; accepted = 0; queues = replicate (length self.old.queues) None } }
    {
        self.reset_since = true;
        self.status = status;
        self.accepted = Features(0);
        forget_all(&mut self.queues);
    }

    /// This status was read.
    pub(crate) fn set_status(&mut self, status: u8)
        ensures { self.new ≡ record self.old { status = status } }
    {
        self.status = status;
    }

    /// These features were accepted.
    pub(crate) fn set_accepted(&mut self, features: Features)
        ensures { self.new ≡ record self.old { accepted = features.0 } }
    {
        self.accepted = features;
    }

    /// A queue was set.
    pub(crate) fn set_queue(&mut self, number: u16, cfg: &RingCfg, base: u64)
        requires number { number < length self.old.queues }
        requires size { IsTrue (is_queue_size cfg.now.size) }
        requires in_block { IsInBlock cfg.now base }
        ensures { self.new ≡ with_queue self.old number (Some (new_driver_queue cfg.now base)) }
    {
        self.queues[usize::from(number)].set(cfg, base);
    }

    /// Posts a buffer, which was not refused.
    pub(crate) fn post<P: Port>(&mut self, port: &mut P, number: u16, buf: &PostBuf) -> Reply
        requires within { IsBufferWithin (posted_buffer buf.now) }
        requires allowed { MayPost self.old number (posted_buffer buf.now) }
        requires credit { GREATEST_COST ≤ P.credit port.old }
        ensures gives { (bytes : List ℕ) → GivesOnDevice P.step P.marking (λ known dev. post_lowering known dev number (posted_buffer buf.now)) self.old port.old (reply_value result bytes) self.new port.new }
        ensures queues { length self.new.queues ≡ length self.old.queues }
    {
        self.queues[usize::from(number)].post(port, buf)
    }

    /// Reaps a used buffer, which was not refused; its written bytes are in the room.
    pub(crate) fn reap<P: Port>(&mut self, port: &mut P, number: u16, room: &mut Room) -> Reply
        requires allowed { MayReap self.old number }
        requires credit { GREATEST_COST ≤ P.credit port.old }
        ensures gives { GivesOnDevice P.step P.marking (λ known dev. reap_lowering known dev number) self.old port.old (reply_value result room.new.items) self.new port.new }
        ensures queues { length self.new.queues ≡ length self.old.queues }
    {
        self.queues[usize::from(number)].reap(port, room)
    }

    /// Asks for a signal per used buffer, or for none.
    pub(crate) fn set_signals<P: Port>(&mut self, port: &mut P, number: u16, on: bool) -> Reply
        requires allowed { MaySetSignals self.old number }
        requires credit { GREATEST_COST ≤ P.credit port.old }
        ensures gives { (bytes : List ℕ) → GivesOnDevice P.step P.marking (λ known dev. signals_lowering known dev number on) self.old port.old (reply_value result bytes) self.new port.new }
        ensures queues { length self.new.queues ≡ length self.old.queues }
    {
        self.queues[usize::from(number)].set_signals(port, on)
    }
}
