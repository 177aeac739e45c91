//! What every device has.

ghost use Rattle.std.specs.Prelude.{◌≡◌, ◌<◌, ◌≤◌, IsTrue, nat_lt, true, None, Some, IfOk, MatchOption, length, replicate, slice_get};
ghost use Rattle.dev_status.specs.Status.{accept_of, feature_word, needs_reset_of};
ghost use Rattle.vq_common.specs.Queue.{is_queue_size};
ghost use Rattle.dev_core.specs.Device.{is_queue_set, kick_queue, may_set, new_device, next_generation, reset_device, set_device_queue, unset, unset_device_queue, write_device_status};
ghost use Rattle.dev_core.specs.Serve.{is_driven};

use crate::queue::Queue;
use bitflags::Flags;
use dev_status::StatusMachine;
use std::alloc::Global;
use std::marker::Model;
use vq_common::{RingCfg, is_ring_size};
use vt_types::{Features, GREATEST_QUEUE, Memory, Status};

/// A device's status machine, the generation of its configuration, and its queues.
#[derive(Drop)]
pub struct Device {
    status: StatusMachine,
    generation: u32,
    pub(crate) queues: Vec<Queue>,
}

impl Model for Device {
    ghost use Rattle.dev_core.specs.Device.{DeviceState};

    ghost Value = { DeviceState };

    ghost view = { λ d. record { status = d.status; generation = d.generation; queues = d.queues.items } };
}

/// So many queues that are not set.
fn unset_queues(alloc: Global, count: u16) -> Result<Vec<Queue>, Memory>
    ensures { IfOk result (λ v. v.items ≡ replicate count unset) }
{
    let mut queues = Vec::new(alloc);
    'queues: for _queue in 0..count {
        queues.push(Queue::new())?;
    }
    Ok(queues)
}

/// Unsets all queues.
fn unset_all(queues: &mut [Queue])
    ensures { queues.new ≡ replicate (length queues.old) unset }
{
    'queues: for queue in queues.iter_mut() {
        queue.unset();
    }
}

impl Device {
    /// A device that offers these features and has so many queues, after a reset.
    pub fn new(alloc: Global, offered: Features, queues: u16) -> Result<Device, Memory>
        ensures { IfOk result (λ d. d ≡ new_device offered.0 queues) }
    {
        Ok(Device {
            status: StatusMachine::new(offered),
            generation: 0,
            queues: unset_queues(alloc, queues)?,
        })
    }

    /// The status byte.
    pub fn status(&self) -> u8
        ensures { result ≡ self.now.status.status }
    {
        self.status.status()
    }

    /// A word of 32 bits of the offered features, the low one first; 0 past the second.
    pub fn offered(&self, index: u32) -> u32
        ensures { result ≡ feature_word self.now.status.offered index }
    {
        self.status.offered(index)
    }

    /// The features that the driver accepted.
    pub fn accepted(&self) -> Features
        ensures { result.0 ≡ self.now.status.accepted }
    {
        self.status.accepted()
    }

    /// How often the configuration changed, modulo 2^32.
    pub fn generation(&self) -> u32
        ensures { result ≡ self.now.generation }
    {
        self.generation
    }

    /// Whether the driver runs the device: DRIVER_OK stands and DEVICE_NEEDS_RESET does not.
    pub fn is_driven(&self) -> bool
        ensures { result ≡ is_driven self.now.status }
    {
        let status = Status(self.status());
        status.contains(Status::DRIVER_OK) && !status.contains(Status::DEVICE_NEEDS_RESET)
    }

    /// The driver accepts a word of features.
    pub fn accept(&mut self, index: u32, word: u32)
        ensures { self.new ≡ record self.old { status = accept_of index word self.old.status } }
    {
        self.status.accept(index, word);
    }

    /// The configuration changed.
    pub fn change(&mut self)
        ensures { self.new ≡ next_generation self.old }
    {
        self.generation = self.generation.wrapping_add(1);
    }

    /// The device met an error that only a reset ends (VIRTIO 1.2, 2.1.2).
    pub fn needs_reset(&mut self)
        ensures { self.new ≡ record self.old { status = needs_reset_of self.old.status } }
    {
        self.status.needs_reset();
    }

    /// Resets the device. The generation stays.
    pub fn reset(&mut self)
        ensures { self.new ≡ reset_device self.old }
    {
        self.status.reset();
        unset_all(&mut self.queues);
    }

    /// Writes the status byte; 0 resets the device.
    pub fn write_status(&mut self, v: u8)
        ensures { self.new ≡ write_device_status v self.old }
    {
        if v == 0 {
            self.reset();
        } else {
            self.status.write(v);
        }
    }

    /// A queue, where the device has it.
    fn queue(&self, number: u16) -> Option<&Queue>
        ensures { MatchOption result (slice_get self.now.queues number ≡ None) (λ q. slice_get self.now.queues number ≡ Some q.now) }
    {
        self.queues.get(number as usize)
    }

    /// Whether a queue is set; one that the device doesn't have isn't.
    pub fn is_set(&self, number: u16) -> bool
        ensures { result ≡ is_queue_set (slice_get self.now.queues number) }
    {
        match self.queue(number) {
            Some(queue) => queue.is_set(),
            None => false,
        }
    }

    /// How many queues the device has.
    pub fn queues(&self) -> u16
        requires { length self.now.queues ≤ 65535 }
        ensures { result ≡ length self.now.queues }
    {
        self.queues.len() as u16
    }

    /// Whether the device has a queue.
    pub fn has_queue(&self, number: u16) -> bool
        ensures { result ≡ nat_lt number (length self.now.queues) }
    {
        (number as usize) < self.queues.len()
    }

    /// Whether a queue may be set: the device has it, it is not set, and the size is allowed.
    fn may_set(&self, number: u16, cfg: &RingCfg) -> bool
        ensures value { result ≡ may_set (slice_get self.now.queues number) cfg.now }
        ensures location { result ≡ true → number < length self.now.queues }
        ensures size { result ≡ true → IsTrue (is_queue_size cfg.now.size) }
    {
        match self.queue(number) {
            Some(queue) => !queue.is_set() && is_ring_size(cfg.size) && cfg.size <= GREATEST_QUEUE,
            None => false,
        }
    }

    /// Sets a queue. False, and nothing changes, exactly where the device has no such queue, it is set, or the size is not
    /// a power of two up to `GREATEST_QUEUE`. Of the configuration the three areas and the size are used.
    pub fn set_queue(&mut self, number: u16, cfg: &RingCfg) -> bool
        ensures device { self.new ≡ set_device_queue self.old number cfg.now }
        ensures answer { result ≡ may_set (slice_get self.old.queues number) cfg.now }
    {
        if !self.may_set(number, cfg) {
            return false;
        }
        let accepted = self.accepted();
        self.queues[number as usize].set(cfg, accepted);
        true
    }

    /// Unsets a queue, where the device has it.
    pub fn unset_queue(&mut self, number: u16)
        ensures { self.new ≡ unset_device_queue self.old number }
    {
        if self.has_queue(number) {
            self.queues[number as usize].unset();
        }
    }

    /// Kicks a queue, where it is set.
    pub fn kick(&mut self, number: u16)
        ensures { self.new ≡ kick_queue self.old number (slice_get self.old.queues number) }
    {
        if self.has_queue(number) {
            self.queues[number as usize].kick();
        }
    }
}
