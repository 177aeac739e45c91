//! All devices, as their driver keeps them.

ghost use Rattle.std.specs.Prelude.{◌≡◌, ℕ, ◌<◌, ◌≤◌, List, IfOk, IsTrue, Some, None, true, length};
ghost use Rattle.vt_types.specs.Device.{queue_count};
ghost use Rattle.vt_types.specs.Limits.{GREATEST_COST};
ghost use Rattle.vt_types.specs.Operation.{Arm, Post, Reap, posted_buffer};
ghost use Rattle.vt_types.specs.Program.{Gives};
ghost use Rattle.vt_types.specs.Reply.{reply_value};
ghost use Rattle.vt_types.specs.Within.{IsBufferWithin};
ghost use Rattle.vq_common.specs.Queue.{IsInBlock, is_queue_size, new_driver_queue};
ghost use Rattle.state_table.specs.Refusal.{refusal_of};
ghost use Rattle.by_device.specs.ByDevice.{of, with};
ghost use Rattle.drv_core.specs.Driver.{known_of, new_record, no_queues, with_driver_queue};
ghost use Rattle.drv_core.specs.Lowering.{post_lowering, reap_lowering, signals_lowering};

use crate::device::DeviceDriver;
use std::alloc::Global;
use std::marker::Model;
use vq_common::RingCfg;
use vt_types::{Dev, Features, Memory, Port, PostBuf, Reply, Room};

/// What a driver keeps of all devices.
#[derive(Drop)]
pub struct Driver {
    blk: DeviceDriver,
    net: DeviceDriver,
    con: DeviceDriver,
}

impl Model for Driver {
    ghost use Rattle.drv_core.specs.Driver.{DriverRecord};
    ghost use Rattle.drv_core.specs.Calls.{HasQueues};

    ghost Value = { DriverRecord };

    ghost view = { λ d. record { blk = d.blk; net = d.net; con = d.con } };

    ghost invariant = { λ d. HasQueues d.blk d.net d.con };
}

impl Driver {
    /// Before the probe of any device.
    pub fn new(alloc: Global) -> Result<Driver, Memory>
        ensures { IfOk result (λ d. d ≡ new_record) }
    {
        let blk = DeviceDriver::new(alloc, Dev::Blk)?;
        let net = DeviceDriver::new(alloc, Dev::Net)?;
        let con = DeviceDriver::new(alloc, Dev::Con)?;
        Ok(Driver { blk, net, con })
    }

    /// What is kept of a device.
    pub fn device(&self, dev: Dev) -> &DeviceDriver
        ensures value { result.now ≡ of self.now dev }
        ensures queues { length (of self.now dev).queues ≡ queue_count dev }
    {
        match dev {
            Dev::Blk => &self.blk,
            Dev::Net => &self.net,
            Dev::Con => &self.con,
        }
    }

    /// A device was probed.
    pub fn set_probed(&mut self, dev: Dev)
        ensures { self.new ≡ with self.old dev (record (of self.old dev) { probed = true }) }
    {
        match dev {
            Dev::Blk => self.blk.set_probed(),
            Dev::Net => self.net.set_probed(),
            Dev::Con => self.con.set_probed(),
        }
    }

    /// A device was reset, and this status was read back.
    pub fn reset(&mut self, dev: Dev, status: u8)
        ensures { self.new ≡ with self.old dev (record (of self.old dev) { reset_since = true; status = status; accepted = 0; queues = no_queues dev }) }
    {
        match dev {
            Dev::Blk => self.blk.reset(status),
            Dev::Net => self.net.reset(status),
            Dev::Con => self.con.reset(status),
        }
    }

    /// This status of a device was read.
    pub fn set_status(&mut self, dev: Dev, status: u8)
        ensures { self.new ≡ with self.old dev (record (of self.old dev) { status = status }) }
    {
        match dev {
            Dev::Blk => self.blk.set_status(status),
            Dev::Net => self.net.set_status(status),
            Dev::Con => self.con.set_status(status),
        }
    }

    /// These features of a device were accepted.
    pub fn set_accepted(&mut self, dev: Dev, features: Features)
        ensures { self.new ≡ with self.old dev (record (of self.old dev) { accepted = features.0 }) }
    {
        match dev {
            Dev::Blk => self.blk.set_accepted(features),
            Dev::Net => self.net.set_accepted(features),
            Dev::Con => self.con.set_accepted(features),
        }
    }

    /// A queue of a device was set.
    pub fn set_queue(&mut self, dev: Dev, queue: u16, cfg: &RingCfg, base: u64)
        requires queue { queue < queue_count dev }
        requires size { IsTrue (is_queue_size cfg.now.size) }
        requires in_block { IsInBlock cfg.now base }
        ensures { self.new ≡ with_driver_queue self.old dev queue (new_driver_queue cfg.now base) }
    {
        match dev {
            Dev::Blk => self.blk.set_queue(queue, cfg, base),
            Dev::Net => self.net.set_queue(queue, cfg, base),
            Dev::Con => self.con.set_queue(queue, cfg, base),
        }
    }

    /// Posts a buffer to a queue; this was not refused.
    pub fn post<P: Port>(&mut self, port: &mut P, dev: Dev, queue: u16, buf: &PostBuf) -> Reply
        requires within { IsBufferWithin (posted_buffer buf.now) }
        requires allowed { refusal_of (known_of (of self.old dev)) (Post dev queue (posted_buffer buf.now)) ≡ None }
        requires credit { GREATEST_COST ≤ P.credit port.old }
        ensures { (bytes : List ℕ) → Gives P.step P.marking (post_lowering self.old dev queue (posted_buffer buf.now)) port.old (record { reply = reply_value result bytes; known = self.new }) port.new }
    {
        match dev {
            Dev::Blk => self.blk.post(port, queue, buf),
            Dev::Net => self.net.post(port, queue, buf),
            Dev::Con => self.con.post(port, queue, buf),
        }
    }

    /// Reaps a used buffer of a queue, whose written bytes are then in the room; this was not refused.
    pub fn reap<P: Port>(&mut self, port: &mut P, dev: Dev, queue: u16, room: &mut Room) -> Reply
        requires allowed { refusal_of (known_of (of self.old dev)) (Reap dev queue) ≡ None }
        requires credit { GREATEST_COST ≤ P.credit port.old }
        ensures { Gives P.step P.marking (reap_lowering self.old dev queue) port.old (record { reply = reply_value result room.new.items; known = self.new }) port.new }
    {
        match dev {
            Dev::Blk => self.blk.reap(port, queue, room),
            Dev::Net => self.net.reap(port, queue, room),
            Dev::Con => self.con.reap(port, queue, room),
        }
    }

    /// Asks for a signal per used buffer of a queue, or for none; this was not refused.
    pub fn set_signals<P: Port>(&mut self, port: &mut P, dev: Dev, queue: u16, on: bool) -> Reply
        requires allowed { refusal_of (known_of (of self.old dev)) (Arm dev queue) ≡ None }
        requires credit { GREATEST_COST ≤ P.credit port.old }
        ensures { (bytes : List ℕ) → Gives P.step P.marking (signals_lowering self.old dev queue on) port.old (record { reply = reply_value result bytes; known = self.new }) port.new }
    {
        match dev {
            Dev::Blk => self.blk.set_signals(port, queue, on),
            Dev::Net => self.net.set_signals(port, queue, on),
            Dev::Con => self.con.set_signals(port, queue, on),
        }
    }
}
