//! A queue of a device.

ghost use Rattle.std.specs.Prelude.{◌≡◌, IsTrue, false, Some, None, is_some};
ghost use Rattle.vq_common.specs.Queue.{is_queue_size};
ghost use Rattle.dev_core.specs.Device.{kicked, ring_for, unset};

use crate::ring::Ring;
use std::marker::Model;
use vq_common::RingCfg;
use vt_types::Features;

/// A queue: its ring where it is set, and whether it was kicked and not served since.
#[derive(Drop)]
pub struct Queue {
    pub(crate) ring: Option<Ring>,
    pub(crate) kick: bool,
}

impl Model for Queue {
    ghost use Rattle.std.specs.Prelude.{option_map};
    ghost use Rattle.dev_core.specs.Device.{QueueState};
    ghost use Rattle.dev_core.specs.RingValue.{ring_value};

    ghost Value = { QueueState };

    ghost view = { λ q. record { ring = option_map ring_value q.ring; kick = q.kick } };
}

impl Queue {
    /// A queue that is not set.
    pub fn new() -> Queue
        ensures { result ≡ unset }
    {
        Queue {
            ring: None,
            kick: false,
        }
    }

    /// Whether the queue is set.
    pub fn is_set(&self) -> bool
        ensures { result ≡ is_some self.now.ring }
    {
        self.ring.is_some()
    }

    /// The queue is set, without a kick.
    pub fn set(&mut self, cfg: &RingCfg, accepted: Features)
        requires { IsTrue (is_queue_size cfg.now.size) }
        ensures { self.new ≡ record { ring = Some (ring_for accepted.0 cfg.now); kick = false } }
    {
        self.ring = Some(Ring::new(cfg, accepted));
        self.kick = false;
    }

    /// The queue is not set any more, and its kick goes.
    pub fn unset(&mut self)
        ensures { self.new ≡ unset }
    {
        self.ring = None;
        self.kick = false;
    }

    /// The driver kicks the queue.
    pub fn kick(&mut self)
        ensures { self.new ≡ kicked self.old }
    {
        if self.is_set() {
            self.kick = true;
        }
    }
}
