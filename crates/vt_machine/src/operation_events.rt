//! The events of the operation under way.

ghost use Rattle.std.specs.Prelude.{◌≡◌, ◌+◌, ◌==◌, ◌≤◌, [], drop, length};
ghost use Rattle.vt_types.specs.Events.{MOST_EVENTS, event_at};
ghost use Rattle.vt_machine.specs.OperationEvents.{is_due};

use std::alloc::Global;
use std::marker::Model;
use vt_types::{Event, Events};

/// The events of an operation, of which the first ones happened.
#[derive(Drop)]
pub struct OperationEvents {
    events: Events,
    happened: u32,
}

impl Model for OperationEvents {
    ghost use Rattle.std.specs.Prelude.{◌≤◌, drop, length};
    ghost use Rattle.vt_types.specs.Events.{MOST_EVENTS};
    ghost use Rattle.vt_machine.specs.OperationEvents.{OperationEventsView};

    ghost Value = { OperationEventsView };

    ghost view = { λ e. record { left = drop e.happened e.events; happened = e.happened } };

    ghost invariant = { λ e. length e.events ≤ MOST_EVENTS };
}

impl OperationEvents {
    /// No events. Takes no memory.
    pub fn none(alloc: Global) -> OperationEvents
        ensures { result ≡ record { left = []; happened = 0 } }
    {
        OperationEvents {
            events: Events::new(alloc),
            happened: 0,
        }
    }

    /// Events of which none happened yet: at most `MOST_EVENTS`.
    pub fn new(events: Events) -> OperationEvents
        ensures start { result ≡ record { left = events; happened = 0 } }
        ensures few { length events ≤ MOST_EVENTS }
    {
        let _few = events.len();
        OperationEvents {
            events,
            happened: 0,
        }
    }

    /// How many events happened.
    pub fn happened(&self) -> u32
        ensures value { result ≡ self.now.happened }
        ensures few { length self.now.left ≤ MOST_EVENTS }
    {
        self.happened
    }

    /// Whether no event is left.
    pub fn is_empty(&self) -> bool
        ensures { result ≡ (length self.now.left == 0) }
    {
        self.happened >= self.events.len()
    }

    /// Whether the next event happens before the access that comes after `count` others. False where none is left.
    pub fn is_due(&self, count: u32) -> bool
        ensures { result ≡ is_due count self.now.left }
    {
        if self.is_empty() {
            return false;
        }
        self.events.gap(self.happened) as u32 <= count
    }

    /// The next event: the first of those that are left.
    pub fn first(&self) -> &Event
        requires { 1 ≤ length self.now.left }
        ensures { result.now ≡ (event_at self.now.left 0).event }
    {
        self.events.event(self.happened)
    }

    /// The next event has happened.
    pub fn advance(&mut self)
        requires { 1 ≤ length self.old.left }
        ensures { self.new ≡ record { left = drop 1 self.old.left; happened = self.old.happened + 1 } }
    {
        self.happened += 1;
    }
}
