//! A list of events.

use crate::bytes::Memory;
use crate::limits::MOST_EVENTS;
use crate::operation::{Event, EventAt};
use std::alloc::{AllocError, Global};
use std::marker::Model;

/// Events in the order of their gaps: at most `MOST_EVENTS`, and no gap is below the one before it.
#[derive(Drop)]
pub struct Events {
    items: Vec<EventAt>,
}

impl Model for Events {
    ghost use Rattle.std.specs.Prelude.{List};
    ghost use Rattle.vt_types.specs.declared.operation.EventAt.{EventAt};
    ghost use Rattle.vt_types.specs.Events.{AreEvents};

    ghost Value = { List EventAt };

    ghost view = { λ e. e.items.items };

    ghost invariant = { λ e. AreEvents e.items.items };
}

impl Events {
    ghost use Rattle.std.specs.Prelude.{◌≡◌, ◌==◌, ◌<◌, ◌≤◌, [], ◌∷◌, ◌++◌, length, OnOk, OnErr};
    ghost use Rattle.vt_types.specs.Events.{AreEvents, event_at, last_gap};

    /// No events. Takes no memory.
    pub fn new(alloc: Global) -> Events
        ensures { result ≡ [] }
    {
        Events {
            items: Vec::new(alloc),
        }
    }

    /// Adds one event at the end: fewer than `MOST_EVENTS` are there, and the gap isn't below the last one. `Memory`
    /// leaves the list unchanged.
    pub fn push(&mut self, alloc: Global, gap: u16, event: Event) -> Result<(), Memory>
        requires few { length self.old < MOST_EVENTS }
        requires rise { last_gap self.old ≤ gap }
        ensures ok { OnOk result (self.new ≡ self.old ++ record { gap = gap; event = event } ∷ []) }
        ensures err { OnErr result (self.new ≡ self.old) }
    {
        let _ = alloc;
        self.items.push(EventAt { gap, event })?;
        Ok(())
    }

    /// How many events there are: at most `MOST_EVENTS`, and their gaps never fall.
    pub fn len(&self) -> u32
        ensures length { result ≡ length self.now }
        ensures events { AreEvents self.now }
    {
        self.items.len() as u32
    }

    /// Whether there are no events.
    pub fn is_empty(&self) -> bool
        ensures { result ≡ (length self.now == 0) }
    {
        self.items.is_empty()
    }

    /// The gap of the n-th event, counted from 0.
    pub fn gap(&self, n: u32) -> u16
        requires { n < length self.now }
        ensures { result ≡ (event_at self.now n).gap }
    {
        self.items[n as usize].gap
    }

    /// The n-th event, counted from 0.
    pub fn event(&self, n: u32) -> &Event
        requires { n < length self.now }
        ensures { result.now ≡ (event_at self.now n).event }
    {
        &self.items[n as usize].event
    }

    /// The gap of the last event, or 0 where there is none.
    pub fn last_gap(&self) -> u16
        ensures { result ≡ last_gap self.now }
    {
        match self.items.last() {
            Some(last) => last.gap,
            None => 0,
        }
    }
}
