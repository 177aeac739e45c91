//! What a line asks of devices that are there.

ghost use Rattle.std.specs.Prelude.{◌≡◌};
ghost use Rattle.vt_types.specs.Operation.{operation};
ghost use Rattle.driver_run.specs.There as there;

use dev_core::{is_event_there, is_there};
use drv_core::device_of;
use vt_types::{Events, Op};

/// Whether all events are of devices that are there.
fn are_events_there(events: &Events) -> bool
    ensures { result ≡ there.are_events_there events.now }
{
    'events: for n in 0..events.len() {
        if !is_event_there(events.event(n)) {
            return false;
        }
    }
    true
}

/// Whether an operation is on a device that is there, and its events are of such devices.
pub fn is_operation_there(op: &Op, events: &Events) -> bool
    ensures { result ≡ there.is_operation_there (operation op.now, events.now) }
{
    is_there(device_of(op)) && are_events_there(events)
}
