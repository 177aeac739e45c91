//! Which devices are there: the console alone today.

ghost use Rattle.std.specs.Prelude.{◌≡◌};
ghost use Rattle.dev_core.specs.There as there;

use vt_types::{Dev, Event};

/// Whether a device is there.
pub fn is_there(dev: Dev) -> bool
    ensures { result ≡ there.is_there dev }
{
    match dev {
        Dev::Con => true,
        Dev::Blk | Dev::Net => false,
    }
}

/// Whether an event is of a device that is there.
pub fn is_event_there(e: &Event) -> bool
    ensures { result ≡ there.is_event_there e.now }
{
    match e {
        Event::Serve { dev, .. } => is_there(*dev),
        Event::Key(_) | Event::Consize { .. } => is_there(Dev::Con),
        Event::Frame(_) | Event::Link(_) => is_there(Dev::Net),
        Event::Resize(_) | Event::Diskfail(_) => is_there(Dev::Blk),
    }
}
