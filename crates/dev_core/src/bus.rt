//! What a bus is to the devices.

ghost use Rattle.std.specs.Prelude.{◌≡◌, ◌+◌, ◌≤◌, false};
ghost use Rattle.vt_types.specs.Access.{access_value, access_cost, IsWithinLimits};
ghost use Rattle.vt_types.specs.Program.{is_got};
ghost use Rattle.dev_core.specs.Bus.{BusTable};
ghost use Rattle.dev_core.specs.Pages.{PAGES_OF_SIGNAL};

use crate::set::DeviceSet;
use guest_mem::GuestMem;
use vt_outside::Disk;
use vt_types::{Access, Answer, Dev};

/// A bus: its registers stand between a driver and the devices (VIRTIO 1.2, 4).
pub trait Bus {
    /// The registers at the start, what an access answers and leaves, and what the two signals change.
    ghost table: { BusTable Self };

    fn new() -> Self
        ensures { result ≡ table.start };

    /// Does an access of this bus. An access that it does not have answers `NoSuch` and changes nothing; those of guest
    /// memory (put, get, zero, swap) are the same on every bus, and are not its own.
    ///
    /// Guest memory has as many spare pages as the access costs, and the console as many spare bytes.
    fn access<D: Disk>(
        &mut self,
        mem: &mut GuestMem,
        set: &mut DeviceSet<D>,
        a: &Access<'_>,
    ) -> Answer
        requires limits { IsWithinLimits (access_value a.now) }
        requires pages { access_cost (access_value a.now) ≤ mem.old.spare }
        requires console { access_cost (access_value a.now) ≤ set.old.spare }
        ensures table { table.access (access_value a.now) (record { registers = self.old; devices = set.old.devices; memory = mem.old.bytes }) ≡ (result, record { registers = self.new; devices = set.new.devices; memory = mem.new.bytes }) }
        ensures no_bytes { is_got result ≡ false }
        ensures pages { mem.old.spare ≤ mem.new.spare + access_cost (access_value a.now) }
        ensures console { set.old.spare ≤ set.new.spare + access_cost (access_value a.now) }
        ensures disk { set.new.disk ≡ set.old.disk };

    /// A queue of a device signals: a buffer was used (VIRTIO 1.2, 2.3).
    fn queue_signal(&mut self, mem: &mut GuestMem, dev: Dev, queue: u16)
        requires { PAGES_OF_SIGNAL ≤ mem.old.spare }
        ensures table { table.queue_signal dev queue self.old mem.old.bytes ≡ (self.new, mem.new.bytes) }
        ensures pages { mem.old.spare ≤ mem.new.spare + PAGES_OF_SIGNAL };

    /// A device signals that its configuration changed (VIRTIO 1.2, 2.3).
    fn config_signal(&mut self, mem: &mut GuestMem, dev: Dev)
        requires { PAGES_OF_SIGNAL ≤ mem.old.spare }
        ensures table { table.config_signal dev self.old mem.old.bytes ≡ (self.new, mem.new.bytes) }
        ensures pages { mem.old.spare ≤ mem.new.spare + PAGES_OF_SIGNAL };
}
