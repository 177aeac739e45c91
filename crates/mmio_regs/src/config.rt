//! The console's configuration, as its page shows it (VIRTIO 1.2, 4.2.2).

ghost use Rattle.std.specs.Prelude.{◌≡◌, ◌+◌, ◌≤◌, IsTrue, length};
ghost use Rattle.vt_types.specs.Access.{is_width};
ghost use Rattle.mmio_regs.specs.MmioTable.{load_config, store_config};

use byteorder::{ByteOrder, LittleEndian};
use dev_core::DeviceSet;
use vt_outside::Disk;
use vt_types::Dev;

/// The number in so many bytes of the configuration from a location on: 1, 2 or 4 bytes. 0 where the location is not aligned to
/// them, and past the end.
pub fn load_config<D: Disk>(set: &DeviceSet<D>, at: u32, width: u8) -> u32
    requires { IsTrue (is_width width) }
    ensures { result ≡ load_config set.now.devices at width }
{
    if at % u32::from(width) != 0 {
        return 0;
    }
    let mut bytes = [0; 4];
    set.read_config(Dev::Con, at, &mut bytes[..width as usize]);
    LittleEndian::read_u32(&bytes)
}

/// Stores the low bytes of a number in the configuration from a location on: 1, 2 or 4 bytes. Nothing changes where the location
/// is not aligned to them.
pub fn store_config<D: Disk>(set: &mut DeviceSet<D>, at: u32, width: u8, value: u32)
    requires width { IsTrue (is_width width) }
    requires console { 1 ≤ set.old.spare }
    ensures devices { set.new.devices ≡ store_config set.old.devices at width value }
    ensures console { set.old.spare ≤ set.new.spare + 1 }
    ensures disk { set.new.disk ≡ set.old.disk }
{
    if at % u32::from(width) == 0 {
        let mut bytes = [0; 4];
        LittleEndian::write_u32(&mut bytes, value);
        set.write_config(Dev::Con, at, &bytes[..width as usize]);
    }
}
