//! The probe, the status and the features (VIRTIO 1.2, 3.1.1 and 4.2.3.1).

ghost use Rattle.std.specs.Prelude.{◌≡◌, ◌≤◌};
ghost use Rattle.vt_types.specs.Limits.{GREATEST_COST};
ghost use Rattle.vt_types.specs.Program.{Gives};
ghost use Rattle.vt_types.specs.Reply.{reply_value};
ghost use Rattle.drv_core.specs.Driver.{DriverRecord};
ghost use Rattle.drv_mmio.specs.Lowering.{accept_lowering, features_lowering, getstatus_lowering, low_byte, probe_lowering, reset_lowering, status_lowering};

use crate::accesses::{load, store};
use drv_core::Driver;
use vt_layout::MmioRegister;
use vt_types::{Dev, Features, Port, Reply, Room, Step};

/// The low 8 bits of a word.
fn low_byte(word: u32) -> u8
    ensures { result ≡ low_byte word }
{
    (word % 256) as u8
}

/// Loads the magic value, the version, the device and the vendor.
pub fn probe<P: Port>(driver: &mut Driver, port: &mut P, dev: Dev, room: &mut Room) -> Reply
    ensures { Gives P.step P.marking (probe_lowering driver.old dev) port.old (record { reply = reply_value result room.new.items; known = driver.new }) port.new }
{
    load(port, dev, MmioRegister::MagicValue, room);
    load(port, dev, MmioRegister::Version, room);
    let id = load(port, dev, MmioRegister::DeviceId, room);
    load(port, dev, MmioRegister::VendorId, room);
    port.mark();
    driver.set_probed(dev);
    Reply::Id(low_byte(id))
}

/// Makes the status 0, and reads it back.
pub fn reset<P: Port>(driver: &mut Driver, port: &mut P, dev: Dev, room: &mut Room) -> Reply
    requires { GREATEST_COST ≤ P.credit port.old }
    ensures { Gives P.step P.marking (reset_lowering driver.old dev) port.old (record { reply = reply_value result room.new.items; known = driver.new }) port.new }
{
    store(port, dev, MmioRegister::Status, 0, room);
    port.mark();
    let status = load(port, dev, MmioRegister::Status, room);
    driver.reset(dev, low_byte(status));
    Reply::Good
}

/// Loads both words of the offered features.
pub fn features<P: Port>(port: &mut P, dev: Dev, room: &mut Room) -> Reply
    requires { GREATEST_COST ≤ P.credit port.old }
    ensures { (known : DriverRecord) → Gives P.step P.marking (features_lowering known dev) port.old (record { reply = reply_value result room.new.items; known = known }) port.new }
{
    store(port, dev, MmioRegister::DeviceFeaturesSel, 0, room);
    let low = load(port, dev, MmioRegister::DeviceFeatures, room);
    store(port, dev, MmioRegister::DeviceFeaturesSel, 1, room);
    let high = load(port, dev, MmioRegister::DeviceFeatures, room);
    port.mark();
    Reply::Features(u64::from(low) + u64::from(high) * (1 << 32))
}

/// Stores both words of the accepted features.
pub fn accept<P: Port>(
    driver: &mut Driver,
    port: &mut P,
    dev: Dev,
    features: u64,
    room: &mut Room,
) -> Reply
    requires { GREATEST_COST ≤ P.credit port.old }
    ensures { Gives P.step P.marking (accept_lowering driver.old dev features) port.old (record { reply = reply_value result room.new.items; known = driver.new }) port.new }
{
    let low = (features % (1 << 32)) as u32;
    let high = (features / (1 << 32)) as u32;
    store(port, dev, MmioRegister::DriverFeaturesSel, 0, room);
    store(port, dev, MmioRegister::DriverFeatures, low, room);
    store(port, dev, MmioRegister::DriverFeaturesSel, 1, room);
    store(port, dev, MmioRegister::DriverFeatures, high, room);
    port.mark();
    driver.set_accepted(dev, Features(features));
    Reply::Good
}

/// Loads the status.
pub fn get_status<P: Port>(driver: &mut Driver, port: &mut P, dev: Dev, room: &mut Room) -> Reply
    ensures { Gives P.step P.marking (getstatus_lowering driver.old dev) port.old (record { reply = reply_value result room.new.items; known = driver.new }) port.new }
{
    let word = load(port, dev, MmioRegister::Status, room);
    port.mark();
    let status = low_byte(word);
    driver.set_status(dev, status);
    Reply::Status(status)
}

/// Stores the status of a step, and reads it back.
pub fn set_status<P: Port>(
    driver: &mut Driver,
    port: &mut P,
    dev: Dev,
    step: Step,
    room: &mut Room,
) -> Reply
    requires { GREATEST_COST ≤ P.credit port.old }
    ensures { Gives P.step P.marking (status_lowering driver.old dev step) port.old (record { reply = reply_value result room.new.items; known = driver.new }) port.new }
{
    store(
        port,
        dev,
        MmioRegister::Status,
        u32::from(step.status()),
        room,
    );
    port.mark();
    let status = low_byte(load(port, dev, MmioRegister::Status, room));
    driver.set_status(dev, status);
    Reply::Status(status)
}
