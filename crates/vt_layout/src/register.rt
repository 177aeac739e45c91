//! The registers of a page of MMIO.

ghost use Rattle.std.specs.Prelude.{◌≡◌};
ghost use Rattle.vt_layout.specs.Mmio.{row_of, register_of, register_at, register_address};
ghost use Rattle.vt_layout.specs.Mmio as spec;

use crate::layout::Row;
use crate::lookup::find;
use crate::mmio::{Mmio, page_address};
use vt_types::Dev;

/// A register of a page (VIRTIO 1.2, 4.2.2), in the order of the offsets. Those of 64 bits are two registers each, of the
/// low and the high half.
#[derive(Clone, Copy, Debug, PartialEq, Eq)]
pub enum MmioRegister {
    MagicValue,
    Version,
    DeviceId,
    VendorId,
    DeviceFeatures,
    DeviceFeaturesSel,
    DriverFeatures,
    DriverFeaturesSel,
    QueueSel,
    QueueNumMax,
    QueueNum,
    QueueReady,
    QueueNotify,
    InterruptStatus,
    InterruptAck,
    Status,
    QueueDescLow,
    QueueDescHigh,
    QueueDriverLow,
    QueueDriverHigh,
    QueueDeviceLow,
    QueueDeviceHigh,
    ShmLenLow,
    ShmLenHigh,
    ConfigGeneration,
}

/// A register of 32 bits that is only loaded.
fn loaded(off: u32) -> Row
    ensures { result ≡ spec.loaded off }
{
    Row {
        off,
        width: 4,
        load: true,
        store: false,
    }
}

/// One that is only stored.
fn stored(off: u32) -> Row
    ensures { result ≡ spec.stored off }
{
    Row {
        off,
        width: 4,
        load: false,
        store: true,
    }
}

/// One that is loaded and stored.
fn both(off: u32) -> Row
    ensures { result ≡ spec.both off }
{
    Row {
        off,
        width: 4,
        load: true,
        store: true,
    }
}

impl MmioRegister {
    /// The register of a row of the layout, counted from 0. None exactly where there is none.
    pub fn of_row(n: u32) -> Option<MmioRegister>
        ensures { result ≡ register_of n }
    {
        let register = match n {
            0 => MmioRegister::MagicValue,
            1 => MmioRegister::Version,
            2 => MmioRegister::DeviceId,
            3 => MmioRegister::VendorId,
            4 => MmioRegister::DeviceFeatures,
            5 => MmioRegister::DeviceFeaturesSel,
            6 => MmioRegister::DriverFeatures,
            7 => MmioRegister::DriverFeaturesSel,
            8 => MmioRegister::QueueSel,
            9 => MmioRegister::QueueNumMax,
            10 => MmioRegister::QueueNum,
            11 => MmioRegister::QueueReady,
            12 => MmioRegister::QueueNotify,
            13 => MmioRegister::InterruptStatus,
            14 => MmioRegister::InterruptAck,
            15 => MmioRegister::Status,
            16 => MmioRegister::QueueDescLow,
            17 => MmioRegister::QueueDescHigh,
            18 => MmioRegister::QueueDriverLow,
            19 => MmioRegister::QueueDriverHigh,
            20 => MmioRegister::QueueDeviceLow,
            21 => MmioRegister::QueueDeviceHigh,
            22 => MmioRegister::ShmLenLow,
            23 => MmioRegister::ShmLenHigh,
            24 => MmioRegister::ConfigGeneration,
            _ => return None,
        };
        Some(register)
    }

    /// Where the register stands, and how it is reached.
    pub fn row(self) -> Row
        ensures { result ≡ row_of self }
    {
        match self {
            MmioRegister::MagicValue => loaded(0x000),
            MmioRegister::Version => loaded(0x004),
            MmioRegister::DeviceId => loaded(0x008),
            MmioRegister::VendorId => loaded(0x00c),
            MmioRegister::DeviceFeatures => loaded(0x010),
            MmioRegister::DeviceFeaturesSel => stored(0x014),
            MmioRegister::DriverFeatures => stored(0x020),
            MmioRegister::DriverFeaturesSel => stored(0x024),
            MmioRegister::QueueSel => stored(0x030),
            MmioRegister::QueueNumMax => loaded(0x034),
            MmioRegister::QueueNum => stored(0x038),
            MmioRegister::QueueReady => both(0x044),
            MmioRegister::QueueNotify => stored(0x050),
            MmioRegister::InterruptStatus => loaded(0x060),
            MmioRegister::InterruptAck => stored(0x064),
            MmioRegister::Status => both(0x070),
            MmioRegister::QueueDescLow => stored(0x080),
            MmioRegister::QueueDescHigh => stored(0x084),
            MmioRegister::QueueDriverLow => stored(0x090),
            MmioRegister::QueueDriverHigh => stored(0x094),
            MmioRegister::QueueDeviceLow => stored(0x0a0),
            MmioRegister::QueueDeviceHigh => stored(0x0a4),
            MmioRegister::ShmLenLow => loaded(0x0b0),
            MmioRegister::ShmLenHigh => loaded(0x0b4),
            MmioRegister::ConfigGeneration => loaded(0x0fc),
        }
    }

    /// The register at exactly this offset, of exactly this width. None exactly where there is none.
    pub fn at(off: u32, width: u8) -> Option<MmioRegister>
        ensures { result ≡ register_at off width }
    {
        match find::<Mmio>(off, width) {
            Some(n) => MmioRegister::of_row(n),
            None => None,
        }
    }

    /// The address of the register in the page of a device.
    pub fn address(self, dev: Dev) -> u32
        ensures { result ≡ register_address dev self }
    {
        page_address(dev) + self.row().off
    }
}
