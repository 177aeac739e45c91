//! The page of registers of a device on MMIO (VIRTIO 1.2, 4.2.2).

ghost use Rattle.std.specs.Prelude.{◌≡◌, ℕ, ◌+◌, ◌*◌, ◌<◌, refl, true, false, [], ◌∷◌, map, Some};
ghost use Rattle.vt_layout.specs.Layout.{find_from};
ghost use Rattle.std.proofs.Common.{lit<};
ghost use Rattle.vt_layout.specs.Mmio as spec;

use crate::layout::{CommonRegs, RegisterLayout, Row};
use crate::register::MmioRegister;
use vt_types::Dev;

/// The offset of a page at which the device's configuration begins (VIRTIO 1.2, 4.2.2).
pub const CONFIGURATION: u32 = 0x100;

/// The bytes of a page (our own).
const PAGE_LENGTH: u32 = 0x1000;

/// Where a device's page of registers begins: at 0x40000000 for the block device, then the network device and the console
/// (our own).
pub fn page_address(dev: Dev) -> u32
    ensures { result ≡ spec.page_address dev }
{
    let number = match dev {
        Dev::Blk => 0,
        Dev::Net => 1,
        Dev::Con => 2,
    };
    0x4000_0000 + number * PAGE_LENGTH
}

/// The address of a byte of a device's configuration.
pub fn config_address(dev: Dev, off: u16) -> u32
    ensures { result ≡ spec.config_address dev off }
{
    page_address(dev) + CONFIGURATION + u32::from(off)
}

/// The page of a device on MMIO.
pub struct Mmio;

impl RegisterLayout for Mmio {
    ghost rows = { spec.mmio_rows };

    ghost PAGE = { spec.PAGE_LENGTH };

    ghost COUNT = { 25 };

    const PAGE: u32 = PAGE_LENGTH;

    const COUNT: u32 = 25;

    fn row(n: u32) -> Row {
        match MmioRegister::of_row(n) {
            Some(register) => register.row(),
            None => MmioRegister::ConfigGeneration.row(),
        }
    }

    ghost count = { refl };

    ghost rise = { refl };
}

impl CommonRegs for Mmio {
    ghost DEV_SEL = { 5 };

    ghost DEV_FEAT = { 4 };

    ghost DRV_SEL = { 7 };

    ghost DRV_FEAT = { 6 };

    ghost STATUS = { 15 };

    ghost GENERATION = { 24 };

    ghost Q_SEL = { 8 };

    ghost Q_SIZE = { 10 };

    ghost Q_ENABLE = { 11 };

    ghost Q_DESC = { 16 };

    ghost Q_DRIVER = { 18 };

    ghost Q_DEVICE = { 20 };

    const DEV_SEL: u32 = 5;

    const DEV_FEAT: u32 = 4;

    const DRV_SEL: u32 = 7;

    const DRV_FEAT: u32 = 6;

    const STATUS: u32 = 15;

    const GENERATION: u32 = 24;

    const Q_SEL: u32 = 8;

    const Q_SIZE: u32 = 10;

    const Q_ENABLE: u32 = 11;

    const Q_DESC: u32 = 16;

    const Q_DRIVER: u32 = 18;

    const Q_DEVICE: u32 = 20;

    ghost dev_sel = { lit< tt };

    ghost dev_feat = { lit< tt };

    ghost drv_sel = { lit< tt };

    ghost drv_feat = { lit< tt };

    ghost status = { lit< tt };

    ghost generation = { lit< tt };

    ghost q_sel = { lit< tt };

    ghost q_size = { lit< tt };

    ghost q_enable = { lit< tt };

    ghost q_desc = { lit< tt };

    ghost q_driver = { lit< tt };

    ghost q_device = { lit< tt };
}

/// The numbers of the registers that MMIO and PCI share, each that of the row at its offset of an MMIO page (VIRTIO 1.2,
/// 4.2.2). In the order of `CommonRegs`.
pub fn shared_registers() -> [u32; 12]
    ensures { map (λ off. find_from 0 spec.mmio_rows off 4) spec.shared_offsets ≡ map Some result }
{
    [
        Mmio::DEV_SEL,
        Mmio::DEV_FEAT,
        Mmio::DRV_SEL,
        Mmio::DRV_FEAT,
        Mmio::STATUS,
        Mmio::GENERATION,
        Mmio::Q_SEL,
        Mmio::Q_SIZE,
        Mmio::Q_ENABLE,
        Mmio::Q_DESC,
        Mmio::Q_DRIVER,
        Mmio::Q_DEVICE,
    ]
}
