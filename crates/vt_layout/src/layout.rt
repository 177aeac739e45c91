//! Rows of registers, and the traits of layouts.

ghost use Rattle.std.specs.Prelude.{◌≡◌, ℕ, ◌<◌, List, Some, IsTrue, length, slice_get};
ghost use Rattle.vt_layout.specs.Layout.{is_layout, is_at, covers};
ghost use Rattle.vt_layout.specs.declared.layout.Row.{Row};

/// A register of a page: its offset, its width in bytes, and whether it is loaded and whether it is stored.
#[derive(Clone, Copy, Debug, PartialEq, Eq)]
pub struct Row {
    pub off: u32,
    pub width: u8,
    pub load: bool,
    pub store: bool,
}

impl Row {
    /// Whether the register has exactly this offset and width.
    pub fn is_at(self, off: u32, width: u8) -> bool
        ensures { result ≡ is_at off width self }
    {
        self.off == off && self.width == width
    }

    /// Whether an offset lies among the register's bytes.
    pub fn covers(self, off: u32) -> bool
        ensures { result ≡ covers off self }
    {
        self.off <= off && off - self.off < u32::from(self.width)
    }
}

/// A page of registers. Its rows rise, do not overlap and lie in the page.
pub trait RegisterLayout {
    /// The registers by rising offset.
    ghost rows: { List Row };

    ghost PAGE: { ℕ };

    ghost COUNT: { ℕ };

    /// The bytes of the page.
    const PAGE: u32;

    /// How many registers the page has.
    const COUNT: u32;

    /// The register of a number, counted from 0 and below `COUNT`.
    fn row(n: u32) -> Row
        requires { n < COUNT }
        ensures { slice_get rows n ≡ Some result };

    ghost count: { length rows ≡ COUNT };

    ghost rise: { IsTrue (is_layout 0 PAGE rows) };
}

/// The registers that MMIO and PCI share, each by its row's number (VIRTIO 1.2, 4.1.4.3 and 4.2.2).
pub trait CommonRegs: RegisterLayout {
    ghost DEV_SEL: { ℕ };

    ghost DEV_FEAT: { ℕ };

    ghost DRV_SEL: { ℕ };

    ghost DRV_FEAT: { ℕ };

    ghost STATUS: { ℕ };

    ghost GENERATION: { ℕ };

    ghost Q_SEL: { ℕ };

    ghost Q_SIZE: { ℕ };

    ghost Q_ENABLE: { ℕ };

    ghost Q_DESC: { ℕ };

    ghost Q_DRIVER: { ℕ };

    ghost Q_DEVICE: { ℕ };

    /// Which word of the device's features is shown.
    const DEV_SEL: u32;

    /// A word of the device's features.
    const DEV_FEAT: u32;

    /// Which word of the driver's features is written.
    const DRV_SEL: u32;

    /// A word of the driver's features.
    const DRV_FEAT: u32;

    /// The device status.
    const STATUS: u32;

    /// The configuration's generation.
    const GENERATION: u32;

    /// Which queue the queue registers act on.
    const Q_SEL: u32;

    /// The size of the queue.
    const Q_SIZE: u32;

    /// Whether the queue is set.
    const Q_ENABLE: u32;

    /// The low half of the descriptor area's address.
    const Q_DESC: u32;

    /// The low half of the driver area's address.
    const Q_DRIVER: u32;

    /// The low half of the device area's address.
    const Q_DEVICE: u32;

    ghost dev_sel: { DEV_SEL < Self.COUNT };

    ghost dev_feat: { DEV_FEAT < Self.COUNT };

    ghost drv_sel: { DRV_SEL < Self.COUNT };

    ghost drv_feat: { DRV_FEAT < Self.COUNT };

    ghost status: { STATUS < Self.COUNT };

    ghost generation: { GENERATION < Self.COUNT };

    ghost q_sel: { Q_SEL < Self.COUNT };

    ghost q_size: { Q_SIZE < Self.COUNT };

    ghost q_enable: { Q_ENABLE < Self.COUNT };

    ghost q_desc: { Q_DESC < Self.COUNT };

    ghost q_driver: { Q_DRIVER < Self.COUNT };

    ghost q_device: { Q_DEVICE < Self.COUNT };
}
