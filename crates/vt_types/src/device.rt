//! The devices and the buses.

ghost use Rattle.std.specs.Prelude.{◌≡◌, ◌<◌};
ghost use Rattle.vt_types.specs.Device.{device_id, queue_count, config_length, first_block, queue_block};

/// The bytes of a queue's block in guest memory (our own).
const BLOCK_LEN: u32 = 0x100_0000;

/// A device: block (VIRTIO 1.2, 5.2), network (5.1) or console (5.3).
#[derive(Clone, Copy, Debug, PartialEq, Eq)]
pub enum Dev {
    Blk,
    Net,
    Con,
}

impl Dev {
    /// The device's number (VIRTIO 1.2, 5): block 2, network 1, console 3.
    pub fn id(self) -> u8
        ensures { result ≡ device_id self }
    {
        match self {
            Dev::Blk => 2,
            Dev::Net => 1,
            Dev::Con => 3,
        }
    }

    /// How many queues the device has (VIRTIO 1.2, 5.1.2, 5.2.2, 5.3.2; without the optional ones).
    pub fn queues(self) -> u16
        ensures { result ≡ queue_count self }
    {
        match self {
            Dev::Blk => 1,
            Dev::Net => 2,
            Dev::Con => 2,
        }
    }

    /// How many bytes the device's configuration has (VIRTIO 1.2, 5.1.4, 5.2.4, 5.3.4; up to the last field that our
    /// devices have).
    pub fn config_len(self) -> u16
        ensures { result ≡ config_length self }
    {
        match self {
            Dev::Blk => 60,
            Dev::Net => 8,
            Dev::Con => 12,
        }
    }

    /// The address of a queue's block in guest memory, a multiple of 0x1000000 from that number on (our own): the
    /// blocks are those of the block device's queue, of the network device's two and of the console's two. The queue is
    /// below `queues()`.
    pub fn block(self, queue: u16) -> u32
        requires { queue < queue_count self }
        ensures { result ≡ queue_block self queue }
    {
        (self.first_block() + queue as u32 + 1) * BLOCK_LEN
    }

    /// The number of the block of the device's first queue.
    fn first_block(self) -> u32
        ensures { result ≡ first_block self }
    {
        match self {
            Dev::Blk => 0,
            Dev::Net => 1,
            Dev::Con => 3,
        }
    }
}

/// The bus that a device stands on: memory-mapped registers (VIRTIO 1.2, 4.2), PCI with line interrupts or MSI-X (4.1),
/// or channel I/O (4.3) with classic or adapter interrupts.
#[derive(Clone, Copy, Debug, PartialEq, Eq)]
pub enum BusKind {
    Mmio,
    PciIntx,
    PciMsix,
    CcwClassic,
    CcwAdapter,
}
