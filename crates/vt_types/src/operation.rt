//! What a driver is asked to do, and what happens outside.

ghost use Rattle.std.specs.Prelude.{◌≡◌};
ghost use Rattle.vt_types.specs.Status.{status_of_step};

use crate::bytes::Bytes;
use crate::device::Dev;
use crate::limits::MOST_PIECES;
use crate::status::Status;
use arrayvec::ArrayVec;

/// What happens outside the driver: a device serves a queue, or the world does something.
#[derive(Drop)]
pub enum Event {
    /// A device serves a queue.
    Serve { dev: Dev, queue: u16 },
    /// A frame comes from the network.
    Frame(Bytes),
    /// Bytes come from the console's keyboard.
    Key(Bytes),
    /// The disk has another number of sectors.
    Resize(u64),
    /// The network's link goes up or down.
    Link(bool),
    /// The console has another size.
    Consize { cols: u16, rows: u16 },
    /// The disk call that is so many calls ahead, 1 for the next one, fails; an earlier such count is forgotten.
    Diskfail(u32),
}

/// An event, and the gap that it falls in: a number that doesn't fall along a list of events.
#[derive(Drop)]
pub struct EventAt {
    pub gap: u16,
    pub event: Event,
}

/// A field of a device's configuration (VIRTIO 1.2, 5.1.4, 5.2.4, 5.3.4).
#[derive(Clone, Copy, Debug, PartialEq, Eq)]
pub enum Field {
    Capacity,
    SegMax,
    BlkSize,
    Writeback,
    Mac,
    NetStatus,
    Cols,
    Rows,
    Ports,
    Emerg,
}

/// A step of a device's initialization (VIRTIO 1.2, 3.1.1): the status bit that is set.
#[derive(Clone, Copy, Debug, PartialEq, Eq)]
pub enum Step {
    Ack,
    Driver,
    FeatOk,
    DrvOk,
}

impl Step {
    /// What the driver writes to the status: the bit of this step and those of the steps before it.
    pub fn status(self) -> u8
        ensures { result ≡ status_of_step self }
    {
        const ACKNOWLEDGED: u8 = Status::ACKNOWLEDGE.0;
        const DRIVEN: u8 = ACKNOWLEDGED | Status::DRIVER.0;
        const AGREED: u8 = DRIVEN | Status::FEATURES_OK.0;
        match self {
            Step::Ack => ACKNOWLEDGED,
            Step::Driver => DRIVEN,
            Step::FeatOk => AGREED,
            Step::DrvOk => AGREED | Status::DRIVER_OK.0,
        }
    }
}

/// A buffer to post. `cuts` has the lengths of all pieces, in bytes; the first `nread` are readable by the device, and
/// `readable` has their bytes one after the other. `indirect` asks for an indirect table (VIRTIO 1.2, 2.7.5.3).
#[derive(Drop)]
pub struct PostBuf {
    pub tag: u16,
    pub indirect: bool,
    pub readable: Bytes,
    pub cuts: ArrayVec<u16, MOST_PIECES>,
    pub nread: u8,
}

/// An operation of a driver on a device.
#[derive(Drop)]
pub enum Op {
    /// Reads the device's number.
    Probe(Dev),
    /// Resets the device.
    Reset(Dev),
    /// Reads the features that the device offers.
    Features(Dev),
    /// Reads the status.
    GetStatus(Dev),
    /// Writes the features that the driver accepts.
    Accept(Dev, u64),
    /// Sets one more status bit.
    Status(Dev, Step),
    /// Sets up a queue of a size.
    SetQ(Dev, u16, u16),
    /// Posts a buffer to a queue.
    Post(Dev, u16, PostBuf),
    /// Notifies the device of a queue.
    Notify(Dev, u16),
    /// Takes a used buffer from a queue.
    Reap(Dev, u16),
    /// Asks for a queue's interrupts.
    Arm(Dev, u16),
    /// Asks for no interrupts of a queue.
    Disarm(Dev, u16),
    /// Reads a field of the configuration.
    ReadCfg(Dev, Field),
    /// Writes a field of the configuration.
    WriteCfg(Dev, Field, u32),
    /// Asks which queues have signalled.
    IrqQueues(Dev),
    /// Asks whether the configuration has changed.
    IrqConfig(Dev),
}

/// Where an operation stands in a run: `events` of the operation that happened before its marked access come to `p`,
/// and its accesses to `n`.
#[derive(Clone, Copy, Debug, PartialEq, Eq)]
pub struct Place {
    pub p: u32,
    pub n: u32,
}
