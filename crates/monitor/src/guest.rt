//! What the guest does: where its transmit queue lies, the loads and stores of its kernel that trap, and the buffer that its
//! driver posts.

ghost use Rattle.std.specs.Prelude.{◌≡◌, ℕ, ◌/◌, ◌%◌, ◌^◌, ◌≤◌, List, false, IfOk, length};
ghost use Rattle.vt_types.specs.Limits.{LONGEST_PIECE};
ghost use Rattle.vt_types.specs.Operation.{posted_buffer};
ghost use Rattle.vt_types.specs.Status.{status_of_step};
ghost use Rattle.vq_common.specs.Buffer.{IsPostable};
ghost use Rattle.vq_common.specs.Queue.{IsInBlock};
ghost use Rattle.monitor.specs.BringUp.{console_after, IsBroughtUp};

use crate::exits::Exit;
use arrayvec::ArrayVec;
use std::alloc::Global;
use vq_common::RingCfg;
use vt_layout::queue_block::{DEVICE_AREA, DRIVER_AREA};
use vt_layout::{InterruptBits, MmioRegister};
use vt_types::{Bytes, Dev, Features, Memory, PostBuf, Step};

/// The console's transmit queue (VIRTIO 1.2, 5.3.2).
pub const TRANSMIT: u16 = 1;

/// How many descriptors it has: a power of two, at most what QueueNumMax loads.
pub const SIZE: u16 = 8;

/// Where the queue lies, with none of the features that a ring may have. Nothing else of the guest knows the memory map.
pub fn ring() -> RingCfg
    ensures size { result.size ≡ SIZE }
    ensures direct { result.indirect ≡ false }
    ensures unasked { result.event_idx ≡ false }
    ensures in_block { IsInBlock result result.desc }
{
    // Where the block of a queue begins: each queue of a device has one in guest memory. Wants a queue that the device has, and
    // never fails.
    let block = u64::from(Dev::Con.block(TRANSMIT));
    RingCfg {
        desc: block,
        driver: block + DRIVER_AREA,
        device: block + DEVICE_AREA,
        size: SIZE,
        indirect: false,
        event_idx: false,
    }
}

/// The low half of an address.
fn low(addr: u64) -> u32
    ensures { result ≡ addr % 2 ^ 32 }
{
    (addr % (1 << 32)) as u32
}

/// The high half.
fn high(addr: u64) -> u32
    ensures { result ≡ addr / 2 ^ 32 }
{
    (addr >> 32) as u32
}

/// A store of the status of a step, which has its bit and those of the steps before it.
fn status(step: Step) -> Exit
    ensures { result ≡ Exit.Store MmioRegister.Status (status_of_step step) }
{
    // The byte of that status. Wants nothing, and never fails.
    Exit::Store(MmioRegister::Status, u32::from(step.status()))
}

/// How the kernel finds the console and brings it up with one queue (VIRTIO 1.2, 3.1.1, 4.2.3.1 and 4.2.3.2). Of the
/// features it accepts VERSION_1 alone. On a machine that was just switched on the console is driven then, and the queue set.
pub fn bring_up(ring: &RingCfg) -> [Exit; 25]
    requires size { ring.now.size ≡ SIZE }
    requires direct { ring.now.indirect ≡ false }
    requires unasked { ring.now.event_idx ≡ false }
    ensures { (memory : List ℕ) → IsBroughtUp TRANSMIT ring.now (console_after result memory) }
{
    [
        // Is a console there?
        Exit::Load(MmioRegister::MagicValue),
        Exit::Load(MmioRegister::Version),
        Exit::Load(MmioRegister::DeviceId),
        // A reset, which is over once the status is 0. Then: it was found, and there is a driver for it.
        Exit::Store(MmioRegister::Status, 0),
        Exit::Load(MmioRegister::Status),
        status(Step::Ack),
        status(Step::Driver),
        // The features from bit 32 on. They are agreed if FEATURES_OK still stands.
        Exit::Store(MmioRegister::DeviceFeaturesSel, 1),
        Exit::Load(MmioRegister::DeviceFeatures),
        Exit::Store(MmioRegister::DriverFeaturesSel, 1),
        Exit::Store(MmioRegister::DriverFeatures, high(Features::VERSION_1.0)),
        status(Step::FeatOk),
        Exit::Load(MmioRegister::Status),
        // The queue: it is not set, it may be large enough, and it lies here.
        Exit::Store(MmioRegister::QueueSel, u32::from(TRANSMIT)),
        Exit::Load(MmioRegister::QueueReady),
        Exit::Load(MmioRegister::QueueNumMax),
        Exit::Store(MmioRegister::QueueNum, u32::from(ring.size)),
        Exit::Store(MmioRegister::QueueDescLow, low(ring.desc)),
        Exit::Store(MmioRegister::QueueDescHigh, high(ring.desc)),
        Exit::Store(MmioRegister::QueueDriverLow, low(ring.driver)),
        Exit::Store(MmioRegister::QueueDriverHigh, high(ring.driver)),
        Exit::Store(MmioRegister::QueueDeviceLow, low(ring.device)),
        Exit::Store(MmioRegister::QueueDeviceHigh, high(ring.device)),
        Exit::Store(MmioRegister::QueueReady, 1),
        // From now on the device is driven.
        status(Step::DrvOk),
    ]
}

/// How it tells the device that the queue has buffers (VIRTIO 1.2, 4.2.3.3).
pub const NOTIFY: [Exit; 1] = [Exit::Store(MmioRegister::QueueNotify, TRANSMIT as u32)];

/// What it does once its interrupt line is up (VIRTIO 1.2, 4.2.3.4).
pub const ACKNOWLEDGE: [Exit; 2] = [
    Exit::Load(MmioRegister::InterruptStatus),
    Exit::Store(MmioRegister::InterruptAck, InterruptBits::USED_BUFFER.0),
];

/// A buffer of one piece, which the device reads: a text of 1 to 4,096 bytes. Only want of memory keeps it from being made.
pub fn text_buffer(alloc: Global, text: &[u8]) -> Result<PostBuf, Memory>
    requires some { 1 ≤ length text.now }
    requires short { length text.now ≤ LONGEST_PIECE }
    ensures postable { IfOk result (λ b. IsPostable (posted_buffer b)) }
    ensures direct { IfOk result (λ b. b.indirect ≡ false) }
    ensures bytes { IfOk result (λ b. b.readable ≡ text.now) }
{
    // A list of no bytes. Takes no memory, and never fails.
    let mut readable = Bytes::new(alloc);
    // Adds bytes at the end. Fails only for want of memory, and then leaves the list as it was.
    readable.extend(alloc, text)?;
    // The length of each piece. A buffer has 1 to 8 of them, each of 1 to 4,096 bytes, and 8,192 bytes at most.
    let mut cuts = ArrayVec::new();
    // Adds one at the end. Wants room for it, and never fails.
    cuts.push(text.len() as u16);
    Ok(PostBuf {
        tag: 0,
        indirect: false,
        readable,
        cuts,
        nread: 1,
    })
}
