//! Setting up a queue (VIRTIO 1.2, 4.2.3.2) and notifying it (4.2.3.3).

ghost use Rattle.std.specs.Prelude.{◌≡◌, ◌+◌, ◌<◌, ◌≤◌, None};
ghost use Rattle.vt_types.specs.Device.{queue_block, queue_count};
ghost use Rattle.vt_types.specs.Limits.{GREATEST_COST};
ghost use Rattle.vt_types.specs.Operation.{SetQueue};
ghost use Rattle.vt_types.specs.Program.{Gives};
ghost use Rattle.vt_types.specs.Reply.{reply_value};
ghost use Rattle.vq_common.specs.Queue.{IsInBlock};
ghost use Rattle.state_table.specs.Refusal.{refusal_of};
ghost use Rattle.by_device.specs.ByDevice.{of};
ghost use Rattle.drv_core.specs.Driver.{DeviceRecord, DriverRecord, known_of};
ghost use Rattle.drv_mmio.specs.Calls.{Describes, StoresAreas};
ghost use Rattle.drv_mmio.specs.Lowering.{cfg_of, notify_lowering, setq_lowering};

use crate::accesses::{clear_areas, load, store, store_address};
use bitflags::Flags;
use drv_core::Driver;
use vq_common::RingCfg;
use vt_layout::MmioRegister;
use vt_layout::queue_block::{DEVICE_AREA, DRIVER_AREA};
use vt_types::{Dev, Features, Port, Reply, Room};

/// Where the ring of a queue of a size lies, and which of the accepted features it has.
fn ring(accepted: Features, dev: Dev, queue: u16, size: u16) -> RingCfg
    requires { queue < queue_count dev }
    ensures value { (d : DeviceRecord) → d.accepted ≡ accepted.0 → result ≡ cfg_of d dev queue size }
    ensures in_block { IsInBlock result (queue_block dev queue) }
{
    let block = u64::from(dev.block(queue));
    RingCfg {
        desc: block,
        driver: block + DRIVER_AREA,
        device: block + DEVICE_AREA,
        size,
        indirect: accepted.contains(Features::INDIRECT_DESC),
        event_idx: accepted.contains(Features::EVENT_IDX),
    }
}

/// Stores the locations of the three areas of a ring.
fn store_areas<P: Port>(port: &mut P, dev: Dev, cfg: &RingCfg, room: &mut Room)
    requires { 6 ≤ P.credit port.old }
    ensures stores { StoresAreas P.step P.marking dev cfg.now port.old port.new }
    ensures credit { P.credit port.old ≤ P.credit port.new + 6 }
{
    let (low, high) = (MmioRegister::QueueDescLow, MmioRegister::QueueDescHigh);
    store_address(port, dev, low, high, cfg.desc, room);
    let (low, high) = (MmioRegister::QueueDriverLow, MmioRegister::QueueDriverHigh);
    store_address(port, dev, low, high, cfg.driver, room);
    let (low, high) = (MmioRegister::QueueDeviceLow, MmioRegister::QueueDeviceHigh);
    store_address(port, dev, low, high, cfg.device, room);
}

/// Clears the areas of a queue, selects and describes it, and sets it.
fn describe<P: Port>(port: &mut P, dev: Dev, queue: u16, cfg: &RingCfg, room: &mut Room)
    requires queue { queue < queue_count dev }
    requires credit { GREATEST_COST ≤ P.credit port.old }
    ensures { Describes P.step P.marking dev queue cfg.now port.old port.new }
{
    clear_areas(port, dev, queue, room);
    store(port, dev, MmioRegister::QueueSel, u32::from(queue), room);
    load(port, dev, MmioRegister::QueueReady, room);
    load(port, dev, MmioRegister::QueueNumMax, room);
    store(port, dev, MmioRegister::QueueNum, u32::from(cfg.size), room);
    store_areas(port, dev, cfg, room);
    store(port, dev, MmioRegister::QueueReady, 1, room);
    port.mark();
}

/// Sets up a queue; this was not refused.
pub fn set_queue<P: Port>(
    driver: &mut Driver,
    port: &mut P,
    dev: Dev,
    queue: u16,
    size: u16,
    room: &mut Room,
) -> Reply
    requires allowed { refusal_of (known_of (of driver.old dev)) (SetQueue dev queue size) ≡ None }
    requires credit { GREATEST_COST ≤ P.credit port.old }
    ensures { Gives P.step P.marking (setq_lowering driver.old dev queue size) port.old (record { reply = reply_value result room.new.items; known = driver.new }) port.new }
{
    let accepted = driver.device(dev).accepted();
    let cfg = ring(accepted, dev, queue, size);
    describe(port, dev, queue, &cfg, room);
    driver.set_queue(dev, queue, &cfg, cfg.desc);
    Reply::Good
}

/// Stores the queue's number in QueueNotify.
pub fn notify<P: Port>(port: &mut P, dev: Dev, queue: u16, room: &mut Room) -> Reply
    requires { GREATEST_COST ≤ P.credit port.old }
    ensures { (known : DriverRecord) → Gives P.step P.marking (notify_lowering known dev queue) port.old (record { reply = reply_value result room.new.items; known = known }) port.new }
{
    store(port, dev, MmioRegister::QueueNotify, u32::from(queue), room);
    port.mark();
    Reply::Good
}
