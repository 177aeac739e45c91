//! The registers of the console: its page and the device behind it (VIRTIO 1.2, 4.2.2).

ghost use Rattle.std.specs.Prelude.{◌≡◌, ℕ, ◌%◌, ◌^◌, Some, None, MatchOption, slice_get};
ghost use Rattle.dev_core.specs.Device.{QueueState, is_queue_set, kick_queue};
ghost use Rattle.mmio_regs.specs.MmioTable.{change_selected, described, load_of, number_max, selected, store_of, store_ready, store_status};

use crate::page::{Page, QueueRegisters};
use dev_core::DeviceSet;
use vq_common::RingCfg;
use vt_layout::MmioRegister;
use vt_outside::Disk;
use vt_types::{Dev, GREATEST_QUEUE};

/// "virt", the lowest byte first, and the version of the registers (VIRTIO 1.2, 4.2.2).
const MAGIC: u32 = 0x7472_6976;

const VERSION: u32 = 2;

/// The vendor of our devices (our own).
const VENDOR: u32 = 0x1af4;

/// Both halves of the length of a shared memory region that is not there (VIRTIO 1.2, 4.2.2).
const NO_REGION: u32 = 0xffff_ffff;

/// The queue of a number, which counts with all its bits. None exactly where the console has no such queue.
fn queue_of<D: Disk>(set: &DeviceSet<D>, number: u32) -> Option<u16>
    ensures { MatchOption result (slice_get set.now.devices.con.queues number ≡ None) (λ n. (n ≡ number) × ((q : QueueState) × (slice_get set.now.devices.con.queues number ≡ Some q))) }
{
    if number < u32::from(set.queues(Dev::Con)) {
        Some(number as u16)
    } else {
        None
    }
}

/// Kicks the queue of a number, where the console has it and it is set.
fn notify<D: Disk>(set: &mut DeviceSet<D>, number: u32)
    ensures { set.new ≡ record set.old { devices = record set.old.devices { con = kick_queue set.old.devices.con number (slice_get set.old.devices.con.queues number) } } }
{
    if let Some(queue) = queue_of(set, number) {
        set.kick(Dev::Con, queue);
    }
}

/// The ring that the registers of a queue describe. Its features are by what is accepted when it is set.
fn described(registers: QueueRegisters) -> RingCfg
    ensures { result ≡ described registers }
{
    RingCfg {
        desc: registers.desc,
        driver: registers.driver,
        device: registers.device,
        size: registers.num,
        indirect: false,
        event_idx: false,
    }
}

impl Page {
    /// What a register loads; one that is only stored loads 0.
    pub fn load<D: Disk>(&self, set: &DeviceSet<D>, register: MmioRegister) -> u32
        ensures { result ≡ load_of (record { page = self.now; device = set.now.devices.con }) register }
    {
        match register {
            MmioRegister::MagicValue => MAGIC,
            MmioRegister::Version => VERSION,
            MmioRegister::DeviceId => u32::from(Dev::Con.id()),
            MmioRegister::VendorId => VENDOR,
            MmioRegister::DeviceFeatures => set.offered(Dev::Con, self.device_features_select()),
            MmioRegister::QueueNumMax => self.number_max(set),
            MmioRegister::QueueReady => u32::from(self.is_selected_set(set)),
            MmioRegister::InterruptStatus => self.interrupt_status(),
            MmioRegister::Status => u32::from(set.status(Dev::Con)),
            MmioRegister::ShmLenLow | MmioRegister::ShmLenHigh => NO_REGION,
            MmioRegister::ConfigGeneration => set.generation(Dev::Con),
            MmioRegister::DeviceFeaturesSel
            | MmioRegister::DriverFeatures
            | MmioRegister::DriverFeaturesSel
            | MmioRegister::QueueSel
            | MmioRegister::QueueNum
            | MmioRegister::QueueNotify
            | MmioRegister::InterruptAck
            | MmioRegister::QueueDescLow
            | MmioRegister::QueueDescHigh
            | MmioRegister::QueueDriverLow
            | MmioRegister::QueueDriverHigh
            | MmioRegister::QueueDeviceLow
            | MmioRegister::QueueDeviceHigh => 0,
        }
    }

    /// The greatest size of the queue that QueueSel names; 0 where there is none.
    fn number_max<D: Disk>(&self, set: &DeviceSet<D>) -> u32
        ensures { result ≡ number_max (selected (record { page = self.now; device = set.now.devices.con })) }
    {
        match queue_of(set, self.queue_select()) {
            Some(_) => u32::from(GREATEST_QUEUE),
            None => 0,
        }
    }

    /// Whether the queue that QueueSel names is set; one that is not there isn't.
    fn is_selected_set<D: Disk>(&self, set: &DeviceSet<D>) -> bool
        ensures { result ≡ is_queue_set (selected (record { page = self.now; device = set.now.devices.con })) }
    {
        match queue_of(set, self.queue_select()) {
            Some(queue) => set.is_set(Dev::Con, queue),
            None => false,
        }
    }

    /// Replaces the registers of the queue that QueueSel names, where there is one that is not set.
    fn change<D: Disk>(&mut self, set: &DeviceSet<D>, registers: QueueRegisters)
        ensures { change_selected (λ _. registers) (record { page = self.old; device = set.now.devices.con }) ≡ record { page = self.new; device = set.now.devices.con } }
    {
        if !self.is_selected_set(set) {
            self.replace_registers(registers);
        }
    }

    /// Stores a word in QueueReady: 1 sets the queue that QueueSel names, and 0 unsets it.
    fn store_ready<D: Disk>(&self, set: &mut DeviceSet<D>, value: u32)
        ensures stores { store_ready value (record { page = self.now; device = set.old.devices.con }) (slice_get self.now.queues self.now.queue_select) ≡ record { page = self.now; device = set.new.devices.con } }
        ensures rest { set.new ≡ record set.old { devices = record set.old.devices { con = set.new.devices.con } } }
    {
        let Some(queue) = self.selected() else {
            return;
        };
        if value == 1 {
            let _is_set = set.set_queue(Dev::Con, queue, &described(self.registers()));
        } else if value == 0 {
            set.unset_queue(Dev::Con, queue);
        }
    }

    /// Stores a byte in Status; 0 resets the console with its page.
    fn store_status<D: Disk>(&mut self, set: &mut DeviceSet<D>, v: u8)
        ensures stores { store_status v (record { page = self.old; device = set.old.devices.con }) ≡ record { page = self.new; device = set.new.devices.con } }
        ensures rest { set.new ≡ record set.old { devices = record set.old.devices { con = set.new.devices.con } } }
    {
        let _stands = set.write_status(Dev::Con, v);
        if v == 0 {
            self.reset();
        }
    }

    /// Stores a word in a register; one that is only loaded ignores it.
    pub fn store<D: Disk>(&mut self, set: &mut DeviceSet<D>, register: MmioRegister, value: u32)
        ensures stores { store_of register value (record { page = self.old; device = set.old.devices.con }) ≡ record { page = self.new; device = set.new.devices.con } }
        ensures rest { set.new ≡ record set.old { devices = record set.old.devices { con = set.new.devices.con } } }
    {
        let queue = self.registers();
        match register {
            MmioRegister::DeviceFeaturesSel => self.select_device_features(value),
            MmioRegister::DriverFeatures => set.accept(
                Dev::Con,
                self.driver_features_select(),
                value,
            ),
            MmioRegister::DriverFeaturesSel => self.select_driver_features(value),
            MmioRegister::QueueSel => self.select_queue(value),
            MmioRegister::QueueNum => self.change(set, queue.with_num(value)),
            MmioRegister::QueueReady => self.store_ready(set, value),
            MmioRegister::QueueNotify => notify(set, value),
            MmioRegister::InterruptAck => self.acknowledge(value),
            MmioRegister::Status => self.store_status(set, (value & 0xff) as u8),
            MmioRegister::QueueDescLow => self.change(set, queue.with_desc_low(value)),
            MmioRegister::QueueDescHigh => self.change(set, queue.with_desc_high(value)),
            MmioRegister::QueueDriverLow => self.change(set, queue.with_driver_low(value)),
            MmioRegister::QueueDriverHigh => self.change(set, queue.with_driver_high(value)),
            MmioRegister::QueueDeviceLow => self.change(set, queue.with_device_low(value)),
            MmioRegister::QueueDeviceHigh => self.change(set, queue.with_device_high(value)),
            MmioRegister::MagicValue
            | MmioRegister::Version
            | MmioRegister::DeviceId
            | MmioRegister::VendorId
            | MmioRegister::DeviceFeatures
            | MmioRegister::QueueNumMax
            | MmioRegister::InterruptStatus
            | MmioRegister::ShmLenLow
            | MmioRegister::ShmLenHigh
            | MmioRegister::ConfigGeneration => {}
        }
    }
}
