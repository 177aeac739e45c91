//! What the page of a device keeps beside the device.

ghost use Rattle.std.specs.Prelude.{◌≡◌, ◌+◌, ◌*◌, ◌/◌, ◌%◌, ◌^◌, ◌<◌, None, Some, MatchOption, length, slice_get, slice_set};
ghost use Rattle.std.specs.Option.{unwrap_or};
ghost use Rattle.mmio_regs.specs.declared.page.QueueRegisters.{QueueRegisters};
ghost use Rattle.mmio_regs.specs.Page.{new_page, new_queue_registers, with_interrupt, kept_bit, acknowledged, with_low, with_high};

use bitflags::Flags;
use std::marker::Model;
use vt_layout::InterruptBits;

/// The registers that set up a queue: how many descriptors it has, and where its three areas lie.
#[derive(Clone, Copy, Debug, PartialEq, Eq)]
pub struct QueueRegisters {
    pub num: u16,
    pub desc: u64,
    pub driver: u64,
    pub device: u64,
}

/// The selectors, InterruptStatus, and the registers of each queue.
#[derive(Drop)]
pub struct Page {
    device_features_select: u32,
    driver_features_select: u32,
    queue_select: u32,
    interrupt_status: InterruptBits,
    queues: [QueueRegisters; 2],
}

impl Model for Page {
    ghost use Rattle.std.specs.Prelude.{◌≡◌, length};
    ghost use Rattle.mmio_regs.specs.Page.{Page};

    ghost Value = { Page };

    ghost view = { λ p. record { device_features_select = p.device_features_select; driver_features_select = p.driver_features_select; queue_select = p.queue_select; interrupt_status = p.interrupt_status.0; queues = p.queues } };

    ghost invariant = { λ p. length p.queues ≡ 2 };
}

/// An address with another low half.
fn with_low(addr: u64, word: u32) -> u64
    ensures { result ≡ with_low addr word }
{
    (addr >> 32 << 32) | u64::from(word)
}

/// An address with another high half.
fn with_high(addr: u64, word: u32) -> u64
    ensures { result ≡ with_high addr word }
{
    (addr & 0xffff_ffff) | u64::from(word) << 32
}

/// The signals of one bit that stand once some are acknowledged.
fn kept_bit(
    acknowledged: InterruptBits,
    signals: InterruptBits,
    bit: InterruptBits,
) -> InterruptBits
    ensures { result.0 ≡ kept_bit acknowledged.0 signals.0 bit.0 }
{
    if acknowledged.contains(bit) {
        InterruptBits(0)
    } else {
        InterruptBits(signals.0 & bit.0)
    }
}

impl QueueRegisters {
    /// After a reset.
    fn new() -> QueueRegisters
        ensures { result ≡ new_queue_registers }
    {
        QueueRegisters {
            num: 0,
            desc: 0,
            driver: 0,
            device: 0,
        }
    }

    /// With another size: the low 16 bits of the word.
    pub fn with_num(self, word: u32) -> QueueRegisters
        ensures { result ≡ record self { num = word % 2 ^ 16 } }
    {
        let num = (word & 0xffff) as u16;
        QueueRegisters { num, ..self }
    }

    /// With another low half of the descriptor area's address.
    pub fn with_desc_low(self, word: u32) -> QueueRegisters
        ensures { result ≡ record self { desc = with_low self.desc word } }
    {
        let desc = with_low(self.desc, word);
        QueueRegisters { desc, ..self }
    }

    /// With another high half of the descriptor area's address.
    pub fn with_desc_high(self, word: u32) -> QueueRegisters
        ensures { result ≡ record self { desc = with_high self.desc word } }
    {
        let desc = with_high(self.desc, word);
        QueueRegisters { desc, ..self }
    }

    /// With another low half of the driver area's address.
    pub fn with_driver_low(self, word: u32) -> QueueRegisters
        ensures { result ≡ record self { driver = with_low self.driver word } }
    {
        let driver = with_low(self.driver, word);
        QueueRegisters { driver, ..self }
    }

    /// With another high half of the driver area's address.
    pub fn with_driver_high(self, word: u32) -> QueueRegisters
        ensures { result ≡ record self { driver = with_high self.driver word } }
    {
        let driver = with_high(self.driver, word);
        QueueRegisters { driver, ..self }
    }

    /// With another low half of the device area's address.
    pub fn with_device_low(self, word: u32) -> QueueRegisters
        ensures { result ≡ record self { device = with_low self.device word } }
    {
        let device = with_low(self.device, word);
        QueueRegisters { device, ..self }
    }

    /// With another high half of the device area's address.
    pub fn with_device_high(self, word: u32) -> QueueRegisters
        ensures { result ≡ record self { device = with_high self.device word } }
    {
        let device = with_high(self.device, word);
        QueueRegisters { device, ..self }
    }
}

impl Page {
    /// A page after a reset, of a device with two queues.
    pub fn new() -> Page
        ensures { result ≡ new_page 2 }
    {
        Page {
            device_features_select: 0,
            driver_features_select: 0,
            queue_select: 0,
            interrupt_status: InterruptBits(0),
            queues: [QueueRegisters::new(), QueueRegisters::new()],
        }
    }

    /// Everything is as after a reset.
    pub fn reset(&mut self)
        ensures { self.new ≡ new_page (length self.old.queues) }
    {
        let queues = [QueueRegisters::new(), QueueRegisters::new()];
        self.device_features_select = 0;
        self.driver_features_select = 0;
        self.queue_select = 0;
        self.interrupt_status = InterruptBits(0);
        self.queues = queues;
    }

    /// Which word of the device's features is shown.
    pub fn device_features_select(&self) -> u32
        ensures { result ≡ self.now.device_features_select }
    {
        self.device_features_select
    }

    /// Which word of the driver's features is written.
    pub fn driver_features_select(&self) -> u32
        ensures { result ≡ self.now.driver_features_select }
    {
        self.driver_features_select
    }

    /// Which queue the queue registers act on.
    pub fn queue_select(&self) -> u32
        ensures { result ≡ self.now.queue_select }
    {
        self.queue_select
    }

    /// Chooses the word of the device's features that is shown.
    pub fn select_device_features(&mut self, word: u32)
        ensures { self.new ≡ record self.old { device_features_select = word } }
    {
        self.device_features_select = word;
    }

    /// Chooses the word of the driver's features that is written.
    pub fn select_driver_features(&mut self, word: u32)
        ensures { self.new ≡ record self.old { driver_features_select = word } }
    {
        self.driver_features_select = word;
    }

    /// Chooses the queue that the queue registers act on.
    pub fn select_queue(&mut self, queue: u32)
        ensures { self.new ≡ record self.old { queue_select = queue } }
    {
        self.queue_select = queue;
    }

    /// The signals that stand: bits of `InterruptBits`.
    pub fn interrupt_status(&self) -> u32
        ensures { result ≡ self.now.interrupt_status }
    {
        self.interrupt_status.0
    }

    /// A signal is made.
    pub fn signal(&mut self, bit: InterruptBits)
        ensures { self.new ≡ with_interrupt bit.0 self.old }
    {
        self.interrupt_status.insert(bit);
    }

    /// The driver acknowledges signals.
    pub fn acknowledge(&mut self, bits: u32)
        ensures { self.new ≡ acknowledged bits self.old }
    {
        let bits = InterruptBits(bits);
        let signals = self.interrupt_status;
        let used_buffer = kept_bit(bits, signals, InterruptBits::USED_BUFFER);
        let configuration_change = kept_bit(bits, signals, InterruptBits::CONFIGURATION_CHANGE);
        self.interrupt_status = InterruptBits(used_buffer.0 + configuration_change.0);
    }

    /// The queue that QueueSel names, which counts with all its bits. None exactly where there is no such queue.
    pub fn selected(&self) -> Option<u16>
        ensures { MatchOption result (slice_get self.now.queues self.now.queue_select ≡ None) (λ n. (n ≡ self.now.queue_select) × ((q : QueueRegisters) × (slice_get self.now.queues self.now.queue_select ≡ Some q))) }
    {
        if (self.queue_select as usize) < self.queues.len() {
            Some(self.queue_select as u16)
        } else {
            None
        }
    }

    /// The registers of the queue that QueueSel names; those after a reset where there is no such queue.
    pub fn registers(&self) -> QueueRegisters
        ensures { result ≡ unwrap_or (slice_get self.now.queues self.now.queue_select) new_queue_registers }
    {
        let registers = self.queues.get(self.queue_select as usize);
        registers.copied().unwrap_or(QueueRegisters::new())
    }

    /// Replaces the registers of the queue that QueueSel names, where there is one.
    pub fn replace_registers(&mut self, registers: QueueRegisters)
        ensures { self.new ≡ record self.old { queues = slice_set self.old.queues self.old.queue_select registers } }
    {
        let index = self.queue_select as usize;
        if index < self.queues.len() {
            self.queues[index] = registers;
        }
    }
}
