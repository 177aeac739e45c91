//! The MMIO bus.

ghost use Rattle.std.specs.Prelude.{◌≡◌, ℕ, ◌+◌, ◌≤◌, List, IsTrue};
ghost use Rattle.vt_types.specs.Access.{is_width};
ghost use Rattle.mmio_regs.specs.MmioTable.{console_offset, load_at, mmio_table, signal, store_at};

use crate::config::{load_config, store_config};
use crate::page::Page;
use dev_core::{Bus, DeviceSet};
use guest_mem::GuestMem;
use std::marker::Model;
use vt_layout::{CONFIGURATION, InterruptBits, Mmio, MmioRegister, RegisterLayout, page_address};
use vt_outside::Disk;
use vt_types::{Access, Answer, Dev};

/// The MMIO bus: the page of the console. Other addresses are gaps, which load 0 and ignore stores.
#[derive(Drop)]
pub struct MmioBus {
    con: Page,
}

impl Model for MmioBus {
    ghost use Rattle.mmio_regs.specs.Page.{MmioRegisters};

    ghost Value = { MmioRegisters };

    ghost view = { λ b. record { con = b.con } };
}

/// The offset in the console's page that an address reaches. None exactly where it lies outside.
fn console_offset(addr: u64) -> Option<u32>
    ensures { result ≡ console_offset addr }
{
    let start = u64::from(page_address(Dev::Con));
    if addr >= start && addr < start + u64::from(Mmio::PAGE) {
        Some((addr - start) as u32)
    } else {
        None
    }
}

impl MmioBus {
    /// What a load answers.
    fn load<D: Disk>(&self, set: &DeviceSet<D>, addr: u64, width: u8) -> u32
        requires { IsTrue (is_width width) }
        ensures { (memory : List ℕ) → result ≡ load_at (record { registers = self.now; devices = set.now.devices; memory = memory }) width (console_offset addr) }
    {
        let Some(off) = console_offset(addr) else {
            return 0;
        };
        if off >= CONFIGURATION {
            return load_config(set, off - CONFIGURATION, width);
        }
        match MmioRegister::at(off, width) {
            Some(register) => self.con.load(set, register),
            None => 0,
        }
    }

    /// What a store changes: the low bytes of the value count.
    fn store<D: Disk>(&mut self, set: &mut DeviceSet<D>, addr: u64, width: u8, value: u32)
        requires width { IsTrue (is_width width) }
        requires console { 1 ≤ set.old.spare }
        ensures stores { (memory : List ℕ) → store_at (record { registers = self.old; devices = set.old.devices; memory = memory }) width value (console_offset addr) ≡ record { registers = self.new; devices = set.new.devices; memory = memory } }
        ensures console { set.old.spare ≤ set.new.spare + 1 }
        ensures disk { set.new.disk ≡ set.old.disk }
    {
        let Some(off) = console_offset(addr) else {
            return;
        };
        if off >= CONFIGURATION {
            store_config(set, off - CONFIGURATION, width, value);
        } else if let Some(register) = MmioRegister::at(off, width) {
            self.con.store(set, register, value);
        }
    }

    /// The signal of a bit, in the page of a device.
    fn signal(&mut self, bit: InterruptBits, dev: Dev)
        ensures { self.new ≡ signal bit.0 dev self.old }
    {
        match dev {
            Dev::Con => self.con.signal(bit),
            Dev::Blk | Dev::Net => {}
        }
    }
}

impl Bus for MmioBus {
    ghost table = { mmio_table };

    fn new() -> MmioBus {
        MmioBus { con: Page::new() }
    }

    fn access<D: Disk>(
        &mut self,
        _mem: &mut GuestMem,
        set: &mut DeviceSet<D>,
        a: &Access<'_>,
    ) -> Answer {
        match *a {
            Access::Load { addr, width } => Answer::Word(u64::from(self.load(set, addr, width))),
            Access::Store { addr, width, value } => {
                self.store(set, addr, width, value);
                Answer::Done
            }
            Access::Put { .. }
            | Access::Get { .. }
            | Access::Zero { .. }
            | Access::Swap { .. }
            | Access::CfgLoad { .. }
            | Access::CfgStore { .. }
            | Access::Ssch { .. }
            | Access::Tsch { .. }
            | Access::Stsch { .. }
            | Access::Msch { .. }
            | Access::Csch { .. }
            | Access::Turn { .. }
            | Access::Diag { .. } => Answer::NoSuch,
        }
    }

    fn queue_signal(&mut self, _mem: &mut GuestMem, dev: Dev, _queue: u16) {
        self.signal(InterruptBits::USED_BUFFER, dev);
    }

    fn config_signal(&mut self, _mem: &mut GuestMem, dev: Dev) {
        self.signal(InterruptBits::CONFIGURATION_CHANGE, dev);
    }
}
