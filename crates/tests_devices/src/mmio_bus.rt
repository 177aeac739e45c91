//! The console over MMIO, at the start and with a malformed ring.

ghost use Rattle.std.specs.Prelude.{◌≤◌, IfOk};

use dev_core::{Bus, DeviceSet, Served};
use guest_mem::GuestMem;
use mmio_regs::MmioBus;
use std::alloc::{AllocError, Global};
use std::process::Abort;
use std::test::Fail;
use vt_outside::MemDisk;
use vt_types::{Access, Answer, Bytes, Dev, Memory};

/// The bus with the devices and guest memory behind it, all as at the start.
#[derive(Drop)]
struct Machine {
    bus: MmioBus,
    mem: GuestMem,
    set: DeviceSet<MemDisk>,
}

impl Machine {
    fn new(alloc: Global) -> Result<Machine, Memory> {
        let disk = MemDisk::new(alloc, 0, false, Bytes::new(alloc))?;
        let set = DeviceSet::new(alloc, disk).map_err(|_| AllocError)?;
        Ok(Machine {
            bus: MmioBus::new(),
            mem: GuestMem::new(alloc, 1 << 28)?,
            set,
        })
    }

    /// What a load answers.
    fn load(&mut self, rt: &impl Abort, addr: u64, width: u8) -> Answer {
        assert!(rt; width == 1 || width == 2 || width == 4);
        let load = Access::Load { addr, width };
        self.bus.access(&mut self.mem, &mut self.set, &load)
    }

    /// Stores a word of 32 bits, once there is room for what it may take.
    fn store(&mut self, alloc: Global, addr: u64, value: u32) -> Result<Answer, Memory> {
        self.mem.reserve(alloc, 1)?;
        self.set.reserve(alloc)?;
        let width = 4;
        let store = Access::Store { addr, width, value };
        Ok(self.bus.access(&mut self.mem, &mut self.set, &store))
    }
}

/// What loads of a width answer at the start.
const START: [(u64, u8, u64); 27] = [
    (0x4000_2000, 4, 0x7472_6976),
    (0x4000_2008, 4, 3),
    (0x4000_2010, 4, 0x3000_0005),
    (0x4000_2034, 4, 256),
    (0x4000_2044, 4, 0),
    (0x4000_2070, 4, 0),
    (0x4000_20b0, 4, 0xffff_ffff),
    (0x4000_20b4, 4, 0xffff_ffff),
    (0x4000_20fc, 4, 0),
    // the configuration, aligned and not, and past its end
    (0x4000_2100, 4, 0x0019_0050),
    (0x4000_2102, 1, 0x19),
    (0x4000_2102, 2, 0x19),
    (0x4000_2104, 4, 1),
    (0x4000_2101, 2, 0),
    (0x4000_2102, 4, 0),
    (0x4000_210c, 4, 0),
    (0x4000_2ffc, 4, 0),
    // gaps, another width, other pages and no page
    (0x4000_2000, 2, 0),
    (0x4000_2001, 1, 0),
    (0x4000_200e, 4, 0),
    (0x4000_2014, 4, 0),
    (0x4000_20b8, 4, 0),
    (0x4000_0000, 4, 0),
    (0x4000_1000, 4, 0),
    (0x4000_3000, 4, 0),
    (0x1_4000_2000, 4, 0),
    (0, 4, 0),
];

#[test]
fn answers_at_the_start(rt: HostRuntime) -> Result<(), Fail> {
    let mut machine = Machine::new(rt.alloc())?;
    for (addr, width, value) in START {
        assert_eq!(rt;
            machine.load(&rt, addr, width),
            Answer::Word(value),
            "{addr:x}, {width}"
        );
    }
    let config = Access::CfgLoad {
        func: 2,
        off: 0,
        width: 4,
    };
    let answer = machine
        .bus
        .access(&mut machine.mem, &mut machine.set, &config);
    assert_eq!(rt; answer, Answer::NoSuch);
    Ok(())
}

#[test]
fn needs_a_reset_for_a_malformed_ring(rt: HostRuntime) -> Result<(), Fail> {
    let mut machine = Machine::new(rt.alloc())?;
    for (off, value) in [
        (0x024, 1),
        (0x020, 1),
        (0x070, 0xb),
        (0x030, 1),
        (0x038, 4),
        (0x080, 0xffff_ff00),
        (0x044, 1),
        (0x070, 0xf),
        (0x050, 1),
    ] {
        let done = machine.store(rt.alloc(), 0x4000_2000 + off, value)?;
        assert_eq!(rt; done, Answer::Done, "{off:x}");
    }
    machine.mem.reserve(rt.alloc(), 22)?;
    machine.set.reserve(rt.alloc())?;
    let served = machine.set.serve(&mut machine.mem, Dev::Con, 1);
    assert_eq!(rt; served, Served::Bad);
    machine.mem.reserve(rt.alloc(), 2)?;
    machine.bus.config_signal(&mut machine.mem, Dev::Con);
    assert_eq!(rt; machine.load(&rt, 0x4000_2070, 4), Answer::Word(0x4f));
    assert_eq!(rt; machine.load(&rt, 0x4000_2060, 4), Answer::Word(2));
    Ok(())
}
