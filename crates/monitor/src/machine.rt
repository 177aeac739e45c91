//! What a monitor keeps of a guest, and what it does for it.

ghost use Rattle.std.specs.Prelude.{◌≡◌, ◌≤◌, ◌↔◌, IsTrue, IfOk, OnOk, OnErr, replicate};
ghost use Rattle.vt_types.specs.declared.operation.Event.TheVariants.{Serve};
ghost use Rattle.vt_types.specs.Limits.{LONGEST_BUFFER};
ghost use Rattle.dev_core.specs.Bus.{raw_event};
ghost use Rattle.dev_core.specs.Devices.{new_devices};
ghost use Rattle.dev_core.specs.Serve as serving;
ghost use Rattle.mmio_regs.specs.MmioTable.{mmio_table};
ghost use Rattle.monitor.specs.Exit.{trapped};
ghost use Rattle.monitor.specs.Machine.{raw_of};

use crate::exits::Exit;
use dev_core::{Bus, DeviceSet, Served};
use guest_mem::GuestMem;
use memory_port::MemoryPort;
use mmio_regs::MmioBus;
use std::alloc::{AllocError, Global};
use vt_layout::MmioRegister;
use vt_outside::MemDisk;
use vt_types::{Answer, Bytes, Dev, Memory};

/// The bytes of guest memory: up to the end of the last queue block.
const MEMORY: u64 = 0x600_0000;

/// The pages of guest memory that one step makes at most: posting a buffer 23, serving one with its signal 22, a store 1.
const PAGES: u32 = 23;

/// Guest memory, the devices behind the bus, and the registers of the bus. Guest memory is kept as a port, since the guest's
/// driver runs in this process too: the devices and the bus take the memory in it.
#[derive(Drop)]
pub struct Machine {
    pub port: MemoryPort,
    pub set: DeviceSet<MemDisk>,
    pub bus: MmioBus,
}

impl Machine {
    /// A machine as it is switched on. Only want of memory keeps it from being made.
    pub fn new(alloc: Global) -> Result<Machine, Memory>
        ensures { IfOk result (λ m. raw_of m ≡ record { registers = mmio_table.start; devices = new_devices; memory = replicate MEMORY 0 }) }
    {
        // So many bytes of zeros. Wants at most 2^28 of them, and fails only for want of memory. Of the host it takes 4 bytes for
        // each page, and the page itself once it is written to.
        let memory = GuestMem::new(alloc, MEMORY)?;
        // A disk of zeros, here of no sectors, that may be written to and of which no call is to fail. Wants at most 65,536
        // sectors, and fails only for want of memory. A set holds a disk, and the console asks nothing of it.
        let disk = MemDisk::new(alloc, 0, false, Bytes::new(alloc))?;
        // The devices as they are switched on. Fails only for want of memory, and then hands the disk back, which is let go here.
        let Ok(set) = DeviceSet::new(alloc, disk) else {
            return Err(AllocError);
        };
        Ok(Machine {
            port: MemoryPort { memory },
            set,
            // The registers as they are switched on. Takes no memory, and never fails.
            bus: MmioBus::new(),
        })
    }

    /// Sets aside what the next step may take, so that nothing can fail within it.
    pub fn reserve(&mut self, alloc: Global) -> Result<(), Memory>
        ensures same { raw_of self.new ≡ raw_of self.old }
        ensures pages { OnOk result (PAGES ≤ self.new.port.memory.spare) }
        ensures console { OnOk result (LONGEST_BUFFER ≤ self.new.set.spare) }
    {
        // Sees that at least so many pages are spare for what is written to guest memory. Fails only for want of memory, and
        // never where so many are spare.
        self.port.memory.reserve(alloc, PAGES)?;
        // The same for bytes that the console is given: those of 129 of the longest buffers, of 8,192 bytes.
        self.set.reserve(alloc)
    }

    /// Hands a trapped access to the bus. Answers the loaded word, or `Done` after a store.
    pub fn exit(&mut self, alloc: Global, exit: Exit) -> Result<Answer, Memory>
        ensures ok { IfOk result (λ answer. mmio_table.access (trapped exit) (raw_of self.old) ≡ (answer, raw_of self.new)) }
        ensures err { OnErr result (raw_of self.new ≡ raw_of self.old) }
    {
        self.reserve(alloc)?;
        let access = exit.access();
        let memory = &mut self.port.memory;
        // Does one access. Wants its width, and for a store one page and one byte of the console spare. Never fails, whatever
        // the guest does: where there is no register a load answers 0, and a store changes nothing.
        Ok(self.bus.access(memory, &mut self.set, &access))
    }

    /// Serves one buffer of a queue of the console, and has the bus show what the guest is to be told of it.
    pub fn serve(&mut self, alloc: Global, queue: u16) -> Result<Served, Memory>
        ensures ok { OnOk result (raw_of self.new ≡ raw_event mmio_table (raw_of self.old) (Serve Dev.Con queue)) }
        ensures served { IfOk result (λ served. served ≡ (serving.serve self.old.set.devices Dev.Con queue self.old.port.memory.bytes).served) }
        ensures err { OnErr result (raw_of self.new ≡ raw_of self.old) }
    {
        self.reserve(alloc)?;
        let memory = &mut self.port.memory;
        // Takes the next buffer from the ring, answers it and gives it back. Wants 20 pages and 8,192 bytes of the console spare.
        // Never fails, whatever the guest wrote: a queue that the console doesn't have is `Idle`, a malformed ring is `Bad`.
        let served = self.set.serve(memory, Dev::Con, queue);
        match served {
            // Nothing was to be done, or the guest does not want to be told.
            Served::Idle | Served::Quiet => {}
            // A buffer was used: sets the bit for it in InterruptStatus. Wants 2 pages spare, and never fails.
            Served::Signal => self.bus.queue_signal(memory, Dev::Con, queue),
            // The console needs a reset, which is told as a change of its configuration: sets the bit for that. Wants the same,
            // and never fails.
            Served::Bad => self.bus.config_signal(memory, Dev::Con),
        }
        Ok(served)
    }

    /// Whether the guest's interrupt line is to be up: exactly while InterruptStatus is not 0 (VIRTIO 1.2, 4.2.3.4).
    pub fn is_line_up(&mut self) -> bool
        ensures up { IsTrue result ↔ (1 ≤ self.old.bus.con.interrupt_status) }
        ensures same { raw_of self.new ≡ raw_of self.old }
    {
        let load = Exit::Load(MmioRegister::InterruptStatus).access();
        let memory = &mut self.port.memory;
        // What the registers hold the bus tells by loads alone. A load wants nothing spare, changes nothing and never fails.
        let status = self.bus.access(memory, &mut self.set, &load);
        status != Answer::Word(0)
    }
}
