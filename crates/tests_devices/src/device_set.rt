//! A console that is brought up and served.

use dev_core::{DeviceSet, Served, is_event_there, is_there};
use guest_mem::GuestMem;
use std::alloc::Global;
use std::process::Abort;
use std::test::Fail;
use vq_common::{Descriptor, RingCfg};
use vt_outside::{Failed, MemDisk};
use vt_types::{Bytes, Dev, Event, Features, Memory};

const RECEIVE: u16 = 0;

const TRANSMIT: u16 = 1;

const SIZE: u16 = 8;

const DATA: u64 = 0x8000;

/// Where the ring of a queue lies.
fn cfg(queue: u16, size: u16) -> RingCfg {
    let base = u64::from(queue) * 0x4000;
    RingCfg {
        desc: base,
        driver: base + 0x1000,
        device: base + 0x2000,
        size,
        indirect: true,
        event_idx: true,
    }
}

/// A set over a disk of two sectors.
fn new_set(rt: &impl Abort, alloc: Global) -> Result<DeviceSet<MemDisk>, Memory> {
    let disk = MemDisk::new(alloc, 2, false, Bytes::new(alloc))?;
    match DeviceSet::new(alloc, disk) {
        Ok(set) => Ok(set),
        Err(_) => rt.panic("no memory for a set"),
    }
}

/// How a queue is served that has one chain of one descriptor, over `hello`.
struct Serving {
    queue: u16,
    /// The flags of the driver area.
    flags: u16,
    /// The length and the flags of the descriptor.
    len: u32,
    descriptor_flags: u16,
    /// What it comes to once the driver kicked, and again once input came.
    served: [Served; 2],
    /// The status, the console, the buffer, and the device area then: how many buffers were used, and the id and the length
    /// of the first.
    status: u8,
    console: &'static [u8],
    buffer: [u8; 5],
    used: [u8; 3],
}

const SERVINGS: [Serving; 3] = [
    Serving {
        queue: TRANSMIT,
        flags: 0,
        len: 5,
        descriptor_flags: 0,
        served: [Served::Signal, Served::Idle],
        status: 0x0f,
        console: b"hello",
        buffer: *b"hello",
        used: [1, 0, 0],
    },
    Serving {
        queue: RECEIVE,
        flags: 1,
        len: 2,
        descriptor_flags: 2,
        served: [Served::Idle, Served::Quiet],
        status: 0x0f,
        console: b"",
        buffer: *b"abllo",
        used: [1, 0, 2],
    },
    Serving {
        queue: TRANSMIT,
        flags: 0,
        len: 0,
        descriptor_flags: 0,
        served: [Served::Bad, Served::Idle],
        status: 0x4f,
        console: b"",
        buffer: *b"hello",
        used: [0, 0, 0],
    },
];

/// The devices and guest memory.
#[derive(Drop)]
struct Machine {
    set: DeviceSet<MemDisk>,
    mem: GuestMem,
}

impl Machine {
    /// A console that its driver runs, with a chain in a queue.
    fn new(rt: &impl Abort, alloc: Global, serving: &Serving) -> Result<Machine, Memory> {
        let mut machine = Machine {
            set: new_set(rt, alloc)?,
            mem: GuestMem::new(alloc, 0x9000)?,
        };
        machine.set.accept(Dev::Con, 1, 1);
        assert!(rt; machine.set.write_status(Dev::Con, 0x0b));
        let ring = cfg(serving.queue, SIZE);
        assert!(rt; machine.set.set_queue(Dev::Con, serving.queue, &ring));
        assert!(rt; machine.set.write_status(Dev::Con, 0x0f));
        let descriptor = Descriptor {
            addr: DATA,
            len: serving.len,
            flags: serving.descriptor_flags,
            next: 0,
        };
        let [low, high] = serving.flags.to_le_bytes();
        machine.put(rt, alloc, ring.desc, &descriptor.to_bytes())?;
        machine.put(rt, alloc, ring.driver, &[low, high, 1, 0, 0, 0])?;
        machine.put(rt, alloc, DATA, b"hello")?;
        Ok(machine)
    }

    fn put(
        &mut self,
        rt: &impl Abort,
        alloc: Global,
        addr: u64,
        bytes: &[u8],
    ) -> Result<(), Memory> {
        self.mem.reserve(alloc, 2)?;
        assert!(rt; bytes.len() <= 4096);
        assert!(rt; self.mem.write(addr, bytes).is_ok());
        Ok(())
    }

    /// Serves a queue of the console, once what it may take is spare.
    fn serve(&mut self, alloc: Global, queue: u16) -> Result<Served, Memory> {
        self.set.reserve(alloc)?;
        self.mem.reserve(alloc, 20)?;
        Ok(self.set.serve(&mut self.mem, Dev::Con, queue))
    }
}

#[test]
fn begins_with_a_console_alone(rt: HostRuntime) -> Result<(), Fail> {
    let mut set = new_set(&rt, rt.alloc())?;
    for (index, word) in [(0, 0x3000_0005), (1, 1), (2, 0)] {
        assert_eq!(rt; set.offered(Dev::Con, index), word);
    }
    for (dev, there, queues) in [
        (Dev::Con, true, 2),
        (Dev::Blk, false, 0),
        (Dev::Net, false, 0),
    ] {
        assert_eq!(rt; is_there(dev), there);
        assert_eq!(rt; is_event_there(&Event::Serve { dev, queue: 0 }), there);
        assert_eq!(rt; (set.status(dev), set.queues(dev)), (0, queues));
        assert!(rt; there || set.offered(dev, 0) == 0);
    }
    assert!(rt; is_event_there(&Event::Consize { cols: 80, rows: 25 }));
    assert!(rt; !is_event_there(&Event::Link(true)));
    assert!(rt; !is_event_there(&Event::Resize(7)));
    let mut start = [9u8; 4];
    set.read_config(Dev::Con, 0, &mut start);
    assert_eq!(rt; start, [0x50, 0, 0x19, 0]);
    let mut rest = [9u8; 12];
    set.read_config(Dev::Con, 2, &mut rest);
    assert_eq!(rt; rest, [0x19, 0, 1, 0, 0, 0, 0, 0, 0, 0, 0, 0]);
    let mut room = [9u8; 512];
    assert!(rt; 1 < set.disk_sectors());
    assert_eq!(rt; set.peek_sector(1, &mut room), Ok::<(), Failed>(()));
    assert_eq!(rt; room, [0u8; 512]);
    let _disk = set.into_disk();
    Ok(())
}

#[test]
fn a_driver_brings_the_console_up(rt: HostRuntime) -> Result<(), Fail> {
    let mut set = new_set(&rt, rt.alloc())?;
    for (value, is_kept, status) in [(1, true, 0x01), (3, true, 0x03), (0x0b, false, 0x03)] {
        assert_eq!(rt; set.write_status(Dev::Con, value), is_kept);
        assert_eq!(rt; set.status(Dev::Con), status);
    }
    set.accept(Dev::Con, 1, 1);
    assert_eq!(rt; set.accepted(Dev::Con), Features::VERSION_1);
    assert!(rt; set.write_status(Dev::Con, 0x0b));
    for (queue, size, is_new) in [
        (2, 8, false),
        (1, 3, false),
        (1, 512, false),
        (1, 256, true),
        (1, 8, false),
    ] {
        assert_eq!(rt; set.set_queue(Dev::Con, queue, &cfg(queue, size)), is_new);
    }
    assert!(rt; set.is_set(Dev::Con, 1));
    set.unset_queue(Dev::Con, 1);
    assert!(rt; !set.is_set(Dev::Con, 1));
    for bytes in [&[b'!', 1, 2, 3][..], b"?"] {
        set.reserve(rt.alloc())?;
        set.write_config(Dev::Con, 8, bytes);
        assert_eq!(rt; set.console(), b"!".as_slice());
    }
    let size = Event::Consize {
        cols: 132,
        rows: 43,
    };
    assert_eq!(rt; set.backend(&size), Some(Dev::Con));
    set.reset(Dev::Con);
    assert_eq!(rt; set.status(Dev::Con), 0);
    assert_eq!(rt; set.accepted(Dev::Con), Features(0));
    assert_eq!(rt; set.generation(Dev::Con), 1);
    Ok(())
}

#[test]
fn serves_queues(rt: HostRuntime) -> Result<(), Fail> {
    let alloc = rt.alloc();
    for (n, serving) in SERVINGS.iter().enumerate() {
        let queue = serving.queue;
        let mut machine = Machine::new(&rt, alloc, serving)?;
        assert_eq!(rt; machine.serve(alloc, queue)?, Served::Idle);
        machine.set.kick(Dev::Con, queue);
        for (keys, served) in [(&b""[..], serving.served[0]), (b"abc", serving.served[1])] {
            let mut bytes = Bytes::new(alloc);
            bytes.extend(alloc, keys)?;
            assert_eq!(rt; machine.set.backend(&Event::Key(bytes)), None);
            assert_eq!(rt; machine.serve(alloc, queue)?, served, "row {n}");
            assert_eq!(rt; machine.set.status(Dev::Con), serving.status, "row {n}");
        }
        assert_eq!(rt; machine.set.console(), serving.console, "row {n}");
        let mut room = [9u8; 5];
        assert_eq!(rt; machine.mem.read(DATA, &mut room), Ok(()));
        assert_eq!(rt; room, serving.buffer, "row {n}");
        let mut room = [9u8; 12];
        assert_eq!(rt;
            machine.mem.read(cfg(queue, SIZE).device, &mut room),
            Ok(())
        );
        let [count, id, written] = serving.used;
        assert_eq!(rt;
            room,
            [0, 0, count, 0, id, 0, 0, 0, written, 0, 0, 0],
            "row {n}"
        );
    }
    Ok(())
}
