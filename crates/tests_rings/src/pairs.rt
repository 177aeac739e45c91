//! Buffers on their way from one end to the other.

ghost use Rattle.std.specs.Prelude.{◌≡◌, ◌≤◌, ◌^◌, IfOk, IsTrue, length};
ghost use Rattle.vt_types.specs.Operation.{posted_buffer};
ghost use Rattle.vq_common.specs.Buffer.{IsPostable};

use crate::ends::{BASE, Started, buffer, front, ring};
use guest_mem::GuestMem;
use memory_port::MemoryPort;
use std::alloc::Global;
use std::process::Abort;
use std::test::Fail;
use vq_common::{Chain, DeviceEnd, DriverEnd, Full, Reaped, Take, is_ring_size, slots_of};
use vq_packed_dev::PackedDevice;
use vq_packed_drv::PackedDriver;
use vq_split_dev::SplitDevice;
use vq_split_drv::SplitDriver;
use vt_types::{Memory, PostBuf, Room};

/// The pages of memory that posting a buffer and giving it back may make.
const PAGES: u32 = 27;

/// A port of so many bytes of guest memory.
fn port(alloc: Global, len: u64) -> Result<MemoryPort, Memory>
    requires { len ≤ 2 ^ 28 }
    ensures { IfOk result (λ p. length p.memory.bytes ≡ len) }
{
    Ok(MemoryPort {
        memory: GuestMem::new(alloc, len)?,
    })
}

/// The ring shows a buffer of one readable piece next.
fn shows<D: DeviceEnd>(
    rt: &impl Abort,
    device: &mut D,
    memory: &GuestMem,
    buf: &PostBuf,
    room: &mut Room,
) -> Chain
    ensures slots { result.slots ≤ (D.queue device.new).cfg.size }
    ensures areas { IsTrue (D.areas_inside (length memory.now.bytes) (D.queue device.new).cfg) }
    ensures ring { (D.queue device.new).cfg ≡ (D.queue device.old).cfg }
{
    let chain = front(rt, device, memory);
    assert_eq!(rt; chain.slots, slots_of(buf));
    assert_eq!(rt; chain.pieces.len(), buf.cuts.len());
    chain.gather(memory, room);
    assert_eq!(rt; room.as_slice(), [1, 2].as_slice());
    chain
}

#[test]
fn posted_buffers_are_shown_on_a_split_ring(rt: HostRuntime) -> Result<(), Fail> {
    let alloc = rt.alloc();
    let ring = ring(4, false);
    let mut driver = SplitDriver::new(alloc, 4)?;
    driver.start(&ring, BASE);
    let mut port = port(alloc, 2 * BASE)?;
    port.memory.reserve(alloc, PAGES)?;
    let direct = buffer(alloc, 1, 3, 1, false)?;
    let indirect = buffer(alloc, 2, 2, 1, true)?;
    let last = buffer(alloc, 3, 1, 1, false)?;
    assert!(rt; vq_split_pair::post(&mut driver, &mut port, &direct).is_ok());
    assert!(rt; !driver.has_tag(2));
    port.memory.reserve(alloc, PAGES)?;
    assert!(rt; vq_split_pair::post(&mut driver, &mut port, &indirect).is_ok());
    assert!(rt; !driver.has_tag(3));
    port.memory.reserve(alloc, PAGES)?;
    assert_eq!(rt;
        vq_split_pair::post(&mut driver, &mut port, &last),
        Err(Full)
    );

    let mut device = SplitDevice::new(&ring);
    let mut room = Room::new();
    shows(&rt, &mut device, &port.memory, &direct, &mut room);
    shows(&rt, &mut device, &port.memory, &indirect, &mut room);
    assert!(rt; matches!(device.take(&port.memory), Take::Empty));
    Ok(())
}

#[test]
fn posted_buffers_are_shown_on_a_packed_ring(rt: HostRuntime) -> Result<(), Fail> {
    let alloc = rt.alloc();
    let ring = ring(4, false);
    let mut driver = PackedDriver::new(alloc, 4)?;
    driver.start(&ring, BASE);
    let mut port = port(alloc, 2 * BASE)?;
    port.memory.reserve(alloc, PAGES)?;
    let direct = buffer(alloc, 1, 3, 1, false)?;
    let indirect = buffer(alloc, 2, 2, 1, true)?;
    let last = buffer(alloc, 3, 1, 1, false)?;
    assert!(rt; vq_packed_pair::post(&mut driver, &mut port, &direct).is_ok());
    assert!(rt; !driver.has_tag(2));
    port.memory.reserve(alloc, PAGES)?;
    assert!(rt; vq_packed_pair::post(&mut driver, &mut port, &indirect).is_ok());
    assert!(rt; !driver.has_tag(3));
    port.memory.reserve(alloc, PAGES)?;
    assert_eq!(rt;
        vq_packed_pair::post(&mut driver, &mut port, &last),
        Err(Full)
    );

    let mut device = PackedDevice::new(&ring);
    let mut room = Room::new();
    shows(&rt, &mut device, &port.memory, &direct, &mut room);
    shows(&rt, &mut device, &port.memory, &indirect, &mut room);
    assert!(rt; matches!(device.take(&port.memory), Take::Empty));
    Ok(())
}

/// Both ends of a ring over one guest memory.
#[derive(Drop)]
struct Pair<E: DriverEnd + Drop, D: DeviceEnd + Drop> {
    driver: Started<E>,
    device: D,
    port: MemoryPort,
    room: Room,
}

impl<E: DriverEnd + Drop, D: DeviceEnd + Drop> Pair<E, D> {
    fn new(
        rt: &impl Abort,
        alloc: Global,
        size: u16,
        event_idx: bool,
    ) -> Result<Pair<E, D>, Memory> {
        assert!(rt; is_ring_size(size));
        Ok(Pair {
            driver: Started::new(rt, alloc, size, event_idx)?,
            device: D::new(&ring(size, event_idx)),
            port: port(alloc, 2 * BASE)?,
            room: Room::new(),
        })
    }

    /// Posts, takes, gives back and reaps a buffer. Answers whether the device signals.
    fn pass(&mut self, rt: &impl Abort, alloc: Global, buf: &PostBuf) -> Result<bool, Memory>
        requires { IsPostable (posted_buffer buf.now) }
    {
        self.port.memory.reserve(alloc, PAGES)?;
        assert!(rt; self.driver.post(rt, &mut self.port, buf));
        let chain = shows(rt, &mut self.device, &self.port.memory, buf, &mut self.room);
        self.port.memory.reserve(alloc, PAGES)?;
        let signals = self.device.give(&mut self.port.memory, &chain, 0);
        self.port.memory.reserve(alloc, PAGES)?;
        let reaped = self.driver.reap(&mut self.port, &mut self.room);
        let want = Reaped {
            tag: buf.tag,
            len: 0,
        };
        assert_eq!(rt; reaped, Some(want));
        Ok(signals)
    }

    /// Passes buffers of so many pieces. With EVENT_IDX the driver asks for a signal of each.
    fn pass_all(
        &mut self,
        rt: &impl Abort,
        alloc: Global,
        pieces: usize,
        count: u32,
    ) -> Result<(), Fail> {
        assert!(rt; pieces >= 1 && pieces <= 8);
        let buf = buffer(alloc, 7, pieces, 1, false)?;
        for round in 0..count {
            assert!(rt; self.pass(rt, alloc, &buf)?, "in round {round}");
        }
        Ok(())
    }
}

/// Each buffer is signalled, also where the indices of a split ring begin again at 0, and where a chain lies past the end
/// of a packed ring.
#[test]
fn buffers_pass_the_last_index(rt: HostRuntime) -> Result<(), Fail> {
    let mut split: Pair<SplitDriver, SplitDevice> = Pair::new(&rt, rt.alloc(), 1, true)?;
    split.pass_all(&rt, rt.alloc(), 1, 65_540)?;
    for (size, pieces) in [(1u16, 1usize), (4, 3), (4, 4), (16, 8), (256, 5)] {
        let mut packed: Pair<PackedDriver, PackedDevice> = Pair::new(&rt, rt.alloc(), size, true)?;
        packed.pass_all(&rt, rt.alloc(), pieces, 320)?;
    }
    Ok(())
}
