//! Both ends of a ring over one guest memory.

ghost use Rattle.std.specs.Prelude.{◌≡◌, ◌≤◌, ◌^◌, false, IfOk, IsTrue, length};
ghost use Rattle.vq_common.specs.Queue.{IsInBlock, is_ring_size};
ghost use Rattle.ring_bench.specs.Ready.{IsReady};

use crate::counts::Counts;
use crate::guest::Guest;
use crate::host::Host;
use crate::task::Task;
use guest_mem::GuestMem;
use memory_port::MemoryPort;
use std::alloc::Global;
use vq_common::{DeviceEnd, DriverEnd, RingCfg};
use vt_layout::queue_block::{DEVICE_AREA, DRIVER_AREA};
use vt_types::Memory;

/// The bytes of guest memory.
const MEMORY: u64 = 0x200_0000;

/// Where the queue block begins.
const BASE: u64 = 0x100_0000;

/// The pages that posting and serving a buffer make at most.
const PAGES_OF_BUFFER: u32 = 43;

/// A ring in the queue block, without indirect tables and without EVENT_IDX.
fn ring(size: u16) -> RingCfg
    ensures size { result.size ≡ size }
    ensures unasked { result.event_idx ≡ false }
    ensures in_block { IsInBlock result BASE }
{
    RingCfg {
        desc: BASE,
        driver: BASE + DRIVER_AREA,
        device: BASE + DEVICE_AREA,
        size,
        indirect: false,
        event_idx: false,
    }
}

/// The driver's and the device's side of one ring.
#[derive(Drop)]
pub struct Rings<E: DeviceEnd + Drop, D: DriverEnd + Drop> {
    guest: Guest<D>,
    host: Host<E>,
    port: MemoryPort,
}

impl<E: DeviceEnd + Drop, D: DriverEnd + Drop> Rings<E, D> {
    /// A ring of this size on which nothing was posted yet.
    pub fn new(alloc: Global, size: u16) -> Result<Rings<E, D>, Memory>
        requires { IsTrue (is_ring_size size) }
        ensures { IfOk result (λ rings. IsReady (D.queue rings.guest.driver)) }
    {
        let ring = ring(size);
        Ok(Rings {
            guest: Guest::new(alloc, &ring, BASE)?,
            host: Host::new(&ring),
            port: MemoryPort {
                memory: GuestMem::new(alloc, MEMORY)?,
            },
        })
    }

    /// Takes the buffers of a task through the ring. Answers what was reaped: less than the task asks for where a round
    /// reaps less than it posted.
    pub fn carry(&mut self, alloc: Global, task: &Task) -> Result<Counts, Memory>
        requires { IsReady (D.queue self.old.guest.driver) }
        ensures { IfOk result (λ counts. counts.buffers ≤ task.now.count) }
    {
        let mut counts = Counts::new();
        let in_flight = u32::from(task.in_flight);
        'rounds: for _round in 0..task.count.div_ceil(in_flight) {
            let left = in_flight.min(task.count - counts.buffers);
            self.port.memory.reserve(alloc, PAGES_OF_BUFFER * left)?;
            let posted = self.guest.post(&mut self.port, left);
            self.host.serve(&mut self.port.memory, left);
            if self.guest.reap(&mut self.port, left, &mut counts) < posted {
                return Ok(counts);
            }
        }
        Ok(counts)
    }
}
