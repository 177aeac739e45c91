//! The device's side of a ring.

ghost use Rattle.std.specs.Prelude.{◌+◌, ◌*◌, ◌≤◌, IsTrue};
ghost use Rattle.vq_common.specs.Queue.{is_ring_size};
ghost use Rattle.ring_bench.specs.Ready.{PAGES_OF_SERVE};

use guest_mem::GuestMem;
use vq_common::{DeviceEnd, RingCfg, Take};
use vt_types::Room;

/// The device's end of a ring, and room for the readable bytes of a chain.
#[derive(Drop)]
pub struct Host<E: DeviceEnd + Drop> {
    device: E,
    room: Room,
}

impl<E: DeviceEnd + Drop> Host<E> {
    /// A ring of which nothing was taken yet.
    pub fn new(cfg: &RingCfg) -> Host<E>
        requires { IsTrue (is_ring_size cfg.now.size) }
    {
        Host {
            device: E::new(cfg),
            room: Room::new(),
        }
    }

    /// Takes the next chain, writes its readable bytes over its writable pieces, as many as there is room for, and gives
    /// it back. False where the ring shows no chain.
    fn serve_next(&mut self, memory: &mut GuestMem) -> bool
        requires pages { PAGES_OF_SERVE ≤ memory.old.spare }
        ensures pages { memory.old.spare ≤ memory.new.spare + PAGES_OF_SERVE }
    {
        let Take::Front(chain) = self.device.take(memory) else {
            return false;
        };
        chain.gather(memory, &mut self.room);
        chain.scatter(memory, self.room.as_slice());
        let written = chain.room().min(self.room.len() as u32);
        let _signals = self.device.give(memory, &chain, written);
        true
    }

    /// Serves at most `left` chains, until the ring shows no more.
    pub fn serve(&mut self, memory: &mut GuestMem, left: u32)
        requires { PAGES_OF_SERVE * left ≤ memory.old.spare }
    {
        'chains: for _chain in 0..left {
            if !self.serve_next(memory) {
                return;
            }
        }
    }
}
