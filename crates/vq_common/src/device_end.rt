//! The device's end of a queue.

ghost use Rattle.std.specs.Prelude.{◌≡◌, ℕ, ◌+◌, ◌≤◌, List, Bool, IsTrue, length};
ghost use Rattle.vq_common.specs.Chain.{ChainValue, Walked, Front, TakesBy, UndoesTake, IsShown, chain_value, walked};
ghost use Rattle.vq_common.specs.declared.chain.RingCfg.{RingCfg};
ghost use Rattle.vq_common.specs.Pages.{PAGES_OF_GIVE};
ghost use Rattle.vq_common.specs.Queue.{DeviceQueue, Given, IsDeviceQueue, KeepsRing, is_ring_size, new_device_queue};

use crate::chain::{Chain, RingCfg, Take};
use guest_mem::GuestMem;

/// A device's end of a queue of either kind.
pub trait DeviceEnd: Sized {
    /// The device's record of the queue.
    ghost queue: { Self → DeviceQueue };

    /// How far the ring's numbers count before they begin again at 0: to 2^16 on a split ring, to its size on a packed
    /// one.
    ghost positions: { RingCfg → ℕ };

    /// The ring walk: what memory shows next to a device with this record.
    ghost walk: { List ℕ → DeviceQueue → Walked };

    /// The record once the front chain is taken.
    ghost taken: { DeviceQueue → ChainValue → DeviceQueue };

    /// The ring's areas lie inside a memory of this length.
    ghost areas_inside: { ℕ → RingCfg → Bool };

    /// What giving a chain back, with a number of bytes written, leaves.
    ghost given: { List ℕ → DeviceQueue → ChainValue → ℕ → Given };

    /// Nothing is taken yet; indices and positions are at their start. The size is a power of two, at most that of the greatest ring.
    fn new(cfg: &RingCfg) -> Self
        requires { IsTrue (is_ring_size cfg.now.size) }
        ensures { queue result ≡ new_device_queue cfg.now };

    /// Takes the next chain. Empty and Bad change nothing.
    fn take(&mut self, mem: &GuestMem) -> Take
        ensures takes { TakesBy walk taken mem.now.bytes (queue self.old) (walked result) (queue self.new) }
        ensures counts { IsDeviceQueue positions (queue self.old) }
        ensures ring { KeepsRing (queue self.old) (queue self.new) };

    /// Gives a chain back, in any order: writes the used element and then the index, and answers whether to signal.
    /// Memory is compared once both are written: in which order they are written isn't claimed. It makes at most
    /// `PAGES_OF_GIVE` pages of memory.
    fn give(&mut self, mem: &mut GuestMem, chain: &Chain, len: u32) -> bool
        requires areas { IsTrue (areas_inside (length mem.old.bytes) (queue self.old).cfg) }
        requires slots { chain.now.slots ≤ (queue self.old).cfg.size }
        requires pages { PAGES_OF_GIVE ≤ mem.old.spare }
        ensures gives { given mem.old.bytes (queue self.old) (chain_value chain.now) len ≡ record { memory = mem.new.bytes; queue = queue self.new; signals = result } }
        ensures ring { KeepsRing (queue self.old) (queue self.new) }
        ensures memory { length mem.new.bytes ≡ length mem.old.bytes }
        ensures pages { mem.old.spare ≤ mem.new.spare + PAGES_OF_GIVE };

    /// Undoes the last take, where that was the last call and answered this chain.
    fn put_back(&mut self, chain: &Chain)
        ensures undoes { UndoesTake positions taken (queue self.old) (chain_value chain.now) (queue self.new) }
        ensures ring { KeepsRing (queue self.old) (queue self.new) };

    /// A chain that the walk shows keeps the rules on pieces, takes no more locations than the ring has, and is shown only
    /// where the areas lie inside memory.
    ghost shown: { (mem : List ℕ) (q : DeviceQueue) (c : ChainValue) → walk mem q ≡ Front c → IsShown areas_inside (length mem) q c };
}
