//! A ring that is set.

ghost use Rattle.std.specs.Prelude.{◌≡◌, ◌+◌, ◌≤◌, IsTrue, length};
ghost use Rattle.vq_common.specs.Chain.{chain_value, walked};
ghost use Rattle.vq_common.specs.Pages.{PAGES_OF_GIVE};
ghost use Rattle.vq_common.specs.Queue.{is_queue_size};
ghost use Rattle.dev_core.specs.Device.{ring_for};
ghost use Rattle.dev_core.specs.Ring.{areas_inside, given, shown, showed};
ghost use Rattle.dev_core.specs.RingValue.{ring_value};

use bitflags::Flags;
use guest_mem::GuestMem;
use vq_common::{Chain, DeviceEnd, RingCfg, Take};
use vq_split_dev::SplitDevice;
use vt_types::Features;

/// The kind of a ring (VIRTIO 1.2, 2.7 and 2.8). Packed rings are not offered yet.
#[derive(Clone, Copy, Debug, PartialEq, Eq)]
pub enum RingKind {
    Split,
}

/// The device's end of a ring, by its kind.
#[derive(Drop)]
pub enum Ring {
    Split(SplitDevice),
}

impl Ring {
    /// A ring in these areas, of this size. Its kind and its features are by the accepted features.
    pub fn new(cfg: &RingCfg, accepted: Features) -> Ring
        requires { IsTrue (is_queue_size cfg.now.size) }
        ensures { ring_value result ≡ ring_for accepted.0 cfg.now }
    {
        let cfg = RingCfg {
            indirect: accepted.contains(Features::INDIRECT_DESC),
            event_idx: accepted.contains(Features::EVENT_IDX),
            ..*cfg
        };
        Ring::Split(SplitDevice::new(&cfg))
    }

    /// Takes the next chain.
    pub fn take(&mut self, mem: &GuestMem) -> Take
        ensures shows { walked result ≡ shown mem.now.bytes (ring_value self.old) }
        ensures ring { ring_value self.new ≡ showed (ring_value self.old) (walked result) }
    {
        match self {
            Ring::Split(end) => end.take(mem),
        }
    }

    /// Gives a chain back with this many bytes written, and answers whether to signal.
    pub fn give(&mut self, mem: &mut GuestMem, chain: &Chain, len: u32) -> bool
        requires areas { IsTrue (areas_inside (length mem.old.bytes) (ring_value self.old)) }
        requires slots { chain.now.slots ≤ (ring_value self.old).queue.cfg.size }
        requires pages { PAGES_OF_GIVE ≤ mem.old.spare }
        ensures gives { given (ring_value self.old).kind mem.old.bytes (ring_value self.old).queue (chain_value chain.now) len ≡ record { memory = mem.new.bytes; queue = (ring_value self.new).queue; signals = result } }
        ensures kind { (ring_value self.new).kind ≡ (ring_value self.old).kind }
        ensures memory { length mem.new.bytes ≡ length mem.old.bytes }
        ensures pages { mem.old.spare ≤ mem.new.spare + PAGES_OF_GIVE }
    {
        match self {
            Ring::Split(end) => end.give(mem, chain, len),
        }
    }
}
