//! A packed ring in its queue block.

ghost use Rattle.std.specs.Prelude.{◌≡◌, ◌+◌, ◌*◌, ◌%◌, ◌<◌, ◌≤◌, ◌^◌, IsTrue, true};
ghost use Rattle.vt_types.specs.Device.{BLOCK_LEN, MOST_BLOCKS};
ghost use Rattle.vt_types.specs.Limits.{GUEST_PAGE};
ghost use Rattle.vt_layout.specs.QueueBlock.{data_address};
ghost use Rattle.vq_common.specs.Queue.{GREATEST_RING, IsInBlock, is_ring_size};

use vq_common::{Position, RingCfg};
use vt_layout::queue_block::{DATA, DATA_LEN};

/// A packed ring in its queue block, and the positions of the next available and of the next used descriptor.
#[derive(Clone, Copy)]
pub(crate) struct Ring {
    pub cfg: RingCfg,
    pub base: u64,
    pub available: Position,
    pub used: Position,
    ghost small: { cfg.size ≤ GREATEST_RING },
    ghost low: { base ≤ MOST_BLOCKS * BLOCK_LEN },
    ghost page: { base % GUEST_PAGE ≡ 0 },
}

impl Ring {
    /// A ring of no descriptors.
    pub fn none() -> Ring
        ensures { result.cfg.size ≡ 0 }
    {
        Ring {
            cfg: RingCfg {
                desc: 0,
                driver: 0,
                device: 0,
                size: 0,
                indirect: false,
                event_idx: false,
            },
            base: 0,
            available: Position::start(),
            used: Position::start(),
        }
    }

    /// A ring that begins.
    pub fn new(cfg: &RingCfg, base: u64) -> Ring
        requires size { IsTrue (is_ring_size cfg.now.size) }
        requires in_block { IsInBlock cfg.now base }
        ensures cfg { result.cfg ≡ cfg.now }
        ensures base { result.base ≡ base }
        ensures available { result.available ≡ record { location = 0; wrap = true } }
        ensures used { result.used ≡ record { location = 0; wrap = true } }
    {
        Ring {
            cfg: *cfg,
            base,
            available: Position::start(),
            used: Position::start(),
        }
    }

    /// The address of a location of the ring.
    pub fn location(&self, location: u16) -> u64
        ensures { result ≡ self.now.base + 16 * location }
    {
        self.base + 16 * u64::from(location)
    }

    /// Where the data of the buffer with this id lies.
    pub fn data(&self, id: u16) -> u64
        ensures value { result ≡ data_address self.now.base id }
        ensures low { result < 2 ^ 32 }
    {
        self.base + DATA + DATA_LEN * u64::from(id)
    }
}
