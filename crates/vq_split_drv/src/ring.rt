//! A split ring in its queue block.

ghost use Rattle.std.specs.Prelude.{◌≡◌, ◌*◌, ◌%◌, ◌<◌, ◌≤◌, ◌^◌, IsTrue};
ghost use Rattle.vt_types.specs.Device.{BLOCK_LEN, MOST_BLOCKS};
ghost use Rattle.vt_types.specs.Limits.{GUEST_PAGE};
ghost use Rattle.vt_layout.specs.QueueBlock.{data_address};
ghost use Rattle.vq_common.specs.Queue.{GREATEST_RING, IsInBlock, is_ring_size};

use vq_common::RingCfg;
use vt_layout::queue_block::{DATA, DATA_LEN};

/// A split ring in its queue block, and the indices of the next available and of the next used element.
#[derive(Clone, Copy)]
pub(crate) struct Ring {
    pub cfg: RingCfg,
    pub base: u64,
    pub available: u16,
    pub used: u16,
    ghost sized: { 0 < cfg.size → IsTrue (is_ring_size cfg.size) },
    ghost small: { cfg.size ≤ GREATEST_RING },
    ghost low: { base ≤ MOST_BLOCKS * BLOCK_LEN },
    ghost page: { base % GUEST_PAGE ≡ 0 },
    ghost available_wraps: { available < 2 ^ 16 },
    ghost used_wraps: { used < 2 ^ 16 },
}

impl Ring {
    /// A ring of no descriptors.
    pub fn none() -> Ring
        ensures { result.cfg.size ≡ 0 }
    {
        Ring {
            cfg: RingCfg {
                desc: 0,
                driver: 0,
                device: 0,
                size: 0,
                indirect: false,
                event_idx: false,
            },
            base: 0,
            available: 0,
            used: 0,
        }
    }

    /// A ring that begins.
    pub fn new(cfg: &RingCfg, base: u64) -> Ring
        requires size { IsTrue (is_ring_size cfg.now.size) }
        requires in_block { IsInBlock cfg.now base }
        ensures cfg { result.cfg ≡ cfg.now }
        ensures base { result.base ≡ base }
        ensures available { result.available ≡ 0 }
        ensures used { result.used ≡ 0 }
    {
        Ring {
            cfg: *cfg,
            base,
            available: 0,
            used: 0,
        }
    }

    /// Where the data of the buffer with this head lies.
    pub fn data(&self, head: u16) -> u64
        ensures value { result ≡ data_address self.now.base head }
        ensures low { result < 2 ^ 32 }
    {
        self.base + DATA + DATA_LEN * u64::from(head)
    }
}
