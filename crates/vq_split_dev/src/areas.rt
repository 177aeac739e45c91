//! The three areas of a split ring (VIRTIO 1.2, 2.7).

ghost use Rattle.std.specs.Prelude.{◌≡◌};
ghost use Rattle.vq_split_dev.specs.Walk.{split_areas_inside};

use vq_common::{RingCfg, is_inside};

/// Whether the ring's areas lie inside a memory of `memory` bytes.
pub fn areas_inside(memory: u64, cfg: &RingCfg) -> bool
    ensures { result ≡ split_areas_inside memory cfg.now }
{
    let size = cfg.size as u64;
    is_inside(memory, cfg.desc, 16 * size)
        && is_inside(memory, cfg.driver, 6 + 2 * size)
        && is_inside(memory, cfg.device, 6 + 8 * size)
}
