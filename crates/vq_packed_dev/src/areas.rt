//! The three areas of a packed ring (VIRTIO 1.2, 2.8).

ghost use Rattle.std.specs.Prelude.{◌≡◌};
ghost use Rattle.vq_packed_dev.specs.Walk.{packed_areas_inside};

use vq_common::{RingCfg, is_inside};

/// Whether the ring's areas lie inside a memory of `memory` bytes.
pub fn areas_inside(memory: u64, cfg: &RingCfg) -> bool
    ensures { result ≡ packed_areas_inside memory cfg.now }
{
    is_inside(memory, cfg.desc, 16 * cfg.size as u64)
        && is_inside(memory, cfg.driver, 4)
        && is_inside(memory, cfg.device, 4)
}
