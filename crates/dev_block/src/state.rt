//! What a block device keeps.

ghost use Rattle.std.specs.Prelude.{◌≡◌};
ghost use Rattle.dev_block.specs.Request.{cache_mode};

use bitflags::Flags;
use vt_types::Features;

/// What a block device keeps beside its disk: the capacity in sectors of 512 bytes and the writeback byte of its
/// configuration, and the accepted features (VIRTIO 1.2, 5.2.3 and 5.2.4).
#[derive(Clone, Copy, Debug, PartialEq, Eq)]
pub struct BlkState {
    pub capacity: u64,
    pub writeback: u8,
    pub accepted: Features,
}

impl BlkState {
    /// The cache mode: with 0 what was written is flushed before the request ends, else a flush is left to the driver
    /// (VIRTIO 1.2, 5.2.5.2).
    pub fn cache_mode(&self) -> u8
        ensures { result ≡ cache_mode self.now.writeback self.now.accepted.0 }
    {
        if self.accepted.contains(Features::BLK_CONFIG_WCE) {
            self.writeback
        } else if self.accepted.contains(Features::BLK_FLUSH) {
            1
        } else {
            0
        }
    }
}
