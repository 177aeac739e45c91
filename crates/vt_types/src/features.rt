//! Feature bits.

ghost use Rattle.std.specs.Prelude.{⊤, ◌≡◌, [], ◌∷◌, codes};
ghost use Rattle.vt_types.specs.Features as feature;

use bitflags::{Flag, Flags, bitflag_items};

/// Feature bits (VIRTIO 1.2, 2.2). Bits 24 to 40 are the same for every device (6); those named `BLK_`, `NET_` and
/// `CON_` are of one kind of device (5.2.3, 5.1.3, 5.3.3), and one bit may have a name for each kind.
#[derive(Clone, Copy, PartialEq, Eq, Debug)]
pub struct Features(pub u64);

bitflag_items! {
    impl Features: u64 {
        const INDIRECT_DESC = 0x1000_0000;
        const EVENT_IDX = 0x2000_0000;
        const VERSION_1 = 0x1_0000_0000;
        const RING_PACKED = 0x4_0000_0000;
        const BLK_SEG_MAX = 0x4;
        const BLK_RO = 0x20;
        const BLK_SIZE = 0x40;
        const BLK_FLUSH = 0x200;
        const BLK_CONFIG_WCE = 0x800;
        const BLK_DISCARD = 0x2000;
        const BLK_WRITE_ZEROES = 0x4000;
        const NET_MAC = 0x20;
        const NET_STATUS = 0x1_0000;
        const CON_SIZE = 0x1;
        const CON_EMERG_WRITE = 0x4;
    }
}

impl Flags for Features {
    type Bits = u64;

    ghost exact = { ⊤ };

    ghost table = { (codes "INDIRECT_DESC", 0x1000_0000) ∷ (codes "EVENT_IDX", 0x2000_0000) ∷ (codes "VERSION_1", 0x1_0000_0000) ∷ (codes "RING_PACKED", 0x4_0000_0000) ∷ (codes "BLK_SEG_MAX", 0x4) ∷ (codes "BLK_RO", 0x20) ∷ (codes "BLK_SIZE", 0x40) ∷ (codes "BLK_FLUSH", 0x200) ∷ (codes "BLK_CONFIG_WCE", 0x800) ∷ (codes "BLK_DISCARD", 0x2000) ∷ (codes "BLK_WRITE_ZEROES", 0x4000) ∷ (codes "NET_MAC", 0x20) ∷ (codes "NET_STATUS", 0x1_0000) ∷ (codes "CON_SIZE", 0x1) ∷ (codes "CON_EMERG_WRITE", 0x4) ∷ [] };

    ghost set_of = { λ p. p.0 };

    fn flags<'a>() -> &'a [Flag<Features>] {
        Features::FLAGS
    }

    fn bits(&self) -> u64 {
        self.0
    }

    fn from_bits_retain(bits: u64) -> Features {
        Features(bits)
    }
}

impl Features {
    /// Each bit stands where the standard has it (VIRTIO 1.2, 5.1.3, 5.2.3, 5.3.3 and 6). Does nothing.
    pub fn bits_are_standard()
        ensures indirect_desc { Features.INDIRECT_DESC.0 ≡ feature.INDIRECT_DESC }
        ensures event_idx { Features.EVENT_IDX.0 ≡ feature.EVENT_IDX }
        ensures version_1 { Features.VERSION_1.0 ≡ feature.VERSION_1 }
        ensures ring_packed { Features.RING_PACKED.0 ≡ feature.RING_PACKED }
        ensures blk_seg_max { Features.BLK_SEG_MAX.0 ≡ feature.BLK_SEG_MAX }
        ensures blk_ro { Features.BLK_RO.0 ≡ feature.BLK_RO }
        ensures blk_size { Features.BLK_SIZE.0 ≡ feature.BLK_SIZE }
        ensures blk_flush { Features.BLK_FLUSH.0 ≡ feature.BLK_FLUSH }
        ensures blk_config_wce { Features.BLK_CONFIG_WCE.0 ≡ feature.BLK_CONFIG_WCE }
        ensures blk_discard { Features.BLK_DISCARD.0 ≡ feature.BLK_DISCARD }
        ensures blk_write_zeroes { Features.BLK_WRITE_ZEROES.0 ≡ feature.BLK_WRITE_ZEROES }
        ensures net_mac { Features.NET_MAC.0 ≡ feature.NET_MAC }
        ensures net_status { Features.NET_STATUS.0 ≡ feature.NET_STATUS }
        ensures con_size { Features.CON_SIZE.0 ≡ feature.CON_SIZE }
        ensures con_emerg_write { Features.CON_EMERG_WRITE.0 ≡ feature.CON_EMERG_WRITE }
    {}
}
