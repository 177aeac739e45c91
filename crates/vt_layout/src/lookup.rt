//! A register by its location in a page.

ghost use Rattle.std.specs.Prelude.{◌≡◌, ◌+◌};
ghost use Rattle.vt_layout.specs.Layout.{find_from, covering_from};

use crate::layout::RegisterLayout;

/// The number of the register with exactly this offset and width. None exactly where there is none.
pub fn find<L: RegisterLayout>(off: u32, width: u8) -> Option<u32>
    ensures { result ≡ find_from 0 L.rows off width }
{
    'rows: for n in 0..L::COUNT {
        let row = L::row(n);
        if row.is_at(off, width) {
            return Some(n);
        }
    }
    None
}

/// The number of the register among whose bytes an offset lies. None exactly where no register has it.
pub fn covering<L: RegisterLayout>(off: u32) -> Option<u32>
    ensures { result ≡ covering_from 0 L.rows off }
{
    'rows: for n in 0..L::COUNT {
        let row = L::row(n);
        if row.covers(off) {
            return Some(n);
        }
    }
    None
}
