//! Where the fields of a device's configuration stand.

ghost use Rattle.std.specs.Prelude.{◌≡◌, ◌≤◌, [], ◌∷◌, length, map, sum, All};
ghost use Rattle.vt_layout.specs.Fields.{IsPart, field_parts};

use arrayvec::ArrayVec;
use vt_types::Field;

/// Some bytes of a device's configuration, which one access reaches: 1, 2 or 4 of them.
#[derive(Clone, Copy, Debug, Default, PartialEq, Eq)]
pub struct ConfigPart {
    pub off: u16,
    pub width: u8,
}

/// The part of a location and a width.
fn part(off: u16, width: u8) -> ConfigPart
    ensures off { result.off ≡ off }
    ensures width { result.width ≡ width }
{
    ConfigPart { off, width }
}

/// These parts as a list.
fn listed(parts: &[ConfigPart]) -> ArrayVec<ConfigPart, 6>
    requires { length parts.now ≤ 6 }
    ensures { result.items ≡ parts.now }
{
    let mut list = ArrayVec::new();
    let _fits = list.try_extend_from_slice(parts);
    list
}

/// Where a field stands in the configuration of its device (VIRTIO 1.2, 5.1.4, 5.2.4 and 5.3.4), in the parts in which it is
/// reached (4.2.2.2): the lower one first. They have at most 8 bytes together.
pub fn field_parts(field: Field) -> ArrayVec<ConfigPart, 6>
    ensures parts { result.items ≡ field_parts field }
    ensures each { All IsPart result.items }
    ensures few { sum (map (λ p. p.width) result.items) ≤ 8 }
{
    match field {
        Field::Capacity => listed(&[part(0, 4), part(4, 4)]),
        Field::SegMax => listed(&[part(12, 4)]),
        Field::BlkSize => listed(&[part(20, 4)]),
        Field::Writeback => listed(&[part(32, 1)]),
        Field::Mac => listed(&[
            part(0, 1),
            part(1, 1),
            part(2, 1),
            part(3, 1),
            part(4, 1),
            part(5, 1),
        ]),
        Field::NetStatus => listed(&[part(6, 2)]),
        Field::Cols => listed(&[part(0, 2)]),
        Field::Rows => listed(&[part(2, 2)]),
        Field::Ports => listed(&[part(4, 4)]),
        Field::Emerg => listed(&[part(8, 4)]),
    }
}
