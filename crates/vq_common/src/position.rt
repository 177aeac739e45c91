//! The positions of a packed ring (VIRTIO 1.2, 2.8.1).

ghost use Rattle.std.specs.Prelude.{◌≡◌, ◌^◌, ◌<◌, ◌≤◌, true};
ghost use Rattle.vq_common.specs.Position.{position_after, position_before, is_among, event_position, event_word};

/// A location of a packed ring, and the wrap counter with which it is reached.
#[derive(Clone, Copy, Debug, PartialEq, Eq)]
pub struct Position {
    pub location: u16,
    pub wrap: bool,
}

impl Position {
    /// Where both ends begin: location 0, with the wrap counter at 1.
    pub fn start() -> Position
        ensures { result ≡ record { location = 0; wrap = true } }
    {
        Position {
            location: 0,
            wrap: true,
        }
    }

    /// The position `slots` locations further on a ring of `size` locations. At the ring's end the locations begin again and the
    /// wrap counter turns.
    pub fn advance(self, size: u16, slots: u16) -> Position
        requires { self.location < size }
        ensures { result ≡ position_after size self slots }
    {
        let left = size - self.location;
        if slots < left {
            Position {
                location: self.location + slots,
                wrap: self.wrap,
            }
        } else {
            Position {
                location: slots - left,
                wrap: !self.wrap,
            }
        }
    }

    /// The position `slots` locations earlier on a ring of `size` locations.
    pub fn retreat(self, size: u16, slots: u16) -> Position
        ensures { result ≡ position_before size self slots }
    {
        if slots <= self.location {
            Position {
                location: self.location - slots,
                wrap: self.wrap,
            }
        } else {
            Position {
                location: size.saturating_sub(slots - self.location),
                wrap: !self.wrap,
            }
        }
    }

    #[tactic(auto, using(crate::proofs::PositionLaws::is_among_by_location))]
    /// Whether this is one of `slots` positions in a row, the first of which is `first`, on a ring of `size` locations.
    pub fn is_among(self, size: u16, first: Position, slots: u16) -> bool
        requires location { first.location < size }
        requires slots { slots ≤ size }
        ensures { result ≡ is_among size slots first self }
    {
        let end = first.location as u32 + slots as u32;
        if self.wrap == first.wrap {
            first.location <= self.location && self.location < size && (self.location as u32) < end
        } else {
            self.location as u32 + (size as u32) < end
        }
    }

    /// The position that an event word names: the location in its low 15 bits, the wrap counter in the last (VIRTIO 1.2,
    /// 2.8.14).
    pub fn from_event_word(word: u16) -> Position
        ensures { result ≡ event_position word }
    {
        Position {
            location: word % 0x8000,
            wrap: word >= 0x8000,
        }
    }

    /// The event word that names this position.
    pub fn to_event_word(self) -> u16
        requires { self.location < 2 ^ 15 }
        ensures { result ≡ event_word self }
    {
        if self.wrap {
            self.location + 0x8000
        } else {
            self.location
        }
    }
}
