//! The status machine.

ghost use Rattle.std.specs.Prelude.{◌≡◌, ◌+◌, ◌*◌, ◌/◌, ◌%◌, ◌^◌, ◌<◌, ◌==◌, ◌&&◌, not, if◌then◌else◌};
ghost use Rattle.dev_status.specs.Status.{has_bits, is_acceptable, add_bit, status_with, reset_of, write_of, feature_word, with_word, accept_of, needs_reset_of};
ghost use Rattle.vt_types.specs.Status.{FEATURES_OK};

use bitflags::Flags;
use std::marker::Model;
use vt_types::{Features, Status};

/// The status bits that a driver may add at any time.
const ALWAYS: u8 = Status::ACKNOWLEDGE.0 | Status::DRIVER.0 | Status::FAILED.0;

/// One past the greatest word of 32 bits.
const WORD: u64 = 1 << 32;

/// A device's status byte, the features that it offers, and those that the driver accepted.
#[derive(Drop)]
pub struct StatusMachine {
    offered: Features,
    accepted: Features,
    status: Status,
}

impl Model for StatusMachine {
    ghost use Rattle.dev_status.specs.Status.{StatusState};

    ghost Value = { StatusState };

    ghost view = { λ m. record { offered = m.offered.0; accepted = m.accepted.0; status = m.status.0 } };
}

/// Adds `bit` where `asked` has it and it may stand.
fn with_bit(status: Status, asked: Status, may: bool, bit: Status) -> Status
    ensures { result.0 ≡ add_bit status.0 asked.0 may bit.0 }
{
    let mut after = status;
    if asked.contains(bit) && may {
        after.insert(bit);
    }
    after
}

/// A feature set with another word.
fn set_word(features: u64, index: u32, word: u32) -> u64
    ensures { result ≡ with_word features index word }
{
    match index {
        0 => features / WORD * WORD + word as u64,
        1 => features % WORD + word as u64 * WORD,
        _ => features,
    }
}

impl StatusMachine {
    /// A device that offers these features, after a reset.
    pub fn new(offered: Features) -> StatusMachine
        ensures { result ≡ record { offered = offered.0; accepted = 0; status = 0 } }
    {
        StatusMachine {
            offered,
            accepted: Features(0),
            status: Status(0),
        }
    }

    /// The status byte.
    pub fn status(&self) -> u8
        ensures { result ≡ self.now.status }
    {
        self.status.0
    }

    /// The features that the driver accepted.
    pub fn accepted(&self) -> Features
        ensures { result.0 ≡ self.now.accepted }
    {
        self.accepted
    }

    /// A word of 32 bits of the offered features, the low one first; 0 past the second.
    pub fn offered(&self, index: u32) -> u32
        ensures { result ≡ feature_word self.now.offered index }
    {
        let word = match index {
            0 => self.offered.0 % WORD,
            1 => self.offered.0 / WORD,
            _ => 0,
        };
        word as u32
    }

    /// The driver accepts a word of 32 bits of features, the low one first. Nothing changes for an index past the
    /// second, or once FEATURES_OK stands.
    pub fn accept(&mut self, index: u32, word: u32)
        ensures { self.new ≡ accept_of index word self.old }
    {
        if !self.status.contains(Status::FEATURES_OK) {
            self.accepted = Features(set_word(self.accepted.0, index, word));
        }
    }

    /// Writes the status byte: 0 resets the device, and any other number adds bits (VIRTIO 1.2, 2.1.2). Answers false
    /// exactly where FEATURES_OK was asked for and does not stand afterwards.
    pub fn write(&mut self, v: u8) -> bool
        ensures state { self.new ≡ write_of v self.old }
        ensures answer { result ≡ not (has_bits v FEATURES_OK && not (has_bits self.new.status FEATURES_OK)) }
    {
        let asked = Status(v);
        if v == 0 {
            self.reset();
        } else {
            self.status = self.status_after(asked);
        }
        !(asked.contains(Status::FEATURES_OK) && !self.status.contains(Status::FEATURES_OK))
    }

    /// Resets the device: it offers the same features as before (VIRTIO 1.2, 2.4).
    pub fn reset(&mut self)
        ensures { self.new ≡ reset_of self.old }
    {
        self.accepted = Features(0);
        self.status = Status(0);
    }

    /// The device met an error that only a reset ends (VIRTIO 1.2, 2.1.2).
    pub fn needs_reset(&mut self)
        ensures { self.new ≡ needs_reset_of self.old }
    {
        self.status.insert(Status::DEVICE_NEEDS_RESET);
    }

    /// Whether the accepted features are offered ones, with VERSION_1 among them.
    fn is_acceptable(&self) -> bool
        ensures { result ≡ is_acceptable self.now }
    {
        self.offered.contains(self.accepted) && self.accepted.contains(Features::VERSION_1)
    }

    /// The status after a write of a number that isn't 0.
    fn status_after(&self, asked: Status) -> Status
        ensures { result.0 ≡ status_with asked.0 self.now }
    {
        let plain = Status(self.status.0 | asked.0 & ALWAYS);
        let ready = with_bit(plain, asked, self.is_acceptable(), Status::FEATURES_OK);
        with_bit(
            ready,
            asked,
            ready.contains(Status::FEATURES_OK),
            Status::DRIVER_OK,
        )
    }
}
