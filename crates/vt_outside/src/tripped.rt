//! A disk with a trip.

use crate::disk::Disk;
use crate::failed::Failed;
use std::marker::Model;

/// A disk of which one call can be made to fail: with a trip of k, the k-th call of `read_sector`, `write_sector` or
/// `flush` from then on fails, and the disk isn't asked. A trip of 0 fails none.
#[derive(Drop)]
pub struct Tripped<D: Disk> {
    disk: D,
    trip: u32,
}

impl<D: Disk> Model for Tripped<D> {
    ghost use Rattle.vt_outside.specs.Tripped.{TrippedView};

    ghost Value = { TrippedView };

    ghost view = { λ t. record { disk = D.view t.disk; trip = t.trip } };
}

impl<D: Disk> Tripped<D> {
    ghost use Rattle.std.specs.Prelude.{◌≡◌, ◌<◌, ◌≤◌, ◌↔◌, ◌-◌, IsTrue, length, IfSome, OnOk, OnErr, is_ok};
    ghost use Rattle.vt_types.specs.Limits.{MOST_SECTORS};
    ghost use Rattle.vt_outside.specs.Disk.{Called, Reads, Writes};
    ghost use Rattle.vt_outside.specs.DiskCall.{read_call, write_call, flush_call, peek_call};
    ghost use Rattle.vt_outside.specs.Tripped.{TripCalled, FailCause};
    ghost use Rattle.vt_outside.specs.Meets.{Meets, bytes_read};

    /// This disk, with no trip.
    pub fn new(disk: D) -> Self
        ensures { result ≡ record { disk = D.view disk; trip = 0 } }
    {
        Tripped { disk, trip: 0 }
    }

    /// Makes call number k from here on fail, counted from 1; with 0 none.
    pub fn set_trip(&mut self, k: u32)
        ensures { self.new ≡ record self.old { trip = k } }
    {
        self.trip = k;
    }

    /// How many sectors the disk has: at most `MOST_SECTORS`.
    pub fn sectors(&self) -> u64
        ensures value { result ≡ self.now.disk.count }
        ensures bound { result ≤ MOST_SECTORS }
        ensures whole { IfSome self.now.disk.image (λ image. length image ≡ result) }
    {
        self.disk.sectors()
    }

    /// Whether the disk is there to be read only.
    pub fn read_only(&self) -> bool
        ensures { result ≡ self.now.disk.read_only }
    {
        self.disk.read_only()
    }

    /// Takes one from the trip, and answers whether it was the last.
    fn is_tripped(&mut self) -> bool
        ensures disk { self.new.disk ≡ self.old.disk }
        ensures trip { self.new.trip ≡ self.old.trip - 1 }
        ensures last { IsTrue result ↔ (self.old.trip ≡ 1) }
    {
        let last = self.trip == 1;
        self.trip = self.trip.saturating_sub(1);
        last
    }

    /// Reads sector `n`. `Failed` comes exactly where the trip was 1 or the disk answered it, and says nothing of the
    /// room.
    pub fn read_sector(&mut self, n: u64, room: &mut [u8; 512]) -> Result<(), Failed>
        requires { n < self.old.disk.count }
        ensures called { TripCalled self.old self.new result }
        ensures cause { OnErr result (FailCause self.old self.new) }
        ensures same { self.new.disk.image ≡ self.old.disk.image }
        ensures ok { OnOk result (Reads n room.new self.old.disk.image) }
        ensures meets { Meets (read_call n) self.old (bytes_read result room.new) self.new }
    {
        if self.is_tripped() {
            return Err(Failed);
        }
        self.disk.read_sector(n, room)
    }

    /// Writes sector `n`. `Failed` comes exactly where the trip was 1 or the disk answered it, and leaves the image.
    pub fn write_sector(&mut self, n: u64, bytes: &[u8; 512]) -> Result<(), Failed>
        requires { n < self.old.disk.count }
        ensures called { TripCalled self.old self.new result }
        ensures cause { OnErr result (FailCause self.old self.new) }
        ensures ok { OnOk result (Writes n bytes.now self.old.disk.image self.new.disk.image) }
        ensures err { OnErr result (self.new.disk.image ≡ self.old.disk.image) }
        ensures meets { Meets (write_call n bytes.now) self.old (is_ok result) self.new }
    {
        if self.is_tripped() {
            return Err(Failed);
        }
        self.disk.write_sector(n, bytes)
    }

    /// Sees that what was written lasts. `Failed` comes exactly where the trip was 1 or the disk answered it.
    pub fn flush(&mut self) -> Result<(), Failed>
        ensures called { TripCalled self.old self.new result }
        ensures cause { OnErr result (FailCause self.old self.new) }
        ensures same { self.new.disk.image ≡ self.old.disk.image }
        ensures meets { Meets flush_call self.old (is_ok result) self.new }
    {
        if self.is_tripped() {
            return Err(Failed);
        }
        self.disk.flush()
    }

    /// Reads sector `n`, whatever the trip is, and leaves the trip. `Failed` comes exactly where the disk answered it,
    /// and says nothing of the room.
    pub fn peek_sector(&mut self, n: u64, room: &mut [u8; 512]) -> Result<(), Failed>
        requires { n < self.old.disk.count }
        ensures called { Called self.old.disk self.new.disk result }
        ensures trip { self.new.trip ≡ self.old.trip }
        ensures same { self.new.disk.image ≡ self.old.disk.image }
        ensures ok { OnOk result (Reads n room.new self.old.disk.image) }
        ensures meets { Meets (peek_call n) self.old (bytes_read result room.new) self.new }
    {
        self.disk.read_sector(n, room)
    }

    /// The disk that was held.
    pub fn into_disk(self) -> D
        ensures { D.view result ≡ self.disk }
    {
        let Tripped { disk, trip: _ } = self;
        disk
    }
}
