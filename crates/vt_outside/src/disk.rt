//! Disks.

ghost use Rattle.std.specs.Prelude.{◌≡◌, ◌<◌, ◌≤◌, length, IfSome, OnOk, OnErr};
ghost use Rattle.vt_outside.specs.Disk.{DiskView, Called, Reads, Writes};
ghost use Rattle.vt_types.specs.Limits.{MOST_SECTORS};

use crate::failed::Failed;

/// A disk of sectors of 512 bytes.
pub trait Disk {
    ghost view: { Self → DiskView };

    /// How many sectors the disk has: at most `MOST_SECTORS`. It never changes.
    fn sectors(&self) -> u64
        ensures value { result ≡ (view self.now).count }
        ensures bound { result ≤ MOST_SECTORS }
        ensures whole { IfSome (view self.now).image (λ image. length image ≡ result) };

    /// Whether the disk is there to be read only. It never changes, and refuses nothing by itself.
    fn read_only(&self) -> bool
        ensures { result ≡ (view self.now).read_only };

    /// Reads sector `n`. `Failed` says nothing of the room.
    fn read_sector(&mut self, n: u64, room: &mut [u8; 512]) -> Result<(), Failed>
        requires { n < (view self.old).count }
        ensures called { Called (view self.old) (view self.new) result }
        ensures same { (view self.new).image ≡ (view self.old).image }
        ensures ok { OnOk result (Reads n room.new (view self.old).image) };

    /// Writes sector `n`. `Failed` leaves the image.
    fn write_sector(&mut self, n: u64, bytes: &[u8; 512]) -> Result<(), Failed>
        requires { n < (view self.old).count }
        ensures called { Called (view self.old) (view self.new) result }
        ensures ok { OnOk result (Writes n bytes.now (view self.old).image (view self.new).image) }
        ensures err { OnErr result ((view self.new).image ≡ (view self.old).image) };

    /// Sees that what was written lasts.
    fn flush(&mut self) -> Result<(), Failed>
        ensures called { Called (view self.old) (view self.new) result }
        ensures same { (view self.new).image ≡ (view self.old).image };
}
