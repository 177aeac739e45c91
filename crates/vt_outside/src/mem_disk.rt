//! A disk in memory.

ghost use Rattle.std.specs.Prelude.{◌≡◌, length};

use crate::calls::Calls;
use crate::disk::Disk;
use crate::failed::Failed;
use std::alloc::Global;
use std::marker::Model;
use vt_types::{Bytes, Memory};

/// A disk in memory, which tells its sectors and the outcomes of its calls. The calls that fail are chosen.
#[derive(Drop)]
pub struct MemDisk {
    sectors: Vec<[u8; 512]>,
    read_only: bool,
    calls: Calls,
}

impl Model for MemDisk {
    ghost use Rattle.std.specs.Prelude.{◌≤◌, length};
    ghost use Rattle.vt_types.specs.Limits.{MOST_SECTORS};
    ghost use Rattle.vt_outside.specs.Memory.{DiskMemory};

    ghost Value = { DiskMemory };

    ghost view = { λ m. record { sectors = m.sectors.items; read_only = m.read_only; calls = m.calls } };

    ghost invariant = { λ m. length m.sectors.items ≤ MOST_SECTORS };
}

impl MemDisk {
    ghost use Rattle.std.specs.Prelude.{◌≡◌, ◌≤◌, IfOk};
    ghost use Rattle.vt_types.specs.Limits.{MOST_SECTORS};
    ghost use Rattle.vt_outside.specs.Memory.{no_calls, zeros};

    /// A disk of so many sectors, all zeros. Call number k (from 0) of `read_sector`, `write_sector` and `flush` fails
    /// exactly where byte k of `fails` is 1; past its end none does.
    pub fn new(
        alloc: Global,
        sectors: u32,
        read_only: bool,
        fails: Bytes,
    ) -> Result<MemDisk, Memory>
        requires { sectors ≤ MOST_SECTORS }
        ensures { IfOk result (λ m. m ≡ record { sectors = zeros sectors; read_only = read_only; calls = no_calls fails }) }
    {
        let mut all = Vec::with_capacity(alloc, sectors as usize)?;
        'sectors: for _made in 0..sectors {
            all.push([0u8; 512])?;
        }
        Ok(MemDisk {
            sectors: all,
            read_only,
            calls: Calls::new(fails),
        })
    }
}

/// Copies a sector into a room.
fn copy_sector(sector: &[u8; 512], room: &mut [u8; 512])
    ensures bytes { room.new ≡ sector.now }
    ensures size { length room.new ≡ 512 }
{
    *room = *sector;
}

impl Disk for MemDisk {
    ghost use Rattle.std.specs.Prelude.{◌≡◌, ◌<◌, length, Some, OnOk, OnErr, slice_get, slice_set};
    ghost use Rattle.vt_outside.specs.Disk.{Called, Reads, Writes};
    ghost use Rattle.vt_outside.specs.Memory.{disk_view, CallsMemory};

    ghost view = { disk_view };

    fn sectors(&self) -> u64 {
        self.sectors.len() as u64
    }

    fn read_only(&self) -> bool {
        self.read_only
    }

    fn read_sector(&mut self, n: u64, room: &mut [u8; 512]) -> Result<(), Failed>
        requires { n < length self.old.sectors }
        ensures called { Called (disk_view self.old) (disk_view self.new) result }
        ensures exact { CallsMemory self.old self.new result }
        ensures same { self.new.sectors ≡ self.old.sectors }
        ensures ok { OnOk result (Reads n room.new (Some self.old.sectors)) }
        ensures err { OnErr result (room.new ≡ room.old) }
    {
        let asked = self.calls.ask(false);
        if asked.is_ok() {
            copy_sector(&self.sectors[n as usize], room);
        }
        asked
    }

    fn write_sector(&mut self, n: u64, bytes: &[u8; 512]) -> Result<(), Failed>
        requires { n < length self.old.sectors }
        ensures called { Called (disk_view self.old) (disk_view self.new) result }
        ensures exact { CallsMemory self.old self.new result }
        ensures ok { OnOk result (self.new.sectors ≡ slice_set self.old.sectors n bytes.now) }
        ensures err { OnErr result (self.new.sectors ≡ self.old.sectors) }
    {
        let asked = self.calls.ask(false);
        if asked.is_ok() {
            self.sectors[n as usize] = *bytes;
        }
        asked
    }

    fn flush(&mut self) -> Result<(), Failed>
        ensures called { Called (disk_view self.old) (disk_view self.new) result }
        ensures exact { CallsMemory self.old self.new result }
        ensures same { self.new.sectors ≡ self.old.sectors }
    {
        self.calls.ask(false)
    }
}
