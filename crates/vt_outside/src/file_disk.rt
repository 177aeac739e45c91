//! A disk over a file.

ghost use Rattle.std.specs.Prelude.{◌≡◌, ◌<◌, OnOk};
ghost use Rattle.std.specs.Io.KnownBytes.{Appends, Consumes};
ghost use Rattle.vt_types.specs.Limits.{MOST_SECTORS};
ghost use Rattle.vt_outside.specs.File.{SeeksSector, ReadsAt, WritesAt};

use crate::disk::Disk;
use crate::failed::Failed;
use std::io::{Read, Seek, SeekFrom, Write};
use std::marker::Model;

/// A disk over a file of std, or anything else that is read, written and sought in: sector n is the 512 bytes from byte
/// 512 n on. As a disk it tells nothing but how many sectors it has and how many calls failed, and is never read-only;
/// what the file holds is the file's to tell. A file that ends within the sector, and a call that was interrupted, fail.
#[derive(Drop)]
pub struct FileDisk<F> {
    file: F,
    sectors: u64,
    faults: u64,
}

impl<F> Model for FileDisk<F> {
    ghost use Rattle.std.specs.Prelude.{◌≤◌};
    ghost use Rattle.vt_types.specs.Limits.{MOST_SECTORS};
    ghost use Rattle.vt_outside.specs.File.{FileView};

    ghost Value = { FileView F };

    ghost view = { λ d. record { file = d.file; count = d.sectors; faults = d.faults } };

    ghost invariant = { λ d. d.sectors ≤ MOST_SECTORS };
}

/// Reads until the room is full.
fn fill<R: Read>(reader: &mut R, room: &mut [u8]) -> Result<(), Failed>
    ensures { OnOk result (Consumes (R.remaining reader.old) (R.remaining reader.new) room.new) }
{
    let mut filled = 0;
    'filling: while filled < room.len() {
        match reader.read(&mut room[filled..]) {
            Ok(n) if n > 0 => filled += n,
            _ => return Err(Failed),
        }
    }
    Ok(())
}

/// Writes all bytes.
fn put<W: Write>(writer: &mut W, bytes: &[u8]) -> Result<(), Failed>
    ensures { OnOk result (Appends (W.contents writer.old) (W.contents writer.new) bytes.now) }
{
    let mut written = 0;
    'putting: while written < bytes.len() {
        match writer.write(&bytes[written..]) {
            Ok(n) if n > 0 => written += n,
            _ => return Err(Failed),
        }
    }
    Ok(())
}

/// Goes to sector `n`.
fn seek_sector<F: Seek>(file: &mut F, n: u64) -> Result<(), Failed>
    requires { n < MOST_SECTORS }
    ensures { OnOk result (SeeksSector F.stream_position n file.old file.new) }
{
    match file.seek(SeekFrom::Start(n * 512)) {
        Ok(_) => Ok(()),
        Err(_) => Err(Failed),
    }
}

/// Reads sector `n`.
fn read_at<F: Read + Seek>(file: &mut F, n: u64, room: &mut [u8; 512]) -> Result<(), Failed>
    requires { n < MOST_SECTORS }
    ensures { OnOk result (ReadsAt F.stream_position F.remaining n file.old file.new room.new) }
{
    seek_sector(file, n)?;
    fill(file, room)
}

/// Writes sector `n`.
fn write_at<F: Write + Seek>(file: &mut F, n: u64, bytes: &[u8; 512]) -> Result<(), Failed>
    requires { n < MOST_SECTORS }
    ensures { OnOk result (WritesAt F.stream_position F.contents n file.old file.new bytes.now) }
{
    seek_sector(file, n)?;
    put(file, bytes)
}

impl<F> FileDisk<F> {
    ghost use Rattle.std.specs.Prelude.{◌≡◌, ◌≤◌, is_err, if◌then◌else◌};
    ghost use Rattle.vt_types.specs.Limits.{MOST_SECTORS};
    ghost use Rattle.vt_outside.specs.Faults.{count_up};

    /// A disk over this file, of so many sectors, of which no call has failed.
    pub fn new(file: F, sectors: u64) -> Self
        requires { sectors ≤ MOST_SECTORS }
        ensures { result ≡ record { file = file; count = sectors; faults = 0 } }
    {
        FileDisk {
            file,
            sectors,
            faults: 0,
        }
    }

    /// Counts a failure.
    fn counted(&mut self, answer: Result<(), Failed>) -> Result<(), Failed>
        ensures answer { result ≡ answer }
        ensures faults { self.new ≡ record self.old { faults = if is_err answer then count_up self.old.faults else self.old.faults } }
    {
        if answer.is_err() {
            self.faults = self.faults.saturating_add(1);
        }
        answer
    }
}

impl<F: Read + Write + Seek> Disk for FileDisk<F> {
    ghost use Rattle.std.specs.Prelude.{◌≡◌, ◌<◌, OnOk, OnErr};
    ghost use Rattle.std.specs.Io.KnownBytes.{Keeps};
    ghost use Rattle.vt_outside.specs.Disk.{Called, Reads, Writes};
    ghost use Rattle.vt_outside.specs.File.{file_disk, ReadsAt, WritesAt};

    ghost view = { file_disk };

    fn sectors(&self) -> u64 {
        self.sectors
    }

    fn read_only(&self) -> bool {
        false
    }

    fn read_sector(&mut self, n: u64, room: &mut [u8; 512]) -> Result<(), Failed>
        requires { n < self.old.count }
        ensures called { Called (file_disk self.old) (file_disk self.new) result }
        ensures same { (file_disk self.new).image ≡ (file_disk self.old).image }
        ensures ok { OnOk result (Reads n room.new (file_disk self.old).image) }
        ensures file { OnOk result (ReadsAt F.stream_position F.remaining n self.old.file self.new.file room.new) }
    {
        let read = read_at(&mut self.file, n, room);
        self.counted(read)
    }

    fn write_sector(&mut self, n: u64, bytes: &[u8; 512]) -> Result<(), Failed>
        requires { n < self.old.count }
        ensures called { Called (file_disk self.old) (file_disk self.new) result }
        ensures ok { OnOk result (Writes n bytes.now (file_disk self.old).image (file_disk self.new).image) }
        ensures err { OnErr result ((file_disk self.new).image ≡ (file_disk self.old).image) }
        ensures file { OnOk result (WritesAt F.stream_position F.contents n self.old.file self.new.file bytes.now) }
    {
        let written = write_at(&mut self.file, n, bytes);
        self.counted(written)
    }

    fn flush(&mut self) -> Result<(), Failed>
        ensures called { Called (file_disk self.old) (file_disk self.new) result }
        ensures same { (file_disk self.new).image ≡ (file_disk self.old).image }
        ensures file { Keeps (F.contents self.old.file) (F.contents self.new.file) }
    {
        let flushed = self.file.flush().map_err(|_| Failed);
        self.counted(flushed)
    }
}
