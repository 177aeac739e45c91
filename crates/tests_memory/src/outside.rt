//! Worked rows: each thing in memory with a call that fails in the middle, a disk with a trip, and the adapters over std.

use std::alloc::Global;
use std::io;
use std::io::{Cursor, Read};
use std::test::Fail;
use vt_outside::{
    Disk, Failed, FileDisk, MemDisk, MemSink, MemSource, MemWatch, NoWatch, Sink, Source, StdSink,
    StdSource, Tripped, Watch,
};
use vt_types::{Bytes, Memory};

fn bytes(alloc: Global, items: &[u8]) -> Result<Bytes, Memory> {
    let mut all = Bytes::new(alloc);
    all.extend(alloc, items)?;
    Ok(all)
}

/// A reader that can't read.
#[derive(Drop)]
struct Broken;

impl Read for Broken {
    fn read(&mut self, _room: &mut [u8]) -> io::Result<usize> {
        Err(io::ErrorKind::Other.into())
    }
}

#[test]
fn sources_move_their_bytes(rt: HostRuntime) -> Result<(), Fail> {
    let alloc = rt.alloc();
    let mut source = MemSource::new(bytes(alloc, b"abcde")?, bytes(alloc, &[0, 1])?);
    let mut room = *b"...";
    for (answer, then) in [
        (Ok(3), *b"abc"),
        (Err(Failed), *b"abc"),
        (Ok(2), *b"dec"),
        (Ok(0), *b"dec"),
    ] {
        assert_eq!(rt; source.read(&mut room), answer);
        assert_eq!(rt; room, then);
    }
    let mut source = StdSource::new(b"abcde".as_slice());
    for (answer, then) in [(Ok(3), *b"abc"), (Ok(2), *b"dec"), (Ok(0), *b"dec")] {
        assert_eq!(rt; source.read(&mut room), answer);
        assert_eq!(rt; room, then);
    }
    assert_eq!(rt; StdSource::new(Broken).read(&mut room), Err(Failed));
    Ok(())
}

#[test]
fn sinks_and_watches_take_what_fits(rt: HostRuntime) -> Result<(), Fail> {
    let alloc = rt.alloc();
    let mut sink = MemSink::new(alloc, 5, bytes(alloc, &[0, 1])?)?;
    for (piece, answer) in [
        (b"abc".as_slice(), Ok(3)),
        (b"de".as_slice(), Err(Failed)),
        (b"def".as_slice(), Ok(2)),
        (b"f".as_slice(), Err(Failed)),
        (b"".as_slice(), Ok(0)),
    ] {
        assert_eq!(rt; sink.write(piece), answer);
    }
    assert_eq!(rt; sink.bytes(), b"abcde".as_slice());
    let mut sink = StdSink::new(Cursor::new([0; 4]));
    for (piece, answer) in [(b"abc", Ok(3)), (b"def", Ok(1)), (b"ghi", Err(Failed))] {
        assert_eq!(rt; sink.write(piece), answer);
    }
    let mut watch = MemWatch::new();
    for (byte, tells) in [(1, true), (2, true), (3, false)] {
        watch.show(&[byte; 4096]);
        assert_eq!(rt; watch.tells(), tells);
    }
    watch.show(b"");
    assert!(rt; !watch.tells());
    assert_eq!(rt; watch.bytes().len(), 8192);
    assert_eq!(rt; watch.bytes().last(), Some(&2));
    NoWatch.show(b"text");
    Ok(())
}

/// A disk in memory, and a file that is shorter than its disk.
#[test]
fn disks_keep_their_sectors(rt: HostRuntime) -> Result<(), Fail> {
    let alloc = rt.alloc();
    let mut room = [1; 512];
    let mut disk = MemDisk::new(alloc, 3, true, bytes(alloc, &[0, 1])?)?;
    assert_eq!(rt; (disk.sectors(), disk.read_only()), (3, true));
    assert_eq!(rt; disk.write_sector(2, &[7; 512]), Ok(()));
    assert_eq!(rt; disk.flush(), Err(Failed));
    for (n, byte) in [(1, 0), (2, 7)] {
        assert!(rt; n < disk.sectors());
        assert_eq!(rt; disk.read_sector(n, &mut room), Ok(()));
        assert_eq!(rt; room[511], byte);
    }
    let mut disk = FileDisk::new(Cursor::new(vec![in alloc; 5u8; 1024]?), 3);
    assert_eq!(rt; (disk.sectors(), disk.read_only()), (3, false));
    assert_eq!(rt; disk.write_sector(1, &[7; 512]), Ok(()));
    assert_eq!(rt; disk.flush(), Ok(()));
    for (n, answer, byte) in [(0, Ok(()), 5), (1, Ok(()), 7), (2, Err(Failed), 7)] {
        assert!(rt; n < disk.sectors());
        assert_eq!(rt; disk.read_sector(n, &mut room), answer);
        assert_eq!(rt; room[511], byte);
    }
    Ok(())
}

/// A disk whose third call fails, and a trip that fails the second call before it comes there.
#[test]
fn a_trip_fails_one_call(rt: HostRuntime) -> Result<(), Fail> {
    let alloc = rt.alloc();
    let disk = MemDisk::new(alloc, 2, false, bytes(alloc, &[0, 0, 1])?)?;
    let mut disk = Tripped::new(disk);
    let mut room = [9; 512];
    assert!(rt; 1 < disk.sectors());
    assert!(rt; !disk.read_only());
    disk.set_trip(2);
    assert_eq!(rt; disk.write_sector(1, &[7; 512]), Ok(()));
    assert_eq!(rt; disk.flush(), Err(Failed));
    assert_eq!(rt; disk.read_sector(1, &mut room), Ok(()));
    assert_eq!(rt; room[0], 7);
    assert_eq!(rt; disk.read_sector(1, &mut room), Err(Failed));
    disk.set_trip(1);
    assert_eq!(rt; disk.peek_sector(0, &mut room), Ok(()));
    assert_eq!(rt; room[0], 0);
    assert_eq!(rt; disk.read_sector(0, &mut room), Err(Failed));
    assert_eq!(rt; disk.read_sector(0, &mut room), Ok(()));
    assert_eq!(rt; disk.into_disk().sectors(), 2);
    Ok(())
}
