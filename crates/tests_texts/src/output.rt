//! Worked rows of what is sent.

use report_out::{Stop, send, send_console, send_disk, status_of};
use report_text::Text;
use std::alloc::Global;
use std::test::Fail;
use vt_outside::{Disk, Failed, MemDisk, MemSink, Sink};
use vt_types::{Bytes, Memory};

/// A sink that takes at most three bytes at a time.
#[derive(Drop)]
struct Drip {
    sink: MemSink,
}

impl Sink for Drip {
    ghost use Rattle.vt_outside.specs.Memory.{sink_view};

    ghost view = { λ d. sink_view d.sink };

    fn write(&mut self, bytes: &[u8]) -> Result<usize, Failed> {
        let count = bytes.len().min(3);
        self.sink.write(&bytes[..count])
    }
}

/// Sends the end parts of a console with two bytes and a disk of three sectors, one of which isn't all zeros. Byte k of
/// `fails` says whether the k-th call of the disk fails; the first is the writing of that sector.
fn end_to<K: Sink>(alloc: Global, sink: &mut K, fails: &[u8]) -> Result<Result<(), Stop>, Memory> {
    let mut calls = Bytes::new(alloc);
    calls.extend(alloc, fails)?;
    let mut disk = MemDisk::new(alloc, 3, false, calls)?;
    let mut sector = [0; 512];
    sector[0] = 42;
    let _written = disk.write_sector(1, &sector);
    let mut text = Text::new(alloc)?;
    if let Err(stop) = send_console(b"hi", &mut text, sink) {
        return Ok(Err(stop));
    }
    Ok(send_disk(&mut text, sink, &mut disk))
}

#[test]
fn the_end_is_sent(rt: HostRuntime) -> Result<(), Fail> {
    let alloc = rt.alloc();
    let sink = MemSink::new(alloc, 4096, Bytes::new(alloc))?;
    let mut drip = Drip { sink };
    assert_eq!(rt; end_to(alloc, &mut drip, &[])?, Ok(()));
    let sent = drip.sink.bytes();
    assert!(rt; sent.starts_with(b"frames 0\nconsole 6869\ndisk 3\nsector 1 2a00"));
    assert!(rt; sent.ends_with(b"00\nend\n"));
    assert_eq!(rt; sent.len(), 1067);

    let mut sink = MemSink::new(alloc, 4096, Bytes::new(alloc))?;
    assert_eq!(rt; end_to(alloc, &mut sink, &[0, 0, 1])?, Ok(()));
    let want = b"frames 0\nconsole 6869\ndisk 3\nsector 1 unreadable\nend\n";
    assert_eq!(rt; sink.bytes(), want.as_slice());

    let mut full = MemSink::new(alloc, 20, Bytes::new(alloc))?;
    let long = send(&mut full, b"a line that is longer\n");
    assert_eq!(rt; long, Err(Stop::Write));
    assert_eq!(rt; full.bytes(), b"a line that is longe".as_slice());
    assert_eq!(rt; end_to(alloc, &mut full, &[])?, Err(Stop::Write));
    assert_eq!(rt; status_of(Err(Stop::Write)), 5);
    Ok(())
}
