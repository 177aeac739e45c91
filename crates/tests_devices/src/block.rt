//! Requests of a block device, over a disk in memory.

use arrayvec::ArrayVec;
use dev_block::{BlkState, serve_chain};
use guest_mem::GuestMem;
use std::alloc::Global;
use std::process::Abort;
use std::test::Fail;
use vq_common::{Chain, Piece, are_pieces_valid};
use vt_outside::{MemDisk, Tripped};
use vt_types::{Bytes, Features, Memory, Room};

/// Where the readable and the writable bytes of a request lie.
const READABLE: u64 = 0x101;

const WRITABLE: u64 = 0x4fff;

/// All features of a block device.
const ALL: u64 = 0x6a44;

/// A segment: its first sector, how many sectors it has, and its flags.
type Segment = (u8, u16, u8);

/// A request: its type and its sector, how many sevens and which segments are behind the header, and how many bytes may be
/// written.
type Request = (u8, u16, u16, &'static [Segment], u32);

/// Requests to a disk of eight sectors, one after the other: the status of each, and its first data byte.
const SERVED: [(Request, u8, u8); 16] = [
    ((1, 3, 512, &[], 1), 0, 0),
    ((0, 3, 0, &[], 513), 0, 7),
    ((1, 3, 512, &[], 4), 0, 0),
    ((4, 0, 0, &[], 1), 0, 0),
    ((8, 0, 0, &[], 22), 0, b'V'),
    ((11, 0, 0, &[(3, 1, 0)], 1), 0, 0),
    ((0, 3, 0, &[], 513), 0, 0),
    ((1, 7, 512, &[], 1), 0, 0),
    ((13, 0, 0, &[(0, 8, 1)], 1), 0, 0),
    ((0, 7, 0, &[], 513), 0, 0),
    ((0, 0, 0, &[], 1), 0, 0),
    // of two segments the second is out of range: the first is not done either
    ((1, 0, 512, &[], 1), 0, 0),
    ((11, 0, 0, &[(0, 1, 0), (8, 1, 0)], 1), 1, 0),
    ((0, 0, 0, &[], 513), 0, 7),
    ((11, 0, 0, &[(0, 1, 0)], 1), 0, 0),
    ((0, 0, 0, &[], 513), 0, 0),
];

/// Requests to one that is read-only.
const READ_ONLY: [(Request, u8, u8); 4] = [
    ((1, 0, 512, &[], 1), 1, 0),
    ((11, 0, 0, &[(0, 1, 0)], 1), 1, 0),
    ((13, 0, 0, &[(0, 1, 0)], 1), 1, 0),
    ((0, 0, 0, &[], 513), 0, 0),
];

/// Requests to a disk of 2,048 sectors: the capacity and the features of the device, and the status of each.
const REFUSED: [(u64, u64, Request, u8); 19] = [
    (8, ALL, (2, 0, 0, &[], 513), 2),
    (8, ALL - 0x200, (4, 0, 0, &[], 1), 2),
    (8, ALL - 0x2000, (11, 0, 0, &[(0, 1, 0)], 3), 2),
    (8, ALL - 0x4000, (13, 0, 0, &[(0, 1, 0)], 1), 2),
    (8, ALL, (0, 0, 0, &[], 512), 1),
    (8, ALL, (1, 0, 511, &[], 1), 1),
    (8, ALL, (8, 0, 0, &[], 20), 1),
    (8, ALL, (11, 0, 0, &[], 1), 1),
    (8, ALL, (11, 0, 15, &[], 1), 1),
    (8, ALL, (13, 0, 0, &[(0, 0, 0); 9], 1), 1),
    (8, ALL, (11, 0, 0, &[(0, 1, 1)], 1), 2),
    (8, ALL, (13, 0, 0, &[(0, 2049, 2)], 1), 2),
    (4096, ALL, (13, 0, 0, &[(0, 2049, 1)], 1), 1),
    (8, ALL, (0, 8, 0, &[], 513), 1),
    (8, ALL, (1, 8, 512, &[], 1), 1),
    (8, ALL, (11, 0, 0, &[(7, 2, 0)], 1), 1),
    (2048, ALL, (0, 2048, 0, &[], 513), 1),
    (4096, ALL, (0, 2048, 0, &[], 513), 1),
    (4096, ALL, (1, 2048, 512, &[], 1), 1),
];

/// The readable bytes of a request.
fn bytes_of(request: &Request) -> Room {
    let &(kind, sector, sevens, segments, _) = request;
    let mut bytes = Room::new();
    let [low, high] = sector.to_le_bytes();
    let header = [kind, 0, 0, 0, 9, 9, 9, 9, low, high, 0, 0, 0, 0, 0, 0];
    let _fits = bytes.try_extend_from_slice(&header);
    for _seven in 0..sevens {
        let _fits = bytes.try_push(7);
    }
    for &(sector, count, flags) in segments {
        let [low, high] = count.to_le_bytes();
        let segment = [sector, 0, 0, 0, 0, 0, 0, 0, low, high, 0, 0, flags, 0, 0, 0];
        let _fits = bytes.try_extend_from_slice(&segment);
    }
    bytes
}

/// Adds `len` bytes from `addr` on to a chain, in `count` pieces of three bytes but for the last.
fn add_pieces(rt: &impl Abort, chain: &mut Chain, addr: u64, len: u32, count: u32, write: bool) {
    assert!(rt; count >= 1 && count <= 8 && len > 3 * (count - 1) && addr < 0x8000);
    for i in 0..count - 1 {
        let piece = Piece {
            addr: addr + 3 * i as u64,
            len: 3,
            write,
        };
        assert!(rt; chain.pieces.try_push(piece).is_ok());
    }
    let cut = 3 * (count - 1);
    let last = Piece {
        addr: addr + cut as u64,
        len: len - cut,
        write,
    };
    assert!(rt; chain.pieces.try_push(last).is_ok());
}

/// A block device over its disk, guest memory, and into how many pieces the readable and the writable bytes of a request
/// are cut.
#[derive(Drop)]
struct Machine {
    state: BlkState,
    disk: Tripped<MemDisk>,
    mem: GuestMem,
    cuts: (u32, u32),
}

impl Machine {
    /// A device of eight sectors whose cache is write-through. Of its disk some call fails, counted from 0; none where there
    /// is no number.
    fn new(
        alloc: Global,
        sectors: u32,
        read_only: bool,
        failing: Option<u8>,
    ) -> Result<Machine, Memory> {
        let mut fails = Bytes::new(alloc);
        if let Some(number) = failing {
            for _passed in 0..number {
                fails.push(alloc, 0)?;
            }
            fails.push(alloc, 1)?;
        }
        let sectors = sectors.min(65536);
        Ok(Machine {
            state: BlkState {
                capacity: 8,
                writeback: 0,
                accepted: Features(ALL),
            },
            disk: Tripped::new(MemDisk::new(alloc, sectors, read_only, fails)?),
            mem: GuestMem::new(alloc, 0x8000)?,
            cuts: (1, 1),
        })
    }

    /// Writes over memory.
    fn put(
        &mut self,
        rt: &impl Abort,
        alloc: Global,
        addr: u64,
        bytes: &[u8],
    ) -> Result<(), Memory> {
        self.mem.reserve(alloc, 2)?;
        assert!(rt; bytes.len() <= 4096);
        assert!(rt; self.mem.write(addr, bytes).is_ok());
        Ok(())
    }

    /// Serves a chain of these readable bytes, and of fives that may be written over, and answers how many were.
    fn serve(
        &mut self,
        rt: &impl Abort,
        alloc: Global,
        readable: &[u8],
        room: u32,
    ) -> Result<u32, Memory> {
        let mut chain = Chain {
            id: 0,
            slots: 1,
            pieces: ArrayVec::new(),
        };
        let (cuts, room_cuts) = self.cuts;
        if !readable.is_empty() {
            assert!(rt; readable.len() <= 4096);
            self.put(rt, alloc, READABLE, readable)?;
            let len = readable.len() as u32;
            add_pieces(rt, &mut chain, READABLE, len, cuts, false);
        }
        if room > 0 {
            self.put(rt, alloc, WRITABLE, &[5; 2048])?;
            add_pieces(rt, &mut chain, WRITABLE, room, room_cuts, true);
        }
        self.mem.reserve(alloc, 16)?;
        assert!(rt; are_pieces_valid(self.mem.len(), chain.pieces.as_slice()));
        Ok(serve_chain(&mut self.mem, &chain, &self.state, &mut self.disk))
    }

    /// The byte at an address.
    fn byte_at(&self, rt: &impl Abort, addr: u64) -> u8 {
        let mut room = [0u8; 1];
        assert!(rt; self.mem.read(addr, &mut room).is_ok());
        room[0]
    }

    /// Serves a request, and tests the status and the first data byte.
    fn expect(
        &mut self,
        rt: &impl Abort,
        alloc: Global,
        request: &Request,
        status: u8,
        first: u8,
    ) -> Result<(), Memory> {
        let &(kind, sector, sevens, _, room) = request;
        let bytes = bytes_of(request);
        assert!(rt; room > 0 && room < 0x2000);
        let written = self.serve(rt, alloc, bytes.as_slice(), room)?;
        assert_eq!(rt; written, room);
        let last = self.byte_at(rt, WRITABLE + room as u64 - 1);
        assert_eq!(rt; last, status, "{kind} of {sector}, {sevens} and {room}");
        if room > 1 {
            assert_eq!(rt; self.byte_at(rt, WRITABLE), first, "{kind} of {sector}");
        }
        Ok(())
    }
}

#[test]
fn answers_requests(rt: HostRuntime) -> Result<(), Fail> {
    let alloc = rt.alloc();
    for (read_only, rows) in [(false, &SERVED[..]), (true, &READ_ONLY[..])] {
        let mut machine = Machine::new(alloc, 8, read_only, None)?;
        for &(request, status, first) in rows {
            machine.expect(&rt, alloc, &request, status, first)?;
        }
    }
    let mut machine = Machine::new(alloc, 2048, false, None)?;
    for (capacity, features, request, status) in REFUSED {
        machine.state.capacity = capacity;
        machine.state.accepted = Features(features);
        machine.expect(&rt, alloc, &request, status, 0)?;
    }
    Ok(())
}

#[test]
fn calls_of_the_disk_fail(rt: HostRuntime) -> Result<(), Fail> {
    let alloc = rt.alloc();
    // a write of seven sectors and its flush are eight calls: the sectors before the one that failed stay
    for failing in 0..8 {
        let mut machine = Machine::new(alloc, 8, false, Some(failing))?;
        machine.expect(&rt, alloc, &(1, 0, 3584, &[], 1), 1, 0)?;
        for sector in 0..8 {
            let is_done = sector < 7 && sector < u16::from(failing);
            let first = if is_done { 7 } else { 0 };
            machine.expect(&rt, alloc, &(0, sector, 0, &[], 513), 0, first)?;
        }
    }
    // a write and its flush, and a reading of seven sectors: there is no data where a call of it failed
    for failing in 2..9 {
        let mut machine = Machine::new(alloc, 8, false, Some(failing))?;
        machine.expect(&rt, alloc, &(1, 0, 512, &[], 1), 0, 0)?;
        for (status, first) in [(1, 0), (0, 7)] {
            machine.expect(&rt, alloc, &(0, 0, 0, &[], 3585), status, first)?;
        }
    }
    // the writeback byte, the features, the call that a trip fails, and the status of a write: a flush that is left to the
    // driver is no call
    for (writeback, features, trip, status) in [
        (0, ALL, 2, 1),
        (1, ALL, 2, 0),
        (0, 0x200, 2, 0),
        (1, 0, 2, 1),
        (1, 0, 1, 1),
        (1, 0, 3, 0),
    ] {
        let mut machine = Machine::new(alloc, 8, false, None)?;
        machine.disk.set_trip(trip);
        machine.state.writeback = writeback;
        machine.state.accepted = Features(features);
        machine.expect(&rt, alloc, &(1, 0, 512, &[], 1), status, 0)?;
    }
    Ok(())
}

#[test]
fn chains_may_be_cut_anywhere(rt: HostRuntime) -> Result<(), Fail> {
    let alloc = rt.alloc();
    for cuts in [
        (1, 1),
        (2, 1),
        (1, 2),
        (3, 3),
        (4, 4),
        (7, 1),
        (1, 7),
        (2, 6),
    ] {
        let mut machine = Machine::new(alloc, 8, false, None)?;
        machine.cuts = cuts;
        for (kind, room, first) in [(1, 25, 0), (0, 513, 7), (8, 25, b'V')] {
            machine.expect(&rt, alloc, &(kind, 3, 512, &[], room), 0, first)?;
        }
    }
    let mut machine = Machine::new(alloc, 8, false, None)?;
    let header = bytes_of(&(8, 0, 0, &[], 0));
    let header = header.as_slice();
    assert!(rt; header.len() == 16);
    // the readable bytes, the room, and what is in it and behind it then
    for (readable, room, bytes) in [
        (&header[..0], 3, &b"\0\0\x01\x05"[..]),
        (&header[..15], 1, b"\x01\x05"),
        (header, 23, b"VT-DISK-0\0\0\0\0\0\0\0\0\0\0\0\0\0\0\x05"),
    ] {
        assert_eq!(rt; machine.serve(&rt, alloc, readable, room)?, room);
        let mut written = [9u8; 24];
        assert_eq!(rt; machine.mem.read(WRITABLE, &mut written), Ok(()));
        assert!(rt; written.starts_with(bytes), "{room}");
    }
    assert_eq!(rt; machine.serve(&rt, alloc, header, 0)?, 0);
    Ok(())
}
