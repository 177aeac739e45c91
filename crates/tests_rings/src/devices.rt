//! The devices' ends, over rings whose bytes are worked out by hand.

ghost use Rattle.std.specs.Prelude.{◌≡◌, ◌≤◌, IsTrue, length};

use crate::ends::front;
use byteorder::{ByteOrder, LittleEndian};
use guest_mem::GuestMem;
use std::alloc::Global;
use std::process::Abort;
use std::test::Fail;
use vq_common::{DeviceEnd, Piece, RingCfg, Take, is_ring_size};
use vq_packed_dev::PackedDevice;
use vq_split_dev::SplitDevice;

mod packed;
mod split;

const DRIVER: u64 = 0x1000;

const DEVICE: u64 = 0x2000;

const TABLE: u64 = 0x3000;

const DATA: u64 = 0x4000;

const MEMORY: u64 = 0x8000;

const NEXT: u16 = 1;

const WRITE: u16 = 2;

const INDIRECT: u16 = 4;

const AVAIL: u16 = 0x80;

const USED: u16 = 0x8000;

/// A descriptor as it lies in memory: its address, its length, and two numbers of 16 bits. These are its flags and the
/// location of the next one on a split ring, and its id and its flags on a packed one.
type Lying = (u64, u32, u16, u16);

/// A ring, and what lies in memory.
#[derive(Clone, Copy)]
struct Ring<'a> {
    cfg: RingCfg,
    /// So many chains of one descriptor go through a packed ring before the descriptors below are put.
    before: u16,
    driver: &'a [u16],
    descriptors: &'a [Lying],
    table: &'a [Lying],
}

const CFG: RingCfg = RingCfg {
    desc: 0,
    driver: DRIVER,
    device: DEVICE,
    size: 4,
    indirect: false,
    event_idx: false,
};

/// What a ring shows next: of a chain its id, its slots and its number of pieces.
#[derive(Clone, Copy, Debug, PartialEq, Eq)]
enum Shows {
    Empty,
    Bad,
    Chain(u16, u16, usize),
}

fn put(rt: &impl Abort, mem: &mut GuestMem, addr: u64, bytes: &[u8])
    requires { length bytes.now ≤ 16 }
{
    assert!(rt; mem.spare() >= 2);
    assert!(rt; mem.write(addr, bytes).is_ok(), "at {addr}");
}

fn put_descriptors(rt: &impl Abort, mem: &mut GuestMem, addr: u64, descriptors: &[Lying]) {
    let mut at = addr;
    for (data, len, third, fourth) in descriptors {
        let mut bytes = [0u8; 16];
        LittleEndian::write_u64(&mut bytes, *data);
        LittleEndian::write_u32(&mut bytes[8..], *len);
        LittleEndian::write_u16(&mut bytes[12..], *third);
        LittleEndian::write_u16(&mut bytes[14..], *fourth);
        put(rt, mem, at, &bytes);
        assert!(rt; at < MEMORY);
        at += 16;
    }
}

fn put_numbers(rt: &impl Abort, mem: &mut GuestMem, addr: u64, numbers: &[u16]) {
    let mut at = addr;
    for number in numbers {
        put(rt, mem, at, &number.to_le_bytes());
        assert!(rt; at < MEMORY);
        at += 2;
    }
}

/// Takes chains of one descriptor on a packed ring, and gives each back.
fn pass<D: DeviceEnd>(rt: &impl Abort, device: &mut D, mem: &mut GuestMem, size: u16, count: u16) {
    assert!(rt; size > 0);
    for number in 0..count {
        let available = if number / size % 2 == 0 { AVAIL } else { USED };
        let descriptor = (DATA, 16, number, available);
        put_descriptors(rt, mem, 16 * u64::from(number % size), &[descriptor]);
        let chain = front(rt, device, mem);
        assert_eq!(rt; (chain.id, chain.slots), (number, 1));
        assert!(rt; mem.spare() >= 4);
        let _signals = device.give(mem, &chain, 0);
    }
}

/// A device's end of a ring, and its memory.
fn start<D: DeviceEnd + Drop>(
    rt: &impl Abort,
    alloc: Global,
    ring: &Ring,
) -> Result<(D, GuestMem), Fail> {
    let mut mem = GuestMem::new(alloc, MEMORY)?;
    mem.reserve(alloc, 12)?;
    assert!(rt; is_ring_size(ring.cfg.size));
    let mut device = D::new(&ring.cfg);
    pass(rt, &mut device, &mut mem, ring.cfg.size, ring.before);
    put_descriptors(rt, &mut mem, ring.cfg.desc, ring.descriptors);
    put_descriptors(rt, &mut mem, TABLE, ring.table);
    put_numbers(rt, &mut mem, ring.cfg.driver, ring.driver);
    Ok((device, mem))
}

fn shown(take: &Take) -> Shows {
    match take {
        Take::Front(chain) => Shows::Chain(chain.id, chain.slots, chain.pieces.len()),
        Take::Empty => Shows::Empty,
        Take::Bad => Shows::Bad,
    }
}

/// Rings by name, and what each shows.
type Shown = (&'static str, Ring<'static>, Shows);

fn check_shown<D: DeviceEnd + Drop>(
    rt: &impl Abort,
    alloc: Global,
    rows: &[Shown],
) -> Result<(), Fail> {
    for (name, ring, shows) in rows {
        let (mut device, mem): (D, GuestMem) = start(rt, alloc, ring)?;
        let take = device.take(&mem);
        assert_eq!(rt; shown(&take), *shows, "{name}");
    }
    Ok(())
}

#[test]
fn shows_chains(rt: HostRuntime) -> Result<(), Fail> {
    check_shown::<SplitDevice>(&rt, rt.alloc(), split::SHOWN)?;
    check_shown::<PackedDevice>(&rt, rt.alloc(), packed::SHOWN)
}

/// Whether giving a ring's first chain back is signalled.
type Signalled = (Ring<'static>, bool);

fn check_signals<D: DeviceEnd + Drop>(
    rt: &impl Abort,
    alloc: Global,
    rows: &[Signalled],
) -> Result<(), Fail> {
    for (row, (ring, want)) in rows.iter().enumerate() {
        let (mut device, mut mem): (D, GuestMem) = start(rt, alloc, ring)?;
        let chain = front(rt, &mut device, &mem);
        assert!(rt; mem.spare() >= 4);
        let signals = device.give(&mut mem, &chain, 0);
        assert_eq!(rt; signals, *want, "in row {row}");
    }
    Ok(())
}

#[test]
fn signals_what_is_asked_for(rt: HostRuntime) -> Result<(), Fail> {
    check_signals::<SplitDevice>(&rt, rt.alloc(), split::SIGNALLED)?;
    check_signals::<PackedDevice>(&rt, rt.alloc(), packed::SIGNALLED)
}

/// Two chains, of which the second is given back first.
#[derive(Clone, Copy)]
struct Giving<'a> {
    ring: Ring<'a>,
    /// The id and the slots of each.
    chains: [(u16, u16); 2],
    /// The number that asks for no signal, and where it is put.
    silent: (u64, u16),
    /// How many bytes were written into the first chain.
    len: u32,
    /// Bytes of memory in the end.
    used: &'a [(u64, [u8; 8])],
}

fn check_giving<D: DeviceEnd + Drop>(
    rt: &impl Abort,
    alloc: Global,
    giving: &Giving,
) -> Result<(), Fail> {
    let (mut device, mut mem): (D, GuestMem) = start(rt, alloc, &giving.ring)?;
    assert!(rt; mem.len() == MEMORY && mem.spare() >= 8);
    let undone = front(rt, &mut device, &mem);
    device.put_back(&undone);
    let first = front(rt, &mut device, &mem);
    let second = front(rt, &mut device, &mem);
    let chains = [(first.id, first.slots), (second.id, second.slots)];
    assert_eq!(rt; chains, giving.chains);
    assert_eq!(rt; undone.id, first.id);
    let piece = Piece {
        addr: DATA,
        len: 16,
        write: true,
    };
    assert_eq!(rt; second.pieces.as_slice(), [piece].as_slice());
    assert!(rt; device.give(&mut mem, &second, 0x0102));
    let (addr, number) = giving.silent;
    put(rt, &mut mem, addr, &number.to_le_bytes());
    assert!(rt; mem.len() == MEMORY && mem.spare() >= 4);
    assert!(rt; !device.give(&mut mem, &first, giving.len));
    for (addr, want) in giving.used {
        let mut bytes = [0u8; 8];
        assert!(rt; mem.read(*addr, &mut bytes).is_ok());
        assert_eq!(rt; bytes, *want, "at {addr}");
    }
    Ok(())
}

#[test]
fn gives_in_any_order(rt: HostRuntime) -> Result<(), Fail> {
    check_giving::<SplitDevice>(&rt, rt.alloc(), &split::GIVING)?;
    check_giving::<PackedDevice>(&rt, rt.alloc(), &packed::GIVING)?;
    check_giving::<PackedDevice>(&rt, rt.alloc(), &packed::GIVING_PAST_THE_END)
}
