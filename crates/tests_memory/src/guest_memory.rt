//! Guest memory by itself.

ghost use Rattle.std.specs.Prelude.{◌^◌, ◌≤◌, length};

use guest_mem::{GuestMem, Memory, Outside};
use std::alloc::Global;
use std::test::Fail;
use vt_types::Room;

/// A memory whose length proofs take as a variable: they would write out a list of that many zeros.
fn memory_of(alloc: Global, len: u64) -> Result<GuestMem, Memory>
    requires { len ≤ 2 ^ 28 }
{
    GuestMem::new(alloc, len)
}

/// Writes bytes of at most three pages.
#[tactic(auto, using(guest_mem::proofs::Makes::needed_le, guest_mem::proofs::Makes::touched_le))]
fn write(
    memory: &mut GuestMem,
    alloc: Global,
    addr: u64,
    bytes: &[u8],
) -> Result<Result<(), Outside>, Memory>
    requires { length bytes.now ≤ 8192 }
{
    memory.reserve(alloc, 3)?;
    Ok(memory.write(addr, bytes))
}

/// Makes bytes of at most two pages zero.
#[tactic(auto, using(guest_mem::proofs::Makes::needed_le, guest_mem::proofs::Makes::touched_le))]
fn zero(
    memory: &mut GuestMem,
    alloc: Global,
    addr: u64,
    count: u16,
) -> Result<Result<(), Outside>, Memory>
    requires { count ≤ 4096 }
{
    memory.reserve(alloc, 2)?;
    Ok(memory.zero(addr, count))
}

/// Where two bytes are written, whether that is inside, and how many pages are there then.
const WRITES: [(u64, [u8; 2], bool, u32); 6] = [
    (4095, [1, 2], true, 2),
    (4095, [1, 2], true, 2),
    (268_435_455, [1, 2], false, 2),
    (u64::MAX, [1, 2], false, 2),
    (8192, [3, 4], true, 3),
    (268_435_454, [5, 6], true, 4),
];

/// What stands there then.
const READS: [(u64, [u8; 4]); 4] = [
    (4093, [0, 0, 1, 2]),
    (4096, [2, 0, 0, 0]),
    (8190, [0, 0, 3, 4]),
    (12287, [0, 0, 0, 0]),
];

#[test]
fn pages_are_made_at_the_first_write(rt: HostRuntime) -> Result<(), Fail> {
    let mut memory = memory_of(rt.alloc(), 1 << 28)?;
    assert_eq!(rt; (memory.len(), memory.is_empty()), (1 << 28, false));
    assert_eq!(rt; (memory.pages(), memory.spare()), (0, 0));
    for (addr, bytes, inside, pages) in WRITES {
        let done = write(&mut memory, rt.alloc(), addr, &bytes)?.is_ok();
        assert_eq!(rt; (done, memory.pages()), (inside, pages), "at {addr}");
    }
    let done = write(&mut memory, rt.alloc(), 40960, &[])?.is_ok();
    assert_eq!(rt; (done, memory.pages()), (true, 4));
    for (addr, want) in READS {
        let mut bytes = [9u8; 4];
        let done = memory.read(addr, &mut bytes).is_ok();
        assert_eq!(rt; (done, bytes), (true, want), "at {addr}");
    }
    let done = zero(&mut memory, rt.alloc(), 20480, 4096)?.is_ok();
    assert_eq!(rt; (done, memory.pages()), (true, 5));
    let mut room = Room::new();
    assert_eq!(rt; memory.read_into(4093, 4, &mut room), Ok(()));
    assert!(rt; room.len() < 8);
    assert_eq!(rt; memory.read_onto(8191, 2, &mut room), Ok(()));
    assert_eq!(rt; room.as_slice(), [0, 0, 1, 2, 0, 3].as_slice());
    Ok(())
}
