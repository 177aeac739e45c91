//! Chains of a console.

use crate::chains::chain_of;
use dev_console::{ConState, limits_are_defined, serve_chain};
use guest_mem::GuestMem;
use std::test::Fail;

/// What is typed before a chain is served, its queue and its pieces, how many bytes were written, and what waits and was
/// printed then.
type Row = (
    &'static [&'static [u8]],
    u16,
    &'static [(u64, u32, bool)],
    u32,
    u32,
    &'static [u8],
);

const ROWS: [Row; 7] = [
    (&[b"abc"], 0, &[(16, 5, false)], 0, 3, b""),
    (&[], 0, &[(0, 2, true), (8, 2, true)], 3, 0, b""),
    (
        &[],
        1,
        &[(16, 7, false), (23, 5, false), (0x1000, 4, true)],
        0,
        0,
        b"hello, world",
    ),
    (
        &[],
        1,
        &[(0, 2, false), (8, 1, false)],
        0,
        0,
        b"hello, worldabc",
    ),
    (&[], 1, &[(0, 2, true)], 0, 0, b"hello, worldabc"),
    // no more than 4,096 bytes wait
    (
        &[&[7; 4095], b"xyz"],
        1,
        &[(0, 2, true)],
        0,
        4096,
        b"hello, worldabc",
    ),
    (
        &[],
        0,
        &[(0x1000, 4096, true), (0x2000, 4096, true)],
        4096,
        0,
        b"hello, worldabc",
    ),
];

#[test]
fn serves_console_chains(rt: HostRuntime) -> Result<(), Fail> {
    let alloc = rt.alloc();
    let mut mem = GuestMem::new(alloc, 0x4000)?;
    mem.reserve(alloc, 17)?;
    let mut state = ConState::new(alloc)?;
    limits_are_defined();
    assert_eq!(rt; mem.write(16, b"hello, world"), Ok(()));
    for &(keys, queue, pieces, written, waiting, console) in &ROWS {
        for key in keys {
            state.key(key);
        }
        state.reserve(alloc)?;
        mem.reserve(alloc, 16)?;
        assert!(rt; queue == 1 || queue == 0 && state.waiting() > 0);
        let chain = chain_of(&rt, &mem, pieces);
        assert_eq!(rt; serve_chain(&mut mem, &chain, queue, &mut state), written);
        assert_eq!(rt; state.waiting(), waiting);
        assert_eq!(rt; state.console(), console);
    }
    for (addr, bytes) in [
        (0, *b"ab\0\0\0\0\0\0c\0\0\0"),
        (0x1ffe, *b"\x07x\0\0\0\0\0\0\0\0\0\0"),
    ] {
        let mut room = [9u8; 12];
        assert_eq!(rt; mem.read(addr, &mut room), Ok(()));
        assert_eq!(rt; room, bytes);
    }
    state.reserve(alloc)?;
    state.emerg(b'!');
    assert_eq!(rt; state.console(), b"hello, worldabc!".as_slice());
    Ok(())
}
