//! Chains of a network device.

use crate::chains::chain_of;
use dev_net::{NetState, limits_are_defined, serve_chain};
use guest_mem::GuestMem;
use std::test::Fail;

#[test]
fn serves_network_chains(rt: HostRuntime) -> Result<(), Fail> {
    let mut mem = GuestMem::new(rt.alloc(), 64)?;
    mem.reserve(rt.alloc(), 17)?;
    let mut state = NetState::new(rt.alloc())?;
    limits_are_defined();
    assert_eq!(rt; mem.write(0, b"headerheaderhi, net!"), Ok(()));
    state.arrive(&[9; 60]);
    state.arrive(b"a frame!");
    // the queue, the chain, how many bytes were written, and how many frames wait and were sent then
    for (queue, pieces, written, waiting, frames) in [
        (0, &[(32, 20, true)][..], None, 1, 0),
        (0, &[(32, 5, true), (40, 15, true)], Some(20), 0, 0),
        (1, &[(0, 11, false)], Some(0), 0, 0),
        (1, &[(0, 12, false), (32, 4, true)], Some(0), 0, 1),
        (1, &[(0, 7, false), (7, 13, false)], Some(0), 0, 2),
    ] {
        state.reserve(rt.alloc())?;
        mem.reserve(rt.alloc(), 16)?;
        assert!(rt; queue == 1 || state.waiting() > 0);
        let chain = chain_of(&rt, &mem, pieces);
        assert_eq!(rt; serve_chain(&mut mem, &chain, queue, &mut state), written);
        assert_eq!(rt; state.waiting(), waiting);
        assert_eq!(rt; state.frames(), frames);
    }
    assert_eq!(rt; state.frames(), 2);
    assert_eq!(rt; state.frame(0), b"".as_slice());
    assert_eq!(rt; state.frame(1), b"hi, net!".as_slice());
    let mut room = [7u8; 24];
    assert_eq!(rt; mem.read(32, &mut room), Ok(()));
    assert_eq!(rt; room, *b"\0\0\0\0\0\0\0\0\0\0\0\0\0\x01\0a frame!\0");
    // no more than 64 frames wait
    for number in 0..65u8 {
        state.arrive(&[number]);
    }
    assert_eq!(rt; state.waiting(), 64);
    Ok(())
}
