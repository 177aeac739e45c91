//! Guest memory as a port.

use guest_mem::GuestMem;
use memory_port::MemoryPort;
use std::test::Fail;
use vt_types::{Access, Answer, Port, Room};

#[test]
fn memory_is_put_got_swapped_and_zeroed(rt: HostRuntime) -> Result<(), Fail> {
    let mut port = MemoryPort {
        memory: GuestMem::new(rt.alloc(), 32)?,
    };
    port.memory.reserve(rt.alloc(), 6)?;
    let mut room = Room::new();
    let put = Access::Put {
        addr: 8,
        bytes: &[1, 2, 3, 4, 5, 6, 7, 8],
    };
    assert_eq!(rt; port.access(&put, &mut room), Answer::Done);
    let swap = Access::Swap {
        addr: 8,
        value: 0x11,
    };
    let before = Answer::Word(0x0102030405060708);
    assert_eq!(rt; port.access(&swap, &mut room), before);
    let zero = Access::Zero { addr: 15, count: 1 };
    assert_eq!(rt; port.access(&zero, &mut room), Answer::Done);
    let get = Access::Get { addr: 8, count: 8 };
    assert_eq!(rt; port.access(&get, &mut room), Answer::Got);
    assert_eq!(rt; room.as_slice(), [0u8; 8].as_slice());
    let past = Access::Get { addr: 25, count: 8 };
    assert_eq!(rt; port.access(&past, &mut room), Answer::Outside);
    port.mark();
    let other = Access::Csch { id: 0 };
    assert_eq!(rt; port.access(&other, &mut room), Answer::NoSuch);
    Ok(())
}
