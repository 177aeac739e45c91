//! Buffers of a ring, posted and taken back.

ghost use Rattle.std.specs.Prelude.{◌≡◌};

use std::process::Abort;
use std::test::Fail;
use vq_posted::{Found, Posted, PostedBuffers};

/// A buffer that takes so many slots, with as many of the lowest free descriptors as are wanted.
fn post(rt: &impl Abort, buffers: &mut PostedBuffers, tag: u16, slots: u16, want: &[u16])
    ensures { buffers.new.greatest ≡ buffers.old.greatest }
{
    let count = want.len();
    assert!(rt; count >= 1);
    assert!(rt; count <= 8);
    assert!(rt; count <= usize::from(slots));
    assert!(rt; slots <= buffers.free());
    assert!(rt; !buffers.has_tag(tag));
    let descriptors = buffers.lowest_free(count);
    assert_eq!(rt; descriptors.as_slice(), want, "{tag}");
    buffers.add(Posted {
        tag,
        slots,
        readable: 16,
        descriptors,
    });
    assert!(rt; buffers.has_tag(tag), "{tag}");
}

/// The buffer with this id is found, and taken back.
fn take(rt: &impl Abort, buffers: &mut PostedBuffers, id: u16, tag: u16, slots: u16)
    ensures { buffers.new.greatest ≡ buffers.old.greatest }
{
    let want = Found {
        tag,
        slots,
        readable: 16,
    };
    let found = buffers.find(u32::from(id));
    assert!(rt; found == Some(want), "{id}");
    buffers.remove(id);
    assert!(rt; buffers.find(u32::from(id)).is_none(), "{id}");
    assert!(rt; !buffers.has_tag(tag), "{tag}");
}

/// What is done with the buffers of a ring.
#[derive(Clone, Copy)]
enum Step<'a> {
    /// A ring of this size begins, with no buffers.
    Start(u16),
    Post {
        tag: u16,
        slots: u16,
        want: &'a [u16],
    },
    Take {
        id: u16,
        tag: u16,
        slots: u16,
    },
    /// An id that names no buffer.
    Unknown(u32),
    Free(u16),
}

const STEPS: &[Step<'static>] = &[
    Step::Free(0),
    Step::Start(8),
    Step::Free(8),
    Step::Post {
        tag: 1,
        slots: 3,
        want: &[0, 1, 2],
    },
    Step::Post {
        tag: 0xffff,
        slots: 2,
        want: &[3, 4],
    },
    Step::Post {
        tag: 3,
        slots: 1,
        want: &[5],
    },
    Step::Free(2),
    Step::Unknown(1),
    Step::Unknown(0x1_0003),
    Step::Take {
        id: 3,
        tag: 0xffff,
        slots: 2,
    },
    Step::Post {
        tag: 4,
        slots: 4,
        want: &[3, 4, 6, 7],
    },
    Step::Free(0),
    Step::Take {
        id: 5,
        tag: 3,
        slots: 1,
    },
    Step::Take {
        id: 0,
        tag: 1,
        slots: 3,
    },
    Step::Free(4),
    Step::Post {
        tag: 1,
        slots: 3,
        want: &[0],
    },
    Step::Post {
        tag: 3,
        slots: 1,
        want: &[1],
    },
    Step::Start(2),
    Step::Free(2),
    Step::Unknown(0),
    Step::Post {
        tag: 1,
        slots: 2,
        want: &[0, 1],
    },
    Step::Start(1024),
    Step::Free(1024),
    Step::Post {
        tag: 1,
        slots: 1024,
        want: &[0, 1, 2, 3, 4, 5, 6, 7],
    },
    Step::Free(0),
];

/// Buffers of several descriptors, and of fewer descriptors than slots.
#[test]
fn takes_the_lowest_free_descriptors(rt: HostRuntime) -> Result<(), Fail> {
    let mut buffers = PostedBuffers::new(rt.alloc(), 1024)?;
    for step in STEPS {
        match *step {
            Step::Start(size) => {
                assert!(rt; size <= 1024);
                buffers.start(size);
            }
            Step::Post { tag, slots, want } => post(&rt, &mut buffers, tag, slots, want),
            Step::Take { id, tag, slots } => take(&rt, &mut buffers, id, tag, slots),
            Step::Unknown(id) => assert_eq!(rt; buffers.find(id), None),
            Step::Free(slots) => assert_eq!(rt; buffers.free(), slots),
        }
    }
    Ok(())
}
