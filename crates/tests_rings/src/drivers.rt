//! The drivers' ends, over a port that keeps each access as a line of text, and over one on which each buffer is used.

ghost use Rattle.std.specs.Prelude.{◌≡◌};

use crate::ends::{Started, buffer};
use byteorder::{ByteOrder, LittleEndian};
use std::alloc::Global;
use std::fmt::Write;
use std::process::Abort;
use std::test::Fail;
use vq_common::{DriverEnd, Reaped};
use vq_packed_drv::PackedDriver;
use vq_split_drv::SplitDriver;
use vt_types::{Access, Answer, Port, Room};

mod packed;
mod split;

/// A port that keeps each access and mark as a line. It answers gets from a list, and a put with a byte in the room.
#[derive(Drop)]
struct Lines<'a> {
    text: String,
    answers: &'a [(Answer, &'a [u8])],
    next: usize,
}

impl Lines<'_> {
    fn put(&mut self, addr: u64, bytes: &[u8]) {
        let _ = write!(self.text, "put {addr:x} ");
        for byte in bytes {
            let _ = write!(self.text, "{byte:02x}");
        }
        let _ = self.text.push('\n');
    }

    fn answer(&mut self, room: &mut Room) -> Answer {
        if self.next >= self.answers.len() {
            return Answer::Outside;
        }
        let (answer, bytes) = self.answers[self.next];
        self.next += 1;
        room.clear();
        let _ = room.try_extend_from_slice(bytes);
        answer
    }
}

impl Port for Lines<'_> {
    ghost step = { λ _ _ _ _ _ _. Unit {0} };

    ghost marking = { λ _ _. Unit {0} };

    ghost credit = { λ _. 4096 };

    fn access(&mut self, a: &Access<'_>, room: &mut Room) -> Answer {
        match *a {
            Access::Put { addr, bytes } => {
                self.put(addr, bytes);
                room.clear();
                let _ = room.try_push(0xee);
                Answer::NoSuch
            }
            Access::Get { addr, count } => {
                let _ = write!(self.text, "get {addr:x} {count}\n");
                self.answer(room)
            }
            _ => Answer::NoSuch,
        }
    }

    fn mark(&mut self) {
        let _ = self.text.push_str("mark\n");
    }
}

/// What is asked of the driver.
#[derive(Clone, Copy)]
enum Ask<'a> {
    /// A buffer is posted: false where the ring is full.
    Post {
        tag: u16,
        pieces: usize,
        readable: usize,
        indirect: bool,
        fits: bool,
    },
    /// A buffer is reaped, with these answers.
    Reap {
        answers: &'a [(Answer, &'a [u8])],
        want: Option<Reaped>,
        bytes: &'a [u8],
    },
    Signals(bool),
}

/// A ring of so many descriptors, with EVENT_IDX or without, and what is asked of its end in order, with the accesses.
type Ring = (u16, bool, &'static [(Ask<'static>, &'static str)]);

/// The answers that are given while this is asked.
fn answers_of<'a>(ask: Ask<'a>) -> &'a [(Answer, &'a [u8])] {
    match ask {
        Ask::Reap { answers, .. } => answers,
        _ => &[],
    }
}

/// Asks one thing, and compares the answer and the accesses.
fn try_one<'a, E: DriverEnd + Drop>(
    rt: &impl Abort,
    alloc: Global,
    driver: &mut Started<E>,
    ask: Ask<'a>,
    lines: &str,
) -> Result<(), Fail> {
    let mut port = Lines {
        text: String::new(alloc),
        answers: answers_of(ask),
        next: 0,
    };
    match ask {
        Ask::Post {
            tag,
            pieces,
            readable,
            indirect,
            fits,
        } => {
            assert!(rt; pieces >= 1 && pieces <= 8 && readable <= pieces);
            let buf = buffer(alloc, tag, pieces, readable, indirect)?;
            assert_eq!(rt; driver.post(rt, &mut port, &buf), fits, "{lines}");
        }
        Ask::Reap { want, bytes, .. } => {
            let mut room = Room::new();
            assert_eq!(rt; driver.reap(&mut port, &mut room), want, "{lines}");
            if want.is_some() {
                assert_eq!(rt; room.as_slice(), bytes, "{lines}");
            }
        }
        Ask::Signals(on) => driver.end.set_signals(&mut port, on),
    }
    assert_eq!(rt; port.text.as_str(), lines);
    Ok(())
}

fn try_rings<E: DriverEnd + Drop>(
    rt: &impl Abort,
    alloc: Global,
    rings: &[Ring],
) -> Result<(), Fail> {
    for (size, event_idx, asks) in rings {
        let mut driver: Started<E> = Started::new(rt, alloc, *size, *event_idx)?;
        for (ask, lines) in *asks {
            try_one(rt, alloc, &mut driver, *ask, lines)?;
        }
    }
    Ok(())
}

#[test]
fn makes_the_accesses_of_each_call(rt: HostRuntime) -> Result<(), Fail> {
    try_rings::<SplitDriver>(&rt, rt.alloc(), &split::RINGS)?;
    try_rings::<PackedDriver>(&rt, rt.alloc(), &packed::RINGS)
}

/// A port on which one buffer more is used each time: `index` of them, the last of which is the buffer `id`, in a round
/// of a packed ring with this wrap counter.
#[derive(Drop)]
struct Used {
    index: u16,
    id: u16,
    wrap: bool,
}

impl Port for Used {
    ghost step = { λ _ _ _ _ _ _. Unit {0} };

    ghost marking = { λ _ _. Unit {0} };

    ghost credit = { λ _. 4096 };

    fn access(&mut self, a: &Access<'_>, room: &mut Room) -> Answer {
        let Access::Get { count, .. } = *a else {
            return Answer::Done;
        };
        let mut bytes = [0u8; 16];
        match count {
            2 => LittleEndian::write_u16(&mut bytes, self.index),
            8 => LittleEndian::write_u16(&mut bytes, self.id),
            _ => {
                LittleEndian::write_u16(&mut bytes[12..], self.id);
                LittleEndian::write_u16(&mut bytes[14..], if self.wrap { 0x8080 } else { 0 });
            }
        }
        room.clear();
        let _ = room.try_extend_from_slice(&bytes[..usize::from(count.min(16))]);
        Answer::Got
    }

    fn mark(&mut self) {}
}

/// Posts as many buffers of one descriptor as the ring has room for; the tag of each is its number.
fn fill<E: DriverEnd + Drop>(
    rt: &impl Abort,
    alloc: Global,
    driver: &mut Started<E>,
    port: &mut Used,
) -> Result<(), Fail> {
    for tag in 0..driver.size {
        let buf = buffer(alloc, tag, 1, 0, false)?;
        assert!(rt; driver.post(rt, port, &buf), "{tag}");
    }
    let more = buffer(alloc, driver.size, 1, 0, false)?;
    assert!(rt; !driver.post(rt, port, &more));
    Ok(())
}

/// Reaps the buffers of a full ring in another order.
fn empty<E: DriverEnd + Drop>(rt: &impl Abort, driver: &mut Started<E>, port: &mut Used) {
    let mut room = Room::new();
    let size = u32::from(driver.size);
    for number in 0..size {
        port.index = port.index.wrapping_add(1);
        port.id = ((5 * number + 3) % size) as u16;
        let want = Reaped {
            tag: port.id,
            len: 0,
        };
        assert_eq!(rt;
            driver.reap(port, &mut room),
            Some(want),
            "{number} of {size}"
        );
    }
    assert_eq!(rt; u32::from(driver.end.free()), size);
}

/// Rings of each size are filled and emptied for three rounds.
fn try_sizes<E: DriverEnd + Drop>(
    rt: &impl Abort,
    alloc: Global,
    sizes: &[u16],
) -> Result<(), Fail> {
    for size in sizes {
        let mut driver: Started<E> = Started::new(rt, alloc, *size, false)?;
        let mut port = Used {
            index: 0,
            id: 0,
            wrap: false,
        };
        for wrap in [true, false, true] {
            port.wrap = wrap;
            fill(rt, alloc, &mut driver, &mut port)?;
            empty(rt, &mut driver, &mut port);
        }
    }
    Ok(())
}

#[test]
fn fills_rings_again(rt: HostRuntime) -> Result<(), Fail> {
    try_sizes::<SplitDriver>(&rt, rt.alloc(), &[1, 2, 8, 256, 1024])?;
    try_sizes::<PackedDriver>(&rt, rt.alloc(), &[1, 4, 256])
}
