//! A port that keeps each access as a line of text.

use port_access::{get, get_written, mark_where_due, put, put_data, put_u16};
use std::fmt::Write;
use std::test::Fail;
use vt_types::{Access, Answer, Port, Room};

/// A port that keeps each access and mark as a line, and answers each access alike.
#[derive(Drop)]
struct Lines<'a> {
    text: String,
    answer: Answer,
    bytes: &'a [u8],
}

impl Port for Lines<'_> {
    ghost step = { λ _ _ _ _ _ _. Unit {0} };

    ghost marking = { λ _ _. Unit {0} };

    ghost credit = { λ _. 4096 };

    fn access(&mut self, a: &Access<'_>, room: &mut Room) -> Answer {
        let _ = match *a {
            Access::Put { addr, bytes } => write!(self.text, "put {addr:x} {bytes:?}\n"),
            Access::Get { addr, count } => write!(self.text, "get {addr:x} {count}\n"),
            _ => Ok(()),
        };
        room.clear();
        let _ = room.try_extend_from_slice(self.bytes);
        self.answer
    }

    fn mark(&mut self) {
        let _ = self.text.push_str("mark\n");
    }
}

/// Answers to an access, with the bytes that come and those that count where two were asked for.
const ANSWERS: [(Answer, &[u8], [u8; 2]); 4] = [
    (Answer::Got, &[7, 8], [7, 8]),
    (Answer::Got, &[7, 8, 9], [0, 0]),
    (Answer::Got, &[7], [0, 0]),
    (Answer::Word(2), &[7, 8], [0, 0]),
];

const MADE: &str =
    "put 1000 [1, 2, 3]\nmark\nput 2000 [2, 1]\nput 3000 [4]\nget 1000 2\nget 2000 2\n";

/// Whatever a put answers, and whatever is in the room then.
#[test]
fn any_answer_will_do(rt: HostRuntime) -> Result<(), Fail> {
    let mut room = Room::new();
    for (answer, bytes, want) in ANSWERS {
        let mut port = Lines {
            text: String::new(rt.alloc()),
            answer,
            bytes,
        };
        put(&mut port, 0x1000, &[1, 2, 3], &mut room);
        mark_where_due(&mut port, false);
        put_u16(&mut port, 0x2000, 0x0102, &mut room);
        mark_where_due(&mut port, true);
        put_data(&mut port, 0x3000, &[4], &mut room);
        get(&mut port, 0x1000, 2, &mut room);
        assert_eq!(rt; room.as_slice(), want.as_slice(), "{bytes:?}");
        get_written(&mut port, 0x2000, 2, &mut room);
        assert_eq!(rt; room.as_slice(), want.as_slice(), "{bytes:?}");
        get_written(&mut port, 0x3000, 0, &mut room);
        assert!(rt; room.is_empty());
        assert_eq!(rt; port.text.as_str(), MADE);
    }
    Ok(())
}
