//! Puts, gets and marks.
//!
//! Each call is lent a room: a port's access takes one, and a room is too large to be made for each access.

ghost use Rattle.std.specs.Prelude.{◌≡◌, ◌+◌, ◌≤◌, [], ◌∷◌, length, replicate};
ghost use Rattle.byteorder.specs.Endian.{little_bytes};
ghost use Rattle.vt_types.specs.Access.{Put, pages_touched};
ghost use Rattle.vt_types.specs.Limits.{LONGEST_BUFFER};
ghost use Rattle.vt_types.specs.Program.{Gives, Does, cost_of_all};
ghost use Rattle.port_access.specs.Accesses.{bytes_program, data_puts, get_bytes, mark_alone};

use byteorder::{ByteOrder, LittleEndian};
use vt_types::{Access, Answer, Port, Room};

/// Puts 1 to `LONGEST_BUFFER` bytes; nobody looks at the answer.
#[inline(always)]
pub fn put<P: Port>(port: &mut P, addr: u64, bytes: &[u8], room: &mut Room)
    requires some { 1 ≤ length bytes.now }
    requires few { length bytes.now ≤ LONGEST_BUFFER }
    requires credit { pages_touched addr (length bytes.now) ≤ P.credit port.old }
    ensures does { Does P.step P.marking (Put addr bytes.now ∷ []) port.old port.new }
    ensures credit { P.credit port.old ≤ P.credit port.new + pages_touched addr (length bytes.now) }
{
    let _answer = port.access(&Access::Put { addr, bytes }, room);
}

/// Puts at most `LONGEST_BUFFER` bytes. No access is made where there are none.
pub fn put_data<P: Port>(port: &mut P, addr: u64, bytes: &[u8], room: &mut Room)
    requires few { length bytes.now ≤ LONGEST_BUFFER }
    requires credit { cost_of_all (data_puts addr bytes.now) ≤ P.credit port.old }
    ensures does { Does P.step P.marking (data_puts addr bytes.now) port.old port.new }
    ensures credit { P.credit port.old ≤ P.credit port.new + cost_of_all (data_puts addr bytes.now) }
{
    if !bytes.is_empty() {
        put(port, addr, bytes, room);
    }
}

/// Puts a number of 16 bits, its low byte first; nobody looks at the answer.
pub fn put_u16<P: Port>(port: &mut P, addr: u64, number: u16, room: &mut Room)
    requires { pages_touched addr 2 ≤ P.credit port.old }
    ensures does { Does P.step P.marking (Put addr (little_bytes 2 number) ∷ []) port.old port.new }
    ensures credit { P.credit port.old ≤ P.credit port.new + pages_touched addr 2 }
{
    let mut bytes = [0u8; 2];
    LittleEndian::write_u16(&mut bytes, number);
    put(port, addr, &bytes, room);
}

/// Zeros in the room.
#[cold]
fn fill_zeros(room: &mut Room, count: u16)
    requires { count ≤ LONGEST_BUFFER }
    ensures { room.new.items ≡ replicate count 0 }
{
    room.clear();
    'zeros: for _byte in 0..count {
        room.push(0);
    }
}

/// Gets 1 to `LONGEST_BUFFER` bytes into the room: zeros where the answer has another form, or another number of bytes comes.
#[inline(always)]
pub fn get<P: Port>(port: &mut P, addr: u64, count: u16, room: &mut Room)
    requires some { 1 ≤ count }
    requires few { count ≤ LONGEST_BUFFER }
    ensures gives { Gives P.step P.marking (get_bytes addr count) port.old room.new.items port.new }
    ensures long { length room.new.items ≡ count }
    ensures credit { P.credit port.old ≤ P.credit port.new }
{
    let answer = port.access(&Access::Get { addr, count }, room);
    match answer {
        Answer::Got if room.len() == usize::from(count) => {}
        _ => fill_zeros(room, count),
    }
}

/// Gets the `len` bytes that a device wrote, at most `LONGEST_BUFFER`, into the room. No access is made where it wrote none.
#[inline(always)]
pub fn get_written<P: Port>(port: &mut P, addr: u64, len: u16, room: &mut Room)
    requires { len ≤ LONGEST_BUFFER }
    ensures gives { Gives P.step P.marking (bytes_program addr len) port.old room.new.items port.new }
    ensures credit { P.credit port.old ≤ P.credit port.new }
{
    if len == 0 {
        room.clear();
    } else {
        get(port, addr, len, room);
    }
}

/// Marks the last access where no mark was made before.
pub fn mark_where_due<P: Port>(port: &mut P, marked: bool)
    ensures gives { Gives P.step P.marking (mark_alone marked) port.old tt port.new }
    ensures credit { P.credit port.new ≡ P.credit port.old }
{
    if !marked {
        port.mark();
    }
}
