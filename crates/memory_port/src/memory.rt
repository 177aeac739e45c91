//! One access of guest memory.

ghost use Rattle.std.specs.Prelude.{◌≡◌, ◌+◌, ◌≤◌, nat_le, [], OnOk, OnErr, false, length, if◌then◌else◌};
ghost use Rattle.guest_mem.specs.Memory.{part};
ghost use Rattle.vt_types.specs.declared.access.Answer.TheVariants.{Done, Got, Outside as PastTheEnd};
ghost use Rattle.vt_types.specs.Access.{access_value, access_cost, IsWithinLimits};
ghost use Rattle.vt_types.specs.Limits.{LONGEST_BUFFER};
ghost use Rattle.vt_types.specs.Program.{got, is_got};
ghost use Rattle.memory_port.specs.MemoryTable.{MemoryStep};

use guest_mem::{GuestMem, Outside};
use vt_types::{Access, Answer, Room};

/// The answer to a put or a zeroing: it was done, or its range passes the end.
#[inline(always)]
fn done(put: Result<(), Outside>) -> Answer
    ensures inside { OnOk put (result ≡ Done) }
    ensures outside { OnErr put (result ≡ PastTheEnd) }
{
    match put {
        Ok(()) => Answer::Done,
        Err(Outside) => Answer::Outside,
    }
}

/// Fills a room with bytes of memory. The room stays as it is where they pass its end.
#[inline(always)]
fn get(memory: &GuestMem, addr: u64, count: u16, room: &mut Room) -> Answer
    requires { count ≤ LONGEST_BUFFER }
    ensures answer { result ≡ (if nat_le (addr + count) (length memory.now.bytes) then Got else PastTheEnd) }
    ensures bytes { got result room.new.items ≡ (if nat_le (addr + count) (length memory.now.bytes) then part memory.now.bytes addr count else []) }
    ensures leaves { is_got result ≡ false → room.new.items ≡ room.old.items }
{
    match memory.read_into(addr, count as usize, room) {
        Ok(()) => Answer::Got,
        Err(Outside) => Answer::Outside,
    }
}

/// Does an access of guest memory: a put, a get, a zeroing or a swap. `Outside` comes exactly where the access's range
/// passes the end of memory, and `NoSuch` exactly for another kind of access; both change nothing. After `Got` the
/// bytes are in the room.
///
/// Memory has to have a spare page for each page that the access touches, so that it can make those that were not made.
#[inline(always)]
pub fn access(memory: &mut GuestMem, a: &Access<'_>, room: &mut Room) -> Answer
    requires limits { IsWithinLimits (access_value a.now) }
    requires pages { access_cost (access_value a.now) ≤ memory.old.spare }
    ensures step { MemoryStep memory.old.bytes (access_value a.now) result room.old.items room.new.items memory.new.bytes }
    ensures pages { memory.old.spare ≤ memory.new.spare + access_cost (access_value a.now) }
{
    match *a {
        Access::Put { addr, bytes } => done(memory.write(addr, bytes)),
        Access::Get { addr, count } => get(memory, addr, count, room),
        Access::Zero { addr, count } => done(memory.zero(addr, count)),
        Access::Swap { addr, value } => match memory.swap64(addr, value) {
            Ok(before) => Answer::Word(before),
            Err(Outside) => Answer::Outside,
        },
        _ => Answer::NoSuch,
    }
}
