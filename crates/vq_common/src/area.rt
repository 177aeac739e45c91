//! Numbers and bytes in areas that are known to lie inside guest memory.

ghost use Rattle.std.specs.Prelude.{◌≡◌, ◌+◌, ◌≤◌, length};
ghost use Rattle.vt_types.specs.Limits.{GUEST_PAGE};
ghost use Rattle.guest_mem.specs.Memory.{le16_at, le16_of, part, put_at};
ghost use Rattle.vq_common.specs.Pages.{PAGES_OF_PUT};

use byteorder::{ByteOrder, LittleEndian};
use guest_mem::GuestMem;

/// The address at an offset of an area. It has 64 bits, since it is inside memory.
#[inline(always)]
fn address(mem: &GuestMem, area: u64, offset: u64) -> u64
    requires { area + offset ≤ length mem.now.bytes }
    ensures { result ≡ area + offset }
{
    let len = mem.len();
    prove!(area <= len);
    area + offset
}

/// The `N` bytes at an offset of an area.
#[inline(always)]
pub fn bytes_at<const N: usize>(mem: &GuestMem, area: u64, offset: u64) -> [u8; N]
    requires { area + offset + N ≤ length mem.now.bytes }
    ensures { result ≡ part mem.now.bytes (area + offset) N }
{
    let mut bytes = [0u8; N];
    let _inside = mem.read(address(mem, area, offset), &mut bytes);
    bytes
}

/// The 16-bit number at an offset of an area, its lowest byte first.
#[inline(always)]
pub fn le16_at(mem: &GuestMem, area: u64, offset: u64) -> u16
    requires { area + offset + 2 ≤ length mem.now.bytes }
    ensures { result ≡ le16_at mem.now.bytes (area + offset) }
{
    LittleEndian::read_u16(&bytes_at::<2>(mem, area, offset))
}

/// Puts at most `GUEST_PAGE` bytes at an offset of an area. It makes at most `PAGES_OF_PUT` pages of memory.
#[inline(always)]
pub fn put(mem: &mut GuestMem, area: u64, offset: u64, bytes: &[u8])
    requires small { length bytes.now ≤ GUEST_PAGE }
    requires inside { area + offset + length bytes.now ≤ length mem.old.bytes }
    requires pages { PAGES_OF_PUT ≤ mem.old.spare }
    ensures bytes { mem.new.bytes ≡ put_at mem.old.bytes (area + offset) bytes.now }
    ensures pages { mem.old.spare ≤ mem.new.spare + PAGES_OF_PUT }
{
    let addr = address(mem, area, offset);
    let _inside = mem.write(addr, bytes);
}

/// Puts a 16-bit number at an offset of an area, its lowest byte first. It makes at most `PAGES_OF_PUT` pages of memory.
#[inline(always)]
pub fn put_le16(mem: &mut GuestMem, area: u64, offset: u64, value: u16)
    requires inside { area + offset + 2 ≤ length mem.old.bytes }
    requires pages { PAGES_OF_PUT ≤ mem.old.spare }
    ensures bytes { mem.new.bytes ≡ put_at mem.old.bytes (area + offset) (le16_of value) }
    ensures pages { mem.old.spare ≤ mem.new.spare + PAGES_OF_PUT }
{
    let mut bytes = [0u8; 2];
    LittleEndian::write_u16(&mut bytes, value);
    put(mem, area, offset, &bytes);
}
