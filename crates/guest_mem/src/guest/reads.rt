//! What is read of guest memory.

ghost use Rattle.std.specs.Prelude.{◌≡◌, ◌+◌, ◌%◌, ◌≤◌, ◌<◌, ◌^◌, ◌↔◌, ◌++◌, length, IsOk, OnOk, OnErr};
ghost use Rattle.guest_mem.specs.Memory.{part};
ghost use Rattle.vt_types.specs.Limits.{GUEST_PAGE, LONGEST_BUFFER};

use super::GuestMem;
use crate::Outside;
use crate::paging::{first_piece, is_in_one_page};
use vt_types::{GUEST_PAGE, Room};

impl GuestMem {
    /// Fills `room` with the bytes from `addr` on.
    #[inline(always)]
    pub fn read(&self, addr: u64, room: &mut [u8]) -> Result<(), Outside>
        ensures cause { IsOk result ↔ (addr + length room.old ≤ length self.now.bytes) }
        ensures ok { OnOk result (room.new ≡ part self.now.bytes addr (length room.old)) }
        ensures err { OnErr result (room.new ≡ room.old) }
    {
        let at = self.start_of(addr, room.len())?;
        self.get(at, room);
        Ok(())
    }

    /// Adds the `count` bytes from `addr` on to what is in a room, which has space for them.
    #[inline]
    pub fn read_onto(&self, addr: u64, count: usize, room: &mut Room) -> Result<(), Outside>
        requires { length room.old.items + count ≤ LONGEST_BUFFER }
        ensures cause { IsOk result ↔ (addr + count ≤ length self.now.bytes) }
        ensures ok { OnOk result (room.new.items ≡ room.old.items ++ part self.now.bytes addr count) }
        ensures err { OnErr result (room.new.items ≡ room.old.items) }
    {
        let at = self.start_of(addr, count)?;
        self.append(at, count, room);
        Ok(())
    }

    /// Fills a room with the `count` bytes from `addr` on, of which there are at most `LONGEST_BUFFER`.
    #[inline]
    pub fn read_into(&self, addr: u64, count: usize, room: &mut Room) -> Result<(), Outside>
        requires { count ≤ LONGEST_BUFFER }
        ensures cause { IsOk result ↔ (addr + count ≤ length self.now.bytes) }
        ensures ok { OnOk result (room.new.items ≡ part self.now.bytes addr count) }
        ensures err { OnErr result (room.new.items ≡ room.old.items) }
    {
        let at = self.start_of(addr, count)?;
        room.clear();
        self.append(at, count, room);
        Ok(())
    }

    /// The bytes from `at` on, all of them in one page.
    #[inline(always)]
    fn bytes_in_page(&self, at: usize, count: usize) -> &[u8]
        requires some { 0 < count }
        requires inside { at + count ≤ length self.now.bytes }
        requires within { at % GUEST_PAGE + count ≤ GUEST_PAGE }
        ensures { result.now ≡ part self.now.bytes at count }
    {
        let number = self.page_numbers[at / GUEST_PAGE];
        let page = self.arena.page(number);
        let from = at % GUEST_PAGE;
        &page[from..from + count]
    }

    /// Fills `room` with bytes that are inside.
    #[inline(always)]
    pub(super) fn get(&self, at: usize, room: &mut [u8])
        requires fits { at + length room.old < 2 ^ 64 }
        requires inside { at + length room.old ≤ length self.now.bytes }
        ensures { room.new ≡ part self.now.bytes at (length room.old) }
    {
        if is_in_one_page(at, room.len()) {
            room.copy_from_slice(self.bytes_in_page(at, room.len()));
        } else {
            self.get_by_pages(at, room);
        }
    }

    /// Fills `room`, page by page.
    #[cold]
    fn get_by_pages(&self, at: usize, room: &mut [u8])
        requires fits { at + length room.old < 2 ^ 64 }
        requires inside { at + length room.old ≤ length self.now.bytes }
        ensures { room.new ≡ part self.now.bytes at (length room.old) }
    {
        let mut done = 0;
        'pages: while done < room.len() {
            let count = first_piece(at + done, room.len() - done);
            let bytes = self.bytes_in_page(at + done, count);
            room[done..done + count].copy_from_slice(bytes);
            done += count;
        }
    }

    /// Adds bytes that are inside to what is in a room.
    #[inline]
    fn append(&self, at: usize, count: usize, room: &mut Room)
        requires fits { at + count < 2 ^ 64 }
        requires inside { at + count ≤ length self.now.bytes }
        requires space { length room.old.items + count ≤ LONGEST_BUFFER }
        ensures { room.new.items ≡ room.old.items ++ part self.now.bytes at count }
    {
        if is_in_one_page(at, count) {
            self.append_in_page(at, count, room);
        } else {
            self.append_by_pages(at, count, room);
        }
    }

    /// Adds bytes that are inside to what is in a room, page by page.
    #[cold]
    fn append_by_pages(&self, at: usize, count: usize, room: &mut Room)
        requires fits { at + count < 2 ^ 64 }
        requires inside { at + count ≤ length self.now.bytes }
        requires space { length room.old.items + count ≤ LONGEST_BUFFER }
        ensures { room.new.items ≡ room.old.items ++ part self.now.bytes at count }
    {
        let mut done = 0;
        'pages: while done < count {
            let piece = first_piece(at + done, count - done);
            self.append_in_page(at + done, piece, room);
            done += piece;
        }
    }

    /// Adds the bytes from `at` on, all of them in one page, to what is in a room.
    #[inline(always)]
    fn append_in_page(&self, at: usize, count: usize, room: &mut Room)
        requires some { 0 < count }
        requires inside { at + count ≤ length self.now.bytes }
        requires within { at % GUEST_PAGE + count ≤ GUEST_PAGE }
        requires space { length room.old.items + count ≤ LONGEST_BUFFER }
        ensures { room.new.items ≡ room.old.items ++ part self.now.bytes at count }
    {
        let _fits = room.try_extend_from_slice(self.bytes_in_page(at, count));
    }
}
