//! What is written to guest memory.

ghost use Rattle.std.specs.Prelude.{◌≡◌, ◌+◌, ◌/◌, ◌%◌, ◌≤◌, ◌<◌, ◌^◌, ◌↔◌, ◌∷◌, [], true, false, length, replicate, slice_index_or, IsOk, IfOk, OnOk, OnErr};
ghost use Rattle.guest_mem.specs.Memory.{put_at, be64_at, be64_of};
ghost use Rattle.guest_mem.specs.Pages.{absent, missing, needed, pages_made, with_pages, written, AreThere};
ghost use Rattle.vt_types.specs.Access.{pages_touched};
ghost use Rattle.vt_types.specs.Limits.{GUEST_PAGE};

use super::GuestMem;
use crate::Outside;
use crate::paging::{first_piece, is_in_one_page, touched};
use byteorder::{BigEndian, ByteOrder};
use vt_types::GUEST_PAGE;

impl GuestMem {
    /// Puts `bytes` from `addr` on. The pages of the range that were not made are made, of the spare ones.
    #[inline(always)]
    pub fn write(&mut self, addr: u64, bytes: &[u8]) -> Result<(), Outside>
        requires { needed self.old addr (length bytes.now) ≤ self.old.spare }
        ensures cause { IsOk result ↔ (addr + length bytes.now ≤ length self.old.bytes) }
        ensures ok { OnOk result (self.new ≡ written self.old addr bytes.now) }
        ensures err { OnErr result (self.new ≡ self.old) }
        ensures total { pages_made self.new.made + self.new.spare ≡ pages_made self.old.made + self.old.spare }
        ensures credit { self.old.spare ≤ self.new.spare + pages_touched addr (length bytes.now) }
    {
        let at = self.start_of(addr, bytes.len())?;
        self.make(at, bytes.len());
        self.put(at, bytes);
        Ok(())
    }

    /// Makes `count` bytes from `addr` on zero. The pages of the range that were not made are made, of the spare ones.
    pub fn zero(&mut self, addr: u64, count: u16) -> Result<(), Outside>
        requires { needed self.old addr count ≤ self.old.spare }
        ensures cause { IsOk result ↔ (addr + count ≤ length self.old.bytes) }
        ensures ok { OnOk result (self.new ≡ written self.old addr (replicate count 0)) }
        ensures err { OnErr result (self.new ≡ self.old) }
        ensures total { pages_made self.new.made + self.new.spare ≡ pages_made self.old.made + self.old.spare }
        ensures credit { self.old.spare ≤ self.new.spare + pages_touched addr count }
    {
        let at = self.start_of(addr, count as usize)?;
        self.make(at, count as usize);
        self.clear(at, count as usize);
        Ok(())
    }

    /// Puts `value` as a big-endian number of 64 bits at `addr`, and answers the number that stood there. The pages of
    /// the range that were not made are made, of the spare ones.
    #[inline]
    pub fn swap64(&mut self, addr: u64, value: u64) -> Result<u64, Outside>
        requires { needed self.old addr 8 ≤ self.old.spare }
        ensures cause { IsOk result ↔ (addr + 8 ≤ length self.old.bytes) }
        ensures value { IfOk result (λ before. before ≡ be64_at self.old.bytes addr) }
        ensures ok { OnOk result (self.new ≡ written self.old addr (be64_of value)) }
        ensures err { OnErr result (self.new ≡ self.old) }
        ensures total { pages_made self.new.made + self.new.spare ≡ pages_made self.old.made + self.old.spare }
        ensures credit { self.old.spare ≤ self.new.spare + pages_touched addr 8 }
    {
        let mut word = [0u8; 8];
        self.read(addr, &mut word)?;
        let before = BigEndian::read_u64(&word);
        BigEndian::write_u64(&mut word, value);
        self.write(addr, &word)?;
        Ok(before)
    }

    /// Makes the pages of a range that were not made.
    #[inline(always)]
    fn make(&mut self, at: usize, count: usize)
        requires fits { at + count < 2 ^ 64 }
        requires inside { at / GUEST_PAGE + pages_touched at count ≤ length self.old.made }
        requires spare { missing self.old.made at count ≤ self.old.spare }
        ensures bytes { self.new.bytes ≡ self.old.bytes }
        ensures made { self.new.made ≡ with_pages self.old.made at count }
        ensures spare { self.new.spare + missing self.old.made at count ≡ self.old.spare }
        ensures total { pages_made self.new.made + self.new.spare ≡ pages_made self.old.made + self.old.spare }
    {
        if is_in_one_page(at, count) {
            self.make_page(at / GUEST_PAGE);
        } else {
            self.make_pages(at / GUEST_PAGE, touched(at, count));
        }
    }

    /// Makes those of `count` pages from page `first` on that were not made.
    #[cold]
    fn make_pages(&mut self, first: usize, count: usize)
        requires fits { first + count < 2 ^ 64 }
        requires inside { first + count ≤ length self.old.made }
        requires spare { absent self.old.made first count ≤ self.old.spare }
        ensures bytes { self.new.bytes ≡ self.old.bytes }
        ensures made { self.new.made ≡ put_at self.old.made first (replicate count true) }
        ensures spare { self.new.spare + absent self.old.made first count ≡ self.old.spare }
    {
        'pages: for i in 0..count {
            self.make_page(first + i);
        }
    }

    /// Makes a page if it was not made.
    #[inline(always)]
    fn make_page(&mut self, page: usize)
        requires inside { page < length self.old.made }
        requires spare { absent self.old.made page 1 ≤ self.old.spare }
        ensures bytes { self.new.bytes ≡ self.old.bytes }
        ensures made { self.new.made ≡ put_at self.old.made page (true ∷ []) }
        ensures spare { self.new.spare + absent self.old.made page 1 ≡ self.old.spare }
    {
        if self.page_numbers[page] == 0 {
            self.page_numbers[page] = self.arena.make();
        }
    }

    /// Puts bytes into pages that were made.
    #[inline(always)]
    fn put(&mut self, at: usize, bytes: &[u8])
        requires fits { at + length bytes.now < 2 ^ 64 }
        requires inside { at + length bytes.now ≤ length self.old.bytes }
        requires made { AreThere self.old.made at (length bytes.now) }
        ensures { self.new ≡ record self.old { bytes = put_at self.old.bytes at bytes.now } }
    {
        if is_in_one_page(at, bytes.len()) {
            self.put_in_page(at, bytes);
        } else {
            self.put_by_pages(at, bytes);
        }
    }

    /// Puts bytes into pages that were made, page by page.
    #[cold]
    fn put_by_pages(&mut self, at: usize, bytes: &[u8])
        requires fits { at + length bytes.now < 2 ^ 64 }
        requires inside { at + length bytes.now ≤ length self.old.bytes }
        requires made { AreThere self.old.made at (length bytes.now) }
        ensures { self.new ≡ record self.old { bytes = put_at self.old.bytes at bytes.now } }
    {
        let mut done = 0;
        'pages: while done < bytes.len() {
            let count = first_piece(at + done, bytes.len() - done);
            self.put_in_page(at + done, &bytes[done..done + count]);
            done += count;
        }
    }

    /// Puts bytes into a page that was made.
    #[inline(always)]
    fn put_in_page(&mut self, at: usize, bytes: &[u8])
        requires inside { at + length bytes.now ≤ length self.old.bytes }
        requires within { at % GUEST_PAGE + length bytes.now ≤ GUEST_PAGE }
        requires made { slice_index_or self.old.made (at / GUEST_PAGE) false ≡ true }
        ensures { self.new ≡ record self.old { bytes = put_at self.old.bytes at bytes.now } }
    {
        let number = self.page_numbers[at / GUEST_PAGE];
        self.arena.put(number, at % GUEST_PAGE, bytes);
    }

    /// Puts zeros into pages that were made, page by page.
    fn clear(&mut self, at: usize, count: usize)
        requires fits { at + count < 2 ^ 64 }
        requires inside { at + count ≤ length self.old.bytes }
        requires made { AreThere self.old.made at count }
        ensures { self.new ≡ record self.old { bytes = put_at self.old.bytes at (replicate count 0) } }
    {
        let mut done = 0;
        'pages: while done < count {
            let piece = first_piece(at + done, count - done);
            self.clear_in_page(at + done, piece);
            done += piece;
        }
    }

    /// Puts zeros into a page that was made.
    fn clear_in_page(&mut self, at: usize, count: usize)
        requires inside { at + count ≤ length self.old.bytes }
        requires within { at % GUEST_PAGE + count ≤ GUEST_PAGE }
        requires made { slice_index_or self.old.made (at / GUEST_PAGE) false ≡ true }
        ensures { self.new ≡ record self.old { bytes = put_at self.old.bytes at (replicate count 0) } }
    {
        let number = self.page_numbers[at / GUEST_PAGE];
        self.arena.clear(number, at % GUEST_PAGE, count);
    }
}
