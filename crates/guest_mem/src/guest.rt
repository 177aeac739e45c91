//! The memory of a guest.

ghost use Rattle.std.specs.Prelude.{◌≡◌, ◌+◌, ◌-◌, ◌*◌, ◌/◌, ◌≤◌, ◌<◌, ◌^◌, ◌↔◌, false, length, max, replicate, IsTrue, IsOk, IfOk, OnOk};
ghost use Rattle.guest_mem.specs.Memory.{IsByteList};
ghost use Rattle.guest_mem.specs.Pages.{pages_made};
ghost use Rattle.vt_types.specs.Access.{pages_touched};
ghost use Rattle.vt_types.specs.Limits.{GUEST_PAGE, LONGEST_MEMORY};

use crate::arena::PageArena;
use crate::{Memory, Outside};
use std::alloc::Global;
use std::marker::Model;
use vt_types::GUEST_PAGE;

mod reads;
mod writes;

/// The memory of a guest, by addresses from 0. Its length never changes.
///
/// It lies in pages of `GUEST_PAGE` bytes, the last of which may pass its end. A page is made when a write first touches it, out
/// of those that `reserve` set aside; one that was not made reads as zeros. So a memory takes as much of the host as was
/// written, and 4 bytes for each of its pages.
///
/// A range is inside exactly where its address and its length add up, without wrapping, to no more than the length of
/// the memory. So an empty range at the length is inside. No page is made for an empty range, nor for one that is not
/// inside.
#[derive(Drop)]
pub struct GuestMem {
    arena: PageArena,
    page_numbers: Vec<u32>,
    len: u64,
}

impl Model for GuestMem {
    ghost use Rattle.guest_mem.specs.Pages.{MemoryView};
    ghost use Rattle.guest_mem.specs.PageMap.{IsMapped, view_of};

    ghost Value = { MemoryView };

    ghost view = { λ m. view_of m.arena m.page_numbers.items m.len };

    ghost invariant = { λ m. IsMapped m.arena.pages m.page_numbers.items m.len };
}

/// The numbers of `count` pages that were not made.
fn unmade(alloc: Global, count: usize) -> Result<Vec<u32>, Memory>
    ensures { IfOk result (λ numbers. numbers.items ≡ replicate count 0) }
{
    Ok(vec![in alloc; 0; count]?)
}

impl GuestMem {
    /// A memory of `len` bytes, at most `LONGEST_MEMORY`. Each of them is zero, and no page is made or set aside.
    pub fn new(alloc: Global, len: u64) -> Result<GuestMem, Memory>
        requires { len ≤ LONGEST_MEMORY }
        ensures { IfOk result (λ m. m ≡ record { bytes = replicate len 0; made = replicate ((len + (GUEST_PAGE - 1)) / GUEST_PAGE) false; spare = 0 }) }
    {
        let count = (len as usize + (GUEST_PAGE - 1)) / GUEST_PAGE;
        Ok(GuestMem {
            arena: PageArena::new(alloc)?,
            page_numbers: unmade(alloc, count)?,
            len,
        })
    }

    /// How many bytes the memory has, each of them a number below 256.
    #[inline]
    pub fn len(&self) -> u64
        ensures value { result ≡ length self.now.bytes }
        ensures pages { result ≤ length self.now.made * GUEST_PAGE }
        ensures bytes { IsByteList self.now.bytes }
    {
        self.len
    }

    /// Whether the memory has no byte at all.
    #[inline]
    pub fn is_empty(&self) -> bool
        ensures { IsTrue result ↔ (length self.now.bytes ≡ 0) }
    {
        self.len() == 0
    }

    /// How many more pages writes may make before `reserve` is called again.
    #[inline]
    pub fn spare(&self) -> u32
        ensures { result ≡ self.now.spare }
    {
        self.arena.spare()
    }

    /// How many pages were made.
    #[inline]
    pub fn pages(&self) -> u32
        ensures { result ≡ pages_made self.now.made }
    {
        (self.arena.count() - 1) as u32
    }

    /// Sets pages aside for writes, so that at least `pages` are spare, and no more than there were or these. After want of
    /// memory the spare pages may have risen, and all else is as it was.
    pub fn reserve(&mut self, alloc: Global, pages: u32) -> Result<(), Memory>
        ensures bytes { self.new.bytes ≡ self.old.bytes }
        ensures made { self.new.made ≡ self.old.made }
        ensures spare { self.old.spare ≤ self.new.spare }
        ensures most { self.new.spare ≤ max self.old.spare pages }
        ensures ok { OnOk result (pages ≤ self.new.spare) }
        ensures enough { pages ≤ self.old.spare → IsOk result }
    {
        let _ = alloc;
        self.arena.reserve(pages)
    }

    /// The index of the first byte of a range that is inside.
    #[inline(always)]
    fn start_of(&self, addr: u64, count: usize) -> Result<usize, Outside>
        ensures cause { IsOk result ↔ (addr + count ≤ length self.now.bytes) }
        ensures value { IfOk result (λ at. at ≡ addr) }
        ensures pages { IfOk result (λ at. at / GUEST_PAGE + pages_touched at count ≤ length self.now.made) }
        ensures fits { IfOk result (λ at. at + count < 2 ^ 64) }
    {
        let len = self.len();
        let count = count as u64;
        if count <= len && addr <= len - count {
            Ok(addr as usize)
        } else {
            Err(Outside)
        }
    }
}
