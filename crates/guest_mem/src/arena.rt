//! Pages of bytes by number, made one after the other in room that was reserved for them.

ghost use Rattle.std.specs.Prelude.{◌≡◌, ◌+◌, ◌-◌, ◌≤◌, ◌<◌, ◌^◌, ◌∷◌, [], length, max, replicate, vec_capacity, IsOk, IfOk, OnOk};
ghost use Rattle.guest_mem.specs.Memory.{put_at};
ghost use Rattle.guest_mem.specs.Arena.{zero_page, page, with_page, pages_with};
ghost use Rattle.vt_types.specs.Limits.{GUEST_PAGE};

use crate::Memory;
use std::alloc::Global;
use std::marker::Model;
use vt_types::GUEST_PAGE;

/// Bytes between two pages: one line of a processor's cache.
const GAP: usize = 64;

/// A page, and the gap behind it. Bytes at the same location of two pages that lie one after the other are so in different
/// sets of a processor's cache.
#[derive(Drop)]
pub struct Frame {
    bytes: [u8; GUEST_PAGE],
    _gap: [u8; GAP],
}

impl Frame {
    /// Copies `bytes` into the page, `from` bytes behind its start.
    #[inline(always)]
    fn copy(&mut self, from: usize, bytes: &[u8])
        requires { from + length bytes.now ≤ GUEST_PAGE }
        ensures { self.new.bytes ≡ put_at self.old.bytes from bytes.now }
    {
        self.bytes[from..from + bytes.len()].copy_from_slice(bytes);
    }

    /// Puts `bytes` into the page, `from` bytes behind its start.
    ///
    /// A descriptor has 16 bytes, which were written just before as two halves: a processor would wait if it read them at
    /// once.
    #[inline(always)]
    fn put(&mut self, from: usize, bytes: &[u8])
        requires { from + length bytes.now ≤ GUEST_PAGE }
        ensures { self.new.bytes ≡ put_at self.old.bytes from bytes.now }
    {
        if bytes.len() == 16 {
            self.copy(from, &bytes[..8]);
            self.copy(from + 8, &bytes[8..]);
        } else {
            self.copy(from, bytes);
        }
    }

    /// Puts `count` zeros into the page, `from` bytes behind its start.
    fn clear(&mut self, from: usize, count: usize)
        requires { from + count ≤ GUEST_PAGE }
        ensures { self.new.bytes ≡ put_at self.old.bytes from (replicate count 0) }
    {
        self.bytes[from..from + count].fill(0);
    }
}

/// Pages of guest memory, each under the number that it was given when it was made.
///
/// Number 0 stands for a page of zeros from the start; nothing is written there. Pages to come are reserved as capacity,
/// which takes no memory of the host until they are made.
#[derive(Drop)]
pub struct PageArena {
    frames: Vec<Frame>,
    spare: u32,
}

impl Model for PageArena {
    ghost use Rattle.std.specs.Prelude.{◌+◌, ◌≤◌, length, map, vec_capacity};
    ghost use Rattle.guest_mem.specs.Arena.{ArenaView};

    ghost Value = { ArenaView };

    ghost view = { λ arena. record { pages = map (λ frame. frame.bytes) arena.frames.items; spare = arena.spare } };

    ghost invariant = { λ arena. length arena.frames.items + arena.spare ≤ vec_capacity arena.frames };
}

/// A page of zeros.
#[tactic(auto, unfolding(crate::specs::Arena::zero_page))]
fn zeros() -> Frame
    ensures { result.bytes ≡ zero_page }
{
    Frame {
        bytes: [0; GUEST_PAGE],
        _gap: [0; GAP],
    }
}

impl PageArena {
    /// An arena with the page of zeros alone, and no page to spare.
    pub fn new(alloc: Global) -> Result<PageArena, Memory>
        ensures { IfOk result (λ arena. arena ≡ record { pages = zero_page ∷ []; spare = 0 }) }
    {
        let mut frames = Vec::with_capacity(alloc, 1)?;
        frames.push_reserved(zeros());
        Ok(PageArena { frames, spare: 0 })
    }

    /// How many pages there are, the page of zeros among them.
    pub fn count(&self) -> usize
        ensures { result ≡ length self.now.pages }
    {
        self.frames.len()
    }

    /// How many pages may be made before more are reserved.
    #[inline]
    pub fn spare(&self) -> u32
        ensures { result ≡ self.now.spare }
    {
        self.spare
    }

    /// Sets pages aside, so that at least `count` are spare, and no more than there were or these. After want of memory the
    /// spare pages may have risen, and all else is as it was.
    pub fn reserve(&mut self, count: u32) -> Result<(), Memory>
        ensures pages { self.new.pages ≡ self.old.pages }
        ensures spare { self.old.spare ≤ self.new.spare }
        ensures most { self.new.spare ≤ max self.old.spare count }
        ensures ok { OnOk result (count ≤ self.new.spare) }
        ensures enough { count ≤ self.old.spare → IsOk result }
    {
        if self.spare < count {
            self.frames.reserve(count as usize)?;
            self.spare = count;
        }
        Ok(())
    }

    /// Makes a page of zeros, and answers its number.
    pub fn make(&mut self) -> u32
        requires spare { 0 < self.old.spare }
        requires numbers { length self.old.pages < 2 ^ 32 }
        ensures number { result ≡ length self.old.pages }
        ensures made { self.new ≡ with_page self.old }
    {
        let number = self.frames.len() as u32;
        self.frames.push_reserved(zeros());
        self.spare -= 1;
        number
    }

    /// The bytes of a page.
    #[inline]
    pub fn page(&self, number: u32) -> &[u8; GUEST_PAGE]
        requires { number < length self.now.pages }
        ensures { result.now ≡ page self.now.pages number }
    {
        &self.frames[number as usize].bytes
    }

    /// Puts `bytes` into a page, `from` bytes behind its start.
    #[inline(always)]
    pub fn put(&mut self, number: u32, from: usize, bytes: &[u8])
        requires number { number < length self.old.pages }
        requires inside { from + length bytes.now ≤ GUEST_PAGE }
        ensures { self.new ≡ record self.old { pages = pages_with self.old.pages number from bytes.now } }
    {
        self.frames[number as usize].put(from, bytes);
    }

    /// Puts `count` zeros into a page, `from` bytes behind its start.
    pub fn clear(&mut self, number: u32, from: usize, count: usize)
        requires number { number < length self.old.pages }
        requires inside { from + count ≤ GUEST_PAGE }
        ensures { self.new ≡ record self.old { pages = pages_with self.old.pages number from (replicate count 0) } }
    {
        self.frames[number as usize].clear(from, count);
    }
}
