//! What a console keeps.

ghost use Rattle.std.specs.Prelude.{◌≡◌, ℕ, ◌+◌, ◌-◌, ◌≤◌, [], ◌∷◌, ◌++◌, length, max, drop, IfOk, IsOk, OnOk, OnErr};
ghost use Rattle.guest_mem.specs.Memory.{part};
ghost use Rattle.dev_console.specs.Console as spec;
ghost use Rattle.dev_console.specs.Console.{with_input};

use guest_mem::GuestMem;
use std::alloc::Global;
use std::marker::Model;
use vt_types::{LONGEST_BUFFER, MOST_EVENTS, Memory};

/// The most bytes of input that wait (our own).
pub const MOST_WAITING: u32 = 4096;

/// The spare bytes of the console that `reserve` sees to: those of the longest buffer for each event of an operation, and
/// for one more (our own).
pub const CONSOLE_SPARE: u32 = (MOST_EVENTS + 1) * LONGEST_BUFFER as u32;

/// The most input that waits is the definitions'. Does nothing.
pub fn limits_are_defined()
    ensures { MOST_WAITING ≡ spec.MOST_WAITING }
{}

/// The input that waits, the bytes that were written, and how many more are spare.
#[derive(Drop)]
pub struct ConState {
    waiting: Vec<u8>,
    console: Vec<u8>,
    spare: usize,
}

impl Model for ConState {
    ghost use Rattle.std.specs.Prelude.{◌+◌, ◌≤◌, vec_len, vec_capacity};
    ghost use Rattle.dev_console.specs.Console.{ConsoleState, MOST_WAITING};

    ghost Value = { ConsoleState };

    ghost view = { λ s. record { waiting = s.waiting.items; console = s.console.items; spare = s.spare } };

    ghost invariant = { λ s. (vec_len s.waiting ≤ MOST_WAITING) × (MOST_WAITING ≤ vec_capacity s.waiting) × (vec_len s.console + s.spare ≤ vec_capacity s.console) };
}

impl ConState {
    /// A console for which no input waits and to which nothing was written. Takes the memory for all input that can wait.
    pub fn new(alloc: Global) -> Result<ConState, Memory>
        ensures { IfOk result (λ s. s ≡ record { waiting = []; console = []; spare = 0 }) }
    {
        Ok(ConState {
            waiting: Vec::with_capacity(alloc, MOST_WAITING as usize)?,
            console: Vec::new(alloc),
            spare: 0,
        })
    }

    /// Sees to it that there are at least `CONSOLE_SPARE` spare bytes, and no more than there were or these. Where there are
    /// so many it does not answer `Memory`.
    pub fn reserve(&mut self, alloc: Global) -> Result<(), Memory>
        ensures waiting { self.new.waiting ≡ self.old.waiting }
        ensures console { self.new.console ≡ self.old.console }
        ensures spare { self.old.spare ≤ self.new.spare }
        ensures most { self.new.spare ≤ max self.old.spare CONSOLE_SPARE }
        ensures ok { OnOk result (CONSOLE_SPARE ≤ self.new.spare) }
        ensures enough { CONSOLE_SPARE ≤ self.old.spare → IsOk result }
    {
        let _ = alloc;
        let spare = CONSOLE_SPARE as usize;
        if self.spare < spare {
            self.console.reserve(spare)?;
            self.spare = spare;
        }
        Ok(())
    }

    /// How many bytes of input wait.
    pub fn waiting(&self) -> u32
        ensures value { result ≡ length self.now.waiting }
        ensures most { result ≤ MOST_WAITING }
    {
        self.waiting.len() as u32
    }

    /// The bytes that were written.
    pub fn console(&self) -> &[u8]
        ensures { result.now ≡ self.now.console }
    {
        self.console.as_slice()
    }

    /// Input comes. What would pass `MOST_WAITING` bytes is dropped.
    pub fn key(&mut self, bytes: &[u8])
        ensures { self.new ≡ record self.old { waiting = with_input self.old.waiting bytes.now } }
    {
        let free = MOST_WAITING as usize - self.waiting.len();
        let count = bytes.len().min(free);
        let _fits = self.waiting.extend_from_slice(&bytes[..count]);
    }

    /// The driver writes a byte with no queue (VIRTIO 1.2, 5.3.4, "emerg_wr").
    pub fn emerg(&mut self, byte: u8)
        requires { 1 ≤ self.old.spare }
        ensures { self.new ≡ record self.old { console = self.old.console ++ byte ∷ []; spare = self.old.spare - 1 } }
    {
        let _fits = self.console.push(byte);
        self.spare -= 1;
    }

    /// The input that waits.
    pub(crate) fn waiting_bytes(&self) -> &[u8]
        ensures value { result.now ≡ self.now.waiting }
        ensures most { length result.now ≤ MOST_WAITING }
    {
        self.waiting.as_slice()
    }

    /// Forgets the first bytes of the input that waits.
    pub(crate) fn drop_waiting(&mut self, count: usize)
        requires { count ≤ length self.old.waiting }
        ensures { self.new ≡ record self.old { waiting = drop count self.old.waiting } }
    {
        self.waiting.drain(..count);
    }

    /// Adds bytes of guest memory to the console's.
    pub(crate) fn write(&mut self, mem: &GuestMem, addr: u64, len: u32)
        requires inside { addr + len ≤ length mem.now.bytes }
        requires spare { len ≤ self.old.spare }
        ensures { self.new ≡ record self.old { console = self.old.console ++ part mem.now.bytes addr len; spare = self.old.spare - len } }
    {
        let start = self.console.len();
        let end = start + len as usize;
        let _fits = self.console.resize(end, 0);
        let _inside = mem.read(addr, &mut self.console[start..]);
        self.spare -= len as usize;
    }
}
