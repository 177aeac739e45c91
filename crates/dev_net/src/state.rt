//! What a network device keeps.

ghost use Rattle.std.specs.Prelude.{◌≡◌, ℕ, ◌+◌, ◌-◌, ◌<◌, ◌≤◌, [], ◌∷◌, ◌++◌, length, max, Some, IfOk, IsOk, OnOk, IsTrue, vec_len, vec_capacity};
ghost use Rattle.std.specs.List.{slice_get};
ghost use Rattle.vt_types.specs.Limits.{LONGEST_BUFFER, LONGEST_FRAME};
ghost use Rattle.guest_mem.specs.Memory.{part};
ghost use Rattle.vq_common.specs.Piece.{keeps_rules, readable, readable_len};
ghost use Rattle.dev_net.specs.Network as spec;
ghost use Rattle.dev_net.specs.Network.{HEADER_LENGTH, with_frame};

use crate::sent::SentFrame;
use crate::serve::HEADER_SIZE;
use arrayvec::ArrayVec;
use guest_mem::GuestMem;
use std::alloc::{AllocError, Global};
use std::collections::VecDeque;
use std::marker::Model;
use vq_common::Chain;
use vt_types::{LONGEST_BUFFER, LONGEST_FRAME, MOST_EVENTS, Memory};

/// How many frames may wait (our own).
pub const MOST_WAITING: u32 = 64;

/// How many spare frames `reserve` sees to: one for each event of an operation, and one more (our own).
pub const FRAMES_SPARE: u32 = MOST_EVENTS + 1;

/// The most frames that wait are the definitions'. Does nothing.
pub fn limits_are_defined()
    ensures { MOST_WAITING ≡ spec.MOST_WAITING }
{}

/// A frame that waits.
pub(crate) type WaitingFrame = ArrayVec<u8, LONGEST_FRAME>;

/// The frames that wait, the frames that were sent, one behind the other, and how many more are spare.
#[derive(Drop)]
pub struct NetState {
    waiting: VecDeque<WaitingFrame>,
    bytes: Vec<u8>,
    sent: Vec<SentFrame>,
    spare: u32,
}

impl Model for NetState {
    ghost use Rattle.std.specs.Prelude.{◌+◌, ◌*◌, ◌<◌, ◌≤◌, ◌^◌, length, IsTrue, vec_len, vec_capacity};
    ghost use Rattle.std.specs.VecDeque.{deque_len, deque_capacity};
    ghost use Rattle.vt_types.specs.Limits.{LONGEST_BUFFER};
    ghost use Rattle.dev_net.specs.Network.{MOST_WAITING, NetworkState};
    ghost use Rattle.dev_net.specs.Frames.{waiting_frames, sent_frames, are_inside};

    ghost Value = { NetworkState };

    ghost view = { λ s. record { waiting = waiting_frames s.waiting.items; sent = sent_frames s.bytes.items s.sent.items; spare = s.spare } };

    ghost invariant = { λ s. (deque_len s.waiting ≤ MOST_WAITING) × (MOST_WAITING ≤ deque_capacity s.waiting) × (vec_len s.bytes + LONGEST_BUFFER * s.spare ≤ vec_capacity s.bytes) × (vec_len s.sent + s.spare ≤ vec_capacity s.sent) × (vec_len s.sent + s.spare < 2 ^ 32) × IsTrue (are_inside (length s.bytes.items) s.sent.items) };
}

impl NetState {
    /// A network device for which no frame waits and which sent none. Takes the memory for all frames that can wait.
    pub fn new(alloc: Global) -> Result<NetState, Memory>
        ensures { IfOk result (λ s. s ≡ record { waiting = []; sent = []; spare = 0 }) }
    {
        Ok(NetState {
            waiting: VecDeque::with_capacity(alloc, MOST_WAITING as usize)?,
            bytes: Vec::new(alloc),
            sent: Vec::new(alloc),
            spare: 0,
        })
    }

    /// Sees to it that at least `FRAMES_SPARE` frames are spare, and no more than there were or these. Where the number of
    /// sent frames would pass 32 bits it answers `Memory`; where so many are spare it does not.
    pub fn reserve(&mut self, alloc: Global) -> Result<(), Memory>
        ensures waiting { self.new.waiting ≡ self.old.waiting }
        ensures sent { self.new.sent ≡ self.old.sent }
        ensures spare { self.old.spare ≤ self.new.spare }
        ensures most { self.new.spare ≤ max self.old.spare FRAMES_SPARE }
        ensures ok { OnOk result (FRAMES_SPARE ≤ self.new.spare) }
        ensures enough { FRAMES_SPARE ≤ self.old.spare → IsOk result }
    {
        let _ = alloc;
        if self.spare < FRAMES_SPARE {
            if self.sent.len() > (u32::MAX - FRAMES_SPARE) as usize {
                return Err(AllocError);
            }
            self.bytes.reserve(FRAMES_SPARE as usize * LONGEST_BUFFER)?;
            self.sent.reserve(FRAMES_SPARE as usize)?;
            self.spare = FRAMES_SPARE;
        }
        Ok(())
    }

    /// How many frames wait.
    pub fn waiting(&self) -> u32
        ensures value { result ≡ length self.now.waiting }
        ensures most { result ≤ MOST_WAITING }
    {
        self.waiting.len() as u32
    }

    /// A frame comes. Where `MOST_WAITING` frames wait it is dropped.
    pub fn arrive(&mut self, frame: &[u8])
        requires { length frame.now ≤ LONGEST_FRAME }
        ensures { self.new ≡ record self.old { waiting = with_frame self.old.waiting frame.now } }
    {
        if self.waiting.len() < MOST_WAITING as usize {
            let mut copy = WaitingFrame::new();
            let _fits = copy.try_extend_from_slice(frame);
            let _pushed = self.waiting.push_back(copy);
        }
    }

    /// How many frames were sent.
    pub fn frames(&self) -> u32
        ensures { result ≡ length self.now.sent }
    {
        self.sent.len() as u32
    }

    /// The bytes of a sent frame, counted from 0.
    pub fn frame(&self, n: u32) -> &[u8]
        requires { n < length self.now.sent }
        ensures { slice_get self.now.sent n ≡ Some result.now }
    {
        let frame = self.sent[n as usize];
        &self.bytes[frame.start..frame.start + frame.len]
    }

    /// Takes the frame that waits longest.
    pub(crate) fn take_front(&mut self) -> WaitingFrame
        requires { 1 ≤ length self.old.waiting }
        ensures waiting { self.old.waiting ≡ result.items ∷ self.new.waiting }
        ensures sent { self.new.sent ≡ self.old.sent }
        ensures spare { self.new.spare ≡ self.old.spare }
    {
        self.waiting.pop_front().unwrap()
    }

    /// Sends a frame of `len` bytes: the readable bytes of a chain behind the header.
    pub(crate) fn send(&mut self, mem: &GuestMem, chain: &Chain, len: u32)
        requires rules { IsTrue (keeps_rules (length mem.now.bytes) chain.now.pieces.items) }
        requires whole { HEADER_LENGTH + len ≡ readable_len chain.now.pieces.items }
        requires few { len ≤ LONGEST_BUFFER }
        requires spare { 1 ≤ self.old.spare }
        ensures { self.new ≡ record self.old { sent = self.old.sent ++ part (readable mem.now.bytes chain.now.pieces.items) HEADER_LENGTH len ∷ []; spare = self.old.spare - 1 } }
    {
        let start = self.bytes.len();
        add_frame(&mut self.bytes, mem, chain, len);
        let len = len as usize;
        self.sent.push_reserved(SentFrame { start, len });
        self.spare -= 1;
    }
}

/// Adds the `len` readable bytes of a chain behind the header to a list that has spare bytes for them.
fn add_frame(bytes: &mut Vec<u8>, mem: &GuestMem, chain: &Chain, len: u32)
    requires rules { IsTrue (keeps_rules (length mem.now.bytes) chain.now.pieces.items) }
    requires whole { HEADER_LENGTH + len ≡ readable_len chain.now.pieces.items }
    requires few { len ≤ LONGEST_BUFFER }
    requires spare { vec_len bytes.old + LONGEST_BUFFER ≤ vec_capacity bytes.old }
    ensures bytes { bytes.new.items ≡ bytes.old.items ++ part (readable mem.now.bytes chain.now.pieces.items) HEADER_LENGTH len }
    ensures length { vec_len bytes.new ≡ vec_len bytes.old + len }
    ensures capacity { vec_capacity bytes.old ≤ vec_capacity bytes.new }
{
    let start = bytes.len();
    let _fits = bytes.resize(start + len as usize, 0);
    chain.read_at(mem, HEADER_SIZE, &mut bytes[start..]);
}
