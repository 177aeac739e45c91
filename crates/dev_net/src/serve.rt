//! What a network device does with a chain.

ghost use Rattle.std.specs.Prelude.{◌≡◌, ◌+◌, ◌≤◌, ◌++◌, length, replicate, IsTrue};
ghost use Rattle.vt_types.specs.Limits.{LONGEST_FRAME};
ghost use Rattle.vq_common.specs.Pages.{PAGES_OF_SCATTER};
ghost use Rattle.vq_common.specs.Piece.{keeps_rules, readable};
ghost use Rattle.dev_net.specs.Network.{RECEIVED_HEADER, with_sent};
ghost use Rattle.dev_net.specs.Serve.{Serves, chain_answer};

use crate::state::{NetState, WaitingFrame};
use arrayvec::ArrayVec;
use guest_mem::GuestMem;
use vq_common::Chain;
use vt_types::LONGEST_FRAME;

/// How many bytes the header in front of a frame has (VIRTIO 1.2, 5.1.6).
pub(crate) const HEADER_SIZE: u32 = 12;

/// The most bytes of a frame that waits, with its header.
const LONGEST_PACKET: usize = HEADER_SIZE as usize + LONGEST_FRAME;

/// The header of a frame that a device gives: no flags, no offloads, and one buffer (VIRTIO 1.2, 5.1.6.4).
const RECEIVED_HEADER: [u8; 12] = [0, 0, 0, 0, 0, 0, 0, 0, 0, 0, 1, 0];

/// Serves a chain of the receive queue (0) or the transmit queue (1), and answers how many bytes were written into it
/// (VIRTIO 1.2, 5.1.6). None exactly where the front frame does not fit behind its header: it is dropped, and memory
/// stays. It makes at most `PAGES_OF_SCATTER` pages of guest memory, and takes no other memory.
///
/// A chain of the receive queue is served only where a frame waits.
pub fn serve_chain(
    mem: &mut GuestMem,
    chain: &Chain,
    queue: u16,
    state: &mut NetState,
) -> Option<u32>
    requires queue { queue ≤ 1 }
    requires waits { queue ≡ 0 → 1 ≤ length state.old.waiting }
    requires rules { IsTrue (keeps_rules (length mem.old.bytes) chain.now.pieces.items) }
    requires spare { queue ≡ 1 → 1 ≤ state.old.spare }
    requires pages { PAGES_OF_SCATTER ≤ mem.old.spare }
    ensures serves { Serves (chain_answer queue mem.old.bytes chain.now.pieces.items state.old) chain.now.pieces.items mem.old.bytes mem.new.bytes state.old state.new result }
    ensures pages { mem.old.spare ≤ mem.new.spare + PAGES_OF_SCATTER }
{
    if queue == 0 {
        receive(mem, chain, state)
    } else {
        transmit(mem, chain, state);
        Some(0)
    }
}

/// A frame with its header.
fn with_header(frame: &[u8]) -> ArrayVec<u8, LONGEST_PACKET>
    requires { length frame.now ≤ LONGEST_FRAME }
    ensures { result.items ≡ RECEIVED_HEADER ++ frame.now }
{
    let mut packet = ArrayVec::new();
    let _header = packet.try_extend_from_slice(&RECEIVED_HEADER);
    let _frame = packet.try_extend_from_slice(frame);
    packet
}

/// Takes the front frame, and where the chain has room for them writes its header and its bytes over the writable pieces.
fn receive(mem: &mut GuestMem, chain: &Chain, state: &mut NetState) -> Option<u32>
    requires rules { IsTrue (keeps_rules (length mem.old.bytes) chain.now.pieces.items) }
    requires waits { 1 ≤ length state.old.waiting }
    requires pages { PAGES_OF_SCATTER ≤ mem.old.spare }
    ensures serves { Serves (chain_answer 0 mem.old.bytes chain.now.pieces.items state.old) chain.now.pieces.items mem.old.bytes mem.new.bytes state.old state.new result }
    ensures pages { mem.old.spare ≤ mem.new.spare + PAGES_OF_SCATTER }
{
    let frame = state.take_front();
    let count = HEADER_SIZE + frame.len() as u32;
    if chain.room() < count {
        return None;
    }
    let packet = with_header(frame.as_slice());
    chain.scatter(mem, packet.as_slice());
    Some(count)
}

/// Sends the readable bytes behind the header, where a whole header is there.
fn transmit(mem: &GuestMem, chain: &Chain, state: &mut NetState)
    requires rules { IsTrue (keeps_rules (length mem.now.bytes) chain.now.pieces.items) }
    requires spare { 1 ≤ state.old.spare }
    ensures waiting { state.new.waiting ≡ state.old.waiting }
    ensures sent { state.new.sent ≡ with_sent state.old.sent (readable mem.now.bytes chain.now.pieces.items) }
    ensures spare { state.new.spare + length state.new.sent ≡ state.old.spare + length state.old.sent }
{
    let size = chain.readable_len();
    if size >= HEADER_SIZE {
        state.send(mem, chain, size - HEADER_SIZE);
    }
}
