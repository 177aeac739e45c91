//! What a console does with a chain.

ghost use Rattle.std.specs.Prelude.{◌≡◌, ◌+◌, ◌≤◌, ◌++◌, length, take, IsTrue};
ghost use Rattle.vq_common.specs.Pages.{PAGES_OF_SCATTER};
ghost use Rattle.vq_common.specs.Piece.{keeps_rules, readable};
ghost use Rattle.dev_console.specs.Serve.{Serves, chain_answer};

use crate::state::ConState;
use guest_mem::GuestMem;
use vq_common::Chain;

/// Serves a chain of the receive queue (0) or the transmit queue (1), and answers how many bytes were written into it
/// (VIRTIO 1.2, 5.3.6). It makes at most `PAGES_OF_SCATTER` pages of guest memory, and takes no other memory.
///
/// A chain of the receive queue is served only where input waits.
pub fn serve_chain(mem: &mut GuestMem, chain: &Chain, queue: u16, state: &mut ConState) -> u32
    requires queue { queue ≤ 1 }
    requires waits { queue ≡ 0 → 1 ≤ length state.old.waiting }
    requires rules { IsTrue (keeps_rules (length mem.old.bytes) chain.now.pieces.items) }
    requires spare { queue ≡ 1 → length (readable mem.old.bytes chain.now.pieces.items) ≤ state.old.spare }
    requires pages { PAGES_OF_SCATTER ≤ mem.old.spare }
    ensures serves { Serves (chain_answer queue mem.old.bytes chain.now.pieces.items state.old) chain.now.pieces.items mem.old.bytes mem.new.bytes state.old state.new result }
    ensures pages { mem.old.spare ≤ mem.new.spare + PAGES_OF_SCATTER }
{
    if queue == 0 {
        receive(mem, chain, state)
    } else {
        transmit(mem, chain, state);
        0
    }
}

/// Writes the first bytes of the input that waits over the writable pieces, and answers their number.
#[tactic(auto, using(std::proofs::lemmas::List::take_min, std::proofs::lemmas::List::drop_min))]
fn receive(mem: &mut GuestMem, chain: &Chain, state: &mut ConState) -> u32
    requires rules { IsTrue (keeps_rules (length mem.old.bytes) chain.now.pieces.items) }
    requires pages { PAGES_OF_SCATTER ≤ mem.old.spare }
    ensures serves { Serves (chain_answer 0 mem.old.bytes chain.now.pieces.items state.old) chain.now.pieces.items mem.old.bytes mem.new.bytes state.old state.new result }
    ensures pages { mem.old.spare ≤ mem.new.spare + PAGES_OF_SCATTER }
{
    let bytes = state.waiting_bytes();
    let count = (chain.room() as usize).min(bytes.len());
    chain.scatter(mem, &bytes[..count]);
    state.drop_waiting(count);
    count as u32
}

/// Adds the bytes of the readable pieces to the console's.
fn transmit(mem: &GuestMem, chain: &Chain, state: &mut ConState)
    requires rules { IsTrue (keeps_rules (length mem.now.bytes) chain.now.pieces.items) }
    requires spare { length (readable mem.now.bytes chain.now.pieces.items) ≤ state.old.spare }
    ensures waiting { state.new.waiting ≡ state.old.waiting }
    ensures console { state.new.console ≡ state.old.console ++ readable mem.now.bytes chain.now.pieces.items }
    ensures spare { state.new.spare + length state.new.console ≡ state.old.spare + length state.old.console }
{
    'readable: for piece in chain.pieces.as_slice() {
        if !piece.write {
            state.write(mem, piece.addr, piece.len);
        }
    }
}
