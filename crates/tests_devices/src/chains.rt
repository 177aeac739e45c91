//! Chains over guest memory.

ghost use Rattle.std.specs.Prelude.{◌≤◌, length, IsTrue};
ghost use Rattle.vq_common.specs.Piece.{keeps_rules, readable};

use arrayvec::ArrayVec;
use guest_mem::GuestMem;
use std::process::Abort;
use vq_common::{Chain, Piece, are_pieces_valid};

/// A chain of pieces: the address of each, its length, and whether the device writes it.
#[tactic(auto, using(dev_console::proofs::ConsoleLaws::readable_fits))]
pub fn chain_of(rt: &impl Abort, mem: &GuestMem, pieces: &[(u64, u32, bool)]) -> Chain
    ensures rules { IsTrue (keeps_rules (length mem.now.bytes) result.pieces.items) }
    ensures fits { length (readable mem.now.bytes result.pieces.items) ≤ 8192 }
{
    let mut chain = Chain {
        id: 0,
        slots: 1,
        pieces: ArrayVec::new(),
    };
    for &(addr, len, write) in pieces {
        let fits = chain.pieces.try_push(Piece { addr, len, write }).is_ok();
        assert!(rt; fits);
    }
    assert!(rt; are_pieces_valid(mem.len(), chain.pieces.as_slice()));
    chain
}
