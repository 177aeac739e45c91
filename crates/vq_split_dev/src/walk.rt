//! The chain that begins at a head.

ghost use Rattle.std.specs.Prelude.{◌≡◌, ◌+◌, ◌*◌, ◌≤◌, [], ◌∷◌, true, length};
ghost use Rattle.vq_common.specs.Chain.{shown_if, walked};
ghost use Rattle.vq_common.specs.Descriptor.{is_indirect};
ghost use Rattle.vq_common.specs.Table.{pieces_if, pieces_with};
ghost use Rattle.vq_split_dev.specs.Walk.{WalksTo, chain_pieces, chain_shown};

use arrayvec::ArrayVec;
use guest_mem::GuestMem;
use vq_common::{Chain, Descriptor, Piece, RingCfg, Take, WalkStep, add_table, are_pieces_valid};
use vt_types::MOST_PIECES;

/// Adds the pieces of the table that the last descriptor of a chain names, and answers whether it did. A descriptor with
/// NEXT names none, and neither does one of a ring without VIRTIO_F_INDIRECT_DESC.
fn add_last_table(
    mem: &GuestMem,
    cfg: &RingCfg,
    last: Descriptor,
    pieces: &mut ArrayVec<Piece, MOST_PIECES>,
) -> bool
    requires { is_indirect last.flags ≡ true }
    ensures { pieces_if result pieces.new.items ≡ pieces_with pieces.old.items (chain_pieces mem.now.bytes cfg.now (last ∷ [])) }
{
    cfg.indirect && !last.has_next() && add_table(mem, last.addr, last.len, cfg.size, true, pieces)
}

/// Finds the pieces of the chain that begins at a head, and answers how many descriptors of the ring it takes. None
/// where the chain is malformed; whether its pieces keep the rules isn't tested.
fn walk(
    mem: &GuestMem,
    cfg: &RingCfg,
    head: u16,
    pieces: &mut ArrayVec<Piece, MOST_PIECES>,
) -> Option<u16>
    requires none { pieces.old.items ≡ [] }
    requires table { cfg.now.desc + 16 * cfg.now.size ≤ length mem.now.bytes }
    ensures { WalksTo mem.now.bytes cfg.now head result pieces.new.items }
{
    let mut location = head;
    'descriptors: for index in 0..cfg.size {
        match WalkStep::take(mem, cfg.desc, cfg.size, location, pieces) {
            WalkStep::Next(next) => location = next,
            WalkStep::End => return Some(index + 1),
            WalkStep::Table(last) => {
                let added = add_last_table(mem, cfg, last, pieces);
                return if added { Some(index + 1) } else { None };
            }
            WalkStep::Bad => return None,
        }
    }
    None
}

/// Finds the chain that begins at the id of `chain`, which has no pieces yet, and answers whether there is one that keeps
/// the rules.
fn find_chain(mem: &GuestMem, cfg: &RingCfg, chain: &mut Chain) -> bool
    requires none { chain.old.pieces.items ≡ [] }
    requires table { cfg.now.desc + 16 * cfg.now.size ≤ length mem.now.bytes }
    ensures { shown_if result chain.new ≡ chain_shown mem.now.bytes cfg.now chain.old.id }
{
    let Some(slots) = walk(mem, cfg, chain.id, &mut chain.pieces) else {
        return false;
    };
    chain.slots = slots;
    are_pieces_valid(mem.len(), chain.pieces.as_slice())
}

/// What the ring shows at a head that it has: the chain of that head, or something malformed.
pub fn chain_at(mem: &GuestMem, cfg: &RingCfg, head: u16) -> Take
    requires { cfg.now.desc + 16 * cfg.now.size ≤ length mem.now.bytes }
    ensures { walked result ≡ chain_shown mem.now.bytes cfg.now head }
{
    let mut chain = Chain {
        id: head,
        slots: 0,
        pieces: ArrayVec::new(),
    };
    if find_chain(mem, cfg, &mut chain) {
        Take::Front(chain)
    } else {
        Take::Bad
    }
}
