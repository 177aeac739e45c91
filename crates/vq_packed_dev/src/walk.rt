//! The chain that begins at a position of the ring.

ghost use Rattle.std.specs.Prelude.{◌≡◌, ◌+◌, ◌*◌, ◌<◌, ◌≤◌, [], false, length};
ghost use Rattle.vq_common.specs.Chain.{chain_if_valid, shown_if, walked};
ghost use Rattle.vq_common.specs.Descriptor.{is_indirect};
ghost use Rattle.vq_common.specs.PackedDescriptor.{packed_descriptor_at};
ghost use Rattle.vq_packed_dev.specs.Walk.{packed_chain_shown, chain_with, pieces_of_table};

use arrayvec::ArrayVec;
use guest_mem::GuestMem;
use vq_common::{
    Chain, PackedDescriptor, Piece, Position, RingCfg, Take, add_table, are_pieces_valid,
};
use vt_types::MOST_PIECES;

/// Where a chain ends: the id of its last descriptor, and the slots that it takes of the ring.
#[derive(Clone, Copy, Debug, PartialEq, Eq)]
pub struct ChainEnd {
    pub id: u16,
    pub slots: u16,
}

/// The descriptor at a location of the ring.
pub fn descriptor_at(mem: &GuestMem, cfg: &RingCfg, location: u16) -> PackedDescriptor
    requires inside { cfg.now.desc + 16 * cfg.now.size ≤ length mem.now.bytes }
    requires location { location < cfg.now.size }
    ensures { result ≡ packed_descriptor_at mem.now.bytes cfg.now.desc location }
{
    match PackedDescriptor::read(mem, cfg.desc, location) {
        Some(descriptor) => descriptor,
        None => unreachable!(),
    }
}

/// Adds the pieces of the table that the only descriptor of a chain names. None where the chain is malformed.
fn add_pieces_of_table(
    mem: &GuestMem,
    cfg: &RingCfg,
    only: PackedDescriptor,
    pieces: &mut ArrayVec<Piece, MOST_PIECES>,
) -> Option<ChainEnd>
    requires { pieces.old.items ≡ [] }
    ensures { chain_with (length mem.now.bytes) result pieces.new.items ≡ chain_if_valid (length mem.now.bytes) only.id 1 (pieces_of_table mem.now.bytes cfg.now only) }
{
    if !cfg.indirect || only.has_next() {
        return None;
    }
    if add_table(mem, only.addr, only.len, cfg.size, false, pieces) {
        Some(ChainEnd {
            id: only.id,
            slots: 1,
        })
    } else {
        None
    }
}

/// Adds the pieces of the descriptors from a position on, the first of which names no table. None where the chain is
/// malformed.
fn add_pieces_from(
    mem: &GuestMem,
    cfg: &RingCfg,
    first_position: Position,
    first: PackedDescriptor,
    pieces: &mut ArrayVec<Piece, MOST_PIECES>,
) -> Option<ChainEnd>
    requires inside { cfg.now.desc + 16 * cfg.now.size ≤ length mem.now.bytes }
    requires location { first_position.location < cfg.now.size }
    requires first { first ≡ packed_descriptor_at mem.now.bytes cfg.now.desc first_position.location }
    requires direct { is_indirect first.flags ≡ false }
    requires none { pieces.old.items ≡ [] }
    ensures { chain_with (length mem.now.bytes) result pieces.new.items ≡ packed_chain_shown mem.now.bytes cfg.now first_position.location }
{
    let mut position = first_position;
    let mut next = first;
    'descriptors: for index in 0..cfg.size {
        if next.is_indirect() {
            return None;
        }
        if pieces.try_push(next.piece()).is_err() {
            return None;
        }
        if !next.has_next() {
            return Some(ChainEnd {
                id: next.id,
                slots: index + 1,
            });
        }
        position = position.advance(cfg.size, 1);
        next = descriptor_at(mem, cfg, position.location);
    }
    None
}

/// Adds the pieces of the chain that begins at a position. None where the chain is malformed.
fn add_pieces(
    mem: &GuestMem,
    cfg: &RingCfg,
    position: Position,
    first: PackedDescriptor,
    pieces: &mut ArrayVec<Piece, MOST_PIECES>,
) -> Option<ChainEnd>
    requires inside { cfg.now.desc + 16 * cfg.now.size ≤ length mem.now.bytes }
    requires location { position.location < cfg.now.size }
    requires first { first ≡ packed_descriptor_at mem.now.bytes cfg.now.desc position.location }
    requires none { pieces.old.items ≡ [] }
    ensures { chain_with (length mem.now.bytes) result pieces.new.items ≡ packed_chain_shown mem.now.bytes cfg.now position.location }
{
    if first.is_indirect() {
        add_pieces_of_table(mem, cfg, first, pieces)
    } else {
        add_pieces_from(mem, cfg, position, first, pieces)
    }
}

/// Finds the chain that begins at a position, where `chain` has no pieces yet, and answers whether there is one that keeps
/// the rules.
fn find_chain(
    mem: &GuestMem,
    cfg: &RingCfg,
    position: Position,
    first: PackedDescriptor,
    chain: &mut Chain,
) -> bool
    requires inside { cfg.now.desc + 16 * cfg.now.size ≤ length mem.now.bytes }
    requires location { position.location < cfg.now.size }
    requires first { first ≡ packed_descriptor_at mem.now.bytes cfg.now.desc position.location }
    requires none { chain.old.pieces.items ≡ [] }
    ensures { shown_if result chain.new ≡ packed_chain_shown mem.now.bytes cfg.now position.location }
{
    let Some(end) = add_pieces(mem, cfg, position, first, &mut chain.pieces) else {
        return false;
    };
    chain.id = end.id;
    chain.slots = end.slots;
    are_pieces_valid(mem.len(), chain.pieces.as_slice())
}

/// What the ring shows at a position with an available descriptor: the chain that begins there, or something malformed.
pub fn chain_at(mem: &GuestMem, cfg: &RingCfg, position: Position, first: PackedDescriptor) -> Take
    requires inside { cfg.now.desc + 16 * cfg.now.size ≤ length mem.now.bytes }
    requires location { position.location < cfg.now.size }
    requires first { first ≡ packed_descriptor_at mem.now.bytes cfg.now.desc position.location }
    ensures { walked result ≡ packed_chain_shown mem.now.bytes cfg.now position.location }
{
    let mut chain = Chain {
        id: first.id,
        slots: 0,
        pieces: ArrayVec::new(),
    };
    if find_chain(mem, cfg, position, first, &mut chain) {
        Take::Front(chain)
    } else {
        Take::Bad
    }
}
