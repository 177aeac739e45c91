//! Serving one buffer of a queue of the console.

ghost use Rattle.std.specs.Prelude.{◌≡◌, ℕ, ◌+◌, ◌≤◌, Some, length, slice_get};
ghost use Rattle.vt_types.specs.declared.device.Dev.TheVariants.{Con};
ghost use Rattle.vt_types.specs.Limits.{LONGEST_BUFFER};
ghost use Rattle.vq_common.specs.Chain.{chain_value};
ghost use Rattle.vq_common.specs.Piece.{scatter};
ghost use Rattle.dev_console.specs.Serve.{chain_answer};
ghost use Rattle.dev_core.specs.Device.{DeviceState, with_queue};
ghost use Rattle.dev_core.specs.Pages.{PAGES_OF_SERVE};
ghost use Rattle.dev_core.specs.Ring.{given};
ghost use Rattle.dev_core.specs.RingValue.{ring_value};
ghost use Rattle.dev_core.specs.Serve.{Answers, IsTaken, broken_by, devices_of, serve, serve_ring};

use crate::device::Device;
use crate::queue::Queue;
use crate::ring::Ring;
use crate::served::Served;
use dev_console::{ConState, serve_chain};
use guest_mem::GuestMem;
use vq_common::{Chain, Take};

/// Answers a chain that was taken from a ring, and gives it back.
fn answer(
    mem: &mut GuestMem,
    ring: &mut Ring,
    chain: &Chain,
    number: u16,
    state: &mut ConState,
) -> Served
    requires number { number ≤ 1 }
    requires waits { number ≡ 0 → 1 ≤ length state.old.waiting }
    requires chain { IsTaken (length mem.old.bytes) (ring_value ring.old) (chain_value chain.now) }
    requires console { LONGEST_BUFFER ≤ state.old.spare }
    requires pages { PAGES_OF_SERVE ≤ mem.old.spare }
    ensures answers { Answers (chain_answer number mem.old.bytes chain.now.pieces.items state.old) (given (ring_value ring.old).kind (scatter mem.old.bytes chain.now.pieces.items (chain_answer number mem.old.bytes chain.now.pieces.items state.old).written) (ring_value ring.old).queue (chain_value chain.now) (length (chain_answer number mem.old.bytes chain.now.pieces.items state.old).written)) (ring_value ring.old) (ring_value ring.new) mem.new.bytes result state.old state.new }
    ensures console { state.old.spare ≤ state.new.spare + LONGEST_BUFFER }
    ensures pages { mem.old.spare ≤ mem.new.spare + PAGES_OF_SERVE }
{
    let len = serve_chain(mem, chain, number, state);
    if ring.give(mem, chain, len) {
        Served::Signal
    } else {
        Served::Quiet
    }
}

/// Serves a queue that the console has: where it is set and kicked, its ring shows what comes next. Where that is nothing
/// the kick ends.
fn serve_queue(mem: &mut GuestMem, queue: &mut Queue, number: u16, state: &mut ConState) -> Served
    requires number { number ≤ 1 }
    requires waits { number ≡ 0 → 1 ≤ length state.old.waiting }
    requires console { LONGEST_BUFFER ≤ state.old.spare }
    requires pages { PAGES_OF_SERVE ≤ mem.old.spare }
    ensures serves { (con : DeviceState) (cols rows : ℕ) → slice_get con.queues number ≡ Some queue.old → serve_ring (devices_of con cols rows state.old) number queue.old queue.old.ring mem.old.bytes ≡ record { served = result; devices = devices_of (broken_by result (with_queue con number queue.new)) cols rows state.new; memory = mem.new.bytes } }
    ensures spare { state.new.spare + length state.new.console ≡ state.old.spare + length state.old.console }
    ensures console { state.old.spare ≤ state.new.spare + LONGEST_BUFFER }
    ensures pages { mem.old.spare ≤ mem.new.spare + PAGES_OF_SERVE }
{
    let Some(ring) = &mut queue.ring else {
        return Served::Idle;
    };
    if !queue.kick {
        return Served::Idle;
    }
    match ring.take(mem) {
        Take::Empty => {
            queue.kick = false;
            Served::Idle
        }
        Take::Bad => Served::Bad,
        Take::Front(chain) => answer(mem, ring, &chain, number, state),
    }
}

/// Serves one buffer of a queue of the console, which has two: of the receive queue only where input waits.
pub fn serve_console(
    mem: &mut GuestMem,
    con: &mut Device,
    state: &mut ConState,
    number: u16,
) -> Served
    requires queues { length con.old.queues ≡ 2 }
    requires console { LONGEST_BUFFER ≤ state.old.spare }
    requires pages { PAGES_OF_SERVE ≤ mem.old.spare }
    ensures serves { (cols rows : ℕ) → serve (devices_of con.old cols rows state.old) Con number mem.old.bytes ≡ record { served = result; devices = devices_of con.new cols rows state.new; memory = mem.new.bytes } }
    ensures queues { length con.new.queues ≡ 2 }
    ensures spare { state.new.spare + length state.new.console ≡ state.old.spare + length state.old.console }
    ensures console { state.old.spare ≤ state.new.spare + LONGEST_BUFFER }
    ensures pages { mem.old.spare ≤ mem.new.spare + PAGES_OF_SERVE }
{
    let has_work = number != 0 || state.waiting() > 0;
    if !con.is_driven() || !has_work || !con.has_queue(number) {
        return Served::Idle;
    }
    let served = serve_queue(mem, &mut con.queues[number as usize], number, state);
    if let Served::Bad = served {
        con.needs_reset();
    }
    served
}
