//! The two ends of a packed virtqueue over one guest memory (VIRTIO 1.2, 2.8): what the driver posts is what the device
//! is shown.
#![tactic(auto)]

ghost use Rattle.std.specs.Prelude.{◌≡◌, ◌+◌, ◌≤◌, IsTrue, OnOk, nat_le, false, is_ok, length};
ghost use Rattle.vt_types.specs.Operation.{posted_buffer};
ghost use Rattle.vt_types.specs.Program.{run};
ghost use Rattle.vq_common.specs.Buffer.{IsPostable};
ghost use Rattle.vq_common.specs.Queue.{DeviceQueue, KeepsBlock, cost_of_post, free_slots, holds_tag, post_program, slots_of};
ghost use Rattle.vq_packed_drv.specs.Post.{packed_post_accesses, packed_posted};
ghost use Rattle.memory_port.specs.MemoryTable.{memory_table};
ghost use Rattle.vq_split_pair.specs.Pair.{IsInMemory};
ghost use Rattle.vq_packed_pair.specs.Pair.{HasTakenAll, ShowsNext};

use memory_port::MemoryPort;
use vq_common::{DriverEnd, Full};
use vq_packed_drv::PackedDriver;
use vt_types::PostBuf;

/// Posts a buffer over guest memory, in which the queue block lies whole; the buffer is indirect only where the ring
/// has INDIRECT_DESC, and the pages that its accesses may make are spare. `Full` comes exactly where the buffer's slots
/// exceed the free ones, and changes nothing. Else, once the chains before it are taken, the buffer is the chain that
/// the ring shows next: its readable bytes, its room and its slots (VIRTIO 1.2, 2.8.6, 2.8.7 and 2.8.21).
pub fn post(driver: &mut PackedDriver, port: &mut MemoryPort, buf: &PostBuf) -> Result<(), Full>
    requires ring { IsInMemory (length port.old.memory.bytes) driver.old.queue.cfg driver.old.queue.base }
    requires postable { IsPostable (posted_buffer buf.now) }
    requires tag { holds_tag buf.now.tag driver.old.queue.unreaped ≡ false }
    requires table { IsTrue buf.now.indirect → length buf.now.cuts.items ≤ driver.old.queue.cfg.size }
    requires feature { IsTrue buf.now.indirect → IsTrue driver.old.queue.cfg.indirect }
    requires pages { cost_of_post packed_post_accesses driver.old.queue (posted_buffer buf.now) ≤ port.old.memory.spare }
    ensures posts { run memory_table (λ mem. mem) (post_program packed_post_accesses packed_posted driver.old.queue (posted_buffer buf.now)) port.old.memory.bytes ≡ ((is_ok result, driver.new.queue), port.new.memory.bytes) }
    ensures full { is_ok result ≡ nat_le (slots_of (posted_buffer buf.now)) (free_slots driver.old.queue) }
    ensures block { KeepsBlock driver.old.queue driver.new.queue }
    ensures greatest { driver.new.greatest ≡ driver.old.greatest }
    ensures memory { length port.new.memory.bytes ≡ length port.old.memory.bytes }
    ensures pages { port.old.memory.spare ≤ port.new.memory.spare + cost_of_post packed_post_accesses driver.old.queue (posted_buffer buf.now) }
    ensures shows { OnOk result ((d : DeviceQueue) → HasTakenAll driver.old.queue d → ShowsNext port.new.memory.bytes d (posted_buffer buf.now)) }
{
    driver.post(port, buf)
}
