//! The calls of both ends of a ring over one guest memory, and what they make of the relation.

ghost use Rattle.std.specs.Prelude.{◌≡◌, ◌+◌, ◌<◌, ◌≤◌, ◌^◌, ◌↔◌, IsOk, IsTrue, OnErr, OnOk, false, is_ok, length, nat_le};
ghost use Rattle.vt_types.specs.Operation.{posted_buffer};
ghost use Rattle.vq_common.specs.Buffer.{IsPostable};
ghost use Rattle.vq_common.specs.Chain.{chain_value, walked};
ghost use Rattle.vq_common.specs.Pages.{PAGES_OF_GIVE, PAGES_OF_SCATTER};
ghost use Rattle.vq_common.specs.Piece.{keeps_rules};
ghost use Rattle.vq_common.specs.Queue.{cost_of_post, cost_of_reap, free_slots, holds_tag, reaped_value, slots_of};
ghost use Rattle.vq_split_dev.specs.Walk.{split_areas_inside};
ghost use Rattle.vq_split_drv.specs.Post.{split_post_accesses};
ghost use Rattle.vq_split_pair.specs.Pair.{IsInMemory};
ghost use Rattle.guest_mem.specs.Memory.{put_at};
ghost use Rattle.guest_mem.specs.Pages.{needed};
ghost use Rattle.ring_part.specs.Laws.{GiveKeeps, PostKeeps, ReapKeeps, TakeKeeps, WriteKeeps};

use guest_mem::{GuestMem, Outside};
use memory_port::MemoryPort;
use vq_common::{Chain, DeviceEnd, DriverEnd, Full, Reaped, Take};
use vq_split_dev::SplitDevice;
use vq_split_drv::SplitDriver;
use vt_types::{PostBuf, Room};

/// Posts a buffer with a tag of its own over guest memory, in which the queue block lies whole. Where that isn't `Full`, the
/// buffer is the last of those that wait. `Full` comes exactly where its slots exceed the free ones, and changes nothing.
pub fn post(driver: &mut SplitDriver, port: &mut MemoryPort, buf: &PostBuf) -> Result<(), Full>
    requires ring { IsInMemory (length port.old.memory.bytes) driver.old.queue.cfg driver.old.queue.base }
    requires postable { IsPostable (posted_buffer buf.now) }
    requires tag { holds_tag buf.now.tag driver.old.queue.unreaped ≡ false }
    requires table { IsTrue buf.now.indirect → length buf.now.cuts.items ≤ driver.old.queue.cfg.size }
    requires feature { IsTrue buf.now.indirect → IsTrue driver.old.queue.cfg.indirect }
    requires pages { cost_of_post split_post_accesses driver.old.queue (posted_buffer buf.now) ≤ port.old.memory.spare }
    ensures keeps { OnOk result (PostKeeps port.old.memory.bytes driver.old.queue (posted_buffer buf.now) driver.new.queue port.new.memory.bytes) }
    ensures full { is_ok result ≡ nat_le (slots_of (posted_buffer buf.now)) (free_slots driver.old.queue) }
    ensures same { OnErr result ((driver.new.queue ≡ driver.old.queue) × (port.new.memory.bytes ≡ port.old.memory.bytes)) }
{
    vq_split_pair::post(driver, port, buf)
}

/// Takes the next chain: that of the first buffer that waits, or nothing where none does.
pub fn take(device: &mut SplitDevice, mem: &GuestMem) -> Take
    ensures { TakeKeeps mem.now.bytes device.old (walked result) device.new }
{
    device.take(mem)
}

/// Writes bytes over a chain that was taken, and gives it back: its buffer is the last of the used ones. Answers whether to
/// signal.
pub fn give(device: &mut SplitDevice, mem: &mut GuestMem, chain: &Chain, bytes: &[u8]) -> bool
    requires rules { IsTrue (keeps_rules (length mem.old.bytes) chain.now.pieces.items) }
    requires areas { IsTrue (split_areas_inside (length mem.old.bytes) device.old.cfg) }
    requires slots { chain.now.slots ≤ device.old.cfg.size }
    requires count { length bytes.now < 2 ^ 32 }
    requires pages { PAGES_OF_SCATTER + PAGES_OF_GIVE ≤ mem.old.spare }
    ensures { GiveKeeps mem.old.bytes device.old (chain_value chain.now) bytes.now result device.new mem.new.bytes }
{
    chain.scatter(mem, bytes);
    device.give(mem, chain, bytes.len() as u32)
}

/// Reaps the first used buffer, or nothing where none was used; the written bytes are in the room.
pub fn reap(driver: &mut SplitDriver, port: &mut MemoryPort, room: &mut Room) -> Option<Reaped>
    requires started { 0 < driver.old.queue.cfg.size }
    requires pages { cost_of_reap driver.old.queue ≤ port.old.memory.spare }
    ensures { ReapKeeps port.old.memory.bytes driver.old.queue (reaped_value result room.new.items) driver.new.queue port.new.memory.bytes }
{
    driver.reap(port, room)
}

/// Writes bytes to guest memory, where they lie inside it: a ring whose block is apart from them stays as it is.
pub fn write(mem: &mut GuestMem, addr: u64, bytes: &[u8]) -> Result<(), Outside>
    requires { needed mem.old addr (length bytes.now) ≤ mem.old.spare }
    ensures keeps { OnOk result (WriteKeeps mem.old.bytes addr (length bytes.now) mem.new.bytes) }
    ensures inside { IsOk result ↔ (addr + length bytes.now ≤ length mem.old.bytes) }
    ensures written { OnOk result (mem.new.bytes ≡ put_at mem.old.bytes addr bytes.now) }
    ensures same { OnErr result (mem.new.bytes ≡ mem.old.bytes) }
{
    mem.write(addr, bytes)
}
