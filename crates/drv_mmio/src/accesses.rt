//! Loads and stores of registers (VIRTIO 1.2, 4.2.2) and of the configuration.

ghost use Rattle.std.specs.Prelude.{◌≡◌, ◌+◌, ◌<◌, ◌≤◌, IsTrue};
ghost use Rattle.vt_types.specs.Access.{is_width};
ghost use Rattle.vt_types.specs.Device.{queue_count};
ghost use Rattle.vt_layout.specs.Fields.{IsPart};
ghost use Rattle.vt_layout.specs.Mmio.{config_address};
ghost use Rattle.drv_mmio.specs.Calls.{ClearsAreas, Loads, LoadsAt, Stores, StoresAddress, StoresAt};
ghost use Rattle.drv_mmio.specs.Lowering.{number_of};

use vt_layout::queue_block::QUEUE_AREAS;
use vt_layout::{ConfigPart, MmioRegister, config_address};
use vt_types::{Access, Answer, Dev, Port, Room};

/// The number of so many bytes that a load answered; another answer counts as 0.
fn number(answer: Answer, width: u8) -> u32
    requires { IsTrue (is_width width) }
    ensures { result ≡ number_of width answer }
{
    let Answer::Word(word) = answer else {
        return 0;
    };
    match width {
        1 => (word % (1 << 8)) as u32,
        2 => (word % (1 << 16)) as u32,
        _ => (word % (1 << 32)) as u32,
    }
}

/// Loads a register.
pub fn load<P: Port>(port: &mut P, dev: Dev, register: MmioRegister, room: &mut Room) -> u32
    ensures loads { Loads P.step dev register port.old result port.new }
    ensures credit { P.credit port.old ≤ P.credit port.new }
{
    let addr = u64::from(register.address(dev));
    number(port.access(&Access::Load { addr, width: 4 }, room), 4)
}

/// Stores a register.
pub fn store<P: Port>(port: &mut P, dev: Dev, register: MmioRegister, value: u32, room: &mut Room)
    requires credit { 1 ≤ P.credit port.old }
    ensures stores { Stores P.step dev register value port.old port.new }
    ensures credit { P.credit port.old ≤ P.credit port.new + 1 }
{
    let addr = u64::from(register.address(dev));
    let _done = port.access(
        &Access::Store {
            addr,
            width: 4,
            value,
        },
        room,
    );
}

/// Stores an address in two registers, its low half first.
pub fn store_address<P: Port>(
    port: &mut P,
    dev: Dev,
    low: MmioRegister,
    high: MmioRegister,
    addr: u64,
    room: &mut Room,
)
    requires credit { 2 ≤ P.credit port.old }
    ensures stores { StoresAddress P.step dev low high addr port.old port.new }
    ensures credit { P.credit port.old ≤ P.credit port.new + 2 }
{
    store(port, dev, low, (addr % (1 << 32)) as u32, room);
    store(port, dev, high, (addr / (1 << 32)) as u32, room);
}

/// Loads a part of a device's configuration.
pub fn load_part<P: Port>(port: &mut P, dev: Dev, part: ConfigPart, room: &mut Room) -> u32
    requires { IsPart part }
    ensures loads { LoadsAt P.step (config_address dev part.off) part.width port.old result port.new }
    ensures credit { P.credit port.old ≤ P.credit port.new }
{
    let addr = u64::from(config_address(dev, part.off));
    let width = part.width;
    number(port.access(&Access::Load { addr, width }, room), width)
}

/// Stores a part of a device's configuration.
pub fn store_part<P: Port>(port: &mut P, dev: Dev, part: ConfigPart, value: u32, room: &mut Room)
    requires part { IsPart part }
    requires credit { 1 ≤ P.credit port.old }
    ensures stores { StoresAt P.step (config_address dev part.off) part.width value port.old port.new }
    ensures credit { P.credit port.old ≤ P.credit port.new + 1 }
{
    let _done = port.access(
        &Access::Store {
            addr: u64::from(config_address(dev, part.off)),
            width: part.width,
            value,
        },
        room,
    );
}

/// Clears the areas of a queue.
#[tactic(auto, unfolding(vt_layout::specs::QueueBlock::QUEUE_AREAS))]
pub fn clear_areas<P: Port>(port: &mut P, dev: Dev, queue: u16, room: &mut Room)
    requires queue { queue < queue_count dev }
    requires credit { 12 ≤ P.credit port.old }
    ensures clears { ClearsAreas P.step dev queue port.old port.new }
    ensures credit { P.credit port.old ≤ P.credit port.new + 12 }
{
    let _done = port.access(
        &Access::Zero {
            addr: u64::from(dev.block(queue)),
            count: QUEUE_AREAS,
        },
        room,
    );
}
