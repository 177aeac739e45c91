//! The fields of a device's configuration (VIRTIO 1.2, 2.5 and 4.2.2.2).

ghost use Rattle.std.specs.Prelude.{◌≡◌, ◌+◌, ◌*◌, ◌<◌, ◌≤◌, ◌^◌, ◌++◌, All, IsTrue, length, map, sum};
ghost use Rattle.byteorder.specs.Endian.{little_bytes};
ghost use Rattle.vt_types.specs.Access.{is_width};
ghost use Rattle.vt_types.specs.Limits.{GREATEST_COST};
ghost use Rattle.vt_types.specs.Program.{Gives};
ghost use Rattle.vt_types.specs.Reply.{reply_value};
ghost use Rattle.vt_layout.specs.Fields.{IsPart};
ghost use Rattle.drv_core.specs.Driver.{DriverRecord};
ghost use Rattle.drv_mmio.specs.Calls.{LoadsParts, MakesRound};
ghost use Rattle.drv_mmio.specs.Lowering.{readcfg_lowering, writecfg_lowering};

use crate::accesses::{load, load_part, store_part};
use arrayvec::ArrayVec;
use byteorder::{ByteOrder, LittleEndian};
use vt_layout::{ConfigPart, MmioRegister, field_parts};
use vt_types::{Dev, Field, Port, Reply, Room};

/// What a round of a field loads: the generation before it, the bytes of the field, and the generation after it.
#[derive(Drop)]
struct Round {
    before: u32,
    bytes: ArrayVec<u8, 8>,
    after: u32,
}

/// Adds the low bytes of a number, 1, 2 or 4 of them, the lowest first.
fn add_number(bytes: &mut ArrayVec<u8, 8>, number: u32, width: u8)
    requires width { IsTrue (is_width width) }
    requires room { length bytes.old.items + width ≤ 8 }
    ensures bytes { bytes.new.items ≡ bytes.old.items ++ little_bytes width number }
    ensures long { length bytes.new.items ≡ length bytes.old.items + width }
{
    let mut all = [0; 4];
    LittleEndian::write_u32(&mut all, number);
    let _fits = bytes.try_extend_from_slice(&all[..usize::from(width)]);
}

/// Loads parts of a device's configuration, and answers their bytes.
fn load_parts<P: Port>(
    port: &mut P,
    dev: Dev,
    parts: &[ConfigPart],
    room: &mut Room,
) -> ArrayVec<u8, 8>
    requires each { All IsPart parts.now }
    requires few { sum (map (λ p. p.width) parts.now) ≤ 8 }
    ensures loads { LoadsParts P.step dev parts.now port.old result.items port.new }
    ensures credit { P.credit port.old ≤ P.credit port.new }
{
    let mut bytes = ArrayVec::new();
    'parts: for part in parts {
        let number = load_part(port, dev, *part, room);
        add_number(&mut bytes, number, part.width);
    }
    bytes
}

/// Loads the generation, the parts of a field, and the generation again.
fn make_round<P: Port>(port: &mut P, dev: Dev, field: Field, room: &mut Room) -> Round
    ensures { MakesRound P.step P.marking dev field port.old result.before result.bytes.items result.after port.new }
{
    let before = load(port, dev, MmioRegister::ConfigGeneration, room);
    let bytes = load_parts(port, dev, field_parts(field).as_slice(), room);
    let after = load(port, dev, MmioRegister::ConfigGeneration, room);
    Round {
        before,
        bytes,
        after,
    }
}

/// Reads a field: rounds until the generation is the same before and after, with at most so many repeats.
pub fn read<P: Port>(port: &mut P, dev: Dev, field: Field, repeats: u32, room: &mut Room) -> Reply
    ensures { (known : DriverRecord) → Gives P.step P.marking (readcfg_lowering known dev field repeats) port.old (record { reply = reply_value result room.new.items; known = known }) port.new }
{
    'rounds: for _repeat in 0..repeats {
        let round = make_round(port, dev, field, room);
        if round.before == round.after {
            port.mark();
            return Reply::Value(round.bytes);
        }
    }
    let round = make_round(port, dev, field, room);
    port.mark();
    Reply::Value(round.bytes)
}

/// Writes a field, in its first part; those that are written have one.
pub fn write<P: Port>(port: &mut P, dev: Dev, field: Field, value: u32, room: &mut Room) -> Reply
    requires { GREATEST_COST ≤ P.credit port.old }
    ensures { (known : DriverRecord) → Gives P.step P.marking (writecfg_lowering known dev field value) port.old (record { reply = reply_value result room.new.items; known = known }) port.new }
{
    if let Some(part) = field_parts(field).as_slice().first() {
        store_part(port, dev, *part, value, room);
        port.mark();
    }
    Reply::Good
}
