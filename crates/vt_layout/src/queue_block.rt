//! The memory map of a driver's queue block (our own).

ghost use Rattle.std.specs.Prelude.{◌≡◌};
ghost use Rattle.vt_layout.specs.QueueBlock as map;

use vt_types::LONGEST_BUFFER;

/// The bytes of a queue's areas: the descriptors, the driver area and the device area, with what lies between them.
pub const QUEUE_AREAS: u16 = 40_960;

/// From a queue block to its driver area.
pub const DRIVER_AREA: u64 = 0x4000;

/// From a queue block to its device area.
pub const DEVICE_AREA: u64 = 0x6000;

/// From a queue block to its indirect tables.
pub const TABLES: u64 = 0x2_0000;

/// The bytes of an indirect table.
pub const TABLE_LEN: u64 = 128;

/// From a queue block to its data.
pub const DATA: u64 = 0x40_0000;

/// The bytes of the data of one buffer.
pub const DATA_LEN: u64 = LONGEST_BUFFER as u64;

/// This is the definitions' memory map. Does nothing.
#[tactic(auto, unfolding(crate::specs::QueueBlock::QUEUE_AREAS))]
pub fn map_is_defined()
    ensures areas { QUEUE_AREAS ≡ map.QUEUE_AREAS }
    ensures driver_area { DRIVER_AREA ≡ map.DRIVER_AREA }
    ensures device_area { DEVICE_AREA ≡ map.DEVICE_AREA }
    ensures tables { TABLES ≡ map.TABLES }
    ensures table { TABLE_LEN ≡ map.TABLE_LEN }
    ensures data_area { DATA ≡ map.DATA }
    ensures data { DATA_LEN ≡ map.DATA_LEN }
{}
