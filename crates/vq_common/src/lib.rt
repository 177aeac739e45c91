//! What both kinds of virtqueue share (VIRTIO 1.2, 2.6 to 2.8): pieces and chains, descriptors, indirect tables, the
//! positions of a packed ring, a queue's records, and the two ends as traits.
#![tactic(auto)]

pub mod area;
mod chain;
mod descriptor;
mod device_end;
mod driver_end;
pub mod event;
mod flags;
mod indirect;
mod packed_descriptor;
mod partial;
mod pieces;
mod position;
mod rules;
mod walk;

pub use chain::{Chain, Piece, RingCfg, Take};
pub use descriptor::{Descriptor, DescriptorFlags};
pub use device_end::DeviceEnd;
pub use driver_end::{DriverEnd, Full, Reaped, slots_of};
pub use flags::AvailableFlags;
pub use indirect::{add_table, indirect_chain};
pub use packed_descriptor::{PackedDescriptor, PackedFlags};
pub use pieces::{Pieces, TableBytes};
pub use position::Position;
pub use rules::{are_pieces_valid, is_inside, is_ring_size, ring_location};
pub use walk::WalkStep;
