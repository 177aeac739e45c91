//! Guest memory: bytes that a driver and its devices share, in pages that are made at the first write, with every range
//! tested.
//!
//! Buses, rings and channel programs (VIRTIO 1.2, 2.7, 2.8 and 4.3) find here their descriptors, rings, buffers and
//! indicators. Contracts see a memory as the list of its bytes, which of its pages were made, and how many pages are
//! spare.
#![tactic(auto)]

mod arena;
mod guest;
mod paging;

pub use guest::GuestMem;
use std::alloc::AllocError;

/// Want of memory on the host: what a call that takes an allocator may answer.
pub type Memory = AllocError;

/// A range that passes the end of guest memory.
#[derive(Clone, Copy, Debug, PartialEq, Eq)]
pub struct Outside;
