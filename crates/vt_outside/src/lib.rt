//! What stands outside the machine: sources and sinks of bytes, disks and watches, each as a trait, with forms in
//! memory whose failures are chosen, and adapters over std's readers, writers and files; and a disk with a trip, of which
//! one call can be made to fail. All of it is our own.
#![tactic(auto)]

mod calls;
mod disk;
mod failed;
mod file_disk;
mod mem_disk;
mod mem_sink;
mod mem_source;
mod mem_watch;
mod no_watch;
mod sink;
mod source;
mod std_sink;
mod std_source;
mod tripped;
mod watch;

pub use disk::Disk;
pub use failed::{Back, Failed};
pub use file_disk::FileDisk;
pub use mem_disk::MemDisk;
pub use mem_sink::MemSink;
pub use mem_source::MemSource;
pub use mem_watch::MemWatch;
pub use no_watch::NoWatch;
pub use sink::Sink;
pub use source::Source;
pub use std_sink::StdSink;
pub use std_source::StdSource;
pub use tripped::Tripped;
pub use watch::Watch;
