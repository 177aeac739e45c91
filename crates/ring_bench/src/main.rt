//! Times a ring: takes a number of buffers through both ends of a ring in one process, and prints what was reaped.
#![tactic(auto)]

mod counts;
mod guest;
mod host;
mod rings;
mod task;

use counts::Counts;
use rings::Rings;
use std::alloc::Global;
use std::process::ExitCode;
use std::{env, io};
use task::{Kind, SIZE, Task, number_or};
use vq_packed_dev::PackedDevice;
use vq_packed_drv::PackedDriver;
use vq_split_dev::SplitDevice;
use vq_split_drv::SplitDriver;
use vt_types::Memory;

/// Why the program ends early.
#[derive(Clone, Copy, Debug, PartialEq, Eq)]
enum Stop {
    /// The command line is no task.
    Usage,
    /// There is no memory.
    Memory,
    /// Standard output takes no more.
    Output,
}

impl From<Memory> for Stop {
    ghost use Rattle.std.specs.Prelude.{◌≡◌};
    ghost use Rattle.ring_bench.specs.declared.Stop.TheVariants.{Memory};

    ghost from_gives = { λ _ stop. stop ≡ Memory };

    fn from(_: Memory) -> Stop {
        Stop::Memory
    }
}

/// The kind of ring and the task of the words `[KIND] N [SIZE [IN_FLIGHT]]`. Where they don't say which kind, the ring is
/// split; where they don't say how many buffers are in flight, the buffers fill the ring.
fn task_of(rt: &HostRuntime) -> Result<(Kind, Task), Stop> {
    let mut words = match env::args(rt) {
        Ok(words) => words.skip(1),
        Err(error) if error.kind() == io::ErrorKind::OutOfMemory => return Err(Stop::Memory),
        Err(_) => return Err(Stop::Usage),
    };
    let first = words.next().ok_or(Stop::Usage)?;
    let (kind, count) = match Kind::named(first.as_str()) {
        Some(kind) => (kind, words.next()),
        None => (Kind::Split, Some(first)),
    };
    let (Some(count), size, in_flight, None) = (count, words.next(), words.next(), words.next())
    else {
        return Err(Stop::Usage);
    };
    let count = count.as_str().parse().map_err(|_| Stop::Usage)?;
    let size = number_or(size, SIZE).ok_or(Stop::Usage)?;
    let in_flight = number_or(in_flight, size / 2).ok_or(Stop::Usage)?;
    let task = Task::new(count, size, in_flight).ok_or(Stop::Usage)?;
    Ok((kind, task))
}

/// Takes the buffers of a task through a new ring of a kind.
fn carry(alloc: Global, kind: Kind, task: &Task) -> Result<Counts, Memory> {
    match kind {
        Kind::Split => Rings::<SplitDevice, SplitDriver>::new(alloc, task.size)?.carry(alloc, task),
        Kind::Packed => Rings::<PackedDevice, PackedDriver>::new(alloc, task.size)?.carry(
            alloc, task,
        ),
    }
}

/// Does all that the program does, but for the usage line.
fn run(rt: &HostRuntime) -> Result<(), Stop> {
    let (kind, task) = task_of(rt)?;
    let counts = carry(rt.alloc(), kind, &task)?;
    println!(rt; "buffers={} bytes={}", counts.buffers, counts.bytes).map_err(|_| Stop::Output)
}

fn main(rt: HostRuntime) -> ExitCode {
    let status = match run(&rt) {
        Ok(()) => 0,
        Err(Stop::Usage) => match println!(rt;
            "usage: ring_bench [split|packed] N [SIZE [IN_FLIGHT]]"
        ) {
            Ok(()) => 2,
            Err(_) => 5,
        },
        Err(Stop::Memory) => 6,
        Err(Stop::Output) => 5,
    };
    ExitCode::from(status)
}
