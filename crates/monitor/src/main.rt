//! Plays a virtual machine monitor whose guest writes a text to its console: shows how the devices and a bus are used, and,
//! for the guest, a driver's end of a queue. No guest runs: what its kernel would do is a list. No input comes to the console
//! either; it would come by `DeviceSet::backend`.
#![tactic(auto)]

ghost use Rattle.std.specs.Prelude.{◌≡◌, ◌≤◌, false, length};
ghost use Rattle.vt_types.specs.Limits.{LONGEST_PIECE};
ghost use Rattle.vq_common.specs.Queue.{IsInBlock};

mod exits;
mod guest;
mod machine;

use dev_core::Served;
use exits::Exit;
use guest::{ACKNOWLEDGE, NOTIFY, SIZE, bring_up, ring, text_buffer};
use machine::Machine;
use std::io::Print;
use std::{io, str};
use vq_common::{DriverEnd, RingCfg};
use vq_split_drv::SplitDriver;
use vt_types::{Answer, Dev, GREATEST_QUEUE, Room};

/// Prints an exit, and the answer that a monitor hands to the guest. As each print here it fails only where standard output does.
fn show(rt: &impl Print, exit: Exit, answer: Answer) -> io::Result<()> {
    match exit {
        Exit::Load(register) => print!(rt; "guest: loads {register:?}, ")?,
        Exit::Store(register, value) => print!(rt; "guest: stores {value:#x} to {register:?}, ")?,
    }
    match answer {
        Answer::Word(word) => println!(rt; "bus: {word:#x}"),
        answer => println!(rt; "bus: {answer:?}"),
    }
}

/// Serves a queue of the console until nothing is left to be done. A guest may post new buffers meanwhile, so at most as many are
/// served as a queue may have descriptors; the next exit serves what is left.
fn serve<R: Print + AllocGlobal>(rt: &R, machine: &mut Machine, queue: u16) -> io::Result<()> {
    for _buffer in 0..GREATEST_QUEUE {
        let served = machine.serve(rt.alloc(), queue)?;
        if served == Served::Idle {
            break;
        }
        println!(rt; "device: serves a buffer of queue {queue}, {served:?}")?;
    }
    Ok(())
}

/// Prints where the guest's interrupt line changes: there a monitor sets it.
fn show_line(rt: &impl Print, was_up: bool, is_up: bool) -> io::Result<()> {
    match (was_up, is_up) {
        (false, true) => println!(rt; "monitor: raises the guest's interrupt line"),
        (true, false) => println!(rt; "monitor: lowers the guest's interrupt line"),
        (false, false) | (true, true) => Ok(()),
    }
}

/// What a monitor does in its loop: hands each exit to the bus, serves the console, and sets the guest's interrupt line.
fn run<R: Print + AllocGlobal>(rt: &R, machine: &mut Machine, exits: &[Exit]) -> io::Result<()> {
    for exit in exits {
        let was_up = machine.is_line_up();
        let answer = machine.exit(rt.alloc(), *exit)?;
        show(rt, *exit, answer)?;
        // Serves the queues that the guest has notified: any other is `Idle`.
        for queue in 0..Dev::Con.queues() {
            serve(rt, machine, queue)?;
        }
        show_line(rt, was_up, machine.is_line_up())?;
    }
    Ok(())
}

/// The guest writes a text: its driver posts it, notifies the device, takes the interrupt, and reaps the buffer.
fn write<R: Print + AllocGlobal>(
    rt: &R,
    machine: &mut Machine,
    ring: &RingCfg,
    text: &[u8],
) -> io::Result<()>
    requires some { 1 ≤ length text.now }
    requires short { length text.now ≤ LONGEST_PIECE }
    requires size { ring.now.size ≡ SIZE }
    requires unasked { ring.now.event_idx ≡ false }
    requires in_block { IsInBlock ring.now ring.now.desc }
{
    // The driver's end of a queue, with room for so many descriptors. Fails only for want of memory.
    let mut driver = SplitDriver::new(rt.alloc(), SIZE)?;
    // Begins with no buffer posted. Wants the block of a queue, with the three areas where the block has them, and a size that is
    // a power of two, at most 1,024 and at most that of `new`. Never fails.
    driver.start(ring, ring.desc);
    let buffer = text_buffer(rt.alloc(), text)?;
    machine.reserve(rt.alloc())?;
    // Puts a buffer into guest memory, where the device finds it. Wants a queue that was started, a tag that no buffer has which
    // is still to be reaped, and up to 23 pages spare. Fails exactly where fewer descriptors are free than the buffer takes.
    let posted = driver.post(&mut machine.port, &buffer);
    println!(rt; "guest: posts {} bytes, {posted:?}", buffer.readable.len())?;
    run(rt, machine, &NOTIFY)?;
    if machine.is_line_up() {
        run(rt, machine, &ACKNOWLEDGE)?;
    }
    // Takes the next used buffer: its tag, and how many bytes the device wrote, which are in the room then. None where none is
    // used. Wants a queue that was started, and a page spare only on a ring with EVENT_IDX. Never fails.
    let used = driver.reap(&mut machine.port, &mut Room::new());
    println!(rt; "guest: reaps {used:?}")
}

/// Prints what the console was given. A guest may write bytes that are no text.
fn show_console(rt: &impl Print, machine: &Machine) -> io::Result<()> {
    // All bytes that the console was given. Wants nothing, and never fails.
    match str::from_utf8(machine.set.console()) {
        Ok(text) => println!(rt; "console: {text}"),
        Err(_) => println!(rt; "console: no text"),
    }
}

/// Want of memory and a print that fails end the program with status 1.
fn main(rt: HostRuntime) -> io::Result<()> {
    let mut machine = Machine::new(rt.alloc())?;
    let ring = ring();
    run(&rt, &mut machine, &bring_up(&ring))?;
    write(&rt, &mut machine, &ring, b"Hello from the guest")?;
    show_console(&rt, &machine)
}
