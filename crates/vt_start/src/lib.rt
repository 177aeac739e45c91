//! The start of the program `vt`: what the words of its command line say, over standard input, standard output and a
//! disk in memory. Nobody watches: the watch is `NoWatch`.
#![tactic(auto)]

use script_run::top;
use std::env::Env;
use std::io::{Input, Print};
use std::process::ExitCode;
use std::{env, io};
use vt_outside::{MemDisk, NoWatch, StdSink, StdSource};
use vt_types::Bytes;

/// How many sectors of zeros the disk has.
const SECTORS: u32 = 2048;

/// The status where there is no memory for the words or the disk.
const NO_MEMORY: u8 = 6;

/// The words after the program's name; None where there is no memory for them. Words that are no text are in no
/// grammar, so none stand for them.
fn words<R: Env + AllocGlobal>(rt: &R) -> Option<Vec<String>> {
    let mut words = Vec::new(rt.alloc());
    let args = match env::args(rt) {
        Ok(args) => args,
        Err(error) if error.kind() == io::ErrorKind::OutOfMemory => return None,
        Err(_) => return Some(words),
    };
    for word in args.skip(1) {
        if words.push(word).is_err() {
            return None;
        }
    }
    Some(words)
}

/// Does all that a program over `top` does: takes the words after the program's name, reads standard input, writes
/// standard output, shows nobody what happens, and answers the status of `top`; 6 where there is no memory for the words
/// or the disk.
pub fn start<R: Env + Input + Print + AllocGlobal>(rt: &R) -> ExitCode {
    let Some(words) = words(rt) else {
        return ExitCode::from(NO_MEMORY);
    };
    let fails = Bytes::new(rt.alloc());
    let Ok(disk) = MemDisk::new(rt.alloc(), SECTORS, false, fails) else {
        return ExitCode::from(NO_MEMORY);
    };
    let mut source = StdSource::new(rt.reader());
    let mut sink = StdSink::new(io::writer(rt));
    let ended = top(
        rt.alloc(),
        &words,
        &mut source,
        &mut sink,
        disk,
        &mut NoWatch,
    );
    ExitCode::from(ended.status)
}
