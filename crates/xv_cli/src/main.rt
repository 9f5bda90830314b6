//! The program `xv`: runs a script of manager commands from standard input, and writes the answers
//! to standard output. Files are those of the current folder.
#![tactic(auto)]

mod fault;

use fault::Fault;
use std::io::ErrorKind;
use std::process::ExitCode;
use std::{env, io};
use xv_hart::Machine;
use xv_outside::{DirFiles, StdSink, StdSource};
use xv_top::boot;

/// The status for words that aren't the usage's.
const USAGE: u8 = 2;

/// The status for want of memory.
const NO_MEMORY: u8 = 7;

fn main(rt: HostRuntime) -> ExitCode {
    let status = run(&rt);
    if let Some(fault) = Fault::of(status) {
        // A failing standard error changes no status.
        let _ = eprintln!(rt; "{fault}");
    }
    ExitCode::from(status)
}

/// Runs the program with the words after its name, over the process's own streams and folder.
fn run(rt: &HostRuntime) -> u8 {
    let words = match words_of(rt) {
        Ok(words) => words,
        Err(error) => return status_of(&error),
    };
    let mut source = StdSource::new(rt.stdin());
    let mut sink = StdSink::new(rt.stdout());
    let mut files = DirFiles::new(*rt);
    let mut machine = Machine::bare();
    boot(
        rt.alloc(),
        &words,
        &mut source,
        &mut sink,
        &mut files,
        &mut machine,
    )
}

fn words_of(rt: &HostRuntime) -> io::Result<Vec<String>> {
    Ok(env::args(rt)?.skip(1).collect(rt.alloc())?)
}

/// The status where the words can't be told: a word that isn't UTF-8 is none of the usage's.
fn status_of(error: &io::Error) -> u8 {
    match error.kind() {
        ErrorKind::InvalidData => USAGE,
        _ => NO_MEMORY,
    }
}
