//! `snap`: startup snapshots of JavaScript heaps.
#![tactic(auto)]

use snap_commands::snap_serial;
use snap_io::{OsFiles, StdSink};
use std::io::ErrorKind;
use std::process::ExitCode;
use std::rt::Env;
use std::{env, io};

/// The status of a run that found no memory.
const NO_MEMORY: u8 = 9;

/// Runs the command of the words over real files and standard output, and ends with its status.
fn main(rt: HostRuntime) -> ExitCode {
    let alloc = rt.alloc();
    let words = match words_of(&rt) {
        Ok(words) => words,
        Err(error) if error.kind() == ErrorKind::OutOfMemory => return ExitCode::from(NO_MEMORY),
        // A word that is not UTF-8 belongs to no command, as no words do.
        Err(_) => Vec::new(alloc),
    };
    let Ok(runtime) = rt.clone() else {
        return ExitCode::from(NO_MEMORY);
    };
    let mut files = OsFiles::new(runtime);
    let mut out = StdSink::new(io::writer(&rt));
    let outcome = snap_serial(alloc, &words, &mut files, &mut out, 0);
    ExitCode::from(outcome.status)
}

// The words behind the program's name.
fn words_of<R: Env + AllocGlobal>(rt: &R) -> io::Result<Vec<String>> {
    let mut args = env::args(rt)?;
    let _program = args.next();
    Ok(args.collect(rt.alloc())?)
}
