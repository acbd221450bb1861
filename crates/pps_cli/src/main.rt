//! `pps`: the service as a program.
#![tactic(auto)]

mod commands;
mod patient;
mod reporter;
mod sessions;
mod system_files;
mod whole_file;
mod words;

use patient::Patient;
use pps_jobs::{Failure, Fault};
use pps_types::{Device, Exchange};
use reporter::Reporter;
use std::convert::AsStr;
use std::env;
use std::fs::Files;
use std::io::{ErrorKind, IsTerminal, Read, Write};
use std::process::ExitCode;
use std::sync::Wait;
use std::thread::Threads;
use system_files::SystemFiles;
use words::run_words;

// Does what words ask for, over these streams and the system's files. A read or a write that is interrupted is tried again.
fn run_over<R: AllocGlobal + Files + Threads + Wait + Sync, S: AsStr, I: Read, O: Write, E: Write>(
    rt: &R,
    words: &[S],
    input: &mut I,
    output: &mut O,
    reporter: &mut Reporter<E>,
) -> u8 {
    let input = Device::new(Patient::new(input));
    let output = Device::new(Patient::new(output));
    match Exchange::new(rt.alloc(), input, output) {
        Ok(mut exchange) => {
            run_words(
                rt,
                words,
                &mut SystemFiles::new(rt),
                &mut exchange,
                reporter,
            )
        }
        Err(_) => reporter.report_failure(Failure::Fault(Fault::OutOfMemory)),
    }
}

// The words of the command line. One that is no text is on no good command line.
fn words_of(rt: &HostRuntime) -> Result<Vec<String>, Fault> {
    let words = match env::args(rt) {
        Ok(words) => words,
        Err(e) if e.kind() == ErrorKind::OutOfMemory => return Err(Fault::OutOfMemory),
        Err(_) => return Err(Fault::BadCommandLine),
    };
    Ok(words.collect(rt.alloc())?)
}

fn main(rt: HostRuntime) -> ExitCode {
    let errors = rt.stderr();
    let on_terminal = errors.is_terminal();
    let mut reporter = Reporter::new(Patient::new(errors), on_terminal);
    let status = match words_of(&rt) {
        Err(fault) => reporter.report_failure(Failure::Fault(fault)),
        Ok(words) => run_over(
            &rt,
            words.as_slice(),
            &mut rt.stdin(),
            &mut rt.stdout(),
            &mut reporter,
        ),
    };
    ExitCode::from(status)
}
