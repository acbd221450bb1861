//! The words of the command line: what they ask for is done, and a failure is reported.
ghost use Rattle.std.specs.Prelude.{◌≡◌, map};
ghost use Rattle.pps_types.specs.Exchange.{IsFresh};
ghost use Rattle.pps_cli.specs.Commands.{EndsAs, RunsWords};

use crate::commands::run_as;
use crate::reporter::Reporter;
use command_line::{Asked, WordsFault, read_words};
use pps_jobs::{Failure, Fault};
use pps_persist::ImageFiles;
use pps_types::Exchange;
use std::alloc::Global;
use std::convert::AsStr;
use std::io::{Read, Write};
use std::sync::Wait;
use std::thread::Threads;

// Does what words were read as, or reports that they are no command line. It answers the exit status.
fn run_read<'w, F: ImageFiles, R: Threads + Wait + Sync, I: Read, O: Write, E: Write>(
    rt: &R,
    alloc: Global,
    read: Result<Asked<'w>, WordsFault>,
    files: &mut F,
    exchange: &mut Exchange<I, O>,
    reporter: &mut Reporter<E>,
) -> u8
    requires { IsFresh exchange.old }
    ensures { EndsAs I.remaining O.contents E.contents (F.held files.old) (F.may_fail files.old)
        read.entry exchange.old exchange.new (F.replaced files.old) (F.replaced files.new)
        reporter.old reporter.new result }
{
    let asked = match read {
        Ok(asked) => asked,
        Err(fault) => return reporter.report_failure(Failure::Fault(Fault::from(fault))),
    };
    match run_as(rt, alloc, files, asked, exchange, reporter) {
        Ok(()) => 0,
        Err(failure) => reporter.report_failure(failure),
    }
}

/// Does what the words of a command line ask for, the first of which is the program's name, over this exchange. It answers
/// the exit status.
///
/// A script, frames, script files, the help and the version are asked for only by the words that name them, and words are
/// refused only if they are a bad command line or memory is wanting, as `read_words` promises. Promised is also that just
/// what was read was done, or nothing where the words are no command line, that a file was said to fail only if it may,
/// that the status is the right one of it, and that just a failure is reported, after the bad lines of a script that goes
/// on after them.
pub(crate) fn run_words<
    F: ImageFiles,
    R: AllocGlobal + Threads + Wait + Sync,
    S: AsStr,
    I: Read,
    O: Write,
    E: Write,
>(
    rt: &R,
    words: &[S],
    files: &mut F,
    exchange: &mut Exchange<I, O>,
    reporter: &mut Reporter<E>,
) -> u8
    requires { IsFresh exchange.old }
    ensures { RunsWords (map S.text words.now) I.remaining O.contents E.contents
        (F.held files.old) (F.may_fail files.old) exchange.old exchange.new
        (F.replaced files.old) (F.replaced files.new) reporter.old reporter.new result }
{
    let alloc = rt.alloc();
    run_read(
        rt,
        alloc,
        read_words(alloc, words),
        files,
        exchange,
        reporter,
    )
}
