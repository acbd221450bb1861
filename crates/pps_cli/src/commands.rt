//! What a command line asks for, done.
ghost use Rattle.std.specs.Prelude.{IfErr};
ghost use Rattle.pps_types.specs.Device.{device_inner};
ghost use Rattle.pps_types.specs.Exchange.{IsFresh};
ghost use Rattle.pps_types.specs.Writing.{FailsWithDevice};
ghost use Rattle.pps_cli.specs.Commands.{DoesAsked, PrintsText};
ghost use Rattle.pps_jobs.specs.Images.{FailsWithFiles};

use crate::sessions::serve_scripts;
use command_line::Asked;
use pps_jobs::{Failure, Fault, run_frames, run_script};
use pps_persist::ImageFiles;
use pps_script::BadLines;
use pps_types::{Device, Exchange};
use std::alloc::Global;
use std::io::{Read, Write};
use std::sync::Wait;
use std::thread::Threads;

// Prints a text.
fn print_text<'w, O: Write>(text: &str, output: &mut Device<O>) -> Result<(), Failure<'w>>
    ensures printed { PrintsText text.now
        (O.contents (device_inner output.old)) (O.contents (device_inner output.new)) result }
    ensures fault { FailsWithDevice output.old output.new result }
{
    match output.write_all(text.as_bytes()) {
        Ok(()) => Ok(()),
        Err(_) => Err(Failure::Fault(Fault::CannotWriteOutput)),
    }
}

/// Does what a command line asks for, over this exchange: it runs a script or serves frames from the input, serves script
/// files in several threads, or prints a text.
///
/// Each bad line is reported of a script that goes on after them, and nothing of anything else. A file is said not to be
/// read or written only if it may fail, or has more bytes than are read.
pub(crate) fn run_as<'w, F: ImageFiles, R: Threads + Wait + Sync, I: Read, O: Write, B: BadLines>(
    rt: &R,
    alloc: Global,
    files: &mut F,
    asked: Asked<'w>,
    exchange: &mut Exchange<I, O>,
    bad_lines: &mut B,
) -> Result<(), Failure<'w>>
    requires { IsFresh exchange.old }
    ensures does { DoesAsked I.remaining O.contents B.reports (F.held files.old) asked.entry
        exchange.old exchange.new (F.replaced files.old) (F.replaced files.new)
        bad_lines.old bad_lines.new result }
    ensures files { IfErr result (FailsWithFiles (F.held files.old) (F.may_fail files.old)) }
{
    match asked {
        Asked::Run(options) => run_script(alloc, files, options, exchange, bad_lines),
        Asked::Frames(options) => run_frames(alloc, files, options, exchange),
        Asked::Serve(options) => serve_scripts(rt, alloc, files, &options, exchange.output()),
        Asked::Text(text) => print_text(text.as_str(), exchange.output()),
    }
}
