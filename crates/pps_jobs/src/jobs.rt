//! Jobs: a service begins, is used, and is saved, as the command line asks for it.
ghost use Rattle.std.specs.Prelude.{◌≡◌, IfErr};
ghost use Rattle.pps_types.specs.Exchange.{IsFresh};
ghost use Rattle.pps_script.specs.BadLines.{ReportsEach};
ghost use Rattle.pps_jobs.specs.Images.{FailsWithFiles};
ghost use Rattle.pps_jobs.specs.Jobs.{Does, IsUntouched, RunsOver, ServesOver, manner_of};

use crate::fault::Failure;
use crate::frames::serve_stream;
use crate::images::{begin, end};
use crate::script::run_exchange;
use command_line::{RunOptions, ServiceOptions};
use pps_persist::ImageFiles;
use pps_script::{BadLines, Manner};
use pps_types::Exchange;
use std::alloc::Global;
use std::io::{Read, Write};

/// Runs a script on a service that begins and is saved as it is asked for.
///
/// Nothing is saved if a bad line or a fault ends it. Bad lines are reported only of an interactive script, each by its
/// number, in order. A file is said not to be read or written only if it may fail, or has more bytes than are read.
pub fn run_script<'w, F: ImageFiles, I: Read, O: Write, B: BadLines>(
    alloc: Global,
    files: &mut F,
    options: RunOptions<'w>,
    exchange: &mut Exchange<I, O>,
    bad_lines: &mut B,
) -> Result<(), Failure<'w>>
    requires { IsFresh exchange.old }
    ensures does { Does (F.held files.old) options.entry.service
        (RunsOver I.remaining O.contents (manner_of options.entry)
        (ReportsEach B.reports bad_lines.old bad_lines.new) exchange.old exchange.new)
        (IsUntouched exchange.old exchange.new bad_lines.old bad_lines.new)
        (F.replaced files.old) (F.replaced files.new) result }
    ensures files { IfErr result (FailsWithFiles (F.held files.old) (F.may_fail files.old)) }
{
    let manner = Manner {
        show: options.show,
        patient: options.interactive,
    };
    let mut engine = begin(alloc, files, options.service.beginning)?;
    run_exchange(alloc, &mut engine, manner, exchange, bad_lines)?;
    end(alloc, files, engine, options.service.save)
}

/// Serves a stream of requests with a service that begins and is saved as it is asked for.
///
/// Nothing is saved if the stream ends within a frame or at a malformed one, or if a fault ends it. Of files it says what
/// `run_script` says.
pub fn run_frames<'w, F: ImageFiles, I: Read, O: Write>(
    alloc: Global,
    files: &mut F,
    options: ServiceOptions<'w>,
    exchange: &mut Exchange<I, O>,
) -> Result<(), Failure<'w>>
    requires { IsFresh exchange.old }
    ensures does { Does (F.held files.old) options.entry
        (ServesOver I.remaining O.contents exchange.old exchange.new)
        (exchange.new ≡ exchange.old)
        (F.replaced files.old) (F.replaced files.new) result }
    ensures files { IfErr result (FailsWithFiles (F.held files.old) (F.may_fail files.old)) }
{
    let mut engine = begin(alloc, files, options.beginning)?;
    serve_stream(alloc, &mut engine, exchange)?;
    end(alloc, files, engine, options.save)
}
