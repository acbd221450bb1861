//! A script, run as it arrives.
ghost use Rattle.std.specs.Prelude.{◌≡◌, [], false};
ghost use Rattle.pps_types.specs.Device.{device_failed};
ghost use Rattle.pps_types.specs.Exchange.{input_of, output_of, held_in};
ghost use Rattle.pps_script.specs.BadLines.{ReportsEach};
ghost use Rattle.pps_jobs.specs.Scripts.{RunsScriptOver, AnswersScriptFault};

use crate::fault::Fault;
use pps_engine::Engine;
use pps_script::{BadLines, Manner, ScriptFault, serve_script};
use pps_types::Exchange;
use std::alloc::Global;
use std::io::{Read, Write};

/// Runs a script from the input on a service, and writes its answers to the output, before it reads on. The first fault
/// ends it; the answers before it are written. In an interactive script a bad line is no fault: each is reported, and only
/// in one.
pub(crate) fn run_exchange<I: Read, O: Write, B: BadLines>(
    alloc: Global,
    engine: &mut Engine,
    manner: Manner,
    exchange: &mut Exchange<I, O>,
    bad_lines: &mut B,
) -> Result<(), Fault>
    requires input { device_failed (input_of exchange.old) ≡ false }
    requires output { device_failed (output_of exchange.old) ≡ false }
    requires held { held_in exchange.old ≡ [] }
    ensures runs { RunsScriptOver I.remaining O.contents manner
        (ReportsEach B.reports bad_lines.old bad_lines.new) exchange.old exchange.new
        engine.old.content engine.new.content result }
    ensures fault { AnswersScriptFault exchange.old exchange.new result }
{
    match serve_script(alloc, engine, manner, exchange, bad_lines) {
        Ok(()) => Ok(()),
        Err(ScriptFault::BadLine { line }) => Err(Fault::BadLine { line }),
        Err(ScriptFault::OutOfMemory) => Err(Fault::OutOfMemory),
        Err(ScriptFault::ReadFault) => Err(Fault::CannotReadInput),
        Err(ScriptFault::WriteFault) => Err(Fault::CannotWriteOutput),
    }
}
