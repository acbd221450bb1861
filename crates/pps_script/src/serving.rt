//! A script, served from its first byte to its last.
ghost use Rattle.std.specs.Prelude.{◌≡◌, ◌<◌, [], false, length};
ghost use Rattle.pps_types.specs.Device.{device_failed};
ghost use Rattle.pps_types.specs.Exchange.{input_of, output_of, held_in};
ghost use Rattle.pps_script.specs.BadLines.{ReportsEach};
ghost use Rattle.pps_script.specs.Served.{RanOver, AnswersFault};
ghost use Rattle.pps_script.specs.Lines.{RunsPieces, PieceFaultsAre, count_of, ends_cut_off};

use crate::fault::ScriptFault;
use crate::manner::{BadLines, Manner};
use crate::session::Session;
use pps_engine::Engine;
use pps_types::Exchange;
use pps_types::limits::{PIECE, READS_MAX};
use std::alloc::Global;
use std::io::{Read, Write};

// Reads to the end. What is answered is sent before each read, since that may have to wait.
fn run_pieces<R: Read, W: Write, B: BadLines>(
    session: &mut Session,
    engine: &mut Engine,
    exchange: &mut Exchange<R, W>,
    bad_lines: &mut B,
    part: &mut Vec<u8>,
    buffer: &mut [u8],
) -> Result<(), ScriptFault>
    requires room { 0 < length buffer.old }
    requires begins { part.old.items ≡ [] }
    requires count { count_of session.old ≡ 0 }
    requires input { device_failed (input_of exchange.old) ≡ false }
    requires output { device_failed (output_of exchange.old) ≡ false }
    requires held { held_in exchange.old ≡ [] }
    ensures runs { RunsPieces R.remaining W.contents session.old.manner
        (ReportsEach B.reports bad_lines.old bad_lines.new) exchange.old exchange.new
        engine.old.content engine.new.content result }
    ensures fault { PieceFaultsAre exchange.old exchange.new result }
{
    'pieces: for _ in 0..READS_MAX {
        exchange.send()?;
        let count = match exchange.read(buffer) {
            Ok(0) => return session.finish(engine, exchange, bad_lines, part.as_slice()),
            Ok(count) => count,
            Err(_) => return Err(ScriptFault::ReadFault),
        };
        session.feed(engine, exchange, bad_lines, part, &buffer[..count])?;
    }
    exchange.send()?;
    Err(ScriptFault::ReadFault)
}

// Whether a script ended since a device failed. Nothing is left to be sent then, or nothing can be.
fn is_cut_off(ended: &Result<(), ScriptFault>) -> bool
    ensures { result ≡ ends_cut_off ended.now }
{
    matches!(ended, Err(ScriptFault::ReadFault | ScriptFault::WriteFault))
}

/// Serves a script: each line that is read is answered by a line, in order, and the values that are read are shown below
/// it where that is asked for. Answers are sent before more is read.
///
/// BadLine is the end at the first line that is none of a script, unless the script is to go on after bad lines: then each
/// is reported by its number, in order, and asks for nothing; else none is reported. OutOfMemory comes if memory is wanting
/// for what is read or for an answer's line; ReadFault if the reader fails, or was read 4,294,967,295 times: the lines that
/// were whole are answered, and the bad ones of them reported; WriteFault if the writer fails, or takes none of some bytes.
/// What was written until then answers the first lines that were read, what was reported are the first bad ones, and the
/// engine has the state that these leave.
pub fn serve_script<R: Read, W: Write, B: BadLines>(
    alloc: Global,
    engine: &mut Engine,
    manner: Manner,
    exchange: &mut Exchange<R, W>,
    bad_lines: &mut B,
) -> Result<(), ScriptFault>
    requires input { device_failed (input_of exchange.old) ≡ false }
    requires output { device_failed (output_of exchange.old) ≡ false }
    requires held { held_in exchange.old ≡ [] }
    ensures ran { RanOver R.remaining W.contents manner
        (ReportsEach B.reports bad_lines.old bad_lines.new) exchange.old exchange.new
        engine.old.content engine.new.content result }
    ensures fault { AnswersFault exchange.old exchange.new result }
{
    let mut buffer = Vec::new(alloc);
    buffer.resize(PIECE, 0u8)?;
    let mut part = Vec::new(alloc);
    let mut session = Session::new(alloc, manner);
    let ended = run_pieces(
        &mut session,
        engine,
        exchange,
        bad_lines,
        &mut part,
        buffer.as_mut_slice(),
    );
    if is_cut_off(&ended) {
        return ended;
    }
    exchange.send()?;
    ended
}
