//! The order in which messages were served.
ghost use Rattle.std.specs.Prelude.{◌≡◌, ◌++◌, OnOk};
ghost use Rattle.pps_types.specs.Device.{device_failed, device_stalls};
ghost use Rattle.pps_types.specs.Exchange.{AnswerFaultIs};
ghost use Rattle.pps_types.specs.Writing.{SendsTo};
ghost use Rattle.pps_dispatch.specs.History.{joined};
ghost use Rattle.pps_dispatch.specs.Printed.{history_text};

use pps_lock::{Entry, Segment};
use pps_types::{AnswerFault, Device};
use std::alloc::{AllocError, Global};
use std::io::Write;

// Adds the connection of each entry, one a line.
fn push_connections(alloc: Global, out: &mut Vec<u8>, entries: &[Entry]) -> Result<(), AllocError>
    ensures { OnOk result (out.new.items ≡ out.old.items ++ history_text entries.now) }
{
    for entry in entries {
        let number = entry.event().conn.number();
        let line = format!(in alloc; "{number}\n")?;
        out.extend_from_slice(line.as_bytes())?;
    }
    Ok(())
}

/// Writes the connection of each entry of the history, one a line, in its order.
///
/// OutOfMemory comes if memory is wanting for the lines, of which nothing is written then; WriteFault if the writer fails,
/// or takes none of some bytes: a beginning of the lines is written then.
pub fn write_history<W: Write>(
    alloc: Global,
    segments: &[Segment],
    output: &mut Device<W>,
) -> Result<(), AnswerFault>
    ensures bytes { SendsTo W.contents output.old output.new
        (history_text (joined segments.now)) result }
    ensures fault { AnswerFaultIs result (device_failed output.old) (device_failed output.new)
        (device_stalls output.old) (device_stalls output.new) }
{
    let mut text = Vec::new(alloc);
    for segment in segments {
        push_connections(alloc, &mut text, segment.entries())?;
    }
    output.write_all(text.as_slice())?;
    Ok(())
}
