//! What is printed of sessions that were served.
ghost use Rattle.std.specs.Prelude.{◌≡◌, ◌++◌, false, All, OnOk, IfOk};
ghost use Rattle.std.specs.Prelude.{length, map, string_bytes};
ghost use Rattle.pps_types.specs.Device.{device_failed, device_stalls};
ghost use Rattle.pps_types.specs.Exchange.{AnswerFaultIs};
ghost use Rattle.pps_types.specs.Merge.{entries_of};
ghost use Rattle.pps_types.specs.Writing.{SendsTo};
ghost use Rattle.pps_dispatch.specs.History.{joined};
ghost use Rattle.script_text.specs.Script.{answers_of};
ghost use Rattle.pps_dispatch.specs.Printed.{session_line, session_text};
ghost use Rattle.pps_dispatch.specs.Printed.{sessions_text, connections_of};
ghost use Rattle.pps_dispatch.specs.Named.{Names};

use crate::named_entry::entry_at;
use crate::session::Session;
use pps_lock::Segment;
use pps_types::{AnswerFault, Conn, Device};
use script_text::print_answer;
use std::alloc::{AllocError, Global};
use std::io::Write;

// The line before a session's answers.
#[tactic(auto, using(crate::proofs::Regroup::regroup))]
fn first_line(alloc: Global, conn: Conn, file: &str) -> Result<String, AllocError>
    ensures { IfOk result (λ line. string_bytes line ≡ session_line conn file.now) }
{
    let number = conn.number();
    format!(in alloc; "session {number} {file}\n")
}

// Prints what a session was answered.
fn print_answers(
    out: &mut Vec<u8>,
    segments: &[Segment],
    session: &Session,
) -> Result<(), AllocError>
    requires { Names segments.now session.now }
    ensures { OnOk result (out.new.items ≡ out.old.items
        ++ answers_of false (entries_of session.now.connection (joined segments.now))) }
{
    for name in session.receipts() {
        let entry = entry_at(segments, *name);
        print_answer(out, entry.event().conn, entry.reply())?;
    }
    Ok(())
}

// What is printed of a session.
#[tactic(auto, using(crate::proofs::Regroup::regroup))]
fn text_of(
    alloc: Global,
    file: &str,
    segments: &[Segment],
    session: &Session,
) -> Result<Vec<u8>, AllocError>
    requires { Names segments.now session.now }
    ensures { IfOk result (λ text. text.items
        ≡ session_text session.now.connection file.now (joined segments.now)) }
{
    let mut text = Vec::new(alloc);
    let line = first_line(alloc, session.conn(), file)?;
    text.extend_from_slice(line.as_bytes())?;
    print_answers(&mut text, segments, session)?;
    Ok(text)
}

/// Writes what all sessions were answered, in their order: of each the line `session K F`, where K is its connection and F
/// its file's name, and the answers to its entries, one a line, in the order of the history.
///
/// OutOfMemory comes if memory is wanting for one session's lines; WriteFault if the writer fails, or takes none of some
/// bytes. A beginning of the text is written then.
pub fn write_sessions<W: Write>(
    alloc: Global,
    files: &[&str],
    segments: &[Segment],
    sessions: &[Session],
    output: &mut Device<W>,
) -> Result<(), AnswerFault>
    requires files { length files.now ≡ length sessions.now }
    requires named { All (Names segments.now) sessions.now }
    ensures bytes { SendsTo W.contents output.old output.new
        (sessions_text (map (λ file. file.now) files.now) (connections_of sessions.now)
        (joined segments.now)) result }
    ensures fault { AnswerFaultIs result (device_failed output.old) (device_failed output.new)
        (device_stalls output.old) (device_stalls output.new) }
{
    for number in 0..files.len() {
        let text = text_of(alloc, files[number], segments, &sessions[number])?;
        output.write_all(text.as_slice())?;
    }
    output.flush()?;
    Ok(())
}
