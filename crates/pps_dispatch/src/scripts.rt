//! The session that a script asks for.
ghost use Rattle.std.specs.Prelude.{◌≡◌, ◌≤◌, ◌↔◌, length, IsTrue, IfOk, IfErr, OnOk};
ghost use Rattle.pps_types.specs.Frame.{event_body, longest_body};
ghost use Rattle.script_text.specs.ScriptLines.{line_of};
ghost use Rattle.pps_dispatch.specs.Scripts.{Asks, IsSessionOf, TellsFirstBad};
ghost use Rattle.pps_dispatch.specs.Reading.{AddsLine, FailsLine};

use crate::session::Session;
use crate::session_fault::SessionFault;
use pps_lock::Message;
use pps_types::{Conn, Event, Request, split_at_first};
use script_text::{ScriptLine, read_line};
use std::alloc::Global;

/// The most bytes of the fields of a request's frame. Its kind and its connection are three bytes of its body beside them.
const FIELDS_MAX: usize = 131_069;

// Whether an event has a frame: the body of one has at most 131,072 bytes.
fn has_frame(event: &Event) -> bool
    ensures { IsTrue result ↔ (length (event_body event.now) ≤ longest_body) }
{
    match &event.request {
        Request::Open { text, .. } => text.len() <= FIELDS_MAX - 1,
        Request::Write { bytes, .. } => bytes.len() <= FIELDS_MAX - 4,
        Request::Unlink { path } => path.len() <= FIELDS_MAX,
        Request::Mkdir { path } => path.len() <= FIELDS_MAX,
        Request::List { path } => path.len() <= FIELDS_MAX,
        Request::Attach | Request::Detach | Request::Receive => true,
        Request::Read { .. } | Request::Close { .. } | Request::Notify { .. } => true,
    }
}

// Adds what a line asks for, if it asks for anything. The number is the line's.
fn push_line(
    alloc: Global,
    messages: &mut Vec<Message>,
    conn: Conn,
    line: &[u8],
    number: u64,
) -> Result<(), SessionFault>
    ensures ok { OnOk result (AddsLine conn (line_of line.now) messages.old.items
        messages.new.items) }
    ensures err { IfErr result (λ fault. FailsLine conn (line_of line.now) number fault) }
{
    let event = match read_line(alloc, line)? {
        None => return Err(SessionFault::BadLine { line: number }),
        Some(ScriptLine::Nothing) => return Ok(()),
        Some(ScriptLine::Command(event)) => event,
    };
    if event.conn != conn {
        return Err(SessionFault::BadLine { line: number });
    }
    if !has_frame(&event) {
        return Err(SessionFault::BadLine { line: number });
    }
    messages.reserve(1)?;
    messages.push_reserved(Message::new(alloc, event)?);
    Ok(())
}

// What a script asks for, as messages in its order.
fn asked_messages(alloc: Global, conn: Conn, text: &[u8]) -> Result<Vec<Message>, SessionFault>
    ensures ok { IfOk result (λ messages. Asks conn text.now messages.items) }
    ensures err { IfErr result (λ fault. TellsFirstBad conn text.now fault) }
{
    let mut messages = Vec::new(alloc);
    let mut rest = text;
    let mut number: u64 = 1;
    'lines: while let Some((line, behind)) = split_at_first(b'\n', rest) {
        push_line(alloc, &mut messages, conn, line, number)?;
        rest = behind;
        number = number.saturating_add(1);
    }
    if rest.is_empty() {
        return Ok(messages);
    }
    push_line(alloc, &mut messages, conn, rest, number)?;
    Ok(messages)
}

/// The session of a script: its messages are what the lines ask for, each once and in their order. Nothing of it is
/// answered yet.
///
/// BadLine names the first line that is none of a script, or asks for something of another connection, or for something
/// that has no frame since its body is longer than 131,072 bytes. OutOfMemory may come in place of any answer.
pub fn session_of(alloc: Global, conn: Conn, text: &[u8]) -> Result<Session, SessionFault>
    ensures ok { IfOk result (λ session. IsSessionOf conn text.now session) }
    ensures err { IfErr result (λ fault. TellsFirstBad conn text.now fault) }
{
    let messages = asked_messages(alloc, conn, text)?;
    Ok(Session::starting(alloc, conn, messages))
}
