//! Lines of scripts.
ghost use Rattle.std.specs.Prelude.{◌≡◌, IfOk, ◌||◌};
ghost use Rattle.pps_types.specs.Bytes.{is_empty, starts_with};
ghost use Rattle.script_text.specs.Asked.{Reads};
ghost use Rattle.script_text.specs.ScriptLines as script;

use crate::commands::read_event;
use crate::fault::LineFault;
use crate::words::first_conn;
use pps_types::Event;
use std::alloc::{AllocError, Global};

/// What a line of a script says.
#[derive(Debug, PartialEq, Eq, Drop)]
pub enum ScriptLine {
    /// It is empty, or a comment.
    Nothing,
    Command(Event),
}

/// Whether a line is empty, or a comment: its first byte is `#`.
#[inline(always)]
pub fn says_nothing(line: &[u8]) -> bool
    ensures { result ≡ (is_empty line.now || starts_with 35 line.now) }
{
    match line {
        [] => true,
        [first, ..] => *first == b'#',
    }
}

/// Reads a command: a connection, a space and what is asked for.
///
/// It is BadLine if the line is none, as one that is empty or a comment, and OutOfMemory if memory is wanting for its texts.
#[inline(always)]
pub fn read_command(alloc: Global, line: &[u8]) -> Result<Event, LineFault>
    ensures { Reads (script.command line.now) result }
{
    let Some((conn, rest)) = first_conn(line) else {
        return Err(LineFault::BadLine);
    };
    read_event(alloc, conn, rest)
}

/// Reads a line of a script, without its line feed. `None` says that it is a bad script line.
///
/// A line that is empty, or whose first byte is `#`, says nothing. Any other is `N command ..`, its words separated by
/// exactly one space; N is the connection, 0 to 65535. Numbers have no leading zeros.
#[inline(always)]
pub fn read_line(alloc: Global, line: &[u8]) -> Result<Option<ScriptLine>, AllocError>
    ensures { IfOk result (λ read. read ≡ script.line_of line.now) }
{
    if says_nothing(line) {
        return Ok(Some(ScriptLine::Nothing));
    }
    match read_command(alloc, line) {
        Ok(event) => Ok(Some(ScriptLine::Command(event))),
        Err(LineFault::BadLine) => Ok(None),
        Err(LineFault::OutOfMemory) => Err(AllocError),
    }
}
