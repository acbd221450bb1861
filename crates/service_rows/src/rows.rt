//! Scripts whose commands each have an answer.

use crate::slip::Slip;
use pps_types::{Conn, Event, Outcome, Refusal};
use script_text::{ScriptLine, print_answer, read_line};
use std::alloc::Global;

/// A command, and the line that its answer is printed as.
#[derive(Drop)]
pub(crate) struct Row<'t> {
    pub(crate) event: Event,
    /// The line of the command.
    pub(crate) line: &'t [u8],
    wanted: &'t [u8],
}

impl<'t> Row<'t> {
    /// The command of a line, whose answer is not known yet.
    pub(crate) fn new(alloc: Global, line: &'t [u8]) -> Result<Row<'t>, Slip> {
        Ok(Row {
            event: event(alloc, line)?,
            line,
            wanted: b"",
        })
    }

    /// From now on it has to be answered so.
    pub(crate) fn want(&mut self, answer: &'t [u8]) {
        self.wanted = answer;
    }

    /// The line of its answer.
    pub(crate) fn wanted(&self) -> &'t [u8] {
        self.wanted
    }

    /// Whether that is its answer.
    pub(crate) fn is_answer(
        &self,
        alloc: Global,
        answer: &Result<Outcome, Refusal>,
    ) -> Result<bool, Slip> {
        is_printed(alloc, self.event.conn, answer, self.wanted)
    }
}

/// The command of a line.
pub(crate) fn event(alloc: Global, line: &[u8]) -> Result<Event, Slip> {
    match read_line(alloc, line)? {
        Some(ScriptLine::Command(event)) => Ok(event),
        _ => Err(Slip::BadLine),
    }
}

// Whether an answer is printed as that line.
fn is_printed(
    alloc: Global,
    conn: Conn,
    answer: &Result<Outcome, Refusal>,
    wanted: &[u8],
) -> Result<bool, Slip> {
    let mut printed = Vec::new(alloc);
    print_answer(&mut printed, conn, answer)?;
    match printed.as_slice().split_last() {
        Some((last, line)) => Ok(*last == b'\n' && line == wanted),
        None => Ok(false),
    }
}
