//! The lines of a script, as they come.
ghost use Rattle.std.specs.Prelude.{◌≡◌, ◌++◌, ◌∷◌, [], IfOk, IfErr, OnOk};
ghost use Rattle.pps_types.specs.Device.{counted_once_more};
ghost use Rattle.pps_types.specs.Exchange.{input_of};
ghost use Rattle.pps_types.specs.Text.{without_empty_end};
ghost use Rattle.script_text.specs.Script.{whole_lines};
ghost use Rattle.pps_script.specs.Lines.{RunsLine, ServesTextOn, EndsTextOn, RunsText, RunsRest, AnswersLineFault, IsPart, ReportsBad, count_of};

use crate::fault::ScriptFault;
use crate::line::serve_line;
use crate::manner::{BadLines, Manner};
use memchr::memchr;
use pps_engine::Engine;
use pps_types::Exchange;
use script_text::LineFault;
use std::alloc::Global;
use std::io::Write;

/// How the lines of a script are answered, and how many there were.
#[derive(Drop)]
pub(crate) struct Session {
    alloc: Global,
    manner: Manner,
    /// What was printed for the last line. It is used again for the next, and keeps the memory of the longest answer.
    text: Vec<u8>,
    lines: u64,
}

impl Session {
    /// A session before its first line.
    pub(crate) fn new(alloc: Global, manner: Manner) -> Session
        ensures manner { result.manner ≡ manner }
        ensures count { count_of result ≡ 0 }
    {
        Session {
            alloc,
            manner,
            text: Vec::new(alloc),
            lines: 0,
        }
    }

    // Runs a line, without its line feed. A bad one ends the script, or is reported.
    fn run_line<R, W: Write, B: BadLines>(
        &mut self,
        engine: &mut Engine,
        exchange: &mut Exchange<R, W>,
        bad_lines: &mut B,
        line: &[u8],
    ) -> Result<(), ScriptFault>
        ensures manner { self.new.manner ≡ self.old.manner }
        ensures count { count_of self.new ≡ counted_once_more (count_of self.old) }
        ensures runs { RunsLine W.contents self.old exchange.old exchange.new
            engine.old.content engine.new.content line.now result }
        ensures fault { AnswersLineFault exchange.old exchange.new result }
        ensures reports { ReportsBad B.reports self.old (line.now ∷ [])
            bad_lines.old bad_lines.new result }
        ensures input { input_of exchange.new ≡ input_of exchange.old }
    {
        self.lines = self.lines.saturating_add(1);
        match serve_line(self.alloc, engine, self.manner.show, line, &mut self.text) {
            Err(LineFault::BadLine) => {
                if !self.manner.patient {
                    return Err(ScriptFault::BadLine { line: self.lines });
                }
                bad_lines.report(self.lines);
                return Ok(());
            }
            Err(LineFault::OutOfMemory) => return Err(ScriptFault::OutOfMemory),
            Ok(()) => {}
        }
        exchange.answer(self.text.as_slice())?;
        Ok(())
    }

    // Runs the lines that are whole, and gives what comes after them.
    fn run_lines<'t, R, W: Write, B: BadLines>(
        &mut self,
        engine: &mut Engine,
        exchange: &mut Exchange<R, W>,
        bad_lines: &mut B,
        text: &'t [u8],
    ) -> Result<&'t [u8], ScriptFault>
        ensures manner { self.new.manner ≡ self.old.manner }
        ensures part { IfOk result (λ part. IsPart part.now) }
        ensures serves { IfOk result (λ part. ServesTextOn W.contents self.old self.new
            exchange.old exchange.new engine.old.content engine.new.content text.now part.now) }
        ensures ends { IfErr result (λ fault. EndsTextOn W.contents self.old
            exchange.old exchange.new engine.old.content engine.new.content text.now fault) }
        ensures fault { AnswersLineFault exchange.old exchange.new result }
        ensures reports { ReportsBad B.reports self.old (whole_lines text.now)
            bad_lines.old bad_lines.new result }
        ensures input { input_of exchange.new ≡ input_of exchange.old }
    {
        let mut rest = text;
        'lines: while let Some(end) = memchr(b'\n', rest) {
            self.run_line(engine, exchange, bad_lines, &rest[..end])?;
            rest = &rest[end + 1..];
        }
        Ok(rest)
    }

    // Takes a piece where a line begins. What it ends in is kept as a part of a line.
    fn begin<R, W: Write, B: BadLines>(
        &mut self,
        engine: &mut Engine,
        exchange: &mut Exchange<R, W>,
        bad_lines: &mut B,
        part: &mut Vec<u8>,
        piece: &[u8],
    ) -> Result<(), ScriptFault>
        requires { part.old.items ≡ [] }
        ensures manner { self.new.manner ≡ self.old.manner }
        ensures part { OnOk result (IsPart part.new.items) }
        ensures runs { RunsText W.contents self.old self.new exchange.old exchange.new
            engine.old.content engine.new.content piece.now part.new.items result }
        ensures fault { AnswersLineFault exchange.old exchange.new result }
        ensures reports { ReportsBad B.reports self.old (whole_lines piece.now)
            bad_lines.old bad_lines.new result }
        ensures input { input_of exchange.new ≡ input_of exchange.old }
    {
        let rest = self.run_lines(engine, exchange, bad_lines, piece)?;
        part.extend_from_slice(rest)?;
        Ok(())
    }

    /// Takes the next piece. What it ends in is kept as a part of a line.
    pub(crate) fn feed<R, W: Write, B: BadLines>(
        &mut self,
        engine: &mut Engine,
        exchange: &mut Exchange<R, W>,
        bad_lines: &mut B,
        part: &mut Vec<u8>,
        piece: &[u8],
    ) -> Result<(), ScriptFault>
        requires { IsPart part.old.items }
        ensures manner { self.new.manner ≡ self.old.manner }
        ensures part { OnOk result (IsPart part.new.items) }
        ensures runs { RunsText W.contents self.old self.new exchange.old exchange.new
            engine.old.content engine.new.content
            (part.old.items ++ piece.now) part.new.items result }
        ensures fault { AnswersLineFault exchange.old exchange.new result }
        ensures reports { ReportsBad B.reports self.old (whole_lines (part.old.items ++ piece.now))
            bad_lines.old bad_lines.new result }
        ensures input { input_of exchange.new ≡ input_of exchange.old }
    {
        if part.is_empty() {
            return self.begin(engine, exchange, bad_lines, part, piece);
        }
        let Some(end) = memchr(b'\n', piece) else {
            part.extend_from_slice(piece)?;
            return Ok(());
        };
        part.extend_from_slice(&piece[..end])?;
        self.run_line(engine, exchange, bad_lines, part.as_slice())?;
        part.clear();
        self.begin(engine, exchange, bad_lines, part, &piece[end + 1..])
    }

    /// Runs the rest after the last line feed: it is a line too, unless it is empty.
    pub(crate) fn finish<R, W: Write, B: BadLines>(
        &mut self,
        engine: &mut Engine,
        exchange: &mut Exchange<R, W>,
        bad_lines: &mut B,
        part: &[u8],
    ) -> Result<(), ScriptFault>
        ensures runs { RunsRest W.contents self.old exchange.old exchange.new
            engine.old.content engine.new.content part.now result }
        ensures fault { AnswersLineFault exchange.old exchange.new result }
        ensures reports { ReportsBad B.reports self.old (without_empty_end (part.now ∷ []))
            bad_lines.old bad_lines.new result }
        ensures input { input_of exchange.new ≡ input_of exchange.old }
    {
        if part.is_empty() {
            return Ok(());
        }
        self.run_line(engine, exchange, bad_lines, part)
    }
}
