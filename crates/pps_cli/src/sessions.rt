//! Script files, served as sessions by several threads.
ghost use Rattle.std.specs.Prelude.{◌≡◌, All, IfOk, IfErr, OnErr, length, map, option_map};
ghost use Rattle.pps_types.specs.Device.{device_inner};
ghost use Rattle.pps_types.specs.Writing.{SendsTo};
ghost use Rattle.pps_dispatch.specs.History.{joined};
ghost use Rattle.pps_jobs.specs.Images.{FailsWithFiles, SavesAs};
ghost use Rattle.pps_cli.specs.Sessions.{IsOfFile, AreOfFiles, FailsSession, FailsSessions, FailsToAnswer, TellsOfScripts, TellsOutput, PrintsFiles, PrintsSomeFiles, Serves};
ghost use Rattle.command_line.specs.Names.{scripts_of};
ghost use Rattle.pps_dispatch.specs.Named.{Names};
ghost use Rattle.pps_dispatch.specs.Printed.{sessions_text, connections_of, history_text};

use command_line::ServeOptions;
use pps_dispatch::{
    Gate, Segment, ServeError, Served, Session, SessionFault, distinct, serve_named, session_of,
    write_history, write_sessions,
};
use pps_engine::Engine;
use pps_jobs::{Failure, Fault, ServingFault, cannot_replace, read_file};
use pps_persist::{Contents, FileFault, ImageFiles};
use pps_types::{AnswerFault, Conn, Device};
use std::alloc::Global;
use std::io::Write;
use std::sync::Wait;
use std::thread::Threads;

/// How many entries the trace has before it is cut: the most that it may have, since each cut copies the engine.
const TRACE_LIMIT: usize = 65_536;

/// How many messages of a session several workers serve at once.
const AT_ONCE: usize = 64;

/// A gate that is always open, and that nobody watches.
#[derive(Drop)]
struct OpenGate {
    at_once: usize,
}

impl OpenGate {
    // With one worker the sessions take turns, one message each.
    fn new(workers: usize) -> OpenGate {
        let at_once = if workers == 1 { 1 } else { AT_ONCE };
        OpenGate { at_once }
    }
}

impl Gate for OpenGate {
    fn at_once(&self) -> usize {
        self.at_once
    }

    fn enter(&self, _conn: Conn, _first: u64, _last: u64) {}

    fn leave(&self, _conn: Conn, _first: u64, _last: u64) {}
}

// The session of a script file.
fn read_session<'w, F: ImageFiles>(
    alloc: Global,
    files: &F,
    conn: Conn,
    file: &'w str,
) -> Result<Session, Failure<'w>>
    ensures session { IfOk result (λ session. IsOfFile (F.held files.now file.now) conn session) }
    ensures fails { IfErr result (FailsSession (F.held files.now file.now) conn file.now) }
    ensures files { IfErr result (FailsWithFiles (F.held files.now) (F.may_fail files.now)) }
{
    let text = match read_file(alloc, files, file) {
        Ok(text) => text,
        Err(FileFault::OutOfMemory) => return Err(Failure::Fault(Fault::OutOfMemory)),
        Err(FileFault::Failed) => return Err(Failure::CannotRead { file }),
    };
    match session_of(alloc, conn, text.as_slice()) {
        Ok(session) => Ok(session),
        Err(SessionFault::BadLine { line }) => Err(Failure::BadLineOf { file, line }),
        Err(SessionFault::OutOfMemory) => Err(Failure::Fault(Fault::OutOfMemory)),
    }
}

// The sessions of script files: file K is that of connection K.
fn read_sessions<'w, F: ImageFiles>(
    alloc: Global,
    files: &F,
    scripts: &[&'w str],
) -> Result<Vec<Session>, Failure<'w>>
    ensures count { IfOk result (λ sessions. length sessions.items ≡ length scripts.now) }
    ensures scripts { IfOk result (λ sessions.
        AreOfFiles (F.held files.now) (map (λ file. file.now) scripts.now) sessions.items) }
    ensures fails { IfErr result (
        FailsSessions (F.held files.now) (map (λ file. file.now) scripts.now)) }
    ensures files { IfErr result (FailsWithFiles (F.held files.now) (F.may_fail files.now)) }
{
    let mut sessions = Vec::new(alloc);
    let mut conn: u16 = 0;
    'scripts: for file in scripts {
        conn = conn.saturating_add(1);
        let session = read_session(alloc, files, Conn::new(conn), *file)?;
        sessions.reserve(1)?;
        sessions.push_reserved(session);
    }
    Ok(sessions)
}

// Writes what the sessions were answered, and says what it ended with.
fn write_answers<'w, O: Write>(
    alloc: Global,
    scripts: &[&'w str],
    served: &Served,
    output: &mut Device<O>,
) -> Result<(), Failure<'w>>
    requires files { length scripts.now ≡ length served.now.sessions.items }
    requires named { All (Names served.now.segments.items) served.now.sessions.items }
    ensures bytes { SendsTo O.contents output.old output.new
        (sessions_text (map (λ file. file.now) scripts.now)
        (connections_of served.now.sessions.items) (joined served.now.segments.items)) result }
    ensures told { IfErr result FailsToAnswer }
    ensures output { TellsOutput output.old output.new result }
{
    let segments = served.segments.as_slice();
    match write_sessions(alloc, scripts, segments, served.sessions.as_slice(), output) {
        Ok(()) => Ok(()),
        Err(AnswerFault::OutOfMemory) => Err(Failure::Fault(Fault::OutOfMemory)),
        Err(AnswerFault::WriteFault) => Err(Failure::Fault(Fault::CannotWriteOutput)),
    }
}

// The order in which messages were served.
#[derive(Clone, Copy)]
struct History<'s> {
    segments: &'s [Segment],
}

impl Contents for History<'_> {
    ghost use Rattle.pps_dispatch.specs.History.{joined};
    ghost use Rattle.pps_dispatch.specs.Printed.{history_text};

    ghost bytes = { λ it. history_text (joined it.segments.now) };

    fn write_to<O: Write>(&self, alloc: Global, device: &mut Device<O>) -> Result<(), FileFault> {
        match write_history(alloc, self.segments, device) {
            Ok(()) => Ok(()),
            Err(AnswerFault::OutOfMemory) => Err(FileFault::OutOfMemory),
            Err(AnswerFault::WriteFault) => Err(FileFault::Failed),
        }
    }
}

// Replaces a file, if one is named, by the order in which the messages were served.
fn save_history<'w, F: ImageFiles>(
    alloc: Global,
    files: &mut F,
    segments: &[Segment],
    file: Option<&'w str>,
) -> Result<(), Failure<'w>>
    ensures saves { SavesAs (option_map (λ name. name.now) file.entry)
        (F.replaced files.old) (F.replaced files.new)
        (history_text (joined segments.now)) result }
    ensures files { IfErr result (FailsWithFiles (F.held files.old) (F.may_fail files.old)) }
{
    let Some(file) = file else {
        return Ok(());
    };
    match files.replace(alloc, file, &History { segments }) {
        Ok(()) => Ok(()),
        Err(fault) => Err(cannot_replace(fault, file)),
    }
}

// Reads the scripts, serves their sessions together, and writes their answers.
fn serve_sessions<'w, F: ImageFiles, R: Threads + Wait + Sync, O: Write>(
    rt: &R,
    alloc: Global,
    files: &F,
    options: &ServeOptions<'w>,
    output: &mut Device<O>,
) -> Result<Served, Failure<'w>>
    ensures all { IfOk result (λ served.
        PrintsFiles (F.held files.now) (scripts_of options.now) served.segments.items
        (O.contents (device_inner output.old)) (O.contents (device_inner output.new))) }
    ensures told { IfErr result (TellsOfScripts (F.held files.now) (scripts_of options.now)) }
    ensures files { IfErr result (FailsWithFiles (F.held files.now) (F.may_fail files.now)) }
    ensures some { OnErr result (
        PrintsSomeFiles (F.held files.now) (scripts_of options.now)
        (O.contents (device_inner output.old)) (O.contents (device_inner output.new))) }
    ensures output { TellsOutput output.old output.new result }
{
    let scripts = options.scripts.as_slice();
    let sessions = read_sessions(alloc, files, scripts)?;
    if !distinct(sessions.as_slice()) {
        return Err(Failure::Serve(ServingFault::Mismatch));
    }
    let engine = Engine::new(alloc)?;
    let workers = options.workers.count();
    let gate = OpenGate::new(workers);
    match serve_named(rt, alloc, engine, sessions, workers, TRACE_LIMIT, &gate) {
        Ok(served) => {
            write_answers(alloc, scripts, &served, output)?;
            Ok(served)
        }
        Err(ServeError::OutOfMemory) => Err(Failure::Serve(ServingFault::OutOfMemory)),
        Err(ServeError::Mismatch) => Err(Failure::Serve(ServingFault::Mismatch)),
    }
}

/// Reads the scripts, serves their sessions together, and writes their answers to the output, and the order of their
/// messages to a file where one is named. A file is said not to be read or written only if it may fail, or has more bytes
/// than are read; the output, only where it failed, or once took none of some bytes.
pub(crate) fn serve_scripts<'w, F: ImageFiles, R: Threads + Wait + Sync, O: Write>(
    rt: &R,
    alloc: Global,
    files: &mut F,
    options: &ServeOptions<'w>,
    output: &mut Device<O>,
) -> Result<(), Failure<'w>>
    ensures serves { Serves (F.held files.old) options.now
        (O.contents (device_inner output.old)) (O.contents (device_inner output.new))
        (F.replaced files.old) (F.replaced files.new) result }
    ensures files { IfErr result (FailsWithFiles (F.held files.old) (F.may_fail files.old)) }
    ensures output { TellsOutput output.old output.new result }
{
    let served = serve_sessions(rt, alloc, files, options, output)?;
    save_history(alloc, files, served.segments.as_slice(), options.history)
}
