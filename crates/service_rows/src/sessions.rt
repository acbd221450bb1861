//! Scripts as sessions, each of a connection, which several workers serve.
ghost use Rattle.std.specs.Prelude.{◌≤◌};

use crate::refused::{Call, Refused};
use crate::rows::Row;
use crate::slip::Slip;
use pps_dispatch::{Gate, ServeError, Served, Session, distinct, serve, session_of};
use pps_engine::Engine;
use pps_types::Conn;
use std::alloc::Global;
use std::sync::Wait;
use std::thread::Threads;

/// How many entries the trace has before it is cut.
const TRACE_LIMIT: usize = 5;

/// How many messages of a session are served at once.
const AT_ONCE: usize = 3;

/// A gate that is always open.
struct OpenGate;

impl Gate for OpenGate {
    fn at_once(&self) -> usize {
        AT_ONCE
    }

    fn enter(&self, _conn: Conn, _first: u64, _last: u64) {}

    fn leave(&self, _conn: Conn, _first: u64, _last: u64) {}
}

// The commands of a connection, as a script.
fn script(alloc: Global, rows: &[Row<'_>], conn: Conn) -> Result<Vec<u8>, Slip> {
    let mut script = Vec::new(alloc);
    for row in rows {
        if row.event.conn == conn {
            script.extend_from_slice(row.line)?;
            script.push(b'\n')?;
        }
    }
    Ok(script)
}

// The session of a connection. If it is refused, it is asked for again.
fn session(
    alloc: Global,
    rows: &[Row<'_>],
    conn: Conn,
    refused: &mut Refused,
) -> Result<Session, Slip> {
    let script = script(alloc, rows, conn)?;
    if let Ok(session) = session_of(alloc, conn, script.as_slice()) {
        return Ok(session);
    }
    refused.note(Call::SessionOf);
    match session_of(alloc, conn, script.as_slice()) {
        Ok(session) => Ok(session),
        Err(_) => Err(Slip::OutOfMemory),
    }
}

// A session for each connection of the rows.
fn sessions(alloc: Global, rows: &[Row<'_>], refused: &mut Refused) -> Result<Vec<Session>, Slip> {
    let mut sessions: Vec<Session> = Vec::new(alloc);
    for row in rows {
        let conn = row.event.conn;
        if !sessions.iter().any(|session| session.conn() == conn) {
            sessions.push(session(alloc, rows, conn, refused)?)?;
        }
    }
    Ok(sessions)
}

// Serves the rows' sessions.
fn served<R: Threads + Wait + Sync>(
    rt: &R,
    alloc: Global,
    rows: &[Row<'_>],
    workers: usize,
    refused: &mut Refused,
) -> Result<Result<Served, ServeError>, Slip>
    requires { (1 ≤ workers) × (workers ≤ 8) }
{
    let sessions = sessions(alloc, rows, refused)?;
    let engine = Engine::new(alloc)?;
    if !distinct(&sessions) {
        return Err(Slip::Other);
    }
    Ok(serve(rt, alloc, engine, sessions, workers, TRACE_LIMIT, &OpenGate))
}

// How many entries a history has.
fn count_entries(served: &Served) -> usize {
    let mut count = 0usize;
    for segment in &served.segments {
        count = count.saturating_add(segment.entries().len());
    }
    count
}

/// Serves the rows' sessions by so many workers, and once more if there was no memory for it. Each message has its entry.
pub(crate) fn play<R: Threads + Wait + Sync>(
    rt: &R,
    alloc: Global,
    rows: &[Row<'_>],
    workers: usize,
    refused: &mut Refused,
) -> Result<(), Slip>
    requires { (1 ≤ workers) × (workers ≤ 8) }
{
    let mut ended = served(rt, alloc, rows, workers, refused)?;
    if let Err(ServeError::OutOfMemory) = ended {
        refused.note(Call::Serve);
        ended = served(rt, alloc, rows, workers, refused)?;
    }
    match ended {
        Ok(served) if count_entries(&served) == rows.len() => Ok(()),
        Err(ServeError::OutOfMemory) => Err(Slip::OutOfMemory),
        _ => Err(Slip::Other),
    }
}
