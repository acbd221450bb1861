//! Many sessions, served by several workers as one history.
ghost use Rattle.std.specs.Prelude.{◌≡◌, ◌≤◌, true, length, map, vec_len, IfOk};
ghost use Rattle.pps_types.specs.Merge.{are_distinct};
ghost use Rattle.pps_dispatch.specs.History.{Joins, ReplaysAll, AreServed, AreServedByName, HaveMessages, Merges};

use crate::fault::ServeError;
use crate::framing::frame_answers;
use crate::gate::Gate;
use crate::history::{check_history, joined_end, joined_segments_replay};
use crate::run_queue::{SessionCount, fill, new_queue};
use crate::session::Session;
use crate::shared_book::SharedBook;
use crate::work::fan_out;
use pps_engine::Engine;
use pps_lock::{Book, Segment, Shared};
use std::alloc::Global;
use std::marker::Brand;
use std::sync::{Mutex, Wait};
use std::thread::Threads;

/// What `serve` gives back: the engine behind it all, the segments of the history, and the sessions with their answers.
#[derive(Drop)]
pub struct Served {
    pub engine: Engine,
    pub segments: Vec<Segment>,
    pub sessions: Vec<Session>,
}

/// `serve_named`, and the frames of the answers, which are made from the history: each session comes back with its
/// messages, the frames of its entries' answers, in order, and their names.
pub fn serve<G: Gate + Sync, R: Threads + Wait + Sync>(
    rt: &R,
    alloc: Global,
    engine: Engine,
    sessions: Vec<Session>,
    workers: usize,
    trace_limit: usize,
    gate: &G,
) -> Result<Served, ServeError>
    requires workers { (1 ≤ workers) × (workers ≤ 8) }
    requires limit { (1 ≤ trace_limit) × (trace_limit ≤ 65536) }
    requires distinct { are_distinct (map (λ s. s.connection) sessions.items) ≡ true }
    ensures joins { IfOk result (λ s. Joins 0 engine.content s.segments.items s.engine.content) }
    ensures replays { IfOk result (λ s. ReplaysAll engine s.segments.items s.engine) }
    ensures merge { IfOk result (λ s. Merges sessions.items s.segments.items) }
    ensures served { IfOk result (λ s. AreServed s.segments.items sessions.items s.sessions.items) }
{
    let mut served = serve_named(rt, alloc, engine, sessions, workers, trace_limit, gate)?;
    frame_answers(
        alloc,
        served.segments.as_slice(),
        served.sessions.as_mut_slice(),
    )?;
    Ok(served)
}

/// Serves all sessions, 1 to 8 workers at a time, over a trace that is cut off at its limit, 1 to 65,536 entries. No two
/// sessions may be of one connection. The first worker runs on this thread, once the others are started; one whose thread
/// cannot be started is left out.
///
/// The segments join, from what the engine stands for to what the one that comes back stands for. Their entries are the
/// sessions' messages, each once and in its session's order, and no others. Each session comes back with its messages and
/// the names of its entries, in order: its answers are those of these entries, and no frames of them are made.
///
/// The errors of workers come first, and of these the first worker's. Nothing rests on what workers promise: it keeps the
/// engine and the sessions as it was handed them, and compares.
pub fn serve_named<G: Gate + Sync, R: Threads + Wait + Sync>(
    rt: &R,
    alloc: Global,
    engine: Engine,
    sessions: Vec<Session>,
    workers: usize,
    trace_limit: usize,
    gate: &G,
) -> Result<Served, ServeError>
    requires workers { (1 ≤ workers) × (workers ≤ 8) }
    requires limit { (1 ≤ trace_limit) × (trace_limit ≤ 65536) }
    requires distinct { are_distinct (map (λ s. s.connection) sessions.items) ≡ true }
    ensures joins { IfOk result (λ s. Joins 0 engine.content s.segments.items s.engine.content) }
    ensures replays { IfOk result (λ s. ReplaysAll engine s.segments.items s.engine) }
    ensures merge { IfOk result (λ s. Merges sessions.items s.segments.items) }
    ensures named { IfOk result (λ s. AreServedByName s.segments.items sessions.items
        s.sessions.items) }
{
    let count = sessions.len();
    let copies = copies_of(alloc, sessions.as_slice())?;
    let copy = engine.copy()?;
    let Ok(book) = Book::new(alloc, copy, trace_limit) else {
        return Err(ServeError::OutOfMemory);
    };
    let book = Shared::new(book);
    let (cut, answered) = pool::<Brand, Shared, G, R>(
        rt, alloc, &book, copies, count, workers, gate,
    )?;
    let segments = all_segments(book, cut)?;
    let last = joined_end(&engine, segments.as_slice())?;
    joined_segments_replay();
    check_history(
        alloc,
        segments.as_slice(),
        sessions.as_slice(),
        answered.as_slice(),
    )?;
    Ok(Served {
        engine: last,
        segments,
        sessions: with_messages(answered, sessions),
    })
}

// What came back, with the messages that the sessions were handed in with.
fn with_messages(answered: Vec<Session>, sessions: Vec<Session>) -> Vec<Session>
    requires { length answered.items ≡ length sessions.items }
    ensures { HaveMessages answered.items sessions.items result.items }
{
    let mut answered = answered;
    let mut sessions = sessions;
    for number in 0..answered.len() {
        answered[number].exchange_messages(&mut sessions[number]);
    }
    answered
}

// The same sessions, of which nothing is answered yet, for the workers.
fn copies_of(alloc: Global, sessions: &[Session]) -> Result<Vec<Session>, ServeError>
    ensures { IfOk result (λ copies. vec_len copies ≡ length sessions.now) }
{
    let mut copies = Vec::new(alloc);
    for session in sessions {
        copies.reserve(1)?;
        copies.push_reserved(session.anew()?);
    }
    Ok(copies)
}

// Serves the sessions with the workers, and gives the segments that these have cut off and the sessions with their answers.
fn pool<
    N: SessionCount + Send + Sync,
    B: SharedBook + Sync,
    G: Gate + Sync,
    R: Threads + Wait + Sync,
>(
    rt: &R,
    alloc: Global,
    book: &B,
    sessions: Vec<Session>,
    count: usize,
    workers: usize,
    gate: &G,
) -> Result<(Vec<Segment>, Vec<Session>), ServeError>
    requires count { count ≡ N.count }
    requires sessions { count ≡ vec_len sessions }
{
    let slots = slots_of(alloc, sessions)?;
    let (queue, mut pass) = new_queue::<N>(alloc, count)?;
    fill(rt, &queue, &mut pass, count);
    let worked = fan_out(
        rt,
        alloc,
        book,
        slots.as_slice(),
        &queue,
        pass,
        gate,
        workers,
    )?;
    let sessions = sessions_of(alloc, slots)?;
    Ok((worked.segments, sessions))
}

// A slot for each session, in their order.
fn slots_of(alloc: Global, sessions: Vec<Session>) -> Result<Vec<Mutex<Session>>, ServeError>
    ensures { IfOk result (λ slots. vec_len slots ≡ vec_len sessions) }
{
    let mut slots = Vec::new(alloc);
    for session in sessions {
        slots.reserve(1)?;
        slots.push_reserved(Mutex::new(session));
    }
    Ok(slots)
}

// The sessions in the slots, once no worker has them any more.
fn sessions_of(alloc: Global, slots: Vec<Mutex<Session>>) -> Result<Vec<Session>, ServeError> {
    let mut sessions = Vec::new(alloc);
    for slot in slots {
        sessions.reserve(1)?;
        sessions.push_reserved(slot.into_inner());
    }
    Ok(sessions)
}

// The segments that were cut off and the last one, in the order of their numbers.
fn all_segments(book: Shared, segments: Vec<Segment>) -> Result<Vec<Segment>, ServeError> {
    let mut segments = segments;
    let mut book = book.into_book();
    segments.reserve(1)?;
    segments.push_reserved(book.cut()?);
    segments.sort_by_key(|segment| segment.number())?;
    Ok(segments)
}
