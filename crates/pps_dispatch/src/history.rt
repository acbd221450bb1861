//! What `serve` looks for once all workers have ended: that what came back is one history of the sessions.
ghost use Rattle.std.specs.Prelude.{◌≡◌, ℕ, List, true, length, map, replicate, IsTrue, IfOk, OnOk};
ghost use Rattle.pps_types.specs.Content.{Content};
ghost use Rattle.pps_types.specs.Merge.{are_distinct};
ghost use Rattle.pps_lock.specs.Trace.{Piece, Replays};
ghost use Rattle.pps_dispatch.specs.History.{Joins, joined, AreNamed, Merges};
ghost use Rattle.pps_dispatch.specs.Search.{Knows, not_begun, FindsEvent, FindsReceipt, FindsEntry, FindsSegment, FindsSegments, AreFound};

use crate::alike::is_same;
use crate::fault::ServeError;
use crate::session::Session;
use crate::session_index::SessionIndex;
use pps_engine::Engine;
use pps_lock::{Entry, Receipt, Segment};
use std::alloc::Global;

/// The engine as it is behind the segments: each has the next number and begins where the one before it has ended.
pub(crate) fn joined_end(first: &Engine, segments: &[Segment]) -> Result<Engine, ServeError>
    ensures { IfOk result (λ engine. Joins 0 first.now.content segments.now engine.content) }
{
    let mut end = first;
    for (number, segment) in segments.iter().enumerate() {
        segment.replays();
        if segment.number() != number as u64 || !segment.base().same(end) {
            return Err(ServeError::Mismatch);
        }
        end = segment.end();
    }
    let engine = end.copy()?;
    Ok(engine)
}

/// Does nothing. Its contract is the law that the entries of segments that join replay as one trace.
pub fn joined_segments_replay()
    ensures { (n : ℕ) (c d : Content) (ps : List Piece) → Joins n c ps d → Replays c (joined ps) d }
{}

/// How much of a session was found in the trace so far: so many messages, with their receipts.
#[derive(Clone, Copy)]
pub(crate) struct Found {
    messages: usize,
}

// What is found of a session with one entry more.
fn found_next(
    entry: &Entry,
    place: Receipt,
    asked: &Session,
    answered: &Session,
    found: Found,
) -> Result<Found, ServeError>
    ensures events { IfOk result (λ next. FindsEvent asked.now found entry.now next) }
    ensures receipts { IfOk result (λ next. FindsReceipt answered.now found place next) }
{
    let Some(message) = asked.messages().get(found.messages) else {
        return Err(ServeError::Mismatch);
    };
    let Some(receipt) = answered.receipts().get(found.messages) else {
        return Err(ServeError::Mismatch);
    };
    if !is_same(message.event(), entry.event()) || *receipt != place {
        return Err(ServeError::Mismatch);
    }
    Ok(Found {
        messages: found.messages + 1,
    })
}

// Finds one entry more: its session has this message and this receipt next.
fn find_entry(
    index: &SessionIndex,
    asked: &[Session],
    answered: &[Session],
    found: &mut [Found],
    entry: &Entry,
    place: Receipt,
) -> Result<(), ServeError>
    requires distinct { are_distinct (map (λ s. s.connection) asked.now) ≡ true }
    requires index { Knows index.now.numbers asked.now (length asked.now) }
    requires answered { length answered.now ≡ length asked.now }
    requires found { length found.old ≡ length asked.now }
    ensures { OnOk result (FindsEntry asked.now answered.now found.old found.new place entry.now) }
{
    let Some(number) = index.session_of(asked, entry.event().conn) else {
        return Err(ServeError::Mismatch);
    };
    let next = found_next(
        entry,
        place,
        &asked[number],
        &answered[number],
        found[number],
    )?;
    found[number] = next;
    Ok(())
}

// Finds the entries of one segment more.
fn find_segment(
    index: &SessionIndex,
    asked: &[Session],
    answered: &[Session],
    found: &mut [Found],
    segment: &Segment,
) -> Result<(), ServeError>
    requires distinct { are_distinct (map (λ s. s.connection) asked.now) ≡ true }
    requires index { Knows index.now.numbers asked.now (length asked.now) }
    requires answered { length answered.now ≡ length asked.now }
    requires found { length found.old ≡ length asked.now }
    ensures { OnOk result (FindsSegment asked.now answered.now found.old found.new segment.now) }
{
    for (place, entry) in segment.entries().iter().enumerate() {
        let receipt = Receipt {
            segment: segment.number(),
            index: place,
        };
        find_entry(index, asked, answered, found, entry, receipt)?;
    }
    Ok(())
}

// Finds the entries of all segments.
fn find_segments(
    alloc: Global,
    asked: &[Session],
    answered: &[Session],
    found: &mut [Found],
    segments: &[Segment],
) -> Result<(), ServeError>
    requires distinct { are_distinct (map (λ s. s.connection) asked.now) ≡ true }
    requires answered { length answered.now ≡ length asked.now }
    requires found { length found.old ≡ length asked.now }
    ensures { OnOk result (FindsSegments asked.now answered.now found.old found.new segments.now) }
{
    let index = SessionIndex::new(alloc, asked)?;
    for segment in segments {
        find_segment(&index, asked, answered, found, segment)?;
    }
    Ok(())
}

// Whether that is all there is of a session.
fn is_all(asked: &Session, answered: &Session, found: Found) -> bool
    ensures connection { IsTrue result → answered.now.connection ≡ asked.now.connection }
    ensures events { IsTrue result → length asked.now.events ≡ found.messages }
    ensures receipts { IsTrue result → length answered.now.receipts ≡ found.messages }
{
    answered.conn() == asked.conn()
        && asked.messages().len() == found.messages
        && answered.receipts().len() == found.messages
}

// Whether that is all there is of the sessions.
fn are_all(asked: &[Session], answered: &[Session], found: &[Found]) -> bool
    requires answered { length answered.now ≡ length asked.now }
    requires found { length found.now ≡ length asked.now }
    ensures { IsTrue result → AreFound asked.now answered.now found.now (length asked.now) }
{
    for number in 0..asked.len() {
        if !is_all(&asked[number], &answered[number], found[number]) {
            return false;
        }
    }
    true
}

// Finds the entries of all segments, and that they are all there is of the sessions. Nothing may be found before.
fn find_all(
    alloc: Global,
    segments: &[Segment],
    asked: &[Session],
    answered: &[Session],
    found: &mut [Found],
) -> Result<(), ServeError>
    requires distinct { are_distinct (map (λ s. s.connection) asked.now) ≡ true }
    requires answered { length answered.now ≡ length asked.now }
    requires found { found.old ≡ replicate (length asked.now) not_begun }
    ensures merge { OnOk result (Merges asked.now segments.now) }
    ensures named { OnOk result (AreNamed segments.now asked.now answered.now) }
{
    find_segments(alloc, asked, answered, found, segments)?;
    if !are_all(asked, answered, found) {
        return Err(ServeError::Mismatch);
    }
    Ok(())
}

/// Finds that the entries of the segments are a merge of the messages, and that each session has the names of its entries
/// as receipts. It goes through the entries once.
pub(crate) fn check_history(
    alloc: Global,
    segments: &[Segment],
    asked: &[Session],
    answered: &[Session],
) -> Result<(), ServeError>
    requires { are_distinct (map (λ s. s.connection) asked.now) ≡ true }
    ensures merge { OnOk result (Merges asked.now segments.now) }
    ensures named { OnOk result (AreNamed segments.now asked.now answered.now) }
{
    if answered.len() != asked.len() {
        return Err(ServeError::Mismatch);
    }
    let none = Found { messages: 0 };
    let mut found = Vec::from_elem(alloc, none, asked.len())?;
    find_all(alloc, segments, asked, answered, found.as_mut_slice())
}
