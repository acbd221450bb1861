//! Books, alone and behind a lock.
ghost use Rattle.std.specs.Prelude.{◌≤◌};

use crate::scripts::{event, is_printed, new_engine, same};
use pps_engine::Engine;
use pps_lock::{Book, Segment, Shared, Stepped, TraceFull};
use pps_types::{Conn, Event, Refusal};
use std::alloc::Global;
use std::process::Abort;
use std::sync::{Arc, Wait};
use std::test::Fail;

/// A command, what its answer is printed as, and the segment of its entry and its place there. If there is no room for it,
/// the trace is cut, and the event that comes back is asked again.
type Row<'a> = (&'a [u8], &'a [u8], u64, usize);

/// Of a book with room for two entries.
const FILLED_AND_CUT: [Row<'static>; 3] = [
    (b"1 attach", b"1 ok", 0, 0),
    (b"1 attach", b"1 refused 4 AlreadyAttached", 0, 1),
    (b"1 receive", b"1 empty", 1, 0),
];

/// Of a book with room for 65,536 entries.
const ASKED_AND_ANSWERED: [Row<'static>; 3] = [
    (b"1 attach", b"1 ok", 0, 0),
    (b"1 mkdir /maps", b"1 ok", 0, 1),
    (b"1 list /", b"1 data 6 maps/\\n", 0, 2),
];

/// Of a book behind a lock, with room for one entry.
const SHARED: [Row<'static>; 2] = [(b"1 attach", b"1 ok", 0, 0), (b"2 attach", b"2 ok", 1, 0)];

/// The command of a line, to be shared with a trace.
fn sent(alloc: Global, line: &[u8]) -> Result<Arc<Event>, Refusal> {
    let event = event(alloc, line)?;
    Ok(Arc::new(alloc, event)?)
}

/// A book with a new engine.
fn begun(alloc: Global, limit: usize) -> Result<Book, Refusal>
    requires at_least { 1 ≤ limit }
    requires at_most { limit ≤ 65536 }
{
    let engine = Engine::new(alloc)?;
    let Ok(book) = Book::new(alloc, engine, limit) else {
        return Err(Refusal::OutOfMemory);
    };
    Ok(book)
}

fn step(book: &mut Book, event: Arc<Event>) -> Result<Stepped, TraceFull> {
    book.step(event)
}

fn cut(book: &mut Book, segments: &mut Vec<Segment>) -> Result<(), Refusal> {
    segments.push(book.cut()?)?;
    Ok(())
}

fn ask(
    alloc: Global,
    book: &mut Book,
    segments: &mut Vec<Segment>,
    line: &[u8],
) -> Result<Stepped, Refusal> {
    match step(book, sent(alloc, line)?) {
        Ok(stepped) => Ok(stepped),
        Err(TraceFull { event }) => {
            cut(book, segments)?;
            step(book, event).map_err(|_| Refusal::TableFull)
        }
    }
}

fn step_shared(rt: &impl Wait, shared: &Shared, event: Arc<Event>) -> Result<Stepped, TraceFull> {
    shared.step(rt, event)
}

fn cut_shared(rt: &impl Wait, shared: &Shared, segments: &mut Vec<Segment>) -> Result<(), Refusal> {
    segments.push(shared.cut(rt)?)?;
    Ok(())
}

fn ask_shared(
    rt: &impl Wait,
    alloc: Global,
    shared: &Shared,
    segments: &mut Vec<Segment>,
    line: &[u8],
) -> Result<Stepped, Refusal> {
    match step_shared(rt, shared, sent(alloc, line)?) {
        Ok(stepped) => Ok(stepped),
        Err(TraceFull { event }) => {
            cut_shared(rt, shared, segments)?;
            step_shared(rt, shared, event).map_err(|_| Refusal::TableFull)
        }
    }
}

/// Whether this was the answer, and this the name of its entry.
fn has_stepped(alloc: Global, stepped: &Stepped, row: &Row) -> Result<bool, Refusal> {
    let conn = event(alloc, row.0)?.conn;
    let is_answer = is_printed(alloc, conn, &stepped.reply, row.1)?;
    let receipt = &stepped.receipt;
    Ok(is_answer && receipt.segment == row.2 && receipt.index == row.3)
}

fn fill(
    rt: &impl Abort,
    alloc: Global,
    book: &mut Book,
    segments: &mut Vec<Segment>,
    rows: &[Row],
) -> Result<(), Refusal> {
    for row in rows {
        let stepped = ask(alloc, book, segments, row.0)?;
        assert!(rt; has_stepped(alloc, &stepped, row)?);
    }
    book.replays();
    cut(book, segments)
}

fn fill_shared<R: Abort + Wait>(
    rt: &R,
    alloc: Global,
    shared: &Shared,
    segments: &mut Vec<Segment>,
    rows: &[Row],
) -> Result<(), Refusal> {
    for row in rows {
        let stepped = ask_shared(rt, alloc, shared, segments, row.0)?;
        assert!(rt; has_stepped(alloc, &stepped, row)?);
    }
    Ok(())
}

/// Whether the entry of a row has what was asked and answered.
fn has_entry(alloc: Global, segment: &Segment, row: &Row) -> Result<bool, Refusal> {
    let asked = event(alloc, row.0)?;
    match segment.entries().get(row.3) {
        Some(entry) => {
            let is_answer = is_printed(alloc, asked.conn, entry.reply(), row.1)?;
            Ok(is_answer && *entry.event() == asked)
        }
        None => Ok(false),
    }
}

/// Sees that a segment has the entries of its rows, and no others.
fn check_segment(
    rt: &impl Abort,
    alloc: Global,
    segment: &Segment,
    rows: &[Row],
) -> Result<(), Refusal> {
    segment.replays();
    let mut count = 0_usize;
    for row in rows {
        if row.2 == segment.number() {
            assert!(rt; has_entry(alloc, segment, row)?);
            count = count.saturating_add(1);
        }
    }
    assert_eq!(rt; segment.entries().len(), count);
    Ok(())
}

/// Sees that segments are numbered, join each other, and have what was asked and answered.
fn check(
    rt: &impl Abort,
    alloc: Global,
    before: &Engine,
    segments: &[Segment],
    rows: &[Row],
) -> Result<(), Refusal> {
    let mut base = before;
    for (place, segment) in segments.iter().enumerate() {
        assert_eq!(rt; segment.number(), place as u64);
        assert!(rt; same(segment.base(), base));
        assert!(rt; !same(segment.end(), before));
        check_segment(rt, alloc, segment, rows)?;
        base = segment.end();
    }
    Ok(())
}

fn assert_book(
    rt: &impl Abort,
    alloc: Global,
    limit: usize,
    rows: &[Row],
    count: usize,
) -> Result<(), Refusal>
    requires at_least { 1 ≤ limit }
    requires at_most { limit ≤ 65536 }
{
    let before = new_engine(alloc)?;
    let mut book = begun(alloc, limit)?;
    let mut segments = Vec::new(alloc);
    fill(rt, alloc, &mut book, &mut segments, rows)?;
    assert_eq!(rt; segments.len(), count);
    check(rt, alloc, &before, &segments, rows)
}

#[test]
fn books_are_filled_and_cut(rt: HostRuntime) -> Result<(), Fail> {
    assert_book(&rt, rt.alloc(), 2, &FILLED_AND_CUT, 2)?;
    assert_book(&rt, rt.alloc(), 65_536, &ASKED_AND_ANSWERED, 1)?;
    Ok(())
}

#[test]
fn books_are_shared(rt: HostRuntime) -> Result<(), Fail> {
    let alloc = rt.alloc();
    let before = new_engine(alloc)?;
    let shared = Shared::new(begun(alloc, 1)?);
    let mut segments = Vec::new(alloc);
    fill_shared(&rt, alloc, &shared, &mut segments, &SHARED)?;
    assert_eq!(rt; segments.len(), 1);
    let mut book = shared.into_book();
    cut(&mut book, &mut segments)?;
    assert_eq!(rt; segments.len(), 2);
    check(&rt, alloc, &before, &segments, &SHARED)?;
    Ok(())
}
