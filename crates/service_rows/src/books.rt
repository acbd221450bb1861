//! Scripts that a book answers, whose trace is cut.
ghost use Rattle.std.specs.Prelude.{◌≤◌};

use crate::engines::{copied, played};
use crate::refused::{Call, Refused};
use crate::rows::{Row, event};
use crate::slip::Slip;
use pps_engine::Engine;
use pps_lock::{Book, Entry, Segment, TraceFull};
use pps_types::{Event, Outcome, Refusal};
use std::alloc::Global;
use std::sync::Arc;

// A book with this engine. If it is refused, the engine comes back, and the book is asked for again.
fn begun(alloc: Global, engine: Engine, limit: usize, refused: &mut Refused) -> Result<Book, Slip>
    requires at_least { 1 ≤ limit }
    requires at_most { limit ≤ 65536 }
{
    let before = copied(&engine, refused)?;
    let engine = match Book::new(alloc, engine, limit) {
        Ok(book) => return Ok(book),
        Err((_, engine)) => engine,
    };
    refused.note(Call::BookNew);
    if !engine.same(&before) {
        return Err(Slip::Changed);
    }
    let Ok(book) = Book::new(alloc, engine, limit) else {
        return Err(Slip::OutOfMemory);
    };
    Ok(book)
}

// The next segment. If it is refused, it is asked for again.
fn cut(book: &mut Book, segments: &mut Vec<Segment>, refused: &mut Refused) -> Result<(), Slip> {
    segments.reserve(1)?;
    let segment = match book.cut() {
        Ok(segment) => segment,
        Err(_) => {
            refused.note(Call::BookCut);
            book.cut()?
        }
    };
    segments.push_reserved(segment);
    Ok(())
}

// The answer to an event. If the trace is full, it is cut, and the event that comes back is asked again.
fn ask(
    book: &mut Book,
    segments: &mut Vec<Segment>,
    event: Arc<Event>,
    refused: &mut Refused,
) -> Result<Result<Outcome, Refusal>, Slip> {
    let event = match book.step(event) {
        Ok(stepped) => return Ok(stepped.reply),
        Err(TraceFull { event }) => event,
    };
    cut(book, segments, refused)?;
    match book.step(event) {
        Ok(stepped) => Ok(stepped.reply),
        Err(_) => Err(Slip::Other),
    }
}

// Asks for each row, and once more if it is refused for want of memory. Gives for each entry the place of its row.
fn fill(
    alloc: Global,
    book: &mut Book,
    segments: &mut Vec<Segment>,
    rows: &[Row<'_>],
    refused: &mut Refused,
) -> Result<Vec<usize>, Slip> {
    let mut asked = Vec::new(alloc);
    for (place, row) in rows.iter().enumerate() {
        let event = Arc::new(alloc, event(alloc, row.line)?)?;
        let again = Arc::try_clone(&event)?;
        asked.push(place)?;
        let mut answer = ask(book, segments, event, refused)?;
        if answer == Err(Refusal::OutOfMemory) {
            refused.note(Call::BookStep);
            asked.push(place)?;
            answer = ask(book, segments, again, refused)?;
        }
        if answer == Err(Refusal::OutOfMemory) {
            return Err(Slip::OutOfMemory);
        }
    }
    cut(book, segments, refused)?;
    Ok(asked)
}

// Whether an entry is a row's, with its answer or with none for want of memory.
fn is_entry_of(alloc: Global, entry: &Entry, row: &Row<'_>) -> Result<bool, Slip> {
    let is_answer = *entry.reply() == Err(Refusal::OutOfMemory)
        || row.is_answer(alloc, entry.reply())?;
    Ok(is_answer && *entry.event() == row.event)
}

// Sees that the entries of a segment are of these rows, by their places. Gives how many there are.
fn check_entries(
    alloc: Global,
    segment: &Segment,
    rows: &[Row<'_>],
    asked: &[usize],
) -> Result<(), Slip> {
    if segment.entries().len() > asked.len() {
        return Err(Slip::Other);
    }
    for (entry, place) in segment.entries().iter().zip(asked) {
        let Some(row) = rows.get(*place) else {
            return Err(Slip::Other);
        };
        if !is_entry_of(alloc, entry, row)? {
            return Err(Slip::Other);
        }
    }
    Ok(())
}

// Sees that segments join, from one engine to another, and have just the entries of these rows.
fn check(
    alloc: Global,
    segments: &[Segment],
    between: [&Engine; 2],
    rows: &[Row<'_>],
    asked: &[usize],
) -> Result<(), Slip> {
    let [mut base, last] = between;
    let mut rest = asked;
    for segment in segments {
        if !segment.base().same(base) {
            return Err(Slip::Changed);
        }
        check_entries(alloc, segment, rows, rest)?;
        rest = rest.get(segment.entries().len()..).unwrap_or(&[]);
        base = segment.end();
    }
    if rest.is_empty() && base.same(last) {
        Ok(())
    } else {
        Err(Slip::Other)
    }
}

/// Asks a book, whose trace has room for so many entries, for each row.
pub(crate) fn play(
    alloc: Global,
    rows: &[Row<'_>],
    limit: usize,
    refused: &mut Refused,
) -> Result<(), Slip>
    requires at_least { 1 ≤ limit }
    requires at_most { limit ≤ 65536 }
{
    let first = Engine::new(alloc)?;
    let last = played(alloc, rows, refused)?;
    let mut book = begun(alloc, copied(&first, refused)?, limit, refused)?;
    let mut segments = Vec::new(alloc);
    let asked = fill(alloc, &mut book, &mut segments, rows, refused)?;
    check(alloc, &segments, [&first, &last], rows, &asked)
}
