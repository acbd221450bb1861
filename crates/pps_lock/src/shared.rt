//! A book behind a lock.
ghost use Rattle.std.specs.Prelude.{◌≡◌, ◌≤◌, ◌+◌, ◌⊎◌, IsTrue, IfOk, IfErr, length, vec_len, vec_capacity};
ghost use Rattle.std.specs.Arc.{arc_value};
ghost use Rattle.pps_types.specs.Outcome.{IsSendable};
ghost use Rattle.pps_lock.specs.Trace.{Replays, IsRecorded, IsEntered, EntersAll, EntersFirst};

use crate::book::{Book, Receipt, Stepped, TraceFull};
use crate::message::Message;
use crate::segment::Segment;
use pps_types::{Event, Refusal};
use std::alloc::AllocError;
use std::sync::{Arc, Mutex, Wait};

/// A book that threads share, one of them at a time.
///
/// Whoever comes next finds a book whose trace replays, whatever the others did. What was done to it under the lock
/// is told by the entries of its segments.
#[derive(Drop)]
pub struct Shared {
    book: Mutex<Book>,
}

impl Shared {
    /// This book, for threads to share.
    pub fn new(book: Book) -> Shared {
        Shared {
            book: Mutex::new(book),
        }
    }

    /// `Book::step` of the book that is found. It waits for the lock.
    ///
    /// The answer is that of an entry, at the place that the receipt names, of a trace that replays.
    pub fn step<R: Wait>(&self, rt: &R, event: Arc<Event>) -> Result<Stepped, TraceFull>
        ensures recorded { IfOk result (λ s. IsRecorded (arc_value event) s.reply s.receipt) }
        ensures sends { IfOk result (λ s. IsSendable s.reply) }
        ensures full { IfErr result (λ f. f.event ≡ event) }
    {
        let mut book = self.book.lock(rt);
        let stepped = book.step(event);
        book.replays();
        stepped
    }

    /// `Book::enter` of the book that is found. It waits for the lock.
    ///
    /// The event is that of an entry, at the place that is named, of a trace that replays.
    pub fn enter<R: Wait>(&self, rt: &R, event: Arc<Event>) -> Result<Receipt, TraceFull>
        ensures entered { IfOk result (λ name. IsEntered (arc_value event) name) }
        ensures full { IfErr result (λ f. f.event ≡ event) }
    {
        let mut book = self.book.lock(rt);
        let entered = book.enter(event);
        book.replays();
        entered
    }

    /// `Book::enter` of the book that is found, of these messages in their order, as long as its trace has room. It waits for
    /// the lock once, adds the name of each entry to those that are there, for which there is room, and reports whether all
    /// are entered.
    ///
    /// The names that it adds, also where it fails, are those of the first of the messages, each the event of an entry, at
    /// the place that is named, of a trace that replays. AllocError comes as of `Message::share`.
    pub fn enter_each<R: Wait>(
        &self,
        rt: &R,
        messages: &[Message],
        names: &mut Vec<Receipt>,
    ) -> Result<bool, AllocError>
        requires room { vec_len names.old + length messages.now ≤ vec_capacity names.old }
        ensures all { IfOk result (λ all. IsTrue all →
            EntersAll messages.now names.old.items names.new.items) }
        ensures first { EntersFirst messages.now names.old.items names.new.items }
    {
        let mut book = self.book.lock(rt);
        for message in messages {
            let entered = book.enter(message.shared()?);
            book.replays();
            let Ok(name) = entered else {
                return Ok(false);
            };
            names.push_reserved(name);
        }
        Ok(true)
    }

    /// `Book::cut` of the book that is found: a segment that replays, or TableFull or OutOfMemory. It waits for the lock.
    pub fn cut<R: Wait>(&self, rt: &R) -> Result<Segment, Refusal>
        ensures replays { IfOk result (λ piece. Replays piece.base piece.entries piece.end) }
        ensures err { IfErr result (λ r. (r ≡ Refusal.OutOfMemory) ⊎ (r ≡ Refusal.TableFull)) }
    {
        let segment = self.book.lock(rt).cut()?;
        segment.replays();
        Ok(segment)
    }

    /// The book, once it is shared no more. Its trace replays.
    pub fn into_book(self) -> Book
        ensures replays { Replays result.base result.trace result.engine }
        ensures within { length result.trace ≤ result.limit }
    {
        let book = self.book.into_inner();
        book.replays();
        book
    }
}
