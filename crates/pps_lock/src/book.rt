//! The engine with its trace.
ghost use Rattle.std.specs.Prelude.{◌≡◌, ◌<◌, ◌≤◌, ◌-◌, ◌^◌, All, length, Err, IfOk, IfErr, OnOk, OnErr, IsErrOf};
ghost use Rattle.std.specs.Arc.{arc_value};
ghost use Rattle.pps_types.specs.Outcome.{IsSendable};
ghost use Rattle.pps_types.specs.Stands.{StepsSeen, Runs, RunsSeen};
ghost use Rattle.pps_lock.specs.Trace.{numbered, emptied, next_receipt, AddsEntry, StepsLog, StepsLogSeen, Enters, KeepsSegment, FindsNoRoom, next_book, RefusesCut};

use crate::entry::Entry;
use crate::segment::Segment;
use pps_engine::Engine;
use pps_types::{Event, Outcome, Refusal};
use std::alloc::{AllocError, Global};
use std::marker::Model;
use std::mem;
use std::sync::Arc;

/// The name of an entry: its segment's number, and its index there.
#[derive(Clone, Copy, Debug, PartialEq, Eq)]
pub struct Receipt {
    pub segment: u64,
    pub index: usize,
}

/// What an event was answered, and the name of its entry.
#[derive(Debug, Drop)]
pub struct Stepped {
    pub reply: Result<Outcome, Refusal>,
    pub receipt: Receipt,
}

/// The trace has no room for one entry more. The event comes back.
#[derive(Debug, Drop)]
pub struct TraceFull {
    pub event: Arc<Event>,
}

// A refusal, twice.
fn refused(refusal: Refusal) -> (Result<Outcome, Refusal>, Result<Outcome, Refusal>)
    ensures first { result.0 ≡ Err refusal }
    ensures second { result.1 ≡ Err refusal }
{
    let again = refusal;
    (Err(refusal), Err(again))
}

// One event, and its answer twice: for who asked, and for the trace.
#[tactic(auto, using(crate::proofs::Replaying::marked))]
fn answered(
    engine: &mut Engine,
    event: &Event,
) -> (Result<Outcome, Refusal>, Result<Outcome, Refusal>)
    ensures same { result.1 ≡ result.0 }
    ensures seen { StepsSeen engine.old.content event.now result.0 engine.new.content }
    ensures kept { OnErr result.0 (engine.new.content ≡ engine.old.content) }
    ensures sends { IsSendable result.0 }
{
    let plan = match engine.plan(event) {
        Err(refusal) => return refused(refusal),
        Ok(plan) => plan,
    };
    let Ok(kept) = plan.reply().share() else {
        return refused(Refusal::OutOfMemory);
    };
    (Ok(engine.commit(plan)), Ok(kept))
}

// One more engine that stands for the same, to be shared.
fn copied(alloc: Global, engine: &Engine) -> Result<Arc<Engine>, AllocError>
    ensures { IfOk result (λ shared. (arc_value shared).content ≡ engine.now.content) }
{
    let copy = engine.copy()?;
    Ok(Arc::new(alloc, copy)?)
}

/// An engine with its trace: what it was asked since the last cut, and what it answered.
#[derive(Drop)]
pub struct Book {
    alloc: Global,
    engine: Engine,
    /// What stood when the trace was empty.
    base: Arc<Engine>,
    trace: Vec<Entry>,
    /// How many segments were cut off.
    number: u64,
    limit: usize,
}

impl Model for Book {
    ghost use Rattle.std.specs.Prelude.{vec_capacity};
    ghost use Rattle.std.specs.Arc.{arc_value};
    ghost use Rattle.pps_lock.specs.Trace.{Log, IsKept};

    ghost Value = { Log };

    ghost view = { λ a. record { engine = a.engine.content; base = (arc_value a.base).content; trace = a.trace.items; number = a.number; limit = a.limit } };

    ghost invariant = { λ a. IsKept (arc_value a.base).content a.trace.items a.engine.content a.limit (vec_capacity a.trace) };
}

impl Book {
    /// An engine with an empty trace, which may have `limit` entries: 1 to 65,536.
    ///
    /// It takes the memory for the trace, and for one copy of the engine. Where it is wanting, the engine comes back.
    pub fn new(alloc: Global, engine: Engine, limit: usize) -> Result<Book, (Refusal, Engine)>
        requires at_least { 1 ≤ limit }
        requires at_most { limit ≤ 65536 }
        ensures ok { IfOk result (λ book. book ≡ emptied engine.content 0 limit) }
        ensures err { IfErr result (λ e. (e.0 ≡ Refusal.OutOfMemory) × (e.1 ≡ engine)) }
    {
        let Ok(trace) = Vec::with_capacity(alloc, limit) else {
            return Err((Refusal::OutOfMemory, engine));
        };
        let Ok(base) = copied(alloc, &engine) else {
            return Err((Refusal::OutOfMemory, engine));
        };
        Ok(Book {
            alloc,
            engine,
            base,
            trace,
            number: 0,
            limit,
        })
    }

    /// One event: its answer is the machine's, or OutOfMemory where it may be, and its entry stands behind the others.
    /// After a refusal the engine is as it was. Where the trace has no room for an entry, the event comes back and all is
    /// as it was.
    ///
    /// The entry shares the answer's bytes. Where there is no memory for the share, nothing is changed, and OutOfMemory is
    /// the answer, with an entry as any other.
    pub fn step(&mut self, event: Arc<Event>) -> Result<Stepped, TraceFull>
        ensures added { IfOk result (λ s. AddsEntry self.old self.new (arc_value event) s.reply) }
        ensures named { IfOk result (λ s. s.receipt ≡ next_receipt self.old) }
        ensures steps { IfOk result (λ s. StepsLog self.old (arc_value event) s.reply self.new) }
        ensures seen { IfOk result (λ s. StepsLogSeen self.old (arc_value event) s.reply self.new) }
        ensures kept { IfOk result (λ s. OnErr s.reply (self.new.engine ≡ self.old.engine)) }
        ensures sends { IfOk result (λ s. IsSendable s.reply) }
        ensures same { OnOk result (KeepsSegment self.old self.new) }
        ensures room { OnOk result (length self.old.trace < self.old.limit) }
        ensures full { IfErr result (λ f. FindsNoRoom self.old self.new event f.event) }
    {
        if self.trace.len() >= self.limit {
            return Err(TraceFull { event });
        }
        let receipt = Receipt {
            segment: self.number,
            index: self.trace.len(),
        };
        let (reply, kept) = answered(&mut self.engine, &event);
        self.trace.push_reserved(Entry::new(event, kept));
        Ok(Stepped { reply, receipt })
    }

    /// One event, of which the entry alone is made: its answer is the machine's, or OutOfMemory where it may be. The name is
    /// that of the entry, which comes after the others and holds the answer. After a refusal the engine is as it was. If the
    /// trace has no room for an entry, the event comes back and all is as it was.
    pub fn enter(&mut self, event: Arc<Event>) -> Result<Receipt, TraceFull>
        ensures enters { OnOk result (Enters self.old self.new (arc_value event)) }
        ensures named { IfOk result (λ name. name ≡ next_receipt self.old) }
        ensures same { OnOk result (KeepsSegment self.old self.new) }
        ensures room { OnOk result (length self.old.trace < self.old.limit) }
        ensures full { IfErr result (λ f. FindsNoRoom self.old self.new event f.event) }
    {
        let index = self.trace.len();
        if index >= self.limit {
            return Err(TraceFull { event });
        }
        let reply = self.engine.step(&event);
        self.trace.push_reserved(Entry::new(event, reply));
        Ok(Receipt {
            segment: self.number,
            index,
        })
    }

    /// The trace as a segment, behind which the book begins anew with the next number. Where it is refused, all is as it
    /// was: it is TableFull at the last number, and else OutOfMemory.
    ///
    /// It takes the memory for the next trace and for one copy of the engine, which is the segment's end and what the next
    /// trace begins with.
    pub fn cut(&mut self) -> Result<Segment, Refusal>
        ensures ok { IfOk result (λ segment. segment ≡ numbered self.old) }
        ensures begins { OnOk result (self.new ≡ next_book self.old) }
        ensures kept { OnErr result (self.new ≡ self.old) }
        ensures err { IfErr result (λ r. RefusesCut self.old r) }
        ensures last { self.old.number ≡ 2 ^ 64 - 1 → IsErrOf result Refusal.TableFull }
    {
        if self.number == u64::MAX {
            return Err(Refusal::TableFull);
        }
        let trace = Vec::with_capacity(self.alloc, self.limit)?;
        let end = copied(self.alloc, &self.engine)?;
        let base = Arc::try_clone(&end)?;
        let segment = Segment {
            number: self.number,
            base: mem::replace(&mut self.base, base),
            entries: mem::replace(&mut self.trace, trace),
            end,
        };
        self.number += 1;
        Ok(segment)
    }

    /// Does nothing. Its contract is the law that each book replays: each machine that the base stands for gives these
    /// answers to these events, one after the other, and is then a machine that the engine stands for.
    pub fn replays(&self)
        ensures runs { Runs self.now.base self.now.trace self.now.engine }
        ensures seen { RunsSeen self.now.base self.now.trace self.now.engine }
        ensures sends { All (λ x. IsSendable x.reply) self.now.trace }
        ensures within { length self.now.trace ≤ self.now.limit }
    {
        let _ = &self.trace;
    }
}
