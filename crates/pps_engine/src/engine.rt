//! The engine: what stands, kept within its bounds.
ghost use Rattle.std.specs.Prelude.{◌≡◌, ◌≤◌, ◌↔◌, Ok, Some, None, IfOk, IfErr, IsTrue, OnErr, All, [], length, vec_capacity};
ghost use Rattle.pps_types.specs.Outcome.{IsSendable};
ghost use Rattle.pps_types.specs.Machine.{start};
ghost use Rattle.pps_types.specs.Owed.{kept_seen, owed_by_seen};
ghost use Rattle.pps_types.specs.Stands.{Stands, Steps, StepsSeen};
ghost use Rattle.pps_engine.specs.Events.{Refuses};
ghost use Rattle.pps_engine.specs.Serving.{IsLatest, IsPlanOf, MarksBytes, AnswersEach, RunsAnswered, RunsSeenAnswered, IsExact};
ghost use Rattle.service_state.specs.Tables.{content_in};
ghost use Rattle.pps_engine.specs.Standing.{coming, HoldsJust, IsSound};

use crate::at_once::take_step;
use crate::planned::{Pending, Planned, carry_out, plan};
use name_table::questions_are_told;
use pps_types::limits::DEFAULT_LIMIT;
use pps_types::{Bytes, Event, Handle, Outcome, Refusal};
use service_state::Tables;
use std::alloc::{AllocError, Global};
use std::marker::Model;
use std::snapshot::Snapshot;

/// Does nothing. Its contract is the law that just the records are held that have to be kept.
pub(crate) fn are_cut(tables: &Tables)
    ensures { HoldsJust tables.now }
{
    tables.holds_what_is_owed();
    tables.handles().places_rise();
}

/// What the latest plan will do.
#[derive(Drop)]
pub(crate) struct Ready {
    pending: Pending,
    // What it answers, for clauses alone.
    reply: Snapshot<Outcome>,
}

// What is pending is let go. It is a call of its own, since most steps have nothing pending, and would pay for its parts.
#[cold]
#[inline(never)]
fn let_go(pending: &mut Option<Ready>)
    ensures { pending.new ≡ None }
{
    *pending = None;
}

/// Nothing is pending any more.
#[inline(always)]
pub(crate) fn forget(pending: &mut Option<Ready>)
    ensures { pending.new ≡ None }
{
    if pending.is_some() {
        let_go(pending);
    }
}

// This is pending from now on.
fn keep(pending: &mut Option<Ready>, ready: Ready)
    ensures { pending.new ≡ Some ready }
{
    *pending = Some(ready);
}

/// What an event will answer. What it will change is held by the engine that has planned it.
pub struct Plan {
    reply: Outcome,
    // What it was planned in, and what will be done to it, for clauses alone.
    tables: Snapshot<Tables>,
    pending: Snapshot<Pending>,
}

// Written out, since each crate that drops one would prove a derived drop anew, with those of all its parts.
impl Drop for Plan {
    fn drop(self) {
        let Plan {
            reply: _,
            tables: _,
            pending: _,
        } = self;
    }
}

impl Model for Plan {
    ghost use Rattle.pps_engine.specs.Serving.{Upcoming};
    ghost use Rattle.pps_engine.specs.Standing.{after};

    ghost Value = { Upcoming };

    ghost view = { λ a. record { content = after a.tables.value a.pending.value; reply = a.reply } };
}

impl Plan {
    // The answer, taken out.
    #[inline(always)]
    fn into_reply(self) -> Outcome
        ensures { result ≡ self.reply }
    {
        let Plan {
            reply,
            tables: _,
            pending: _,
        } = self;
        reply
    }

    /// What the event will answer: what `commit` gives.
    pub fn reply(&self) -> &Outcome
        ensures { result.now ≡ self.now.reply }
    {
        &self.reply
    }
}

// A plan, and what the engine keeps of it.
fn planned_in(tables: &Tables, reply: Outcome, pending: Pending) -> (Plan, Ready)
    ensures reply { result.0.reply ≡ reply }
    ensures pending { result.1.pending ≡ pending }
    ensures same { coming tables.now result.1 ≡ result.0 }
{
    let plan = Plan {
        tables: Snapshot::of(tables),
        pending: Snapshot::of(&pending),
        reply,
    };
    let ready = Ready {
        pending,
        reply: Snapshot::of(&plan.reply),
    };
    (plan, ready)
}

/// The service. It stands for the machine that keeps every accepted change for good.
///
/// What stands is held in tables that are changed in place: a message costs what it touches.
pub struct Engine {
    pub(crate) alloc: Global,
    pub(crate) tables: Box<Tables>,
    /// The latest plan, where it is ready.
    pub(crate) pending: Box<Option<Ready>>,
}

// Written out, since each crate that drops one would prove a derived drop anew, with those of all its parts.
impl Drop for Engine {
    fn drop(self) {
        let Engine {
            alloc: _,
            tables: _,
            pending: _,
        } = self;
    }
}

impl Model for Engine {
    ghost use Rattle.std.specs.Prelude.{option_map};
    ghost use Rattle.service_state.specs.Tables.{content_in};
    ghost use Rattle.pps_engine.specs.Serving.{Serving};
    ghost use Rattle.pps_engine.specs.Standing.{coming, chains_of, IsSound, IsPending};

    ghost Value = { Serving };

    ghost view = { λ a. record { content = content_in a.tables.value; next = option_map (coming a.tables.value) a.pending.value; chains = chains_of a.tables.value } };

    ghost invariant = { λ a. IsSound (content_in a.tables.value) × IsPending a.tables.value a.pending.value };
}

impl Engine {
    fn starting(alloc: Global, first_handle: u32, default_limit: u32) -> Result<Engine, AllocError>
        requires at_least { 1 ≤ default_limit }
        requires at_most { default_limit ≤ 65535 }
        ensures { IfOk result (λ engine. Stands engine.content (start first_handle default_limit)) }
    {
        let tables = Tables::new(alloc, first_handle, default_limit)?;
        Ok(Engine {
            alloc,
            tables: Box::new(alloc, tables)?,
            pending: Box::new(alloc, None)?,
        })
    }

    /// A service with nothing but the root, whose first handle will be 1, with the default limit 256.
    pub fn new(alloc: Global) -> Result<Engine, AllocError>
        ensures { IfOk result (λ engine. Stands engine.content (start 1 256)) }
    {
        Engine::starting(alloc, 1, DEFAULT_LIMIT)
    }

    /// The same, whose first handle will be `next`.
    pub fn new_at(alloc: Global, next: Handle) -> Result<Engine, AllocError>
        ensures { IfOk result (λ engine. Stands engine.content (start next 256)) }
    {
        Engine::starting(alloc, next.number(), DEFAULT_LIMIT)
    }

    /// The same as `new`, with another default limit, 1 to 65,535.
    pub fn with_limit(alloc: Global, default_limit: u32) -> Result<Engine, AllocError>
        requires at_least { 1 ≤ default_limit }
        requires at_most { default_limit ≤ 65535 }
        ensures { IfOk result (λ engine. Stands engine.content (start 1 default_limit)) }
    {
        Engine::starting(alloc, 1, default_limit)
    }

    /// The limit of handles that name none.
    pub fn limit(&self) -> u32
        ensures { result ≡ self.now.content.default_limit }
    {
        self.tables.default_limit()
    }

    /// What an event will answer, or why it is refused. It takes all the memory that the event wants, and changes nothing
    /// of what stands. A plan before it is no longer ready.
    pub fn plan(&mut self, event: &Event) -> Result<Plan, Refusal>
        ensures kept { self.new.content ≡ self.old.content }
        ensures plans { IfOk result (λ plan. IsPlanOf self.old.content event.now plan) }
        ensures latest { IfOk result (λ plan. IsLatest plan self.new) }
        ensures refuses { IfErr result (λ r. Refuses self.old.content event.now r) }
        ensures ends { OnErr result (self.new.next ≡ None) }
        ensures marks { IfOk result (λ plan. MarksBytes self.old.content event.now plan) }
        ensures sends { IfOk result (λ plan. IsSendable (Ok plan.reply)) }
        ensures cut { IsExact self.new }
    {
        forget(&mut self.pending);
        let planned = plan(&mut self.tables, self.alloc, event);
        let tables: &Tables = &self.tables;
        are_cut(tables);
        let Planned { reply, pending } = planned?;
        let (plan, ready) = planned_in(tables, reply, pending);
        keep(&mut self.pending, ready);
        Ok(plan)
    }

    /// Carries the latest plan out, and gives its answer. It takes no memory.
    ///
    /// It has to be this engine's latest plan, and the engine may not have changed since.
    pub fn commit(&mut self, plan: Plan) -> Outcome
        requires { IsLatest plan self.old }
        ensures reply { result ≡ plan.reply }
        ensures content { self.new.content ≡ plan.content }
        ensures ready { self.new.next ≡ None }
        ensures cut { IsExact self.new }
    {
        match self.pending.take() {
            None => unreachable!(),
            Some(ready) => carry_out(&mut self.tables, ready.pending),
        }
        are_cut(&self.tables);
        plan.into_reply()
    }

    /// One event: its answer is the machine's, or OutOfMemory where it may be. After a refusal all is as it was. A plan
    /// before it is no longer ready.
    #[inline(always)]
    pub fn step(&mut self, event: &Event) -> Result<Outcome, Refusal>
        ensures steps { Steps self.old.content event.now result self.new.content }
        ensures seen { StepsSeen self.old.content event.now result self.new.content }
        ensures kept { OnErr result (self.new.content ≡ self.old.content) }
        ensures ready { self.new.next ≡ None }
        ensures sends { IsSendable result }
        ensures cut { IsExact self.new }
    {
        forget(&mut *self.pending);
        let answer = take_step(&mut self.tables, self.alloc, event);
        are_cut(&self.tables);
        answer
    }

    /// The events in their order, with an answer for each in a list that has the room. An event's own OutOfMemory is its
    /// answer.
    pub fn run_reserved(&mut self, events: &[Event], replies: &mut Vec<Result<Outcome, Refusal>>)
        requires empty { replies.old.items ≡ [] }
        requires room { length events.now ≤ vec_capacity replies.old }
        ensures runs { RunsAnswered self.old events.now replies.new.items self.new }
        ensures seen { RunsSeenAnswered self.old events.now replies.new.items self.new }
        ensures count { AnswersEach events.now replies.new.items }
        ensures sends { All IsSendable replies.new.items }
        ensures cut { IsExact self.new }
    {
        are_cut(&self.tables);
        'events: for event in events {
            let reply = self.step(event);
            replies.push_reserved(reply);
        }
    }

    /// The events in their order, and an answer for each; an event's own OutOfMemory is its answer.
    ///
    /// It is OutOfMemory itself, and takes no event, only where the list of answers can't be reserved; it is then run by
    /// `run_reserved`.
    pub fn run_list(&mut self, events: &[Event]) -> Result<Vec<Result<Outcome, Refusal>>, Refusal>
        ensures runs { IfOk result (λ r. RunsAnswered self.old events.now r.items self.new) }
        ensures seen { IfOk result (λ r. RunsSeenAnswered self.old events.now r.items self.new) }
        ensures count { IfOk result (λ r. AnswersEach events.now r.items) }
        ensures sends { IfOk result (λ replies. All IsSendable replies.items) }
        ensures wants { IfErr result (λ r. r ≡ Refusal.OutOfMemory) }
        ensures kept { OnErr result (self.new.content ≡ self.old.content) }
        ensures cut { IsExact self.new }
    {
        are_cut(&self.tables);
        let mut replies = Vec::with_capacity(self.alloc, events.len())?;
        self.run_reserved(events, &mut replies);
        Ok(replies)
    }

    /// How many records are kept of what a path names, if anything is there. It takes no memory.
    pub fn kept(&self, path: &[Bytes]) -> Option<usize>
        ensures { result ≡ kept_seen self.now.content path.now }
    {
        questions_are_told();
        let tables: &Tables = &self.tables;
        tables.holds_what_is_owed();
        let found = tables.names().at(path)?;
        Some(tables.handles().kept(found))
    }

    /// How many records a handle is owed: none of no such handle, in full mode, before its first read and past its limit.
    pub fn owed(&self, handle: Handle) -> Option<usize>
        ensures { result ≡ owed_by_seen self.now.content handle }
    {
        self.tables.handles().owed(handle)
    }

    /// Does nothing. Its contract is the law that an engine holds just the records that have to be kept, whether it was
    /// just made, copied or stepped.
    pub fn holds_what_is_owed(&self)
        ensures { IsExact self.now }
    {
        are_cut(&self.tables);
    }

    /// Whether both stand for the same. It takes no memory.
    pub fn same(&self, other: &Engine) -> bool
        ensures { IsTrue result ↔ (self.now.content ≡ other.now.content) }
    {
        self.tables.same(&other.tables)
    }

    /// One more engine that stands for the same. No plan of it is ready.
    pub fn copy(&self) -> Result<Engine, AllocError>
        ensures content { IfOk result (λ engine. engine.content ≡ self.now.content) }
        ensures ready { IfOk result (λ engine. engine.next ≡ None) }
    {
        let Ok(tables) = self.tables.copy() else {
            return Err(AllocError);
        };
        Ok(Engine {
            alloc: self.alloc,
            tables: Box::new(self.alloc, tables)?,
            pending: Box::new(self.alloc, None)?,
        })
    }
}
