//! The entries of a trace.
ghost use Rattle.std.specs.Prelude.{◌≡◌};
ghost use Rattle.std.specs.Arc.{arc_value};

use pps_types::{Event, Outcome, Refusal};
use std::marker::Model;
use std::sync::Arc;

/// An event with the answer that it had.
#[derive(Debug, Drop)]
pub struct Entry {
    /// The one that was sent, and no copy of it.
    event: Arc<Event>,
    reply: Result<Outcome, Refusal>,
}

impl Model for Entry {
    ghost use Rattle.std.specs.Arc.{arc_value};
    ghost use Rattle.pps_types.specs.Runs.{Answered};

    ghost Value = { Answered };

    ghost view = { λ a. record { event = arc_value a.event; reply = a.reply } };
}

impl Entry {
    pub(crate) fn new(event: Arc<Event>, reply: Result<Outcome, Refusal>) -> Entry
        ensures event { result.event ≡ arc_value event }
        ensures reply { result.reply ≡ reply }
    {
        Entry { event, reply }
    }

    /// What was asked.
    pub fn event(&self) -> &Event
        ensures { result.now ≡ self.now.event }
    {
        &self.event
    }

    /// What was answered.
    pub fn reply(&self) -> &Result<Outcome, Refusal>
        ensures { result.now ≡ self.now.reply }
    {
        &self.reply
    }
}
