//! Traces that were cut off.
ghost use Rattle.std.specs.Prelude.{◌≡◌, All};
ghost use Rattle.pps_types.specs.Outcome.{IsSendable};
ghost use Rattle.pps_types.specs.Stands.{Runs, RunsSeen};

use crate::entry::Entry;
use pps_engine::Engine;
use std::marker::Model;
use std::sync::Arc;

/// A trace that was cut off, between the engine as it was before the first entry and as it was after the last.
///
/// Its end and the next segment's base are one engine, which both share.
#[derive(Drop)]
pub struct Segment {
    pub(crate) number: u64,
    pub(crate) base: Arc<Engine>,
    pub(crate) entries: Vec<Entry>,
    pub(crate) end: Arc<Engine>,
}

impl Model for Segment {
    ghost use Rattle.std.specs.Arc.{arc_value};
    ghost use Rattle.pps_lock.specs.Trace.{Piece, Replays};

    ghost Value = { Piece };

    ghost view = { λ a. record { number = a.number; base = (arc_value a.base).content; entries = a.entries.items; end = (arc_value a.end).content } };

    ghost invariant = { λ a. Replays (arc_value a.base).content a.entries.items (arc_value a.end).content };
}

impl Segment {
    /// Its place among the segments of its book: the first is 0.
    pub fn number(&self) -> u64
        ensures { result ≡ self.now.number }
    {
        self.number
    }

    /// What stood before the first entry.
    pub fn base(&self) -> &Engine
        ensures { result.now.content ≡ self.now.base }
    {
        &self.base
    }

    pub fn entries(&self) -> &[Entry]
        ensures { result.now ≡ self.now.entries }
    {
        self.entries.as_slice()
    }

    /// What stood after the last entry.
    pub fn end(&self) -> &Engine
        ensures { result.now.content ≡ self.now.end }
    {
        &self.end
    }

    /// Does nothing. Its contract is the law that each segment replays: each machine that the base stands for gives these
    /// answers to these events, one after the other, and is then a machine that the end stands for.
    pub fn replays(&self)
        ensures runs { Runs self.now.base self.now.entries self.now.end }
        ensures seen { RunsSeen self.now.base self.now.entries self.now.end }
        ensures sends { All (λ x. IsSendable x.reply) self.now.entries }
    {
        let _ = &self.entries;
    }
}
