//! Shares of one record, made ahead.
ghost use Rattle.std.specs.Prelude.{◌≡◌, ◌↔◌, ◌+◌, ◌<◌, Some, IfOk, IsTrue};

use crate::made::Made;
use server_queue::Entry;
use std::alloc::{AllocError, Global};
use std::marker::Model;

/// A record, and shares of it that were made ahead: one for each queue that it goes to.
#[derive(Drop)]
pub struct Shares {
    entry: Entry,
    made: Made,
}

impl Model for Shares {
    ghost use Rattle.std.specs.Prelude.{length};
    ghost use Rattle.topics.specs.Made.{shares_in, AreOf};
    ghost use Rattle.server_queue.specs.Shared.{Shared};

    ghost Value = { Shared };

    ghost view = { λ s. record { entry = s.entry; count = length (shares_in s.made) } };

    ghost invariant = { λ s. AreOf s.entry s.made };
}

impl Shares {
    /// A record, with so many shares of it.
    ///
    /// AllocError comes only where memory is wanting.
    #[inline(always)]
    pub fn new(alloc: Global, entry: Entry, count: usize) -> Result<Shares, AllocError>
        ensures { IfOk result (λ shares. shares ≡ record { entry = entry; count = count }) }
    {
        let made = Made::new(alloc, &entry, count)?;
        Ok(Shares { entry, made })
    }

    /// A record, and no share of it. It takes no memory.
    #[inline(always)]
    pub fn alone(entry: Entry) -> Shares
        ensures { result ≡ record { entry = entry; count = 0 } }
    {
        Shares {
            entry,
            made: Made::Nothing,
        }
    }

    /// Whether no shares of the record were made, or all are taken.
    #[inline(always)]
    pub fn is_alone(&self) -> bool
        ensures { IsTrue result ↔ (self.now.count ≡ 0) }
    {
        self.made.is_empty()
    }

    /// The record.
    #[inline(always)]
    pub fn entry(&self) -> &Entry
        ensures { result.now ≡ self.now.entry }
    {
        &self.entry
    }

    /// The record alone, without the shares of it.
    #[inline(always)]
    pub fn into_entry(self) -> Entry
        ensures { result ≡ self.entry }
    {
        self.entry
    }

    // Takes one of the shares.
    pub(crate) fn take(&mut self) -> Option<Entry>
        requires { 0 < self.old.count }
        ensures entry { self.new.entry ≡ self.old.entry }
        ensures count { self.new.count + 1 ≡ self.old.count }
        ensures taken { result ≡ Some self.old.entry }
    {
        self.made.take()
    }
}
