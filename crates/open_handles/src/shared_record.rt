//! A record that is to be told.
ghost use Rattle.std.specs.Prelude.{◌≡◌, ◌-◌, ◌<◌, true, IfOk};

use server_queue::Entry;
use std::alloc::AllocError;
use std::marker::Model;
use topics::Shares;

/// A record with shares of it for all handles that it is told to.
#[derive(Drop)]
pub struct SharedRecord {
    pub(crate) for_object: Shares,
    /// For its directory, whose handles share a list and need no shares of their own. None if no handle is on the directory
    /// and no shares were made for the object.
    pub(crate) for_directory: Option<Entry>,
}

impl Model for SharedRecord {
    ghost use Rattle.std.specs.Prelude.{◌+◌};
    ghost use Rattle.server_queue.specs.Shared.{Shared};
    ghost use Rattle.open_handles.specs.Whole.{share_count, AreOfOneRecord};

    ghost Value = { Shared };

    ghost view = { λ t. record { entry = t.for_object.entry; count = t.for_object.count + share_count t.for_directory } };

    ghost invariant = { λ t. AreOfOneRecord t.for_object t.for_directory };
}

impl SharedRecord {
    /// A record with those shares for its object, and one for its directory if handles are there.
    ///
    /// AllocError comes only where memory is wanting.
    #[inline(always)]
    pub(crate) fn new(
        for_object: Shares,
        is_directory_used: bool,
    ) -> Result<SharedRecord, AllocError>
        ensures entry { IfOk result (λ told. told.entry ≡ for_object.entry) }
        ensures object { IfOk result (λ told. told.count - 1 ≡ for_object.count) }
        ensures directory { IfOk result (λ told. is_directory_used ≡ true → 0 < told.count) }
    {
        if !is_directory_used && for_object.is_alone() {
            return Ok(SharedRecord {
                for_object,
                for_directory: None,
            });
        }
        let for_directory = Some(for_object.entry().share()?);
        Ok(SharedRecord {
            for_object,
            for_directory,
        })
    }

    /// The record.
    #[inline(always)]
    pub fn entry(&self) -> &Entry
        ensures { result.now ≡ self.now.entry }
    {
        self.for_object.entry()
    }
}
