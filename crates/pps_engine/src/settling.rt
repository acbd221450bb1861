//! What follows from an event.
ghost use Rattle.std.specs.Prelude.{◌≢◌, [], IfOk, OnErr};
ghost use Rattle.pps_types.specs.WellFormed.{IsContent};
ghost use Rattle.service_state.specs.Tables.{content_in};
ghost use Rattle.pps_engine.specs.WokenHandles.{FollowsEach};
ghost use Rattle.pps_engine.specs.SettlingTold.{FollowsFrom, CanFollowFrom};

use crate::woken::{follow_handle, is_closing};
use pps_types::{Handle, Refusal};
use server_queue::Entry;
use service_laws::events_are_settled;
use service_state::Tables;
use std::alloc::{AllocError, Global};
use whole_texts::Following;

/// What follows for each of these handles, but for those that close.
fn follow_woken(
    tables: &Tables,
    alloc: Global,
    entries: &[Entry],
    closing: &[Handle],
    woken: &[Handle],
) -> Result<Vec<Following>, Refusal>
    ensures { IfOk result (λ f. FollowsEach tables.now entries.now closing.now woken.now f.items) }
{
    let names = tables.names();
    let handles = tables.handles();
    let mut following = Vec::new(alloc);
    'woken: for handle in woken {
        if !is_closing(closing, *handle) {
            follow_handle(alloc, names, handles, entries, *handle, &mut following)?;
        }
    }
    Ok(following)
}

/// What follows from an event that tells these records and closes these handles: for each handle that it wakes, in rising
/// number, its pulse and then its late reply. What stands stays.
///
/// Only the handles on the objects of the records and on their directories are looked at, and an object or a directory is
/// looked at only where a late reply gives everything of it.
///
/// Where they are those of an event that no check refuses, AllocError comes only where memory is wanting, and never where no
/// record is told.
pub fn settle(
    tables: &Tables,
    alloc: Global,
    entries: &[Entry],
    closing: &[Handle],
) -> Result<Vec<Following>, AllocError>
    requires { IsContent (content_in tables.now) }
    ensures follows { IfOk result (λ f. FollowsFrom tables.now entries.now closing.now f.items) }
    ensures can { IfOk result (λ f. CanFollowFrom tables.now entries.now closing.now f.items) }
    ensures lacking { OnErr result (entries.now ≢ []) }
{
    events_are_settled();
    if entries.is_empty() {
        return Ok(Vec::new(alloc));
    }
    let woken = tables.handles().woken_by(alloc, entries)?;
    match follow_woken(tables, alloc, entries, closing, &woken) {
        Ok(following) => Ok(following),
        Err(_) => Err(AllocError),
    }
}
