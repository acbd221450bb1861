//! What follows from records for a handle that they wake.
ghost use Rattle.std.specs.Prelude.{◌≡◌, ◌==◌, OnOk};
ghost use Rattle.std.specs.List.{list_any};
ghost use Rattle.whole_texts.specs.Followed.{Adds};
ghost use Rattle.pps_engine.specs.WokenHandles.{follows_at};

use crate::settled_replies::{follow_directory, follow_object, follow_records, needs_target};
use name_table::Names;
use open_handles::Handles;
use pps_types::{DirId, Handle, ObjId, Refusal};
use server_queue::Entry;
use std::alloc::Global;
use sub_reader::{is_directory_kind, number_of};
use whole_texts::{Following, Woken};

/// Whether a handle is among those that close.
pub(crate) fn is_closing(closing: &[Handle], handle: Handle) -> bool
    ensures { result ≡ list_any (λ number. number == handle) closing.now }
{
    closing.contains(&handle)
}

/// Puts what follows from records for a handle that they wake behind what follows for others: its pulse, and then its late
/// reply. An error may leave a part of it.
///
/// An error comes only where memory is wanting, or where a record brings an object past its limits.
pub(crate) fn follow_handle(
    alloc: Global,
    names: &Names,
    handles: &Handles,
    entries: &[Entry],
    handle: Handle,
    following: &mut Vec<Following>,
) -> Result<(), Refusal>
    ensures { OnOk result
        (Adds following.old following.new (follows_at names.now entries.now handle handles.now)) }
{
    let Some(opened) = handles.opening(handle) else {
        return Ok(());
    };
    let opening = opened.opening;
    let target = number_of(opened.found);
    let parked = handles.parked(handle);
    let woken = Woken::new(target, opening, parked, handles.armed(handle));
    if !needs_target(target, opening, parked, entries) {
        return follow_records(alloc, entries, &woken, following);
    }
    if is_directory_kind(opening.kind) {
        let directory = DirId::new(target);
        return follow_directory(alloc, names, entries, directory, &woken, following);
    }
    let object = ObjId::new(target);
    let name = handles.name_of(opened.found);
    follow_object(alloc, names, entries, object, name, &woken, following)
}
