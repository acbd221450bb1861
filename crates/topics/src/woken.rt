//! Whom records wake.
ghost use Rattle.std.specs.Prelude.{◌≡◌, IfOk};
ghost use Rattle.std.specs.List.{AllByRecursion, list_any};
ghost use Rattle.sub_reader.specs.Rows.{rows_in};
ghost use Rattle.topics.specs.QueueRows.{IsQueued, sees};
ghost use Rattle.topics.specs.Woken.{waits_at, wakes_at, woken_among};

use crate::sight::is_given;
use pps_types::Handle;
use server_queue::{Entry, Queue};
use std::alloc::{AllocError, Global};
use sub_reader::{HandleRow, Slot};

// Whether a read or a pulse waits on it.
fn waits(row: &HandleRow<Queue>) -> bool
    ensures { result ≡ waits_at row.now }
{
    row.parked.is_some() || row.armed.is_some()
}

// Whether a handle on the object of that number is given one of the records.
fn sees_any(object: u64, row: &HandleRow<Queue>, entries: &[Entry]) -> bool
    requires { IsQueued row.now }
    ensures { result ≡ list_any (λ e. sees object e row.now) entries.now }
{
    entries
        .iter()
        .any(|entry| is_given(object, &row.opening, entry))
}

// Whether it waits, is owed nothing, and is given one of the records.
fn wakes(object: u64, row: &HandleRow<Queue>, entries: &[Entry]) -> bool
    requires { IsQueued row.now }
    ensures { result ≡ wakes_at object entries.now row.now }
{
    waits(row) && !row.progress.news() && sees_any(object, row, entries)
}

/// The numbers of those that records wake, on the object of that number.
pub(crate) fn find_woken(
    alloc: Global,
    object: u64,
    slots: &[Slot<Queue>],
    entries: &[Entry],
) -> Result<Vec<Handle>, AllocError>
    requires { AllByRecursion IsQueued (rows_in slots.now) }
    ensures { IfOk result (λ woken. woken.items
        ≡ woken_among object entries.now (rows_in slots.now)) }
{
    let mut woken = Vec::new(alloc);
    'slots: for slot in slots {
        if let Slot::Row(row) = slot {
            if wakes(object, row, entries) {
                woken.push(row.opening.number)?;
            }
        }
    }
    Ok(woken)
}
