//! Whom records wake.
ghost use Rattle.std.specs.Prelude.{◌≡◌, IfOk};
ghost use Rattle.std.specs.List.{list_any};
ghost use Rattle.sub_reader.specs.Opened.{visible_to};
ghost use Rattle.sub_reader.specs.Woken.{waits_at, sees_one, wakes_at, woken_among};

use crate::opening::Opening;
use crate::place::Place;
use crate::questions::has_news;
use crate::row::{HandleRow, Slot};
use crate::sight::is_visible;
use pps_types::Handle;
use server_queue::Entry;
use std::alloc::{AllocError, Global};

// Whether a read or a pulse waits on it.
fn waits(reader: &HandleRow<Place>) -> bool
    ensures { result ≡ waits_at reader.now }
{
    reader.parked.is_some() || reader.armed.is_some()
}

// Whether a handle on the object or directory of that number sees one of the records.
fn sees_any(target: u64, opening: &Opening, entries: &[Entry]) -> bool
    ensures { result ≡ list_any (visible_to target opening.now) entries.now }
{
    entries
        .iter()
        .any(|entry| is_visible(target, opening, entry))
}

// Whether it waits, has no news, and sees one of the records.
fn wakes(target: u64, reader: &HandleRow<Place>, entries: &[Entry]) -> bool
    ensures { result ≡ wakes_at target entries.now reader.now }
{
    waits(reader) && !has_news(reader) && sees_any(target, &reader.opening, entries)
}

/// The numbers of those that records wake, on the object or directory of that number.
pub(crate) fn find_woken(
    alloc: Global,
    target: u64,
    slots: &[Slot<Place>],
    entries: &[Entry],
) -> Result<Vec<Handle>, AllocError>
    ensures { IfOk result (λ woken. woken.items ≡ woken_among target entries.now slots.now) }
{
    let mut woken = Vec::new(alloc);
    'slots: for slot in slots {
        if let Slot::Row(reader) = slot {
            if wakes(target, reader, entries) {
                woken.push(reader.opening.number)?;
            }
        }
    }
    Ok(woken)
}
