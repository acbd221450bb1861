//! Room in the queues of handles.
ghost use Rattle.std.specs.Prelude.{◌≡◌, ◌<◌, IsOk, length, OnOk, IfSome};
ghost use Rattle.std.specs.List.{AllByRecursion};
ghost use Rattle.pps_types.specs.Reading as reading;
ghost use Rattle.sub_reader.specs.Rows.{row_at, rows_of};
ghost use Rattle.topics.specs.QueueRows.{IsQueued, entries_for};
ghost use Rattle.topics.specs.Offers.{RoomIn, RoomInEach};
ghost use Rattle.topics.specs.Rooms.{IsKept, AreKept};
ghost use Rattle.topics.specs.Spans.{CoversSeers};
ghost use Rattle.topics.specs.Standing.{messages_in};
ghost use Rattle.topics.specs.Walks.{GoesAt};

use crate::sight::is_given;
use crate::span::Span;
use server_queue::{Entry, Queue};
use std::alloc::AllocError;
use sub_reader::{HandleRows, Opening};

/// What a handle needs room for.
#[derive(Clone, Copy)]
struct Wanted {
    /// So many records are for it.
    records: usize,
    /// So many of these are messages of clients.
    messages: usize,
}

// How many of the records are for a handle.
fn needs(object: u64, opening: &Opening, entries: &[Entry]) -> Wanted
    requires { reading.style opening.now.kind ≡ reading.Queue }
    ensures records { result.records ≡ length (entries_for object opening.now entries.now) }
    ensures messages { result.messages ≡ messages_in (entries_for object opening.now entries.now) }
{
    let mut needs = Wanted {
        records: 0,
        messages: 0,
    };
    'entries: for entry in entries.iter() {
        if is_given(object, opening, entry) {
            needs.records += 1;
            needs.messages += entry.client_messages();
        }
    }
    needs
}

// Makes room in the queue of the handle at a place, if there is one, for those of the records that are for it.
fn reserve_at(
    object: u64,
    rows: &mut HandleRows<Queue>,
    place: usize,
    entries: &[Entry],
) -> Result<(), AllocError>
    requires place { place < length rows.old.slots }
    requires queue { IfSome (row_at place rows.old.slots) IsQueued }
    ensures kept { GoesAt IsKept place rows.old.slots rows.new.slots }
    ensures room { OnOk result (IfSome (row_at place rows.new.slots) (RoomIn object entries.now)) }
    ensures succeeds { IfSome (row_at place rows.old.slots) (RoomIn object entries.now) → IsOk result }
    ensures places { rows.new.places ≡ rows.old.places }
{
    let Some(row) = rows.at(place) else {
        return Ok(());
    };
    let needs = needs(object, &row.opening, entries);
    let queue = rows.progress_mut(place);
    match queue.reserve(needs.records, needs.messages) {
        Ok(()) => Ok(()),
        Err(_) => Err(AllocError),
    }
}

/// Makes room in each handle's queue for those of the records that are for it, which are for none but those of a span. It
/// fails only where there was not as much.
pub(crate) fn reserve_each(
    object: u64,
    rows: &mut HandleRows<Queue>,
    span: Span,
    entries: &[Entry],
) -> Result<(), AllocError>
    requires queue { AllByRecursion IsQueued (rows_of rows.old) }
    requires span { CoversSeers object entries.now span rows.old.slots }
    ensures kept { AreKept (rows_of rows.old) (rows_of rows.new) }
    ensures room { OnOk result (RoomInEach object entries.now (rows_of rows.new)) }
    ensures succeeds { RoomInEach object entries.now (rows_of rows.old) → IsOk result }
    ensures places { rows.new.places ≡ rows.old.places }
{
    'places: for place in span.from..span.to {
        reserve_at(object, rows, place, entries)?;
    }
    Ok(())
}
