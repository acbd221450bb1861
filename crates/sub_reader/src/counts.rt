//! How many handles have their first owed record at each position.
ghost use Rattle.std.specs.Prelude.{◌≡◌, ◌≤◌, ◌<◌, ◌+◌, ◌-◌, length, drop};
ghost use Rattle.std.specs.VecDeque.{deque_capacity};
ghost use Rattle.sub_reader.specs.Audience.{IsAudience};
ghost use Rattle.sub_reader.specs.Places.{placed, moved_to};
ghost use Rattle.sub_reader.specs.Rows.{rows_of, HasRowAt, IsChangedAt};
ghost use Rattle.sub_reader.specs.Counts.{uncounted, counted, recounted, IsCounted, IsWithin, AreWithin, zeros, IsCountedIn, CanRise};
ghost use Rattle.sub_reader.specs.Offered.{LeadsTo, IsOfferedAt, readers_after};

use crate::audience::Audience;
use crate::place::{Place, is_fixed, moved};
use crate::row::HandleRow;
use crate::rows::HandleRows;
use server_queue::Entry;
use std::collections::VecDeque;

/// A handle leaves its place.
pub(crate) fn leave(counts: &mut VecDeque<usize>, start: u64, place: Place)
    requires within { IsWithin start (start + length counts.old.items) place }
    requires there { IsCountedIn start place counts.old.items }
    ensures counts { counts.new.items ≡ uncounted start place counts.old.items }
    ensures capacity { deque_capacity counts.new ≡ deque_capacity counts.old }
{
    if let Place::At { first, .. } = place {
        let i = (first - start) as usize;
        counts[i] -= 1;
    }
}

// A handle takes a place.
fn enter(counts: &mut VecDeque<usize>, start: u64, place: Place)
    requires within { IsWithin start (start + length counts.old.items) place }
    requires room { CanRise counts.old.items }
    ensures counts { counts.new.items ≡ counted start place counts.old.items }
    ensures capacity { deque_capacity counts.new ≡ deque_capacity counts.old }
{
    if let Place::At { first, .. } = place {
        let i = (first - start) as usize;
        counts[i] += 1;
    }
}

/// A handle goes from a place to another.
fn recount(counts: &mut VecDeque<usize>, start: u64, from: Place, to: Place)
    requires from_within { IsWithin start (start + length counts.old.items) from }
    requires to_within { IsWithin start (start + length counts.old.items) to }
    requires there { IsCountedIn start from counts.old.items }
    requires room { CanRise counts.old.items }
    ensures counts { counts.new.items ≡ recounted start from to counts.old.items }
    ensures capacity { deque_capacity counts.new ≡ deque_capacity counts.old }
{
    leave(counts, start, from);
    enter(counts, start, to);
}

// Where a record leads a handle, if it leads it anywhere; the counts follow.
fn offer_one(
    target: u64,
    audience: &Audience,
    reader: &HandleRow<Place>,
    counts: &mut VecDeque<usize>,
    start: u64,
    position: u64,
    entry: &Entry,
) -> Option<Place>
    requires audience { IsAudience target entry.now audience.now }
    requires from_start { start ≤ position }
    requires before_end { position < start + length counts.old.items }
    requires within { IsWithin start (start + length counts.old.items) reader.now.progress }
    requires there { IsCountedIn start reader.now.progress counts.old.items }
    requires room { CanRise counts.old.items }
    ensures reader { LeadsTo target entry.now position reader.now result }
    ensures counts { counts.new.items ≡ recounted start
        reader.now.progress (moved_to result reader.now).progress counts.old.items }
    ensures capacity { deque_capacity counts.new ≡ deque_capacity counts.old }
{
    if is_fixed(reader.progress) || !audience.sees(target, &reader.opening, entry) {
        return None;
    }
    if let Place::At { first, owed } = reader.progress {
        if owed < reader.opening.limit {
            return Some(Place::At {
                first,
                owed: owed + 1,
            });
        }
    }
    let place = moved(reader.progress, reader.opening.limit, position);
    recount(counts, start, reader.progress, place);
    Some(place)
}

// Offers the handle at a place a record, if there is one.
fn offer_at(
    target: u64,
    audience: &Audience,
    rows: &mut HandleRows<Place>,
    place: usize,
    counts: &mut VecDeque<usize>,
    start: u64,
    position: u64,
    entry: &Entry,
)
    requires audience { IsAudience target entry.now audience.now }
    requires place { place < length rows.old.slots }
    requires from_start { start ≤ position }
    requires before_end { position < start + length counts.old.items }
    requires within { AreWithin start (length counts.old.items) (rows_of rows.old) }
    requires agree { IsCounted start (rows_of rows.old) counts.old.items }
    ensures slots { IsOfferedAt place target entry.now position rows.old rows.new }
    ensures within { AreWithin start (length counts.old.items) (rows_of rows.new) }
    ensures agree { IsCounted start (rows_of rows.new) counts.new.items }
    ensures length { length counts.new.items ≡ length counts.old.items }
    ensures capacity { deque_capacity counts.new ≡ deque_capacity counts.old }
    ensures places { rows.new.places ≡ rows.old.places }
{
    let Some(reader) = rows.at(place) else {
        return;
    };
    let moved = offer_one(target, audience, reader, counts, start, position, entry);
    if let Some(progress) = moved {
        rows.set_progress(place, progress);
    }
}

/// Offers each handle a record of that audience, which was pushed at a position.
pub(crate) fn offer_each(
    target: u64,
    audience: &Audience,
    rows: &mut HandleRows<Place>,
    counts: &mut VecDeque<usize>,
    start: u64,
    position: u64,
    entry: &Entry,
)
    requires audience { IsAudience target entry.now audience.now }
    requires from_start { start ≤ position }
    requires before_end { position < start + length counts.old.items }
    requires within { AreWithin start (length counts.old.items) (rows_of rows.old) }
    requires agree { IsCounted start (rows_of rows.old) counts.old.items }
    ensures rows { rows_of rows.new ≡ readers_after target entry.now position (rows_of rows.old) }
    ensures agree { IsCounted start (rows_of rows.new) counts.new.items }
    ensures length { length counts.new.items ≡ length counts.old.items }
    ensures capacity { deque_capacity counts.new ≡ deque_capacity counts.old }
    ensures places { rows.new.places ≡ rows.old.places }
{
    let end = rows.slots().len();
    'offers: for place in 0..end {
        offer_at(
            target, audience, rows, place, counts, start, position, entry,
        );
    }
}

/// The handle at a place among the rows goes to another place among the records.
pub(crate) fn put(
    rows: &mut HandleRows<Place>,
    counts: &mut VecDeque<usize>,
    start: u64,
    place: usize,
    progress: Place,
)
    requires row { HasRowAt place rows.old }
    requires to_within { IsWithin start (start + length counts.old.items) progress }
    requires within { AreWithin start (length counts.old.items) (rows_of rows.old) }
    requires agree { IsCounted start (rows_of rows.old) counts.old.items }
    ensures rows { IsChangedAt place (placed progress) rows.old rows.new }
    ensures agree { IsCounted start (rows_of rows.new) counts.new.items }
    ensures length { length counts.new.items ≡ length counts.old.items }
    ensures capacity { deque_capacity counts.new ≡ deque_capacity counts.old }
    ensures places { rows.new.places ≡ rows.old.places }
{
    let from = rows.row(place).progress;
    recount(counts, start, from, progress);
    rows.set_progress(place, progress);
}

/// Drops the counts in front that are nobody's, and tells how many they were.
pub(crate) fn drop_zeros(counts: &mut VecDeque<usize>) -> usize
    ensures dropped { result ≡ zeros counts.old.items }
    ensures few { result ≤ length counts.old.items }
    ensures counts { counts.new.items ≡ drop (zeros counts.old.items) counts.old.items }
    ensures capacity { deque_capacity counts.new ≡ deque_capacity counts.old }
{
    let mut dropped = 0;
    while !counts.is_empty() && counts[0] == 0 {
        let _ = counts.pop_front();
        dropped += 1;
    }
    dropped
}
