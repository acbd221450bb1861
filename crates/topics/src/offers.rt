//! Records that are offered to handles.
ghost use Rattle.std.specs.Prelude.{◌≡◌, ◌<◌, ◌≤◌, ◌+◌, [], ◌∷◌, length, IfSome};
ghost use Rattle.std.specs.List.{AllByRecursion};
ghost use Rattle.server_queue.specs.Senders.{client_messages_in};
ghost use Rattle.sub_reader.specs.Rows.{row_at, rows_in, rows_of};
ghost use Rattle.topics.specs.QueueRows.{IsQueued, seer_count};
ghost use Rattle.topics.specs.Offers.{Gets, IsOffered, AreOffered, RoomIn, RoomInEach, TakesShareAt, seers_at};
ghost use Rattle.topics.specs.Spans.{CoversSeers};
ghost use Rattle.topics.specs.Walks.{GoesAt};

use crate::shares::Shares;
use crate::sight::is_given;
use crate::span::Span;
use server_queue::{Entry, Queue};
use sub_reader::{HandleRows, Slot};

/// How many of the handles are given a record.
pub(crate) fn count_seers(object: u64, slots: &[Slot<Queue>], entry: &Entry) -> usize
    requires { AllByRecursion IsQueued (rows_in slots.now) }
    ensures { result ≡ seer_count object entry.now (rows_in slots.now) }
{
    let mut count = 0;
    'slots: for slot in slots {
        if let Slot::Row(row) = slot {
            if is_given(object, &row.opening, entry) {
                count += 1;
            }
        }
    }
    count
}

// A queue gets one of the shares of a record, after all others.
fn push_share(queue: &mut Queue, shares: &mut Shares)
    requires share { 0 < shares.old.count }
    requires room { 0 < queue.old.room }
    requires counters { client_messages_in shares.old.entry ≤ queue.old.counters }
    ensures queue { Gets shares.old.entry queue.old queue.new }
    ensures entry { shares.new.entry ≡ shares.old.entry }
    ensures count { shares.new.count + 1 ≡ shares.old.count }
{
    if let Some(share) = shares.take() {
        queue.push_reserved(share);
    }
}

// The handle at a place, if there is one that is given the record, gets a share of it into its queue.
fn offer_at(object: u64, rows: &mut HandleRows<Queue>, place: usize, shares: &mut Shares)
    requires place { place < length rows.old.slots }
    requires queue { IfSome (row_at place rows.old.slots) IsQueued }
    requires room { IfSome (row_at place rows.old.slots) (RoomIn object (shares.old.entry ∷ [])) }
    requires enough { seers_at place object shares.old.entry rows.old.slots ≤ shares.old.count }
    ensures slots { GoesAt (IsOffered object shares.old.entry) place rows.old.slots rows.new.slots }
    ensures entry { shares.new.entry ≡ shares.old.entry }
    ensures count { TakesShareAt place object rows.old.slots shares.old shares.new }
    ensures places { rows.new.places ≡ rows.old.places }
{
    let Some(row) = rows.at(place) else {
        return;
    };
    if !is_given(object, &row.opening, shares.entry()) {
        return;
    }
    push_share(rows.progress_mut(place), shares);
}

/// Each handle that is given the record, none but those of a span, gets a share of it into its queue, for which there is
/// room. It takes no memory.
pub(crate) fn offer_each(object: u64, rows: &mut HandleRows<Queue>, span: Span, shares: &mut Shares)
    requires queue { AllByRecursion IsQueued (rows_of rows.old) }
    requires span { CoversSeers object (shares.old.entry ∷ []) span rows.old.slots }
    requires room { RoomInEach object (shares.old.entry ∷ []) (rows_of rows.old) }
    requires enough { seer_count object shares.old.entry (rows_of rows.old) ≤ shares.old.count }
    ensures rows { AreOffered object shares.old.entry (rows_of rows.old) (rows_of rows.new) }
    ensures places { rows.new.places ≡ rows.old.places }
{
    'places: for place in span.from..span.to {
        offer_at(object, rows, place, shares);
    }
}
