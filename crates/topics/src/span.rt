//! Where those handles are that may be given records.
ghost use Rattle.std.specs.Prelude.{◌≡◌, ◌≤◌, ℕ, length, drop, slice_range};
ghost use Rattle.std.specs.List.{AllByRecursion};
ghost use Rattle.sub_reader.specs.Rows.{rows_in, rows_of};
ghost use Rattle.topics.specs.QueueRows.{IsQueued, IsOfClient, IsLed};
ghost use Rattle.topics.specs.Spans.{IsSpan, IsOther, IsBlind, CoversSeers, rows_from};

use pps_types::{Handle, Kind};
use server_queue::{Entry, Queue};
use sub_reader::{HandleRows, Slot};

/// A run of slots: from one place up to another.
#[derive(Clone, Copy)]
pub(crate) struct Span {
    pub(crate) from: usize,
    pub(crate) to: usize,
}

/// The slots of a span.
pub(crate) fn within(slots: &[Slot<Queue>], span: Span) -> &[Slot<Queue>]
    requires order { span.from ≤ span.to }
    requires bound { span.to ≤ length slots.now }
    ensures { result.now ≡ slice_range slots.now span.from span.to }
{
    &slots[span.from..span.to]
}

// The slot of a handle alone, if it is there.
fn span_of_one(rows: &HandleRows<Queue>, number: Handle) -> Span
    ensures { IsSpan (IsOther number) result.from result.to rows.now.slots }
{
    match rows.find(number) {
        None => Span { from: 0, to: 0 },
        Some(place) => Span {
            from: place,
            to: place + 1,
        },
    }
}

// All slots.
fn whole_span(rows: &HandleRows<Queue>) -> Span
    ensures from { result.from ≡ 0 }
    ensures to { result.to ≡ length rows.now.slots }
{
    Span {
        from: 0,
        to: rows.slots().len(),
    }
}

// How many slots there are up to the first handle, and with it.
fn end_of_first(slots: &[Slot<Queue>]) -> usize
    ensures bound { result ≤ length slots.now }
    ensures rows { rows_from result slots.now ≡ drop 1 (rows_in slots.now) }
{
    let mut end = 0;
    'slots: for slot in slots {
        end += 1;
        if let Slot::Row(_) = slot {
            return end;
        }
    }
    end
}

// The slots up to the first handle, where the others are known to be clients', and else all.
fn span_of_servers(rows: &HandleRows<Queue>, led: bool) -> Span
    requires { IsLed led (rows_of rows.now) }
    ensures { IsSpan IsOfClient result.from result.to rows.now.slots }
{
    if !led {
        return whole_span(rows);
    }
    Span {
        from: 0,
        to: end_of_first(rows.slots()),
    }
}

// The slots of those that may be given a record of that kind: its client, its server, or any client.
fn span_for(rows: &HandleRows<Queue>, led: bool, kind: &Kind) -> Span
    requires queue { AllByRecursion IsQueued (rows_of rows.now) }
    requires led { IsLed led (rows_of rows.now) }
    ensures { IsSpan (IsBlind kind.now) result.from result.to rows.now.slots }
{
    match kind {
        Kind::ToClient(id, _) => span_of_one(rows, *id),
        Kind::FromClient(_, _) => span_of_servers(rows, led),
        Kind::Opened(_) => span_of_servers(rows, led),
        Kind::Closed(_) => span_of_servers(rows, led),
        Kind::ToAll(_) => whole_span(rows),
        Kind::Deleted => whole_span(rows),
        _ => Span { from: 0, to: 0 },
    }
}

// The slots from the first on up to the last handle that may be given one of the records.
fn span_of_all(rows: &HandleRows<Queue>, led: bool, entries: &[Entry]) -> Span
    requires queue { AllByRecursion IsQueued (rows_of rows.now) }
    requires led { IsLed led (rows_of rows.now) }
    ensures { (object : ℕ) → CoversSeers object entries.now result rows.now.slots }
{
    let mut end = 0;
    'entries: for entry in entries {
        let span = span_for(rows, led, &entry.record().kind);
        end = span.to.max(end);
    }
    Span { from: 0, to: end }
}

/// A run of slots that has all handles that may be given one of the records. It looks at few slots for each record, and at
/// none if they are for all.
pub(crate) fn find_span(rows: &HandleRows<Queue>, led: bool, entries: &[Entry]) -> Span
    requires queue { AllByRecursion IsQueued (rows_of rows.now) }
    requires led { IsLed led (rows_of rows.now) }
    ensures { (object : ℕ) → CoversSeers object entries.now result rows.now.slots }
{
    match entries {
        [entry] => span_for(rows, led, &entry.record().kind),
        _ => span_of_all(rows, led, entries),
    }
}
