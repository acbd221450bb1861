//! Slots in rising number: where a handle is among them, and the gaps that closed handles leave.
ghost use Rattle.std.specs.Prelude.{◌≡◌, ◌<◌, ◌≤◌, ◌∷◌, [], true, length, filter, take, IfOk, IfErr, IfSome, IfNone, IsSome, Some, None, vec_len, vec_capacity};
ghost use Rattle.std.specs.Option.{option_copied};
ghost use Rattle.pps_types.specs.Rising.{IsRising, IsPlaceOf, IsGapFor};
ghost use Rattle.sub_reader.specs.Rows.{number_at, is_row, row_of, row_at, rows_in, on_row, with_progress, parked_with, armed_with, EndsInRow, IsAbsent, most_slots};
ghost use Rattle.sub_reader.specs.declared.row.Slot.TheVariants.{Gap};

use crate::opening::Pulse;
use crate::row::{HandleRow, Slot};
use pps_types::Handle;
use std::mem::replace;

/// How many gaps may be left, besides as many as there are handles.
const SPARE_GAPS: usize = 16;

// The number of the handle of a slot, also of one that has closed.
#[inline(always)]
fn number_at<P>(slot: &Slot<P>) -> u32
    ensures { result ≡ number_at slot.now }
{
    match slot {
        Slot::Row(row) => row.opening.number.number(),
        Slot::Gap(number) => number.number(),
    }
}

// Whether there is a handle in a slot.
#[inline(always)]
fn is_row<P>(slot: &Slot<P>) -> bool
    ensures { result ≡ is_row slot.now }
{
    matches!(slot, Slot::Row(_))
}

// The place of a number if the handles up to it were opened one right after the other.
#[inline(always)]
fn dense_place<P>(slots: &[Slot<P>], number: u32) -> usize {
    match slots.first() {
        None => 0,
        Some(first) => number.saturating_sub(number_at(first)) as usize,
    }
}

// Whether a number is at a place.
#[inline(always)]
fn is_at<P>(slots: &[Slot<P>], number: u32, place: usize) -> bool
    requires { IsRising number_at slots.now }
    ensures found { result ≡ true → IsPlaceOf number_at slots.now number place }
    ensures place { result ≡ true → place < length slots.now }
{
    if place >= slots.len() {
        return false;
    }
    let slot = &slots[place];
    number_at(slot) == number
}

// The place of a number, or else where it would go, by a binary search.
#[inline(never)]
fn search_by_order<P>(slots: &[Slot<P>], number: u32) -> Result<usize, usize>
    requires { IsRising number_at slots.now }
    ensures found { IfOk result (IsPlaceOf number_at slots.now number) }
    ensures absent { IfErr result (IsGapFor number_at slots.now number) }
    ensures place { IfOk result (λ i. i < length slots.now) }
{
    slots.binary_search_by_key(&number, |slot| number_at(slot))
}

// The same: at once if the handles up to it were opened one right after the other, and else by a binary search.
#[inline(always)]
fn search<P>(slots: &[Slot<P>], number: u32) -> Result<usize, usize>
    requires { IsRising number_at slots.now }
    ensures found { IfOk result (IsPlaceOf number_at slots.now number) }
    ensures absent { IfErr result (IsGapFor number_at slots.now number) }
    ensures place { IfOk result (λ i. i < length slots.now) }
{
    let dense = dense_place(slots, number);
    if is_at(slots, number, dense) {
        return Ok(dense);
    }
    search_by_order(slots, number)
}

/// The place of a handle, if it is open.
#[inline(always)]
pub(crate) fn find_row<P>(slots: &[Slot<P>], number: u32) -> Option<usize>
    requires { IsRising number_at slots.now }
    ensures found { IfSome result (IsPlaceOf number_at slots.now number) }
    ensures row { IfSome result (λ i. IsSome (row_at i slots.now)) }
    ensures absent { IfNone result (IsAbsent number (rows_in slots.now)) }
{
    let Ok(place) = search(slots, number) else {
        return None;
    };
    let slot = &slots[place];
    if is_row(slot) { Some(place) } else { None }
}

/// The handle of a slot, if there is one.
#[inline(always)]
pub(crate) fn row_of<P>(slot: &Slot<P>) -> Option<&HandleRow<P>>
    ensures { option_copied result ≡ row_of slot.now }
{
    match slot {
        Slot::Row(row) => Some(row),
        Slot::Gap(_) => None,
    }
}

/// The handle of a slot that has one.
#[inline(always)]
pub(crate) fn known_row<P>(slot: &Slot<P>) -> &HandleRow<P>
    requires { IsSome (row_of slot.now) }
    ensures { Some result.now ≡ row_of slot.now }
{
    match slot {
        Slot::Row(row) => row,
        Slot::Gap(_) => unreachable!(),
    }
}

/// Takes the handle out of a slot that has one, and leaves a gap.
pub(crate) fn take_row<P>(slot: &mut Slot<P>) -> HandleRow<P>
    requires { IsSome (row_of slot.old) }
    ensures row { Some result ≡ row_of slot.old }
    ensures slot { slot.new ≡ Gap (number_at slot.old) }
{
    let number = Handle::new(number_at(slot));
    match replace(slot, Slot::Gap(number)) {
        Slot::Row(row) => row,
        Slot::Gap(_) => unreachable!(),
    }
}

/// The handle of a slot, if there is one, has read so far.
#[inline(always)]
pub(crate) fn progress_in<P: Drop>(slot: &mut Slot<P>, progress: P)
    ensures { slot.new ≡ on_row (with_progress progress) slot.old }
{
    if let Slot::Row(row) = slot {
        row.progress = progress;
    }
}

/// A read of that size waits on the handle of a slot, if there is one.
pub(crate) fn park_in<P>(slot: &mut Slot<P>, size: Option<u32>)
    ensures { slot.new ≡ on_row (parked_with size) slot.old }
{
    if let Slot::Row(row) = slot {
        row.parked = size;
    }
}

/// A pulse waits on the handle of a slot, if there is one.
pub(crate) fn arm_in<P>(slot: &mut Slot<P>, pulse: Option<Pulse>)
    ensures { slot.new ≡ on_row (armed_with pulse) slot.old }
{
    if let Slot::Row(row) = slot {
        row.armed = pulse;
    }
}

/// How many slots there are up to the last handle.
pub(crate) fn end_of_rows<P>(slots: &[Slot<P>]) -> usize
    ensures rows { rows_in (take result slots.now) ≡ rows_in slots.now }
    ensures ends { EndsInRow (take result slots.now) }
{
    let mut end = slots.len();
    'gaps: while end > 0 {
        let slot = &slots[end - 1];
        if is_row(slot) {
            return end;
        }
        end -= 1;
    }
    end
}

// Drops all gaps.
fn compact<P: Drop>(slots: &mut Vec<Slot<P>>)
    ensures slots { slots.new.items ≡ filter is_row slots.old.items }
    ensures capacity { vec_capacity slots.new ≡ vec_capacity slots.old }
{
    slots.retain(|slot| is_row(slot));
}

/// Drops all gaps where they are too many beside `count` handles.
pub(crate) fn compact_if_sparse<P: Drop>(slots: &mut Vec<Slot<P>>, count: usize)
    requires count { count ≡ length (rows_in slots.old.items) }
    requires ends { EndsInRow slots.old.items }
    ensures rows { rows_in slots.new.items ≡ rows_in slots.old.items }
    ensures rising { IsRising number_at slots.old.items → IsRising number_at slots.new.items }
    ensures ends { EndsInRow slots.new.items }
    ensures dense { length slots.new.items ≤ most_slots count }
    ensures len { vec_len slots.new ≤ vec_len slots.old }
    ensures capacity { vec_capacity slots.new ≡ vec_capacity slots.old }
{
    let gaps = slots.len() - count;
    if gaps > SPARE_GAPS && gaps - SPARE_GAPS > count {
        compact(slots);
    }
}

/// The first handle of slots, and the slots behind it.
#[derive(Drop)]
pub struct First<'a, P> {
    pub row: &'a HandleRow<P>,
    pub behind: &'a [Slot<P>],
}

/// The first handle, if there is one.
pub fn first_row<P>(slots: &[Slot<P>]) -> Option<First<'_, P>>
    ensures some { IfSome result (λ f. rows_in slots.now ≡ f.row.now ∷ rows_in f.behind.now) }
    ensures none { IfNone result (rows_in slots.now ≡ []) }
{
    let mut rest = slots;
    while let Some((slot, behind)) = rest.split_first() {
        if let Slot::Row(row) = slot {
            return Some(First { row, behind });
        }
        rest = behind;
    }
    None
}
