//! The index of a table: its numbers in rising order, each with the key of its value in the slab.
ghost use Rattle.std.specs.Prelude.{◌≡◌, ◌≤◌, ◌<◌, [], ℕ, true, length, find, get_or, IsSome, IfSome, IfNone, None, Some, vec_len, vec_capacity};
ghost use Rattle.std.specs.Option.{option_copied};
ghost use Rattle.std.specs.Borrow.{Lends, sem};
ghost use Rattle.slab.specs.Slab.{slab_len};
ghost use Rattle.number_table.specs.Numbered.{has_number, most_taken, value_under};
ghost use Rattle.number_table.specs.Index.{BeginsWith, IsPlace, KeepsRising, StandsAt, Rises, numbers_in, held_in, has_same_entries, held_slots, slot_at, slots_in, stands, key_at, with_held_value};
ghost use Rattle.number_table.specs.contracts.index.Held.{the_row};

use slab::Slab;

/// How many numbers of the index may be without a value, besides as many as have one.
const SPARE_GAPS: usize = 16;

/// A hint that is never right.
pub(crate) const NO_HINT: usize = usize::MAX;

/// A number of the index, and the key of its value in the slab. Once the value has left, nothing is at the key, or the
/// value of another number.
#[derive(Clone, Copy, Drop)]
pub(crate) struct Place {
    pub(crate) number: u64,
    pub(crate) key: usize,
}

/// A value of the slab, and its number.
#[derive(Drop)]
pub(crate) struct Held<T> {
    pub(crate) number: u64,
    pub(crate) value: T,
}

impl<T> Held<T> {
    /// Its value, to be changed in place.
    #[inline(always)]
    pub(crate) fn value_mut(&mut self) -> &mut T
        ensures* lends { sem 𝓛 (Lends (the_row T.row) T.row self.entry result
            (with_held_value self.entry.now)) }
        ensures value { self.old.value ≡ result.now }
    {
        &mut self.value
    }
}

/// The value at a place, until it has left.
#[inline(always)]
fn value_at<T>(values: &Slab<Held<T>>, place: Place) -> Option<&T>
    ensures { option_copied result ≡ (slot_at values.now place).value }
{
    match values.get(place.key) {
        None => None,
        Some(held) => {
            if held.number == place.number {
                Some(&held.value)
            } else {
                None
            }
        }
    }
}

/// The first value of a part of the index, and the part after it.
#[derive(Drop)]
pub(crate) struct First<'a, T> {
    pub(crate) number: u64,
    pub(crate) value: &'a T,
    pub(crate) rest: &'a [Place],
}

/// The first value of a part of the index, if there is one.
pub(crate) fn first_value<'a, T>(
    values: &'a Slab<Held<T>>,
    index: &'a [Place],
) -> Option<First<'a, T>>
    ensures some { IfSome result (λ first.
        BeginsWith values.now index.now first.number first.value.now first.rest.now) }
    ensures none { IfNone result (held_in values.now index.now ≡ []) }
{
    let mut rest = index;
    while let Some((place, after)) = rest.split_first() {
        if let Some(value) = value_at(values, *place) {
            return Some(First {
                number: place.number,
                value,
                rest: after,
            });
        }
        rest = after;
    }
    None
}

/// Whether equal values are under the same numbers.
pub(crate) fn are_same<T: PartialEq>(
    values: &Slab<Held<T>>,
    index: &[Place],
    other_values: &Slab<Held<T>>,
    other_index: &[Place],
) -> bool
    ensures { result ≡ has_same_entries T.eq values.now index.now other_values.now other_index.now }
{
    let mut ours = index;
    let mut theirs = other_index;
    while let Some(our) = first_value(values, ours) {
        let Some(their) = first_value(other_values, theirs) else {
            return false;
        };
        if our.number != their.number || our.value != their.value {
            return false;
        }
        ours = our.rest;
        theirs = their.rest;
    }
    first_value(other_values, theirs).is_none()
}

/// The number at a place of the index.
#[inline(always)]
fn number_at(index: &[Place], place: usize) -> u64
    requires { place < length index.now }
    ensures { result ≡ get_or (numbers_in index.now) place 0 }
{
    index[place].number
}

/// The key at a place of the index.
#[inline(always)]
pub(crate) fn key_at(index: &[Place], place: usize) -> usize
    requires { place < length index.now }
    ensures { result ≡ key_at index.now place }
{
    index[place].key
}

/// The place of a number: those before it are lower, and those from there on are not.
#[inline(never)]
fn place_of(index: &[Place], number: u64) -> usize
    requires { (bound : ℕ) × Rises 0 (numbers_in index.now) bound }
    ensures { IsPlace number result (numbers_in index.now) }
{
    let mut start = 0;
    let mut end = index.len();
    'search: while start < end {
        let middle = start + (end - start) / 2;
        if number_at(index, middle) < number {
            start = middle + 1;
        } else {
            end = middle;
        }
    }
    start
}

/// A hint where a number is if none between it and the first one is missing: else it is before that.
#[inline(always)]
fn dense_hint(index: &[Place], number: u64) -> usize {
    if index.is_empty() || number < index[0].number {
        return NO_HINT;
    }
    let after_first = number - index[0].number;
    let last = index.len() - 1;
    if after_first < last as u64 {
        after_first as usize
    } else {
        last
    }
}

/// Whether a number is at a hint.
#[inline(always)]
fn is_at(index: &[Place], number: u64, hint: usize) -> bool
    requires { (bound : ℕ) × Rises 0 (numbers_in index.now) bound }
    ensures { result ≡ true → IsPlace number hint (numbers_in index.now) }
{
    if hint < index.len() {
        return number_at(index, hint) == number;
    }
    false
}

/// The same, at once where the number is at the hint, or where none before it is missing.
#[inline(always)]
fn place_near(index: &[Place], number: u64, hint: usize) -> usize
    requires { (bound : ℕ) × Rises 0 (numbers_in index.now) bound }
    ensures { IsPlace number result (numbers_in index.now) }
{
    if is_at(index, number, hint) {
        return hint;
    }
    let dense = dense_hint(index, number);
    if is_at(index, number, dense) {
        return dense;
    }
    place_of(index, number)
}

/// Whether a place has the value of that number.
#[inline(always)]
fn is_of<T>(values: &Slab<Held<T>>, place: Place, number: u64) -> bool
    ensures { result ≡ stands number (slot_at values.now place) }
{
    place.number == number && value_at(values, place).is_some()
}

/// The place that has the value of a number, if one does: without a search if it is that of the hint.
#[inline(always)]
pub(crate) fn find_place<T>(
    values: &Slab<Held<T>>,
    index: &[Place],
    number: u64,
    hint: usize,
) -> Option<usize>
    requires rises { (bound : ℕ) × Rises 0 (numbers_in index.now) bound }
    ensures some { IfSome result (λ place. StandsAt number place (slots_in values.now index.now)) }
    ensures none { IfNone result (find (has_number number) (held_in values.now index.now) ≡ None) }
{
    let place = place_near(index, number, hint);
    if place >= index.len() {
        return None;
    }
    let found = is_of(values, index[place], number);
    if found { Some(place) } else { None }
}

/// The value of a number, if there is one: without a search if its place is that of the hint.
#[inline(always)]
pub(crate) fn find_value<'a, T>(
    values: &'a Slab<Held<T>>,
    index: &[Place],
    number: u64,
    hint: usize,
) -> Option<&'a T>
    requires { (bound : ℕ) × Rises 0 (numbers_in index.now) bound }
    ensures { option_copied result ≡ value_under number (held_in values.now index.now) }
{
    let place = place_near(index, number, hint);
    if place >= index.len() {
        return None;
    }
    let place = index[place];
    if place.number != number {
        return None;
    }
    value_at(values, place)
}

/// The place that has the value of a number, which one does: without a search if it is that of the hint.
#[inline(always)]
pub(crate) fn known_place<T>(
    values: &Slab<Held<T>>,
    index: &[Place],
    number: u64,
    hint: usize,
) -> usize
    requires rises { (bound : ℕ) × Rises 0 (numbers_in index.now) bound }
    requires known { IsSome (value_under number (held_in values.now index.now)) }
    ensures { StandsAt number result (slots_in values.now index.now) }
{
    let _values = values;
    place_near(index, number, hint)
}

/// Drops the numbers without a value.
fn compact<T>(values: &Slab<Held<T>>, index: &mut Vec<Place>)
    ensures index { slots_in values.now index.new.items ≡ held_slots values.now index.old.items }
    ensures capacity { vec_capacity index.new ≡ vec_capacity index.old }
{
    index.retain(|place| value_at(values, *place).is_some());
}

/// Drops the numbers without a value where they are too many beside those with one.
pub(crate) fn compact_if_sparse<T>(values: &Slab<Held<T>>, index: &mut Vec<Place>)
    requires counted { slab_len values.now ≡ length (held_in values.now index.old.items) }
    ensures entries { held_in values.now index.new.items ≡ held_in values.now index.old.items }
    ensures rises { KeepsRising index.old.items index.new.items }
    ensures dense { vec_len index.new ≤ most_taken (slab_len values.now) }
    ensures len { vec_len index.new ≤ vec_len index.old }
    ensures capacity { vec_capacity index.new ≡ vec_capacity index.old }
{
    let count = values.len();
    let gaps = index.len() - count;
    if gaps > SPARE_GAPS && gaps - SPARE_GAPS > count {
        compact(values, index);
    }
}
