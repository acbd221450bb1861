//! Places: how far a handle has read of what its target holds.
ghost use Rattle.std.specs.Prelude.{◌≡◌, true};
ghost use Rattle.sub_reader.specs.declared.place.Place.TheVariants.{Idle, At};
ghost use Rattle.sub_reader.specs.Places.{place_after, first_place, caught_place, IsFixed};

use crate::kinds::is_full;
use pps_types::HandleKind;

/// How far a handle has read of the records of its target.
#[derive(Clone, Copy, Debug, PartialEq, Eq)]
pub(crate) enum Place {
    /// In full mode: whether there is news.
    News(bool),
    /// It has read nothing yet.
    Fresh,
    /// It is owed more than its limit.
    Over,
    /// It is owed nothing.
    Idle,
    /// The first record that it is owed stands at a position, and it is owed so many.
    At { first: u64, owed: u32 },
}

/// Where a handle begins.
pub(crate) fn at_first(kind: HandleKind, reads: bool) -> Place
    ensures { result ≡ first_place kind reads }
{
    if is_full(kind) {
        return Place::News(reads);
    }
    Place::Fresh
}

/// Where a handle is that has read everything.
pub(crate) fn caught(kind: HandleKind) -> Place
    ensures { result ≡ caught_place kind }
{
    if is_full(kind) {
        return Place::News(false);
    }
    Place::Idle
}

// The place of a handle that was owed nothing, after a record that it is given.
fn woken(limit: u32, position: u64) -> Place
    ensures { result ≡ place_after limit true position Idle }
{
    if limit == 0 {
        return Place::Over;
    }
    Place::At {
        first: position,
        owed: 1,
    }
}

// The place of a handle that was owed so many, after a record that it is given.
fn owed_more(limit: u32, first: u64, owed: u32) -> Place
    ensures { result ≡ place_after limit true 0 (At first owed) }
{
    if owed >= limit {
        return Place::Over;
    }
    Place::At {
        first,
        owed: owed + 1,
    }
}

/// Whether a handle stays at a place whatever record is pushed.
pub(crate) fn is_fixed(place: Place) -> bool
    ensures { result ≡ true → IsFixed place }
{
    matches!(place, Place::Fresh | Place::Over | Place::News(true))
}

/// The place after one more record that the handle is given, which was pushed at a position.
pub(crate) fn moved(place: Place, limit: u32, position: u64) -> Place
    ensures { result ≡ place_after limit true position place }
{
    match place {
        Place::News(_) => Place::News(true),
        Place::Idle => woken(limit, position),
        Place::At { first, owed } => owed_more(limit, first, owed),
        _ => place,
    }
}
