//! What is seen of one handle at one look.
ghost use Rattle.std.specs.Prelude.{◌≡◌};
ghost use Rattle.sub_reader.specs.Glances.{IsGlanceOf};

use crate::opening::Opening;
use crate::place::Place;
use crate::questions::{has_news, is_over, owed_count};
use crate::row::HandleRow;

/// What is seen of one handle at one look: what its open fixed, what waits on it, and what it is owed.
#[derive(Drop)]
pub struct Glance<'a> {
    pub opening: &'a Opening,
    /// The size of the read that waits on it, if one does.
    pub parked: Option<u32>,
    /// Whether a pulse is armed on it.
    pub is_armed: bool,
    /// Whether a read would give something new.
    pub has_news: bool,
    /// Whether it is owed more records than its limit, so that it is given everything anew.
    pub is_over: bool,
    /// How many records it is owed: none is told in full mode, before the first read and past the limit.
    pub owed: Option<usize>,
}

// The same count.
#[inline(always)]
fn widened(count: Option<u32>) -> Option<usize>
    ensures { result ≡ count }
{
    match count {
        None => None,
        Some(count) => Some(count as usize),
    }
}

/// What is seen of a handle at its place.
#[inline(always)]
pub(crate) fn glance_at(reader: &HandleRow<Place>) -> Glance<'_>
    ensures { IsGlanceOf reader.now result }
{
    let owed = widened(owed_count(reader));
    Glance {
        opening: &reader.opening,
        parked: reader.parked,
        is_armed: reader.is_armed(),
        has_news: has_news(reader),
        is_over: is_over(reader),
        owed,
    }
}
