//! What is asked of one handle.
ghost use Rattle.std.specs.Prelude.{◌≡◌};
ghost use Rattle.sub_reader.specs.Woken.{news_at};
ghost use Rattle.sub_reader.specs.Glances.{IsNewsOf, IsOwedCountOf, IsOverflowOf};

use crate::place::Place;
use crate::row::HandleRow;

/// Whether a read of it would give something new.
#[inline(always)]
pub(crate) fn has_news(reader: &HandleRow<Place>) -> bool
    ensures at { result ≡ news_at reader.now.opening.reads reader.now.progress }
    ensures news { IsNewsOf reader.now result }
{
    match reader.progress {
        Place::News(news) => news,
        Place::Fresh => reader.opening.reads,
        Place::Over => true,
        Place::Idle => false,
        Place::At { .. } => true,
    }
}

/// How many records it is owed: none is told in full mode, before the first read and past the limit.
#[inline(always)]
pub(crate) fn owed_count(reader: &HandleRow<Place>) -> Option<u32>
    ensures { IsOwedCountOf reader.now result }
{
    match reader.progress {
        Place::Idle => Some(0),
        Place::At { owed, .. } => Some(owed),
        _ => None,
    }
}

/// Whether it is owed more than its limit.
#[inline(always)]
pub(crate) fn is_over(reader: &HandleRow<Place>) -> bool
    ensures { IsOverflowOf reader.now.progress result }
{
    matches!(reader.progress, Place::Over)
}
