//! What is seen of one handle of a server object at one look.
ghost use Rattle.std.specs.Prelude.{◌≡◌};
ghost use Rattle.topics.specs.Glances.{IsGlanceOf};

use server_queue::Queue;
use sub_reader::{Glance, HandleRow};

/// What is seen of a handle, by its queue. It is past no limit: a queue holds all that is owed.
pub(crate) fn glance_at(row: &HandleRow<Queue>) -> Glance<'_>
    ensures { IsGlanceOf row.now result }
{
    let owed = row.progress.owed_count();
    Glance {
        opening: &row.opening,
        parked: row.parked,
        is_armed: row.is_armed(),
        has_news: row.progress.news(),
        is_over: false,
        owed: Some(owed),
    }
}
