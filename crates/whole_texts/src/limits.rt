//! Whether a late reply gives everything.
ghost use Rattle.std.specs.Prelude.{◌≡◌, length};
ghost use Rattle.pps_types.specs.Reading as reading;
ghost use Rattle.pps_types.specs.SettlingReplies as replies;
ghost use Rattle.whole_texts.specs.Replied.{entries_given, is_given_too_many};
ghost use Rattle.whole_texts.specs.Woken.{ForOpened};

use pps_types::HandleKind;
use server_queue::Entry;
use sub_reader::{Opening, is_full, is_visible};

// Whether it reads in delta mode.
fn is_delta(kind: HandleKind) -> bool
    ensures { result ≡ reading.is_delta_style (reading.style kind) }
{
    matches!(
        kind,
        HandleKind::Object { delta: true }
            | HandleKind::Directory { delta: true }
            | HandleKind::Names
    )
}

// How many of the records it is given.
fn count_visible(target: u64, opening: &Opening, entries: &[Entry]) -> usize
    ensures { result ≡ length (entries_given target opening.now entries.now) }
{
    entries
        .iter()
        .filter(|entry| is_visible(target, opening, entry))
        .count()
}

/// Whether those of the records that a handle is given are more than it may be owed.
pub(crate) fn is_past_limit(target: u64, opening: &Opening, entries: &[Entry]) -> bool
    ensures { result ≡ is_given_too_many target opening.now entries.now }
{
    is_delta(opening.kind) && (opening.limit as usize) < count_visible(target, opening, entries)
}

/// Whether the late reply to a handle on the object or directory of that number is everything of it: in full mode, and
/// where it is given more of the records than it may be owed. It takes no memory.
pub fn gives_everything(target: u64, opening: &Opening, entries: &[Entry]) -> bool
    ensures { ForOpened target opening.now (λ handle. result ≡ replies.gives_everything handle entries.now) }
{
    is_full(opening.kind) || is_past_limit(target, opening, entries)
}
