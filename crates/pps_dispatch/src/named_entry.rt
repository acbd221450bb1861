//! Entries of a history, found by their names.
ghost use Rattle.std.specs.Prelude.{◌≡◌, Some, IsSome};
ghost use Rattle.pps_types.specs.Outcome.{IsSendable};
ghost use Rattle.pps_dispatch.specs.Named.{entry_named};

use pps_lock::{Entry, Receipt, Segment};

/// The entry that has this name. Its answer fits a frame.
pub(crate) fn entry_at<'s>(segments: &'s [Segment], name: Receipt) -> &'s Entry
    requires { IsSome (entry_named segments.now name) }
    ensures named { entry_named segments.now name ≡ Some result.now }
    ensures sends { IsSendable result.now.reply }
{
    let segment = &segments[name.segment as usize];
    segment.replays();
    &segment.entries()[name.index]
}
