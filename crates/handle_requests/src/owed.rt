//! What a read gives a handle of what it is owed.
ghost use Rattle.std.specs.Prelude.{◌≡◌, ◌&&◌, is_none, IfOk, IfErr};
ghost use Rattle.sub_reader.specs.HandleAt.{has_news_at, owed_at};
ghost use Rattle.topics.specs.HandlesOf.{handles_of};
ghost use Rattle.handle_requests.specs.Reads.{IsOwedAt, RefusesAt};

use crate::own::SeenHandle;
use pps_types::{Handle, Refusal};
use server_queue::GivenBlocks;
use std::alloc::Global;
use sub_reader::Glance;

// Whether a read of a reading handle gives everything.
#[inline(always)]
fn is_given_all(glance: &Glance<'_>) -> bool
    ensures { result ≡ (is_none glance.now.owed && glance.now.has_news) }
{
    glance.owed.is_none() && glance.has_news
}

/// The blocks that a reading handle is owed and that fit. There are none where it is given everything: where it has not read
/// yet, is past its limit, or has news in full mode.
///
/// It is TooSmall, with the size, where the first block does not fit, before any memory is taken; else OutOfMemory is the
/// only error, where blocks are given.
#[inline(always)]
pub(crate) fn owed_to(
    asked: &SeenHandle<'_>,
    alloc: Global,
    handle: Handle,
    size: u32,
) -> Result<Option<GivenBlocks>, Refusal>
    requires owed { asked.now.glance.owed ≡ owed_at handle (handles_of asked.now.topic.now) }
    requires news { asked.now.glance.has_news
        ≡ has_news_at handle (handles_of asked.now.topic.now) }
    ensures ok { IfOk result (λ owed. IsOwedAt handle (handles_of asked.now.topic.now) size owed) }
    ensures err { IfErr result (λ r. RefusesAt handle (handles_of asked.now.topic.now) size r) }
{
    if is_given_all(&asked.glance) {
        return Ok(None);
    }
    // Without news nothing is owed, so the handle is not looked up again.
    if !asked.glance.has_news {
        return Ok(Some(GivenBlocks::nothing(alloc)));
    }
    let given = asked.topic.read_owed(alloc, handle, size)?;
    Ok(Some(given))
}
