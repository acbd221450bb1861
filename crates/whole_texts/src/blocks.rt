//! The late reply that gives blocks: those of an event's records that fit.
ghost use Rattle.std.specs.Prelude.{◌≡◌, false, OnErr, IfOk, IsOkUnless};
ghost use Rattle.pps_types.specs.declared.refusal.Refusal.TheVariants.{OutOfMemory};
ghost use Rattle.server_queue.specs.Given.{GivesFitting, RefusesTooSmall, ChecksSizeFirst, NeedsMemoryForBlocks};
ghost use Rattle.whole_texts.specs.Answered.{answer_giving};
ghost use Rattle.whole_texts.specs.Replied.{meant, blocks_for, blocks_by, NeedsMemory};

use crate::reply::Reply;
use pps_types::Refusal;
use server_queue::{Entry, Fitting, GivenBlocks};
use std::alloc::Global;
use sub_reader::{Opening, Turn, put_record};

// The reply that gives these blocks, or if there are none says whether the read waits on.
fn reply_of(given: GivenBlocks, wait: bool) -> Reply
    ensures { meant result ≡ answer_giving false wait given }
{
    let GivenBlocks { count, text } = given;
    if count > 0 {
        return Reply::Blocks { count, text };
    }
    if wait { Reply::Waits } else { Reply::Nothing }
}

// The longest run of whole blocks that fits into so many bytes, of the records that a handle on the object or directory
// of that number is given. It is TooSmall, with the size, if the first does not fit, and then no memory was taken; else
// OutOfMemory is the only error, and comes only if there is a block.
fn fitting(
    alloc: Global,
    target: u64,
    opening: &Opening,
    entries: &[Entry],
    size: u32,
) -> Result<GivenBlocks, Refusal>
    ensures ok { GivesFitting size (blocks_for target opening.now entries.now) result }
    ensures refusal { RefusesTooSmall size (blocks_for target opening.now entries.now) result }
    ensures memory { ChecksSizeFirst size (blocks_for target opening.now entries.now) result }
    ensures some { NeedsMemoryForBlocks (blocks_for target opening.now entries.now) result }
{
    let mut run = Fitting::new(alloc, size);
    'entries: for (place, entry) in entries.iter().enumerate() {
        let records = (entries.len() - place) as u64;
        if let Turn::Full = put_record(&mut run, target, opening, entry, records)? {
            return Ok(run.given);
        }
    }
    Ok(run.given)
}

/// The longest run of whole blocks that fits into so many bytes, of the records that a handle on the object or directory
/// of that number is given. If the first does not fit, no memory is taken. OutOfMemory is the only error.
pub(crate) fn give(
    alloc: Global,
    target: u64,
    opening: &Opening,
    entries: &[Entry],
    size: u32,
) -> Result<Reply, Refusal>
    ensures ok { IfOk result (λ r. meant r ≡ blocks_by target opening.now entries.now size) }
    ensures err { IsOkUnless result OutOfMemory }
    ensures lacking { OnErr result (NeedsMemory (blocks_by target opening.now entries.now size)) }
{
    match fitting(alloc, target, opening, entries, size) {
        Ok(given) => Ok(reply_of(given, opening.options.wait)),
        Err(Refusal::TooSmall { need }) => Ok(Reply::TooSmall { need }),
        Err(_) => Err(Refusal::OutOfMemory),
    }
}
