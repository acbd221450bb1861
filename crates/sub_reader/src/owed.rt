//! What a read gives of the records that a handle is owed.
ghost use Rattle.std.specs.Prelude.{◌≤◌};
ghost use Rattle.change_chain.specs.Span.{end_of};
ghost use Rattle.server_queue.specs.Given.{GivesFitting, RefusesTooSmall, ChecksSizeFirst, NeedsMemoryForBlocks};
ghost use Rattle.sub_reader.specs.Blocks.{blocks_in, blocks_from};
ghost use Rattle.sub_reader.specs.Chained.{IsPlaceIn};

use crate::opening::Opening;
use crate::place::Place;
use crate::row::HandleRow;
use crate::shown::{Turn, put_record};
use change_chain::Chain;
use pps_types::Refusal;
use server_queue::{Entry, Fitting, GivenBlocks};
use std::alloc::Global;

// The longest run of whole blocks that fits into so many bytes, of the records from a position on that the handle is
// given. It is TooSmall, with the size, if the first does not fit, and then no memory was taken; else OutOfMemory is the
// only error, and comes only if there is a block.
#[tactic(auto, using(crate::proofs::BlocksFrom::given_next, server_queue::proofs::Fits::given_more, server_queue::proofs::Fits::ended))]
fn give(
    alloc: Global,
    target: u64,
    opening: &Opening,
    records: &Chain<Entry>,
    from: u64,
    max: u32,
) -> Result<GivenBlocks, Refusal>
    requires from_start { records.now.start ≤ from }
    requires up_to_end { from ≤ end_of records.now }
    ensures ok { GivesFitting max (blocks_from target opening.now from records.now) result }
    ensures refusal { RefusesTooSmall max (blocks_from target opening.now from records.now) result }
    ensures memory { ChecksSizeFirst max (blocks_from target opening.now from records.now) result }
    ensures some { NeedsMemoryForBlocks (blocks_from target opening.now from records.now) result }
{
    let mut run = Fitting::new(alloc, max);
    let end = records.end();
    'records: for position in from..end {
        let entry = records.at(position);
        if let Turn::Full = put_record(&mut run, target, opening, entry, end - position)? {
            return Ok(run.given);
        }
    }
    Ok(run.given)
}

/// What a read of at most `max` bytes gives a handle at its place, as [`read_owed`] says.
///
/// [`read_owed`]: crate::Subscribers::read_owed
pub(crate) fn give_from(
    alloc: Global,
    target: u64,
    reader: &HandleRow<Place>,
    records: &Chain<Entry>,
    max: u32,
) -> Result<GivenBlocks, Refusal>
    requires { IsPlaceIn target reader.now.opening records.now reader.now.progress }
    ensures ok { GivesFitting max (blocks_in target records.now reader.now) result }
    ensures refusal { RefusesTooSmall max (blocks_in target records.now reader.now) result }
    ensures memory { ChecksSizeFirst max (blocks_in target records.now reader.now) result }
    ensures some { NeedsMemoryForBlocks (blocks_in target records.now reader.now) result }
{
    match reader.progress {
        Place::At { first, .. } => give(alloc, target, &reader.opening, records, first, max),
        _ => Ok(GivenBlocks::nothing(alloc)),
    }
}
