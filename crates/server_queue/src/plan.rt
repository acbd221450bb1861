//! What a read gives of a queue, before the queue moves on.
ghost use Rattle.std.specs.Prelude.{[], ◌≡◌, ◌≢◌, ◌<◌, ◌^◌, ◌+◌, ◌++◌, Some, None, length, IfOk, slice_get};
ghost use Rattle.pps_types.specs.Names.{refusal_of};
ghost use Rattle.pps_types.specs.declared.refusal.Refusal.TheVariants.{OutOfMemory};
ghost use Rattle.pps_types.specs.Reading as reading;
ghost use Rattle.pps_types.specs.Refused.{LacksMemory};
ghost use Rattle.server_queue.specs.Blocks.{blocks_with};
ghost use Rattle.server_queue.specs.Reads.{read_refusal, first_len};

use crate::entry::Entry;
use crate::fitting::Fitting;
use crate::shown::Shown;
use pps_types::Refusal;
use std::alloc::Global;
use std::collections::VecDeque;

/// What a read gives: the blocks of the first records.
#[derive(Drop)]
pub struct GivenBlocks {
    /// How many records it gives.
    pub count: usize,
    /// Their blocks, one after the other.
    pub text: Vec<u8>,
}

impl GivenBlocks {
    /// No records. It takes no memory.
    pub fn nothing(alloc: Global) -> GivenBlocks
        ensures count { result.count ≡ 0 }
        ensures text { result.text.items ≡ [] }
    {
        GivenBlocks {
            count: 0,
            text: Vec::new(alloc),
        }
    }
}

// The record at a place of what is queued and, after that, of more records.
fn entry_at<'a>(owed: &'a VecDeque<Entry>, extra: &'a [Entry], place: usize) -> &'a Entry
    requires { place < length owed.now.items + length extra.now }
    ensures { slice_get (owed.now.items ++ extra.now) place ≡ Some result.now }
{
    if place < owed.len() {
        return &owed[place];
    }
    &extra[place - owed.len()]
}

/// What a read of `max` bytes gives of what is queued and, after that, of more records: the longest run of whole
/// blocks that fits.
///
/// It is TooSmall, with the size, if the first block does not fit, and takes no memory before that is known.
#[tactic(auto, using(pps_types::proofs::Places::from_place, crate::proofs::Fits::given_more, crate::proofs::Fits::ended))]
pub(crate) fn plan_read(
    alloc: Global,
    owed: &VecDeque<Entry>,
    extra: &[Entry],
    max: u32,
) -> Result<GivenBlocks, Refusal>
    ensures refusal { refusal_of result ≢ Some OutOfMemory
        → refusal_of result ≡ read_refusal (owed.now.items ++ extra.now) max }
    ensures memory { LacksMemory result → first_len (owed.now.items ++ extra.now) < 2 ^ 32
        → read_refusal (owed.now.items ++ extra.now) max ≡ None }
    ensures some { LacksMemory result → 0 < length (owed.now.items ++ extra.now) }
    ensures ok { IfOk result (λ plan. (plan.count, plan.text.items)
        ≡ reading.fitting max (blocks_with owed.now extra.now)) }
{
    let mut run = Fitting::new(alloc, max);
    let count = owed.len() + extra.len();
    'places: for place in 0..count {
        let entry = entry_at(owed, extra, place);
        let shown = Shown::in_queue(entry);
        if !run.put(&shown, entry, (count - place) as u64)? {
            return Ok(run.given);
        }
    }
    Ok(run.given)
}
