//! The late reply to a read that waits.
ghost use Rattle.std.specs.Prelude.{◌≡◌, IfOk, OnErr, IsOkUnless};
ghost use Rattle.pps_types.specs.declared.refusal.Refusal.TheVariants.{OutOfMemory};
ghost use Rattle.whole_texts.specs.Whole.{everything_answer};
ghost use Rattle.whole_texts.specs.Replied.{meant, reply_by, NeedsMemory};
ghost use Rattle.whole_texts.specs.Woken.{ForLateAnswer};

use crate::blocks::give;
use crate::limits::is_past_limit;
use crate::whole::Whole;
use crate::woken::TargetAfter;
use pps_types::Refusal;
use std::alloc::Global;
use sub_reader::{Opening, is_full};

/// The late reply to a read that waits.
#[derive(Drop)]
pub enum Reply {
    /// Everything of the target.
    Everything(Vec<u8>),
    /// The blocks of so many of the records that the handle is given.
    Blocks { count: usize, text: Vec<u8> },
    /// What is to be given needs that size.
    TooSmall { need: u32 },
    /// There is nothing to give, and the read waits on.
    Waits,
    /// There is nothing to give.
    Nothing,
}

// The reply that gives everything.
fn give_everything(alloc: Global, whole: &Whole<'_>, size: u32) -> Result<Reply, Refusal>
    ensures ok { IfOk result (λ r. meant r ≡ everything_answer whole.now size) }
    ensures err { IsOkUnless result OutOfMemory }
    ensures lacking { OnErr result (NeedsMemory (everything_answer whole.now size)) }
{
    match whole.answer(alloc, size) {
        Ok(text) => Ok(Reply::Everything(text)),
        Err(Refusal::TooSmall { need }) => Ok(Reply::TooSmall { need }),
        Err(_) => Err(Refusal::OutOfMemory),
    }
}

// The late reply, by what its open fixed of the handle.
fn reply_to_opened(
    alloc: Global,
    target: u64,
    opening: &Opening,
    told: &TargetAfter<'_>,
    size: u32,
) -> Result<Reply, Refusal>
    ensures ok { IfOk result (λ r. meant r ≡ reply_by target opening.now told.now size) }
    ensures err { IsOkUnless result OutOfMemory }
    ensures lacking { OnErr result (NeedsMemory (reply_by target opening.now told.now size)) }
{
    let over = is_past_limit(target, opening, told.entries);
    if !over && !is_full(opening.kind) {
        return give(alloc, target, opening, told.entries, size);
    }
    let whole = Whole::new(
        opening.kind,
        opening.options.filter.as_ref(),
        over,
        told.alive,
        told.members,
    );
    give_everything(alloc, &whole, size)
}

/// The late reply to a read of that size, which waits on a handle on the object or directory of that number: everything
/// where [`gives_everything`] says so, and else the longest run of whole blocks that fits, of the records that the
/// handle is given. Where what is to be given does not fit, it is TooSmall, and no memory is taken.
///
/// OutOfMemory is the only error, and comes only where there are bytes to give, or where the size that is needed is no
/// number of 32 bits.
///
/// [`gives_everything`]: crate::gives_everything
pub fn late_answer(
    alloc: Global,
    target: u64,
    opening: &Opening,
    told: &TargetAfter<'_>,
    size: u32,
) -> Result<Reply, Refusal>
    ensures ok { ForLateAnswer target opening.now told.now size
        (λ a. IfOk result (λ r. meant r ≡ a)) }
    ensures err { IsOkUnless result OutOfMemory }
    ensures lacking { ForLateAnswer target opening.now told.now size
        (λ a. OnErr result (NeedsMemory a)) }
{
    reply_to_opened(alloc, target, opening, told, size)
}
