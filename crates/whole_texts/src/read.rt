//! The answer to a read.
ghost use Rattle.std.specs.Prelude.{◌≡◌, IfOk};
ghost use Rattle.pps_types.specs.Names.{refusal_of};
ghost use Rattle.pps_types.specs.Reading as reading;
ghost use Rattle.pps_types.specs.Refused.{IsRefusedAs, LacksMemory};
ghost use Rattle.whole_texts.specs.Answered.{meant, refusal_in, answer_giving, answer_by, NeedsMemory, AnswersAreRead};

use crate::answer::Answer;
use crate::whole::Whole;
use pps_types::Refusal;
use server_queue::GivenBlocks;
use std::alloc::Global;

// Where nothing is owed.
#[inline(always)]
fn idle(dead: bool, wait: bool) -> Result<Answer, Refusal>
    ensures ok { IfOk result (λ a. meant a ≡ reading.idle_answer dead wait) }
    ensures refusal { refusal_of result ≡ refusal_in (reading.idle_answer dead wait) }
{
    if dead {
        return Err(Refusal::Gone);
    }
    if wait {
        return Ok(Answer::Waits);
    }
    Ok(Answer::Nothing)
}

// Where the blocks that fit are known.
#[inline(always)]
fn fitted(owed: GivenBlocks, dead: bool, wait: bool) -> Result<Answer, Refusal>
    ensures ok { IfOk result (λ a. meant a ≡ answer_giving dead wait owed) }
    ensures refusal { refusal_of result ≡ refusal_in (answer_giving dead wait owed) }
{
    let GivenBlocks { count, text } = owed;
    if count == 0 {
        return idle(dead, wait);
    }
    Ok(Answer::Blocks { count, text })
}

/// What a read of at most `max` bytes answers: everything, where no blocks are lent, and else the blocks, or where there
/// are none, that the object is gone, that the read waits, if such reads wait, or nothing.
///
/// It is TooSmall, with the size, where everything does not fit, before any memory is taken, and Gone where nothing is
/// owed of an object that is deleted; else OutOfMemory is the only error, and comes only where everything is to be given
/// or needs a size that is no number of 32 bits.
#[inline(always)]
pub fn read_answer(
    alloc: Global,
    whole: &Whole<'_>,
    wait: bool,
    max: u32,
    owed: Option<GivenBlocks>,
) -> Result<Answer, Refusal>
    ensures ok { IfOk result (λ a. meant a ≡ answer_by whole.now wait max owed) }
    ensures refusal { IsRefusedAs result (refusal_in (answer_by whole.now wait max owed)) }
    ensures lacking { LacksMemory result → NeedsMemory (answer_by whole.now wait max owed) }
{
    match owed {
        None => Ok(Answer::Everything(whole.answer(alloc, max)?)),
        Some(owed) => fitted(owed, whole.is_dead(), wait),
    }
}

/// Does nothing. Its contract is the law that a read of a handle is answered so: with no blocks lent where the handle
/// has not read yet, has news in full mode, or is past its limit; and else with those that fit of what it is owed.
pub fn answers_are_read()
    ensures { AnswersAreRead }
{}
