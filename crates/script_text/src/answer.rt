//! Answers, as lines.
ghost use Rattle.std.specs.Prelude.{◌≡◌, ◌++◌, ◌∷◌, [], OnOk, IfSome, decimal};
ghost use Rattle.script_text.specs.Answer.{space, counted_words, data_words, argument_word, refusal_words, read_words, pulse_words, item_words, outcome_words, answer_words, answer_line};

use crate::escapes::push_escaped;
use itoa::Buffer;
use pps_types::{Conn, Item, Outcome, Refusal, SharedBytes};
use std::alloc::AllocError;

// Pushes a number by its digits.
#[inline(never)]
fn push_digits(out: &mut Vec<u8>, number: u64) -> Result<(), AllocError>
    ensures { OnOk result (out.new.items ≡ out.old.items ++ decimal number) }
{
    let mut buffer = Buffer::new();
    out.extend_from_slice(buffer.format(number).as_bytes())
}

// Pushes a number. One of a single digit is pushed without a call.
#[inline(always)]
fn push_number(out: &mut Vec<u8>, number: u64) -> Result<(), AllocError>
    ensures { OnOk result (out.new.items ≡ out.old.items ++ decimal number) }
{
    if number < 10 {
        out.push(b'0' + number as u8)?;
        return Ok(());
    }
    push_digits(out, number)
}

/// Pushes how many bytes there are, and the bytes, if there are any.
#[inline(always)]
#[tactic(auto, using(crate::proofs::Regroup::regroup))]
pub(crate) fn push_counted(out: &mut Vec<u8>, bytes: &[u8]) -> Result<(), AllocError>
    ensures { OnOk result (out.new.items ≡ out.old.items ++ counted_words bytes.now) }
{
    push_number(out, bytes.len() as u64)?;
    if bytes.is_empty() {
        return Ok(());
    }
    out.extend_from_slice(b" ")?;
    push_escaped(out, bytes)
}

// Pushes a space, and bytes that were read.
#[inline(always)]
#[tactic(auto, using(crate::proofs::Regroup::regroup))]
fn push_data(out: &mut Vec<u8>, bytes: &[u8]) -> Result<(), AllocError>
    ensures { OnOk result (out.new.items ≡ out.old.items ++ space ++ data_words bytes.now) }
{
    out.extend_from_slice(b" data ")?;
    push_counted(out, bytes)
}

// Pushes what a refusal carries, if it carries anything.
#[tactic(auto, using(crate::proofs::Regroup::regroup))]
fn push_argument(out: &mut Vec<u8>, refusal: Refusal) -> Result<(), AllocError>
    ensures { OnOk result (out.new.items ≡ out.old.items ++ argument_word refusal) }
{
    match refusal {
        Refusal::BadText { .. }
        | Refusal::TooSmall { .. }
        | Refusal::Backlogged { .. }
        | Refusal::NoClient { .. } => {
            out.extend_from_slice(b" ")?;
            push_number(out, u64::from(refusal.argument()))
        }
        _ => Ok(()),
    }
}

// Pushes a space, and a refusal.
#[tactic(auto, using(crate::proofs::Regroup::regroup))]
fn push_refusal(out: &mut Vec<u8>, refusal: Refusal) -> Result<(), AllocError>
    ensures { OnOk result (out.new.items ≡ out.old.items ++ space ++ refusal_words refusal) }
{
    out.extend_from_slice(b" refused ")?;
    push_number(out, u64::from(refusal.number()))?;
    out.extend_from_slice(b" ")?;
    out.extend_from_slice(refusal.name().as_bytes())?;
    push_argument(out, refusal)
}

// Pushes a space, and the bytes of a read, or why it is refused.
fn push_read(out: &mut Vec<u8>, read: &Result<SharedBytes, Refusal>) -> Result<(), AllocError>
    ensures { OnOk result (out.new.items ≡ out.old.items ++ space ++ read_words read.now) }
{
    match read {
        Ok(bytes) => push_data(out, bytes.as_slice()),
        Err(refusal) => push_refusal(out, *refusal),
    }
}

// Pushes a space, and a pulse.
#[tactic(auto, using(crate::proofs::Regroup::regroup))]
fn push_pulse(out: &mut Vec<u8>, code: u8, value: u32) -> Result<(), AllocError>
    ensures { OnOk result (out.new.items ≡ out.old.items ++ space ++ pulse_words code value) }
{
    out.extend_from_slice(b" pulse ")?;
    push_number(out, u64::from(code))?;
    out.extend_from_slice(b" ")?;
    push_number(out, u64::from(value))
}

// Pushes a space, and what a Receive took.
#[tactic(auto, using(crate::proofs::Regroup::regroup))]
fn push_item(out: &mut Vec<u8>, item: &Item) -> Result<(), AllocError>
    ensures { OnOk result (out.new.items ≡ out.old.items ++ space ++ item_words item.now) }
{
    match item {
        Item::Pulse { code, value } => push_pulse(out, *code, *value),
        Item::ReadDone { handle, result } => {
            out.extend_from_slice(b" done ")?;
            push_number(out, u64::from(handle.number()))?;
            push_read(out, result)
        }
    }
}

// Pushes a space, and what was done.
#[inline(always)]
#[tactic(auto, using(crate::proofs::Regroup::regroup))]
fn push_outcome(out: &mut Vec<u8>, outcome: &Outcome) -> Result<(), AllocError>
    ensures { OnOk result (out.new.items ≡ out.old.items ++ space ++ outcome_words outcome.now) }
{
    match outcome {
        Outcome::Done => out.extend_from_slice(b" ok"),
        Outcome::Opened(handle) => {
            out.extend_from_slice(b" handle ")?;
            push_number(out, u64::from(handle.number()))
        }
        Outcome::Data(bytes) => push_data(out, bytes.as_slice()),
        Outcome::Wrote(count) => {
            out.extend_from_slice(b" wrote ")?;
            push_number(out, u64::from(*count))
        }
        Outcome::Parked => out.extend_from_slice(b" parked"),
        Outcome::Input(true) => out.extend_from_slice(b" input 1"),
        Outcome::Input(false) => out.extend_from_slice(b" input 0"),
        Outcome::Item(item) => push_item(out, item),
        Outcome::Empty => out.extend_from_slice(b" empty"),
    }
}

// Pushes a space, and an answer.
#[inline(always)]
fn push_answer(out: &mut Vec<u8>, answer: &Result<Outcome, Refusal>) -> Result<(), AllocError>
    ensures { OnOk result (out.new.items ≡ out.old.items ++ space ++ answer_words answer.now) }
{
    match answer {
        Ok(outcome) => push_outcome(out, outcome),
        Err(refusal) => push_refusal(out, *refusal),
    }
}

// The rest of a line whose answer says no more than its kind: a space, the answer and its line feed.
#[inline(always)]
fn constant_rest(answer: &Result<Outcome, Refusal>) -> Option<&'static [u8]>
    ensures { IfSome result (λ rest. rest.now ≡ space ++ answer_words answer.now ++ 10 ∷ []) }
{
    let Ok(outcome) = answer else {
        return None;
    };
    match outcome {
        Outcome::Done => Some(b" ok\n"),
        Outcome::Parked => Some(b" parked\n"),
        Outcome::Input(true) => Some(b" input 1\n"),
        Outcome::Input(false) => Some(b" input 0\n"),
        Outcome::Empty => Some(b" empty\n"),
        Outcome::Data(bytes) if bytes.as_slice().is_empty() => Some(b" data 0\n"),
        _ => None,
    }
}

/// Prints the answer to a command behind what is there, as one line with its line feed. It begins with the connection.
///
/// Bytes are shown with escapes: a line feed as `\n`, a backslash as `\\`, a byte from 32 to 126 as itself, and any
/// other as `\x` and two digits, with letters in lower case. Where memory is refused, a part of the line may stand there.
#[inline(always)]
#[tactic(auto, using(crate::proofs::Regroup::regroup))]
pub fn print_answer(
    out: &mut Vec<u8>,
    conn: Conn,
    answer: &Result<Outcome, Refusal>,
) -> Result<(), AllocError>
    ensures { OnOk result (out.new.items ≡ out.old.items ++ answer_line conn answer.now) }
{
    push_number(out, u64::from(conn.number()))?;
    if let Some(rest) = constant_rest(answer) {
        return out.extend_from_slice(rest);
    }
    push_answer(out, answer)?;
    out.extend_from_slice(b"\n")
}
