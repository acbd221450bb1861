//! Answers as frames.
ghost use Rattle.std.specs.Prelude.{◌≡◌, ℕ, ◌++◌, [], length, max, vec_capacity, IfOk, OnOk, IfErr};
ghost use Rattle.pps_types.specs.Frame as frames;
ghost use Rattle.pps_types.specs.Outcome.{IsSendable};
ghost use Rattle.frame_codec.specs.Encoded.{late_answer, tagged_fields};

use crate::requests::push_handle;
use pps_types::{Conn, Handle, Item, Outcome, Refusal, SharedBytes};
use std::alloc::{AllocError, Global};

// How many bytes a late reply has behind its tag.
fn late_len(late: &Result<SharedBytes, Refusal>) -> usize
    ensures { (handle : ℕ) → result ≡ length (frames.answer_fields (late_answer handle late.now)) }
{
    match late {
        Ok(bytes) => 4 + bytes.as_slice().len(),
        Err(_) => 9,
    }
}

// How many bytes an answer has behind its tag.
fn fields_len(answer: &Result<Outcome, Refusal>) -> usize
    ensures { result ≡ length (frames.answer_fields answer.now) }
{
    match answer {
        Err(_) => 5,
        Ok(Outcome::Done | Outcome::Parked | Outcome::Empty) => 0,
        Ok(Outcome::Opened(_) | Outcome::Wrote(_)) => 4,
        Ok(Outcome::Data(bytes)) => bytes.as_slice().len(),
        Ok(Outcome::Input(_)) => 1,
        Ok(Outcome::Item(Item::Pulse { .. })) => 5,
        Ok(Outcome::Item(Item::ReadDone { result: late, .. })) => late_len(late),
    }
}

fn push_refusal(out: &mut Vec<u8>, refusal: &Refusal) -> Result<(), AllocError>
    ensures { OnOk result (out.new.items ≡ out.old.items ++ frames.refusal_fields refusal.now) }
{
    out.push(refusal.number())?;
    out.extend_from_slice(&refusal.argument().to_be_bytes())
}

fn push_late(
    out: &mut Vec<u8>,
    handle: Handle,
    late: &Result<SharedBytes, Refusal>,
) -> Result<(), AllocError>
    ensures { OnOk result (out.new.items ≡ out.old.items
        ++ tagged_fields (late_answer handle late.now)) }
{
    match late {
        Ok(bytes) => {
            out.push(8)?;
            push_handle(out, handle)?;
            out.extend_from_slice(bytes.as_slice())
        }
        Err(refusal) => {
            out.push(9)?;
            push_handle(out, handle)?;
            push_refusal(out, refusal)
        }
    }
}

// Pushes an answer's tag and its fields.
fn push_answer(out: &mut Vec<u8>, answer: &Result<Outcome, Refusal>) -> Result<(), AllocError>
    ensures { OnOk result (out.new.items ≡ out.old.items ++ tagged_fields answer.now) }
{
    match answer {
        Err(refusal) => {
            out.push(0)?;
            push_refusal(out, refusal)?;
        }
        Ok(Outcome::Done) => out.push(1)?,
        Ok(Outcome::Opened(handle)) => {
            out.push(2)?;
            push_handle(out, *handle)?;
        }
        Ok(Outcome::Data(bytes)) => {
            out.push(3)?;
            out.extend_from_slice(bytes.as_slice())?;
        }
        Ok(Outcome::Wrote(count)) => {
            out.push(4)?;
            out.extend_from_slice(&count.to_be_bytes())?;
        }
        Ok(Outcome::Parked) => out.push(5)?,
        Ok(Outcome::Input(now)) => {
            out.push(6)?;
            out.push(if *now { 1 } else { 0 })?;
        }
        Ok(Outcome::Item(Item::Pulse { code, value })) => {
            out.push(7)?;
            out.push(*code)?;
            out.extend_from_slice(&value.to_be_bytes())?;
        }
        Ok(
            Outcome::Item(
                Item::ReadDone {
                    handle,
                    result: late,
                },
            ),
        ) => push_late(out, *handle, late)?,
        Ok(Outcome::Empty) => out.push(10)?,
    }
    Ok(())
}

// Empties a buffer, and sees that it has room for so many bytes. Where it hasn't, what it has is given back before just so
// much is asked for: the two are never there at once, and nothing is copied.
fn make_room(alloc: Global, out: &mut Vec<u8>, count: usize) -> Result<(), AllocError>
    ensures items { OnOk result (out.new.items ≡ []) }
    ensures room { OnOk result (vec_capacity out.new ≡ max (vec_capacity out.old) count) }
{
    if out.capacity() < count {
        *out = Vec::new(alloc);
        return out.reserve_exact(count);
    }
    out.clear();
    Ok(())
}

/// Makes the frame of the answer to a request of a connection in a buffer, in place of what it holds. Memory is asked for
/// at most once, before the first byte, and no more than the frame wants.
pub fn put_outcome(
    alloc: Global,
    out: &mut Vec<u8>,
    conn: Conn,
    answer: &Result<Outcome, Refusal>,
) -> Result<(), AllocError>
    requires { IsSendable answer.now }
    ensures { OnOk result (out.new.items ≡ frames.answer_frame conn answer.now) }
{
    let len = fields_len(answer);
    make_room(alloc, out, len + 7)?;
    let [a, b, c, d] = ((len + 3) as u32).to_be_bytes();
    let [high, low] = conn.number().to_be_bytes();
    out.extend_from_slice(&[a, b, c, d, high, low])?;
    push_answer(out, answer)
}

/// The frame of the answer to a request of a connection: the length of its body in four bytes, the highest first, and
/// the body. An answer whose bytes are read is copied once.
///
/// OutOfMemory is the only error. The service answers nothing that fits no frame.
pub fn encode_outcome(
    alloc: Global,
    conn: Conn,
    answer: &Result<Outcome, Refusal>,
) -> Result<Vec<u8>, Refusal>
    requires { IsSendable answer.now }
    ensures ok { IfOk result (λ frame. frame.items ≡ frames.answer_frame conn answer.now) }
    ensures err { IfErr result (λ r. r ≡ Refusal.OutOfMemory) }
{
    let mut out = Vec::new(alloc);
    put_outcome(alloc, &mut out, conn, answer)?;
    Ok(out)
}
