//! Requests as frames.
ghost use Rattle.std.specs.Prelude.{◌≡◌, ◌++◌, ◌⊎◌, ◌↔◌, length, IfOk, OnOk, IfErr, IsErrOf};
ghost use Rattle.std.specs.Int.{w32, to_be_bytes};
ghost use Rattle.pps_types.specs.Frame as frames;
ghost use Rattle.frame_codec.specs.Encoded.{IsTooLong};

use pps_types::{Action, Event, Handle, Mode, Refusal, Request};
use std::alloc::{AllocError, Global};

/// The most bytes of a request's body.
pub(crate) const BODY_MAX: usize = 131_072;

fn value_if(set: bool, value: u8) -> u8
    ensures { result ≡ frames.value_if set value }
{
    if set { value } else { 0 }
}

fn mode_byte(mode: Mode) -> u8
    ensures { result ≡ frames.mode_byte mode }
{
    value_if(mode.r, 1) + value_if(mode.w, 2) + value_if(mode.c, 4) + value_if(mode.t, 8)
}

fn action_byte(action: Action) -> u8
    ensures { result ≡ frames.action_byte action }
{
    match action {
        Action::Poll => 1,
        Action::Pollarm => 2,
        Action::Tranarm => 3,
    }
}

fn kind(request: &Request) -> u8
    ensures { result ≡ frames.request_kind request.now }
{
    match request {
        Request::Attach => 1,
        Request::Detach => 2,
        Request::Open { .. } => 3,
        Request::Read { .. } => 4,
        Request::Write { .. } => 5,
        Request::Close { .. } => 6,
        Request::Unlink { .. } => 7,
        Request::Mkdir { .. } => 8,
        Request::List { .. } => 9,
        Request::Notify { .. } => 10,
        Request::Receive => 11,
    }
}

// How many bytes the fields have. A text in memory is shorter than any number here can be.
fn fields_len(request: &Request) -> usize
    ensures { result ≡ length (frames.request_fields request.now) }
{
    match request {
        Request::Attach | Request::Detach | Request::Receive => 0,
        Request::Open { text, .. } => 1 + text.as_slice().len(),
        Request::Read { .. } => 8,
        Request::Write { bytes, .. } => 4 + bytes.as_slice().len(),
        Request::Close { .. } => 4,
        Request::Unlink { path } => path.as_slice().len(),
        Request::Mkdir { path } => path.as_slice().len(),
        Request::List { path } => path.as_slice().len(),
        Request::Notify { .. } => 10,
    }
}

/// Pushes a handle's four bytes.
pub(crate) fn push_handle(out: &mut Vec<u8>, handle: Handle) -> Result<(), AllocError>
    ensures { OnOk result (out.new.items ≡ out.old.items ++ frames.four_bytes handle) }
{
    out.extend_from_slice(&handle.number().to_be_bytes())
}

fn push_fields(out: &mut Vec<u8>, request: &Request) -> Result<(), AllocError>
    ensures { OnOk result (out.new.items ≡ out.old.items ++ frames.request_fields request.now) }
{
    match request {
        Request::Attach | Request::Detach | Request::Receive => {}
        Request::Open { mode, text } => {
            out.push(mode_byte(*mode))?;
            out.extend_from_slice(text.as_slice())?;
        }
        Request::Read { handle, size } => {
            push_handle(out, *handle)?;
            out.extend_from_slice(&size.to_be_bytes())?;
        }
        Request::Write { handle, bytes } => {
            push_handle(out, *handle)?;
            out.extend_from_slice(bytes.as_slice())?;
        }
        Request::Close { handle } => push_handle(out, *handle)?,
        Request::Unlink { path } => out.extend_from_slice(path.as_slice())?,
        Request::Mkdir { path } => out.extend_from_slice(path.as_slice())?,
        Request::List { path } => out.extend_from_slice(path.as_slice())?,
        Request::Notify {
            handle,
            action,
            code,
            value,
        } => {
            push_handle(out, *handle)?;
            out.push(action_byte(*action))?;
            out.push(*code)?;
            out.extend_from_slice(&value.to_be_bytes())?;
        }
    }
    Ok(())
}

/// The frame of a request: the length of its body in four bytes, the highest first, and the body.
///
/// It is TooLarge where the body is longer than 131,072 bytes. Else OutOfMemory is the only error.
pub fn encode_request(alloc: Global, event: &Event) -> Result<Vec<u8>, Refusal>
    ensures ok { IfOk result (λ frame. frame.items ≡ frames.frame event.now) }
    ensures too_large { IsErrOf result Refusal.TooLarge ↔ IsTooLong event.now }
    ensures err { IfErr result (λ r. (r ≡ Refusal.TooLarge) ⊎ (r ≡ Refusal.OutOfMemory)) }
{
    let len = fields_len(&event.request);
    if len > BODY_MAX - 3 {
        return Err(Refusal::TooLarge);
    }
    let mut out = Vec::with_capacity(alloc, len + 7)?;
    out.extend_from_slice(&((len + 3) as u32).to_be_bytes())?;
    out.push(kind(&event.request))?;
    out.extend_from_slice(&event.conn.number().to_be_bytes())?;
    push_fields(&mut out, &event.request)?;
    Ok(out)
}
