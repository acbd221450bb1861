//! Values as the program shows them.
ghost use Rattle.std.specs.Prelude.{◌≡◌, IfOk, OnErr, IsErrOf, codes};
ghost use Rattle.base64.specs.Engines.{standard};
ghost use Rattle.base64.specs.GeneralPurpose.{decode_of};
ghost use Rattle.pps_types.specs.ShownValue.{flag_of, decoded, shown_value};

use base64::DecodeAllocError;
use base64::engine::general_purpose::STANDARD;
use pps_types::{Bytes, Refusal, Shown};
use std::alloc::Global;

/// What a value of encoding `b` shows.
fn flag(value: &[u8]) -> Shown
    ensures { result ≡ flag_of value.now }
{
    if value == b"true".as_slice() {
        Shown::Flag(true)
    } else if value == b"false".as_slice() {
        Shown::Flag(false)
    } else {
        Shown::Bad
    }
}

/// What a value of encoding `b64` shows.
fn decode(alloc: Global, value: &[u8]) -> Result<Shown, Refusal>
    ensures ok { IfOk result (λ shown. shown ≡ decoded (decode_of standard value.now)) }
    ensures err { OnErr result (IsErrOf result Refusal.OutOfMemory) }
{
    match STANDARD.decode(alloc, value) {
        Ok(bytes) => Ok(Shown::Bytes(Bytes::new(bytes))),
        Err(DecodeAllocError::DecodeError(_)) => Ok(Shown::Bad),
        Err(DecodeAllocError::OutOfMemory) => Err(Refusal::OutOfMemory),
    }
}

/// What an attribute's value says under its encoding: `b` holds true or false, and `b64` bytes in base64. A value of
/// any other encoding is shown as it stands. Encodings but `b64` take no memory.
pub fn show_value(alloc: Global, enc: &[u8], value: &[u8]) -> Result<Shown, Refusal>
    ensures ok { IfOk result (λ shown. shown ≡ shown_value enc.now value.now) }
    ensures err { OnErr result (IsErrOf result Refusal.OutOfMemory) }
    ensures memory { OnErr result (enc.now ≡ codes "b64") }
{
    match enc {
        b"b" => Ok(flag(value)),
        b"b64" => decode(alloc, value),
        _ => Ok(Shown::Plain),
    }
}
