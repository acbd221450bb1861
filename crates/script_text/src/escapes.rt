//! Bytes as scripts and answers write them: with escapes, which begin with a backslash.
ghost use Rattle.std.specs.Prelude.{◌≡◌, ◌+◌, ◌<◌, ◌≤◌, ◌++◌, ◌∷◌, [], IfOk, IfSome, OnOk, length, option_map, take};
ghost use Rattle.script_text.specs.Asked.{Reads};
ghost use Rattle.script_text.specs.Escapes as escapes;

use crate::chunks::{ROOM, write_piece};
use crate::fault::LineFault;
use pps_types::{Bytes, split_at_first};
use smallvec::SmallVec;
use std::alloc::{AllocError, Global};

/// How many bytes of a command are gathered without memory: most writes are no longer.
const IN_PLACE: usize = 64;

/// The longest text whose bytes are gathered in an array.
const FEW: usize = 32;

/// Pushes the bytes as answers show them.
pub(crate) fn push_escaped(out: &mut Vec<u8>, bytes: &[u8]) -> Result<(), AllocError>
    ensures { OnOk result (out.new.items ≡ out.old.items ++ escapes.escaped bytes.now) }
{
    out.reserve(bytes.len())?;
    let mut text = [0u8; ROOM];
    let mut rest = bytes;
    'pieces: while !rest.is_empty() {
        let (taken, end) = write_piece(&mut text, rest);
        out.extend_from_slice(&text[..end])?;
        rest = &rest[taken..];
    }
    Ok(())
}

// The number that a digit stands for, in capitals or not.
fn hex_value(digit: u8) -> Option<u8>
    ensures value { result ≡ escapes.hex_value digit }
    ensures small { IfSome result (λ number. number < 16) }
{
    match digit {
        b'0'..=b'9' => Some(digit - b'0'),
        b'a'..=b'f' => Some(digit - b'a' + 10),
        b'A'..=b'F' => Some(digit - b'A' + 10),
        _ => None,
    }
}

// The byte of two digits.
fn hex_byte(high: u8, low: u8) -> Option<u8>
    ensures { result ≡ escapes.hex_byte high low }
{
    let high = hex_value(high)?;
    let low = hex_value(low)?;
    Some(16 * high + low)
}

// The byte of an escape, behind its backslash, and what stands behind it.
fn read_escape(text: &[u8]) -> Option<(u8, &[u8])>
    ensures { option_map (λ parts. (parts.0, parts.1.now)) result ≡ escapes.escape_of text.now }
{
    match text {
        [b'n', behind @ ..] => Some((b'\n', behind)),
        [b'\\', behind @ ..] => Some((b'\\', behind)),
        [b'x', high, low, behind @ ..] => {
            let byte = hex_byte(*high, *low)?;
            Some((byte, behind))
        }
        _ => None,
    }
}

// The bytes that were gathered. Few are copied, and many are handed on.
fn into_bytes(alloc: Global, bytes: SmallVec<u8, IN_PLACE>) -> Result<Bytes, AllocError>
    ensures { IfOk result (λ kept. kept ≡ bytes.items) }
{
    if !bytes.spilled() {
        return Bytes::from_slice(alloc, bytes.as_slice());
    }
    match bytes.into_vec() {
        Ok(bytes) => Ok(Bytes::new(bytes)),
        Err(_) => Err(AllocError),
    }
}

// Puts bytes after so many, for which there is room.
#[inline(always)]
fn put_bytes(out: &mut [u8; FEW], len: usize, bytes: &[u8]) -> usize
    requires { len + length bytes.now ≤ FEW }
    ensures len { result ≡ len + length bytes.now }
    ensures text { take result out.new ≡ take len out.old ++ bytes.now }
{
    out[len..len + bytes.len()].copy_from_slice(bytes);
    len + bytes.len()
}

// Puts a byte after so many, if there is room.
#[inline(always)]
fn put_byte(out: &mut [u8; FEW], len: usize, byte: u8) -> usize
    requires { len < FEW }
    ensures len { result ≡ len + 1 }
    ensures text { take result out.new ≡ take len out.old ++ byte ∷ [] }
{
    out[len] = byte;
    len + 1
}

// Reads a text of few bytes, which are gathered in an array.
fn read_few(alloc: Global, text: &[u8]) -> Result<Bytes, LineFault>
    requires { length text.now ≤ FEW }
    ensures { Reads (escapes.unescaped text.now) result }
{
    let mut bytes = [0; FEW];
    let mut len = 0;
    let mut rest = text;
    'escapes: while let Some((plain, escape)) = split_at_first(b'\\', rest) {
        len = put_bytes(&mut bytes, len, plain);
        let Some((byte, behind)) = read_escape(escape) else {
            return Err(LineFault::BadLine);
        };
        len = put_byte(&mut bytes, len, byte);
        rest = behind;
    }
    len = put_bytes(&mut bytes, len, rest);
    Ok(Bytes::from_slice(alloc, &bytes[..len])?)
}

// Reads a longer text.
fn read_many(alloc: Global, text: &[u8]) -> Result<Option<Bytes>, AllocError>
    ensures { IfOk result (λ read. read ≡ escapes.unescaped text.now) }
{
    let mut bytes = SmallVec::<u8, IN_PLACE>::with_capacity(alloc, text.len())?;
    let mut rest = text;
    'escapes: while let Some((plain, escape)) = split_at_first(b'\\', rest) {
        bytes.extend_from_slice(plain)?;
        let Some((byte, behind)) = read_escape(escape) else {
            return Ok(None);
        };
        bytes.push(byte)?;
        rest = behind;
    }
    bytes.extend_from_slice(rest)?;
    Ok(Some(into_bytes(alloc, bytes)?))
}

/// Reads bytes as scripts write them. BadLine says that an escape is malformed.
#[inline(always)]
pub(crate) fn read_escaped(alloc: Global, text: &[u8]) -> Result<Bytes, LineFault>
    ensures { Reads (escapes.unescaped text.now) result }
{
    if text.len() <= FEW {
        return read_few(alloc, text);
    }
    read_many(alloc, text)?.ok_or(LineFault::BadLine)
}
