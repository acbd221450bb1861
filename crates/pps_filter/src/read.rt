//! The texts of filters.
ghost use Rattle.std.specs.Prelude.{◌≡◌, IfOk, IfErr, false, is_none};
ghost use Rattle.pps_types.specs.Bytes.{unescaped};
ghost use Rattle.pps_types.specs.Filter as meant;
ghost use Rattle.pps_filter.specs.Refused.{IsOptionRefusal};
ghost use Rattle.pps_filter.specs.Seen.{condition_seen, part_seen, parts_seen};

use crate::filter::{Condition, Filter, Part};
use crate::name::{Name, name_len};
use crate::number::whole_number;
use crate::pieces::{escapes, first_plain_piece};
use pps_types::{Bytes, Refusal, is_attribute_name};
use std::alloc::Global;

/// Whether the last byte is a backslash that no byte is left for.
fn ends_open(value: &[u8]) -> bool
    ensures { result ≡ is_none (unescaped false value.now) }
{
    let mut escaped = false;
    for byte in value {
        escaped = escapes(escaped, *byte);
    }
    escaped
}

/// The bytes of a value, without the backslashes that stand for the byte behind them.
fn read_value(alloc: Global, value: &[u8]) -> Result<Bytes, Refusal>
    ensures ok { IfOk result (λ bytes. unescaped false value.now ≡ Some bytes) }
    ensures err { IfErr result (IsOptionRefusal (unescaped false value.now)) }
{
    if ends_open(value) {
        return Err(Refusal::BadOption);
    }
    let mut bytes = Vec::with_capacity(alloc, value.len())?;
    let mut escaped = false;
    for byte in value {
        escaped = escapes(escaped, *byte);
        if !escaped {
            bytes.push(*byte)?;
        }
    }
    Ok(Bytes::new(bytes))
}

fn read_number(digits: &[u8]) -> Result<i64, Refusal>
    ensures ok { IfOk result (λ number. meant.whole_number digits.now ≡ Some number) }
    ensures err { IfErr result (IsOptionRefusal (meant.whole_number digits.now)) }
{
    whole_number(digits).ok_or(Refusal::BadOption)
}

/// Reads what stands behind the name of a part.
fn read_condition(alloc: Global, text: &[u8]) -> Result<Condition, Refusal>
    ensures ok { IfOk result (λ read. meant.condition_of text.now ≡ Some (condition_seen read)) }
    ensures err { IfErr result (IsOptionRefusal (meant.condition_of text.now)) }
{
    match text {
        [] => Ok(Condition::Always),
        [b'=', value @ ..] => Ok(Condition::IsValue(read_value(alloc, value)?)),
        [b'!', b'=', value @ ..] => Ok(Condition::IsOtherValue(read_value(alloc, value)?)),
        [b'<', number @ ..] => Ok(Condition::IsBelow(read_number(number)?)),
        [b'>', number @ ..] => Ok(Condition::IsAbove(read_number(number)?)),
        _ => Err(Refusal::BadOption),
    }
}

fn read_part(alloc: Global, text: &[u8]) -> Result<Part, Refusal>
    ensures ok { IfOk result (λ part. meant.part_of text.now ≡ Some (part_seen part)) }
    ensures err { IfErr result (IsOptionRefusal (meant.part_of text.now)) }
{
    let (name, rest) = text.split_at(name_len(text));
    if !is_attribute_name(name) {
        return Err(Refusal::BadOption);
    }
    let condition = read_condition(alloc, rest)?;
    let name = Bytes::from_slice(alloc, name)?;
    Ok(Part {
        name: Name::new(name),
        condition,
    })
}

/// Reads the parts of a filter, with a plain `+` between each two, as they stand behind `f=` in an open's options.
/// Commas have no meaning here.
///
/// It is BadOption where the bytes are no such parts, and else OutOfMemory is the only error. Filters are QNX's (PPS
/// Developer's Guide, filtering); the operators are our own.
pub fn read_parts(alloc: Global, bytes: &[u8]) -> Result<Filter, Refusal>
    ensures ok { IfOk result (λ read. meant.parts_of bytes.now ≡ Some read) }
    ensures err { IfErr result (IsOptionRefusal (meant.parts_of bytes.now)) }
{
    let mut parts = Vec::new(alloc);
    let mut rest = Some(bytes);
    while let Some(text) = rest {
        let (piece, behind) = first_plain_piece(b'+', text);
        parts.push(read_part(alloc, piece)?)?;
        rest = behind;
    }
    Ok(Filter::new(parts))
}

/// Reads a filter that stands by itself, in which no comma is plain.
///
/// It is BadOption where the bytes are no filter, and else OutOfMemory is the only error. Filters are QNX's (PPS
/// Developer's Guide, filtering); the operators are our own.
pub fn read_filter(alloc: Global, bytes: &[u8]) -> Result<Filter, Refusal>
    ensures ok { IfOk result (λ read. meant.filter_text bytes.now ≡ Some read) }
    ensures err { IfErr result (IsOptionRefusal (meant.filter_text bytes.now)) }
{
    let (_, rest) = first_plain_piece(b',', bytes);
    match rest {
        Some(_) => Err(Refusal::BadOption),
        None => read_parts(alloc, bytes),
    }
}
