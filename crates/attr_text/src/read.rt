//! The text of a write.
ghost use Rattle.std.specs.Prelude.{◌≡◌, ◌↔◌, ◌<◌, ◌≤◌, ◌+◌, ◌^◌, ◌++◌, IfOk, IfErr, IfSome, IsErrOf, Ok, Err, length, codes};
ghost use Rattle.std.specs.Option.{option_copied};
ghost use Rattle.pps_types.specs.Bytes as bytes_words;
ghost use Rattle.pps_types.specs.Text as text;
ghost use Rattle.attr_text.specs.ReadWrite.{first_line_of, lines_from, single_line, IsSingle, IsLinesRefusal, IsTextRefusal};

use crate::parts::{is_encoding, split_at_colon, split_at_line_feed};
use pps_types::limits::WRITE_MAX;
use pps_types::{Bytes, Mark, Refusal, WrittenLine, is_attribute_name};
use std::alloc::{AllocError, Global};
use std::marker::Model;

/// What a written text says: its header, and its lines.
#[derive(Debug, Drop)]
pub struct WriteText {
    header: Option<Bytes>,
    lines: Vec<WrittenLine>,
}

impl Model for WriteText {
    ghost use Rattle.pps_types.specs.Text.{WriteText as TextOfWrite};

    ghost Value = { TextOfWrite };

    ghost view = { λ a. record { header = a.header; lines = a.lines.items } };
}

impl WriteText {
    /// The bytes behind the `@` of the first line, where it has one.
    pub fn header(&self) -> Option<&Bytes>
        ensures { option_copied result ≡ self.now.header }
    {
        self.header.as_ref()
    }

    /// The lines that are not empty, in order.
    pub fn lines(&self) -> &[WrittenLine]
        ensures { result.now ≡ self.now.lines }
    {
        self.lines.as_slice()
    }

    /// The header and the lines. It takes no memory.
    pub fn into_parts(self) -> (Option<Bytes>, Vec<WrittenLine>)
        ensures header { result.0 ≡ self.header }
        ensures lines { result.1.items ≡ self.lines }
    {
        let WriteText { header, lines } = self;
        (header, lines)
    }
}

/// Reads `name:encoding:value`, which stands behind a bracket of that meaning. `None` says that it is no such line.
pub fn read_set(alloc: Global, mark: Mark, line: &[u8]) -> Result<Option<WrittenLine>, AllocError>
    ensures { IfOk result (λ read. read ≡ text.set_line mark line.now) }
{
    let Some((name, rest)) = split_at_colon(line) else {
        return Ok(None);
    };
    let Some((enc, _)) = split_at_colon(rest) else {
        return Ok(None);
    };
    if !is_attribute_name(name) || !is_encoding(enc) {
        return Ok(None);
    }
    let set = WrittenLine::set(alloc, line, name.len() as u8, enc.len() as u8, mark)?;
    Ok(Some(set))
}

/// Reads what stands behind the `-` of a deletion. `None` says that it is no name.
fn read_deletion(alloc: Global, name: &[u8]) -> Result<Option<WrittenLine>, AllocError>
    ensures { IfOk result (λ read. read ≡ text.deletion_line name.now) }
{
    if !is_attribute_name(name) {
        return Ok(None);
    }
    let deletion = WrittenLine::deletion(alloc, name)?;
    Ok(Some(deletion))
}

/// Reads what stands behind the `[` of a line. `None` says that the line is malformed.
fn read_bracketed(alloc: Global, behind: &[u8]) -> Result<Option<WrittenLine>, AllocError>
    ensures { IfOk result (λ read. read ≡ text.write_line (codes "[" ++ behind.now)) }
{
    match behind {
        [b'n', b']', line @ ..] => read_set(alloc, Mark::On, line),
        [b'-', b'n', b']', line @ ..] => read_set(alloc, Mark::Off, line),
        _ => Ok(None),
    }
}

/// Reads a line of a text, without its line feed: it sets or deletes an attribute. `None` says that it is malformed, as an
/// empty one is.
pub fn read_write_line(alloc: Global, line: &[u8]) -> Result<Option<WrittenLine>, AllocError>
    ensures { IfOk result (λ read. read ≡ text.write_line line.now) }
{
    match line {
        [b'-', name @ ..] => read_deletion(alloc, name),
        [b'[', behind @ ..] => read_bracketed(alloc, behind),
        _ => read_set(alloc, Mark::Keep, line),
    }
}

/// What stands before the first line feed, and what stands behind it. Without one everything stands before it.
pub fn first_line(bytes: &[u8]) -> (&[u8], &[u8])
    ensures { (result.0.now, result.1.now) ≡ first_line_of bytes.now }
{
    match split_at_line_feed(bytes) {
        Some(parts) => parts,
        None => (bytes, &bytes[bytes.len()..]),
    }
}

/// Reads a text of one line that sets or deletes an attribute, with a line feed at its end or without one. `None` says that
/// the text is no such line: then [`read_write`] says what it is. AllocError comes only if memory lacks.
///
/// It is the short way for the commonest write, without memory for a list of lines.
#[inline]
pub fn read_single(alloc: Global, bytes: &[u8]) -> Result<Option<WrittenLine>, AllocError>
    ensures line { IfOk result (λ read. read ≡ single_line bytes.now) }
    ensures text { IfOk result (λ read. IfSome read (IsSingle bytes.now)) }
{
    let (line, rest) = first_line(bytes);
    if !rest.is_empty() {
        return Ok(None);
    }
    read_write_line(alloc, line)
}

/// Reads the lines of the bytes, the first of which has that number.
fn read_lines(alloc: Global, first: u32, bytes: &[u8]) -> Result<Vec<WrittenLine>, Refusal>
    requires { first + length bytes.now < 2 ^ 32 }
    ensures ok { IfOk result (λ lines. lines_from first bytes.now ≡ Ok lines.items) }
    ensures err { IfErr result (λ refusal. IsLinesRefusal first bytes.now refusal) }
{
    let mut lines = Vec::new(alloc);
    let mut number = first;
    let mut rest = bytes;
    while !rest.is_empty() {
        let (line, behind) = first_line(rest);
        if !line.is_empty() {
            let Some(read) = read_write_line(alloc, line)? else {
                return Err(Refusal::BadText { line: number });
            };
            lines.push(read)?;
        }
        number += 1;
        rest = behind;
    }
    Ok(lines)
}

/// What stands behind an `@` at the start.
fn after_at(bytes: &[u8]) -> Option<&[u8]>
    ensures { option_copied result ≡ bytes_words.after_prefix (codes "@") bytes.now }
{
    match bytes {
        [b'@', behind @ ..] => Some(behind),
        _ => None,
    }
}

/// Reads a text that is not too large.
fn read_text(alloc: Global, bytes: &[u8]) -> Result<WriteText, Refusal>
    requires { length bytes.now ≤ WRITE_MAX }
    ensures ok { IfOk result (λ read. text.write_text bytes.now ≡ Ok read) }
    ensures err { IfErr result (IsTextRefusal bytes.now) }
{
    let Some(behind) = after_at(bytes) else {
        let lines = read_lines(alloc, 1, bytes)?;
        return Ok(WriteText {
            header: None,
            lines,
        });
    };
    let (header, rest) = first_line(behind);
    let lines = read_lines(alloc, 2, rest)?;
    let header = Bytes::from_slice(alloc, header)?;
    Ok(WriteText {
        header: Some(header),
        lines,
    })
}

/// Reads the text of a write: perhaps a header, and lines that set and delete attributes.
pub fn read_write(alloc: Global, bytes: &[u8]) -> Result<WriteText, Refusal>
    ensures ok { IfOk result (λ read. text.write_text bytes.now ≡ Ok read) }
    ensures too_large { IsErrOf result Refusal.TooLarge ↔ (WRITE_MAX < length bytes.now) }
    ensures err { length bytes.now ≤ WRITE_MAX → IfErr result (IsTextRefusal bytes.now) }
{
    if bytes.len() > WRITE_MAX {
        return Err(Refusal::TooLarge);
    }
    read_text(alloc, bytes)
}
