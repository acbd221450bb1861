//! Rows of the texts of attributes: writes as they are read, lines and headers as they are printed, shown values.
ghost use Rattle.std.specs.Prelude.{◌≡◌, true};
ghost use Rattle.std.specs.Option.{ForSome};
ghost use Rattle.pps_types.specs.Text as text;

use crate::lines::held;
use crate::page::Page;
use crate::slip::Slip;
use crate::words::Words;
use attr_text::{
    client_header_len, header_len, line_len, passes_limits, print_header, print_line,
    push_client_header, push_header, push_line, push_set, read_write, set_len, show_value,
    write_line,
};
use pps_types::{HeldLine, Line, LineRef, Mark, Refusal, Shown, WrittenLine};
use std::alloc::{AllocError, Global};

/// The mark before a header.
#[derive(Clone, Copy)]
pub(crate) enum HeaderMark {
    Unmarked,
    PastLimit,
    Plus,
    Minus,
    Truncated,
    Dropped,
}

impl HeaderMark {
    fn byte(self) -> Option<u8>
        ensures { ForSome result (λ byte. text.is_header_mark byte ≡ true) }
    {
        match self {
            HeaderMark::Unmarked => None,
            HeaderMark::PastLimit => Some(b'!'),
            HeaderMark::Plus => Some(b'+'),
            HeaderMark::Minus => Some(b'-'),
            HeaderMark::Truncated => Some(b'#'),
            HeaderMark::Dropped => Some(b'*'),
        }
    }
}

fn read_mark(words: &mut Words<'_>) -> Result<HeaderMark, Slip> {
    match words.word()? {
        b"unmarked" => Ok(HeaderMark::Unmarked),
        b"!" => Ok(HeaderMark::PastLimit),
        b"+" => Ok(HeaderMark::Plus),
        b"-" => Ok(HeaderMark::Minus),
        b"#" => Ok(HeaderMark::Truncated),
        b"*" => Ok(HeaderMark::Dropped),
        _ => Err(Slip::UnknownWord),
    }
}

/// Answers a row of the crate `attr_text`.
pub(crate) fn answer(words: &mut Words<'_>, page: &mut Page) -> Result<(), Slip> {
    match words.word()? {
        b"write" => answer_write(words, page),
        b"count" => answer_count(words, page),
        b"set" => answer_set(words, page),
        b"removal" => answer_removal(words, page),
        b"over" => answer_over(words, page),
        b"header" => answer_header(words, page),
        b"client-header" => answer_client_header(words, page),
        b"value" => answer_value(words, page),
        b"limits" => answer_limits(words, page),
        _ => Err(Slip::UnknownWord),
    }
}

// A line of a write: what it sets or removes.
fn put_line(line: &WrittenLine, page: &mut Page) -> Result<(), AllocError> {
    match line.parts() {
        LineRef::Set { name, content } => {
            page.line(b"set")?;
            page.text(name)?;
            page.text(content.enc())?;
            page.text(content.value())?;
            page.word(match line.mark() {
                Some(Mark::Keep) => b"keep".as_slice(),
                Some(Mark::On) => b"on",
                Some(Mark::Off) => b"off",
                None => b"none",
            })
        }
        LineRef::Del { name } => {
            page.line(b"removal")?;
            page.text(name)
        }
    }
}

// The header and the lines of a write.
fn answer_write(words: &mut Words<'_>, page: &mut Page) -> Result<(), Slip> {
    let text = words.text()?;
    match read_write(words.alloc(), text.as_slice()) {
        Ok(read) => {
            page.line(b"header")?;
            page.bytes_or_none(read.header())?;
            for line in read.lines() {
                put_line(line, page)?;
            }
        }
        Err(refusal) => {
            page.line(b"is")?;
            page.refusal(refusal)?;
        }
    }
    Ok(())
}

// How many lines a write has; its header and how many lines, by its parts.
fn answer_count(words: &mut Words<'_>, page: &mut Page) -> Result<(), Slip> {
    let text = words.text()?;
    let read = read_write(words.alloc(), text.as_slice())?;
    page.line(b"is")?;
    page.size(read.lines().len())?;
    let (header, lines) = read.into_parts();
    page.word(b"header")?;
    page.bytes_or_none(header.as_ref())?;
    page.size(lines.len())?;
    Ok(())
}

// A text that a part printed.
fn put_printed(printed: Result<Vec<u8>, Refusal>, page: &mut Page) -> Result<(), AllocError> {
    page.line(b"printed")?;
    match printed {
        Ok(text) => page.text(text.as_slice()),
        Err(refusal) => page.refusal(refusal),
    }
}

// A text that was pushed, and its length as it was measured before.
fn put_pushed(len: usize, text: &[u8], page: &mut Page) -> Result<(), AllocError> {
    page.line(b"pushed")?;
    page.size(len)?;
    page.text(text)
}

// A line, printed, and pushed after a `.`.
fn put_both(alloc: Global, line: &HeldLine, page: &mut Page) -> Result<(), Slip> {
    put_printed(print_line(alloc, line), page)?;
    let len = line_len(line).ok_or(Slip::NoRoom)?;
    let mut out = Vec::from_slice(alloc, b".")?;
    out.reserve(len)?;
    push_line(&mut out, line);
    put_pushed(len, out.as_slice(), page)?;
    Ok(())
}

// The line that sets an attribute: printed, pushed, and its parts pushed.
fn answer_set(words: &mut Words<'_>, page: &mut Page) -> Result<(), Slip> {
    let name = words.bytes()?;
    let enc = words.bytes()?;
    let value = words.bytes()?;
    let n = words.flag()?;
    let len = set_len(name.as_slice(), enc.as_slice(), value.as_slice(), n).ok_or(Slip::NoRoom)?;
    let mut out = Vec::from_slice(words.alloc(), b".")?;
    out.reserve(len)?;
    push_set(
        &mut out,
        name.as_slice(),
        enc.as_slice(),
        value.as_slice(),
        n,
    );
    let line = Line::Set {
        name,
        enc,
        value,
        n,
    };
    let line = held(words.alloc(), &line)?;
    put_both(words.alloc(), &line, page)?;
    put_pushed(len, out.as_slice(), page)?;
    Ok(())
}

// The line that removes an attribute: printed and pushed.
fn answer_removal(words: &mut Words<'_>, page: &mut Page) -> Result<(), Slip> {
    let line = Line::Del {
        name: words.bytes()?,
    };
    let line = held(words.alloc(), &line)?;
    put_both(words.alloc(), &line, page)
}

// The line that sets an attribute, written over part of a place: where it ends, and all of the place.
fn answer_over(words: &mut Words<'_>, page: &mut Page) -> Result<(), Slip> {
    let at = words.size()?;
    let mut place = words.text()?;
    let line = Line::Set {
        name: words.bytes()?,
        enc: words.bytes()?,
        value: words.bytes()?,
        n: words.flag()?,
    };
    let line = held(words.alloc(), &line)?;
    let len = line_len(&line).ok_or(Slip::NoRoom)?;
    let end = at.checked_add(len).ok_or(Slip::NoRoom)?;
    if place.len() < end {
        return Err(Slip::NoRoom);
    }
    let end = write_line(place.as_mut_slice(), at, &line);
    page.line(b"ends")?;
    page.size(end)?;
    page.text(place.as_slice())?;
    Ok(())
}

// A header: printed and pushed.
fn answer_header(words: &mut Words<'_>, page: &mut Page) -> Result<(), Slip> {
    let mark = read_mark(words)?.byte();
    let name = words.text()?;
    let name = name.as_slice();
    put_printed(print_header(words.alloc(), mark, name), page)?;
    let len = header_len(mark, name).ok_or(Slip::NoRoom)?;
    let mut out = Vec::from_slice(words.alloc(), b".")?;
    out.reserve(len)?;
    push_header(&mut out, mark, name);
    put_pushed(len, out.as_slice(), page)?;
    Ok(())
}

// The header of a client's block, pushed.
fn answer_client_header(words: &mut Words<'_>, page: &mut Page) -> Result<(), Slip> {
    let mark = read_mark(words)?.byte();
    let name = words.text()?;
    let name = name.as_slice();
    let client = words.handle()?;
    let len = client_header_len(mark, name, client).ok_or(Slip::NoRoom)?;
    let mut out = Vec::with_capacity(words.alloc(), len)?;
    push_client_header(&mut out, mark, name, client);
    put_pushed(len, out.as_slice(), page)?;
    Ok(())
}

// What is shown of a value.
fn answer_value(words: &mut Words<'_>, page: &mut Page) -> Result<(), Slip> {
    let enc = words.text()?;
    let value = words.text()?;
    page.line(b"shown")?;
    match show_value(words.alloc(), enc.as_slice(), value.as_slice())? {
        Shown::Flag(flag) => {
            page.word(b"flag")?;
            page.flag(flag)?;
        }
        Shown::Bytes(bytes) => {
            page.word(b"bytes")?;
            page.text(bytes.as_slice())?;
        }
        Shown::Bad => page.word(b"bad")?,
        Shown::Plain => page.word(b"plain")?,
    }
    Ok(())
}

// Whether so many attributes, or so many bytes of text, are more than an object may have.
fn answer_limits(words: &mut Words<'_>, page: &mut Page) -> Result<(), Slip> {
    let count = words.size()?;
    let text_len = words.size()?;
    page.line(b"passed")?;
    page.flag(passes_limits(count, text_len))?;
    Ok(())
}
