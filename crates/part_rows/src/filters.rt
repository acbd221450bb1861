//! Rows of filters: reading them, what they match, and where pieces end.

use crate::lines::held;
use crate::page::Page;
use crate::slip::Slip;
use crate::words::Words;
use pps_filter::{Filter, Name, Part, first_plain_piece, matches, read_filter, read_parts};
use pps_types::{Bytes, Line, Refusal};
use std::alloc::{AllocError, Global};

/// Answers a row of the crate `pps_filter`.
pub(crate) fn answer(words: &mut Words<'_>, page: &mut Page) -> Result<(), Slip> {
    match words.word()? {
        b"matches" => answer_match(words, page),
        b"read" => answer_read(words, page),
        b"parts" => answer_parts(words, page),
        b"same" => answer_same(words, page),
        b"piece" => answer_piece(words, page),
        _ => Err(Slip::UnknownWord),
    }
}

// A line, which sets an attribute or removes one.
fn read_line(words: &mut Words<'_>) -> Result<Line, Slip> {
    let word = words.word()?;
    let name = words.bytes()?;
    match word {
        b"set" => Ok(Line::Set {
            name,
            enc: Bytes::new(Vec::new(words.alloc())),
            value: words.bytes()?,
            n: false,
        }),
        b"removal" => Ok(Line::Del { name }),
        _ => Err(Slip::UnknownWord),
    }
}

// Whether a filter matches a line, whether it does as an optional one, and whether no filter does.
fn answer_match(words: &mut Words<'_>, page: &mut Page) -> Result<(), Slip> {
    let text = words.text()?;
    let line = read_line(words)?;
    page.line(b"is")?;
    match read_filter(words.alloc(), text.as_slice()) {
        Ok(filter) => {
            let line = held(words.alloc(), &line)?;
            page.flag(filter.matches(&line))?;
            page.flag(matches(Some(&filter), &line))?;
            page.flag(matches(None, &line))?;
        }
        Err(refusal) => page.refusal(refusal)?,
    }
    Ok(())
}

// How many parts a filter has that was read, or the refusal.
fn put_count(read: Result<Filter, Refusal>, page: &mut Page) -> Result<(), AllocError> {
    match read {
        Ok(filter) => page.size(filter.parts().len()),
        Err(refusal) => page.refusal(refusal),
    }
}

// Parts are read from a text, and a filter.
fn answer_read(words: &mut Words<'_>, page: &mut Page) -> Result<(), Slip> {
    let text = words.text()?;
    page.line(b"parts")?;
    put_count(read_parts(words.alloc(), text.as_slice()), page)?;
    page.line(b"filter")?;
    put_count(read_filter(words.alloc(), text.as_slice()), page)?;
    Ok(())
}

// The name of a part, how many bytes that has, whether none, and whether it equals a name of its bytes; and whether the
// value meets the part.
fn put_part(alloc: Global, part: &Part, value: &[u8], page: &mut Page) -> Result<(), AllocError> {
    let name = part.name().clone()?;
    page.line(b"part")?;
    page.text(name.as_slice())?;
    page.size(name.len())?;
    page.flag(name.is_empty())?;
    page.flag(name == Name::new(Bytes::from_slice(alloc, name.as_slice())?))?;
    page.text(name.into_bytes().as_slice())?;
    page.word(b"met")?;
    page.flag(part.is_met_by(value))
}

// The parts of a filter.
fn answer_parts(words: &mut Words<'_>, page: &mut Page) -> Result<(), Slip> {
    let text = words.text()?;
    let value = words.text()?;
    let filter = read_filter(words.alloc(), text.as_slice())?;
    for part in filter.parts() {
        put_part(words.alloc(), part, value.as_slice(), page)?;
    }
    Ok(())
}

// Whether a filter is the same as the one of this text, once more as its parts.
fn put_same(alloc: Global, filter: &Filter, text: &[u8], page: &mut Page) -> Result<(), Slip> {
    page.flag(filter.same(&read_filter(alloc, text)?))?;
    page.flag(filter.same(&read_parts(alloc, text)?))?;
    Ok(())
}

// Of the filter of each text, whether a copy is the same, and whether the filter of each text is.
fn answer_same(words: &mut Words<'_>, page: &mut Page) -> Result<(), Slip> {
    let texts = words.texts()?;
    for text in &texts {
        let filter = read_filter(words.alloc(), text.as_slice())?;
        page.line(b"copy")?;
        page.flag(filter.copy()?.same(&filter))?;
        for other in &texts {
            put_same(words.alloc(), &filter, other.as_slice(), page)?;
        }
    }
    Ok(())
}

// What is before the first plain `,`, and after it.
fn answer_piece(words: &mut Words<'_>, page: &mut Page) -> Result<(), Slip> {
    let text = words.text()?;
    let (first, rest) = first_plain_piece(b',', text.as_slice());
    page.line(b"is")?;
    page.text(first)?;
    page.text_or_none(rest)?;
    Ok(())
}
