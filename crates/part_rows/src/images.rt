//! Rows of the lines of images.

use crate::page::Page;
use crate::slip::Slip;
use crate::words::Words;
use image_text::{EntryLine, read_attribute, read_beginning, read_entry_line};
use pps_types::LineRef;

/// Answers a row of the crate `image_text`.
pub(crate) fn answer(words: &mut Words<'_>, page: &mut Page) -> Result<(), Slip> {
    page.line(b"is")?;
    match words.word()? {
        b"beginning" => answer_beginning(words, page),
        b"entry" => answer_entry(words, page),
        b"attribute" => answer_attribute(words, page),
        _ => Err(Slip::UnknownWord),
    }
}

// The longest text of an object, and the default limit.
fn answer_beginning(words: &mut Words<'_>, page: &mut Page) -> Result<(), Slip> {
    let line = words.text()?;
    match read_beginning(line.as_slice()) {
        Some(beginning) => {
            page.word(b"longest")?;
            page.size(beginning.longest)?;
            page.word(b"limit")?;
            page.number(u64::from(beginning.default_limit))?;
        }
        None => page.word(b"none")?,
    }
    Ok(())
}

// A directory, an object with the number of its attributes, or the end with the number of entries.
fn answer_entry(words: &mut Words<'_>, page: &mut Page) -> Result<(), Slip> {
    let line = words.text()?;
    match read_entry_line(words.alloc(), line.as_slice())? {
        Some(EntryLine::Directory(path)) => {
            page.word(b"directory")?;
            page.names(path.names())?;
        }
        Some(EntryLine::Object(path, count)) => {
            page.word(b"object")?;
            page.names(path.names())?;
            page.number(u64::from(count))?;
        }
        Some(EntryLine::End(count)) => {
            page.word(b"end")?;
            page.number(u64::from(count))?;
        }
        None => page.word(b"none")?,
    }
    Ok(())
}

// A line that sets an attribute, and whether it is nonpersistent.
fn answer_attribute(words: &mut Words<'_>, page: &mut Page) -> Result<(), Slip> {
    let line = words.text()?;
    let Some(held) = read_attribute(words.alloc(), line.as_slice())? else {
        page.word(b"none")?;
        return Ok(());
    };
    match held.parts() {
        LineRef::Set { name, content } => {
            page.word(b"set")?;
            page.text(name)?;
            page.text(content.enc())?;
            page.text(content.value())?;
            page.flag(content.n())?;
        }
        LineRef::Del { name: _name } => page.word(b"removal")?,
    }
    Ok(())
}
