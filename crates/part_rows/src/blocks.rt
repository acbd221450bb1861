//! Rows of the table of blocks, as they are printed.

use crate::page::Page;
use crate::slip::Slip;
use crate::words::Words;
use attr_text::read_write;
use pps_block::{Block, is_visible};
use pps_filter::{Filter, read_filter};
use pps_types::{Handle, HandleKind, Kind, Lines};
use std::alloc::{AllocError, Global};

/// The number of the handle that is asked. It matters for a client alone.
const NUMBER: u32 = 7;

/// The name of the object that the block is of.
const OBJECT: [u8; 1] = *b"s";

// The lines of the next text, as a record holds them, without marks.
fn read_lines(words: &mut Words<'_>) -> Result<Lines, Slip> {
    let text = words.text()?;
    let read = read_write(words.alloc(), text.as_slice())?;
    let (_, written) = read.into_parts();
    let mut lines = Vec::new(words.alloc());
    for line in written {
        lines.push(line.into_line().with_mark(false))?;
    }
    Ok(Lines::new(lines))
}

// A record. The next word says of which kind it is.
fn read_record(words: &mut Words<'_>) -> Result<Kind, Slip> {
    match words.word()? {
        b"created" => Ok(Kind::Created),
        b"change" => Ok(Kind::Change(read_lines(words)?)),
        b"truncated" => Ok(Kind::Truncated),
        b"dropped" => Ok(Kind::Dropped),
        b"deleted" => Ok(Kind::Deleted),
        b"opened" => Ok(Kind::Opened(words.handle()?)),
        b"closed" => Ok(Kind::Closed(words.handle()?)),
        b"from" => {
            let client = words.handle()?;
            Ok(Kind::FromClient(client, read_lines(words)?))
        }
        b"to" => {
            let client = words.handle()?;
            Ok(Kind::ToClient(client, read_lines(words)?))
        }
        b"to-all" => Ok(Kind::ToAll(read_lines(words)?)),
        _ => Err(Slip::UnknownWord),
    }
}

// The kind of a handle.
fn kind_of(word: &[u8]) -> Result<HandleKind, Slip> {
    match word {
        b"object" => Ok(HandleKind::Object { delta: true }),
        b"directory" => Ok(HandleKind::Directory { delta: true }),
        b"names" => Ok(HandleKind::Names),
        b"server" => Ok(HandleKind::Server),
        b"client" => Ok(HandleKind::Client),
        _ => Err(Slip::UnknownWord),
    }
}

/// Answers a row of the crate `pps_block`: who is given a record.
pub(crate) fn answer(words: &mut Words<'_>, page: &mut Page) -> Result<(), Slip> {
    match words.word()? {
        b"queue" => answer_queue(words, page),
        b"filtered" => answer_filtered(words, page),
        word => answer_handle(kind_of(word)?, None, words, page),
    }
}

// The queue of a server object is given a record.
fn answer_queue(words: &mut Words<'_>, page: &mut Page) -> Result<(), Slip> {
    let record = read_record(words)?;
    put_printed(words.alloc(), Block::in_queue(&record), page)?;
    Ok(())
}

// A handle of an object, with a filter, is given a record.
fn answer_filtered(words: &mut Words<'_>, page: &mut Page) -> Result<(), Slip> {
    let text = words.text()?;
    let filter = read_filter(words.alloc(), text.as_slice())?;
    answer_handle(
        HandleKind::Object { delta: true },
        Some(&filter),
        words,
        page,
    )
}

// A handle of this kind is given a record.
fn answer_handle(
    kind: HandleKind,
    filter: Option<&Filter>,
    words: &mut Words<'_>,
    page: &mut Page,
) -> Result<(), Slip> {
    let record = read_record(words)?;
    let number = Handle::new(NUMBER);
    put_printed(
        words.alloc(),
        Block::of(kind, number, filter, &record),
        page,
    )?;
    put_pushed(
        words.alloc(),
        Block::of(kind, number, filter, &record),
        page,
    )?;
    page.line(b"visible")?;
    page.flag(is_visible(kind, number, filter, &record))?;
    Ok(())
}

// The block as it is printed into a vector that takes room for it.
fn put_printed(alloc: Global, block: Option<Block<'_>>, page: &mut Page) -> Result<(), AllocError> {
    page.line(b"printed")?;
    let Some(block) = block else {
        return page.word(b"none");
    };
    let Some(len) = block.print_len(&OBJECT) else {
        return Err(AllocError);
    };
    let mut text = Vec::new(alloc);
    text.reserve(len)?;
    block.push(&mut text, &OBJECT);
    page.text(text.as_slice())
}

// The block as it is printed into a vector that is made with room for it.
fn put_pushed(alloc: Global, block: Option<Block<'_>>, page: &mut Page) -> Result<(), AllocError> {
    page.line(b"pushed")?;
    let Some(block) = block else {
        return page.word(b"none");
    };
    let Some(len) = block.print_len(&OBJECT) else {
        return page.word(b"none");
    };
    let mut text = Vec::with_capacity(alloc, len)?;
    block.push(&mut text, &OBJECT);
    page.text(text.as_slice())
}
