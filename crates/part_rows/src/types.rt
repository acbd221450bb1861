//! Rows of the shared types: refusals, bytes, marks, outcomes.

use crate::outcomes::{read_answer, read_shared};
use crate::page::Page;
use crate::refusals::read_refusal;
use crate::slip::Slip;
use crate::words::Words;
use pps_types::{Bytes, Mark, Outcome};

/// Answers a row of the crate `pps_types`.
pub(crate) fn answer(words: &mut Words<'_>, page: &mut Page) -> Result<(), Slip> {
    page.line(b"is")?;
    match words.word()? {
        b"refusal" => answer_refusal(words, page),
        b"message" => answer_message(words, page),
        b"bytes" => answer_bytes(words, page),
        b"debug" => answer_debug(words, page),
        b"mark" => answer_mark(words, page),
        b"shared" => answer_shared(words, page),
        b"share" => answer_share(words, page),
        _ => Err(Slip::UnknownWord),
    }
}

// The number of a refusal, its name and its argument.
fn answer_refusal(words: &mut Words<'_>, page: &mut Page) -> Result<(), Slip> {
    let refusal = read_refusal(words)?;
    page.number(u64::from(refusal.number()))?;
    page.word(refusal.name().as_bytes())?;
    page.number(u64::from(refusal.argument()))?;
    Ok(())
}

// The message of a refusal.
fn answer_message(words: &mut Words<'_>, page: &mut Page) -> Result<(), Slip> {
    let refusal = read_refusal(words)?;
    let message = format!(in words.alloc(); "{refusal}")?;
    page.text(message.as_bytes())?;
    Ok(())
}

// How many bytes, whether none, they themselves, and whether a copy is equal.
fn put_bytes(bytes: &Bytes, page: &mut Page) -> Result<(), Slip> {
    page.size(bytes.len())?;
    page.flag(bytes.is_empty())?;
    page.text(bytes.as_slice())?;
    page.flag(bytes.copy()? == *bytes)?;
    Ok(())
}

// Bytes that are copied from a slice, and bytes that are a vector's.
fn answer_bytes(words: &mut Words<'_>, page: &mut Page) -> Result<(), Slip> {
    let content = words.text()?;
    put_bytes(&Bytes::from_slice(words.alloc(), content.as_slice())?, page)?;
    put_bytes(&Bytes::new(content), page)
}

// How bytes are shown to a developer.
fn answer_debug(words: &mut Words<'_>, page: &mut Page) -> Result<(), Slip> {
    let bytes = words.bytes()?;
    let shown = format!(in words.alloc(); "{bytes:?}")?;
    page.word(shown.as_bytes())?;
    Ok(())
}

// Whether an attribute is nonpersistent after a line with a mark, if it was or was not before.
fn answer_mark(words: &mut Words<'_>, page: &mut Page) -> Result<(), Slip> {
    let mark = match words.word()? {
        b"keep" => Mark::Keep,
        b"on" => Mark::On,
        b"off" => Mark::Off,
        _ => return Err(Slip::UnknownWord),
    };
    page.flag(mark.applied_to(words.flag()?))?;
    Ok(())
}

// How many shared bytes, whether none, and a share of them.
fn answer_shared(words: &mut Words<'_>, page: &mut Page) -> Result<(), Slip> {
    let bytes = read_shared(words)?;
    page.size(bytes.len())?;
    page.flag(bytes.is_empty())?;
    page.text(bytes.share()?.as_slice())?;
    Ok(())
}

// Whether a share of an outcome is equal, and if it is an item, whether one of the item is.
fn answer_share(words: &mut Words<'_>, page: &mut Page) -> Result<(), Slip> {
    let Ok(outcome) = read_answer(words)? else {
        return Err(Slip::UnknownWord);
    };
    page.flag(outcome.share()? == outcome)?;
    if let Outcome::Item(item) = &outcome {
        page.flag(item.share()? == *item)?;
    }
    Ok(())
}
