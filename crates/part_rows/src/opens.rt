//! Rows of the texts of opens, and of paths.

use crate::page::Page;
use crate::slip::Slip;
use crate::words::Words;
use open_options::{OpenSpec, Path, read_open, read_path};
use pps_filter::read_filter;
use std::alloc::{AllocError, Global};

/// Answers a row of the crate `open_options`.
pub(crate) fn answer(words: &mut Words<'_>, page: &mut Page) -> Result<(), Slip> {
    page.line(b"is")?;
    match words.word()? {
        b"path" => answer_path(words, page),
        b"text" => answer_text(words, page),
        b"filtered" => answer_filtered(words, page),
        _ => Err(Slip::UnknownWord),
    }
}

// The names with a `/` before each.
fn put_joined(alloc: Global, path: &Path, page: &mut Page) -> Result<(), AllocError> {
    let mut text = Vec::new(alloc);
    for name in path.names() {
        text.push(b'/')?;
        text.extend_from_slice(name.as_slice())?;
    }
    page.text(text.as_slice())
}

// A path, how many names it has, and each of them.
fn answer_path(words: &mut Words<'_>, page: &mut Page) -> Result<(), Slip> {
    let text = words.text()?;
    match read_path(words.alloc(), text.as_slice()) {
        Ok(path) => {
            put_joined(words.alloc(), &path, page)?;
            let names = path.into_names();
            page.size(names.len())?;
            page.names(names.as_slice())?;
        }
        Err(refusal) => page.refusal(refusal)?,
    }
    Ok(())
}

// The words of an open, those alone that are there.
fn put_words(spec: &OpenSpec, page: &mut Page) -> Result<(), AllocError> {
    page.word_if(spec.all(), b".all")?;
    page.word_if(spec.delta(), b"delta")?;
    page.word_if(spec.deltadir(), b"deltadir")?;
    page.word_if(spec.wait(), b"wait")?;
    page.word_if(spec.nopersist(), b"nopersist")?;
    page.word_if(spec.reflect(), b"reflect")?;
    page.word_if(spec.server(), b"server")?;
    page.word_if(spec.critical(), b"critical")?;
    page.word_if(spec.filter().is_some(), b"filter")?;
    if let Some(limit) = spec.limit() {
        page.word(b"limit")?;
        page.number(u64::from(limit))?;
    }
    Ok(())
}

// The path of an open, how many names it has, and its words.
fn put_open(alloc: Global, spec: &OpenSpec, page: &mut Page) -> Result<(), AllocError> {
    put_joined(alloc, spec.path(), page)?;
    page.size(spec.path().names().len())?;
    put_words(spec, page)
}

// An open without a filter.
fn answer_text(words: &mut Words<'_>, page: &mut Page) -> Result<(), Slip> {
    let text = words.text()?;
    match read_open(words.alloc(), text.as_slice()) {
        Ok(spec) => {
            put_open(words.alloc(), &spec, page)?;
            let (_path, options) = spec.into_parts();
            page.word_if(options.filter.is_some(), b"with a filter")?;
        }
        Err(refusal) => page.refusal(refusal)?,
    }
    Ok(())
}

// An open with a filter, and whether that is the same as the filter of a second text.
fn answer_filtered(words: &mut Words<'_>, page: &mut Page) -> Result<(), Slip> {
    let text = words.text()?;
    let filter_text = words.text()?;
    let spec = read_open(words.alloc(), text.as_slice())?;
    put_open(words.alloc(), &spec, page)?;
    let filter = read_filter(words.alloc(), filter_text.as_slice())?;
    let (_path, options) = spec.into_parts();
    if let Some(found) = options.filter {
        page.line(b"same")?;
        page.flag(filter.same(&found))?;
    }
    Ok(())
}
