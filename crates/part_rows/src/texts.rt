//! Rows of parts of texts: names of attributes, whole numbers, prefixes, cuts.

use crate::page::Page;
use crate::slip::Slip;
use crate::words::Words;
use pps_types::{
    after_prefix, continues_name, digits_up_to, is_attribute_name, number_up_to, split_at_first,
};

/// Answers a row of the crate `pps_types`.
pub(crate) fn answer(words: &mut Words<'_>, page: &mut Page) -> Result<(), Slip> {
    page.line(b"is")?;
    match words.word()? {
        b"name" => answer_name(words, page),
        b"continues" => answer_continues(words, page),
        b"digits" => answer_digits(words, page),
        b"number" => answer_number(words, page),
        b"prefix" => answer_prefix(words, page),
        b"split" => answer_split(words, page),
        _ => Err(Slip::UnknownWord),
    }
}

// Whether a text is the name of an attribute.
fn answer_name(words: &mut Words<'_>, page: &mut Page) -> Result<(), Slip> {
    let name = words.text()?;
    page.flag(is_attribute_name(name.as_slice()))?;
    Ok(())
}

// Of each byte, whether it continues a name.
fn answer_continues(words: &mut Words<'_>, page: &mut Page) -> Result<(), Slip> {
    for byte in &words.text()? {
        page.flag(continues_name(*byte))?;
    }
    Ok(())
}

// The number of digits, up to a largest one.
fn answer_digits(words: &mut Words<'_>, page: &mut Page) -> Result<(), Slip> {
    let most = words.long_number()?;
    let digits = words.text()?;
    page.number_or_none(digits_up_to(most, digits.as_slice()))?;
    Ok(())
}

// The number of so many digits at most, up to a largest one.
fn answer_number(words: &mut Words<'_>, page: &mut Page) -> Result<(), Slip> {
    let digits_max = words.size()?;
    let most = words.number()?;
    let digits = words.text()?;
    let number = number_up_to(digits_max, most, digits.as_slice());
    page.number_or_none(number.map(u64::from))?;
    Ok(())
}

// What is after a prefix.
fn answer_prefix(words: &mut Words<'_>, page: &mut Page) -> Result<(), Slip> {
    let prefix = words.text()?;
    let bytes = words.text()?;
    page.text_or_none(after_prefix(prefix.as_slice(), bytes.as_slice()))?;
    Ok(())
}

// What is before the first `/`, and after it.
fn answer_split(words: &mut Words<'_>, page: &mut Page) -> Result<(), Slip> {
    let bytes = words.text()?;
    match split_at_first(b'/', bytes.as_slice()) {
        Some((before, after)) => {
            page.text(before)?;
            page.text(after)?;
        }
        None => page.word(b"none")?,
    }
    Ok(())
}
