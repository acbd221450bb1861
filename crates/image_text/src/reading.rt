//! Lines of images, read.
ghost use Rattle.std.specs.Prelude.{◌≡◌, ◌≤◌, IfOk, IfSome};
ghost use Rattle.pps_types.specs.Image as image;
ghost use Rattle.pps_types.specs.OpenText as meant;
ghost use Rattle.image_laws.specs.Images.{IsImageLine};
ghost use Rattle.image_text.specs.Lines.{IsPlain, begun_by, attribute_in, ReadsAs, ReadsAfterFew, IsReadPath, NamesReadPath};

use crate::number::read_number;
use attr_text::read_set;
use open_options::{Path, read_path};
use pps_types::limits::{LIMIT_MAX, TEXT_MAX};
use pps_types::{HeldLine, Mark, Refusal, after_prefix, number_up_to, split_at_first};
use std::alloc::{AllocError, Global};

/// What the first line of an image says.
#[derive(Clone, Copy, Debug, PartialEq, Eq)]
pub struct Beginning {
    /// How many bytes the attributes of an object have as text at most, by the version.
    pub longest: usize,
    /// The limit of handles that name none, 1 to 65,535.
    pub default_limit: u32,
}

/// Reads the first line of an image, without its line feed: the version, and behind version 2 the default limit. `None`
/// says that no image begins so.
///
/// Objects of version 1 have at most 32,768 bytes of text, and its default limit is 256; objects of version 2 have 65,536.
pub fn read_beginning(line: &[u8]) -> Option<Beginning>
    ensures position { begun_by result ≡ image.first_line line.now }
    ensures least { IfSome result (λ b. 1 ≤ b.default_limit) }
    ensures most { IfSome result (λ b. b.default_limit ≤ 65535) }
{
    if line == b"PPSIMAGE 1".as_slice() {
        return Some(Beginning {
            longest: 32_768,
            default_limit: 256,
        });
    }
    let limit = after_prefix(b"PPSIMAGE 2 ", line)?;
    let default_limit = number_up_to(5, LIMIT_MAX, limit)?;
    Some(Beginning {
        longest: TEXT_MAX,
        default_limit,
    })
}

/// What a line between the entries of an image says.
#[derive(Debug, Drop)]
pub enum EntryLine {
    Directory(Path),
    /// An object, and how many of its attributes follow.
    Object(Path, u32),
    /// The end, and how many entries there were.
    End(u32),
}

fn path_of(alloc: Global, text: &[u8]) -> Result<Option<Path>, AllocError>
    ensures path { IfOk result (λ path. path ≡ meant.path_text text.now) }
    ensures read { IfOk result (λ path. IfSome path IsReadPath) }
{
    match read_path(alloc, text) {
        Ok(path) => Ok(Some(path)),
        Err(Refusal::OutOfMemory) => Err(AllocError),
        Err(_) => Ok(None),
    }
}

// Reads what stands behind `D `.
fn directory_line(alloc: Global, text: &[u8]) -> Result<Option<EntryLine>, AllocError>
    ensures position { IfOk result (λ read. ReadsAs image.directory_line text.now read) }
    ensures path { IfOk result (λ read. IfSome read NamesReadPath) }
{
    let Some(path) = path_of(alloc, text)? else {
        return Ok(None);
    };
    Ok(Some(EntryLine::Directory(path)))
}

// Reads what stands behind `O `: a path, and how many attributes follow.
fn object_line(alloc: Global, text: &[u8]) -> Result<Option<EntryLine>, AllocError>
    ensures position { IfOk result (λ read. ReadsAs image.object_line text.now read) }
    ensures path { IfOk result (λ read. IfSome read NamesReadPath) }
{
    let Some((path, count)) = split_at_first(b' ', text) else {
        return Ok(None);
    };
    let Some(count) = read_number(count) else {
        return Ok(None);
    };
    let Some(path) = path_of(alloc, path)? else {
        return Ok(None);
    };
    Ok(Some(EntryLine::Object(path, count)))
}

// Reads what stands behind `E `: how many entries there were.
fn end_line(text: &[u8]) -> Option<EntryLine>
    ensures position { ReadsAfterFew image.end_line text.now result }
    ensures path { IfSome result NamesReadPath }
{
    let count = read_number(text)?;
    Some(EntryLine::End(count))
}

/// Reads a line between the entries of an image, without its line feed. `None` says that no image has such a line there.
///
/// Whether the entry may follow those before it, and whether their number is right, is not looked at.
pub fn read_entry_line(alloc: Global, line: &[u8]) -> Result<Option<EntryLine>, AllocError>
    ensures position { IfOk result (λ read. ReadsAfterFew image.entry_line line.now read) }
    ensures path { IfOk result (λ read. IfSome read NamesReadPath) }
{
    match line {
        [b'D', b' ', text @ ..] => directory_line(alloc, text),
        [b'O', b' ', text @ ..] => object_line(alloc, text),
        [b'E', b' ', text @ ..] => Ok(end_line(text)),
        _ => Ok(None),
    }
}

/// Reads a line of an object's attributes, without its line feed: `name:encoding:value`. `None` says that it is no such
/// line; one with a bracket is none. If it has no line feed, what it sets is an attribute that an image may have.
pub fn read_attribute(alloc: Global, line: &[u8]) -> Result<Option<HeldLine>, AllocError>
    ensures read { IfOk result (λ read. read ≡ attribute_in line.now) }
    ensures line { IsPlain line.now → IfOk result (λ read. IfSome read IsImageLine) }
{
    match read_set(alloc, Mark::Keep, line)? {
        None => Ok(None),
        Some(read) => Ok(Some(read.into_line())),
    }
}
