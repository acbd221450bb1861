//! Texts that are written to an object, as a client writes them.

use attr_text::read_write;
use object_state::Object;
use pps_filter::Name;
use pps_types::{Bytes, Refusal};
use std::alloc::{AllocError, Global};
use std::hash::{BuildHasher, BuildHasherDefault, FoldHasher};

/// How many names a write has.
const NAMES: usize = 2_048;

/// Which names are written.
#[derive(Clone, Copy, PartialEq, Eq)]
pub(crate) enum Choice {
    /// Those whose hashes end in the same eight bits, by which a table of so many names chooses where to begin.
    Colliding,
    /// As many others.
    Any,
}

/// The number in six letters.
fn spelled(alloc: Global, number: u32) -> Result<Name, AllocError> {
    let mut letters = [b'a'; 6];
    let mut rest = number;
    for letter in &mut letters {
        *letter = b'a' + (rest % 26) as u8;
        rest /= 26;
    }
    Ok(Name::new(Bytes::from_slice(alloc, &letters)?))
}

/// The bits of a name's hash that a table begins with.
fn place(name: &Name) -> u64 {
    let hasher: BuildHasherDefault<FoldHasher> = BuildHasherDefault::new();
    let hash = hasher.hash_one(name);
    (hash ^ (hash >> 32)) % 256
}

/// Whether the name is one of those. One of 256 is, by either choice.
fn is_chosen(choice: Choice, number: u32, name: &Name) -> bool {
    match choice {
        Choice::Colliding => place(name) == 0,
        Choice::Any => number % 256 == 0,
    }
}

/// A text that sets an attribute of each name, and deletes it at once.
fn names_text(alloc: Global, choice: Choice) -> Result<Vec<u8>, AllocError> {
    let mut text = Vec::new(alloc);
    let mut count = 0usize;
    for number in 0..u32::MAX {
        let name = spelled(alloc, number)?;
        if is_chosen(choice, number, &name) {
            text.extend_from_slice(b"[n]")?;
            text.extend_from_slice(name.as_slice())?;
            text.extend_from_slice(b"::\n-")?;
            text.extend_from_slice(name.as_slice())?;
            text.extend_from_slice(b"\n")?;
            count = count.saturating_add(1);
        }
        if count == NAMES {
            break;
        }
    }
    Ok(text)
}

/// Writes that text to an object that often, and counts the lines.
pub(crate) fn write_text_often(alloc: Global, text: &[u8], rounds: u32) -> Result<u64, Refusal> {
    let mut object = Object::new(alloc);
    let mut done = 0u64;
    for _ in 0..rounds {
        let (_, lines) = read_write(alloc, text)?.into_parts();
        let lines = object.resolve(lines)?;
        object.apply(lines.as_slice())?;
        done = done.wrapping_add(lines.len() as u64);
    }
    Ok(done)
}

/// The same with the text of many names.
pub(crate) fn write_names_often(
    alloc: Global,
    choice: Choice,
    rounds: u32,
) -> Result<u64, Refusal> {
    let text = names_text(alloc, choice)?;
    write_text_often(alloc, text.as_slice(), rounds)
}
