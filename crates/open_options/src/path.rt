//! Paths: rows of names from the root on.
ghost use Rattle.std.specs.Prelude.{◌≡◌, ◌≢◌, ℕ, ◌+◌, ◌<◌, ◌≤◌, ◌∷◌, true, IfOk, IfErr, IfSome, length, slice_index};
ghost use Rattle.std.specs.List.{list_all};
ghost use Rattle.std.specs.Option.{option_copied};
ghost use Rattle.pps_types.specs.Bytes.{pieces, starts_with};
ghost use Rattle.pps_types.specs.OpenText as meant;
ghost use Rattle.open_options.specs.Elements.{elements_left, path_of, is_path_byte, is_name_byte};
ghost use Rattle.open_options.specs.Refused.{IsPathRefusal};
ghost use Rattle.open_options.specs.Seen.{path_seen};

use pps_types::limits::{NAME_MAX, NAMES_MAX, PATH_MAX};
use pps_types::{Bytes, Refusal};
use std::alloc::Global;
use std::marker::Model;

/// The names on the way from the root, which has none, to an object or a directory.
#[derive(Debug, Drop)]
pub struct Path {
    names: Vec<Bytes>,
}

impl Model for Path {
    ghost use Rattle.std.specs.Prelude.{List, ℕ};

    ghost Value = { List (List ℕ) };

    ghost view = { λ a. a.names.items };
}

impl Path {
    fn new(names: Vec<Bytes>) -> Path
        ensures { result ≡ names.items }
    {
        Path { names }
    }

    /// The names, from the root on. The root itself has none.
    pub fn names(&self) -> &[Bytes]
        ensures { result.now ≡ self.now }
    {
        self.names.as_slice()
    }

    /// The vector that holds the names. It takes no memory.
    pub fn into_names(self) -> Vec<Bytes>
        ensures { result.items ≡ self }
    {
        let Path { names } = self;
        names
    }
}

/// What an open's path says: the names, and whether `.all` stands behind them.
#[derive(Debug, Drop)]
pub(crate) struct OpenPath {
    pub(crate) names: Path,
    pub(crate) all: bool,
}

fn begins_with_dot(bytes: &[u8]) -> bool
    ensures { result ≡ starts_with 46 bytes.now }
{
    match bytes {
        [] => false,
        [first, ..] => *first == b'.',
    }
}

/// Whether a path may have that byte: a visible one other than `?`.
#[inline]
fn is_path_byte(byte: u8) -> bool
    ensures { result ≡ is_path_byte byte }
{
    byte.is_ascii_graphic() & (byte != b'?')
}

/// Whether all bytes are ones that a path may have. Each is looked at, so that many are at once.
fn has_path_bytes(text: &[u8]) -> bool
    ensures { result ≡ list_all is_path_byte text.now }
{
    let mut all = true;
    for byte in text {
        all &= is_path_byte(*byte);
    }
    all
}

/// Whether an element whose bytes may stand in a path is a name: 1 to 255 bytes, the first not `.`.
fn is_name(bytes: &[u8]) -> bool
    requires { list_all is_name_byte bytes.now ≡ true }
    ensures { result ≡ meant.is_path_name bytes.now }
{
    !bytes.is_empty() && bytes.len() <= NAME_MAX && !begins_with_dot(bytes)
}

/// How many bytes stand before the first `/`.
fn until_slash(text: &[u8]) -> usize
    ensures within { result ≤ length text.now }
    ensures before { (k : ℕ) → k < result → slice_index text.now k ≢ 47 }
    ensures slash { result < length text.now → slice_index text.now result ≡ 47 }
{
    for (i, byte) in text.iter().enumerate() {
        if *byte == b'/' {
            return i;
        }
    }
    text.len()
}

/// The first element of a path, and what stands behind its `/`, where there is one.
fn first_element(text: &[u8]) -> (&[u8], Option<&[u8]>)
    ensures elements { result.0.now ∷ elements_left (option_copied result.1) ≡ pieces 47 text.now }
    ensures shorter { IfSome result.1 (λ rest. length rest.now < length text.now) }
{
    let end = until_slash(text);
    if end == text.len() {
        return (text, None);
    }
    (&text[..end], Some(&text[end + 1..]))
}

/// How many elements a text has: one more than there are of `/`. Bytes are counted many at a time.
fn elements_in(text: &[u8]) -> usize
    requires { length text.now ≤ 1024 }
    ensures { result ≤ length text.now + 1 }
{
    let mut elements = 1u16;
    for byte in text {
        elements += u16::from(*byte == b'/');
    }
    usize::from(elements)
}

/// Reads the elements that stand behind the first `/` of a path.
fn read_elements(alloc: Global, text: &[u8]) -> Result<OpenPath, Refusal>
    requires { length text.now ≤ 1024 }
    ensures ok { IfOk result (λ read. path_of (pieces 47 text.now) ≡ Some (path_seen read)) }
    ensures err { IfErr result (IsPathRefusal (path_of (pieces 47 text.now))) }
{
    if !has_path_bytes(text) {
        return Err(Refusal::BadPath);
    }
    let mut names = Vec::with_capacity(alloc, elements_in(text))?;
    let mut rest = Some(text);
    while let Some(text) = rest {
        let (element, behind) = first_element(text);
        if behind.is_none() && element == b".all".as_slice() {
            let names = Path::new(names);
            return Ok(OpenPath { names, all: true });
        }
        if names.len() == NAMES_MAX || !is_name(element) {
            return Err(Refusal::BadPath);
        }
        names.push(Bytes::from_slice(alloc, element)?)?;
        rest = behind;
    }
    let names = Path::new(names);
    Ok(OpenPath { names, all: false })
}

/// Reads the path of an open, whose last element may be `.all`.
pub(crate) fn read_open_path(alloc: Global, text: &[u8]) -> Result<OpenPath, Refusal>
    ensures ok { IfOk result (λ read. meant.open_path text.now ≡ Some (path_seen read)) }
    ensures err { IfErr result (IsPathRefusal (meant.open_path text.now)) }
{
    if text.len() > PATH_MAX {
        return Err(Refusal::BadPath);
    }
    match text {
        [b'/'] => Ok(OpenPath {
            names: Path::new(Vec::new(alloc)),
            all: false,
        }),
        [b'/', elements @ ..] => read_elements(alloc, elements),
        _ => Err(Refusal::BadPath),
    }
}

/// Reads a path: `/` alone, which is the root, or 1 to 32 names with a `/` before each, in 1,024 bytes at most. A name
/// has 1 to 255 visible bytes other than `/` and `?`, and the first is not `.`.
///
/// It is BadPath where the bytes are no path, and else OutOfMemory is the only error. Which bytes names have, and how
/// many, is our own.
pub fn read_path(alloc: Global, text: &[u8]) -> Result<Path, Refusal>
    ensures ok { IfOk result (λ path. meant.path_text text.now ≡ Some path) }
    ensures err { IfErr result (IsPathRefusal (meant.path_text text.now)) }
{
    let read = read_open_path(alloc, text)?;
    if read.all {
        return Err(Refusal::BadPath);
    }
    let OpenPath { names, .. } = read;
    Ok(names)
}
