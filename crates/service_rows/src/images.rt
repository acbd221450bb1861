//! The image of what a script leaves: saved, loaded, and restored line by line.
ghost use Rattle.std.specs.Prelude.{◌≡◌, [], IfOk};
ghost use Rattle.image_text.specs.Lines.{is_plain_line, IsImageAttribute, IsImagePath};

use crate::engines::{copied, played};
use crate::refused::{Call, Refused};
use crate::rows::Row;
use crate::slip::Slip;
use image_text::read_attribute;
use open_options::read_path;
use pps_engine::Engine;
use pps_persist::{load, save};
use pps_types::{Bytes, Device, HeldLine, Refusal, split_at_first};
use std::alloc::{AllocError, Global};

/// The room for an image.
const ROOM: usize = 65_536;

// Saves an engine behind what the output holds. Whether there was memory.
fn is_saved(alloc: Global, engine: &Engine, output: &mut Vec<u8>) -> bool {
    save(alloc, engine, &mut Device::new(output)).is_ok()
}

// The image of an engine. If it is refused, a beginning of it was written, and it is saved again.
fn saved(alloc: Global, engine: &Engine, refused: &mut Refused) -> Result<Vec<u8>, Slip> {
    let mut first = Vec::with_capacity(alloc, ROOM)?;
    if is_saved(alloc, engine, &mut first) {
        return Ok(first);
    }
    refused.note(Call::Save);
    let mut second = Vec::with_capacity(alloc, ROOM)?;
    if !is_saved(alloc, engine, &mut second) {
        return Err(Slip::OutOfMemory);
    }
    if second.starts_with(first.as_slice()) {
        Ok(second)
    } else {
        Err(Slip::Other)
    }
}

// The engine of an image. If it is refused, it is loaded again.
fn loaded(alloc: Global, image: &[u8], refused: &mut Refused) -> Result<Engine, Slip> {
    let mut input = image;
    if let Ok(engine) = load(alloc, &mut Device::new(&mut input)) {
        return Ok(engine);
    }
    refused.note(Call::Load);
    let mut input = image;
    match load(alloc, &mut Device::new(&mut input)) {
        Ok(engine) => Ok(engine),
        Err(_) => Err(Slip::OutOfMemory),
    }
}

// What a line of an image restores: under a path, or of the object that was restored last.
#[derive(Clone, Copy)]
enum Entry<'t> {
    Directory(&'t [u8]),
    Object(&'t [u8]),
    Attribute(&'t [u8], &'t [u8]),
}

impl<'t> Entry<'t> {
    // The path of the object that is restored, if it is one, or else that one.
    fn object_or(self, object: &'t [u8]) -> &'t [u8] {
        match self {
            Entry::Object(path) => path,
            _ => object,
        }
    }

    fn call(self) -> Call {
        match self {
            Entry::Directory(_) => Call::RestoreDirectory,
            Entry::Object(_) => Call::RestoreObject,
            Entry::Attribute(..) => Call::RestoreLine,
        }
    }
}

// The names of a path.
fn names(alloc: Global, path: &[u8]) -> Result<Vec<Bytes>, Refusal>
    ensures { IfOk result (λ names. IsImagePath names.items) }
{
    Ok(read_path(alloc, path)?.into_names())
}

// Whether there is no line feed.
fn has_no_line_feed(line: &[u8]) -> bool
    ensures { result ≡ is_plain_line line.now }
{
    line.iter().all(|byte| *byte != b'\n')
}

// The attribute of a line.
fn attribute(alloc: Global, line: &[u8]) -> Result<HeldLine, Refusal>
    ensures { IfOk result (λ line. IsImageAttribute line) }
{
    if !has_no_line_feed(line) {
        return Err(Refusal::BadText { line: 1 });
    }
    read_attribute(alloc, line)?.ok_or(Refusal::BadText { line: 1 })
}

// Restores what a line says.
fn restore(alloc: Global, engine: &mut Engine, entry: Entry<'_>) -> Result<(), Refusal>
    requires { engine.old.content.handles ≡ [] }
    ensures { engine.new.content.handles ≡ [] }
{
    match entry {
        Entry::Directory(path) => engine.restore_directory(names(alloc, path)?),
        Entry::Object(path) => engine.restore_object(names(alloc, path)?),
        Entry::Attribute(path, line) => {
            let path = names(alloc, path)?;
            engine.restore_line(&path, attribute(alloc, line)?)
        }
    }
}

// Restores what a line says. If it is refused, nothing has changed, and it is restored again.
fn restore_again(
    alloc: Global,
    engine: &mut Engine,
    entry: Entry<'_>,
    refused: &mut Refused,
) -> Result<(), Slip>
    requires { engine.old.content.handles ≡ [] }
    ensures { engine.new.content.handles ≡ [] }
{
    let before = copied(engine, refused)?;
    if restore(alloc, engine, entry).is_ok() {
        return Ok(());
    }
    refused.note(entry.call());
    if !engine.same(&before) {
        return Err(Slip::Changed);
    }
    Ok(restore(alloc, engine, entry)?)
}

// What a line of an image restores, if anything; an attribute is of the object at that path.
fn entry_of<'t>(line: &'t [u8], object: &'t [u8]) -> Option<Entry<'t>> {
    match line {
        [b'D', b' ', path @ ..] => Some(Entry::Directory(path)),
        [b'O', b' ', rest @ ..] => {
            let (path, _) = split_at_first(b' ', rest)?;
            Some(Entry::Object(path))
        }
        [b'P', b'P', b'S', ..] | [b'E', b' ', ..] => None,
        _ => Some(Entry::Attribute(object, line)),
    }
}

// A service with nothing but the root, of which nobody has a handle.
fn unused(alloc: Global) -> Result<Engine, AllocError>
    ensures { IfOk result (λ engine. engine.content.handles ≡ []) }
{
    Engine::new(alloc)
}

// The lines of a text.
fn lines_of(alloc: Global, text: &[u8]) -> Result<Vec<&[u8]>, AllocError> {
    let mut lines = Vec::new(alloc);
    let mut rest = text;
    for _ in 0..text.len() {
        let Some((line, after)) = split_at_first(b'\n', rest) else {
            break;
        };
        rest = after;
        lines.push(line)?;
    }
    Ok(lines)
}

// Restores what lines of an image say, one after the other. Attributes are of the object at that path until another comes.
fn restore_lines(
    alloc: Global,
    engine: &mut Engine,
    lines: &[&[u8]],
    object: &[u8],
    refused: &mut Refused,
) -> Result<(), Slip>
    requires { engine.old.content.handles ≡ [] }
    ensures { engine.new.content.handles ≡ [] }
{
    let [line, rest @ ..] = lines else {
        return Ok(());
    };
    match entry_of(line, object) {
        None => restore_lines(alloc, engine, rest, object, refused),
        Some(entry) => {
            restore_again(alloc, engine, entry, refused)?;
            restore_lines(alloc, engine, rest, entry.object_or(object), refused)
        }
    }
}

// The engine that the lines of an image restore.
fn restored(alloc: Global, image: &[u8], refused: &mut Refused) -> Result<Engine, Slip> {
    let lines = lines_of(alloc, image)?;
    let mut engine = unused(alloc)?;
    restore_lines(alloc, &mut engine, &lines, b"", refused)?;
    Ok(engine)
}

/// Saves what the rows leave, and sees that it is the same once it is loaded, or restored line by line.
pub(crate) fn play(alloc: Global, rows: &[Row<'_>], refused: &mut Refused) -> Result<(), Slip> {
    let engine = played(alloc, rows, refused)?;
    let image = saved(alloc, &engine, refused)?;
    let loaded = loaded(alloc, &image, refused)?;
    if saved(alloc, &loaded, refused)?.as_slice() != image.as_slice() {
        return Err(Slip::Other);
    }
    let restored = restored(alloc, &image, refused)?;
    if restored.same(&loaded) {
        Ok(())
    } else {
        Err(Slip::Other)
    }
}
