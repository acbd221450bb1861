//! What the calls restore that an image is loaded by, and what an image saves.
ghost use Rattle.std.specs.Prelude.{◌≡◌, [], IfOk};
ghost use Rattle.image_text.specs.Lines.{is_plain_line, IsImageAttribute, IsImagePath};

use crate::scripts::Start::{New, Restored};
use crate::scripts::Step::{Runs, Saves, Says};
use crate::scripts::{Step, copy, play, same};
use image_text::read_attribute;
use open_options::read_path;
use pps_engine::{Engine, SavedEntry};
use pps_types::{Bytes, HeldLine, Refusal};
use std::alloc::{AllocError, Global};
use std::process::Abort;
use std::test::Fail;

/// What a call restores.
#[derive(Clone, Copy)]
enum Kind {
    Directory,
    Object,
    /// A persistent attribute.
    Line,
}

/// The names of a path.
fn names(alloc: Global, path: &[u8]) -> Result<Vec<Bytes>, Refusal>
    ensures { IfOk result (λ names. IsImagePath names.items) }
{
    Ok(read_path(alloc, path)?.into_names())
}

/// Whether there is no line feed.
fn has_no_line_feed(line: &[u8]) -> bool
    ensures { result ≡ is_plain_line line.now }
{
    line.iter().all(|byte| *byte != b'\n')
}

/// The line that sets a persistent attribute: its name, its encoding and its value.
fn line(alloc: Global, attribute: [&[u8]; 3]) -> Result<HeldLine, Refusal>
    ensures { IfOk result (λ line. IsImageAttribute line) }
{
    let [name, enc, value] = attribute;
    let mut text = Vec::new(alloc);
    text.extend_from_slice(name)?;
    text.push(b':')?;
    text.extend_from_slice(enc)?;
    text.push(b':')?;
    text.extend_from_slice(value)?;
    if !has_no_line_feed(&text) {
        return Err(Refusal::BadText { line: 1 });
    }
    read_attribute(alloc, &text)?.ok_or(Refusal::BadText { line: 1 })
}

/// Bytes, written so often.
fn repeated(alloc: Global, bytes: &[u8], count: usize) -> Result<Vec<u8>, AllocError> {
    let mut all = Vec::new(alloc);
    for _ in 0..count {
        all.extend_from_slice(bytes)?;
    }
    Ok(all)
}

/// Restores what is under that path: an attribute has a name, an encoding and a value.
fn restore(
    alloc: Global,
    engine: &mut Engine,
    kind: Kind,
    path: &[u8],
    attribute: [&[u8]; 3],
) -> Result<(), Refusal>
    requires { engine.old.content.handles ≡ [] }
    ensures { engine.new.content.handles ≡ [] }
{
    let path = names(alloc, path)?;
    match kind {
        Kind::Directory => engine.restore_directory(path),
        Kind::Object => engine.restore_object(path),
        Kind::Line => {
            let line = line(alloc, attribute)?;
            engine.restore_line(&path, line)
        }
    }
}

const NO_ATTRIBUTE: [&[u8]; 3] = [b"", b"", b""];

/// Restores `/maps` and `/maps/gps`, and two attributes of the latter.
fn restore_maps(alloc: Global, engine: &mut Engine) -> Result<(), Refusal>
    requires { engine.old.content.handles ≡ [] }
    ensures { engine.new.content.handles ≡ [] }
{
    restore(alloc, engine, Kind::Directory, b"/maps", NO_ATTRIBUTE)?;
    restore(alloc, engine, Kind::Object, b"/maps/gps", NO_ATTRIBUTE)?;
    restore(
        alloc,
        engine,
        Kind::Line,
        b"/maps/gps",
        [b"speed", b"n", b"65"],
    )?;
    restore(
        alloc,
        engine,
        Kind::Line,
        b"/maps/gps",
        [b"city", b"", b"Ottawa"],
    )
}

/// A service with nothing but the root, of which nobody has a handle.
fn unused(alloc: Global) -> Result<Engine, AllocError>
    ensures { IfOk result (λ engine. engine.content.handles ≡ []) }
{
    Engine::new(alloc)
}

/// A service in which `/maps` and `/maps/gps` were restored, and two attributes of the latter.
pub(crate) fn restored(alloc: Global) -> Result<Engine, Refusal>
    ensures { IfOk result (λ engine. engine.content.handles ≡ []) }
{
    let mut engine = unused(alloc)?;
    restore_maps(alloc, &mut engine)?;
    Ok(engine)
}

/// What is not restored over `/maps` and `/maps/gps`, and why: its path, and an attribute's name and value, which is written
/// so often.
const REFUSED: [(Kind, [&[u8]; 3], usize, Refusal); 13] = [
    (
        Kind::Directory,
        [b"/roads/a", b"", b""],
        0,
        Refusal::NotFound,
    ),
    (
        Kind::Directory,
        [b"/maps/gps/a", b"", b""],
        0,
        Refusal::NotDirectory,
    ),
    (Kind::Directory, [b"/maps", b"", b""], 0, Refusal::Exists),
    (Kind::Directory, [b"/", b"", b""], 0, Refusal::Exists),
    (Kind::Object, [b"/roads/a", b"", b""], 0, Refusal::NotFound),
    (
        Kind::Object,
        [b"/maps/gps/a", b"", b""],
        0,
        Refusal::NotDirectory,
    ),
    (Kind::Object, [b"/maps", b"", b""], 0, Refusal::Exists),
    (Kind::Object, [b"/maps/gps", b"", b""], 0, Refusal::Exists),
    (Kind::Line, [b"/roads/a", b"a", b"1"], 1, Refusal::NotFound),
    (
        Kind::Line,
        [b"/maps/gps/a", b"a", b"1"],
        1,
        Refusal::NotDirectory,
    ),
    (Kind::Line, [b"/maps", b"a", b"1"], 1, Refusal::IsDirectory),
    (
        Kind::Line,
        [b"/maps/gps", b"city", b"Rome"],
        1,
        Refusal::Exists,
    ),
    (
        Kind::Line,
        [b"/maps/gps", b"a", b"x"],
        65_510,
        Refusal::TooLarge,
    ),
];

/// Sees that it is refused so, and that nothing has changed.
fn assert_refused(
    rt: &impl Abort,
    alloc: Global,
    kind: Kind,
    texts: [&[u8]; 3],
    count: usize,
    wanted: Refusal,
) -> Result<(), Refusal> {
    let [path, name, value] = texts;
    let value = repeated(alloc, value, count)?;
    let mut engine = restored(alloc)?;
    let before = copy(&engine)?;
    let refused = restore(
        alloc,
        &mut engine,
        kind,
        path,
        [name, b"", value.as_slice()],
    );
    assert_eq!(rt; refused, Err(wanted), "{path:?}");
    assert!(rt; same(&engine, &before));
    Ok(())
}

#[test]
fn what_may_not_follow_is_refused(rt: HostRuntime) -> Result<(), Fail> {
    for (kind, texts, count, wanted) in REFUSED {
        assert_refused(&rt, rt.alloc(), kind, texts, count, wanted)?;
    }
    Ok(())
}

/// Prints an entry: `D` or `O`, its path, how many attributes it has, and each of these.
fn push_entry(out: &mut Vec<u8>, entry: &SavedEntry) -> Result<(), AllocError> {
    out.push(if entry.is_object() { b'O' } else { b'D' })?;
    for name in entry.path() {
        out.push(b'/')?;
        out.extend_from_slice(name.as_slice())?;
    }
    out.push(b' ')?;
    out.push(b"0123456789"[entry.attribute_count() % 10])?;
    for attribute in entry.attributes() {
        out.push(b' ')?;
        out.extend_from_slice(attribute.name)?;
        out.push(b':')?;
        out.extend_from_slice(attribute.enc)?;
        out.push(b':')?;
        out.extend_from_slice(attribute.value)?;
    }
    out.push(b'\n')?;
    Ok(())
}

/// What an image of a service saves, an entry a line.
pub(crate) fn saved(alloc: Global, engine: &Engine) -> Result<Vec<u8>, Refusal> {
    let mut out = Vec::new(alloc);
    for entry in &engine.entries()? {
        push_entry(&mut out, entry)?;
    }
    Ok(out)
}

const READ_AND_SAVED: [(Step, &[u8], &[u8]); 5] = [
    (
        Saves,
        b"",
        b"D/maps 0\nO/maps/gps 2 speed:n:65 city::Ottawa\n",
    ),
    (Runs, b"1 attach", b""),
    (Runs, b"1 open r /maps/gps", b""),
    (
        Says,
        b"1 read 1 99",
        b"1 data 29 @gps\\nspeed:n:65\\ncity::Ottawa\\n",
    ),
    (Says, b"1 list /maps", b"1 data 4 gps\\n"),
];

const OBJECTS_IN_DIRECTORIES: [&[u8]; 16] = [
    b"1 attach",
    b"1 mkdir /maps",
    b"1 open rwc /maps/gps",
    b"1 write 1 city::Ottawa\\n[n]speed:n:65\\nalt::9\\n",
    b"1 open rwc /zoo",
    b"1 open rwc /gps?nopersist",
    b"1 open rwc /radio?server",
    b"1 mkdir /map",
    b"1 open rwc /map/b",
    b"1 write 5 a:b:c\\n",
    b"1 open rwc /map/a",
    b"1 mkdir /map/c",
    b"1 mkdir /map/c/d",
    b"1 open rwc /maps/c",
    b"1 write 7 [n]a::1\\n",
    b"1 close 1",
];

const SAVED_IN_ORDER: &[u8] =
    b"D/map 0\nO/map/a 0\nO/map/b 1 a:b:c\nD/map/c 0\nD/map/c/d 0\nD/maps 0\nO/maps/c 0\nO/maps/gps 2 city::Ottawa alt::9\nO/zoo 0\n";

#[test]
fn what_is_restored_is_read_and_saved(rt: HostRuntime) -> Result<(), Fail> {
    let alloc = rt.alloc();
    play(&rt, alloc, Restored, &[], &READ_AND_SAVED)?;
    let saved = [(Saves, b"".as_slice(), SAVED_IN_ORDER)];
    play(&rt, alloc, New, &OBJECTS_IN_DIRECTORIES, &saved)?;
    Ok(())
}
