ghost use Rattle.std.specs.Prelude.{OnOk};
ghost use Rattle.pps_types.specs.WellFormed.{IsContent};
ghost use Rattle.service_laws.specs.Bounds.{IsBound};
ghost use Rattle.service_state.specs.Tables.{content_in};

use crate::state_samples::{ask, find, new_tables, path};
use path_requests::{restore_directory, restore_line, restore_object};
use pps_types::{Bytes, DirId, Found, Handle, HeldLine, Line, Mode, ObjId, Refusal, Request};
use service_state::Tables;
use std::alloc::{AllocError, Global};
use std::test::Fail;

/// How something is restored in a new service, and what there is then.
#[derive(Clone, Copy)]
struct Restored {
    done: Result<(), Refusal>,
    found: Result<Found, Refusal>,
    directories: usize,
    records: u64,
    handles: usize,
}

fn restore(
    tables: &mut Tables,
    alloc: Global,
    path: Vec<Bytes>,
    is_object: bool,
) -> Result<(), Refusal>
    requires { IsContent (content_in tables.old) }
{
    if is_object {
        restore_object(tables, alloc, path)
    } else {
        restore_directory(tables, path)
    }
}

/// Restores an object or a directory of that name, or the root, which has none.
fn restore_new(alloc: Global, name: &[u8], is_object: bool) -> Result<Restored, Refusal> {
    let mut names = path(alloc, name)?;
    if name.is_empty() {
        names.clear();
    }
    let mut tables = new_tables(alloc)?;
    let done = restore(&mut tables, alloc, names, is_object);
    Ok(Restored {
        done,
        found: find(alloc, &tables, name),
        directories: tables.names().directory_count(),
        records: tables.records(),
        handles: tables.handles().len(),
    })
}

#[test]
fn directories_and_objects_are_restored(rt: HostRuntime) -> Result<(), Fail> {
    let cars = restore_new(rt.alloc(), b"cars", false)?;
    assert_eq!(rt; cars.done, Ok(()));
    assert_eq!(rt; cars.found, Ok(Found::Directory(DirId::new(1))));
    let gps = restore_new(rt.alloc(), b"gps", true)?;
    assert_eq!(rt; gps.done, Ok(()));
    assert_eq!(rt; gps.found, Ok(Found::Object(ObjId::new(0))));
    assert_eq!(rt; gps.records, 1);
    assert_eq!(rt; gps.handles, 0);
    let root = restore_new(rt.alloc(), b"", false)?;
    assert_eq!(rt; root.done, Err(Refusal::Exists));
    assert_eq!(rt; root.directories, 1);
    Ok(())
}

/// The open of that text, for reading and writing, which may create.
fn opening(alloc: Global, text: &[u8], creates: bool) -> Result<Request, AllocError> {
    Ok(Request::Open {
        mode: Mode {
            r: true,
            w: creates,
            c: creates,
            t: false,
        },
        text: Bytes::from_slice(alloc, text)?,
    })
}

/// The read of all that a handle is to be given.
fn reading(handle: u32) -> Request {
    Request::Read {
        handle: Handle::new(handle),
        size: 999,
    }
}

/// Lets connection 3 follow the changes of the object gps by handle 1, and those of its directory by handle 2.
fn follow(tables: &mut Tables, alloc: Global) -> Result<(), Refusal>
    requires formed { IsContent (content_in tables.old) }
    requires bound { IsBound (content_in tables.old) }
    ensures formed { OnOk result (IsContent (content_in tables.new)) }
    ensures bound { OnOk result (IsBound (content_in tables.new)) }
{
    ask(tables, alloc, Request::Attach)?;
    ask(tables, alloc, opening(alloc, b"/gps?delta", true)?)?;
    ask(tables, alloc, opening(alloc, b"/.all?delta", false)?)?;
    ask(tables, alloc, reading(1))?;
    ask(tables, alloc, reading(2))
}

/// The line `speed:n:65`.
fn speed(alloc: Global) -> Result<HeldLine, Refusal> {
    let line = Line::Set {
        name: Bytes::from_slice(alloc, b"speed")?,
        enc: Bytes::from_slice(alloc, b"n")?,
        value: Bytes::from_slice(alloc, b"65")?,
        n: false,
    };
    HeldLine::from_line(alloc, &line)?.ok_or(Refusal::BadText { line: 1 })
}

/// Restores that line in the object gps.
fn restore_speed(tables: &mut Tables, alloc: Global) -> Result<(), Refusal>
    requires { IsContent (content_in tables.old) }
{
    let gps = path(alloc, b"gps")?;
    restore_line(tables, alloc, &gps, speed(alloc)?)
}

/// A service in which both were given everything, and then that line was restored.
fn with_line(alloc: Global) -> Result<Tables, Refusal> {
    let mut tables = new_tables(alloc)?;
    follow(&mut tables, alloc)?;
    restore_speed(&mut tables, alloc)?;
    Ok(tables)
}

/// What a handle is given of the records that it is owed.
fn given(alloc: Global, tables: &Tables, handle: u32) -> Result<Vec<u8>, Refusal> {
    let handle = Handle::new(handle);
    match tables.handles().look(handle) {
        None => Err(Refusal::BadHandle),
        Some(looked) => Ok(looked.topic.read_owed(alloc, handle, 999)?.text),
    }
}

/// Whether a handle is given that text.
fn is_given(alloc: Global, tables: &Tables, handle: u32, text: &[u8]) -> Result<bool, Refusal> {
    Ok(given(alloc, tables, handle)?.as_slice() == text)
}

#[test]
fn a_restored_line_is_given_to_who_follows(rt: HostRuntime) -> Result<(), Fail> {
    let alloc = rt.alloc();
    let tables = with_line(alloc)?;
    assert_eq!(rt; tables.records(), 2);
    assert!(rt; is_given(alloc, &tables, 1, b"@gps\nspeed:n:65\n")?);
    assert!(rt; is_given(alloc, &tables, 2, b"@gps\nspeed:n:65\n")?);
    Ok(())
}
