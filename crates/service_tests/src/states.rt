ghost use Rattle.std.specs.Prelude.{OnOk};
ghost use Rattle.pps_types.specs.WellFormed.{IsContent};
ghost use Rattle.service_laws.specs.Bounds.{IsBound};
ghost use Rattle.service_state.specs.Tables.{content_in};

use crate::state_samples::{ask, find, new_tables, path};
use pps_types::{Bytes, Conn, DirId, Found, Refusal, Request};
use service_state::Tables;
use std::alloc::{AllocError, Global};
use std::test::Fail;

/// Whether the tables are those of a new service.
fn is_new(tables: &Tables) -> bool {
    tables.default_limit() == 20
        && tables.records() == 0
        && tables.names().directory_count() == 1
        && tables.handles().next() == 7
        && tables.connections().is_empty()
}

/// Whether something can be made at a path, or why not.
fn check_free(tables: &Tables, path: &[Bytes]) -> Result<(), Refusal> {
    tables.check_free(path)
}

/// Whether a directory can be made there, or why not.
fn check_new_directory(tables: &Tables, path: &[Bytes]) -> Result<(), Refusal> {
    tables.check_new_directory(path)
}

/// The request to make, or to remove, the directory "cars".
fn making(alloc: Global) -> Result<Request, AllocError> {
    let path = Bytes::from_slice(alloc, b"/cars")?;
    Ok(Request::Mkdir { path })
}

fn removing(alloc: Global) -> Result<Request, AllocError> {
    let path = Bytes::from_slice(alloc, b"/cars")?;
    Ok(Request::Unlink { path })
}

/// Connection 3 attaches and makes the directory "cars".
fn come(tables: &mut Tables, alloc: Global) -> Result<(), Refusal>
    requires formed { IsContent (content_in tables.old) }
    requires bound { IsBound (content_in tables.old) }
    ensures formed { OnOk result (IsContent (content_in tables.new)) }
    ensures bound { OnOk result (IsBound (content_in tables.new)) }
{
    ask(tables, alloc, Request::Attach)?;
    ask(tables, alloc, making(alloc)?)
}

/// It removes the directory and leaves.
fn go(tables: &mut Tables, alloc: Global) -> Result<(), Refusal>
    requires formed { IsContent (content_in tables.old) }
    requires bound { IsBound (content_in tables.old) }
{
    ask(tables, alloc, removing(alloc)?)?;
    ask(tables, alloc, Request::Detach)
}

/// Whether "cars" is the directory of that number.
fn has_directory(alloc: Global, tables: &Tables, number: u64) -> bool {
    find(alloc, tables, b"cars") == Ok(Found::Directory(DirId::new(number)))
}

/// Whether connection 3 is attached.
fn is_attached(tables: &Tables) -> bool {
    tables.is_attached(Conn::new(3))
}

#[test]
fn tables_begin_with_the_root_alone(rt: HostRuntime) -> Result<(), Fail> {
    let tables = Tables::new(rt.alloc(), 7, 20)?;
    assert!(rt; is_new(&tables));
    let free = path(rt.alloc(), b"cars")?;
    assert_eq!(rt; check_free(&tables, &free), Ok(()));
    assert_eq!(rt; check_free(&tables, &[]), Err(Refusal::Exists));
    assert_eq!(rt; check_new_directory(&tables, &free), Ok(()));
    assert!(rt; !tables.passes_last_number(1, 1, 1));
    Ok(())
}

#[test]
fn what_comes_goes_again(rt: HostRuntime) -> Result<(), Fail> {
    let alloc = rt.alloc();
    let mut tables = new_tables(alloc)?;
    come(&mut tables, alloc)?;
    assert!(rt; is_attached(&tables));
    assert!(rt; has_directory(alloc, &tables, 1));
    go(&mut tables, alloc)?;
    assert!(rt; !is_attached(&tables));
    assert!(rt; find(alloc, &tables, b"cars").is_err());
    Ok(())
}
