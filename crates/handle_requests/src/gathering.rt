//! What closing handles begin with, one after the other.
ghost use Rattle.std.specs.Prelude.{◌≡◌, map, is_some, IfOk, OnOk};
ghost use Rattle.notify_box.specs.Connections.{AreOwned};
ghost use Rattle.service_state.specs.Begun.{bare, Adds, AreShared, KeepsShares};
ghost use Rattle.service_state.specs.Tables.{content_in};
ghost use Rattle.handle_requests.specs.Own.{IfOwn};
ghost use Rattle.handle_requests.specs.Begun.{begun, begun_behind, begun_by};

use crate::own::own_handle;
use crate::told::told_behind;
use notify_box::connections_are_found;
use pps_types::{Conn, Handle};
use server_queue::Entry;
use service_state::{Beginning, Tables, tell};
use std::alloc::{AllocError, Global};

/// Whether a read waits on the connection's own handle of that number.
pub(crate) fn is_parked(tables: &Tables, conn: Conn, handle: Handle) -> bool
    ensures { IfOwn tables.now conn handle (λ own. result ≡ is_some own.parked) }
{
    let handles = tables.handles();
    handles.handles_are_placed();
    handles.parked(handle).is_some()
}

/// Puts behind what was begun that a handle closes, and its record, where there is one, with shares of it for all handles
/// that it is told to. AllocError comes only where memory is wanting.
pub(crate) fn close_behind(
    beginning: &mut Vec<Beginning>,
    tables: &Tables,
    alloc: Global,
    conn: Conn,
    handle: Handle,
    is_parked: bool,
    told: Option<Entry>,
) -> Result<(), AllocError>
    ensures begun { OnOk result
        (Adds beginning.old.items beginning.new.items (begun conn handle is_parked told)) }
    ensures shared { OnOk result (KeepsShares tables.now beginning.old.items beginning.new.items) }
{
    beginning.push(Beginning::Closes {
        conn,
        handle,
        is_parked,
    })?;
    match told {
        None => Ok(()),
        Some(entry) => tell(beginning, tables, alloc, entry),
    }
}

// Puts behind what was begun that one of a connection's handles closes behind those of lower numbers.
fn close_own(
    beginning: &mut Vec<Beginning>,
    tables: &Tables,
    alloc: Global,
    conn: Conn,
    handle: Handle,
) -> Result<(), AllocError>
    ensures begun { OnOk result (Adds beginning.old.items beginning.new.items
        (begun_behind (content_in tables.now) conn handle)) }
    ensures shared { OnOk result (KeepsShares tables.now beginning.old.items beginning.new.items) }
{
    let Some(own) = own_handle(tables, conn, handle) else {
        return Ok(());
    };
    let is_parked = is_parked(tables, conn, handle);
    let told = told_behind(tables, alloc, conn, &own)?;
    close_behind(beginning, tables, alloc, conn, handle, is_parked, told)
}

/// What the close of all of a connection's handles begins with, in rising number. AllocError comes only where memory is wanting.
pub(crate) fn close_all(
    tables: &Tables,
    alloc: Global,
    conn: Conn,
) -> Result<Vec<Beginning>, AllocError>
    requires { AreOwned (content_in tables.now) }
    ensures begun { IfOk result (λ beginning. map bare beginning.items ≡ begun_by tables.now conn) }
    ensures shared { IfOk result (λ beginning. AreShared tables.now beginning.items) }
{
    connections_are_found();
    tables.are_tied();
    let handles = tables.connections().handles_of(conn);
    let mut beginning = Vec::new(alloc);
    'closes: for handle in handles {
        close_own(&mut beginning, tables, alloc, conn, *handle)?;
    }
    Ok(beginning)
}
