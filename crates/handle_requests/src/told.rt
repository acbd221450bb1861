//! What the close of a handle tells.
ghost use Rattle.std.specs.Prelude.{◌≡◌, true, is_some, IfOk, OnErr};
ghost use Rattle.service_state.specs.Tables.{content_in};
ghost use Rattle.handle_requests.specs.Own.{opened_as};
ghost use Rattle.handle_requests.specs.Told.{is_orphan, kind_told_by, own_told, own_told_last};

use crate::own::{Own, own_handle};
use pps_types::{Conn, HandleKind, Kind, ObjId};
use server_queue::Entry;
use service_state::{Tables, record_of};
use std::alloc::{AllocError, Global};

// The kind of the record that the close of a handle makes of its object, where it makes one.
fn kind_told(own: &Own<'_>) -> Option<Kind>
    ensures { result ≡ kind_told_by own.now.opening.now }
{
    let opening = own.opening();
    match opening.kind {
        HandleKind::Server => Some(Kind::Deleted),
        HandleKind::Client => Some(Kind::Closed(opening.number)),
        HandleKind::Object { .. } => {
            if opening.options.critical && opening.writes {
                Some(Kind::Dropped)
            } else {
                None
            }
        }
        _ => None,
    }
}

/// The record that the close of a handle tells, where its object is alive and its kind tells one. AllocError comes only where
/// there is one.
pub(crate) fn told_of(
    tables: &Tables,
    alloc: Global,
    own: &Own<'_>,
) -> Result<Option<Entry>, AllocError>
    ensures ok { IfOk result (λ told. told ≡ own_told tables.now own.now) }
    ensures memory { OnErr result (is_some (own_told tables.now own.now) ≡ true) }
{
    let Some(kind) = kind_told(own) else {
        return Ok(None);
    };
    let Some(object) = tables.names().object(ObjId::new(own.target())) else {
        return Ok(None);
    };
    match record_of(alloc, object, kind, None) {
        Err(error) => Err(error),
        Ok(entry) => Ok(Some(entry)),
    }
}

// Whether the server of a handle's object is a handle of lower number of the same connection, so that it closes before, and
// the object is dead then.
fn is_orphan(tables: &Tables, conn: Conn, own: &Own<'_>) -> bool
    ensures { result ≡ is_orphan (content_in tables.now) conn (opened_as tables.now own.now) }
{
    let Some(object) = tables.names().object(ObjId::new(own.target())) else {
        return false;
    };
    let Some(server) = object.server() else {
        return false;
    };
    if server.number() >= own.opening().number.number() {
        return false;
    }
    own_handle(tables, conn, server).is_some()
}

/// The record that the close of a handle tells behind those of the same connection's handles of lower numbers.
pub(crate) fn told_behind(
    tables: &Tables,
    alloc: Global,
    conn: Conn,
    own: &Own<'_>,
) -> Result<Option<Entry>, AllocError>
    ensures { IfOk result (λ told. told ≡ own_told_last tables.now conn own.now) }
{
    if is_orphan(tables, conn, own) {
        return Ok(None);
    }
    told_of(tables, alloc, own)
}
