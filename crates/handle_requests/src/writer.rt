//! Who writes, and to what.
ghost use Rattle.std.specs.Prelude.{IfOk, IfErr};
ghost use Rattle.pps_types.specs.declared.event.Request.TheVariants.{Write};
ghost use Rattle.service_laws.specs.Bounds.{IsBound};
ghost use Rattle.service_state.specs.Tables.{content_in};
ghost use Rattle.service_state.specs.Refused.{RefusedBy, checks_in};
ghost use Rattle.handle_requests.specs.Drafting.{IsWriterOf};

use crate::own::own_handle;
use name_table::NamedObject;
use pps_types::limits::WRITE_MAX;
use pps_types::{Bytes, Conn, Found, Handle, HandleKind, ObjId, Refusal};
use service_state::Tables;

/// An open handle that writes, and the alive object that it is on.
#[derive(Drop)]
pub(crate) struct Writer<'a> {
    pub(crate) handle: Handle,
    pub(crate) kind: HandleKind,
    /// What the handle is on.
    pub(crate) found: Found,
    pub(crate) object: &'a NamedObject,
}

/// The connection's own handle, where it may write so many bytes, and its object is alive.
#[inline(always)]
pub(crate) fn writer_of<'a>(
    tables: &'a Tables,
    conn: Conn,
    handle: Handle,
    bytes: &Bytes,
) -> Result<Writer<'a>, Refusal>
    requires { IsBound (content_in tables.now) }
    ensures ok { IfOk result (λ w. IsWriterOf tables.now conn handle bytes.now w) }
    ensures err { IfErr result
        (λ r. RefusedBy (checks_in tables.now conn (Write handle bytes.now)) r) }
{
    let Some(own) = own_handle(tables, conn, handle) else {
        return Err(Refusal::BadHandle);
    };
    if !own.writes() {
        return Err(Refusal::BadMode);
    }
    if bytes.len() > WRITE_MAX {
        return Err(Refusal::TooLarge);
    }
    let Some(object) = tables.names().object(ObjId::new(own.target())) else {
        return Err(Refusal::Gone);
    };
    Ok(Writer {
        handle,
        kind: own.kind(),
        found: own.found(),
        object,
    })
}
