//! Closing a handle, and all handles of a connection that leaves.
ghost use Rattle.std.specs.Prelude.{◌≡◌, IfOk, IfErr, OnOk};
ghost use Rattle.pps_types.specs.declared.event.Request.TheVariants.{Close, Detach};
ghost use Rattle.pps_types.specs.WellFormed.{IsContent};
ghost use Rattle.service_state.specs.Beginning.{AreReady};
ghost use Rattle.service_state.specs.Tables.{content_in};
ghost use Rattle.service_state.specs.Refused.{AllPass, Fails, all_checks_in};
ghost use Rattle.handle_requests.specs.Closed.{IsReady, TakesMemoryToClose, IsCloseEffect, IsDetachEffect};

use crate::gathering::{close_all, close_behind, is_parked};
use crate::own::own_handle;
use crate::told::told_of;
use pps_types::{Conn, Handle, Refusal};
use service_laws::{closes_are_planned, events_are_settled};
use service_state::{Beginning, Tables, begin_ready, numbers_are_within};
use std::alloc::Global;

/// How a handle closes.
#[derive(Drop)]
pub enum Closing {
    /// Nobody is told: a read waits on the handle, or not.
    Alone { is_parked: bool },
    /// The handle's close, and the record that is told.
    Telling(Vec<Beginning>),
}

/// How a handle of a connection closes, with all memory taken for it. What stands stays.
///
/// It is BadHandle where the connection has no such handle, and TableFull where the record that its close tells would pass the
/// last number. Else OutOfMemory is the only error, and comes only where a record is told: of an alive object, by its server,
/// by a client, or by a critical publisher.
pub fn close(
    tables: &mut Tables,
    alloc: Global,
    conn: Conn,
    handle: Handle,
) -> Result<Closing, Refusal>
    ensures content { content_in tables.new ≡ content_in tables.old }
    ensures names { tables.new.names ≡ tables.old.names }
    ensures passes { OnOk result (AllPass (all_checks_in tables.old conn (Close handle))) }
    ensures wants { IfOk result (λ closing. TakesMemoryToClose tables.old conn handle closing) }
    ensures does { IfOk result (λ closing. IsCloseEffect tables.old conn handle closing) }
    ensures ready { IfOk result (λ closing. IsReady conn handle tables.new closing) }
    ensures err { IfErr result (λ r. Fails (all_checks_in tables.old conn (Close handle)) r) }
{
    events_are_settled();
    numbers_are_within(tables);
    let Some(own) = own_handle(tables, conn, handle) else {
        return Err(Refusal::BadHandle);
    };
    let is_parked = is_parked(tables, conn, handle);
    let Some(entry) = told_of(tables, alloc, &own)? else {
        return Ok(Closing::Alone { is_parked });
    };
    let mut beginning = Vec::new(alloc);
    close_behind(
        &mut beginning,
        tables,
        alloc,
        conn,
        handle,
        is_parked,
        Some(entry),
    )?;
    begin_ready(tables, alloc, &beginning)?;
    Ok(Closing::Telling(beginning))
}

/// What the leaving of a connection begins with: all its handles close, in rising number, and records are told, with all
/// memory taken for it. What stands stays.
///
/// It is TableFull where the records would pass the last number, and else OutOfMemory is the only error.
pub fn detach(tables: &mut Tables, alloc: Global, conn: Conn) -> Result<Vec<Beginning>, Refusal>
    requires { IsContent (content_in tables.old) }
    ensures content { content_in tables.new ≡ content_in tables.old }
    ensures names { tables.new.names ≡ tables.old.names }
    ensures passes { OnOk result (AllPass (all_checks_in tables.old conn Detach)) }
    ensures does { IfOk result (λ beginning. IsDetachEffect tables.old conn beginning.items) }
    ensures ready { IfOk result (λ beginning. AreReady beginning.items tables.new) }
    ensures err { IfErr result (λ r. Fails (all_checks_in tables.old conn Detach) r) }
{
    events_are_settled();
    closes_are_planned();
    let beginning = close_all(tables, alloc, conn)?;
    begin_ready(tables, alloc, &beginning)?;
    Ok(beginning)
}
