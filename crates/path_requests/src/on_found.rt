//! A handle on what stands.
ghost use Rattle.std.specs.Prelude.{◌≡◌, ◌+◌, ◌<◌, ◌^◌, IfOk, IfErr};
ghost use Rattle.pps_types.specs.declared.refusal.Refusal.TheVariants.{OutOfMemory};
ghost use Rattle.service_state.specs.Moves.{opening_on};
ghost use Rattle.service_state.specs.Tables.{content_in};
ghost use Rattle.path_requests.specs.Planned.{moves_of, OpensWithRecord, IsReady};
ghost use Rattle.path_requests.specs.Ways.{SuitsOn, CanTell};

use crate::planned_open::Opens;
use crate::records::entry_of;
use pps_types::{Conn, Found, Kind, ObjId, Refusal};
use service_state::{Beginning, Tables};
use std::alloc::Global;
use sub_reader::Opening;

// The same object or directory.
fn same(found: &Found) -> Found
    ensures { result ≡ found.now }
{
    *found
}

// A handle on what stands, behind records.
fn opens_on(beginning: Vec<Beginning>, found: Found, opening: Opening) -> Opens
    ensures { result ≡ Opens.OnFound beginning found opening }
{
    Opens::OnFound {
        beginning,
        found,
        opening,
    }
}

/// A handle on what stands, for which the memory is taken. What stands stays. OutOfMemory is the only error.
pub(crate) fn on_found(
    tables: &mut Tables,
    alloc: Global,
    conn: Conn,
    found: Found,
    opening: Opening,
) -> Result<Opens, Refusal>
    requires connection { opening.connection ≡ conn }
    requires number { opening.number ≡ (content_in tables.old).next_handle }
    requires suits { SuitsOn opening.kind found tables.old.handles }
    ensures content { content_in tables.new ≡ content_in tables.old }
    ensures moves { IfOk result (λ o. moves_of o tables.new ≡ opening_on found opening tables.old) }
    ensures ready { IfOk result (λ o. IsReady o tables.new) }
    ensures err { IfErr result (λ r. r ≡ OutOfMemory) }
{
    let _records = tables.records();
    tables.open_ready(same(&found), conn)?;
    Ok(opens_on(Vec::new(alloc), found, opening))
}

/// A handle on an object, behind a record that it tells, for which the memory is taken. What stands stays. OutOfMemory is the
/// only error.
pub(crate) fn on_told(
    tables: &mut Tables,
    alloc: Global,
    conn: Conn,
    object: ObjId,
    kind: Kind,
    opening: Opening,
) -> Result<Opens, Refusal>
    requires connection { opening.connection ≡ conn }
    requires number { opening.number ≡ (content_in tables.old).next_handle }
    requires able { CanTell tables.old opening.kind object kind }
    requires last { (content_in tables.old).records + 1 < 2 ^ 64 }
    ensures content { content_in tables.new ≡ content_in tables.old }
    ensures moves { IfOk result (λ o. OpensWithRecord o object kind opening tables.old tables.new) }
    ensures ready { IfOk result (λ o. IsReady o tables.new) }
    ensures err { IfErr result (λ r. r ≡ OutOfMemory) }
{
    let entry = entry_of(tables, alloc, object, kind)?;
    tables.open_ready(Found::Object(object), conn)?;
    let told = tables.tell_ready(alloc, entry)?;
    let mut beginning = Vec::new(alloc);
    beginning.push(Beginning::AppendsRecord(told))?;
    Ok(opens_on(beginning, Found::Object(object), opening))
}
