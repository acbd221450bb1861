//! Writes: their checks in their order, what they answer, and what they begin with.
ghost use Rattle.std.specs.Prelude.{◌≡◌, ◌≤◌, IfOk, IfErr, OnOk, length};
ghost use Rattle.std.specs.Option.{option_to_list};
ghost use Rattle.pps_types.specs.WellFormed.{IsContent};
ghost use Rattle.service_laws.specs.Bounds.{IsBound};
ghost use Rattle.service_state.specs.Tables.{content_in};
ghost use Rattle.service_state.specs.Beginning.{AreReady};
ghost use Rattle.service_state.specs.Refused.{AllPass, TakesMemory, Fails};
ghost use Rattle.handle_requests.specs.Drafting.{write_checks_in, IsWriteEffect};

use crate::draft::drafted;
use crate::ready::{begun, lines_ready};
use pps_types::limits::WRITE_MAX;
use pps_types::{Bytes, Conn, Handle, Refusal};
use service_state::{Beginning, Tables};
use std::alloc::Global;

/// What a write of these bytes through a handle begins with, for which the memory is taken: the record of its lines, if it
/// has some. Its answer is how many bytes they are. What stands stays.
///
/// It is BadHandle where the connection has no such handle, BadMode where the handle isn't open for writing, TooLarge where
/// the bytes are more than 65,536, and Gone where the object is deleted, before any memory is taken. It is BadText, with the
/// line, where the text is malformed or its header names something else, and NoClient, with the identifier, where a server's
/// header names no open client. Where it has lines, it is Backlogged, with the handle, where a message is for one who is owed
/// as many as its limit. It is TooLarge, too, where the object would pass its limits, and TableFull where the record would be
/// past the last number. Else OutOfMemory is the only error.
pub fn write(
    tables: &mut Tables,
    alloc: Global,
    conn: Conn,
    handle: Handle,
    bytes: &Bytes,
) -> Result<Option<Beginning>, Refusal>
    requires content { IsContent (content_in tables.old) }
    requires bound { IsBound (content_in tables.old) }
    ensures content { content_in tables.new ≡ content_in tables.old }
    ensures passes { OnOk result (AllPass (write_checks_in tables.old conn handle bytes.now)) }
    ensures wants { OnOk result (TakesMemory (write_checks_in tables.old conn handle bytes.now)) }
    ensures short { OnOk result (length bytes.now ≤ WRITE_MAX) }
    ensures does { IfOk result (λ b. IsWriteEffect tables.old conn handle bytes.now b) }
    ensures ready { IfOk result (λ b. AreReady (option_to_list b) tables.new) }
    ensures err { IfErr result (λ r. Fails (write_checks_in tables.old conn handle bytes.now) r) }
{
    let prepared = drafted(tables, alloc, conn, handle, bytes)?;
    lines_ready(tables, &prepared)?;
    let beginning = begun(tables, alloc, prepared.into_entry())?;
    Ok(beginning)
}
