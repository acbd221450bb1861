//! Making a directory.
ghost use Rattle.std.specs.Prelude.{◌≡◌, ◌+◌, ◌<◌, ◌^◌, IfOk, IfErr, OnOk};
ghost use Rattle.pps_types.specs.declared.event.Request.TheVariants.{Mkdir};
ghost use Rattle.name_table.specs.Standing.{IsReadyToMake};
ghost use Rattle.service_state.specs.Tables.{content_in};
ghost use Rattle.service_state.specs.Refused.{AllPass, Fails, all_checks_in};
ghost use Rattle.path_requests.specs.Done.{DoesMkdir};

use crate::paths::read_names;
use pps_types::{Bytes, Conn, Refusal};
use service_laws::events_are_settled;
use service_state::Tables;
use std::alloc::Global;

/// The names of the path at which a directory is to be made, with all memory taken for it. What stands stays.
///
/// It is BadPath where the text is no path, NotFound or NotDirectory where the path leads nowhere, Exists where something
/// stands there, and TableFull where 256 directories stand in the one above, where there are 65,536 directories, and where the
/// directory would pass the last number. Else OutOfMemory is the only error.
pub fn make_directory(
    tables: &mut Tables,
    alloc: Global,
    conn: Conn,
    path: &Bytes,
) -> Result<Vec<Bytes>, Refusal>
    ensures content { content_in tables.new ≡ content_in tables.old }
    ensures passes { OnOk result (AllPass (all_checks_in tables.old conn (Mkdir path.now))) }
    ensures does { IfOk result (λ names. DoesMkdir names.items conn path.now tables.old) }
    ensures ready { IfOk result (λ names. IsReadyToMake tables.new.names names.items) }
    ensures place { OnOk result (0 < tables.new.handles.directories.room) }
    ensures last { OnOk result ((content_in tables.new).next_directory + 1 < 2 ^ 64) }
    ensures err { IfErr result (λ r. Fails (all_checks_in tables.old conn (Mkdir path.now)) r) }
{
    events_are_settled();
    let names = read_names(alloc, path)?;
    tables.check_new_directory(&names)?;
    if tables.passes_last_number(0, 0, 1) {
        return Err(Refusal::TableFull);
    }
    let Ok(()) = tables.make_directory_ready(&names) else {
        return Err(Refusal::OutOfMemory);
    };
    Ok(names)
}
