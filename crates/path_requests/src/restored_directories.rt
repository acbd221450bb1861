//! Directories, made at their paths.
ghost use Rattle.std.specs.Prelude.{◌≡◌, IfErr, OnOk, OnErr};
ghost use Rattle.pps_types.specs.WellFormed.{IsContent};
ghost use Rattle.service_state.specs.Tables.{content_in};
ghost use Rattle.path_requests.specs.Restored.{Yields, FailsAs, directory_restored};

use pps_types::{Bytes, Refusal};
use service_state::Tables;

/// Makes a directory at a path.
///
/// It is NotFound or NotDirectory where the path leads nowhere, Exists where something stands there, and TableFull where
/// 256 directories stand in the one above, where there are 65,536 directories, and where the directory would pass the
/// last number. Else OutOfMemory is the only error. After an error all is as it was.
pub fn restore_directory(tables: &mut Tables, path: Vec<Bytes>) -> Result<(), Refusal>
    requires { IsContent (content_in tables.old) }
    ensures done { OnOk result (Yields (directory_restored tables.old path.items) tables.new) }
    ensures refused { IfErr result (λ r. FailsAs (directory_restored tables.old path.items) r) }
    ensures kept { OnErr result (content_in tables.new ≡ content_in tables.old) }
{
    tables.check_new_directory(&path)?;
    if tables.passes_last_number(0, 0, 1) {
        return Err(Refusal::TableFull);
    }
    let Ok(()) = tables.make_directory_ready(&path) else {
        return Err(Refusal::OutOfMemory);
    };
    tables.make_directory(path);
    Ok(())
}
