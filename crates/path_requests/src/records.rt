//! Records that an open tells.
ghost use Rattle.std.specs.Prelude.{◌≡◌, IfOk, IfErr, IsSome};
ghost use Rattle.pps_types.specs.declared.refusal.Refusal.TheVariants.{OutOfMemory};
ghost use Rattle.service_state.specs.Refused.{live_object_in};
ghost use Rattle.path_requests.specs.Alive.{IsRecordOf};

use pps_types::{Kind, ObjId, Refusal};
use server_queue::Entry;
use service_state::{Tables, record_of};
use std::alloc::Global;

/// A record of an object that is alive. OutOfMemory is the only error.
pub(crate) fn entry_of(
    tables: &Tables,
    alloc: Global,
    object: ObjId,
    kind: Kind,
) -> Result<Entry, Refusal>
    requires { IsSome (live_object_in tables.now object) }
    ensures ok { IfOk result (λ e. IsRecordOf e object kind tables.now) }
    ensures err { IfErr result (λ r. r ≡ OutOfMemory) }
{
    let Some(known) = tables.names().object(object) else {
        unreachable!();
    };
    Ok(record_of(alloc, known, kind, None)?)
}
