//! What an event begins with, gathered one after the other.
ghost use Rattle.std.specs.Prelude.{◌≡◌, Some, IfOk, OnOk};
ghost use Rattle.service_state.specs.Beginning.{entries_in};
ghost use Rattle.service_state.specs.Begun.{telling, Adds, KeepsShares};

use crate::beginning::Beginning;
use crate::tables::Tables;
use server_queue::Entry;
use std::alloc::{AllocError, Global};

/// Puts a record behind what an event begins with, with shares of it for all handles that it is told to. AllocError comes only
/// where memory is wanting.
pub fn tell(
    beginning: &mut Vec<Beginning>,
    tables: &Tables,
    alloc: Global,
    entry: Entry,
) -> Result<(), AllocError>
    ensures begun { OnOk result
        (Adds beginning.old.items beginning.new.items (telling (Some entry))) }
    ensures shared { OnOk result (KeepsShares tables.now beginning.old.items beginning.new.items) }
{
    let told = tables.handles().shares(alloc, entry)?;
    beginning.push(Beginning::AppendsRecord(told))?;
    Ok(())
}

/// The records among what is begun, in their order. AllocError comes only where memory is wanting.
pub fn entries_in(alloc: Global, beginning: &[Beginning]) -> Result<Vec<Entry>, AllocError>
    ensures { IfOk result (λ entries. entries.items ≡ entries_in beginning.now) }
{
    let mut entries = Vec::new(alloc);
    'records: for each in beginning {
        if let Beginning::AppendsRecord(told) = each {
            entries.push(told.entry().share()?)?;
        }
    }
    Ok(entries)
}
