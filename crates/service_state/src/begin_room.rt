//! The room for what an event begins with.
ghost use Rattle.std.specs.Prelude.{◌≡◌, true, false, IfErr, OnOk};
ghost use Rattle.std.specs.List.{AllByRecursion, list_all};
ghost use Rattle.service_laws.specs.SettlingTargets.{last_number_passed};
ghost use Rattle.service_state.specs.Beginning.{CanBeginAll, AreReady, IsSharedBy, is_plain};
ghost use Rattle.service_state.specs.Begun.{passes_last, RefusesRecords};
ghost use Rattle.service_state.specs.Tables.{content_in};

use crate::beginning::Beginning;
use crate::gathering::entries_in;
use crate::tables::Tables;
use pps_types::Refusal;
use std::alloc::Global;

/// Does nothing. Its contract is the law that no number is past the last.
pub fn numbers_are_within(tables: &Tables)
    ensures { last_number_passed (content_in tables.now) 0 0 0 ≡ false }
{
    let _records = tables.records();
    let _next_object = tables.names().next_object();
    let _next_directory = tables.names().next_directory();
}

/// Takes the memory for what an event begins with, where no record changes attributes by lines. What stands stays.
///
/// It is TableFull where the records would pass the last number, and else OutOfMemory is the only error.
pub fn begin_ready(
    tables: &mut Tables,
    alloc: Global,
    beginning: &[Beginning],
) -> Result<(), Refusal>
    requires able { CanBeginAll (content_in tables.old) beginning.now }
    requires plain { list_all is_plain beginning.now ≡ true }
    requires shared { AllByRecursion (IsSharedBy tables.old.handles) beginning.now }
    ensures content { content_in tables.new ≡ content_in tables.old }
    ensures names { tables.new.names ≡ tables.old.names }
    ensures ready { OnOk result (AreReady beginning.now tables.new) }
    ensures within { OnOk result (passes_last tables.old beginning.now ≡ false) }
    ensures err { IfErr result (λ r. RefusesRecords tables.old beginning.now r) }
{
    tables.handles().handles_are_placed();
    let entries = entries_in(alloc, beginning)?;
    if tables.passes_last_number(entries.len() as u64, 0, 0) {
        return Err(Refusal::TableFull);
    }
    tables.records_ready(&entries)?;
    tables.handles().handles_are_placed();
    Ok(())
}
