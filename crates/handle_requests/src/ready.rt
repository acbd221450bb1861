//! The memory that a write takes ahead.
ghost use Rattle.std.specs.Prelude.{◌≡◌, ◌+◌, ◌<◌, ◌^◌, [], true, false, IfOk, IfErr, OnOk, IfSome, is_some};
ghost use Rattle.std.specs.List.{flat_map};
ghost use Rattle.std.specs.Option.{option_to_list};
ghost use Rattle.service_state.specs.Tables.{content_in};
ghost use Rattle.service_state.specs.Beginning.{moves_of, AreReady};
ghost use Rattle.service_state.specs.Lines.{HasLines};
ghost use Rattle.service_state.specs.Refused.{live_object_in, IsKnownIn};
ghost use Rattle.handle_requests.specs.Writes.{tells, is_past};
ghost use Rattle.handle_requests.specs.Drafting.{object_in, kind_in, entry_in, AllowsKind, RefusesKind, HasKindLines, HasRecordLines, IsLast, RefusesRecord};

use crate::draft::Prepared;
use pps_types::{Kind, ObjId, Refusal};
use server_queue::Entry;
use service_state::{Beginning, Tables};
use std::alloc::Global;

// Does nothing. Its contract is the law that an object is found as it stands.
#[inline(always)]
fn objects_are_placed(tables: &Tables, object: ObjId)
    ensures { IsKnownIn tables.now object }
{
    tables.names().objects_are_known();
}

// Takes the memory for the lines of a record of that kind, if it changes its object. What is there stays.
//
// It is TooLarge exactly if the object would pass its limits. Else OutOfMemory is the only error.
#[inline(always)]
fn kind_ready(tables: &mut Tables, object: ObjId, kind: &Kind) -> Result<(), Refusal>
    requires { is_some (live_object_in tables.old object) ≡ true }
    ensures content { content_in tables.new ≡ content_in tables.old }
    ensures passes { OnOk result (AllowsKind tables.old object kind.now) }
    ensures lines { OnOk result (HasKindLines object kind.now tables.new.names) }
    ensures err { IfErr result (λ r. RefusesKind tables.old object kind.now r) }
{
    objects_are_placed(tables, object);
    match kind {
        Kind::Change(lines) => tables.change_ready(object, lines.as_slice()),
        _ => Ok(()),
    }
}

/// Takes the memory for the lines of a write, if it changes its object. What is there stays.
///
/// It is TooLarge exactly if the object would pass its limits. Else OutOfMemory is the only error.
#[inline(always)]
pub(crate) fn lines_ready(tables: &mut Tables, prepared: &Prepared) -> Result<(), Refusal>
    requires { is_some (live_object_in tables.old (object_in prepared.now)) ≡ true }
    ensures content { content_in tables.new ≡ content_in tables.old }
    ensures passes { OnOk result
        (AllowsKind tables.old (object_in prepared.now) (kind_in prepared.now)) }
    ensures lines { OnOk result (HasRecordLines (entry_in prepared.now) tables.new.names) }
    ensures err { IfErr result
        (λ r. RefusesKind tables.old (object_in prepared.now) (kind_in prepared.now) r) }
{
    match prepared {
        Prepared::Untold(draft) => kind_ready(tables, draft.object, &draft.kind),
        Prepared::Record(entry) => {
            let record = entry.record();
            let ready = kind_ready(tables, record.object, &record.kind);
            objects_are_placed(tables, entry.record().object);
            ready
        }
    }
}

// Whether a record has the last number, so that no other can come.
fn is_last(tables: &Tables) -> bool
    ensures past { IsLast tables.now result }
    ensures stays { is_past (content_in tables.now) [] ≡ false }
    ensures next { result ≡ false → tables.now.records + 1 < 2 ^ 64 }
    ensures range { tables.now.records < 2 ^ 64 }
{
    let names = tables.names();
    let _object = names.next_object();
    let _directory = names.next_directory();
    tables.records() == u64::MAX
}

/// Takes the memory for what a write begins with: its record, if it has one. What stands stays.
///
/// It is TableFull where the record would be past the last number. Else OutOfMemory is the only error.
pub(crate) fn begun(
    tables: &mut Tables,
    alloc: Global,
    entry: Option<Entry>,
) -> Result<Option<Beginning>, Refusal>
    requires { IfSome entry (λ e. HasLines e tables.old.names) }
    ensures content { content_in tables.new ≡ content_in tables.old }
    ensures tells { IfOk result (λ b. flat_map moves_of (option_to_list b) ≡ tells entry) }
    ensures ready { IfOk result (λ b. AreReady (option_to_list b) tables.new) }
    ensures last { OnOk result (is_past (content_in tables.old) (tells entry) ≡ false) }
    ensures err { IfErr result (λ r. RefusesRecord tables.old entry r) }
{
    let is_last = is_last(tables);
    let Some(entry) = entry else {
        return Ok(None);
    };
    if is_last {
        return Err(Refusal::TableFull);
    }
    let told = tables.tell_ready(alloc, entry)?;
    Ok(Some(Beginning::AppendsRecord(told)))
}
