//! What follows from what an event does, by the records that it tells and the handles that it closes.
ghost use Rattle.std.specs.Prelude.{◌≡◌, true, [], IfOk, OnErr};
ghost use Rattle.pps_types.specs.WellFormed.{IsContent};
ghost use Rattle.service_state.specs.Tables.{content_in};
ghost use Rattle.pps_engine.specs.EventTold.{closes_in, takes_memory, IsSettled, SettlesSteps, SettlesOpen, Settles};

use crate::doing::Doing;
use crate::settling::settle;
use path_requests::Opens;
use pps_types::Handle;
use service_laws::{events_are_settled, moves_are_settled};
use service_state::{Beginning, Tables, entries_in};
use std::alloc::{AllocError, Global};
use std::slice::from_ref;
use whole_texts::Following;

// The handles that close as an event begins.
fn handles_of(alloc: Global, beginning: &[Beginning]) -> Result<Vec<Handle>, AllocError>
    ensures { IfOk result (λ handles. handles.items ≡ closes_in beginning.now) }
{
    let mut handles = Vec::new(alloc);
    'beginning: for each in beginning {
        if let Beginning::Closes { handle, .. } = each {
            handles.push(*handle)?;
        }
    }
    Ok(handles)
}

// What follows from the steps that an event begins with.
fn settled_begun(
    tables: &Tables,
    alloc: Global,
    beginning: &[Beginning],
) -> Result<Vec<Following>, AllocError>
    requires { IsContent (content_in tables.now) }
    ensures { IfOk result (λ following. SettlesSteps tables.now beginning.now following.items) }
{
    if let [Beginning::AppendsRecord(told)] = beginning {
        return settle(tables, alloc, from_ref(told.entry()), &[]);
    }
    let entries = entries_in(alloc, beginning)?;
    let closing = handles_of(alloc, beginning)?;
    settle(tables, alloc, &entries, &closing)
}

// What follows from an open.
fn settled_opens(
    tables: &Tables,
    alloc: Global,
    opens: &Opens,
) -> Result<Vec<Following>, AllocError>
    requires { IsContent (content_in tables.now) }
    ensures { IfOk result (λ following. SettlesOpen tables.now opens.now following.items) }
{
    match opens {
        Opens::OnFound { beginning, .. } => settled_begun(tables, alloc, beginning),
        Opens::Creating { object, .. } => {
            let entries = from_ref(object.creation.entry());
            settle(tables, alloc, entries, &[])
        }
        Opens::Replacing { replacement, .. } => {
            let mut entries = Vec::new(alloc);
            entries.push(replacement.deletion.entry().share()?)?;
            entries.push(replacement.creation.entry().share()?)?;
            settle(tables, alloc, &entries, &[])
        }
    }
}

/// Does nothing. Its contract is the law that nothing follows if no record is told and no handle closes.
#[inline(always)]
pub(crate) fn nothing_follows(tables: &Tables)
    requires { IsContent (content_in tables.now) }
    ensures { IsSettled (content_in tables.now) [] [] [] }
{
    let _tables = tables;
    events_are_settled();
    moves_are_settled();
}

/// What follows from what an event does. Where no record is told nothing follows.
///
/// AllocError comes only where memory is wanting, and only where records are told.
#[inline(always)]
pub(crate) fn settled(
    tables: &Tables,
    alloc: Global,
    doing: &Doing,
) -> Result<Vec<Following>, AllocError>
    requires { IsContent (content_in tables.now) }
    ensures ok { IfOk result (λ following. Settles tables.now doing.now following.items) }
    ensures lacking { OnErr result (takes_memory doing.now ≡ true) }
{
    events_are_settled();
    moves_are_settled();
    match doing {
        Doing::Begins(beginning) => settled_begun(tables, alloc, beginning),
        Doing::BeginsWith(beginning) => settled_begun(tables, alloc, from_ref(beginning)),
        Doing::Leaves { beginning, .. } => settled_begun(tables, alloc, beginning),
        Doing::Opens(opens) => settled_opens(tables, alloc, opens),
        _ => Ok(Vec::new(alloc)),
    }
}
