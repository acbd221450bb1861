//! An object, as records leave it.
ghost use Rattle.std.specs.Prelude.{◌≡◌, IfOk};
ghost use Rattle.name_table.specs.Standing.{named_content};
ghost use Rattle.pps_engine.specs.Behind.{state_in, state_known, state_left, state_by, state_behind};

use crate::settled_attributes::{Attributes, after};
use name_table::{NamedObject, Names};
use object_state::Object;
use pps_types::{Kind, ObjId, Refusal};
use server_queue::Entry;
use std::alloc::Global;

/// The attributes of an object as they stand, if it is alive.
fn state_of<'a>(known: Option<&'a NamedObject>) -> Option<Attributes<'a>>
    ensures { state_in result ≡ state_known known.entry }
{
    match known {
        None => None,
        Some(object) => Some(Attributes::Lent(object.attributes())),
    }
}

/// The attributes of an object that was not alive, behind a record of it.
fn state_made<'a>(alloc: Global, kind: &Kind) -> Option<Attributes<'a>>
    ensures { state_in result ≡ state_left kind.now None }
{
    match kind {
        Kind::Created => Some(Attributes::Made(Object::new(alloc))),
        _ => None,
    }
}

/// The attributes of an object behind a record of it, if it is alive then.
fn state_after<'a>(
    alloc: Global,
    state: Option<Attributes<'a>>,
    kind: &Kind,
) -> Result<Option<Attributes<'a>>, Refusal>
    ensures { IfOk result (λ s. state_in s ≡ state_left kind.now (state_in state.entry)) }
{
    let Some(attributes) = state else {
        return Ok(state_made(alloc, kind));
    };
    match kind {
        Kind::Created => Ok(Some(attributes)),
        Kind::Deleted => Ok(None),
        _ => Ok(Some(after(alloc, attributes, kind)?)),
    }
}

/// The attributes of an object behind a record of it or of another.
fn state_behind_one<'a>(
    alloc: Global,
    state: Option<Attributes<'a>>,
    object: ObjId,
    entry: &Entry,
) -> Result<Option<Attributes<'a>>, Refusal>
    ensures { IfOk result (λ s. state_in s ≡ state_by object (state_in state.entry) entry.now) }
{
    let record = entry.record();
    if record.object != object {
        return Ok(state);
    }
    state_after(alloc, state, &record.kind)
}

/// The attributes of an object behind these records, if it is alive then.
///
/// An error comes only where memory is wanting, or where a record brings the object past its limits.
pub(crate) fn state_behind<'a>(
    alloc: Global,
    names: &'a Names,
    entries: &[Entry],
    object: ObjId,
) -> Result<Option<Attributes<'a>>, Refusal>
    ensures { IfOk result (λ state.
        state_in state ≡ state_behind (named_content names.now) entries.now object) }
{
    let mut state = state_of(names.object(object));
    'entries: for entry in entries {
        state = state_behind_one(alloc, state, object, entry)?;
    }
    Ok(state)
}
