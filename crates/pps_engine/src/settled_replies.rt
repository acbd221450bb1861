//! What follows from records for a handle that they wake, by what its late reply has to be told.
ghost use Rattle.std.specs.Prelude.{◌≡◌, [], map, unwrap_or, OnOk};
ghost use Rattle.pps_types.specs.History.{line_of};
ghost use Rattle.whole_texts.specs.Followed.{Adds};
ghost use Rattle.whole_texts.specs.Woken.{ForOpened};
ghost use Rattle.pps_engine.specs.Behind.{state_in};
ghost use Rattle.pps_engine.specs.WokenHandles.{needs_everything, follows_by, AddsByRecords, ForWokenObject, ForWokenDirectory};

use crate::settled_attributes::Attributes;
use crate::settled_members::{members_of, rows_behind};
use crate::settled_objects::state_behind;
use name_table::Names;
use pps_types::{DirId, ObjId, Refusal};
use server_queue::Entry;
use std::alloc::Global;
use sub_reader::Opening;
use whole_texts::{Following, Member, TargetAfter, Woken, follow, gives_everything};

/// Whether a late reply gives everything of the target.
pub(crate) fn needs_target(
    target: u64,
    opening: &Opening,
    parked: Option<u32>,
    entries: &[Entry],
) -> bool
    ensures { ForOpened target opening.now (λ handle. result ≡ needs_everything parked handle entries.now) }
{
    parked.is_some() && gives_everything(target, opening, entries)
}

/// An object of that name as its own one member: a dead one has no attributes.
fn member_of<'a>(name: &'a [u8], state: &'a Option<Attributes<'_>>) -> Member<'a>
    ensures name { result.name ≡ name.now }
    ensures lines { result.lines ≡ map line_of (unwrap_or (state_in state.now) []) }
{
    match state {
        None => Member::dead(name),
        Some(attributes) => Member::alive(name, attributes.object()),
    }
}

/// What follows for a handle whose late reply does not give everything: the records alone tell it.
pub(crate) fn follow_records(
    alloc: Global,
    entries: &[Entry],
    woken: &Woken<'_>,
    following: &mut Vec<Following>,
) -> Result<(), Refusal>
    ensures { AddsByRecords woken.now entries.now following.old following.new result }
{
    let told = TargetAfter::new(entries, true, &[]);
    follow(alloc, following, woken, &told)
}

/// What follows for a handle on an object of that name.
pub(crate) fn follow_object(
    alloc: Global,
    names: &Names,
    entries: &[Entry],
    object: ObjId,
    name: &[u8],
    woken: &Woken<'_>,
    following: &mut Vec<Following>,
) -> Result<(), Refusal>
    ensures { ForWokenObject woken.now object name.now (λ handle. OnOk result
        (Adds following.old following.new (follows_by names.now entries.now handle))) }
{
    let state = state_behind(alloc, names, entries, object)?;
    let members = [member_of(name, &state)];
    let told = TargetAfter::new(entries, state.is_some(), &members);
    follow(alloc, following, woken, &told)
}

/// What follows for a handle on a directory.
pub(crate) fn follow_directory(
    alloc: Global,
    names: &Names,
    entries: &[Entry],
    directory: DirId,
    woken: &Woken<'_>,
    following: &mut Vec<Following>,
) -> Result<(), Refusal>
    ensures { ForWokenDirectory woken.now directory (λ handle. OnOk result
        (Adds following.old following.new (follows_by names.now entries.now handle))) }
{
    let rows = rows_behind(alloc, names, entries, directory)?;
    let members = members_of(alloc, &rows)?;
    let told = TargetAfter::new(entries, true, &members);
    follow(alloc, following, woken, &told)
}
