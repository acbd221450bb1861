//! Records that are told. None takes memory.
ghost use Rattle.std.specs.Prelude.{◌≡◌, ◌+◌, ◌<◌, ◌^◌, ◌∷◌, [], false};
ghost use Rattle.pps_types.specs.Plan as planning;
ghost use Rattle.name_table.specs.Standing.{standing_of};
ghost use Rattle.open_handles.specs.Whole.{HasRoom, IsShared, KeepsRecords, KeepsTable, UsesRoom, handles_in};
ghost use Rattle.service_state.specs.Lines.{HasLines};
ghost use Rattle.service_state.specs.Entries.{after_record, is_deletion};
ghost use Rattle.service_state.specs.Places.{KeepsSitesBut};
ghost use Rattle.service_state.specs.Tied.{Moves, KeepsOrDrops, KeepsHandleRoom};

use crate::tables::Tables;
use name_table::{Names, moves_are_told};
use notify_box::{connections_are_found, connections_are_told};
use open_handles::{Handles, SharedRecord};
use pps_types::{Kind, ObjId};
use server_queue::Entry;

// What a record makes of names.
fn change_names(names: &mut Names, entry: &Entry)
    requires { HasLines entry.now names.old }
    ensures { standing_of names.new ≡ after_record entry.now (standing_of names.old) }
{
    let object = entry.record().object;
    match &entry.record().kind {
        Kind::Change(lines) => names.change(object, lines.as_slice()),
        Kind::Created | Kind::Truncated => names.truncate(object),
        Kind::Dropped => names.drop_nonpersistent(object),
        Kind::Deleted => names.delete(object),
        _ => {}
    }
}

// Whether a record deletes its object.
fn is_deletion(entry: &Entry) -> bool
    ensures { result ≡ is_deletion entry.now }
{
    matches!(entry.record().kind, Kind::Deleted)
}

// Drops the place of an object that a record deletes, if no handle is on it.
fn drop_deleted(handles: &mut Handles, object: ObjId, is_deleted: bool)
    ensures handles { handles_in handles.new ≡ handles_in handles.old }
    ensures others { KeepsSitesBut object is_deleted handles.old handles.new }
    ensures rows { handles.new.rows ≡ handles.old.rows }
    ensures objects { KeepsTable handles.old.objects handles.new.objects }
    ensures directories { KeepsTable handles.old.directories handles.new.directories }
    ensures records { KeepsRecords handles.old handles.new }
    ensures dropped { KeepsOrDrops handles.old handles.new }
    ensures kept { is_deleted ≡ false → handles.new ≡ handles.old }
{
    if is_deleted {
        handles.drop_object(object);
    }
}

impl Tables {
    /// A record happens, for which there is room, to an object that is alive. All handles that see it are told.
    pub fn happen(&mut self, told: SharedRecord)
        requires lines { HasLines told.entry self.old.names }
        requires room { HasRoom (told.entry ∷ []) self.old.handles }
        requires enough { IsShared told.count told.entry self.old.handles }
        requires last { self.old.records + 1 < 2 ^ 64 }
        ensures moves { Moves (planning.AppendsRecord told.entry ∷ []) self.old self.new }
        ensures records { UsesRoom told.entry self.old.handles self.new.handles }
        ensures sites { KeepsOrDrops self.old.handles self.new.handles }
        ensures kept { is_deletion told.entry ≡ false → KeepsHandleRoom self.old self.new }
    {
        connections_are_found();
        connections_are_told();
        moves_are_told();
        change_names(&mut self.names, told.entry());
        let object = told.entry().record().object;
        let is_deleted = is_deletion(told.entry());
        self.handles.offer(told);
        drop_deleted(&mut self.handles, object, is_deleted);
        self.records += 1;
    }
}
