//! Objects that are created. It takes no memory.
ghost use Rattle.std.specs.Prelude.{◌≡◌, ◌<◌, ◌∷◌, []};
ghost use Rattle.pps_types.specs.Plan.{Creates};
ghost use Rattle.open_handles.specs.Whole.{HasRoom, IsShared, KeepsSites, room_at, site_at};
ghost use Rattle.service_state.specs.Objects.{new_object, CanCreate, CanTakePlace, TakesPlace};
ghost use Rattle.service_state.specs.Places.{next_found, OffersBoth};
ghost use Rattle.service_state.specs.Tied.{Moves};

use crate::tables::Tables;
use name_table::moves_are_told;
use notify_box::{connections_are_found, connections_are_told};
use open_handles::{Handles, NewSite, SharedRecord};
use pps_types::{Bytes, DirId, Handle, ObjId};

/// An object that is to be created, with its place and its record.
#[derive(Drop)]
pub struct NewObject {
    /// The names from the root to the object.
    pub path: Vec<Bytes>,
    /// The directory that it stands in.
    pub directory: DirId,
    /// Whether it is never written to a device.
    pub nopersist: bool,
    /// The handle that owns it, where it is a server object.
    pub server: Option<Handle>,
    /// Its place, with room for a handle.
    pub site: NewSite,
    /// The record of its creation.
    pub creation: SharedRecord,
}

/// An object that is to take another's place, with its own and the records of both.
#[derive(Drop)]
pub struct Replacement {
    /// The object that gives way.
    pub object: ObjId,
    /// Whether the new one is never written to a device.
    pub nopersist: bool,
    /// The handle that owns it, where it is a server object.
    pub server: Option<Handle>,
    /// Its place, with room for a handle.
    pub site: NewSite,
    /// The record of the other's deletion.
    pub deletion: SharedRecord,
    /// The record of its creation.
    pub creation: SharedRecord,
}

impl Tables {
    /// An object is created, and its creation is told. There is room for a handle on it.
    pub fn create(&mut self, object: NewObject)
        requires { CanCreate object self.old }
        ensures moves { Moves (Creates (new_object object self.old) ∷ []) self.old self.new }
        ensures site { site_at (next_found self.old) self.new.handles ≡ Some object.site.site }
        ensures place { 0 < room_at (next_found self.old) self.new.handles }
        ensures rows { self.new.handles.rows ≡ self.old.handles.rows }
        ensures connections { self.new.connections ≡ self.old.connections }
    {
        connections_are_found();
        connections_are_told();
        moves_are_told();
        let NewObject {
            path,
            directory,
            nopersist,
            server,
            site,
            creation,
        } = object;
        let _number = self.names.create(path, directory, nopersist, server);
        self.handles.offer(creation);
        self.handles.add_object(site);
        self.records += 1;
    }

    /// An object takes another's place: both are told. There is room for a handle on it.
    pub fn replace(&mut self, replacement: Replacement)
        requires { CanTakePlace replacement self.old }
        ensures moves { TakesPlace replacement self.old self.new }
        ensures site { site_at (next_found self.old) self.new.handles ≡ Some replacement.site.site }
        ensures place { 0 < room_at (next_found self.old) self.new.handles }
        ensures rows { self.new.handles.rows ≡ self.old.handles.rows }
        ensures connections { self.new.connections ≡ self.old.connections }
    {
        connections_are_found();
        connections_are_told();
        moves_are_told();
        let Replacement {
            object,
            nopersist,
            server,
            site,
            deletion,
            creation,
        } = replacement;
        let _number = self.names.replace(object, nopersist, server);
        tell_both(&mut self.handles, deletion, creation);
        self.handles.drop_object(object);
        self.handles.add_object(site);
        self.records += 2;
    }
}

// Both records are told.
fn tell_both(handles: &mut Handles, first: SharedRecord, second: SharedRecord)
    requires room { HasRoom (first.entry ∷ second.entry ∷ []) handles.old }
    requires first_shared { IsShared first.count first.entry handles.old }
    requires second_shared { IsShared second.count second.entry handles.old }
    ensures handles { OffersBoth first.entry second.entry handles.old handles.new }
    ensures sites { KeepsSites handles.old handles.new }
    ensures rows { handles.new.rows ≡ handles.old.rows }
{
    handles.handles_are_placed();
    handles.offer(first);
    handles.handles_are_placed();
    handles.offer(second);
}
