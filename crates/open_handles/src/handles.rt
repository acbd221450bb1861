//! All open handles.
ghost use Rattle.std.specs.Prelude.{◌≡◌, ◌≢◌, ◌↔◌, ◌+◌, ◌<◌, ◌≤◌, ◌^◌, ◌∷◌, [], Some, None, true, length, map, filter, IsTrue, IfOk, IfSome, OnOk, OnErr};
ghost use Rattle.std.specs.Option.{option_copied};
ghost use Rattle.pps_types.specs.declared.found.Found.{Found as FoundAt};
ghost use Rattle.pps_types.specs.declared.found.Found.TheVariants.{Object as FoundObject, Directory as FoundDirectory};
ghost use Rattle.number_table.specs.Numbered.{value_at};
ghost use Rattle.topics.specs.HandlesOf.{name_of};
ghost use Rattle.topics.specs.Backlogs.{is_server_full_at, is_client_full_at, full_client_in};
ghost use Rattle.sub_reader.specs.Opened.{armed_pulse, handle_at};
ghost use Rattle.sub_reader.specs.HandleAt.{parked_at, armed_at, owed_at, with_caught_up, with_passed, with_parked, with_armed};
ghost use Rattle.sub_reader.specs.Woken.{woken_by};
ghost use Rattle.pps_types.specs.Plan.{offer, without_number};
ghost use Rattle.pps_types.specs.WellFormed.{RiseBetween};
ghost use Rattle.open_handles.specs.Lookups.{ShowsOpening, ShowsGlance};
ghost use Rattle.open_handles.specs.Whole.{Whole, handles_in, handles_at, handle_in_topic, site_at, directory_site, plain_site, name_at, room_at, kept_at, is_on, is_told, with_opened_on, with_changed, HasSite, IfServed, IsObject, IsPlaceOf, IsShared, IsSharedAt, HasRoom, HasRoomIn, HasEachInPlace, HasRisingNumbers, HoldsJustWhatIsOwed, UsesRoom, UsesRoomIn, IsReadyAt, IsReadyFor, IsReserved, AreOfSame, SuitsAt, GoesIfUnused, StaysIfUsed, KeepsOthers, KeepsSites, KeepsPlaces, KeepsRecords, KeepsTable};

use crate::change::{
    Change, change_in, close_in, offer_in, open_in, reserve_in, reserve_records_in, shares_in,
};
use crate::new_site::NewSite;
use crate::places::{Places, drop_unused};
use crate::shared_record::SharedRecord;
use crate::woken::unite;
use number_table::Table;
use pps_types::{Bytes, DirId, Found, Handle, ObjId, Refusal};
use server_queue::Entry;
use std::alloc::{AllocError, Global};
use std::marker::Model;
use sub_reader::{Glance, Opening, Pulse};
use topics::{Shares, Topic};

/// What the open of a handle fixed, and the object or directory that it is on.
#[derive(Drop)]
pub struct Opened<'a> {
    pub found: Found,
    pub opening: &'a Opening,
}

/// What is seen of a handle at one look: the object or directory that it is on, with the handles there, and what stands of
/// the handle itself.
#[derive(Drop)]
pub struct Looked<'a> {
    pub found: Found,
    pub topic: &'a Topic,
    pub glance: Glance<'a>,
}

/// The number of a row for a handle.
#[inline(always)]
fn row_number(opening: &Opening) -> u64
    ensures same { result ≡ opening.now.number }
    ensures last { result + 1 < 2 ^ 64 }
{
    u64::from(opening.number.number())
}

/// Whether two records are of one object, and so in one directory.
#[inline(always)]
fn is_of_same(one: &Entry, other: &Entry) -> bool
    ensures { result ≡ true → AreOfSame one.now other.now }
{
    one.record().object == other.record().object && one.directory() == other.directory()
}

/// The row of a handle on an object or a directory.
#[inline(always)]
fn row_of(found: &Found) -> Found
    ensures { result ≡ found.now }
{
    *found
}

/// The open handles of a service, under numbers that rise and never come again, and the objects and directories that
/// handles can be opened on.
///
/// A call that adds something has a call beside it that takes the memory ahead and changes nothing else, and then takes
/// none and cannot fail.
pub struct Handles {
    pub(crate) rows: Table<Found>,
    pub(crate) places: Places,
}

// Written out, since each crate that drops one would prove a derived drop anew, with those of all its parts.
impl Drop for Handles {
    fn drop(self) {
        let Handles { rows: _, places: _ } = self;
    }
}

impl Model for Handles {
    ghost use Rattle.open_handles.specs.Whole.{Whole, IsWhole};

    ghost Value = { Whole };

    ghost view = { λ h. record { rows = h.rows; objects = h.places.objects; directories = h.places.directories } };

    ghost invariant = { λ h. IsWhole (record { rows = h.rows; objects = h.places.objects; directories = h.places.directories }) };
}

impl Handles {
    /// No handles, of which the first gets this number or a higher one, and nothing to open one on. It takes no memory.
    pub fn new(alloc: Global, next: u64) -> Handles
        ensures handles { handles_in result ≡ [] }
        ensures sites { (f : FoundAt) → site_at f result ≡ None }
        ensures next { result.rows.next ≡ next }
        ensures next_object { result.objects.next ≡ 0 }
        ensures next_directory { result.directories.next ≡ 0 }
    {
        Handles {
            rows: Table::new(alloc, next),
            places: Places {
                objects: Table::new(alloc, 0),
                directories: Table::new(alloc, 0),
            },
        }
    }

    /// How many handles are open.
    pub fn len(&self) -> usize
        ensures { result ≡ length (handles_in self.now) }
    {
        self.rows.len()
    }

    /// The number that a handle may have next: each so far was lower.
    pub fn next(&self) -> u64
        ensures { result ≡ self.now.rows.next }
    {
        self.rows.next()
    }

    /// The object or directory that a handle is on, if it is open.
    #[inline(always)]
    pub fn target_of(&self, handle: Handle) -> Option<Found>
        ensures { result ≡ value_at handle self.now.rows }
    {
        match self.rows.get(u64::from(handle.number())) {
            None => None,
            Some(found) => Some(*found),
        }
    }

    /// Makes room for one more object. AllocError comes only where there was none. What stands stays.
    pub fn reserve_object(&mut self) -> Result<(), AllocError>
        ensures handles { handles_in self.new ≡ handles_in self.old }
        ensures sites { KeepsSites self.old self.new }
        ensures rows { KeepsTable self.old.rows self.new.rows }
        ensures places { KeepsPlaces self.old self.new }
        ensures records { KeepsRecords self.old self.new }
        ensures room { OnOk result (0 < self.new.objects.room) }
        ensures lacking { OnErr result (self.old.objects.room ≡ 0) }
    {
        self.places.objects.reserve(1)
    }

    /// Makes room for one more directory. AllocError comes only where there was none. What stands stays.
    pub fn reserve_directory(&mut self) -> Result<(), AllocError>
        ensures handles { handles_in self.new ≡ handles_in self.old }
        ensures sites { KeepsSites self.old self.new }
        ensures rows { KeepsTable self.old.rows self.new.rows }
        ensures places { KeepsPlaces self.old self.new }
        ensures records { KeepsRecords self.old self.new }
        ensures room { OnOk result (0 < self.new.directories.room) }
        ensures lacking { OnErr result (self.old.directories.room ≡ 0) }
    {
        self.places.directories.reserve(1)
    }

    /// Makes room for one more handle among all. AllocError comes only where there was none. What stands stays.
    pub fn reserve_row(&mut self) -> Result<(), AllocError>
        ensures handles { handles_in self.new ≡ handles_in self.old }
        ensures sites { KeepsSites self.old self.new }
        ensures rows { KeepsTable self.old.rows self.new.rows }
        ensures places { KeepsPlaces self.old self.new }
        ensures records { KeepsRecords self.old self.new }
        ensures room { OnOk result (0 < self.new.rows.room) }
        ensures lacking { OnErr result (self.old.rows.room ≡ 0) }
    {
        self.rows.reserve(1)
    }

    /// Adds an object that handles can be opened on, into room that was made before. Its number is above all so far. There is
    /// room for its first handle. It takes no memory.
    pub fn add_object(&mut self, fresh: NewSite)
        requires room { 0 < self.old.objects.room }
        requires above { self.old.objects.next ≤ fresh.object }
        requires last { fresh.object + 1 < 2 ^ 64 }
        ensures handles { handles_in self.new ≡ handles_in self.old }
        ensures added { site_at (FoundObject fresh.object) self.new ≡ Some fresh.site }
        ensures place { 0 < room_at (FoundObject fresh.object) self.new }
        ensures others { KeepsOthers (FoundObject fresh.object) self.old self.new }
        ensures next { self.new.objects.next ≡ fresh.object + 1 }
        ensures rows { self.new.rows ≡ self.old.rows }
        ensures directories { KeepsTable self.old.directories self.new.directories }
        ensures places { KeepsPlaces self.old self.new }
        ensures records { KeepsRecords self.old self.new }
    {
        let NewSite { object, topic } = fresh;
        self.places.objects.push_reserved(object.number(), topic);
    }

    /// Adds a plain object that handles can be opened on, into room that was made before. Its number is above all so far. Room
    /// for a handle on it is not made. It takes no memory.
    pub fn add_bare_object(&mut self, alloc: Global, object: ObjId, name: Bytes)
        requires room { 0 < self.old.objects.room }
        requires above { self.old.objects.next ≤ object }
        requires last { object + 1 < 2 ^ 64 }
        ensures handles { handles_in self.new ≡ handles_in self.old }
        ensures added { site_at (FoundObject object) self.new ≡ Some (plain_site name) }
        ensures others { KeepsOthers (FoundObject object) self.old self.new }
        ensures next { self.new.objects.next ≡ object + 1 }
        ensures rows { self.new.rows ≡ self.old.rows }
        ensures directories { KeepsTable self.old.directories self.new.directories }
        ensures places { KeepsPlaces self.old self.new }
        ensures records { KeepsRecords self.old self.new }
    {
        let topic = Topic::of_object(alloc, object, name);
        self.places.objects.push_reserved(object.number(), topic);
    }

    /// Adds a directory that handles can be opened on, into room that was made before. Its number is above all so far. It
    /// takes no memory.
    pub fn add_directory(&mut self, alloc: Global, directory: DirId)
        requires room { 0 < self.old.directories.room }
        requires above { self.old.directories.next ≤ directory }
        requires last { directory + 1 < 2 ^ 64 }
        ensures handles { handles_in self.new ≡ handles_in self.old }
        ensures added { site_at (FoundDirectory directory) self.new ≡ Some directory_site }
        ensures others { KeepsOthers (FoundDirectory directory) self.old self.new }
        ensures next { self.new.directories.next ≡ directory + 1 }
        ensures rows { self.new.rows ≡ self.old.rows }
        ensures objects { KeepsTable self.old.objects self.new.objects }
        ensures places { KeepsPlaces self.old self.new }
        ensures records { KeepsRecords self.old self.new }
    {
        let topic = Topic::of_directory(alloc, directory);
        self.places
            .directories
            .push_reserved(directory.number(), topic);
    }

    /// Makes room for one more handle on an object or a directory. Where nothing is there to open on, no room is wanted. What
    /// stands stays.
    ///
    /// AllocError comes only where there was none.
    pub fn reserve_handle(&mut self, found: Found) -> Result<(), AllocError>
        ensures handles { handles_in self.new ≡ handles_in self.old }
        ensures sites { KeepsSites self.old self.new }
        ensures rows { KeepsTable self.old.rows self.new.rows }
        ensures places { KeepsPlaces self.old self.new }
        ensures records { KeepsRecords self.old self.new }
        ensures room { OnOk result (HasSite found self.old → 0 < self.new.rows.room) }
        ensures place { OnOk result (HasSite found self.old → 0 < room_at found self.new) }
        ensures lacking { OnErr result (0 < self.old.rows.room → room_at found self.old ≡ 0) }
    {
        let Some(topic) = self.places.get_mut(found) else {
            return Ok(());
        };
        reserve_in(topic)?;
        self.rows.reserve(1)
    }

    /// Opens a handle on an object or a directory, where there is room for it, and which it suits. Its number is above all so
    /// far. It takes no memory.
    pub fn open(&mut self, found: Found, opening: Opening)
        requires room { 0 < self.old.rows.room }
        requires place { 0 < room_at found self.old }
        requires suits { SuitsAt opening.kind found self.old }
        requires above { self.old.rows.next ≤ opening.number }
        ensures handles { handles_in self.new ≡ with_opened_on found opening self.old }
        ensures sites { KeepsSites self.old self.new }
        ensures next { self.new.rows.next ≡ opening.number + 1 }
    {
        let number = row_number(&opening);
        self.open_row(number, found, opening);
    }

    // Opens a handle under its number.
    fn open_row(&mut self, number: u64, found: Found, opening: Opening)
        requires number { number ≡ opening.number }
        requires last { number + 1 < 2 ^ 64 }
        requires room { 0 < self.old.rows.room }
        requires place { 0 < room_at found self.old }
        requires suits { SuitsAt opening.kind found self.old }
        requires above { self.old.rows.next ≤ opening.number }
        ensures handles { handles_in self.new ≡ with_opened_on found opening self.old }
        ensures sites { KeepsSites self.old self.new }
        ensures next { self.new.rows.next ≡ opening.number + 1 }
    {
        let row = row_of(&found);
        let topic = self.places.known_mut(found);
        open_in(topic, opening);
        self.rows.push_reserved(number, row);
    }

    /// Closes a handle, if it is open. It takes no memory, and room stays.
    pub fn close(&mut self, handle: Handle)
        ensures handles { handles_in self.new ≡ without_number handle (handles_in self.old) }
        ensures sites { KeepsSites self.old self.new }
        ensures rows { KeepsTable self.old.rows self.new.rows }
        ensures places { KeepsPlaces self.old self.new }
        ensures records { KeepsRecords self.old self.new }
    {
        let Some(found) = self.target_of(handle) else {
            return;
        };
        let Some(topic) = self.places.get_mut(found) else {
            return;
        };
        close_in(topic, handle);
        let _row = self.rows.remove(u64::from(handle.number()));
    }

    // Changes a handle, if it is open.
    #[inline(always)]
    fn change(&mut self, handle: Handle, change: Change)
        ensures handles { handles_in self.new ≡ with_changed handle change (handles_in self.old) }
        ensures sites { KeepsSites self.old self.new }
        ensures rows { self.new.rows ≡ self.old.rows }
        ensures places { KeepsPlaces self.old self.new }
    {
        let Some(found) = self.target_of(handle) else {
            return;
        };
        let Some(topic) = self.places.get_mut(found) else {
            return;
        };
        change_in(topic, handle, change);
    }

    /// A handle, if it is open, has read everything. It takes no memory.
    pub fn catch_up(&mut self, handle: Handle)
        ensures handles { handles_in self.new ≡ with_caught_up handle (handles_in self.old) }
        ensures sites { KeepsSites self.old self.new }
        ensures rows { self.new.rows ≡ self.old.rows }
        ensures places { KeepsPlaces self.old self.new }
    {
        self.change(handle, Change::CatchUp);
    }

    /// A handle, if it is open, was given so many of the records that it is owed. It takes no memory.
    pub fn pass(&mut self, handle: Handle, count: usize)
        ensures handles { handles_in self.new ≡ with_passed handle count (handles_in self.old) }
        ensures sites { KeepsSites self.old self.new }
        ensures rows { self.new.rows ≡ self.old.rows }
        ensures places { KeepsPlaces self.old self.new }
    {
        self.change(handle, Change::Pass(count));
    }

    /// A read of that size waits on a handle, or none any more, if the handle is open. It takes no memory.
    pub fn park(&mut self, handle: Handle, size: Option<u32>)
        ensures handles { handles_in self.new ≡ with_parked handle size (handles_in self.old) }
        ensures sites { KeepsSites self.old self.new }
        ensures rows { self.new.rows ≡ self.old.rows }
        ensures places { KeepsPlaces self.old self.new }
    {
        self.change(handle, Change::Park(size));
    }

    /// A pulse waits on a handle, or none any more, if the handle is open. It takes no memory.
    pub fn arm(&mut self, handle: Handle, pulse: Option<Pulse>)
        ensures handles { handles_in self.new ≡ with_armed handle pulse (handles_in self.old) }
        ensures sites { KeepsSites self.old self.new }
        ensures rows { self.new.rows ≡ self.old.rows }
        ensures places { KeepsPlaces self.old self.new }
    {
        self.change(handle, Change::Arm(pulse));
    }

    // The handles of the place where a handle is, if it is open.
    #[inline(always)]
    fn place_of(&self, handle: Handle) -> Option<&Topic>
        ensures { handle_at handle (handles_in self.now) ≡ handle_in_topic handle (option_copied result) }
    {
        let Some(found) = self.rows.get(u64::from(handle.number())) else {
            return None;
        };
        self.places.get(*found)
    }

    /// The size of the read that waits on a handle, if one does.
    pub fn parked(&self, handle: Handle) -> Option<u32>
        ensures { result ≡ parked_at handle (handles_in self.now) }
    {
        match self.place_of(handle) {
            None => None,
            Some(topic) => topic.parked(handle),
        }
    }

    /// The pulse that is armed on a handle, if one is.
    pub fn armed(&self, handle: Handle) -> Option<Pulse>
        ensures { armed_pulse result ≡ armed_at handle (handles_in self.now) }
    {
        match self.place_of(handle) {
            None => None,
            Some(topic) => topic.armed(handle),
        }
    }

    /// The name of an object that handles can be opened on, also of one that is dead. A directory has none.
    #[inline(always)]
    pub fn name_of(&self, found: Found) -> &[u8]
        ensures { result.now ≡ name_at found self.now }
    {
        match self.places.get(found) {
            None => &[],
            Some(topic) => topic.name(),
        }
    }

    /// How many records a handle is owed: none is told where it is not open, in full mode, before the first read and past
    /// the limit.
    pub fn owed(&self, handle: Handle) -> Option<usize>
        ensures { result ≡ owed_at handle (handles_in self.now) }
    {
        match self.place_of(handle) {
            None => None,
            Some(topic) => topic.owed(handle),
        }
    }

    /// Whether the server's handle on a server object, if it is open, is owed as many messages of a client as its limit.
    pub fn is_server_full(&self, object: ObjId, server: Handle, client: Handle) -> bool
        ensures { IfServed object self.now
            (result ≡ is_server_full_at server client (handles_at (FoundObject object) self.now)) }
    {
        match self.places.get(Found::Object(object)) {
            None => false,
            Some(topic) => topic.is_server_full(server, client),
        }
    }

    /// Whether a client's handle on a server object, if it is open, is owed as many messages of its server as its limit.
    pub fn is_client_full(&self, object: ObjId, client: Handle) -> bool
        ensures { IfServed object self.now
            (result ≡ is_client_full_at client (handles_at (FoundObject object) self.now)) }
    {
        match self.places.get(Found::Object(object)) {
            None => false,
            Some(topic) => topic.is_client_full(client),
        }
    }

    /// The first client on a server object, in rising number, that is owed as many messages of its server as its limit. It
    /// looks at the handles on that object alone.
    pub fn full_client(&self, object: ObjId) -> Option<Handle>
        ensures { IfServed object self.now
            (result ≡ full_client_in (handles_at (FoundObject object) self.now)) }
    {
        match self.places.get(Found::Object(object)) {
            None => None,
            Some(topic) => topic.full_client(),
        }
    }

    // Whom records wake of the handles on an object or a directory.
    #[inline(always)]
    fn woken_at(
        &self,
        alloc: Global,
        found: Found,
        entries: &[Entry],
    ) -> Result<Vec<Handle>, AllocError>
        ensures { IfOk result (λ w. w.items ≡ woken_by entries.now (handles_at found self.now)) }
    {
        match self.places.get(found) {
            None => Ok(Vec::new(alloc)),
            Some(topic) => topic.woken_by(alloc, entries),
        }
    }

    // Whom a record wakes.
    #[inline(always)]
    fn woken_by_one(&self, alloc: Global, entry: &Entry) -> Result<Vec<Handle>, AllocError>
        ensures { IfOk result (λ w. w.items ≡ woken_by (entry.now ∷ []) (handles_in self.now)) }
    {
        self.handles_are_placed();
        let object = Found::Object(entry.record().object);
        let directory = Found::Directory(DirId::new(entry.directory()));
        let entries = std::slice::from_ref(entry);
        let on_object = self.woken_at(alloc, object, entries)?;
        let on_directory = self.woken_at(alloc, directory, entries)?;
        unite(alloc, on_object, on_directory)
    }

    /// The handles that these records wake, in rising number: a read or a pulse waits on each, and it has had no news until
    /// one of them, which it sees. It looks at the handles on each record's object and on its directory, and changes nothing.
    ///
    /// AllocError comes only where memory is wanting.
    pub fn woken_by(&self, alloc: Global, entries: &[Entry]) -> Result<Vec<Handle>, AllocError>
        ensures { IfOk result (λ w. w.items ≡ woken_by entries.now (handles_in self.now)) }
    {
        self.handles_are_placed();
        let mut woken = Vec::new(alloc);
        for entry in entries {
            let more = self.woken_by_one(alloc, entry)?;
            woken = unite(alloc, woken, more)?;
        }
        Ok(woken)
    }

    /// Whether no handle is on an object or a directory.
    pub fn is_unused(&self, found: Found) -> bool
        ensures { IsTrue result ↔ (filter (is_on found) (handles_in self.now) ≡ []) }
    {
        match self.places.get(found) {
            None => true,
            Some(topic) => topic.is_empty(),
        }
    }

    /// Whether a handle is on an object or a directory.
    pub fn has_handles(&self, found: Found) -> bool
        ensures { IsTrue result ↔ (filter (is_on found) (handles_in self.now) ≢ []) }
    {
        !self.is_unused(found)
    }

    /// Does nothing. Its contract is the law that the handles on an object or a directory are those of its place, and that the
    /// numbers of all handles rise, below the next one.
    pub fn handles_are_placed(&self)
        ensures placed { HasEachInPlace self.now }
        ensures rise { RiseBetween 0 (map (λ handle. handle.number) (handles_in self.now)) self.now.rows.next }
    {
        let _count = self.rows.len();
    }

    /// Does nothing. Its contract is the law that the numbers of objects and those of directories rise, below the next ones.
    pub fn places_rise(&self)
        ensures objects { HasRisingNumbers self.now.objects }
        ensures directories { HasRisingNumbers self.now.directories }
    {
        let _count = self.rows.len();
    }

    /// Does nothing. Its contract is the law that just those records are held for the readers of each object and directory that
    /// have to be kept: the longest rest that a handle on it is owed.
    pub fn is_exact(&self)
        ensures { HoldsJustWhatIsOwed self.now }
    {
        let _count = self.rows.len();
    }

    /// How many records are held for the readers of an object or a directory.
    pub fn kept(&self, found: Found) -> usize
        ensures { result ≡ length (kept_at found self.now) }
    {
        match self.places.get(found) {
            None => 0,
            Some(topic) => topic.kept(),
        }
    }

    /// Drops an object on which no handle is. Otherwise nothing changes. It takes no memory.
    pub fn drop_object(&mut self, object: ObjId)
        ensures handles { handles_in self.new ≡ handles_in self.old }
        ensures gone { GoesIfUnused (FoundObject object) self.old self.new }
        ensures used { StaysIfUsed (FoundObject object) self.old self.new }
        ensures others { KeepsOthers (FoundObject object) self.old self.new }
        ensures rows { self.new.rows ≡ self.old.rows }
        ensures objects { KeepsTable self.old.objects self.new.objects }
        ensures directories { self.new.directories ≡ self.old.directories }
        ensures records { KeepsRecords self.old self.new }
    {
        drop_unused(&mut self.places.objects, object.number());
    }

    /// Drops a directory on which no handle is. Otherwise nothing changes. It takes no memory.
    pub fn drop_directory(&mut self, directory: DirId)
        ensures handles { handles_in self.new ≡ handles_in self.old }
        ensures gone { GoesIfUnused (FoundDirectory directory) self.old self.new }
        ensures used { StaysIfUsed (FoundDirectory directory) self.old self.new }
        ensures others { KeepsOthers (FoundDirectory directory) self.old self.new }
        ensures rows { self.new.rows ≡ self.old.rows }
        ensures objects { self.new.objects ≡ self.old.objects }
        ensures directories { KeepsTable self.old.directories self.new.directories }
        ensures records { KeepsRecords self.old self.new }
    {
        drop_unused(&mut self.places.directories, directory.number());
    }

    /// What the open of a handle fixed, and what it is on, if it is open.
    #[inline(always)]
    pub fn opening(&self, handle: Handle) -> Option<Opened<'_>>
        ensures { ShowsOpening handle self.now result }
    {
        let Some(found) = self.rows.get(u64::from(handle.number())) else {
            return None;
        };
        let Some(topic) = self.places.get(*found) else {
            return None;
        };
        let Some(opening) = topic.opening(handle) else {
            return None;
        };
        Some(Opened {
            found: *found,
            opening,
        })
    }

    /// What is seen of a handle at one look, if it is open. What a read gives of what it is owed is asked of the handles there.
    #[inline(always)]
    pub fn look(&self, handle: Handle) -> Option<Looked<'_>>
        ensures glance { ShowsGlance handle self.now result }
        ensures topic { IfSome result (λ o. IsPlaceOf handle self.now o.topic.now) }
        ensures name { IfSome result (λ o. name_of o.topic.now ≡ name_at o.found self.now) }
    {
        let Some(found) = self.rows.get(u64::from(handle.number())) else {
            return None;
        };
        let Some(topic) = self.places.get(*found) else {
            return None;
        };
        let Some(glance) = topic.glance(handle) else {
            return None;
        };
        Some(Looked {
            found: *found,
            topic,
            glance,
        })
    }

    /// A record with shares of it for all handles that it is told to.
    ///
    /// AllocError comes only where memory is wanting.
    #[inline(always)]
    pub fn shares(&self, alloc: Global, entry: Entry) -> Result<SharedRecord, AllocError>
        ensures entry { IfOk result (λ told. told.entry ≡ entry) }
        ensures enough { IfOk result (λ told. IsShared told.count told.entry self.now) }
    {
        self.handles_are_placed();
        let is_used = self.has_handles(Found::Directory(DirId::new(entry.directory())));
        let for_object = self.shares_for(alloc, entry)?;
        SharedRecord::new(for_object, is_used)
    }

    // Shares for the handles on a record's object.
    #[inline(always)]
    fn shares_for(&self, alloc: Global, entry: Entry) -> Result<Shares, AllocError>
        ensures entry { IfOk result (λ shares. shares.entry ≡ entry) }
        ensures enough { IfOk result (λ shares. IsSharedAt shares.count shares.entry
            (FoundObject shares.entry.record_of.object) self.now) }
    {
        let object = entry.record().object;
        match self.places.get(Found::Object(object)) {
            None => Ok(Shares::alone(entry)),
            Some(topic) => topic.shares(alloc, entry),
        }
    }

    // Offers a record on an object or a directory.
    #[inline(always)]
    fn offer_at(&mut self, found: Found, shares: Shares)
        requires told { is_told found shares.entry ≡ true }
        requires room { HasRoomIn (shares.entry ∷ []) found self.old }
        requires enough { IsObject found → IsSharedAt shares.count shares.entry found self.old }
        ensures handles { handles_at found self.new
            ≡ map (offer shares.entry) (handles_at found self.old) }
        ensures others { KeepsOthers found self.old self.new }
        ensures sites { KeepsSites self.old self.new }
        ensures rows { self.new.rows ≡ self.old.rows }
        ensures places { KeepsPlaces self.old self.new }
        ensures records { UsesRoomIn shares.entry found self.old self.new }
    {
        let Some(topic) = self.places.get_mut(found) else {
            return;
        };
        offer_in(topic, shares);
    }

    /// Offers all handles a record, for which there is room, and of which there are shares enough: each that sees it is owed it
    /// from then on, or has news, or is past its limit. It takes no memory, and looks at each handle on its object and on its
    /// directory once.
    #[inline(always)]
    pub fn offer(&mut self, told: SharedRecord)
        requires room { HasRoom (told.entry ∷ []) self.old }
        requires enough { IsShared told.count told.entry self.old }
        ensures handles { handles_in self.new ≡ map (offer told.entry) (handles_in self.old) }
        ensures sites { KeepsSites self.old self.new }
        ensures rows { self.new.rows ≡ self.old.rows }
        ensures places { KeepsPlaces self.old self.new }
        ensures records { UsesRoom told.entry self.old self.new }
    {
        let _count = self.rows.len();
        let SharedRecord {
            for_object,
            for_directory,
        } = told;
        let object = for_object.entry().record().object;
        self.offer_at(Found::Object(object), for_object);
        let Some(entry) = for_directory else {
            return;
        };
        let directory = DirId::new(entry.directory());
        self.offer_at(Found::Directory(directory), Shares::alone(entry));
    }

    // Makes room for records in one place, if handles are there, and reports whether they are.
    #[inline(always)]
    fn reserve_at(&mut self, found: Found, entries: &[Entry]) -> Result<bool, AllocError>
        ensures reserved { IsReserved self.old self.new }
        ensures ready { OnOk result (IsReadyAt entries.now found self.new) }
        ensures used { IfOk result (λ used. IsTrue used ↔ (0 < length (handles_at found self.new))) }
    {
        let Some(topic) = self.places.get_mut(found) else {
            return Ok(false);
        };
        reserve_records_in(topic, entries)
    }

    // Makes room for records wherever one of them is told.
    #[inline(always)]
    fn reserve_for(&mut self, entry: &Entry, entries: &[Entry]) -> Result<(), AllocError>
        ensures reserved { IsReserved self.old self.new }
        ensures ready { OnOk result (IsReadyFor entries.now self.new entry.now) }
    {
        self.reserve_at(Found::Object(entry.record().object), entries)?;
        self.reserve_at(Found::Directory(DirId::new(entry.directory())), entries)?;
        Ok(())
    }

    // The same, unless it is made since the record before it is of the same object: so many records of one object cost no
    // more than one pass over its handles.
    #[inline(always)]
    fn reserve_next(
        &mut self,
        before: Option<&Entry>,
        entry: &Entry,
        entries: &[Entry],
    ) -> Result<(), AllocError>
        requires { IfSome before (λ e. IsReadyFor entries.now self.old e.now) }
        ensures reserved { IsReserved self.old self.new }
        ensures ready { OnOk result (IsReadyFor entries.now self.new entry.now) }
    {
        if let Some(before) = before {
            if is_of_same(before, entry) {
                return Ok(());
            }
        }
        self.reserve_for(entry, entries)
    }

    // Makes room for a record in the place of its object, and shares of it for the handles there.
    #[inline(always)]
    fn shares_ready(&mut self, alloc: Global, entry: Entry) -> Result<Shares, AllocError>
        ensures reserved { IsReserved self.old self.new }
        ensures ready { OnOk result
            (IsReadyAt (entry ∷ []) (FoundObject entry.record_of.object) self.new) }
        ensures entry { IfOk result (λ shares. shares.entry ≡ entry) }
        ensures enough { IfOk result (λ shares. IsSharedAt shares.count shares.entry
            (FoundObject shares.entry.record_of.object) self.new) }
    {
        let object = Found::Object(entry.record().object);
        let Some(topic) = self.places.get_mut(object) else {
            return Ok(Shares::alone(entry));
        };
        shares_in(topic, alloc, entry)
    }

    /// Makes room for a record, and shares of it for all handles that it is told to. What is there stays, and so does room that
    /// was made before.
    ///
    /// AllocError comes only where memory is wanting, and leaves what is there as it was.
    pub fn tell_ready(&mut self, alloc: Global, entry: Entry) -> Result<SharedRecord, AllocError>
        ensures handles { handles_in self.new ≡ handles_in self.old }
        ensures sites { KeepsSites self.old self.new }
        ensures rows { self.new.rows ≡ self.old.rows }
        ensures places { KeepsPlaces self.old self.new }
        ensures records { KeepsRecords self.old self.new }
        ensures room { OnOk result (HasRoom (entry ∷ []) self.new) }
        ensures entry { IfOk result (λ told. told.entry ≡ entry) }
        ensures enough { IfOk result (λ told. IsShared told.count told.entry self.new) }
    {
        let directory = Found::Directory(DirId::new(entry.directory()));
        let is_used = self.reserve_at(directory, std::slice::from_ref(&entry))?;
        self.handles_are_placed();
        let for_object = self.shares_ready(alloc, entry)?;
        self.handles_are_placed();
        SharedRecord::new(for_object, is_used)
    }

    /// Makes room for records that are told one after the other. What stands stays, and so does room that was made before.
    ///
    /// AllocError comes only where memory is wanting, and leaves what stands as it was.
    pub fn reserve_records(&mut self, entries: &[Entry]) -> Result<(), AllocError>
        ensures handles { handles_in self.new ≡ handles_in self.old }
        ensures sites { KeepsSites self.old self.new }
        ensures rows { self.new.rows ≡ self.old.rows }
        ensures places { KeepsPlaces self.old self.new }
        ensures records { KeepsRecords self.old self.new }
        ensures room { OnOk result (HasRoom entries.now self.new) }
    {
        let mut before = None;
        for entry in entries {
            self.reserve_next(before, entry, entries)?;
            before = Some(entry);
        }
        Ok(())
    }
}
