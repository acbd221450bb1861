//! Memory that is taken ahead. What stands stays.
ghost use Rattle.std.specs.Prelude.{◌≡◌, ◌<◌, ◌∷◌, [], None, IfOk, OnOk, IfErr};
ghost use Rattle.pps_types.specs.Names.{add_refusal, mkdir_refusal};
ghost use Rattle.pps_types.specs.declared.refusal.Refusal.TheVariants.{OutOfMemory};
ghost use Rattle.pps_types.specs.Refused.{IsRefusedAs, LacksMemory};
ghost use Rattle.notify_box.specs.Connections.{AreOwned};
ghost use Rattle.name_table.specs.Standing.{AreReadyFor, AreSame, IsReadyToCreate, IsReadyToMake};
ghost use Rattle.open_handles.specs.Whole.{HasRoom, IsShared, KeepsSites, KeepsTable, KeepsPlaces, KeepsRecords, handles_in};
ghost use Rattle.notify_box.specs.Standing.{CanArm, CanPark, HasHandleRoom};
ghost use Rattle.service_state.specs.Tables.{content_in};
ghost use Rattle.service_state.specs.Tied.{KeepsHandleRoom};
ghost use Rattle.service_state.specs.Places.{GivesRowRoom, GivesPlaceRoom};
ghost use Rattle.service_state.specs.Refused.{IsRefusedAtLimits, arm_refusal_in, park_refusal_in};

use crate::tables::Tables;
use notify_box::connections_are_found;
use open_handles::{Handles, SharedRecord};
use pps_types::{Bytes, Conn, Found, Handle, HeldLine, ObjId, Refusal};
use server_queue::Entry;
use std::alloc::{AllocError, Global};

impl Tables {
    /// Takes the memory for one more connection. OutOfMemory is the only error.
    pub fn attach_ready(&mut self) -> Result<(), Refusal>
        ensures content { content_in self.new ≡ content_in self.old }
        ensures names { self.new.names ≡ self.old.names }
        ensures handles { self.new.handles ≡ self.old.handles }
        ensures ok { OnOk result (0 < self.new.connections.room) }
        ensures err { IfErr result (λ r. r ≡ OutOfMemory) }
    {
        connections_are_found();
        self.connections.attach_ready()
    }

    /// Takes the memory to arm a pulse on a handle of a connection.
    ///
    /// It is OutboxFull where the connection's items, armed pulses and parked reads are 1,024 without the handle's own
    /// armed pulse, and else OutOfMemory is the only error. Arming anew takes no memory.
    pub fn arm_ready(&mut self, conn: Conn, handle: Handle) -> Result<(), Refusal>
        requires { AreOwned (content_in self.old) }
        ensures content { content_in self.new ≡ content_in self.old }
        ensures names { self.new.names ≡ self.old.names }
        ensures handles { self.new.handles ≡ self.old.handles }
        ensures refusal { IsRefusedAs result (arm_refusal_in self.old conn handle) }
        ensures free { LacksMemory result → arm_refusal_in self.old conn handle ≡ None }
        ensures ok { OnOk result (CanArm conn handle self.new.connections) }
    {
        connections_are_found();
        self.connections.arm_ready(conn, handle)
    }

    /// Takes the memory to park a read on a handle of a connection.
    ///
    /// It is ReadPending where a read is parked on the handle, then OutboxFull where the connection's items, armed pulses
    /// and parked reads are 1,024, and else OutOfMemory is the only error.
    pub fn park_ready(&mut self, conn: Conn, handle: Handle) -> Result<(), Refusal>
        requires { AreOwned (content_in self.old) }
        ensures content { content_in self.new ≡ content_in self.old }
        ensures names { self.new.names ≡ self.old.names }
        ensures handles { self.new.handles ≡ self.old.handles }
        ensures refusal { IsRefusedAs result (park_refusal_in self.old conn handle) }
        ensures free { LacksMemory result → park_refusal_in self.old conn handle ≡ None }
        ensures ok { OnOk result (CanPark conn handle self.new.connections) }
    {
        connections_are_found();
        self.connections.park_ready(conn, handle)
    }

    /// Takes the memory for one more handle of a connection on an object or a directory. OutOfMemory is the only error.
    pub fn open_ready(&mut self, found: Found, conn: Conn) -> Result<(), Refusal>
        ensures content { content_in self.new ≡ content_in self.old }
        ensures names { self.new.names ≡ self.old.names }
        ensures room { OnOk result (GivesRowRoom found self.old.handles self.new.handles) }
        ensures place { OnOk result (GivesPlaceRoom found self.old.handles self.new.handles) }
        ensures connection { OnOk result (HasHandleRoom conn 1 self.new.connections) }
        ensures kept { KeepsHandleRoom self.old self.new }
        ensures records { KeepsRecords self.old.handles self.new.handles }
        ensures err { IfErr result (λ r. r ≡ OutOfMemory) }
    {
        connections_are_found();
        self.handles.reserve_handle(found)?;
        self.connections.open_ready(conn)
    }

    /// Takes the memory for records that are told one after the other. OutOfMemory is the only error.
    #[inline(always)]
    pub fn records_ready(&mut self, entries: &[Entry]) -> Result<(), Refusal>
        ensures content { content_in self.new ≡ content_in self.old }
        ensures names { self.new.names ≡ self.old.names }
        ensures connections { self.new.connections ≡ self.old.connections }
        ensures room { OnOk result (HasRoom entries.now self.new.handles) }
        ensures kept { KeepsHandleRoom self.old self.new }
        ensures records { KeepsRecords self.old.handles self.new.handles }
        ensures err { IfErr result (λ r. r ≡ OutOfMemory) }
    {
        connections_are_found();
        self.handles.reserve_records(entries)?;
        Ok(())
    }

    /// Takes the memory for a record that is to be told. OutOfMemory is the only error.
    #[inline(always)]
    pub fn tell_ready(&mut self, alloc: Global, entry: Entry) -> Result<SharedRecord, Refusal>
        ensures content { content_in self.new ≡ content_in self.old }
        ensures names { self.new.names ≡ self.old.names }
        ensures connections { self.new.connections ≡ self.old.connections }
        ensures kept { KeepsHandleRoom self.old self.new }
        ensures entry { IfOk result (λ told. told.entry ≡ entry) }
        ensures room { OnOk result (HasRoom (entry ∷ []) self.new.handles) }
        ensures shared { IfOk result (λ told. IsShared told.count entry self.new.handles) }
        ensures err { IfErr result (λ r. r ≡ OutOfMemory) }
    {
        connections_are_found();
        Ok(self.handles.tell_ready(alloc, entry)?)
    }

    /// Takes the memory for lines that change an object.
    ///
    /// It is TooLarge exactly where the object would pass a limit of objects after all of these lines. Else OutOfMemory is
    /// the only error. Where there is no such object, nothing is wanted.
    #[inline(always)]
    pub fn change_ready(&mut self, object: ObjId, lines: &[HeldLine]) -> Result<(), Refusal>
        ensures content { content_in self.new ≡ content_in self.old }
        ensures handles { self.new.handles ≡ self.old.handles }
        ensures connections { self.new.connections ≡ self.old.connections }
        ensures refusal { IsRefusedAtLimits result object lines.now self.old.names }
        ensures ok { OnOk result (AreReadyFor object lines.now self.new.names) }
        ensures kept { AreSame self.old.names self.new.names }
    {
        connections_are_found();
        self.names.change_ready(object, lines)
    }

    /// Takes the memory for a new object at a path, and for a handle on it.
    ///
    /// It is refused as a new object in a tree of names is, and else OutOfMemory is the only error.
    pub fn create_ready(&mut self, path: &[Bytes]) -> Result<(), Refusal>
        ensures content { content_in self.new ≡ content_in self.old }
        ensures connections { self.new.connections ≡ self.old.connections }
        ensures refusal { IsRefusedAs result (add_refusal self.old.names.tree.map path.now) }
        ensures ready { OnOk result (IsReadyToCreate self.new.names path.now) }
        ensures place { OnOk result (0 < self.new.handles.objects.room) }
        ensures room { OnOk result (0 < self.new.handles.rows.room) }
        ensures kept { KeepsHandleRoom self.old self.new }
        ensures records { KeepsRecords self.old.handles self.new.handles }
    {
        connections_are_found();
        self.names.create_ready(path)?;
        Ok(object_ready(&mut self.handles)?)
    }

    /// Takes the memory for an object that takes another's place, and for a handle on it. OutOfMemory is the only error.
    pub fn replace_ready(&mut self) -> Result<(), Refusal>
        ensures content { content_in self.new ≡ content_in self.old }
        ensures tree { self.new.names.tree ≡ self.old.names.tree }
        ensures connections { self.new.connections ≡ self.old.connections }
        ensures objects { OnOk result (0 < self.new.names.objects.room) }
        ensures place { OnOk result (0 < self.new.handles.objects.room) }
        ensures room { OnOk result (0 < self.new.handles.rows.room) }
        ensures kept { KeepsHandleRoom self.old self.new }
        ensures records { KeepsRecords self.old.handles self.new.handles }
        ensures err { IfErr result (λ r. r ≡ OutOfMemory) }
    {
        connections_are_found();
        self.names.replace_ready()?;
        Ok(object_ready(&mut self.handles)?)
    }

    /// Takes the memory for a new directory at a path.
    ///
    /// It is refused as a new directory in a tree of names is, and else OutOfMemory is the only error.
    pub fn make_directory_ready(&mut self, path: &[Bytes]) -> Result<(), Refusal>
        ensures content { content_in self.new ≡ content_in self.old }
        ensures connections { self.new.connections ≡ self.old.connections }
        ensures refusal { IsRefusedAs result (mkdir_refusal self.old.names.tree.map path.now) }
        ensures ready { OnOk result (IsReadyToMake self.new.names path.now) }
        ensures place { OnOk result (0 < self.new.handles.directories.room) }
        ensures kept { KeepsHandleRoom self.old self.new }
        ensures records { KeepsRecords self.old.handles self.new.handles }
    {
        connections_are_found();
        self.names.make_directory_ready(path)?;
        Ok(self.handles.reserve_directory()?)
    }
}

// Room for one more object, and for one more handle among all.
fn object_ready(handles: &mut Handles) -> Result<(), AllocError>
    ensures handles { handles_in handles.new ≡ handles_in handles.old }
    ensures sites { KeepsSites handles.old handles.new }
    ensures rows { KeepsTable handles.old.rows handles.new.rows }
    ensures places { KeepsPlaces handles.old handles.new }
    ensures records { KeepsRecords handles.old handles.new }
    ensures place { OnOk result (0 < handles.new.objects.room) }
    ensures room { OnOk result (0 < handles.new.rows.room) }
{
    handles.reserve_object()?;
    handles.reserve_row()
}
