//! Changes of one handle, and of the connection that it belongs to. None takes memory.
ghost use Rattle.std.specs.Prelude.{◌≡◌, ◌∷◌, [], true, false, Some, None, IsSome};
ghost use Rattle.pps_types.specs.Plan.{CatchesUp, Advances, Parks, Arms, Takes};
ghost use Rattle.notify_box.specs.Standing.{CanArm, CanPark};
ghost use Rattle.open_handles.specs.Whole.{KeepsRecords};
ghost use Rattle.service_state.specs.Moves.{closing, firing, finishing};
ghost use Rattle.service_state.specs.Tied.{Moves, KeepsHandleRoom};
ghost use Rattle.service_state.specs.Refused.{own_handle_in, parked_in, is_parked_in, armed_in, is_armed_in};

use crate::tables::Tables;
use notify_box::{connections_are_found, connections_are_told, premises_stay};
use pps_types::{Conn, Handle, Refusal, SharedBytes};
use sub_reader::Pulse;

impl Tables {
    /// A handle has read everything.
    pub fn catch_up(&mut self, handle: Handle)
        ensures { Moves (CatchesUp handle ∷ []) self.old self.new }
    {
        connections_are_found();
        connections_are_told();
        self.handles.catch_up(handle);
    }

    /// A handle was given so many of the records that it is owed.
    pub fn pass(&mut self, handle: Handle, count: usize)
        ensures { Moves (Advances handle count ∷ []) self.old self.new }
    {
        connections_are_found();
        connections_are_told();
        self.handles.pass(handle, count);
    }

    /// A read of that size waits on a handle of the connection, on which none waits.
    pub fn park(&mut self, conn: Conn, handle: Handle, size: u32)
        requires own { parked_in self.old conn handle ≡ Some None }
        requires room { CanPark conn handle self.old.connections }
        ensures { Moves (Parks handle (Some size) ∷ []) self.old self.new }
    {
        connections_are_found();
        connections_are_told();
        premises_stay();
        self.handles.handles_are_placed();
        self.handles.park(handle, Some(size));
        self.connections.park(conn, handle);
    }

    /// A pulse is armed on a handle of the connection, in place of the one that is armed on it.
    pub fn arm(&mut self, conn: Conn, handle: Handle, pulse: Pulse)
        requires own { IsSome (own_handle_in self.old conn handle) }
        requires room { CanArm conn handle self.old.connections }
        ensures { Moves (Arms handle (Some (pulse.code, pulse.value)) ∷ []) self.old self.new }
    {
        connections_are_found();
        connections_are_told();
        premises_stay();
        self.handles.handles_are_placed();
        self.handles.arm(handle, Some(pulse));
        self.connections.arm(conn, handle, pulse.code, pulse.value);
    }

    /// No pulse is armed on a handle of the connection any more.
    pub fn disarm(&mut self, conn: Conn, handle: Handle)
        requires { IsSome (own_handle_in self.old conn handle) }
        ensures { Moves (Arms handle None ∷ []) self.old self.new }
    {
        connections_are_found();
        connections_are_told();
        premises_stay();
        self.handles.handles_are_placed();
        self.handles.arm(handle, None);
        self.connections.disarm(conn, handle);
    }

    /// Does nothing. Its contract is the law that all stays as it is where no pulse is armed on a handle of the connection and
    /// none is to be armed.
    #[inline(always)]
    pub fn still_unarmed(&self, conn: Conn, handle: Handle)
        requires { is_armed_in self.now conn handle ≡ Some false }
        ensures { Moves (Arms handle None ∷ []) self.now self.now }
    {
        let _own = (conn, handle);
        self.handles.handles_are_placed();
    }

    /// The pulse that is armed on a handle of the connection is queued, and is armed no more.
    pub fn fire(&mut self, conn: Conn, handle: Handle, pulse: Pulse)
        requires { armed_in self.old conn handle ≡ Some (Some (pulse.code, pulse.value)) }
        ensures { Moves (firing conn handle (pulse.code, pulse.value)) self.old self.new }
    {
        connections_are_found();
        connections_are_told();
        premises_stay();
        self.handles.handles_are_placed();
        self.handles.arm(handle, None);
        self.connections.fire(conn, handle);
    }

    /// The read that waits on a handle of the connection has its reply, which is queued.
    pub fn finish(&mut self, conn: Conn, handle: Handle, reply: Result<SharedBytes, Refusal>)
        requires { is_parked_in self.old conn handle ≡ Some true }
        ensures { Moves (finishing conn handle reply) self.old self.new }
    {
        connections_are_found();
        connections_are_told();
        premises_stay();
        self.handles.handles_are_placed();
        self.handles.park(handle, None);
        self.connections.finish(conn, handle, reply);
    }

    /// A handle of the connection closes. The read that waits on it ends, where one does.
    pub fn close(&mut self, conn: Conn, handle: Handle, is_parked: bool)
        requires { is_parked_in self.old conn handle ≡ Some is_parked }
        ensures moves { Moves (closing conn handle is_parked) self.old self.new }
        ensures room { KeepsHandleRoom self.old self.new }
        ensures records { KeepsRecords self.old.handles self.new.handles }
        ensures names { self.new.names ≡ self.old.names }
    {
        connections_are_found();
        connections_are_told();
        premises_stay();
        self.handles.handles_are_placed();
        self.handles.close(handle);
        self.connections.disarm(conn, handle);
        self.connections.end_parked(conn, handle);
        self.connections.closed(conn, handle);
    }

    /// The first item of a connection is received, if there is one.
    pub fn take(&mut self, conn: Conn)
        ensures { Moves (Takes conn ∷ []) self.old self.new }
    {
        connections_are_found();
        connections_are_told();
        premises_stay();
        let _item = self.connections.take(conn);
    }
}
