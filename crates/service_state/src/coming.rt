//! Handles and connections that come and go. None takes memory.
ghost use Rattle.std.specs.Prelude.{◌≡◌, ◌<◌, ◌≤◌, ◌∷◌, [], false};
ghost use Rattle.pps_types.specs.Content as content;
ghost use Rattle.pps_types.specs.Plan as planning;
ghost use Rattle.pps_types.specs.Outbox.{empty_outbox};
ghost use Rattle.open_handles.specs.Whole.{SuitsAt, room_at};
ghost use Rattle.notify_box.specs.Standing.{HasHandleRoom};
ghost use Rattle.notify_box.specs.Connections.{AreOwned};
ghost use Rattle.service_state.specs.Tables.{content_in};
ghost use Rattle.service_state.specs.Moves.{opening_on};
ghost use Rattle.service_state.specs.Tied.{Moves};

use crate::tables::Tables;
use notify_box::{Outbox, connections_are_found, connections_are_told, premises_stay};
use pps_types::{Conn, Found};
use sub_reader::Opening;

impl Tables {
    /// A handle opens on an object or a directory, for which there is room.
    pub fn open(&mut self, found: Found, opening: Opening)
        requires number { opening.number ≡ (content_in self.old).next_handle }
        requires room { 0 < self.old.handles.rows.room }
        requires place { 0 < room_at found self.old.handles }
        requires suits { SuitsAt opening.kind found self.old.handles }
        requires connection { HasHandleRoom opening.connection 1 self.old.connections }
        ensures { Moves (opening_on found opening self.old) self.old self.new }
    {
        connections_are_found();
        connections_are_told();
        premises_stay();
        self.handles.handles_are_placed();
        let conn = opening.connection;
        let number = opening.number;
        self.handles.open(found, opening);
        self.connections.opened(conn, number);
    }

    /// A connection attaches, with an outbox that is empty.
    pub fn attach(&mut self, conn: Conn, outbox: Outbox)
        requires low { 1 ≤ conn }
        requires high { conn < 1025 }
        requires absent { content.is_attached (content_in self.old) conn ≡ false }
        requires owned { AreOwned (content_in self.old) }
        requires empty { outbox.outbox ≡ empty_outbox }
        requires room { 0 < self.old.connections.room }
        ensures { Moves (planning.Attaches conn ∷ []) self.old self.new }
    {
        connections_are_found();
        connections_are_told();
        premises_stay();
        self.connections.attach(conn, outbox);
    }

    /// A connection leaves, and what it has to come goes with it.
    pub fn leave(&mut self, conn: Conn)
        ensures { Moves (planning.Leaves conn ∷ []) self.old self.new }
    {
        connections_are_found();
        connections_are_told();
        premises_stay();
        self.connections.leave(conn);
    }
}
