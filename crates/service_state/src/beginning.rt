//! What an event begins with, carried out. It takes no memory.
ghost use Rattle.std.specs.Prelude.{◌∷◌, []};
ghost use Rattle.std.specs.List.{flat_map, list_all};
ghost use Rattle.open_handles.specs.Whole.{HasEachInPlace};
ghost use Rattle.service_state.specs.Beginning.{moves_of, AreReady, LeavesReady, is_keeping};
ghost use Rattle.service_state.specs.Tied.{Moves, KeepsOpeningsIf, KeepsSitesIf};

use crate::tables::Tables;
use open_handles::SharedRecord;
use pps_types::{Conn, Handle};

/// What an event begins with.
#[derive(Drop)]
pub enum Beginning {
    /// A handle closes. Its pulse is armed no more, and the read that waits on it ends, where one does.
    Closes {
        conn: Conn,
        handle: Handle,
        is_parked: bool,
    },
    /// A record happens to an alive object.
    AppendsRecord(SharedRecord),
}

impl Tables {
    // Does nothing. Its contract is the law that the handles of each place are those of all that are on it.
    fn handles_are_placed(&self)
        ensures { HasEachInPlace self.now.handles }
    {
        self.handles.handles_are_placed();
    }

    /// One step that an event begins with.
    pub fn begin(&mut self, beginning: Beginning)
        requires { AreReady (beginning ∷ []) self.old }
        ensures moves { Moves (moves_of beginning) self.old self.new }
        ensures ready { LeavesReady beginning self.old self.new }
        ensures opens { KeepsOpeningsIf (is_keeping beginning) self.old self.new }
        ensures sites { KeepsSitesIf (is_keeping beginning) self.old self.new }
    {
        self.handles_are_placed();
        match beginning {
            Beginning::Closes {
                conn,
                handle,
                is_parked,
            } => {
                self.close(conn, handle, is_parked);
                self.handles_are_placed();
            }
            Beginning::AppendsRecord(told) => {
                self.happen(told);
                self.handles_are_placed();
            }
        }
    }

    /// The steps that an event begins with, one after the other.
    pub fn begin_all(&mut self, beginning: Vec<Beginning>)
        requires { AreReady beginning.items self.old }
        ensures moves { Moves (flat_map moves_of beginning.items) self.old self.new }
        ensures opens { KeepsOpeningsIf (list_all is_keeping beginning.items) self.old self.new }
        ensures sites { KeepsSitesIf (list_all is_keeping beginning.items) self.old self.new }
    {
        'beginning: for each in beginning {
            self.begin(each);
        }
    }
}
