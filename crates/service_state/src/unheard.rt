//! Changes that nobody can be told of.
ghost use Rattle.std.specs.Prelude.{◌≡◌, ◌+◌, ◌<◌, ◌^◌, []};
ghost use Rattle.name_table.specs.Standing.{AreReadyIn};
ghost use Rattle.open_handles.specs.Whole.{handles_in};
ghost use Rattle.service_state.specs.Lines.{ChangesBy};

use crate::tables::Tables;
use name_table::moves_are_told;
use notify_box::{connections_are_found, connections_are_told};
use pps_types::{HeldLine, ObjId};

impl Tables {
    /// An object is changed by these lines, which were made ready for it, and no handle is open that could be told of it: the
    /// record is not made. It takes no memory.
    pub fn change_unheard(&mut self, object: ObjId, lines: &[HeldLine])
        requires lines { AreReadyIn object lines.now self.old.names }
        requires nobody { handles_in self.old.handles ≡ [] }
        requires last { self.old.records + 1 < 2 ^ 64 }
        ensures moves { ChangesBy object lines.now self.old self.new }
    {
        connections_are_found();
        connections_are_told();
        moves_are_told();
        self.names.change(object, lines);
        self.records += 1;
    }
}
