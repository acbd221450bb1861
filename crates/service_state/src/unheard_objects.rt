//! Objects that are created where nobody can be told of it. It takes no memory.
ghost use Rattle.std.specs.Prelude.{◌≡◌, ◌∷◌, []};
ghost use Rattle.pps_types.specs.Plan.{Creates};
ghost use Rattle.service_state.specs.Objects.{plain_object, CanCreateUnheard};
ghost use Rattle.service_state.specs.Tied.{Moves};

use crate::tables::Tables;
use name_table::moves_are_told;
use notify_box::{connections_are_found, connections_are_told};
use pps_types::{Bytes, DirId};

impl Tables {
    /// A plain object is created at a path, under its name, where no handle is open that could be told of it: the record is not
    /// made, nor room for a handle on the object.
    pub fn create_unheard(&mut self, path: Vec<Bytes>, directory: DirId, name: Bytes)
        requires { CanCreateUnheard path.items directory name self.old }
        ensures { Moves (Creates (plain_object path.items directory self.old) ∷ []) self.old self.new }
    {
        connections_are_found();
        connections_are_told();
        moves_are_told();
        let alloc = *path.allocator();
        let number = self.names.create(path, directory, false, None);
        self.handles.add_bare_object(alloc, number, name);
        self.records += 1;
    }
}
