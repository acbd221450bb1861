//! Directories that come and go. None takes memory.
ghost use Rattle.std.specs.Prelude.{◌+◌, ◌<◌, ◌^◌, ◌∷◌, []};
ghost use Rattle.pps_types.specs.Plan as planning;
ghost use Rattle.name_table.specs.Standing.{IsReadyToMake};
ghost use Rattle.service_state.specs.Tables.{content_in};
ghost use Rattle.service_state.specs.Places.{HasRisingDirectories, IsBareAt};
ghost use Rattle.service_state.specs.Tied.{Moves};

use crate::tables::Tables;
use name_table::moves_are_told;
use notify_box::{connections_are_found, connections_are_told};
use pps_types::{Bytes, DirId};

impl Tables {
    /// A directory is made at a path that was made ready, for which there is a place.
    pub fn make_directory(&mut self, path: Vec<Bytes>)
        requires order { HasRisingDirectories self.old }
        requires ready { IsReadyToMake self.old.names path.items }
        requires place { 0 < self.old.handles.directories.room }
        requires last { (content_in self.old).next_directory + 1 < 2 ^ 64 }
        ensures { Moves (planning.MakesDirectory path.items ∷ []) self.old self.new }
    {
        connections_are_found();
        connections_are_told();
        moves_are_told();
        let alloc = *path.allocator();
        let directory = self.names.make_directory(path);
        self.handles.add_directory(alloc, directory);
    }

    /// A directory in which nothing stands is removed.
    pub fn remove_directory(&mut self, directory: DirId)
        requires order { HasRisingDirectories self.old }
        requires bare { IsBareAt self.old directory }
        ensures { Moves (planning.RemovesDirectory directory ∷ []) self.old self.new }
    {
        connections_are_found();
        connections_are_told();
        moves_are_told();
        self.names.remove_directory(directory);
        self.handles.drop_directory(directory);
    }
}
