//! What requests of several kinds ask of the tables before anything changes. It takes no memory.
ghost use Rattle.std.specs.Prelude.{◌≡◌, ◌+◌, ◌-◌, ◌^◌, nat_lt};
ghost use Rattle.pps_types.specs.Names.{refusal_of, new_refusal};
ghost use Rattle.pps_types.specs.Content as content;
ghost use Rattle.pps_types.specs.Checks as checking;
ghost use Rattle.service_laws.specs.SettlingTargets.{last_number_passed};
ghost use Rattle.service_state.specs.Tables.{content_in};
ghost use Rattle.service_state.specs.Refused.{IsCheckedBy};

use crate::tables::Tables;
use name_table::{parent, questions_are_told};
use pps_types::limits::{DIRECTORIES_MAX, SUBDIRECTORIES_MAX};
use pps_types::{Bytes, Refusal};

// Whether so many more numbers pass the last one.
fn is_past(number: u64, more: u64) -> bool
    ensures { result ≡ nat_lt (2 ^ 64 - 1) (number + more) }
{
    number > u64::MAX - more
}

impl Tables {
    /// Whether nothing stands at a path, and something can.
    ///
    /// The first name before the last that shows a reason decides: NotFound where it stands for nothing, NotDirectory
    /// where it stands for an object. It is Exists where something stands at the path.
    pub fn check_free(&self, path: &[Bytes]) -> Result<(), Refusal>
        ensures { refusal_of result ≡ new_refusal (content.at (content_in self.now)) path.now }
    {
        questions_are_told();
        match self.names.place(path) {
            Err(refusal) => Err(refusal),
            Ok(Some(_)) => Err(Refusal::Exists),
            Ok(None) => Ok(()),
        }
    }

    /// Whether one more directory can stand at a path.
    ///
    /// It is refused as [`check_free`](Tables::check_free) says, and TableFull where 256 directories stand in the one above
    /// or where there are 65,536 directories.
    pub fn check_new_directory(&self, path: &[Bytes]) -> Result<(), Refusal>
        ensures { IsCheckedBy result (checking.mkdir_checks (content_in self.now) path.now) }
    {
        self.check_free(path)?;
        if self.names.directories_in(parent(path)) >= SUBDIRECTORIES_MAX {
            return Err(Refusal::TableFull);
        }
        if self.names.directory_count() > DIRECTORIES_MAX {
            return Err(Refusal::TableFull);
        }
        Ok(())
    }

    /// Whether the last number would be passed once so many more records, objects and directories were made.
    pub fn passes_last_number(&self, records: u64, objects: u64, directories: u64) -> bool
        ensures { result ≡ last_number_passed (content_in self.now) records objects directories }
    {
        is_past(self.records, records)
            || is_past(self.names.next_object(), objects)
            || is_past(self.names.next_directory(), directories)
    }
}
