//! Copies of open handles.
ghost use Rattle.std.specs.Prelude.{◌≡◌, IfOk};
ghost use Rattle.pps_types.specs.declared.found.Found.{Found as FoundAt};
ghost use Rattle.number_table.specs.Numbered.{HasClones};
ghost use Rattle.topics.specs.HandlesOf.{IsCopy};
ghost use Rattle.open_handles.specs.Whole.{handles_in, kept_at, site_at};

use crate::handles::Handles;
use crate::places::Places;
use std::alloc::AllocError;

impl Places {
    // The same handles on the same objects and directories once more, without room.
    fn copy(&self) -> Result<Places, AllocError>
        ensures objects { IfOk result (λ copy. HasClones IsCopy self.now.objects copy.objects) }
        ensures next_object { IfOk result (λ copy. copy.objects.next ≡ self.now.objects.next) }
        ensures directories { IfOk result (λ copy.
            HasClones IsCopy self.now.directories copy.directories) }
        ensures next_directory { IfOk result (λ c. c.directories.next ≡ self.now.directories.next) }
    {
        Ok(Places {
            objects: self.objects.copy()?,
            directories: self.directories.copy()?,
        })
    }
}

impl Handles {
    /// The same handles on the same objects and directories once more, without room.
    ///
    /// AllocError comes only where memory is wanting.
    pub fn copy(&self) -> Result<Handles, AllocError>
        ensures handles { IfOk result (λ copy. handles_in copy ≡ handles_in self.now) }
        ensures sites { IfOk result (λ copy. (f : FoundAt) → site_at f copy ≡ site_at f self.now) }
        ensures kept { IfOk result (λ copy. (f : FoundAt) → kept_at f copy ≡ kept_at f self.now) }
        ensures next { IfOk result (λ copy. copy.rows.next ≡ self.now.rows.next) }
        ensures next_object { IfOk result (λ copy. copy.objects.next ≡ self.now.objects.next) }
        ensures next_directory { IfOk result (λ c. c.directories.next ≡ self.now.directories.next) }
    {
        let rows = self.rows.copy()?;
        let places = self.places.copy()?;
        Ok(Handles { rows, places })
    }
}
