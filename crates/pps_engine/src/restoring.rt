//! The calls that restore an image.
ghost use Rattle.std.specs.Prelude.{◌≡◌, [], Ok, None, IfErr, OnOk, OnErr};
ghost use Rattle.image_laws.specs.Images.{IsSavedPath, IsImageLine};
ghost use Rattle.image_laws.specs.Restored.{with_directory, with_object, with_line};
ghost use Rattle.path_requests.specs.Restored.{FailsAs};
ghost use Rattle.pps_engine.specs.Restored.{directory_restored, object_restored, line_restored, LeadsTo};
ghost use Rattle.pps_engine.specs.Serving.{IsExact};

use crate::engine::{Engine, are_cut, forget};
use image_laws::{restoring_is_of_machines, restoring_stays};
use pps_types::{Bytes, HeldLine, Refusal};

impl Engine {
    /// Makes a directory at a path, in a service of which nobody has a handle. The path has a
    /// text: at most 32 names as an open may have them, and 1,024 bytes.
    ///
    /// The engine then represents each machine that it represented, with that directory made.
    ///
    /// It is NotFound or NotDirectory where the path leads nowhere, Exists where something stands there, and TableFull
    /// where 256 directories stand in the one above, where there are 65,536 directories, and where the directory would
    /// pass the last number. Else OutOfMemory is the only error. After an error all is as it was. A plan before it is no
    /// longer ready.
    pub fn restore_directory(&mut self, path: Vec<Bytes>) -> Result<(), Refusal>
        requires unused { self.old.content.handles ≡ [] }
        requires path { IsSavedPath path.items }
        ensures done { OnOk result (directory_restored self.old path.items ≡ Ok self.new.content) }
        ensures stands { LeadsTo (with_directory path.items) self.old result self.new }
        ensures refused { IfErr result (λ r. FailsAs (directory_restored self.old path.items) r) }
        ensures kept { OnErr result (self.new.content ≡ self.old.content) }
        ensures ready { self.new.next ≡ None }
        ensures unused { self.new.content.handles ≡ [] }
        ensures cut { IsExact self.new }
    {
        forget(&mut self.pending);
        restoring_stays();
        restoring_is_of_machines();
        let restored = path_requests::restore_directory(&mut self.tables, path);
        are_cut(&self.tables);
        restored
    }

    /// Creates an object without attributes at a path, persistent and plain, in a service of which nobody has a handle.
    /// The path has a text: at most 32 names as an open may have them, and 1,024 bytes.
    ///
    /// The engine then represents each machine that it represented, with that object and the record that it was created.
    ///
    /// It is NotFound or NotDirectory where the path leads nowhere, Exists where something stands there, and TableFull
    /// where 256 objects stand in the directory, where there are 65,535 objects, and where the object or its record would
    /// pass the last number. Else OutOfMemory is the only error. After an error all is as it was. A plan before it is no
    /// longer ready.
    pub fn restore_object(&mut self, path: Vec<Bytes>) -> Result<(), Refusal>
        requires unused { self.old.content.handles ≡ [] }
        requires path { IsSavedPath path.items }
        ensures done { OnOk result (object_restored self.old path.items ≡ Ok self.new.content) }
        ensures stands { LeadsTo (with_object path.items) self.old result self.new }
        ensures refused { IfErr result (λ r. FailsAs (object_restored self.old path.items) r) }
        ensures kept { OnErr result (self.new.content ≡ self.old.content) }
        ensures ready { self.new.next ≡ None }
        ensures unused { self.new.content.handles ≡ [] }
        ensures cut { IsExact self.new }
    {
        forget(&mut self.pending);
        restoring_stays();
        restoring_is_of_machines();
        let alloc = self.alloc;
        let restored = path_requests::restore_object(&mut self.tables, alloc, path);
        are_cut(&self.tables);
        restored
    }

    /// Adds an attribute to the object at a path, by the line that sets it, in a service of which nobody has a handle.
    /// The line is one that an image may have: it sets a persistent attribute, and it has a printing.
    ///
    /// The engine then represents each machine that it represented, with one more record, the change that the line makes.
    ///
    /// It is NotFound or NotDirectory where the path leads nowhere, IsDirectory where a directory stands there, Exists
    /// where the object has an attribute of that name, TooLarge where it would pass a limit of objects, and TableFull
    /// where the record would pass the last number. Else OutOfMemory is the only error. After an error all is as it was.
    /// A plan before it is no longer ready.
    pub fn restore_line(&mut self, path: &[Bytes], line: HeldLine) -> Result<(), Refusal>
        requires unused { self.old.content.handles ≡ [] }
        requires line { IsImageLine line }
        ensures done { OnOk result (line_restored self.old path.now line ≡ Ok self.new.content) }
        ensures stands { LeadsTo (with_line path.now line) self.old result self.new }
        ensures refused { IfErr result (λ r. FailsAs (line_restored self.old path.now line) r) }
        ensures kept { OnErr result (self.new.content ≡ self.old.content) }
        ensures ready { self.new.next ≡ None }
        ensures unused { self.new.content.handles ≡ [] }
        ensures cut { IsExact self.new }
    {
        forget(&mut self.pending);
        restoring_stays();
        restoring_is_of_machines();
        let alloc = self.alloc;
        let restored = path_requests::restore_line(&mut self.tables, alloc, path, line);
        are_cut(&self.tables);
        restored
    }
}
