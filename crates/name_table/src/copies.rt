//! Copies of what names lead to.
ghost use Rattle.std.specs.Prelude.{◌≡◌, IfOk};
ghost use Rattle.name_table.specs.Standing.{IsCopy};

use crate::named::{NamedDirectory, NamedObject};
use pps_types::Bytes;
use std::alloc::{AllocError, Global};

/// A copy of a path.
fn path_copy(alloc: Global, path: &[Bytes]) -> Result<Vec<Bytes>, AllocError>
    ensures { IfOk result (λ copy. copy.items ≡ path.now) }
{
    let mut copy = Vec::with_capacity(alloc, path.len())?;
    'names: for name in path {
        copy.push(name.copy()?)?;
    }
    Ok(copy)
}

/// The same object with the same attributes. Nothing is ready for it.
impl Clone for NamedObject {
    ghost is_clone = { IsCopy };

    fn clone(&self) -> Result<NamedObject, AllocError> {
        let path = path_copy(*self.path.allocator(), &self.path)?;
        let Ok(attributes) = self.attributes.copy() else {
            return Err(AllocError);
        };
        Ok(NamedObject {
            number: self.number,
            path,
            directory: self.directory,
            nopersist: self.nopersist,
            server: self.server,
            attributes,
        })
    }
}

impl Clone for NamedDirectory {
    ghost is_clone = { λ a b. b ≡ a };

    fn clone(&self) -> Result<NamedDirectory, AllocError> {
        let path = path_copy(*self.path.allocator(), &self.path)?;
        Ok(NamedDirectory {
            number: self.number,
            path,
        })
    }
}
