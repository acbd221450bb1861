//! Changes of what stands at a path.
ghost use Rattle.std.specs.Prelude.{◌≡◌, option_map};
ghost use Rattle.pps_types.specs.declared.found.Found.TheVariants.{Object};

use pps_types::{ObjId, Refusal};

/// A change of what stands at a path.
#[derive(Clone, Copy)]
pub(crate) enum Edit {
    /// The object goes.
    RemovesObject,
    /// Another object takes the object's place.
    ReplacesObject(ObjId),
    /// The directory goes, where nothing is in it.
    RemovesDirectory,
}

impl Edit {
    ghost use Rattle.alloc_tree.specs.Refused.{root_refusal, left_by};

    /// Why the root is not edited.
    pub(crate) fn root_refusal(self) -> Refusal
        ensures { result ≡ root_refusal self }
    {
        match self {
            Edit::RemovesObject | Edit::ReplacesObject(_) => Refusal::IsDirectory,
            Edit::RemovesDirectory => Refusal::Busy,
        }
    }

    /// The object that comes in the object's place, if one does.
    pub(crate) fn replacement(self) -> Option<ObjId>
        ensures { option_map Object result ≡ left_by self }
    {
        match self {
            Edit::RemovesObject => None,
            Edit::ReplacesObject(id) => Some(id),
            Edit::RemovesDirectory => None,
        }
    }
}
