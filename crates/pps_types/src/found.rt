//! What a path names.

use crate::numbers::{DirId, ObjId};

/// What stands at a path.
#[derive(Clone, Copy, Debug, PartialEq, Eq)]
pub enum Found {
    Object(ObjId),
    Directory(DirId),
}
