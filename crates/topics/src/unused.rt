//! Objects and directories on which no handle has been opened yet.
ghost use Rattle.std.specs.Prelude.{◌≡◌, [], IfOk};
ghost use Rattle.topics.specs.HandlesOf.{target_of, name_of, handles_of, kept_of, places_of, is_service, IsPlaced};
ghost use Rattle.topics.specs.Targets.{found_in, name_in, is_served};

use crate::server_handles::ServerHandles;
use crate::topic::Topic;
use pps_types::{Bytes, DirId, Found, ObjId};
use std::alloc::{AllocError, Global};
use sub_reader::Subscribers;

/// What handles can be opened on: a plain object or a server object with its name, or a directory.
#[derive(Drop)]
pub enum Target {
    Object(ObjId, Bytes),
    Service(ObjId, Bytes),
    Directory(DirId),
}

/// An object or a directory without a place for handles, as most are. So it is kept small.
#[derive(Drop)]
pub struct Unused {
    pub(crate) alloc: Global,
    pub(crate) target: Target,
}

impl Target {
    /// The object or directory.
    pub(crate) fn found(&self) -> Found
        ensures { result ≡ found_in self.now }
    {
        match self {
            Target::Object(object, _) => Found::Object(*object),
            Target::Service(object, _) => Found::Object(*object),
            Target::Directory(directory) => Found::Directory(*directory),
        }
    }

    /// The name of an object, and none of a directory.
    pub(crate) fn name(&self) -> &[u8]
        ensures { result.now ≡ name_in self.now }
    {
        match self {
            Target::Object(_, name) => name.as_slice(),
            Target::Service(_, name) => name.as_slice(),
            Target::Directory(_) => &[],
        }
    }

    /// Whether it is a server object.
    pub(crate) fn is_service(&self) -> bool
        ensures { result ≡ is_served self.now }
    {
        matches!(self, Target::Service(_, _))
    }

    /// The same once more.
    pub(crate) fn copy(&self) -> Result<Target, AllocError>
        ensures { IfOk result (λ copy. copy ≡ self.now) }
    {
        Ok(match self {
            Target::Object(object, name) => Target::Object(*object, name.copy()?),
            Target::Service(object, name) => Target::Service(*object, name.copy()?),
            Target::Directory(directory) => Target::Directory(*directory),
        })
    }
}

impl Unused {
    /// The same with a place for handles, which has no room yet. AllocError comes only where memory is wanting.
    pub(crate) fn placed(&self) -> Result<Topic, AllocError>
        ensures placed { IfOk result IsPlaced }
        ensures target { IfOk result (λ made. target_of made ≡ found_in self.now.target) }
        ensures name { IfOk result (λ made. name_of made ≡ name_in self.now.target) }
        ensures service { IfOk result (λ made. is_service made ≡ is_served self.now.target) }
        ensures handles { IfOk result (λ made. handles_of made ≡ []) }
        ensures kept { IfOk result (λ made. kept_of made ≡ []) }
        ensures places { IfOk result (λ made. places_of made ≡ 0) }
    {
        match &self.target {
            Target::Object(object, name) => {
                let place = Subscribers::object(self.alloc, *object, name.copy()?);
                Ok(Topic::Readers(Box::new(self.alloc, place)?))
            }
            Target::Service(object, name) => {
                let place = ServerHandles::new(self.alloc, *object, name.copy()?);
                Ok(Topic::Served(Box::new(self.alloc, place)?))
            }
            Target::Directory(directory) => {
                let place = Subscribers::directory(self.alloc, *directory);
                Ok(Topic::Readers(Box::new(self.alloc, place)?))
            }
        }
    }

    /// The same once more.
    pub(crate) fn copy(&self) -> Result<Unused, AllocError>
        ensures { IfOk result (λ copy. copy.target ≡ self.now.target) }
    {
        Ok(Unused {
            alloc: self.alloc,
            target: self.target.copy()?,
        })
    }
}
