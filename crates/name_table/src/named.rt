//! What names lead to.
ghost use Rattle.std.specs.Prelude.{◌≡◌, [], None};
ghost use Rattle.pps_types.specs.Names.{last_name};

use object_state::Object;
use pps_types::{Bytes, DirId, Handle, ObjId};
use std::marker::Model;

/// An object with its path, what is fixed when it is created, and its attributes.
#[derive(Drop)]
pub struct NamedObject {
    pub(crate) number: ObjId,
    pub(crate) path: Vec<Bytes>,
    pub(crate) directory: DirId,
    pub(crate) nopersist: bool,
    pub(crate) server: Option<Handle>,
    pub(crate) attributes: Object,
}

impl Model for NamedObject {
    ghost use Rattle.pps_types.specs.Names.{last_name};
    ghost use Rattle.name_table.specs.Standing.{Placed};

    ghost Value = { Placed };

    ghost view = { λ o. record {
      object = record { number = o.number; directory = o.directory; name = last_name o.path.items; nopersist = o.nopersist; server = o.server };
      path = o.path.items;
      held = o.attributes;
    } };
}

impl NamedObject {
    /// Another object in the place of this one, without attributes.
    pub(crate) fn followed_by(
        self,
        number: ObjId,
        nopersist: bool,
        server: Option<Handle>,
    ) -> NamedObject
        ensures object { result.object ≡ record {
          number = number;
          directory = self.object.directory;
          name = self.object.name;
          nopersist = nopersist;
          server = server;
        } }
        ensures path { result.path ≡ self.path }
        ensures attributes { result.held.attributes ≡ [] }
        ensures copies { result.held.copies ≡ None }
    {
        let NamedObject {
            path,
            directory,
            ..
        } = self;
        let attributes = Object::new(*path.allocator());
        NamedObject {
            number,
            path,
            directory,
            nopersist,
            server,
            attributes,
        }
    }

    /// The number of the object.
    pub fn number(&self) -> ObjId
        ensures { result ≡ self.now.object.number }
    {
        self.number
    }

    /// The names from the root to the object.
    pub fn path(&self) -> &[Bytes]
        ensures { result.now ≡ self.now.path }
    {
        self.path.as_slice()
    }

    /// The name of the object in its directory.
    pub fn name(&self) -> &[u8]
        ensures { result.now ≡ self.now.object.name }
    {
        match self.path.last() {
            Some(name) => name.as_slice(),
            None => &[],
        }
    }

    /// The directory that the object stands in.
    pub fn directory(&self) -> DirId
        ensures { result ≡ self.now.object.directory }
    {
        self.directory
    }

    /// Whether the object is never written to a device.
    pub fn is_nopersist(&self) -> bool
        ensures { result ≡ self.now.object.nopersist }
    {
        self.nopersist
    }

    /// The handle that owns the object, where it is a server object.
    pub fn server(&self) -> Option<Handle>
        ensures { result ≡ self.now.object.server }
    {
        self.server
    }

    /// The attributes of the object.
    pub fn attributes(&self) -> &Object
        ensures { result.now ≡ self.now.held }
    {
        &self.attributes
    }
}

/// A directory with its path.
#[derive(Drop)]
pub struct NamedDirectory {
    pub(crate) number: DirId,
    pub(crate) path: Vec<Bytes>,
}

impl Model for NamedDirectory {
    ghost use Rattle.pps_types.specs.Content.{Directory};

    ghost Value = { Directory };

    ghost view = { λ d. record { number = d.number; path = d.path.items } };
}

impl NamedDirectory {
    /// The number of the directory.
    pub fn number(&self) -> DirId
        ensures { result ≡ self.now.number }
    {
        self.number
    }

    /// The names from the root to the directory: the root has none.
    pub fn path(&self) -> &[Bytes]
        ensures { result.now ≡ self.now.path }
    {
        self.path.as_slice()
    }
}
