//! What is saved of one directory or object.
ghost use Rattle.std.specs.Prelude.{◌≡◌, length, not};
ghost use Rattle.pps_types.specs.Image.{SavedDirectory, path_of, is_directory_entry};
ghost use Rattle.pps_engine.specs.Entries.{attributes_of, saved_placed};

use crate::saved_attributes::{SavedAttributes, count_persistent};
use name_table::{NamedDirectory, NamedObject};
use pps_types::Bytes;
use std::marker::Model;

/// What is saved, as the names lend it.
#[derive(Clone, Copy)]
enum Lent<'a> {
    Directory(&'a NamedDirectory),
    Object(&'a NamedObject),
}

/// What an image saves of one directory, or of one object with its persistent attributes, as the names of a service lend
/// it. It takes no memory of its own.
#[derive(Drop)]
pub struct SavedEntry<'a> {
    lent: Lent<'a>,
}

impl<'a> Model for SavedEntry<'a> {
    ghost use Rattle.pps_types.specs.Image.{Saved};
    ghost use Rattle.pps_engine.specs.Entries.{saved_of};

    ghost Value = { Saved };

    ghost view = { λ e. saved_of e.lent };
}

impl<'a> SavedEntry<'a> {
    /// A directory.
    pub(crate) fn of_directory(directory: &'a NamedDirectory) -> Self
        ensures { result ≡ SavedDirectory directory.now.path }
    {
        SavedEntry {
            lent: Lent::Directory(directory),
        }
    }

    /// An object.
    pub(crate) fn of_object(object: &'a NamedObject) -> Self
        ensures { result ≡ saved_placed object.now }
    {
        SavedEntry {
            lent: Lent::Object(object),
        }
    }

    /// The names from the root to it.
    pub fn path(&self) -> &'a [Bytes]
        ensures { result.now ≡ path_of self.now }
    {
        match self.lent {
            Lent::Directory(directory) => directory.path(),
            Lent::Object(object) => object.path(),
        }
    }

    /// Whether it is an object.
    pub fn is_object(&self) -> bool
        ensures { result ≡ not (is_directory_entry self.now) }
    {
        matches!(self.lent, Lent::Object(_))
    }

    /// The persistent attributes of the object in their order, as it lends them. A directory has none.
    pub fn attributes(&self) -> SavedAttributes<'a>
        ensures { result ≡ attributes_of self.now }
    {
        match self.lent {
            Lent::Directory(_) => SavedAttributes::new(None),
            Lent::Object(object) => SavedAttributes::new(Some(object.attributes())),
        }
    }

    /// How many persistent attributes the object has. They are counted, so it costs a look at each attribute.
    pub fn attribute_count(&self) -> usize
        ensures { result ≡ length (attributes_of self.now) }
    {
        match self.lent {
            Lent::Directory(_) => 0,
            Lent::Object(object) => count_persistent(object.attributes()),
        }
    }
}
