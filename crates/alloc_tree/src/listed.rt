//! What lists of names are made of.
ghost use Rattle.std.specs.Prelude.{◌≡◌, ◌<◌, Some, length, map, slice_get};

use crate::directory::Directory;
use pps_types::Found;
use std::alloc::Allocator;
use std::marker::Model;

/// A name, and what stands there.
#[derive(Drop)]
pub struct Member<A: Allocator> {
    name: Vec<u8, A>,
    found: Found,
}

impl<A: Allocator> Model for Member<A> {
    ghost use Rattle.pps_types.specs.declared.found.Found.{Found};
    ghost use Rattle.pps_types.specs.Names.{Name};
    ghost use Rattle.alloc_tree.specs.Contents.{coded_member};

    ghost Value = { Name × Found };

    ghost coded = { coded_member };

    ghost view = { λ m. (m.name.items, m.found) };
}

impl<A: Allocator> Member<A> {
    /// A name and what stands there. It takes no memory.
    pub fn new(name: Vec<u8, A>, found: Found) -> Self
        ensures { result ≡ (name.items, found) }
    {
        Member { name, found }
    }

    pub fn name(&self) -> &[u8]
        ensures { result.now ≡ self.now.0 }
    {
        self.name.as_slice()
    }

    pub fn found(&self) -> Found
        ensures { result ≡ self.now.1 }
    {
        self.found
    }
}

/// What stands directly in a directory, in byte order of names, as its tree lends it.
#[derive(Drop)]
pub struct Lent<'a, A: Allocator> {
    directory: &'a Directory<A>,
}

impl<'a, A: Allocator> Model for Lent<'a, A> {
    ghost use Rattle.std.specs.Prelude.{[], List};
    ghost use Rattle.std.specs.Coded.{coded_list};
    ghost use Rattle.pps_types.specs.declared.found.Found.{Found};
    ghost use Rattle.pps_types.specs.Names.{Name, members_in};
    ghost use Rattle.alloc_tree.specs.Contents.{coded_member, whole};

    ghost Value = { List (Name × Found) };

    ghost coded = { coded_list coded_member };

    ghost view = { λ m. members_in [] (whole m.directory.now) };
}

impl<'a, A: Allocator> Lent<'a, A> {
    ghost use Rattle.std.specs.Prelude.{[]};
    ghost use Rattle.pps_types.specs.Names.{members_in};
    ghost use Rattle.alloc_tree.specs.Contents.{whole};

    /// What stands in a directory. It takes no memory.
    pub(crate) fn new(directory: &'a Directory<A>) -> Self
        ensures { result ≡ members_in [] (whole directory.now) }
    {
        Lent { directory }
    }

    /// How many there are.
    pub fn len(&self) -> usize
        ensures { result ≡ length self.now }
    {
        self.directory.len()
    }

    /// What stands at a place among them.
    pub fn found(&self, place: usize) -> Found
        requires { place < length self.now }
        ensures { slice_get (map (λ m. m.1) self.now) place ≡ Some result }
    {
        self.directory.found(place)
    }

    /// The name at a place among them, and what stands there. No text is copied.
    pub fn at(&self, place: usize) -> (&'a [u8], Found)
        requires { place < length self.now }
        ensures { slice_get self.now place ≡ Some (result.0.now, result.1) }
    {
        self.directory.listed_at(place)
    }
}

/// A path, and what stands there.
#[derive(Drop)]
pub struct Standing<A: Allocator> {
    path: Vec<Vec<u8, A>, A>,
    found: Found,
}

impl<A: Allocator> Model for Standing<A> {
    ghost use Rattle.pps_types.specs.declared.found.Found.{Found};
    ghost use Rattle.pps_types.specs.Names.{Path};
    ghost use Rattle.alloc_tree.specs.Contents.{coded_standing};
    ghost use Rattle.alloc_tree.specs.Walk.{names};

    ghost Value = { Path × Found };

    ghost coded = { coded_standing };

    ghost view = { λ s. (names s.path.items, s.found) };
}

impl<A: Allocator> Standing<A> {
    ghost use Rattle.alloc_tree.specs.Walk.{names};

    /// A path, by its names from the root on, and what stands there. It takes no memory.
    pub fn new(path: Vec<Vec<u8, A>, A>, found: Found) -> Self
        ensures { result ≡ (names path.items, found) }
    {
        Standing { path, found }
    }

    /// The names of the path, from the root on.
    pub fn path(&self) -> &[Vec<u8, A>]
        ensures { names result.now ≡ self.now.0 }
    {
        self.path.as_slice()
    }

    pub fn found(&self) -> Found
        ensures { result ≡ self.now.1 }
    {
        self.found
    }
}
