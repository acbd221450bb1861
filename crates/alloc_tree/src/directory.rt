//! A directory: named objects and directories, in byte order of names.
ghost use Rattle.std.specs.Prelude.{◌≡◌, ◌↔◌, IsTrue, ◌<◌, ◌++◌, [], ◌∷◌, None, Some, IfOk, IfErr, OnOk, OnErr, length, map, slice_get};
ghost use Rattle.std.specs.Bool.{OnTrue};
ghost use Rattle.pps_types.specs.Bytes.{is_empty};
ghost use Rattle.pps_types.specs.declared.found.Found.TheVariants.{Directory as FoundDirectory};
ghost use Rattle.pps_types.specs.Names.{place, find_at, new_refusal, refusal_of, last_name};
ghost use Rattle.pps_types.specs.Refused.{IsRefusedAs};
ghost use Rattle.alloc_tree.specs.Path.{at, room_for};
ghost use Rattle.alloc_tree.specs.Contents.{whole, members_at, ChangesAt};
ghost use Rattle.alloc_tree.specs.Walk.{names, beyond_path, LeadsTo, LeadsNowhere};
ghost use Rattle.alloc_tree.specs.Refused.{new_refused, list_refused, edit_refused, left_by, count_in};

use crate::compare::same_name;
use crate::copies::{copy_name, copy_path, extended};
use crate::edit::Edit;
use crate::entries::{
    count, edit_entry, found_of, is_full, list_entries, make_ready, same_object, search,
};
use crate::kind::NodeKind;
use crate::listed::{Member, Standing};
use pps_types::{Bytes, DirId, Found, ObjId, Refusal};
use std::alloc::{AllocError, Allocator};
use std::marker::Model;

/// A directory. Its entries stand in byte order of their names, and no name stands twice.
#[cycle(tree)]
#[derive(Drop)]
pub(crate) struct Directory<A: Allocator> {
    id: DirId,
    entries: Vec<Entry<A>, A>,
}

/// A name, and what stands there.
#[cycle(tree)]
#[derive(Drop)]
pub(crate) struct Entry<A: Allocator> {
    pub(crate) name: Vec<u8, A>,
    pub(crate) node: Node<A>,
}

#[cycle(tree)]
#[derive(Drop)]
pub(crate) enum Node<A: Allocator> {
    Object(ObjId),
    Directory(Box<Directory<A>, A>),
}

/// The memory of a new name: the name itself and, for a directory, a place, and an allocator of its own.
#[derive(Drop)]
pub(crate) enum Ready<A: Allocator> {
    Object(Vec<u8, A>),
    Directory(Vec<u8, A>, Box<Directory<A>, A>, A),
}

impl<A: Allocator> Model for Directory<A> {
    ghost use Rattle.alloc_tree.specs.Contents.{Contents, coded_contents};

    ghost Value = { Contents };

    ghost coded = { coded_contents };

    ghost use Rattle.alloc_tree.specs.View.{contents_of};

    ghost view = { λ d. contents_of d.id d.entries };

    ghost use Rattle.alloc_tree.specs.Entries.{NamesRise};

    ghost invariant = { λ d. NamesRise d.entries.items };

    ghost size = { λ v. v.depth };

    ghost use Rattle.std.proofs.Common.{arith};
    ghost use Rattle.alloc_tree.specs.Falls.{entries_fall};

    ghost size_decreases = { λ d h. Prim.omega (arith, entries_fall A.Allocator d.entries.items) };
}

impl<A: Allocator> Directory<A> {
    ghost use Rattle.alloc_tree.specs.View.{node_found, IsAlone};
    ghost use Rattle.alloc_tree.specs.HeldView.{ready_seen};

    /// An empty directory. It takes no memory.
    pub(crate) fn new(alloc: A, id: DirId) -> Self
        ensures alone { whole result ≡ ([], FoundDirectory id) ∷ [] }
        ensures number { result.id ≡ id }
    {
        Directory {
            id,
            entries: Vec::new(alloc),
        }
    }

    /// An empty directory, in a place that was made for one. It takes no memory.
    pub(crate) fn in_place(place: Box<Self, A>, alloc: A, id: DirId) -> Box<Self, A>
        ensures alone { whole result.value ≡ ([], FoundDirectory id) ∷ [] }
        ensures number { result.value.id ≡ id }
    {
        let mut made = place;
        *made = Directory::new(alloc, id);
        made
    }

    /// The directory that stands here under a name.
    fn child(&self, name: &[u8]) -> Result<&Directory<A>, Refusal>
        ensures found { IfOk result (λ d. LeadsTo (whole self.now) (name.now ∷ []) (whole d.now)) }
        ensures none { IfErr result (LeadsNowhere (whole self.now) (name.now ∷ [])) }
    {
        match search(&self.entries, name) {
            Err(_) => Err(Refusal::NotFound),
            Ok(i) => match &self.entries[i].node {
                Node::Object(_) => Err(Refusal::NotDirectory),
                Node::Directory(inner) => Ok(inner.as_ref()),
            },
        }
    }

    /// The directory at a path.
    pub(crate) fn directory(&self, path: &[Bytes]) -> Result<&Directory<A>, Refusal>
        ensures refusal { refusal_of result ≡ list_refused (whole self.now) path.now }
        ensures members { IfOk result (λ d. members_at [] d.now ≡ members_at path.now self.now) }
        ensures found { IfOk result (λ d. LeadsTo (whole self.now) path.now (whole d.now)) }
        ensures none { IfErr result (LeadsNowhere (whole self.now) path.now) }
    {
        let mut here = self;
        for name in path {
            match here.child(name.as_slice()) {
                Err(refusal) => return Err(refusal),
                Ok(inner) => here = inner,
            }
        }
        Ok(here)
    }

    /// What stands here under a name, if anything does.
    fn entry(&self, name: &[u8]) -> Option<Found>
        ensures { result ≡ at (whole self.now) (name.now ∷ []) }
    {
        match search(&self.entries, name) {
            Err(_) => None,
            Ok(i) => Some(found_of(&self.entries[i].node)),
        }
    }

    /// The place that a path leads to, and what stands there, if anything does.
    pub(crate) fn spot(&self, path: &[Bytes]) -> Result<Option<Found>, Refusal>
        ensures { result ≡ place (at (whole self.now)) path.now }
    {
        let Some((last, above)) = path.split_last() else {
            return Ok(Some(Found::Directory(self.id)));
        };
        match self.directory(above) {
            Err(refusal) => Err(refusal),
            Ok(directory) => Ok(directory.entry(last.as_slice())),
        }
    }

    /// What stands at a path.
    pub(crate) fn find(&self, path: &[Bytes]) -> Result<Found, Refusal>
        ensures { result ≡ find_at (at (whole self.now)) path.now }
    {
        match self.spot(path) {
            Err(refusal) => Err(refusal),
            Ok(None) => Err(Refusal::NotFound),
            Ok(Some(found)) => Ok(found),
        }
    }

    /// How many objects, or directories, stand directly here.
    fn count_here(&self, kind: NodeKind) -> usize
        ensures { result ≡ count_in kind (whole self.now) [] }
    {
        count(&self.entries, kind)
    }

    /// How many objects, or directories, stand directly in the directory at a path.
    pub(crate) fn count(&self, path: &[Bytes], kind: NodeKind) -> usize
        ensures { result ≡ count_in kind (whole self.now) path.now }
    {
        match self.directory(path) {
            Err(_) => 0,
            Ok(directory) => directory.count_here(kind),
        }
    }

    /// Takes the memory for a new name where nothing refuses it, room in its directory included.
    pub(crate) fn prepare(&mut self, path: &[Bytes], kind: NodeKind) -> Result<Ready<A>, Refusal>
    where
        A: Clone,
        ensures refusal { IsRefusedAs result (new_refused kind (whole self.old) path.now) }
        ensures ready { IfOk result (λ r. ready_seen (Some r) ≡ Some (kind, last_name path.now)) }
        ensures same { whole self.new ≡ whole self.old }
        ensures room { OnOk result (0 < room_for (at self.new.rooms) path.now) }
        ensures err { OnErr result (self.new ≡ self.old) }
    {
        let Some((name, rest)) = path.split_first() else {
            return Err(Refusal::Exists);
        };
        let i = match search(&self.entries, name.as_slice()) {
            Ok(i) => i,
            Err(_) => {
                if !rest.is_empty() {
                    return Err(Refusal::NotFound);
                }
                if is_full(&self.entries, kind) {
                    return Err(Refusal::TableFull);
                }
                match make_ready(&mut self.entries, name.as_slice(), kind) {
                    Ok(ready) => return Ok(ready),
                    Err(_) => return Err(Refusal::OutOfMemory),
                }
            }
        };
        if rest.is_empty() {
            return Err(Refusal::Exists);
        }
        let entry = &mut self.entries[i];
        let Node::Directory(inner) = &mut entry.node else {
            return Err(Refusal::NotDirectory);
        };
        inner.prepare(rest, kind)
    }

    /// Puts a node under a new path, in the room that is there.
    pub(crate) fn place(&mut self, path: &[Bytes], name: Vec<u8, A>, node: Node<A>)
        requires free { new_refusal (at (whole self.old)) path.now ≡ None }
        requires room { 0 < room_for (at self.old.rooms) path.now }
        requires name { name.items ≡ last_name path.now }
        requires alone { IsAlone node }
        ensures { ChangesAt self.old self.new path.now (Some (node_found node)) }
    {
        let Some((first, rest)) = path.split_first() else {
            unreachable!()
        };
        let i = match search(&self.entries, first.as_slice()) {
            Ok(i) => i,
            Err(i) => {
                let _ = self.entries.insert(i, Entry { name, node });
                return;
            }
        };
        let entry = &mut self.entries[i];
        let Node::Directory(inner) = &mut entry.node else {
            unreachable!()
        };
        inner.place(rest, name, node)
    }

    /// Whether nothing stands in it.
    pub(crate) fn is_empty(&self) -> bool
        ensures value { result ≡ is_empty (members_at [] self.now) }
        ensures alone { OnTrue result (whole self.now ≡ ([], FoundDirectory self.now.id) ∷ []) }
    {
        self.entries.is_empty()
    }

    /// Changes what stands at a path, where nothing refuses that.
    pub(crate) fn edit(&mut self, path: &[Bytes], edit: Edit) -> Result<(), Refusal>
        ensures refusal { refusal_of result ≡ edit_refused edit (whole self.old) path.now }
        ensures ok { OnOk result (ChangesAt self.old self.new path.now (left_by edit)) }
        ensures err { OnErr result (self.new ≡ self.old) }
    {
        let Some((name, rest)) = path.split_first() else {
            return Err(edit.root_refusal());
        };
        let i = match search(&self.entries, name.as_slice()) {
            Ok(i) => i,
            Err(_) => return Err(Refusal::NotFound),
        };
        if rest.is_empty() {
            return edit_entry(&mut self.entries, i, edit);
        }
        let entry = &mut self.entries[i];
        let Node::Directory(inner) = &mut entry.node else {
            return Err(Refusal::NotDirectory);
        };
        inner.edit(rest, edit)
    }

    pub(crate) fn id(&self) -> DirId
        ensures { result ≡ self.now.id }
    {
        self.id
    }

    /// How many entries it has.
    pub(crate) fn len(&self) -> usize
        ensures { result ≡ length (members_at [] self.now) }
    {
        self.entries.len()
    }

    /// What stands at a place among its entries.
    pub(crate) fn found(&self, place: usize) -> Found
        requires { place < length (members_at [] self.now) }
        ensures { slice_get (map (λ m. m.1) (members_at [] self.now)) place ≡ Some result }
    {
        found_of(&self.entries[place].node)
    }

    /// The name at a place among its entries, and what stands there.
    pub(crate) fn listed_at(&self, place: usize) -> (&[u8], Found)
        requires { place < length (members_at [] self.now) }
        ensures { slice_get (members_at [] self.now) place ≡ Some (result.0.now, result.1) }
    {
        let entry = &self.entries[place];
        (entry.name.as_slice(), found_of(&entry.node))
    }

    fn members(&self) -> Result<Vec<Member<A>, A>, AllocError>
    where
        A: Clone,
        ensures { IfOk result (λ members. members.items ≡ members_at [] self.now) }
    {
        list_entries(&self.entries)
    }

    /// What stands directly in the directory at a path.
    pub(crate) fn list(&self, path: &[Bytes]) -> Result<Vec<Member<A>, A>, Refusal>
    where
        A: Clone,
        ensures refusal { IsRefusedAs result (list_refused (whole self.now) path.now) }
        ensures ok { IfOk result (λ members. members.items ≡ members_at path.now self.now) }
    {
        Ok(self.directory(path)?.members()?)
    }

    /// Adds to a walk what stands here and below: a path before what is below it, and names in byte order.
    /// `path` leads here.
    fn walk(&self, path: &[Vec<u8, A>], walked: &mut Vec<Standing<A>, A>) -> Result<(), AllocError>
    where
        A: Clone,
        ensures { OnOk result (walked.new.items
            ≡ walked.old.items ++ beyond_path (names path.now) (whole self.now)) }
    {
        let own = copy_path(path, self.entries.allocator())?;
        walked.push(Standing::new(own, Found::Directory(self.id)))?;
        for entry in &self.entries {
            let longer = extended(path, &entry.name)?;
            match &entry.node {
                Node::Object(id) => walked.push(Standing::new(longer, Found::Object(*id)))?,
                Node::Directory(inner) => inner.walk(&longer, walked)?,
            }
        }
        Ok(())
    }

    /// All that stands here and below, by its path from here.
    pub(crate) fn walked(&self) -> Result<Vec<Standing<A>, A>, AllocError>
    where
        A: Clone,
        ensures { IfOk result (λ walked. walked.items ≡ whole self.now) }
    {
        let mut walked = Vec::new(self.entries.allocator().clone()?);
        let root: [Vec<u8, A>; 0] = [];
        self.walk(&root, &mut walked)?;
        Ok(walked)
    }

    /// A directory in which the same stands.
    pub(crate) fn copy(&self) -> Result<Directory<A>, AllocError>
    where
        A: Clone,
        ensures { IfOk result (λ copy. whole copy ≡ whole self.now) }
    {
        let alloc = self.entries.allocator().clone()?;
        let mut entries = Vec::with_capacity(alloc, self.entries.len())?;
        for entry in &self.entries {
            let name = copy_name(&entry.name)?;
            match &entry.node {
                Node::Object(id) => {
                    let node = Node::Object(*id);
                    entries.push(Entry { name, node })?;
                }
                Node::Directory(inner) => {
                    let alloc = self.entries.allocator().clone()?;
                    let node = Node::Directory(Box::new(alloc, inner.copy()?)?);
                    entries.push(Entry { name, node })?;
                }
            }
        }
        Ok(Directory {
            id: self.id,
            entries,
        })
    }

    /// Whether the same stands in both.
    pub(crate) fn same(&self, other: &Directory<A>) -> bool
        ensures { IsTrue result ↔ (whole self.now ≡ whole other.now) }
    {
        if self.id.number() != other.id.number() {
            return false;
        }
        if self.entries.len() != other.entries.len() {
            return false;
        }
        for (i, entry) in self.entries.iter().enumerate() {
            let beside = &other.entries[i];
            if !same_name(&entry.name, &beside.name) {
                return false;
            }
            match &entry.node {
                Node::Object(id) => {
                    if !same_object(*id, &beside.node) {
                        return false;
                    }
                }
                Node::Directory(inner) => {
                    let Node::Directory(inner_beside) = &beside.node else {
                        return false;
                    };
                    if !inner.same(inner_beside.as_ref()) {
                        return false;
                    }
                }
            }
        }
        true
    }
}
