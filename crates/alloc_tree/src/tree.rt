//! A tree of named objects and directories.
ghost use Rattle.std.specs.Prelude.{◌≡◌, ◌↔◌, IsTrue, [], ◌∷◌, None, IfOk, IfErr, OnOk, OnErr};
ghost use Rattle.std.specs.FinMap as finite;
ghost use Rattle.pps_types.specs.declared.refusal.Refusal.TheVariants.{OutOfMemory};
ghost use Rattle.pps_types.specs.Names as names;
ghost use Rattle.pps_types.specs.Names.{members_of};
ghost use Rattle.pps_types.specs.Refused.{IsRefusedAs};
ghost use Rattle.alloc_tree.specs.Held.{IsReady, new_of, edit_of, edited, root_alone, with_object, with_directory};
ghost use Rattle.alloc_tree.specs.declared.kind.NodeKind.TheVariants.{Object as AnObject, Directory as ADirectory};

use crate::directory::{Directory, Node, Ready};
use crate::edit::Edit;
use crate::kind::NodeKind;
use crate::listed::{Lent, Member, Standing};
use pps_types::{Bytes, DirId, Found, ObjId, Refusal};
use std::alloc::Allocator;
use std::marker::Model;

/// Objects and directories by their paths. The root is there from the start, and stays.
///
/// A path is its names from the root on, and the root has none. What a call takes memory for lies under
/// the tree's allocator; a call that answers OutOfMemory leaves all as it was.
#[derive(Drop)]
pub struct Tree<A: Allocator> {
    root: Directory<A>,
    ready: Option<Ready<A>>,
}

impl<A: Allocator> Model for Tree<A> {
    ghost use Rattle.alloc_tree.specs.Held.{Held, coded_held};

    ghost Value = { Held };

    ghost coded = { coded_held };

    ghost use Rattle.alloc_tree.specs.HeldView.{held};

    ghost view = { λ t. held t.root t.ready };
}

impl<A: Allocator> Tree<A> {
    /// A tree with the root alone, which has the number 0. It takes no memory.
    pub fn new(alloc: A) -> Self
        ensures map { result.map ≡ root_alone }
        ensures ready { result.ready ≡ None }
    {
        Tree {
            root: Directory::new(alloc, DirId::new(0)),
            ready: None,
        }
    }

    /// What stands at a path.
    ///
    /// The first name on the way that shows a reason decides: NotFound where it stands for nothing,
    /// NotDirectory where it stands for an object and is not the last.
    pub fn find(&self, path: &[Bytes]) -> Result<Found, Refusal>
        ensures { result ≡ names.find_at (finite.get self.now.map) path.now }
    {
        self.root.find(path)
    }

    /// The place that a path leads to, and what stands there, if anything does.
    ///
    /// The first name before the last that shows a reason decides: NotFound where it stands for nothing, NotDirectory where
    /// it stands for an object.
    pub fn place(&self, path: &[Bytes]) -> Result<Option<Found>, Refusal>
        ensures { result ≡ names.place (finite.get self.now.map) path.now }
    {
        self.root.spot(path)
    }

    /// How many objects stand directly in the directory at a path. Elsewhere there are none.
    pub fn objects_in(&self, path: &[Bytes]) -> usize
        ensures { result ≡ names.objects_in self.now.map path.now }
    {
        self.root.count(path, NodeKind::Object)
    }

    /// How many directories stand directly in the directory at a path. Elsewhere there are none.
    pub fn directories_in(&self, path: &[Bytes]) -> usize
        ensures { result ≡ names.directories_in self.now.map path.now }
    {
        self.root.count(path, NodeKind::Directory)
    }

    /// Takes the memory for a new name and keeps it, where nothing refuses the name.
    fn keep_ready(&mut self, path: &[Bytes], kind: NodeKind) -> Result<(), Refusal>
    where
        A: Clone,
        ensures refusal { IsRefusedAs result (new_of kind self.old.map path.now) }
        ensures ok { OnOk result (IsReady self.new kind path.now) }
        ensures same { self.new.map ≡ self.old.map }
        ensures err { OnErr result (self.new ≡ self.old) }
    {
        self.ready = Some(self.root.prepare(path, kind)?);
        Ok(())
    }

    /// Takes the memory for a new object, and adds nothing. Whatever was ready before is not any more.
    ///
    /// It is refused as [`add`](Tree::add) is.
    pub fn add_ready(&mut self, path: &[Bytes]) -> Result<(), Refusal>
    where
        A: Clone,
        ensures refusal { IsRefusedAs result (names.add_refusal self.old.map path.now) }
        ensures ok { OnOk result (IsReady self.new AnObject path.now) }
        ensures same { self.new.map ≡ self.old.map }
        ensures err { OnErr result (self.new.ready ≡ None) }
    {
        self.ready = None;
        self.keep_ready(path, NodeKind::Object)
    }

    /// Adds the object that was made ready at this path. It takes no memory.
    pub fn add_commit(&mut self, path: &[Bytes], id: ObjId)
        requires { IsReady self.old AnObject path.now }
        ensures map { self.new.map ≡ with_object self.old.map path.now id }
        ensures ready { self.new.ready ≡ None }
    {
        match self.ready.take() {
            Some(Ready::Object(name)) => self.root.place(path, name, Node::Object(id)),
            _ => unreachable!(),
        }
    }

    /// Adds an object.
    ///
    /// It is NotFound or NotDirectory by the first name before the last that stands for nothing or for an object,
    /// Exists where the path is taken, as the root always is, and after these TableFull where the directory has
    /// 256 objects. Else OutOfMemory is the only error.
    pub fn add(&mut self, path: &[Bytes], id: ObjId) -> Result<(), Refusal>
    where
        A: Clone,
        ensures refusal { IsRefusedAs result (names.add_refusal self.old.map path.now) }
        ensures map { OnOk result (self.new.map ≡ with_object self.old.map path.now id) }
        ensures ready { OnOk result (self.new.ready ≡ None) }
        ensures err { OnErr result (self.new ≡ self.old) }
    {
        self.keep_ready(path, NodeKind::Object)?;
        self.add_commit(path, id);
        Ok(())
    }

    /// Takes the memory for a new directory, and adds nothing. Whatever was ready before is not any more.
    ///
    /// It is refused as [`mkdir`](Tree::mkdir) is.
    pub fn mkdir_ready(&mut self, path: &[Bytes]) -> Result<(), Refusal>
    where
        A: Clone,
        ensures refusal { IsRefusedAs result (names.mkdir_refusal self.old.map path.now) }
        ensures ok { OnOk result (IsReady self.new ADirectory path.now) }
        ensures same { self.new.map ≡ self.old.map }
        ensures err { OnErr result (self.new.ready ≡ None) }
    {
        self.ready = None;
        self.keep_ready(path, NodeKind::Directory)
    }

    /// Adds the directory that was made ready at this path. It takes no memory.
    pub fn mkdir_commit(&mut self, path: &[Bytes], id: DirId)
        requires { IsReady self.old ADirectory path.now }
        ensures map { self.new.map ≡ with_directory self.old.map path.now id }
        ensures ready { self.new.ready ≡ None }
    {
        match self.ready.take() {
            Some(Ready::Directory(name, place, alloc)) => {
                let made = Directory::in_place(place, alloc, id);
                self.root.place(path, name, Node::Directory(made))
            }
            _ => unreachable!(),
        }
    }

    /// Adds an empty directory.
    ///
    /// It is NotFound or NotDirectory by the first name before the last that stands for nothing or for an object,
    /// Exists where the path is taken, as the root always is, and after these TableFull where the directory has
    /// 256 directories. Else OutOfMemory is the only error.
    pub fn mkdir(&mut self, path: &[Bytes], id: DirId) -> Result<(), Refusal>
    where
        A: Clone,
        ensures refusal { IsRefusedAs result (names.mkdir_refusal self.old.map path.now) }
        ensures map { OnOk result (self.new.map ≡ with_directory self.old.map path.now id) }
        ensures ready { OnOk result (self.new.ready ≡ None) }
        ensures err { OnErr result (self.new ≡ self.old) }
    {
        self.keep_ready(path, NodeKind::Directory)?;
        self.mkdir_commit(path, id);
        Ok(())
    }

    /// Changes what stands at a path, where nothing refuses that.
    fn edit(&mut self, path: &[Bytes], edit: Edit) -> Result<(), Refusal>
        ensures refusal { names.refusal_of result ≡ edit_of edit self.old.map path.now }
        ensures map { OnOk result (self.new.map ≡ edited edit self.old.map path.now) }
        ensures ready { OnOk result (self.new.ready ≡ None) }
        ensures err { OnErr result (self.new ≡ self.old) }
    {
        self.root.edit(path, edit)?;
        self.ready = None;
        Ok(())
    }

    /// Puts another object in an object's place, which gives way. It takes no memory.
    ///
    /// It is refused as [`remove`](Tree::remove) is.
    pub fn replace(&mut self, path: &[Bytes], id: ObjId) -> Result<(), Refusal>
        ensures refusal { names.refusal_of result ≡ names.object_refusal self.old.map path.now }
        ensures map { OnOk result (self.new.map ≡ with_object self.old.map path.now id) }
        ensures ready { OnOk result (self.new.ready ≡ None) }
        ensures err { OnErr result (self.new ≡ self.old) }
    {
        self.edit(path, Edit::ReplacesObject(id))
    }

    /// Removes an object. It takes no memory.
    ///
    /// It is NotFound or NotDirectory as [`find`](Tree::find) is, and IsDirectory where a directory stands there.
    pub fn remove(&mut self, path: &[Bytes]) -> Result<(), Refusal>
        ensures refusal { names.refusal_of result ≡ names.object_refusal self.old.map path.now }
        ensures map { OnOk result (self.new.map ≡ finite.remove self.old.map path.now) }
        ensures ready { OnOk result (self.new.ready ≡ None) }
        ensures err { OnErr result (self.new ≡ self.old) }
    {
        self.edit(path, Edit::RemovesObject)
    }

    /// Removes a directory in which nothing stands. It takes no memory.
    ///
    /// It is Busy for the root, NotFound or NotDirectory as [`find`](Tree::find) is, NotDirectory also where an
    /// object stands there, and NotEmpty where something stands in it.
    pub fn rmdir(&mut self, path: &[Bytes]) -> Result<(), Refusal>
        ensures refusal { names.refusal_of result ≡ names.rmdir_refusal self.old.map path.now }
        ensures map { OnOk result (self.new.map ≡ finite.remove self.old.map path.now) }
        ensures ready { OnOk result (self.new.ready ≡ None) }
        ensures err { OnErr result (self.new ≡ self.old) }
    {
        self.edit(path, Edit::RemovesDirectory)
    }

    /// What stands directly in the directory at a path, in byte order of names.
    ///
    /// It is NotFound or NotDirectory as [`find`](Tree::find) is, NotDirectory also where an object stands there,
    /// and else OutOfMemory is the only error.
    pub fn list(&self, path: &[Bytes]) -> Result<Vec<Member<A>, A>, Refusal>
    where
        A: Clone,
        ensures refusal { IsRefusedAs result (names.list_refusal self.now.map path.now) }
        ensures ok { IfOk result (λ members. members.items ≡ members_of self.now.map path.now) }
    {
        self.root.list(path)
    }

    /// What stands directly in the directory at a path, in byte order of names, as the tree lends it. It takes no memory.
    ///
    /// It is NotFound or NotDirectory as [`find`](Tree::find) is, and NotDirectory also where an object stands there.
    pub fn lent(&self, path: &[Bytes]) -> Result<Lent<'_, A>, Refusal>
        ensures refusal { names.refusal_of result ≡ names.list_refusal self.now.map path.now }
        ensures ok { IfOk result (λ members. members ≡ members_of self.now.map path.now) }
    {
        match self.root.directory(path) {
            Err(refusal) => Err(refusal),
            Ok(directory) => Ok(Lent::new(directory)),
        }
    }

    /// All that stands in the tree: each path before what is below it, and names in byte order.
    ///
    /// OutOfMemory is the only error.
    pub fn walk(&self) -> Result<Vec<Standing<A>, A>, Refusal>
    where
        A: Clone,
        ensures ok { IfOk result (λ walked. walked.items ≡ finite.entries self.now.map) }
        ensures err { IfErr result (λ r. r ≡ OutOfMemory) }
    {
        Ok(self.root.walked()?)
    }

    /// A tree in which the same stands. Nothing is ready in it.
    ///
    /// OutOfMemory is the only error.
    pub fn copy(&self) -> Result<Tree<A>, Refusal>
    where
        A: Clone,
        ensures map { IfOk result (λ copy. copy.map ≡ self.now.map) }
        ensures ready { IfOk result (λ copy. copy.ready ≡ None) }
        ensures err { IfErr result (λ r. r ≡ OutOfMemory) }
    {
        Ok(Tree {
            root: self.root.copy()?,
            ready: None,
        })
    }

    /// Whether the same stands in both trees. What is ready does not count. It takes no memory.
    pub fn same(&self, other: &Tree<A>) -> bool
        ensures { IsTrue result ↔ (self.now.map ≡ other.now.map) }
    {
        self.root.same(&other.root)
    }
}
