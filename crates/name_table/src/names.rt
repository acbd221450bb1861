//! Names, and the objects and directories that they lead to.
ghost use Rattle.std.specs.Prelude.{◌≡◌, ◌+◌, ◌<◌, ◌≤◌, ◌^◌, length, map, ◌↔◌, IsTrue, IsOkUnless, None, IfOk, IfSome, IsSome, OnOk, OnErr, option_map};
ghost use Rattle.std.specs.Option.{option_copied};
ghost use Rattle.pps_types.specs.Names as paths;
ghost use Rattle.pps_types.specs.Names.{refusal_of, add_refusal, mkdir_refusal};
ghost use Rattle.pps_types.specs.Content.{at, members, subdirectories};
ghost use Rattle.pps_types.specs.Plan.{Creates, MakesDirectory, RemovesDirectory};
ghost use Rattle.pps_types.specs.declared.record.Kind.TheVariants.{Change, Truncated, Dropped, Deleted};
ghost use Rattle.pps_types.specs.declared.refusal.Refusal.TheVariants.{OutOfMemory};
ghost use Rattle.number_table.specs.Numbered.{LosesEntry, HasClones};
ghost use Rattle.std.specs.List.{AllByRecursion, filter_map};
ghost use Rattle.pps_types.specs.Refused.{IsRefusedAs};
ghost use Rattle.name_table.specs.Agrees.{HasPath};
ghost use Rattle.name_table.specs.Laws.{ObjectsAreKnown};
ghost use Rattle.name_table.specs.Listed.{objects_at, members_at, member_numbers, listing_refusal, IsBareIn};
ghost use Rattle.name_table.specs.Standing.{standing_of, after, first_standing, known_of, named_content, live_object, directory_in, placed_at, change_refusal, AreReadyFor, AreReadyIn, AreSame, HasHappened, HasMoved, HasReplaced, IsAbove, IsCopy, IsReadyToCreate, IsReadyToMake, LosesReadyNameIf};

use crate::compared::{same_directories, same_objects};
use crate::members::{Objects, object_numbers};
use crate::named::{NamedDirectory, NamedObject};
use alloc_tree::{Lent, Member, Tree};
use number_table::{Iter, Table};
use object_state::Object;
use pps_types::{Bytes, DirId, Found, Handle, HeldLine, ObjId, Refusal};
use std::alloc::{AllocError, Global};
use std::marker::Model;

/// The alive objects of names in rising number, one after the other.
pub type NamedObjects<'a> = Iter<'a, NamedObject>;

/// The directories of names in rising number, one after the other.
pub type NamedDirectories<'a> = Iter<'a, NamedDirectory>;

/// The names of a service, with the objects and the directories that they lead to.
///
/// Objects and directories stand under numbers that rise and never come again. A path is its names from the root on,
/// and the root has none. A call that adds something has a call beside it that takes the memory ahead and changes
/// nothing else, and then takes none and cannot fail.
pub struct Names {
    tree: Tree<Global>,
    objects: Table<NamedObject>,
    directories: Table<NamedDirectory>,
}

// Written out, since each crate that drops one would prove a derived drop anew, with those of all its parts.
impl Drop for Names {
    fn drop(self) {
        let Names {
            tree: _,
            objects: _,
            directories: _,
        } = self;
    }
}

impl Model for Names {
    ghost use Rattle.name_table.specs.Standing.{Named};
    ghost use Rattle.name_table.specs.Agrees.{IsNamed};
    ghost use Rattle.std.specs.Coded.{codes};
    ghost use Rattle.alloc_tree.specs.Held.{coded_held};

    ghost Value = { Named };

    ghost coded = { Prim.hlevel (codes, coded_held) };

    ghost view = { λ n. record { tree = n.tree; objects = n.objects; directories = n.directories } };

    ghost invariant = { λ n. IsNamed n.tree.map n.objects.entries n.objects.next n.directories.entries n.directories.next };
}

impl Names {
    /// The root alone, which has the number 0.
    pub fn new(alloc: Global) -> Result<Names, AllocError>
        ensures { IfOk result (λ names. standing_of names ≡ first_standing) }
    {
        let mut directories = Table::new(alloc, 0);
        directories.reserve(1)?;
        let root = NamedDirectory {
            number: DirId::new(0),
            path: Vec::new(alloc),
        };
        directories.push_reserved(0, root);
        Ok(Names {
            tree: Tree::new(alloc),
            objects: Table::new(alloc, 0),
            directories,
        })
    }

    /// What stands at a path.
    ///
    /// The first name on the way that shows a reason decides: NotFound where it stands for nothing,
    /// NotDirectory where it stands for an object and is not the last.
    pub fn find(&self, path: &[Bytes]) -> Result<Found, Refusal>
        ensures { result ≡ paths.find_at (at (named_content self.now)) path.now }
    {
        self.tree.find(path)
    }

    /// What stands at a path, if anything does.
    pub fn at(&self, path: &[Bytes]) -> Option<Found>
        ensures { result ≡ at (named_content self.now) path.now }
    {
        self.tree.find(path).ok()
    }

    /// The place that a path leads to, and what stands there, if anything does.
    ///
    /// The first name before the last that shows a reason decides: NotFound where it stands for nothing, NotDirectory where
    /// it stands for an object.
    pub fn place(&self, path: &[Bytes]) -> Result<Option<Found>, Refusal>
        ensures { result ≡ paths.place (at (named_content self.now)) path.now }
    {
        self.tree.place(path)
    }

    /// The number that the next object gets.
    pub fn next_object(&self) -> u64
        ensures { result ≡ self.now.objects.next }
    {
        self.objects.next()
    }

    /// The number that the next directory gets.
    pub fn next_directory(&self) -> u64
        ensures { result ≡ self.now.directories.next }
    {
        self.directories.next()
    }

    /// The alive object of a number, if there is one.
    pub fn object(&self, object: ObjId) -> Option<&NamedObject>
        ensures known { option_map known_of (option_copied result) ≡ live_object object self.now }
        ensures placed { option_copied result ≡ placed_at object self.now }
    {
        self.objects.get(object.number())
    }

    /// Does nothing. Its contract is the law that under each number the alive object of that number is found.
    #[inline(always)]
    pub fn objects_are_known(&self)
        ensures { ObjectsAreKnown self.now }
    {
        let _next = self.objects.next();
    }

    /// The directory of a number, if there is one.
    pub fn directory(&self, directory: DirId) -> Option<&NamedDirectory>
        ensures { option_copied result ≡ directory_in directory self.now }
    {
        self.directories.get(directory.number())
    }

    /// Takes the memory for a new object at a path, and changes nothing else. Whatever was ready before is not any more.
    ///
    /// It is refused as a new object in a tree of names is, and else OutOfMemory is the only error.
    pub fn create_ready(&mut self, path: &[Bytes]) -> Result<(), Refusal>
        ensures refusal { IsRefusedAs result (add_refusal self.old.tree.map path.now) }
        ensures ok { OnOk result (IsReadyToCreate self.new path.now) }
        ensures map { self.new.tree.map ≡ self.old.tree.map }
        ensures standing { standing_of self.new ≡ standing_of self.old }
    {
        self.tree.add_ready(path)?;
        let Ok(()) = self.objects.reserve(1) else {
            return Err(Refusal::OutOfMemory);
        };
        Ok(())
    }

    /// Creates the object that was made ready at this path, without attributes, and gives its number.
    ///
    /// The directory is the one that is found at the path without its last name. A server object is owned by its server's handle. It
    /// takes no memory.
    pub fn create(
        &mut self,
        path: Vec<Bytes>,
        directory: DirId,
        nopersist: bool,
        server: Option<Handle>,
    ) -> ObjId
        requires ready { IsReadyToCreate self.old path.items }
        requires above { IsAbove directory path.items self.old }
        requires last { self.old.objects.next + 1 < 2 ^ 64 }
        ensures number { result ≡ self.old.objects.next }
        ensures standing { standing_of self.new ≡ after (Creates (record {
          number = self.old.objects.next;
          directory = directory;
          name = paths.last_name path.items;
          nopersist = nopersist;
          server = server;
        })) (standing_of self.old) }
    {
        let number = self.objects.next();
        self.tree.add_commit(&path, ObjId::new(number));
        let attributes = Object::new(*path.allocator());
        let object = NamedObject {
            number: ObjId::new(number),
            path,
            directory,
            nopersist,
            server,
            attributes,
        };
        self.objects.push_reserved(number, object);
        ObjId::new(number)
    }

    /// Takes the memory for a new directory at a path, and changes nothing else. Whatever was ready before is not any more.
    ///
    /// It is refused as a new directory in a tree of names is, and else OutOfMemory is the only error.
    pub fn make_directory_ready(&mut self, path: &[Bytes]) -> Result<(), Refusal>
        ensures refusal { IsRefusedAs result (mkdir_refusal self.old.tree.map path.now) }
        ensures ok { OnOk result (IsReadyToMake self.new path.now) }
        ensures map { self.new.tree.map ≡ self.old.tree.map }
        ensures standing { standing_of self.new ≡ standing_of self.old }
    {
        self.tree.mkdir_ready(path)?;
        let Ok(()) = self.directories.reserve(1) else {
            return Err(Refusal::OutOfMemory);
        };
        Ok(())
    }

    /// Makes the directory that was made ready at this path, with nothing in it, and gives its number. It takes no memory.
    pub fn make_directory(&mut self, path: Vec<Bytes>) -> DirId
        requires ready { IsReadyToMake self.old path.items }
        requires last { self.old.directories.next + 1 < 2 ^ 64 }
        ensures number { result ≡ self.old.directories.next }
        ensures standing { HasMoved (MakesDirectory path.items) self.old self.new }
    {
        let number = self.directories.next();
        self.tree.mkdir_commit(&path, DirId::new(number));
        let directory = NamedDirectory {
            number: DirId::new(number),
            path,
        };
        self.directories.push_reserved(number, directory);
        DirId::new(number)
    }

    /// Deletes all attributes of an object, if it is alive. It takes no memory.
    pub fn truncate(&mut self, object: ObjId)
        ensures standing { HasHappened object Truncated self.old self.new }
    {
        let Some(known) = self.objects.get_mut(object.number()) else {
            return;
        };
        known.attributes.truncate();
    }

    /// Deletes the nonpersistent attributes of an object, if it is alive. It takes no memory.
    pub fn drop_nonpersistent(&mut self, object: ObjId)
        ensures standing { HasHappened object Dropped self.old self.new }
    {
        let Some(known) = self.objects.get_mut(object.number()) else {
            return;
        };
        known.attributes.drop_nonpersistent();
    }

    /// Takes all memory that lines can want which change an object, and changes nothing else. Copies that it held of other
    /// lines are given back.
    ///
    /// It is TooLarge exactly where the object would pass a limit of objects after all of these lines. Else OutOfMemory
    /// is the only error. Where there is no such object, nothing is wanted.
    pub fn change_ready(&mut self, object: ObjId, lines: &[HeldLine]) -> Result<(), Refusal>
        ensures refusal { IfSome (placed_at object self.old) (λ x.
            IsRefusedAs result (change_refusal lines.now x)) }
        ensures ok { OnOk result (AreReadyFor object lines.now self.new) }
        ensures same { AreSame self.old self.new }
    {
        let Some(known) = self.objects.get_mut(object.number()) else {
            return Ok(());
        };
        known.attributes.apply_ready(lines)
    }

    /// Changes an object by these lines, which were made ready for it. It takes no memory.
    pub fn change(&mut self, object: ObjId, lines: &[HeldLine])
        requires { AreReadyIn object lines.now self.old }
        ensures standing { HasHappened object (Change lines.now) self.old self.new }
    {
        let Some(known) = self.objects.get_mut(object.number()) else {
            return;
        };
        known.attributes.apply_commit(lines);
    }

    /// Deletes an object with its name and its attributes, if it is alive. It takes no memory.
    ///
    /// What is ready for attributes of others stays, and so does the room for more objects and directories. A name that was
    /// ready is not any more, where there was such an object.
    pub fn delete(&mut self, object: ObjId)
        ensures standing { HasHappened object Deleted self.old self.new }
        ensures others { LosesEntry object self.old.objects self.new.objects }
        ensures room { self.old.objects.room ≤ self.new.objects.room }
        ensures directories { self.new.directories ≡ self.old.directories }
        ensures ready { LosesReadyNameIf (placed_at object self.old) self.old self.new }
    {
        let Some(known) = self.objects.remove(object.number()) else {
            return;
        };
        let Ok(()) = self.tree.remove(&known.path) else {
            unreachable!();
        };
    }

    /// Takes the memory for an object that comes to another's place, and changes nothing else.
    ///
    /// AllocError comes only where there was no room for one more object.
    pub fn replace_ready(&mut self) -> Result<(), AllocError>
        ensures ok { OnOk result (0 < self.new.objects.room) }
        ensures err { OnErr result (self.old.objects.room ≡ 0) }
        ensures standing { standing_of self.new ≡ standing_of self.old }
        ensures objects { self.new.objects.entries ≡ self.old.objects.entries }
        ensures directories { self.new.directories ≡ self.old.directories }
        ensures tree { self.new.tree ≡ self.old.tree }
    {
        self.objects.reserve(1)
    }

    /// Deletes an alive object, creates another without attributes at its path, and gives the number of that. A server object
    /// is owned by its server's handle. It takes no memory.
    pub fn replace(&mut self, object: ObjId, nopersist: bool, server: Option<Handle>) -> ObjId
        requires alive { IsSome (placed_at object self.old) }
        requires room { 0 < self.old.objects.room }
        requires last { self.old.objects.next + 1 < 2 ^ 64 }
        ensures number { result ≡ self.old.objects.next }
        ensures standing { HasReplaced object nopersist server self.old self.new }
    {
        let number = ObjId::new(self.objects.next());
        let Some(gone) = self.objects.remove(object.number()) else {
            unreachable!();
        };
        let Ok(()) = self.tree.replace(&gone.path, number) else {
            unreachable!();
        };
        let newcomer = gone.followed_by(number, nopersist, server);
        self.objects.push_reserved(number.number(), newcomer);
        number
    }

    /// Whether nothing stands in a directory, and it is not the root: so also where there is no such directory. It takes no
    /// memory.
    pub fn is_bare(&self, directory: DirId) -> bool
        ensures { IsTrue result ↔ IsBareIn directory self.now }
    {
        let number = directory.number();
        let Some(known) = self.directories.get(number) else {
            return true;
        };
        let path = known.path();
        if path.is_empty() {
            return false;
        }
        if self.tree.objects_in(path) != 0 {
            return false;
        }
        self.tree.directories_in(path) == 0
    }

    /// Removes a directory in which nothing stands, if there is one of this number, as [`is_bare`](Names::is_bare) tells.
    /// The root stays. It takes no memory.
    ///
    /// What is ready for attributes stays, and so does the room for more objects and directories. A name that was ready is
    /// not any more, where there was such a directory.
    pub fn remove_directory(&mut self, directory: DirId)
        requires { IsBareIn directory self.old }
        ensures standing { HasMoved (RemovesDirectory directory) self.old self.new }
        ensures objects { self.new.objects ≡ self.old.objects }
        ensures room { self.old.directories.room ≤ self.new.directories.room }
        ensures ready { LosesReadyNameIf (directory_in directory self.old) self.old self.new }
    {
        let Some(known) = self.directories.remove(directory.number()) else {
            return;
        };
        let Ok(()) = self.tree.rmdir(&known.path) else {
            unreachable!();
        };
    }

    /// How many objects stand directly in the directory at a path. Elsewhere there are none. It takes no memory.
    pub fn objects_in(&self, path: &[Bytes]) -> usize
        ensures { result ≡ length (objects_at (named_content self.now) path.now) }
    {
        self.tree.objects_in(path)
    }

    /// How many directories stand directly in the directory at a path. Elsewhere there are none. It takes no memory.
    pub fn directories_in(&self, path: &[Bytes]) -> usize
        ensures { result ≡ length (subdirectories (named_content self.now) path.now) }
    {
        self.tree.directories_in(path)
    }

    /// The alive objects in rising number, as the names lend them. It takes no memory.
    ///
    /// Each has the path of its directory with its name behind it.
    pub fn objects(&self) -> NamedObjects<'_>
        ensures known { map known_of result ≡ (standing_of self.now).objects }
        ensures paths { AllByRecursion (HasPath (named_content self.now)) result }
    {
        self.objects.iter()
    }

    /// The directories in rising number, with the root, as the names lend them. It takes no memory.
    pub fn directories(&self) -> NamedDirectories<'_>
        ensures { result ≡ (standing_of self.now).directories }
    {
        self.directories.iter()
    }

    /// How many objects are alive. It is kept, so it costs nothing.
    pub fn object_count(&self) -> usize
        ensures { result ≡ length (standing_of self.now).objects }
    {
        self.objects.len()
    }

    /// How many directories there are, with the root. It is kept, so it costs nothing.
    pub fn directory_count(&self) -> usize
        ensures { result ≡ length (standing_of self.now).directories }
    {
        self.directories.len()
    }

    /// What stands directly in the directory at a path, in byte order of names.
    ///
    /// It is NotFound or NotDirectory as [`find`](Names::find) is, NotDirectory also where an object stands there, and else
    /// OutOfMemory is the only error.
    pub fn members(&self, path: &[Bytes]) -> Result<Vec<Member<Global>>, Refusal>
        ensures refusal { IsRefusedAs result (listing_refusal path.now self.now) }
        ensures ok { IfOk result (λ l. l.items ≡ members_at (named_content self.now) path.now) }
    {
        self.tree.list(path)
    }

    /// What stands directly in the directory at a path, in byte order of names, as the names lend it. It takes no memory.
    ///
    /// It is NotFound or NotDirectory as [`find`](Names::find) is, and NotDirectory also where an object stands there.
    pub fn members_lent(&self, path: &[Bytes]) -> Result<Lent<'_, Global>, Refusal>
        ensures refusal { refusal_of result ≡ listing_refusal path.now self.now }
        ensures ok { IfOk result (λ l. l ≡ members_at (named_content self.now) path.now) }
    {
        self.tree.lent(path)
    }

    /// The numbers of the objects directly in a directory, in byte order of names. Where there is no such directory there
    /// are none. OutOfMemory is the only error.
    pub fn objects_of(&self, alloc: Global, directory: DirId) -> Result<Vec<ObjId>, Refusal>
        ensures ok { IfOk result (λ numbers. numbers.items ≡ member_numbers directory self.now) }
        ensures err { IsOkUnless result OutOfMemory }
    {
        let number = directory.number();
        let Some(known) = self.directories.get(number) else {
            return Ok(Vec::new(alloc));
        };
        let Ok(listed) = self.tree.list(&known.path) else {
            return Err(Refusal::OutOfMemory);
        };
        Ok(object_numbers(alloc, &listed)?)
    }

    /// What stands directly in a directory, in byte order of names, as the names lend it. Where there is no such directory,
    /// nothing does. It takes no memory.
    pub fn lent_objects(&self, directory: DirId) -> Objects<'_>
        ensures { filter_map (λ o. o) result ≡ members (named_content self.now) directory }
    {
        let number = directory.number();
        let Some(known) = self.directories.get(number) else {
            return Objects::new(self, None);
        };
        let Ok(listed) = self.tree.lent(&known.path) else {
            unreachable!();
        };
        Objects::new(self, Some(listed))
    }

    /// Names under which the same stands. Nothing is ready in them. OutOfMemory is the only error.
    pub fn copy(&self) -> Result<Names, Refusal>
        ensures standing { IfOk result (λ copy. standing_of copy ≡ standing_of self.now) }
        ensures objects { IfOk result (λ copy. HasClones IsCopy self.now.objects copy.objects) }
        ensures ready { IfOk result (λ copy. copy.tree.ready ≡ None) }
        ensures err { IsOkUnless result OutOfMemory }
    {
        let tree = self.tree.copy()?;
        let objects = self.objects.copy()?;
        let directories = self.directories.copy()?;
        Ok(Names {
            tree,
            objects,
            directories,
        })
    }

    /// Whether the same stands in both. What is ready does not count. It takes no memory.
    pub fn same(&self, other: &Names) -> bool
        ensures { IsTrue result ↔ (standing_of self.now ≡ standing_of other.now) }
    {
        if self.objects.next() != other.objects.next() {
            return false;
        }
        if self.directories.next() != other.directories.next() {
            return false;
        }
        if !same_objects(self.objects.iter(), other.objects.iter()) {
            return false;
        }
        same_directories(self.directories.iter(), other.directories.iter())
    }
}
