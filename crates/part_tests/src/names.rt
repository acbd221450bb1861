//! Each public function on its happy path.
ghost use Rattle.std.specs.Prelude.{◌≡◌, ◌∷◌, [], IfOk};

use crate::samples::set_line;
use name_table::{Names, last_name, members_are_listed, moves_are_told, parent};
use pps_types::{Bytes, DirId, Found, HeldLine, ObjId, Refusal};
use std::alloc::{AllocError, Global};
use std::process::Abort;
use std::test::Fail;

/// What a name leads to.
#[derive(Clone, Copy)]
enum Place {
    Object(u64),
    Directory(u64),
}

/// What changes names, and what it answers.
#[derive(Clone, Copy)]
enum Change {
    /// Creates an object of that name in the root. It is given that number.
    Create(u8, u64),
    /// There is something of that name.
    IsTaken(u8),
    /// Makes a directory of that name in the root. It is given that number.
    MakeDirectory(u8, u64),
    /// Removes a directory, if nothing is in it; whether that is so.
    RemoveDirectory(u64, bool),
    /// Changes an object by lines that set two attributes, of which one is not saved.
    SetTwo(u64),
    DropNonpersistent(u64),
    Truncate(u64),
    Delete(u64),
}

/// What is seen of names.
#[derive(Clone, Copy)]
enum Seen {
    /// What a name in the root leads to, if there is one.
    Finds(u8, Option<Place>),
    /// The root is directory 0, under no name.
    Root,
    /// The number that the next object is given.
    NextObject(u64),
    /// Whether there is an object, or a directory, of that number.
    HasObject(u64, bool),
    HasDirectory(u64, bool),
    /// Whether a directory could be removed: nothing is in it, and it is not the root.
    IsBare(u64, bool),
    /// An object in the root, which is not saved, and has no server and no attributes.
    IsNew(u64),
    /// The name of an object.
    Named(u64, u8),
    /// How many attributes an object has.
    Attributes(u64, usize),
    /// How many objects there are, and how many right in the root.
    Objects(usize, usize),
    /// How many directories there are, and how many right in the root.
    Directories(usize, usize),
    /// How many members the root has.
    Members(usize),
    /// The name of the root's member in that place, and what it leads to.
    Member(usize, u8, Place),
    /// The names a, b and c are lent, and that b is a directory's.
    LendsNames,
    /// The objects right in the root are these two, in this order.
    ObjectsOfRoot(u64, u64),
}

/// A step of a script of names.
#[derive(Clone, Copy)]
enum Step {
    Does(Change),
    Sees(Seen),
}

use Change::{
    Create, Delete, DropNonpersistent, IsTaken, MakeDirectory, RemoveDirectory, SetTwo, Truncate,
};
use Place::{Directory, Object};
use Seen::{
    Attributes, Directories, Finds, HasDirectory, HasObject, IsBare, IsNew, LendsNames, Member,
    Members, Named, NextObject, Objects, ObjectsOfRoot, Root,
};
use Step::{Does, Sees};

/// The path of one name.
fn path_of(alloc: Global, name: &[u8]) -> Result<Vec<Bytes>, AllocError>
    ensures { IfOk result (λ path. path.items ≡ name.now ∷ []) }
{
    let mut path = Vec::new(alloc);
    path.push(Bytes::from_slice(alloc, name)?)?;
    Ok(path)
}

fn line(alloc: Global, name: &[u8], n: bool) -> Result<HeldLine, Refusal> {
    set_line(alloc, name, b"", b"1", n)
}

/// Creates an object of one name, if there is place for it.
fn create(names: &mut Names, alloc: Global, name: u8) -> Result<Option<ObjId>, Refusal> {
    let path = path_of(alloc, &[name])?;
    names.create_ready(&path)?;
    let root = DirId::new(0);
    if names.find(&[]) == Ok(Found::Directory(root)) && names.next_object() < 9 {
        return Ok(Some(names.create(path, root, true, None)));
    }
    Ok(None)
}

fn is_taken(names: &mut Names, alloc: Global, name: u8) -> Result<bool, Refusal> {
    let path = path_of(alloc, &[name])?;
    Ok(names.create_ready(&path) == Err(Refusal::Exists))
}

/// Makes a directory of one name, if there is a number for it.
fn make_directory(names: &mut Names, alloc: Global, name: u8) -> Result<Option<DirId>, Refusal> {
    let path = path_of(alloc, &[name])?;
    names.make_directory_ready(&path)?;
    if names.next_directory() < 9 {
        return Ok(Some(names.make_directory(path)));
    }
    Ok(None)
}

/// Removes a directory if nothing is in it. Gives whether that was so.
fn remove_directory(names: &mut Names, directory: DirId) -> bool {
    let is_bare = names.is_bare(directory);
    if is_bare {
        names.remove_directory(directory);
    }
    is_bare
}

fn set_two(names: &mut Names, alloc: Global, object: ObjId) -> Result<(), Refusal> {
    let lines = [line(alloc, b"x", true)?, line(alloc, b"y", false)?];
    names.change_ready(object, &lines)?;
    if names.object(object).is_some() {
        names.change(object, &lines);
    }
    Ok(())
}

/// Does a step. Gives whether it answers as it must.
fn carry_out(names: &mut Names, alloc: Global, change: Change) -> Result<bool, Refusal> {
    match change {
        Create(name, number) => Ok(create(names, alloc, name)? == Some(ObjId::new(number))),
        IsTaken(name) => is_taken(names, alloc, name),
        MakeDirectory(name, number) => {
            Ok(make_directory(names, alloc, name)? == Some(DirId::new(number)))
        }
        RemoveDirectory(number, is_bare) => {
            Ok(remove_directory(names, DirId::new(number)) == is_bare)
        }
        SetTwo(number) => {
            set_two(names, alloc, ObjId::new(number))?;
            Ok(true)
        }
        DropNonpersistent(number) => {
            names.drop_nonpersistent(ObjId::new(number));
            Ok(true)
        }
        Truncate(number) => {
            names.truncate(ObjId::new(number));
            Ok(true)
        }
        Delete(number) => {
            names.delete(ObjId::new(number));
            Ok(true)
        }
    }
}

fn found(place: Place) -> Found {
    match place {
        Object(number) => Found::Object(ObjId::new(number)),
        Directory(number) => Found::Directory(DirId::new(number)),
    }
}

fn finds(names: &Names, alloc: Global, name: u8, wanted: Option<Place>) -> Result<bool, Refusal> {
    let path = path_of(alloc, &[name])?;
    match (names.find(&path), wanted) {
        (Ok(is), Some(place)) => Ok(is == found(place)),
        (Err(refusal), None) => Ok(refusal == Refusal::NotFound),
        _ => Ok(false),
    }
}

fn is_root(names: &Names) -> bool {
    let root = DirId::new(0);
    names.find(&[]) == Ok(Found::Directory(root))
        && match names.directory(root) {
            Some(directory) => directory.number() == root && directory.path().is_empty(),
            None => false,
        }
}

fn is_new(names: &Names, number: u64) -> bool {
    match names.object(ObjId::new(number)) {
        Some(object) => {
            object.number() == ObjId::new(number)
                && object.directory() == DirId::new(0)
                && object.path().len() == 1
                && object.is_nopersist()
                && object.server().is_none()
                && object.attributes().is_empty()
        }
        None => false,
    }
}

fn is_named(names: &Names, number: u64, name: u8) -> bool {
    match names.object(ObjId::new(number)) {
        Some(object) => object.name() == [name].as_slice(),
        None => false,
    }
}

fn has_attributes(names: &Names, number: u64, count: usize) -> bool {
    match names.object(ObjId::new(number)) {
        Some(object) => object.attributes().len() == count,
        None => false,
    }
}

fn has_members(names: &Names, count: usize) -> Result<bool, Refusal> {
    Ok(names.members(&[])?.len() == count)
}

fn has_member(names: &Names, place: usize, name: u8, wanted: Place) -> Result<bool, Refusal> {
    match names.members(&[])?.get(place) {
        Some(member) => Ok(member.name() == [name].as_slice() && member.found() == found(wanted)),
        None => Ok(false),
    }
}

/// The names that are lent of the root's members, one after the other, those of directories with a slash.
fn lent_names(names: &Names, alloc: Global) -> Result<Vec<u8>, Refusal> {
    let lent = names.members_lent(&[])?;
    let mut text = Vec::new(alloc);
    for place in 0..lent.len() {
        let (name, found) = lent.at(place);
        text.extend_from_slice(name)?;
        if let Found::Directory(_) = found {
            text.push(b'/')?;
        }
    }
    Ok(text)
}

fn has_objects(names: &Names, alloc: Global, first: u64, second: u64) -> Result<bool, Refusal> {
    let objects = names.objects_of(alloc, DirId::new(0))?;
    Ok(objects.as_slice() == [ObjId::new(first), ObjId::new(second)].as_slice())
}

/// Whether that is seen of names.
fn holds(names: &Names, alloc: Global, seen: Seen) -> Result<bool, Refusal> {
    match seen {
        Finds(name, place) => finds(names, alloc, name, place),
        Root => Ok(is_root(names)),
        NextObject(number) => Ok(names.next_object() == number),
        HasObject(number, is) => Ok(names.object(ObjId::new(number)).is_some() == is),
        HasDirectory(number, is) => Ok(names.directory(DirId::new(number)).is_some() == is),
        IsBare(number, is) => Ok(names.is_bare(DirId::new(number)) == is),
        IsNew(number) => Ok(is_new(names, number)),
        Named(number, name) => Ok(is_named(names, number, name)),
        Attributes(number, count) => Ok(has_attributes(names, number, count)),
        Objects(all, in_root) => {
            Ok(names.object_count() == all && names.objects_in(&[]) == in_root)
        }
        Directories(all, in_root) => {
            Ok(names.directory_count() == all && names.directories_in(&[]) == in_root)
        }
        Members(count) => has_members(names, count),
        Member(place, name, wanted) => has_member(names, place, name, wanted),
        LendsNames => Ok(lent_names(names, alloc)?.as_slice() == b"ab/c".as_slice()),
        ObjectsOfRoot(first, second) => has_objects(names, alloc, first, second),
    }
}

fn play(rt: &impl Abort, alloc: Global, names: &mut Names, steps: &[Step]) -> Result<(), Refusal> {
    for (place, step) in steps.iter().enumerate() {
        let is_right = match step {
            Does(done) => carry_out(names, alloc, *done)?,
            Sees(seen) => holds(names, alloc, *seen)?,
        };
        assert!(rt; is_right, "step {place}");
    }
    Ok(())
}

#[test]
fn a_path_ends_in_its_last_name(rt: HostRuntime) -> Result<(), Fail> {
    let path = path_of(rt.alloc(), b"gps")?;
    assert_eq!(rt; last_name(&path), b"gps".as_slice());
    assert!(rt; parent(&path).is_empty());
    assert!(rt; last_name(&[]).is_empty());
    moves_are_told();
    members_are_listed();
    Ok(())
}

/// An object is created, changed and deleted.
const OBJECTS: [Step; 20] = [
    Sees(Root),
    Sees(NextObject(0)),
    Does(Create(b'a', 0)),
    Sees(Finds(b'a', Some(Object(0)))),
    Does(IsTaken(b'a')),
    Sees(IsNew(0)),
    Does(SetTwo(0)),
    Sees(Attributes(0, 2)),
    Does(DropNonpersistent(0)),
    Sees(Attributes(0, 1)),
    Does(Truncate(0)),
    Sees(Attributes(0, 0)),
    Does(Create(b'b', 1)),
    Sees(Objects(2, 2)),
    Does(Delete(0)),
    Sees(Finds(b'a', None)),
    Sees(HasObject(0, false)),
    Sees(HasObject(1, true)),
    Sees(Objects(1, 1)),
    Does(Create(b'a', 2)),
];

/// A directory is made and removed.
const DIRECTORIES: [Step; 8] = [
    Does(MakeDirectory(b'd', 1)),
    Sees(HasDirectory(1, true)),
    Sees(Directories(2, 1)),
    Sees(IsBare(0, false)),
    Does(RemoveDirectory(1, true)),
    Sees(HasDirectory(1, false)),
    Sees(Directories(1, 0)),
    Sees(Finds(b'd', None)),
];

/// Two objects, and between their names that of a directory.
const MEMBERS: [Step; 10] = [
    Does(Create(b'c', 0)),
    Does(MakeDirectory(b'b', 1)),
    Does(Create(b'a', 1)),
    Sees(Members(3)),
    Sees(Member(0, b'a', Object(1))),
    Sees(Member(1, b'b', Directory(1))),
    Sees(Member(2, b'c', Object(0))),
    Sees(LendsNames),
    Sees(ObjectsOfRoot(1, 0)),
    Sees(Named(1, b'a')),
];

/// Plays steps on new names.
fn play_new(rt: &impl Abort, alloc: Global, steps: &[Step]) -> Result<(), Refusal> {
    let mut names = Names::new(alloc)?;
    play(rt, alloc, &mut names, steps)
}

#[test]
fn objects_and_directories_have_names(rt: HostRuntime) -> Result<(), Fail> {
    play_new(&rt, rt.alloc(), &OBJECTS)?;
    play_new(&rt, rt.alloc(), &DIRECTORIES)?;
    play_new(&rt, rt.alloc(), &MEMBERS)?;
    Ok(())
}

#[test]
fn copies_are_compared(rt: HostRuntime) -> Result<(), Fail> {
    let alloc = rt.alloc();
    let mut names = Names::new(alloc)?;
    play(&rt, alloc, &mut names, &[Does(Create(b'a', 0))])?;
    let mut copy = names.copy()?;
    assert!(rt; names.same(&copy));
    let steps = [Sees(Finds(b'a', Some(Object(0)))), Does(Delete(0))];
    play(&rt, alloc, &mut copy, &steps)?;
    assert!(rt; !names.same(&copy));
    Ok(())
}
