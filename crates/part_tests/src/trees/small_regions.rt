//! Trees in regions that are too small.
ghost use Rattle.std.specs.Prelude.{◌<◌};

use super::{Call, lists, made};
use crate::samples::path;
use alloc_tree::{Lent, Tree};
use linked_list_allocator::LocalHeap;
use pps_types::{Bytes, DirId, Found, Refusal};
use std::alloc::{AllocError, Allocator, Global};
use std::process::Abort;
use std::test::Fail;

/// The call wants memory, and the tree is as it was: without names.
fn assert_wants_memory<A: Allocator + Clone>(
    rt: &impl Abort,
    tree: &mut Tree<A>,
    call: Call,
    path: &[Bytes],
) -> Result<(), Refusal> {
    let answer = made(tree, call, path);
    assert!(rt; answer == Err(Refusal::OutOfMemory));
    assert!(rt; tree.find(path) == Err(Refusal::NotFound));
    assert!(rt; lists(tree, &[], &[])?);
    assert!(rt; tree.find(&[]) == Ok(Found::Directory(DirId::new(0))));
    Ok(())
}

/// No name fits into a region of so few bytes.
fn assert_takes_no_names(rt: &impl Abort, alloc: Global, size: usize) -> Result<(), Refusal> {
    let heap = LocalHeap::new(alloc, size)?;
    let mut tree = Tree::new(&heap);
    let long = path(alloc, &[[b'n'; 255].as_slice()])?;
    for call in [
        Call::Add(1),
        Call::Mkdir(1),
        Call::AddReady,
        Call::MkdirReady,
    ] {
        assert_wants_memory(rt, &mut tree, call, long.as_slice())?;
    }
    Ok(())
}

#[test]
fn a_region_that_is_too_small_keeps_its_names(rt: HostRuntime) -> Result<(), Fail> {
    assert_takes_no_names(&rt, rt.alloc(), 64)?;
    Ok(())
}

/// How many directories there are, and how many objects in each: together 200 names.
const DIRECTORIES: u8 = 8;

const OBJECTS: u8 = 24;

/// How much larger each region is than the last one, if that has 1,024 bytes or more. By 16 the test takes some minutes.
const COARSE: usize = 240;

/// A name that begins with this letter, of 1 to 29 bytes.
fn name(alloc: Global, letter: u8) -> Result<Vec<u8>, AllocError> {
    let mut name = Vec::new(alloc);
    name.push(letter)?;
    for _ in 0..u16::from(letter) * 37 % 29 {
        name.push(b'n')?;
    }
    Ok(name)
}

/// Directories, and after each the objects in it.
fn many_paths(alloc: Global) -> Result<Vec<Vec<Bytes>>, AllocError> {
    let mut paths = Vec::new(alloc);
    for directory in 0..DIRECTORIES {
        let directory = name(alloc, b'A' + directory)?;
        paths.push(path(alloc, &[directory.as_slice()])?)?;
        for object in 0..OBJECTS {
            let object = name(alloc, b'a' + object)?;
            paths.push(path(alloc, &[directory.as_slice(), object.as_slice()])?)?;
        }
    }
    Ok(paths)
}

/// Whether these are the same names, and the same is there.
fn are_alike<A: Allocator, B: Allocator>(members: &Lent<A>, others: &Lent<B>) -> bool {
    let count = members.len();
    if others.len() != count {
        return false;
    }
    for place in 0..count {
        let (name, found) = members.at(place);
        let (other_name, other_found) = others.at(place);
        if name != other_name || found != other_found {
            return false;
        }
    }
    true
}

/// Whether both trees list the same at a path.
fn lists_alike<A: Allocator, B: Allocator>(
    tree: &Tree<A>,
    other: &Tree<B>,
    path: &[Bytes],
) -> bool {
    match (tree.lent(path), other.lent(path)) {
        (Ok(members), Ok(others)) => are_alike(&members, &others),
        (Err(refusal), Err(other)) => refusal == other,
        _ => false,
    }
}

/// Whether both trees find and list the same at each of the paths, and list the same at the root.
fn answers_alike<A: Allocator, B: Allocator>(
    tree: &Tree<A>,
    other: &Tree<B>,
    paths: &[Vec<Bytes>],
) -> bool {
    for path in paths {
        if tree.find(path.as_slice()) != other.find(path.as_slice()) {
            return false;
        }
        if !lists_alike(tree, other, path.as_slice()) {
            return false;
        }
    }
    lists_alike(tree, other, &[])
}

/// Whether both trees find the same at a path, and list the same around it.
fn answers_alike_at<A: Allocator, B: Allocator>(
    tree: &Tree<A>,
    other: &Tree<B>,
    path: &[Bytes],
) -> bool {
    let is_listed = match path.split_last() {
        Some((_, parent)) => lists_alike(tree, other, parent),
        None => true,
    };
    is_listed && tree.find(path) == other.find(path)
}

/// A call of a tree in a region and, if that does not want memory, of one with ample memory: they answer alike. If it wants
/// memory, both find and list the same as before. Whether it did not want memory.
fn goes_alike<A: Allocator + Clone>(
    rt: &impl Abort,
    tree: &mut Tree<A>,
    ample: &mut Tree<Global>,
    call: Call,
    path: &[Bytes],
) -> bool {
    let answer = made(tree, call, path);
    if answer == Err(Refusal::OutOfMemory) {
        assert!(rt; answers_alike_at(tree, ample, path));
        return false;
    }
    assert!(rt; answer == made(ample, call, path));
    true
}

/// The calls that make a name, of an object or, at the root, of a directory: the first of them with a preparation.
fn makings(path: &[Bytes], number: u64) -> [Call; 2] {
    match (path.len(), number % 2) {
        (1, 0) => [Call::Mkdir(number), Call::Mkdir(number)],
        (1, _) => [Call::MkdirReady, Call::Mkdir(number)],
        (_, 0) => [Call::Add(number), Call::Replace(number / 2)],
        _ => [Call::AddReady, Call::Add(number)],
    }
}

/// Makes the names in both trees. Whether no call wanted memory.
fn make_alike<A: Allocator + Clone>(
    rt: &impl Abort,
    tree: &mut Tree<A>,
    ample: &mut Tree<Global>,
    paths: &[Vec<Bytes>],
) -> bool {
    let mut is_whole = true;
    let mut number = 0u64;
    for path in paths {
        number = number.saturating_add(1) % 1_000;
        for call in makings(path.as_slice(), number) {
            let is_made = goes_alike(rt, tree, ample, call, path.as_slice());
            if is_whole && !is_made {
                assert!(rt; answers_alike(tree, ample, paths));
            }
            is_whole &= is_made;
        }
    }
    assert!(rt; answers_alike(tree, ample, paths));
    is_whole
}

/// A list, a walk and a copy want memory, or are as with ample memory.
fn assert_read_alike<A: Allocator + Clone>(rt: &impl Abort, tree: &Tree<A>, ample: &Tree<Global>) {
    if let (Ok(members), Ok(wanted)) = (tree.list(&[]), ample.list(&[])) {
        assert_eq!(rt; members.len(), wanted.len());
        for (member, wanted) in members.iter().zip(&wanted) {
            assert!(rt; member.name() == wanted.name() && member.found() == wanted.found());
        }
    }
    if let (Ok(walked), Ok(wanted)) = (tree.walk(), ample.walk()) {
        assert_eq!(rt; walked.len(), wanted.len());
        for (standing, wanted) in walked.iter().zip(&wanted) {
            assert!(rt; standing.path().len() == wanted.path().len());
            assert!(rt; standing.found() == wanted.found());
        }
    }
    match tree.copy() {
        Ok(copy) => assert!(rt; tree.same(&copy)),
        Err(refusal) => assert!(rt; refusal == Refusal::OutOfMemory),
    }
}

/// Takes all names away again, which needs no memory, and sees that none is left.
fn remove_alike<A: Allocator + Clone>(
    rt: &impl Abort,
    tree: &mut Tree<A>,
    ample: &mut Tree<Global>,
    paths: &[Vec<Bytes>],
) {
    for path in paths.iter().rev() {
        let path = path.as_slice();
        let call = if path.len() == 1 {
            Call::Rmdir
        } else {
            Call::Remove
        };
        assert!(rt; made(tree, call, path) == made(ample, call, path));
    }
    assert!(rt; lists_alike(tree, ample, &[]));
    assert!(rt; ample.objects_in(&[]) == 0);
    assert!(rt; ample.directories_in(&[]) == 0);
}

/// Names come and go alike in a heap and with ample memory. Whether no call wanted memory.
fn come_and_go(rt: &impl Abort, alloc: Global, heap: &LocalHeap, paths: &[Vec<Bytes>]) -> bool {
    let mut tree = Tree::new(heap);
    let mut ample = Tree::new(alloc);
    let is_whole = make_alike(rt, &mut tree, &mut ample, paths);
    assert_read_alike(rt, &tree, &ample);
    remove_alike(rt, &mut tree, &mut ample, paths);
    is_whole
}

/// The same in a region of that size, of which nothing is taken then.
fn region_is_whole(
    rt: &impl Abort,
    alloc: Global,
    size: usize,
    paths: &[Vec<Bytes>],
) -> Result<bool, Refusal> {
    let heap = LocalHeap::new(alloc, size)?;
    let is_whole = come_and_go(rt, alloc, &heap, paths);
    let used = heap.used();
    assert!(rt; used == 0);
    Ok(is_whole)
}

/// The size of a region: by 16 bytes from 64 to 1,024, and from there on by more.
fn size_of(number: usize) -> usize
    requires { number < 4096 }
{
    if number < 60 {
        64 + 16 * number
    } else {
        1_024 + COARSE * (number - 60)
    }
}

/// The first size that all names fit into.
fn first_whole(
    rt: &impl Abort,
    alloc: Global,
    beside: &Tree<&LocalHeap>,
    unchanged: &Tree<Global>,
    paths: &[Vec<Bytes>],
) -> Result<Option<usize>, Refusal> {
    for number in 0..4_096usize {
        let size = size_of(number);
        let is_whole = region_is_whole(rt, alloc, size, paths)?;
        assert!(rt; answers_alike(beside, unchanged, paths));
        if is_whole {
            return Ok(Some(size));
        }
    }
    Ok(None)
}

/// Regions from 64 bytes to one that 200 names fit into, beside a tree on another heap.
#[test]
fn regions_of_each_size_leave_names_as_they_were(rt: HostRuntime) -> Result<(), Fail> {
    let alloc = rt.alloc();
    let paths = many_paths(alloc)?;
    let other = LocalHeap::new(alloc, 4_096)?;
    let mut beside = Tree::new(&other);
    let mut unchanged = Tree::new(alloc);
    let few = paths.get(..10).unwrap_or(&[]);
    assert!(rt; make_alike(&rt, &mut beside, &mut unchanged, few));
    let first = first_whole(&rt, alloc, &beside, &unchanged, &paths)?;
    assert!(rt; first.is_some());
    Ok(())
}
