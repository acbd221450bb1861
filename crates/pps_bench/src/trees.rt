//! Names in a tree.

use alloc_tree::Tree;
use pps_types::{Bytes, DirId, Found, ObjId, Refusal};
use std::alloc::{AllocError, Global};

/// How many objects are looked up.
const OBJECTS: u32 = 65_535;

/// A name of three letters, from 256.
fn name(alloc: Global, front: u8, number: u8) -> Result<Bytes, AllocError> {
    Bytes::from_slice(alloc, &[front, b'a' + number / 16, b'a' + number % 16])
}

/// The path of a directory: the root, or up to seven deep.
fn directory(alloc: Global, number: u8) -> Result<Vec<Bytes>, AllocError> {
    let mut path = Vec::new(alloc);
    if number > 0 {
        path.push(name(alloc, b'd', number)?)?;
        for _ in 0..number % 7 {
            path.push(Bytes::from_slice(alloc, b"s")?)?;
        }
    }
    Ok(path)
}

/// The path of an object, one to eight deep.
fn object(alloc: Global, number: u32) -> Result<Vec<Bytes>, AllocError> {
    let [.., high, low] = number.to_be_bytes();
    let mut path = directory(alloc, high)?;
    path.push(name(alloc, b'o', low)?)?;
    Ok(path)
}

fn make_directory(tree: &mut Tree<Global>, path: &[Bytes]) -> Result<(), Refusal> {
    for depth in 1..=path.len() {
        tree.mkdir(&path[..depth], DirId::new(1))?;
    }
    Ok(())
}

fn make_directories(alloc: Global, tree: &mut Tree<Global>) -> Result<(), Refusal> {
    for number in 1..=255u8 {
        let path = directory(alloc, number)?;
        make_directory(tree, path.as_slice())?;
    }
    Ok(())
}

fn paths_of_objects(alloc: Global) -> Result<Vec<Vec<Bytes>>, AllocError> {
    let mut paths = Vec::new(alloc);
    for number in 0..OBJECTS {
        paths.push(object(alloc, number)?)?;
    }
    Ok(paths)
}

fn add_all(tree: &mut Tree<Global>, paths: &[Vec<Bytes>]) -> Result<(), Refusal> {
    for path in paths {
        tree.add(path.as_slice(), ObjId::new(1))?;
    }
    Ok(())
}

fn is_found(tree: &Tree<Global>, path: &[Bytes]) -> bool {
    tree.find(path) == Ok(Found::Object(ObjId::new(1)))
}

fn count_found(tree: &Tree<Global>, paths: &[Vec<Bytes>], rounds: u32) -> u64 {
    let mut done = 0u64;
    for round in 0..rounds {
        let at = (u64::from(round) * 7_919 % u64::from(OBJECTS)) as usize;
        if let Some(path) = paths.get(at) {
            if is_found(tree, path.as_slice()) {
                done = done.wrapping_add(1);
            }
        }
    }
    done
}

/// Looks one of 65,535 objects up that often, and counts those that are found.
pub(crate) fn find_often(alloc: Global, rounds: u32) -> Result<u64, Refusal> {
    let mut tree = Tree::new(alloc);
    make_directories(alloc, &mut tree)?;
    let paths = paths_of_objects(alloc)?;
    add_all(&mut tree, paths.as_slice())?;
    Ok(count_found(&tree, paths.as_slice(), rounds))
}

fn change_all(tree: &mut Tree<Global>, paths: &[Vec<Bytes>], rounds: u32) -> Result<u64, Refusal> {
    let mut done = 0u64;
    for _ in 0..rounds {
        for path in paths {
            tree.remove(path.as_slice())?;
            tree.add(path.as_slice(), ObjId::new(2))?;
            done = done.wrapping_add(1);
        }
    }
    Ok(done)
}

/// Removes each of a directory's objects, which are that many, up to 256, and adds it again, that often, and counts that.
pub(crate) fn change_often(alloc: Global, objects: u32, rounds: u32) -> Result<u64, Refusal> {
    let mut tree = Tree::new(alloc);
    let parent = directory(alloc, 1)?;
    make_directory(&mut tree, parent.as_slice())?;
    let mut paths = Vec::new(alloc);
    for number in 256..256u32.saturating_add(objects) {
        paths.push(object(alloc, number)?)?;
    }
    add_all(&mut tree, paths.as_slice())?;
    change_all(&mut tree, paths.as_slice(), rounds)
}
