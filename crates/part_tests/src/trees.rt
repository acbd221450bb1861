//! Names as a tree of objects and directories.

mod small_regions;

use crate::samples::{assert_met, bytes, is_refused, path};
use alloc_tree::Tree;
use pps_types::{Bytes, DirId, Found, ObjId, Refusal};
use std::alloc::{AllocError, Allocator, Global};
use std::process::Abort;
use std::test::Fail;

/// A call that changes a tree, or looks a path up.
#[derive(Clone, Copy)]
enum Call {
    Mkdir(u64),
    MkdirReady,
    Add(u64),
    AddReady,
    Replace(u64),
    Remove,
    Rmdir,
    Find,
    List,
}

fn made<A: Allocator + Clone>(
    tree: &mut Tree<A>,
    call: Call,
    path: &[Bytes],
) -> Result<(), Refusal> {
    match call {
        Call::Mkdir(id) => tree.mkdir(path, DirId::new(id)),
        Call::MkdirReady => tree.mkdir_ready(path),
        Call::Add(id) => tree.add(path, ObjId::new(id)),
        Call::AddReady => tree.add_ready(path),
        Call::Replace(id) => tree.replace(path, ObjId::new(id)),
        Call::Remove => tree.remove(path),
        Call::Rmdir => tree.rmdir(path),
        Call::Find => {
            tree.find(path)?;
            Ok(())
        }
        Call::List => {
            tree.list(path)?;
            Ok(())
        }
    }
}

/// The call of the path of these names.
fn outcome<A: Allocator + Clone>(
    alloc: Global,
    tree: &mut Tree<A>,
    call: Call,
    names: &[&[u8]],
) -> Result<(), Refusal> {
    let path = path(alloc, names)?;
    made(tree, call, path.as_slice())
}

/// What a name is of.
#[derive(Clone, Copy)]
enum Named {
    Object(u64),
    Directory(u64),
}

fn found_of(named: Named) -> Found {
    match named {
        Named::Object(number) => Found::Object(ObjId::new(number)),
        Named::Directory(number) => Found::Directory(DirId::new(number)),
    }
}

/// A tree of a directory with a directory and two objects.
fn small_tree(alloc: Global) -> Result<Tree<Global>, Refusal> {
    let mut tree = Tree::new(alloc);
    let calls: [(Call, &[&[u8]]); 4] = [
        (Call::Mkdir(1), &[b"d"]),
        (Call::Add(1), &[b"d", b"b"]),
        (Call::Mkdir(2), &[b"d", b"a"]),
        (Call::Add(2), &[b"d", b"a!"]),
    ];
    for (call, names) in calls {
        outcome(alloc, &mut tree, call, names)?;
    }
    Ok(tree)
}

/// Whether the directory at the path lists these, in this order.
fn lists<A: Allocator + Clone>(
    tree: &Tree<A>,
    path: &[Bytes],
    wanted: &[(&[u8], Named)],
) -> Result<bool, Refusal> {
    let members = tree.list(path)?;
    for (member, (name, named)) in members.iter().zip(wanted) {
        if member.name() != *name || member.found() != found_of(*named) {
            return Ok(false);
        }
    }
    Ok(members.len() == wanted.len())
}

/// Whether a path is refused so.
fn leads_nowhere(tree: &Tree<Global>, path: &[Bytes], refusal: Refusal) -> Result<bool, Refusal> {
    match tree.place(path) {
        Ok(_) => Ok(false),
        Err(found) => is_refused(Err(found), refusal),
    }
}

/// The call, for 256 names of this letter.
fn fill(alloc: Global, tree: &mut Tree<Global>, call: Call, letter: u8) -> Result<(), Refusal> {
    for number in 0..=255u8 {
        outcome(alloc, tree, call, &[&[letter, number]])?;
    }
    Ok(())
}

/// Makes an object or a directory in two steps. Whether it is not there between them, and is there then.
fn comes_at_the_commit(
    tree: &mut Tree<Global>,
    path: &[Bytes],
    named: Named,
) -> Result<bool, Refusal> {
    let before = match found_of(named) {
        Found::Directory(id) => {
            tree.mkdir_ready(path)?;
            let before = tree.find(path);
            tree.mkdir_commit(path, id);
            before
        }
        Found::Object(id) => {
            tree.add_ready(path)?;
            let before = tree.find(path);
            tree.add_commit(path, id);
            before
        }
    };
    Ok(before == Err(Refusal::NotFound) && tree.find(path) == Ok(found_of(named)))
}

/// Whether the names are these.
fn are_names(path: &[Vec<u8>], names: &[&[u8]]) -> bool {
    for (name, wanted) in path.iter().zip(names) {
        if name.as_slice() != *wanted {
            return false;
        }
    }
    path.len() == names.len()
}

/// Whether a walk comes by these, in this order.
fn walks(tree: &Tree<Global>, wanted: &[(&[&[u8]], Named)]) -> Result<bool, Refusal> {
    let walked = tree.walk()?;
    for (standing, (names, named)) in walked.iter().zip(wanted) {
        if standing.found() != found_of(*named) || !are_names(standing.path(), names) {
            return Ok(false);
        }
    }
    Ok(walked.len() == wanted.len())
}

/// A call of a tree, or what it has to answer.
enum Step {
    /// The call of the path is carried out.
    Does(Call),
    /// The call, for 256 names of this letter, is carried out.
    Fill(Call, u8),
    /// The call of the path is refused so.
    Refuses(Call, Refusal),
    Finds(Named),
    /// The path leads to that place, or to a free one.
    Leads(Option<Named>),
    /// To find the place of the path is refused so.
    LeadsNowhere(Refusal),
    /// The directory at the path lists these, in this order.
    Lists(&'static [(&'static [u8], Named)]),
    /// There are so many objects and directories in the directory at the path.
    Counts(usize, usize),
    /// This is made in two steps, between which it is not there.
    ComesAtTheCommit(Named),
    /// A walk comes by these, in this order.
    Walks(&'static [(&'static [&'static [u8]], Named)]),
    /// Whether the tree is the same as the other one.
    Same(bool),
}

/// A step, of the path of these names.
struct At(&'static [&'static [u8]], Step);

/// Carries out a step of a tree beside another. Whether the tree answers as the step says.
fn is_met(
    alloc: Global,
    tree: &mut Tree<Global>,
    other: &Tree<Global>,
    path: &[Bytes],
    step: &Step,
) -> Result<bool, Refusal> {
    match *step {
        Step::Does(call) => made(tree, call, path)?,
        Step::Fill(call, letter) => fill(alloc, tree, call, letter)?,
        Step::Refuses(call, refusal) => return is_refused(made(tree, call, path), refusal),
        Step::Finds(named) => return Ok(tree.find(path)? == found_of(named)),
        Step::Leads(named) => return Ok(tree.place(path)? == named.map(found_of)),
        Step::LeadsNowhere(refusal) => return leads_nowhere(tree, path, refusal),
        Step::Lists(wanted) => return lists(tree, path, wanted),
        Step::Counts(objects, directories) => {
            return Ok(tree.objects_in(path) == objects && tree.directories_in(path) == directories);
        }
        Step::ComesAtTheCommit(named) => return comes_at_the_commit(tree, path, named),
        Step::Walks(wanted) => return walks(tree, wanted),
        Step::Same(is) => return Ok(tree.same(other) == is && other.same(tree) == is),
    }
    Ok(true)
}

/// Plays the steps in turn, of a tree beside another.
fn play(
    rt: &impl Abort,
    alloc: Global,
    mut tree: Tree<Global>,
    other: &Tree<Global>,
    name: &str,
    steps: &[At],
) -> Result<(), Refusal> {
    for (number, At(names, step)) in steps.iter().enumerate() {
        let path = path(alloc, names)?;
        let is_met = is_met(alloc, &mut tree, other, path.as_slice(), step)?;
        assert_met(rt, is_met, name, number);
    }
    Ok(())
}

const DIRECTORIES_ARE_LISTED_IN_BYTE_ORDER: [At; 3] = [
    At(
        &[b"d"],
        Step::Lists(&[
            (b"a", Named::Directory(2)),
            (b"a!", Named::Object(2)),
            (b"b", Named::Object(1)),
        ]),
    ),
    At(&[], Step::Lists(&[(b"d", Named::Directory(1))])),
    At(&[], Step::Finds(Named::Directory(0))),
];

const A_PATH_LEADS_TO_A_PLACE: [At; 6] = [
    At(&[], Step::Leads(Some(Named::Directory(0)))),
    At(&[b"d", b"b"], Step::Leads(Some(Named::Object(1)))),
    At(&[b"d", b"a"], Step::Leads(Some(Named::Directory(2)))),
    At(&[b"d", b"x"], Step::Leads(None)),
    At(&[b"x", b"y"], Step::LeadsNowhere(Refusal::NotFound)),
    At(
        &[b"d", b"b", b"c"],
        Step::LeadsNowhere(Refusal::NotDirectory),
    ),
];

const MEMBERS_ARE_COUNTED: [At; 4] = [
    At(&[], Step::Counts(0, 1)),
    At(&[b"d"], Step::Counts(2, 1)),
    At(&[b"d", b"b"], Step::Counts(0, 0)),
    At(&[b"x"], Step::Counts(0, 0)),
];

/// Each leaves the tree as it was.
const NEW_NAMES_ARE_REFUSED_IN_ORDER: [At; 10] = [
    At(&[b"d"], Step::Refuses(Call::Mkdir(3), Refusal::Exists)),
    At(&[], Step::Refuses(Call::Mkdir(3), Refusal::Exists)),
    At(
        &[b"d", b"b"],
        Step::Refuses(Call::Mkdir(3), Refusal::Exists),
    ),
    At(&[b"d"], Step::Refuses(Call::Add(3), Refusal::Exists)),
    At(
        &[b"d", b"b"],
        Step::Refuses(Call::AddReady, Refusal::Exists),
    ),
    At(
        &[b"x", b"y"],
        Step::Refuses(Call::MkdirReady, Refusal::NotFound),
    ),
    At(
        &[b"x", b"y"],
        Step::Refuses(Call::Mkdir(3), Refusal::NotFound),
    ),
    At(
        &[b"x", b"y"],
        Step::Refuses(Call::Add(3), Refusal::NotFound),
    ),
    At(
        &[b"d", b"b", b"c"],
        Step::Refuses(Call::Add(3), Refusal::NotDirectory),
    ),
    At(&[], Step::Same(true)),
];

/// Each leaves the tree as it was.
const OTHER_CALLS_ARE_REFUSED_IN_ORDER: [At; 10] = [
    At(&[b"x"], Step::Refuses(Call::Find, Refusal::NotFound)),
    At(
        &[b"d", b"b", b"c"],
        Step::Refuses(Call::Find, Refusal::NotDirectory),
    ),
    At(&[b"d"], Step::Refuses(Call::Remove, Refusal::IsDirectory)),
    At(&[], Step::Refuses(Call::Remove, Refusal::IsDirectory)),
    At(
        &[b"d", b"b", b"c"],
        Step::Refuses(Call::Remove, Refusal::NotDirectory),
    ),
    At(
        &[b"d"],
        Step::Refuses(Call::Replace(3), Refusal::IsDirectory),
    ),
    At(
        &[b"x", b"y"],
        Step::Refuses(Call::Replace(3), Refusal::NotFound),
    ),
    At(
        &[b"d", b"b"],
        Step::Refuses(Call::List, Refusal::NotDirectory),
    ),
    At(&[b"x", b"y"], Step::Refuses(Call::List, Refusal::NotFound)),
    At(&[], Step::Same(true)),
];

/// Each leaves the tree as it was.
const DIRECTORIES_STAY_WHERE_SOMETHING_STANDS_IN_THEM: [At; 5] = [
    At(&[], Step::Refuses(Call::Rmdir, Refusal::Busy)),
    At(&[b"d"], Step::Refuses(Call::Rmdir, Refusal::NotEmpty)),
    At(
        &[b"d", b"b"],
        Step::Refuses(Call::Rmdir, Refusal::NotDirectory),
    ),
    At(&[b"x"], Step::Refuses(Call::Rmdir, Refusal::NotFound)),
    At(&[], Step::Same(true)),
];

/// The other tree is bare.
const NAMES_ARE_REPLACED_AND_REMOVED: [At; 11] = [
    At(&[b"d", b"b"], Step::Does(Call::Replace(3))),
    At(&[b"d", b"b"], Step::Finds(Named::Object(3))),
    At(&[b"d", b"b"], Step::Does(Call::Remove)),
    At(&[b"d", b"b"], Step::Refuses(Call::Find, Refusal::NotFound)),
    At(&[b"d", b"a"], Step::Does(Call::Rmdir)),
    At(&[b"d", b"a"], Step::Refuses(Call::Find, Refusal::NotFound)),
    At(&[b"d", b"a!"], Step::Does(Call::Remove)),
    At(&[b"d", b"a!"], Step::Refuses(Call::Find, Refusal::NotFound)),
    At(&[b"d"], Step::Does(Call::Rmdir)),
    At(&[b"d"], Step::Refuses(Call::Find, Refusal::NotFound)),
    At(&[], Step::Same(true)),
];

const A_DIRECTORY_HAS_AT_MOST_256_OF_A_KIND: [At; 12] = [
    At(&[], Step::Fill(Call::Add(1), b'o')),
    At(&[], Step::Fill(Call::Mkdir(1), b'd')),
    At(&[b"more"], Step::Refuses(Call::Add(2), Refusal::TableFull)),
    At(
        &[b"more"],
        Step::Refuses(Call::AddReady, Refusal::TableFull),
    ),
    At(
        &[b"more"],
        Step::Refuses(Call::Mkdir(2), Refusal::TableFull),
    ),
    At(
        &[b"more"],
        Step::Refuses(Call::MkdirReady, Refusal::TableFull),
    ),
    At(&[b"d\x07"], Step::Refuses(Call::Add(2), Refusal::Exists)),
    At(&[b"d\x07", b"a"], Step::Does(Call::Add(2))),
    At(&[b"o\xff"], Step::Does(Call::Remove)),
    At(&[b"more"], Step::Does(Call::Add(2))),
    At(&[b"d\x00"], Step::Does(Call::Rmdir)),
    At(&[b"d"], Step::Does(Call::Mkdir(2))),
];

const COMMITS_ADD_WHAT_WAS_MADE_READY: [At; 2] = [
    At(&[b"d"], Step::ComesAtTheCommit(Named::Directory(1))),
    At(&[b"d", b"b"], Step::ComesAtTheCommit(Named::Object(1))),
];

const A_WALK_COMES_BY_EACH_PATH_BEFORE_WHAT_IS_BELOW_IT: [At; 2] = [
    At(&[b"d!"], Step::Does(Call::Add(3))),
    At(
        &[],
        Step::Walks(&[
            (&[], Named::Directory(0)),
            (&[b"d"], Named::Directory(1)),
            (&[b"d", b"a"], Named::Directory(2)),
            (&[b"d", b"a!"], Named::Object(2)),
            (&[b"d", b"b"], Named::Object(1)),
            (&[b"d!"], Named::Object(3)),
        ]),
    ),
];

/// The other tree is a copy.
const A_COPY_IS_THE_SAME_UNTIL_ONE_CHANGES: [At; 10] = [
    At(&[b"d"], Step::Does(Call::Find)),
    At(&[], Step::Same(true)),
    At(&[b"d", b"b"], Step::Does(Call::Replace(7))),
    At(&[], Step::Same(false)),
    At(&[b"d", b"b"], Step::Does(Call::Replace(1))),
    At(&[], Step::Same(true)),
    At(&[b"e"], Step::Does(Call::AddReady)),
    At(&[], Step::Same(true)),
    At(&[b"d", b"a!"], Step::Does(Call::Remove)),
    At(&[], Step::Same(false)),
];

/// Plays the steps of a small tree, beside another.
fn play_small(rt: &impl Abort, alloc: Global, name: &str, steps: &[At]) -> Result<(), Refusal> {
    let small = small_tree(alloc)?;
    play(rt, alloc, small_tree(alloc)?, &small, name, steps)
}

#[test]
fn small_trees_answer_in_turn(rt: HostRuntime) -> Result<(), Fail> {
    let alloc = rt.alloc();
    play_small(
        &rt,
        alloc,
        "directories_are_listed_in_byte_order",
        &DIRECTORIES_ARE_LISTED_IN_BYTE_ORDER,
    )?;
    play_small(
        &rt,
        alloc,
        "a_path_leads_to_a_place",
        &A_PATH_LEADS_TO_A_PLACE,
    )?;
    play_small(&rt, alloc, "members_are_counted", &MEMBERS_ARE_COUNTED)?;
    play_small(
        &rt,
        alloc,
        "new_names_are_refused_in_order",
        &NEW_NAMES_ARE_REFUSED_IN_ORDER,
    )?;
    play_small(
        &rt,
        alloc,
        "other_calls_are_refused_in_order",
        &OTHER_CALLS_ARE_REFUSED_IN_ORDER,
    )?;
    play_small(
        &rt,
        alloc,
        "directories_stay_where_something_stands_in_them",
        &DIRECTORIES_STAY_WHERE_SOMETHING_STANDS_IN_THEM,
    )?;
    play_small(
        &rt,
        alloc,
        "a_walk_comes_by_each_path_before_what_is_below_it",
        &A_WALK_COMES_BY_EACH_PATH_BEFORE_WHAT_IS_BELOW_IT,
    )?;
    let tree = small_tree(alloc)?;
    let copy = tree.copy()?;
    play(
        &rt,
        alloc,
        tree,
        &copy,
        "a_copy_is_the_same_until_one_changes",
        &A_COPY_IS_THE_SAME_UNTIL_ONE_CHANGES,
    )?;
    Ok(())
}

#[test]
fn bare_trees_answer_in_turn(rt: HostRuntime) -> Result<(), Fail> {
    let alloc = rt.alloc();
    let bare = Tree::new(alloc);
    let small = small_tree(alloc)?;
    play(
        &rt,
        alloc,
        small,
        &bare,
        "names_are_replaced_and_removed",
        &NAMES_ARE_REPLACED_AND_REMOVED,
    )?;
    play(
        &rt,
        alloc,
        Tree::new(alloc),
        &bare,
        "a_directory_has_at_most_256_of_a_kind",
        &A_DIRECTORY_HAS_AT_MOST_256_OF_A_KIND,
    )?;
    play(
        &rt,
        alloc,
        Tree::new(alloc),
        &bare,
        "commits_add_what_was_made_ready",
        &COMMITS_ADD_WHAT_WAS_MADE_READY,
    )?;
    Ok(())
}

/// The path of so many names, with an object of a long name at its end, made in an empty tree.
fn add_deep(alloc: Global, tree: &mut Tree<Global>, depth: u64) -> Result<Vec<Bytes>, Refusal> {
    let mut deep = path(alloc, &[])?;
    for depth in 1..depth {
        deep.push(bytes(alloc, b"n")?)?;
        tree.mkdir(deep.as_slice(), DirId::new(depth))?;
    }
    deep.push(bytes(alloc, &[b'n'; 255])?)?;
    tree.add(deep.as_slice(), ObjId::new(1))?;
    Ok(deep)
}

#[test]
fn names_lie_32_deep(rt: HostRuntime) -> Result<(), Fail> {
    let mut tree = Tree::new(rt.alloc());
    let deep = add_deep(rt.alloc(), &mut tree, 32)?;
    assert_eq!(rt;
        tree.find(deep.as_slice()),
        Ok(Found::Object(ObjId::new(1)))
    );
    assert_eq!(rt; tree.walk()?.len(), 33);
    Ok(())
}
