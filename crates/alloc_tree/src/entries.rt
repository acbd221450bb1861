//! The entries of one directory.
ghost use Rattle.std.specs.Prelude.{◌≡◌, ◌↔◌, IsTrue, ◌<◌, ◌-◌, ℕ, [], ◌∷◌, Some, IfOk, IfErr, OnOk, OnErr, count_by, nat_le, vec_len, vec_capacity, slice_index_or, slice_set, remove, map};
ghost use Rattle.alloc_tree.specs.Entries.{NamesRise, IsGapFor, IsPlaceOf};
ghost use Rattle.pps_types.specs.declared.found.Found.TheVariants.{Object as FoundObject};
ghost use Rattle.pps_types.specs.Names.{Name, refusal_of};
ghost use Rattle.alloc_tree.specs.Path.{Changes};
ghost use Rattle.alloc_tree.specs.Refused.{is_of, object_refused, edit_refused, left_by};
ghost use Rattle.alloc_tree.specs.View.{node_found, node_of, standing, empty_refused, node_refused, made_of, IsAlone};
ghost use Rattle.alloc_tree.specs.HeldView.{ready_seen};

use crate::compare::{order, same_name};
use crate::copies::copy_name;
use crate::directory::{Directory, Entry, Node, Ready};
use crate::edit::Edit;
use crate::kind::NodeKind;
use crate::listed::Member;
use pps_types::limits::MEMBERS_MAX;
use pps_types::{DirId, Found, ObjId, Refusal};
use std::alloc::{AllocError, Allocator};
use std::cmp::Ordering;

/// Where a name stands, or else where it would go. The last entry may be the only one, or the newest.
#[inline(always)]
pub(crate) fn search<A: Allocator>(entries: &[Entry<A>], name: &[u8]) -> Result<usize, usize>
    requires { NamesRise entries.now }
    ensures found { IfOk result (IsPlaceOf entries.now name.now) }
    ensures absent { IfErr result (IsGapFor entries.now name.now) }
{
    let last = entries.len().saturating_sub(1);
    if last < entries.len() && same_name(entries[last].name.as_slice(), name) {
        return Ok(last);
    }
    search_by_order(entries, name)
}

/// Where a name stands, or else where it would go, by the order of the names. Names often come in order, so the last
/// entry is asked first.
#[inline(never)]
fn search_by_order<A: Allocator>(entries: &[Entry<A>], name: &[u8]) -> Result<usize, usize>
    requires { NamesRise entries.now }
    ensures found { IfOk result (IsPlaceOf entries.now name.now) }
    ensures absent { IfErr result (IsGapFor entries.now name.now) }
{
    let mut low = 0;
    let mut high = entries.len();
    let mut middle = high.saturating_sub(1);
    while low < high {
        match order(entries[middle].name.as_slice(), name) {
            Ordering::Less => low = middle + 1,
            Ordering::Equal => return Ok(middle),
            Ordering::Greater => high = middle,
        }
        middle = low + (high - low) / 2;
    }
    Err(low)
}

fn is_of_kind<A: Allocator>(node: &Node<A>, kind: NodeKind) -> bool
    ensures { result ≡ is_of kind (node_found node.now) }
{
    match kind {
        NodeKind::Object => matches!(node, Node::Object(_)),
        NodeKind::Directory => matches!(node, Node::Directory(_)),
    }
}

/// How many of them are of a kind.
pub(crate) fn count<A: Allocator>(entries: &[Entry<A>], kind: NodeKind) -> usize
    ensures { result ≡ count_by (λ e. is_of kind (node_found e.node)) entries.now }
{
    let mut counted = 0;
    for entry in entries {
        if is_of_kind(&entry.node, kind) {
            counted += 1;
        }
    }
    counted
}

/// Whether there may be no more of a kind.
pub(crate) fn is_full<A: Allocator>(entries: &[Entry<A>], kind: NodeKind) -> bool
    ensures { result ≡ nat_le 256 (count_by (λ e. is_of kind (node_found e.node)) entries.now) }
{
    entries.len() >= MEMBERS_MAX && count(entries, kind) >= MEMBERS_MAX
}

/// A copy of the name, and room for one more entry.
pub(crate) fn make_ready<A: Allocator + Clone>(
    entries: &mut Vec<Entry<A>, A>,
    name: &[u8],
    kind: NodeKind,
) -> Result<Ready<A>, AllocError>
    ensures ready { IfOk result (λ r. ready_seen (Some r) ≡ Some (kind, name.now)) }
    ensures items { entries.new.items ≡ entries.old.items }
    ensures room { OnOk result (0 < vec_capacity entries.new - vec_len entries.new) }
    ensures len { vec_len entries.new ≡ vec_len entries.old }
    ensures err { OnErr result (vec_capacity entries.new ≡ vec_capacity entries.old) }
{
    let name = Vec::from_slice(entries.allocator().clone()?, name)?;
    let ready = match kind {
        NodeKind::Object => Ready::Object(name),
        NodeKind::Directory => {
            let alloc = entries.allocator();
            let place = Box::new(
                alloc.clone()?,
                Directory::new(alloc.clone()?, DirId::new(0)),
            )?;
            Ready::Directory(name, place, alloc.clone()?)
        }
    };
    entries.reserve(1)?;
    Ok(ready)
}

/// An object stands here.
fn check_object<A: Allocator>(node: &Node<A>) -> Result<(), Refusal>
    ensures refusal { refusal_of result ≡ object_refused (standing node.now) [] }
    ensures alone { OnOk result (IsAlone node.now) }
{
    match node {
        Node::Object(_) => Ok(()),
        Node::Directory(_) => Err(Refusal::IsDirectory),
    }
}

/// An empty directory stands here.
fn check_empty<A: Allocator>(node: &Node<A>) -> Result<(), Refusal>
    ensures refusal { refusal_of result ≡ empty_refused node.now }
    ensures alone { OnOk result (IsAlone node.now) }
{
    match node {
        Node::Object(_) => Err(Refusal::NotDirectory),
        Node::Directory(inner) if inner.is_empty() => Ok(()),
        Node::Directory(_) => Err(Refusal::NotEmpty),
    }
}

/// Nothing refuses the edit of what stands here.
fn check_edit<A: Allocator>(node: &Node<A>, edit: &Edit) -> Result<(), Refusal>
    ensures refusal { refusal_of result ≡ node_refused edit.now node.now }
    ensures alone { OnOk result (IsAlone node.now) }
{
    match edit {
        Edit::RemovesObject => check_object(node),
        Edit::ReplacesObject(_) => check_object(node),
        Edit::RemovesDirectory => check_empty(node),
    }
}

/// Puts an object where something stands.
fn put_object<A: Allocator>(entries: &mut Vec<Entry<A>, A>, i: usize, id: ObjId)
    requires { i < vec_len entries.old }
    ensures { (e : Entry A) → e ≡ slice_index_or entries.old.items i e
        → entries.new.items ≡ slice_set entries.old.items i record { name = e.name; node = node_of id } }
{
    entries[i].node = Node::Object(id);
}

/// Takes an entry out.
fn take_out<A: Allocator>(entries: &mut Vec<Entry<A>, A>, i: usize)
    requires { i < vec_len entries.old }
    ensures { entries.new.items ≡ remove entries.old.items i }
{
    let _ = entries.remove(i);
}

/// Edits the entry at a place, where nothing refuses that.
pub(crate) fn edit_entry<A: Allocator>(
    entries: &mut Vec<Entry<A>, A>,
    i: usize,
    edit: Edit,
) -> Result<(), Refusal>
    requires in_range { i < vec_len entries.old }
    requires rising { NamesRise entries.old.items }
    ensures refusal { (n : Name) (id : ℕ) → IsPlaceOf entries.old.items n i
        → refusal_of result ≡ edit_refused edit (made_of id entries.old.items) (n ∷ []) }
    ensures ok { OnOk result ((n : Name) (id : ℕ) → IsPlaceOf entries.old.items n i
        → Changes (made_of id entries.old.items) (made_of id entries.new.items) (n ∷ []) (left_by edit)) }
    ensures rising { NamesRise entries.new.items }
    ensures err { OnErr result (entries.new ≡ entries.old) }
{
    if let Err(refusal) = check_edit(&entries[i].node, &edit) {
        return Err(refusal);
    }
    if let Some(id) = edit.replacement() {
        put_object(entries, i, id);
        return Ok(());
    }
    take_out(entries, i);
    Ok(())
}

pub(crate) fn found_of<A: Allocator>(node: &Node<A>) -> Found
    ensures { result ≡ node_found node.now }
{
    match node {
        Node::Object(id) => Found::Object(*id),
        Node::Directory(inner) => Found::Directory(inner.id()),
    }
}

/// The names, and what stands there.
pub(crate) fn list_entries<A: Allocator + Clone>(
    entries: &Vec<Entry<A>, A>,
) -> Result<Vec<Member<A>, A>, AllocError>
    ensures { IfOk result (λ members. members.items
        ≡ map (λ e. (e.name.items, node_found e.node)) entries.now.items) }
{
    let mut members = Vec::with_capacity(entries.allocator().clone()?, entries.len())?;
    for entry in entries {
        let name = copy_name(&entry.name)?;
        members.push(Member::new(name, found_of(&entry.node)))?;
    }
    Ok(members)
}

/// Whether this very object stands there.
pub(crate) fn same_object<A: Allocator>(id: ObjId, node: &Node<A>) -> bool
    ensures { IsTrue result ↔ (standing node.now ≡ ([], FoundObject id) ∷ []) }
{
    match node {
        Node::Object(other) => other.number() == id.number(),
        Node::Directory(_) => false,
    }
}
