//! The attributes of an object, by their names and in order.
ghost use Rattle.std.specs.Prelude.{◌≡◌, ◌+◌, ◌≤◌, ◌<◌, ◌^◌, ◌↔◌, [], IsTrue, IfOk, OnOk, IsSome, is_some, length, take, position, slice_get, vec_len, vec_capacity};
ghost use Rattle.std.specs.List.{swap, IsDistinct};
ghost use Rattle.std.specs.Map.{keys_of, lookup, remove_entry};
ghost use Rattle.std.specs.Map.Iter.{deref_pair};
ghost use Rattle.std.specs.Option.{option_map, option_copied};
ghost use Rattle.indexmap.specs.IndexMap.{insert_entry, spare};
ghost use Rattle.pps_types.specs.Bytes.{same};
ghost use Rattle.object_state.specs.Kept.{entries_in, has_name, HaveOwnNames};

use indexmap::IndexMap;
use pps_filter::Name;
use pps_types::AttributeContent;
use std::alloc::{AllocError, Global};
use std::marker::Model;
use std::mem::replace;

/// So many attributes are looked through one by one. Of more there is an index.
const FEW: usize = 8;

/// The name of an attribute, and what it has besides.
pub(crate) type Entry = (Name, AttributeContent);

/// The attributes of which there is an index.
///
/// The hasher's seed is fixed. Names that are chosen to collide make a look-up look at each attribute: at most 1,024
/// between two writes, and while lines are applied as many more as they have made by then.
pub(crate) type Index = IndexMap<Name, AttributeContent>;

/// Few attributes, in one vector; or more, with an index of their names.
#[derive(Drop)]
pub(crate) enum Form {
    Few(Vec<Entry>),
    Many(Box<Index>),
}

/// The attributes, as they are lent.
#[derive(Drop)]
pub(crate) enum AttributesRef<'a> {
    Few(&'a [Entry]),
    Many(&'a Index),
}

/// The attributes of an object by their names, in the order in which they were created.
#[derive(Drop)]
pub(crate) struct Attributes {
    form: Form,
}

impl Model for Attributes {
    ghost use Rattle.object_state.specs.Kept.{Kept, kept_in, HaveOwnNames};

    ghost Value = { Kept };

    ghost view = { λ a. kept_in a.form };

    ghost invariant = { λ a. HaveOwnNames (kept_in a.form).entries };
}

// The place of the attribute of that name, where there is one.
#[inline(always)]
fn place_in(entries: &[Entry], name: &Name) -> Option<usize>
    ensures { result ≡ position (has_name name.now) entries.now }
{
    entries.iter().position(|entry| *name == entry.0)
}

// Puts an attribute in the place of the one of that name, which it gives back, or last, for which there is room.
#[inline(always)]
fn insert_in(
    entries: &mut Vec<Entry>,
    name: Name,
    content: AttributeContent,
) -> Option<AttributeContent>
    requires room { vec_len entries.old < vec_capacity entries.old }
    ensures old { result ≡ lookup (same name) entries.old.items }
    ensures entries { entries.new.items ≡ insert_entry same entries.old.items name content }
    ensures len { vec_len entries.new ≤ vec_len entries.old + 1 }
    ensures capacity { vec_capacity entries.new ≡ vec_capacity entries.old }
{
    match place_in(entries, &name) {
        Some(place) => Some(replace(&mut entries[place].1, content)),
        None => {
            entries.push_reserved((name, content));
            None
        }
    }
}

// Takes out the attribute of that name, where there is one. The others keep their order.
fn remove_in(entries: &mut Vec<Entry>, name: &Name) -> Option<AttributeContent>
    ensures value { result ≡ lookup (same name.now) entries.old.items }
    ensures entries { entries.new.items ≡ remove_entry (same name.now) entries.old.items }
    ensures len { vec_len entries.new ≤ vec_len entries.old }
    ensures capacity { vec_capacity entries.new ≡ vec_capacity entries.old }
{
    let place = place_in(entries, name)?;
    let (_, content) = entries.remove(place);
    Some(content)
}

// Moves attributes into an empty index that has room for them.
fn fill(index: &mut Index, entries: Vec<Entry>)
    requires empty { index.old.entries ≡ [] }
    requires room { length entries.items ≤ spare index.old }
    requires names { HaveOwnNames entries.items }
    ensures { index.new.entries ≡ entries.items }
{
    'entries: for (name, content) in entries {
        index.insert(name, content).unwrap();
    }
}

fn copy_of(alloc: Global, entries: &[Entry]) -> Result<Vec<Entry>, AllocError>
    ensures { IfOk result (λ copy. copy.items ≡ entries.now) }
{
    let mut copy = Vec::with_capacity(alloc, entries.len())?;
    'entries: for entry in entries {
        copy.push_reserved((entry.0.clone()?, entry.1.clone()?));
    }
    Ok(copy)
}

impl Attributes {
    /// No attributes. It takes no memory.
    pub(crate) fn new(alloc: Global) -> Attributes
        ensures { result.entries ≡ [] }
    {
        Attributes {
            form: Form::Few(Vec::new(alloc)),
        }
    }

    /// How many there are. No two have the same name.
    #[inline(always)]
    pub(crate) fn len(&self) -> usize
        ensures len { result ≡ length self.now.entries }
        ensures names { HaveOwnNames self.now.entries }
    {
        match &self.form {
            Form::Few(entries) => entries.len(),
            Form::Many(index) => index.len(),
        }
    }

    /// Whether there are none.
    #[inline(always)]
    pub(crate) fn is_empty(&self) -> bool
        ensures { IsTrue result ↔ (self.now.entries ≡ []) }
    {
        self.len() == 0
    }

    /// Where they take their memory.
    #[inline(always)]
    pub(crate) fn alloc(&self) -> Global {
        match &self.form {
            Form::Few(entries) => *entries.allocator(),
            Form::Many(index) => *index.allocator(),
        }
    }

    /// They, lent.
    #[inline(always)]
    pub(crate) fn lend(&self) -> AttributesRef<'_>
        ensures { entries_in result ≡ self.now.entries }
    {
        match &self.form {
            Form::Few(entries) => AttributesRef::Few(entries),
            Form::Many(index) => AttributesRef::Many(index),
        }
    }

    /// The attribute in that place, where there is one.
    #[inline(always)]
    pub(crate) fn get_index(&self, place: usize) -> Option<(&Name, &AttributeContent)>
        ensures entry { option_map deref_pair result ≡ slice_get self.now.entries place }
        ensures found { IsSome result ↔ (place < length self.now.entries) }
    {
        match &self.form {
            Form::Few(entries) => {
                let entry = entries.get(place)?;
                Some((&entry.0, &entry.1))
            }
            Form::Many(index) => index.get_index(place),
        }
    }

    /// The place of the attribute of that name, where there is one.
    #[inline(always)]
    pub(crate) fn get_index_of(&self, name: &Name) -> Option<usize>
        ensures index { result ≡ position (same name.now) (keys_of self.now.entries) }
        ensures found { is_some result ≡ is_some (lookup (same name.now) self.now.entries) }
        ensures names { HaveOwnNames self.now.entries }
    {
        match &self.form {
            Form::Few(entries) => place_in(entries, name),
            Form::Many(index) => index.get_index_of(name),
        }
    }

    /// What the attribute of that name has, where there is one.
    #[inline(always)]
    pub(crate) fn get(&self, name: &Name) -> Option<&AttributeContent>
        ensures value { option_copied result ≡ lookup (same name.now) self.now.entries }
    {
        match &self.form {
            Form::Few(entries) => {
                let place = place_in(entries, name)?;
                Some(&entries[place].1)
            }
            Form::Many(index) => index.get(name),
        }
    }

    /// Puts an attribute in the place of the one of that name, which it gives back, or last, for which there is room. It
    /// takes no memory.
    #[inline(always)]
    pub(crate) fn insert(
        &mut self,
        name: Name,
        content: AttributeContent,
    ) -> Option<AttributeContent>
        requires { 0 < self.old.room }
        ensures old { result ≡ lookup (same name) self.old.entries }
        ensures entries { self.new.entries ≡ insert_entry same self.old.entries name content }
        ensures room { self.old.room ≤ self.new.room + 1 }
    {
        match &mut self.form {
            Form::Few(entries) => insert_in(entries, name, content),
            Form::Many(index) => index.insert(name, content).unwrap(),
        }
    }

    /// Takes out the attribute of that name, where there is one. The others keep their order.
    pub(crate) fn remove(&mut self, name: &Name) -> Option<AttributeContent>
        ensures value { result ≡ lookup (same name.now) self.old.entries }
        ensures entries { self.new.entries ≡ remove_entry (same name.now) self.old.entries }
        ensures room { self.old.room ≤ self.new.room }
    {
        match &mut self.form {
            Form::Few(entries) => remove_in(entries, name),
            Form::Many(index) => index.shift_remove(name),
        }
    }

    /// The attributes in those places change them.
    pub(crate) fn swap(&mut self, one: usize, other: usize)
        requires one { one < length self.old.entries }
        requires other { other < length self.old.entries }
        ensures { self.new.entries ≡ swap self.old.entries one other }
    {
        match &mut self.form {
            Form::Few(entries) => entries.swap(one, other),
            Form::Many(index) => index.swap_indices(one, other),
        }
    }

    /// Keeps the first so many attributes.
    pub(crate) fn truncate(&mut self, len: usize)
        ensures { self.new.entries ≡ take len self.old.entries }
    {
        match &mut self.form {
            Form::Few(entries) => entries.truncate(len),
            Form::Many(index) => index.truncate(len),
        }
    }

    // Makes an index of few attributes.
    fn make_index(&mut self, more: usize) -> Result<(), AllocError>
        ensures { self.new.entries ≡ self.old.entries }
    {
        let Form::Few(entries) = &mut self.form else {
            return Ok(());
        };
        let alloc: Global = *entries.allocator();
        let room = entries.len().saturating_add(more);
        let mut index = Box::new(alloc, Index::with_capacity(alloc, room)?)?;
        let entries = replace(entries, Vec::new(alloc));
        fill(&mut index, entries);
        self.form = Form::Many(index);
        Ok(())
    }

    // Whether so many more are too many to be looked through.
    fn would_be_many(&self, more: usize) -> bool {
        match &self.form {
            Form::Few(entries) => more > FEW || entries.len() > FEW - more,
            Form::Many(_) => false,
        }
    }

    /// Makes room for so many more: where they are few, for just as many.
    pub(crate) fn reserve(&mut self, more: usize) -> Result<(), AllocError>
        ensures entries { self.new.entries ≡ self.old.entries }
        ensures room { OnOk result (more ≤ self.new.room) }
    {
        if self.would_be_many(more) {
            self.make_index(more)?;
        }
        match &mut self.form {
            Form::Few(entries) => entries.reserve_exact(more),
            Form::Many(index) => index.reserve(more),
        }
    }

    /// Other ones, which are equal.
    pub(crate) fn copy(&self) -> Result<Attributes, AllocError>
        ensures { IfOk result (λ copy. copy.entries ≡ self.now.entries) }
    {
        let form = match &self.form {
            Form::Few(entries) => Form::Few(copy_of(*entries.allocator(), entries)?),
            Form::Many(index) => Form::Many(index.clone()?),
        };
        Ok(Attributes { form })
    }

    /// Whether both have the same attributes in the same order.
    pub(crate) fn same(&self, other: &Attributes) -> bool
        ensures { IsTrue result ↔ (self.now.entries ≡ other.now.entries) }
    {
        let len = self.len();
        if other.len() != len {
            return false;
        }
        'places: for place in 0..len {
            if self.get_index(place) != other.get_index(place) {
                return false;
            }
        }
        true
    }
}
