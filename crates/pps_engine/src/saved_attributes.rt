//! The attributes of an object that an image saves.
ghost use Rattle.std.specs.Prelude.{◌≡◌, length};
ghost use Rattle.std.specs.Iterator.{YieldsFirstBy, item_count};
ghost use Rattle.pps_types.specs.History.{persistent};
ghost use Rattle.pps_engine.specs.Attributes.{as_saved, IsFirstPersistent};

use object_state::{AttributeRef, Object};
use std::marker::Model;

/// A persistent attribute, as its object lends it.
#[derive(Clone, Copy, Debug, PartialEq, Eq)]
pub struct SavedAttribute<'a> {
    pub name: &'a [u8],
    pub enc: &'a [u8],
    pub value: &'a [u8],
}

// A persistent attribute, and the place behind it.
#[derive(Clone, Copy)]
struct Next<'a> {
    attribute: AttributeRef<'a>,
    behind: usize,
}

// The first persistent attribute from a place on.
fn first_persistent(object: &Object, place: usize) -> Option<Next<'_>>
    ensures { IsFirstPersistent object.now place result }
{
    for index in place..object.len() {
        let Some(attribute) = object.attribute(index) else {
            unreachable!();
        };
        if !attribute.n {
            return Some(Next {
                attribute,
                behind: index + 1,
            });
        }
    }
    None
}

/// How many attributes of an object are persistent.
pub(crate) fn count_persistent(object: &Object) -> usize
    ensures { result ≡ length (persistent object.now.attributes) }
{
    let mut count = 0;
    for index in 0..object.len() {
        let Some(attribute) = object.attribute(index) else {
            unreachable!();
        };
        if !attribute.n {
            count += 1;
        }
    }
    count
}

/// The persistent attributes of an entry in their order, seen as the list of those that are left. It takes no memory.
#[derive(Drop)]
pub struct SavedAttributes<'a> {
    object: Option<&'a Object>,
    place: usize,
}

impl<'a> Model for SavedAttributes<'a> {
    ghost use Rattle.std.specs.Prelude.{List};
    ghost use Rattle.pps_types.specs.Image.{SavedLine};
    ghost use Rattle.pps_engine.specs.Attributes.{saved_from};

    ghost Value = { List SavedLine };

    ghost view = { λ it. saved_from it.object it.place };
}

impl<'a> SavedAttributes<'a> {
    ghost use Rattle.pps_engine.specs.Attributes.{saved_from};

    /// Those of an object, or none.
    pub(crate) fn new(object: Option<&'a Object>) -> Self
        ensures { result ≡ saved_from object.entry 0 }
    {
        SavedAttributes { object, place: 0 }
    }
}

impl<'a> Iterator for SavedAttributes<'a> {
    type Item = SavedAttribute<'a>;

    ghost next_gives = { YieldsFirstBy as_saved (λ rest. rest) };

    ghost remaining = { item_count (λ rest. rest) };

    fn next(&mut self) -> Option<SavedAttribute<'a>> {
        let Some(next) = first_persistent(self.object?, self.place) else {
            self.object = None;
            return None;
        };
        self.place = next.behind;
        Some(SavedAttribute {
            name: next.attribute.name,
            enc: next.attribute.enc,
            value: next.attribute.value,
        })
    }
}
