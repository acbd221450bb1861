//! What stands in a directory, as the names lend it.
ghost use Rattle.std.specs.Prelude.{◌≡◌, ◌<◌, Some, IfOk, length, option_map, slice_get};
ghost use Rattle.std.specs.Option.{option_copied};
ghost use Rattle.name_table.specs.Listed.{object_numbers};
ghost use Rattle.name_table.specs.Standing.{known_of};

use crate::named::NamedObject;
use crate::names::Names;
use alloc_tree::{Lent, Member};
use pps_types::{Found, ObjId};
use std::alloc::{AllocError, Global};
use std::marker::Model;

/// The numbers of the objects among these, in their order.
pub(crate) fn object_numbers(
    alloc: Global,
    members: &[Member<Global>],
) -> Result<Vec<ObjId>, AllocError>
    ensures { IfOk result (λ numbers. numbers.items ≡ object_numbers members.now) }
{
    let mut numbers = Vec::new(alloc);
    'members: for member in members {
        match member.found() {
            Found::Object(number) => numbers.push(number)?,
            Found::Directory(_) => (),
        }
    }
    Ok(numbers)
}

/// What stands directly in a directory, in byte order of names, as the names lend it. Where there is no such directory,
/// nothing does.
///
/// A contract sees the objects in their places, and none in the place of a directory.
#[derive(Drop)]
pub struct Objects<'a> {
    names: &'a Names,
    listed: Option<Lent<'a, Global>>,
}

impl<'a> Model for Objects<'a> {
    ghost use Rattle.std.specs.Prelude.{[], List, Option, unwrap_or};
    ghost use Rattle.pps_types.specs.Content.{LiveObject};
    ghost use Rattle.name_table.specs.Listed.{objects_among};
    ghost use Rattle.name_table.specs.Standing.{standing_of};

    ghost Value = { List (Option LiveObject) };

    ghost view = { λ o. objects_among (standing_of o.names.now) (unwrap_or o.listed []) };
}

impl<'a> Objects<'a> {
    ghost use Rattle.std.specs.Prelude.{[], unwrap_or};
    ghost use Rattle.name_table.specs.Listed.{objects_among};
    ghost use Rattle.name_table.specs.Standing.{standing_of};

    /// What is listed, as these names lend it. It takes no memory.
    pub(crate) fn new(names: &'a Names, listed: Option<Lent<'a, Global>>) -> Self
        ensures { result ≡ objects_among (standing_of names.now) (unwrap_or listed.entry []) }
    {
        Objects { names, listed }
    }

    /// How many places there are.
    pub fn len(&self) -> usize
        ensures { result ≡ length self.now }
    {
        match &self.listed {
            None => 0,
            Some(listed) => listed.len(),
        }
    }

    /// The object at a place, where no directory is there.
    pub fn get(&self, place: usize) -> Option<&'a NamedObject>
        requires { place < length self.now }
        ensures { slice_get self.now place ≡ Some (option_map known_of (option_copied result)) }
    {
        let Some(listed) = &self.listed else {
            unreachable!();
        };
        match listed.found(place) {
            Found::Object(object) => self.names.object(object),
            Found::Directory(_) => None,
        }
    }
}
