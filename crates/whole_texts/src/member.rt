//! Members of a target.
ghost use Rattle.std.specs.Prelude.{◌≡◌, ◌≤◌, [], length, map, vec_capacity};
ghost use Rattle.pps_types.specs.History.{line_of};
ghost use Rattle.attr_text.specs.Printed.{HasRoomFor};
ghost use Rattle.pps_block.specs.Matching.{matching_text};
ghost use Rattle.whole_texts.specs.Lengths.{Gains};

use object_state::Object;
use pps_filter::Filter;
use std::marker::Model;

/// An object's name with its attributes, as its tree lends them. A deleted object has none.
///
/// A contract sees the name, and the attributes as lines.
#[derive(Drop)]
pub struct Member<'a> {
    name: &'a [u8],
    object: Option<&'a Object>,
}

impl<'a> Model for Member<'a> {
    ghost use Rattle.std.specs.Option.{option_copied};
    ghost use Rattle.pps_types.specs.Reading.{Member as ReadMember};
    ghost use Rattle.whole_texts.specs.Whole.{lines_of};

    ghost Value = { ReadMember };

    ghost view = { λ m. record { name = m.name.now; lines = lines_of (option_copied m.object) } };
}

impl<'a> Member<'a> {
    /// An alive object.
    pub fn alive(name: &'a [u8], object: &'a Object) -> Member<'a>
        ensures name { result.name ≡ name.now }
        ensures lines { result.lines ≡ map line_of object.now.attributes }
    {
        Member {
            name,
            object: Some(object),
        }
    }

    /// An object that is deleted.
    pub fn dead(name: &'a [u8]) -> Member<'a>
        ensures name { result.name ≡ name.now }
        ensures lines { result.lines ≡ [] }
    {
        Member { name, object: None }
    }

    /// Its name.
    pub fn name(&self) -> &'a [u8]
        ensures { result.now ≡ self.now.name }
    {
        self.name
    }

    /// How many bytes the printed lines of its attributes have that match. It takes no memory.
    pub(crate) fn lines_len(&self, filter: Option<&Filter>) -> usize
        ensures { result ≡ length (matching_text filter.entry self.now.lines) }
    {
        match self.object {
            None => 0,
            Some(object) => object.print_len(filter),
        }
    }

    /// Pushes the printed lines of its attributes that match, for which there is room. It takes no memory.
    pub(crate) fn push_lines(&self, out: &mut Vec<u8>, filter: Option<&Filter>)
        requires { HasRoomFor out.old (matching_text filter self.now.lines) }
        ensures items { Gains out.old out.new (matching_text filter.entry self.now.lines) }
        ensures capacity { vec_capacity out.old ≤ vec_capacity out.new }
    {
        if let Some(object) = self.object {
            object.push_print(out, filter);
        }
    }
}
