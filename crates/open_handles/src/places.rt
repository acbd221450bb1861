//! The handles by where they are.
ghost use Rattle.std.specs.Prelude.{◌≡◌, Some, IsSome};
ghost use Rattle.std.specs.Borrow.{Lends, LendsIf, sem};
ghost use Rattle.std.specs.Option.{option_copied, option_copied_mut};
ghost use Rattle.number_table.specs.Numbered.{LosesEntry};
ghost use Rattle.open_handles.specs.Whole.{place_at, with_place, HasNoneAt, KeepsTable};

use number_table::Table;
use pps_types::Found;
use topics::Topic;

/// A hint that is never right.
const NO_HINT: usize = usize::MAX;

/// The handles on each object, and on each directory, under its number.
#[derive(Drop)]
pub(crate) struct Places {
    pub(crate) objects: Table<Topic>,
    pub(crate) directories: Table<Topic>,
}

impl Places {
    ghost use Rattle.open_handles.specs.contracts.places.Places.{the_row};
    ghost use Rattle.topics.specs.contracts.topic.Topic.{the_row as topic_row};

    /// The handles on an object or a directory.
    #[inline(always)]
    pub(crate) fn get(&self, found: Found) -> Option<&Topic>
        ensures { option_copied result ≡ place_at found self.now }
    {
        match found {
            Found::Object(object) => self.objects.get(object.number()),
            Found::Directory(directory) => self.directories.get(directory.number()),
        }
    }

    /// The handles on an object or a directory, to be changed in place.
    #[inline(always)]
    pub(crate) fn get_mut(&mut self, found: Found) -> Option<&mut Topic>
        ensures* writes_back { sem 𝓛 (LendsIf the_row topic_row self.entry result
            (with_place self.old found) self.old) }
        ensures value { option_copied_mut result ≡ place_at found self.old }
    {
        match found {
            Found::Object(object) => self.objects.get_mut(object.number()),
            Found::Directory(directory) => self.directories.get_mut(directory.number()),
        }
    }

    /// The handles on an object or a directory, which is there, to be changed in place.
    #[inline(always)]
    pub(crate) fn known_mut(&mut self, found: Found) -> &mut Topic
        requires { IsSome (place_at found self.old) }
        ensures* writes_back { sem 𝓛 (Lends the_row topic_row self.entry result
            (with_place self.old found)) }
        ensures value { place_at found self.old ≡ Some result.now }
    {
        match found {
            Found::Object(object) => self.objects.value_mut(object.number(), NO_HINT),
            Found::Directory(directory) => self.directories.value_mut(directory.number(), NO_HINT),
        }
    }
}

/// Drops those of a number on which no handle is.
pub(crate) fn drop_unused(table: &mut Table<Topic>, number: u64)
    ensures gone { HasNoneAt number table.old → LosesEntry number table.old table.new }
    ensures used { (HasNoneAt number table.old → ⊥) → table.new ≡ table.old }
    ensures kept { KeepsTable table.old table.new }
{
    let Some(topic) = table.get(number) else {
        return;
    };
    if topic.is_empty() {
        let _topic = table.remove(number);
    }
}
