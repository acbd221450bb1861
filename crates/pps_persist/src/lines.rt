//! Lines of images, taken one after the other.
ghost use Rattle.std.specs.Prelude.{◌<◌, List, ℕ, length};
ghost use Rattle.pps_persist.specs.declared.place.Place.TheVariants as places;
ghost use Rattle.image_text.specs.Lines.{IsPlain};
ghost use Rattle.pps_persist.specs.Held.{IsAt, IsPlace, IsWithin, Takes};

use crate::entries::{take_attribute, take_directory, take_object};
use crate::errors::Fault;
use crate::place::{Loaded, Object, Place};
use image_text::{EntryLine, read_beginning, read_entry_line};
use pps_engine::Engine;
use std::alloc::Global;

// Takes the first line.
fn take_beginning(alloc: Global, line: &[u8]) -> Result<Place, Fault>
    ensures { Takes places.First line.now result }
{
    let Some(beginning) = read_beginning(line) else {
        return Err(Fault::Refused);
    };
    let engine = Engine::with_limit(alloc, beginning.default_limit)?;
    Ok(Place::Between(Loaded {
        engine,
        longest: beginning.longest,
        count: 0,
        last: Vec::new(alloc),
    }))
}

// Within an object, or behind it where no more lines of it are to come.
fn in_object(loaded: Loaded, object: Object) -> Place
    ensures { (lines : List (List ℕ)) → IsWithin lines loaded object → IsAt lines result }
{
    if object.to_come == 0 {
        Place::Between(loaded)
    } else {
        Place::Within(loaded, object)
    }
}

// Takes a line between entries.
fn take_entry(alloc: Global, loaded: Loaded, line: &[u8]) -> Result<Place, Fault>
    requires { IsPlace (places.Between loaded) }
    ensures { Takes (places.Between loaded) line.now result }
{
    let Some(entry) = read_entry_line(alloc, line)? else {
        return Err(Fault::Refused);
    };
    match entry {
        EntryLine::Directory(path) => {
            let loaded = take_directory(alloc, loaded, path.into_names())?;
            Ok(Place::Between(loaded))
        }
        EntryLine::Object(path, to_come) => {
            let loaded = take_object(alloc, loaded, path.into_names(), to_come)?;
            Ok(in_object(loaded, Object { to_come, text: 0 }))
        }
        EntryLine::End(count) => {
            if count != loaded.count {
                return Err(Fault::Refused);
            }
            Ok(Place::Behind(loaded.engine))
        }
    }
}

// Takes a line within an object.
fn take_within(alloc: Global, loaded: Loaded, object: Object, line: &[u8]) -> Result<Place, Fault>
    requires place { IsPlace (places.Within loaded object) }
    requires plain { IsPlain line.now }
    requires short { length line.now < 65536 }
    ensures { Takes (places.Within loaded object) line.now result }
{
    let (loaded, object) = take_attribute(alloc, loaded, object, line)?;
    Ok(in_object(loaded, object))
}

/// Takes a line, without its line feed. It is refused exactly where no image has such a line there.
pub(crate) fn take_line(alloc: Global, place: Place, line: &[u8]) -> Result<Place, Fault>
    requires place { IsPlace place }
    requires plain { IsPlain line.now }
    requires short { length line.now < 65536 }
    ensures { Takes place line.now result }
{
    match place {
        Place::First => take_beginning(alloc, line),
        Place::Between(loaded) => take_entry(alloc, loaded, line),
        Place::Within(loaded, object) => take_within(alloc, loaded, object, line),
        Place::Behind(_) => Err(Fault::Refused),
    }
}
