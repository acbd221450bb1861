//! Which handles of a target are given a record, decided once for all that have no filter.
ghost use Rattle.std.specs.Prelude.{◌≡◌, None, is_some};
ghost use Rattle.pps_types.specs.Reading as reading;
ghost use Rattle.sub_reader.specs.Opened.{number_of, visible_to};

use crate::kinds::is_object_kind;
use crate::opening::Opening;
use crate::sight::is_visible;
use pps_block::is_visible as has_block;
use pps_types::{Found, Handle, HandleKind};
use server_queue::Entry;

/// Who wrote a record, and which kinds of handles on an object or a directory have a block of it where they have no filter.
/// On an object nothing is worked out for handles of directories, and on a directory nothing for handles of objects.
#[derive(Clone, Copy, Debug, PartialEq, Eq)]
pub(crate) struct Audience {
    writer: Option<Handle>,
    is_of_directory: bool,
    objects: bool,
    directories: bool,
    names: bool,
}

// Whether a record has a block for the handles of a kind that have no filter.
fn has_plain_block(kind: HandleKind, entry: &Entry) -> bool
    ensures { result ≡ is_some (reading.shown kind 0 None entry.now.record_of.kind) }
{
    has_block(kind, Handle::new(0), None, &entry.record().kind)
}

impl Audience {
    ghost use Rattle.sub_reader.specs.Audience.{IsAudience};

    /// The audience of a record on an object or a directory.
    pub(crate) fn of(of: Found, entry: &Entry) -> Audience
        ensures { IsAudience (number_of of) entry.now result }
    {
        let writer = entry.record().writer;
        match of {
            Found::Object(object) => Audience {
                writer,
                is_of_directory: false,
                objects: entry.record().object == object
                    && has_plain_block(HandleKind::Object { delta: true }, entry),
                directories: false,
                names: false,
            },
            Found::Directory(directory) => {
                let is_in_it = entry.directory() == directory.number();
                Audience {
                    writer,
                    is_of_directory: true,
                    objects: false,
                    directories: is_in_it
                        && has_plain_block(HandleKind::Directory { delta: true }, entry),
                    names: is_in_it && has_plain_block(HandleKind::Names, entry),
                }
            }
        }
    }

    // Whether a handle wrote the record.
    fn has_writer(&self, number: Handle) -> bool
        ensures { result ≡ reading.is_writer number self.now.writer }
    {
        match self.writer {
            None => false,
            Some(writer) => writer == number,
        }
    }

    /// Whether a handle on the object or directory of that number is given the record. It takes no memory.
    pub(crate) fn sees(&self, target: u64, opening: &Opening, entry: &Entry) -> bool
        requires { IsAudience target entry.now self.now }
        ensures { result ≡ visible_to target opening.now entry.now }
    {
        if opening.options.filter.is_some() {
            return is_visible(target, opening, entry);
        }
        if self.objects && is_object_kind(opening.kind) {
            return opening.reads && (opening.options.reflect || !self.has_writer(opening.number));
        }
        if !self.is_of_directory {
            return is_visible(target, opening, entry);
        }
        let is_others = opening.reads && !self.has_writer(opening.number);
        match opening.kind {
            HandleKind::Directory { .. } => self.directories && is_others,
            HandleKind::Names => self.names && is_others,
            _ => is_visible(target, opening, entry),
        }
    }
}
