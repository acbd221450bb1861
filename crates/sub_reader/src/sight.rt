//! What a handle is given of a record.
ghost use Rattle.std.specs.Prelude.{◌≡◌, [], is_some, IfSome};
ghost use Rattle.pps_types.specs.Reading as reading;
ghost use Rattle.sub_reader.specs.Opened.{opened, visible_to};
ghost use Rattle.sub_reader.specs.Lines.{is_told as told, reads_changes_of};
ghost use Rattle.sub_reader.specs.Blocks.{IsBlockFor};

use crate::kinds::{is_directory_kind, is_object_kind};
use crate::opening::Opening;
use pps_block::{Block, is_visible as has_block};
use pps_types::Record;
use server_queue::Entry;

// Whether the record was made by this handle.
fn wrote(opening: &Opening, made: &Record) -> bool
    ensures { result ≡ reading.is_writer opening.now.number made.now.writer }
{
    match made.writer {
        None => false,
        Some(writer) => writer == opening.number,
    }
}

// Whether it is told of a record of its target, where that has a block for it: it is open for reading, and its own
// changes are hidden from all but an object's handle that reflects.
fn is_told(opening: &Opening, made: &Record) -> bool
    ensures { result ≡ reads_changes_of opening.now made.now.writer }
{
    opening.reads
        && (!wrote(opening, made) || (opening.options.reflect && is_object_kind(opening.kind)))
}

// Whether it is given a record of its target.
fn sees(opening: &Opening, made: &Record) -> bool
    ensures { result ≡ reading.sees (opened 0 [] opening.now) made.now }
{
    is_told(opening, made)
        && has_block(
            opening.kind,
            opening.number,
            opening.options.filter.as_ref(),
            &made.kind,
        )
}

// Whether the record is of its target, or of an object directly in it.
fn concerns(target: u64, opening: &Opening, entry: &Entry) -> bool
    ensures { result ≡ reading.concerns (opened target [] opening.now) entry.now }
{
    if is_directory_kind(opening.kind) {
        entry.directory() == target
    } else {
        entry.record().object.number() == target
    }
}

/// Whether a handle on the object or directory of that number is given a record. It takes no memory.
pub fn is_visible(target: u64, opening: &Opening, entry: &Entry) -> bool
    ensures { result ≡ visible_to target opening.now entry.now }
{
    concerns(target, opening, entry) && sees(opening, entry.record())
}

/// Whether a handle on the object or directory of that number is given a record that has a block for it.
pub(crate) fn is_told_of(target: u64, opening: &Opening, entry: &Entry) -> bool
    ensures { result ≡ told (opened target [] opening.now) entry.now }
{
    concerns(target, opening, entry) && is_told(opening, entry.record())
}

/// The block of a record, where a handle on the object or directory of that number is given it. It takes no memory.
pub(crate) fn given_block<'a>(
    target: u64,
    opening: &'a Opening,
    entry: &'a Entry,
) -> Option<Block<'a>>
    ensures visible { is_some result ≡ visible_to target opening.now entry.now }
    ensures block { IfSome result (λ b. IsBlockFor target opening.now entry.now b) }
{
    if !is_told_of(target, opening, entry) {
        return None;
    }
    Block::of(
        opening.kind,
        opening.number,
        opening.options.filter.as_ref(),
        &entry.record().kind,
    )
}
