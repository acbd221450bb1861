//! Kinds of handles and of records: how handles read, and which records are kept for them.
ghost use Rattle.std.specs.Prelude.{◌≡◌, true};
ghost use Rattle.pps_types.specs.Reading as reading;
ghost use Rattle.pps_types.specs.Owed as owing;
ghost use Rattle.pps_types.specs.declared.handle_kind.HandleKind.TheVariants.{Object as ObjectHandle, Names as NamesHandle};
ghost use Rattle.sub_reader.specs.Opened.{is_directory, number_of};

use pps_types::{Found, HandleKind, Kind};
use server_queue::Entry;

/// Whether the handle is of a directory: all of it, or its names alone.
#[inline(always)]
pub fn is_directory_kind(kind: HandleKind) -> bool
    ensures { result ≡ reading.is_directory_kind kind }
{
    matches!(kind, HandleKind::Directory { .. } | HandleKind::Names)
}

/// Whether the handle is of a plain object.
#[inline(always)]
pub(crate) fn is_object_kind(kind: HandleKind) -> bool
    ensures { result ≡ reading.is_object_kind kind }
{
    matches!(kind, HandleKind::Object { .. })
}

/// Whether a handle of that kind reads in full mode.
#[inline(always)]
pub fn is_full(kind: HandleKind) -> bool
    ensures { result ≡ reading.is_full_style (reading.style kind) }
{
    matches!(
        kind,
        HandleKind::Object { delta: false } | HandleKind::Directory { delta: false }
    )
}

// Whether records of that kind are kept for those who read an object.
#[inline(always)]
fn is_kept(kind: &Kind) -> bool
    ensures { result ≡ reading.is_chained (ObjectHandle true) kind.now }
{
    match kind {
        Kind::Change(_) => true,
        Kind::Truncated => true,
        Kind::Dropped => true,
        Kind::Deleted => true,
        _ => false,
    }
}

// Whether records of that kind are kept for those who read a directory.
#[inline(always)]
fn is_kept_above(kind: &Kind) -> bool
    ensures { result ≡ reading.is_chained NamesHandle kind.now }
{
    match kind {
        Kind::Created => true,
        _ => is_kept(kind),
    }
}

/// Whether a record is one of those that are kept for the handles of an object or a directory.
#[inline(always)]
pub(crate) fn is_in_chain(of: Found, entry: &Entry) -> bool
    ensures { result ≡ owing.in_chain (is_directory of) (number_of of) entry.now }
{
    let made = entry.record();
    match of {
        Found::Object(object) => made.object == object && is_kept(&made.kind),
        Found::Directory(directory) => {
            entry.directory() == directory.number() && is_kept_above(&made.kind)
        }
    }
}

/// The number of an object or a directory.
#[inline(always)]
pub fn number_of(of: Found) -> u64
    ensures { result ≡ number_of of }
{
    match of {
        Found::Object(object) => object.number(),
        Found::Directory(directory) => directory.number(),
    }
}
