//! The table of blocks: a column for each kind of handle.
ghost use Rattle.std.specs.Prelude.{◌≡◌, is_some};
ghost use Rattle.std.specs.Option.{option_copied};
ghost use Rattle.pps_types.specs.Reading as reading;
ghost use Rattle.pps_block.specs.Queue.{queue_shown, shown_to_its_clients};

use crate::block::Block;
use crate::lines::from_first_match;
use pps_filter::{Filter, matches};
use pps_types::{Handle, HandleKind, HeldLine, Kind};

// The lines that match, where there are any.
fn matching<'a>(filter: Option<&'a Filter>, lines: &'a [HeldLine]) -> Option<Block<'a>>
    ensures { result ≡ reading.matching_lines (option_copied filter.entry) lines.now }
{
    let lines = from_first_match(filter, lines)?;
    Some(Block::matching(filter, lines))
}

fn to_object<'a>(filter: Option<&'a Filter>, kind: &'a Kind) -> Option<Block<'a>>
    ensures { result ≡ reading.shown_to_object (option_copied filter.entry) kind.now }
{
    match kind {
        Kind::Change(lines) => matching(filter, lines.as_slice()),
        Kind::Truncated => Some(Block::header(b'#')),
        Kind::Dropped => Some(Block::header(b'*')),
        Kind::Deleted => Some(Block::header(b'-')),
        _ => None,
    }
}

fn to_directory<'a>(filter: Option<&'a Filter>, kind: &'a Kind) -> Option<Block<'a>>
    ensures { result ≡ reading.shown_to_directory (option_copied filter.entry) kind.now }
{
    match kind {
        Kind::Created => Some(Block::header(b'+')),
        _ => to_object(filter, kind),
    }
}

fn to_names<'a>(kind: &'a Kind) -> Option<Block<'a>>
    ensures { result ≡ reading.shown_to_names kind.now }
{
    match kind {
        Kind::Created => Some(Block::header(b'+')),
        Kind::Deleted => Some(Block::header(b'-')),
        _ => None,
    }
}

fn to_server<'a>(kind: &'a Kind) -> Option<Block<'a>>
    ensures { result ≡ reading.shown_to_server kind.now }
{
    match kind {
        Kind::Opened(id) => Some(Block::of_client(Some(b'+'), *id, &[])),
        Kind::Closed(id) => Some(Block::of_client(Some(b'-'), *id, &[])),
        Kind::FromClient(id, lines) => Some(Block::of_client(None, *id, lines.as_slice())),
        _ => None,
    }
}

// To the client, or to each client, that it is for.
fn to_its_clients<'a>(kind: &'a Kind) -> Option<Block<'a>>
    ensures { result ≡ shown_to_its_clients kind.now }
{
    match kind {
        Kind::Deleted => Some(Block::header(b'-')),
        Kind::ToClient(_, lines) => Some(Block::all(lines.as_slice())),
        Kind::ToAll(lines) => Some(Block::all(lines.as_slice())),
        _ => None,
    }
}

fn to_client<'a>(number: Handle, kind: &'a Kind) -> Option<Block<'a>>
    ensures { result ≡ reading.shown_to_client number kind.now }
{
    match kind {
        Kind::ToClient(id, _) if *id != number => None,
        _ => to_its_clients(kind),
    }
}

impl<'a> Block<'a> {
    /// What a record of that kind looks like to the handle of that kind and number, where it has a block for it. The
    /// filter is asked about each line at most once, and about none behind the first that matches.
    pub fn of(
        handle: HandleKind,
        number: Handle,
        filter: Option<&'a Filter>,
        kind: &'a Kind,
    ) -> Option<Block<'a>>
        ensures { result ≡ reading.shown handle number (option_copied filter.entry) kind.now }
    {
        match handle {
            HandleKind::Object { .. } => to_object(filter, kind),
            HandleKind::Directory { .. } => to_directory(filter, kind),
            HandleKind::Names => to_names(kind),
            HandleKind::Server => to_server(kind),
            HandleKind::Client => to_client(number, kind),
        }
    }

    /// What a record of that kind looks like in a queue of its server object, to whichever handle it is for: the
    /// server, or a client.
    pub fn in_queue(kind: &'a Kind) -> Option<Block<'a>>
        ensures { result ≡ queue_shown kind.now }
    {
        to_its_clients(kind).or_else(|| to_server(kind))
    }
}

// Whether one of the lines matches.
fn has_match(filter: Option<&Filter>, lines: &[HeldLine]) -> bool
    ensures { result ≡ is_some (reading.matching_lines (option_copied filter.entry) lines.now) }
{
    match lines {
        [] => false,
        [first, rest @ ..] => matches(filter, first) || from_first_match(filter, rest).is_some(),
    }
}

fn is_visible_to_object(filter: Option<&Filter>, kind: &Kind) -> bool
    ensures { result ≡ is_some (reading.shown_to_object (option_copied filter.entry) kind.now) }
{
    match kind {
        Kind::Change(lines) => has_match(filter, lines.as_slice()),
        Kind::Truncated | Kind::Dropped | Kind::Deleted => true,
        _ => false,
    }
}

fn is_visible_to_directory(filter: Option<&Filter>, kind: &Kind) -> bool
    ensures { result ≡ is_some (reading.shown_to_directory (option_copied filter.entry) kind.now) }
{
    match kind {
        Kind::Created => true,
        _ => is_visible_to_object(filter, kind),
    }
}

fn is_visible_to_names(kind: &Kind) -> bool
    ensures { result ≡ is_some (reading.shown_to_names kind.now) }
{
    matches!(kind, Kind::Created | Kind::Deleted)
}

fn is_visible_to_server(kind: &Kind) -> bool
    ensures { result ≡ is_some (reading.shown_to_server kind.now) }
{
    matches!(
        kind,
        Kind::Opened(_) | Kind::Closed(_) | Kind::FromClient(..)
    )
}

fn is_visible_to_client(number: Handle, kind: &Kind) -> bool
    ensures { result ≡ is_some (reading.shown_to_client number kind.now) }
{
    match kind {
        Kind::Deleted | Kind::ToAll(_) => true,
        Kind::ToClient(id, _) => *id == number,
        _ => false,
    }
}

/// Whether a record of that kind has a block for the handle of that kind and number, which is not made for that. The
/// filter is asked about each line at most once.
pub fn is_visible(handle: HandleKind, number: Handle, filter: Option<&Filter>, kind: &Kind) -> bool
    ensures { result ≡ is_some (reading.shown handle number (option_copied filter.entry) kind.now) }
{
    match handle {
        HandleKind::Object { .. } => is_visible_to_object(filter, kind),
        HandleKind::Directory { .. } => is_visible_to_directory(filter, kind),
        HandleKind::Names => is_visible_to_names(kind),
        HandleKind::Server => is_visible_to_server(kind),
        HandleKind::Client => is_visible_to_client(number, kind),
    }
}
