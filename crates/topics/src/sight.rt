//! Which records a handle of the server or of a client is given.
ghost use Rattle.std.specs.Prelude.{◌≡◌, is_some, List, Option};
ghost use Rattle.pps_types.specs.Filter.{Part};
ghost use Rattle.pps_types.specs.Reading as reading;
ghost use Rattle.pps_types.specs.Reading.{shown};
ghost use Rattle.sub_reader.specs.Opened.{visible_to};

use pps_types::{Handle, HandleKind, Kind, Record};
use server_queue::Entry;
use sub_reader::Opening;

// Whether a handle made the record.
fn wrote(number: Handle, made: &Record) -> bool
    ensures { result ≡ reading.is_writer number made.now.writer }
{
    match made.writer {
        None => false,
        Some(writer) => writer == number,
    }
}

// Whether the server has a block for a record of that kind.
fn is_for_server(kind: &Kind) -> bool
    ensures { result ≡ is_some (reading.shown_to_server kind.now) }
{
    matches!(
        kind,
        Kind::Opened(_) | Kind::Closed(_) | Kind::FromClient(_, _)
    )
}

// Whether the client of that number has a block for a record of that kind.
fn is_for_client(number: Handle, kind: &Kind) -> bool
    ensures { result ≡ is_some (reading.shown_to_client number kind.now) }
{
    match kind {
        Kind::Deleted => true,
        Kind::ToClient(id, _) => *id == number,
        Kind::ToAll(_) => true,
        _ => false,
    }
}

// Whether a handle of that kind and number has a block for a record of that kind, whatever its filter is.
fn has_block(handle: HandleKind, number: Handle, kind: &Kind) -> bool
    requires { reading.style handle ≡ reading.Queue }
    ensures { (parts : Option (List Part)) → result ≡ is_some (shown handle number parts kind.now) }
{
    match handle {
        HandleKind::Server => is_for_server(kind),
        HandleKind::Client => is_for_client(number, kind),
        _ => unreachable!(),
    }
}

/// Whether a handle on the server object of that number is given a record. It makes no block, and asks no filter.
pub(crate) fn is_given(object: u64, opening: &Opening, entry: &Entry) -> bool
    requires { reading.style opening.now.kind ≡ reading.Queue }
    ensures { result ≡ visible_to object opening.now entry.now }
{
    let made = entry.record();
    made.object.number() == object
        && opening.reads
        && has_block(opening.kind, opening.number, &made.kind)
        && !wrote(opening.number, made)
}
