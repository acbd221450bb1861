//! Who has to read before more can be written to it.
ghost use Rattle.std.specs.Prelude.{◌≡◌, is_some, true};
ghost use Rattle.pps_types.specs.Checks.{first_refusal, clients, meant, OneClient};
ghost use Rattle.pps_types.specs.WellFormed.{IsContent};
ghost use Rattle.service_state.specs.Tables.{content_in};
ghost use Rattle.handle_requests.specs.Addressed.{is_client_of, has_client, recipients, recipient_checks};
ghost use Rattle.handle_requests.specs.Backlogs.{server_in, server_checks, first_backlogged, backlog_checks, message_checks};

use crate::address::Recipient;
use open_handles::Opened;
use pps_types::{Handle, HandleKind, ObjId, Refusal};
use service_state::Tables;
use sub_reader::number_of;

// Whether a handle is a client's on the object of that number.
fn is_client_of(opened: &Opened<'_>, object: ObjId) -> bool
    ensures { result ≡ is_client_of opened.now object }
{
    matches!(opened.opening.kind, HandleKind::Client) && number_of(opened.found) == object.number()
}

// Whether an object has an open client of that number.
fn has_client(tables: &Tables, object: ObjId, id: Handle) -> bool
    ensures { result ≡ has_client (content_in tables.now) object id }
{
    let handles = tables.handles();
    handles.handles_are_placed();
    match handles.opening(id) {
        None => false,
        Some(opened) => is_client_of(&opened, object),
    }
}

// Why a server's message is refused for the client that it is for.
fn client_refusal(tables: &Tables, object: ObjId, to: Recipient) -> Option<Refusal>
    ensures { result ≡ first_refusal (recipient_checks (content_in tables.now) object to) }
{
    match to {
        Recipient::Everyone => None,
        Recipient::Nobody => Some(Refusal::BadText { line: 1 }),
        Recipient::OneClient(id) => {
            if has_client(tables, object, Handle::new(id)) {
                return None;
            }
            Some(Refusal::NoClient { id })
        }
    }
}

// The client of that number, if it is one of that server object and behind.
fn behind_of_one(tables: &Tables, object: ObjId, id: Handle) -> Option<Handle>
    requires { is_some (server_in (content_in tables.now) object) ≡ true }
    ensures { result ≡ first_backlogged (meant (content_in tables.now) object (OneClient id)) }
{
    tables.are_tied();
    let handles = tables.handles();
    handles.handles_are_placed();
    if !has_client(tables, object, id) {
        return None;
    }
    if handles.is_client_full(object, id) {
        return Some(id);
    }
    None
}

// The first of all clients of a server object that is behind.
fn behind_of_all(tables: &Tables, object: ObjId) -> Option<Handle>
    requires { is_some (server_in (content_in tables.now) object) ≡ true }
    ensures { result ≡ first_backlogged (clients (content_in tables.now) object) }
{
    tables.are_tied();
    let handles = tables.handles();
    handles.handles_are_placed();
    handles.full_client(object)
}

// The first of the clients that a server's message is for that is behind.
fn behind_of(tables: &Tables, object: ObjId, to: Recipient) -> Option<Handle>
    requires { is_some (server_in (content_in tables.now) object) ≡ true }
    ensures { result ≡ first_backlogged (recipients (content_in tables.now) object to) }
{
    match to {
        Recipient::OneClient(id) => behind_of_one(tables, object, Handle::new(id)),
        _ => behind_of_all(tables, object),
    }
}

// Why a server's message with lines is refused for those who have not read enough.
#[tactic(auto, using(crate::proofs::Backlogs::first_behind))]
fn client_backlog(tables: &Tables, object: ObjId, to: Recipient) -> Option<Refusal>
    requires { is_some (server_in (content_in tables.now) object) ≡ true }
    ensures { result ≡ first_refusal (backlog_checks (content_in tables.now) object to) }
{
    match behind_of(tables, object, to) {
        None => None,
        Some(handle) => Some(Refusal::Backlogged { handle }),
    }
}

/// Why a server's message is refused.
pub(crate) fn message_refusal(
    tables: &Tables,
    object: ObjId,
    to: Recipient,
    has_lines: bool,
) -> Option<Refusal>
    requires { is_some (server_in (content_in tables.now) object) ≡ true }
    ensures { result ≡ first_refusal (message_checks (content_in tables.now) object to has_lines) }
{
    if let Some(refusal) = client_refusal(tables, object, to) {
        return Some(refusal);
    }
    if !has_lines {
        return None;
    }
    client_backlog(tables, object, to)
}

// The handle that owns a server object.
fn server_of(tables: &Tables, object: ObjId) -> Option<Handle>
    ensures { result ≡ server_in (content_in tables.now) object }
{
    match tables.names().object(object) {
        None => None,
        Some(known) => known.server(),
    }
}

/// Why a client's message with lines is refused: its server has not read enough.
pub(crate) fn server_backlog(tables: &Tables, object: ObjId, client: Handle) -> Option<Refusal>
    requires { IsContent (content_in tables.now) }
    ensures { result ≡ first_refusal (server_checks (content_in tables.now) object client) }
{
    tables.are_tied();
    let handles = tables.handles();
    handles.handles_are_placed();
    let Some(server) = server_of(tables, object) else {
        return None;
    };
    if handles.is_server_full(object, server, client) {
        return Some(Refusal::Backlogged { handle: server });
    }
    None
}
