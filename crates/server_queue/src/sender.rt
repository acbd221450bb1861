//! Who sent a message.
ghost use Rattle.std.specs.Prelude.{◌≡◌};
ghost use Rattle.server_queue.specs.Senders.{sender_of};

use pps_types::{Handle, Kind};

/// Who sent a message.
#[derive(Clone, Copy, Debug)]
pub enum Sender {
    /// The server, to one client or to all.
    Server,
    /// The client with this handle, to the server.
    Client(Handle),
}

/// Who sent a message of that kind. A notice is nobody's.
pub(crate) fn said_by(kind: &Kind) -> Option<Sender>
    ensures { result ≡ sender_of kind.now }
{
    match kind {
        Kind::FromClient(id, _) => Some(Sender::Client(*id)),
        Kind::ToClient(_, _) => Some(Sender::Server),
        Kind::ToAll(_) => Some(Sender::Server),
        _ => None,
    }
}
