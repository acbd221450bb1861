//! Records: what happened to an object, in the order in which it happened.

use crate::line::Lines;
use crate::numbers::{Handle, ObjId};

/// What a record says of its object.
#[derive(Debug, PartialEq, Eq, Drop)]
pub enum Kind {
    Created,
    /// Attributes were set and deleted.
    Change(Lines),
    /// All attributes were deleted, by an open with `t`.
    Truncated,
    /// A critical publisher's handle was closed: the nonpersistent attributes were deleted.
    Dropped,
    Deleted,
    /// A client of a server object opened.
    Opened(Handle),
    /// A client of a server object closed.
    Closed(Handle),
    /// A client's message to its server.
    FromClient(Handle, Lines),
    /// A server's message to one client.
    ToClient(Handle, Lines),
    /// A server's message to all clients.
    ToAll(Lines),
}

/// One thing that happened to an object. The writer is the handle of a Write, and nobody else's.
#[derive(Debug, PartialEq, Eq, Drop)]
pub struct Record {
    pub object: ObjId,
    pub kind: Kind,
    pub writer: Option<Handle>,
}
