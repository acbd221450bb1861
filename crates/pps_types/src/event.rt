//! Messages to the service.

use crate::bytes::Bytes;
use crate::numbers::{Conn, Handle};

/// The letters of an open's mode: read, write, create, truncate.
#[derive(Clone, Copy, Debug, PartialEq, Eq)]
pub struct Mode {
    pub r: bool,
    pub w: bool,
    pub c: bool,
    pub t: bool,
}

/// What a Notify asks for, as `ionotify` does.
#[derive(Clone, Copy, Debug, PartialEq, Eq)]
pub enum Action {
    /// Tell whether there is news, and arm nothing.
    Poll,
    /// Arm a pulse where there is no news.
    Pollarm,
    /// Arm a pulse in any case.
    Tranarm,
}

/// What a message asks for.
#[derive(Debug, PartialEq, Eq, Drop)]
pub enum Request {
    Attach,
    Detach,
    Open {
        mode: Mode,
        text: Bytes,
    },
    Read {
        handle: Handle,
        size: u32,
    },
    Write {
        handle: Handle,
        bytes: Bytes,
    },
    Close {
        handle: Handle,
    },
    Unlink {
        path: Bytes,
    },
    Mkdir {
        path: Bytes,
    },
    List {
        path: Bytes,
    },
    Notify {
        handle: Handle,
        action: Action,
        code: u8,
        value: u32,
    },
    Receive,
}

/// One message, with the connection that it came by.
#[derive(Debug, PartialEq, Eq)]
pub struct Event {
    pub conn: Conn,
    pub request: Request,
}

// Written out, since each crate that drops one would prove a derived drop anew, with those of all its parts.
impl Drop for Event {
    #[inline(always)]
    fn drop(self) {
        let Event {
            conn: _,
            request: _,
        } = self;
    }
}
