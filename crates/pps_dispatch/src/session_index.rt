//! Sessions, found by their connections.
ghost use Rattle.std.specs.Prelude.{◌≡◌, ◌<◌, false, length, IfOk, IfSome, IfNone};
ghost use Rattle.pps_dispatch.specs.Sessions.{is_known};
ghost use Rattle.pps_dispatch.specs.Search.{Knows, HasConnectionAt};

use crate::session::Session;
use pps_types::Conn;
use std::alloc::{AllocError, Global};
use std::collections::BTreeMap;

/// The numbers of sessions, by their connections. A number is found in few steps, however many sessions there are.
#[derive(Drop)]
pub(crate) struct SessionIndex {
    numbers: BTreeMap<u16, usize>,
}

impl SessionIndex {
    /// An index of these sessions.
    pub(crate) fn new(alloc: Global, sessions: &[Session]) -> Result<SessionIndex, AllocError>
        ensures { IfOk result (λ index. Knows index.numbers sessions.now (length sessions.now)) }
    {
        let mut numbers = BTreeMap::new(alloc);
        for (number, session) in sessions.iter().enumerate() {
            numbers.insert(session.conn().number(), number)?;
        }
        Ok(SessionIndex { numbers })
    }

    /// The number of the session that has this connection, if one has.
    pub(crate) fn session_of(&self, sessions: &[Session], conn: Conn) -> Option<usize>
        requires { Knows self.now.numbers sessions.now (length sessions.now) }
        ensures bound { IfSome result (λ number. number < length sessions.now) }
        ensures own { IfSome result (λ number. HasConnectionAt sessions.now number conn) }
        ensures none { IfNone result (is_known sessions.now conn ≡ false) }
    {
        self.numbers.get(&conn.number()).copied()
    }
}
