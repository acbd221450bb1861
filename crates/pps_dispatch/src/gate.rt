//! Who is told of messages as they are served.

use pps_types::Conn;

/// Is told before and after messages of a session are served, with its connection and their numbers in the session, from
/// 1 on.
///
/// The worker that calls it holds the lock of the session's slot, and no other.
pub trait Gate {
    /// How many messages of a session may be served, before another session has its turn. If it is 0, it is one.
    fn at_once(&self) -> usize;

    /// These messages, the first to the last, are about to be served.
    fn enter(&self, conn: Conn, first: u64, last: u64);

    /// They have their answers.
    fn leave(&self, conn: Conn, first: u64, last: u64);
}
