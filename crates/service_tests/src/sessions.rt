//! Sessions and the bytes that make them.

use pps_dispatch::{Session, distinct};
use pps_types::{Conn, Refusal};
use std::alloc::Global;
use std::test::Fail;

/// Connection 1 attaches, creates an object and writes to it.
const PUBLISHER: &[u8] = b"\0\0\0\x03\x01\0\x01\
\0\0\0\x08\x03\0\x01\x07/gps\
\0\0\0\x12\x05\0\x01\0\0\0\x01speed:n:65\n";

/// Connection 2 attaches, opens the object and reads it, arms a pulse and takes it, and reads again.
const SUBSCRIBER: &[u8] = b"\0\0\0\x03\x01\0\x02\
\0\0\0\x08\x03\0\x02\x01/gps\
\0\0\0\x0b\x04\0\x02\0\0\0\x02\0\0\0\x63\
\0\0\0\x0d\x0a\0\x02\0\0\0\x02\x02\x05\0\0\0\x4d\
\0\0\0\x03\x0b\0\x02\
\0\0\0\x0b\x04\0\x02\0\0\0\x02\0\0\0\x63";

/// What a session does.
#[derive(Clone, Copy)]
pub(crate) enum Deed {
    Publish,
    Subscribe,
    /// This connection attaches, and lists the root as often.
    List(u8, u32),
}

use Deed::{List, Publish, Subscribe};

fn begun(alloc: Global, conn: u16, bytes: &[u8]) -> Result<Session, Refusal> {
    Session::from_frames(alloc, Conn::new(conn), bytes)
}

/// The frames of a connection that attaches, and lists the root as often.
fn listing(alloc: Global, conn: u8, lists: u32) -> Result<Vec<u8>, Refusal> {
    let mut bytes = Vec::from_slice(alloc, b"\0\0\0\x03\x01\0")?;
    bytes.push(conn)?;
    for _ in 0..lists {
        bytes.extend_from_slice(b"\0\0\0\x04\x09\0")?;
        bytes.push(conn)?;
        bytes.push(b'/')?;
    }
    Ok(bytes)
}

fn session(alloc: Global, deed: Deed) -> Result<Session, Refusal> {
    match deed {
        Publish => begun(alloc, 1, PUBLISHER),
        Subscribe => begun(alloc, 2, SUBSCRIBER),
        List(conn, lists) => begun(alloc, conn as u16, &listing(alloc, conn, lists)?),
    }
}

/// Sessions that do this.
pub(crate) fn sessions(alloc: Global, deeds: &[Deed]) -> Result<Vec<Session>, Refusal> {
    let mut sessions = Vec::new(alloc);
    for deed in deeds {
        sessions.push(session(alloc, *deed)?)?;
    }
    Ok(sessions)
}

/// Whether bytes make a session of a connection, which has no answers yet.
fn is_begun(alloc: Global, conn: u16, bytes: &[u8]) -> Result<bool, Refusal> {
    let session = begun(alloc, conn, bytes)?;
    let is_empty = session.replies().is_empty() && session.receipts().is_empty();
    Ok(session.conn() == Conn::new(conn) && is_empty)
}

/// Frames that are read for a connection, and whether they make a session.
const CASES: [(u16, &[u8], Result<bool, Refusal>); 6] = [
    (1, b"\0\0\0\x03\x01\0\x01", Ok(true)),
    (1, b"", Ok(true)),
    (2, b"\0\0\0\x03\x01\0\x01", Err(Refusal::BadArgument)),
    (1, b"\0\0\0\x03\x01\0", Err(Refusal::BadFrame)),
    (1, b"\0\0\0\x03\x0c\0\x01", Err(Refusal::BadFrame)),
    (2, b"\0\0\0\x03\x01\0\x01\0", Err(Refusal::BadFrame)),
];

#[test]
fn frames_make_a_session(rt: HostRuntime) -> Result<(), Fail> {
    for (conn, bytes, wanted) in CASES {
        assert_eq!(rt; is_begun(rt.alloc(), conn, bytes), wanted, "{bytes:?}");
    }
    Ok(())
}

fn are_distinct(alloc: Global, deeds: &[Deed]) -> Result<bool, Refusal> {
    Ok(distinct(&sessions(alloc, deeds)?))
}

#[test]
fn connections_are_compared(rt: HostRuntime) -> Result<(), Fail> {
    let alloc = rt.alloc();
    assert!(rt; are_distinct(alloc, &[])?);
    assert!(rt; are_distinct(alloc, &[List(1, 0), List(2, 0)])?);
    assert!(rt; !are_distinct(alloc, &[List(1, 0), List(2, 0), List(1, 1)])?);
    Ok(())
}
