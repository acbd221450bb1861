//! Requests as frames.

use super::{FRAMES, event};
use frame_codec::{Decoder, encode_request, read_conn};
use pps_types::{Bytes, Conn, Event, Handle, Refusal, Request};
use std::alloc::{AllocError, Global};
use std::process::Abort;
use std::test::Fail;

/// What comes after the length of a frame.
fn body(frame: &[u8]) -> &[u8] {
    if frame.len() < 4 { &[] } else { &frame[4..] }
}

fn encoded(alloc: Global, event: &Event) -> Result<Vec<u8>, Refusal> {
    encode_request(alloc, event)
}

/// The connection that a body names.
fn conn_of(body: &[u8]) -> Option<Conn> {
    read_conn(body)
}

/// Sees that the request of that number has this frame.
fn assert_frame(
    rt: &impl Abort,
    alloc: Global,
    number: usize,
    frame: &[u8],
) -> Result<(), Refusal> {
    let encoded = encoded(alloc, &event(alloc, number)?)?;
    assert_eq!(rt; encoded.as_slice(), frame, "{number}");
    assert_eq!(rt; conn_of(body(frame)), Some(Conn::new(7)));
    Ok(())
}

#[test]
fn each_kind_of_request_has_its_frame(rt: HostRuntime) -> Result<(), Fail> {
    for (number, frame) in FRAMES.iter().enumerate() {
        assert_frame(&rt, rt.alloc(), number, frame)?;
    }
    assert_eq!(rt; conn_of(&[1, 4, 0]), Some(Conn::new(1_024)));
    assert_eq!(rt; conn_of(&[1, 0]), None);
    Ok(())
}

/// A write of so many bytes.
fn long_write(alloc: Global, len: usize) -> Result<Event, AllocError> {
    let mut bytes = Vec::new(alloc);
    bytes.resize(len, b'a')?;
    Ok(Event {
        conn: Conn::new(1),
        request: Request::Write {
            handle: Handle::new(1),
            bytes: Bytes::new(bytes),
        },
    })
}

/// Sees that a frame, in pieces, gives that event.
fn assert_fed(rt: &impl Abort, alloc: Global, frame: &[u8], wanted: &Event) -> Result<(), Fail> {
    let mut decoder = Decoder::new(alloc);
    let mut events = Vec::new(alloc);
    for piece in frame.chunks(1_000) {
        let mut fed = decoder.feed(alloc, piece)?;
        assert!(rt; !fed.bad);
        events.append(&mut fed.events)?;
        assert_eq!(rt; decoder.rest() == 0, !events.is_empty());
    }
    assert_eq!(rt; events.len(), 1);
    assert_eq!(rt; events.first(), Some(wanted));
    assert_eq!(rt; decoder.rest(), 0);
    Ok(())
}

#[test]
fn a_body_has_at_most_131072_bytes(rt: HostRuntime) -> Result<(), Fail> {
    let alloc = rt.alloc();
    let longest = long_write(alloc, 131_065)?;
    let frame = encoded(alloc, &longest)?;
    assert_eq!(rt; frame.len(), 131_076);
    assert_fed(&rt, alloc, &frame, &longest)?;
    let longer = long_write(alloc, 131_066)?;
    assert_eq!(rt; encoded(alloc, &longer).err(), Some(Refusal::TooLarge));
    Ok(())
}
