//! Frames, and streams of them in pieces.

mod answers;
mod requests;
mod serving;
mod streams;

use pps_types::{Action, Bytes, Conn, Event, Handle, Mode, Request};
use std::alloc::{AllocError, Global};

/// A request of each kind, in a frame of connection 7, in the order of their kinds.
const FRAMES: [&[u8]; 11] = [
    b"\0\0\0\x03\x01\0\x07",
    b"\0\0\0\x03\x02\0\x07",
    b"\0\0\0\x09\x03\0\x07\x07/lamp",
    b"\0\0\0\x0b\x04\0\x07\0\0\0\x01\0\0\0\x08",
    b"\0\0\0\x11\x05\0\x07\0\0\0\x01on:b:true\n",
    b"\0\0\0\x07\x06\0\x07\0\0\0\x01",
    b"\0\0\0\x08\x07\0\x07/lamp",
    b"\0\0\0\x03\x08\0\x07",
    b"\0\0\0\x04\x09\0\x07/",
    b"\0\0\0\x0d\x0a\0\x07\0\0\0\x01\x03\x05\0\0\x01\x2c",
    b"\0\0\0\x03\x0b\0\x07",
];

/// The request of each of these frames.
fn request(alloc: Global, number: usize) -> Result<Request, AllocError> {
    let handle = Handle::new(1);
    Ok(match number {
        0 => Request::Attach,
        1 => Request::Detach,
        2 => Request::Open {
            mode: Mode {
                r: true,
                w: true,
                c: true,
                t: false,
            },
            text: Bytes::from_slice(alloc, b"/lamp")?,
        },
        3 => Request::Read { handle, size: 8 },
        4 => Request::Write {
            handle,
            bytes: Bytes::from_slice(alloc, b"on:b:true\n")?,
        },
        5 => Request::Close { handle },
        6 => Request::Unlink {
            path: Bytes::from_slice(alloc, b"/lamp")?,
        },
        7 => Request::Mkdir {
            path: Bytes::from_slice(alloc, b"")?,
        },
        8 => Request::List {
            path: Bytes::from_slice(alloc, b"/")?,
        },
        9 => Request::Notify {
            handle,
            action: Action::Tranarm,
            code: 5,
            value: 300,
        },
        _ => Request::Receive,
    })
}

fn event(alloc: Global, number: usize) -> Result<Event, AllocError> {
    Ok(Event {
        conn: Conn::new(7),
        request: request(alloc, number)?,
    })
}

/// All these frames, one behind the other.
fn stream(alloc: Global) -> Result<Vec<u8>, AllocError> {
    let mut stream = Vec::new(alloc);
    for frame in FRAMES {
        stream.extend_from_slice(frame)?;
    }
    Ok(stream)
}
