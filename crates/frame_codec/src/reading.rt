//! Requests, read from the bodies of frames.
ghost use Rattle.std.specs.Prelude.{◌≡◌, IfOk, Some};
ghost use Rattle.pps_types.specs.Frame as frames;
ghost use Rattle.pps_types.specs.Frame.{without_fields};
ghost use Rattle.frame_codec.specs.Front.{IsAdded, Pushes};

use pps_types::{Action, Bytes, Conn, Event, Handle, Mode, Request};
use std::alloc::{AllocError, Global};

fn mode(byte: u8) -> Option<Mode>
    ensures { result ≡ frames.mode_of byte }
{
    if byte >= 16 {
        return None;
    }
    Some(Mode {
        r: byte / 1 % 2 == 1,
        w: byte / 2 % 2 == 1,
        c: byte / 4 % 2 == 1,
        t: byte / 8 % 2 == 1,
    })
}

fn action(byte: u8) -> Option<Action>
    ensures { result ≡ frames.action_of byte }
{
    match byte {
        1 => Some(Action::Poll),
        2 => Some(Action::Pollarm),
        3 => Some(Action::Tranarm),
        _ => None,
    }
}

// Adds the request of a connection.
fn push(events: &mut Vec<Event>, conn: Conn, request: Request) -> Result<bool, AllocError>
    ensures { IfOk result (Pushes conn (Some request) events.old events.new) }
{
    events.push(Event { conn, request })?;
    Ok(true)
}

// Adds a request that has no fields.
fn without_fields(
    events: &mut Vec<Event>,
    conn: Conn,
    request: Request,
    bytes: &[u8],
) -> Result<bool, AllocError>
    ensures { IfOk result (Pushes conn (without_fields request bytes.now) events.old events.new) }
{
    match bytes {
        [] => push(events, conn, request),
        [_, ..] => Ok(false),
    }
}

fn open(
    alloc: Global,
    events: &mut Vec<Event>,
    conn: Conn,
    bytes: &[u8],
) -> Result<bool, AllocError>
    ensures { IfOk result (Pushes conn (frames.open_request bytes.now) events.old events.new) }
{
    let [letters, text @ ..] = bytes else {
        return Ok(false);
    };
    let Some(mode) = mode(*letters) else {
        return Ok(false);
    };
    let text = Bytes::from_slice(alloc, text)?;
    push(events, conn, Request::Open { mode, text })
}

fn read(events: &mut Vec<Event>, conn: Conn, bytes: &[u8]) -> Result<bool, AllocError>
    ensures { IfOk result (Pushes conn (frames.read_request bytes.now) events.old events.new) }
{
    let [a, b, c, d, e, f, g, h] = bytes else {
        return Ok(false);
    };
    let handle = Handle::new(u32::from_be_bytes([*a, *b, *c, *d]));
    let size = u32::from_be_bytes([*e, *f, *g, *h]);
    push(events, conn, Request::Read { handle, size })
}

fn write(
    alloc: Global,
    events: &mut Vec<Event>,
    conn: Conn,
    bytes: &[u8],
) -> Result<bool, AllocError>
    ensures { IfOk result (Pushes conn (frames.write_request bytes.now) events.old events.new) }
{
    let [a, b, c, d, text @ ..] = bytes else {
        return Ok(false);
    };
    let handle = Handle::new(u32::from_be_bytes([*a, *b, *c, *d]));
    let bytes = Bytes::from_slice(alloc, text)?;
    push(events, conn, Request::Write { handle, bytes })
}

fn close(events: &mut Vec<Event>, conn: Conn, bytes: &[u8]) -> Result<bool, AllocError>
    ensures { IfOk result (Pushes conn (frames.close_request bytes.now) events.old events.new) }
{
    let [a, b, c, d] = bytes else {
        return Ok(false);
    };
    let handle = Handle::new(u32::from_be_bytes([*a, *b, *c, *d]));
    push(events, conn, Request::Close { handle })
}

fn notify(events: &mut Vec<Event>, conn: Conn, bytes: &[u8]) -> Result<bool, AllocError>
    ensures { IfOk result (Pushes conn (frames.notify_request bytes.now) events.old events.new) }
{
    let [a, b, c, d, wanted, code, e, f, g, h] = bytes else {
        return Ok(false);
    };
    let Some(action) = action(*wanted) else {
        return Ok(false);
    };
    let handle = Handle::new(u32::from_be_bytes([*a, *b, *c, *d]));
    let value = u32::from_be_bytes([*e, *f, *g, *h]);
    push(
        events,
        conn,
        Request::Notify {
            handle,
            action,
            code: *code,
            value,
        },
    )
}

// Adds the request of a kind with these fields, and says whether there is one.
#[tactic(auto, unfolding(pps_types::specs::Frame::request_of))]
fn push_request(
    alloc: Global,
    events: &mut Vec<Event>,
    conn: Conn,
    kind: u8,
    bytes: &[u8],
) -> Result<bool, AllocError>
    ensures { IfOk result (Pushes conn (frames.request_of kind bytes.now) events.old events.new) }
{
    match kind {
        1 => without_fields(events, conn, Request::Attach, bytes),
        2 => without_fields(events, conn, Request::Detach, bytes),
        3 => open(alloc, events, conn, bytes),
        4 => read(events, conn, bytes),
        5 => write(alloc, events, conn, bytes),
        6 => close(events, conn, bytes),
        7 => {
            let path = Bytes::from_slice(alloc, bytes)?;
            push(events, conn, Request::Unlink { path })
        }
        8 => {
            let path = Bytes::from_slice(alloc, bytes)?;
            push(events, conn, Request::Mkdir { path })
        }
        9 => {
            let path = Bytes::from_slice(alloc, bytes)?;
            push(events, conn, Request::List { path })
        }
        10 => notify(events, conn, bytes),
        11 => without_fields(events, conn, Request::Receive, bytes),
        _ => Ok(false),
    }
}

/// Adds the event that a frame's body is, and says whether it is one.
#[tactic(auto, unfolding(pps_types::specs::Frame::event_of))]
pub(crate) fn push_event(
    alloc: Global,
    events: &mut Vec<Event>,
    body: &[u8],
) -> Result<bool, AllocError>
    ensures { IfOk result (IsAdded (frames.event_of body.now) events.old.items events.new.items) }
{
    let [kind, a, b, bytes @ ..] = body else {
        return Ok(false);
    };
    let conn = Conn::new(u16::from_be_bytes([*a, *b]));
    push_request(alloc, events, conn, *kind, bytes)
}

/// The connection that the body of a request's frame names: its second and third byte, where it has so many.
pub fn read_conn(body: &[u8]) -> Option<Conn>
    ensures { result ≡ frames.conn_of body.now }
{
    let [_, a, b, ..] = body else {
        return None;
    };
    Some(Conn::new(u16::from_be_bytes([*a, *b])))
}
