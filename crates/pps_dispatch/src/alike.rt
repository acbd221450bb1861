//! Comparing messages.
ghost use Rattle.std.specs.Prelude.{◌≡◌, ◌↔◌, IsTrue};

use pps_types::{Event, Request};

// Whether two requests are the same.
fn same_request(request: &Request, other: &Request) -> bool
    ensures { IsTrue result ↔ (request.now ≡ other.now) }
{
    match request {
        Request::Attach => matches!(other, Request::Attach),
        Request::Detach => matches!(other, Request::Detach),
        Request::Open { mode, text } => match other {
            Request::Open { mode: m, text: t } => *mode == *m && *text == *t,
            _ => false,
        },
        Request::Read { handle, size } => match other {
            Request::Read { handle: h, size: s } => *handle == *h && *size == *s,
            _ => false,
        },
        Request::Write { handle, bytes } => match other {
            Request::Write {
                handle: h,
                bytes: b,
            } => *handle == *h && *bytes == *b,
            _ => false,
        },
        Request::Close { handle } => match other {
            Request::Close { handle: h } => *handle == *h,
            _ => false,
        },
        Request::Unlink { path } => match other {
            Request::Unlink { path: p } => *path == *p,
            _ => false,
        },
        Request::Mkdir { path } => match other {
            Request::Mkdir { path: p } => *path == *p,
            _ => false,
        },
        Request::List { path } => match other {
            Request::List { path: p } => *path == *p,
            _ => false,
        },
        Request::Notify {
            handle,
            action,
            code,
            value,
        } => match other {
            Request::Notify {
                handle: h,
                action: a,
                code: c,
                value: v,
            } => *handle == *h && *action == *a && *code == *c && *value == *v,
            _ => false,
        },
        Request::Receive => matches!(other, Request::Receive),
    }
}

/// Whether two messages are the same.
pub(crate) fn is_same(event: &Event, other: &Event) -> bool
    ensures { IsTrue result ↔ (event.now ≡ other.now) }
{
    event.conn == other.conn && same_request(&event.request, &other.request)
}
