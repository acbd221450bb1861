//! What an event answers and does, where no check refuses it.
ghost use Rattle.std.specs.Prelude.{◌≡◌, false, IfOk, IfErr};
ghost use Rattle.pps_types.specs.WellFormed.{IsContent};
ghost use Rattle.pps_types.specs.Content as content;
ghost use Rattle.service_laws.specs.Bounds.{IsBound};
ghost use Rattle.service_state.specs.Tables.{content_in};
ghost use Rattle.pps_engine.specs.Events.{is_attach, attach_by, IsDone, IsRefused, Serves, IsRefusedIn};

use crate::doing::Doing;
use crate::done::{Done, boxed};
use crate::requests;
use pps_types::{Conn, Event, Outcome, Refusal, Request};
use service_laws::events_are_settled;
use service_state::{Tables, numbers_are_within};
use std::alloc::Global;
use sub_reader::Pulse;

// A connection attaches.
fn attach(tables: &mut Tables, alloc: Global, conn: Conn) -> Result<Done, Refusal>
    requires { IsContent (content_in tables.old) }
    ensures content { content_in tables.new ≡ content_in tables.old }
    ensures ok { IfOk result (λ d. IsDone (content_in tables.old) (attach_by conn) tables.new d) }
    ensures err { IfErr result (λ r. IsRefused (content_in tables.old) (attach_by conn) r) }
{
    events_are_settled();
    numbers_are_within(tables);
    let outbox = handle_requests::attach(tables, alloc, conn)?;
    let outbox = boxed(alloc, outbox)?;
    Ok(Done {
        reply: Outcome::Done,
        doing: Doing::Attaches { conn, outbox },
    })
}

// What a connection asks that is attached.
fn ask(tables: &mut Tables, alloc: Global, conn: Conn, request: &Request) -> Result<Done, Refusal>
    requires content { IsContent (content_in tables.old) }
    requires bound { IsBound (content_in tables.old) }
    requires other { is_attach request.now ≡ false }
    ensures content { content_in tables.new ≡ content_in tables.old }
    ensures ok { IfOk result (Serves tables.old conn request.now tables.new) }
    ensures err { IfErr result (IsRefusedIn tables.old conn request.now) }
{
    match request {
        Request::Attach => unreachable!(),
        Request::Detach => requests::detach(tables, alloc, conn),
        Request::Open { mode, text } => requests::open(tables, alloc, conn, *mode, text),
        Request::Read { handle, size } => requests::read(tables, alloc, conn, *handle, *size),
        Request::Write { handle, bytes } => requests::write(tables, alloc, conn, *handle, bytes),
        Request::Close { handle } => requests::close(tables, alloc, conn, *handle),
        Request::Unlink { path } => requests::unlink(tables, alloc, conn, path),
        Request::Mkdir { path } => requests::make_directory(tables, alloc, conn, path),
        Request::List { path } => requests::list(tables, alloc, conn, path),
        Request::Notify {
            handle,
            action,
            code,
            value,
        } => {
            let pulse = Pulse {
                code: *code,
                value: *value,
            };
            requests::notify(tables, conn, *handle, *action, pulse)
        }
        Request::Receive => requests::receive(tables, conn),
    }
}

// Whether a connection is to attach.
#[inline(always)]
fn is_attach(request: &Request) -> bool
    ensures { result ≡ is_attach request.now }
{
    matches!(request, Request::Attach)
}

/// What an event answers and does, for which the memory is taken, or why it is refused. What stands stays.
#[inline(always)]
pub(crate) fn answer(tables: &mut Tables, alloc: Global, event: &Event) -> Result<Done, Refusal>
    requires content { IsContent (content_in tables.old) }
    requires bound { IsBound (content_in tables.old) }
    ensures content { content_in tables.new ≡ content_in tables.old }
    ensures ok { IfOk result (λ d. IsDone (content_in tables.old) event.now tables.new d) }
    ensures err { IfErr result (λ r. IsRefused (content_in tables.old) event.now r) }
{
    let conn = event.conn;
    if is_attach(&event.request) {
        return attach(tables, alloc, conn);
    }
    if !tables.is_attached(conn) {
        return Err(Refusal::NotAttached);
    }
    ask(tables, alloc, conn, &event.request)
}
