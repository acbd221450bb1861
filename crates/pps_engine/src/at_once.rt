//! An event, planned and carried out at once: nothing of it is kept in between.
ghost use Rattle.std.specs.Prelude.{◌≡◌, IfOk, IfErr};
ghost use Rattle.pps_types.specs.declared.event.Request.TheVariants.{Read, Receive, Write};
ghost use Rattle.handle_requests.specs.Notices.{notify_of};
ghost use Rattle.service_state.specs.Tables.{content_in};
ghost use Rattle.pps_engine.specs.Events.{IsDone, IsRefused};
ghost use Rattle.pps_engine.specs.Standing.{IsSound};
ghost use Rattle.pps_engine.specs.AtOnce.{TakesStep};

use crate::asking::answer;
use crate::doing::{carry_out, leave_read, set_pulse};
use crate::done::Done;
use crate::requests;
use crate::requests::{ask_notify, ask_read, ask_receive};
use crate::settled::{nothing_follows, settled};
use handle_requests::{Notified, ReadDone};
use pps_types::{Action, Bytes, Event, Handle, Outcome, Refusal, Request};
use service_state::Tables;
use std::alloc::Global;
use sub_reader::Pulse;

// What was asked is carried out, with what follows from it, or is refused. It is inline, so that each of its callers has
// its own, which knows what is done.
#[inline(always)]
fn finish(
    tables: &mut Tables,
    alloc: Global,
    event: &Event,
    asked: Result<Done, Refusal>,
) -> Result<Outcome, Refusal>
    requires sound { IsSound (content_in tables.old) }
    requires done { IfOk asked (λ d. IsDone (content_in tables.old) event.now tables.old d) }
    requires refused { IfErr asked (λ r. IsRefused (content_in tables.old) event.now r) }
    ensures { TakesStep (content_in tables.old) event.now result (content_in tables.new) }
{
    let _event = event;
    let Done { reply, doing } = match asked {
        Err(refusal) => return Err(refusal),
        Ok(done) => done,
    };
    let following = match settled(tables, alloc, &doing) {
        Err(_) => return Err(Refusal::OutOfMemory),
        Ok(following) => following,
    };
    carry_out(tables, doing);
    tables.follow_all(following);
    Ok(reply)
}

// A handle is read. Nothing follows from that.
#[inline(never)]
fn take_read(
    tables: &mut Tables,
    alloc: Global,
    event: &Event,
    handle: Handle,
    size: u32,
) -> Result<Outcome, Refusal>
    requires sound { IsSound (content_in tables.old) }
    requires request { event.now.request ≡ Read handle size }
    ensures { TakesStep (content_in tables.old) event.now result (content_in tables.new) }
{
    let conn = event.conn;
    if !tables.is_attached(conn) {
        return Err(Refusal::NotAttached);
    }
    let ReadDone { reply, effect } = match ask_read(tables, alloc, conn, handle, size) {
        Err(refusal) => return Err(refusal),
        Ok(done) => done,
    };
    nothing_follows(tables);
    leave_read(tables, conn, handle, effect);
    Ok(reply)
}

// A handle is asked for notices. Nothing follows from that.
#[inline(never)]
fn take_notify(
    tables: &mut Tables,
    event: &Event,
    handle: Handle,
    action: Action,
    pulse: Pulse,
) -> Result<Outcome, Refusal>
    requires sound { IsSound (content_in tables.old) }
    requires request { event.now.request ≡ notify_of handle action pulse }
    ensures { TakesStep (content_in tables.old) event.now result (content_in tables.new) }
{
    let conn = event.conn;
    if !tables.is_attached(conn) {
        return Err(Refusal::NotAttached);
    }
    let Notified {
        news,
        pulse,
        was_armed,
    } = match ask_notify(tables, conn, handle, action, pulse) {
        Err(refusal) => return Err(refusal),
        Ok(notified) => notified,
    };
    nothing_follows(tables);
    set_pulse(tables, conn, handle, pulse, was_armed);
    Ok(Outcome::Input(news))
}

// What is queued first for a connection is received. Nothing follows from that.
#[inline(never)]
fn take_receive(tables: &mut Tables, event: &Event) -> Result<Outcome, Refusal>
    requires sound { IsSound (content_in tables.old) }
    requires request { event.now.request ≡ Receive }
    ensures { TakesStep (content_in tables.old) event.now result (content_in tables.new) }
{
    let conn = event.conn;
    if !tables.is_attached(conn) {
        return Err(Refusal::NotAttached);
    }
    let reply = match ask_receive(tables, conn) {
        Err(refusal) => return Err(refusal),
        Ok(reply) => reply,
    };
    nothing_follows(tables);
    if let Outcome::Item(_) = &reply {
        tables.take(conn);
    }
    Ok(reply)
}

// A handle is written to.
#[inline(never)]
fn take_write(
    tables: &mut Tables,
    alloc: Global,
    event: &Event,
    handle: Handle,
    bytes: &Bytes,
) -> Result<Outcome, Refusal>
    requires sound { IsSound (content_in tables.old) }
    requires request { event.now.request ≡ Write handle bytes.now }
    ensures { TakesStep (content_in tables.old) event.now result (content_in tables.new) }
{
    if !tables.is_attached(event.conn) {
        return Err(Refusal::NotAttached);
    }
    let asked = requests::write(tables, alloc, event.conn, handle, bytes);
    finish(tables, alloc, event, asked)
}

// Any event.
#[inline(never)]
fn take_any(tables: &mut Tables, alloc: Global, event: &Event) -> Result<Outcome, Refusal>
    requires { IsSound (content_in tables.old) }
    ensures { TakesStep (content_in tables.old) event.now result (content_in tables.new) }
{
    let asked = answer(tables, alloc, event);
    finish(tables, alloc, event, asked)
}

/// One event, planned and carried out at once. Reads, writes, notices and Receives, which most events are, have ways of
/// their own.
#[inline(always)]
pub(crate) fn take_step(
    tables: &mut Tables,
    alloc: Global,
    event: &Event,
) -> Result<Outcome, Refusal>
    requires { IsSound (content_in tables.old) }
    ensures { TakesStep (content_in tables.old) event.now result (content_in tables.new) }
{
    match &event.request {
        Request::Read { handle, size } => take_read(tables, alloc, event, *handle, *size),
        Request::Write { handle, bytes } => take_write(tables, alloc, event, *handle, bytes),
        Request::Notify {
            handle,
            action,
            code,
            value,
        } => {
            let pulse = Pulse {
                code: *code,
                value: *value,
            };
            take_notify(tables, event, *handle, *action, pulse)
        }
        Request::Receive => take_receive(tables, event),
        _ => take_any(tables, alloc, event),
    }
}
