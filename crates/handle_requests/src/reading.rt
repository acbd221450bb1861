//! Reads: their checks in their order, what they answer, and what they leave of their handle.
ghost use Rattle.std.specs.Prelude.{◌≡◌, ◌&&◌, true, nat_le, None, Some, IfOk, IfErr, OnOk};
ghost use Rattle.pps_types.specs.declared.event.Request.TheVariants.{Read};
ghost use Rattle.pps_types.specs.declared.outcome.Outcome.TheVariants.{Data};
ghost use Rattle.pps_types.specs.declared.refusal.Refusal.TheVariants.{OutOfMemory};
ghost use Rattle.service_laws.specs.Bounds.{IsBound};
ghost use Rattle.notify_box.specs.Connections.{AreOwned};
ghost use Rattle.whole_texts.specs.Answered.{meant};
ghost use Rattle.service_state.specs.Tables.{content_in};
ghost use Rattle.handle_requests.specs.Own.{IsOwn, IfOwn};
ghost use Rattle.handle_requests.specs.Asked.{IsAsked};
ghost use Rattle.service_state.specs.Refused.{AllPass, RefusedBy, TakesMemory, Fails, checks_in, parked_in};
ghost use Rattle.handle_requests.specs.Reads.{IsAnswered, text_in, waits, IsReadEffect, HasReadRoom};

use crate::own::{SeenHandle, own_asked};
use crate::sources::{answer_of_directory, answer_of_object};
use pps_types::limits::READ_MAX;
use pps_types::{Conn, Handle, Outcome, Refusal, SharedBytes};
use service_state::Tables;
use std::alloc::Global;
use whole_texts::{Answer, Effect};

/// What a read answers, and what it leaves of its handle.
#[derive(Drop)]
pub struct ReadDone {
    pub reply: Outcome,
    pub effect: Effect,
}

#[inline(always)]
fn is_read_size(size: u32) -> bool
    ensures { result ≡ (nat_le 1 size && nat_le size 17000000) }
{
    1 <= size && size <= READ_MAX
}

// The connection's own handle, where a read of that size may be asked of it.
#[inline(always)]
fn check_asked(
    tables: &Tables,
    conn: Conn,
    handle: Handle,
    size: u32,
) -> Result<SeenHandle<'_>, Refusal>
    ensures own { IfOk result (λ asked. IsOwn tables.now conn handle asked.own) }
    ensures known { IfOk result (IsAsked tables.now conn handle) }
    ensures reads { IfOk result (λ asked. asked.own.opening.now.reads ≡ true) }
    ensures size { OnOk result ((nat_le 1 size && nat_le size 17000000) ≡ true) }
    ensures free { OnOk result (IfOwn tables.now conn handle (λ own. own.parked ≡ None)) }
    ensures err { IfErr result (λ r. RefusedBy (checks_in tables.now conn (Read handle size)) r) }
{
    let Some(asked) = own_asked(tables, conn, handle) else {
        return Err(Refusal::BadHandle);
    };
    if !asked.own.reads() {
        return Err(Refusal::BadMode);
    }
    if !is_read_size(size) {
        return Err(Refusal::BadArgument);
    }
    if asked.glance.parked.is_some() {
        return Err(Refusal::ReadPending);
    }
    Ok(asked)
}

// What a read answers, where no check refuses it but that of a read that waits.
#[inline(always)]
fn answer_to(
    tables: &Tables,
    alloc: Global,
    conn: Conn,
    handle: Handle,
    size: u32,
) -> Result<Answer, Refusal>
    requires { IsBound (content_in tables.now) }
    ensures ok { IfOk result (λ a. IsAnswered (content_in tables.now) conn handle size (meant a)) }
    ensures err { IfErr result (λ r. Fails (checks_in tables.now conn (Read handle size)) r) }
{
    let asked = match check_asked(tables, conn, handle, size) {
        Err(refusal) => return Err(refusal),
        Ok(asked) => asked,
    };
    if asked.own.is_on_directory() {
        return answer_of_directory(tables, alloc, conn, handle, &asked, size);
    }
    answer_of_object(tables, alloc, conn, handle, &asked, size)
}

// Whether a read waits.
#[inline(always)]
fn waits(answer: &Answer) -> bool
    ensures { result ≡ waits (meant answer.now) }
{
    matches!(answer, Answer::Waits)
}

// The text that an answer gives.
#[inline(always)]
fn text_of(alloc: Global, answer: Answer) -> Vec<u8>
    ensures { result.items ≡ text_in (meant answer) }
{
    match answer {
        Answer::Everything(text) => text,
        Answer::Blocks { text, .. } => text,
        _ => Vec::new(alloc),
    }
}

// A reply with a text.
#[inline(always)]
fn data(alloc: Global, text: Vec<u8>, effect: Effect) -> Result<ReadDone, Refusal>
    ensures reply { IfOk result (λ d. d.reply ≡ Data text.items) }
    ensures effect { IfOk result (λ d. d.effect ≡ effect) }
    ensures err { IfErr result (λ r. r ≡ OutOfMemory) }
{
    match SharedBytes::new(alloc, text) {
        Err(_) => Err(Refusal::OutOfMemory),
        Ok(text) => Ok(ReadDone {
            reply: Outcome::Data(text),
            effect,
        }),
    }
}

/// What a read of at most so many bytes answers, and what it leaves of its handle, for which the memory is taken. What stands stays.
///
/// It is BadHandle where the connection has no such handle, BadMode where the handle isn't open for reading, BadArgument
/// where the size is none of 1 to 17,000,000, ReadPending where a read waits on the handle, TooSmall, with the size that is
/// needed, where not even the first thing to give fits, Gone where nothing is owed of an object that is deleted, and
/// OutboxFull where the read would wait and the connection has no place for it. Else OutOfMemory is the only error.
pub fn read(
    tables: &mut Tables,
    alloc: Global,
    conn: Conn,
    handle: Handle,
    size: u32,
) -> Result<ReadDone, Refusal>
    requires owned { AreOwned (content_in tables.old) }
    requires bound { IsBound (content_in tables.old) }
    ensures content { content_in tables.new ≡ content_in tables.old }
    ensures names { tables.new.names ≡ tables.old.names }
    ensures handles { tables.new.handles ≡ tables.old.handles }
    ensures passes { OnOk result (AllPass (checks_in tables.old conn (Read handle size))) }
    ensures wants { OnOk result (TakesMemory (checks_in tables.old conn (Read handle size))) }
    ensures free { OnOk result (parked_in tables.old conn handle ≡ Some None) }
    ensures does { IfOk result (λ d. IsReadEffect tables.old conn handle size d) }
    ensures room { IfOk result (λ d. HasReadRoom tables.new conn handle d) }
    ensures err { IfErr result (λ r. Fails (checks_in tables.old conn (Read handle size)) r) }
{
    let answer = answer_to(tables, alloc, conn, handle, size)?;
    let effect = answer.effect(size);
    if waits(&answer) {
        tables.park_ready(conn, handle)?;
        return Ok(ReadDone {
            reply: Outcome::Parked,
            effect,
        });
    }
    data(alloc, text_of(alloc, answer), effect)
}
