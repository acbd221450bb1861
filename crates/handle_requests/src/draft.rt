//! What a text comes to that is written, before the limits of its object are looked at.
ghost use Rattle.std.specs.Prelude.{◌≡◌, ◌≤◌, [], true, Ok, IfOk, IfErr, OnOk, is_some, length};
ghost use Rattle.pps_types.specs.Text.{write_text};
ghost use Rattle.pps_types.specs.Checks.{first_refusal, parsed, own_header};
ghost use Rattle.pps_types.specs.WellFormed.{IsContent};
ghost use Rattle.service_laws.specs.Bounds.{IsBound};
ghost use Rattle.service_state.specs.Tables.{content_in};
ghost use Rattle.service_state.specs.Refused.{AllPass, Fails, live_object_in};
ghost use Rattle.handle_requests.specs.Backlogs.{server_in};
ghost use Rattle.name_table.specs.Standing.{known_of};
ghost use Rattle.handle_requests.specs.Writes.{FailsLate, IsAuthor};
ghost use Rattle.handle_requests.specs.Drafting.{write_checks_in, server_checks_by, client_checks_by, writer_checks, bytes_checks, change_by, server_message, client_message, writer_kind, LeavesLimits, IsDraftBy, IsLineDraft, IsPrepared, IsPreparedOf};

use crate::address::{addressee, is_foreign};
use crate::backlog::{message_refusal, server_backlog};
use crate::message::{message_lines, sent};
use crate::writer::{Writer, writer_of};
use attr_text::{WriteText, read_single, read_write};
use name_table::NamedObject;
use pps_types::limits::WRITE_MAX;
use pps_types::{Bytes, Conn, Handle, HandleKind, Kind, Lines, ObjId, Refusal, WrittenLine};
use server_queue::Entry;
use service_state::{Tables, record_of};
use std::alloc::{AllocError, Global};

/// What a text comes to that passes all checks but those of its object's limits.
#[derive(Drop)]
pub(crate) struct Draft {
    pub(crate) object: ObjId,
    /// What its record says.
    pub(crate) kind: Kind,
    /// Without lines there is no record.
    pub(crate) has_lines: bool,
}

/// A draft, with its record if it has lines.
#[derive(Drop)]
pub(crate) enum Prepared {
    /// Its record, which has taken its lines.
    Record(Entry),
    /// It has no lines, and makes no record.
    Untold(Draft),
}

impl Prepared {
    ghost use Rattle.handle_requests.specs.Drafting.{entry_in};

    /// The record, if there is one.
    #[inline(always)]
    pub(crate) fn into_entry(self) -> Option<Entry>
        ensures { result ≡ entry_in self }
    {
        match self {
            Prepared::Record(entry) => Some(entry),
            Prepared::Untold(_) => None,
        }
    }
}

// What a write through an object's handle comes to.
fn object_kind(name: &[u8], object: &NamedObject, text: WriteText) -> Result<Kind, Refusal>
    ensures passes { OnOk result (AllPass (own_header name.now text.header)) }
    ensures does { IfOk result (λ kind. kind ≡ change_by object.now text) }
    ensures err { IfErr result (λ r. FailsLate (own_header name.now text.header) r) }
{
    let (header, lines) = text.into_parts();
    if is_foreign(name, header.as_ref()) {
        return Err(Refusal::BadText { line: 1 });
    }
    let lines = object.attributes().resolve(lines)?;
    Ok(Kind::Change(Lines::new(lines)))
}

// What a write through a server's handle comes to.
fn server_kind(
    tables: &Tables,
    alloc: Global,
    name: &[u8],
    object: ObjId,
    text: WriteText,
) -> Result<Kind, Refusal>
    requires { is_some (server_in (content_in tables.now) object) ≡ true }
    ensures passes { OnOk result (AllPass (server_checks_by tables.now name.now object text)) }
    ensures does { IfOk result (λ kind. kind ≡ server_message name.now text) }
    ensures err { IfErr result
        (λ r. FailsLate (server_checks_by tables.now name.now object text) r) }
{
    let (header, lines) = text.into_parts();
    let to = addressee(name, header.as_ref());
    if let Some(refusal) = message_refusal(tables, object, to, !lines.is_empty()) {
        return Err(refusal);
    }
    let lines = message_lines(alloc, lines)?;
    Ok(sent(to, lines))
}

// Why a client's message is refused.
fn client_refusal(
    tables: &Tables,
    handle: Handle,
    name: &[u8],
    object: ObjId,
    text: &WriteText,
) -> Option<Refusal>
    requires { IsContent (content_in tables.now) }
    ensures { result ≡ first_refusal (client_checks_by tables.now handle name.now object text.now) }
{
    if is_foreign(name, text.header()) {
        return Some(Refusal::BadText { line: 1 });
    }
    if text.lines().is_empty() {
        return None;
    }
    server_backlog(tables, object, handle)
}

// What a write through a client's handle comes to.
fn client_kind(
    tables: &Tables,
    alloc: Global,
    handle: Handle,
    name: &[u8],
    object: ObjId,
    text: WriteText,
) -> Result<Kind, Refusal>
    requires { IsContent (content_in tables.now) }
    ensures passes { OnOk result
        (AllPass (client_checks_by tables.now handle name.now object text)) }
    ensures does { IfOk result (λ kind. kind ≡ client_message handle text) }
    ensures err { IfErr result
        (λ r. FailsLate (client_checks_by tables.now handle name.now object text) r) }
{
    if let Some(refusal) = client_refusal(tables, handle, name, object, &text) {
        return Err(refusal);
    }
    let (_, lines) = text.into_parts();
    let lines = message_lines(alloc, lines)?;
    Ok(Kind::FromClient(handle, Lines::new(lines)))
}

// What a text comes to that passes the checks of the handle's kind, but for its object's limits.
fn kind_of(
    tables: &Tables,
    alloc: Global,
    writer: &Writer<'_>,
    text: WriteText,
) -> Result<Kind, Refusal>
    requires content { IsContent (content_in tables.now) }
    requires author { IsAuthor (content_in tables.now) writer.now }
    ensures passes { IfOk result (λ kind. LeavesLimits tables.now writer.now text kind) }
    ensures does { IfOk result (λ kind. kind ≡ writer_kind tables.now writer.now text) }
    ensures err { IfErr result (λ r. FailsLate (writer_checks tables.now writer.now text) r) }
{
    let object = writer.object.number();
    let name = tables.handles().name_of(writer.found);
    match writer.kind {
        HandleKind::Server => server_kind(tables, alloc, name, object, text),
        HandleKind::Client => client_kind(tables, alloc, writer.handle, name, object, text),
        _ => object_kind(name, writer.object, text),
    }
}

// What a text says that is not too large.
#[inline(always)]
fn read(alloc: Global, bytes: &Bytes) -> Result<WriteText, Refusal>
    requires { length bytes.now ≤ WRITE_MAX }
    ensures ok { IfOk result (λ text. write_text bytes.now ≡ Ok text) }
    ensures err { IfErr result (λ r. FailsLate (parsed (write_text bytes.now) (λ text. [])) r) }
{
    read_write(alloc, bytes.as_slice())
}

// What bytes come to that are not too large, but for the limits of the object, by their whole text.
fn text_draft(
    tables: &Tables,
    alloc: Global,
    writer: &Writer<'_>,
    bytes: &Bytes,
) -> Result<Draft, Refusal>
    requires content { IsContent (content_in tables.now) }
    requires author { IsAuthor (content_in tables.now) writer.now }
    requires short { length bytes.now ≤ WRITE_MAX }
    ensures ok { IfOk result (λ d. IsDraftBy tables.now writer.now bytes.now d) }
    ensures err { IfErr result (λ r. FailsLate (bytes_checks tables.now writer.now bytes.now) r) }
{
    let text = match read(alloc, bytes) {
        Err(refusal) => return Err(refusal),
        Ok(text) => text,
    };
    let has_lines = !text.lines().is_empty();
    let kind = match kind_of(tables, alloc, writer, text) {
        Err(refusal) => return Err(refusal),
        Ok(kind) => kind,
    };
    Ok(Draft {
        object: writer.object.number(),
        kind,
        has_lines,
    })
}

// What a line alone comes to that is written through an object's handle.
#[inline(always)]
fn line_draft(object: &NamedObject, line: WrittenLine) -> Result<Draft, AllocError>
    ensures { IfOk result (IsLineDraft object.now line) }
{
    let line = object.attributes().resolve_one(line)?;
    Ok(Draft {
        object: object.number(),
        kind: Kind::Change(Lines::one(line)),
        has_lines: true,
    })
}

// What bytes come to that are not too large, but for the limits of the object. The commonest write, one line through an
// object's handle, needs no list of written lines.
#[inline(always)]
fn draft_of(
    tables: &Tables,
    alloc: Global,
    writer: &Writer<'_>,
    bytes: &Bytes,
) -> Result<Draft, Refusal>
    requires content { IsContent (content_in tables.now) }
    requires author { IsAuthor (content_in tables.now) writer.now }
    requires short { length bytes.now ≤ WRITE_MAX }
    ensures ok { IfOk result (λ d. IsDraftBy tables.now writer.now bytes.now d) }
    ensures err { IfErr result (λ r. FailsLate (bytes_checks tables.now writer.now bytes.now) r) }
{
    if let HandleKind::Object { .. } = writer.kind {
        let single = read_single(alloc, bytes.as_slice())?;
        if let Some(line) = single {
            let draft = line_draft(writer.object, line)?;
            return Ok(draft);
        }
    }
    text_draft(tables, alloc, writer, bytes)
}

// A draft with its record, through a handle on this object. AllocError comes only if there are lines.
#[inline(always)]
fn with_record(
    tables: &Tables,
    alloc: Global,
    object: &NamedObject,
    handle: Handle,
    draft: Draft,
) -> Result<Prepared, AllocError>
    requires { live_object_in tables.now draft.object ≡ Some (known_of object.now) }
    ensures { IfOk result (IsPreparedOf (content_in tables.now) handle draft) }
{
    if !draft.has_lines {
        return Ok(Prepared::Untold(draft));
    }
    let entry = record_of(alloc, object, draft.kind, Some(handle))?;
    Ok(Prepared::Record(entry))
}

/// What a write comes to that no check refuses, but for the limits of its object, with its record.
#[inline(always)]
pub(crate) fn drafted(
    tables: &Tables,
    alloc: Global,
    conn: Conn,
    handle: Handle,
    bytes: &Bytes,
) -> Result<Prepared, Refusal>
    requires content { IsContent (content_in tables.now) }
    requires bound { IsBound (content_in tables.now) }
    ensures ok { IfOk result (IsPrepared tables.now conn handle bytes.now) }
    ensures err { IfErr result (λ r. Fails (write_checks_in tables.now conn handle bytes.now) r) }
{
    let writer = match writer_of(tables, conn, handle, bytes) {
        Err(refusal) => return Err(refusal),
        Ok(writer) => writer,
    };
    let draft = match draft_of(tables, alloc, &writer, bytes) {
        Err(refusal) => return Err(refusal),
        Ok(draft) => draft,
    };
    match with_record(tables, alloc, writer.object, handle, draft) {
        Err(_) => Err(Refusal::OutOfMemory),
        Ok(prepared) => Ok(prepared),
    }
}
