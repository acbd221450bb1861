//! What everything of a target is read from.
ghost use Rattle.std.specs.Prelude.{◌≡◌, ◌&&◌, not, true, false, IfOk, IfErr};
ghost use Rattle.std.specs.Option.{option_copied};
ghost use Rattle.pps_types.specs.Reading as reading;
ghost use Rattle.whole_texts.specs.Answered.{meant};
ghost use Rattle.handle_requests.specs.Own.{IsOwn};
ghost use Rattle.handle_requests.specs.Asked.{IsAsked};
ghost use Rattle.handle_requests.specs.Reads.{IsReadAnswer, RefusesRead, ReadsFrom, attribute_lines};

use crate::directories::answer_of;
use crate::owed::owed_to;
use crate::own::SeenHandle;
use name_table::NamedObject;
use pps_types::{Conn, DirId, Handle, ObjId, Refusal};
use service_state::Tables;
use std::alloc::Global;
use sub_reader::Glance;
use whole_texts::{Answer, Member, Whole, answers_are_read, read_answer};

// An object under a name, alive or deleted.
#[inline(always)]
fn member_of<'a>(name: &'a [u8], known: Option<&'a NamedObject>) -> Member<'a>
    ensures name { result.name ≡ name.now }
    ensures lines { result.lines ≡ attribute_lines (option_copied known.entry) }
{
    match known {
        Some(object) => Member::alive(name, object.attributes()),
        None => Member::dead(name),
    }
}

// What a read of a handle answers, by what everything is read from.
#[inline(always)]
fn answered(
    tables: &Tables,
    alloc: Global,
    conn: Conn,
    handle: Handle,
    asked: &SeenHandle<'_>,
    waits: bool,
    size: u32,
    whole: &Whole<'_>,
) -> Result<Answer, Refusal>
    requires known { IsAsked tables.now conn handle asked.now }
    requires reader { ReadsFrom tables.now conn handle waits whole.now }
    ensures ok { IfOk result (λ a. IsReadAnswer tables.now conn handle size (meant a)) }
    ensures err { IfErr result (λ r. RefusesRead tables.now conn handle size r) }
{
    answers_are_read();
    let handles = tables.handles();
    handles.handles_are_placed();
    let owed = owed_to(asked, alloc, handle, size)?;
    read_answer(alloc, whole, waits, size, owed)
}

// Whether a read of an object's handle finds nothing new of an object that is alive.
#[inline(always)]
fn finds_nothing(glance: &Glance<'_>, is_alive: bool) -> bool
    ensures { result ≡ (is_alive && not glance.now.has_news) }
{
    is_alive && !glance.has_news
}

// What a read answers that finds nothing new of an object that is alive.
#[inline(always)]
fn nothing_new(waits: bool) -> Answer
    ensures { meant result ≡ reading.idle_answer false waits }
{
    if waits {
        return Answer::Waits;
    }
    Answer::Nothing
}

/// What a read of an object's handle answers, of which nothing is refused before.
///
/// It is TooSmall, with the size, where not even the first thing to give fits, before any memory is taken, and Gone where
/// nothing is owed of an object that is deleted; else OutOfMemory is the only error, where there is something to give.
#[inline(always)]
pub(crate) fn answer_of_object(
    tables: &Tables,
    alloc: Global,
    conn: Conn,
    handle: Handle,
    asked: &SeenHandle<'_>,
    size: u32,
) -> Result<Answer, Refusal>
    requires own { IsOwn tables.now conn handle asked.now.own }
    requires known { IsAsked tables.now conn handle asked.now }
    requires reads { asked.now.own.opening.now.reads ≡ true }
    requires object { reading.is_directory_kind asked.now.own.opening.now.kind ≡ false }
    ensures ok { IfOk result (λ a. IsReadAnswer tables.now conn handle size (meant a)) }
    ensures err { IfErr result (λ r. RefusesRead tables.now conn handle size r) }
{
    let handles = tables.handles();
    handles.handles_are_placed();
    let own = &asked.own;
    let known = tables.names().object(ObjId::new(own.target()));
    let is_alive = known.is_some();
    let waits = own.waits();
    // A read that finds nothing new ends here, and nothing is made of what only a text needs.
    if finds_nothing(&asked.glance, is_alive) {
        return Ok(nothing_new(waits));
    }
    let is_over = asked.glance.is_over;
    let members = [member_of(asked.topic.name(), known)];
    let whole = Whole::new(own.kind(), own.filter(), is_over, is_alive, &members);
    answered(tables, alloc, conn, handle, asked, waits, size, &whole)
}

/// What a read of a directory's handle answers, of which nothing is refused before.
///
/// It is TooSmall, with the size, where not even the first thing to give fits, before any memory is taken; else OutOfMemory
/// is the only error, where there is something to give.
pub(crate) fn answer_of_directory(
    tables: &Tables,
    alloc: Global,
    conn: Conn,
    handle: Handle,
    asked: &SeenHandle<'_>,
    size: u32,
) -> Result<Answer, Refusal>
    requires own { IsOwn tables.now conn handle asked.now.own }
    requires known { IsAsked tables.now conn handle asked.now }
    requires reads { asked.now.own.opening.now.reads ≡ true }
    requires directory { reading.is_directory_kind asked.now.own.opening.now.kind ≡ true }
    ensures ok { IfOk result (λ a. IsReadAnswer tables.now conn handle size (meant a)) }
    ensures err { IfErr result (λ r. RefusesRead tables.now conn handle size r) }
{
    answers_are_read();
    let handles = tables.handles();
    handles.handles_are_placed();
    let own = &asked.own;
    let is_over = asked.glance.is_over;
    let objects = tables.names().lent_objects(DirId::new(own.target()));
    let owed = owed_to(asked, alloc, handle, size)?;
    answer_of(
        alloc,
        own.kind(),
        own.filter(),
        is_over,
        &objects,
        own.waits(),
        size,
        owed,
    )
}
