//! What the lines of a write come to: their marks, resolved.
ghost use Rattle.std.specs.Prelude.{◌≡◌, List, true, false, IfOk, OnOk};
ghost use Rattle.pps_types.specs.History as history;
ghost use Rattle.pps_types.specs.History.{resolve};
ghost use Rattle.object_state.specs.Effect.{noted_in, ForetellsMarks};
ghost use Rattle.object_state.specs.Entries.{attributes_in};
ghost use Rattle.object_state.specs.Notes.{is_marked_then};
ghost use Rattle.object_state.specs.MarkBefore.{IsMarkBefore, Resolves, StaysForetold, changes_mark};

use crate::attributes::Attributes;
use crate::noted::{Noted, OrderedName};
use pps_filter::Name;
use pps_types::{Bytes, HeldLine, LineRef, WrittenLine};
use std::alloc::{AllocError, Global};

// Whether an attribute of that name is there and nonpersistent.
fn was_marked(map: &Attributes, name: &Name) -> bool
    ensures { result ≡ history.is_marked name.now (attributes_in map.now) }
{
    match map.get(name) {
        None => false,
        Some(content) => content.n(),
    }
}

// What the map says of a name.
fn marked_in(alloc: Global, map: &Attributes, name: &[u8]) -> Result<bool, AllocError>
    ensures { IfOk result (λ n. n ≡ history.is_marked name.now (attributes_in map.now)) }
{
    let name = Name::new(Bytes::from_slice(alloc, name)?);
    Ok(was_marked(map, &name))
}

// Whether an attribute of that name is by then there and nonpersistent, by the notes or else by the map. Where there are
// no notes, they are not asked.
fn mark_of(
    alloc: Global,
    noted: &Noted<bool>,
    map: &Attributes,
    name: &[u8],
) -> Result<bool, AllocError>
    ensures { IfOk result (λ n. n ≡ is_marked_then noted.now map.now name.now) }
{
    if noted.is_empty() {
        return marked_in(alloc, map, name);
    }
    let name = OrderedName::new(Bytes::from_slice(alloc, name)?);
    match noted.get(&name) {
        None => Ok(was_marked(map, name.as_name())),
        Some(n) => Ok(*n),
    }
}

/// What a line of a write comes to, and whether it changes the mark of its name, where another line follows.
#[derive(Drop)]
struct Resolved {
    line: HeldLine,
    changes: bool,
}

// Whether the attribute that a line names is by then there and nonpersistent. After the last line nobody needs that of a
// name that is deleted, and it is not asked for.
fn mark_before(
    alloc: Global,
    noted: &Noted<bool>,
    map: &Attributes,
    line: &WrittenLine,
    is_last: bool,
) -> Result<bool, AllocError>
    ensures { IfOk result (λ n. IsMarkBefore noted.now map.now is_last line.now n) }
{
    match line.parts() {
        LineRef::Set { name, .. } => mark_of(alloc, noted, map, name),
        LineRef::Del { .. } if is_last => Ok(false),
        LineRef::Del { name } => mark_of(alloc, noted, map, name),
    }
}

// Whether a line that comes to this changes a mark that was so before.
fn changes_mark(before: bool, line: &HeldLine) -> bool
    ensures { result ≡ changes_mark before line.now }
{
    match line.parts() {
        LineRef::Set { content, .. } => content.n() != before,
        LineRef::Del { .. } => before,
    }
}

// The line that a line of a write comes to.
fn resolve_line(
    alloc: Global,
    noted: &Noted<bool>,
    map: &Attributes,
    line: WrittenLine,
    is_last: bool,
) -> Result<Resolved, AllocError>
    ensures line { IfOk result (λ made. Resolves noted.now map.now line made.line) }
    ensures stays { IfOk result (λ made. is_last ≡ false → made.changes ≡ false → StaysForetold noted.now map.now made.line) }
{
    let before = mark_before(alloc, noted, map, &line, is_last)?;
    let line = line.resolved_by(before);
    let changes = changes_mark(before, &line);
    Ok(Resolved { line, changes })
}

/// What a line of a write comes to on its own.
pub(crate) fn resolve_one(
    alloc: Global,
    map: &Attributes,
    line: WrittenLine,
) -> Result<HeldLine, AllocError>
    ensures { IfOk result (λ made. made ≡ history.resolved (attributes_in map.now) line) }
{
    let before = match line.parts() {
        LineRef::Set { name, .. } => marked_in(alloc, map, name)?,
        LineRef::Del { .. } => false,
    };
    Ok(line.resolved_by(before))
}

// Notes what a line makes of the mark of its name.
fn note(alloc: Global, noted: &mut Noted<bool>, line: &HeldLine) -> Result<(), AllocError>
    ensures { OnOk result ((before after : List history.Attribute)
        → ForetellsMarks (noted_in noted.old) before after → ForetellsMarks (noted_in noted.new) before (history.apply_line after line.now)) }
{
    match line.parts() {
        LineRef::Set { name, content } => {
            let name = OrderedName::new(Bytes::from_slice(alloc, name)?);
            noted.insert(name, content.n())?;
            Ok(())
        }
        LineRef::Del { name } => {
            let name = OrderedName::new(Bytes::from_slice(alloc, name)?);
            noted.insert(name, false)?;
            Ok(())
        }
    }
}

// The same, where it has to be noted.
fn note_where(
    changes: bool,
    alloc: Global,
    noted: &mut Noted<bool>,
    line: &HeldLine,
) -> Result<(), AllocError>
    ensures noted { OnOk result (changes ≡ true → (before after : List history.Attribute)
        → ForetellsMarks (noted_in noted.old) before after → ForetellsMarks (noted_in noted.new) before (history.apply_line after line.now)) }
    ensures unchanged { changes ≡ false → noted.new ≡ noted.old }
{
    if !changes {
        return Ok(());
    }
    note(alloc, noted, line)?;
    Ok(())
}

/// What the lines of a write come to, each where those before it took effect. Only those marks are noted that change, and
/// that a later line may ask for.
pub(crate) fn resolve(
    alloc: Global,
    map: &Attributes,
    lines: Vec<WrittenLine>,
) -> Result<Vec<HeldLine>, AllocError>
    ensures { IfOk result (λ made. made.items ≡ resolve (attributes_in map.now) lines.items) }
{
    let count = lines.len();
    let mut noted = Noted::new(alloc);
    let mut made = Vec::with_capacity(alloc, count)?;
    'lines: for line in lines {
        let is_last = made.len() + 1 == count;
        let Resolved {
            line: next,
            changes,
        } = resolve_line(alloc, &noted, map, line, is_last)?;
        note_where(changes && !is_last, alloc, &mut noted, &next)?;
        made.push_reserved(next);
    }
    Ok(made)
}
