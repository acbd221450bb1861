//! The members of a directory, as records leave them.
ghost use Rattle.std.specs.Prelude.{◌≡◌, ◌≤◌, IfOk, OnOk, length, map};
ghost use Rattle.std.specs.List.{filter_map};
ghost use Rattle.name_table.specs.Standing.{known_of, named_content};
ghost use Rattle.pps_engine.specs.Behind.{row_of, row_member, row_created, row_by, row_left, with_row, with_row_at, rows_by, rows_behind};

use crate::settled_attributes::{Attributes, after};
use name_table::{NamedObject, Names, Objects};
use object_state::Object;
use pps_types::{DirId, Kind, ObjId, Refusal};
use server_queue::Entry;
use std::alloc::{AllocError, Global};
use std::marker::Model;
use whole_texts::Member;

/// An alive object of a directory.
#[derive(Drop)]
pub(crate) struct Row<'a> {
    object: ObjId,
    name: &'a [u8],
    attributes: Attributes<'a>,
}

impl<'a> Model for Row<'a> {
    ghost use Rattle.pps_engine.specs.Behind.{attributes_in, Row as RowSeen};

    ghost Value = { RowSeen };

    ghost view = { λ r. record { number = r.object; name = r.name.now; attributes = attributes_in r.attributes } };
}

impl<'a> Row<'a> {
    /// An object as it stands.
    fn standing(object: &'a NamedObject) -> Row<'a>
        ensures { result ≡ row_of (known_of object.now) }
    {
        Row {
            object: object.number(),
            name: object.name(),
            attributes: Attributes::Lent(object.attributes()),
        }
    }

    /// The object that a record creates.
    fn created(alloc: Global, entry: &'a Entry) -> Row<'a>
        ensures { result ≡ row_created entry.now }
    {
        Row {
            object: entry.record().object,
            name: entry.name(),
            attributes: Attributes::Made(Object::new(alloc)),
        }
    }

    /// The object behind a record of it, if it is alive then.
    fn after(self, alloc: Global, kind: &Kind) -> Result<Option<Row<'a>>, Refusal>
        ensures { IfOk result (λ left. left ≡ row_left kind.now self.entry) }
    {
        let Row {
            object,
            name,
            attributes,
        } = self;
        match kind {
            Kind::Deleted => Ok(None),
            _ => {
                let attributes = after(alloc, attributes, kind)?;
                Ok(Some(Row {
                    object,
                    name,
                    attributes,
                }))
            }
        }
    }

    /// The object behind a record of it or of another, if it is alive then.
    fn behind(self, alloc: Global, entry: &Entry) -> Result<Option<Row<'a>>, Refusal>
        ensures { IfOk result (λ left. left ≡ row_by entry.now self.entry) }
    {
        let record = entry.record();
        if record.object != self.object {
            return Ok(Some(self));
        }
        self.after(alloc, &record.kind)
    }

    /// What a late reply takes of it.
    fn member(&self) -> Member<'_>
        ensures { result ≡ row_member self.now }
    {
        Member::alive(self.name, self.attributes.object())
    }
}

/// The alive objects of a directory as they stand.
fn rows_of<'a>(alloc: Global, objects: &Objects<'a>) -> Result<Vec<Row<'a>>, AllocError>
    ensures { IfOk result (λ rows. rows.items ≡ map row_of (filter_map (λ o. o) objects.now)) }
{
    let mut rows = Vec::new(alloc);
    'places: for place in 0..objects.len() {
        if let Some(object) = objects.get(place) {
            rows.push(Row::standing(object))?;
        }
    }
    Ok(rows)
}

/// Where a row goes among others by byte order of names.
fn place_for(rows: &[Row<'_>], row: &Row<'_>) -> usize
    ensures within { result ≤ length rows.now }
    ensures place { with_row row.now rows.now ≡ with_row_at result row.now rows.now }
{
    let mut place = 0;
    'places: for other in rows {
        if row.name.cmp(other.name).is_lt() {
            return place;
        }
        place += 1;
    }
    place
}

/// Puts a row in its place.
fn put_row<'a>(rows: &mut Vec<Row<'a>>, row: Row<'a>) -> Result<(), AllocError>
    ensures { OnOk result (rows.new.items ≡ with_row row.entry rows.old.items) }
{
    let place = place_for(rows.as_slice(), &row);
    rows.insert(place, row)?;
    Ok(())
}

/// The rows behind a record that creates nothing.
fn rows_touched<'a>(
    alloc: Global,
    rows: Vec<Row<'a>>,
    entry: &Entry,
) -> Result<Vec<Row<'a>>, Refusal>
    ensures { IfOk result (λ left. left.items ≡ filter_map (row_by entry.now) rows.entry.items) }
{
    let mut left = Vec::new(alloc);
    'rows: for row in rows {
        if let Some(row) = row.behind(alloc, entry)? {
            left.push(row)?;
        }
    }
    Ok(left)
}

/// The members of a directory behind a record.
fn rows_after<'a>(
    alloc: Global,
    rows: Vec<Row<'a>>,
    directory: DirId,
    entry: &'a Entry,
) -> Result<Vec<Row<'a>>, Refusal>
    ensures { IfOk result (λ left. left.items ≡ rows_by directory rows.entry.items entry.now) }
{
    match &entry.record().kind {
        Kind::Created => {
            let mut rows = rows;
            if entry.directory() == directory.number() {
                put_row(&mut rows, Row::created(alloc, entry))?;
            }
            Ok(rows)
        }
        _ => rows_touched(alloc, rows, entry),
    }
}

/// The members of a directory behind these records, in byte order of names.
///
/// An error comes only where memory is wanting, or where a record brings an object past its limits.
pub(crate) fn rows_behind<'a>(
    alloc: Global,
    names: &'a Names,
    entries: &'a [Entry],
    directory: DirId,
) -> Result<Vec<Row<'a>>, Refusal>
    ensures { IfOk result (λ rows.
        rows.items ≡ rows_behind (named_content names.now) entries.now directory) }
{
    let objects = names.lent_objects(directory);
    let mut rows = rows_of(alloc, &objects)?;
    'entries: for entry in entries {
        rows = rows_after(alloc, rows, directory, entry)?;
    }
    Ok(rows)
}

/// What a late reply takes of rows.
pub(crate) fn members_of<'b>(
    alloc: Global,
    rows: &'b [Row<'_>],
) -> Result<Vec<Member<'b>>, AllocError>
    ensures { IfOk result (λ members. members.items ≡ map row_member rows.now) }
{
    let mut members = Vec::new(alloc);
    'rows: for row in rows {
        members.push(row.member())?;
    }
    Ok(members)
}
