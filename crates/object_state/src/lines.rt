//! Lines of records: copies, and how long they are.
ghost use Rattle.std.specs.Prelude.{◌≡◌, ◌+◌, ◌≤◌, ◌^◌, IfOk, IfSome, IfNone, length};
ghost use Rattle.pps_types.specs.Text as text;
ghost use Rattle.object_state.specs.Marks.{sets_mark, set_marks};
ghost use Rattle.object_state.specs.Short.{is_short_line, are_short, AreCopiesFor};

use attr_text::line_len;
use pps_filter::Name;
use pps_types::{AttributeContent, Bytes, HeldLine, LineRef};
use std::alloc::{AllocError, Global};
use std::marker::Model;

/// The parts of a line, as an object keeps them.
#[derive(Drop)]
pub(crate) enum Parts {
    Set {
        name: Name,
        content: AttributeContent,
    },
    Del {
        name: Name,
    },
}

/// A copy of a line, in parts of its own.
#[derive(Drop)]
pub(crate) struct LineCopy {
    pub(crate) parts: Parts,
}

impl Model for LineCopy {
    ghost use Rattle.pps_types.specs.declared.line.Line.{Line};
    ghost use Rattle.object_state.specs.LineParts.{line_of_parts};

    ghost Value = { Line };

    ghost view = { λ a. line_of_parts a.parts };
}

// Whether the texts of a line are short, so that a copy of its parts takes no memory.
#[inline]
fn is_short(line: &HeldLine) -> bool
    ensures { result ≡ is_short_line line.now }
{
    match line.parts() {
        LineRef::Set { name, content } => {
            Bytes::fits_in_place(name) && Bytes::fits_in_place(content.text())
        }
        LineRef::Del { name } => Bytes::fits_in_place(name),
    }
}

// Whether this is so of all of them.
#[inline]
fn are_short(lines: &[HeldLine]) -> bool
    ensures { result ≡ are_short lines.now }
{
    lines.iter().all(|line| is_short(line))
}

// Whether a line makes its attribute nonpersistent.
#[inline]
fn sets_mark(line: &HeldLine) -> bool
    ensures { result ≡ sets_mark line.now }
{
    match line.parts() {
        LineRef::Set { content, .. } => content.n(),
        LineRef::Del { .. } => false,
    }
}

/// Whether one of the lines makes its attribute nonpersistent.
#[inline]
pub(crate) fn set_marks(lines: &[HeldLine]) -> bool
    ensures { result ≡ set_marks lines.now }
{
    lines.iter().any(|line| sets_mark(line))
}

fn copy_of(alloc: Global, line: &HeldLine) -> Result<LineCopy, AllocError>
    ensures { IfOk result (λ copy. copy ≡ line.now) }
{
    let parts = match line.parts() {
        LineRef::Set { name, content } => Parts::Set {
            name: Name::new(Bytes::from_slice(alloc, name)?),
            content: content.copy(alloc)?,
        },
        LineRef::Del { name } => Parts::Del {
            name: Name::new(Bytes::from_slice(alloc, name)?),
        },
    };
    Ok(LineCopy { parts })
}

// Copies of the lines, in their order.
fn copies_of(alloc: Global, lines: &[HeldLine]) -> Result<Vec<LineCopy>, AllocError>
    ensures { IfOk result (λ copies. copies.items ≡ lines.now) }
{
    let mut copies = Vec::with_capacity(alloc, lines.len())?;
    'lines: for line in lines {
        copies.push_reserved(copy_of(alloc, line)?);
    }
    Ok(copies)
}

/// The copies that are held of lines, so that these can be applied without memory: none of short lines.
pub(crate) fn copies_for(
    alloc: Global,
    lines: &[HeldLine],
) -> Result<Option<Box<Vec<LineCopy>>>, AllocError>
    ensures { IfOk result (AreCopiesFor lines.now) }
{
    if are_short(lines) {
        return Ok(None);
    }
    let copies = Box::new(alloc, copies_of(alloc, lines)?)?;
    Ok(Some(copies))
}

/// How long a text of that length and the printed lines behind it are, where that is a length.
pub(crate) fn len_with(text_len: usize, lines: &[HeldLine]) -> Option<usize>
    ensures some { IfSome result (λ len. len ≡ text_len + length (text.print_lines lines.now)) }
    ensures none { IfNone result (2 ^ 64 ≤ text_len + length (text.print_lines lines.now)) }
{
    let mut total = text_len;
    'lines: for line in lines {
        total = total.checked_add(line_len(line)?)?;
    }
    Some(total)
}
