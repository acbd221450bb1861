//! What lines would make of attributes, told without changing them.
ghost use Rattle.std.specs.Prelude.{◌≡◌, ◌+◌, ◌-◌, ◌≤◌, ◌<◌, ◌^◌, List, IfOk, OnOk, length};
ghost use Rattle.pps_types.specs.History as history;
ghost use Rattle.pps_types.specs.Text as text;
ghost use Rattle.object_state.specs.Effect.{length_at, noted_in, count_of as counted, bytes_of, Foretells};
ghost use Rattle.object_state.specs.Entries.{attributes_in};
ghost use Rattle.object_state.specs.Limits.{lines_pass_limits};
ghost use Rattle.object_state.specs.Notes.{Notes, length_then};

use crate::attributes::Attributes;
use crate::content::line_len as content_line_len;
use crate::noted::{Noted, OrderedName};
use attr_text::{line_len, passes_limits};
use pps_filter::Name;
use pps_types::{Bytes, HeldLine, LineRef};
use std::alloc::{AllocError, Global};

/// How many attributes there would be, how long their printed lines would be together, and, of each name that a line
/// named, how long its own would be.
#[derive(Drop)]
struct Effect {
    noted: Noted<Option<usize>>,
    count: usize,
    text_len: usize,
}

fn count_of(len: Option<usize>) -> usize
    ensures is { result ≡ counted len }
    ensures most { result ≤ 1 }
{
    match len {
        None => 0,
        Some(_) => 1,
    }
}

// How long the printed line of the attribute of that name is, where there is one.
fn len_before(map: &Attributes, name: &Name) -> Option<usize>
    requires { history.text_length (attributes_in map.now) < 2 ^ 64 }
    ensures { result ≡ length_at name.now (attributes_in map.now) }
{
    match map.get(name) {
        None => None,
        Some(content) => Some(content_line_len(content, name.len())),
    }
}

impl Effect {
    // Notes how long the printed line of the attribute of that name would be.
    fn note(
        &mut self,
        map: &Attributes,
        name: OrderedName,
        len: Option<usize>,
    ) -> Result<(), AllocError>
        requires text { history.text_length (attributes_in map.now) < 2 ^ 64 }
        requires counts { self.old.count + 1 < 2 ^ 64 }
        requires fits { self.old.text_len + bytes_of len < 2 ^ 64 }
        ensures noted { OnOk result (Notes name len self.old.noted self.new.noted) }
        ensures count { OnOk result (self.new.count
            ≡ self.old.count + counted len - counted (length_then self.old.noted map.now name)) }
        ensures text_len { OnOk result (self.new.text_len
            ≡ self.old.text_len + bytes_of len - bytes_of (length_then self.old.noted map.now name)) }
    {
        let at_first = len_before(map, name.as_name());
        let before = self.noted.insert(name, len)?.unwrap_or(at_first);
        self.count = (self.count + count_of(len)).saturating_sub(count_of(before));
        self.text_len = (self.text_len + len.unwrap_or(0)).saturating_sub(before.unwrap_or(0));
        Ok(())
    }

    fn note_line(
        &mut self,
        alloc: Global,
        map: &Attributes,
        line: &HeldLine,
    ) -> Result<(), AllocError>
        requires text { history.text_length (attributes_in map.now) < 2 ^ 64 }
        requires counts { self.old.count + 1 < 2 ^ 64 }
        requires fits { self.old.text_len + length (text.print_line line.now) < 2 ^ 64 }
        ensures { OnOk result ((after : List history.Attribute)
            → Foretells (noted_in self.old.noted) self.old.count self.old.text_len (attributes_in map.now) after
            → Foretells (noted_in self.new.noted) self.new.count self.new.text_len (attributes_in map.now) (history.apply_line after line.now)) }
    {
        match line.parts() {
            LineRef::Set { name, .. } => {
                let name = OrderedName::new(Bytes::from_slice(alloc, name)?);
                self.note(map, name, line_len(line))?;
                Ok(())
            }
            LineRef::Del { name } => {
                let name = OrderedName::new(Bytes::from_slice(alloc, name)?);
                self.note(map, name, None)?;
                Ok(())
            }
        }
    }
}

/// Whether the attributes would pass a limit of objects, once all of the lines had taken effect.
pub(crate) fn would_pass_limits(
    alloc: Global,
    map: &Attributes,
    text_len: usize,
    lines: &[HeldLine],
) -> Result<bool, AllocError>
    requires kept { text_len ≡ history.text_length (attributes_in map.now) }
    requires fits { text_len + length (text.print_lines lines.now) < 2 ^ 64 }
    requires counts { length (attributes_in map.now) + length lines.now < 2 ^ 64 }
    ensures { IfOk result (λ passes. passes ≡ lines_pass_limits (attributes_in map.now) lines.now) }
{
    let mut effect = Effect {
        noted: Noted::new(alloc),
        count: map.len(),
        text_len,
    };
    'lines: for line in lines {
        effect.note_line(alloc, map, line)?;
    }
    Ok(passes_limits(effect.count, effect.text_len))
}
