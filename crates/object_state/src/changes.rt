//! Changes of attributes. They take no memory, and tell how long the printed lines are then.
ghost use Rattle.std.specs.Prelude.{◌≡◌, ◌+◌, ◌≤◌, ◌<◌, ◌^◌, true, IfSome, length};
ghost use Rattle.std.specs.List.{swap};
ghost use Rattle.pps_types.specs.History as history;
ghost use Rattle.pps_types.specs.Text as text;
ghost use Rattle.object_state.specs.Effect.{printed_length};
ghost use Rattle.object_state.specs.Entries.{attribute_of, attributes_in, persistent_length, with_named, without_named};
ghost use Rattle.object_state.specs.Limits.{after_lines};
ghost use Rattle.object_state.specs.Short.{is_short_line, are_short, AreCopiesFor};

use crate::attributes::Attributes;
use crate::content::line_len;
use crate::lines::{LineCopy, Parts};
use pps_filter::Name;
use pps_types::{AttributeContent, Bytes, HeldLine, LineRef};

/// Puts an attribute in the place of the one of that name, or last, for which there is room.
#[inline(always)]
fn set(map: &mut Attributes, text_len: usize, name: Name, content: AttributeContent) -> usize
    requires room { 0 < map.old.room }
    requires kept { text_len ≡ history.text_length (attributes_in map.old) }
    requires fits { text_len + printed_length (attribute_of (name, content)) < 2 ^ 64 }
    ensures attributes { attributes_in map.new ≡ with_named name content (attributes_in map.old) }
    ensures kept { result ≡ history.text_length (attributes_in map.new) }
    ensures room { map.old.room ≤ map.new.room + 1 }
{
    let name_len = name.len();
    let len = line_len(&content, name_len);
    match map.insert(name, content) {
        None => text_len + len,
        Some(replaced) => text_len + len - line_len(&replaced, name_len),
    }
}

/// Deletes the attribute of that name, where there is one. The others keep their order.
fn delete(map: &mut Attributes, text_len: usize, name: &Name) -> usize
    requires kept { text_len ≡ history.text_length (attributes_in map.old) }
    requires fits { text_len < 2 ^ 64 }
    ensures attributes { attributes_in map.new ≡ without_named name.now (attributes_in map.old) }
    ensures kept { result ≡ history.text_length (attributes_in map.new) }
    ensures room { map.old.room ≤ map.new.room }
{
    // `len` says that no name stands twice.
    let _len = map.len();
    match map.remove(name) {
        None => text_len,
        Some(deleted) => text_len - line_len(&deleted, name.len()),
    }
}

fn apply_line(map: &mut Attributes, text_len: usize, line: LineCopy) -> usize
    requires room { 0 < map.old.room }
    requires kept { text_len ≡ history.text_length (attributes_in map.old) }
    requires fits { text_len + length (text.print_line line) < 2 ^ 64 }
    ensures attributes { attributes_in map.new ≡ history.apply_line (attributes_in map.old) line }
    ensures kept { result ≡ history.text_length (attributes_in map.new) }
    ensures room { map.old.room ≤ map.new.room + 1 }
{
    let LineCopy { parts } = line;
    match parts {
        Parts::Set { name, content } => set(map, text_len, name, content),
        Parts::Del { name } => delete(map, text_len, &name),
    }
}

// Each line takes effect, one after the other.
fn apply_lines(map: &mut Attributes, text_len: usize, lines: Vec<LineCopy>) -> usize
    requires room { length lines.items ≤ map.old.room }
    requires kept { text_len ≡ history.text_length (attributes_in map.old) }
    requires fits { text_len + length (text.print_lines lines.items) < 2 ^ 64 }
    ensures attributes { attributes_in map.new ≡ after_lines (attributes_in map.old) lines.items }
    ensures kept { result ≡ history.text_length (attributes_in map.new) }
{
    let mut text_len = text_len;
    'lines: for line in lines {
        text_len = apply_line(map, text_len, line);
    }
    text_len
}

// A line takes effect. Its texts are short, and are copied.
#[inline(always)]
fn apply_copy(map: &mut Attributes, text_len: usize, line: &HeldLine) -> usize
    requires short { is_short_line line.now ≡ true }
    requires room { 0 < map.old.room }
    requires kept { text_len ≡ history.text_length (attributes_in map.old) }
    requires fits { text_len + length (text.print_line line.now) < 2 ^ 64 }
    ensures attributes { attributes_in map.new ≡ history.apply_line (attributes_in map.old) line.now }
    ensures kept { result ≡ history.text_length (attributes_in map.new) }
    ensures room { map.old.room ≤ map.new.room + 1 }
{
    match line.parts() {
        LineRef::Set { name, content } => {
            let name = Name::new(Bytes::short(name));
            set(map, text_len, name, content.short_copy())
        }
        LineRef::Del { name } => delete(map, text_len, &Name::new(Bytes::short(name))),
    }
}

// Each line takes effect, one after the other. Their texts are short, and are copied.
fn apply_short(map: &mut Attributes, text_len: usize, lines: &[HeldLine]) -> usize
    requires short { are_short lines.now ≡ true }
    requires room { length lines.now ≤ map.old.room }
    requires kept { text_len ≡ history.text_length (attributes_in map.old) }
    requires fits { text_len + length (text.print_lines lines.now) < 2 ^ 64 }
    ensures attributes { attributes_in map.new ≡ after_lines (attributes_in map.old) lines.now }
    ensures kept { result ≡ history.text_length (attributes_in map.new) }
{
    let mut text_len = text_len;
    'lines: for line in lines {
        text_len = apply_copy(map, text_len, line);
    }
    text_len
}

/// Each of these lines takes effect, one after the other, with the copies that are held of them. It takes no memory.
pub(crate) fn apply_ready(
    map: &mut Attributes,
    text_len: usize,
    copies: Option<Box<Vec<LineCopy>>>,
    lines: &[HeldLine],
) -> usize
    requires copies { AreCopiesFor lines.now copies }
    requires room { length lines.now ≤ map.old.room }
    requires kept { text_len ≡ history.text_length (attributes_in map.old) }
    requires fits { text_len + length (text.print_lines lines.now) < 2 ^ 64 }
    ensures attributes { attributes_in map.new ≡ after_lines (attributes_in map.old) lines.now }
    ensures kept { result ≡ history.text_length (attributes_in map.new) }
{
    match copies {
        None => apply_short(map, text_len, lines),
        Some(copies) => apply_lines(map, text_len, Box::into_inner(copies)),
    }
}

// How long the printed line of the attribute in that place is, where that is persistent.
fn persistent_len(map: &Attributes, place: usize) -> Option<usize>
    requires { IfSome (persistent_length map.now.entries place) (λ len. len < 2 ^ 64) }
    ensures { result ≡ persistent_length map.now.entries place }
{
    let (name, content) = map.get_index(place)?;
    if content.n() {
        return None;
    }
    Some(line_len(content, name.len()))
}

// Moves the attribute in that place to the place behind those that are kept.
fn move_down(map: &mut Attributes, kept: usize, place: usize)
    requires behind { kept ≤ place }
    requires within { place < length map.old.entries }
    ensures { map.new.entries ≡ swap map.old.entries kept place }
{
    if kept < place {
        map.swap(kept, place);
    }
}

/// Deletes the nonpersistent attributes. The others keep their order.
pub(crate) fn drop_nonpersistent(map: &mut Attributes) -> usize
    requires { history.text_length (attributes_in map.old) < 2 ^ 64 }
    ensures attributes { attributes_in map.new ≡ history.persistent (attributes_in map.old) }
    ensures kept { result ≡ history.text_length (attributes_in map.new) }
{
    // `retain` would not do: its contract does not tell what its closure has summed up.
    let mut text_len = 0;
    let mut kept = 0;
    'places: for place in 0..map.len() {
        if let Some(line_len) = persistent_len(map, place) {
            move_down(map, kept, place);
            kept += 1;
            text_len += line_len;
        }
    }
    map.truncate(kept);
    text_len
}
