//! Printing of attributes.
ghost use Rattle.std.specs.Prelude.{◌≡◌, ◌+◌, ◌≤◌, ◌<◌, ◌^◌, ◌++◌, length, vec_len, vec_capacity};
ghost use Rattle.attr_text.specs.Written.{overwritten};
ghost use Rattle.object_state.specs.Entries.{attributes_in, attributes_of};
ghost use Rattle.object_state.specs.Held.{print_all};
ghost use Rattle.object_state.specs.Printed.{print_entry, print_filtered};

use crate::attributes::{Attributes, AttributesRef, Entry, Index};
use crate::content::line_len;
use crate::places::first_place;
use attr_text::{push_attribute, write_attribute};
use pps_filter::{Filter, Name};
use pps_types::AttributeContent;

/// How long the printed lines of those that match are.
pub(crate) fn matching_len(map: &Attributes, filter: &Filter) -> usize
    requires { length (print_filtered filter.now map.now) < 2 ^ 64 }
    ensures { result ≡ length (print_filtered filter.now map.now) }
{
    let mut total = 0;
    let mut place = first_place(map, filter, 0);
    'places: while let Some((name, content)) = map.get_index(place) {
        total += line_len(content, name.len());
        place = first_place(map, filter, place + 1);
    }
    total
}

// Pushes the printed line of the attribute, for which there is room.
fn push_entry(out: &mut Vec<u8>, name: &Name, content: &AttributeContent)
    requires { vec_len out.old + length (print_entry name.now content.now) ≤ vec_capacity out.old }
    ensures items { out.new.items ≡ out.old.items ++ print_entry name.now content.now }
    ensures capacity { vec_capacity out.old ≤ vec_capacity out.new }
{
    push_attribute(out, name.as_slice(), &content.lend());
}

// Writes the printed line of the attribute over what stands from `at` on, and says where it ends.
#[inline(always)]
fn write_entry(out: &mut [u8], at: usize, name: &Name, content: &AttributeContent) -> usize
    requires { at + length (print_entry name.now content.now) ≤ length out.old }
    ensures text { out.new ≡ overwritten out.old at (print_entry name.now content.now) }
    ensures end { result ≡ at + length (print_entry name.now content.now) }
{
    write_attribute(out, at, name.as_slice(), &content.lend())
}

// Writes the printed lines of few attributes over what is there from `start` on.
fn write_few(out: &mut [u8], start: usize, entries: &[Entry])
    requires { start + length (print_all (attributes_of entries.now)) ≤ length out.old }
    ensures { out.new ≡ overwritten out.old start (print_all (attributes_of entries.now)) }
{
    let mut at = start;
    'entries: for entry in entries {
        at = write_entry(out, at, &entry.0, &entry.1);
    }
}

// The same of those of which there is an index.
fn write_many(out: &mut [u8], start: usize, index: &Index)
    requires { start + length (print_all (attributes_of index.now.entries)) ≤ length out.old }
    ensures { out.new ≡ overwritten out.old start (print_all (attributes_of index.now.entries)) }
{
    let mut at = start;
    'entries: for (name, content) in index {
        at = write_entry(out, at, name, content);
    }
}

// Writes the printed lines of all attributes over what is there from `start` on.
fn write_all(out: &mut [u8], start: usize, map: &Attributes)
    requires { start + length (print_all (attributes_in map.now)) ≤ length out.old }
    ensures { out.new ≡ overwritten out.old start (print_all (attributes_in map.now)) }
{
    match map.lend() {
        AttributesRef::Few(entries) => write_few(out, start, entries),
        AttributesRef::Many(index) => write_many(out, start, index),
    }
}

/// Pushes the printed lines of all attributes, which are that long, and for which there is room. The place for all of
/// them is made at once.
pub(crate) fn push_all(out: &mut Vec<u8>, map: &Attributes, len: usize)
    requires len { len ≡ length (print_all (attributes_in map.now)) }
    requires room { vec_len out.old + len ≤ vec_capacity out.old }
    ensures items { out.new.items ≡ out.old.items ++ print_all (attributes_in map.now) }
    ensures capacity { vec_capacity out.old ≤ vec_capacity out.new }
{
    let start = out.len();
    out.resize(start + len, 0).unwrap();
    write_all(out.as_mut_slice(), start, map);
}

/// Pushes the printed lines of those that match, for which there is room.
pub(crate) fn push_matching(out: &mut Vec<u8>, map: &Attributes, filter: &Filter)
    requires { vec_len out.old + length (print_filtered filter.now map.now) ≤ vec_capacity out.old }
    ensures items { out.new.items ≡ out.old.items ++ print_filtered filter.now map.now }
    ensures capacity { vec_capacity out.old ≤ vec_capacity out.new }
{
    let mut place = first_place(map, filter, 0);
    'places: while let Some((name, content)) = map.get_index(place) {
        push_entry(out, name, content);
        place = first_place(map, filter, place + 1);
    }
}
