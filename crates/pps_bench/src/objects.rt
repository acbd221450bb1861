//! Attributes of an object.

use crate::lines::set_line;
use object_state::Object;
use pps_filter::read_filter;
use pps_types::{HeldLine, Refusal};
use std::alloc::Global;

/// How many writes differ.
const WRITES: u32 = 16;

/// The name of an attribute.
fn name(number: u32) -> [u8; 4] {
    let [.., high, low] = number.to_be_bytes();
    [b'n', b'a' + high % 16, b'a' + low / 16, b'a' + low % 16]
}

/// The line that sets an attribute for the so-many-th time.
fn line_of(alloc: Global, number: u32, time: u32) -> Result<HeldLine, Refusal> {
    let digit = b'0' + (time % 10) as u8;
    set_line(alloc, &name(number), &[digit, b'1', b'.', b'5'], false)
}

/// So many lines of one of the writes to an object of that many attributes.
fn write_lines(
    alloc: Global,
    attributes: u32,
    count: u32,
    time: u32,
) -> Result<Vec<HeldLine>, Refusal> {
    let mut lines = Vec::new(alloc);
    for line in 0..count {
        let number = time.wrapping_mul(7_919).wrapping_add(line.wrapping_mul(31))
            % attributes.max(1);
        lines.push(line_of(alloc, number % 1_024, time)?)?;
    }
    Ok(lines)
}

fn writes(alloc: Global, attributes: u32, count: u32) -> Result<Vec<Vec<HeldLine>>, Refusal> {
    let mut writes = Vec::new(alloc);
    for time in 0..WRITES {
        writes.push(write_lines(alloc, attributes, count, time)?)?;
    }
    Ok(writes)
}

/// An object of so many attributes.
fn object(alloc: Global, attributes: u32) -> Result<Object, Refusal> {
    let mut object = Object::new(alloc);
    for number in 0..attributes.min(1_024) {
        object.apply(&[line_of(alloc, number, 0)?])?;
    }
    Ok(object)
}

/// Writes so many lines to an object of that many attributes, that often, and counts the bytes that the object has.
pub(crate) fn write_often(
    alloc: Global,
    attributes: u32,
    count: u32,
    rounds: u32,
) -> Result<u64, Refusal> {
    let mut object = object(alloc, attributes)?;
    let writes = writes(alloc, attributes, count)?;
    let mut done = 0u64;
    for round in 0..rounds {
        if let Some(lines) = writes.get((round % WRITES) as usize) {
            object.apply(lines.as_slice())?;
        }
        done = done.wrapping_add(object.text_len() as u64);
    }
    Ok(done)
}

/// Prints an object of so many attributes that often, and counts the bytes.
pub(crate) fn print_object_often(
    alloc: Global,
    attributes: u32,
    rounds: u32,
) -> Result<u64, Refusal> {
    let object = object(alloc, attributes)?;
    let mut done = 0u64;
    for _ in 0..rounds {
        done = done.wrapping_add(object.print(None)?.len() as u64);
    }
    Ok(done)
}

/// Prints what matches a filter of an object of so many attributes, that often, and counts the bytes.
pub(crate) fn print_some_often(
    alloc: Global,
    attributes: u32,
    rounds: u32,
) -> Result<u64, Refusal> {
    let object = object(alloc, attributes)?;
    let filter = read_filter(alloc, b"nbaa+nabc+naaa")?;
    let mut done = 0u64;
    for _ in 0..rounds {
        done = done.wrapping_add(object.print(Some(&filter))?.len() as u64);
    }
    Ok(done)
}
