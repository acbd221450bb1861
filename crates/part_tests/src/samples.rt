//! What tests of all parts are made from.

use pps_types::{Bytes, Handle, HeldLine, Kind, Line, Lines, ObjId, Record, Refusal, SharedBytes};
use std::alloc::{AllocError, Global};
use std::process::Abort;

pub(crate) fn bytes(alloc: Global, content: &[u8]) -> Result<Bytes, AllocError> {
    Bytes::from_slice(alloc, content)
}

pub(crate) fn shared(alloc: Global, content: &[u8]) -> Result<SharedBytes, AllocError> {
    SharedBytes::new(alloc, content.to_vec(alloc)?)
}

/// The path of these names.
pub(crate) fn path(alloc: Global, names: &[&[u8]]) -> Result<Vec<Bytes>, AllocError> {
    let mut path = Vec::new(alloc);
    for name in names {
        path.push(bytes(alloc, name)?)?;
    }
    Ok(path)
}

/// A line that sets an attribute, nonpersistent where so. It is refused where its name or its encoding is too long for one.
pub(crate) fn set_line(
    alloc: Global,
    name: &[u8],
    enc: &[u8],
    value: &[u8],
    n: bool,
) -> Result<HeldLine, Refusal> {
    let line = Line::Set {
        name: bytes(alloc, name)?,
        enc: bytes(alloc, enc)?,
        value: bytes(alloc, value)?,
        n,
    };
    HeldLine::from_line(alloc, &line)?.ok_or(Refusal::BadText { line: 1 })
}

/// A line that deletes an attribute.
pub(crate) fn deletion(alloc: Global, name: &[u8]) -> Result<HeldLine, AllocError> {
    HeldLine::deletion(alloc, name)
}

pub(crate) fn one_line(alloc: Global, line: HeldLine) -> Result<Lines, AllocError> {
    let mut lines = Vec::new(alloc);
    lines.push(line)?;
    Ok(Lines::new(lines))
}

/// A record of an object, by the handle of that number or by none.
pub(crate) fn record_of(object: u64, kind: Kind, writer: Option<u32>) -> Record {
    Record {
        object: ObjId::new(object),
        kind,
        writer: writer.map(Handle::new),
    }
}

/// The step of that number of the steps of that name is met.
pub(crate) fn assert_met(rt: &impl Abort, is_met: bool, name: &str, number: usize) {
    assert!(rt; is_met, "{name}, step {number}");
}

/// Whether a call is refused so. If memory was refused, that is the answer.
pub(crate) fn is_refused(answer: Result<(), Refusal>, refusal: Refusal) -> Result<bool, Refusal> {
    match answer {
        Ok(()) => Ok(false),
        Err(Refusal::OutOfMemory) => Err(Refusal::OutOfMemory),
        Err(found) => Ok(found == refusal),
    }
}
