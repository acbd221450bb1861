//! Lines that set an attribute, as objects are given them.

use pps_types::{Bytes, HeldLine, Line, Refusal};
use std::alloc::Global;

/// The line that sets the attribute of that name, a number, nonpersistent where so.
pub(crate) fn set_line(
    alloc: Global,
    name: &[u8],
    value: &[u8],
    n: bool,
) -> Result<HeldLine, Refusal> {
    let line = Line::Set {
        name: Bytes::from_slice(alloc, name)?,
        enc: Bytes::from_slice(alloc, b"n")?,
        value: Bytes::from_slice(alloc, value)?,
        n,
    };
    HeldLine::from_line(alloc, &line)?.ok_or(Refusal::BadText { line: 1 })
}
