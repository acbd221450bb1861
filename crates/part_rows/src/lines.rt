//! Lines of their parts, as records hold them.

use crate::slip::Slip;
use pps_types::{HeldLine, Line};
use std::alloc::Global;

/// The line as a record holds it.
pub(crate) fn held(alloc: Global, line: &Line) -> Result<HeldLine, Slip> {
    HeldLine::from_line(alloc, line)?.ok_or(Slip::TooLong)
}
