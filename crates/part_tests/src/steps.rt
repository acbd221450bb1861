//! What tests by steps share.
ghost use Rattle.std.specs.Prelude.{◌≡◌};

use crate::samples::{one_line, set_line};
use open_options::HandleOptions;
use pps_types::{Conn, Handle, HandleKind, Lines, Refusal};
use std::alloc::Global;
use std::process::Abort;
use sub_reader::Opening;

/// What an open fixes for the handle of that number.
pub(crate) fn opening(number: u32, kind: HandleKind, limit: u32) -> Opening
    ensures number { result.number ≡ number }
    ensures kind { result.kind ≡ kind }
{
    Opening {
        number: Handle::new(number),
        connection: Conn::new(1),
        kind,
        reads: true,
        writes: true,
        options: HandleOptions::new(),
        limit,
    }
}

/// The limit of an opening, if there is one.
pub(crate) fn limit_of(opening: Option<&Opening>) -> Option<u32> {
    match opening {
        None => None,
        Some(opening) => Some(opening.limit),
    }
}

/// One line, which sets an attribute.
pub(crate) fn lines(alloc: Global) -> Result<Lines, Refusal> {
    Ok(one_line(alloc, set_line(alloc, b"a", b"n", b"1", false)?)?)
}

/// Whether that handle is woken alone, or nobody.
pub(crate) fn is_alone(woken: &[Handle], handle: Option<u32>) -> bool {
    match handle {
        None => woken.is_empty(),
        Some(number) => woken.len() == 1 && woken.first() == Some(&Handle::new(number)),
    }
}

/// The step of that number of the steps of that name is met.
pub(crate) fn assert_met(rt: &impl Abort, is_met: bool, name: &str, number: usize) {
    assert!(rt; is_met, "{name}, step {number}");
}
