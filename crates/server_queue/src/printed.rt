//! Lines of an object as they are printed for all handles that have no filter.
ghost use Rattle.std.specs.Prelude.{◌≡◌, ◌≤◌, Some, IfOk, length};
ghost use Rattle.pps_types.specs.Reading as reading;
ghost use Rattle.std.specs.Option.{option_copied};
ghost use Rattle.server_queue.specs.Printed.{label, object_lines};

use pps_block::Block;
use pps_types::{Bytes, Handle, HandleKind, HeldLine, Kind};
use std::alloc::{AllocError, Global};

/// The longest printing that takes no memory.
const SHORT_MAX: usize = 23;

// The printing of a block for an object of that name, where that is short. No memory is asked for.
fn print_short(alloc: Global, name: &[u8], block: &Block<'_>) -> Result<Bytes, AllocError>
    requires { length (reading.print_shown name.now (Some block.now)) ≤ SHORT_MAX }
    ensures { IfOk result (λ text. text ≡ reading.print_shown name.now (Some block.now)) }
{
    let mut place = [0; SHORT_MAX];
    let len = block.write(&mut place, name);
    Bytes::from_slice(alloc, &place[..len])
}

// The printing of a block for an object of that name. If it is long, the memory for it is taken at once.
fn print(alloc: Global, name: &[u8], block: &Block<'_>) -> Result<Bytes, AllocError>
    ensures { IfOk result (λ text. text ≡ reading.print_shown name.now (Some block.now)) }
{
    let Some(len) = block.print_len(name) else {
        return Err(AllocError);
    };
    if len <= SHORT_MAX {
        return print_short(alloc, name, block);
    }
    let mut text = Vec::new(alloc);
    text.reserve(len)?;
    block.push(&mut text, name);
    Ok(Bytes::new(text))
}

/// What a record of an object of that name is labelled with: the printing of its lines of the object, if it has some; else
/// the name.
///
/// AllocError comes only where memory is wanting, and only where there are lines.
pub(crate) fn labelled(alloc: Global, name: Bytes, kind: &Kind) -> Result<Bytes, AllocError>
    ensures { IfOk result (λ text. text ≡ label name kind.now) }
{
    if !matches!(kind, Kind::Change(_)) {
        return Ok(name);
    }
    match Block::of(
        HandleKind::Object { delta: true },
        Handle::new(0),
        None,
        kind,
    ) {
        None => Ok(name),
        Some(block) => print(alloc, name.as_slice(), &block),
    }
}

/// The lines of its object that a record of that kind has, if it has some.
#[inline(always)]
pub(crate) fn object_lines(kind: &Kind) -> Option<&[HeldLine]>
    ensures { option_copied result ≡ object_lines kind.now }
{
    let Kind::Change(lines) = kind else {
        return None;
    };
    match lines.as_slice() {
        [] => None,
        lines => Some(lines),
    }
}
