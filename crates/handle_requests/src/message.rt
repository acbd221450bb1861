//! What the lines of a message come to.
ghost use Rattle.std.specs.Prelude.{◌≡◌, IfOk, map};
ghost use Rattle.pps_types.specs.History as history;
ghost use Rattle.pps_types.specs.Plan as planning;
ghost use Rattle.handle_requests.specs.Addressed.{addressee_of};

use crate::address::Recipient;
use pps_types::{Handle, HeldLine, Kind, Lines, WrittenLine};
use std::alloc::{AllocError, Global};

/// The lines of a message.
pub(crate) fn message_lines(
    alloc: Global,
    lines: Vec<WrittenLine>,
) -> Result<Vec<HeldLine>, AllocError>
    ensures { IfOk result (λ told. told.items ≡ map history.message_line lines.items) }
{
    let mut told = Vec::with_capacity(alloc, lines.len())?;
    'lines: for line in lines {
        told.push(line.into_line())?;
    }
    Ok(told)
}

/// The message of a server.
pub(crate) fn sent(to: Recipient, lines: Vec<HeldLine>) -> Kind
    ensures { result ≡ planning.sent (addressee_of to) lines.items }
{
    match to {
        Recipient::OneClient(id) => Kind::ToClient(Handle::new(id), Lines::new(lines)),
        _ => Kind::ToAll(Lines::new(lines)),
    }
}
