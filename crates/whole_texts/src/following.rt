//! What follows for a handle that records wake.
ghost use Rattle.std.specs.Prelude.{◌≡◌, ◌||◌, true, is_some, OnOk, OnErr, IsOkUnless};
ghost use Rattle.pps_types.specs.declared.refusal.Refusal.TheVariants.{OutOfMemory};
ghost use Rattle.whole_texts.specs.Followed.{fired_by, ended_by, given_by, replied_by, Adds, AddsWhatFollows};

use crate::reply::{Reply, late_answer};
use crate::woken::{TargetAfter, Woken};
use pps_types::{Conn, Handle, Refusal, SharedBytes};
use std::alloc::Global;
use sub_reader::{Opening, Pulse};

/// What follows from an event for a handle.
#[derive(Drop)]
pub enum Following {
    /// Its pulse is queued for its connection, and is armed no more.
    Fires {
        handle: Handle,
        conn: Conn,
        pulse: Pulse,
    },
    /// It has read everything.
    CatchesUp(Handle),
    /// It has been given so many of the records that it is owed.
    Advances {
        handle: Handle,
        count: usize,
    },
    /// The read that waits on it ends, and the late reply is queued for its connection.
    Ends {
        handle: Handle,
        conn: Conn,
        result: Result<SharedBytes, Refusal>,
    },
}

// Its pulse, where one waits.
fn push_pulse(
    changes: &mut Vec<Following>,
    opening: &Opening,
    armed: Option<Pulse>,
) -> Result<(), Refusal>
    ensures ok { OnOk result (Adds changes.old changes.new (fired_by opening.now armed)) }
    ensures err { IsOkUnless result OutOfMemory }
    ensures lacking { OnErr result (is_some armed ≡ true) }
{
    let Some(pulse) = armed else {
        return Ok(());
    };
    changes.push(Following::Fires {
        handle: opening.number,
        conn: opening.connection,
        pulse,
    })?;
    Ok(())
}

// The end of the read that waits.
fn push_end(
    changes: &mut Vec<Following>,
    opening: &Opening,
    reply: Result<SharedBytes, Refusal>,
) -> Result<(), Refusal>
    ensures ok { OnOk result (Adds changes.old changes.new (ended_by opening.now reply)) }
    ensures err { IsOkUnless result OutOfMemory }
{
    changes.push(Following::Ends {
        handle: opening.number,
        conn: opening.connection,
        result: reply,
    })?;
    Ok(())
}

// Its reading on, and the end of the read that waits, with this text.
fn push_text(
    alloc: Global,
    changes: &mut Vec<Following>,
    opening: &Opening,
    reading: Following,
    text: Vec<u8>,
) -> Result<(), Refusal>
    ensures ok { OnOk result (Adds changes.old changes.new (given_by reading opening.now text)) }
    ensures err { IsOkUnless result OutOfMemory }
{
    changes.push(reading)?;
    let text = SharedBytes::new(alloc, text)?;
    push_end(changes, opening, Ok(text))
}

// What its late reply leaves of it, and the reply itself.
fn push_reply(
    alloc: Global,
    changes: &mut Vec<Following>,
    opening: &Opening,
    reply: Reply,
) -> Result<(), Refusal>
    ensures ok { OnOk result (Adds changes.old changes.new (replied_by opening.now reply)) }
    ensures err { IsOkUnless result OutOfMemory }
{
    let handle = opening.number;
    match reply {
        Reply::Everything(text) => {
            push_text(alloc, changes, opening, Following::CatchesUp(handle), text)
        }
        Reply::Blocks { count, text } => {
            let passes = Following::Advances { handle, count };
            push_text(alloc, changes, opening, passes, text)
        }
        Reply::TooSmall { need } => push_end(changes, opening, Err(Refusal::TooSmall { need })),
        Reply::Waits => Ok(()),
        Reply::Nothing => Ok(()),
    }
}

/// Puts what follows from an event for a handle behind the changes: its pulse, and then its late reply, by its records
/// and by what stood before. An error may leave a part of it.
///
/// OutOfMemory is the only error, and comes only where a pulse or a read waits on the handle.
pub fn follow(
    alloc: Global,
    changes: &mut Vec<Following>,
    woken: &Woken<'_>,
    told: &TargetAfter<'_>,
) -> Result<(), Refusal>
    ensures ok { AddsWhatFollows woken.now told.now changes.old changes.new result }
    ensures err { IsOkUnless result OutOfMemory }
    ensures lacking { OnErr result ((is_some woken.now.parked || is_some woken.now.armed) ≡ true) }
{
    push_pulse(changes, woken.opening, woken.armed)?;
    let Some(size) = woken.parked else {
        return Ok(());
    };
    let reply = late_answer(alloc, woken.target, woken.opening, told, size)?;
    push_reply(alloc, changes, woken.opening, reply)
}
