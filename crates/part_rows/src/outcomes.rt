//! Answers, as rows name them.

use crate::refusals::read_refusal;
use crate::slip::Slip;
use crate::words::Words;
use pps_types::{Item, Outcome, Refusal, SharedBytes};

/// The bytes of the next text.
pub(crate) fn read_shared(words: &mut Words<'_>) -> Result<SharedBytes, Slip> {
    Ok(SharedBytes::new(words.alloc(), words.text()?)?)
}

// A pulse.
fn read_pulse(words: &mut Words<'_>) -> Result<Item, Slip> {
    let code = u8::try_from(words.number()?).ok().ok_or(Slip::BadNumber)?;
    let value = words.number()?;
    Ok(Item::Pulse { code, value })
}

// A late reply to a read.
fn read_late_reply(words: &mut Words<'_>) -> Result<Item, Slip> {
    let handle = words.handle()?;
    let result = match words.word()? {
        b"data" => Ok(read_shared(words)?),
        b"refused" => Err(read_refusal(words)?),
        _ => return Err(Slip::UnknownWord),
    };
    Ok(Item::ReadDone { handle, result })
}

/// An answer. The next word says of which kind it is.
pub(crate) fn read_answer(words: &mut Words<'_>) -> Result<Result<Outcome, Refusal>, Slip> {
    Ok(match words.word()? {
        b"done" => Ok(Outcome::Done),
        b"opened" => Ok(Outcome::Opened(words.handle()?)),
        b"data" => Ok(Outcome::Data(read_shared(words)?)),
        b"wrote" => Ok(Outcome::Wrote(words.number()?)),
        b"parked" => Ok(Outcome::Parked),
        b"input" => Ok(Outcome::Input(words.flag()?)),
        b"pulse" => Ok(Outcome::Item(read_pulse(words)?)),
        b"read-done" => Ok(Outcome::Item(read_late_reply(words)?)),
        b"empty" => Ok(Outcome::Empty),
        b"refused" => Err(read_refusal(words)?),
        _ => return Err(Slip::UnknownWord),
    })
}
