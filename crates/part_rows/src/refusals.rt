//! Refusals, as rows name them.

use crate::slip::Slip;
use crate::words::Words;
use pps_types::Refusal;

// A refusal that a path or a name gets.
fn refusal_of_names(word: &[u8]) -> Option<Refusal> {
    match word {
        b"BadPath" => Some(Refusal::BadPath),
        b"BadOption" => Some(Refusal::BadOption),
        b"NotFound" => Some(Refusal::NotFound),
        b"Exists" => Some(Refusal::Exists),
        b"NotDirectory" => Some(Refusal::NotDirectory),
        b"IsDirectory" => Some(Refusal::IsDirectory),
        b"NotEmpty" => Some(Refusal::NotEmpty),
        b"Busy" => Some(Refusal::Busy),
        b"Gone" => Some(Refusal::Gone),
        _ => None,
    }
}

// Another refusal that carries nothing.
fn plain_refusal(word: &[u8]) -> Option<Refusal> {
    match word {
        b"OutOfMemory" => Some(Refusal::OutOfMemory),
        b"BadFrame" => Some(Refusal::BadFrame),
        b"NotAttached" => Some(Refusal::NotAttached),
        b"AlreadyAttached" => Some(Refusal::AlreadyAttached),
        b"BadHandle" => Some(Refusal::BadHandle),
        b"BadMode" => Some(Refusal::BadMode),
        b"TooLarge" => Some(Refusal::TooLarge),
        b"ReadPending" => Some(Refusal::ReadPending),
        b"OutboxFull" => Some(Refusal::OutboxFull),
        b"BadArgument" => Some(Refusal::BadArgument),
        b"TableFull" => Some(Refusal::TableFull),
        _ => refusal_of_names(word),
    }
}

/// Reads a refusal: its name, and what it carries if it does.
pub(crate) fn read_refusal(words: &mut Words<'_>) -> Result<Refusal, Slip> {
    match words.word()? {
        b"BadText" => Ok(Refusal::BadText {
            line: words.number()?,
        }),
        b"TooSmall" => Ok(Refusal::TooSmall {
            need: words.number()?,
        }),
        b"Backlogged" => Ok(Refusal::Backlogged {
            handle: words.handle()?,
        }),
        b"NoClient" => Ok(Refusal::NoClient {
            id: words.number()?,
        }),
        word => plain_refusal(word).ok_or(Slip::UnknownWord),
    }
}
