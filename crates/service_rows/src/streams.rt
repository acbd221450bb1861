//! Scripts as streams of frames that come in pieces.
ghost use Rattle.std.specs.Prelude.{◌<◌};

use crate::refused::{Call, Refused};
use crate::rows::Row;
use crate::slip::Slip;
use frame_codec::{Decoder, Fed, encode_request};
use pps_types::Event;
use std::alloc::Global;

// The frame of an event. If it is refused, it is asked for again.
fn frame(alloc: Global, event: &Event, refused: &mut Refused) -> Result<Vec<u8>, Slip> {
    if let Ok(frame) = encode_request(alloc, event) {
        return Ok(frame);
    }
    refused.note(Call::Encode);
    Ok(encode_request(alloc, event)?)
}

// The frames of all rows.
fn frames(alloc: Global, rows: &[Row<'_>], refused: &mut Refused) -> Result<Vec<u8>, Slip> {
    let mut frames = Vec::new(alloc);
    for row in rows {
        frames.extend_from_slice(frame(alloc, &row.event, refused)?.as_slice())?;
    }
    Ok(frames)
}

// Gives a decoder a piece. If it is refused, nothing has changed, and it is given again.
fn fed(
    alloc: Global,
    decoder: &mut Decoder,
    piece: &[u8],
    refused: &mut Refused,
) -> Result<Fed, Slip> {
    let before = decoder.rest();
    if let Ok(fed) = decoder.feed(alloc, piece) {
        return Ok(fed);
    }
    refused.note(Call::Feed);
    if decoder.rest() != before {
        return Err(Slip::Changed);
    }
    match decoder.feed(alloc, piece) {
        Ok(fed) => Ok(fed),
        Err(_) => Err(Slip::OutOfMemory),
    }
}

/// Gives a decoder the frames of the rows in pieces of that size, and sees that it finds these events.
pub(crate) fn play(
    alloc: Global,
    rows: &[Row<'_>],
    size: usize,
    refused: &mut Refused,
) -> Result<(), Slip>
    requires { 0 < size }
{
    let frames = frames(alloc, rows, refused)?;
    let mut decoder = Decoder::new(alloc);
    let mut count = 0usize;
    for piece in frames.chunks(size) {
        let Fed { events, bad } = fed(alloc, &mut decoder, piece, refused)?;
        if bad {
            return Err(Slip::Other);
        }
        count = count_after(rows, count, &events)?;
    }
    if count == rows.len() && decoder.rest() == 0 {
        Ok(())
    } else {
        Err(Slip::Other)
    }
}

// How many rows were found after these events too, which have to be those of the next rows.
fn count_after(rows: &[Row<'_>], before: usize, events: &[Event]) -> Result<usize, Slip> {
    let mut count = before;
    for event in events {
        match rows.get(count) {
            Some(row) if row.event == *event => count = count.saturating_add(1),
            _ => return Err(Slip::Other),
        }
    }
    Ok(count)
}
