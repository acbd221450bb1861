//! Streams of requests, served over devices of which each call fails in turn.

use crate::failing::{Narrow, Slow};
use crate::rows::Row;
use crate::slip::Slip;
use frame_codec::{Ended, encode_outcome, encode_request};
use pps_engine::Engine;
use pps_frame::{RunError, run};
use pps_types::{Device, Exchange};
use std::alloc::Global;

// The frames of all commands.
fn requests(alloc: Global, rows: &[Row<'_>]) -> Result<Vec<u8>, Slip> {
    let mut frames = Vec::new(alloc);
    for row in rows {
        frames.extend_from_slice(encode_request(alloc, &row.event)?.as_slice())?;
    }
    Ok(frames)
}

// How many commands have their frame whole in so many bytes.
fn count_whole(alloc: Global, rows: &[Row<'_>], bytes: usize) -> Result<usize, Slip> {
    let mut rest = bytes;
    let mut count = 0usize;
    for row in rows {
        let len = encode_request(alloc, &row.event)?.len();
        if rest < len {
            break;
        }
        rest -= len;
        count = count.saturating_add(1);
    }
    Ok(count)
}

// An engine that has answered these commands, and the frames of its answers.
fn answered(alloc: Global, rows: &[Row<'_>]) -> Result<(Engine, Vec<u8>), Slip> {
    let mut engine = Engine::new(alloc)?;
    let mut frames = Vec::new(alloc);
    for row in rows {
        let answer = engine.step(&row.event);
        frames.extend_from_slice(encode_outcome(alloc, row.event.conn, &answer)?.as_slice())?;
    }
    Ok((engine, frames))
}

// Serves a stream to a new engine.
fn served(
    alloc: Global,
    input: &mut Slow<'_>,
    output: &mut Narrow,
) -> Result<(Engine, Result<Ended, RunError>), Slip> {
    let mut engine = Engine::new(alloc)?;
    let mut exchange = Exchange::new(alloc, Device::new(input), Device::new(output))?;
    let ended = run(alloc, &mut engine, &mut exchange);
    Ok((engine, ended))
}

// A stream whose read fails is answered as far as its frames came whole, and not read any more. Whether the read was made.
fn read_fails(alloc: Global, rows: &[Row<'_>], reads: usize) -> Result<bool, Slip> {
    let requests = requests(alloc, rows)?;
    let mut input = Slow::new(requests.as_slice(), reads);
    let mut output = Narrow::new(alloc, usize::MAX);
    let (engine, ended) = served(alloc, &mut input, &mut output)?;
    let is_read = input.late > 0;
    let wanted = if is_read {
        Err(RunError::ReadFault)
    } else {
        Ok(Ended::Clean)
    };
    let gone = requests.len().saturating_sub(input.bytes.len());
    let count = count_whole(alloc, rows, gone)?;
    let (first, answers) = answered(alloc, rows.get(..count).unwrap_or(&[]))?;
    let is_met = ended == wanted
        && input.late <= 1
        && output.taken.as_slice() == answers.as_slice()
        && engine.same(&first);
    if is_met {
        Ok(is_read)
    } else {
        Err(Slip::Other)
    }
}

// A stream whose write fails has as much of its answers as there was room for, and writes no more. Whether there was too
// little.
fn write_fails(alloc: Global, rows: &[Row<'_>], room: usize) -> Result<bool, Slip> {
    let requests = requests(alloc, rows)?;
    let (_, answers) = answered(alloc, rows)?;
    let mut input = Slow::new(requests.as_slice(), usize::MAX);
    let mut output = Narrow::new(alloc, room);
    let (_, ended) = served(alloc, &mut input, &mut output)?;
    let is_short = room < answers.len();
    let wanted = if is_short {
        Err(RunError::WriteFault)
    } else {
        Ok(Ended::Clean)
    };
    let is_met = ended == wanted
        && output.late == usize::from(is_short)
        && output.taken.as_slice() == answers.get(..room).unwrap_or(answers.as_slice());
    if is_met {
        Ok(is_short)
    } else {
        Err(Slip::Other)
    }
}

/// Each read and each write of the stream fails in turn, until one is not made any more.
pub(crate) fn play(alloc: Global, rows: &[Row<'_>]) -> Result<(), Slip> {
    let (_, answers) = answered(alloc, rows)?;
    let most = requests(alloc, rows)?.len().saturating_add(answers.len());
    let mut are_failing = [true; 2];
    for number in 0..=most {
        let [reads, writes] = are_failing;
        are_failing = [
            reads && read_fails(alloc, rows, number)?,
            writes && write_fails(alloc, rows, number)?,
        ];
    }
    if are_failing == [false; 2] {
        Ok(())
    } else {
        Err(Slip::Other)
    }
}
