//! Scripts and images over devices of which each call fails in turn.
ghost use Rattle.std.specs.Prelude.{◌≡◌};

use crate::engines::{Giving, play as play_engine};
use crate::failing::{Narrow, Slow};
use crate::refused::Refused;
use crate::rows::Row;
use crate::slip::Slip;
use pps_engine::Engine;
use pps_persist::{LoadError, SaveError, load, save};
use pps_script::{BadLines, Manner, ScriptFault, serve_script};
use pps_types::{Device, Exchange};
use std::alloc::Global;

/// No bad line is reported, since the first one ends the script.
#[derive(Drop)]
struct NoBadLines;

impl BadLines for NoBadLines {
    ghost reports = { λ old _ new. new ≡ old };

    fn report(&mut self, _line: u64) {}
}

// The commands of rows, as a script.
fn script(alloc: Global, rows: &[Row<'_>]) -> Result<Vec<u8>, Slip> {
    let mut script = Vec::new(alloc);
    for row in rows {
        script.extend_from_slice(row.line)?;
        script.push(b'\n')?;
    }
    Ok(script)
}

// What a script is answered.
fn answers(alloc: Global, rows: &[Row<'_>]) -> Result<Vec<u8>, Slip> {
    let mut answers = Vec::new(alloc);
    for row in rows {
        answers.extend_from_slice(row.wanted())?;
        answers.push(b'\n')?;
    }
    Ok(answers)
}

// How many lines are whole.
fn count_lines(text: &[u8]) -> usize {
    text.iter().filter(|byte| **byte == b'\n').count()
}

// Serves a script to a new engine.
fn served(
    alloc: Global,
    input: &mut Slow<'_>,
    output: &mut Narrow,
) -> Result<(Engine, Result<(), ScriptFault>), Slip> {
    let mut engine = Engine::new(alloc)?;
    let mut exchange = Exchange::new(alloc, Device::new(input), Device::new(output))?;
    let manner = Manner {
        show: false,
        patient: false,
    };
    let ended = serve_script(alloc, &mut engine, manner, &mut exchange, &mut NoBadLines);
    Ok((engine, ended))
}

// The engine that has answered the first rows.
fn played(alloc: Global, rows: &[Row<'_>]) -> Result<Engine, Slip> {
    let mut engine = Engine::new(alloc)?;
    let mut refused = Refused::new();
    play_engine(alloc, &mut engine, rows, Giving::ByStep, &mut refused)?;
    Ok(engine)
}

// A script whose read fails is answered as far as its lines came whole, and not read any more. Whether the read was made.
fn read_fails(alloc: Global, rows: &[Row<'_>], reads: usize) -> Result<bool, Slip> {
    let text = script(alloc, rows)?;
    let mut input = Slow::new(text.as_slice(), reads);
    let mut output = Narrow::new(alloc, usize::MAX);
    let (engine, ended) = served(alloc, &mut input, &mut output)?;
    if input.late == 0 {
        return Ok(false);
    }
    let gone = text.len().saturating_sub(input.bytes.len());
    let count = count_lines(text.get(..gone).unwrap_or(&[]));
    let first = rows.get(..count).unwrap_or(&[]);
    let is_met = ended == Err(ScriptFault::ReadFault)
        && input.late == 1
        && output.taken.as_slice() == answers(alloc, first)?.as_slice()
        && engine.same(&played(alloc, first)?);
    if is_met { Ok(true) } else { Err(Slip::Other) }
}

// A script whose write fails has answered as much as there was room for, and writes no more. Whether there was too little.
fn write_fails(alloc: Global, rows: &[Row<'_>], room: usize) -> Result<bool, Slip> {
    let text = script(alloc, rows)?;
    let answers = answers(alloc, rows)?;
    let mut input = Slow::new(text.as_slice(), usize::MAX);
    let mut output = Narrow::new(alloc, room);
    let (_, ended) = served(alloc, &mut input, &mut output)?;
    let is_short = room < answers.len();
    let wanted = if is_short {
        Err(ScriptFault::WriteFault)
    } else {
        Ok(())
    };
    let is_met = ended == wanted
        && output.late == usize::from(is_short)
        && output.taken.as_slice() == answers.get(..room).unwrap_or(answers.as_slice());
    if is_met {
        Ok(is_short)
    } else {
        Err(Slip::Other)
    }
}

// The image of what rows leave.
fn image(alloc: Global, engine: &Engine) -> Result<Vec<u8>, Slip> {
    let mut output = Narrow::new(alloc, usize::MAX);
    match save(alloc, engine, &mut Device::new(&mut output)) {
        Ok(_) => Ok(output.taken),
        Err(_) => Err(Slip::OutOfMemory),
    }
}

// An image whose write fails is saved as far as there was room. Whether there was too little.
fn save_fails(alloc: Global, engine: &Engine, image: &[u8], room: usize) -> Result<bool, Slip> {
    let mut output = Narrow::new(alloc, room);
    let saved = save(alloc, engine, &mut Device::new(&mut output));
    let is_short = room < image.len();
    let wanted = if is_short {
        Err(SaveError::WriteFault { sent: room as u64 })
    } else {
        Ok(image.len() as u64)
    };
    let is_met = saved == wanted
        && output.late == usize::from(is_short)
        && output.taken.as_slice() == image.get(..room).unwrap_or(image);
    if is_met {
        Ok(is_short)
    } else {
        Err(Slip::Other)
    }
}

// An image whose read fails is not loaded. Whether the read was made.
fn load_fails(alloc: Global, engine: &Engine, image: &[u8], reads: usize) -> Result<bool, Slip> {
    let mut input = Slow::new(image, reads);
    let loaded = load(alloc, &mut Device::new(&mut input));
    match loaded {
        Err(LoadError::ReadFault) if input.late == 1 => Ok(true),
        Ok(loaded) if input.late == 0 => {
            let again = self::image(alloc, &loaded)?;
            let is_same = again.as_slice() == image && loaded.limit() == engine.limit();
            if is_same { Ok(false) } else { Err(Slip::Other) }
        }
        _ => Err(Slip::Other),
    }
}

/// Each read and each write fails in turn, until one is not made any more: of the script, and of the image of what it leaves.
pub(crate) fn play(alloc: Global, rows: &[Row<'_>]) -> Result<(), Slip> {
    let engine = played(alloc, rows)?;
    let image = image(alloc, &engine)?;
    let texts = script(alloc, rows)?
        .len()
        .saturating_add(answers(alloc, rows)?.len());
    let most = texts.saturating_add(image.len());
    let mut are_failing = [true; 4];
    for number in 0..most {
        let [reads, writes, saves, loads] = are_failing;
        are_failing = [
            reads && read_fails(alloc, rows, number)?,
            writes && write_fails(alloc, rows, number)?,
            saves && save_fails(alloc, &engine, image.as_slice(), number)?,
            loads && load_fails(alloc, &engine, image.as_slice(), number)?,
        ];
    }
    if are_failing == [false; 4] {
        Ok(())
    } else {
        Err(Slip::Other)
    }
}
