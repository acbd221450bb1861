//! Scripts as lists of events, which an engine runs at once.

use crate::engines::copied;
use crate::refused::{Call, Refused};
use crate::rows::{Row, event};
use crate::slip::Slip;
use pps_engine::Engine;
use pps_types::{Event, Outcome, Refusal};
use std::alloc::Global;

// The events of rows.
fn events(alloc: Global, rows: &[Row<'_>]) -> Result<Vec<Event>, Slip> {
    let mut events = Vec::new(alloc);
    for row in rows {
        events.push(event(alloc, row.line)?)?;
    }
    Ok(events)
}

// Runs the list. If it is refused, nothing has changed, and it is run again.
fn run(
    engine: &mut Engine,
    before: &Engine,
    events: &[Event],
    refused: &mut Refused,
) -> Result<Vec<Result<Outcome, Refusal>>, Slip> {
    if let Ok(answers) = engine.run_list(events) {
        return Ok(answers);
    }
    refused.note(Call::RunList);
    if !engine.same(before) {
        return Err(Slip::Changed);
    }
    Ok(engine.run_list(events)?)
}

// The answer to an event, which is given once more if memory was wanting.
fn answer_beside(
    engine: &mut Engine,
    event: &Event,
    refused: &mut Refused,
) -> Result<Outcome, Refusal> {
    let answer = engine.step(event);
    if answer != Err(Refusal::OutOfMemory) {
        return answer;
    }
    refused.note(Call::Step);
    engine.step(event)
}

// Runs the same events without those that were refused for want of memory, and sees that the others are answered alike.
fn run_beside(
    engine: &mut Engine,
    events: &[Event],
    answers: &[Result<Outcome, Refusal>],
    refused: &mut Refused,
) -> Result<(), Slip> {
    for (event, answer) in events.iter().zip(answers) {
        if *answer == Err(Refusal::OutOfMemory) {
            refused.note(Call::Step);
            continue;
        }
        match answer_beside(engine, event, refused) {
            Err(Refusal::OutOfMemory) => return Err(Slip::OutOfMemory),
            beside if beside != *answer => return Err(Slip::Other),
            _ => {}
        }
    }
    Ok(())
}

// Whether each row has its answer there.
fn are_answers(
    alloc: Global,
    rows: &[Row<'_>],
    answers: &[Result<Outcome, Refusal>],
) -> Result<bool, Slip> {
    for (row, answer) in rows.iter().zip(answers) {
        if !row.is_answer(alloc, answer)? {
            return Ok(false);
        }
    }
    Ok(answers.len() == rows.len())
}

/// Runs the rows as a list. Where a command was refused for want of memory, the other answers are those of a list without it;
/// else they are the rows' own.
pub(crate) fn play(alloc: Global, rows: &[Row<'_>], refused: &mut Refused) -> Result<(), Slip> {
    let events = events(alloc, rows)?;
    let mut engine = Engine::new(alloc)?;
    let mut beside = copied(&engine, refused)?;
    let answers = run(&mut engine, &beside, &events, refused)?;
    let is_refused = answers
        .iter()
        .any(|answer| *answer == Err(Refusal::OutOfMemory));
    if !is_refused && !are_answers(alloc, rows, &answers)? {
        return Err(Slip::Other);
    }
    run_beside(&mut beside, &events, &answers, refused)?;
    if engine.same(&beside) {
        Ok(())
    } else {
        Err(Slip::Changed)
    }
}
