//! Engines that are asked event by event, and once more where memory was wanting.

use crate::refused::{Call, Refused};
use crate::rows::Row;
use crate::slip::Slip;
use pps_engine::Engine;
use pps_types::{Event, Outcome, Refusal};
use std::alloc::{AllocError, Global};

/// How an event is given to an engine.
#[derive(Clone, Copy, PartialEq, Eq)]
pub(crate) enum Giving {
    ByStep,
    /// It is planned, and then carried out.
    ByPlan,
}

/// A copy of an engine. If there is no memory for it, it is asked for once more.
pub(crate) fn copied(engine: &Engine, refused: &mut Refused) -> Result<Engine, AllocError> {
    if let Ok(copy) = engine.copy() {
        return Ok(copy);
    }
    refused.note(Call::Copy);
    engine.copy()
}

// The answer to an event.
fn answer_once(engine: &mut Engine, event: &Event, giving: Giving) -> Result<Outcome, Refusal> {
    match giving {
        Giving::ByStep => engine.step(event),
        Giving::ByPlan => {
            let plan = engine.plan(event)?;
            Ok(engine.commit(plan))
        }
    }
}

// The answer to an event. If it is refused, the engine is the same as before.
fn answer_seen(
    engine: &mut Engine,
    before: &Engine,
    event: &Event,
    giving: Giving,
) -> Result<Result<Outcome, Refusal>, Slip> {
    let answer = answer_once(engine, event, giving);
    if answer.is_err() && !engine.same(before) {
        return Err(Slip::Changed);
    }
    Ok(answer)
}

/// The answer to an event. If it is refused, nothing has changed; if it is refused for want of memory, it is given again.
pub(crate) fn answer(
    engine: &mut Engine,
    event: &Event,
    giving: Giving,
    refused: &mut Refused,
) -> Result<Result<Outcome, Refusal>, Slip> {
    let before = copied(engine, refused)?;
    let first = answer_seen(engine, &before, event, giving)?;
    if first != Err(Refusal::OutOfMemory) {
        return Ok(first);
    }
    refused.note(match giving {
        Giving::ByStep => Call::Step,
        Giving::ByPlan => Call::Plan,
    });
    let second = answer_seen(engine, &before, event, giving)?;
    if second == Err(Refusal::OutOfMemory) {
        return Err(Slip::OutOfMemory);
    }
    Ok(second)
}

/// Sees that each command is answered as its row says.
pub(crate) fn play(
    alloc: Global,
    engine: &mut Engine,
    rows: &[Row<'_>],
    giving: Giving,
    refused: &mut Refused,
) -> Result<(), Slip> {
    let mut number = 0usize;
    for row in rows {
        number = number.saturating_add(1);
        let answer = answer(engine, &row.event, giving, refused)?;
        if !row.is_answer(alloc, &answer)? {
            return Err(Slip::OtherAnswer { number });
        }
    }
    Ok(())
}

/// An engine that has answered all rows.
pub(crate) fn played(
    alloc: Global,
    rows: &[Row<'_>],
    refused: &mut Refused,
) -> Result<Engine, Slip> {
    let mut engine = Engine::new(alloc)?;
    play(alloc, &mut engine, rows, Giving::ByStep, refused)?;
    Ok(engine)
}
