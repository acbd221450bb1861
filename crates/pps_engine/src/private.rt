//! Private traffic: what others' clients and their servers do between themselves, a connection can't tell.
ghost use Rattle.std.specs.Prelude.{◌≡◌, IfOk, IfErr};
ghost use Rattle.pps_engine.specs.Serving.{AnswersEach, RunsAnswered};
ghost use Rattle.pps_engine.specs.Private.{ArePrivate};

use crate::engine::Engine;
use pps_types::{Event, Outcome, Refusal};

/// The answers of two runs, each in the order of its events.
#[derive(Drop)]
pub struct BothAnswers {
    pub first: Vec<Result<Outcome, Refusal>>,
    pub second: Vec<Result<Outcome, Refusal>>,
}

/// Two lists of events, each run on an engine of its own. Where both engines stand for one machine, and the runs agree
/// for a connection, it is given the same answers in both, and the same items are queued for it.
pub fn run_both(
    first: &mut Engine,
    first_events: &[Event],
    second: &mut Engine,
    second_events: &[Event],
) -> Result<BothAnswers, Refusal>
    ensures private { ArePrivate first.old first_events.now second.old second_events.now result }
    ensures first_runs { IfOk result (λ answers.
        RunsAnswered first.old first_events.now answers.first.items first.new) }
    ensures second_runs { IfOk result (λ answers.
        RunsAnswered second.old second_events.now answers.second.items second.new) }
    ensures first_count { IfOk result (λ a. AnswersEach first_events.now a.first.items) }
    ensures second_count { IfOk result (λ a. AnswersEach second_events.now a.second.items) }
    ensures wants { IfErr result (λ r. r ≡ Refusal.OutOfMemory) }
{
    let first_answers = first.run_list(first_events)?;
    let second_answers = second.run_list(second_events)?;
    Ok(BothAnswers {
        first: first_answers,
        second: second_answers,
    })
}
