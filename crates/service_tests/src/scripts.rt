//! Scripts: steps that one function plays on an engine, each with what it must answer.
ghost use Rattle.std.specs.Prelude.{◌≡◌, IfOk};

use crate::images::{restored, saved};
use open_options::read_path;
use pps_engine::Engine;
use pps_types::{Bytes, Conn, Event, Handle, Outcome, Refusal, SharedBytes};
use script_text::{ScriptLine, print_answer, read_line};
use std::alloc::{AllocError, Global};
use std::process::Abort;

/// How an engine begins.
#[derive(Clone, Copy)]
pub(crate) enum Start {
    New,
    /// Its limit of records is 9.
    LimitOf9,
    /// The next handle is the last one that there is.
    LastHandle,
    /// `/maps` and `/maps/gps` were restored.
    Restored,
}

/// What a step does with its two texts, and what it must answer.
#[derive(Clone, Copy)]
pub(crate) enum Step {
    /// A command, which is not refused.
    Runs,
    /// A command, and the line that its answer is printed as.
    Says,
    /// A command that changes what the engine keeps, and the bytes that it answers. It is planned twice, and the latest plan
    /// is carried out.
    Plans,
    /// 256 objects are created in `/d`.
    Crowds,
    /// A command, and how many lines its answer has.
    Lists(usize),
    /// How many records a handle is owed.
    Owes(u32, Option<usize>),
    /// How many records are kept of what a path names.
    Keeps(Option<usize>),
    /// The limit of records that the engine began with.
    HasLimit(u32),
    /// What an image saves, an entry a line.
    Saves,
}

pub(crate) fn shared(alloc: Global, bytes: &[u8]) -> Result<SharedBytes, AllocError>
    ensures { IfOk result (λ s. s ≡ bytes.now) }
{
    SharedBytes::new(alloc, bytes.to_vec(alloc)?)
}

/// A read's answer.
pub(crate) fn data(alloc: Global, bytes: &[u8]) -> Result<Outcome, AllocError> {
    Ok(Outcome::Data(shared(alloc, bytes)?))
}

/// The command of a line. It is BadFrame if the line has none.
pub(crate) fn event(alloc: Global, line: &[u8]) -> Result<Event, Refusal> {
    match read_line(alloc, line)? {
        Some(ScriptLine::Command(event)) => Ok(event),
        _ => Err(Refusal::BadFrame),
    }
}

/// Whether an answer is printed as that line.
pub(crate) fn is_printed(
    alloc: Global,
    conn: Conn,
    answer: &Result<Outcome, Refusal>,
    wanted: &[u8],
) -> Result<bool, Refusal> {
    let mut printed = Vec::new(alloc);
    print_answer(&mut printed, conn, answer)?;
    match printed.as_slice().split_last() {
        Some((last, line)) => Ok(*last == b'\n' && line == wanted),
        None => Ok(false),
    }
}

/// A copy of all.
pub(crate) fn copy(engine: &Engine) -> Result<Engine, AllocError> {
    engine.copy()
}

/// Whether both are the same.
pub(crate) fn same(engine: &Engine, other: &Engine) -> bool {
    engine.same(other)
}

/// The answer to an event.
fn answer_once(engine: &mut Engine, event: &Event) -> Result<Outcome, Refusal> {
    engine.step(event)
}

/// The answer to an event. If it is refused nothing has changed; if it is refused for want of memory it is given once more.
fn answer(
    rt: &impl Abort,
    engine: &mut Engine,
    event: &Event,
) -> Result<Result<Outcome, Refusal>, Refusal> {
    let before = copy(engine)?;
    let answer = answer_once(engine, event);
    if answer.is_err() {
        assert!(rt; same(engine, &before));
    }
    if answer == Err(Refusal::OutOfMemory) {
        return Ok(answer_once(engine, event));
    }
    Ok(answer)
}

/// Sees that the answer to a command is printed as that line.
fn assert_answer(
    rt: &impl Abort,
    alloc: Global,
    engine: &mut Engine,
    line: &[u8],
    wanted: &[u8],
) -> Result<(), Refusal> {
    let event = event(alloc, line)?;
    let answer = answer(rt, engine, &event)?;
    assert!(rt;
        is_printed(alloc, event.conn, &answer, wanted)?,
        "{line:?}: {answer:?}"
    );
    Ok(())
}

/// Runs commands, none of which is refused.
fn run(alloc: Global, engine: &mut Engine, lines: &[&[u8]]) -> Result<(), Refusal> {
    for line in lines {
        answer_once(engine, &event(alloc, line)?)?;
    }
    Ok(())
}

/// The commands of lines.
pub(crate) fn events(alloc: Global, lines: &[&[u8]]) -> Result<Vec<Event>, Refusal> {
    let mut events = Vec::new(alloc);
    for line in lines {
        events.push(event(alloc, line)?)?;
    }
    Ok(events)
}

/// Plans an event twice, sees that nothing has changed, and carries out the latest plan.
fn carry_out(
    rt: &impl Abort,
    engine: &mut Engine,
    before: &Engine,
    event: &Event,
    wanted: &Outcome,
) -> Result<(), Refusal> {
    let first = engine.plan(event)?;
    let plan = engine.plan(event)?;
    assert!(rt; same(engine, before));
    assert!(rt; *first.reply() == *wanted);
    assert!(rt; *plan.reply() == *wanted);
    assert!(rt; engine.commit(plan) == *wanted);
    assert!(rt; !same(engine, before));
    Ok(())
}

fn assert_planned(
    rt: &impl Abort,
    alloc: Global,
    engine: &mut Engine,
    line: &[u8],
    bytes: &[u8],
) -> Result<(), Refusal> {
    let event = event(alloc, line)?;
    let wanted = data(alloc, bytes)?;
    let before = copy(engine)?;
    carry_out(rt, engine, &before, &event, &wanted)
}

/// A line that opens the object of that number, and creates it.
fn creation(alloc: Global, number: u8) -> Result<Vec<u8>, Refusal> {
    let mut line = Vec::new(alloc);
    line.extend_from_slice(b"1 open wc /d/o")?;
    line.push(b'a' + number / 16)?;
    line.push(b'a' + number % 16)?;
    Ok(line)
}

fn crowd(alloc: Global, engine: &mut Engine) -> Result<(), Refusal> {
    for number in 0..=255u8 {
        let line = creation(alloc, number)?;
        answer_once(engine, &event(alloc, line.as_slice())?)?;
    }
    Ok(())
}

/// How many lines the answer to a command has, if it is bytes.
fn count_lines(alloc: Global, engine: &mut Engine, line: &[u8]) -> Result<Option<usize>, Refusal> {
    match &answer_once(engine, &event(alloc, line)?)? {
        Outcome::Data(text) => Ok(Some(
            text.as_slice()
                .iter()
                .filter(|byte| **byte == b'\n')
                .count(),
        )),
        _ => Ok(None),
    }
}

/// How many records a handle is owed, if that is a number.
fn owed(engine: &Engine, handle: u32) -> Option<usize> {
    engine.holds_what_is_owed();
    engine.owed(Handle::new(handle))
}

fn kept(alloc: Global, engine: &Engine, path: &[u8]) -> Result<Option<usize>, Refusal> {
    let path = read_path(alloc, path)?;
    Ok(engine.kept(path.names()))
}

/// Plays a step with its two texts.
fn play_step(
    rt: &impl Abort,
    alloc: Global,
    engine: &mut Engine,
    step: Step,
    text: &[u8],
    wanted: &[u8],
) -> Result<(), Refusal> {
    match step {
        Step::Runs => run(alloc, engine, &[text])?,
        Step::Says => assert_answer(rt, alloc, engine, text, wanted)?,
        Step::Plans => assert_planned(rt, alloc, engine, text, wanted)?,
        Step::Crowds => crowd(alloc, engine)?,
        Step::Lists(count) => assert_eq!(rt; count_lines(alloc, engine, text)?, Some(count)),
        Step::Owes(handle, count) => assert_eq!(rt; owed(engine, handle), count),
        Step::Keeps(count) => assert_eq!(rt; kept(alloc, engine, text)?, count),
        Step::HasLimit(limit) => assert_eq!(rt; engine.limit(), limit),
        Step::Saves => assert!(rt; saved(alloc, engine)?.as_slice() == wanted),
    }
    Ok(())
}

fn play_steps(
    rt: &impl Abort,
    alloc: Global,
    engine: &mut Engine,
    before: &[&[u8]],
    steps: &[(Step, &[u8], &[u8])],
) -> Result<(), Refusal> {
    run(alloc, engine, before)?;
    for (step, text, wanted) in steps {
        play_step(rt, alloc, engine, *step, text, wanted)?;
    }
    Ok(())
}

/// A new engine.
pub(crate) fn new_engine(alloc: Global) -> Result<Engine, AllocError> {
    Engine::new(alloc)
}

fn started(alloc: Global, start: Start) -> Result<Engine, Refusal> {
    match start {
        Start::New => Ok(new_engine(alloc)?),
        Start::LimitOf9 => Ok(Engine::with_limit(alloc, 9)?),
        Start::LastHandle => Ok(Engine::new_at(alloc, Handle::new(4_294_967_295))?),
        Start::Restored => restored(alloc),
    }
}

/// Plays steps on an engine that begins so, after commands of which none is refused.
pub(crate) fn play(
    rt: &impl Abort,
    alloc: Global,
    start: Start,
    before: &[&[u8]],
    steps: &[(Step, &[u8], &[u8])],
) -> Result<(), Refusal> {
    let mut engine = started(alloc, start)?;
    play_steps(rt, alloc, &mut engine, before, steps)
}
