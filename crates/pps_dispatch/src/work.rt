//! Workers, each of which serves sessions until none waits.
ghost use Rattle.std.specs.Prelude.{◌≡◌, ◌≤◌, ◌+◌, ◌∷◌, length, vec_len, vec_capacity, All, Err, IfOk, IfSome};
ghost use Rattle.crossbeam_queue.specs.Passes.{IsPassOf, ruled_capacity};
ghost use Rattle.pps_dispatch.specs.History.{first_error};

use crate::fault::ServeError;
use crate::gate::Gate;
use crate::run_queue::{QueuePass, RunQueue, SessionCount, join_to, put_in, split_off, take_out};
use crate::session::Session;
use crate::shared_book::SharedBook;
use pps_lock::{Message, Receipt, Segment};
use std::alloc::Global;
use std::snapshot::Snapshot;
use std::sync::{Arc, Mutex, Wait};
use std::thread;
use std::thread::{Promise, PromisedHandle, Threads};

/// What a worker gives back: its pass of the run queue, and the segments that it has cut off.
#[derive(Drop)]
pub struct Worked {
    pub pass: QueuePass,
    pub segments: Vec<Segment>,
}

// Enters these messages into the trace, and adds the names of their entries. Each time that the trace is full it is cut
// off, and those that are left are tried again.
fn enter_through<B: SharedBook, R: Wait>(
    rt: &R,
    book: &B,
    messages: &[Message],
    receipts: &mut Vec<Receipt>,
    segments: &mut Vec<Segment>,
) -> Result<(), ServeError> {
    let before = receipts.len();
    for _ in rt.forever() {
        let entered = receipts.len().saturating_sub(before);
        let left = messages.get(entered..).unwrap_or(&[]);
        receipts.reserve(left.len())?;
        if book.enter_each(rt, left, receipts)? {
            return Ok(());
        }
        segments.reserve(1)?;
        segments.push_reserved(book.cut(rt)?);
    }
    unreachable!()
}

// Serves the next messages of the session, as many as the gate lets be served at once. Gives whether messages are left.
fn serve_next<B: SharedBook, G: Gate, R: Wait>(
    rt: &R,
    book: &B,
    session: &mut Session,
    gate: &G,
    segments: &mut Vec<Segment>,
) -> Result<bool, ServeError> {
    let served = session.receipts.len();
    let Some(left) = session.messages.get(served..) else {
        return Ok(false);
    };
    if left.is_empty() {
        return Ok(false);
    }
    let next = &left[..gate.at_once().max(1).min(left.len())];
    let first = (served as u64).saturating_add(1);
    let last = (served as u64).saturating_add(next.len() as u64);
    gate.enter(session.conn, first, last);
    enter_through(rt, book, next, &mut session.receipts, segments)?;
    gate.leave(session.conn, first, last);
    Ok(next.len() < left.len())
}

// The same of the session in a slot, whose lock is held for so long.
fn serve_slot<B: SharedBook, G: Gate, R: Wait>(
    rt: &R,
    book: &B,
    slot: &Mutex<Session>,
    gate: &G,
    segments: &mut Vec<Segment>,
) -> Result<bool, ServeError> {
    let mut session = slot.lock(rt);
    serve_next(rt, book, &mut session, gate, segments)
}

/// Serves sessions until it finds that none waits. It takes a session's number out of the run queue, serves as many messages
/// of the session in that slot as the gate lets be served at once, lets the slot go, and puts the number back if the session
/// has more; else it keeps it.
///
/// If the trace is full it cuts it off, keeps the segment, and tries the messages that are left again.
pub fn worker<N: SessionCount, B: SharedBook, G: Gate, R: Wait>(
    rt: &R,
    alloc: Global,
    book: &B,
    slots: &[Mutex<Session>],
    queue: &RunQueue<N>,
    pass: QueuePass,
    gate: &G,
) -> Result<Worked, ServeError>
    requires pass { IsPassOf queue.now pass }
    requires room { N.count ≤ ruled_capacity queue.now }
    requires slots { length slots.now ≡ N.count }
    ensures { IfOk result (λ worked. IsPassOf queue.now worked.pass) }
{
    let mut pass = pass;
    let mut segments = Vec::new(alloc);
    for _ in rt.forever() {
        let Some(number) = take_out(rt, queue, &mut pass) else {
            break;
        };
        let more = serve_slot(rt, book, &slots[number], gate, &mut segments)?;
        if more {
            put_in(rt, queue, &mut pass, number);
        }
    }
    Ok(Worked { pass, segments })
}

/// What a worker on another thread promises: the pass that it gives back is one of this queue.
#[derive(Drop)]
pub struct SameQueue<N: SessionCount> {
    queue: Snapshot<RunQueue<N>>,
}

impl<N: SessionCount> Promise<Result<Worked, ServeError>> for SameQueue<N> {
    ghost use Rattle.std.specs.Prelude.{IfOk};
    ghost use Rattle.crossbeam_queue.specs.Passes.{IsPassOf};

    ghost kept_by = { λ p r. IfOk r (λ worked. IsPassOf p.queue.value worked.pass) };
}

// A worker on another thread.
#[derive(Drop)]
struct Started<N: SessionCount> {
    handle: PromisedHandle<Result<Worked, ServeError>, SameQueue<N>>,
}

/// Serves sessions with so many workers, one at least. The first of them runs on this thread, once the others are started;
/// one whose thread cannot be started is left out.
pub fn fan_out<
    N: SessionCount + Send + Sync,
    B: SharedBook + Sync,
    G: Gate + Sync,
    R: Threads + Wait + Sync,
>(
    rt: &R,
    alloc: Global,
    book: &B,
    slots: &[Mutex<Session>],
    queue: &RunQueue<N>,
    pass: QueuePass,
    gate: &G,
    workers: usize,
) -> Result<Worked, ServeError>
    requires pass { IsPassOf queue.now pass }
    requires room { N.count ≤ ruled_capacity queue.now }
    requires slots { length slots.now ≡ N.count }
    ensures { IfOk result (λ worked. IsPassOf queue.now worked.pass) }
{
    thread::scope(
        thread::scope_env(),
        rt,
        |scope| -> Result<Worked, ServeError>
            requires { IsPassOf queue.now pass × (N.count ≤ ruled_capacity queue.now)
                × (length slots.now ≡ N.count) }
            ensures { IfOk result (λ worked. IsPassOf queue.entry.now worked.pass) }
        {
            let mut pass = pass;
            let mut started = Vec::with_capacity(alloc, workers)?;
            let mut others = Vec::with_capacity(alloc, workers)?;
            for _ in 1..workers {
                let other = split_off(queue, &mut pass);
                let promise = SameQueue {
                    queue: Snapshot::of(queue),
                };
                let handle = scope.spawn_with(
                    promise,
                    move || -> Result<Worked, ServeError>
                        requires { IsPassOf queue.now other × (N.count ≤ ruled_capacity queue.now)
                            × (length slots.now ≡ N.count) }
                        ensures { IfOk result (λ worked. IsPassOf queue.entry.now worked.pass) }
                    { worker(rt, alloc, book, slots, queue, other, gate) },
                );
                if let Ok(handle) = handle {
                    started.push_reserved(Started { handle });
                }
            }
            let first = worker(rt, alloc, book, slots, queue, pass, gate);
            join_all(rt, queue, started, &mut others);
            all_worked(queue, first, others)
        },
    )
}

// Waits for the workers on other threads, in their order, and adds what each gives back.
fn join_all<N: SessionCount, R: Threads>(
    rt: &R,
    queue: &RunQueue<N>,
    started: Vec<Started<N>>,
    ended: &mut Vec<Result<Worked, ServeError>>,
)
    requires started { All (λ s. s.handle.promise.queue.value ≡ queue.now) started.items }
    requires room { vec_len ended.old + vec_len started ≤ vec_capacity ended.old }
    requires ended { All (λ r. IfOk r (λ worked. IsPassOf queue.now worked.pass)) ended.old.items }
    ensures { All (λ r. IfOk r (λ worked. IsPassOf queue.now worked.pass)) ended.new.items }
{
    for Started { handle } in started {
        ended.push_reserved(handle.join(rt));
    }
}

// The first error among what workers gave back, in their order.
fn error_among(ended: &[Result<Worked, ServeError>]) -> Option<ServeError>
    ensures { result ≡ first_error ended.now }
{
    for worked in ended {
        if let Err(error) = worked {
            return Some(*error);
        }
    }
    None
}

// What all workers gave back as one: the first one's pass, to which the others are joined, and the segments of all. Where
// some of them gave errors it is the first of these, in the order of the workers.
fn all_worked<N: SessionCount>(
    queue: &RunQueue<N>,
    first: Result<Worked, ServeError>,
    others: Vec<Result<Worked, ServeError>>,
) -> Result<Worked, ServeError>
    requires first { IfOk first (λ worked. IsPassOf queue.now worked.pass) }
    requires others { All (λ r. IfOk r (λ worked. IsPassOf queue.now worked.pass)) others.items }
    ensures pass { IfOk result (λ worked. IsPassOf queue.now worked.pass) }
    ensures error { IfSome (first_error (first ∷ others.items)) (λ error. result ≡ Err error) }
{
    let Worked {
        mut pass,
        mut segments,
    } = first?;
    if let Some(error) = error_among(others.as_slice()) {
        return Err(error);
    }
    for worked in others {
        let worked = worked?;
        join_to(queue, &mut pass, worked.pass);
        append(&mut segments, worked.segments)?;
    }
    Ok(Worked { pass, segments })
}

// Adds another worker's segments.
fn append(segments: &mut Vec<Segment>, others: Vec<Segment>) -> Result<(), ServeError> {
    segments.reserve(others.len())?;
    for segment in others {
        segments.reserve(1)?;
        segments.push_reserved(segment);
    }
    Ok(())
}
