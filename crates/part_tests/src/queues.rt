//! What servers and clients are owed.

use crate::samples::{assert_met, bytes, one_line, record_of, set_line};
use pps_types::{Handle, Kind, Lines, Refusal};
use server_queue::{Entry, Queue, Sender};
use std::alloc::{AllocError, Global};
use std::process::Abort;
use std::test::Fail;

fn lines(alloc: Global) -> Result<Lines, Refusal> {
    Ok(one_line(alloc, set_line(alloc, b"a", b"n", b"1", false)?)?)
}

fn entry(alloc: Global, kind: Kind) -> Result<Entry, AllocError> {
    Entry::new(alloc, 0, bytes(alloc, b"s")?, record_of(1, kind, None))
}

/// What a record of an object says.
#[derive(Clone, Copy)]
enum Said {
    Opened(u32),
    Closed(u32),
    FromClient(u32),
    ToClient(u32),
    ToAll,
}

/// The kind of a record that says so.
fn kind_of(alloc: Global, said: Said) -> Result<Kind, Refusal> {
    Ok(match said {
        Said::Opened(handle) => Kind::Opened(Handle::new(handle)),
        Said::Closed(handle) => Kind::Closed(Handle::new(handle)),
        Said::FromClient(handle) => Kind::FromClient(Handle::new(handle), lines(alloc)?),
        Said::ToClient(handle) => Kind::ToClient(Handle::new(handle), lines(alloc)?),
        Said::ToAll => Kind::ToAll(lines(alloc)?),
    })
}

fn push(queue: &mut Queue, alloc: Global, said: Said) -> Result<(), Refusal> {
    let entry = entry(alloc, kind_of(alloc, said)?)?;
    queue.reserve(1, entry.client_messages())?;
    queue.push_reserved(entry);
    Ok(())
}

/// Whether a read gives this text. The queue moves on.
fn reads(queue: &mut Queue, max: u32, wanted: &[u8]) -> Result<bool, Refusal> {
    let plan = queue.read_plan(&[], max)?;
    let is_wanted = plan.text.as_slice() == wanted;
    if plan.count <= queue.owed_count() {
        queue.read_commit(plan);
    }
    Ok(is_wanted)
}

/// Whether a read is too small, and needs so many bytes.
fn needs(queue: &Queue, max: u32, need: u32) -> Result<bool, Refusal> {
    match queue.read_plan(&[], max).err() {
        None => Ok(false),
        Some(Refusal::TooSmall { need: found }) => Ok(found == need),
        Some(refusal) => Err(refusal),
    }
}

/// Whether a read gives this text if a deletion is yet to come.
fn reads_with_deletion(
    alloc: Global,
    queue: &Queue,
    max: u32,
    wanted: &[u8],
) -> Result<bool, Refusal> {
    let last = entry(alloc, Kind::Deleted)?;
    let plan = queue.read_plan(std::slice::from_ref(&last), max)?;
    Ok(plan.text.as_slice() == wanted)
}

/// The sender of that number, or the server.
fn sender(client: Option<u32>) -> Sender {
    match client {
        None => Sender::Server,
        Some(number) => Sender::Client(Handle::new(number)),
    }
}

/// A call of a queue, or what it has to answer.
#[derive(Clone, Copy)]
enum Step {
    Push(Said),
    /// The other queue is a copy of this one from here on.
    Copy,
    /// The steps after this one are of the other queue.
    Swap,
    /// Whether the queue can take a message of that client, or of the server.
    CanTake(Option<u32>, bool),
    News(bool),
    /// A read of so many bytes gives this text, and the queue moves on.
    Reads(u32, &'static [u8]),
    /// A read of so many bytes is too small, and needs so many.
    Needs(u32, u32),
    /// A read of so many bytes gives this text if a deletion is yet to come. The queue stays.
    ReadsWithDeletion(u32, &'static [u8]),
    /// Whether both queues are the same.
    Same(bool),
}

/// Steps of a queue that takes so many messages of a sender, under the name of what they show.
#[derive(Clone, Copy)]
struct Steps {
    name: &'static str,
    limit: u32,
    list: &'static [Step],
}

const STEPS: &[Steps] = &[
    Steps {
        name: "backlog",
        limit: 1,
        list: &[
            Step::Push(Said::Opened(2)),
            Step::Push(Said::FromClient(2)),
            Step::Push(Said::FromClient(3)),
            Step::Push(Said::Closed(3)),
            Step::CanTake(Some(2), false),
            Step::CanTake(Some(3), false),
            Step::CanTake(Some(4), true),
            Step::CanTake(None, true),
            Step::Reads(17, b"+@s.2\n@s.2\na:n:1\n"),
            Step::CanTake(Some(2), true),
            Step::CanTake(Some(3), false),
            Step::Push(Said::FromClient(2)),
            Step::CanTake(Some(2), false),
        ],
    },
    Steps {
        name: "reads_give_whole_blocks",
        limit: 8,
        list: &[
            Step::Push(Said::Opened(2)),
            Step::Push(Said::FromClient(2)),
            Step::Push(Said::FromClient(3)),
            Step::Push(Said::Closed(3)),
            Step::News(true),
            Step::Needs(5, 6),
            Step::Reads(16, b"+@s.2\n"),
            Step::Reads(100, b"@s.2\na:n:1\n@s.3\na:n:1\n-@s.3\n"),
            Step::News(false),
            Step::Reads(100, b""),
        ],
    },
    Steps {
        name: "messages_of_the_server",
        limit: 2,
        list: &[
            Step::Push(Said::ToAll),
            Step::CanTake(None, true),
            Step::Push(Said::ToClient(2)),
            Step::CanTake(None, false),
            Step::ReadsWithDeletion(100, b"@s\na:n:1\n@s\na:n:1\n-@s\n"),
            Step::Copy,
            Step::Same(true),
            Step::Swap,
            Step::Reads(9, b"@s\na:n:1\n"),
            Step::Same(false),
            Step::CanTake(None, true),
            Step::Swap,
            Step::CanTake(None, false),
        ],
    },
];

/// A queue and another.
#[derive(Drop)]
struct Pair {
    queue: Queue,
    other: Queue,
}

/// Carries out a step. Whether the queue answers as the step says.
fn is_met(alloc: Global, pair: &mut Pair, step: Step) -> Result<bool, Refusal> {
    let queue = &mut pair.queue;
    match step {
        Step::Push(said) => push(queue, alloc, said)?,
        Step::Copy => pair.other = queue.copy()?,
        Step::Swap => std::mem::swap(&mut pair.queue, &mut pair.other),
        Step::CanTake(client, can) => return Ok(queue.can_take(sender(client)) == can),
        Step::News(is) => return Ok(queue.news() == is),
        Step::Reads(max, wanted) => return reads(queue, max, wanted),
        Step::Needs(max, need) => return needs(queue, max, need),
        Step::ReadsWithDeletion(max, wanted) => {
            return reads_with_deletion(alloc, queue, max, wanted);
        }
        Step::Same(is) => {
            return Ok(queue.same(&pair.other) == is && pair.other.same(queue) == is);
        }
    }
    Ok(true)
}

/// Plays the steps in turn, of two queues that begin empty.
fn play(rt: &impl Abort, alloc: Global, steps: &Steps) -> Result<(), Refusal> {
    let mut pair = Pair {
        queue: Queue::new(alloc, steps.limit),
        other: Queue::new(alloc, steps.limit),
    };
    for (number, step) in steps.list.iter().enumerate() {
        let is_met = is_met(alloc, &mut pair, *step)?;
        assert_met(rt, is_met, steps.name, number);
    }
    Ok(())
}

#[test]
fn queues_answer_in_turn(rt: HostRuntime) -> Result<(), Fail> {
    for steps in STEPS {
        play(&rt, rt.alloc(), steps)?;
    }
    Ok(())
}

#[test]
fn lines_are_printed_once(rt: HostRuntime) -> Result<(), Fail> {
    let alloc = rt.alloc();
    let change = entry(alloc, Kind::Change(lines(alloc)?))?;
    let text = change.text().ok_or("lines have a printing")?;
    assert_eq!(rt; text, b"@s\na:n:1\n".as_slice());
    assert!(rt; entry(alloc, Kind::Deleted)?.text().is_none());
    assert!(rt; entry(alloc, Kind::ToAll(lines(alloc)?))?.text().is_none());
    Ok(())
}
