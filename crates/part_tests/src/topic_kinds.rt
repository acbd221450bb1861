ghost use Rattle.std.specs.Prelude.{◌≡◌, OnOk};
ghost use Rattle.sub_reader.specs.HandleAt.{AreBelow};
ghost use Rattle.topics.specs.HandlesOf.{IsSameTarget, Suits, handles_of, handles_with};

use crate::steps::{assert_met, is_alone, opening};
use pps_types::{Bytes, DirId, Handle, HandleKind, Kind, ObjId, Record, Refusal};
use server_queue::Entry;
use std::alloc::{AllocError, Global};
use std::process::Abort;
use std::test::Fail;
use sub_reader::{Opening, Pulse};
use topics::Topic;

/// Opens a handle.
fn open(topic: &mut Topic, opening: Opening) -> Result<(), AllocError>
    requires suits { Suits opening.kind topic.old }
    requires above { AreBelow opening.number (handles_of topic.old) }
    ensures same { IsSameTarget topic.old topic.new }
    ensures handles { OnOk result (handles_of topic.new ≡ handles_with opening topic.old) }
{
    topic.reserve_handle()?;
    topic.open_reserved(opening);
    Ok(())
}

/// The handle 3 in delta mode and the handle 5 in full mode, on a plain object.
fn readers(alloc: Global) -> Result<Topic, AllocError> {
    let name = Bytes::from_slice(alloc, b"gps")?;
    let mut topic = Topic::of_object(alloc, ObjId::new(1), name);
    open(
        &mut topic,
        opening(3, HandleKind::Object { delta: true }, 2),
    )?;
    open(
        &mut topic,
        opening(5, HandleKind::Object { delta: false }, 2),
    )?;
    Ok(topic)
}

/// The server's handle 3 and the client's handle 4, on a server object.
fn served(alloc: Global) -> Result<Topic, AllocError> {
    let name = Bytes::from_slice(alloc, b"srv")?;
    let mut topic = Topic::of_service(alloc, ObjId::new(1), name);
    open(&mut topic, opening(3, HandleKind::Server, 2))?;
    open(&mut topic, opening(4, HandleKind::Client, 2))?;
    Ok(topic)
}

/// The handle 3 for the names alone, on a directory.
fn listened(alloc: Global) -> Result<Topic, AllocError> {
    let mut topic = Topic::of_directory(alloc, DirId::new(7));
    open(&mut topic, opening(3, HandleKind::Names, 2))?;
    Ok(topic)
}

/// A record of object 1, by that handle or by none.
fn entry(alloc: Global, kind: Kind, writer: Option<Handle>) -> Result<Entry, AllocError> {
    let made = Record {
        object: ObjId::new(1),
        kind,
        writer,
    };
    Entry::new(alloc, 7, Bytes::from_slice(alloc, b"gps")?, made)
}

/// Offers a record by no handle.
fn offer(alloc: Global, topic: &mut Topic, kind: Kind) -> Result<(), AllocError> {
    let made = entry(alloc, kind, None)?;
    topic.reserve(std::slice::from_ref(&made))?;
    let shares = topic.shares(alloc, made)?;
    topic.offer(shares);
    Ok(())
}

/// Whether a truncation by the handle 5 wakes that handle alone.
fn wakes(alloc: Global, topic: &Topic, handle: u32) -> Result<bool, AllocError> {
    let made = entry(alloc, Kind::Truncated, Some(Handle::new(5)))?;
    let woken = topic.woken_by(alloc, std::slice::from_ref(&made))?;
    Ok(is_alone(woken.as_slice(), Some(handle)))
}

/// Whether a read of 100 bytes gives this text, of so many records.
fn gives(
    alloc: Global,
    topic: &Topic,
    handle: u32,
    count: usize,
    text: &[u8],
) -> Result<bool, Refusal> {
    let given = topic.read_owed(alloc, Handle::new(handle), 100)?;
    Ok(given.count == count && given.text.as_slice() == text)
}

/// A call of a topic, or what it has to answer.
#[derive(Clone, Copy)]
enum Step {
    OfferTruncation,
    /// The record of a closed handle is offered.
    OfferClosing(u32),
    /// A handle is given so many of the records that it is owed.
    Pass(u32, usize),
    /// A handle is given everything.
    CatchUp(u32),
    Close(u32),
    Park(u32, Option<u32>),
    Arm(u32, Option<Pulse>),
    /// The other topic is a copy of this one from here on.
    Copy,
    /// The steps after this one are of the other topic.
    Swap,
    IsService(bool),
    IsEmpty(bool),
    /// Whether there is a handle of that number.
    IsThere(u32, bool),
    /// How many records a handle is owed: none if it is past its limit.
    Owed(u32, Option<usize>),
    HasNews(u32, bool),
    Parked(u32, Option<u32>),
    Armed(u32, Option<Pulse>),
    /// A read of 100 bytes by a handle gives this text, of so many records.
    Gives(u32, usize, &'static [u8]),
    /// A truncation by the handle 5 wakes that handle alone.
    Wakes(u32),
    /// Whether both topics hold the same.
    Same(bool),
}

/// Steps under the name of what they show.
#[derive(Clone, Copy)]
struct Steps {
    name: &'static str,
    list: &'static [Step],
}

/// Topic and others.
#[derive(Drop)]
struct Pair {
    topic: Topic,
    other: Topic,
}

/// Carries out a call. Whether the step is one.
fn is_carried_out(alloc: Global, pair: &mut Pair, step: Step) -> Result<bool, Refusal> {
    let topic = &mut pair.topic;
    match step {
        Step::OfferTruncation => offer(alloc, topic, Kind::Truncated)?,
        Step::OfferClosing(handle) => offer(alloc, topic, Kind::Closed(Handle::new(handle)))?,
        Step::Pass(handle, count) => topic.pass(Handle::new(handle), count),
        Step::CatchUp(handle) => topic.catch_up(Handle::new(handle)),
        Step::Close(handle) => topic.close(Handle::new(handle)),
        Step::Park(handle, max) => topic.park(Handle::new(handle), max),
        Step::Arm(handle, pulse) => topic.arm(Handle::new(handle), pulse),
        Step::Copy => pair.other = topic.copy()?,
        Step::Swap => std::mem::swap(&mut pair.topic, &mut pair.other),
        _ => return Ok(false),
    }
    Ok(true)
}

/// Whether the topic answers as the step says.
fn is_answered(alloc: Global, pair: &Pair, step: Step) -> Result<bool, Refusal> {
    let topic = &pair.topic;
    Ok(match step {
        Step::IsService(is) => topic.is_service() == is,
        Step::IsEmpty(is) => topic.is_empty() == is,
        Step::IsThere(handle, is) => topic.opening(Handle::new(handle)).is_some() == is,
        Step::Owed(handle, count) => topic.owed(Handle::new(handle)) == count,
        Step::HasNews(handle, has) => topic.has_news(Handle::new(handle)) == has,
        Step::Parked(handle, max) => topic.parked(Handle::new(handle)) == max,
        Step::Armed(handle, pulse) => topic.armed(Handle::new(handle)) == pulse,
        Step::Gives(handle, count, text) => gives(alloc, topic, handle, count, text)?,
        Step::Wakes(handle) => wakes(alloc, topic, handle)?,
        Step::Same(is) => pair.other.same(topic) == is,
        _ => false,
    })
}

/// Plays the steps in turn, of this topic and the other.
fn play(
    rt: &impl Abort,
    alloc: Global,
    topic: Topic,
    other: Topic,
    steps: &Steps,
) -> Result<(), Refusal> {
    let mut pair = Pair { topic, other };
    for (number, step) in steps.list.iter().enumerate() {
        let is_met = is_carried_out(alloc, &mut pair, *step)? || is_answered(alloc, &pair, *step)?;
        assert_met(rt, is_met, steps.name, number);
    }
    Ok(())
}

const PULSE: Pulse = Pulse { code: 1, value: 9 };

/// Steps of the readers, beside a server object.
const OF_READERS: &[Steps] = &[
    Steps {
        name: "readers_open_and_close",
        list: &[
            Step::IsService(false),
            Step::IsEmpty(false),
            Step::IsThere(3, true),
            Step::Close(3),
            Step::Close(5),
            Step::IsEmpty(true),
        ],
    },
    Steps {
        name: "readers_are_told",
        list: &[
            Step::CatchUp(3),
            Step::CatchUp(5),
            Step::HasNews(3, false),
            Step::OfferTruncation,
            Step::HasNews(3, true),
            Step::HasNews(5, true),
            Step::Owed(3, Some(1)),
            Step::Gives(3, 1, b"#@gps\n"),
            Step::Pass(3, 1),
            Step::Owed(3, Some(0)),
        ],
    },
    Steps {
        name: "who_waits_is_woken",
        list: &[
            Step::CatchUp(3),
            Step::CatchUp(5),
            Step::Park(3, Some(64)),
            Step::Arm(5, Some(PULSE)),
            Step::Parked(3, Some(64)),
            Step::Armed(5, Some(PULSE)),
            Step::Wakes(3),
        ],
    },
    // At first the other topic is that of the server object.
    Steps {
        name: "a_copy_is_the_same",
        list: &[
            Step::Same(false),
            Step::Copy,
            Step::Same(true),
            Step::Swap,
            Step::Close(3),
            Step::Swap,
            Step::Same(false),
        ],
    },
];

/// Steps of a server's handle and a client's.
const OF_A_SERVER: &[Steps] = &[
    Steps {
        name: "a_server_is_told",
        list: &[
            Step::IsService(true),
            Step::OfferClosing(4),
            Step::Owed(3, Some(1)),
            Step::Owed(4, Some(0)),
            Step::Gives(3, 1, b"-@gps.4\n"),
        ],
    },
    Steps {
        name: "a_copy_is_the_same, of a server object",
        list: &[Step::Copy, Step::Same(true)],
    },
];

/// Steps of a directory, of which the other has no handle.
const OF_A_DIRECTORY: Steps = Steps {
    name: "a_directory_is_listened_to",
    list: &[Step::HasNews(3, true), Step::Swap, Step::IsEmpty(true)],
};

#[test]
fn topics_answer_in_turn(rt: HostRuntime) -> Result<(), Fail> {
    let alloc = rt.alloc();
    for steps in OF_READERS {
        play(&rt, alloc, readers(alloc)?, served(alloc)?, steps)?;
    }
    for steps in OF_A_SERVER {
        play(&rt, alloc, served(alloc)?, readers(alloc)?, steps)?;
    }
    let bare = Topic::of_directory(alloc, DirId::new(7));
    play(&rt, alloc, listened(alloc)?, bare, &OF_A_DIRECTORY)?;
    Ok(())
}
