ghost use Rattle.std.specs.Prelude.{◌≡◌, OnOk};
ghost use Rattle.pps_types.specs.Reading.{Queue as QueueStyle, style};
ghost use Rattle.sub_reader.specs.HandleAt.{AreBelow};
ghost use Rattle.topics.specs.Standing.{handles_with};

use crate::steps::{assert_met, is_alone, limit_of, lines, opening};
use pps_types::{Bytes, Handle, HandleKind, Kind, ObjId, Record, Refusal};
use server_queue::Entry;
use std::alloc::{AllocError, Global};
use std::process::Abort;
use std::test::Fail;
use sub_reader::{Opening, Pulse};
use topics::ServerHandles;

/// Opens a handle.
fn open(service: &mut ServerHandles, opening: Opening) -> Result<(), AllocError>
    requires queue { style opening.kind ≡ QueueStyle }
    requires above { AreBelow opening.number service.old.handles }
    ensures handles { OnOk result (service.new.handles ≡ handles_with opening service.old) }
{
    service.reserve_handle()?;
    service.open_reserved(opening);
    Ok(())
}

/// What a record says.
#[derive(Clone, Copy)]
enum Said {
    /// A line of a client's handle, which is the writer.
    FromClient(u32),
    /// A line of the server's handle 3 to a client's handle.
    ToClient(u32),
    /// A line of the server's handle 3 to all clients.
    ToAll,
    Opened(u32),
    Closed(u32),
    Deleted,
}

/// The kind of a record that says so.
fn kind_of(alloc: Global, said: Said) -> Result<Kind, Refusal> {
    Ok(match said {
        Said::FromClient(handle) => Kind::FromClient(Handle::new(handle), lines(alloc)?),
        Said::ToClient(handle) => Kind::ToClient(Handle::new(handle), lines(alloc)?),
        Said::ToAll => Kind::ToAll(lines(alloc)?),
        Said::Opened(handle) => Kind::Opened(Handle::new(handle)),
        Said::Closed(handle) => Kind::Closed(Handle::new(handle)),
        Said::Deleted => Kind::Deleted,
    })
}

/// The handle that writes it, if one does.
fn writer_of(said: Said) -> Option<Handle> {
    match said {
        Said::FromClient(handle) => Some(Handle::new(handle)),
        Said::ToClient(_) | Said::ToAll => Some(Handle::new(3)),
        Said::Opened(_) | Said::Closed(_) | Said::Deleted => None,
    }
}

/// A record of object 1, in directory 7.
fn entry(alloc: Global, said: Said) -> Result<Entry, Refusal> {
    let made = Record {
        object: ObjId::new(1),
        kind: kind_of(alloc, said)?,
        writer: writer_of(said),
    };
    Ok(Entry::new(alloc, 7, Bytes::from_slice(alloc, b"srv")?, made)?)
}

/// Offers a record to the handles.
fn offer(alloc: Global, service: &mut ServerHandles, said: Said) -> Result<(), Refusal> {
    let made = entry(alloc, said)?;
    service.reserve(std::slice::from_ref(&made))?;
    let shares = service.shares(alloc, made)?;
    service.offer(shares);
    Ok(())
}

/// Object 1, with its server's handle 3, which takes 1 message of each client, and the clients' handles 4 and 9, which take
/// 2 messages.
fn served(alloc: Global) -> Result<ServerHandles, AllocError> {
    let name = Bytes::from_slice(alloc, b"srv")?;
    let mut service = ServerHandles::new(alloc, ObjId::new(1), name);
    open(&mut service, opening(3, HandleKind::Server, 1))?;
    open(&mut service, opening(4, HandleKind::Client, 2))?;
    open(&mut service, opening(9, HandleKind::Client, 2))?;
    Ok(service)
}

/// Whether a record wakes that handle alone, or nobody.
fn wakes(
    alloc: Global,
    service: &ServerHandles,
    said: Said,
    handle: Option<u32>,
) -> Result<bool, Refusal> {
    let made = entry(alloc, said)?;
    let woken = service.woken_by(alloc, std::slice::from_ref(&made))?;
    Ok(is_alone(woken.as_slice(), handle))
}

/// Whether a read of so many bytes gives this text, of so many records.
fn gives(
    alloc: Global,
    service: &ServerHandles,
    handle: u32,
    max: u32,
    count: usize,
    text: &[u8],
) -> Result<bool, Refusal> {
    let given = service.read_owed(alloc, Handle::new(handle), max)?;
    Ok(given.count == count && given.text.as_slice() == text)
}

/// A call of a service, or what it has to answer.
#[derive(Clone, Copy)]
enum Step {
    /// A record is offered to the handles.
    Offer(Said),
    /// A handle is given so many of the records that it is owed.
    Pass(u32, usize),
    /// A handle is given everything.
    CatchUp(u32),
    Close(u32),
    /// A read of so many bytes waits on a handle from here on, or none.
    Park(u32, Option<u32>),
    Arm(u32, Option<Pulse>),
    /// The other service is a copy of this one from here on.
    Copy,
    /// How many handles there are.
    Len(usize),
    IsEmpty(bool),
    /// The limit that the opening of a handle has.
    Limit(u32, Option<u32>),
    /// How many records a handle is owed: none if there is no such handle.
    Owed(u32, Option<usize>),
    HasNews(u32, bool),
    /// Whether the server's handle holds all that it takes of a client.
    IsServerFull(u32, u32, bool),
    /// Whether a client's handle holds all that it takes.
    IsClientFull(u32, bool),
    /// A client's handle that holds all that it takes.
    FullClient(Option<u32>),
    Parked(u32, Option<u32>),
    Armed(u32, Option<Pulse>),
    /// A read of so many bytes by a handle gives this text, of so many records.
    Gives(u32, u32, usize, &'static [u8]),
    /// A read of so many bytes by a handle is too small, and needs so many.
    Needs(u32, u32, u32),
    /// A record wakes that handle alone, or nobody.
    Wakes(Said, Option<u32>),
    /// Whether both services hold the same.
    Same(bool),
}

/// Steps under the name of what they show.
#[derive(Clone, Copy)]
struct Steps {
    name: &'static str,
    list: &'static [Step],
}

/// A service and another.
#[derive(Drop)]
struct Pair {
    service: ServerHandles,
    other: ServerHandles,
}

/// Carries out a call. Whether the step is one.
fn is_carried_out(alloc: Global, pair: &mut Pair, step: Step) -> Result<bool, Refusal> {
    let service = &mut pair.service;
    match step {
        Step::Offer(said) => offer(alloc, service, said)?,
        Step::Pass(handle, count) => service.pass(Handle::new(handle), count),
        Step::CatchUp(handle) => service.catch_up(Handle::new(handle)),
        Step::Close(handle) => service.close(Handle::new(handle)),
        Step::Park(handle, max) => service.park(Handle::new(handle), max),
        Step::Arm(handle, pulse) => service.arm(Handle::new(handle), pulse),
        Step::Copy => pair.other = service.copy()?,
        _ => return Ok(false),
    }
    Ok(true)
}

/// Whether the service answers as the step says.
fn is_answered(alloc: Global, pair: &Pair, step: Step) -> Result<bool, Refusal> {
    let service = &pair.service;
    Ok(match step {
        Step::Len(len) => service.len() == len,
        Step::IsEmpty(is) => service.is_empty() == is,
        Step::Limit(handle, limit) => { limit_of(service.opening(Handle::new(handle))) == limit }
        Step::Owed(handle, count) => service.owed(Handle::new(handle)) == count,
        Step::HasNews(handle, has) => service.has_news(Handle::new(handle)) == has,
        Step::IsServerFull(server, client, is) => {
            service.is_server_full(Handle::new(server), Handle::new(client)) == is
        }
        Step::IsClientFull(handle, is) => service.is_client_full(Handle::new(handle)) == is,
        Step::FullClient(handle) => service.full_client() == handle.map(Handle::new),
        Step::Parked(handle, max) => service.parked(Handle::new(handle)) == max,
        Step::Armed(handle, pulse) => service.armed(Handle::new(handle)) == pulse,
        Step::Gives(handle, max, count, text) => gives(alloc, service, handle, max, count, text)?,
        Step::Needs(handle, max, need) => {
            let refusal = service.read_owed(alloc, Handle::new(handle), max).err();
            refusal == Some(Refusal::TooSmall { need })
        }
        Step::Wakes(said, handle) => wakes(alloc, service, said, handle)?,
        Step::Same(is) => pair.other.same(service) == is,
        _ => false,
    })
}

/// Plays the steps in turn, of a service with three handles.
fn play(rt: &impl Abort, alloc: Global, steps: &Steps) -> Result<(), Refusal> {
    let service = served(alloc)?;
    let other = service.copy()?;
    let mut pair = Pair { service, other };
    for (number, step) in steps.list.iter().enumerate() {
        let is_met = is_carried_out(alloc, &mut pair, *step)? || is_answered(alloc, &pair, *step)?;
        assert_met(rt, is_met, steps.name, number);
    }
    Ok(())
}

const PULSE: Pulse = Pulse { code: 5, value: 6 };

/// Steps of a server's handle 3 and the clients' handles 4 and 9.
const STEPS: &[Steps] = &[
    Steps {
        name: "handles_open_and_close",
        list: &[
            Step::Len(3),
            Step::IsEmpty(false),
            Step::Limit(3, Some(1)),
            Step::Close(3),
            Step::Limit(3, None),
            Step::Close(4),
            Step::Close(9),
            Step::IsEmpty(true),
        ],
    },
    Steps {
        name: "a_client_speaks_to_its_server",
        list: &[
            Step::Offer(Said::FromClient(4)),
            Step::Owed(3, Some(1)),
            Step::Owed(4, Some(0)),
            Step::Owed(9, Some(0)),
            Step::IsServerFull(3, 4, true),
            Step::IsServerFull(3, 9, false),
            Step::Gives(3, 100, 1, b"@srv.4\na:n:1\n"),
            Step::Pass(3, 1),
            Step::Owed(3, Some(0)),
            Step::IsServerFull(3, 4, false),
        ],
    },
    Steps {
        name: "a_server_speaks_to_one_and_to_all",
        list: &[
            Step::Offer(Said::ToClient(9)),
            Step::Owed(4, Some(0)),
            Step::Owed(9, Some(1)),
            Step::Offer(Said::ToAll),
            Step::Owed(3, Some(0)),
            Step::Owed(4, Some(1)),
            Step::Owed(9, Some(2)),
            Step::IsClientFull(9, true),
            Step::IsClientFull(4, false),
            Step::FullClient(Some(9)),
            Step::CatchUp(9),
            Step::HasNews(9, false),
            Step::HasNews(4, true),
            Step::FullClient(None),
        ],
    },
    Steps {
        name: "notices_go_to_those_who_are_told",
        list: &[
            Step::Offer(Said::Opened(9)),
            Step::Close(4),
            Step::Offer(Said::Closed(4)),
            Step::Offer(Said::Deleted),
            Step::Owed(3, Some(2)),
            Step::Owed(4, None),
            Step::Owed(9, Some(1)),
            Step::Gives(3, 8, 1, b"+@srv.9\n"),
        ],
    },
    Steps {
        name: "a_short_read_tells_its_size",
        list: &[
            Step::Offer(Said::Deleted),
            Step::Needs(9, 5, 6),
            Step::Gives(3, 5, 0, b""),
            Step::Gives(5, 5, 0, b""),
        ],
    },
    Steps {
        name: "reads_wait_and_pulses_are_armed",
        list: &[
            Step::Park(3, Some(80)),
            Step::Arm(4, Some(PULSE)),
            Step::Parked(3, Some(80)),
            Step::Parked(4, None),
            Step::Armed(4, Some(PULSE)),
            Step::Armed(5, None),
            Step::Park(3, None),
            Step::Arm(4, None),
            Step::Parked(3, None),
            Step::Armed(4, None),
        ],
    },
    Steps {
        name: "a_message_wakes_who_waits_for_it",
        list: &[
            Step::Wakes(Said::ToAll, None),
            Step::Park(9, Some(100)),
            Step::Park(3, Some(100)),
            Step::Wakes(Said::ToAll, Some(9)),
            Step::Offer(Said::ToAll),
            Step::Wakes(Said::ToAll, None),
        ],
    },
    Steps {
        name: "a_copy_is_the_same",
        list: &[
            Step::Copy,
            Step::Same(true),
            Step::Park(4, Some(8)),
            Step::Same(false),
        ],
    },
];

#[test]
fn services_answer_in_turn(rt: HostRuntime) -> Result<(), Fail> {
    for steps in STEPS {
        play(&rt, rt.alloc(), steps)?;
    }
    Ok(())
}
