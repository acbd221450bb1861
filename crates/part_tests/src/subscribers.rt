ghost use Rattle.std.specs.Prelude.{◌≡◌, true, OnOk};
ghost use Rattle.sub_reader.specs.Opened.{is_reader};
ghost use Rattle.sub_reader.specs.HandleAt.{AreBelow};
ghost use Rattle.sub_reader.specs.HandlesOf.{SuitsTarget};
ghost use Rattle.sub_reader.specs.Standing.{handles_with};

use crate::steps::{assert_met, is_alone, limit_of, lines, opening};
use pps_types::{Bytes, DirId, Handle, HandleKind, Kind, ObjId, Record, Refusal};
use server_queue::Entry;
use std::alloc::{AllocError, Global};
use std::process::Abort;
use std::test::Fail;
use sub_reader::{Opening, Pulse, Subscribers};

/// Opens a handle.
fn open(target: &mut Subscribers, opening: Opening) -> Result<(), AllocError>
    requires reader { is_reader opening.kind ≡ true }
    requires flag { SuitsTarget opening.kind target.old.of }
    requires above { AreBelow opening.number target.old.handles }
    ensures of { target.new.of ≡ target.old.of }
    ensures handles { OnOk result (target.new.handles ≡ handles_with opening target.old) }
{
    target.reserve_handle()?;
    target.open_reserved(opening);
    Ok(())
}

/// A record of an object in directory 7.
fn entry(
    alloc: Global,
    object: u64,
    kind: Kind,
    writer: Option<Handle>,
) -> Result<Entry, AllocError> {
    let made = Record {
        object: ObjId::new(object),
        kind,
        writer,
    };
    Entry::new(alloc, 7, Bytes::from_slice(alloc, b"gps")?, made)
}

/// Offers so many changes of object 1 by nobody here.
fn offer_changes(alloc: Global, target: &mut Subscribers, count: usize) -> Result<(), Refusal> {
    'changes: for _ in 0..count {
        let made = entry(alloc, 1, Kind::Change(lines(alloc)?), None)?;
        target.reserve(1)?;
        target.offer(made);
    }
    Ok(())
}

/// Object 1, with two handles in delta mode that have read everything. The first may be owed 2 records, the other 3.
fn read_by_two(alloc: Global) -> Result<Subscribers, AllocError> {
    let name = Bytes::from_slice(alloc, b"gps")?;
    let mut target = Subscribers::object(alloc, ObjId::new(1), name);
    open(
        &mut target,
        opening(4, HandleKind::Object { delta: true }, 2),
    )?;
    open(
        &mut target,
        opening(9, HandleKind::Object { delta: true }, 3),
    )?;
    target.catch_up(Handle::new(4));
    target.catch_up(Handle::new(9));
    Ok(target)
}

/// A directory, with a handle in full mode and one for the names alone.
fn directory_read_by_two(alloc: Global) -> Result<Subscribers, AllocError> {
    let mut target = Subscribers::directory(alloc, DirId::new(7));
    open(
        &mut target,
        opening(1, HandleKind::Directory { delta: false }, 5),
    )?;
    open(&mut target, opening(2, HandleKind::Names, 5))?;
    target.catch_up(Handle::new(1));
    target.catch_up(Handle::new(2));
    Ok(target)
}

/// Offers a record of that object, once there is room for so many.
fn offer_one(
    alloc: Global,
    target: &mut Subscribers,
    room: usize,
    object: u64,
    kind: Kind,
    writer: Option<u32>,
) -> Result<(), AllocError> {
    let made = entry(alloc, object, kind, writer.map(Handle::new))?;
    target.reserve(room)?;
    if room > 0 {
        target.offer(made);
    }
    Ok(())
}

/// Whether a change of object 1 wakes that handle alone, or nobody.
fn wakes(alloc: Global, target: &Subscribers, handle: Option<u32>) -> Result<bool, Refusal> {
    let made = [entry(alloc, 1, Kind::Change(lines(alloc)?), None)?];
    let woken = target.woken_by(alloc, &made)?;
    Ok(is_alone(woken.as_slice(), handle))
}

/// Whether a read of so many bytes gives this text, of so many records.
fn gives(
    alloc: Global,
    target: &Subscribers,
    handle: u32,
    max: u32,
    count: usize,
    text: &[u8],
) -> Result<bool, Refusal> {
    let given = target.read_owed(alloc, Handle::new(handle), max)?;
    Ok(given.count == count && given.text.as_slice() == text)
}

/// A call of a target, or what it has to answer.
#[derive(Clone, Copy)]
enum Step {
    /// So many changes of object 1 are offered, by nobody here.
    Offer(usize),
    /// A change of object 1 by that handle is offered.
    OfferBy(u32),
    /// A change of object 2 is offered, where there is room for two.
    OfferOfAnother,
    /// The record that creates object 3 is offered.
    OfferCreated,
    /// A handle is given so many of the records that it is owed.
    Pass(u32, usize),
    /// A handle is given everything.
    CatchUp(u32),
    Close(u32),
    Park(u32, Option<u32>),
    Arm(u32, Option<Pulse>),
    /// The other target is a copy of this one from here on.
    Copy,
    /// The steps after this one are of the other target.
    Swap,
    /// How many records are kept.
    Kept(u64),
    /// How many records a handle is owed: none if it is past its limit, or if there is no such handle.
    Owed(u32, Option<u32>),
    HasNews(u32, bool),
    IsOver(u32, bool),
    IsEmpty(bool),
    Parked(u32, Option<u32>),
    Armed(u32, Option<Pulse>),
    /// The limit that the opening of a handle has.
    Limit(u32, Option<u32>),
    /// Room for as many records as there are numbers is refused.
    RefusesRoom,
    /// A read of so many bytes by a handle gives this text, of so many records.
    Gives(u32, u32, usize, &'static [u8]),
    /// A read of so many bytes by a handle is too small, and needs so many.
    Needs(u32, u32, u32),
    /// A change of object 1 wakes that handle alone, or nobody.
    Wakes(Option<u32>),
    /// Whether both targets hold the same.
    Same(bool),
}

/// Steps under the name of what they show.
#[derive(Clone, Copy)]
struct Steps {
    name: &'static str,
    list: &'static [Step],
}

/// A target and another.
#[derive(Drop)]
struct Pair {
    target: Subscribers,
    other: Subscribers,
}

/// Carries out a call. Whether the step is one.
fn is_carried_out(alloc: Global, pair: &mut Pair, step: Step) -> Result<bool, Refusal> {
    let target = &mut pair.target;
    match step {
        Step::Offer(count) => offer_changes(alloc, target, count)?,
        Step::OfferBy(handle) => offer_one(
            alloc,
            target,
            1,
            1,
            Kind::Change(lines(alloc)?),
            Some(handle),
        )?,
        Step::OfferOfAnother => offer_one(alloc, target, 2, 2, Kind::Change(lines(alloc)?), None)?,
        Step::OfferCreated => offer_one(alloc, target, 1, 3, Kind::Created, None)?,
        Step::Pass(handle, count) => target.pass(Handle::new(handle), count),
        Step::CatchUp(handle) => target.catch_up(Handle::new(handle)),
        Step::Close(handle) => target.close(Handle::new(handle)),
        Step::Park(handle, max) => target.park(Handle::new(handle), max),
        Step::Arm(handle, pulse) => target.arm(Handle::new(handle), pulse),
        Step::Copy => pair.other = target.copy()?,
        Step::Swap => std::mem::swap(&mut pair.target, &mut pair.other),
        _ => return Ok(false),
    }
    Ok(true)
}

/// Whether the target answers as the step says.
fn is_answered(
    alloc: Global,
    target: &mut Subscribers,
    other: &Subscribers,
    step: Step,
) -> Result<bool, Refusal> {
    Ok(match step {
        Step::Kept(count) => target.kept() == count,
        Step::Owed(handle, count) => target.owed(Handle::new(handle)) == count,
        Step::HasNews(handle, has) => target.has_news(Handle::new(handle)) == has,
        Step::IsOver(handle, is) => target.is_over(Handle::new(handle)) == is,
        Step::IsEmpty(is) => target.is_empty() == is,
        Step::Parked(handle, max) => target.parked(Handle::new(handle)) == max,
        Step::Armed(handle, pulse) => target.armed(Handle::new(handle)) == pulse,
        Step::Limit(handle, limit) => { limit_of(target.opening(Handle::new(handle))) == limit }
        Step::RefusesRoom => target.reserve(usize::MAX).is_err(),
        Step::Gives(handle, max, count, text) => gives(alloc, target, handle, max, count, text)?,
        Step::Needs(handle, max, need) => {
            target.read_owed(alloc, Handle::new(handle), max).err()
                == Some(Refusal::TooSmall { need })
        }
        Step::Wakes(handle) => wakes(alloc, target, handle)?,
        Step::Same(is) => target.same(other) == is,
        _ => false,
    })
}

/// Plays the steps in turn, of two targets that begin as this one.
fn play(rt: &impl Abort, alloc: Global, target: Subscribers, steps: &Steps) -> Result<(), Refusal> {
    let other = target.copy()?;
    let mut pair = Pair { target, other };
    for (number, step) in steps.list.iter().enumerate() {
        let is_met = is_carried_out(alloc, &mut pair, *step)?
            || is_answered(alloc, &mut pair.target, &pair.other, *step)?;
        assert_met(rt, is_met, steps.name, number);
    }
    Ok(())
}

const PULSE: Pulse = Pulse { code: 3, value: 70 };

/// Steps of an object that is read by two.
const OF_AN_OBJECT: &[Steps] = &[
    Steps {
        name: "records_are_kept_until_the_slowest_has_read_them",
        list: &[
            Step::Kept(0),
            Step::Offer(2),
            Step::Owed(4, Some(2)),
            Step::Owed(9, Some(2)),
            Step::Kept(2),
            Step::Pass(4, 2),
            Step::Owed(4, Some(0)),
            Step::Kept(2),
            Step::Pass(9, 1),
            Step::Owed(9, Some(1)),
            Step::Kept(1),
            Step::CatchUp(9),
            Step::Kept(0),
        ],
    },
    Steps {
        name: "past_its_limit_a_handle_holds_nothing",
        list: &[
            Step::Offer(3),
            Step::Owed(4, None),
            Step::Owed(9, Some(3)),
            Step::Kept(3),
            Step::Offer(1),
            Step::Owed(9, None),
            Step::Kept(0),
            Step::HasNews(4, true),
        ],
    },
    Steps {
        name: "what_a_closed_handle_was_owed_goes",
        list: &[
            Step::Offer(2),
            Step::Pass(4, 1),
            Step::Close(9),
            Step::Kept(1),
            Step::Owed(9, None),
            Step::IsEmpty(false),
            Step::Close(4),
            Step::Kept(0),
            Step::IsEmpty(true),
        ],
    },
    Steps {
        name: "records_of_others_and_its_own_are_not_owed",
        list: &[
            Step::OfferOfAnother,
            Step::Kept(0),
            Step::OfferBy(4),
            Step::Owed(4, Some(0)),
            Step::Owed(9, Some(1)),
        ],
    },
    Steps {
        name: "what_waits_on_a_handle_is_told",
        list: &[
            Step::Park(4, Some(100)),
            Step::Arm(9, Some(PULSE)),
            Step::Parked(4, Some(100)),
            Step::Parked(9, None),
            Step::Armed(9, Some(PULSE)),
            Step::Armed(4, None),
            Step::Park(4, None),
            Step::Arm(5, Some(PULSE)),
            Step::Parked(4, None),
            Step::Armed(5, None),
        ],
    },
    Steps {
        name: "the_opening_of_a_handle_is_told",
        list: &[Step::Limit(9, Some(3)), Step::Limit(5, None)],
    },
    // Room for no more is had; what there is stays.
    Steps {
        name: "refused_room_changes_nothing",
        list: &[
            Step::Offer(1),
            Step::RefusesRoom,
            Step::Owed(4, Some(1)),
            Step::Offer(1),
            Step::Owed(4, Some(2)),
        ],
    },
    Steps {
        name: "a_read_gives_whole_blocks_that_fit",
        list: &[
            Step::Offer(2),
            Step::Gives(4, 100, 2, b"@gps\na:n:1\n@gps\na:n:1\n"),
            Step::Gives(9, 21, 1, b"@gps\na:n:1\n"),
            Step::Needs(9, 10, 11),
            Step::Owed(4, Some(2)),
        ],
    },
    Steps {
        name: "nothing_owed_gives_nothing",
        list: &[Step::Gives(4, 100, 0, b""), Step::Gives(5, 100, 0, b"")],
    },
    Steps {
        name: "a_record_wakes_those_that_wait_without_news",
        list: &[
            Step::Wakes(None),
            Step::Park(9, Some(100)),
            Step::Wakes(Some(9)),
            Step::Offer(1),
            Step::Wakes(None),
        ],
    },
    Steps {
        name: "a_handle_is_over_past_its_limit",
        list: &[
            Step::Offer(2),
            Step::IsOver(4, false),
            Step::Offer(1),
            Step::IsOver(4, true),
            Step::IsOver(9, false),
            Step::IsOver(5, false),
        ],
    },
    // Two records are kept, of which the first handle has been given one.
    Steps {
        name: "a_copy_holds_the_same",
        list: &[
            Step::Offer(2),
            Step::Pass(4, 1),
            Step::Copy,
            Step::Swap,
            Step::Same(true),
            Step::Kept(2),
            Step::Owed(4, Some(1)),
        ],
    },
    // The other has had one record before, which both handles have read, so that what is kept begins at another place.
    Steps {
        name: "the_same_is_kept_wherever_it_begins",
        list: &[
            Step::Offer(2),
            Step::Pass(4, 1),
            Step::Swap,
            Step::Offer(1),
            Step::CatchUp(4),
            Step::CatchUp(9),
            Step::Same(false),
            Step::Offer(2),
            Step::Pass(4, 1),
            Step::Same(true),
            Step::Pass(9, 1),
            Step::Same(false),
        ],
    },
];

/// Steps of a directory that is read by two.
const OF_A_DIRECTORY: Steps = Steps {
    name: "a_directory_tells_its_names",
    list: &[
        Step::Offer(1),
        Step::HasNews(1, true),
        Step::HasNews(2, false),
        Step::Kept(0),
        Step::OfferCreated,
        Step::Offer(1),
        Step::Owed(2, Some(1)),
        Step::Kept(2),
        Step::Pass(2, 1),
        Step::Kept(0),
        Step::Owed(1, None),
    ],
};

#[test]
fn targets_answer_in_turn(rt: HostRuntime) -> Result<(), Fail> {
    let alloc = rt.alloc();
    for steps in OF_AN_OBJECT {
        play(&rt, alloc, read_by_two(alloc)?, steps)?;
    }
    play(&rt, alloc, directory_read_by_two(alloc)?, &OF_A_DIRECTORY)?;
    Ok(())
}

#[test]
fn an_opening_is_copied(rt: HostRuntime) -> Result<(), Fail> {
    let first = opening(4, HandleKind::Names, 2);
    let copy = first.copy()?;
    assert!(rt; copy.same(&first));
    let other = opening(4, HandleKind::Names, 3);
    assert!(rt; !copy.same(&other));
    Ok(())
}
