use crate::samples::{one_line, set_line};
use object_state::Object;
use open_options::HandleOptions;
use pps_types::{Bytes, Conn, Handle, HandleKind, HeldLine, Kind, ObjId, Record, Refusal};
use server_queue::Entry;
use std::alloc::Global;
use std::process::Abort;
use std::test::Fail;
use sub_reader::{Opening, Pulse};
use whole_texts::{
    Following, Member, Reply, TargetAfter, Woken, follow, gives_everything, late_answer,
};

/// What an open without options fixes for handle 4 of connection 2, which may be owed 2 records.
fn opening(kind: HandleKind) -> Opening {
    let mut options = HandleOptions::new();
    options.wait = true;
    Opening {
        number: Handle::new(4),
        connection: Conn::new(2),
        kind,
        reads: true,
        writes: false,
        options,
        limit: 2,
    }
}

/// A line that sets an attribute to a number.
fn line(alloc: Global) -> Result<HeldLine, Refusal> {
    set_line(alloc, b"a", b"n", b"1", false)
}

/// A change of object 1 by the handle of that number.
fn change(alloc: Global, writer: u32) -> Result<Entry, Refusal> {
    let made = Record {
        object: ObjId::new(1),
        kind: Kind::Change(one_line(alloc, line(alloc)?)?),
        writer: Some(Handle::new(writer)),
    };
    Ok(Entry::new(alloc, 7, Bytes::from_slice(alloc, b"gps")?, made)?)
}

/// The late reply to a read of that size by handle 4 on object 1, behind two changes, one by the handle itself.
fn reply(alloc: Global, kind: HandleKind, size: u32) -> Result<Reply, Refusal> {
    let mut object = Object::new(alloc);
    object.apply(&[line(alloc)?])?;
    let members = [Member::alive(b"gps", &object)];
    let entries = [change(alloc, 9)?, change(alloc, 4)?];
    let told = TargetAfter::new(&entries, true, &members);
    late_answer(alloc, 1, &opening(kind), &told, size)
}

/// What a late reply has to be.
#[derive(Clone, Copy)]
enum Wanted {
    /// Blocks of so many records.
    Blocks(usize, &'static [u8]),
    Everything(&'static [u8]),
    /// The read needs so many bytes.
    Needs(u32),
    Waits,
}

/// Whether it is that.
fn is_wanted(reply: &Reply, wanted: Wanted) -> bool {
    match (reply, wanted) {
        (Reply::Blocks { count, text }, Wanted::Blocks(records, blocks)) => {
            *count == records && text.as_slice() == blocks
        }
        (Reply::Everything(text), Wanted::Everything(everything)) => text.as_slice() == everything,
        (Reply::TooSmall { need }, Wanted::Needs(size)) => *need == size,
        (Reply::Waits, Wanted::Waits) => true,
        _ => false,
    }
}

/// A kind of handle, the size of a read by it, and its late reply.
const REPLIES: &[(HandleKind, u32, Wanted)] = &[
    // a_delta_handle_is_given_a_block
    (
        HandleKind::Object { delta: true },
        11,
        Wanted::Blocks(1, b"@gps\na:n:1\n"),
    ),
    // a_full_handle_is_given_everything
    (
        HandleKind::Object { delta: false },
        11,
        Wanted::Everything(b"@gps\na:n:1\n"),
    ),
    // a_read_is_too_small
    (HandleKind::Object { delta: true }, 10, Wanted::Needs(11)),
    (HandleKind::Object { delta: false }, 10, Wanted::Needs(11)),
    // what_is_not_seen_is_not_given
    (HandleKind::Names, 100, Wanted::Waits),
];

#[test]
fn late_replies_are_as_wanted(rt: HostRuntime) -> Result<(), Fail> {
    for (kind, size, wanted) in REPLIES {
        let reply = reply(rt.alloc(), *kind, *size)?;
        assert!(rt; is_wanted(&reply, *wanted), "{kind:?} with {size}");
    }
    Ok(())
}

/// Three changes of object 1 by others.
fn three_changes(alloc: Global) -> Result<[Entry; 3], Refusal> {
    Ok([change(alloc, 9)?, change(alloc, 9)?, change(alloc, 5)?])
}

#[test]
fn more_than_the_limit_is_everything(rt: HostRuntime) -> Result<(), Fail> {
    let alloc = rt.alloc();
    let entries = three_changes(alloc)?;
    let opening = opening(HandleKind::Object { delta: true });
    assert!(rt; !gives_everything(1, &opening, &entries[..2]));
    assert!(rt; gives_everything(1, &opening, &entries));
    let object = Object::new(alloc);
    let members = [Member::alive(b"gps", &object)];
    let told = TargetAfter::new(&entries, true, &members);
    let reply = late_answer(alloc, 1, &opening, &told, 100)?;
    assert!(rt; is_wanted(&reply, Wanted::Everything(b"!@gps\n")));
    Ok(())
}

/// What has to follow for a handle.
#[derive(Clone, Copy)]
enum Next {
    /// A pulse of that value.
    Fires(u32),
    /// So many records are given.
    Advances(usize),
    /// A late reply of so many bytes.
    Ends(usize),
    /// A late reply which says that the read needs so many bytes.
    Needs(u32),
}

/// Whether that follows.
fn is_next(following: &Following, next: Next) -> bool {
    match (following, next) {
        (Following::Fires { pulse, .. }, Next::Fires(value)) => pulse.value == value,
        (Following::Advances { count, .. }, Next::Advances(records)) => *count == records,
        (Following::Ends { result, .. }, Next::Ends(len)) => match result {
            Ok(text) => text.as_slice().len() == len,
            Err(_) => false,
        },
        (Following::Ends { result, .. }, Next::Needs(need)) => match result {
            Ok(_) => false,
            Err(refusal) => *refusal == Refusal::TooSmall { need },
        },
        _ => false,
    }
}

/// After these records, this follows for a handle with a read of that size and that pulse.
fn assert_follows(
    rt: &impl Abort,
    alloc: Global,
    entries: &[Entry],
    parked: u32,
    armed: Option<Pulse>,
    wanted: &[Next],
) -> Result<(), Refusal> {
    let opening = opening(HandleKind::Object { delta: true });
    let woken = Woken::new(1, &opening, Some(parked), armed);
    let told = TargetAfter::new(entries, true, &[]);
    let mut changes = Vec::new(alloc);
    follow(alloc, &mut changes, &woken, &told)?;
    assert_eq!(rt; changes.len(), wanted.len());
    for (following, next) in changes.iter().zip(wanted) {
        assert!(rt; is_next(following, *next), "with {parked}");
    }
    Ok(())
}

/// A pulse comes before its reply, and a late reply may be too small.
#[test]
fn pulses_and_replies_follow(rt: HostRuntime) -> Result<(), Fail> {
    let entries = three_changes(rt.alloc())?;
    // a_pulse_comes_before_its_reply
    let pulse = Pulse { code: 3, value: 8 };
    let all = [Next::Fires(8), Next::Advances(2), Next::Ends(22)];
    assert_follows(&rt, rt.alloc(), &entries[..2], 30, Some(pulse), &all)?;
    // a_late_reply_may_be_too_small
    assert_follows(&rt, rt.alloc(), &entries[..1], 5, None, &[Next::Needs(11)])?;
    Ok(())
}
