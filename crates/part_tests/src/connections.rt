use crate::samples::is_refused;
use notify_box::{Connections, Outbox};
use pps_types::{Conn, Handle, Item, Refusal, SharedBytes};
use std::alloc::{AllocError, Global};
use std::process::Abort;
use std::test::Fail;

/// What a late reply is.
#[derive(Clone, Copy)]
enum Reply {
    Text,
    IsRefused(Refusal),
}

/// The bytes of `Reply::Text`.
const TEXT: &[u8] = b"@gps\nspeed::5\n";

/// What is queued for a connection.
#[derive(Clone, Copy)]
enum Sent {
    Nothing,
    /// A pulse of that value.
    Pulse(u32),
    /// The late reply to the read of a handle.
    ReadDone(u32, Reply),
}

/// What changes a connection, or one of its handles.
#[derive(Clone, Copy)]
enum Change {
    /// Attaches the connection, unless it is attached.
    Attach,
    Leave,
    /// Opens the handle, unless it is not above all others of the connection.
    Open,
    Close,
    /// Arms a pulse whose value is the handle's number.
    Arm,
    Disarm,
    Fire,
    Park,
    /// Ends the parking, if a read is parked there.
    Finish(Reply),
    EndParked,
}

/// What is seen of a connection, or of one of its handles.
#[derive(Clone, Copy)]
enum Seen {
    Attached(bool),
    Parked(bool),
    /// Whether a handle of that number may be opened.
    Above(bool),
    /// The numbers of all its handles. Where there are fewer, 0 comes instead.
    Handles(u32, u32, u32),
    /// What is first in its queue.
    First(Sent),
    /// How many connections there are.
    Len(usize),
}

/// A step, with what it must answer.
#[derive(Clone, Copy)]
enum Step {
    Does(Change),
    IsRefused(Change, Refusal),
    Sees(Seen),
    /// What is taken from its queue.
    Takes(Sent),
}

use Change::{Arm, Attach, Close, Disarm, EndParked, Finish, Fire, Leave, Open, Park};
use Seen::{Above, Attached, First, Handles, Len, Parked};
use Step::{Does, IsRefused, Sees, Takes};

/// A connection, one of its handles, and what is done there. Where the step is of no handle, that is 0.
type Row = (u16, u32, Step);

fn attach(connections: &mut Connections, alloc: Global, conn: Conn) -> Result<(), Refusal> {
    let outbox = Outbox::new(alloc)?;
    connections.attach_ready()?;
    if !connections.is_attached(conn) {
        connections.attach(conn, outbox);
    }
    Ok(())
}

fn open(connections: &mut Connections, conn: Conn, handle: Handle) -> Result<(), Refusal> {
    connections.open_ready(conn)?;
    if connections.is_above_handles(conn, handle) {
        connections.opened(conn, handle);
    }
    Ok(())
}

fn arm(connections: &mut Connections, conn: Conn, handle: Handle) -> Result<(), Refusal> {
    connections.arm_ready(conn, handle)?;
    connections.arm(conn, handle, 0, handle.number());
    Ok(())
}

fn park(connections: &mut Connections, conn: Conn, handle: Handle) -> Result<(), Refusal> {
    connections.park_ready(conn, handle)?;
    connections.park(conn, handle);
    Ok(())
}

fn reply_of(alloc: Global, reply: Reply) -> Result<Result<SharedBytes, Refusal>, AllocError> {
    match reply {
        Reply::Text => Ok(Ok(SharedBytes::new(alloc, Vec::from_slice(alloc, TEXT)?)?)),
        Reply::IsRefused(refusal) => Ok(Err(refusal)),
    }
}

fn finish(
    connections: &mut Connections,
    alloc: Global,
    conn: Conn,
    handle: Handle,
    reply: Reply,
) -> Result<(), Refusal> {
    let reply = reply_of(alloc, reply)?;
    if connections.is_parked(conn, handle) {
        connections.finish(conn, handle, reply);
    }
    Ok(())
}

fn carry_out(
    connections: &mut Connections,
    alloc: Global,
    conn: Conn,
    handle: Handle,
    change: Change,
) -> Result<(), Refusal> {
    match change {
        Attach => attach(connections, alloc, conn)?,
        Leave => connections.leave(conn),
        Open => open(connections, conn, handle)?,
        Close => connections.closed(conn, handle),
        Arm => arm(connections, conn, handle)?,
        Disarm => connections.disarm(conn, handle),
        Fire => connections.fire(conn, handle),
        Park => park(connections, conn, handle)?,
        Finish(reply) => finish(connections, alloc, conn, handle, reply)?,
        EndParked => connections.end_parked(conn, handle),
    }
    Ok(())
}

fn has_handles(handles: &[Handle], numbers: [u32; 3]) -> bool {
    let wanted = numbers.iter().copied().filter(|number| *number != 0);
    handles.iter().map(|handle| handle.number()).eq(wanted)
}

fn is_reply(given: &Result<SharedBytes, Refusal>, reply: Reply) -> bool {
    match (given, reply) {
        (Ok(bytes), Reply::Text) => bytes.as_slice() == TEXT,
        (Err(refusal), Reply::IsRefused(wanted)) => *refusal == wanted,
        _ => false,
    }
}

fn is_sent(item: Option<&Item>, sent: Sent) -> bool {
    match (item, sent) {
        (None, Sent::Nothing) => true,
        (Some(Item::Pulse { code, value }), Sent::Pulse(wanted)) => *code == 0 && *value == wanted,
        (Some(Item::ReadDone { handle, result }), Sent::ReadDone(number, reply)) => {
            handle.number() == number && is_reply(result, reply)
        }
        _ => false,
    }
}

fn holds(connections: &Connections, conn: Conn, handle: Handle, seen: Seen) -> bool {
    match seen {
        Attached(is) => connections.is_attached(conn) == is,
        Parked(is) => connections.is_parked(conn, handle) == is,
        Above(is) => connections.is_above_handles(conn, handle) == is,
        Handles(first, second, third) => {
            has_handles(connections.handles_of(conn), [first, second, third])
        }
        First(sent) => is_sent(connections.first(conn), sent),
        Len(len) => connections.len() == len && connections.is_empty() == (len == 0),
    }
}

fn take(connections: &mut Connections, conn: Conn) -> Option<Item> {
    connections.take(conn)
}

/// Whether a step answers as it must.
fn is_played(
    connections: &mut Connections,
    alloc: Global,
    conn: Conn,
    handle: Handle,
    step: Step,
) -> Result<bool, Refusal> {
    match step {
        Does(done) => {
            carry_out(connections, alloc, conn, handle, done)?;
            Ok(true)
        }
        IsRefused(done, refusal) => {
            is_refused(carry_out(connections, alloc, conn, handle, done), refusal)
        }
        Sees(seen) => Ok(holds(connections, conn, handle, seen)),
        Takes(sent) => Ok(is_sent(take(connections, conn).as_ref(), sent)),
    }
}

fn play(
    rt: &impl Abort,
    alloc: Global,
    connections: &mut Connections,
    rows: &[Row],
) -> Result<(), Refusal> {
    for (place, (conn, handle, step)) in rows.iter().enumerate() {
        let conn = Conn::new(*conn);
        let handle = Handle::new(*handle);
        assert!(rt;
            is_played(connections, alloc, conn, handle, *step)?,
            "step {place}"
        );
    }
    Ok(())
}

const ATTACHING_AND_LEAVING: [Row; 29] = [
    (5, 0, Does(Attach)),
    (1, 0, Does(Attach)),
    (1_024, 0, Does(Attach)),
    (3, 0, Does(Attach)),
    (3, 8, Does(Open)),
    (3, 8, Does(Arm)),
    (3, 8, Does(Fire)),
    (0, 0, Sees(Len(4))),
    (1, 0, Does(Leave)),
    (1, 0, Sees(Attached(false))),
    (7, 0, Does(Leave)),
    (7, 0, Sees(Attached(false))),
    (3, 0, Does(Leave)),
    (3, 0, Sees(Attached(false))),
    (1, 0, Does(Leave)),
    (1, 0, Sees(Attached(false))),
    (0, 0, Sees(Len(2))),
    (5, 0, Sees(Attached(true))),
    (1_024, 0, Sees(Attached(true))),
    (3, 0, Does(Attach)),
    (3, 0, Sees(First(Sent::Nothing))),
    (3, 0, Sees(Handles(0, 0, 0))),
    (0, 0, Sees(Len(3))),
    (5, 0, Does(Leave)),
    (0, 0, Sees(Len(2))),
    (3, 0, Does(Leave)),
    (0, 0, Sees(Len(1))),
    (1_024, 0, Does(Leave)),
    (0, 0, Sees(Len(0))),
];

const OPENING_AND_CLOSING: [Row; 23] = [
    (2, 0, Does(Attach)),
    (1, 0, Does(Attach)),
    (1, 2, Does(Open)),
    (2, 3, Does(Open)),
    (1, 5, Does(Open)),
    (1, 5, Does(Open)),
    (1, 4, Does(Open)),
    (2, 7, Does(Open)),
    (1, 9, Does(Open)),
    (3, 11, Does(Open)),
    (1, 0, Sees(Handles(2, 5, 9))),
    (2, 0, Sees(Handles(3, 7, 0))),
    (3, 0, Sees(Handles(0, 0, 0))),
    (1, 5, Does(Close)),
    (2, 5, Does(Close)),
    (1, 5, Does(Close)),
    (3, 5, Does(Close)),
    (2, 3, Does(Close)),
    (1, 0, Sees(Handles(2, 9, 0))),
    (2, 0, Sees(Handles(7, 0, 0))),
    (1, 9, Sees(Above(false))),
    (1, 10, Sees(Above(true))),
    (3, 1, Sees(Above(true))),
];

const EACH_HAS_ITS_OWN: [Row; 19] = [
    (4, 0, Does(Attach)),
    (9, 0, Does(Attach)),
    (4, 1, Does(Arm)),
    (9, 2, Does(Arm)),
    (4, 1, Does(Park)),
    (4, 1, IsRefused(Park, Refusal::ReadPending)),
    (9, 1, Does(Park)),
    (4, 1, Does(Fire)),
    (4, 2, Does(Fire)),
    (4, 1, Does(Finish(Reply::Text))),
    (9, 2, Does(Disarm)),
    (9, 2, Does(Fire)),
    (9, 1, Sees(Parked(true))),
    (4, 1, Sees(Parked(false))),
    (9, 0, Sees(First(Sent::Nothing))),
    (4, 0, Sees(First(Sent::Pulse(1)))),
    (4, 0, Takes(Sent::Pulse(1))),
    (4, 0, Takes(Sent::ReadDone(1, Reply::Text))),
    (4, 0, Takes(Sent::Nothing)),
];

const CLOSING_A_PARKED_READ: [Row; 14] = [
    (6, 0, Does(Attach)),
    (6, 3, Does(Open)),
    (6, 3, Does(Arm)),
    (6, 3, Does(Park)),
    (6, 3, Does(Close)),
    (6, 3, Does(Disarm)),
    (6, 3, Does(EndParked)),
    (6, 3, Does(Close)),
    (6, 3, Does(Disarm)),
    (6, 3, Does(EndParked)),
    (6, 3, Does(Fire)),
    (6, 0, Sees(Handles(0, 0, 0))),
    (
        6,
        0,
        Takes(Sent::ReadDone(3, Reply::IsRefused(Refusal::BadHandle))),
    ),
    (6, 0, Takes(Sent::Nothing)),
];

/// Plays rows on new connections.
fn play_new(rt: &impl Abort, alloc: Global, rows: &[Row]) -> Result<(), Refusal> {
    let mut connections = Connections::new(alloc);
    play(rt, alloc, &mut connections, rows)
}

#[test]
fn connections_have_handles_and_queues(rt: HostRuntime) -> Result<(), Fail> {
    play_new(&rt, rt.alloc(), &ATTACHING_AND_LEAVING)?;
    play_new(&rt, rt.alloc(), &OPENING_AND_CLOSING)?;
    play_new(&rt, rt.alloc(), &EACH_HAS_ITS_OWN)?;
    play_new(&rt, rt.alloc(), &CLOSING_A_PARKED_READ)?;
    Ok(())
}

const BESIDE_A_FULL_OUTBOX: [Row; 6] = [
    (2, 1_024, IsRefused(Arm, Refusal::OutboxFull)),
    (2, 0, IsRefused(Park, Refusal::OutboxFull)),
    (2, 0, Does(Arm)),
    (1, 1_024, Does(Arm)),
    (2, 0, Does(Disarm)),
    (2, 0, Does(Park)),
];

#[test]
fn full_outbox(rt: HostRuntime) -> Result<(), Fail> {
    let mut connections = Connections::new(rt.alloc());
    let attaching = [(1, 0, Does(Attach)), (2, 0, Does(Attach))];
    play(&rt, rt.alloc(), &mut connections, &attaching)?;
    for handle in 0..1_024 {
        let arming = [(2, handle, Does(Arm))];
        play(&rt, rt.alloc(), &mut connections, &arming)?;
    }
    play(&rt, rt.alloc(), &mut connections, &BESIDE_A_FULL_OUTBOX)?;
    Ok(())
}

/// Steps of connections, or of their copy, and whether both are the same after them.
type Stage<'a> = (bool, &'a [Row], bool);

/// Plays rows, copies the connections, and plays the stages on them and their copy.
fn compare(rt: &impl Abort, alloc: Global, begin: &[Row], stages: &[Stage]) -> Result<(), Refusal> {
    let mut connections = Connections::new(alloc);
    play(rt, alloc, &mut connections, begin)?;
    let mut copy = connections.copy()?;
    assert!(rt; copy.same(&connections));
    for (is_copy, rows, are_same) in stages {
        if *is_copy {
            play(rt, alloc, &mut copy, rows)?;
        } else {
            play(rt, alloc, &mut connections, rows)?;
        }
        assert_eq!(rt; copy.same(&connections), *are_same);
    }
    Ok(())
}

const COPIED: [Row; 3] = [
    (7, 0, Does(Attach)),
    (2, 0, Does(Attach)),
    (7, 1, Does(Open)),
];

const OPENED: [Row; 1] = [(7, 2, Does(Open))];

const CLOSED: [Row; 1] = [(7, 2, Does(Close))];

const ARMED: [Row; 1] = [(2, 5, Does(Arm))];

const ARMED_AND_PARKED: [Row; 2] = [(2, 5, Does(Arm)), (7, 5, Does(Park))];

const FINISHED_AND_TAKEN: [Row; 2] = [
    (7, 5, Does(Finish(Reply::IsRefused(Refusal::Gone)))),
    (
        7,
        0,
        Takes(Sent::ReadDone(5, Reply::IsRefused(Refusal::Gone))),
    ),
];

const LEFT: [Row; 1] = [(2, 0, Does(Leave))];

const TWO: [Row; 2] = [(1, 0, Does(Attach)), (3, 0, Does(Attach))];

/// Steps of a connection that is not attached, between two that are.
const NOT_ATTACHED: [Row; 8] = [
    (2, 1, Does(Open)),
    (2, 1, Does(Arm)),
    (2, 1, Does(Park)),
    (2, 1, Does(Fire)),
    (2, 1, Does(Finish(Reply::IsRefused(Refusal::Gone)))),
    (2, 1, Does(EndParked)),
    (2, 0, Does(Leave)),
    (2, 0, Takes(Sent::Nothing)),
];

#[test]
fn copies_are_compared(rt: HostRuntime) -> Result<(), Fail> {
    let stages: [Stage; 6] = [
        (false, &OPENED, false),
        (false, &CLOSED, true),
        (false, &ARMED, false),
        (true, &ARMED_AND_PARKED, false),
        (true, &FINISHED_AND_TAKEN, true),
        (true, &LEFT, false),
    ];
    compare(&rt, rt.alloc(), &COPIED, &stages)?;
    compare(&rt, rt.alloc(), &TWO, &[(false, &NOT_ATTACHED, true)])?;
    Ok(())
}
