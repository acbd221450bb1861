//! Sessions that are served, and the histories that come of it.
ghost use Rattle.std.specs.Prelude.{◌≤◌};

use crate::gates::Passed::{Entered, Left};
use crate::gates::{Hold, Order};
use crate::sessions::Deed::{List, Publish, Subscribe};
use crate::sessions::{Deed, sessions};
use pps_dispatch::{Served, distinct, serve};
use pps_engine::Engine;
use pps_types::Refusal;
use std::alloc::Global;
use std::process::Abort;
use std::rt::Clock;
use std::sync::Wait;
use std::test::Fail;
use std::thread::Threads;

const PUBLISHED: &[u8] =
    b"\0\0\0\x03\0\x01\x01\0\0\0\x07\0\x01\x02\0\0\0\x01\0\0\0\x07\0\x01\x04\0\0\0\x0b";

const RECEIVED: &[u8] =
    b"\0\0\0\x03\0\x02\x01\0\0\0\x07\0\x02\x02\0\0\0\x02\0\0\0\x08\0\x02\x03@gps\n\0\0\0\x04\0\x02\x06\0\0\0\0\x08\0\x02\x07\x05\0\0\0\x4d\0\0\0\x13\0\x02\x03@gps\nspeed:n:65\n";

// How many entries the segments have together.
fn entries(served: &Served) -> usize {
    let mut count = 0_usize;
    for segment in &served.segments {
        count = count.saturating_add(segment.entries().len());
    }
    count
}

// How many segments have so many entries.
fn full(served: &Served, limit: usize) -> usize {
    let mut count = 0_usize;
    for segment in &served.segments {
        if segment.entries().len() == limit {
            count = count.saturating_add(1);
        }
    }
    count
}

// The frames that the session in that place was answered with.
fn replies(served: &Served, place: usize) -> &[u8] {
    match served.sessions.get(place) {
        None => &[],
        Some(session) => session.replies(),
    }
}

// How many receipts it has.
fn receipt_count(served: &Served, place: usize) -> usize {
    match served.sessions.get(place) {
        None => 0,
        Some(session) => session.receipts().len(),
    }
}

// What is seen once sessions are served, beside the bytes that are given with it.
#[derive(Clone, Copy)]
enum Seen {
    // How many entries the segments have together.
    Entries(usize),
    // How many segments there are.
    Segments(usize),
    // At least so many segments have so many entries.
    Full(usize, usize),
    // How many sessions there are.
    Sessions(usize),
    // The session in that place was answered with these frames.
    Replies(usize),
    // How many bytes they have.
    ReplyLen(usize, usize),
    // How many receipts the session in that place has.
    Receipts(usize, usize),
    // So many messages of a connection have entered the gate, and as many have left.
    Advances(u16, u64),
}

use Seen::{Advances, Entries, Full, Receipts, Replies, ReplyLen, Segments, Sessions};

fn holds<R: Clock + Drop>(served: &Served, gate: &Order<R>, seen: Seen, bytes: &[u8]) -> bool {
    match seen {
        Entries(count) => entries(served) == count,
        Segments(count) => served.segments.len() == count,
        Full(least, limit) => full(served, limit) >= least,
        Sessions(count) => served.sessions.len() == count,
        Replies(place) => replies(served, place) == bytes,
        ReplyLen(place, len) => replies(served, place).len() == len,
        Receipts(place, count) => receipt_count(served, place) == count,
        Advances(conn, count) => gate.has_seen(conn, count),
    }
}

// A publisher and a subscriber that wait for each other.
const WAITS: [Hold; 3] = [
    Hold((2, 2), Left, (1, 2)),
    Hold((1, 3), Left, (2, 4)),
    Hold((2, 5), Left, (1, 3)),
];

const PUBLISHED_AND_RECEIVED: [(Seen, &[u8]); 7] = [
    (Entries(9), b""),
    (Full(4, 2), b""),
    (Sessions(2), b""),
    (Replies(0), PUBLISHED),
    (Replies(1), RECEIVED),
    (Receipts(0, 3), b""),
    (Receipts(1, 6), b""),
];

const IN_ONE_SEGMENT: [(Seen, &[u8]); 4] = [
    (Segments(1), b""),
    (Full(1, 9), b""),
    (Replies(0), PUBLISHED),
    (Replies(1), RECEIVED),
];

const OF_THREE_SESSIONS: [(Seen, &[u8]); 11] = [
    (Entries(9), b""),
    (Sessions(3), b""),
    (ReplyLen(0, 21), b""),
    (ReplyLen(1, 21), b""),
    (ReplyLen(2, 21), b""),
    (Receipts(0, 3), b""),
    (Receipts(1, 3), b""),
    (Receipts(2, 3), b""),
    (Advances(1, 3), b""),
    (Advances(2, 3), b""),
    (Advances(3, 3), b""),
];

// Each of two workers waits until the other has taken a message.
const EACH_WAITS: [Hold; 2] = [Hold((1, 1), Entered, (2, 1)), Hold((2, 1), Entered, (1, 1))];

const OF_TWO_WORKERS: [(Seen, &[u8]); 4] = [
    (Advances(1, 1), b""),
    (Advances(2, 1), b""),
    (Replies(0), b"\0\0\0\x03\0\x01\x01"),
    (Replies(1), b"\0\0\0\x03\0\x02\x01"),
];

// While one worker waits, the other serves both other sessions.
const ONE_WAITS: [Hold; 2] = [Hold((1, 1), Left, (2, 2)), Hold((1, 1), Left, (3, 2))];

const OF_ONE_WORKER: [(Seen, &[u8]); 3] = [
    (ReplyLen(0, 7), b""),
    (ReplyLen(1, 14), b""),
    (ReplyLen(2, 14), b""),
];

fn check<R: Clock + Drop>(
    rt: &impl Abort,
    served: &Served,
    gate: &Order<R>,
    seen: &[(Seen, &[u8])],
) {
    assert!(rt; !gate.is_late());
    for (place, (seen, bytes)) in seen.iter().enumerate() {
        assert!(rt; holds(served, gate, *seen, bytes), "{place}");
    }
}

fn is_same(served: &Served, engine: &Engine) -> bool {
    served.engine.same(engine)
}

// Serves sessions that do this. Some of their messages are held at a gate until others have come so far.
fn play<R: Abort + Threads + Wait + Sync, C: Clock + Drop + Sync>(
    rt: &R,
    alloc: Global,
    gate: &Order<C>,
    workers: usize,
    limit: usize,
    deeds: &[Deed],
    seen: &[(Seen, &[u8])],
) -> Result<(), Refusal>
    requires workers { (1 ≤ workers) × (workers ≤ 8) }
    requires limit { (1 ≤ limit) × (limit ≤ 65536) }
{
    let sessions = sessions(alloc, deeds)?;
    let engine = Engine::new(alloc)?;
    let before = engine.copy()?;
    assert!(rt; distinct(&sessions));
    let Ok(served) = serve(rt, alloc, engine, sessions, workers, limit, gate) else {
        panic!(rt; "served");
    };
    check(rt, &served, gate, seen);
    assert_eq!(rt; is_same(&served, &before), deeds.is_empty());
    Ok(())
}

#[test]
fn sessions_are_served(rt: HostRuntime) -> Result<(), Fail> {
    let alloc = rt.alloc();
    let two = [Publish, Subscribe];
    let gate = Order::new(alloc, rt.clone().unwrap(), &WAITS)?;
    play(&rt, alloc, &gate, 2, 2, &two, &PUBLISHED_AND_RECEIVED)?;
    let gate = Order::new(alloc, rt.clone().unwrap(), &WAITS)?;
    play(&rt, alloc, &gate, 2, 9, &two, &IN_ONE_SEGMENT)?;
    let gate = Order::new(alloc, rt.clone().unwrap(), &[])?;
    let three = [List(1, 2), List(2, 2), List(3, 2)];
    play(&rt, alloc, &gate, 2, 2, &three, &OF_THREE_SESSIONS)?;
    let gate = Order::new(alloc, rt.clone().unwrap(), &EACH_WAITS)?;
    let two = [List(1, 0), List(2, 0)];
    play(&rt, alloc, &gate, 2, 2, &two, &OF_TWO_WORKERS)?;
    let gate = Order::new(alloc, rt.clone().unwrap(), &ONE_WAITS)?;
    let three = [List(1, 0), List(2, 1), List(3, 1)];
    play(&rt, alloc, &gate, 2, 2, &three, &OF_ONE_WORKER)?;
    let gate = Order::new(alloc, rt.clone().unwrap(), &[])?;
    play(&rt, alloc, &gate, 8, 1, &[], &[(Entries(0), b"")])?;
    Ok(())
}
