//! Gates that hold messages until others have come so far.

use pps_dispatch::Gate;
use pps_types::Conn;
use std::alloc::{AllocError, Global};
use std::rt::Clock;
use std::sync::atomic::AtomicU64;
use std::sync::atomic::Ordering::SeqCst;
use std::thread;
use std::time::Duration;

/// How often a gate looks, with a millisecond between two looks.
const LOOKS: u32 = 10_000;

/// What messages of another session have to have done.
#[derive(Clone, Copy, PartialEq, Eq)]
pub(crate) enum Passed {
    /// They are about to be served.
    Entered,
    /// They have their answers.
    Left,
}

/// A message, by its connection and its place there, is held until so many messages of another connection have passed.
#[derive(Clone, Copy)]
pub(crate) struct Hold(
    pub(crate) (u16, u64),
    pub(crate) Passed,
    pub(crate) (u16, u64),
);

// How many messages have passed, of three sessions.
#[derive(Drop)]
struct Counts {
    first: AtomicU64,
    second: AtomicU64,
    third: AtomicU64,
}

impl Counts {
    fn new() -> Counts {
        Counts {
            first: AtomicU64::new(0),
            second: AtomicU64::new(0),
            third: AtomicU64::new(0),
        }
    }

    fn of(&self, conn: u16) -> &AtomicU64 {
        match conn {
            1 => &self.first,
            2 => &self.second,
            _ => &self.third,
        }
    }
}

/// Holds messages, and counts those that pass. `is_late` says whether it has waited in vain.
#[derive(Drop)]
pub(crate) struct Order<R: Clock + Drop> {
    rt: R,
    holds: Vec<Hold>,
    entered: Counts,
    left: Counts,
    late: AtomicU64,
}

impl<R: Clock + Drop> Order<R> {
    pub(crate) fn new(alloc: Global, rt: R, holds: &[Hold]) -> Result<Order<R>, AllocError> {
        Ok(Order {
            rt,
            holds: Vec::from_slice(alloc, holds)?,
            entered: Counts::new(),
            left: Counts::new(),
            late: AtomicU64::new(0),
        })
    }

    fn has_passed(&self, hold: &Hold) -> bool {
        let counts = match hold.1 {
            Passed::Entered => &self.entered,
            Passed::Left => &self.left,
        };
        counts.of(hold.2.0).load(SeqCst) >= hold.2.1
    }

    fn wait(&self, hold: &Hold) {
        for _ in 0..LOOKS {
            if self.has_passed(hold) {
                return;
            }
            thread::sleep(&self.rt, Duration::from_millis(1));
        }
        self.late.store(1, SeqCst);
    }

    /// Whether a message was let go without what it was held for.
    pub(crate) fn is_late(&self) -> bool {
        self.late.load(SeqCst) != 0
    }

    /// Whether so many messages of the session have entered, and as many have left.
    pub(crate) fn has_seen(&self, conn: u16, count: u64) -> bool {
        self.entered.of(conn).load(SeqCst) == count && self.left.of(conn).load(SeqCst) == count
    }
}

impl<R: Clock + Drop> Gate for Order<R> {
    fn at_once(&self) -> usize {
        1
    }

    fn enter(&self, conn: Conn, first: u64, _last: u64) {
        self.entered.of(conn.number()).fetch_add(1, SeqCst);
        for hold in &self.holds {
            if hold.0.0 == conn.number() && hold.0.1 == first {
                self.wait(hold);
            }
        }
    }

    fn leave(&self, conn: Conn, _first: u64, _last: u64) {
        self.left.of(conn.number()).fetch_add(1, SeqCst);
    }
}
