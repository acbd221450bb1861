//! A handle that records wake, and what it is told of its target.
ghost use Rattle.std.specs.Prelude.{◌≡◌};
ghost use Rattle.whole_texts.specs.Woken.{waiting_on};

use crate::member::Member;
use server_queue::Entry;
use std::marker::Model;
use sub_reader::{Opening, Pulse};

/// A handle that records wake: the number of the object or directory that it is on, what its open fixed, the size of the
/// read that waits on it, and the pulse that does.
#[derive(Drop)]
pub struct Woken<'a> {
    pub(crate) target: u64,
    pub(crate) opening: &'a Opening,
    pub(crate) parked: Option<u32>,
    pub(crate) armed: Option<Pulse>,
}

impl<'a> Model for Woken<'a> {
    ghost use Rattle.whole_texts.specs.Woken.{Waiting};

    ghost Value = { Waiting };

    ghost view = { λ w. record { target = w.target; opening = w.opening.now; parked = w.parked; armed = w.armed } };
}

impl<'a> Woken<'a> {
    /// All that a handle is told by. It takes no memory.
    pub fn new(
        target: u64,
        opening: &'a Opening,
        parked: Option<u32>,
        armed: Option<Pulse>,
    ) -> Woken<'a>
        ensures { result ≡ waiting_on target opening.now parked armed }
    {
        Woken {
            target,
            opening,
            parked,
            armed,
        }
    }
}

/// What a handle is told of its target: an event's records, and whether it is alive and which members it has behind
/// them. An object, a dead one too, is its own one member; a directory's are its alive objects in byte order of names.
/// Where the late reply is not everything, only the records are looked at.
#[derive(Drop)]
pub struct TargetAfter<'a> {
    pub(crate) entries: &'a [Entry],
    pub(crate) alive: bool,
    pub(crate) members: &'a [Member<'a>],
}

impl<'a> Model for TargetAfter<'a> {
    ghost use Rattle.whole_texts.specs.Woken.{Behind};

    ghost Value = { Behind };

    ghost view = { λ t. record { entries = t.entries.now; alive = t.alive; members = t.members.now } };
}

impl<'a> TargetAfter<'a> {
    /// All that a handle is told. It takes no memory.
    pub fn new(entries: &'a [Entry], alive: bool, members: &'a [Member<'a>]) -> TargetAfter<'a>
        ensures { result ≡ record { entries = entries.now; alive = alive; members = members.now } }
    {
        TargetAfter {
            entries,
            alive,
            members,
        }
    }
}
