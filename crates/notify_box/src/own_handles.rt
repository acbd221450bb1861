//! The open handles of one connection.
ghost use Rattle.std.specs.Prelude.{◌≡◌, ◌↔◌, ◌+◌, ◌<◌, ◌≤◌, ◌++◌, ◌∷◌, [], ℕ, length, drop, IsTrue, IfOk, OnOk, OnErr, vec_len, vec_capacity};
ghost use Rattle.pps_types.specs.Rising.{IsRising};
ghost use Rattle.notify_box.specs.OwnHandles.{AreClosed};
ghost use Rattle.notify_box.specs.Standing.{without_handle};

use crate::rising::search;
use pps_types::{Handle, drop_front};
use std::alloc::{AllocError, Global};
use std::marker::Model;

/// How many places of closed handles may be left, besides as many as there are open ones.
const SPARE_PLACES: usize = 16;

/// The open handles of one connection, in rising number.
///
/// The first one leaves its place when it closes, and the others stay where they are. These places are dropped when they are
/// more than the open handles and 16. So handles that close in rising order, as at a Detach, cost a search each.
#[derive(Drop)]
pub(crate) struct OwnHandles {
    places: Vec<Handle>,
    /// How many places at the front are of closed handles.
    closed: usize,
}

impl Model for OwnHandles {
    ghost use Rattle.std.specs.Prelude.{◌-◌, drop, vec_len, vec_capacity};
    ghost use Rattle.notify_box.specs.OwnHandles.{Owned, AreClosed};

    ghost Value = { Owned };

    ghost view = { λ o. record {
      handles = drop o.closed o.places.items;
      room = vec_capacity o.places - vec_len o.places;
    } };

    ghost invariant = { λ o. AreClosed o.closed o.places.items };
}

// Whether both are the same handles.
fn are_same(one: &[Handle], other: &[Handle]) -> bool
    ensures { IsTrue result ↔ (one.now ≡ other.now) }
{
    one == other
}

// Drops the places of closed handles if they are too many, and gives how many are left.
fn drop_if_many(places: &mut Vec<Handle>, closed: usize) -> usize
    requires { closed ≤ length places.old.items }
    ensures handles { drop result places.new.items ≡ drop closed places.old.items }
    ensures few { AreClosed result places.new.items }
    ensures len { vec_len places.new ≤ vec_len places.old }
    ensures capacity { vec_capacity places.new ≡ vec_capacity places.old }
{
    let open = places.len() - closed;
    if closed <= SPARE_PLACES || closed - SPARE_PLACES <= open {
        return closed;
    }
    drop_front(places, closed);
    0
}

impl OwnHandles {
    /// No handles. It takes no memory.
    pub(crate) fn new(alloc: Global) -> OwnHandles
        ensures { result.handles ≡ [] }
    {
        OwnHandles {
            places: Vec::new(alloc),
            closed: 0,
        }
    }

    /// The handles.
    pub(crate) fn as_slice(&self) -> &[Handle]
        ensures { result.now ≡ self.now.handles }
    {
        &self.places[self.closed..]
    }

    /// The same handles once more, without room.
    pub(crate) fn copy(&self) -> Result<OwnHandles, AllocError>
        ensures { IfOk result (λ copy. copy.handles ≡ self.now.handles) }
    {
        let places = Vec::from_slice(*self.places.allocator(), self.as_slice())?;
        Ok(OwnHandles { places, closed: 0 })
    }

    /// Whether both are the same handles.
    pub(crate) fn same(&self, other: &OwnHandles) -> bool
        ensures { IsTrue result ↔ (self.now.handles ≡ other.now.handles) }
    {
        are_same(self.as_slice(), other.as_slice())
    }

    /// Makes room for one more handle. AllocError comes only where there was none.
    pub(crate) fn reserve(&mut self) -> Result<(), AllocError>
        ensures handles { self.new.handles ≡ self.old.handles }
        ensures room { OnOk result (1 ≤ self.new.room) }
        ensures kept { self.old.room ≤ self.new.room }
        ensures lacking { OnErr result (self.old.room ≡ 0) }
        ensures err { OnErr result (self.new ≡ self.old) }
    {
        self.places.reserve(1)
    }

    /// Adds a handle, for which there is room. It takes no memory.
    pub(crate) fn push_reserved(&mut self, handle: Handle)
        requires { 0 < self.old.room }
        ensures handles { self.new.handles ≡ self.old.handles ++ handle ∷ [] }
        ensures room { self.new.room + 1 ≡ self.old.room }
    {
        self.places.push_reserved(handle);
    }

    /// Takes a handle out, if it is there. It takes no memory.
    pub(crate) fn remove(&mut self, handle: Handle)
        requires { IsRising (λ (h : ℕ). h) self.old.handles }
        ensures handles { self.new.handles ≡ without_handle handle self.old.handles }
        ensures rising { IsRising (λ (h : ℕ). h) self.new.handles }
        ensures room { self.old.room ≤ self.new.room }
    {
        let Ok(place) = search(self.as_slice(), handle.number()) else {
            return;
        };
        let mut closed = self.closed;
        if place == 0 {
            closed += 1;
        } else {
            let _ = self.places.remove(closed + place);
        }
        self.closed = drop_if_many(&mut self.places, closed);
    }
}
