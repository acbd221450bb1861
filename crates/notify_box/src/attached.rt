//! One attached connection.
ghost use Rattle.std.specs.Prelude.{◌≡◌, ◌↔◌, ◌<◌, ◌≤◌, length, map, IsTrue, IfOk, IfErr};
ghost use Rattle.pps_types.specs.declared.refusal.Refusal.TheVariants.{OutOfMemory};
ghost use Rattle.pps_types.specs.Rising.{IsRising, IsPlaceOf, IsGapFor};
ghost use Rattle.notify_box.specs.Standing.{number_of, standing_of};

use crate::outbox::Outbox;
use crate::own_handles::OwnHandles;
use pps_types::{Conn, Refusal};
use std::alloc::Global;
use std::marker::Model;

/// An attached connection: its number, what it has to come, and its open handles in rising number.
#[derive(Drop)]
pub(crate) struct Attached {
    pub(crate) number: Conn,
    pub(crate) outbox: Outbox,
    pub(crate) handles: OwnHandles,
}

impl Model for Attached {
    ghost use Rattle.std.specs.Prelude.{ℕ};
    ghost use Rattle.pps_types.specs.Rising.{IsRising};
    ghost use Rattle.notify_box.specs.Standing.{RoomedConnection};

    ghost Value = { RoomedConnection };

    ghost view = { λ a. record {
      number = a.number;
      roomed = a.outbox;
      handles = a.handles.handles;
      handle_room = a.handles.room;
    } };

    ghost invariant = { λ a. IsRising (λ (h : ℕ). h) a.handles.handles };
}

impl Attached {
    /// The same connection once more, without room.
    pub(crate) fn copy(&self) -> Result<Attached, Refusal>
        ensures ok { IfOk result (λ copy. standing_of copy ≡ standing_of self.now) }
        ensures err { IfErr result (λ r. r ≡ OutOfMemory) }
    {
        let outbox = self.outbox.copy()?;
        let handles = self.handles.copy()?;
        Ok(Attached {
            number: self.number,
            outbox,
            handles,
        })
    }

    /// Whether the same stands of both. It takes no memory.
    pub(crate) fn same(&self, other: &Attached) -> bool
        ensures { IsTrue result ↔ (standing_of self.now ≡ standing_of other.now) }
    {
        self.number == other.number
            && self.outbox.same(&other.outbox)
            && self.handles.same(&other.handles)
    }
}

// Where a connection stands, or else where it would go, by the order of the numbers.
#[inline(never)]
fn search_by_order(attached: &[Attached], conn: Conn) -> Result<usize, usize>
    requires { IsRising number_of attached.now }
    ensures found { IfOk result (IsPlaceOf number_of attached.now conn) }
    ensures absent { IfErr result (IsGapFor number_of attached.now conn) }
    ensures place { IfOk result (λ i. i < length attached.now) }
    ensures gap { IfErr result (λ i. i ≤ length attached.now) }
{
    attached.binary_search_by_key(&conn.number(), |other| other.number.number())
}

/// Where a connection stands, or else where it would go. The place that its number has where no lower number is missing is
/// looked at first; where another connection is there, the search goes on by the order of the numbers.
#[inline(always)]
pub(crate) fn search(attached: &[Attached], conn: Conn) -> Result<usize, usize>
    requires { IsRising number_of attached.now }
    ensures found { IfOk result (IsPlaceOf number_of attached.now conn) }
    ensures absent { IfErr result (IsGapFor number_of attached.now conn) }
    ensures place { IfOk result (λ i. i < length attached.now) }
    ensures gap { IfErr result (λ i. i ≤ length attached.now) }
{
    let place = usize::from(conn.number()).saturating_sub(1);
    if place < attached.len() {
        let there = &attached[place];
        if there.number == conn {
            return Ok(place);
        }
    }
    search_by_order(attached, conn)
}

/// The same connections once more, without room.
pub(crate) fn copy_all(alloc: Global, attached: &[Attached]) -> Result<Vec<Attached>, Refusal>
    ensures ok { IfOk result (λ copy. map standing_of copy.items ≡ map standing_of attached.now) }
    ensures err { IfErr result (λ r. r ≡ OutOfMemory) }
{
    let mut copy = Vec::with_capacity(alloc, attached.len())?;
    for one in attached {
        copy.push_reserved(one.copy()?);
    }
    Ok(copy)
}

/// Whether the same stands of both, one by one.
pub(crate) fn same_all(one: &[Attached], other: &[Attached]) -> bool
    ensures { IsTrue result ↔ (map standing_of one.now ≡ map standing_of other.now) }
{
    if one.len() != other.len() {
        return false;
    }
    for i in 0..one.len() {
        if !one[i].same(&other[i]) {
            return false;
        }
    }
    true
}
