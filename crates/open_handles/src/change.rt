//! What changes of one handle.
ghost use Rattle.std.specs.Prelude.{◌≡◌, ◌<◌, ◌≤◌, ◌∷◌, ◌+◌, [], length, map};
ghost use Rattle.std.specs.Prelude.{◌↔◌, IsTrue, IfOk, OnOk, OnErr};
ghost use Rattle.pps_types.specs.Plan.{offer, without_number};
ghost use Rattle.sub_reader.specs.HandleAt.{AreBelow};
ghost use Rattle.topics.specs.HandlesOf.{handles_of, handles_with, places_of, IsSameTarget, IsReady, IsEnough, KeepsRoom, Suits};
ghost use Rattle.open_handles.specs.Whole.{with_changed, IsReadyIfUsed, IsRight, UsesRoomAt};

use pps_types::Handle;
use server_queue::Entry;
use std::alloc::{AllocError, Global};
use sub_reader::{Opening, Pulse};
use topics::{Shares, Topic};

/// A change of one handle that it survives.
#[derive(Drop)]
pub(crate) enum Change {
    /// It has read everything.
    CatchUp,
    /// It was given so many of the records that it is owed.
    Pass(usize),
    /// A read of that size waits on it, or none any more.
    Park(Option<u32>),
    /// A pulse waits on it, or none any more.
    Arm(Option<Pulse>),
}

/// Changes one handle in its place.
#[inline(always)]
pub(crate) fn change_in(topic: &mut Topic, number: Handle, change: Change)
    ensures same { IsSameTarget topic.old topic.new }
    ensures handles { handles_of topic.new ≡ with_changed number change (handles_of topic.old) }
    ensures places { places_of topic.new ≡ places_of topic.old }
    ensures on_topic { IsRight topic.new }
{
    match change {
        Change::CatchUp => topic.catch_up(number),
        Change::Pass(count) => topic.pass(number, count),
        Change::Park(size) => topic.park(number, size),
        Change::Arm(pulse) => topic.arm(number, pulse),
    }
    topic.handles_are_on_it();
    topic.is_exact();
}

/// Closes a handle in its place.
#[inline(always)]
pub(crate) fn close_in(topic: &mut Topic, number: Handle)
    ensures same { IsSameTarget topic.old topic.new }
    ensures handles { handles_of topic.new ≡ without_number number (handles_of topic.old) }
    ensures room { KeepsRoom topic.old topic.new }
    ensures places { places_of topic.old ≤ places_of topic.new }
    ensures on_topic { IsRight topic.new }
{
    topic.close(number);
    topic.handles_are_on_it();
    topic.is_exact();
}

/// Makes room for one more handle in a place.
#[inline(always)]
pub(crate) fn reserve_in(topic: &mut Topic) -> Result<(), AllocError>
    ensures same { IsSameTarget topic.old topic.new }
    ensures handles { handles_of topic.new ≡ handles_of topic.old }
    ensures room { KeepsRoom topic.old topic.new }
    ensures places { OnOk result (0 < places_of topic.new) }
    ensures more { places_of topic.old ≤ places_of topic.new }
    ensures lacking { OnErr result (places_of topic.old ≡ 0) }
    ensures on_topic { IsRight topic.new }
{
    let made = topic.reserve_handle();
    topic.handles_are_on_it();
    topic.is_exact();
    made
}

/// Opens a handle in its place.
#[inline(always)]
pub(crate) fn open_in(topic: &mut Topic, opening: Opening)
    requires places { 0 < places_of topic.old }
    requires suits { Suits opening.kind topic.old }
    requires above { AreBelow opening.number (handles_of topic.old) }
    ensures same { IsSameTarget topic.old topic.new }
    ensures handles { handles_of topic.new ≡ handles_with opening topic.old }
    ensures places { places_of topic.new + 1 ≡ places_of topic.old }
    ensures on_topic { IsRight topic.new }
{
    topic.open_reserved(opening);
    topic.handles_are_on_it();
    topic.is_exact();
}

/// Offers a record in a place, where there is room for it if handles are there.
#[inline(always)]
pub(crate) fn offer_in(topic: &mut Topic, shares: Shares)
    requires room { 0 < length (handles_of topic.old) → IsReady (shares.entry ∷ []) topic.old }
    requires enough { IsEnough shares.count shares.entry topic.old }
    ensures same { IsSameTarget topic.old topic.new }
    ensures handles { handles_of topic.new ≡ map (offer shares.entry) (handles_of topic.old) }
    ensures room { UsesRoomAt shares.entry topic.old topic.new }
    ensures places { places_of topic.new ≡ places_of topic.old }
    ensures on_topic { IsRight topic.new }
{
    if topic.is_empty() {
        topic.handles_are_on_it();
        topic.is_exact();
        return;
    }
    topic.offer(shares);
    topic.handles_are_on_it();
    topic.is_exact();
}

/// Makes room for records in a place, if handles are there, and reports whether they are.
#[inline(always)]
pub(crate) fn reserve_records_in(topic: &mut Topic, entries: &[Entry]) -> Result<bool, AllocError>
    ensures same { IsSameTarget topic.old topic.new }
    ensures handles { handles_of topic.new ≡ handles_of topic.old }
    ensures room { KeepsRoom topic.old topic.new }
    ensures places { places_of topic.new ≡ places_of topic.old }
    ensures ready { OnOk result (IsReadyIfUsed entries.now topic.new) }
    ensures used { IfOk result (λ used. IsTrue used ↔ (0 < length (handles_of topic.new))) }
    ensures on_topic { IsRight topic.new }
{
    if topic.is_empty() {
        topic.handles_are_on_it();
        topic.is_exact();
        return Ok(false);
    }
    let made = topic.reserve(entries);
    topic.handles_are_on_it();
    topic.is_exact();
    made?;
    Ok(true)
}

/// Makes room for a record in a place, if handles are there, and shares of it for them.
#[inline(always)]
pub(crate) fn shares_in(
    topic: &mut Topic,
    alloc: Global,
    entry: Entry,
) -> Result<Shares, AllocError>
    ensures same { IsSameTarget topic.old topic.new }
    ensures handles { handles_of topic.new ≡ handles_of topic.old }
    ensures room { KeepsRoom topic.old topic.new }
    ensures places { places_of topic.new ≡ places_of topic.old }
    ensures ready { OnOk result (IsReadyIfUsed (entry ∷ []) topic.new) }
    ensures entry { IfOk result (λ shares. shares.entry ≡ entry) }
    ensures enough { IfOk result (λ shares. IsEnough shares.count shares.entry topic.new) }
    ensures on_topic { IsRight topic.new }
{
    reserve_records_in(topic, std::slice::from_ref(&entry))?;
    topic.shares(alloc, entry)
}
