//! Queued items, armed pulses and parked reads.

use crate::samples::{assert_met, is_refused, shared};
use notify_box::Outbox;
use pps_types::{Handle, Item, Refusal, SharedBytes};
use std::alloc::{AllocError, Global};
use std::process::Abort;
use std::test::Fail;

/// A call of an outbox, or what it has to answer.
#[derive(Clone, Copy)]
enum Step {
    /// Arms a pulse whose value is the handle's number.
    Arm(u32),
    ArmAs(u32, u8, u32),
    /// Arms a pulse on each handle of these, the last first.
    ArmEach(u32, u32),
    /// To arm a pulse there is refused so.
    RefusesToArm(u32, Refusal),
    Disarm(u32),
    Fire(u32),
    FireEach(u32, u32),
    Park(u32),
    /// To park a read there is refused so.
    RefusesToPark(u32, Refusal),
    /// Ends the parking by a text or a refusal, if a read is parked there.
    Finish(u32, Option<Refusal>),
    IsParked(u32, bool),
    FirstPulse(u32),
    NothingFirst,
    TakePulse(u32),
    TakePulseAs(u8, u32),
    /// The pulses of these handles are taken, in this order.
    TakePulses(u32, u32),
    /// A late reply with a text or a refusal is taken.
    TakeReply(u32, Option<Refusal>),
    TakeNothing,
    /// The other outbox is a copy of this one from here on.
    Copy,
    /// The steps after this one are of the other outbox.
    Swap,
    /// Whether both are the same.
    Same(bool),
}

const PARKED_READ_AND_PULSE: [Step; 12] = [
    Step::Arm(2),
    Step::Park(2),
    Step::RefusesToPark(2, Refusal::ReadPending),
    Step::NothingFirst,
    Step::Fire(2),
    Step::Finish(2, None),
    Step::Fire(2),
    Step::IsParked(2, false),
    Step::FirstPulse(2),
    Step::TakePulse(2),
    Step::TakeReply(2, None),
    Step::TakeNothing,
];

const NEWS_AND_ARMING: [Step; 10] = [
    Step::Arm(7),
    Step::ArmAs(7, 127, 4_294_967_295),
    Step::Fire(6),
    Step::Fire(7),
    Step::Fire(7),
    Step::Arm(7),
    Step::Disarm(7),
    Step::Fire(7),
    Step::TakePulseAs(127, 4_294_967_295),
    Step::TakeNothing,
];

const LATE_REPLY_TOO_SMALL: [Step; 7] = [
    Step::Park(3),
    Step::Finish(3, Some(Refusal::TooSmall { need: 13 })),
    Step::Park(3),
    Step::Finish(3, Some(Refusal::BadHandle)),
    Step::TakeReply(3, Some(Refusal::TooSmall { need: 13 })),
    Step::TakeReply(3, Some(Refusal::BadHandle)),
    Step::TakeNothing,
];

const FULL_OUTBOX: [Step; 15] = [
    Step::ArmEach(2, 1_026),
    Step::RefusesToArm(1_026, Refusal::OutboxFull),
    Step::RefusesToPark(2, Refusal::OutboxFull),
    Step::Arm(2),
    Step::Disarm(2),
    Step::Park(2),
    Step::RefusesToPark(3, Refusal::OutboxFull),
    Step::RefusesToPark(2, Refusal::ReadPending),
    Step::Finish(2, Some(Refusal::Gone)),
    Step::RefusesToArm(1_026, Refusal::OutboxFull),
    Step::TakeReply(2, Some(Refusal::Gone)),
    Step::Arm(1_026),
    Step::FireEach(3, 1_027),
    Step::TakePulses(3, 1_027),
    Step::TakeNothing,
];

const COPIES_ARE_THE_SAME: [Step; 27] = [
    Step::Copy,
    Step::Arm(5),
    Step::Park(5),
    Step::Arm(1),
    Step::Park(1),
    Step::Arm(3),
    Step::Park(3),
    Step::Fire(3),
    Step::Finish(5, None),
    Step::Same(false),
    Step::Copy,
    Step::Same(true),
    Step::Swap,
    Step::Disarm(1),
    Step::Same(false),
    Step::Swap,
    Step::Disarm(1),
    Step::Swap,
    Step::Finish(1, Some(Refusal::Gone)),
    Step::Same(false),
    Step::Swap,
    Step::Finish(1, Some(Refusal::Gone)),
    Step::Same(true),
    Step::Swap,
    Step::TakePulse(3),
    Step::Same(false),
    Step::TakeReply(5, None),
];

/// An outbox and another.
#[derive(Drop)]
struct Pair {
    outbox: Outbox,
    other: Outbox,
}

fn arm(outbox: &mut Outbox, number: u32, code: u8, value: u32) -> Result<(), Refusal> {
    let handle = Handle::new(number);
    outbox.arm_ready(handle)?;
    outbox.arm(handle, code, value);
    Ok(())
}

fn park(outbox: &mut Outbox, number: u32) -> Result<(), Refusal> {
    let handle = Handle::new(number);
    outbox.park_ready(handle)?;
    outbox.park(handle);
    Ok(())
}

fn text(alloc: Global) -> Result<SharedBytes, AllocError> {
    shared(alloc, b"@gps\nspeed::5\n")
}

/// The reply with a text, or with a refusal.
fn reply(
    alloc: Global,
    refusal: Option<Refusal>,
) -> Result<Result<SharedBytes, Refusal>, AllocError> {
    match refusal {
        None => Ok(Ok(text(alloc)?)),
        Some(refusal) => Ok(Err(refusal)),
    }
}

fn arm_each(outbox: &mut Outbox, first: u32, end: u32) -> Result<(), Refusal> {
    for number in (first..end).rev() {
        arm(outbox, number, 0, number)?;
    }
    Ok(())
}

fn fire_each(outbox: &mut Outbox, first: u32, end: u32) {
    for number in first..end {
        outbox.fire(Handle::new(number));
    }
}

fn takes_pulse(outbox: &mut Outbox, code: u8, value: u32) -> bool {
    outbox.take() == Some(Item::Pulse { code, value })
}

fn takes_pulses(outbox: &mut Outbox, first: u32, end: u32) -> bool {
    for number in first..end {
        if !takes_pulse(outbox, 0, number) {
            return false;
        }
    }
    true
}

fn takes_reply(
    alloc: Global,
    outbox: &mut Outbox,
    number: u32,
    refusal: Option<Refusal>,
) -> Result<bool, AllocError> {
    let wanted = Item::ReadDone {
        handle: Handle::new(number),
        result: reply(alloc, refusal)?,
    };
    Ok(outbox.take() == Some(wanted))
}

fn finish(
    alloc: Global,
    outbox: &mut Outbox,
    number: u32,
    refusal: Option<Refusal>,
) -> Result<(), AllocError> {
    let reply = reply(alloc, refusal)?;
    let handle = Handle::new(number);
    if outbox.is_parked(handle) {
        outbox.finish(handle, reply);
    }
    Ok(())
}

/// Carries out a call. Whether the step is one.
fn is_carried_out(alloc: Global, pair: &mut Pair, step: Step) -> Result<bool, Refusal> {
    let outbox = &mut pair.outbox;
    match step {
        Step::Arm(number) => arm(outbox, number, 0, number)?,
        Step::ArmAs(number, code, value) => arm(outbox, number, code, value)?,
        Step::ArmEach(first, end) => arm_each(outbox, first, end)?,
        Step::Disarm(number) => outbox.disarm(Handle::new(number)),
        Step::Fire(number) => outbox.fire(Handle::new(number)),
        Step::FireEach(first, end) => fire_each(outbox, first, end),
        Step::Park(number) => park(outbox, number)?,
        Step::Finish(number, refusal) => finish(alloc, outbox, number, refusal)?,
        Step::Copy => pair.other = outbox.copy()?,
        Step::Swap => std::mem::swap(&mut pair.outbox, &mut pair.other),
        _ => return Ok(false),
    }
    Ok(true)
}

/// Whether the outbox answers as the step says.
fn is_answered(alloc: Global, pair: &mut Pair, step: Step) -> Result<bool, Refusal> {
    let outbox = &mut pair.outbox;
    match step {
        Step::RefusesToArm(number, refusal) => is_refused(arm(outbox, number, 0, 0), refusal),
        Step::RefusesToPark(number, refusal) => is_refused(park(outbox, number), refusal),
        Step::IsParked(number, is) => Ok(outbox.is_parked(Handle::new(number)) == is),
        Step::FirstPulse(value) => Ok(outbox.first() == Some(&Item::Pulse { code: 0, value })),
        Step::NothingFirst => Ok(outbox.first().is_none()),
        Step::TakePulse(number) => Ok(takes_pulse(outbox, 0, number)),
        Step::TakePulseAs(code, value) => Ok(takes_pulse(outbox, code, value)),
        Step::TakePulses(first, end) => Ok(takes_pulses(outbox, first, end)),
        Step::TakeReply(number, refusal) => Ok(takes_reply(alloc, outbox, number, refusal)?),
        Step::TakeNothing => Ok(outbox.take().is_none()),
        Step::Same(is) => Ok(outbox.same(&pair.other) == is && pair.other.same(outbox) == is),
        _ => Ok(false),
    }
}

/// Plays the steps in turn, of two outboxes that begin empty.
fn play(rt: &impl Abort, alloc: Global, name: &str, steps: &[Step]) -> Result<(), Refusal> {
    let mut pair = Pair {
        outbox: Outbox::new(alloc)?,
        other: Outbox::new(alloc)?,
    };
    for (number, step) in steps.iter().enumerate() {
        let is_met = is_carried_out(alloc, &mut pair, *step)?
            || is_answered(alloc, &mut pair, *step)?;
        assert_met(rt, is_met, name, number);
    }
    Ok(())
}

#[test]
fn outboxes_answer_in_turn(rt: HostRuntime) -> Result<(), Fail> {
    let alloc = rt.alloc();
    play(&rt, alloc, "parked_read_and_pulse", &PARKED_READ_AND_PULSE)?;
    play(&rt, alloc, "news_and_arming", &NEWS_AND_ARMING)?;
    play(&rt, alloc, "late_reply_too_small", &LATE_REPLY_TOO_SMALL)?;
    play(&rt, alloc, "full_outbox", &FULL_OUTBOX)?;
    play(&rt, alloc, "copies_are_the_same", &COPIES_ARE_THE_SAME)?;
    Ok(())
}
