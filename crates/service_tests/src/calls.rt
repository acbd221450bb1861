//! The engine's calls, and how much is kept of what a path names and owed to a handle.

use crate::scripts::Start::{LastHandle, LimitOf9, New};
use crate::scripts::Step::{Crowds, HasLimit, Keeps, Lists, Owes, Plans, Runs, Says};
use crate::scripts::{Step, events, new_engine, play, same};
use pps_engine::Engine;
use pps_types::{Outcome, Refusal};
use std::alloc::Global;
use std::test::Fail;

/// One connection has created `/gps` and written to it, and another has opened it in delta mode.
const PUBLISHED: [&[u8]; 5] = [
    b"1 attach",
    b"1 open rwc /gps",
    b"1 write 1 speed:n:65\\n",
    b"2 attach",
    b"2 open r /gps?delta,wait",
];

const WRITTEN_AND_READ: [(Step, &[u8], &[u8]); 5] = [
    (Says, b"2 read 2 4096", b"2 data 16 @gps\\nspeed:n:65\\n"),
    (Says, b"2 read 2 4096", b"2 parked"),
    (Says, b"1 write 1 speed:n:66\\n", b"1 wrote 11"),
    (Says, b"2 receive", b"2 done 2 data 16 @gps\\nspeed:n:66\\n"),
    (Says, b"2 receive", b"2 empty"),
];

const REQUESTS_OF_ALL_KINDS: [(Step, &[u8], &[u8]); 7] = [
    (Says, b"1 mkdir /maps", b"1 ok"),
    (Says, b"1 list /", b"1 data 10 gps\\nmaps/\\n"),
    (Says, b"1 unlink /maps", b"1 ok"),
    (Says, b"2 notify 2 poll 1 2", b"2 input 1"),
    (Says, b"2 close 2", b"2 ok"),
    (Says, b"2 detach", b"2 ok"),
    (Says, b"2 receive", b"2 refused 3 NotAttached"),
];

const PLANNED_AND_CARRIED_OUT: [(Step, &[u8], &[u8]); 2] = [
    (Plans, b"2 read 2 4096", b"@gps\nspeed:n:65\n"),
    (Says, b"2 read 9 4096", b"2 refused 13 BadHandle"),
];

const DEBTS: [(Step, &[u8], &[u8]); 5] = [
    (Owes(2, None), b"", b""),
    (Runs, b"2 read 2 4096", b""),
    (Runs, b"1 write 1 speed:n:66\\n", b""),
    (Owes(2, Some(1)), b"", b""),
    (Keeps(Some(1)), b"/gps", b""),
];

const BEGUN_AT_THE_LAST_HANDLE: [(Step, &[u8], &[u8]); 3] = [
    (Runs, b"1 attach", b""),
    (Says, b"1 open rwc /a", b"1 handle 4294967295"),
    (Says, b"1 open rwc /a", b"1 refused 24 TableFull"),
];

#[test]
fn calls_are_answered(rt: HostRuntime) -> Result<(), Fail> {
    let alloc = rt.alloc();
    play(&rt, alloc, New, &PUBLISHED, &WRITTEN_AND_READ)?;
    play(&rt, alloc, New, &PUBLISHED, &REQUESTS_OF_ALL_KINDS)?;
    play(&rt, alloc, New, &PUBLISHED, &PLANNED_AND_CARRIED_OUT)?;
    play(&rt, alloc, New, &PUBLISHED, &DEBTS)?;
    play(&rt, alloc, New, &[], &[(HasLimit(256), b"", b"")])?;
    play(&rt, alloc, LimitOf9, &[], &[(HasLimit(9), b"", b"")])?;
    play(&rt, alloc, LastHandle, &[], &BEGUN_AT_THE_LAST_HANDLE)?;
    Ok(())
}

const RUN_AS_A_LIST: [&[u8]; 3] = [b"1 attach", b"1 attach", b"1 receive"];

/// The answers to the commands of lines, as an engine runs them in a list.
fn run_list(
    alloc: Global,
    engine: &mut Engine,
    lines: &[&[u8]],
) -> Result<Vec<Result<Outcome, Refusal>>, Refusal> {
    let events = events(alloc, lines)?;
    engine.run_list(&events)
}

/// The same, where the room for the answers is made before.
fn run_reserved(
    alloc: Global,
    engine: &mut Engine,
    lines: &[&[u8]],
) -> Result<Vec<Result<Outcome, Refusal>>, Refusal> {
    let events = events(alloc, lines)?;
    let mut answers = Vec::with_capacity(alloc, events.len())?;
    engine.run_reserved(&events, &mut answers);
    Ok(answers)
}

#[test]
fn lists_of_events_are_run(rt: HostRuntime) -> Result<(), Fail> {
    let wanted = [
        Ok(Outcome::Done),
        Err(Refusal::AlreadyAttached),
        Ok(Outcome::Empty),
    ];
    let mut engine = new_engine(rt.alloc())?;
    let answers = run_list(rt.alloc(), &mut engine, &RUN_AS_A_LIST)?;
    assert_eq!(rt; answers.as_slice(), wanted.as_slice());
    let mut other = new_engine(rt.alloc())?;
    let answers = run_reserved(rt.alloc(), &mut other, &RUN_AS_A_LIST)?;
    assert_eq!(rt; answers.as_slice(), wanted.as_slice());
    assert!(rt; same(&engine, &other));
    Ok(())
}

/// The first 17 commands of the worked script `exact_cut`: three writes, and subscribers at different places.
const EXACT_CUT: [&[u8]; 17] = [
    b"1 attach",
    b"2 attach",
    b"3 attach",
    b"4 attach",
    b"5 attach",
    b"1 open rwc /gps",
    b"2 open r /gps?delta",
    b"3 open r /gps?delta",
    b"4 open r /gps?delta,limit=1",
    b"5 open r /.all?delta",
    b"2 read 2 99",
    b"3 read 3 99",
    b"4 read 4 99",
    b"5 read 5 99",
    b"1 write 1 a::1\\n",
    b"1 write 1 a::2\\n",
    b"1 write 1 a::3\\n",
];

/// The first 8 commands of the worked script `filtered_deltas`: of three writes a filter matches the second.
const FILTERED_DELTAS: [&[u8]; 8] = [
    b"1 attach",
    b"2 attach",
    b"1 open rwc /gps",
    b"2 open r /gps?delta,f=speed>60+city",
    b"2 read 2 99",
    b"1 write 1 speed:n:60\\n",
    b"1 write 1 speed:n:61\\nalt::9\\n",
    b"1 write 1 alt::1\\n",
];

const HIDDEN_BETWEEN_OTHERS: [(Step, &[u8], &[u8]); 4] = [
    (Owes(2, Some(1)), b"", b""),
    (Keeps(Some(2)), b"/gps", b""),
    (Runs, b"2 read 2 99", b""),
    (Keeps(Some(0)), b"/gps", b""),
];

const JUST_WHAT_IS_OWED: [(Step, &[u8], &[u8]); 14] = [
    (Keeps(Some(3)), b"/gps", b""),
    (Keeps(Some(3)), b"/", b""),
    (Owes(4, None), b"", b""),
    (Runs, b"2 read 2 99", b""),
    (Keeps(Some(3)), b"/gps", b""),
    (Runs, b"3 read 3 10", b""),
    (Keeps(Some(2)), b"/gps", b""),
    (Runs, b"3 close 3", b""),
    (Keeps(Some(0)), b"/gps", b""),
    (Keeps(Some(3)), b"/", b""),
    (Runs, b"4 read 4 99", b""),
    (Runs, b"5 close 5", b""),
    (Keeps(Some(0)), b"/", b""),
    (Keeps(None), b"/none", b""),
];

const THE_SLOWEST_DECIDES: [(Step, &[u8], &[u8]); 4] = [
    (Runs, b"3 read 3 10", b""),
    (Keeps(Some(3)), b"/gps", b""),
    (Runs, b"2 read 2 20", b""),
    (Keeps(Some(2)), b"/gps", b""),
];

/// A directory that is full, and goes on once an object is unlinked.
const A_FULL_DIRECTORY: [(Step, &[u8], &[u8]); 9] = [
    (Runs, b"1 attach", b""),
    (Runs, b"1 mkdir /d", b""),
    (Crowds, b"", b""),
    (Says, b"1 open wc /d/more", b"1 refused 24 TableFull"),
    (Lists(256), b"1 list /d", b""),
    (Runs, b"1 open w /d/oaa", b""),
    (Runs, b"1 mkdir /d/e", b""),
    (Runs, b"1 unlink /d/oab", b""),
    (Runs, b"1 open wc /d/more", b""),
];

#[test]
fn what_is_owed_is_kept(rt: HostRuntime) -> Result<(), Fail> {
    let alloc = rt.alloc();
    play(&rt, alloc, New, &FILTERED_DELTAS, &HIDDEN_BETWEEN_OTHERS)?;
    play(&rt, alloc, New, &EXACT_CUT, &JUST_WHAT_IS_OWED)?;
    play(&rt, alloc, New, &EXACT_CUT, &THE_SLOWEST_DECIDES)?;
    play(&rt, alloc, New, &[], &A_FULL_DIRECTORY)?;
    Ok(())
}
