//! Two runs that a client can't tell apart, of which one alone has what another client does.

use crate::scripts::{data, events, new_engine};
use pps_engine::{Engine, run_both};
use pps_types::{Outcome, Refusal};
use std::alloc::Global;
use std::process::Abort;
use std::test::Fail;

/// The commands of the worked script `private_traffic`: a server, and clients of connections 2 and 3.
const WITH_OTHER: [&[u8]; 13] = [
    b"1 attach",
    b"2 attach",
    b"3 attach",
    b"1 open rwc /s?server",
    b"2 open rw /s",
    b"3 open rw /s",
    b"3 write 3 p::5\\n",
    b"1 read 1 99",
    b"1 write 1 @s.2\\nr::2\\n",
    b"2 read 2 99",
    b"1 write 1 all::3\\n",
    b"3 read 3 99",
    b"2 read 2 99",
];

/// The same without what connection 3 writes and reads.
const WITHOUT_OTHER: [&[u8]; 11] = [
    b"1 attach",
    b"2 attach",
    b"3 attach",
    b"1 open rwc /s?server",
    b"2 open rw /s",
    b"3 open rw /s",
    b"1 read 1 99",
    b"1 write 1 @s.2\\nr::2\\n",
    b"2 read 2 99",
    b"1 write 1 all::3\\n",
    b"2 read 2 99",
];

/// Whether one of the answers is that.
fn is_answered(answers: &[Result<Outcome, Refusal>], place: usize, wanted: &Outcome) -> bool {
    match answers.get(place) {
        Some(Ok(answer)) => *answer == *wanted,
        _ => false,
    }
}

/// Runs both lists, each on an engine of its own, and sees what connection 2 reads.
fn assert_private(
    rt: &impl Abort,
    alloc: Global,
    first: &mut Engine,
    second: &mut Engine,
) -> Result<(), Refusal> {
    let with_other = events(alloc, &WITH_OTHER)?;
    let without_other = events(alloc, &WITHOUT_OTHER)?;
    let its_own = data(alloc, b"@s\nr::2\n")?;
    let to_all = data(alloc, b"@s\nall::3\n")?;
    let answers = run_both(first, &with_other, second, &without_other)?;
    assert!(rt; is_answered(&answers.first, 9, &its_own));
    assert!(rt; is_answered(&answers.second, 8, &its_own));
    assert!(rt; is_answered(&answers.first, 12, &to_all));
    assert!(rt; is_answered(&answers.second, 10, &to_all));
    Ok(())
}

#[test]
fn another_clients_traffic_is_not_seen(rt: HostRuntime) -> Result<(), Fail> {
    let mut first = new_engine(rt.alloc())?;
    let mut second = new_engine(rt.alloc())?;
    assert_private(&rt, rt.alloc(), &mut first, &mut second)?;
    Ok(())
}
