use crate::state_samples::new_tables;
use path_requests::{carry_out, open};
use pps_types::{Bytes, Conn, Mode, Refusal};
use service_state::Tables;
use std::alloc::Global;
use std::test::Fail;

/// Reads.
const READS: Mode = Mode {
    r: true,
    w: false,
    c: false,
    t: false,
};

/// Reads, writes and creates.
const CREATES: Mode = Mode {
    r: true,
    w: true,
    c: true,
    t: false,
};

/// How many objects, handles and records there are.
fn counts(tables: &Tables) -> (usize, usize, u64) {
    (
        tables.names().object_count(),
        tables.handles().len(),
        tables.records(),
    )
}

/// What there is when connection 3 plans to open that text in a new service, and when it has opened it.
fn opened(alloc: Global, mode: Mode, text: &[u8]) -> Result<[(usize, usize, u64); 2], Refusal> {
    let text = Bytes::from_slice(alloc, text)?;
    let mut tables = new_tables(alloc)?;
    let opens = open(&mut tables, alloc, Conn::new(3), mode, &text)?;
    let planned = counts(&tables);
    carry_out(&mut tables, opens);
    Ok([planned, counts(&tables)])
}

#[test]
fn the_root_and_a_new_object_are_opened(rt: HostRuntime) -> Result<(), Fail> {
    let [_, all] = opened(rt.alloc(), READS, b"/.all?delta")?;
    assert!(rt; all == (0, 1, 0));
    let [planned, created] = opened(rt.alloc(), CREATES, b"/speed?server")?;
    assert!(rt; planned == (0, 0, 0));
    assert!(rt; created == (1, 1, 1));
    Ok(())
}
