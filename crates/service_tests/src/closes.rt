use crate::state_samples::new_tables;
use handle_requests::{close, detach};
use pps_types::{Conn, Handle, Refusal};
use std::test::Fail;

#[test]
fn a_connection_without_handles_closes_none(rt: HostRuntime) -> Result<(), Fail> {
    let alloc = rt.alloc();
    let mut tables = new_tables(alloc)?;
    let closing = close(&mut tables, alloc, Conn::new(3), Handle::new(7));
    assert!(rt; matches!(closing, Err(Refusal::BadHandle)));
    let beginning = detach(&mut tables, alloc, Conn::new(3))?;
    assert!(rt; beginning.is_empty());
    Ok(())
}
