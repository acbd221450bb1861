//! What follows from an event.

use crate::state_samples::new_tables;
use pps_engine::settle;
use pps_types::{DirId, Kind, ObjId, Refusal};
use service_state::entry_about;
use std::alloc::Global;
use std::test::Fail;

/// Whether nothing follows in a new service from the record that the object 0 is created.
fn is_settled_after_creation(alloc: Global) -> Result<bool, Refusal> {
    let tables = new_tables(alloc)?;
    let (object, directory) = (ObjId::new(0), DirId::new(0));
    let created = entry_about(alloc, object, directory, b"gps", Kind::Created, None)?;
    let entries = [created];
    let following = settle(&tables, alloc, &entries, &[])?;
    Ok(following.is_empty())
}

/// Whether nothing follows in a new service without a record.
fn is_settled_at_first(alloc: Global) -> Result<bool, Refusal> {
    let tables = new_tables(alloc)?;
    let following = settle(&tables, alloc, &[], &[])?;
    Ok(following.is_empty())
}

#[test]
fn nothing_follows_where_nobody_waits(rt: HostRuntime) -> Result<(), Fail> {
    assert!(rt; is_settled_after_creation(rt.alloc())?);
    assert!(rt; is_settled_at_first(rt.alloc())?);
    Ok(())
}
