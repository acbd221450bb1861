//! The shared types.

use crate::samples::deletion;
use pps_types::{Conn, DirId, Handle, Lines, ObjId};
use std::test::Fail;

#[test]
fn numbers_are_kept(rt: HostRuntime) {
    assert_eq!(rt; Conn::new(65_535).number(), 65_535);
    assert_eq!(rt; Handle::new(4_294_967_295).number(), 4_294_967_295);
    assert_eq!(rt;
        ObjId::new(18_446_744_073_709_551_615).number(),
        18_446_744_073_709_551_615
    );
    assert_eq!(rt; DirId::new(7).number(), 7);
    assert_ne!(rt; Handle::new(1), Handle::new(2));
}

#[test]
fn lines_are_kept(rt: HostRuntime) -> Result<(), Fail> {
    let mut items = Vec::new(rt.alloc());
    items.push(deletion(rt.alloc(), b"city")?)?;
    let lines = Lines::new(items);
    assert_eq!(rt; lines.as_slice().len(), 1);
    Ok(())
}
