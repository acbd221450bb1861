//! Lines of images.

use image_text::{push_attribute, push_beginning, push_directory, push_end, push_object};
use pps_types::Bytes;
use std::alloc::{AllocError, Global};
use std::test::Fail;

/// The path of these names.
fn path(alloc: Global, names: &[&[u8]]) -> Result<Vec<Bytes>, AllocError> {
    let mut path = Vec::new(alloc);
    for name in names {
        path.push(Bytes::from_slice(alloc, name)?)?;
    }
    Ok(path)
}

#[test]
fn images_are_printed(rt: HostRuntime) -> Result<(), Fail> {
    let mut out = Vec::new(rt.alloc());
    push_beginning(&mut out, 8)?;
    push_directory(&mut out, &path(rt.alloc(), &[b"a"])?)?;
    push_object(&mut out, &path(rt.alloc(), &[b"a", b"gps"])?, 1)?;
    push_attribute(&mut out, b"speed", b"n", b"5")?;
    push_end(&mut out, 2)?;
    let wanted = b"PPSIMAGE 2 8\nD /a\nO /a/gps 1\nspeed:n:5\nE 2\n".as_slice();
    assert_eq!(rt; out.as_slice(), wanted);
    Ok(())
}
