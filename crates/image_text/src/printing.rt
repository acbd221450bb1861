//! Lines of images, printed.
ghost use Rattle.std.specs.Prelude.{◌≡◌, ◌++◌, decimal, OnOk};
ghost use Rattle.pps_types.specs.Image as image;
ghost use Rattle.image_text.specs.Printed.{print_beginning, print_directory, print_object, print_set, print_end};

use attr_text::{push_set, set_len};
use itoa::Buffer;
use pps_types::Bytes;
use std::alloc::AllocError;

fn push_number(out: &mut Vec<u8>, number: u64) -> Result<(), AllocError>
    ensures { OnOk result (out.new.items ≡ out.old.items ++ decimal number) }
{
    let mut buffer = Buffer::new();
    out.extend_from_slice(buffer.format(number).as_bytes())
}

// Pushes a path: a slash before each name.
fn push_path(out: &mut Vec<u8>, path: &[Bytes]) -> Result<(), AllocError>
    ensures { OnOk result (out.new.items ≡ out.old.items ++ image.print_path path.now) }
{
    'names: for name in path {
        out.extend_from_slice(b"/")?;
        out.extend_from_slice(name.as_slice())?;
    }
    Ok(())
}

/// Pushes the first line of an image of version 2, with the default limit.
#[tactic(auto, using(crate::proofs::Regroup::regroup))]
pub fn push_beginning(out: &mut Vec<u8>, default_limit: u32) -> Result<(), AllocError>
    ensures { OnOk result (out.new.items ≡ out.old.items ++ print_beginning default_limit) }
{
    out.extend_from_slice(b"PPSIMAGE 2 ")?;
    push_number(out, u64::from(default_limit))?;
    out.extend_from_slice(b"\n")
}

/// Pushes the line of a directory.
#[tactic(auto, using(crate::proofs::Regroup::regroup))]
pub fn push_directory(out: &mut Vec<u8>, path: &[Bytes]) -> Result<(), AllocError>
    ensures { OnOk result (out.new.items ≡ out.old.items ++ print_directory path.now) }
{
    out.extend_from_slice(b"D ")?;
    push_path(out, path)?;
    out.extend_from_slice(b"\n")
}

/// Pushes the line of an object of which so many attributes follow.
#[tactic(auto, using(crate::proofs::Regroup::regroup))]
pub fn push_object(out: &mut Vec<u8>, path: &[Bytes], count: usize) -> Result<(), AllocError>
    ensures { OnOk result (out.new.items ≡ out.old.items ++ print_object path.now count) }
{
    out.extend_from_slice(b"O ")?;
    push_path(out, path)?;
    out.extend_from_slice(b" ")?;
    push_number(out, count as u64)?;
    out.extend_from_slice(b"\n")
}

/// Pushes the line of an attribute.
pub fn push_attribute(
    out: &mut Vec<u8>,
    name: &[u8],
    enc: &[u8],
    value: &[u8],
) -> Result<(), AllocError>
    ensures { OnOk result (out.new.items ≡ out.old.items ++ print_set name.now enc.now value.now) }
{
    let Some(len) = set_len(name, enc, value, false) else {
        return Err(AllocError);
    };
    out.reserve(len)?;
    push_set(out, name, enc, value, false);
    Ok(())
}

/// Pushes the last line, of an image of so many entries.
#[tactic(auto, using(crate::proofs::Regroup::regroup))]
pub fn push_end(out: &mut Vec<u8>, count: u64) -> Result<(), AllocError>
    ensures { OnOk result (out.new.items ≡ out.old.items ++ print_end count) }
{
    out.extend_from_slice(b"E ")?;
    push_number(out, count)?;
    out.extend_from_slice(b"\n")
}
