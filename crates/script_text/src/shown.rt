//! What is shown of the values in the bytes of a read.
ghost use Rattle.std.specs.Prelude.{◌≡◌, ◌++◌, IfOk, OnOk};
ghost use Rattle.pps_types.specs.Text.{write_line};
ghost use Rattle.script_text.specs.ShownLines.{value_words, named_line, shown_line, shown_lines};

use crate::answer::push_counted;
use attr_text::{first_line, read_write_line, show_value};
use pps_types::{LineRef, Shown};
use std::alloc::{AllocError, Global};

#[tactic(auto, using(crate::proofs::Regroup::regroup))]
fn push_value(out: &mut Vec<u8>, shown: &Shown) -> Result<(), AllocError>
    ensures { OnOk result (out.new.items ≡ out.old.items ++ value_words shown.now) }
{
    match shown {
        Shown::Plain => Ok(()),
        Shown::Flag(true) => out.extend_from_slice(b"true"),
        Shown::Flag(false) => out.extend_from_slice(b"false"),
        Shown::Bytes(bytes) => {
            out.extend_from_slice(b"bytes ")?;
            push_counted(out, bytes.as_slice())
        }
        Shown::Bad => out.extend_from_slice(b"bad"),
    }
}

// Pushes the line of a value, if it has one.
#[tactic(auto, using(crate::proofs::Regroup::regroup))]
fn push_named(out: &mut Vec<u8>, name: &[u8], shown: &Shown) -> Result<(), AllocError>
    ensures { OnOk result (out.new.items ≡ out.old.items ++ named_line name.now shown.now) }
{
    if let Shown::Plain = shown {
        return Ok(());
    }
    out.extend_from_slice(b"  ")?;
    out.extend_from_slice(name)?;
    out.extend_from_slice(b": ")?;
    push_value(out, shown)?;
    out.extend_from_slice(b"\n")
}

// Pushes what is shown of a line.
fn push_shown(alloc: Global, out: &mut Vec<u8>, line: &[u8]) -> Result<(), AllocError>
    ensures { OnOk result (out.new.items ≡ out.old.items ++ shown_line (write_line line.now)) }
{
    let Some(read) = read_write_line(alloc, line)? else {
        return Ok(());
    };
    let LineRef::Set { name, content } = read.parts() else {
        return Ok(());
    };
    let Ok(shown) = show_value(alloc, content.enc(), content.value()) else {
        return Err(AllocError);
    };
    push_named(out, name, &shown)
}

/// What is shown of the values in the bytes of a read: a line for each attribute whose encoding is `b` or `b64`, in
/// their order.
///
/// It is two spaces, the name, and `true`, `false`, `bytes` with their number and the bytes, escaped as in answers, or
/// `bad`.
pub fn print_shown(alloc: Global, bytes: &[u8]) -> Result<Vec<u8>, AllocError>
    ensures { IfOk result (λ text. text.items ≡ shown_lines bytes.now) }
{
    let mut out = Vec::new(alloc);
    let mut rest = bytes;
    while !rest.is_empty() {
        let (line, behind) = first_line(rest);
        push_shown(alloc, &mut out, line)?;
        rest = behind;
    }
    Ok(out)
}
