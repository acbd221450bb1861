//! Images, saved.
ghost use Rattle.std.specs.Prelude.{◌≡◌, ◌++◌, false, OnOk};
ghost use Rattle.pps_types.specs.Device.{device_failed};
ghost use Rattle.pps_types.specs.Image as image;
ghost use Rattle.pps_persist.specs.Sent.{Adds, SavesEntries, SavesImage, AnswersWriteFault};

use crate::errors::SaveError;
use crate::output::Output;
use image_text::{push_attribute, push_beginning, push_directory, push_end, push_object};
use pps_engine::{Engine, SavedEntry};
use pps_types::Device;
use std::alloc::{AllocError, Global};
use std::io::Write;

/// From so many bytes on, what was printed is written.
const PIECE: usize = 65_536;

// Prints an entry: its line, and the lines of an object's attributes.
fn push_entry(out: &mut Vec<u8>, entry: &SavedEntry<'_>) -> Result<(), AllocError>
    ensures { OnOk result (out.new.items ≡ out.old.items ++ image.print_saved entry.now) }
{
    if !entry.is_object() {
        return push_directory(out, entry.path());
    }
    push_object(out, entry.path(), entry.attribute_count())?;
    'attributes: for attribute in entry.attributes() {
        push_attribute(out, attribute.name, attribute.enc, attribute.value)?;
    }
    Ok(())
}

// Prints an entry more, and writes what was printed where it is enough.
fn add_entry<W: Write>(
    output: &mut Output,
    device: &mut Device<W>,
    entry: &SavedEntry<'_>,
) -> Result<(), SaveError>
    requires { device_failed device.old ≡ false }
    ensures prints { Adds W.contents device.old device.new output.old output.new entry.now result }
    ensures fault { AnswersWriteFault device.old device.new result }
{
    if push_entry(&mut output.buffer, entry).is_err() {
        return Err(SaveError::OutOfMemory { sent: output.sent });
    }
    if output.buffer.len() < PIECE {
        return Ok(());
    }
    output.flush(device)
}

// Writes the image of these entries, with this default limit.
fn save_entries<W: Write>(
    alloc: Global,
    default_limit: u32,
    entries: &[SavedEntry<'_>],
    device: &mut Device<W>,
) -> Result<u64, SaveError>
    requires { device_failed device.old ≡ false }
    ensures saves { SavesEntries W.contents device.old device.new default_limit entries.now result }
    ensures fault { AnswersWriteFault device.old device.new result }
{
    let mut output = Output::new(alloc);
    if push_beginning(&mut output.buffer, default_limit).is_err() {
        return Err(SaveError::OutOfMemory { sent: output.sent });
    }
    'entries: for entry in entries {
        add_entry(&mut output, device, entry)?;
    }
    if push_end(&mut output.buffer, entries.len() as u64).is_err() {
        return Err(SaveError::OutOfMemory { sent: output.sent });
    }
    output.flush(device)?;
    Ok(output.sent)
}

/// Saves the image of what stands, of version 2, and tells its length.
///
/// WriteFault comes where the writer fails, or takes none of some bytes; OutOfMemory where memory is wanting for the
/// entries or for the buffer, or where so many bytes can't be counted. What was written until then is the image's first
/// bytes, as many as the error tells.
pub fn save<W: Write>(
    alloc: Global,
    engine: &Engine,
    device: &mut Device<W>,
) -> Result<u64, SaveError>
    requires { device_failed device.old ≡ false }
    ensures saves { SavesImage W.contents device.old device.new engine.now.content result }
    ensures fault { AnswersWriteFault device.old device.new result }
{
    match engine.entries() {
        Err(_) => Err(SaveError::OutOfMemory { sent: 0 }),
        Ok(entries) => save_entries(alloc, engine.limit(), &entries, device),
    }
}
