//! Images, loaded.
ghost use Rattle.std.specs.Prelude.{◌≡◌, false};
ghost use Rattle.pps_types.specs.Device.{device_failed};
ghost use Rattle.pps_persist.specs.Loads.{LoadsFrom, AnswersReadFault, Loads, InputFaultIs, FaultAfterMany};

use crate::errors::LoadError;
use crate::input::Input;
use crate::pieces::Reading;
use pps_engine::Engine;
use pps_types::Device;
use pps_types::limits::{PIECE, READS_MAX};
use std::alloc::Global;
use std::io::Read;

/// Loads an image from any input, as `load` does from a device.
pub(crate) fn load_input<I: Input>(alloc: Global, input: &mut I) -> Result<Engine, LoadError>
    requires { I.works input.old input.old 0 }
    ensures loads { Loads (I.remaining input.old) (I.remaining input.new) result }
    ensures fault { InputFaultIs
        (I.works input.old input.new) (I.fails input.old input.new) result }
    ensures many { FaultAfterMany
        (I.remaining input.old) (I.remaining input.new) (I.fails input.old input.new) result }
{
    let mut buffer = Vec::new(alloc);
    buffer.resize(PIECE, 0u8)?;
    let mut reading = Reading::new(alloc);
    'pieces: for _ in 0..READS_MAX {
        let count = match input.read_some(buffer.as_mut_slice()) {
            Ok(count) => count,
            Err(_) => return Err(LoadError::ReadFault),
        };
        if count == 0 {
            return reading.finish();
        }
        reading = reading.take_piece(alloc, &buffer[..count])?;
    }
    Err(LoadError::ReadFault)
}

/// Loads an image, of version 1 or 2: an engine for the machine that it starts. The input is read in pieces, to its end.
///
/// Where what is read begins no image it is BadImage, at the first line that none has there; so it is where the input
/// ends too early, at the line in which it ends, and where anything stands behind the end, at the line of that. An
/// object's attributes have at most 65,536 bytes as text, and 32,768 in version 1. ReadFault comes where the reader
/// fails, or was read 4,294,967,295 times. OutOfMemory, where memory is wanting for what is read or restored, may come
/// in place of any other answer.
pub fn load<R: Read>(alloc: Global, device: &mut Device<R>) -> Result<Engine, LoadError>
    requires { device_failed device.old ≡ false }
    ensures loads { LoadsFrom R.remaining device.old device.new result }
    ensures fault { AnswersReadFault device.old device.new result }
{
    load_input(alloc, device)
}
