//! A stream of requests, served.
ghost use Rattle.std.specs.Prelude.{◌≡◌, [], false};
ghost use Rattle.pps_types.specs.Device.{device_inner, device_failed, device_reads, device_stalls};
ghost use Rattle.pps_types.specs.Exchange.{input_of, output_of, held_in};
ghost use Rattle.pps_jobs.specs.Frames.{ServesStream, DeviceFaults};

use crate::fault::Fault;
use frame_codec::Ended;
use pps_engine::Engine;
use pps_frame::{RunError, run};
use pps_types::Exchange;
use std::alloc::Global;
use std::io::{Read, Write};

/// Serves the frames of the input, and writes a frame for each to the output, before it reads on.
pub(crate) fn serve_stream<I: Read, O: Write>(
    alloc: Global,
    engine: &mut Engine,
    exchange: &mut Exchange<I, O>,
) -> Result<(), Fault>
    requires input { device_failed (input_of exchange.old) ≡ false }
    requires output { device_failed (output_of exchange.old) ≡ false }
    requires held { held_in exchange.old ≡ [] }
    ensures serves { ServesStream
        (I.remaining (device_inner (input_of exchange.old)))
        (I.remaining (device_inner (input_of exchange.new)))
        (O.contents (device_inner (output_of exchange.old)))
        (O.contents (device_inner (output_of exchange.new)))
        engine.old.content engine.new.content result }
    ensures fault { DeviceFaults result
        (device_failed (input_of exchange.new)) (device_failed (output_of exchange.new))
        (device_reads (input_of exchange.old)) (device_reads (input_of exchange.new))
        (device_stalls (output_of exchange.old)) (device_stalls (output_of exchange.new)) }
{
    match run(alloc, engine, exchange) {
        Ok(Ended::Clean) => Ok(()),
        Ok(Ended::Malformed) => Err(Fault::MalformedFrame),
        Ok(Ended::Truncated) => Err(Fault::CutFrame),
        Err(RunError::OutOfMemory) => Err(Fault::OutOfMemory),
        Err(RunError::ReadFault) => Err(Fault::CannotReadInput),
        Err(RunError::WriteFault) => Err(Fault::CannotWriteOutput),
    }
}
