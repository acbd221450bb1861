//! A stream of requests, served from its first byte to its last.
ghost use Rattle.std.specs.Prelude.{◌≡◌, ◌<◌, ◌≤◌, ◌++◌, ◌∷◌, [], false, length, vec_capacity};
ghost use Rattle.pps_types.specs.Device.{device_inner, device_failed, device_reads, device_stalls};
ghost use Rattle.pps_types.specs.Exchange.{input_of, output_of, held_in};
ghost use Rattle.pps_frame.specs.Served.{Ran, FaultsAre};
ghost use Rattle.pps_frame.specs.Sent.{ServesEvents, TakesPiece, WriteFaultIs, RunsPieces, PieceFaultsAre, ends_cut_off};

use crate::closing::answer_end;
use crate::ends::RunError;
use frame_codec::{Decoder, Ended, Fed, put_outcome};
use pps_engine::Engine;
use pps_types::limits::{PIECE, READS_MAX};
use pps_types::{Event, Exchange};
use std::alloc::Global;
use std::io::{Read, Write};

/// How many bytes of room the buffer for answers' frames keeps at most from one answer to the next.
const KEPT: usize = 65_536;

// Serves a request. Its answer's frame is made in the buffer, in place of what it held.
fn serve<R, W: Write>(
    alloc: Global,
    frame: &mut Vec<u8>,
    engine: &mut Engine,
    exchange: &mut Exchange<R, W>,
    event: &Event,
) -> Result<(), RunError>
    ensures served { ServesEvents W.contents exchange.old exchange.new
        engine.old.content engine.new.content (event.now ∷ []) result }
    ensures fault { WriteFaultIs result
        (device_failed (output_of exchange.old)) (device_failed (output_of exchange.new))
        (device_stalls (output_of exchange.old)) (device_stalls (output_of exchange.new)) }
    ensures input { input_of exchange.new ≡ input_of exchange.old }
{
    let answer = engine.step(event);
    put_outcome(alloc, frame, event.conn, &answer)?;
    exchange.answer(frame.as_slice())?;
    Ok(())
}

// Gives back the room of a buffer where that is more than is kept.
fn give_back(alloc: Global, frame: &mut Vec<u8>)
    ensures { vec_capacity frame.new ≤ 65536 }
{
    if frame.capacity() > KEPT {
        *frame = Vec::new(alloc);
    }
}

// Serves requests in their order. Their answers' frames are made in one buffer. The room of a long one is given back as
// soon as it is taken.
fn serve_all<R, W: Write>(
    alloc: Global,
    engine: &mut Engine,
    exchange: &mut Exchange<R, W>,
    events: &[Event],
) -> Result<(), RunError>
    ensures served { ServesEvents W.contents exchange.old exchange.new
        engine.old.content engine.new.content events.now result }
    ensures fault { WriteFaultIs result
        (device_failed (output_of exchange.old)) (device_failed (output_of exchange.new))
        (device_stalls (output_of exchange.old)) (device_stalls (output_of exchange.new)) }
    ensures input { input_of exchange.new ≡ input_of exchange.old }
{
    let mut frame = Vec::new(alloc);
    'events: for event in events {
        serve(alloc, &mut frame, engine, exchange, event)?;
        give_back(alloc, &mut frame);
    }
    Ok(())
}

// Takes the next piece of the stream, and says whether a malformed frame was met.
fn serve_piece<R, W: Write>(
    alloc: Global,
    engine: &mut Engine,
    decoder: &mut Decoder,
    exchange: &mut Exchange<R, W>,
    piece: &[u8],
) -> Result<bool, RunError>
    requires { decoder.old.failed ≡ false }
    ensures served { TakesPiece W.contents exchange.old exchange.new
        engine.old.content engine.new.content (decoder.old.rest ++ piece.now) decoder.new result }
    ensures fault { WriteFaultIs result
        (device_failed (output_of exchange.old)) (device_failed (output_of exchange.new))
        (device_stalls (output_of exchange.old)) (device_stalls (output_of exchange.new)) }
    ensures input { input_of exchange.new ≡ input_of exchange.old }
{
    match decoder.feed(alloc, piece) {
        Err(_) => Err(RunError::OutOfMemory),
        Ok(Fed { events, bad }) => {
            serve_all(alloc, engine, exchange, &events)?;
            Ok(bad)
        }
    }
}

// Reads to the end. What is answered is sent before each read, since that may have to wait.
fn run_pieces<R: Read, W: Write>(
    alloc: Global,
    engine: &mut Engine,
    exchange: &mut Exchange<R, W>,
    buffer: &mut [u8],
) -> Result<Ended, RunError>
    requires room { 0 < length buffer.old }
    requires input { device_failed (input_of exchange.old) ≡ false }
    requires output { device_failed (output_of exchange.old) ≡ false }
    requires held { held_in exchange.old ≡ [] }
    ensures runs { RunsPieces R.remaining W.contents exchange.old exchange.new
        engine.old.content engine.new.content result }
    ensures fault { PieceFaultsAre exchange.old exchange.new result }
{
    let mut decoder = Decoder::new(alloc);
    'pieces: for _ in 0..READS_MAX {
        exchange.send()?;
        let count = match exchange.read(buffer) {
            Ok(0) => return answer_end(exchange, decoder.ended()),
            Ok(count) => count,
            Err(_) => return Err(RunError::ReadFault),
        };
        if serve_piece(alloc, engine, &mut decoder, exchange, &buffer[..count])? {
            return answer_end(exchange, Ended::Malformed);
        }
    }
    exchange.send()?;
    Err(RunError::ReadFault)
}

// Whether a stream ended since a device failed. Nothing is left to be sent then, or nothing can be.
fn is_cut_off(ended: &Result<Ended, RunError>) -> bool
    ensures { result ≡ ends_cut_off ended.now }
{
    matches!(ended, Err(RunError::ReadFault | RunError::WriteFault))
}

/// Serves a stream of requests: each frame that is read is answered by a frame, in order. Answers are sent before more is
/// read.
///
/// A malformed frame, or a rest at the end, is answered by BadFrame to no connection, and ends the run. OutOfMemory comes
/// if memory is wanting for what is read or for an answer's frame; ReadFault if the reader fails, or was read
/// 4,294,967,295 times: the frames that were whole are answered; WriteFault if the writer fails, or takes none of some
/// bytes. What was written until then answers the first requests that were read, and the engine has the state that these
/// leave.
pub fn run<R: Read, W: Write>(
    alloc: Global,
    engine: &mut Engine,
    exchange: &mut Exchange<R, W>,
) -> Result<Ended, RunError>
    requires input { device_failed (input_of exchange.old) ≡ false }
    requires output { device_failed (output_of exchange.old) ≡ false }
    requires held { held_in exchange.old ≡ [] }
    ensures ran { Ran
        (R.remaining (device_inner (input_of exchange.old)))
        (R.remaining (device_inner (input_of exchange.new)))
        (W.contents (device_inner (output_of exchange.old)))
        (W.contents (device_inner (output_of exchange.new)))
        engine.old.content engine.new.content result }
    ensures fault { FaultsAre result
        (device_failed (input_of exchange.new)) (device_failed (output_of exchange.new))
        (device_reads (input_of exchange.old)) (device_reads (input_of exchange.new))
        (device_stalls (output_of exchange.old)) (device_stalls (output_of exchange.new)) }
{
    let mut buffer = Vec::new(alloc);
    buffer.resize(PIECE, 0u8)?;
    let ended = run_pieces(alloc, engine, exchange, buffer.as_mut_slice());
    if is_cut_off(&ended) {
        return ended;
    }
    exchange.send()?;
    ended
}
