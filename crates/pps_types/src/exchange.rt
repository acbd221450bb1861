//! Requests that come in, and their answers, which go out before more is read.
ghost use Rattle.std.specs.Prelude.{◌≡◌, [], IfOk};
ghost use Rattle.std.specs.Io.{ReadsAtMost};
ghost use Rattle.pps_types.specs.Device.{RecordsFailure, CountsRead};
ghost use Rattle.pps_types.specs.Exchange.{input_of, output_of, held_in};
ghost use Rattle.pps_types.specs.Exchange.{ReadsInput, AddsAnswer, AddsFirstAnswer, SendsAnswers, FailsWithOutput, AnswersOutputFault};
ghost use Rattle.pps_types.specs.declared.exchange.AnswerFault.TheVariants.{OutOfMemory, WriteFault};

use crate::device::{Device, WriteFault};
use std::alloc::{AllocError, Global};
use std::io;
use std::io::{Read, Write};

/// How many bytes of answers are held at most.
const HELD_MAX: usize = 65_536;

/// Why an answer was not taken.
#[derive(Clone, Copy, Debug, PartialEq, Eq)]
pub enum AnswerFault {
    /// Memory was wanting. The answer is not held.
    OutOfMemory,
    /// The writer failed, or took none of some bytes.
    WriteFault,
}

impl From<AllocError> for AnswerFault {
    ghost from_gives = { λ _ fault. fault ≡ OutOfMemory };

    fn from(_refused: AllocError) -> AnswerFault {
        AnswerFault::OutOfMemory
    }
}

impl From<WriteFault> for AnswerFault {
    ghost from_gives = { λ _ fault. fault ≡ WriteFault };

    fn from(_fault: WriteFault) -> AnswerFault {
        AnswerFault::WriteFault
    }
}

/// An input, an output, and the answers that are held until they are sent.
///
/// Answers are gathered, at most 65,536 bytes of them, so that few writes are made. Nothing can be read while some are
/// held: whoever waits for an answer before they send the next request has it.
#[derive(Drop)]
pub struct Exchange<R, W> {
    input: Device<R>,
    output: Device<W>,
    held: Vec<u8>,
}

impl<R: Drop, W: Drop> Exchange<R, W> {
    /// An exchange over this input and output. Memory for what is held is taken here, once.
    pub fn new(alloc: Global, input: Device<R>, output: Device<W>) -> Result<Self, AllocError>
        ensures input { IfOk result (λ exchange. input_of exchange ≡ input) }
        ensures output { IfOk result (λ exchange. output_of exchange ≡ output) }
        ensures held { IfOk result (λ exchange. held_in exchange ≡ []) }
    {
        let held = Vec::with_capacity(alloc, HELD_MAX)?;
        Ok(Exchange {
            input,
            output,
            held,
        })
    }
}

impl<R, W> Exchange<R, W> {
    ghost use Rattle.std.specs.Borrow.{sem, Lends};
    ghost use Rattle.pps_types.specs.contracts.exchange.Exchange.{the_row};
    ghost use Rattle.pps_types.specs.contracts.device.Device.{the_row as device_row};
    ghost use Rattle.pps_types.specs.Exchange.{with_output};

    /// The output, lent. What is written to it comes before what is held.
    pub fn output(&mut self) -> &mut Device<W>
        ensures* writes_back { sem 𝓛 (Lends (the_row R.row W.row) (device_row W.row) self.entry result
            (with_output self.old)) }
        ensures value { result.now ≡ output_of self.old }
    {
        &mut self.output
    }
}

impl<R: Read, W> Exchange<R, W> {
    /// Reads once, and passes the answer on.
    pub fn read(&mut self, buf: &mut [u8]) -> io::Result<usize>
        requires { held_in self.old ≡ [] }
        ensures bound { ReadsAtMost result buf.new }
        ensures bytes { ReadsInput R.remaining self.old self.new result buf.new }
        ensures failed { RecordsFailure (input_of self.old) (input_of self.new) result }
        ensures reads { CountsRead (input_of self.old) (input_of self.new) }
        ensures output { output_of self.new ≡ output_of self.old }
        ensures held { held_in self.new ≡ [] }
    {
        self.input.read(buf)
    }
}

impl<R, W: Write> Exchange<R, W> {
    // Writes what is held.
    fn write_held(&mut self) -> Result<(), WriteFault>
        ensures bytes { SendsAnswers W.contents self.old self.new result }
        ensures fault { FailsWithOutput self.old self.new result }
        ensures input { input_of self.new ≡ input_of self.old }
    {
        self.output.write_all(self.held.as_slice())?;
        self.held.clear();
        Ok(())
    }

    // Takes an answer where nothing is held: it is held, or written if it is longer than all the room.
    fn answer_first(&mut self, bytes: &[u8]) -> Result<(), AnswerFault>
        requires { held_in self.old ≡ [] }
        ensures bytes { AddsFirstAnswer W.contents self.old self.new bytes.now result }
        ensures fault { AnswersOutputFault self.old self.new result }
        ensures input { input_of self.new ≡ input_of self.old }
    {
        if bytes.len() <= HELD_MAX {
            self.held.extend_from_slice(bytes)?;
            return Ok(());
        }
        self.output.write_all(bytes)?;
        Ok(())
    }

    /// Adds an answer to those that are held. If there is no room for it, those are written first; if it is longer than
    /// all the room, it is written too.
    #[inline(always)]
    pub fn answer(&mut self, bytes: &[u8]) -> Result<(), AnswerFault>
        ensures bytes { AddsAnswer W.contents self.old self.new bytes.now result }
        ensures fault { AnswersOutputFault self.old self.new result }
        ensures input { input_of self.new ≡ input_of self.old }
    {
        if bytes.len() <= HELD_MAX.saturating_sub(self.held.len()) {
            self.held.extend_from_slice(bytes)?;
            return Ok(());
        }
        self.write_held()?;
        self.answer_first(bytes)
    }

    /// Sends all that is held, and passes on what the writer itself keeps back.
    pub fn send(&mut self) -> Result<(), WriteFault>
        ensures bytes { SendsAnswers W.contents self.old self.new result }
        ensures fault { FailsWithOutput self.old self.new result }
        ensures input { input_of self.new ≡ input_of self.old }
    {
        self.write_held()?;
        self.output.flush()
    }
}
