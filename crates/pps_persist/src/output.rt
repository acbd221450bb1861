//! Text, written in pieces.
ghost use Rattle.std.specs.Prelude.{◌≡◌, false, []};
ghost use Rattle.pps_types.specs.Device.{device_failed};
ghost use Rattle.pps_persist.specs.Sent.{SendsTo, FlushesTo, AnswersSendFault, AnswersWriteFault};

use crate::errors::SaveError;
use pps_types::Device;
use std::alloc::Global;
use std::io::Write;

// Writes all of the bytes. An error tells how many were written before the writer failed, or took none of the rest.
fn send<W: Write>(device: &mut Device<W>, bytes: &[u8]) -> Result<(), usize>
    requires { device_failed device.old ≡ false }
    ensures sent { SendsTo W.contents device.old device.new bytes.now result }
    ensures fault { AnswersSendFault device.old device.new result }
{
    let mut at = 0;
    'parts: while at < bytes.len() {
        match device.write(&bytes[at..]) {
            Ok(0) => return Err(at),
            Ok(count) => at += count,
            Err(_) => return Err(at),
        }
    }
    Ok(())
}

/// A text, of which the first bytes were written and the last stand in a buffer.
#[derive(Drop)]
pub(crate) struct Output {
    /// What was printed and not written yet.
    pub(crate) buffer: Vec<u8>,
    /// How many bytes were written.
    pub(crate) sent: u64,
}

impl Output {
    pub(crate) fn new(alloc: Global) -> Output
        ensures buffer { result.buffer.items ≡ [] }
        ensures sent { result.sent ≡ 0 }
    {
        Output {
            buffer: Vec::new(alloc),
            sent: 0,
        }
    }

    /// Writes all that was printed. OutOfMemory comes where so many bytes can't be counted.
    pub(crate) fn flush<W: Write>(&mut self, device: &mut Device<W>) -> Result<(), SaveError>
        requires { device_failed device.old ≡ false }
        ensures flushed { FlushesTo W.contents device.old device.new self.old self.new result }
        ensures fault { AnswersWriteFault device.old device.new result }
    {
        let sent = self.sent;
        let Some(whole) = sent.checked_add(self.buffer.len() as u64) else {
            return Err(SaveError::OutOfMemory { sent });
        };
        if let Err(at) = send(device, &self.buffer) {
            let sent = sent + at as u64;
            return Err(SaveError::WriteFault { sent });
        }
        self.buffer.clear();
        self.sent = whole;
        Ok(())
    }
}
