//! What a stream's end is answered by.
ghost use Rattle.std.specs.Prelude.{◌≡◌};
ghost use Rattle.pps_types.specs.Device.{device_failed, device_stalls};
ghost use Rattle.pps_types.specs.Exchange.{input_of, output_of};
ghost use Rattle.pps_frame.specs.Sent.{AnswersEnd, WriteFaultIs};

use crate::ends::RunError;
use frame_codec::Ended;
use pps_types::Exchange;
use std::io::Write;

/// The frame that answers a malformed frame, or a rest at the end: BadFrame, to no connection.
const BAD_FRAME: [u8; 12] = [0, 0, 0, 8, 0, 0, 0, 2, 0, 0, 0, 0];

/// Answers the end, if it is no clean one.
pub(crate) fn answer_end<R, W: Write>(
    exchange: &mut Exchange<R, W>,
    ended: Ended,
) -> Result<Ended, RunError>
    ensures bytes { AnswersEnd W.contents exchange.old exchange.new ended result }
    ensures fault { WriteFaultIs result
        (device_failed (output_of exchange.old)) (device_failed (output_of exchange.new))
        (device_stalls (output_of exchange.old)) (device_stalls (output_of exchange.new)) }
    ensures input { input_of exchange.new ≡ input_of exchange.old }
{
    match ended {
        Ended::Clean => {}
        Ended::Malformed | Ended::Truncated => exchange.answer(&BAD_FRAME)?,
    }
    Ok(ended)
}
