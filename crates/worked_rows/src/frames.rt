//! The frames of the first path, and frames that are malformed, computed by the definitions of frames.
ghost use Rattle.worked_rows.specs.FirstFrames.{RequestsAreRead, EventsAreSpelled, AnswersAreSpelled, BadFrameIsSpelled};
ghost use Rattle.worked_rows.specs.FirstFrames.{LengthOfZeroIsMalformed, FiveBytesAreARest};
ghost use Rattle.worked_rows.specs.WrongFrames.{WrongFramesAreMalformed, LongestBodyIsAwaited};

/// Does nothing. Its contract is that the request frames of the first path are read as its events.
pub fn requests_are_read()
    ensures { RequestsAreRead }
{}

/// Does nothing. Its contract is that the events of the first path are spelled by its request frames.
pub fn events_are_spelled()
    ensures { EventsAreSpelled }
{}

/// Does nothing. Its contract is that the answers of the first path are spelled by its answer frames.
pub fn answers_are_spelled()
    ensures { AnswersAreSpelled }
{}

/// Does nothing. Its contract is that the answer to a malformed frame is spelled by these twelve bytes.
pub fn bad_frame_is_spelled()
    ensures { BadFrameIsSpelled }
{}

/// Does nothing. Its contract is that a length of 0 behind the first path's frames is malformed.
pub fn length_of_zero_is_malformed()
    ensures { LengthOfZeroIsMalformed }
{}

/// Does nothing. Its contract is that five bytes of a frame of seven behind the first path's frames are a rest.
pub fn five_bytes_are_a_rest()
    ensures { FiveBytesAreARest }
{}

/// Does nothing. Its contract is that each of the wrong frames is malformed.
pub fn wrong_frames_are_malformed()
    ensures { WrongFramesAreMalformed }
{}

/// Does nothing. Its contract is that the length of the longest body is the beginning of a frame.
pub fn longest_body_is_awaited()
    ensures { LongestBodyIsAwaited }
{}
