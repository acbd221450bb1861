//! The laws of frames. Each function does nothing: its contract is the law.
ghost use Rattle.frame_codec.specs.FrameLaws.{EventIsReadAgain, ReadBytesAreTheBody, ConnIsRead, OneFrameIsOfOneEvent, NoFrameBeginsAnother};
ghost use Rattle.frame_codec.specs.FrameLaws.{StreamHasOneReading, StreamIsRead, ReadingIsTheOnlyOne};

/// Does nothing. Its contract is the law that the body of an event is read as that event.
pub fn event_is_read_again()
    ensures { EventIsReadAgain }
{}

/// Does nothing. Its contract is the law that bytes which are read as an event are its body, and that its numbers fit.
pub fn read_bytes_are_the_body()
    ensures { ReadBytesAreTheBody }
{}

/// Does nothing. Its contract is the law that the connection which a body names is its event's.
pub fn conn_is_read()
    ensures { ConnIsRead }
{}

/// Does nothing. Its contract is the law that two events with the same frame are the same event.
pub fn one_frame_is_of_one_event()
    ensures { OneFrameIsOfOneEvent }
{}

/// Does nothing. Its contract is the law that no frame is a proper prefix of another.
pub fn no_frame_begins_another()
    ensures { NoFrameBeginsAnother }
{}

/// Does nothing. Its contract is the law that a stream is read in one way, however it was cut into pieces.
pub fn stream_has_one_reading()
    ensures { StreamHasOneReading }
{}

/// Does nothing. Its contract is the law that the definition `read_stream` gives a reading of each stream of bytes.
pub fn stream_is_read()
    ensures { StreamIsRead }
{}

/// Does nothing. Its contract is the law that a stream has no other reading than the one that `read_stream` gives.
pub fn reading_is_the_only_one()
    ensures { ReadingIsTheOnlyOne }
{}
