//! Limits that a script would reach only after thousands of messages, at machines that are built close to them.
ghost use Rattle.worked_rows.specs.Limits.{FullDirectory, FullOutbox, LastHandle, LastRecord, ManyAttributes};

/// The last handle number is given once, and after it no open is accepted.
pub fn last_handle()
    ensures { LastHandle }
{}

/// A directory holds 256 objects. A server may still replace one of them, and a directory beside them may be made.
pub fn full_directory()
    ensures { FullDirectory }
{}

/// Where the last record has been made, what would make one more is refused, behind all other checks.
pub fn last_record()
    ensures { LastRecord }
{}

/// A connection has no more than 1,024 queued items, armed pulses and parked reads together; a handle's own armed pulse
/// is not counted when it is armed again.
pub fn full_outbox()
    ensures { FullOutbox }
{}

/// An object has at most 1,024 attributes, judged by what it has after the whole write.
pub fn many_attributes()
    ensures { ManyAttributes }
{}
