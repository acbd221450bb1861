//! The frames of what sessions were answered, made from the history.
ghost use Rattle.std.specs.Prelude.{◌≡◌, All, IfOk, OnOk};
ghost use Rattle.pps_dispatch.specs.History.{joined, frames_for, with_frames_of, HaveFrames};
ghost use Rattle.pps_dispatch.specs.Named.{Names};

use crate::fault::ServeError;
use crate::named_entry::entry_at;
use crate::session::Session;
use frame_codec::encode_outcome;
use pps_lock::Segment;
use std::alloc::Global;

// The frames of what a session was answered.
fn frames_of(alloc: Global, segments: &[Segment], session: &Session) -> Result<Vec<u8>, ServeError>
    requires { Names segments.now session.now }
    ensures { IfOk result (λ frames. frames.items
        ≡ frames_for session.now.connection (joined segments.now)) }
{
    let mut frames = Vec::new(alloc);
    for name in session.receipts() {
        let entry = entry_at(segments, *name);
        let frame = encode_outcome(alloc, entry.event().conn, entry.reply())?;
        frames.extend_from_slice(frame.as_slice())?;
    }
    Ok(frames)
}

// Gives a session the frames of what it was answered.
fn give_frames(alloc: Global, segments: &[Segment], session: &mut Session) -> Result<(), ServeError>
    requires { Names segments.now session.old }
    ensures { OnOk result (session.new ≡ with_frames_of segments.now session.old) }
{
    session.replies = frames_of(alloc, segments, session)?;
    Ok(())
}

/// Gives each session the frames of what it was answered.
pub(crate) fn frame_answers(
    alloc: Global,
    segments: &[Segment],
    sessions: &mut [Session],
) -> Result<(), ServeError>
    requires { All (Names segments.now) sessions.old }
    ensures { OnOk result (HaveFrames segments.now sessions.old sessions.new) }
{
    for number in 0..sessions.len() {
        give_frames(alloc, segments, &mut sessions[number])?;
    }
    Ok(())
}
