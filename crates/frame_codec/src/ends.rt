//! How a stream ends.

/// How a stream ended.
#[derive(Clone, Copy, Debug, PartialEq, Eq)]
pub enum Ended {
    /// Behind a whole frame, or before the first.
    Clean,
    /// At a malformed frame.
    Malformed,
    /// Within a frame.
    Truncated,
}
