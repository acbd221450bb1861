//! Values as the program shows them.

use crate::bytes::Bytes;

/// What the value of an attribute says under its encoding.
#[derive(Debug, PartialEq, Eq, Drop)]
pub enum Shown {
    /// Its encoding has no meaning of its own.
    Plain,
    /// Encoding `b`.
    Flag(bool),
    /// Encoding `b64`.
    Bytes(Bytes),
    /// Its encoding is `b` or `b64`, and the value is none of that encoding.
    Bad,
}
