//! Readers and writers whose calls fail after some bytes.

use std::alloc::Global;
use std::io;
use std::io::{ErrorKind, Read, Write};

/// How many bytes a read gives at most.
const PIECE: usize = 7;

/// Gives a few bytes a read, and fails after so many reads.
#[derive(Drop)]
pub(crate) struct Slow<'b> {
    pub(crate) bytes: &'b [u8],
    /// How many reads there will be before one fails.
    reads: usize,
    /// How often it was read since it failed.
    pub(crate) late: usize,
    error: ErrorKind,
}

impl<'b> Slow<'b> {
    pub(crate) fn new(bytes: &'b [u8], reads: usize) -> Slow<'b> {
        Slow {
            bytes,
            reads,
            late: 0,
            error: error_of(reads).unwrap_or(ErrorKind::Other),
        }
    }
}

impl Read for Slow<'_> {
    fn read(&mut self, buf: &mut [u8]) -> io::Result<usize> {
        if self.reads == 0 {
            self.late = self.late.saturating_add(1);
            return Err(self.error.into());
        }
        self.reads -= 1;
        let count = PIECE.min(self.bytes.len()).min(buf.len());
        buf[..count].copy_from_slice(&self.bytes[..count]);
        self.bytes = &self.bytes[count..];
        Ok(count)
    }
}

/// Takes a few bytes a write, and fails, or takes nothing, once it has so many.
#[derive(Drop)]
pub(crate) struct Narrow {
    pub(crate) taken: Vec<u8>,
    room: usize,
    /// How often it was to take bytes that it had no room for.
    pub(crate) late: usize,
    /// The error of a write that it has no room for; without one it takes nothing.
    error: Option<ErrorKind>,
}

impl Narrow {
    pub(crate) fn new(alloc: Global, room: usize) -> Narrow {
        Narrow {
            taken: Vec::new(alloc),
            room,
            late: 0,
            error: error_of(room),
        }
    }
}

impl Write for Narrow {
    fn write(&mut self, buf: &[u8]) -> io::Result<usize> {
        let count = self.room.min(buf.len()).min(PIECE);
        if count == 0 && !buf.is_empty() {
            self.late = self.late.saturating_add(1);
            return match self.error {
                Some(error) => Err(error.into()),
                None => Ok(0),
            };
        }
        self.taken.extend_from_slice(&buf[..count])?;
        self.room -= count;
        Ok(count)
    }

    fn flush(&mut self) -> io::Result<()> {
        Ok(())
    }
}

// One of the errors that a device may have, or none.
fn error_of(number: usize) -> Option<ErrorKind> {
    match number % 3 {
        0 => Some(ErrorKind::TimedOut),
        1 => Some(ErrorKind::Interrupted),
        _ => None,
    }
}
