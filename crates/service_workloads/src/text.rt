//! Texts of words and numbers.

use itoa::Buffer;
use std::alloc::{AllocError, Global};

/// A text that is put together.
#[derive(Drop)]
pub(crate) struct Text {
    bytes: Vec<u8>,
}

impl Text {
    pub(crate) fn new(alloc: Global) -> Text {
        Text {
            bytes: Vec::new(alloc),
        }
    }

    /// The text begins anew, with these words.
    pub(crate) fn begin(&mut self, words: &[u8]) -> Result<(), AllocError> {
        self.bytes.clear();
        self.add(words)
    }

    pub(crate) fn add(&mut self, words: &[u8]) -> Result<(), AllocError> {
        self.bytes.extend_from_slice(words)
    }

    pub(crate) fn add_number(&mut self, number: u32) -> Result<(), AllocError> {
        let mut buffer = Buffer::new();
        self.add(buffer.format(number).as_bytes())
    }

    /// A line that sets an attribute to a number.
    pub(crate) fn set(&mut self, name: &[u8], number: u32) -> Result<(), AllocError> {
        self.add(name)?;
        self.add(b":n:")?;
        self.add_number(number)?;
        self.add(b"\n")
    }

    pub(crate) fn as_slice(&self) -> &[u8] {
        self.bytes.as_slice()
    }
}
